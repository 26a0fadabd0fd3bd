//! Index files that are built, described and upgraded, against bytes by hand; and each call of the shelf that fails in turn.
use crate::runs::play_cases;
use std::alloc::AllocError;

/// The small book, the first three rows of the base, and an index of version 1.
const FILES: &str = "
file book book
file base base <24
file old index1 book old_rows
";

/// Indexes that are built, described and upgraded, and inputs that stop a run.
const CASES: &str = "
# an index is built and described
file book book
file base base <24
> build book base index
| build rows 3 cells 2
= Done
left index index2 book new_rows
> info index
| info d 4 h 2 k0 2 k1 2 shape 4-4-4-4 g 1 rows 3 cells 2
= Done

# an index without rows is built and described
file book book
file base
> build book base index
| build rows 0 cells 0
= Done
left index index2 book 0 0 0 0 0 0 0 0
> info index
| info d 4 h 2 k0 2 k1 2 shape 4-4-4-4 g 1 rows 0 cells 0
= Done

# a book of version 2 shows its scale
file book wide
file base base <24
> build book base index
| build rows 3 cells 2
= Done
left index index2 8=171 wide new_rows
> info index
| info d 4 h 2 k0 2 k1 2 shape 4-4-4-4 g 1 rows 3 cells 2 scale 4
= Done

# an index of either version is upgraded
> upgrade old new
| upgrade rows 3 cells 2
= Done
left new index2 book new_rows
> upgrade new again
| upgrade rows 3 cells 2
= Done
left again index2 book new_rows
left old index1 book old_rows

# an output has a name of its own, and other words fit no command
fail 1 0
> build book base book
| stop usage
= Usage
faults 0 0

# an output has a name of its own, and other words fit no command
fail 1 0
> build book base base
| stop usage
= Usage
faults 0 0

# an output has a name of its own, and other words fit no command
fail 1 0
> build book base
| stop usage
= Usage
faults 0 0

# an output has a name of its own, and other words fit no command
fail 1 0
> build book  index
| stop usage
= Usage
faults 0 0

# an output has a name of its own, and other words fit no command
fail 1 0
> upgrade old old
| stop usage
= Usage
faults 0 0

# an output has a name of its own, and other words fit no command
fail 1 0
> upgrade old
| stop usage
= Usage
faults 0 0

# an output has a name of its own, and other words fit no command
fail 1 0
> info
| stop usage
= Usage
faults 0 0

# an output has a name of its own, and other words fit no command
fail 1 0
> info old old
| stop usage
= Usage
faults 0 0

# a wrong input stops a run before it writes
file long index1 book old_rows 0
> info no
| stop missing index
= Missing
none out

# a wrong input stops a run before it writes
file long index1 book old_rows 0
> upgrade no out
| stop missing index
= Missing
none out

# a wrong input stops a run before it writes
file long index1 book old_rows 0
> build no no out
| stop missing book
= Missing
none out

# a wrong input stops a run before it writes
file long index1 book old_rows 0
> build book no out
| stop missing base
= Missing
none out

# a wrong input stops a run before it writes
file long index1 book old_rows 0
> info book
| stop malformed index at 0
= Malformed
none out

# a wrong input stops a run before it writes
file long index1 book old_rows 0
> upgrade long out
| stop malformed index at 144
= Malformed
none out

# a wrong input stops a run before it writes
file long index1 book old_rows 0
> build base no out
| stop malformed book at 0
= Malformed
none out

# a wrong input stops a run before it writes
file long index1 book old_rows 0
> build book book out
| stop limit base d 1111704641
= Limit
none out
";

/// Each call that fails in turn, and keeps 5 bytes if it is a write. A build writes over the old index: the book and the base are
/// read by two calls each, and each row by one. An upgrade reads the length, the front, the book, the counts and the rows by a call
/// each.
const FAULTS: &str = "
# call 1 fails
fail 1 5
> build book base old
| stop read book
= ReadFault
left old index1 book old_rows
left base base <24

# call 2 fails
fail 2 5
> build book base old
| stop read book
= ReadFault
left old index1 book old_rows
left base base <24

# call 3 fails
fail 3 5
> build book base old
| stop read base
= ReadFault
left old index1 book old_rows
left base base <24

# call 4 fails
fail 4 5
> build book base old
| stop read base
= ReadFault
left old index1 book old_rows
left base base <24

# call 5 fails
fail 5 5
> build book base old
| stop read base
= ReadFault
left old index1 book old_rows
left base base <24

# call 6 fails
fail 6 5
> build book base old
| stop read base
= ReadFault
left old index1 book old_rows
left base base <24

# call 7 fails
fail 7 5
> build book base old
| stop read base
= ReadFault
left old index1 book old_rows
left base base <24

# call 8 fails
fail 8 5
> build book base old
| stop write index
= WriteFault
left old index1 book old_rows
left base base <24

# call 9 fails
fail 9 5
> build book base old
| stop write index
= WriteFault
left old index2 book new_rows <5
left base base <24

# call 10, behind the last one, fails
fail 10 5
> build book base old
| build rows 3 cells 2
= Done
left old index2 book new_rows
left base base <24

# call 1 fails
fail 1 5
> upgrade old new
| stop read index
= ReadFault
none new
left base base <24

# call 2 fails
fail 2 5
> upgrade old new
| stop read index
= ReadFault
none new
left base base <24

# call 3 fails
fail 3 5
> upgrade old new
| stop read index
= ReadFault
none new
left base base <24

# call 4 fails
fail 4 5
> upgrade old new
| stop read index
= ReadFault
none new
left base base <24

# call 5 fails
fail 5 5
> upgrade old new
| stop read index
= ReadFault
none new
left base base <24

# call 6 fails
fail 6 5
> upgrade old new
| stop write out
= WriteFault
none new
left base base <24

# call 7 fails
fail 7 5
> upgrade old new
| stop write out
= WriteFault
left new index2 book new_rows <5
left base base <24

# call 8, behind the last one, fails
fail 8 5
> upgrade old new
| upgrade rows 3 cells 2
= Done
left new index2 book new_rows
left base base <24

# a line that fails leaves the index whole
cut 1 5
> build book base index
. build
= WriteFault
left index index2 book new_rows
";

#[test]
fn indexes_are_built_described_and_upgraded(rt: HostRuntime) -> Result<(), AllocError> {
    play_cases(&rt, FILES, CASES)
}

#[test]
fn each_call_of_a_build_and_an_upgrade_fails_in_turn(rt: HostRuntime) -> Result<(), AllocError> {
    play_cases(&rt, FILES, FAULTS)
}
