//! Searches over an index of three rows, against lines and rows of ids by hand; and each call of the shelf that fails in turn.
use crate::runs::play_cases;
use std::alloc::AllocError;

/// The index in both versions, one without rows, and the query of zeros.
const FILES: &str = "
file old index1 book old_rows
file new index2 book new_rows
file empty index2 book 0 0 0 0 0 0 0 0
file queries queries
";

/// Searches and their ids, wrong inputs, and words that fit none.
const CASES: &str = "
# ids are filled up to k
> search old queries 2 3 out
| query 0 cells 3 live 3 full 2
| search queries 1
= Done
left out 2 0 0 0 0 0 0 0 2 0 0 0

# ids are filled up to k
> search new queries 2 3 out
| query 0 cells 3 live 3 full 2
| search queries 1
= Done
left out 2 0 0 0 0 0 0 0 2 0 0 0

# ids are filled up to k
> search old queries 5 9 out
| query 0 cells 3 live 3 full 3
| search queries 1
= Done
left out 5 0 0 0 0 0 0 0 2 0 0 0 1 0 0 0 255 255 255 255 255 255 255 255

# ids are filled up to k
> search empty queries 1 1 out
| query 0 cells 0 live 0 full 0
| search queries 1
= Done
left out 1 0 0 0 255 255 255 255

# queries are answered in order
file queries 4 0 0 0 0 0 0 0 4 0 0 0 130 120 10 0
file out 7 7
> search old queries 1 1 out
| query 0 cells 1 live 2 full 1
| query 1 cells 1 live 1 full 1
| search queries 2
= Done
left out 1 0 0 0 0 0 0 0 1 0 0 0 1 0 0 0

# queries are answered in order
file queries
file out 7 7
> search old queries 1 1 out
| search queries 0
= Done
left out

# an input that is wrong leaves the output
file threes 3 0 0 0 1 2 3
file out 7 7
> search old no 1 1 out
| stop missing queries
= Missing
left out 7 7

# an input that is wrong leaves the output
file threes 3 0 0 0 1 2 3
file out 7 7
> search no no 1 1 out
| stop missing index
= Missing
left out 7 7

# an input that is wrong leaves the output
file threes 3 0 0 0 1 2 3
file out 7 7
> search old threes 1 1 out
| stop malformed queries at 0
= Malformed
left out 7 7

# these words fit no command
fail 1 0
> search i q 0 1 o
| stop usage
= Usage
faults 0 0

# these words fit no command
fail 1 0
> search i q 01 1 o
| stop usage
= Usage
faults 0 0

# these words fit no command
fail 1 0
> search i q 1001 1 o
| stop usage
= Usage
faults 0 0

# these words fit no command
fail 1 0
> search i q 1 0 o
| stop usage
= Usage
faults 0 0

# these words fit no command
fail 1 0
> search i q 1 4194305 o
| stop usage
= Usage
faults 0 0

# these words fit no command
fail 1 0
> search i q 1 1 i
| stop usage
= Usage
faults 0 0

# these words fit no command
fail 1 0
> search i q 1 1 q
| stop usage
= Usage
faults 0 0

# these words fit no command
fail 1 0
> search i q 1 1
| stop usage
= Usage
faults 0 0
";

/// Calls of a search of two queries, zeros and the second row of the base, that fail, and keep 5 bytes if they are writes.
const FAULTS: &str = "
# call 5 fails
file queries 4 0 0 0 0 0 0 0 4 0 0 0 130 120 10 0
fail 5 5
> search old queries 1 1 out
| stop read index
= ReadFault
none out

# call 6 fails
file queries 4 0 0 0 0 0 0 0 4 0 0 0 130 120 10 0
fail 6 5
> search old queries 1 1 out
| stop read queries
= ReadFault
none out

# call 8 fails
file queries 4 0 0 0 0 0 0 0 4 0 0 0 130 120 10 0
fail 8 5
> search old queries 1 1 out
| stop write out
= WriteFault
none out

# call 9 fails
file queries 4 0 0 0 0 0 0 0 4 0 0 0 130 120 10 0
fail 9 5
> search old queries 1 1 out
| stop read queries
= ReadFault
left out

# call 10 fails
file queries 4 0 0 0 0 0 0 0 4 0 0 0 130 120 10 0
fail 10 5
> search old queries 1 1 out
| stop write out
= WriteFault
left out 1 0 0 0 0

# call 11 fails
file queries 4 0 0 0 0 0 0 0 4 0 0 0 130 120 10 0
fail 11 5
> search old queries 1 1 out
| query 0 cells 1 live 2 full 1
| stop read queries
= ReadFault
left out 1 0 0 0 0 0 0 0

# call 12 fails
file queries 4 0 0 0 0 0 0 0 4 0 0 0 130 120 10 0
fail 12 5
> search old queries 1 1 out
| query 0 cells 1 live 2 full 1
| stop write out
= WriteFault
left out 1 0 0 0 0 0 0 0 1 0 0 0 1

# call 13, behind the last one, fails
file queries 4 0 0 0 0 0 0 0 4 0 0 0 130 120 10 0
fail 13 5
> search old queries 1 1 out
| query 0 cells 1 live 2 full 1
| query 1 cells 1 live 1 full 1
| search queries 2
= Done
left out 1 0 0 0 0 0 0 0 1 0 0 0 1 0 0 0
";

#[test]
fn ids_are_filled_up_to_k(rt: HostRuntime) -> Result<(), AllocError> {
    play_cases(&rt, FILES, CASES)
}

#[test]
fn each_call_of_a_search_fails_in_turn(rt: HostRuntime) -> Result<(), AllocError> {
    play_cases(&rt, FILES, FAULTS)
}
