//! Queries by radius over an index of three rows, against texts by hand.
use crate::runs::play_cases;
use std::alloc::AllocError;

/// The index, the query (0, 0, 0, 0), (1, 0, 0, 0), both, and other files of queries.
const FILES: &str = "
file index index1 book old_rows
file zero queries
file one 4 0 0 0 1 0 0 0
file two 4 0 0 0 0 0 0 0 4 0 0 0 1 0 0 0
file none
file cut 4 0 0 0 0 0 0 0 4 0 0 0 1 0
file short 1 0 0 0 7
";

/// Rows within a radius, inputs that stop a run, and calls that fail: the index is read by five, the queries are checked by two,
/// and each is read by one.
const CASES: &str = "
# rows within a radius
> radius index zero 16384 3
| query 0 cells 3 live 3 full 2 hits 2
| hit 0 0
| hit 2 16384
| radius queries 1
= Done

# rows within a radius
> radius index zero 0 3
| query 0 cells 3 live 3 full 1 hits 1
| hit 0 0
| radius queries 1
= Done

# rows within a radius
> radius index zero 29184 3
| query 0 cells 3 live 3 full 3 hits 3
| hit 0 0
| hit 2 16384
| hit 1 29184
| radius queries 1
= Done

# rows within a radius
> radius index zero 999999999999999999 4194304
| query 0 cells 3 live 3 full 3 hits 3
| hit 0 0
| hit 2 16384
| hit 1 29184
| radius queries 1
= Done

# rows within a radius
> radius index one 0 1
| query 0 cells 1 live 2 full 0 hits 0
| radius queries 1
= Done

# rows within a radius
> radius index two 0 3
| query 0 cells 3 live 3 full 1 hits 1
| hit 0 0
| query 1 cells 2 live 3 full 0 hits 0
| radius queries 2
= Done

# rows within a radius
> radius index none 0 1
| radius queries 0
= Done

# an input stops a run
> radius no cut 0 1
| stop missing index
= Missing

# an input stops a run
> radius index no 0 1
| stop missing queries
= Missing

# an input stops a run
> radius index cut 0 1
| stop malformed queries at 14
= Malformed

# an input stops a run
> radius index short 0 1
| stop malformed queries at 0
= Malformed

# a radius is a number of a script, and other words fit no command
fail 1 0
> radius index zero 0
| stop usage
= Usage
faults 0 0

# a radius is a number of a script, and other words fit no command
fail 1 0
> radius index zero 0 1 1
| stop usage
= Usage
faults 0 0

# a radius is a number of a script, and other words fit no command
fail 1 0
> radius index zero 00 1
| stop usage
= Usage
faults 0 0

# a radius is a number of a script, and other words fit no command
fail 1 0
> radius index zero 1000000000000000000 1
| stop usage
= Usage
faults 0 0

# a radius is a number of a script, and other words fit no command
fail 1 0
> radius index zero 0 0
| stop usage
= Usage
faults 0 0

# a radius is a number of a script, and other words fit no command
fail 1 0
> radius index zero 0 4194305
| stop usage
= Usage
faults 0 0

# a radius is a number of a script, and other words fit no command
fail 1 0
> radius  zero 0 1
| stop usage
= Usage
faults 0 0

# a radius is a number of a script, and other words fit no command
fail 1 0
> radius index  0 1
| stop usage
= Usage
faults 0 0

# call 1 fails
fail 1 0
> radius index two 0 3
| stop read index
= ReadFault

# call 2 fails
fail 2 0
> radius index two 0 3
| stop read index
= ReadFault

# call 3 fails
fail 3 0
> radius index two 0 3
| stop read index
= ReadFault

# call 4 fails
fail 4 0
> radius index two 0 3
| stop read index
= ReadFault

# call 5 fails
fail 5 0
> radius index two 0 3
| stop read index
= ReadFault

# call 6 fails
fail 6 0
> radius index two 0 3
| stop read queries
= ReadFault

# call 7 fails
fail 7 0
> radius index two 0 3
| stop read queries
= ReadFault

# call 8 fails
fail 8 0
> radius index two 0 3
| stop read queries
= ReadFault

# call 9 fails
fail 9 0
> radius index two 0 3
| query 0 cells 3 live 3 full 1 hits 1
| hit 0 0
| stop read queries
= ReadFault

# call 10, behind the last one, fails
fail 10 0
> radius index two 0 3
| query 0 cells 3 live 3 full 1 hits 1
| hit 0 0
| query 1 cells 2 live 3 full 0 hits 0
| radius queries 2
= Done

# a hit that cannot be written ends the text
cut 2 3
> radius index zero 16384 3
| query 0 cells 3 live 3 full 2 hits 2
. hit
= WriteFault
";

#[test]
fn rows_within_a_radius(rt: HostRuntime) -> Result<(), AllocError> {
    play_cases(&rt, FILES, CASES)
}
