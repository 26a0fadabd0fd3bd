//! Exact search of small bases, against texts and bytes by hand.
use crate::runs::play_cases;
use std::alloc::AllocError;

/// The base, the query of zeros, two queries of one component, no rows, and a base that is cut.
const FILES: &str = "
file base base
file queries queries
file short 1 0 0 0 7 1 0 0 0 9
file none
file cut base <14
";

/// Searches, wrong inputs, and calls that fail: base and queries are checked by two each, the file is begun, the query and the base
/// are read, and the row is added.
const CASES: &str = "
# the nearest rows are written
> exact base queries 5 out
| exact queries 1 rows 4
= Done
left out 5 0 0 0 0 0 0 0 2 0 0 0 1 0 0 0 3 0 0 0 255 255 255 255

# the nearest rows are written
> exact base queries 1 out
| exact queries 1 rows 4
= Done
left out 1 0 0 0 0 0 0 0

# the nearest rows are written
> exact base none 5 out
| exact queries 0 rows 4
= Done
left out

# the nearest rows are written
> exact none short 1 out
| exact queries 2 rows 0
= Done
left out 1 0 0 0 255 255 255 255 1 0 0 0 255 255 255 255

# the nearest rows are written
> exact none none 1000 out
| exact queries 0 rows 0
= Done
left out

# a wrong input stops a search
> exact no no 1 out
| stop missing base
= Missing
none out

# a wrong input stops a search
> exact base no 1 out
| stop missing queries
= Missing
none out

# a wrong input stops a search
> exact cut short 1 out
| stop malformed base at 14
= Malformed
none out

# a wrong input stops a search
> exact base short 1 out
| stop malformed queries at 0
= Malformed
none out

# a wrong input stops a search
> exact base queries 0 out
| stop usage
= Usage
none out

# a wrong input stops a search
> exact base queries 1001 out
| stop usage
= Usage
none out

# a wrong input stops a search
> exact base queries 1 base
| stop usage
= Usage
none out

# a wrong input stops a search
> exact base queries 1 queries
| stop usage
= Usage
none out

# call 2 fails
fail 2 5
> exact base queries 5 out
| stop read base
= ReadFault
none out

# call 4 fails
fail 4 5
> exact base queries 5 out
| stop read queries
= ReadFault
none out

# call 5 fails
fail 5 5
> exact base queries 5 out
| stop write out
= WriteFault
none out

# call 6 fails
fail 6 5
> exact base queries 5 out
| stop read queries
= ReadFault
left out

# call 7 fails
fail 7 5
> exact base queries 5 out
| stop read base
= ReadFault
left out

# call 8 fails
fail 8 5
> exact base queries 5 out
| stop write out
= WriteFault
left out 5 0 0 0 0

# a line that fails leaves the rows whole
cut 1 5
> exact base queries 5 out
. exact
= WriteFault
left out 5 0 0 0 0 0 0 0 2 0 0 0 1 0 0 0 3 0 0 0 255 255 255 255
";

#[test]
fn the_nearest_rows_are_written(rt: HostRuntime) -> Result<(), AllocError> {
    play_cases(&rt, FILES, CASES)
}
