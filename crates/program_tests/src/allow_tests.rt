//! Searches of an index of three rows among listed ids, against lines and rows of ids by hand; and each read of the list that fails
//! in turn. A list of too many numbers is not tried: its file has more than 16 megabytes.
use crate::runs::play_cases;
use std::alloc::AllocError;

/// The index in both versions, the query of zeros, and the list of the row (1, 7).
const FILES: &str = "
file old index1 book old_rows
file new index2 book new_rows
file queries queries
file allow 2 0 0 0 1 0 0 0 7 0 0 0
";

/// Lists of ids and what is found among them, lists that are wrong, and words that fit no search.
const CASES: &str = "
# the ids of the row (1, 7) are found
file allow 2 0 0 0 1 0 0 0 7 0 0 0
> allowed old queries 1 1 allow out
| query 0 cells 3 live 1 full 1
| allowed queries 1
= Done
left out 1 0 0 0 1 0 0 0
left allow 2 0 0 0 1 0 0 0 7 0 0 0

# the ids of the row (1, 7) are found
file allow 2 0 0 0 1 0 0 0 7 0 0 0
> allowed new queries 1 1 allow out
| query 0 cells 3 live 1 full 1
| allowed queries 1
= Done
left out 1 0 0 0 1 0 0 0
left allow 2 0 0 0 1 0 0 0 7 0 0 0

# the ids of the rows (2), (-1) and (0) are found
file allow 1 0 0 0 2 0 0 0 1 0 0 0 255 255 255 255 1 0 0 0 0 0 0 0
> allowed old queries 3 9 allow out
| query 0 cells 1 live 2 full 2
| allowed queries 1
= Done
left out 3 0 0 0 0 0 0 0 2 0 0 0 255 255 255 255
left allow 1 0 0 0 2 0 0 0 1 0 0 0 255 255 255 255 1 0 0 0 0 0 0 0

# a list without ids lets none pass
file allow 2 0 0 0 255 255 255 255 0 0 0 128
> allowed old queries 1 1 allow out
| query 0 cells 0 live 0 full 0
| allowed queries 1
= Done
left out 1 0 0 0 255 255 255 255
left allow 2 0 0 0 255 255 255 255 0 0 0 128

# a list without ids lets none pass
file allow
> allowed old queries 1 1 allow out
| query 0 cells 0 live 0 full 0
| allowed queries 1
= Done
left out 1 0 0 0 255 255 255 255
left allow

# a list that is wrong leaves the output
file allow 2 0 0 0 1 0 0 0 7 0 0
file out 7 7
> allowed old queries 1 1 allow out
| stop malformed allow at 8
= Malformed
left out 7 7

# a list that is wrong leaves the output
file allow 1 0 0 0 2 0 0 0 1 0 0 0 255 255 255 255 1 0
file out 7 7
> allowed old queries 1 1 allow out
| stop malformed allow at 16
= Malformed
left out 7 7

# a list that is wrong leaves the output
file allow 1 0 0 0 5 0 0 0 2 0 0 0
file out 7 7
> allowed old queries 1 1 allow out
| stop malformed allow at 8
= Malformed
left out 7 7

# a list that is wrong leaves the output
file allow 0 0 0 0
file out 7 7
> allowed old queries 1 1 allow out
| stop malformed allow at 0
= Malformed
left out 7 7

# a list that is wrong leaves the output
file allow 1 4 0 0
file out 7 7
> allowed old queries 1 1 allow out
| stop limit allow d 1025
= Limit
left out 7 7

# the first input that is wrong is told
> allowed no no 1 1 no out
| stop missing index
= Missing
none out

# the first input that is wrong is told
> allowed old no 1 1 no out
| stop missing queries
= Missing
none out

# the first input that is wrong is told
> allowed old queries 1 1 no out
| stop missing allow
= Missing
none out

# the first input that is wrong is told
> allowed old allow 1 1 no out
| stop malformed queries at 0
= Malformed
none out

# these words fit no command
fail 1 0
> allowed i q 0 1 a o
| stop usage
= Usage
faults 0 0

# these words fit no command
fail 1 0
> allowed i q 1001 1 a o
| stop usage
= Usage
faults 0 0

# these words fit no command
fail 1 0
> allowed i q 1 0 a o
| stop usage
= Usage
faults 0 0

# these words fit no command
fail 1 0
> allowed i q 1 4194305 a o
| stop usage
= Usage
faults 0 0

# these words fit no command
fail 1 0
> allowed i q 1 1 a i
| stop usage
= Usage
faults 0 0

# these words fit no command
fail 1 0
> allowed i q 1 1 a q
| stop usage
= Usage
faults 0 0

# these words fit no command
fail 1 0
> allowed i q 1 1 a a
| stop usage
= Usage
faults 0 0

# these words fit no command
fail 1 0
> allowed i q 1 1  o
| stop usage
= Usage
faults 0 0

# these words fit no command
fail 1 0
> allowed i q 1 1 a
| stop usage
= Usage
faults 0 0
";

/// Each call of a search among the ids (2), (-1) and (0) that fails in turn, and keeps 5 bytes if it is a write.
const FAULTS: &str = "
# call 1 fails
file allow 1 0 0 0 2 0 0 0 1 0 0 0 255 255 255 255 1 0 0 0 0 0 0 0
fail 1 5
> allowed old queries 1 1 allow out
| stop read index
= ReadFault
none out

# call 2 fails
file allow 1 0 0 0 2 0 0 0 1 0 0 0 255 255 255 255 1 0 0 0 0 0 0 0
fail 2 5
> allowed old queries 1 1 allow out
| stop read index
= ReadFault
none out

# call 3 fails
file allow 1 0 0 0 2 0 0 0 1 0 0 0 255 255 255 255 1 0 0 0 0 0 0 0
fail 3 5
> allowed old queries 1 1 allow out
| stop read index
= ReadFault
none out

# call 4 fails
file allow 1 0 0 0 2 0 0 0 1 0 0 0 255 255 255 255 1 0 0 0 0 0 0 0
fail 4 5
> allowed old queries 1 1 allow out
| stop read index
= ReadFault
none out

# call 5 fails
file allow 1 0 0 0 2 0 0 0 1 0 0 0 255 255 255 255 1 0 0 0 0 0 0 0
fail 5 5
> allowed old queries 1 1 allow out
| stop read index
= ReadFault
none out

# call 6 fails
file allow 1 0 0 0 2 0 0 0 1 0 0 0 255 255 255 255 1 0 0 0 0 0 0 0
fail 6 5
> allowed old queries 1 1 allow out
| stop read queries
= ReadFault
none out

# call 7 fails
file allow 1 0 0 0 2 0 0 0 1 0 0 0 255 255 255 255 1 0 0 0 0 0 0 0
fail 7 5
> allowed old queries 1 1 allow out
| stop read queries
= ReadFault
none out

# call 8 fails
file allow 1 0 0 0 2 0 0 0 1 0 0 0 255 255 255 255 1 0 0 0 0 0 0 0
fail 8 5
> allowed old queries 1 1 allow out
| stop read allow
= ReadFault
none out

# call 9 fails
file allow 1 0 0 0 2 0 0 0 1 0 0 0 255 255 255 255 1 0 0 0 0 0 0 0
fail 9 5
> allowed old queries 1 1 allow out
| stop read allow
= ReadFault
none out

# call 10 fails
file allow 1 0 0 0 2 0 0 0 1 0 0 0 255 255 255 255 1 0 0 0 0 0 0 0
fail 10 5
> allowed old queries 1 1 allow out
| stop read allow
= ReadFault
none out

# call 11 fails
file allow 1 0 0 0 2 0 0 0 1 0 0 0 255 255 255 255 1 0 0 0 0 0 0 0
fail 11 5
> allowed old queries 1 1 allow out
| stop read allow
= ReadFault
none out

# call 12 fails
file allow 1 0 0 0 2 0 0 0 1 0 0 0 255 255 255 255 1 0 0 0 0 0 0 0
fail 12 5
> allowed old queries 1 1 allow out
| stop read allow
= ReadFault
none out

# call 13 fails
file allow 1 0 0 0 2 0 0 0 1 0 0 0 255 255 255 255 1 0 0 0 0 0 0 0
fail 13 5
> allowed old queries 1 1 allow out
| stop write out
= WriteFault
none out

# call 14 fails
file allow 1 0 0 0 2 0 0 0 1 0 0 0 255 255 255 255 1 0 0 0 0 0 0 0
fail 14 5
> allowed old queries 1 1 allow out
| stop read queries
= ReadFault
left out

# call 15 fails
file allow 1 0 0 0 2 0 0 0 1 0 0 0 255 255 255 255 1 0 0 0 0 0 0 0
fail 15 5
> allowed old queries 1 1 allow out
| stop write out
= WriteFault
left out 1 0 0 0 0

# call 16, behind the last one, fails
file allow 1 0 0 0 2 0 0 0 1 0 0 0 255 255 255 255 1 0 0 0 0 0 0 0
fail 16 5
> allowed old queries 1 1 allow out
| query 0 cells 1 live 2 full 1
| allowed queries 1
= Done
left out 1 0 0 0 0 0 0 0
";

#[test]
fn the_ids_of_a_list_are_found(rt: HostRuntime) -> Result<(), AllocError> {
    play_cases(&rt, FILES, CASES)
}

#[test]
fn each_call_of_such_a_search_fails_in_turn(rt: HostRuntime) -> Result<(), AllocError> {
    play_cases(&rt, FILES, FAULTS)
}
