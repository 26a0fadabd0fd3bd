//! Rerankings of small indexes, against lines and rows of numbers by hand; and each call of the shelf and of the sink that fails in
//! turn.
use crate::runs::play_cases;
use std::alloc::AllocError;

/// An index of the first three rows of the base, the base, its first two rows, a base that is cut, a row of two components, no
/// rows, and the query of zeros.
const FILES: &str = "
file index index1 book old_rows
file base base
file two base <16
file cut base <14
file short 2 0 0 0 7 9
file none
file queries queries
";

/// Rerankings, wrong inputs, and words that fit none.
const CASES: &str = "
# rows of one code go by their distances: (7, 0, 0, 0) and (1, 0, 0, 0)
# the bound of the second is no more than the threshold of the first, 0, so it is full too
file book book
file base 4 0 0 0 7 0 0 0 4 0 0 0 1 0 0 0
> build book base index
| build rows 2 cells 1
= Done
> search index queries 1 2 found
| query 0 cells 1 live 2 full 2
| search queries 1
= Done
left found 1 0 0 0 0 0 0 0
> rerank index base queries 2 1 2 out
| query 0 cells 1 live 2 full 2
| rerank queries 1
= Done
left out 1 0 0 0 1 0 0 0

# ids of no base row are left out
file out 7 7
> rerank index base queries 3 3 9 out
| query 0 cells 3 live 3 full 3
| rerank queries 1
= Done
left out 3 0 0 0 0 0 0 0 2 0 0 0 1 0 0 0

# ids of no base row are left out
file out 7 7
> rerank index two queries 3 3 9 out
| query 0 cells 3 live 3 full 3
| rerank queries 1
= Done
left out 3 0 0 0 0 0 0 0 1 0 0 0 255 255 255 255

# ids of no base row are left out
file out 7 7
> rerank index two queries 2 2 3 out
| query 0 cells 3 live 3 full 2
| rerank queries 1
= Done
left out 2 0 0 0 0 0 0 0 255 255 255 255

# ids of no base row are left out
file out 7 7
> rerank index base queries 2 1 3 out
| query 0 cells 3 live 3 full 2
| rerank queries 1
= Done
left out 1 0 0 0 0 0 0 0

# ids of no base row are left out
file out 7 7
> rerank index none queries 3 1 9 out
| query 0 cells 3 live 3 full 3
| rerank queries 1
= Done
left out 1 0 0 0 255 255 255 255

# ids of no base row are left out
file out 7 7
> rerank index base none 1000 1000 9 out
| rerank queries 0
= Done
left out

# the first wrong input stops a reranking
> rerank no no no 2 1 9 out
| stop missing index
= Missing
none out

# the first wrong input stops a reranking
> rerank index no no 2 1 9 out
| stop missing base
= Missing
none out

# the first wrong input stops a reranking
> rerank index base no 2 1 9 out
| stop missing queries
= Missing
none out

# the first wrong input stops a reranking
> rerank base no no 2 1 9 out
| stop malformed index at 0
= Malformed
none out

# the first wrong input stops a reranking
> rerank index short no 2 1 9 out
| stop malformed base at 0
= Malformed
none out

# the first wrong input stops a reranking
> rerank index cut short 2 1 9 out
| stop malformed base at 14
= Malformed
none out

# the first wrong input stops a reranking
> rerank index two cut 2 1 9 out
| stop malformed queries at 14
= Malformed
none out

# the first wrong input stops a reranking
> rerank index none short 2 1 9 out
| stop malformed queries at 0
= Malformed
none out

# these words fit no command
fail 1 0
> rerank i b q 0 1 1 o
| stop usage
= Usage
faults 0 0

# these words fit no command
fail 1 0
> rerank i b q 1001 1 1 o
| stop usage
= Usage
faults 0 0

# these words fit no command
fail 1 0
> rerank i b q 5 0 1 o
| stop usage
= Usage
faults 0 0

# these words fit no command
fail 1 0
> rerank i b q 5 6 1 o
| stop usage
= Usage
faults 0 0

# these words fit no command
fail 1 0
> rerank i b q 5 5 0 o
| stop usage
= Usage
faults 0 0

# these words fit no command
fail 1 0
> rerank i b q 5 5 4194305 o
| stop usage
= Usage
faults 0 0

# these words fit no command
fail 1 0
> rerank i b q 5 5 1 i
| stop usage
= Usage
faults 0 0

# these words fit no command
fail 1 0
> rerank i b q 5 5 1 b
| stop usage
= Usage
faults 0 0

# these words fit no command
fail 1 0
> rerank i b q 5 5 1 q
| stop usage
= Usage
faults 0 0

# these words fit no command
fail 1 0
> rerank i b  5 5 1 o
| stop usage
= Usage
faults 0 0

# these words fit no command
fail 1 0
> rerank i b q 5 5 1
| stop usage
= Usage
faults 0 0

# these words fit no command
fail 1 0
> rerank i b q 5 5 1 o o
| stop usage
= Usage
faults 0 0
";

/// Calls that fail in turn: the index is read by five, base and queries are checked by two each, the file is begun, the query and
/// the two base rows that it finds are read, and the row is added; and lines that fail.
const FAULTS: &str = "
# call 1 fails
fail 1 5
> rerank index base queries 2 1 1 out
| stop read index
= ReadFault
none out

# call 2 fails
fail 2 5
> rerank index base queries 2 1 1 out
| stop read index
= ReadFault
none out

# call 3 fails
fail 3 5
> rerank index base queries 2 1 1 out
| stop read index
= ReadFault
none out

# call 4 fails
fail 4 5
> rerank index base queries 2 1 1 out
| stop read index
= ReadFault
none out

# call 5 fails
fail 5 5
> rerank index base queries 2 1 1 out
| stop read index
= ReadFault
none out

# call 6 fails
fail 6 5
> rerank index base queries 2 1 1 out
| stop read base
= ReadFault
none out

# call 7 fails
fail 7 5
> rerank index base queries 2 1 1 out
| stop read base
= ReadFault
none out

# call 8 fails
fail 8 5
> rerank index base queries 2 1 1 out
| stop read queries
= ReadFault
none out

# call 9 fails
fail 9 5
> rerank index base queries 2 1 1 out
| stop read queries
= ReadFault
none out

# call 10 fails
fail 10 5
> rerank index base queries 2 1 1 out
| stop write out
= WriteFault
none out

# call 11 fails
fail 11 5
> rerank index base queries 2 1 1 out
| stop read queries
= ReadFault
left out

# call 12 fails
fail 12 5
> rerank index base queries 2 1 1 out
| stop read base
= ReadFault
left out

# call 13 fails
fail 13 5
> rerank index base queries 2 1 1 out
| stop read base
= ReadFault
left out

# call 14 fails
fail 14 5
> rerank index base queries 2 1 1 out
| stop write out
= WriteFault
left out 1 0 0 0 0

# call 15, behind the last one, fails
fail 15 5
> rerank index base queries 2 1 1 out
| query 0 cells 1 live 2 full 2
| rerank queries 1
= Done
left out 1 0 0 0 0 0 0 0

# a line that fails leaves the row of its query
cut 1 5
> rerank index base queries 2 1 1 out
. query
= WriteFault
left out 1 0 0 0 0 0 0 0

# a line that fails leaves the row of its query
cut 2 5
> rerank index base queries 2 1 1 out
| query 0 cells 1 live 2 full 2
. reran
= WriteFault
left out 1 0 0 0 0 0 0 0
";

#[test]
fn rows_go_by_their_distances(rt: HostRuntime) -> Result<(), AllocError> {
    play_cases(&rt, FILES, CASES)
}

#[test]
fn each_call_of_a_reranking_fails_in_turn(rt: HostRuntime) -> Result<(), AllocError> {
    play_cases(&rt, FILES, FAULTS)
}
