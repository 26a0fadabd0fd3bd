//! Residual plays over small files against texts by hand, and the work of their queries.
use crate::runs::play_cases;
use std::alloc::AllocError;

/// The files of a play in which three rows are inserted and a query wants all of them, and a residual book.
const FILES: &str = "
file book book
file base base
file queries queries
file halves halves
| insert 0 0
| insert 1 1
| insert 2 2
| query 0 1 3
save script
";

/// Residual plays, their texts, and how many full distances of either kind and halves they take.
const CASES: &str = "
# the text is the same for every cache, which saves halves and nothing else: a cache of 0
> residual halves base queries script 0
| insert 0 cell 0
| insert 1 cell 2
| insert 2 cell 0
| query 0 cells 3 live 3 full 2
| hit 0 0
| end commands 4 live 3
= Done
work 0 2 4

# the text is the same for every cache, which saves halves and nothing else: a cache of 1
> residual halves base queries script 1
| insert 0 cell 0
| insert 1 cell 2
| insert 2 cell 0
| query 0 cells 3 live 3 full 2
| hit 0 0
| end commands 4 live 3
= Done
work 0 2 4

# the text is the same for every cache, which saves halves and nothing else: a cache of 2
> residual halves base queries script 2
| insert 0 cell 0
| insert 1 cell 2
| insert 2 cell 0
| query 0 cells 3 live 3 full 2
| hit 0 0
| end commands 4 live 3
= Done
work 0 2 3

# the text is the same for every cache, which saves halves and nothing else: a cache of 2048
> residual halves base queries script 2048
| insert 0 cell 0
| insert 1 cell 2
| insert 2 cell 0
| query 0 cells 3 live 3 full 2
| hit 0 0
| end commands 4 live 3
= Done
work 0 2 3

# the work of a play
> play book base queries script
| insert 0 cell 0
| insert 1 cell 2
| insert 2 cell 0
| query 0 cells 3 live 3 full 1
| hit 0 0
| end commands 4 live 3
= Done
work 1 0 0

# rows change and ids pass
| insert 0 0
| insert 1 1
| insert 2 2
| put 0 3
| insert 0 1
| query 0 1 1 ids 1 1
| query 0 1 1 ids 2 1
| delete 2
| query 1 1 1
| query 0 2 9
save script
> residual halves base queries script 3
| insert 0 cell 0
| insert 1 cell 2
| insert 2 cell 0
| put 0 cell 1 replaced
| insert 0 refused present
| query 0 cells 3 live 1 full 1
| hit 1 29184
| query 0 cells 0 live 0 full 0
| delete 2
| query 1 refused row
| query 0 cells 3 live 2 full 2
| hit 1 29184
| hit 0 32768
| end commands 10 live 2
= Done

# words or files are wrong
| insert 0 0
| insert 1 1
| insert 2 2
| query 0 1 1
save script
> residual book none queries script 2
| stop malformed book at 0
= Malformed

# words or files are wrong
| insert 0 0
| insert 1 1
| insert 2 2
| query 0 1 1
save script
> residual none base queries script 2
| stop missing book
= Missing

# words or files are wrong
| insert 0 0
| insert 1 1
| insert 2 2
| query 0 1 1
save script
> residual halves none queries script 2
| stop missing base
= Missing

# words or files are wrong
| insert 0 0
| insert 1 1
| insert 2 2
| query 0 1 1
save script
> residual halves base queries script 2049
| stop usage
= Usage

# words or files are wrong
| insert 0 0
| insert 1 1
| insert 2 2
| query 0 1 1
save script
> residual halves base queries script
| stop usage
= Usage
";

#[test]
fn residual_plays(rt: HostRuntime) -> Result<(), AllocError> {
    play_cases(&rt, FILES, CASES)
}
