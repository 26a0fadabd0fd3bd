//! Plays over books, bases and scripts at an edge or with a fault, against texts by hand.
use crate::runs::play_cases;
use std::alloc::AllocError;

/// The files of a play.
const FILES: &str = "
file book book
file base base
file queries queries
| insert 0 0
| insert 1 1
| insert 2 2
| query 0 1 1
save script
";

/// Files at an edge or with a fault.
const CASES: &str = "
# no rows
| query 0 1 1
save script
> play book base queries script
| query 0 cells 0 live 0 full 0
| end commands 1 live 0
= Done

# two cells at one distance, of which the lower goes first
| insert 7 3
| insert 1 1
| query 0 1 1
save script
> play book base queries script
| insert 7 cell 1
| insert 1 cell 2
| query 0 cells 2 live 1 full 1
| hit 7 32768
| end commands 3 live 2
= Done

# a row that was taken away comes again, as the last
| insert 0 0
| insert 1 1
| insert 2 2
| delete 0
| insert 0 0
| query 0 1 1
save script
> play book base queries script
| insert 0 cell 0
| insert 1 cell 2
| insert 2 cell 0
| delete 0
| insert 0 cell 0
| query 0 cells 1 live 2 full 2
| hit 0 0
| end commands 6 live 3
= Done

# a last line without its line end
. insert 0 0
save script
> play book base queries script
| insert 0 cell 0
| end commands 1 live 1
= Done

# an empty base has no rows
file base
| insert 0 0
save script
> play book base queries script
| insert 0 refused row
| end commands 1 live 0
= Done

# a field of a base is at fault
file base 4 0
> play book base queries script
| stop malformed base at 0
= Malformed

# a field of a base is at fault
file base 0 0 0 0
> play book base queries script
| stop malformed base at 0
= Malformed

# a field of a base is at fault
file base 3 0 0 0 1 2 3
> play book base queries script
| stop malformed base at 0
= Malformed

# a field of a base is at fault
file base base 8=5
> play book base queries script
| stop malformed base at 8
= Malformed

# a field of a book is at fault
file book book 10=4
> play book base queries script
| stop malformed book at 10
= Malformed

# a field of a book is at fault
file book book 16=4
> play book base queries script
| stop malformed book at 16
= Malformed

# a field of a book is at fault
file book book 17=2
> play book base queries script
| stop malformed book at 17
= Malformed

# a field of a book is at fault
file book book 24=2
> play book base queries script
| stop malformed book at 24
= Malformed

# a book is cut
file book
> play book base queries script
| stop malformed book at 0
= Malformed

# a book is cut
file book book <97
> play book base queries script
| stop malformed book at 97
= Malformed

# a book has too many coarse words
file book book 12=1 13=4
> play book base queries script
| stop limit book k0 1025
= Limit

# a book of d 3, h 1, one coarse word of zeros in each part, shape 5-5-5, and three lengths of 1; word w is 8 w
file book 65 68 67 66 79 79 75 49 3 0 1 0 1 0 1 0 1 1 1 0 1 0 1 0 0 0 0 0 8 16 24 32 40 48 56 64 72 80 88 96 104 112 120 128 136 144 152 160 168 176 184 192 200 208 216 224 232 240 248 0 8 16 24 32 40 48 56 64 72 80 88 96 104 112 120 128 136 144 152 160 168 176 184 192 200 208 216 224 232 240 248 0 8 16 24 32 40 48 56 64 72 80 88 96 104 112 120 128 136 144 152 160 168 176 184 192 200 208 216 224 232 240 248
file base 3 0 0 0 255 4 12
file queries 3 0 0 0 0 0 0
| insert 0 0
| query 0 1 1
save script
> play book base queries script
| insert 0 cell 0
| query 0 cells 1 live 1 full 1
| hit 0 61568
| end commands 2 live 1
= Done

# a book of version 2
file book wide
| insert 0 0
| insert 1 1
| insert 2 2
| query 0 2 3
save script
> play book base queries script
| insert 0 cell 0
| insert 1 cell 2
| insert 2 cell 0
| query 0 cells 3 live 3 full 2
| hit 0 0
| hit 2 4194304
| end commands 4 live 3
= Done
";

#[test]
fn files_at_an_edge(rt: HostRuntime) -> Result<(), AllocError> {
    play_cases(&rt, FILES, CASES)
}
