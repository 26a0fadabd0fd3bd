//! Plays with sessions over small files, against texts by hand.
use crate::runs::play_cases;
use std::alloc::AllocError;

/// The files of a play, with a script in which a session goes on over the rows of its opening while one of them is deleted.
const FILES: &str = "
file book book
file base base
file queries queries
| insert 0 0
| insert 1 1
| insert 2 2
| begin 1 0 1 3
| delete 0
| step 1 1
| query 0 1 1
| step 1 9
| end 1
save script
";

/// Plays and their texts.
const CASES: &str = "
# a session reads the rows of its opening
> sessions book base queries script
| insert 0 cell 0
| insert 1 cell 2
| insert 2 cell 0
| begin 1 stamp 3
| delete 0
| step 1 cells 1 live 2 full 1 more
| query 0 cells 1 live 1 full 1
| hit 2 16384
| step 1 cells 3 live 3 full 1 ended
| session 1 cells 3 live 3 full 1
| hit 0 0
| end commands 9 live 2
= Done

# refused lines
| step 4 1
| begin 4 0 1 1
| begin 4 0 1 1
| step 4 0
| end 4
save script
> sessions book base queries script
| step 4 refused absent
| begin 4 stamp 0
| begin 4 refused taken
| step 4 refused cells
| session 4 dropped
| end commands 5 live 0
= Done

# refused numbers
| begin 1 1 0 0
| begin 1 0 0 0
| begin 1 0 1001 1
| begin 1 0 1 0
| end 1
| begin 1 0 1 1
| step 1 1048577
| step 1 1048576
save script
> sessions book base queries script
| begin 1 refused row
| begin 1 refused k
| begin 1 refused k
| begin 1 refused wanted
| end 1 refused absent
| begin 1 stamp 0
| step 1 refused cells
| step 1 cells 0 live 0 full 0 ended
| end commands 8 live 0
= Done

# rows are replaced between the steps
| insert 0 0
| insert 1 1
| insert 2 2
| begin 7 0 2 3
| put 0 3
| begin 8 0 2 3
| step 7 1
| delete 2
| step 7 2
| step 7 1
| end 7
| begin 7 0 1 1
| step 8 9
| end 8
| end 7
save script
> sessions book base queries script
| insert 0 cell 0
| insert 1 cell 2
| insert 2 cell 0
| begin 7 stamp 3
| put 0 cell 1 replaced
| begin 8 stamp 4
| step 7 cells 1 live 2 full 2 more
| delete 2
| step 7 cells 3 live 3 full 2 ended
| step 7 cells 3 live 3 full 2 ended
| session 7 cells 3 live 3 full 2
| hit 0 0
| hit 2 16384
| begin 7 stamp 5
| step 8 cells 3 live 3 full 3 ended
| session 8 cells 3 live 3 full 3
| hit 2 16384
| hit 1 29184
| session 7 dropped
| end commands 15 live 2
= Done

# sixty-four sessions are open
count 65 begin % 0 1 1
save script
> sessions book base queries script
count 64 begin % stamp 0
| begin 64 refused sessions
| end commands 65 live 0
= Done

# a row is replaced more often than a cell keeps dead rows
| insert 0 0
| insert 1 1
| insert 2 2
| begin 1 0 1 3
| put 9 0
count 80 put 9 0
| delete 0
| step 1 9
| end 1
save script
> sessions book base queries script
| insert 0 cell 0
| insert 1 cell 2
| insert 2 cell 0
| begin 1 stamp 3
| put 9 cell 0 added
count 80 put 9 cell 0 replaced
| delete 0
| step 1 cells 3 live 3 full 1 ended
| session 1 cells 3 live 3 full 1
| hit 0 0
| end commands 88 live 3
= Done

# a play takes no lines of sessions
> play book base queries script
| stop malformed script line 4
= Malformed

# these words fit no play with sessions
> sessions
| stop usage
= Usage

# these words fit no play with sessions
> sessions book base queries
| stop usage
= Usage

# these words fit no play with sessions
> sessions book base queries script more
| stop usage
= Usage

# these words fit no play with sessions
> sessions book  queries script
| stop usage
= Usage
";

/// Each read, and each line, that fails in turn.
const FAULTS: &str = "
# read 1 fails
fail 1 0
> sessions book base queries script
| stop read book
= ReadFault
faults 1 0

# read 2 fails
fail 2 0
> sessions book base queries script
| stop read book
= ReadFault
faults 1 0

# read 3 fails
fail 3 0
> sessions book base queries script
| stop read base
= ReadFault
faults 1 0

# read 4 fails
fail 4 0
> sessions book base queries script
| stop read base
= ReadFault
faults 1 0

# read 5 fails
fail 5 0
> sessions book base queries script
| stop read queries
= ReadFault
faults 1 0

# read 6 fails
fail 6 0
> sessions book base queries script
| stop read queries
= ReadFault
faults 1 0

# read 7 fails
fail 7 0
> sessions book base queries script
| stop read script
= ReadFault
faults 1 0

# read 8 fails
fail 8 0
> sessions book base queries script
| stop read script
= ReadFault
faults 1 0

# read 9 fails
fail 9 0
> sessions book base queries script
| stop read base
= ReadFault
faults 1 0

# read 10 fails
fail 10 0
> sessions book base queries script
| insert 0 cell 0
| stop read base
= ReadFault
faults 1 0

# read 11 fails
fail 11 0
> sessions book base queries script
| insert 0 cell 0
| insert 1 cell 2
| stop read base
= ReadFault
faults 1 0

# read 12 fails
fail 12 0
> sessions book base queries script
| insert 0 cell 0
| insert 1 cell 2
| insert 2 cell 0
| stop read queries
= ReadFault
faults 1 0

# read 13 fails
fail 13 0
> sessions book base queries script
| insert 0 cell 0
| insert 1 cell 2
| insert 2 cell 0
| begin 1 stamp 3
| delete 0
| step 1 cells 1 live 2 full 1 more
| stop read queries
= ReadFault
faults 1 0

# line 1 fails
cut 1 0
> sessions book base queries script
= WriteFault

# line 2 fails
cut 2 0
> sessions book base queries script
| insert 0 cell 0
= WriteFault

# line 3 fails
cut 3 0
> sessions book base queries script
| insert 0 cell 0
| insert 1 cell 2
= WriteFault

# line 4 fails
cut 4 0
> sessions book base queries script
| insert 0 cell 0
| insert 1 cell 2
| insert 2 cell 0
= WriteFault

# line 5 fails
cut 5 0
> sessions book base queries script
| insert 0 cell 0
| insert 1 cell 2
| insert 2 cell 0
| begin 1 stamp 3
= WriteFault

# line 6 fails
cut 6 0
> sessions book base queries script
| insert 0 cell 0
| insert 1 cell 2
| insert 2 cell 0
| begin 1 stamp 3
| delete 0
= WriteFault

# line 7 fails
cut 7 0
> sessions book base queries script
| insert 0 cell 0
| insert 1 cell 2
| insert 2 cell 0
| begin 1 stamp 3
| delete 0
| step 1 cells 1 live 2 full 1 more
= WriteFault

# line 8 fails
cut 8 0
> sessions book base queries script
| insert 0 cell 0
| insert 1 cell 2
| insert 2 cell 0
| begin 1 stamp 3
| delete 0
| step 1 cells 1 live 2 full 1 more
| query 0 cells 1 live 1 full 1
= WriteFault

# line 9 fails
cut 9 0
> sessions book base queries script
| insert 0 cell 0
| insert 1 cell 2
| insert 2 cell 0
| begin 1 stamp 3
| delete 0
| step 1 cells 1 live 2 full 1 more
| query 0 cells 1 live 1 full 1
| hit 2 16384
= WriteFault

# line 10 fails
cut 10 0
> sessions book base queries script
| insert 0 cell 0
| insert 1 cell 2
| insert 2 cell 0
| begin 1 stamp 3
| delete 0
| step 1 cells 1 live 2 full 1 more
| query 0 cells 1 live 1 full 1
| hit 2 16384
| step 1 cells 3 live 3 full 1 ended
= WriteFault

# line 11 fails
cut 11 0
> sessions book base queries script
| insert 0 cell 0
| insert 1 cell 2
| insert 2 cell 0
| begin 1 stamp 3
| delete 0
| step 1 cells 1 live 2 full 1 more
| query 0 cells 1 live 1 full 1
| hit 2 16384
| step 1 cells 3 live 3 full 1 ended
| session 1 cells 3 live 3 full 1
= WriteFault

# line 12 fails
cut 12 0
> sessions book base queries script
| insert 0 cell 0
| insert 1 cell 2
| insert 2 cell 0
| begin 1 stamp 3
| delete 0
| step 1 cells 1 live 2 full 1 more
| query 0 cells 1 live 1 full 1
| hit 2 16384
| step 1 cells 3 live 3 full 1 ended
| session 1 cells 3 live 3 full 1
| hit 0 0
= WriteFault
";

#[test]
fn sessions_and_their_texts(rt: HostRuntime) -> Result<(), AllocError> {
    play_cases(&rt, FILES, CASES)
}

#[test]
fn each_read_and_line_of_a_play_with_sessions_fails_in_turn(
    rt: HostRuntime,
) -> Result<(), AllocError> {
    play_cases(&rt, FILES, FAULTS)
}
