//! Plays over small files against texts by hand: each stop, and each call of the shelf and of the sink that fails in turn.
ghost use Rattle.std.specs.Prelude.{None};

use crate::runs::{FIRST, FIRST_TEXT, WORDS, expect, play_cases, run_words, shelf_with};
use adc_ports::{Halt, MemorySink, Shelf, Sink, SizedShelf, SteadyShelf, SteadySink};
use adc_program::Status;
use std::alloc::{AllocError, AllocGlobal};
use std::process::Abort;
use test_files::{BASE, QUERIES, SMALL_BOOK};

/// Where the lines of the first text begin, and their lengths.
const LINES: [(usize, u32); 6] = [(0, 16), (16, 16), (32, 16), (48, 30), (78, 8), (86, 22)];

/// The files of a play of the first script, and files with a fault each.
const FILES: &str = "
file book book
file base base
file queries queries
| insert 0 0
| insert 1 1
| insert 2 2
| query 0 1 1
save script
file long book 0
file cut 4 0 0 0 130 120
file wide 1 4 0 0
| # no leading zero
|
| insert 01 0
save zero
| delete  0
save spaces
";

/// Scripts and their texts.
const CASES: &str = "
# the first script
> play book base queries script
| insert 0 cell 0
| insert 1 cell 2
| insert 2 cell 0
| query 0 cells 1 live 2 full 1
| hit 0 0
| end commands 4 live 3
= Done

# an empty script
save script
> play book base queries script
| end commands 0 live 0
= Done

# two rows of one cell
| insert 5 2
| insert 3 2
| query 0 1 2
save script
> play book base queries script
| insert 5 cell 0
| insert 3 cell 0
| query 0 cells 1 live 2 full 2
| hit 3 16384
| end commands 3 live 2
= Done

# more and more hits
| insert 0 0
| insert 1 1
| insert 2 2
| query 0 2 3
| query 0 1000 9
save script
> play book base queries script
| insert 0 cell 0
| insert 1 cell 2
| insert 2 cell 0
| query 0 cells 3 live 3 full 2
| hit 0 0
| hit 2 16384
| query 0 cells 3 live 3 full 3
| hit 0 0
| hit 2 16384
| hit 1 29184
| end commands 5 live 3
= Done

# ids that pass
| insert 0 0
| insert 1 1
| insert 2 2
| query 0 1 1 ids 1 1
| query 0 1 1 ids 7 9
| query 0 1 1 ids 2 1
save script
> play book base queries script
| insert 0 cell 0
| insert 1 cell 2
| insert 2 cell 0
| query 0 cells 3 live 1 full 1
| hit 1 29184
| query 0 cells 0 live 0 full 0
| query 0 cells 0 live 0 full 0
| end commands 6 live 3
= Done

# rows change between queries
| # three rows, and then changes of them
| insert 0 0
| insert 1 1
| insert 2 2
|
| put 0 3
| query 0 1 1
| put 9 0
| query 0 1 1
| put 1 9
| delete 2
| delete 2
| query 0 2 9 ids 1 9
save script
> play book base queries script
| insert 0 cell 0
| insert 1 cell 2
| insert 2 cell 0
| put 0 cell 1 replaced
| query 0 cells 1 live 1 full 1
| hit 2 16384
| put 9 cell 0 added
| query 0 cells 1 live 2 full 2
| hit 9 0
| put 1 refused row
| delete 2
| delete 2 refused absent
| query 0 cells 3 live 2 full 2
| hit 9 0
| hit 1 29184
| end commands 11 live 3
= Done

# refused commands have a line each
| insert 0 0
| insert 0 1
| delete 5
| query 0 1 1
| query 0 0 1
| query 0 1001 1
| query 0 1 0
| query 0 1 4194305
| query 1 0 0
| insert 2147483648 0
| insert 2147483648 4
| delete 2147483648
save script
> play book base queries script
| insert 0 cell 0
| insert 0 refused present
| delete 5 refused absent
| query 0 cells 1 live 1 full 1
| hit 0 0
| query 0 refused k
| query 0 refused k
| query 0 refused wanted
| query 0 refused wanted
| query 1 refused row
| insert 2147483648 refused id
| insert 2147483648 refused row
| delete 2147483648 refused id
| end commands 12 live 1
= Done

# the greatest numbers are taken
| insert 2147483647 2
| put 2147483647 0
| put 2147483648 0
| query 0 1000 4194304 ids 2147483647 999999999999999999
| query 0 1 1 ids 2147483648 2147483649
| delete 2147483647
save script
> play book base queries script
| insert 2147483647 cell 0
| put 2147483647 cell 0 replaced
| put 2147483648 refused id
| query 0 cells 1 live 1 full 1
| hit 2147483647 0
| query 0 cells 0 live 0 full 0
| delete 2147483647
| end commands 6 live 0
= Done
";

/// Words that touch no file, and files that stop a run.
const STOPS: &str = "
# these words fit no command
fail 1 0
>
| stop usage
= Usage
faults 0 0
halt book

# these words fit no command
fail 1 0
> --help
| stop usage
= Usage
faults 0 0
halt book

# these words fit no command
fail 1 0
> play book base queries
| stop usage
= Usage
faults 0 0
halt book

# these words fit no command
fail 1 0
> replay book base queries script
| stop usage
= Usage
faults 0 0
halt book

# these words fit no command
fail 1 0
> play book base  script
| stop usage
= Usage
faults 0 0
halt book

# these words fit no command
fail 1 0
> play book base queries script script
| stop usage
= Usage
faults 0 0
halt book

# these words fit no command
fail 1 0
> sample
| stop usage
= Usage
faults 0 0
halt book

# these words fit no command
fail 1 0
> sample 1
| stop usage
= Usage
faults 0 0
halt book

# these words fit no command
fail 1 0
> sample 1 0
| stop usage
= Usage
faults 0 0
halt book

# these words fit no command
fail 1 0
> sample 1 100001
| stop usage
= Usage
faults 0 0
halt book

# these words fit no command
fail 1 0
> sample 2147483648 1
| stop usage
= Usage
faults 0 0
halt book

# these words fit no command
fail 1 0
> sample 01 1
| stop usage
= Usage
faults 0 0
halt book

# these words fit no command
fail 1 0
> sample 1 1 1
| stop usage
= Usage
faults 0 0
halt book

# a file is missing, and the first fault counts
> play no no no no
| stop missing book
= Missing

# a file is missing, and the first fault counts
> play book no no no
| stop missing base
= Missing

# a file is missing, and the first fault counts
> play book base no no
| stop missing queries
= Missing

# a file is missing, and the first fault counts
> play book base base no
| stop missing script
= Missing

# a file is malformed, and the first fault counts
> play base no cut zero
| stop malformed book at 0
= Malformed

# a file is malformed, and the first fault counts
> play long cut cut zero
| stop malformed book at 98
= Malformed

# a file is malformed, and the first fault counts
> play book cut no zero
| stop malformed base at 6
= Malformed

# a file is malformed, and the first fault counts
> play book base cut no
| stop malformed queries at 6
= Malformed

# a file is malformed, and the first fault counts
> play book base base zero
| stop malformed script line 3
= Malformed

# a file is malformed, and the first fault counts
> play book base base spaces
| stop malformed script line 1
= Malformed

# the rows of a file are too long, and the first fault counts
> play book wide cut no
| stop limit base d 1025
= Limit

# the rows of a file are too long, and the first fault counts
> play book base wide no
| stop limit queries d 1025
= Limit
";

/// Each read that fails in turn, and stop lines that fail.
const FAULTS: &str = "
# read 1 fails
fail 1 0
> play book base queries script
| stop read book
= ReadFault
faults 1 0

# read 2 fails
fail 2 0
> play book base queries script
| stop read book
= ReadFault
faults 1 0

# read 3 fails
fail 3 0
> play book base queries script
| stop read base
= ReadFault
faults 1 0

# read 4 fails
fail 4 0
> play book base queries script
| stop read base
= ReadFault
faults 1 0

# read 5 fails
fail 5 0
> play book base queries script
| stop read queries
= ReadFault
faults 1 0

# read 6 fails
fail 6 0
> play book base queries script
| stop read queries
= ReadFault
faults 1 0

# read 7 fails
fail 7 0
> play book base queries script
| stop read script
= ReadFault
faults 1 0

# read 8 fails
fail 8 0
> play book base queries script
| stop read script
= ReadFault
faults 1 0

# read 9 fails
fail 9 0
> play book base queries script
| stop read base
= ReadFault
faults 1 0

# read 10 fails
fail 10 0
> play book base queries script
| insert 0 cell 0
| stop read base
= ReadFault
faults 1 0

# read 11 fails
fail 11 0
> play book base queries script
| insert 0 cell 0
| insert 1 cell 2
| stop read base
= ReadFault
faults 1 0

# read 12 fails
fail 12 0
> play book base queries script
| insert 0 cell 0
| insert 1 cell 2
| insert 2 cell 0
| stop read queries
= ReadFault
faults 1 0

# the read that fails is behind the last one
fail 13 0
> play book base queries script
| insert 0 cell 0
| insert 1 cell 2
| insert 2 cell 0
| query 0 cells 1 live 2 full 1
| hit 0 0
| end commands 4 live 3
= Done
halt book

# a stop line that fails leaves the status
fail 0 0
cut 1 4
> play
. stop
= Usage

# a stop line that fails leaves the status
fail 1 0
cut 1 4
> play book base queries script
. stop
= ReadFault

# a stop line that fails leaves the status
fail 10 0
cut 2 4
> play book base queries script
| insert 0 cell 0
. stop
= ReadFault
";

#[test]
fn scripts_and_their_texts(rt: HostRuntime) -> Result<(), AllocError> {
    play_cases(&rt, FILES, CASES)
}

#[test]
fn words_and_files_that_stop_a_run(rt: HostRuntime) -> Result<(), AllocError> {
    play_cases(&rt, FILES, STOPS)
}

#[test]
fn each_read_fails_in_turn(rt: HostRuntime) -> Result<(), AllocError> {
    play_cases(&rt, FILES, FAULTS)
}

#[test]
fn ports_that_never_fail_take_a_whole_text(rt: HostRuntime) -> Result<(), AllocError> {
    let mut shelf = SteadyShelf::new(rt.alloc());
    let mut out = SteadySink::new(rt.alloc());
    assert_eq!(rt; shelf.add("book", &SMALL_BOOK), Ok(()));
    assert_eq!(rt; shelf.add("rows", &BASE), Ok(()));
    assert_eq!(rt; shelf.add("script", FIRST.as_bytes()), Ok(()));
    let words = "play book rows rows script";
    let ended = run_words(rt.alloc(), words, &mut shelf, &mut out)?;
    assert_eq!(rt; ended, Status::Done);
    assert_eq!(rt; out.written(), FIRST_TEXT.as_bytes());
    Ok(())
}

/// A shelf with the files of a play but its script, where the file of this name has this size.
fn sized_shelf<R: Abort + AllocGlobal>(
    rt: &R,
    name: &str,
    size: u64,
) -> Result<SizedShelf, AllocError> {
    let name = String::from_str(rt.alloc(), name)?;
    let mut inner = SteadyShelf::new(rt.alloc());
    assert_eq!(rt; inner.add("book", &SMALL_BOOK), Ok(()));
    assert_eq!(rt; inner.add("base", &BASE), Ok(()));
    assert_eq!(rt; inner.add("queries", &QUERIES), Ok(()));
    Ok(SizedShelf::new(inner, name, size))
}

#[test]
fn a_file_is_too_long_by_its_size_alone(rt: HostRuntime) -> Result<(), AllocError> {
    for (name, size, text) in [
        ("book", 4_194_305, "stop limit book bytes 4194305\n"),
        ("base", 2_147_483_649, "stop limit base bytes 2147483649\n"),
        (
            "queries",
            2_147_483_649,
            "stop limit queries bytes 2147483649\n",
        ),
        ("script", 268_435_457, "stop limit script bytes 268435457\n"),
    ] {
        let mut shelf = sized_shelf(&rt, name, size)?;
        expect(&rt, WORDS, &mut shelf, Status::Limit, text)?;
    }
    Ok(())
}

/// Plays the first script where a line fails after so many bytes, and compares its text, its status and the count of faults.
fn expect_cut<R: Abort + AllocGlobal>(
    rt: &R,
    line: u32,
    keep: u32,
    text: &[u8],
) -> Result<(), AllocError> {
    let mut shelf = shelf_with(rt, FIRST);
    let mut out = MemorySink::new(rt.alloc());
    assert_eq!(rt; out.fail(line, keep), Ok(()));
    let ended = run_words(rt.alloc(), WORDS, &mut shelf, &mut out)?;
    assert_eq!(rt; ended, Status::WriteFault, "at {line}");
    assert_eq!(rt; out.written(), text, "at {line}");
    assert_eq!(rt; out.faults(), 1);
    Ok(())
}

#[test]
fn each_write_fails_in_turn_at_each_byte(rt: HostRuntime) -> Result<(), AllocError> {
    for (n, (start, length)) in LINES.iter().enumerate() {
        for keep in 0..*length {
            let text = &FIRST_TEXT.as_bytes()[..*start + keep as usize];
            expect_cut(&rt, n as u32 + 1, keep, text)?;
        }
    }
    Ok(())
}

/// Runs out of memory at each call.
#[derive(Clone, Copy)]
struct WithoutMemory;

impl Sink for WithoutMemory {
    ghost state = { λ _. record { written = None; faults = 0 } };

    fn put(&mut self, _bytes: &[u8]) -> Result<(), Halt> {
        Err(Halt::Memory)
    }
}

impl Shelf for WithoutMemory {
    ghost state = { λ _. record { files = None; read_faults = 0; write_faults = 0 } };

    fn size(&mut self, _name: &str) -> Result<Option<u64>, Halt> {
        Err(Halt::Memory)
    }

    fn fetch(&mut self, _name: &str, _at: u64, _into: &mut [u8]) -> Result<usize, Halt> {
        Err(Halt::Memory)
    }

    fn begin(&mut self, _name: &str) -> Result<(), Halt> {
        Err(Halt::Memory)
    }

    fn append(&mut self, _name: &str, _bytes: &[u8]) -> Result<(), Halt> {
        Err(Halt::Memory)
    }
}

#[test]
fn running_out_of_memory_has_its_own_status(rt: HostRuntime) -> Result<(), AllocError> {
    expect(
        &rt,
        WORDS,
        &mut WithoutMemory,
        Status::Memory,
        "stop memory\n",
    )?;
    let mut shelf = shelf_with(&rt, FIRST);
    for words in [WORDS, "play"] {
        let ended = run_words(rt.alloc(), words, &mut shelf, &mut WithoutMemory)?;
        assert_eq!(rt; ended, Status::Memory);
    }
    Ok(())
}
