//! Runs of the program over small files in memory, and what they must end with.

use adc_ports::{Halt, MemoryShelf, MemorySink, Shelf, Sink};
use adc_program::{Status, run};
use query_engine::Meters;
use std::alloc::{AllocError, AllocGlobal, Global};
use std::process::Abort;
use test_files::{BASE, QUERIES, RESIDUAL_BOOK, SMALL_BOOK, WIDE_BOOK};

/// Three rows are inserted, and a query asks for one of them.
pub(crate) const FIRST: &str = "insert 0 0\ninsert 1 1\ninsert 2 2\nquery 0 1 1\n";

/// Its text.
pub(crate) const FIRST_TEXT: &str =
    "insert 0 cell 0\ninsert 1 cell 2\ninsert 2 cell 0\nquery 0 cells 1 live 2 full 1\nhit 0 0\nend commands 4 live 3\n";

/// The words that ask for a play of the files of a shelf.
pub(crate) const WORDS: &str = "play book base queries script";

/// A shelf with a book, base, queries and this script.
pub(crate) fn shelf_with<R: Abort + AllocGlobal>(rt: &R, script: &str) -> MemoryShelf {
    let mut shelf = MemoryShelf::new(rt.alloc());
    assert_eq!(rt; shelf.add("book", &SMALL_BOOK), Ok(()));
    assert_eq!(rt; shelf.add("base", &BASE), Ok(()));
    assert_eq!(rt; shelf.add("queries", &QUERIES), Ok(()));
    assert_eq!(rt; shelf.add("script", script.as_bytes()), Ok(()));
    shelf
}

/// Words with a space between each two, as a list.
pub(crate) fn split_words(alloc: Global, words: &str) -> Result<Vec<String>, AllocError> {
    let mut list = Vec::new(alloc);
    if !words.is_empty() {
        for word in words.split(' ') {
            list.push(String::from_str(alloc, word)?)?;
        }
    }
    Ok(list)
}

/// Runs the program by these words, with a space between each two.
pub(crate) fn run_words<H: Shelf, K: Sink>(
    alloc: Global,
    words: &str,
    shelf: &mut H,
    out: &mut K,
) -> Result<Status, AllocError> {
    let list = split_words(alloc, words)?;
    let mut meters = Meters::new(alloc);
    let mut residual = Meters::new(alloc);
    Ok(run(alloc, &list, shelf, out, &mut meters, &mut residual))
}

/// Runs the program over a shelf, and compares its status and its text with these.
pub(crate) fn expect<H: Shelf, R: Abort + AllocGlobal>(
    rt: &R,
    words: &str,
    shelf: &mut H,
    status: Status,
    text: &str,
) -> Result<(), AllocError> {
    let mut out = MemorySink::new(rt.alloc());
    let ended = run_words(rt.alloc(), words, shelf, &mut out)?;
    assert_eq!(rt; out.written(), text.as_bytes(), "{text}");
    assert_eq!(rt; ended, status, "{text}");
    Ok(())
}

/// A case while its lines are gone over: its files, what its last run wrote, and the text of the lines before.
#[derive(Drop)]
struct Play {
    shelf: MemoryShelf,
    sink: MemorySink,
    /// What the last run ended with, until it is compared.
    ended: Option<Status>,
    /// Whether a run was compared.
    compared: bool,
    /// How many full distances of plays and of residual plays, and how many halves, the last run took.
    work: (u64, u64, u64),
    text: String,
}

impl Play {
    /// A case without files.
    fn new(alloc: Global) -> Play {
        Play {
            shelf: MemoryShelf::new(alloc),
            sink: MemorySink::new(alloc),
            ended: None,
            compared: false,
            work: (0, 0, 0),
            text: String::new(alloc),
        }
    }
}

/// Goes over cases, with an empty line between each two, each over a shelf of its own with the files that these lines make.
///
/// A line of a case begins with a word:
/// - `#` and what the case shows;
/// - `file`, a name and bytes: the shelf has this file;
/// - `|` and a line of a text, `.` and a text without a line end, or `count`, a number and a line: so many lines, with the numbers
///   from 0 on in the place of a `%`;
/// - `save` and a name: the text becomes a file;
/// - `fail` or `cut`, and two numbers: the call of this number of the shelf, or of the sink, fails and keeps so many bytes;
/// - `>` and words: the program runs;
/// - `=` and a status: the run wrote the text and ended so;
/// - `left`, a name and bytes: the file has them; `none` and a name: there is no such file;
/// - `faults` and two numbers: so many reads and writes failed; `halt` and a name: a call for the size of this file fails;
/// - `work` and three numbers: so many full distances of plays and of residual plays, and halves, the run took.
pub(crate) fn play_cases<R: Abort + AllocGlobal>(
    rt: &R,
    files: &str,
    cases: &str,
) -> Result<(), AllocError> {
    for case in cases.split("\n\n") {
        let mut play = Play::new(rt.alloc());
        play_lines(rt, &mut play, files)?;
        play_lines(rt, &mut play, case)?;
        assert!(rt;
            play.compared && play.ended.is_none(),
            "not compared: {case}"
        );
    }
    Ok(())
}

/// Goes over the lines of a text.
fn play_lines<R: Abort + AllocGlobal>(
    rt: &R,
    play: &mut Play,
    lines: &str,
) -> Result<(), AllocError> {
    for line in lines.split('\n') {
        let (kind, rest) = line.split_once(' ').unwrap_or((line, ""));
        play_line(rt, play, kind, rest)?;
    }
    Ok(())
}

/// Goes over a line before a run or of a text, and leaves the other kinds of lines to another function.
fn play_line<R: Abort + AllocGlobal>(
    rt: &R,
    play: &mut Play,
    kind: &str,
    rest: &str,
) -> Result<(), AllocError> {
    match kind {
        "" | "#" => Ok(()),
        "|" => add_line(play, rest),
        "." => play.text.push_str(rest),
        "count" => count_lines(rt, play, rest),
        "file" => file_line(rt, play, rest),
        "fail" => {
            let (call, keep) = pair_of(rt, rest);
            assert_eq!(rt; play.shelf.fail(call, keep), Ok(()));
            Ok(())
        }
        _ => run_line(rt, play, kind, rest),
    }
}

/// Adds a line to the text.
fn add_line(play: &mut Play, line: &str) -> Result<(), AllocError> {
    play.text.push_str(line)?;
    play.text.push('\n')
}

/// Adds a line to the text as often as the number before it says, with the numbers from 0 on in the place of its `%`.
fn count_lines<R: Abort + AllocGlobal>(
    rt: &R,
    play: &mut Play,
    rest: &str,
) -> Result<(), AllocError> {
    let (count, line) = rest.split_once(' ').unwrap_or((rest, ""));
    for n in 0..number_of(rt, count) {
        add_counted(rt.alloc(), play, line, n)?;
    }
    Ok(())
}

/// Adds a line to the text, with a number in the place of its `%`.
fn add_counted(alloc: Global, play: &mut Play, line: &str, n: u32) -> Result<(), AllocError> {
    let Some((front, back)) = line.split_once('%') else {
        return add_line(play, line);
    };
    let counted = format!(in alloc; "{front}{n}{back}")?;
    add_line(play, &counted)
}

/// Makes a file of the bytes behind its name.
fn file_line<R: Abort + AllocGlobal>(
    rt: &R,
    play: &mut Play,
    rest: &str,
) -> Result<(), AllocError> {
    let (name, words) = rest.split_once(' ').unwrap_or((rest, ""));
    let bytes = bytes_of(rt, words)?;
    assert_eq!(rt; play.shelf.add(name, &bytes), Ok(()));
    Ok(())
}

/// Goes over a line of a run and its end, and leaves the other kinds of lines to another function.
fn run_line<R: Abort + AllocGlobal>(
    rt: &R,
    play: &mut Play,
    kind: &str,
    rest: &str,
) -> Result<(), AllocError> {
    match kind {
        ">" => run_case(rt.alloc(), play, rest),
        "=" => end_line(rt, play, rest),
        "save" => {
            assert_eq!(rt; play.shelf.add(rest, play.text.as_bytes()), Ok(()));
            play.text.clear();
            Ok(())
        }
        "cut" => {
            let (call, keep) = pair_of(rt, rest);
            assert_eq!(rt; play.sink.fail(call, keep), Ok(()));
            Ok(())
        }
        _ => shelf_line(rt, play, kind, rest),
    }
}

/// Runs the program by the words of a case.
fn run_case(alloc: Global, play: &mut Play, words: &str) -> Result<(), AllocError> {
    let list = split_words(alloc, words)?;
    let mut meters = Meters::new(alloc);
    let mut residual = Meters::new(alloc);
    let ended = run(
        alloc,
        &list,
        &mut play.shelf,
        &mut play.sink,
        &mut meters,
        &mut residual,
    );
    play.ended = Some(ended);
    let full = residual.half_full.count();
    play.work = (meters.full.count(), full, residual.halves.count());
    Ok(())
}

/// Compares what a run wrote and how it ended, and lets the next run begin with an empty sink.
fn end_line<R: Abort + AllocGlobal>(
    rt: &R,
    play: &mut Play,
    status: &str,
) -> Result<(), AllocError> {
    assert_eq!(rt; play.sink.written(), play.text.as_bytes(), "{}", play.text);
    let Some(ended) = play.ended.take() else {
        assert!(rt; false, "no run before: {status}");
        return Ok(());
    };
    let ended = format!(in rt.alloc(); "{ended:?}")?;
    assert_eq!(rt; ended.as_str(), status, "{}", play.text);
    play.text.clear();
    play.sink = MemorySink::new(rt.alloc());
    play.compared = true;
    Ok(())
}

/// Goes over a line of what the shelf then has.
fn shelf_line<R: Abort + AllocGlobal>(
    rt: &R,
    play: &mut Play,
    kind: &str,
    rest: &str,
) -> Result<(), AllocError> {
    match kind {
        "left" => left_line(rt, play, rest)?,
        "work" => work_line(rt, play, rest)?,
        "none" => assert!(rt; play.shelf.file(rest).is_none(), "{rest}"),
        "halt" => assert_eq!(rt; play.shelf.size(rest), Err(Halt::Failed)),
        "faults" => {
            let (reads, writes) = pair_of(rt, rest);
            assert_eq!(rt; play.shelf.faults(), (u64::from(reads), u64::from(writes)));
        }
        _ => assert!(rt; false, "no line of a case: {kind} {rest}"),
    }
    Ok(())
}

/// Compares how many full distances the queries of the last run took, by the meters of plays and of residual plays, and how many
/// halves.
fn work_line<R: Abort + AllocGlobal>(rt: &R, play: &Play, counts: &str) -> Result<(), AllocError> {
    let (full, residual, halves) = play.work;
    let taken = format!(in rt.alloc(); "{full} {residual} {halves}")?;
    assert_eq!(rt; taken.as_str(), counts);
    Ok(())
}

/// Compares the bytes of a file with those behind its name.
fn left_line<R: Abort + AllocGlobal>(
    rt: &R,
    play: &mut Play,
    rest: &str,
) -> Result<(), AllocError> {
    let (name, words) = rest.split_once(' ').unwrap_or((rest, ""));
    let bytes = bytes_of(rt, words)?;
    assert!(rt; play.shelf.file(name) == Some(bytes.as_slice()), "{rest}");
    Ok(())
}

/// The number that a word is.
fn number_of<R: Abort>(rt: &R, word: &str) -> u32 {
    let number = word.parse::<u32>();
    assert!(rt; number.is_ok(), "{word}");
    number.unwrap_or(0)
}

/// The byte that a word is.
fn byte_of<R: Abort>(rt: &R, word: &str) -> u8 {
    let byte = word.parse::<u8>();
    assert!(rt; byte.is_ok(), "{word}");
    byte.unwrap_or(0)
}

/// The two numbers that two words are.
fn pair_of<R: Abort>(rt: &R, words: &str) -> (u32, u32) {
    let (first, second) = words.split_once(' ').unwrap_or((words, ""));
    (number_of(rt, first), number_of(rt, second))
}

/// The bytes that words stand for, with a space between each two.
fn bytes_of<R: Abort + AllocGlobal>(rt: &R, words: &str) -> Result<Vec<u8>, AllocError> {
    let mut bytes = Vec::new(rt.alloc());
    for word in words.split(' ') {
        add_bytes(rt, &mut bytes, word)?;
    }
    Ok(bytes)
}

/// Adds what a word stands for: a block by its name, or a byte by its number. A number behind `<` cuts the bytes to so many, and
/// `10=4` makes the byte at 10 a 4.
fn add_bytes<R: Abort + AllocGlobal>(
    rt: &R,
    bytes: &mut Vec<u8>,
    word: &str,
) -> Result<(), AllocError> {
    if let Some(block) = block_of(word) {
        return bytes.extend_from_slice(block);
    }
    if let Some(length) = word.strip_prefix('<') {
        let length = number_of(rt, length) as usize;
        assert!(rt; length <= bytes.len(), "{word}");
        bytes.truncate(length);
        return Ok(());
    }
    let Some((at, byte)) = word.split_once('=') else {
        bytes.push(byte_of(rt, word))?;
        return Ok(());
    };
    let at = number_of(rt, at) as usize;
    assert!(rt; at < bytes.len(), "{word}");
    bytes[at] = byte_of(rt, byte);
    Ok(())
}

/// The bytes that have this name.
fn block_of(name: &str) -> Option<&'static [u8]> {
    match name {
        "" => Some(&[]),
        "book" => Some(&SMALL_BOOK),
        "wide" => Some(&WIDE_BOOK),
        "halves" => Some(&RESIDUAL_BOOK),
        "base" => Some(&BASE),
        "queries" => Some(&QUERIES),
        _ => index_block_of(name),
    }
}

/// The bytes of an index that have this name.
fn index_block_of(name: &str) -> Option<&'static [u8]> {
    match name {
        "index1" => Some(b"ADCINDX1\x62\0\0\0"),
        "index2" => Some(b"ADCINDX2\x62\0\0\0"),
        "old_rows" => Some(&OLD_ROWS),
        "new_rows" => Some(&NEW_ROWS),
        _ => None,
    }
}

/// The first three rows of the base behind a book, in version 1: ids 0, 2 and 1, each with its cell and its word.
const OLD_ROWS: [u8; 34] = [
    3, 0, 0, 0, 0, 0, 0, 0, 0, 0, 0, 0, 0, 0, 2, 0, 0, 0, 0, 0, 0, 0, 0x44, 0x44, 1, 0, 0, 0, 2, 0,
    0, 0, 0x78, 0x01,
];

/// The same in version 2: a group of cell 0, and one of cell 2.
const NEW_ROWS: [u8; 42] = [
    3, 0, 0, 0, 2, 0, 0, 0, 0, 0, 0, 0, 2, 0, 0, 0, 0, 0, 0, 0, 0, 0, 2, 0, 0, 0, 0x44, 0x44, 2, 0,
    0, 0, 1, 0, 0, 0, 1, 0, 0, 0, 0x78, 0x01,
];
