//! What the benchmark programs share: numbers and files that words name, times, resident bytes and a generator of numbers.
#![tactic(auto)]

use std::alloc::{AllocError, Global};
use std::time::Duration;
use std::{env, fs, io};

/// The number that a word spells, and 0 of anything else.
pub fn number(word: Option<String>) -> u64 {
    match word {
        Some(text) => text.parse::<u64>().unwrap_or(0),
        None => 0,
    }
}

/// The number that each word spells.
pub fn numbers_of(alloc: Global, words: env::Args) -> Result<Vec<u64>, AllocError> {
    let mut numbers = Vec::new(alloc);
    for word in words {
        numbers.push(number(Some(word)))?;
    }
    Ok(numbers)
}

/// The bytes of a file of a book, and of two bvecs files of rows and of queries.
#[derive(Drop)]
pub struct Files {
    pub book: Vec<u8>,
    pub base: Vec<u8>,
    pub queries: Vec<u8>,
}

/// The files that the next three words name, and none if there are fewer words.
pub fn files_of(rt: &HostRuntime, words: &mut env::Args) -> io::Result<Option<Files>> {
    let (Some(book), Some(base), Some(queries)) = (words.next(), words.next(), words.next()) else {
        return Ok(None);
    };
    Ok(Some(read_files(rt, book.as_str(), base.as_str(), queries.as_str())?))
}

/// The bytes of three files.
fn read_files(rt: &HostRuntime, book: &str, base: &str, queries: &str) -> io::Result<Files> {
    let book = fs::read(rt, book)?;
    let base = fs::read(rt, base)?;
    let queries = fs::read(rt, queries)?;
    Ok(Files {
        book,
        base,
        queries,
    })
}

/// Nanoseconds between two readings of the clock, and 0 if the second is the earlier.
pub fn since(start: Duration, end: Duration) -> u128 {
    match end.checked_sub(start) {
        Some(spent) => spent.as_nanos(),
        None => 0,
    }
}

/// The bytes of the process that are in memory, if the system tells them in `/proc/self/statm`, and else 0.
pub fn resident(rt: &HostRuntime) -> u64 {
    match fs::read_to_string(rt, "/proc/self/statm") {
        Ok(text) => pages_of(text.as_str()).saturating_mul(4096),
        Err(_) => 0,
    }
}

/// The number that the second word of a text spells, and 0 of anything else.
fn pages_of(text: &str) -> u64 {
    match text.split(' ').nth(1) {
        Some(pages) => pages.parse::<u64>().unwrap_or(0),
        None => 0,
    }
}

/// A linear congruential generator, the same as in the baselines of bench/.
#[derive(Drop)]
pub struct Numbers {
    state: u64,
}

impl Numbers {
    /// The numbers that follow from a start.
    pub fn new(start: u64) -> Numbers {
        Numbers { state: start }
    }

    /// The next number, below 2^32.
    pub fn next_wide(&mut self) -> u32 {
        self.state = self
            .state
            .wrapping_mul(6364136223846793005)
            .wrapping_add(1442695040888963407);
        (self.state >> 32) as u32
    }

    /// The next number, below 2^16.
    pub fn next(&mut self) -> u16 {
        (self.next_wide() >> 16) as u16
    }

    /// The next number, below 2^8.
    pub fn next_byte(&mut self) -> u8 {
        (self.next() & 255) as u8
    }
}
