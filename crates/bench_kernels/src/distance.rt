//! Distances of one vector to many words, again and again.
ghost use Rattle.std.specs.Prelude.{◌≡◌, ℕ, ◌<◌, ◌≤◌, [], length, slice_index_or};

use bench_common::Numbers;
use book_model::dist;
use std::alloc::{AllocError, Global};
use word_columns::WordColumns;

const WORDS: usize = 256;

/// For the call `all` the wrapped sum of one distance of each of `rounds` vectors, of those to 256 words of d components by
/// column; for any other the wrapped sum of all their distances to 256 words of bytes.
pub fn run(alloc: Global, call: &str, d: u64, rounds: u64) -> Result<u64, AllocError> {
    if d == 0 || d > 1024 {
        return Ok(0);
    }
    let size = d as usize;
    let mut x = bytes_of(alloc, size, 3)?;
    if call == "all" {
        let words = words_of(alloc, size * WORDS, 2)?;
        return by_column(alloc, &words, &mut x, rounds);
    }
    let bytes = bytes_of(alloc, size * WORDS, 1)?;
    let mut sum: u64 = 0;
    for round in 0..rounds {
        if x.len() > 0 {
            x[0] = (round % 256) as u8;
        }
        sum = sum.wrapping_add(bytes_pass(&bytes, &x));
    }
    Ok(sum)
}

/// The words by column, and one distance of each vector.
fn by_column(alloc: Global, words: &[u16], x: &mut [u8], rounds: u64) -> Result<u64, AllocError> {
    if x.is_empty() || x.len() > 1024 || words.len() != WORDS * x.len() {
        return Ok(0);
    }
    let columns = WordColumns::new(alloc, words, WORDS, x.len())?;
    Ok(column_rounds(&columns, x, rounds))
}

/// One distance of each of `rounds` vectors.
fn column_rounds(columns: &WordColumns, x: &mut [u8], rounds: u64) -> u64
    requires count { length columns.now ≡ 256 }
    requires sizes { (w : ℕ) → w < length columns.now → length (slice_index_or columns.now w []) ≡ length x.old }
    requires short { length x.old ≤ 1024 }
{
    let mut into = [0; WORDS];
    let mut sum: u64 = 0;
    for round in 0..rounds {
        if x.len() > 0 {
            x[0] = (round % 256) as u8;
        }
        columns.distances(4, x, &mut into);
        sum = sum.wrapping_add(into[(round % 256) as usize]);
    }
    sum
}

fn bytes_of(alloc: Global, count: usize, start: u64) -> Result<Vec<u8>, AllocError> {
    let mut numbers = Numbers::new(start);
    let mut made = Vec::new(alloc);
    for _ in 0..count {
        made.push(numbers.next_byte())?;
    }
    Ok(made)
}

fn words_of(alloc: Global, count: usize, start: u64) -> Result<Vec<u16>, AllocError> {
    let mut numbers = Numbers::new(start);
    let mut made = Vec::new(alloc);
    for _ in 0..count {
        made.push(numbers.next())?;
    }
    Ok(made)
}

fn bytes_pass(words: &[u8], x: &[u8]) -> u64 {
    let mut sum: u64 = 0;
    for word in words.chunks(x.len().max(1)) {
        if word.len() == x.len() && x.len() <= 1024 {
            sum = sum.wrapping_add(dist(x, word));
        }
    }
    sum
}
