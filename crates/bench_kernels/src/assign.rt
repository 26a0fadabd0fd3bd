//! Cells and codes of many vectors, again and again.
use bench_common::Numbers;
use code_assign::{coarse, encode};
use codebook_core::{AnyBook, Codebook, decode};
use shape_core::Shape;
use std::alloc::{AllocError, Global};

/// The components of a vector.
const SIZE: usize = 128;

/// The words of a part, and of a code.
const PART: usize = 256;

const GROUPS: usize = 8;

/// The vectors of a round.
const ROWS: usize = 64;

/// A sum of what `rounds` rounds over 64 vectors give, by the call `coarse` or any other for `encode`, over a book of
/// shape 0 (4-4-4-4) or any other for 8-8.
pub fn run(alloc: Global, call: &str, shape: u64, rounds: u64) -> Result<u64, AllocError> {
    let bytes = book_bytes(alloc, shape)?;
    let rows = bytes_of(alloc, SIZE * ROWS)?;
    match decode(alloc, &bytes) {
        Ok(AnyBook::F4444(book)) => passes(alloc, &book, call, &rows, rounds),
        Ok(AnyBook::F88(book)) => passes(alloc, &book, call, &rows, rounds),
        _ => Ok(0),
    }
}

fn passes<S: Shape>(
    alloc: Global,
    book: &Codebook<S>,
    call: &str,
    rows: &[u8],
    rounds: u64,
) -> Result<u64, AllocError> {
    let mut words = Vec::new(alloc);
    for _ in 0..GROUPS {
        words.push(0)?;
    }
    let cells = call == "coarse";
    let mut sum: u64 = 0;
    for _ in 0..rounds {
        let more = if cells {
            coarse_pass(book, rows)
        } else {
            encode_pass(book, rows, &mut words)
        };
        sum = sum.wrapping_mul(31).wrapping_add(more);
    }
    Ok(sum)
}

fn coarse_pass<S: Shape>(book: &Codebook<S>, rows: &[u8]) -> u64 {
    let mut sum: u64 = 0;
    for row in rows.chunks(SIZE) {
        if row.len() == book.d() as usize {
            sum = sum
                .wrapping_mul(31)
                .wrapping_add(u64::from(coarse(book, row)));
        }
    }
    sum
}

fn encode_pass<S: Shape>(book: &Codebook<S>, rows: &[u8], words: &mut [u16]) -> u64 {
    let mut sum: u64 = 0;
    for row in rows.chunks(SIZE) {
        if row.len() == book.d() as usize && words.len() == book.g() as usize {
            encode(book, row, words);
            for word in words.iter() {
                sum = sum.wrapping_mul(31).wrapping_add(u64::from(*word));
            }
        }
    }
    sum
}

/// A book file with d 128, h 64, K0 and K1 256, g 8 and stretches of one length.
fn book_bytes(alloc: Global, shape: u64) -> Result<Vec<u8>, AllocError> {
    let (number, fields, count) = if shape == 0 { (0, 4, 16) } else { (3, 2, 256) };
    let mut bytes = Vec::new(alloc);
    bytes.extend_from_slice(b"ADCBOOK1")?;
    bytes.extend_from_slice(&[128, 0, 64, 0, 0, 1, 0, 1, number, GROUPS as u8])?;
    for _ in 0..GROUPS * fields {
        bytes.extend_from_slice(&[(SIZE / GROUPS / fields) as u8, 0])?;
    }
    let components = bytes_of(alloc, SIZE * PART + SIZE * count)?;
    bytes.extend_from_slice(&components)?;
    Ok(bytes)
}

fn bytes_of(alloc: Global, count: usize) -> Result<Vec<u8>, AllocError> {
    let mut numbers = Numbers::new(5);
    let mut made = Vec::new(alloc);
    for _ in 0..count {
        made.push(numbers.next_byte())?;
    }
    Ok(made)
}
