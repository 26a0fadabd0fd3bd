//! An index file of version 2 whose rows lie in 65,536 cells by chance.
use adc_ports::SteadyShelf;
use bench_common::Numbers;
use std::alloc::{AllocError, Global};

/// The cells of the book.
const CELLS: usize = 65_536;

/// The components of a vector, and the words of a code.
const SIZE: usize = 128;

const GROUPS: usize = 8;

/// A shelf with the file `read`, an index of so many rows.
pub fn shelf_of(alloc: Global, rows: u32) -> Result<SteadyShelf, AllocError> {
    let bytes = index_of(alloc, rows)?;
    let mut shelf = SteadyShelf::new(alloc);
    match shelf.add("read", &bytes) {
        Ok(()) => Ok(shelf),
        Err(_) => Err(AllocError),
    }
}

/// A checksum of the bytes of the file `written`, and 0 if it was not written.
pub fn sum_of(shelf: &SteadyShelf, written: bool) -> u64 {
    match shelf.file("written") {
        Some(bytes) if written => sum(bytes),
        _ => 0,
    }
}

fn sum(bytes: &[u8]) -> u64 {
    let mut sum: u64 = 0;
    for byte in bytes {
        sum = sum.wrapping_mul(31).wrapping_add(u64::from(*byte));
    }
    sum
}

fn index_of(alloc: Global, rows: u32) -> Result<Vec<u8>, AllocError> {
    let book = book_of(alloc)?;
    let counts = counts_of(alloc, rows)?;
    let mut bytes = b"ADCINDX2".to_vec(alloc)?;
    bytes.extend_from_slice(&34_898u32.to_le_bytes())?;
    bytes.extend_from_slice(&book)?;
    bytes.extend_from_slice(&rows.to_le_bytes())?;
    bytes.extend_from_slice(&used(&counts).to_le_bytes())?;
    put_groups(&mut bytes, &counts)?;
    Ok(bytes)
}

/// A book of 34,898 bytes with d 128, h 64, K0 and K1 256, 4-4-4-4, g 8 and stretches of one length.
fn book_of(alloc: Global) -> Result<Vec<u8>, AllocError> {
    let mut bytes = b"ADCBOOK1".to_vec(alloc)?;
    bytes.extend_from_slice(&[128, 0, 64, 0, 0, 1, 0, 1, 0, GROUPS as u8])?;
    for _ in 0..GROUPS * 4 {
        bytes.extend_from_slice(&[4, 0])?;
    }
    let mut numbers = Numbers::new(5);
    for _ in 0..SIZE * 256 + SIZE * 16 {
        bytes.push(numbers.next_byte())?;
    }
    Ok(bytes)
}

/// How many rows each cell has.
fn counts_of(alloc: Global, rows: u32) -> Result<Vec<u32>, AllocError> {
    let mut numbers = Numbers::new(1);
    let mut counts = Vec::new(alloc);
    for _ in 0..CELLS {
        counts.push(0)?;
    }
    for _ in 0..rows {
        add_one(&mut counts, numbers.next() as usize);
    }
    Ok(counts)
}

fn add_one(counts: &mut [u32], cell: usize) {
    if cell < counts.len() {
        counts[cell] = counts[cell].wrapping_add(1);
    }
}

/// How many cells have a row.
fn used(counts: &[u32]) -> u32 {
    let mut used: u32 = 0;
    for count in counts {
        if 0 < *count {
            used = used.wrapping_add(1);
        }
    }
    used
}

fn put_groups(bytes: &mut Vec<u8>, counts: &[u32]) -> Result<(), AllocError> {
    let mut row = 0;
    let mut cell: u32 = 0;
    for count in counts {
        if 0 < *count {
            bytes.extend_from_slice(&cell.to_le_bytes())?;
            bytes.extend_from_slice(&count.to_le_bytes())?;
            row = put_rows(bytes, row, *count)?;
        }
        cell = cell.wrapping_add(1);
    }
    Ok(())
}

/// So many rows from a number on, whose ids are all numbers below 2^22 in a scattered order. Gives the next number.
fn put_rows(bytes: &mut Vec<u8>, from: u32, count: u32) -> Result<u32, AllocError> {
    let mut row = from;
    for _ in 0..count {
        let id = row.wrapping_mul(2_654_435_761) & 4_194_303;
        bytes.extend_from_slice(&id.to_le_bytes())?;
        for at in 0..GROUPS as u32 {
            bytes.extend_from_slice(&word(id, at).to_le_bytes())?;
        }
        row = row.wrapping_add(1);
    }
    Ok(row)
}

/// A word of the code of an id.
fn word(id: u32, at: u32) -> u16 {
    (id.wrapping_mul(2_654_435_761).wrapping_add(at) & 0xffff) as u16
}
