//! Passes over a book of K words of 64 bytes in each part, and queries.
ghost use Rattle.std.specs.Prelude.{◌≡◌, ◌≤◌, ◌^◌, All, IfOk};
ghost use Rattle.coarse_rank.specs.Ranked.{IsFilled};

use bench_common::{Numbers, number, since};
use coarse_rank::{PairMeter, Ranks};
use codebook_core::{AnyBook, Codebook, decode};
use pair_walk::Walk;
use shape_core::Fields;
use std::alloc::Global;
use std::time::CpuClock;
use std::{env, io};

type Book = Codebook<Fields<4, 4, 4, 4>>;

/// How many queries there are.
const QUERIES: usize = 16;

/// Runs by the words CALL K CELLS ROUNDS, and prints a checksum and the nanoseconds spent.
pub fn run_words(rt: &HostRuntime, mut words: env::Args) -> io::Result<()> {
    let call = words.next();
    let k = number(words.next());
    let cells = number(words.next());
    let rounds = number(words.next());
    match call {
        Some(call) => report(rt, call.as_str(), k, cells, rounds),
        None => Ok(()),
    }
}

/// Runs a call, and prints a checksum and the nanoseconds spent.
fn report(rt: &HostRuntime, call: &str, k: u64, cells: u64, rounds: u64) -> io::Result<()> {
    let (sum, spent) = run(rt, rt.alloc(), call, k, cells, rounds)?;
    println!(rt; "{sum} {spent}")
}

/// Fills the ranks of each query, or walks over their first cells, so many times. The nanoseconds are only those of this.
fn run(
    rt: &impl CpuClock,
    alloc: Global,
    call: &str,
    k: u64,
    cells: u64,
    rounds: u64,
) -> io::Result<(u64, u128)> {
    let mut numbers = Numbers::new(1);
    let book = book_of(alloc, k.clamp(1, 1024) as u16, &mut numbers)?;
    run_by(rt, alloc, &book, &mut numbers, call, cells, rounds)
}

/// Fills the ranks of each query by a book, or walks over their first cells.
fn run_by(
    rt: &impl CpuClock,
    alloc: Global,
    book: &Book,
    numbers: &mut Numbers,
    call: &str,
    cells: u64,
    rounds: u64,
) -> io::Result<(u64, u128)> {
    let queries = bytes_of(alloc, 128 * QUERIES, numbers)?;
    if call == "fill" {
        time_fills(rt, alloc, book, &queries, rounds)
    } else {
        time_walks(rt, alloc, book, &queries, cells, rounds)
    }
}

fn time_fills(
    rt: &impl CpuClock,
    alloc: Global,
    book: &Book,
    queries: &[u8],
    rounds: u64,
) -> io::Result<(u64, u128)> {
    let mut ranks = room_for(alloc, book)?;
    let start = rt.process_cpu_time()?;
    let sum = fill_all(alloc, book, queries, &mut ranks, rounds);
    Ok((sum, since(start, rt.process_cpu_time()?)))
}

fn time_walks(
    rt: &impl CpuClock,
    alloc: Global,
    book: &Book,
    queries: &[u8],
    cells: u64,
    rounds: u64,
) -> io::Result<(u64, u128)> {
    let ranks = all_ranks(alloc, book, queries)?;
    let mut walk = Walk::new();
    let start = rt.process_cpu_time()?;
    let sum = walk_all(alloc, &ranks, &mut walk, cells, rounds);
    Ok((sum, since(start, rt.process_cpu_time()?)))
}

/// So many bytes.
fn bytes_of(alloc: Global, count: usize, numbers: &mut Numbers) -> io::Result<Vec<u8>> {
    let mut bytes = Vec::new(alloc);
    for _ in 0..count {
        bytes.push(numbers.next_byte())?;
    }
    Ok(bytes)
}

/// The file of a book of d 128 and K coarse words in each part. The words of its sub-quantizers are zeros.
fn file_of(alloc: Global, k: u16, numbers: &mut Numbers) -> io::Result<Vec<u8>> {
    let mut bytes = Vec::new(alloc);
    bytes.extend_from_slice(b"ADCBOOK1")?;
    bytes.extend_from_slice(&[128, 0, 64, 0])?;
    bytes.extend_from_slice(&k.to_le_bytes())?;
    bytes.extend_from_slice(&k.to_le_bytes())?;
    bytes.extend_from_slice(&[0, 1, 32, 0, 32, 0, 32, 0, 32, 0])?;
    let words = bytes_of(alloc, 128 * usize::from(k), numbers)?;
    bytes.extend_from_slice(&words)?;
    bytes.extend_from_slice(&[0; 2048])?;
    Ok(bytes)
}

/// The book of that file.
fn book_of(alloc: Global, k: u16, numbers: &mut Numbers) -> io::Result<Book> {
    let bytes = file_of(alloc, k, numbers)?;
    match decode(alloc, &bytes) {
        Ok(AnyBook::F4444(book)) => Ok(book),
        _ => Err(io::Error::from(io::ErrorKind::InvalidData)),
    }
}

/// Room for the ranks of a query.
fn room_for(alloc: Global, book: &Book) -> io::Result<Ranks>
    ensures k0 { IfOk result (λ ranks. ranks.k0 ≡ book.now.k0) }
    ensures k1 { IfOk result (λ ranks. ranks.k1 ≡ book.now.k1) }
{
    let _ = book.d();
    let Ok(ranks) = Ranks::with_room(alloc, book.k0(), book.k1()) else {
        return Err(io::Error::from(io::ErrorKind::OutOfMemory));
    };
    Ok(ranks)
}

/// The ranks of each query.
fn all_ranks(alloc: Global, book: &Book, queries: &[u8]) -> io::Result<Vec<Ranks>>
    ensures { IfOk result (λ all. All IsFilled all.items) }
{
    let mut all = Vec::new(alloc);
    for query in queries.chunks(128) {
        let mut ranks = room_for(alloc, book)?;
        if query.len() == book.d() as usize {
            ranks.fill(book, query);
            all.push(ranks)?;
        }
    }
    Ok(all)
}

/// Fills the ranks of each query.
fn fill_all(alloc: Global, book: &Book, queries: &[u8], ranks: &mut Ranks, rounds: u64) -> u64
    requires k0 { ranks.old.k0 ≡ book.now.k0 }
    requires k1 { ranks.old.k1 ≡ book.now.k1 }
{
    let mut sum: u64 = 0;
    for i in 0..rounds {
        for query in queries.chunks(128) {
            if query.len() == book.d() as usize {
                ranks.fill(book, query);
                sum = sum.wrapping_add(u64::from(ranks.cell(0, 0)));
            }
        }
    }
    sum
}

/// Walks over the first cells of each query.
fn walk_all(alloc: Global, all: &[Ranks], walk: &mut Walk, cells: u64, rounds: u64) -> u64
    requires { All IsFilled all.now }
{
    let mut sum: u64 = 0;
    for i in 0..rounds {
        for ranks in all {
            sum = sum.wrapping_add(walk_one(alloc, ranks, walk, cells));
        }
    }
    sum
}

/// Walks over the first cells of a query.
fn walk_one(alloc: Global, ranks: &Ranks, walk: &mut Walk, cells: u64) -> u64
    requires { IsFilled ranks.now }
{
    let mut pairs = PairMeter::new(alloc);
    walk.start(ranks, &mut pairs);
    let mut sum: u64 = 0;
    for i in 0..cells.min(1_048_576) {
        let Some(cell) = walk.next(ranks, &mut pairs) else {
            return sum;
        };
        sum = sum
            .wrapping_mul(31)
            .wrapping_add(cell.sum ^ u64::from(cell.number));
    }
    sum
}
