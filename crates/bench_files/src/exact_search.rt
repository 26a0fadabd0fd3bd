//! Exact searches of one base, and orders of some of its rows.
ghost use Rattle.std.specs.Prelude.{◌≡◌, ◌≤◌, ◌<◌, ◌↔◌, IsTrue, All, length};

use adc_ports::{FileShelf, Shelf};
use bench_common::{Numbers, number, since};
use flat_truth::{TruePair, exact, rerank};
use std::alloc::{AllocError, Global};
use std::time::CpuClock;
use std::{env, io};
use vec_files::Checked;

/// How many rows of how many components there are, and how many queries ask for how many rows each, out of how many that were found;
/// out of all if none was.
#[derive(Drop)]
struct Job {
    d: u64,
    rows: u64,
    queries: u64,
    k: u64,
    found: u64,
}

/// Runs by the words BASE D ROWS QUERIES K, which search a bvecs file for as many made queries; with a word R more, each query
/// orders R made ids by their rows. Prints a checksum and the nanoseconds spent.
pub fn run_words(rt: &HostRuntime, mut words: env::Args) -> io::Result<()> {
    match words.next() {
        Some(base) => time(rt, base.as_str(), &job_of(words)),
        None => Ok(()),
    }
}

/// The job of the words that are left.
fn job_of(mut words: env::Args) -> Job {
    let d = number(words.next());
    let rows = number(words.next());
    let queries = number(words.next());
    let k = number(words.next());
    let found = number(words.next());
    Job {
        d,
        rows,
        queries,
        k,
        found,
    }
}

/// Runs a job, and prints its checksum and the nanoseconds.
fn time(rt: &HostRuntime, base: &str, job: &Job) -> io::Result<()> {
    let mut shelf = FileShelf::new(rt.alloc(), rt);
    let start = rt.process_cpu_time()?;
    let sum = run(rt.alloc(), &mut shelf, base, job)?;
    let spent = since(start, rt.process_cpu_time()?);
    println!(rt; "{sum} {spent}")
}

/// The wrapped sum of all distances and row numbers that the queries are answered; 0 where the file is not as the words say.
fn run<H: Shelf>(alloc: Global, shelf: &mut H, base: &str, job: &Job) -> Result<u64, AllocError> {
    if job.d == 0 || job.d > 1024 || job.rows > 4_194_304 || job.k > 1000 {
        return Ok(0);
    }
    let checked = Checked {
        d: job.d as u32,
        rows: job.rows as u32,
    };
    let mut numbers = Numbers::new(2);
    let mut query = vec![in alloc; 0u8; job.d as usize]?;
    let mut ids = Vec::new(alloc);
    let mut sum: u64 = 0;
    for _ in 0..job.queries {
        for component in &mut query {
            *component = numbers.next_byte();
        }
        add_ids(&mut ids, &mut numbers, job.found, checked.rows)?;
        sum = sum.wrapping_add(ask(alloc, shelf, base, checked, &query, &ids, job.k as u32));
        ids.clear();
    }
    Ok(sum)
}

/// Adds so many made ids of rows.
fn add_ids(
    ids: &mut Vec<u32>,
    numbers: &mut Numbers,
    count: u64,
    rows: u32,
) -> Result<(), AllocError> {
    if rows == 0 {
        return Ok(());
    }
    for _ in 0..count {
        ids.push(numbers.next_wide() % rows)?;
    }
    Ok(())
}

/// The wrapped sum of what a query is answered: out of these ids, or out of all rows if there are none.
fn ask<H: Shelf>(
    alloc: Global,
    shelf: &mut H,
    base: &str,
    checked: Checked,
    query: &[u8],
    ids: &[u32],
    k: u32,
) -> u64
    requires d { checked.d ≤ 1024 }
    requires rows { checked.rows ≤ 4194304 }
{
    if query.len() != checked.d as usize || !are_below(ids, checked.rows) {
        return 0;
    }
    let answer = if ids.is_empty() {
        exact(alloc, shelf, base, checked, query, k)
    } else {
        rerank(alloc, shelf, base, checked, query, ids, k)
    };
    match answer {
        Ok(answer) => sum_of(answer.pairs()),
        Err(_) => 0,
    }
}

/// Whether each id numbers one of so many rows.
fn are_below(ids: &[u32], rows: u32) -> bool
    ensures { IsTrue result ↔ All (λ id. id < rows) ids.now }
{
    ids.iter().all(|id| *id < rows)
}

/// The wrapped sum of distances and row numbers.
fn sum_of(pairs: &[TruePair]) -> u64 {
    let mut sum: u64 = 0;
    for pair in pairs {
        sum = sum.wrapping_mul(31).wrapping_add(pair.distance);
        sum = sum.wrapping_mul(31).wrapping_add(u64::from(pair.row));
    }
    sum
}
