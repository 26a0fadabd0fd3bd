//! The runs of a book: rows and queries from the numbers, and the time of what is called.
ghost use Rattle.std.specs.Prelude.{◌≡◌, ◌≤◌, [], length, IfOk};
ghost use Rattle.adc_tables.specs.Full.{IsFilledFor};

use crate::scan_exact::offer_all;
use crate::scan_fills::{full_rounds, small_rounds};
use crate::scan_passes::scan_fresh;
use crate::scan_rows::{codes_of, store_of};
use adc_tables::{FullTables, SmallTables};
use bench_common::{Numbers, number, since};
use best_k::{Best, Pair};
use cell_store::CellStore;
use codebook_core::{AnyBook, Codebook, decode};
use shape_core::Shape;
use std::alloc::Global;
use std::time::CpuClock;
use std::{env, io};

/// What is to be run.
#[derive(Drop)]
struct Job {
    scale: u64,
    groups: u64,
    cells: u64,
    rows: u64,
    rounds: u64,
}

/// What is timed: pruned scans of rows that came cell by cell or dealt round the cells, exact distances of all rows, full
/// tables or small ones.
#[derive(Clone, Copy)]
enum Call {
    Scan,
    Mixed,
    Exact,
    Full,
    Small,
}

/// What came of a run.
#[derive(Drop)]
pub struct Done {
    pub sum: u64,
    pub full: u64,
    pub spent: u128,
}

/// Runs by the words SHAPE GROUPS SCALE CALL CELLS ROWS ROUNDS, and prints a checksum, the full rows and the nanoseconds spent.
pub fn run_words(rt: &HostRuntime, mut words: env::Args) -> io::Result<()> {
    let Some(shape) = words.next() else {
        return Ok(());
    };
    let groups = number(words.next());
    let scale = number(words.next());
    let call = words.next();
    let job = job_of(groups, scale, words);
    report(rt, shape.as_str(), call, &job)
}

/// A job with the next three numbers of the words.
fn job_of(groups: u64, scale: u64, mut words: env::Args) -> Job {
    let cells = number(words.next());
    let rows = number(words.next());
    let rounds = number(words.next());
    Job {
        scale,
        groups,
        cells,
        rows,
        rounds,
    }
}

/// Runs a job, and prints what came of it.
fn report(rt: &HostRuntime, shape: &str, call: Option<String>, job: &Job) -> io::Result<()> {
    let done = run(rt, rt.alloc(), shape, call, job)?;
    println!(rt; "{} {} {}", done.sum, done.full, done.spent)
}

/// Runs a job by a book of the shape.
fn run(
    rt: &impl CpuClock,
    alloc: Global,
    shape: &str,
    call: Option<String>,
    job: &Job,
) -> io::Result<Done> {
    let mut numbers = Numbers::new(1);
    let bytes = crate::scan_book::bytes_of(
        alloc,
        shape,
        job.scale,
        job.groups.clamp(1, 32) as u8,
        &mut numbers,
    )?;
    let call = call_of(call);
    match decode(alloc, &bytes) {
        Ok(AnyBook::F4444(book)) => work(rt, alloc, &book, call, job, &mut numbers),
        Ok(AnyBook::F555(book)) => work(rt, alloc, &book, call, job, &mut numbers),
        Ok(AnyBook::F664(book)) => work(rt, alloc, &book, call, job, &mut numbers),
        Ok(AnyBook::F88(book)) => work(rt, alloc, &book, call, job, &mut numbers),
        Err(_) => Err(io::Error::from(io::ErrorKind::InvalidData)),
    }
}

/// What the word asks for, and scans of anything else.
fn call_of(word: Option<String>) -> Call {
    match word {
        Some(text) => match text.as_str() {
            "mixed" => Call::Mixed,
            "exact" => Call::Exact,
            "full" => Call::Full,
            "small" => Call::Small,
            _ => Call::Scan,
        },
        None => Call::Scan,
    }
}

/// Runs a job by a book.
fn work<S: Shape>(
    rt: &impl CpuClock,
    alloc: Global,
    book: &Codebook<S>,
    call: Call,
    job: &Job,
    numbers: &mut Numbers,
) -> io::Result<Done> {
    match call {
        Call::Full => full_rounds(rt, alloc, book, job.rounds, numbers),
        Call::Small => small_rounds(rt, alloc, book, job.rounds, numbers),
        Call::Exact => exact_scans(rt, alloc, book, job, numbers),
        Call::Mixed => scans(rt, alloc, book, true, job, numbers),
        Call::Scan => scans(rt, alloc, book, false, job, numbers),
    }
}

/// Makes rows and computes all distances of the queries of a job.
fn exact_scans<S: Shape>(
    rt: &impl CpuClock,
    alloc: Global,
    book: &Codebook<S>,
    job: &Job,
    numbers: &mut Numbers,
) -> io::Result<Done> {
    let cells = job.cells.clamp(1, 1_048_576) as u32;
    let rows = job.rows.min(4_194_304) as u32;
    let codes = codes_of::<S>(alloc, cells.wrapping_mul(rows), book.g(), numbers)?;
    exact_rounds(rt, alloc, book, &codes, job.rounds, numbers)
}

/// Makes rows, which come cell by cell or dealt round the cells, and runs the queries of a job over them.
fn scans<S: Shape>(
    rt: &impl CpuClock,
    alloc: Global,
    book: &Codebook<S>,
    dealt: bool,
    job: &Job,
    numbers: &mut Numbers,
) -> io::Result<Done> {
    let cells = job.cells.clamp(1, 1_048_576) as u32;
    let rows = job.rows.min(4_194_304) as u32;
    let codes = codes_of::<S>(alloc, cells.wrapping_mul(rows), book.g(), numbers)?;
    let store = store_of::<S>(alloc, &codes, book.g(), cells, rows, dealt)?;
    scan_rounds(rt, alloc, book, &store, cells, job.rounds, numbers)
}

/// Scans for so many queries.
fn scan_rounds<S: Shape>(
    rt: &impl CpuClock,
    alloc: Global,
    book: &Codebook<S>,
    store: &CellStore<S>,
    cells: u32,
    rounds: u64,
    numbers: &mut Numbers,
) -> io::Result<Done>
    requires store { store.now.g ≡ book.now.g }
{
    let mut all = nothing();
    for _round in 0..rounds {
        let query = queries_of(alloc, 1, numbers)?;
        let done = scan_query(rt, alloc, book, store, cells, &query)?;
        add(&mut all, &done);
    }
    Ok(all)
}

/// Computes all distances for so many queries.
fn exact_rounds<S: Shape>(
    rt: &impl CpuClock,
    alloc: Global,
    book: &Codebook<S>,
    codes: &[u16],
    rounds: u64,
    numbers: &mut Numbers,
) -> io::Result<Done> {
    let mut all = nothing();
    for _round in 0..rounds {
        let query = queries_of(alloc, 1, numbers)?;
        let done = exact_query(rt, alloc, book, codes, &query)?;
        add(&mut all, &done);
    }
    Ok(all)
}

/// Scans for a query.
fn scan_query<S: Shape>(
    rt: &impl CpuClock,
    alloc: Global,
    book: &Codebook<S>,
    store: &CellStore<S>,
    cells: u32,
    query: &[u8],
) -> io::Result<Done>
    requires store { store.now.g ≡ book.now.g }
{
    if query.len() != book.d() as usize {
        return Err(io::Error::from(io::ErrorKind::InvalidData));
    }
    let tables = filled(alloc, book, query)?;
    let mut small = small_room(alloc, book.g())?;
    let mut best = best_room(alloc)?;
    let start = rt.process_cpu_time()?;
    let full = scan_fresh(
        alloc, book, query, store, cells, &tables, &mut small, &mut best,
    );
    let spent = since(start, rt.process_cpu_time()?);
    Ok(Done {
        sum: checksum(best.finish()),
        full,
        spent,
    })
}

/// Computes all distances for a query.
fn exact_query<S: Shape>(
    rt: &impl CpuClock,
    alloc: Global,
    book: &Codebook<S>,
    codes: &[u16],
    query: &[u8],
) -> io::Result<Done> {
    if query.len() != book.d() as usize {
        return Err(io::Error::from(io::ErrorKind::InvalidData));
    }
    let tables = filled(alloc, book, query)?;
    let mut best = best_room(alloc)?;
    let start = rt.process_cpu_time()?;
    offer_all(alloc, codes, book.g(), &tables, &mut best);
    let spent = since(start, rt.process_cpu_time()?);
    Ok(Done {
        sum: checksum(best.finish()),
        full: (codes.len() / book.g() as usize) as u64,
        spent,
    })
}

/// The tables of a query.
pub fn filled<S: Shape>(
    alloc: Global,
    book: &Codebook<S>,
    query: &[u8],
) -> io::Result<FullTables<S>>
    requires query { length query.now ≡ book.now.d }
    ensures filled { IfOk result (λ tables. IsFilledFor S.widths book.now query.now tables) }
    ensures g { IfOk result (λ tables. tables.g ≡ book.now.g) }
{
    let Ok(mut tables) = FullTables::with_room(alloc, book) else {
        return Err(io::Error::from(io::ErrorKind::OutOfMemory));
    };
    tables.fill(book, query);
    Ok(tables)
}

/// Room for small tables of codes of so many words.
pub fn small_room<S: Shape>(alloc: Global, groups: u32) -> io::Result<SmallTables<S>>
    requires { (1 ≤ groups) × (groups ≤ 32) }
    ensures { IfOk result (λ small. small.g ≡ groups) }
{
    match SmallTables::with_room(alloc, groups) {
        Ok(small) => Ok(small),
        Err(_) => Err(io::Error::from(io::ErrorKind::OutOfMemory)),
    }
}

/// Room for the ten best.
fn best_room(alloc: Global) -> io::Result<Best>
    ensures k { IfOk result (λ best. best.k ≡ 10) }
    ensures none { IfOk result (λ best. best.pairs ≡ []) }
{
    match Best::with_room(alloc, 10) {
        Ok(best) => Ok(best),
        Err(_) => Err(io::Error::from(io::ErrorKind::OutOfMemory)),
    }
}

/// So many queries of 128 components, at most 16.
pub fn queries_of(alloc: Global, count: u32, numbers: &mut Numbers) -> io::Result<Vec<u8>> {
    let mut queries = Vec::new(alloc);
    for _place in 0..count.min(16) * 128 {
        queries.push(numbers.next_byte())?;
    }
    Ok(queries)
}

fn nothing() -> Done {
    Done {
        sum: 0,
        full: 0,
        spent: 0,
    }
}

fn add(all: &mut Done, done: &Done) {
    all.sum = all.sum.wrapping_mul(31).wrapping_add(done.sum);
    all.full = all.full.wrapping_add(done.full);
    all.spent = all.spent.wrapping_add(done.spent);
}

fn checksum(pairs: &[Pair]) -> u64 {
    let mut sum: u64 = 0;
    for pair in pairs {
        sum = sum
            .wrapping_mul(31)
            .wrapping_add(pair.distance ^ (u64::from(pair.id) << 40));
    }
    sum
}
