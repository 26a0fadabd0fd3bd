//! The inserts of all rows, and the passes over all queries.
ghost use Rattle.std.specs.Prelude.{◌≡◌, ◌≤◌, true};
ghost use Rattle.residual_scan.specs.Report.{HasRoomFor, HaveRoom};

use bench_common::{Files, files_of, number, numbers_of, since};
use best_k::Pair;
use codebook_core::{AnyBook, Codebook, decode};
use id_filter::{AllIds, IdRange};
use query_engine::{Meters, Report};
use residual_scan::{ResidualEngine, ResidualScratch, check};
use shape_core::Shape;
use std::alloc::Global;
use std::time::CpuClock;
use std::{env, io};

/// The rows of two bvecs files, and how often the queries are asked.
#[derive(Drop)]
struct Data {
    base: Vec<u8>,
    queries: Vec<u8>,
    rounds: u64,
}

/// What a pass over the queries found.
#[derive(Clone, Copy)]
struct Found {
    sum: u64,
    cells: u64,
    live: u64,
    full: u64,
}

/// What the last pass found, the halves that it filled, and the nanoseconds of the fastest pass.
#[derive(Clone, Copy)]
struct Least {
    found: Found,
    halves: u64,
    spent: u128,
}

/// Runs by the words BOOK BASE QUERIES ROUNDS WANTED.., and prints a line for the inserts: a checksum of the cells, and the
/// nanoseconds spent; and for each WANTED and each number of kept tables a line: both, a checksum of the ten nearest of every
/// query, the visited cells and rows, the halves that were filled, the full rows, and the nanoseconds of the fastest of ROUNDS
/// passes.
pub fn run_words(rt: &HostRuntime, mut words: env::Args) -> io::Result<()> {
    match files_of(rt, &mut words)? {
        Some(files) => run_files(rt, files, words),
        None => Ok(()),
    }
}

/// Runs over files, with the numbers of the words that are left.
fn run_files(rt: &HostRuntime, files: Files, mut words: env::Args) -> io::Result<()> {
    let Files {
        book,
        base,
        queries,
    } = files;
    let rounds = number(words.next());
    let wanted = numbers_of(rt.alloc(), words)?;
    let data = Data {
        base,
        queries,
        rounds,
    };
    run_over(rt, &book, &data, &wanted)
}

/// Runs over the book of a file, if it is of the shape 4-4-4-4 or 8-8.
fn run_over(rt: &HostRuntime, book: &[u8], data: &Data, wanted: &[u64]) -> io::Result<()> {
    match decode(rt.alloc(), book) {
        Ok(AnyBook::F4444(book)) => run(rt, rt.alloc(), book, data, wanted),
        Ok(AnyBook::F88(book)) => run(rt, rt.alloc(), book, data, wanted),
        _ => Ok(()),
    }
}

/// If it is a residual book: inserts the rows and asks the queries, and prints a line of each.
fn run<S: Shape>(
    rt: &HostRuntime,
    alloc: Global,
    book: Codebook<S>,
    data: &Data,
    wanted: &[u64],
) -> io::Result<()> {
    let Ok(()) = check(&book) else {
        return Ok(());
    };
    let mut engine = ResidualEngine::new(alloc, book, 4_194_304);
    run_on(rt, alloc, &mut engine, data, wanted)
}

/// Inserts the rows into an engine and asks the queries.
fn run_on<S: Shape>(
    rt: &HostRuntime,
    alloc: Global,
    engine: &mut ResidualEngine<S>,
    data: &Data,
    wanted: &[u64],
) -> io::Result<()> {
    time_inserts(rt, engine, &data.base)?;
    for wanted in wanted {
        ask_rounds(rt, alloc, engine, data, *wanted, 0)?;
        ask_rounds(rt, alloc, engine, data, *wanted, 128)?;
        ask_rounds(rt, alloc, engine, data, *wanted, 2048)?;
    }
    Ok(())
}

/// Inserts the rows, and prints the checksum and the time.
fn time_inserts<S: Shape>(
    rt: &HostRuntime,
    engine: &mut ResidualEngine<S>,
    base: &[u8],
) -> io::Result<()> {
    let start = rt.process_cpu_time()?;
    let sum = insert_all(engine, base);
    let spent = since(start, rt.process_cpu_time()?);
    println!(rt; "insert {sum} {spent}")
}

/// Inserts a row for each 132 bytes, and gives a checksum of their cells.
fn insert_all<S: Shape>(engine: &mut ResidualEngine<S>, base: &[u8]) -> u64 {
    let mut sum: u64 = 0;
    let mut id: u32 = 0;
    for row in base.chunks(132) {
        sum = sum.wrapping_mul(31).wrapping_add(insert(engine, id, row));
        id = id.wrapping_add(1);
    }
    sum
}

/// Inserts the row of a vector that stands behind its header, and gives its cell.
fn insert<S: Shape>(engine: &mut ResidualEngine<S>, id: u32, row: &[u8]) -> u64 {
    if row.len() != 132 || engine.book().d() != 128 || id > IdRange::LAST_ID {
        return 0;
    }
    if engine.store().stamp() > 4_000_000_000 {
        return 0;
    }
    match engine.insert(id, &row[4..]) {
        Ok(cell) => u64::from(cell),
        Err(_) => 0,
    }
}

/// Asks all queries some times with this many kept tables, and prints what they found and the least time.
fn ask_rounds<S: Shape>(
    rt: &HostRuntime,
    alloc: Global,
    engine: &ResidualEngine<S>,
    data: &Data,
    wanted: u64,
    cache: u32,
) -> io::Result<()>
    requires cache { cache ≤ 2048 }
{
    let Ok(mut scratch) = ResidualScratch::new(alloc, engine.book(), 10, cache) else {
        return Ok(());
    };
    let mut least = Least {
        found: NOTHING,
        halves: 0,
        spent: u128::MAX,
    };
    for _ in 0..data.rounds {
        ask_once(rt, engine, &mut scratch, &data.queries, wanted, &mut least)?;
    }
    print_least(rt, wanted, cache, &least)
}

/// Asks all queries, and keeps what they found, the halves that were filled, and the time if it is less.
fn ask_once<S: Shape>(
    rt: &HostRuntime,
    engine: &ResidualEngine<S>,
    scratch: &mut ResidualScratch<S>,
    queries: &[u8],
    wanted: u64,
    least: &mut Least,
) -> io::Result<()>
    requires room { HasRoomFor engine.now.book scratch.old }
    requires most { scratch.old.best.room ≡ 10 }
    ensures room { HasRoomFor engine.now.book scratch.new }
    ensures most { scratch.new.best.room ≡ 10 }
{
    let mut meters = Meters::new(rt.alloc());
    let start = rt.process_cpu_time()?;
    least.found = ask_all(engine, scratch, queries, wanted, &mut meters);
    least.spent = least.spent.min(since(start, rt.process_cpu_time()?));
    least.halves = meters.halves.count();
    Ok(())
}

/// Prints what the queries found and the least time.
fn print_least(rt: &HostRuntime, wanted: u64, cache: u32, least: &Least) -> io::Result<()> {
    let Found {
        sum,
        cells,
        live,
        full,
    } = least.found;
    let Least { halves, spent, .. } = *least;
    println!(rt; "{wanted} {cache} {sum} {cells} {live} {halves} {full} {spent}")
}

const NOTHING: Found = Found {
    sum: 0,
    cells: 0,
    live: 0,
    full: 0,
};

/// Asks a query for each 132 bytes.
fn ask_all<S: Shape>(
    engine: &ResidualEngine<S>,
    scratch: &mut ResidualScratch<S>,
    queries: &[u8],
    wanted: u64,
    meters: &mut Meters,
) -> Found
    requires room { HasRoomFor engine.now.book scratch.old }
    requires most { scratch.old.best.room ≡ 10 }
    ensures room { HasRoomFor engine.now.book scratch.new }
    ensures most { scratch.new.best.room ≡ 10 }
{
    let mut found = NOTHING;
    for row in queries.chunks(132) {
        ask(engine, scratch, row, wanted, meters, &mut found);
    }
    found
}

/// Asks for the ten nearest to the vector that stands behind its header.
fn ask<S: Shape>(
    engine: &ResidualEngine<S>,
    scratch: &mut ResidualScratch<S>,
    row: &[u8],
    wanted: u64,
    meters: &mut Meters,
    found: &mut Found,
)
    requires room { HasRoomFor engine.now.book scratch.old }
    requires most { scratch.old.best.room ≡ 10 }
    ensures room { HasRoomFor engine.now.book scratch.new }
    ensures most { scratch.new.best.room ≡ 10 }
{
    if row.len() != 132 || engine.book().d() != 128 || wanted < 1 || wanted > 4_194_304 {
        return;
    }
    if !are_early(meters) {
        return;
    }
    let report = engine.search(scratch, &row[4..], 10, wanted as u32, &AllIds, meters);
    add(found, &report, scratch.answers());
}

/// Adds what a query visited and answered.
fn add(found: &mut Found, report: &Report, pairs: &[Pair]) {
    found.cells = found.cells.wrapping_add(u64::from(report.cells));
    found.live = found.live.wrapping_add(u64::from(report.live));
    found.full = found.full.wrapping_add(u64::from(report.full));
    for pair in pairs {
        let mixed = pair.distance ^ (u64::from(pair.id) << 32).wrapping_mul(256);
        found.sum = found.sum.wrapping_mul(31).wrapping_add(mixed);
    }
}

/// Whether each count is far from its end.
fn are_early(meters: &Meters) -> bool
    ensures { result ≡ true → HaveRoom meters.now }
{
    meters.pairs.count() < 1_000_000_000_000_000
        && meters.half_full.count() < 1_000_000_000_000_000
        && meters.halves.count() < 1_000_000_000_000_000
        && meters.blocks.count() < 1_000_000_000_000_000
        && meters.lanes.count() < 1_000_000_000_000_000
}
