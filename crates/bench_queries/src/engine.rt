//! The inserts of all rows, and the passes over all queries.
ghost use Rattle.std.specs.Prelude.{◌≡◌, ℕ, true};
ghost use Rattle.book_model.specs.Rows.{in_ranges};
ghost use Rattle.id_filter.specs.Allowed.{has_id};
ghost use Rattle.id_filter.specs.Kept.{IsKept};
ghost use Rattle.id_filter.specs.Ranges.{pairs_of};
ghost use Rattle.query_engine.specs.Parts.{HasRoomFor};
ghost use Rattle.query_engine.specs.Report.{HaveRoom};

use crate::inserts::insert_all;
use bench_common::{Files, files_of, number, numbers_of, resident, since};
use best_k::Pair;
use codebook_core::{AnyBook, Codebook, decode};
use id_filter::{AllowedIds, IdRange, IdRanges, KeptFilter, allowed};
use query_engine::{Engine, Meters, Report, Scratch};
use shape_core::Shape;
use std::alloc::Global;
use std::time::CpuClock;
use std::{env, io};

/// The rows of two bvecs files, how often the queries are asked, and how many ids pass: all if 0.
#[derive(Drop)]
struct Data {
    base: Vec<u8>,
    queries: Vec<u8>,
    rounds: u64,
    passing: u64,
}

/// What a pass over the queries found.
#[derive(Clone, Copy)]
struct Found {
    sum: u64,
    cells: u64,
    live: u64,
    full: u64,
}

/// What the last pass found, and the nanoseconds of the fastest.
#[derive(Clone, Copy)]
struct Least {
    found: Found,
    spent: u128,
}

/// Runs by the words BOOK BASE QUERIES ROUNDS PASSING WANTED.., and prints a line for the inserts: a checksum of the cells, the
/// nanoseconds spent and the bytes by which the process has grown; and for each WANTED a line: a checksum of the ten nearest of
/// every query among PASSING ids of a list, or among all ids if PASSING is 0, the visited cells, the visited rows, the full rows,
/// and the nanoseconds of the fastest of ROUNDS passes.
pub fn run_words(rt: &HostRuntime, mut words: env::Args) -> io::Result<()> {
    match files_of(rt, &mut words)? {
        Some(files) => run_files(rt, files, words),
        None => Ok(()),
    }
}

/// Runs over files, with the numbers of the words that are left.
fn run_files(rt: &HostRuntime, files: Files, mut words: env::Args) -> io::Result<()> {
    let Files {
        book,
        base,
        queries,
    } = files;
    let rounds = number(words.next());
    let passing = number(words.next());
    let wanted = numbers_of(rt.alloc(), words)?;
    let data = Data {
        base,
        queries,
        rounds,
        passing,
    };
    run_over(rt, &book, &data, &wanted)
}

/// Runs over the book of a file, if it is of the shape 4-4-4-4.
fn run_over(rt: &HostRuntime, book: &[u8], data: &Data, wanted: &[u64]) -> io::Result<()> {
    match decode(rt.alloc(), book) {
        Ok(AnyBook::F4444(book)) => run(rt, rt.alloc(), book, data, wanted),
        _ => Ok(()),
    }
}

/// Inserts the rows and asks the queries, and prints a line of each.
fn run<S: Shape>(
    rt: &HostRuntime,
    alloc: Global,
    book: Codebook<S>,
    data: &Data,
    wanted: &[u64],
) -> io::Result<()> {
    let mut engine = Engine::new(alloc, book, 4_194_304);
    time_inserts(rt, &mut engine, &data.base)?;
    ask_passing(rt, alloc, &engine, data, wanted)
}

/// Asks the queries among as many ids as are to pass.
fn ask_passing<S: Shape>(
    rt: &HostRuntime,
    alloc: Global,
    engine: &Engine<S>,
    data: &Data,
    wanted: &[u64],
) -> io::Result<()> {
    if data.passing > 0 {
        return ask_spread(rt, alloc, engine, data, wanted);
    }
    let range = IdRange {
        lo: 0,
        hi: IdRange::LAST_ID,
    };
    let filter = KeptFilter::new(IdRanges::One(range), |_: u32| true);
    ask_each(rt, alloc, engine, data, wanted, &filter)
}

/// Asks the queries among ids that lie far apart.
fn ask_spread<S: Shape>(
    rt: &HostRuntime,
    alloc: Global,
    engine: &Engine<S>,
    data: &Data,
    wanted: &[u64],
) -> io::Result<()> {
    let ids = spread_ids(alloc, data.passing, data.base.len() as u64 / 132)?;
    let (ranges, ids) = allowed(alloc, ids)?;
    ask_among(rt, alloc, engine, data, wanted, ranges, &ids)
}

/// So many ids of so many rows, as far apart as they can be.
fn spread_ids(alloc: Global, count: u64, rows: u64) -> io::Result<Vec<u32>> {
    let mut ids = Vec::new(alloc);
    let apart = (rows / count.max(1)).max(1);
    let mut id: u64 = 0;
    for _ in 0..count {
        if id < 4_194_304 {
            ids.push(id as u32)?;
        }
        id = id.wrapping_add(apart);
    }
    Ok(ids)
}

/// Asks the queries among the ids of a list, which are those in these ranges.
fn ask_among<S: Shape>(
    rt: &HostRuntime,
    alloc: Global,
    engine: &Engine<S>,
    data: &Data,
    wanted: &[u64],
    ranges: IdRanges,
    ids: &AllowedIds,
) -> io::Result<()>
    requires same { (id : ℕ) → has_id ids.now id ≡ in_ranges (pairs_of ranges) id }
{
    let filter = KeptFilter::new(ranges, |id: u32| ids.has(id));
    ask_each(rt, alloc, engine, data, wanted, &filter)
}

/// Asks the queries for each number of wanted rows.
fn ask_each<S: Shape, F: Fn(u32) -> bool>(
    rt: &HostRuntime,
    alloc: Global,
    engine: &Engine<S>,
    data: &Data,
    wanted: &[u64],
    filter: &KeptFilter<F>,
) -> io::Result<()>
    requires kept { IsKept F.Fn filter.now }
{
    for wanted in wanted {
        ask_rounds(rt, alloc, engine, data, *wanted, filter)?;
    }
    Ok(())
}

/// Inserts the rows, and prints the checksum, the time and the bytes that became resident.
fn time_inserts<S: Shape>(rt: &HostRuntime, engine: &mut Engine<S>, base: &[u8]) -> io::Result<()> {
    let before = resident(rt);
    let start = rt.process_cpu_time()?;
    let sum = insert_all(engine, base);
    let spent = since(start, rt.process_cpu_time()?);
    println!(rt;
        "insert {sum} {spent} {}",
        resident(rt).saturating_sub(before)
    )
}

/// Asks all queries some times, and prints what they found and the least time.
fn ask_rounds<S: Shape, F: Fn(u32) -> bool>(
    rt: &HostRuntime,
    alloc: Global,
    engine: &Engine<S>,
    data: &Data,
    wanted: u64,
    filter: &KeptFilter<F>,
) -> io::Result<()>
    requires kept { IsKept F.Fn filter.now }
{
    let Ok(mut scratch) = Scratch::new(alloc, engine.book(), 10) else {
        return Ok(());
    };
    let mut least = Least {
        found: NOTHING,
        spent: u128::MAX,
    };
    for _ in 0..data.rounds {
        ask_once(
            rt,
            engine,
            &mut scratch,
            &data.queries,
            wanted,
            filter,
            &mut least,
        )?;
    }
    print_least(rt, wanted, &least)
}

/// Asks all queries, and keeps what they found and the time if it is less.
fn ask_once<S: Shape, F: Fn(u32) -> bool>(
    rt: &HostRuntime,
    engine: &Engine<S>,
    scratch: &mut Scratch<S>,
    queries: &[u8],
    wanted: u64,
    filter: &KeptFilter<F>,
    least: &mut Least,
) -> io::Result<()>
    requires kept { IsKept F.Fn filter.now }
    requires room { HasRoomFor engine.now.book scratch.old }
    requires most { scratch.old.best.room ≡ 10 }
    ensures room { HasRoomFor engine.now.book scratch.new }
    ensures most { scratch.new.best.room ≡ 10 }
{
    let mut meters = Meters::new(rt.alloc());
    let start = rt.process_cpu_time()?;
    least.found = ask_all(engine, scratch, queries, wanted, filter, &mut meters);
    least.spent = least.spent.min(since(start, rt.process_cpu_time()?));
    Ok(())
}

/// Prints what the queries found and the least time.
fn print_least(rt: &HostRuntime, wanted: u64, least: &Least) -> io::Result<()> {
    let Found {
        sum,
        cells,
        live,
        full,
    } = least.found;
    println!(rt; "{wanted} {sum} {cells} {live} {full} {}", least.spent)
}

const NOTHING: Found = Found {
    sum: 0,
    cells: 0,
    live: 0,
    full: 0,
};

/// Asks a query for each 132 bytes.
fn ask_all<S: Shape, F: Fn(u32) -> bool>(
    engine: &Engine<S>,
    scratch: &mut Scratch<S>,
    queries: &[u8],
    wanted: u64,
    filter: &KeptFilter<F>,
    meters: &mut Meters,
) -> Found
    requires kept { IsKept F.Fn filter.now }
    requires room { HasRoomFor engine.now.book scratch.old }
    requires most { scratch.old.best.room ≡ 10 }
    ensures room { HasRoomFor engine.now.book scratch.new }
    ensures most { scratch.new.best.room ≡ 10 }
{
    let mut found = NOTHING;
    for row in queries.chunks(132) {
        ask(engine, scratch, row, wanted, filter, meters, &mut found);
    }
    found
}

/// Asks for the ten nearest to the vector that stands behind its header.
fn ask<S: Shape, F: Fn(u32) -> bool>(
    engine: &Engine<S>,
    scratch: &mut Scratch<S>,
    row: &[u8],
    wanted: u64,
    filter: &KeptFilter<F>,
    meters: &mut Meters,
    found: &mut Found,
)
    requires kept { IsKept F.Fn filter.now }
    requires room { HasRoomFor engine.now.book scratch.old }
    requires most { scratch.old.best.room ≡ 10 }
    ensures room { HasRoomFor engine.now.book scratch.new }
    ensures most { scratch.new.best.room ≡ 10 }
{
    if row.len() != 132 || engine.book().d() != 128 || wanted < 1 || wanted > 4_194_304 {
        return;
    }
    if !are_early(meters) {
        return;
    }
    let report = engine.search(scratch, &row[4..], 10, wanted as u32, filter, meters);
    add(found, &report, scratch.answers());
}

/// Adds what a query visited and answered.
fn add(found: &mut Found, report: &Report, pairs: &[Pair]) {
    found.cells = found.cells.wrapping_add(u64::from(report.cells));
    found.live = found.live.wrapping_add(u64::from(report.live));
    found.full = found.full.wrapping_add(u64::from(report.full));
    for pair in pairs {
        let mixed = pair.distance ^ (u64::from(pair.id) << 32).wrapping_mul(256);
        found.sum = found.sum.wrapping_mul(31).wrapping_add(mixed);
    }
}

/// Whether each count is far from its end.
pub fn are_early(meters: &Meters) -> bool
    ensures { result ≡ true → HaveRoom meters.now }
{
    meters.pairs.count() < 1_000_000_000_000_000
        && meters.full.count() < 1_000_000_000_000_000
        && meters.blocks.count() < 1_000_000_000_000_000
        && meters.lanes.count() < 1_000_000_000_000_000
}
