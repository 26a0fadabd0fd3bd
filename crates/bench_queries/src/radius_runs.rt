//! A run over a book: what it reads, the inserts, and the lines that it prints.
ghost use Rattle.std.specs.Prelude.{◌≤◌};

use crate::inserts::insert_all;
use crate::radius_passes::{Asked, least_of};
use bench_common::{Files, files_of, number, since};
use codebook_core::{AnyBook, Codebook, decode};
use query_engine::Engine;
use shape_core::Shape;
use std::alloc::Global;
use std::time::CpuClock;
use std::{env, fs, io};

/// The rows of two bvecs files, how often the queries are asked, and lists with the squared distance of each query.
#[derive(Drop)]
struct Data {
    base: Vec<u8>,
    queries: Vec<u8>,
    rounds: u64,
    radii: Vec<Vec<u64>>,
}

/// Runs by the words BOOK BASE QUERIES ROUNDS RADII.., and prints a line for the inserts: a checksum of the cells, and the
/// nanoseconds spent; and for each RADII, a file with a line for the radius of each query, a line for 30,000 and one for all rows
/// wanted: a checksum of the pairs of every query, the visited cells, the visited rows, the full rows, the pairs, and the
/// nanoseconds of the fastest of ROUNDS passes.
pub fn run_words(rt: &HostRuntime, mut words: env::Args) -> io::Result<()> {
    match files_of(rt, &mut words)? {
        Some(files) => run_files(rt, files, words),
        None => Ok(()),
    }
}

/// Runs over files, with the number and the files of the words that are left.
fn run_files(rt: &HostRuntime, files: Files, mut words: env::Args) -> io::Result<()> {
    let Files {
        book,
        base,
        queries,
    } = files;
    let rounds = number(words.next());
    let radii = lists_of(rt, words)?;
    let data = Data {
        base,
        queries,
        rounds,
        radii,
    };
    run_over(rt, &book, &data)
}

/// The numbers of each file that a word names.
fn lists_of(rt: &HostRuntime, words: env::Args) -> io::Result<Vec<Vec<u64>>> {
    let mut lists = Vec::new(rt.alloc());
    for name in words {
        lists.push(radii_of(rt, name.as_str())?)?;
    }
    Ok(lists)
}

/// Runs over the book of a file, if it is of the shape 4-4-4-4 or 8-8.
fn run_over(rt: &HostRuntime, book: &[u8], data: &Data) -> io::Result<()> {
    match decode(rt.alloc(), book) {
        Ok(AnyBook::F4444(book)) => run(rt, rt.alloc(), book, data),
        Ok(AnyBook::F88(book)) => run(rt, rt.alloc(), book, data),
        _ => Ok(()),
    }
}

/// The numbers of a file, a line each.
fn radii_of(rt: &HostRuntime, name: &str) -> io::Result<Vec<u64>> {
    let text = fs::read_to_string(rt, name)?;
    let mut radii = Vec::new(rt.alloc());
    for line in text.lines() {
        radii.push(line.parse::<u64>().unwrap_or(0))?;
    }
    Ok(radii)
}

/// Inserts the rows and asks the queries, and prints a line of each pass.
fn run<S: Shape>(
    rt: &HostRuntime,
    alloc: Global,
    book: Codebook<S>,
    data: &Data,
) -> io::Result<()> {
    let mut engine = Engine::new(alloc, book, 4_194_304);
    run_on(rt, alloc, &mut engine, data)
}

/// Inserts the rows into an engine and asks the queries.
fn run_on<S: Shape>(
    rt: &HostRuntime,
    alloc: Global,
    engine: &mut Engine<S>,
    data: &Data,
) -> io::Result<()> {
    time_inserts(rt, engine, &data.base)?;
    report_each(rt, alloc, engine, data)
}

/// Inserts the rows, and prints the checksum and the time.
fn time_inserts<S: Shape>(rt: &HostRuntime, engine: &mut Engine<S>, base: &[u8]) -> io::Result<()> {
    let start = rt.process_cpu_time()?;
    let sum = insert_all(engine, base);
    let spent = since(start, rt.process_cpu_time()?);
    println!(rt; "insert {sum} {spent}")
}

/// Asks the queries by each list of radii, for 30,000 and for all rows.
fn report_each<S: Shape>(
    rt: &HostRuntime,
    alloc: Global,
    engine: &Engine<S>,
    data: &Data,
) -> io::Result<()> {
    for radii in &data.radii {
        report(rt, alloc, engine, data, radii, 30_000)?;
        report(rt, alloc, engine, data, radii, 4_194_304)?;
    }
    Ok(())
}

/// Asks the queries by a list of radii, and prints what they found and the least time.
fn report<S: Shape>(
    rt: &HostRuntime,
    alloc: Global,
    engine: &Engine<S>,
    data: &Data,
    radii: &[u64],
    wanted: u32,
) -> io::Result<()>
    requires some { 1 ≤ wanted }
    requires few { wanted ≤ 4194304 }
{
    let asked = Asked {
        queries: &data.queries,
        radii,
        wanted,
    };
    let (found, least) = least_of(rt, alloc, engine, &asked, data.rounds)?;
    println!(rt;
        "{wanted} {} {} {} {} {} {least}",
        found.sum, found.cells, found.live, found.full, found.pairs
    )
}
