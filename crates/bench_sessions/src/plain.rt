//! The plain queries beside which sessions are timed.
ghost use Rattle.std.specs.Prelude.{◌≡◌, ◌≤◌};
ghost use Rattle.query_engine.specs.Parts.{HasRoomFor};

use crate::found::{Found, add, are_early};
use bench_common::since;
use id_filter::{IdRange, IdRanges, KeptFilter};
use query_engine::{Engine, Meters, Scratch};
use shape_core::Shape;
use std::alloc::Global;
use std::io;
use std::time::CpuClock;

/// How often the queries are asked.
const ROUNDS: u32 = 5;

/// What the queries found, and the nanoseconds of the fastest pass: of the whole queries, and of their tables and ranks alone.
#[derive(Clone, Copy)]
pub struct Plain {
    pub found: Found,
    pub whole: u128,
    pub asks: u128,
}

/// Asks the query of each 132 bytes some times.
pub fn ask_rounds<S: Shape>(
    rt: &impl CpuClock,
    alloc: Global,
    engine: &Engine<S>,
    queries: &[u8],
    wanted: u32,
) -> io::Result<Plain>
    requires some { 1 ≤ wanted }
    requires few { wanted ≤ 4194304 }
{
    let mut plain = Plain {
        found: Found::NOTHING,
        whole: u128::MAX,
        asks: u128::MAX,
    };
    let Ok(mut scratch) = Scratch::new(alloc, engine.book(), 10) else {
        return Ok(plain);
    };
    for _ in 0..ROUNDS {
        ask_once(rt, alloc, engine, &mut scratch, queries, wanted, &mut plain)?;
    }
    Ok(plain)
}

/// Asks the queries, and keeps what they found and the times that are less.
fn ask_once<S: Shape>(
    rt: &impl CpuClock,
    alloc: Global,
    engine: &Engine<S>,
    scratch: &mut Scratch<S>,
    queries: &[u8],
    wanted: u32,
    plain: &mut Plain,
) -> io::Result<()>
    requires some { 1 ≤ wanted }
    requires few { wanted ≤ 4194304 }
    requires room { HasRoomFor engine.now.book scratch.old }
    requires most { scratch.old.best.room ≡ 10 }
    ensures room { HasRoomFor engine.now.book scratch.new }
    ensures most { scratch.new.best.room ≡ 10 }
{
    let mut meters = Meters::new(alloc);
    let start = rt.process_cpu_time()?;
    plain.found = search_all(engine, scratch, queries, wanted, &mut meters);
    let between = rt.process_cpu_time()?;
    ask_all(engine, scratch, queries);
    plain.whole = plain.whole.min(since(start, between));
    plain.asks = plain.asks.min(since(between, rt.process_cpu_time()?));
    Ok(())
}

/// Answers the query of each 132 bytes.
fn search_all<S: Shape>(
    engine: &Engine<S>,
    scratch: &mut Scratch<S>,
    queries: &[u8],
    wanted: u32,
    meters: &mut Meters,
) -> Found
    requires some { 1 ≤ wanted }
    requires few { wanted ≤ 4194304 }
    requires room { HasRoomFor engine.now.book scratch.old }
    requires most { scratch.old.best.room ≡ 10 }
    ensures room { HasRoomFor engine.now.book scratch.new }
    ensures most { scratch.new.best.room ≡ 10 }
{
    let mut found = Found::NOTHING;
    for row in queries.chunks(132) {
        search(engine, scratch, row, wanted, meters, &mut found);
    }
    found
}

/// Asks for the ten nearest to the vector that stands behind its header.
fn search<S: Shape>(
    engine: &Engine<S>,
    scratch: &mut Scratch<S>,
    row: &[u8],
    wanted: u32,
    meters: &mut Meters,
    found: &mut Found,
)
    requires some { 1 ≤ wanted }
    requires few { wanted ≤ 4194304 }
    requires room { HasRoomFor engine.now.book scratch.old }
    requires most { scratch.old.best.room ≡ 10 }
    ensures room { HasRoomFor engine.now.book scratch.new }
    ensures most { scratch.new.best.room ≡ 10 }
{
    if row.len() != 132 || engine.book().d() != 128 || !are_early(meters) {
        return;
    }
    let range = IdRange {
        lo: 0,
        hi: IdRange::LAST_ID,
    };
    let filter = KeptFilter::new(IdRanges::One(range), |_: u32| true);
    let report = engine.search(scratch, &row[4..], 10, wanted, &filter, meters);
    add(found, &report, scratch.answers());
}

/// Fills the ranks and tables of the query of each 132 bytes.
fn ask_all<S: Shape>(engine: &Engine<S>, scratch: &mut Scratch<S>, queries: &[u8])
    requires room { HasRoomFor engine.now.book scratch.old }
    requires most { scratch.old.best.room ≡ 10 }
    ensures room { HasRoomFor engine.now.book scratch.new }
    ensures most { scratch.new.best.room ≡ 10 }
{
    for row in queries.chunks(132) {
        if row.len() == 132 && engine.book().d() == 128 {
            scratch.ask(engine.book(), &row[4..]);
        }
    }
}
