//! The passes over all queries, each with a radius of its own.
ghost use Rattle.std.specs.Prelude.{◌≡◌, ◌≤◌, length};
ghost use Rattle.cell_store.specs.State.{live_rows};
ghost use Rattle.radius_scan.specs.Parts.{HasRadiusRoom};

use crate::engine::are_early;
use bench_common::since;
use best_k::Pair;
use id_filter::{IdRange, IdRanges, KeptFilter};
use query_engine::{Engine, Meters, Report};
use radius_scan::{RadiusScratch, radius};
use shape_core::Shape;
use std::alloc::Global;
use std::io;
use std::time::CpuClock;

/// The rows of a bvecs file, the squared distance of each, and how many rows a query visits.
#[derive(Clone, Copy)]
pub struct Asked<'a> {
    pub queries: &'a [u8],
    pub radii: &'a [u64],
    pub wanted: u32,
}

/// What a pass over the queries found.
#[derive(Clone, Copy)]
pub struct Found {
    pub sum: u64,
    pub cells: u64,
    pub live: u64,
    pub full: u64,
    pub pairs: u64,
}

const NOTHING: Found = Found {
    sum: 0,
    cells: 0,
    live: 0,
    full: 0,
    pairs: 0,
};

/// Asks all queries some times, and gives what they found and the nanoseconds of the fastest pass.
pub fn least_of<S: Shape>(
    rt: &impl CpuClock,
    alloc: Global,
    engine: &Engine<S>,
    asked: &Asked<'_>,
    rounds: u64,
) -> io::Result<(Found, u128)>
    requires some { 1 ≤ asked.now.wanted }
    requires few { asked.now.wanted ≤ 4194304 }
{
    let rows = engine.store().live();
    if rows > 4_194_304 {
        return Ok((NOTHING, 0));
    }
    let Ok(mut scratch) = RadiusScratch::with_room(alloc, engine.book(), rows) else {
        return Ok((NOTHING, 0));
    };
    let mut least = (NOTHING, u128::MAX);
    for _ in 0..rounds {
        ask_once(rt, alloc, engine, &mut scratch, asked, &mut least)?;
    }
    Ok(least)
}

/// Asks all queries, and keeps what they found and the time if it is less.
fn ask_once<S: Shape>(
    rt: &impl CpuClock,
    alloc: Global,
    engine: &Engine<S>,
    scratch: &mut RadiusScratch<S>,
    asked: &Asked<'_>,
    least: &mut (Found, u128),
) -> io::Result<()>
    requires some { 1 ≤ asked.now.wanted }
    requires few { asked.now.wanted ≤ 4194304 }
    requires room { HasRadiusRoom engine.now.book scratch.old }
    requires rows { length (live_rows engine.now.store) ≤ scratch.old.room }
    ensures room { HasRadiusRoom engine.now.book scratch.new }
    ensures rows { length (live_rows engine.now.store) ≤ scratch.new.room }
{
    let mut meters = Meters::new(alloc);
    let start = rt.process_cpu_time()?;
    least.0 = ask_all(engine, scratch, asked, &mut meters);
    least.1 = least.1.min(since(start, rt.process_cpu_time()?));
    Ok(())
}

/// Asks a query for each 132 bytes.
fn ask_all<S: Shape>(
    engine: &Engine<S>,
    scratch: &mut RadiusScratch<S>,
    asked: &Asked<'_>,
    meters: &mut Meters,
) -> Found
    requires some { 1 ≤ asked.now.wanted }
    requires few { asked.now.wanted ≤ 4194304 }
    requires room { HasRadiusRoom engine.now.book scratch.old }
    requires rows { length (live_rows engine.now.store) ≤ scratch.old.room }
    ensures room { HasRadiusRoom engine.now.book scratch.new }
    ensures rows { length (live_rows engine.now.store) ≤ scratch.new.room }
{
    let mut found = NOTHING;
    for (row, r) in asked.queries.chunks(132).zip(asked.radii) {
        ask(engine, scratch, row, *r, asked.wanted, meters, &mut found);
    }
    found
}

/// Asks for the rows within a squared distance of the vector that stands behind its header.
fn ask<S: Shape>(
    engine: &Engine<S>,
    scratch: &mut RadiusScratch<S>,
    row: &[u8],
    r: u64,
    wanted: u32,
    meters: &mut Meters,
    found: &mut Found,
)
    requires some { 1 ≤ wanted }
    requires few { wanted ≤ 4194304 }
    requires room { HasRadiusRoom engine.now.book scratch.old }
    requires rows { length (live_rows engine.now.store) ≤ scratch.old.room }
    ensures room { HasRadiusRoom engine.now.book scratch.new }
    ensures rows { scratch.new.room ≡ scratch.old.room }
{
    if row.len() != 132 || engine.book().d() != 128 || !are_early(meters) {
        return;
    }
    let range = IdRange {
        lo: 0,
        hi: IdRange::LAST_ID,
    };
    let filter = KeptFilter::new(IdRanges::One(range), |_: u32| true);
    let report = radius(engine, scratch, &row[4..], r, wanted, &filter, meters);
    add(found, &report, scratch.pairs());
}

/// Adds what a query found.
fn add(found: &mut Found, report: &Report, pairs: &[Pair]) {
    found.cells = found.cells.wrapping_add(u64::from(report.cells));
    found.live = found.live.wrapping_add(u64::from(report.live));
    found.full = found.full.wrapping_add(u64::from(report.full));
    found.pairs = found.pairs.wrapping_add(pairs.len() as u64);
    for pair in pairs {
        let mixed = pair.distance ^ (u64::from(pair.id) << 32).wrapping_mul(256);
        found.sum = found.sum.wrapping_mul(31).wrapping_add(mixed);
    }
}
