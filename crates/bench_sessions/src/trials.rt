//! Trials: the same queries plain and as sessions that go by turns, with changes between the turns. For each trial the lines are
//!
//! - `plain`: the checksum, cells, rows and full rows of the plain queries, and the nanoseconds of the whole queries and of their
//!   tables and ranks alone;
//! - `sessions`: the same checksum and counts of the sessions, and the nanoseconds of opening them, of their steps, and of
//!   reading their answers and ending them;
//! - `changes`: how many there were, and their nanoseconds;
//! - `bytes`: those by which the process grew by the openings, and by the changes and steps.
ghost use Rattle.std.specs.Prelude.{◌≡◌, ◌≤◌, [], OnOk};
ghost use Rattle.bench_sessions.specs.Standing.{AreOpen};

use crate::feed::{Feed, change, changes_by, insert_all};
use crate::found::Found;
use crate::plain::ask_rounds;
use crate::sessions::{Group, end_all, open_all, step_all};
use bench_common::{resident, since};
use codebook_core::Codebook;
use query_engine::{Engine, Meters};
use shape_core::Shape;
use std::alloc::Global;
use std::io;
use std::time::CpuClock;

/// How often each session goes a step of the budget, with a part of the changes before it.
const TURNS: u64 = 100;

/// The rows of two bvecs files, how many rows a query visits at least, and three numbers for each trial: how many sessions, the
/// cells of a step, and how many changes.
#[derive(Drop)]
pub struct Data {
    pub base: Vec<u8>,
    pub queries: Vec<u8>,
    pub wanted: u64,
    pub trials: Vec<u64>,
}

/// The queries of a trial, how many rows each visits at least, the cells of a step, and how many changes come before each.
#[derive(Clone, Copy)]
struct Trial<'a> {
    queries: &'a [u8],
    wanted: u32,
    budget: u32,
    changes: u64,
}

/// Nanoseconds of the steps and of the changes between them.
#[derive(Clone, Copy)]
struct Spent {
    steps: u128,
    changes: u128,
}

/// Nanoseconds of the openings of sessions, and the bytes of the process before and after them.
#[derive(Clone, Copy)]
struct Opening {
    opened: u128,
    before: u64,
    after: u64,
}

/// Inserts the rows into an engine of a book, and goes through the trials.
pub fn run<S: Shape>(
    rt: &HostRuntime,
    alloc: Global,
    book: Codebook<S>,
    data: &Data,
) -> io::Result<()> {
    let mut engine = Engine::new(alloc, book, 4_194_304);
    run_on(rt, alloc, &mut engine, data)
}

/// Inserts the rows, and goes through the trials if their number of wanted rows is one that queries take.
fn run_on<S: Shape>(
    rt: &HostRuntime,
    alloc: Global,
    engine: &mut Engine<S>,
    data: &Data,
) -> io::Result<()>
    requires none { engine.old.store.pins ≡ [] }
{
    time_inserts(rt, engine, &data.base)?;
    if data.wanted < 1 || data.wanted > 4_194_304 {
        return Ok(());
    }
    run_trials(rt, alloc, engine, data, data.wanted as u32)
}

/// Goes through the trials.
fn run_trials<S: Shape>(
    rt: &HostRuntime,
    alloc: Global,
    engine: &mut Engine<S>,
    data: &Data,
    wanted: u32,
) -> io::Result<()>
    requires some { 1 ≤ wanted }
    requires few { wanted ≤ 4194304 }
    requires none { engine.old.store.pins ≡ [] }
{
    let mut feed = changes_by(&data.base);
    for numbers in data.trials.chunks(3) {
        let trial = trial_of(&data.queries, wanted, numbers);
        run_trial(rt, alloc, engine, &mut feed, &trial)?;
    }
    Ok(())
}

/// Inserts the rows, and prints the checksum, the time, the bytes that became resident and how many rows are live.
fn time_inserts<S: Shape>(rt: &HostRuntime, engine: &mut Engine<S>, base: &[u8]) -> io::Result<()>
    ensures { engine.new.store.pins ≡ engine.old.store.pins }
{
    let before = resident(rt);
    let start = rt.process_cpu_time()?;
    let sum = insert_all(engine, base);
    let spent = since(start, rt.process_cpu_time()?);
    let bytes = resident(rt).saturating_sub(before);
    println!(rt; "insert {sum} {spent} {bytes} {}", engine.store().live())
}

/// The trial of three numbers; one without sessions and changes of any others.
fn trial_of<'a>(queries: &'a [u8], wanted: u32, numbers: &[u64]) -> Trial<'a>
    requires some { 1 ≤ wanted }
    requires few { wanted ≤ 4194304 }
    ensures { result.wanted ≡ wanted }
{
    let (sessions, budget, changes) = match numbers {
        [sessions, budget, changes] => (*sessions, *budget, *changes),
        _ => (0, 1, 0),
    };
    let most = queries.len() / 132;
    let count = usize::try_from(sessions).unwrap_or(0).min(most);
    Trial {
        queries: &queries[..count * 132],
        wanted,
        budget: u32::try_from(budget).unwrap_or(1),
        changes: changes / TURNS,
    }
}

/// Asks the plain queries, and then the same as sessions.
fn run_trial<S: Shape>(
    rt: &HostRuntime,
    alloc: Global,
    engine: &mut Engine<S>,
    feed: &mut Feed<'_>,
    trial: &Trial<'_>,
) -> io::Result<()>
    requires some { 1 ≤ trial.now.wanted }
    requires few { trial.now.wanted ≤ 4194304 }
    requires none { engine.old.store.pins ≡ [] }
    ensures none { OnOk result (engine.new.store.pins ≡ []) }
{
    let plain = ask_rounds(rt, alloc, engine, trial.queries, trial.wanted)?;
    let found = plain.found;
    println!(rt;
        "plain {} {} {} {} {} {}",
        found.sum, found.cells, found.live, found.full, plain.whole, plain.asks
    )?;
    run_sessions(rt, alloc, engine, feed, trial)
}

/// Opens the sessions of a trial, goes through their turns and ends them.
fn run_sessions<S: Shape>(
    rt: &HostRuntime,
    alloc: Global,
    engine: &mut Engine<S>,
    feed: &mut Feed<'_>,
    trial: &Trial<'_>,
) -> io::Result<()>
    requires some { 1 ≤ trial.now.wanted }
    requires few { trial.now.wanted ≤ 4194304 }
    requires none { engine.old.store.pins ≡ [] }
    ensures none { OnOk result (engine.new.store.pins ≡ []) }
{
    let mut meters = Meters::new(alloc);
    let before = resident(rt);
    let start = rt.process_cpu_time()?;
    let Ok(mut group) = open_all(alloc, engine, trial.queries, trial.wanted, &mut meters) else {
        return Err(io::Error::from(io::ErrorKind::OutOfMemory));
    };
    let opened = since(start, rt.process_cpu_time()?);
    let opening = Opening {
        opened,
        before,
        after: resident(rt),
    };
    go_and_end(rt, engine, &mut group, feed, trial, &mut meters, &opening)
}

/// Goes through the turns of the sessions and ends them, and prints what they found and took.
fn go_and_end<S: Shape>(
    rt: &HostRuntime,
    engine: &mut Engine<S>,
    group: &mut Group<S>,
    feed: &mut Feed<'_>,
    trial: &Trial<'_>,
    meters: &mut Meters,
    opening: &Opening,
) -> io::Result<()>
    requires { AreOpen S.widths engine.old group.old.stamp group.old.held.items }
    ensures none { OnOk result (engine.new.store.pins ≡ []) }
{
    let spent = go_by_turns(rt, engine, group, feed, trial, meters)?;
    let after = resident(rt);
    let start = rt.process_cpu_time()?;
    let found = end_all(engine, group);
    let ended = since(start, rt.process_cpu_time()?);
    print_times(rt, &found, opening.opened, spent.steps, ended)?;
    println!(rt;
        "changes {} {}",
        trial.changes.wrapping_mul(TURNS),
        spent.changes
    )?;
    print_bytes(rt, opening, after, engine.store().live())
}

/// Prints what the sessions found, and the nanoseconds of opening them, of their steps and of ending them.
fn print_times(
    rt: &HostRuntime,
    found: &Found,
    opened: u128,
    steps: u128,
    ended: u128,
) -> io::Result<()> {
    println!(rt;
        "sessions {} {} {} {} {opened} {steps} {ended}",
        found.sum, found.cells, found.live, found.full
    )
}

/// Prints by how many bytes the process grew, with those that it has after the turns, and how many rows are live.
fn print_bytes(rt: &HostRuntime, opening: &Opening, after: u64, live: u32) -> io::Result<()> {
    println!(rt;
        "bytes {} {} {live}",
        opening.after.saturating_sub(opening.before),
        after.saturating_sub(opening.after)
    )
}

/// Goes through the turns, and then through the cells that remain in a last step.
fn go_by_turns<S: Shape>(
    rt: &impl CpuClock,
    engine: &mut Engine<S>,
    group: &mut Group<S>,
    feed: &mut Feed<'_>,
    trial: &Trial<'_>,
    meters: &mut Meters,
) -> io::Result<Spent>
    requires { AreOpen S.widths engine.old group.old.stamp group.old.held.items }
    ensures { OnOk result (AreOpen S.widths engine.new group.new.stamp group.new.held.items) }
{
    let mut spent = Spent {
        steps: 0,
        changes: 0,
    };
    for _ in 0..TURNS {
        turn(rt, engine, group, feed, trial, meters, &mut spent)?;
    }
    let start = rt.process_cpu_time()?;
    step_all(engine, group, u32::MAX, meters);
    let end = rt.process_cpu_time()?;
    spent.steps = spent.steps.saturating_add(since(start, end));
    Ok(spent)
}

/// Makes a part of the changes, and goes a step with each session.
fn turn<S: Shape>(
    rt: &impl CpuClock,
    engine: &mut Engine<S>,
    group: &mut Group<S>,
    feed: &mut Feed<'_>,
    trial: &Trial<'_>,
    meters: &mut Meters,
    spent: &mut Spent,
) -> io::Result<()>
    requires { AreOpen S.widths engine.old group.old.stamp group.old.held.items }
    ensures { OnOk result (AreOpen S.widths engine.new group.new.stamp group.new.held.items) }
{
    let start = rt.process_cpu_time()?;
    change(engine, feed, trial.changes);
    let between = rt.process_cpu_time()?;
    step_all(engine, group, trial.budget, meters);
    let end = rt.process_cpu_time()?;
    spent.changes = spent.changes.saturating_add(since(start, between));
    spent.steps = spent.steps.saturating_add(since(between, end));
    Ok(())
}
