//! Sessions over the small book, worked out by hand.
ghost use Rattle.std.specs.Prelude.{◌≡◌, IfSome};
ghost use Rattle.query_engine.specs.Report.{HaveRoom};
ghost use Rattle.query_sessions.specs.Standing.{CanGoOn};

use crate::books::{Shape4444, small};
use best_k::Pair;
use cell_store::Sessions;
use id_filter::{AllIds, IdRange};
use query_engine::{Engine, Meters, Report};
use query_sessions::{Room, Session, Step};
use shape_core::Shape;
use std::alloc::Global;
use std::process::Abort;
use std::test::Fail;

/// Vectors that the small book sends to the cells 0, 2, 0 and 1. Their distances to zeros are 0, 29184, 16384 and 32768.
const ROWS: [[u8; 4]; 4] = [
    [0, 0, 0, 0],
    [130, 120, 10, 0],
    [64, 64, 64, 64],
    [0, 0, 128, 128],
];

/// An engine over the small book with the first three vectors under their places.
fn engine(rt: &impl Abort, alloc: Global) -> Result<Engine<Shape4444>, Fail> {
    let mut engine = Engine::new(alloc, small(alloc)?, 9);
    for id in 0..3 {
        assert_eq!(rt; engine.book().d(), 4);
        assert!(rt; engine.store().stamp() < 1_000_000);
        assert!(rt; engine.insert(id, &ROWS[id as usize]).is_ok());
    }
    Ok(engine)
}

/// Deletes an id between the steps of a session.
fn delete<S: Shape>(rt: &impl Abort, engine: &mut Engine<S>, _session: &Session<S, AllIds>, id: u32)
    requires { CanGoOn S.widths engine.old _session.now }
    ensures { CanGoOn S.widths engine.new _session.now }
{
    assert!(rt; id <= IdRange::LAST_ID && engine.store().stamp() < 1_000_000);
    let done = engine.delete(id);
    assert_eq!(rt; done, Ok(()));
}

fn assert_room(rt: &impl Abort, meters: &Meters)
    ensures { HaveRoom meters.now }
{
    assert!(rt; meters.pairs.count() < 1_000_000 && meters.full.count() < 1_000_000);
    assert!(rt; meters.blocks.count() < 1_000_000 && meters.lanes.count() < 1_000_000);
}

/// Takes a step, and compares what it says and what was visited by then: cells, rows and full rows.
fn step<S: Shape>(
    rt: &impl Abort,
    engine: &Engine<S>,
    session: &mut Session<S, AllIds>,
    budget: u32,
    meters: &mut Meters,
    says: Step,
    visited: (u32, u32, u32),
)
    requires can { CanGoOn S.widths engine.now session.old }
    ensures can { CanGoOn S.widths engine.now session.new }
{
    let (cells, live, full) = visited;
    assert_room(rt, meters);
    assert_eq!(rt; session.step(engine, budget, meters), says);
    assert_eq!(rt; session.report(), Report { cells, live, full });
    assert_eq!(rt; session.ended(), says == Step::Ended);
}

/// Opens a session for the one nearest to zeros, if a pin and memory are left.
fn open<S: Shape>(
    rt: &impl Abort,
    alloc: Global,
    engine: &mut Engine<S>,
    wanted: u32,
    meters: &mut Meters,
) -> Option<Session<S, AllIds>>
    ensures can { IfSome result (λ session. CanGoOn S.widths engine.new session) }
{
    let Ok(room) = Room::new(alloc, engine.book(), 1) else {
        return None;
    };
    assert_eq!(rt; engine.book().d(), 4);
    assert!(rt; 1 <= wanted && wanted <= 4_194_304);
    assert_room(rt, meters);
    match Session::open(engine, room, &[0; 4], 1, wanted, AllIds, meters) {
        Ok(session) => Some(session),
        Err(Sessions) => None,
    }
}

/// Deletes the nearest row before the first of three steps.
fn delete_and_step(rt: &impl Abort, alloc: Global) -> Result<(), Fail> {
    let mut engine = engine(rt, alloc)?;
    let mut meters = Meters::new(alloc);
    let Some(mut session) = open(rt, alloc, &mut engine, 3, &mut meters) else {
        return Err(Fail::from("no session"));
    };
    assert_eq!(rt; session.stamp(), 3);
    delete(rt, &mut engine, &session, 0);
    step(
        rt,
        &engine,
        &mut session,
        1,
        &mut meters,
        Step::More,
        (1, 2, 1),
    );
    step(
        rt,
        &engine,
        &mut session,
        9,
        &mut meters,
        Step::Ended,
        (3, 3, 1),
    );
    step(
        rt,
        &engine,
        &mut session,
        9,
        &mut meters,
        Step::Ended,
        (3, 3, 1),
    );
    let (distance, id) = (0, 0);
    assert_eq!(rt; session.answers(), [Pair { distance, id }].as_slice());
    assert_eq!(rt; meters.full.count(), 1);
    session.take(&mut engine);
    assert_eq!(rt; engine.store().live(), 2);
    Ok(())
}

#[test]
fn a_session_reads_the_rows_of_its_opening(rt: HostRuntime) -> Result<(), Fail> {
    delete_and_step(&rt, rt.alloc())
}

/// Steps over an engine without rows.
fn step_over_nothing(rt: &impl Abort, alloc: Global) -> Result<(), Fail> {
    let mut engine = Engine::new(alloc, small(alloc)?, 9);
    let mut meters = Meters::new(alloc);
    let Some(mut session) = open(rt, alloc, &mut engine, 1, &mut meters) else {
        return Err(Fail::from("no session"));
    };
    assert!(rt; !session.ended());
    step(
        rt,
        &engine,
        &mut session,
        1,
        &mut meters,
        Step::Ended,
        (0, 0, 0),
    );
    assert!(rt; session.answers().is_empty());
    session.take(&mut engine);
    Ok(())
}

#[test]
fn a_session_over_no_rows_ends_at_its_first_step(rt: HostRuntime) -> Result<(), Fail> {
    step_over_nothing(&rt, rt.alloc())
}

/// Pins the present stamp.
fn pin<S: Shape>(rt: &impl Abort, engine: &mut Engine<S>)
    ensures { engine.new.book ≡ engine.old.book }
{
    assert!(rt; engine.pin().is_ok());
}

/// Opens a session where no pin is left.
fn open_without_a_pin(rt: &impl Abort, alloc: Global) -> Result<(), Fail> {
    let mut engine = engine(rt, alloc)?;
    for _ in 0..64 {
        pin(rt, &mut engine);
    }
    let mut meters = Meters::new(alloc);
    assert!(rt; open(rt, alloc, &mut engine, 1, &mut meters).is_none());
    assert_eq!(rt; meters.pairs.count(), 0);
    Ok(())
}

#[test]
fn no_session_is_opened_beyond_the_pins(rt: HostRuntime) -> Result<(), Fail> {
    open_without_a_pin(&rt, rt.alloc())
}
