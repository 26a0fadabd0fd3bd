//! Sessions that are opened together, go by steps in turn, and end.
ghost use Rattle.std.specs.Prelude.{◌≡◌, ℕ, ◌≤◌, ◌++◌, [], ◌∷◌, IfOk, OnOk};
ghost use Rattle.std.specs.List.{Contains};
ghost use Rattle.cell_store.specs.State.{rows_at, Unpins};
ghost use Rattle.bench_sessions.specs.Standing.{AreOpen};

use crate::found::{Found, add, are_early};
use adc_ports::Memory;
use id_filter::AllIds;
use query_engine::{Engine, Meters};
use query_sessions::{Room, Session};
use shape_core::Shape;
use std::alloc::Global;

/// A session in a list.
#[derive(Drop)]
pub struct HeldSession<S: Shape> {
    session: Session<S, AllIds>,
}

impl<S: Shape> HeldSession<S> {
    /// The session alone.
    fn into_session(self) -> Session<S, AllIds>
        ensures { result ≡ self.session }
    {
        let HeldSession { session } = self;
        session
    }
}

/// Sessions that were opened at one stamp.
#[derive(Drop)]
pub struct Group<S: Shape> {
    stamp: u64,
    held: Vec<HeldSession<S>>,
}

/// Opens a session for the query of each 132 bytes.
///
/// # Errors
/// `Memory`; the stamp of now may then stay pinned.
#[tactic(auto, using(crate::proofs::Opening::open_none))]
pub fn open_all<S: Shape>(
    alloc: Global,
    engine: &mut Engine<S>,
    queries: &[u8],
    wanted: u32,
    meters: &mut Meters,
) -> Result<Group<S>, Memory>
    requires some { 1 ≤ wanted }
    requires few { wanted ≤ 4194304 }
    requires none { engine.old.store.pins ≡ [] }
    ensures { IfOk result (λ group. AreOpen S.widths engine.new group.stamp group.held.items) }
{
    let mut group = Group {
        stamp: engine.store().stamp(),
        held: Vec::new(alloc),
    };
    for row in queries.chunks(132) {
        match open_one(alloc, engine, &mut group, row, wanted, meters) {
            Ok(()) => {}
            Err(Memory) => return Err(Memory),
        }
    }
    Ok(group)
}

/// Opens a session for the vector that stands behind its header.
fn open_one<S: Shape>(
    alloc: Global,
    engine: &mut Engine<S>,
    group: &mut Group<S>,
    row: &[u8],
    wanted: u32,
    meters: &mut Meters,
) -> Result<(), Memory>
    requires some { 1 ≤ wanted }
    requires few { wanted ≤ 4194304 }
    requires stamp { engine.old.store.stamp ≡ group.old.stamp }
    requires open { AreOpen S.widths engine.old group.old.stamp group.old.held.items }
    ensures stamp { OnOk result (engine.new.store.stamp ≡ group.new.stamp) }
    ensures open { OnOk result (AreOpen S.widths engine.new group.new.stamp group.new.held.items) }
{
    if row.len() != 132 || engine.book().d() != 128 || !are_early(meters) {
        return Ok(());
    }
    let Ok(room) = Room::new(alloc, engine.book(), 10) else {
        return Ok(());
    };
    let Ok(session) = Session::open(engine, room, &row[4..], 10, wanted, AllIds, meters) else {
        return Ok(());
    };
    keep(group, session)
}

/// Keeps a session as the last.
fn keep<S: Shape>(group: &mut Group<S>, session: Session<S, AllIds>) -> Result<(), Memory>
    ensures stamp { group.new.stamp ≡ group.old.stamp }
    ensures held { OnOk result (group.new.held.items ≡ group.old.held.items ++ record { session = session } ∷ []) }
{
    match group.held.push(HeldSession { session }) {
        Ok(()) => Ok(()),
        Err(_) => Err(Memory),
    }
}

/// Goes a step of at most so many cells with each session.
pub fn step_all<S: Shape>(
    engine: &Engine<S>,
    group: &mut Group<S>,
    budget: u32,
    meters: &mut Meters,
)
    requires { AreOpen S.widths engine.now group.old.stamp group.old.held.items }
    ensures { AreOpen S.widths engine.now group.new.stamp group.new.held.items }
{
    for place in 0..group.held.len() {
        step_at(engine, group, place, budget, meters);
    }
}

/// Goes a step with the session at a place, if there is one.
fn step_at<S: Shape>(
    engine: &Engine<S>,
    group: &mut Group<S>,
    place: usize,
    budget: u32,
    meters: &mut Meters,
)
    requires { AreOpen S.widths engine.now group.old.stamp group.old.held.items }
    ensures { AreOpen S.widths engine.now group.new.stamp group.new.held.items }
{
    if place < group.held.len() && are_early(meters) {
        let _said = group.held[place].session.step(engine, budget, meters);
    }
}

/// Ends all sessions and gives their pins back, and says what they found.
pub fn end_all<S: Shape>(engine: &mut Engine<S>, group: &mut Group<S>) -> Found
    requires { AreOpen S.widths engine.old group.old.stamp group.old.held.items }
    ensures { engine.new.store.pins ≡ [] }
{
    let mut found = Found::NOTHING;
    while let Some(held) = group.held.pop() {
        end_last(engine, group, held, &mut found);
    }
    found
}

/// Ends the session that was the last of a group.
fn end_last<S: Shape>(
    engine: &mut Engine<S>,
    _group: &Group<S>,
    held: HeldSession<S>,
    found: &mut Found,
)
    requires { AreOpen S.widths engine.old _group.now.stamp (_group.now.held.items ++ held ∷ []) }
    ensures { AreOpen S.widths engine.new _group.now.stamp _group.now.held.items }
{
    let session = held.into_session();
    end_one(engine, session, found);
}

/// Reads what a session found, and gives its pin back.
fn end_one<S: Shape>(engine: &mut Engine<S>, mut session: Session<S, AllIds>, found: &mut Found)
    requires { Contains engine.old.store.pins session.stamp }
    ensures book { engine.new.book ≡ engine.old.book }
    ensures pins { Unpins session.stamp engine.old.store.pins engine.new.store.pins }
    ensures pinned { (s : ℕ) → Contains engine.new.store.pins s → rows_at s engine.new.store.kept ≡ rows_at s engine.old.store.kept }
{
    let report = session.report();
    add(found, &report, session.answers());
    session.take(engine);
}
