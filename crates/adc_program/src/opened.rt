//! The open sessions of a play, each under its number, in the order in which they were opened.
ghost use Rattle.std.specs.Prelude.{◌≡◌, ℕ, ◌+◌, ◌*◌, ◌-◌, ◌^◌, ◌<◌, ◌≤◌, ◌==◌, ◌++◌, ◌∷◌, [], length, map, min, set, true, false, None, Some, IfOk, OnOk, if◌then◌else◌, slice_get};
ghost use Rattle.std.specs.List.{position};
ghost use Rattle.book_model.specs.Rows.{rows_after};
ghost use Rattle.cell_store.specs.State.{rows_at};
ghost use Rattle.query_engine.specs.State.{pinned_now};
ghost use Rattle.query_engine.specs.Report.{HaveRoom};
ghost use Rattle.play_script.specs.Texts as texts;
ghost use Rattle.play_script.specs.Play.{ranges_of};
ghost use Rattle.adc_program.specs.SessionStates.{known, AreOpen};
ghost use Rattle.adc_program.specs.Work.{RiseLittle};

use adc_ports::Memory;
use id_filter::AllIds;
use play_script::{MAX_SESSIONS, Text, begin_done};
use query_engine::{Engine, Meters};
use query_sessions::{Room, Session};
use shape_core::Shape;
use std::alloc::Global;

/// A session under the number of its script.
#[derive(Drop)]
pub(crate) struct HeldSession<S: Shape> {
    pub sid: u64,
    pub session: Session<S, AllIds>,
}

impl<S: Shape> HeldSession<S> {
    /// The session alone.
    pub(crate) fn into_session(self) -> Session<S, AllIds>
        ensures { result ≡ self.session }
    {
        let HeldSession { sid: _, session } = self;
        session
    }
}

/// The place of the session of a number, if it is open.
pub(crate) fn place_of<S: Shape>(held: &[HeldSession<S>], sid: u64) -> Option<usize>
    ensures { result ≡ position (λ h. h.sid == sid) held.now }
{
    held.iter().position(|h| h.sid == sid)
}

/// The question of a session: its number, its k and how many rows it wants.
#[derive(Clone, Copy)]
pub(crate) struct Question {
    pub sid: u64,
    pub k: u32,
    pub wanted: u32,
}

/// Opens a session for a query of d components over the rows of now, and answers its line.
///
/// # Errors
/// `Memory`; the stamp of now may then stay pinned.
pub(crate) fn open_session<S: Shape>(
    alloc: Global,
    engine: &mut Engine<S>,
    held: &mut Vec<HeldSession<S>>,
    asked: Question,
    query: &[u8],
    meters: &mut Meters,
) -> Result<Text, Memory>
    requires query { length query.now ≡ engine.old.book.d }
    requires k_some { 1 ≤ asked.k }
    requires k_few { asked.k ≤ 1000 }
    requires wanted_some { 1 ≤ asked.wanted }
    requires wanted_few { asked.wanted ≤ 4194304 }
    requires meters { HaveRoom meters.old }
    requires open { AreOpen S.widths engine.old held.old.items }
    requires room { length held.old.items < MAX_SESSIONS }
    ensures book { engine.new.book ≡ engine.old.book }
    ensures open { OnOk result (AreOpen S.widths engine.new held.new.items) }
    ensures pins { OnOk result (engine.new.store ≡ pinned_now engine.old.store) }
    ensures stamp { engine.new.store.stamp ≡ engine.old.store.stamp }
    ensures line { IfOk result (λ line. line ≡ texts.begin_done asked.sid engine.old.store.stamp) }
    ensures held { OnOk result (map known held.new.items ≡ map known held.old.items
        ++ record { sid = asked.sid; stamp = engine.old.store.stamp; vector = query.now; k = asked.k; wanted = asked.wanted; ranges = ranges_of None; given = 0; over = false } ∷ []) }
    ensures pairs { (meters.old.pairs ≤ meters.new.pairs) × (meters.new.pairs ≤ meters.old.pairs + 1) }
    ensures others { meters.new ≡ record meters.old { pairs = meters.new.pairs } }
{
    let Ok(room) = Room::new(alloc, engine.book(), asked.k) else {
        return Err(Memory);
    };
    // The store tells that no pin is above its stamp.
    let _stamp = engine.store().stamp();
    match Session::open(engine, room, query, asked.k, asked.wanted, AllIds, meters) {
        Ok(session) => keep(held, asked.sid, session),
        Err(_) => unreachable!(),
    }
}

/// Keeps an opened session as the last, and answers its line.
fn keep<S: Shape>(
    held: &mut Vec<HeldSession<S>>,
    sid: u64,
    session: Session<S, AllIds>,
) -> Result<Text, Memory>
    ensures line { IfOk result (λ line. line ≡ texts.begin_done sid session.stamp) }
    ensures held { OnOk result (held.new.items ≡ held.old.items ++ record { sid = sid; session = session } ∷ []) }
{
    let line = begin_done(sid, session.stamp());
    match held.push(HeldSession { sid, session }) {
        Ok(()) => Ok(line),
        Err(_) => Err(Memory),
    }
}
