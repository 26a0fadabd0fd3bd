//! The lines of sessions that are open: steps and ends.
ghost use Rattle.std.specs.Prelude.{◌≡◌, ℕ, ◌+◌, ◌*◌, ◌-◌, ◌^◌, ◌<◌, ◌≤◌, ◌∷◌, [], min, length, take, codes, Some, None, OnOk, IfErr, if◌then◌else◌};
ghost use Rattle.cell_store.specs.State.{rows_at};
ghost use Rattle.query_engine.specs.Report.{HaveRoom};
ghost use Rattle.query_sessions.specs.Standing.{CanGoOn, SameQuestion, cells_given, cells_in_all};
ghost use Rattle.play_script.specs.declared.SessionCommand.TheVariants.{Step, End};
ghost use Rattle.play_script.specs.Texts as texts;
ghost use Rattle.play_script.specs.Play.{Stage, hits as hits_of};
ghost use Rattle.play_script.specs.Sessions.{Standing, session_reply};
ghost use Rattle.adc_program.specs.SessionStates.{AreOpen, StandsAs, IsNext, SaysOver};
ghost use Rattle.adc_ports.specs.States.{OnlyPuts};
ghost use Rattle.adc_program.specs.Ends.{IsUnwritten};
ghost use Rattle.adc_program.specs.Steps.{Puts};
ghost use Rattle.adc_program.specs.Work.{RiseLittle};
ghost use Rattle.prune_scan.specs.declared.meters.Meters.{Meters};

use crate::halts::Halted;
use crate::lines::write_line;
use crate::opened::{HeldSession, place_of};
use crate::play::write_hits;
use adc_ports::Sink;
use id_filter::AllIds;
use play_script::{
    Cause, MAX_STEP, Text, end_refused, session_done, session_dropped, step_done, step_refused,
};
use query_engine::{Engine, Meters};
use query_sessions::Session;
use shape_core::Shape;

/// Goes a step with a session, and answers its line.
fn step_session<S: Shape>(
    engine: &Engine<S>,
    session: &mut Session<S, AllIds>,
    sid: u64,
    budget: u32,
    meters: &mut Meters,
) -> Text
    requires can { CanGoOn S.widths engine.now session.old }
    requires meters { HaveRoom meters.old }
    ensures can { CanGoOn S.widths engine.now session.new }
    ensures same { SameQuestion session.old session.new }
    ensures visits { cells_given session.new ≡ cells_given session.old + min budget (cells_in_all engine.now.book (rows_at session.old.stamp engine.now.store.kept) session.old - cells_given session.old) }
    ensures over { SaysOver session.new.ended (cells_given session.new) (cells_in_all engine.now.book (rows_at session.old.stamp engine.now.store.kept) session.old) }
    ensures line { result ≡ texts.step_done sid (cells_given session.new) session.new.parts.state.rows session.new.full session.new.ended }
    ensures full { meters.new.full + session.old.full ≡ meters.old.full + session.new.full }
    ensures pairs { (meters.old.pairs ≤ meters.new.pairs) × (meters.new.pairs + 2 * cells_given session.old ≤ meters.old.pairs + 2 * cells_given session.new) }
    ensures little { RiseLittle 1 engine.now.store engine.now.store meters.old meters.new }
{
    // Book and store tell that their cells and rows are few.
    let _book = engine.book();
    let _stamp = engine.store().stamp();
    let _said = session.step(engine, budget, meters);
    let report = session.report();
    step_done(sid, report.cells, report.live, report.full, session.ended())
}

/// The line of a step.
pub(crate) fn step<S: Shape>(
    engine: &Engine<S>,
    held: &mut Vec<HeldSession<S>>,
    sid: u64,
    cells: u64,
    meters: &mut Meters,
) -> Text
    requires open { AreOpen S.widths engine.now held.old.items }
    requires meters { HaveRoom meters.old }
    ensures open { AreOpen S.widths engine.now held.new.items }
    ensures little { RiseLittle 1 engine.now.store engine.now.store meters.old meters.new }
    ensures line { (stage : Stage) (standing : Standing) → stage.book ≡ engine.now.book → StandsAs stage standing engine.now.store held.old.items → (session_reply stage standing (Step sid cells)).lines ≡ result ∷ [] }
    ensures next { (stage : Stage) (standing : Standing) → stage.book ≡ engine.now.book → StandsAs stage standing engine.now.store held.old.items
        → IsNext stage standing (session_reply stage standing (Step sid cells)) engine.now.store held.new.items meters.old meters.new }
{
    // The store tells what holds of every store.
    let _stamp = engine.store().stamp();
    let Some(place) = place_of(held, sid) else {
        return step_refused(sid, Cause::Absent);
    };
    if cells < 1 || cells > u64::from(MAX_STEP) {
        return step_refused(sid, Cause::Cells);
    }
    step_session(engine, &mut held[place].session, sid, cells as u32, meters)
}

/// Writes what a session that ends has found.
fn write_end<S: Shape, K: Sink>(
    out: &mut K,
    sid: u64,
    session: &mut Session<S, AllIds>,
) -> Result<(), Halted>
    ensures same { session.new ≡ session.old }
    ensures puts { Puts result (if session.old.ended then texts.session_done sid (cells_given session.old) session.old.parts.state.rows session.old.full ∷ hits_of session.old.parts.best.pairs else texts.session_dropped sid ∷ []) (K.state out.old) (K.state out.new) }
{
    if !session.ended() {
        return write_line(out, &session_dropped(sid));
    }
    let report = session.report();
    write_line(
        out,
        &session_done(sid, report.cells, report.live, report.full),
    )?;
    write_hits(out, session.answers())
}

/// Ends the session of a number, writes what it has found, and gives its pin back.
pub(crate) fn end<S: Shape, K: Sink>(
    engine: &mut Engine<S>,
    held: &mut Vec<HeldSession<S>>,
    out: &mut K,
    sid: u64,
) -> Result<(), Halted>
    requires open { AreOpen S.widths engine.old held.old.items }
    ensures book { engine.new.book ≡ engine.old.book }
    ensures stamp { engine.new.store.stamp ≡ engine.old.store.stamp }
    ensures open { AreOpen S.widths engine.new held.new.items }
    ensures only { OnlyPuts (K.state out.old) (K.state out.new) }
    ensures unwritten { IfErr result (λ halted. IsUnwritten halted (K.state out.old) (K.state out.new)) }
    ensures counts { OnOk result ((K.state out.new).faults ≡ (K.state out.old).faults) }
    ensures puts { (stage : Stage) (standing : Standing) → stage.book ≡ engine.old.book → StandsAs stage standing engine.old.store held.old.items → Puts result (session_reply stage standing (End sid)).lines (K.state out.old) (K.state out.new) }
    ensures next { (stage : Stage) (standing : Standing) (meters : Meters) → stage.book ≡ engine.old.book → StandsAs stage standing engine.old.store held.old.items
        → IsNext stage standing (session_reply stage standing (End sid)) engine.new.store held.new.items meters meters }
{
    // The store tells what holds of every store.
    let _stamp = engine.store().stamp();
    let Some(place) = place_of(held, sid) else {
        return write_line(out, &end_refused(sid, Cause::Absent));
    };
    let mut session = held.remove(place).into_session();
    let written = write_end(out, sid, &mut session);
    session.take(engine);
    written
}
