//! The files of a play with sessions: each is looked at whole, in order, and then the script is played.
ghost use Rattle.std.specs.Prelude.{◌≡◌, ◌*◌, Ok, IfOk, OnOk};
ghost use Rattle.std.specs.Option.{ForSome};
ghost use Rattle.cell_store.specs.State.{empty};
ghost use Rattle.play_script.specs.Sessions.{session_play, session_counts};
ghost use Rattle.adc_inputs.specs.Steps.{Reads};
ghost use Rattle.adc_program.specs.SessionPlays.{session_lines_by, session_lines, session_counts_by, session_play_counts};
ghost use Rattle.adc_program.specs.SessionStages.{AreOpenedFor};
ghost use Rattle.adc_program.specs.Stages.{stage_of, ArePlayed};
ghost use Rattle.adc_program.specs.Steps.{Plays};
ghost use Rattle.adc_program.specs.Work.{Works, AreEarly};

use crate::MAX_LIVE;
use crate::coded::CodeEngine;
use crate::halts::Halted;
use crate::player::Inputs;
use crate::session_player::SessionPlayer;
use adc_inputs::{PlayJob, Rows, Stop, check_rows, read_book, read_sessions};
use adc_ports::{Shelf, Sink};
use codebook_core::{AnyBook, Codebook};
use play_script::{Role, SessionScript};
use query_engine::Meters;
use shape_core::Shape;
use std::alloc::Global;

/// Checks base and queries against a book, and reads the script.
fn open<'a, S: Shape, H: Shelf>(
    alloc: Global,
    book: &Codebook<S>,
    names: &PlayJob<'a>,
    shelf: &mut H,
) -> Result<(Inputs<'a>, SessionScript), Stop>
    ensures base { IfOk result (λ opened. opened.0.base.checked.d ≡ book.now.d) }
    ensures queries { IfOk result (λ opened. opened.0.queries.checked.d ≡ book.now.d) }
    ensures reads { Reads result (λ files opened. AreOpenedFor files names.now book.now opened.0 opened.1) (λ files. session_lines_by files names.now.base.now names.now.queries.now names.now.script.now book.now) (H.state shelf.old) (H.state shelf.new) }
{
    let d = book.d();
    let base = match check_rows(shelf, Role::Base, names.base, d) {
        Ok(checked) => Rows {
            role: Role::Base,
            name: names.base,
            checked,
        },
        Err(stop) => return Err(stop),
    };
    let queries = match check_rows(shelf, Role::Queries, names.queries, d) {
        Ok(checked) => Rows {
            role: Role::Queries,
            name: names.queries,
            checked,
        },
        Err(stop) => return Err(stop),
    };
    match read_sessions(alloc, shelf, names.script) {
        Ok(script) => Ok((Inputs { base, queries }, script)),
        Err(stop) => Err(stop),
    }
}

/// Plays a script with sessions on an engine without rows.
fn play_on<S: Shape, H: Shelf, K: Sink>(
    alloc: Global,
    engine: CodeEngine<S>,
    inputs: Inputs<'_>,
    script: &SessionScript,
    shelf: &mut H,
    out: &mut K,
    meters: &mut Meters,
) -> Result<(), Halted>
    requires base { inputs.base.checked.d ≡ engine.engine.book.d }
    requires queries { inputs.queries.checked.d ≡ engine.engine.book.d }
    requires fresh { engine.engine.store ≡ empty engine.engine.book.g (engine.engine.book.k0 * engine.engine.book.k1) MAX_LIVE }
    requires meters { AreEarly meters.old }
    requires check { ForSome (H.state shelf.old).files (λ files. ArePlayed files engine.engine.book.d inputs) }
    ensures plays { Plays result (λ files. Ok (session_play (stage_of files inputs.entry engine.engine.book) script.now)) (H.state shelf.old) (H.state shelf.new) (K.state out.old) (K.state out.new) }
    ensures works { ForSome (H.state shelf.old).files (λ files. OnOk result (Works (session_counts (stage_of files inputs.entry engine.engine.book) script.now) meters.old meters.new)) }
{
    let Ok(row) = vec![in alloc; 0u8; inputs.base.checked.d as usize] else {
        return Err(Halted::Stopped(Stop::OutOfMemory));
    };
    let mut sessions = SessionPlayer {
        engine,
        inputs,
        row,
        held: Vec::new(alloc),
    };
    sessions.play(alloc, shelf, out, script, meters)
}

/// Plays a script with sessions by a book.
fn play_by<S: Shape, H: Shelf, K: Sink>(
    alloc: Global,
    book: Codebook<S>,
    names: &PlayJob<'_>,
    shelf: &mut H,
    out: &mut K,
    meters: &mut Meters,
) -> Result<(), Halted>
    requires meters { AreEarly meters.old }
    ensures plays { Plays result (λ files. session_lines_by files names.now.base.now names.now.queries.now names.now.script.now book) (H.state shelf.old) (H.state shelf.new) (K.state out.old) (K.state out.new) }
    ensures works { ForSome (H.state shelf.old).files (λ files. OnOk result (Works (session_counts_by files names.now.base.now names.now.queries.now names.now.script.now book) meters.old meters.new)) }
{
    let (inputs, script) = match open(alloc, &book, names, shelf) {
        Ok(opened) => opened,
        Err(stop) => return Err(Halted::Stopped(stop)),
    };
    let Ok(engine) = CodeEngine::new(alloc, book) else {
        return Err(Halted::Stopped(Stop::OutOfMemory));
    };
    play_on(alloc, engine, inputs, &script, shelf, out, meters)
}

/// Plays the script with sessions of these files.
pub(crate) fn play_session_files<H: Shelf, K: Sink>(
    alloc: Global,
    names: &PlayJob<'_>,
    shelf: &mut H,
    out: &mut K,
    meters: &mut Meters,
) -> Result<(), Halted>
    requires { AreEarly meters.old }
    ensures plays { Plays result (λ files. session_lines files names.now.book.now names.now.base.now names.now.queries.now names.now.script.now) (H.state shelf.old) (H.state shelf.new) (K.state out.old) (K.state out.new) }
    ensures works { ForSome (H.state shelf.old).files (λ files. OnOk result (Works (session_play_counts files names.now.book.now names.now.base.now names.now.queries.now names.now.script.now) meters.old meters.new)) }
{
    let book = match read_book(alloc, shelf, names.book) {
        Ok(book) => book,
        Err(stop) => return Err(Halted::Stopped(stop)),
    };
    match book {
        AnyBook::F4444(book) => play_by(alloc, book, names, shelf, out, meters),
        AnyBook::F555(book) => play_by(alloc, book, names, shelf, out, meters),
        AnyBook::F664(book) => play_by(alloc, book, names, shelf, out, meters),
        AnyBook::F88(book) => play_by(alloc, book, names, shelf, out, meters),
    }
}
