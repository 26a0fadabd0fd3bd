//! The files of a play: each is looked at whole, in order, and then the script is played.
ghost use Rattle.std.specs.Prelude.{◌≡◌, ◌^◌, [], IfOk, OnOk};
ghost use Rattle.std.specs.Option.{ForSome};
ghost use Rattle.play_script.specs.Play.{by_codes};
ghost use Rattle.adc_inputs.specs.Steps.{Reads};
ghost use Rattle.adc_program.specs.Plays.{lines_by, play_lines, asked_in, counts_by, play_counts};
ghost use Rattle.adc_program.specs.Stages.{AreOpened};
ghost use Rattle.adc_program.specs.Steps.{Plays};
ghost use Rattle.adc_program.specs.Work.{Works, IsPlain, AreEarly};
ghost use Rattle.adc_program.specs.Played.{rows_of, AreUpTo, HaveAsked};

use crate::coded::CodeEngine;
use crate::halts::Halted;
use crate::played::Played;
use crate::player::{Inputs, Player};
use adc_inputs::{PlayJob, Rows, Stop, check_rows, read_book, read_script};
use adc_ports::{Shelf, Sink};
use codebook_core::{AnyBook, Codebook};
use play_script::{Role, Script};
use query_engine::Meters;
use shape_core::Shape;
use std::alloc::Global;

/// Checks base and queries against what they are played on, and reads the script.
fn open<'a, E: Played, H: Shelf>(
    alloc: Global,
    engine: &E,
    names: &PlayJob<'a>,
    shelf: &mut H,
) -> Result<(Inputs<'a>, Script), Stop>
    ensures base { IfOk result (λ opened. opened.0.base.checked.d ≡ (E.stand engine.now).book.d) }
    ensures queries { IfOk result (λ opened. opened.0.queries.checked.d ≡ (E.stand engine.now).book.d) }
    ensures reads { Reads result (λ files opened. AreOpened E.means files names.now (E.stand engine.now).book opened.0 opened.1) (λ files. lines_by E.means files names.now.base.now names.now.queries.now names.now.script.now (E.stand engine.now).book) (H.state shelf.old) (H.state shelf.new) }
{
    let d = engine.d();
    let base = match check_rows(shelf, Role::Base, names.base, d) {
        Ok(checked) => Rows {
            role: Role::Base,
            name: names.base,
            checked,
        },
        Err(stop) => return Err(stop),
    };
    let queries = match check_rows(shelf, Role::Queries, names.queries, d) {
        Ok(checked) => Rows {
            role: Role::Queries,
            name: names.queries,
            checked,
        },
        Err(stop) => return Err(stop),
    };
    match read_script(alloc, shelf, names.script) {
        Ok(script) => Ok((Inputs { base, queries }, script)),
        Err(stop) => Err(stop),
    }
}

/// Plays a script on an engine without rows.
pub(crate) fn play_on<E: Played, H: Shelf, K: Sink>(
    alloc: Global,
    engine: E,
    names: &PlayJob<'_>,
    shelf: &mut H,
    out: &mut K,
    meters: &mut E::Meters,
) -> Result<(), Halted>
    requires empty { rows_of (E.stand engine) ≡ [] }
    requires stamp { (E.stand engine).store.stamp ≡ 0 }
    requires plain { IsPlain (E.stand engine).store }
    requires meters { AreUpTo (2 ^ 61) (E.metered meters.old) }
    ensures plays { Plays result (λ files. lines_by E.means files names.now.base.now names.now.queries.now names.now.script.now (E.stand engine).book) (H.state shelf.old) (H.state shelf.new) (K.state out.old) (K.state out.new) }
    ensures works { ForSome (H.state shelf.old).files (λ files. OnOk result (HaveAsked E.means E.computes (E.stand engine) (asked_in E.means files names.now.base.now names.now.queries.now names.now.script.now (E.stand engine).book) (E.metered meters.old) (E.metered meters.new))) }
{
    let (inputs, script) = match open(alloc, &engine, names, shelf) {
        Ok(opened) => opened,
        Err(stop) => return Err(Halted::Stopped(stop)),
    };
    let Ok(row) = vec![in alloc; 0u8; engine.d() as usize] else {
        return Err(Halted::Stopped(Stop::OutOfMemory));
    };
    let mut player = Player {
        engine,
        inputs,
        row,
    };
    player.play(shelf, out, &script, meters)
}

/// Plays a script by a book.
fn play_by<S: Shape, H: Shelf, K: Sink>(
    alloc: Global,
    book: Codebook<S>,
    names: &PlayJob<'_>,
    shelf: &mut H,
    out: &mut K,
    meters: &mut Meters,
) -> Result<(), Halted>
    requires { AreEarly meters.old }
    ensures plays { Plays result (λ files. lines_by by_codes files names.now.base.now names.now.queries.now names.now.script.now book) (H.state shelf.old) (H.state shelf.new) (K.state out.old) (K.state out.new) }
    ensures works { ForSome (H.state shelf.old).files (λ files. OnOk result (Works (counts_by files names.now.base.now names.now.queries.now names.now.script.now book) meters.old meters.new)) }
{
    let Ok(engine) = CodeEngine::new(alloc, book) else {
        return Err(Halted::Stopped(Stop::OutOfMemory));
    };
    play_on(alloc, engine, names, shelf, out, meters)
}

/// Plays the script of these files.
pub(crate) fn play_files<H: Shelf, K: Sink>(
    alloc: Global,
    names: &PlayJob<'_>,
    shelf: &mut H,
    out: &mut K,
    meters: &mut Meters,
) -> Result<(), Halted>
    requires { AreEarly meters.old }
    ensures plays { Plays result (λ files. play_lines files names.now.book.now names.now.base.now names.now.queries.now names.now.script.now) (H.state shelf.old) (H.state shelf.new) (K.state out.old) (K.state out.new) }
    ensures works { ForSome (H.state shelf.old).files (λ files. OnOk result (Works (play_counts files names.now.book.now names.now.base.now names.now.queries.now names.now.script.now) meters.old meters.new)) }
{
    let book = match read_book(alloc, shelf, names.book) {
        Ok(book) => book,
        Err(stop) => return Err(Halted::Stopped(stop)),
    };
    match book {
        AnyBook::F4444(book) => play_by(alloc, book, names, shelf, out, meters),
        AnyBook::F555(book) => play_by(alloc, book, names, shelf, out, meters),
        AnyBook::F664(book) => play_by(alloc, book, names, shelf, out, meters),
        AnyBook::F88(book) => play_by(alloc, book, names, shelf, out, meters),
    }
}
