//! The files of a residual play: each is looked at whole, in order, and then the script is played.
ghost use Rattle.std.specs.Prelude.{◌^◌, ◌≤◌, OnOk};
ghost use Rattle.std.specs.Option.{ForSome};
ghost use Rattle.adc_program.specs.Played.{AreUpTo};
ghost use Rattle.adc_program.specs.Residuals.{residual_by, residual_lines, residual_counts_by, residual_counts, ResidualWorks, metered_of_residual};
ghost use Rattle.adc_program.specs.Steps.{Plays};

use crate::MAX_LIVE;
use crate::files::play_on;
use crate::halts::Halted;
use crate::residual::ResidualPlayed;
use adc_inputs::{InputError, PlayJob, ResidualJob, Stop, read_book};
use adc_ports::{Shelf, Sink};
use codebook_core::{AnyBook, Codebook};
use play_script::Role;
use query_engine::Meters;
use residual_scan::{NotResidual, ResidualEngine, ResidualScratch, check};
use shape_core::Shape;
use std::alloc::Global;

/// Plays a script by a book, with room for so many tables of halves, if that is a residual book.
fn play_by<S: Shape, H: Shelf, K: Sink>(
    alloc: Global,
    book: Codebook<S>,
    names: &PlayJob<'_>,
    cache: u32,
    shelf: &mut H,
    out: &mut K,
    meters: &mut Meters,
) -> Result<(), Halted>
    requires cache { cache ≤ 2048 }
    requires meters { AreUpTo (2 ^ 61) (metered_of_residual meters.old) }
    ensures plays { Plays result (λ files. residual_by files names.now.base.now names.now.queries.now names.now.script.now book) (H.state shelf.old) (H.state shelf.new) (K.state out.old) (K.state out.new) }
    ensures works { ForSome (H.state shelf.old).files (λ files. OnOk result (ResidualWorks (residual_counts_by files names.now.base.now names.now.queries.now names.now.script.now cache book) meters.old meters.new)) }
{
    if let Err(NotResidual { at }) = check(&book) {
        let role = Role::Book;
        return Err(Halted::Stopped(Stop::Input(InputError::Malformed { role, at })));
    }
    let engine = ResidualEngine::new(alloc, book, MAX_LIVE);
    let Ok(scratch) = ResidualScratch::new(alloc, engine.book(), 1000, cache) else {
        return Err(Halted::Stopped(Stop::OutOfMemory));
    };
    let played = ResidualPlayed { engine, scratch };
    play_on(alloc, played, names, shelf, out, meters)
}

/// Plays the script of these files over an engine of residual codes.
pub(crate) fn play_residual<H: Shelf, K: Sink>(
    alloc: Global,
    job: &ResidualJob<'_>,
    shelf: &mut H,
    out: &mut K,
    meters: &mut Meters,
) -> Result<(), Halted>
    requires { AreUpTo (2 ^ 61) (metered_of_residual meters.old) }
    ensures plays { Plays result (λ files. residual_lines files job.now.play.book.now job.now.play.base.now job.now.play.queries.now job.now.play.script.now) (H.state shelf.old) (H.state shelf.new) (K.state out.old) (K.state out.new) }
    ensures works { ForSome (H.state shelf.old).files (λ files. OnOk result (ResidualWorks (residual_counts files job.now.play.book.now job.now.play.base.now job.now.play.queries.now job.now.play.script.now job.now.cache) meters.old meters.new)) }
{
    let names = &job.play;
    let cache = job.cache;
    let book = match read_book(alloc, shelf, names.book) {
        Ok(book) => book,
        Err(stop) => return Err(Halted::Stopped(stop)),
    };
    match book {
        AnyBook::F4444(book) => play_by(alloc, book, names, cache, shelf, out, meters),
        AnyBook::F555(book) => play_by(alloc, book, names, cache, shelf, out, meters),
        AnyBook::F664(book) => play_by(alloc, book, names, cache, shelf, out, meters),
        AnyBook::F88(book) => play_by(alloc, book, names, cache, shelf, out, meters),
    }
}
