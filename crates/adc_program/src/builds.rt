//! Index files that are written: of the rows of a base, and of an index of either version.
ghost use Rattle.std.specs.Prelude.{◌≡◌, ◌*◌, [], Some, Ok, Result, length};
ghost use Rattle.std.specs.Option.{ForSome};
ghost use Rattle.adc_ports.specs.Files.{Files};
ghost use Rattle.adc_ports.specs.States.{ShelfState};
ghost use Rattle.adc_inputs.specs.declared.stop.InputError.{InputError};
ghost use Rattle.cell_store.specs.State.{live_rows};
ghost use Rattle.index_file.specs.Spelling.{by_cell, index_bytes};
ghost use Rattle.index_file.specs.View.{book_of, store_of, view_index, IsFresh};
ghost use Rattle.query_engine.specs.State.{rows_of};
ghost use Rattle.play_script.specs.declared.Role.TheVariants as role;
ghost use Rattle.adc_inputs.specs.Inputs.{rows_held, IsCheckOf};
ghost use Rattle.adc_inputs.specs.Steps.{Reads, nothing_wrong};
ghost use Rattle.adc_program.specs.Builds.{with_index, built_rows, built, built_by, build_output, upgraded, upgrade_output};
ghost use Rattle.adc_program.specs.Filed.{halted_of};
ghost use Rattle.adc_program.specs.Outputs.{Output};
ghost use Rattle.adc_program.specs.Rows.{cell_count};
ghost use Rattle.adc_program.specs.Steps.{ReadsWell, Makes};
ghost use Rattle.adc_program.specs.Work.{IsPlain};

use crate::MAX_LIVE;
use crate::adding::add;
use crate::halts::Halted;
use crate::lines::write_line;
use adc_inputs::{BuildJob, Rows, Stop, UpgradeJob, check_rows, fetch_row, read_book, read_index};
use adc_ports::{Memory, Shelf, Sink};
use cell_store::CellStore;
use codebook_core::{AnyBook, Codebook};
use index_file::{AnyIndex, Index, write};
use play_script::{Role, Text, build_done, upgrade_done};
use query_engine::Engine;
use shape_core::Shape;
use std::alloc::Global;
use vec_files::WriteError;

/// The halt of a file that could not be written.
pub(crate) fn of_write(role: Role, error: WriteError) -> Halted
    ensures { result ≡ halted_of role error }
{
    match error {
        WriteError::WriteFault => Halted::Unsaved(role),
        WriteError::Memory => Halted::Stopped(Stop::OutOfMemory),
    }
}

/// Writes the index of a store, and then a line.
fn write_index<S: Shape, H: Shelf, K: Sink>(
    alloc: Global,
    book: &Codebook<S>,
    store: &CellStore<S>,
    part: Role,
    name: &str,
    line: &Text,
    shelf: &mut H,
    out: &mut K,
) -> Result<(), Halted>
    requires g { store.now.g ≡ book.now.g }
    requires cells { store.now.cells ≡ book.now.k0 * book.now.k1 }
    ensures makes { (before : ShelfState) (wanted : Files → Result Output InputError) → ReadsWell before (H.state shelf.old)
        → ((files : Files) → before.files ≡ Some files → wanted files ≡ Ok (with_index part name.now line.now book.now (live_rows store.now)))
        → Makes (Some name.now) result wanted before (H.state shelf.new) (K.state out.old) (K.state out.new) }
{
    match write(alloc, book, store, shelf, name) {
        Ok(()) => write_line(out, line),
        Err(error) => Err(of_write(part, error)),
    }
}

/// Inserts the rows of a base in order, each with its number as its id.
fn insert_base<S: Shape, H: Shelf>(
    engine: &mut Engine<S>,
    base: &Rows<'_>,
    row: &mut [u8],
    shelf: &mut H,
) -> Result<(), Stop>
    requires d { base.now.checked.d ≡ engine.old.book.d }
    requires room { length row.old ≡ engine.old.book.d }
    requires empty { rows_of engine.old ≡ [] }
    requires stamp { engine.old.store.stamp ≡ 0 }
    requires plain { IsPlain engine.old.store }
    requires check { ForSome (H.state shelf.old).files (λ files. IsCheckOf files base.now.role base.now.name.now base.now.checked.d base.now.checked) }
    ensures book { engine.new.book ≡ engine.old.book }
    ensures reads { Reads result (λ files _. rows_of engine.new ≡ built_rows engine.old.book (rows_held files base.now.role base.now.name.now base.now.checked.d)) nothing_wrong (H.state shelf.old) (H.state shelf.new) }
{
    for number in 0..base.checked.rows {
        match fetch_row(shelf, base, u64::from(number), row) {
            Ok(()) => {}
            Err(stop) => return Err(stop),
        }
        match add(engine, number, row) {
            Ok(()) => {}
            Err(Memory) => return Err(Stop::OutOfMemory),
        }
    }
    Ok(())
}

/// Inserts the rows of a base into an engine without rows, writes the index of them, and then a line.
fn write_built<S: Shape, H: Shelf, K: Sink>(
    alloc: Global,
    engine: &mut Engine<S>,
    base: &Rows<'_>,
    name: &str,
    shelf: &mut H,
    out: &mut K,
) -> Result<(), Halted>
    requires d { base.now.checked.d ≡ engine.old.book.d }
    requires empty { rows_of engine.old ≡ [] }
    requires stamp { engine.old.store.stamp ≡ 0 }
    requires plain { IsPlain engine.old.store }
    requires check { ForSome (H.state shelf.old).files (λ files. IsCheckOf files base.now.role base.now.name.now base.now.checked.d base.now.checked) }
    ensures makes { (before : ShelfState) (wanted : Files → Result Output InputError) → ReadsWell before (H.state shelf.old)
        → ((files : Files) → before.files ≡ Some files → wanted files ≡ Ok (built name.now engine.old.book (rows_held files base.now.role base.now.name.now base.now.checked.d)))
        → Makes (Some name.now) result wanted before (H.state shelf.new) (K.state out.old) (K.state out.new) }
{
    let Ok(mut row) = vec![in alloc; 0u8; base.checked.d as usize] else {
        return Err(Halted::Stopped(Stop::OutOfMemory));
    };
    match insert_base(engine, base, &mut row, shelf) {
        Ok(()) => {}
        Err(stop) => return Err(Halted::Stopped(stop)),
    }
    let line = build_done(base.checked.rows, engine.store().used());
    write_index(
        alloc,
        engine.book(),
        engine.store(),
        Role::Index,
        name,
        &line,
        shelf,
        out,
    )
}

/// Builds the index of a base by a book.
fn build_by<S: Shape, H: Shelf, K: Sink>(
    alloc: Global,
    book: Codebook<S>,
    job: &BuildJob<'_>,
    shelf: &mut H,
    out: &mut K,
) -> Result<(), Halted>
    ensures makes { Makes (Some job.now.index.now) result (λ files. built_by files job.now.base.now job.now.index.now book) (H.state shelf.old) (H.state shelf.new) (K.state out.old) (K.state out.new) }
{
    let checked = match check_rows(shelf, Role::Base, job.base, book.d()) {
        Ok(checked) => checked,
        Err(stop) => return Err(Halted::Stopped(stop)),
    };
    let base = Rows {
        role: Role::Base,
        name: job.base,
        checked,
    };
    let mut engine = Engine::new(alloc, book, MAX_LIVE);
    write_built(alloc, &mut engine, &base, job.index, shelf, out)
}

/// Builds the index of a base.
pub(crate) fn build<H: Shelf, K: Sink>(
    alloc: Global,
    job: &BuildJob<'_>,
    shelf: &mut H,
    out: &mut K,
) -> Result<(), Halted>
    ensures makes { Makes (Some job.now.index.now) result (λ files. build_output files job.now.book.now job.now.base.now job.now.index.now) (H.state shelf.old) (H.state shelf.new) (K.state out.old) (K.state out.new) }
{
    let book = match read_book(alloc, shelf, job.book) {
        Ok(book) => book,
        Err(stop) => return Err(Halted::Stopped(stop)),
    };
    match book {
        AnyBook::F4444(book) => build_by(alloc, book, job, shelf, out),
        AnyBook::F555(book) => build_by(alloc, book, job, shelf, out),
        AnyBook::F664(book) => build_by(alloc, book, job, shelf, out),
        AnyBook::F88(book) => build_by(alloc, book, job, shelf, out),
    }
}

/// Writes an index as version 2.
fn upgrade_by<S: Shape, H: Shelf, K: Sink>(
    alloc: Global,
    index: Index<S>,
    name: &str,
    shelf: &mut H,
    out: &mut K,
) -> Result<(), Halted>
    requires fresh { IsFresh index.book index.store }
    ensures makes { (before : ShelfState) (wanted : Files → Result Output InputError) → ReadsWell before (H.state shelf.old)
        → ((files : Files) → before.files ≡ Some files → wanted files ≡ Ok (upgraded name.now (record { book = index.book; rows = live_rows index.store })))
        → Makes (Some name.now) result wanted before (H.state shelf.new) (K.state out.old) (K.state out.new) }
{
    let line = upgrade_done(index.store.live(), index.store.used());
    write_index(
        alloc,
        &index.book,
        &index.store,
        Role::Out,
        name,
        &line,
        shelf,
        out,
    )
}

/// Writes an index of any shape as version 2.
fn upgrade_any<H: Shelf, K: Sink>(
    alloc: Global,
    index: AnyIndex,
    name: &str,
    shelf: &mut H,
    out: &mut K,
) -> Result<(), Halted>
    requires fresh { IsFresh (book_of index) (store_of index) }
    ensures makes { (before : ShelfState) (wanted : Files → Result Output InputError) → ReadsWell before (H.state shelf.old)
        → ((files : Files) → before.files ≡ Some files → wanted files ≡ Ok (upgraded name.now (view_index index)))
        → Makes (Some name.now) result wanted before (H.state shelf.new) (K.state out.old) (K.state out.new) }
{
    match index {
        AnyIndex::F4444(index) => upgrade_by(alloc, index, name, shelf, out),
        AnyIndex::F555(index) => upgrade_by(alloc, index, name, shelf, out),
        AnyIndex::F664(index) => upgrade_by(alloc, index, name, shelf, out),
        AnyIndex::F88(index) => upgrade_by(alloc, index, name, shelf, out),
    }
}

/// Writes an index of either version as version 2.
pub(crate) fn upgrade<H: Shelf, K: Sink>(
    alloc: Global,
    job: &UpgradeJob<'_>,
    shelf: &mut H,
    out: &mut K,
) -> Result<(), Halted>
    ensures makes { Makes (Some job.now.new.now) result (λ files. upgrade_output files job.now.old.now job.now.new.now) (H.state shelf.old) (H.state shelf.new) (K.state out.old) (K.state out.new) }
{
    match read_index(alloc, shelf, job.old) {
        Ok(index) => upgrade_any(alloc, index, job.new, shelf, out),
        Err(stop) => Err(Halted::Stopped(stop)),
    }
}
