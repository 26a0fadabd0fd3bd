//! Searches over an index among the ids of a list.
ghost use Rattle.std.specs.Prelude.{◌≡◌, ℕ, Some, Ok, Result, IfOk, OnOk};
ghost use Rattle.std.specs.Option.{ForSome};
ghost use Rattle.adc_ports.specs.Files.{Files};
ghost use Rattle.adc_ports.specs.States.{ShelfState};
ghost use Rattle.book_model.specs.Rows.{in_ranges};
ghost use Rattle.id_filter.specs.Ranges.{pairs_of};
ghost use Rattle.id_filter.specs.Allowed.{has_id};
ghost use Rattle.cell_store.specs.State.{live_rows};
ghost use Rattle.index_file.specs.View.{book_of, store_of, view_index, IsFresh};
ghost use Rattle.adc_inputs.specs.declared.stop.InputError.{InputError};
ghost use Rattle.play_script.specs.declared.Role.TheVariants as role;
ghost use Rattle.vec_files.specs.Found.{IsWithinLimits};
ghost use Rattle.adc_inputs.specs.Allows.{allow_input};
ghost use Rattle.adc_inputs.specs.Inputs.{IsCheckOf};
ghost use Rattle.adc_inputs.specs.Steps.{Reads};
ghost use Rattle.adc_program.specs.Allows.{allowed_by, allowed_output};
ghost use Rattle.adc_program.specs.Asked.{indexed, questions_of};
ghost use Rattle.adc_program.specs.Outputs.{Output};
ghost use Rattle.adc_program.specs.Searches.{counts_below, asked_output};
ghost use Rattle.adc_program.specs.Steps.{ReadsWell, Makes, counts_wanted};
ghost use Rattle.adc_program.specs.Work.{Works, AreEarly};

use crate::halts::Halted;
use crate::searcher::{Asking, Searcher};
use adc_inputs::{AllowedJob, Rows, Stop, check_rows, read_allowed, read_index};
use adc_ports::{Shelf, Sink};
use id_filter::{AllowedIds, IdRanges, KeptFilter, allowed};
use index_file::{AnyIndex, Index};
use play_script::{Role, Text, allowed_done};
use query_engine::{Engine, Meters};
use shape_core::Shape;
use std::alloc::Global;
use vec_files::Checked;

/// Answers the queries of a search among listed ids, which are the ids in these ranges, and writes a last line.
fn write_among<S: Shape, H: Shelf, K: Sink>(
    searcher: &mut Searcher<'_, S>,
    ranges: IdRanges,
    ids: &AllowedIds,
    last: &Text,
    shelf: &mut H,
    out: &mut K,
    meters: &mut Meters,
) -> Result<(), Halted>
    requires same { (id : ℕ) → has_id ids.now id ≡ in_ranges (pairs_of ranges) id }
    requires meters { AreEarly meters.old }
    requires check { ForSome (H.state shelf.old).files (λ files. IsCheckOf files searcher.old.asking.queries.role searcher.old.asking.queries.name.now searcher.old.asking.queries.checked.d searcher.old.asking.queries.checked) }
    ensures makes { (before : ShelfState) (wanted : Files → Result Output InputError) → ReadsWell before (H.state shelf.old)
        → ((files : Files) → before.files ≡ Some files → wanted files ≡ Ok (asked_output searcher.old.asking.out.now (indexed searcher.old.engine) (questions_of files searcher.old.asking (pairs_of ranges)) searcher.old.asking.queries.checked.rows last.now))
        → Makes (Some searcher.old.asking.out.now) result wanted before (H.state shelf.new) (K.state out.old) (K.state out.new) }
    ensures works { ForSome (H.state shelf.old).files (λ files. OnOk result (Works (counts_below (indexed searcher.old.engine) (questions_of files searcher.old.asking (pairs_of ranges)) searcher.old.asking.queries.checked.rows) meters.old meters.new)) }
{
    let filter = KeptFilter::new(ranges, |id: u32| ids.has(id));
    searcher.write(&filter, last, shelf, out, meters)
}

/// Checks the queries against an index, and then reads the list of ids: the ranges of its ids, and the ids for a search.
fn open<S: Shape, H: Shelf>(
    alloc: Global,
    index: &Index<S>,
    job: &AllowedJob<'_>,
    shelf: &mut H,
) -> Result<(Checked, IdRanges, AllowedIds), Stop>
    ensures within_limits { IfOk result (λ opened. IsWithinLimits opened.0) }
    ensures size { IfOk result (λ opened. opened.0.d ≡ index.now.book.d) }
    ensures same { IfOk result (λ opened. (id : ℕ) → has_id opened.2 id ≡ in_ranges (pairs_of opened.1) id) }
    ensures reads { Reads result (λ files opened. IsCheckOf files role.Queries job.now.queries.now index.now.book.d opened.0 × (allow_input files job.now.allow.now ≡ Ok (pairs_of opened.1)))
        (λ files. allowed_by files job.now.queries.now job.now.k job.now.wanted job.now.allow.now job.now.out.now (record { book = index.now.book; rows = live_rows index.now.store })) (H.state shelf.old) (H.state shelf.new) }
{
    let checked = match check_rows(shelf, Role::Queries, job.queries, index.book.d()) {
        Ok(checked) => checked,
        Err(stop) => return Err(stop),
    };
    let ids = match read_allowed(alloc, shelf, job.allow) {
        Ok(ids) => ids,
        Err(stop) => return Err(stop),
    };
    let Ok((ranges, ids)) = allowed(alloc, ids) else {
        return Err(Stop::OutOfMemory);
    };
    Ok((checked, ranges, ids))
}

/// Asks the queries of a search of an index among the ids of a list.
fn search_by<S: Shape, H: Shelf, K: Sink>(
    alloc: Global,
    index: Index<S>,
    job: &AllowedJob<'_>,
    shelf: &mut H,
    out: &mut K,
    meters: &mut Meters,
) -> Result<(), Halted>
    requires fresh { IsFresh index.book index.store }
    requires meters { AreEarly meters.old }
    ensures makes { Makes (Some job.now.out.now) result (λ files. allowed_by files job.now.queries.now job.now.k job.now.wanted job.now.allow.now job.now.out.now (record { book = index.book; rows = live_rows index.store })) (H.state shelf.old) (H.state shelf.new) (K.state out.old) (K.state out.new) }
    ensures works { ForSome (H.state shelf.old).files (λ files. OnOk result (Works (counts_wanted (allowed_by files job.now.queries.now job.now.k job.now.wanted job.now.allow.now job.now.out.now (record { book = index.book; rows = live_rows index.store }))) meters.old meters.new)) }
{
    let (checked, ranges, ids) = match open(alloc, &index, job, shelf) {
        Ok(opened) => opened,
        Err(stop) => return Err(Halted::Stopped(stop)),
    };
    let queries = Rows {
        role: Role::Queries,
        name: job.queries,
        checked,
    };
    let asking = Asking {
        queries,
        k: job.k,
        wanted: job.wanted,
        out: job.out,
    };
    let engine = Engine::from_parts(index.book, index.store);
    let Ok(mut searcher) = Searcher::new(alloc, engine, asking) else {
        return Err(Halted::Stopped(Stop::OutOfMemory));
    };
    let last = allowed_done(checked.rows);
    write_among(&mut searcher, ranges, &ids, &last, shelf, out, meters)
}

/// Searches an index among the ids of a list.
pub(crate) fn search_allowed<H: Shelf, K: Sink>(
    alloc: Global,
    job: &AllowedJob<'_>,
    shelf: &mut H,
    out: &mut K,
    meters: &mut Meters,
) -> Result<(), Halted>
    requires meters { AreEarly meters.old }
    ensures makes { Makes (Some job.now.out.now) result (λ files. allowed_output files job.now.index.now job.now.queries.now job.now.k job.now.wanted job.now.allow.now job.now.out.now) (H.state shelf.old) (H.state shelf.new) (K.state out.old) (K.state out.new) }
    ensures works { ForSome (H.state shelf.old).files (λ files. OnOk result (Works (counts_wanted (allowed_output files job.now.index.now job.now.queries.now job.now.k job.now.wanted job.now.allow.now job.now.out.now)) meters.old meters.new)) }
{
    let index = match read_index(alloc, shelf, job.index) {
        Ok(index) => index,
        Err(stop) => return Err(Halted::Stopped(stop)),
    };
    match index {
        AnyIndex::F4444(index) => search_by(alloc, index, job, shelf, out, meters),
        AnyIndex::F555(index) => search_by(alloc, index, job, shelf, out, meters),
        AnyIndex::F664(index) => search_by(alloc, index, job, shelf, out, meters),
        AnyIndex::F88(index) => search_by(alloc, index, job, shelf, out, meters),
    }
}
