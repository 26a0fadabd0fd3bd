//! Searches over an index: each query is asked, and its ids are added to a file.
ghost use Rattle.std.specs.Prelude.{◌≡◌, ◌≤◌, ◌<◌, [], ◌∷◌, length, map, slice_index_or, pos, negsuc, Some, Ok, Result, IfOk, OnOk};
ghost use Rattle.std.specs.Option.{ForSome};
ghost use Rattle.std.specs.List.{AllByRecursion};
ghost use Rattle.adc_ports.specs.Files.{Files};
ghost use Rattle.adc_ports.specs.States.{ShelfState, IsThere};
ghost use Rattle.vec_files.specs.Rows.{ivecs_row};
ghost use Rattle.book_model.specs.Sums.{numbers_below};
ghost use Rattle.best_k.specs.Least.{key_of};
ghost use Rattle.flat_truth.specs.Flat.{padded};
ghost use Rattle.cell_store.specs.State.{live_rows};
ghost use Rattle.index_file.specs.View.{book_of, store_of, view_index, IsFresh};
ghost use Rattle.query_engine.specs.Parts.{HasRoomFor};
ghost use Rattle.query_engine.specs.Report.{HaveRoom};
ghost use Rattle.play_script.specs.Play.{query_line as line_of};
ghost use Rattle.adc_inputs.specs.declared.stop.InputError.{InputError};
ghost use Rattle.adc_inputs.specs.Inputs.{IsCheckOf};
ghost use Rattle.adc_inputs.specs.Steps.{Reads, nothing_wrong};
ghost use Rattle.adc_program.specs.Asked.{indexed, questions_of};
ghost use Rattle.adc_program.specs.Outputs.{Output};
ghost use Rattle.adc_program.specs.Rowing.{Adds};
ghost use Rattle.adc_program.specs.Searches.{counts_at, ids_at, lines_below, bytes_below, counts_below, asked_output, searched_by, search_output};
ghost use Rattle.adc_program.specs.Steps.{ReadsWell, Makes, counts_wanted};
ghost use Rattle.adc_program.specs.Work.{Works, AreEarly, RiseLittle};

use crate::halts::Halted;
use crate::lines::write_line;
use crate::play::MAX_ID;
use crate::rowing::{add_row, begin_file};
use crate::searcher::{Asking, Searcher};
use adc_inputs::{Rows, SearchJob, Stop, check_rows, fetch_row, read_index};
use adc_ports::{Memory, Shelf, Sink};
use best_k::Pair;
use codebook_core::Codebook;
use id_filter::{AllIds, IdSelector};
use index_file::{AnyIndex, Index};
use play_script::{Role, Text, query_done, search_done};
use query_engine::{Engine, Meters, Report, Scratch};
use shape_core::Shape;
use std::alloc::Global;

/// The id of the hit of a number, or -1 if there are fewer.
fn id_at(hits: &[Pair], n: usize) -> i32
    requires ids { AllByRecursion (λ pair. pair.1 ≤ MAX_ID) (map key_of hits.now) }
    ensures { result ≡ slice_index_or (map pos (map (λ pair. pair.1) (map key_of hits.now))) n (negsuc 0) }
{
    match hits.get(n) {
        Some(pair) => pair.id as i32,
        None => -1,
    }
}

/// Sets a row of ids: those of the hits in order, and -1 behind them.
fn set_ids(row: &mut [i32], hits: &[Pair])
    requires few { length hits.now ≤ length row.old }
    requires ids { AllByRecursion (λ pair. pair.1 ≤ MAX_ID) (map key_of hits.now) }
    ensures { row.new ≡ padded (length row.old) (map (λ pair. pair.1) (map key_of hits.now)) }
{
    for n in 0..row.len() {
        row[n] = id_at(hits, n);
    }
}

/// What a search by a book needs beside it: the scratch of its queries, and room for a query and for its row of ids.
fn rooms<S: Shape>(
    alloc: Global,
    book: &Codebook<S>,
    asking: &Asking<'_>,
) -> Result<(Scratch<S>, Vec<u8>, Vec<i32>), Memory>
    requires d { asking.now.queries.checked.d ≡ book.now.d }
    ensures scratch { IfOk result (λ rooms. HasRoomFor book.now rooms.0) }
    ensures best { IfOk result (λ rooms. rooms.0.best.room ≡ 1000) }
    ensures vector { IfOk result (λ rooms. length rooms.1.items ≡ book.now.d) }
    ensures ids { IfOk result (λ rooms. length rooms.2.items ≡ asking.now.k) }
{
    let Ok(vector) = vec![in alloc; 0u8; asking.queries.checked.d as usize] else {
        return Err(Memory);
    };
    let Ok(ids) = vec![in alloc; 0i32; asking.k as usize] else {
        return Err(Memory);
    };
    match Scratch::new(alloc, book, 1000) {
        Ok(scratch) => Ok((scratch, vector, ids)),
        Err(Memory) => Err(Memory),
    }
}

impl<'a, S: Shape> Searcher<'a, S> {
    /// A search of an engine.
    ///
    /// # Errors
    /// `Memory` where memory runs out.
    pub(crate) fn new(
        alloc: Global,
        engine: Engine<S>,
        asking: Asking<'a>,
    ) -> Result<Searcher<'a, S>, Memory>
        requires d { asking.queries.checked.d ≡ engine.book.d }
        ensures engine { IfOk result (λ searcher. searcher.engine ≡ engine) }
        ensures asking { IfOk result (λ searcher. searcher.asking ≡ asking.entry) }
    {
        match rooms(alloc, engine.book(), &asking) {
            Ok((scratch, vector, ids)) => Ok(Searcher {
                engine,
                scratch,
                asking,
                vector,
                ids,
            }),
            Err(Memory) => Err(Memory),
        }
    }

    /// Reads a query and asks it. The query and its ids then stand in their room.
    pub(crate) fn find<P: IdSelector, H: Shelf>(
        &mut self,
        selector: &P,
        number: u32,
        shelf: &mut H,
        meters: &mut Meters,
    ) -> Result<Report, Stop>
        requires selector { P.can_pass selector.now }
        requires number { number < self.old.asking.queries.checked.rows }
        requires meters { HaveRoom meters.old }
        requires check { ForSome (H.state shelf.old).files (λ files. IsCheckOf files self.old.asking.queries.role self.old.asking.queries.name.now self.old.asking.queries.checked.d self.old.asking.queries.checked) }
        ensures engine { self.new.engine ≡ self.old.engine }
        ensures asking { self.new.asking ≡ self.old.asking }
        ensures counts { Reads result (λ files report. counts_at (indexed self.old.engine) (questions_of files self.old.asking (P.ranges selector.now)) number ≡ record { cells = report.cells; live = report.live; full = report.full }) nothing_wrong (H.state shelf.old) (H.state shelf.new) }
        ensures vector { ForSome (H.state shelf.old).files (λ files. OnOk result (self.new.vector.items ≡ slice_index_or (questions_of files self.old.asking (P.ranges selector.now)).queries number [])) }
        ensures ids { ForSome (H.state shelf.old).files (λ files. OnOk result (self.new.ids.items ≡ ids_at (indexed self.old.engine) (questions_of files self.old.asking (P.ranges selector.now)) number)) }
        ensures works { IfOk result (λ report. Works (record { cells = report.cells; live = report.live; full = report.full } ∷ []) meters.old meters.new) }
        ensures little { RiseLittle 1 self.old.engine.store self.old.engine.store meters.old meters.new }
    {
        let queries = self.asking.queries;
        match fetch_row(shelf, &queries, u64::from(number), &mut self.vector) {
            Ok(()) => {}
            Err(stop) => return Err(stop),
        }
        let report = self.engine.search(
            &mut self.scratch,
            &self.vector,
            self.asking.k,
            self.asking.wanted,
            selector,
            meters,
        );
        // The store tells that its ids are within the range of ids.
        let _stamp = self.engine.store().stamp();
        let scratch = &mut self.scratch;
        set_ids(&mut self.ids, scratch.answers());
        Ok(report)
    }

    /// Answers a query: its row of ids is added to the file, and its line is written.
    fn answer<P: IdSelector, H: Shelf, K: Sink>(
        &mut self,
        selector: &P,
        number: u32,
        shelf: &mut H,
        out: &mut K,
        meters: &mut Meters,
    ) -> Result<(), Halted>
        requires selector { P.can_pass selector.now }
        requires number { number < self.old.asking.queries.checked.rows }
        requires meters { HaveRoom meters.old }
        requires there { IsThere (H.state shelf.old) self.old.asking.out.now }
        requires check { ForSome (H.state shelf.old).files (λ files. IsCheckOf files self.old.asking.queries.role self.old.asking.queries.name.now self.old.asking.queries.checked.d self.old.asking.queries.checked) }
        ensures engine { self.new.engine ≡ self.old.engine }
        ensures asking { self.new.asking ≡ self.old.asking }
        ensures adds { Adds self.old.asking.out.now result (λ files. line_of number (counts_at (indexed self.old.engine) (questions_of files self.old.asking (P.ranges selector.now)) number) ∷ [])
            (λ files. ivecs_row self.old.asking.k (ids_at (indexed self.old.engine) (questions_of files self.old.asking (P.ranges selector.now)) number)) (H.state shelf.old) (H.state shelf.new) (K.state out.old) (K.state out.new) }
        ensures works { ForSome (H.state shelf.old).files (λ files. OnOk result (Works (counts_at (indexed self.old.engine) (questions_of files self.old.asking (P.ranges selector.now)) number ∷ []) meters.old meters.new)) }
        ensures little { RiseLittle 1 self.old.engine.store self.old.engine.store meters.old meters.new }
    {
        let asking = self.asking;
        let report = match self.find(selector, number, shelf, meters) {
            Ok(report) => report,
            Err(stop) => return Err(Halted::Stopped(stop)),
        };
        match add_row(asking.out, &self.ids, shelf) {
            Ok(()) => {}
            Err(halted) => return Err(halted),
        }
        let line = query_done(u64::from(number), report.cells, report.live, report.full);
        write_line(out, &line)
    }

    /// Answers the queries in order.
    fn answer_all<P: IdSelector, H: Shelf, K: Sink>(
        &mut self,
        selector: &P,
        shelf: &mut H,
        out: &mut K,
        meters: &mut Meters,
    ) -> Result<(), Halted>
        requires selector { P.can_pass selector.now }
        requires meters { AreEarly meters.old }
        requires there { IsThere (H.state shelf.old) self.old.asking.out.now }
        requires check { ForSome (H.state shelf.old).files (λ files. IsCheckOf files self.old.asking.queries.role self.old.asking.queries.name.now self.old.asking.queries.checked.d self.old.asking.queries.checked) }
        ensures adds { Adds self.old.asking.out.now result (λ files. lines_below (indexed self.old.engine) (questions_of files self.old.asking (P.ranges selector.now)) self.old.asking.queries.checked.rows)
            (λ files. bytes_below (indexed self.old.engine) (questions_of files self.old.asking (P.ranges selector.now)) self.old.asking.queries.checked.rows) (H.state shelf.old) (H.state shelf.new) (K.state out.old) (K.state out.new) }
        ensures works { ForSome (H.state shelf.old).files (λ files. OnOk result (Works (counts_below (indexed self.old.engine) (questions_of files self.old.asking (P.ranges selector.now)) self.old.asking.queries.checked.rows) meters.old meters.new)) }
    {
        let rows = self.asking.queries.checked.rows;
        for number in 0..rows {
            match self.answer(selector, number, shelf, out, meters) {
                Ok(()) => {}
                Err(halted) => return Err(halted),
            }
        }
        Ok(())
    }

    /// Begins the file, answers the queries in order, and writes a last line.
    pub(crate) fn write<P: IdSelector, H: Shelf, K: Sink>(
        &mut self,
        selector: &P,
        last: &Text,
        shelf: &mut H,
        out: &mut K,
        meters: &mut Meters,
    ) -> Result<(), Halted>
        requires selector { P.can_pass selector.now }
        requires meters { AreEarly meters.old }
        requires check { ForSome (H.state shelf.old).files (λ files. IsCheckOf files self.old.asking.queries.role self.old.asking.queries.name.now self.old.asking.queries.checked.d self.old.asking.queries.checked) }
        ensures makes { (before : ShelfState) (wanted : Files → Result Output InputError) → ReadsWell before (H.state shelf.old)
            → ((files : Files) → before.files ≡ Some files → wanted files ≡ Ok (asked_output self.old.asking.out.now (indexed self.old.engine) (questions_of files self.old.asking (P.ranges selector.now)) self.old.asking.queries.checked.rows last.now))
            → Makes (Some self.old.asking.out.now) result wanted before (H.state shelf.new) (K.state out.old) (K.state out.new) }
        ensures works { ForSome (H.state shelf.old).files (λ files. OnOk result (Works (counts_below (indexed self.old.engine) (questions_of files self.old.asking (P.ranges selector.now)) self.old.asking.queries.checked.rows) meters.old meters.new)) }
    {
        match begin_file(Role::Out, self.asking.out, shelf) {
            Ok(()) => {}
            Err(halted) => return Err(halted),
        }
        match self.answer_all(selector, shelf, out, meters) {
            Ok(()) => write_line(out, last),
            Err(halted) => Err(halted),
        }
    }
}

/// Asks the queries of a search of an index.
fn search_by<S: Shape, H: Shelf, K: Sink>(
    alloc: Global,
    index: Index<S>,
    job: &SearchJob<'_>,
    shelf: &mut H,
    out: &mut K,
    meters: &mut Meters,
) -> Result<(), Halted>
    requires fresh { IsFresh index.book index.store }
    requires meters { AreEarly meters.old }
    ensures makes { Makes (Some job.now.out.now) result (λ files. searched_by files job.now.queries.now job.now.k job.now.wanted job.now.out.now (record { book = index.book; rows = live_rows index.store })) (H.state shelf.old) (H.state shelf.new) (K.state out.old) (K.state out.new) }
    ensures works { ForSome (H.state shelf.old).files (λ files. OnOk result (Works (counts_wanted (searched_by files job.now.queries.now job.now.k job.now.wanted job.now.out.now (record { book = index.book; rows = live_rows index.store }))) meters.old meters.new)) }
{
    let checked = match check_rows(shelf, Role::Queries, job.queries, index.book.d()) {
        Ok(checked) => checked,
        Err(stop) => return Err(Halted::Stopped(stop)),
    };
    let queries = Rows {
        role: Role::Queries,
        name: job.queries,
        checked,
    };
    let asking = Asking {
        queries,
        k: job.k,
        wanted: job.wanted,
        out: job.out,
    };
    let engine = Engine::from_parts(index.book, index.store);
    let Ok(mut searcher) = Searcher::new(alloc, engine, asking) else {
        return Err(Halted::Stopped(Stop::OutOfMemory));
    };
    searcher.write(&AllIds, &search_done(checked.rows), shelf, out, meters)
}

/// Searches an index.
pub(crate) fn search<H: Shelf, K: Sink>(
    alloc: Global,
    job: &SearchJob<'_>,
    shelf: &mut H,
    out: &mut K,
    meters: &mut Meters,
) -> Result<(), Halted>
    requires meters { AreEarly meters.old }
    ensures makes { Makes (Some job.now.out.now) result (λ files. search_output files job.now.index.now job.now.queries.now job.now.k job.now.wanted job.now.out.now) (H.state shelf.old) (H.state shelf.new) (K.state out.old) (K.state out.new) }
    ensures works { ForSome (H.state shelf.old).files (λ files. OnOk result (Works (counts_wanted (search_output files job.now.index.now job.now.queries.now job.now.k job.now.wanted job.now.out.now)) meters.old meters.new)) }
{
    let index = match read_index(alloc, shelf, job.index) {
        Ok(index) => index,
        Err(stop) => return Err(Halted::Stopped(stop)),
    };
    match index {
        AnyIndex::F4444(index) => search_by(alloc, index, job, shelf, out, meters),
        AnyIndex::F555(index) => search_by(alloc, index, job, shelf, out, meters),
        AnyIndex::F664(index) => search_by(alloc, index, job, shelf, out, meters),
        AnyIndex::F88(index) => search_by(alloc, index, job, shelf, out, meters),
    }
}
