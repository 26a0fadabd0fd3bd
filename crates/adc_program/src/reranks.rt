//! Reranking: what each query finds in an index, by the exact distances of the base rows.
ghost use Rattle.std.specs.Prelude.{◌≡◌, ◌≢◌, ◌≤◌, ◌<◌, [], ◌∷◌, length, map, filter, nat_lt, Some, Ok, Result, IfOk, OnOk, All};
ghost use Rattle.std.specs.Option.{ForSome};
ghost use Rattle.adc_ports.specs.Files.{Files};
ghost use Rattle.adc_ports.specs.States.{ShelfState, IsThere};
ghost use Rattle.vec_files.specs.Rows.{ivecs_row};
ghost use Rattle.book_model.specs.declared.limits.TheConstants.{MAX_D};
ghost use Rattle.flat_truth.specs.Flat.{padded, rerank};
ghost use Rattle.id_filter.specs.Allowed.{ids_in};
ghost use Rattle.cell_store.specs.State.{live_rows};
ghost use Rattle.index_file.specs.View.{book_of, store_of, view_index, IsFresh};
ghost use Rattle.query_engine.specs.Report.{HaveRoom};
ghost use Rattle.play_script.specs.Play.{query_line as line_of};
ghost use Rattle.adc_inputs.specs.declared.stop.InputError.{InputError};
ghost use Rattle.adc_inputs.specs.Steps.{Reads, nothing_wrong};
ghost use Rattle.adc_program.specs.Asked.{indexed, questions_of};
ghost use Rattle.adc_program.specs.Asking.{rows_in, IsChecked};
ghost use Rattle.adc_program.specs.Opened.{AreChecked};
ghost use Rattle.adc_program.specs.Outputs.{Output};
ghost use Rattle.adc_program.specs.Reranks.{reranked_at, reranked_below, reranked, base_and_queries, reranked_by, rerank_output};
ghost use Rattle.adc_program.specs.Rowing.{Adds};
ghost use Rattle.adc_program.specs.Searches.{counts_at, lines_below, counts_below};
ghost use Rattle.adc_program.specs.Steps.{ReadsWell, Makes, counts_wanted};
ghost use Rattle.adc_program.specs.Work.{Works, AreEarly, RiseLittle};

use crate::exacts::set_numbers;
use crate::halts::Halted;
use crate::lines::write_line;
use crate::play::MAX_ID;
use crate::player::Inputs;
use crate::rowing::{add_row, begin_file};
use crate::searcher::{Asking, Searcher};
use adc_inputs::{RerankJob, Rows, Stop, check_rows, fetch_row, of_rows, read_index};
use adc_ports::{Memory, Shelf, Sink};
use flat_truth::rerank;
use id_filter::{AllIds, IdSelector, add_ids};
use index_file::{AnyIndex, Index};
use play_script::{Role, query_done, rerank_done};
use query_engine::{Engine, Meters, Report};
use shape_core::Shape;
use std::alloc::{AllocError, Global};

/// A reranking as it stands: the search that finds the ids, the base, how many of them are written, and room for these.
#[derive(Drop)]
struct Reranker<'a, S: Shape> {
    searcher: Searcher<'a, S>,
    base: Rows<'a>,
    k: u32,
    numbers: Vec<i32>,
    ghost d: { base.checked.d ≡ searcher.engine.book.d },
    ghost some: { 1 ≤ k },
    ghost few: { k ≤ 1000 },
    ghost room: { length numbers.items ≡ k },
    ghost apart: { base.name.now ≢ searcher.asking.out.now },
}

/// Those of some numbers that number one of so many rows, in their order.
fn rows_among(alloc: Global, numbers: &[i32], rows: u32) -> Result<Vec<u32>, AllocError>
    ensures rows { IfOk result (λ ids. ids.items ≡ filter (λ id. nat_lt id rows) (ids_in numbers.now)) }
    ensures within { IfOk result (λ ids. All (λ id. id < rows) ids.items) }
{
    let mut ids = Vec::new(alloc);
    add_ids(&mut ids, numbers)?;
    ids.retain(|id| *id < rows);
    Ok(ids)
}

/// Sets a row of numbers: of the ids that were found those of the nearest base rows in order, and -1 behind them.
fn rank<H: Shelf>(
    alloc: Global,
    base: &Rows<'_>,
    query: &[u8],
    found: &[i32],
    numbers: &mut [i32],
    shelf: &mut H,
) -> Result<(), Stop>
    requires query { length query.now ≡ base.now.checked.d }
    requires few { length numbers.old ≤ 1000 }
    requires base { ForSome (H.state shelf.old).files (λ files. IsChecked files base.now) }
    ensures reads { Reads result (λ files _. numbers.new ≡ padded (length numbers.old) (map (λ pair. pair.1) (rerank (rows_in files base.now) query.now (ids_in found.now) (length numbers.old)))) nothing_wrong (H.state shelf.old) (H.state shelf.new) }
{
    let Ok(ids) = rows_among(alloc, found, base.checked.rows) else {
        return Err(Stop::OutOfMemory);
    };
    let k = numbers.len() as u32;
    match rerank(alloc, shelf, base.name, base.checked, query, &ids, k) {
        Ok(nearest) => {
            set_numbers(numbers, nearest.pairs());
            Ok(())
        }
        Err(error) => Err(of_rows(base.role, error)),
    }
}

impl<'a, S: Shape> Reranker<'a, S> {
    /// A reranking over an engine and a base.
    ///
    /// # Errors
    /// `Memory` where memory runs out.
    fn new(
        alloc: Global,
        engine: Engine<S>,
        asking: Asking<'a>,
        base: Rows<'a>,
        k: u32,
    ) -> Result<Reranker<'a, S>, Memory>
        requires d { asking.queries.checked.d ≡ engine.book.d }
        requires base_d { base.checked.d ≡ engine.book.d }
        requires some { 1 ≤ k }
        requires few { k ≤ 1000 }
        requires apart { base.name.now ≢ asking.out.now }
        ensures engine { IfOk result (λ it. it.searcher.engine ≡ engine) }
        ensures asking { IfOk result (λ it. it.searcher.asking ≡ asking.entry) }
        ensures base { IfOk result (λ it. it.base ≡ base.entry) }
        ensures k { IfOk result (λ it. it.k ≡ k) }
    {
        let Ok(numbers) = vec![in alloc; 0i32; k as usize] else {
            return Err(Memory);
        };
        let searcher = match Searcher::new(alloc, engine, asking) {
            Ok(searcher) => searcher,
            Err(Memory) => return Err(Memory),
        };
        Ok(Reranker {
            searcher,
            base,
            k,
            numbers,
        })
    }

    /// Reads a query, asks it, and ranks what it finds. The numbers then stand in their room.
    fn find<P: IdSelector, H: Shelf>(
        &mut self,
        alloc: Global,
        selector: &P,
        number: u32,
        shelf: &mut H,
        meters: &mut Meters,
    ) -> Result<Report, Stop>
        requires selector { P.can_pass selector.now }
        requires number { number < self.old.searcher.asking.queries.checked.rows }
        requires meters { HaveRoom meters.old }
        requires base { ForSome (H.state shelf.old).files (λ files. IsChecked files self.old.base) }
        requires queries { ForSome (H.state shelf.old).files (λ files. IsChecked files self.old.searcher.asking.queries) }
        ensures engine { self.new.searcher.engine ≡ self.old.searcher.engine }
        ensures asking { self.new.searcher.asking ≡ self.old.searcher.asking }
        ensures base { self.new.base ≡ self.old.base }
        ensures k { self.new.k ≡ self.old.k }
        ensures counts { Reads result (λ files report. counts_at (indexed self.old.searcher.engine) (questions_of files self.old.searcher.asking (P.ranges selector.now)) number ≡ record { cells = report.cells; live = report.live; full = report.full }) nothing_wrong (H.state shelf.old) (H.state shelf.new) }
        ensures numbers { ForSome (H.state shelf.old).files (λ files. OnOk result (self.new.numbers.items ≡ reranked_at (indexed self.old.searcher.engine) (questions_of files self.old.searcher.asking (P.ranges selector.now)) (rows_in files self.old.base) self.old.k number)) }
        ensures works { IfOk result (λ report. Works (record { cells = report.cells; live = report.live; full = report.full } ∷ []) meters.old meters.new) }
        ensures little { RiseLittle 1 self.old.searcher.engine.store self.old.searcher.engine.store meters.old meters.new }
    {
        let report = match self.searcher.find(selector, number, shelf, meters) {
            Ok(report) => report,
            Err(stop) => return Err(stop),
        };
        let searcher = &self.searcher;
        match rank(
            alloc,
            &self.base,
            &searcher.vector,
            &searcher.ids,
            &mut self.numbers,
            shelf,
        ) {
            Ok(()) => Ok(report),
            Err(stop) => Err(stop),
        }
    }

    /// Answers a query: its row of numbers is added to the file, and its line is written.
    fn answer<P: IdSelector, H: Shelf, K: Sink>(
        &mut self,
        alloc: Global,
        selector: &P,
        number: u32,
        shelf: &mut H,
        out: &mut K,
        meters: &mut Meters,
    ) -> Result<(), Halted>
        requires selector { P.can_pass selector.now }
        requires number { number < self.old.searcher.asking.queries.checked.rows }
        requires meters { HaveRoom meters.old }
        requires there { IsThere (H.state shelf.old) self.old.searcher.asking.out.now }
        requires base { ForSome (H.state shelf.old).files (λ files. IsChecked files self.old.base) }
        requires queries { ForSome (H.state shelf.old).files (λ files. IsChecked files self.old.searcher.asking.queries) }
        ensures engine { self.new.searcher.engine ≡ self.old.searcher.engine }
        ensures asking { self.new.searcher.asking ≡ self.old.searcher.asking }
        ensures base { self.new.base ≡ self.old.base }
        ensures k { self.new.k ≡ self.old.k }
        ensures adds { Adds self.old.searcher.asking.out.now result (λ files. line_of number (counts_at (indexed self.old.searcher.engine) (questions_of files self.old.searcher.asking (P.ranges selector.now)) number) ∷ [])
            (λ files. ivecs_row self.old.k (reranked_at (indexed self.old.searcher.engine) (questions_of files self.old.searcher.asking (P.ranges selector.now)) (rows_in files self.old.base) self.old.k number)) (H.state shelf.old) (H.state shelf.new) (K.state out.old) (K.state out.new) }
        ensures works { ForSome (H.state shelf.old).files (λ files. OnOk result (Works (counts_at (indexed self.old.searcher.engine) (questions_of files self.old.searcher.asking (P.ranges selector.now)) number ∷ []) meters.old meters.new)) }
        ensures little { RiseLittle 1 self.old.searcher.engine.store self.old.searcher.engine.store meters.old meters.new }
    {
        let name = self.searcher.asking.out;
        let report = match self.find(alloc, selector, number, shelf, meters) {
            Ok(report) => report,
            Err(stop) => return Err(Halted::Stopped(stop)),
        };
        match add_row(name, &self.numbers, shelf) {
            Ok(()) => {}
            Err(halted) => return Err(halted),
        }
        let line = query_done(u64::from(number), report.cells, report.live, report.full);
        write_line(out, &line)
    }

    /// Answers the queries in order.
    fn answer_all<P: IdSelector, H: Shelf, K: Sink>(
        &mut self,
        alloc: Global,
        selector: &P,
        shelf: &mut H,
        out: &mut K,
        meters: &mut Meters,
    ) -> Result<(), Halted>
        requires selector { P.can_pass selector.now }
        requires meters { AreEarly meters.old }
        requires there { IsThere (H.state shelf.old) self.old.searcher.asking.out.now }
        requires base { ForSome (H.state shelf.old).files (λ files. IsChecked files self.old.base) }
        requires queries { ForSome (H.state shelf.old).files (λ files. IsChecked files self.old.searcher.asking.queries) }
        ensures adds { Adds self.old.searcher.asking.out.now result (λ files. lines_below (indexed self.old.searcher.engine) (questions_of files self.old.searcher.asking (P.ranges selector.now)) self.old.searcher.asking.queries.checked.rows)
            (λ files. reranked_below (indexed self.old.searcher.engine) (questions_of files self.old.searcher.asking (P.ranges selector.now)) (rows_in files self.old.base) self.old.k self.old.searcher.asking.queries.checked.rows) (H.state shelf.old) (H.state shelf.new) (K.state out.old) (K.state out.new) }
        ensures works { ForSome (H.state shelf.old).files (λ files. OnOk result (Works (counts_below (indexed self.old.searcher.engine) (questions_of files self.old.searcher.asking (P.ranges selector.now)) self.old.searcher.asking.queries.checked.rows) meters.old meters.new)) }
    {
        let rows = self.searcher.asking.queries.checked.rows;
        for number in 0..rows {
            match self.answer(alloc, selector, number, shelf, out, meters) {
                Ok(()) => {}
                Err(halted) => return Err(halted),
            }
        }
        Ok(())
    }

    /// Begins the file, answers the queries in order, and writes a last line.
    fn write<P: IdSelector, H: Shelf, K: Sink>(
        &mut self,
        alloc: Global,
        selector: &P,
        shelf: &mut H,
        out: &mut K,
        meters: &mut Meters,
    ) -> Result<(), Halted>
        requires selector { P.can_pass selector.now }
        requires meters { AreEarly meters.old }
        requires base { ForSome (H.state shelf.old).files (λ files. IsChecked files self.old.base) }
        requires queries { ForSome (H.state shelf.old).files (λ files. IsChecked files self.old.searcher.asking.queries) }
        ensures makes { (before : ShelfState) (wanted : Files → Result Output InputError) → ReadsWell before (H.state shelf.old)
            → ((files : Files) → before.files ≡ Some files → wanted files ≡ Ok (reranked self.old.searcher.asking.out.now (indexed self.old.searcher.engine) (questions_of files self.old.searcher.asking (P.ranges selector.now)) (rows_in files self.old.base) self.old.k self.old.searcher.asking.queries.checked.rows))
            → Makes (Some self.old.searcher.asking.out.now) result wanted before (H.state shelf.new) (K.state out.old) (K.state out.new) }
        ensures works { ForSome (H.state shelf.old).files (λ files. OnOk result (Works (counts_below (indexed self.old.searcher.engine) (questions_of files self.old.searcher.asking (P.ranges selector.now)) self.old.searcher.asking.queries.checked.rows) meters.old meters.new)) }
    {
        let asking = self.searcher.asking;
        match begin_file(Role::Out, asking.out, shelf) {
            Ok(()) => {}
            Err(halted) => return Err(halted),
        }
        match self.answer_all(alloc, selector, shelf, out, meters) {
            Ok(()) => write_line(out, &rerank_done(asking.queries.checked.rows)),
            Err(halted) => Err(halted),
        }
    }
}

/// Checks the base, and then the queries, all of so many components.
fn open<'a, H: Shelf>(job: &RerankJob<'a>, d: u32, shelf: &mut H) -> Result<Inputs<'a>, Stop>
    requires some { 1 ≤ d }
    requires few { d ≤ MAX_D }
    ensures base { IfOk result (λ inputs. inputs.base.name.now ≡ job.now.base.now) }
    ensures queries { IfOk result (λ inputs. inputs.queries.name.now ≡ job.now.queries.now) }
    ensures base_d { IfOk result (λ inputs. inputs.base.checked.d ≡ d) }
    ensures queries_d { IfOk result (λ inputs. inputs.queries.checked.d ≡ d) }
    ensures reads { Reads result (λ files inputs. AreChecked files (base_and_queries files job.now.base.now job.now.queries.now d) inputs.base inputs.queries) (λ files. base_and_queries files job.now.base.now job.now.queries.now d) (H.state shelf.old) (H.state shelf.new) }
{
    let base = match check_rows(shelf, Role::Base, job.base, d) {
        Ok(checked) => Rows {
            role: Role::Base,
            name: job.base,
            checked,
        },
        Err(stop) => return Err(stop),
    };
    let queries = match check_rows(shelf, Role::Queries, job.queries, d) {
        Ok(checked) => Rows {
            role: Role::Queries,
            name: job.queries,
            checked,
        },
        Err(stop) => return Err(stop),
    };
    Ok(Inputs { base, queries })
}

/// Reranks the answers of an index.
fn rerank_by<S: Shape, H: Shelf, K: Sink>(
    alloc: Global,
    index: Index<S>,
    job: &RerankJob<'_>,
    shelf: &mut H,
    out: &mut K,
    meters: &mut Meters,
) -> Result<(), Halted>
    requires fresh { IsFresh index.book index.store }
    requires meters { AreEarly meters.old }
    ensures makes { Makes (Some job.now.out.now) result (λ files. reranked_by files job.now.base.now job.now.queries.now job.now.found job.now.k job.now.wanted job.now.out.now (record { book = index.book; rows = live_rows index.store })) (H.state shelf.old) (H.state shelf.new) (K.state out.old) (K.state out.new) }
    ensures works { ForSome (H.state shelf.old).files (λ files. OnOk result (Works (counts_wanted (reranked_by files job.now.base.now job.now.queries.now job.now.found job.now.k job.now.wanted job.now.out.now (record { book = index.book; rows = live_rows index.store }))) meters.old meters.new)) }
{
    let inputs = match open(job, index.book.d(), shelf) {
        Ok(inputs) => inputs,
        Err(stop) => return Err(Halted::Stopped(stop)),
    };
    let asking = Asking {
        queries: inputs.queries,
        k: job.found,
        wanted: job.wanted,
        out: job.out,
    };
    let engine = Engine::from_parts(index.book, index.store);
    let Ok(mut reranker) = Reranker::new(alloc, engine, asking, inputs.base, job.k) else {
        return Err(Halted::Stopped(Stop::OutOfMemory));
    };
    reranker.write(alloc, &AllIds, shelf, out, meters)
}

/// Writes the ids that each query finds in an index by the exact distances of their base rows.
pub(crate) fn write_reranked<H: Shelf, K: Sink>(
    alloc: Global,
    job: &RerankJob<'_>,
    shelf: &mut H,
    out: &mut K,
    meters: &mut Meters,
) -> Result<(), Halted>
    requires meters { AreEarly meters.old }
    ensures makes { Makes (Some job.now.out.now) result (λ files. rerank_output files job.now.index.now job.now.base.now job.now.queries.now job.now.found job.now.k job.now.wanted job.now.out.now) (H.state shelf.old) (H.state shelf.new) (K.state out.old) (K.state out.new) }
    ensures works { ForSome (H.state shelf.old).files (λ files. OnOk result (Works (counts_wanted (rerank_output files job.now.index.now job.now.base.now job.now.queries.now job.now.found job.now.k job.now.wanted job.now.out.now)) meters.old meters.new)) }
{
    let index = match read_index(alloc, shelf, job.index) {
        Ok(index) => index,
        Err(stop) => return Err(Halted::Stopped(stop)),
    };
    match index {
        AnyIndex::F4444(index) => rerank_by(alloc, index, job, shelf, out, meters),
        AnyIndex::F555(index) => rerank_by(alloc, index, job, shelf, out, meters),
        AnyIndex::F664(index) => rerank_by(alloc, index, job, shelf, out, meters),
        AnyIndex::F88(index) => rerank_by(alloc, index, job, shelf, out, meters),
    }
}
