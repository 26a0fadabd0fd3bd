//! Queries by radius over the rows of an index.
ghost use Rattle.std.specs.Prelude.{◌≡◌, ◌<◌, ◌≤◌, [], ◌∷◌, ◌++◌, flat_map, map, length, slice_index_or, Ok, IfOk, OnOk};
ghost use Rattle.std.specs.Option.{ForSome};
ghost use Rattle.book_model.specs.Sums.{numbers_below};
ghost use Rattle.best_k.specs.Least.{key_of};
ghost use Rattle.cell_store.specs.State.{live_rows};
ghost use Rattle.index_file.specs.View.{book_of, store_of, view_index, IsFresh};
ghost use Rattle.query_engine.specs.Report.{HaveRoom};
ghost use Rattle.query_engine.specs.State.{rows_of};
ghost use Rattle.radius_scan.specs.Parts.{HasRadiusRoom};
ghost use Rattle.radius_scan.specs.Report.{Finds};
ghost use Rattle.play_script.specs.Texts as texts;
ghost use Rattle.play_script.specs.Play.{hits as hits_of};
ghost use Rattle.adc_inputs.specs.Steps.{Reads, nothing_wrong};
ghost use Rattle.adc_program.specs.Asking.{rows_in, IsChecked};
ghost use Rattle.adc_program.specs.Radii.{radius_asked, lines_of_query, counts_of_query, lines_of_radius, counts_of_radius, lines_over, radius_lines, counts_over, radius_counts};
ghost use Rattle.adc_program.specs.Steps.{Puts, Plays};
ghost use Rattle.adc_program.specs.Work.{Works, AreEarly, RiseLittle};

use crate::halts::Halted;
use crate::lines::write_line;
use crate::play::write_hits;
use adc_inputs::{RadiusJob, Rows, Stop, check_rows, fetch_row, read_index};
use adc_ports::{Shelf, Sink};
use best_k::Pair;
use id_filter::AllIds;
use index_file::{AnyIndex, Index};
use play_script::{Role, radius_done, radius_query_done};
use query_engine::{Engine, Meters, Report};
use radius_scan::{RadiusScratch, radius};
use shape_core::Shape;
use std::alloc::Global;

/// What is asked: queries over the rows of an engine, a squared distance, and how many rows each wants to visit.
#[derive(Drop)]
struct Asked<'a, S: Shape> {
    engine: Engine<S>,
    queries: Rows<'a>,
    radius: u64,
    wanted: u32,
    ghost d: { queries.checked.d ≡ engine.book.d },
    ghost some: { 1 ≤ wanted },
    ghost few: { wanted ≤ 4194304 },
}

/// Asks for all rows of an engine within a radius of a vector. The pairs stand in the scratch.
fn ask<S: Shape>(
    engine: &Engine<S>,
    scratch: &mut RadiusScratch<S>,
    vector: &[u8],
    r: u64,
    wanted: u32,
    meters: &mut Meters,
) -> Report
    requires vector { length vector.now ≡ engine.now.book.d }
    requires room { HasRadiusRoom engine.now.book scratch.old }
    requires rows { length (live_rows engine.now.store) ≤ scratch.old.room }
    requires wanted_some { 1 ≤ wanted }
    requires wanted_few { wanted ≤ 4194304 }
    requires meters { HaveRoom meters.old }
    ensures finds { Finds engine.now.book (radius_asked wanted vector.now) r engine.now.store scratch.new.pairs result meters.old meters.new }
    ensures room { HasRadiusRoom engine.now.book scratch.new }
    ensures rows { scratch.new.room ≡ scratch.old.room }
{
    radius(engine, scratch, vector, r, wanted, &AllIds, meters)
}

/// Asks the query of this number, from 0 on. The pairs stand in the scratch.
fn find<S: Shape, H: Shelf>(
    asked: &Asked<'_, S>,
    number: u32,
    row: &mut [u8],
    scratch: &mut RadiusScratch<S>,
    shelf: &mut H,
    meters: &mut Meters,
) -> Result<Report, Stop>
    requires number { number < asked.now.queries.checked.rows }
    requires row { length row.old ≡ asked.now.engine.book.d }
    requires room { HasRadiusRoom asked.now.engine.book scratch.old }
    requires rows { length (live_rows asked.now.engine.store) ≤ scratch.old.room }
    requires meters { HaveRoom meters.old }
    requires check { ForSome (H.state shelf.old).files (λ files. IsChecked files asked.now.queries) }
    ensures room { HasRadiusRoom asked.now.engine.book scratch.new }
    ensures rows { scratch.new.room ≡ scratch.old.room }
    ensures few { IfOk result (λ report. length scratch.new.pairs ≤ report.live) }
    ensures little { RiseLittle 1 asked.now.engine.store asked.now.engine.store meters.old meters.new }
    ensures found { Reads result (λ files report. Finds asked.now.engine.book (radius_asked asked.now.wanted (slice_index_or (rows_in files asked.now.queries) number [])) asked.now.radius asked.now.engine.store scratch.new.pairs report meters.old meters.new)
        nothing_wrong (H.state shelf.old) (H.state shelf.new) }
{
    match fetch_row(shelf, &asked.queries, u64::from(number), row) {
        Err(stop) => Err(stop),
        Ok(()) => Ok(ask(
            &asked.engine,
            scratch,
            row,
            asked.radius,
            asked.wanted,
            meters,
        )),
    }
}

/// Writes what a query found.
fn write_found<K: Sink>(
    out: &mut K,
    number: u32,
    report: Report,
    hits: &[Pair],
) -> Result<(), Halted>
    requires few { length hits.now ≤ report.live }
    ensures puts { Puts result (texts.radius_query_done number report.cells report.live report.full (length hits.now) ∷ hits_of (map key_of hits.now)) (K.state out.old) (K.state out.new) }
{
    let Report { cells, live, full } = report;
    let line = radius_query_done(u64::from(number), cells, live, full, hits.len() as u32);
    match write_line(out, &line) {
        Ok(()) => write_hits(out, hits),
        Err(halted) => Err(halted),
    }
}

/// Asks the query of this number, and writes what it finds.
fn write_query<S: Shape, H: Shelf, K: Sink>(
    asked: &Asked<'_, S>,
    number: u32,
    row: &mut [u8],
    scratch: &mut RadiusScratch<S>,
    shelf: &mut H,
    out: &mut K,
    meters: &mut Meters,
) -> Result<(), Halted>
    requires number { number < asked.now.queries.checked.rows }
    requires row { length row.old ≡ asked.now.engine.book.d }
    requires room { HasRadiusRoom asked.now.engine.book scratch.old }
    requires rows { length (live_rows asked.now.engine.store) ≤ scratch.old.room }
    requires meters { HaveRoom meters.old }
    requires check { ForSome (H.state shelf.old).files (λ files. IsChecked files asked.now.queries) }
    ensures room { HasRadiusRoom asked.now.engine.book scratch.new }
    ensures rows { scratch.new.room ≡ scratch.old.room }
    ensures little { RiseLittle 1 asked.now.engine.store asked.now.engine.store meters.old meters.new }
    ensures plays { Plays result (λ files. Ok (lines_of_query asked.now.engine.book (rows_of asked.now.engine) asked.now.radius asked.now.wanted (rows_in files asked.now.queries) number))
        (H.state shelf.old) (H.state shelf.new) (K.state out.old) (K.state out.new) }
    ensures works { ForSome (H.state shelf.old).files (λ files. OnOk result (Works (counts_of_query asked.now.engine.book (rows_of asked.now.engine) asked.now.radius asked.now.wanted (rows_in files asked.now.queries) number ∷ []) meters.old meters.new)) }
{
    match find(asked, number, row, scratch, shelf, meters) {
        Ok(report) => write_found(out, number, report, scratch.pairs()),
        Err(stop) => Err(Halted::Stopped(stop)),
    }
}

/// Asks the queries in order, and writes what they find.
fn write_queries<S: Shape, H: Shelf, K: Sink>(
    asked: &Asked<'_, S>,
    row: &mut [u8],
    scratch: &mut RadiusScratch<S>,
    shelf: &mut H,
    out: &mut K,
    meters: &mut Meters,
) -> Result<(), Halted>
    requires row { length row.old ≡ asked.now.engine.book.d }
    requires room { HasRadiusRoom asked.now.engine.book scratch.old }
    requires rows { length (live_rows asked.now.engine.store) ≤ scratch.old.room }
    requires meters { AreEarly meters.old }
    requires check { ForSome (H.state shelf.old).files (λ files. IsChecked files asked.now.queries) }
    ensures plays { Plays result (λ files. Ok (flat_map (lines_of_query asked.now.engine.book (rows_of asked.now.engine) asked.now.radius asked.now.wanted (rows_in files asked.now.queries)) (numbers_below asked.now.queries.checked.rows)))
        (H.state shelf.old) (H.state shelf.new) (K.state out.old) (K.state out.new) }
    ensures works { ForSome (H.state shelf.old).files (λ files. OnOk result (Works (counts_of_radius asked.now.engine.book (rows_of asked.now.engine) asked.now.radius asked.now.wanted (rows_in files asked.now.queries)) meters.old meters.new)) }
{
    for number in 0..asked.queries.checked.rows {
        match write_query(asked, number, row, scratch, shelf, out, meters) {
            Ok(()) => {}
            Err(halted) => return Err(halted),
        }
    }
    Ok(())
}

/// Writes the lines of all queries, and the last line.
fn write_all<S: Shape, H: Shelf, K: Sink>(
    asked: &Asked<'_, S>,
    row: &mut [u8],
    scratch: &mut RadiusScratch<S>,
    shelf: &mut H,
    out: &mut K,
    meters: &mut Meters,
) -> Result<(), Halted>
    requires row { length row.old ≡ asked.now.engine.book.d }
    requires room { HasRadiusRoom asked.now.engine.book scratch.old }
    requires rows { length (live_rows asked.now.engine.store) ≤ scratch.old.room }
    requires meters { AreEarly meters.old }
    requires check { ForSome (H.state shelf.old).files (λ files. IsChecked files asked.now.queries) }
    ensures plays { Plays result (λ files. Ok (lines_of_radius asked.now.engine.book (rows_of asked.now.engine) asked.now.radius asked.now.wanted (rows_in files asked.now.queries))) (H.state shelf.old) (H.state shelf.new) (K.state out.old) (K.state out.new) }
    ensures works { ForSome (H.state shelf.old).files (λ files. OnOk result (Works (counts_of_radius asked.now.engine.book (rows_of asked.now.engine) asked.now.radius asked.now.wanted (rows_in files asked.now.queries)) meters.old meters.new)) }
{
    match write_queries(asked, row, scratch, shelf, out, meters) {
        Ok(()) => write_line(out, &radius_done(asked.queries.checked.rows)),
        Err(halted) => Err(halted),
    }
}

/// Makes room for a query and for what it finds, and then writes the lines of all queries and the last line.
fn print_asked<S: Shape, H: Shelf, K: Sink>(
    alloc: Global,
    asked: &Asked<'_, S>,
    shelf: &mut H,
    out: &mut K,
    meters: &mut Meters,
) -> Result<(), Halted>
    requires most { asked.now.engine.store.most ≤ 4194304 }
    requires meters { AreEarly meters.old }
    requires check { ForSome (H.state shelf.old).files (λ files. IsChecked files asked.now.queries) }
    ensures plays { Plays result (λ files. Ok (lines_of_radius asked.now.engine.book (rows_of asked.now.engine) asked.now.radius asked.now.wanted (rows_in files asked.now.queries))) (H.state shelf.old) (H.state shelf.new) (K.state out.old) (K.state out.new) }
    ensures works { ForSome (H.state shelf.old).files (λ files. OnOk result (Works (counts_of_radius asked.now.engine.book (rows_of asked.now.engine) asked.now.radius asked.now.wanted (rows_in files asked.now.queries)) meters.old meters.new)) }
{
    let Ok(mut row) = vec![in alloc; 0u8; asked.queries.checked.d as usize] else {
        return Err(Halted::Stopped(Stop::OutOfMemory));
    };
    let live = asked.engine.store().live();
    let Ok(mut scratch) = RadiusScratch::with_room(alloc, asked.engine.book(), live) else {
        return Err(Halted::Stopped(Stop::OutOfMemory));
    };
    write_all(asked, &mut row, &mut scratch, shelf, out, meters)
}

/// Checks the queries against an index, and prints what they find.
fn print_by<S: Shape, H: Shelf, K: Sink>(
    alloc: Global,
    index: Index<S>,
    job: &RadiusJob<'_>,
    shelf: &mut H,
    out: &mut K,
    meters: &mut Meters,
) -> Result<(), Halted>
    requires fresh { IsFresh index.book index.store }
    requires meters { AreEarly meters.old }
    ensures plays { Plays result (λ files. lines_over files job.now.queries.now job.now.radius job.now.wanted (record { book = index.book; rows = live_rows index.store })) (H.state shelf.old) (H.state shelf.new) (K.state out.old) (K.state out.new) }
    ensures works { ForSome (H.state shelf.old).files (λ files. OnOk result (Works (counts_over files job.now.queries.now job.now.radius job.now.wanted (record { book = index.book; rows = live_rows index.store })) meters.old meters.new)) }
{
    let checked = match check_rows(shelf, Role::Queries, job.queries, index.book.d()) {
        Ok(checked) => checked,
        Err(stop) => return Err(Halted::Stopped(stop)),
    };
    let asked = Asked {
        engine: Engine::from_parts(index.book, index.store),
        queries: Rows {
            role: Role::Queries,
            name: job.queries,
            checked,
        },
        radius: job.radius,
        wanted: job.wanted,
    };
    print_asked(alloc, &asked, shelf, out, meters)
}

/// Prints the visited rows of an index within a squared distance of each query.
pub(crate) fn print_radius<H: Shelf, K: Sink>(
    alloc: Global,
    job: &RadiusJob<'_>,
    shelf: &mut H,
    out: &mut K,
    meters: &mut Meters,
) -> Result<(), Halted>
    requires { AreEarly meters.old }
    ensures plays { Plays result (λ files. radius_lines files job.now.index.now job.now.queries.now job.now.radius job.now.wanted) (H.state shelf.old) (H.state shelf.new) (K.state out.old) (K.state out.new) }
    ensures works { ForSome (H.state shelf.old).files (λ files. OnOk result (Works (radius_counts files job.now.index.now job.now.queries.now job.now.radius job.now.wanted) meters.old meters.new)) }
{
    let index = match read_index(alloc, shelf, job.index) {
        Ok(index) => index,
        Err(stop) => return Err(Halted::Stopped(stop)),
    };
    match index {
        AnyIndex::F4444(index) => print_by(alloc, index, job, shelf, out, meters),
        AnyIndex::F555(index) => print_by(alloc, index, job, shelf, out, meters),
        AnyIndex::F664(index) => print_by(alloc, index, job, shelf, out, meters),
        AnyIndex::F88(index) => print_by(alloc, index, job, shelf, out, meters),
    }
}
