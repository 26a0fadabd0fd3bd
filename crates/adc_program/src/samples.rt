//! A sample: its rows are inserted, and what its queries find is printed.
ghost use Rattle.std.specs.Prelude.{◌≡◌, ◌*◌, ◌^◌, ◌<◌, ◌≤◌, [], ◌∷◌, ◌++◌, flat_map, map, length, Ok, IfOk, OnOk};
ghost use Rattle.book_model.specs.Sums.{numbers_below};
ghost use Rattle.best_k.specs.Least.{key_of};
ghost use Rattle.query_engine.specs.Parts.{HasRoomFor};
ghost use Rattle.query_engine.specs.State.{rows_of};
ghost use Rattle.adc_ports.specs.States.{ShelfState};
ghost use Rattle.play_script.specs.Texts as texts;
ghost use Rattle.adc_program.specs.Rows.{cell_count};
ghost use Rattle.adc_program.specs.Samples.{sample_rows, sample_lines, sample_counts, lines_of_sample, counts_of_sample, asked_lines, asked_counts, sample_asked, first_lines};
ghost use Rattle.adc_program.specs.Steps.{Puts, Plays};
ghost use Rattle.adc_program.specs.Work.{Works, IsPlain, AreEarly, IsFarFromEnd, RiseLittle};

use crate::adding::add;
use crate::coded::CodeEngine;
use crate::halts::Halted;
use crate::lines::write_line;
use crate::play::ask;
use adc_inputs::{SampleJob, Stop, book_of};
use adc_ports::{Memory, Sink};
use best_k::Pair;
use codebook_core::{AnyBook, Codebook};
use play_script::{Sample, best_line, cells_line, generate, query_done, sample_end, sample_start};
use query_engine::{Engine, Meters, Scratch};
use shape_core::Shape;
use std::alloc::Global;

/// Inserts the rows of a sample in order.
fn insert_rows<S: Shape>(
    engine: &mut Engine<S>,
    sample: &Sample,
    job: SampleJob,
) -> Result<(), Memory>
    requires sample { sample.now ≡ record { start = job.start; rows = job.rows } }
    requires d { engine.old.book.d ≡ 128 }
    requires empty { rows_of engine.old ≡ [] }
    requires stamp { engine.old.store.stamp ≡ 0 }
    requires plain { IsPlain engine.old.store }
    ensures book { engine.new.book ≡ engine.old.book }
    ensures stamp { engine.new.store.stamp ≤ 2 ^ 61 }
    ensures rows { OnOk result (rows_of engine.new ≡ sample_rows engine.old.book sample.now) }
{
    for n in 0..job.rows {
        match add(engine, n, sample.row(n)) {
            Ok(()) => {}
            Err(Memory) => return Err(Memory),
        }
    }
    Ok(())
}

/// Writes the line of the first answer, if there is one.
fn write_first<K: Sink>(out: &mut K, hits: &[Pair]) -> Result<(), Halted>
    ensures puts { Puts result (first_lines (map key_of hits.now)) (K.state out.old) (K.state out.new) }
{
    match hits.first() {
        Some(pair) => write_line(out, &best_line(pair.id, pair.distance)),
        None => Ok(()),
    }
}

/// Asks a query of a sample, and writes what it finds.
fn write_query<S: Shape, K: Sink>(
    engine: &Engine<S>,
    scratch: &mut Scratch<S>,
    sample: &Sample,
    job: SampleJob,
    number: u32,
    out: &mut K,
    meters: &mut Meters,
) -> Result<(), Halted>
    requires sample { sample.now ≡ record { start = job.start; rows = job.rows } }
    requires number { number < 16 }
    requires d { engine.now.book.d ≡ 128 }
    requires room { HasRoomFor engine.now.book scratch.old }
    requires best { scratch.old.best.room ≡ 1000 }
    requires far { IsFarFromEnd engine.now.store meters.old }
    ensures room { HasRoomFor engine.now.book scratch.new }
    ensures best { scratch.new.best.room ≡ 1000 }
    ensures puts { Puts result (asked_lines engine.now.book sample.now (rows_of engine.now) number) (K.state out.old) (K.state out.new) }
    ensures works { Works (asked_counts engine.now.book sample.now (rows_of engine.now) number ∷ []) meters.old meters.new }
    ensures little { RiseLittle 1 engine.now.store engine.now.store meters.old meters.new }
{
    let wanted = job.rows.min(100);
    let report = ask(
        engine,
        scratch,
        sample.query(number),
        10,
        wanted,
        None,
        meters,
    );
    let line = query_done(u64::from(number), report.cells, report.live, report.full);
    match write_line(out, &line) {
        Ok(()) => write_first(out, scratch.answers()),
        Err(halted) => Err(halted),
    }
}

/// Asks the queries of a sample in order.
fn write_queries<S: Shape, K: Sink>(
    engine: &Engine<S>,
    scratch: &mut Scratch<S>,
    sample: &Sample,
    job: SampleJob,
    out: &mut K,
    meters: &mut Meters,
) -> Result<(), Halted>
    requires sample { sample.now ≡ record { start = job.start; rows = job.rows } }
    requires d { engine.now.book.d ≡ 128 }
    requires room { HasRoomFor engine.now.book scratch.old }
    requires best { scratch.old.best.room ≡ 1000 }
    requires stamp { engine.now.store.stamp ≤ 2 ^ 61 }
    requires meters { AreEarly meters.old }
    ensures puts { Puts result (flat_map (asked_lines engine.now.book sample.now (rows_of engine.now)) (numbers_below 16)) (K.state out.old) (K.state out.new) }
    ensures works { OnOk result (Works (map (asked_counts engine.now.book sample.now (rows_of engine.now)) (numbers_below 16)) meters.old meters.new) }
{
    for number in 0..16 {
        match write_query(engine, scratch, sample, job, number, out, meters) {
            Ok(()) => {}
            Err(halted) => return Err(halted),
        }
    }
    Ok(())
}

/// Writes the lines of a sample whose rows were inserted.
fn write_sample<S: Shape, K: Sink>(
    engine: &Engine<S>,
    scratch: &mut Scratch<S>,
    sample: &Sample,
    job: SampleJob,
    out: &mut K,
    meters: &mut Meters,
) -> Result<(), Halted>
    requires sample { sample.now ≡ record { start = job.start; rows = job.rows } }
    requires d { engine.now.book.d ≡ 128 }
    requires rows { rows_of engine.now ≡ sample_rows engine.now.book sample.now }
    requires room { HasRoomFor engine.now.book scratch.old }
    requires best { scratch.old.best.room ≡ 1000 }
    requires stamp { engine.now.store.stamp ≤ 2 ^ 61 }
    requires meters { AreEarly meters.old }
    ensures puts { Puts result (sample_lines engine.now.book sample.now) (K.state out.old) (K.state out.new) }
    ensures works { OnOk result (Works (sample_counts engine.now.book sample.now) meters.old meters.new) }
{
    match write_head(engine, job, out) {
        Ok(()) => {}
        Err(halted) => return Err(halted),
    }
    match write_queries(engine, scratch, sample, job, out, meters) {
        Ok(()) => write_line(out, &sample_end()),
        Err(halted) => Err(halted),
    }
}

/// Writes the first two lines of a sample.
#[tactic(auto, using(crate::proofs::Cells::cell_count_is))]
fn write_head<S: Shape, K: Sink>(
    engine: &Engine<S>,
    job: SampleJob,
    out: &mut K,
) -> Result<(), Halted>
    ensures puts { Puts result (texts.sample_start job.start job.rows ∷ texts.cells_line (cell_count (engine.now.book.k0 * engine.now.book.k1) (rows_of engine.now)) ∷ []) (K.state out.old) (K.state out.new) }
{
    // The book tells that the store has its cells.
    let _book = engine.book();
    match write_line(out, &sample_start(job.start, job.rows)) {
        Ok(()) => write_line(out, &cells_line(engine.store().used())),
        Err(halted) => Err(halted),
    }
}

/// Inserts the rows of a sample into an engine without rows, and writes the lines of the sample.
fn write_inserted<S: Shape, K: Sink>(
    engine: &mut Engine<S>,
    scratch: &mut Scratch<S>,
    sample: &Sample,
    job: SampleJob,
    out: &mut K,
    meters: &mut Meters,
) -> Result<(), Halted>
    requires sample { sample.now ≡ record { start = job.start; rows = job.rows } }
    requires d { engine.old.book.d ≡ 128 }
    requires empty { rows_of engine.old ≡ [] }
    requires stamp { engine.old.store.stamp ≡ 0 }
    requires plain { IsPlain engine.old.store }
    requires room { HasRoomFor engine.old.book scratch.old }
    requires best { scratch.old.best.room ≡ 1000 }
    requires meters { AreEarly meters.old }
    ensures plays { (shelf : ShelfState) → Plays result (λ files. Ok (sample_lines engine.old.book sample.now)) shelf shelf (K.state out.old) (K.state out.new) }
    ensures works { OnOk result (Works (sample_counts engine.old.book sample.now) meters.old meters.new) }
{
    match insert_rows(engine, sample, job) {
        Ok(()) => write_sample(engine, scratch, sample, job, out, meters),
        Err(Memory) => Err(Halted::Stopped(Stop::OutOfMemory)),
    }
}

/// Prints a sample by its book.
fn print_by<S: Shape, K: Sink>(
    alloc: Global,
    book: Codebook<S>,
    sample: &Sample,
    job: SampleJob,
    out: &mut K,
    meters: &mut Meters,
) -> Result<(), Halted>
    requires sample { sample.now ≡ record { start = job.start; rows = job.rows } }
    requires d { book.d ≡ 128 }
    requires meters { AreEarly meters.old }
    ensures plays { (shelf : ShelfState) → Plays result (λ files. Ok (sample_lines book sample.now)) shelf shelf (K.state out.old) (K.state out.new) }
    ensures works { OnOk result (Works (sample_counts book sample.now) meters.old meters.new) }
{
    let Ok(made) = CodeEngine::new(alloc, book) else {
        return Err(Halted::Stopped(Stop::OutOfMemory));
    };
    let CodeEngine {
        mut engine,
        mut scratch,
    } = made;
    write_inserted(&mut engine, &mut scratch, sample, job, out, meters)
}

/// Makes a sample, inserts its rows, asks its queries and prints what they find.
pub(crate) fn print_sample<K: Sink>(
    alloc: Global,
    job: SampleJob,
    out: &mut K,
    meters: &mut Meters,
) -> Result<(), Halted>
    requires { AreEarly meters.old }
    ensures plays { (shelf : ShelfState) → Plays result (λ files. lines_of_sample (record { start = job.start; rows = job.rows })) shelf shelf (K.state out.old) (K.state out.new) }
    ensures works { OnOk result (Works (counts_of_sample (record { start = job.start; rows = job.rows })) meters.old meters.new) }
{
    let Ok(sample) = generate(alloc, job.start, job.rows) else {
        return Err(Halted::Stopped(Stop::OutOfMemory));
    };
    let book = match book_of(alloc, sample.book()) {
        Ok(book) => book,
        Err(stop) => return Err(Halted::Stopped(stop)),
    };
    match book {
        AnyBook::F4444(book) => print_by(alloc, book, &sample, job, out, meters),
        AnyBook::F555(book) => print_by(alloc, book, &sample, job, out, meters),
        AnyBook::F664(book) => print_by(alloc, book, &sample, job, out, meters),
        AnyBook::F88(book) => print_by(alloc, book, &sample, job, out, meters),
    }
}
