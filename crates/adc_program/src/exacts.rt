//! Exact search: the nearest rows of a base for each query, without an index.
ghost use Rattle.std.specs.Prelude.{◌≡◌, ◌≢◌, ◌<◌, ◌≤◌, [], length, map, nat_lt, if◌then◌else◌, None, Some, Ok, Result, IfOk};
ghost use Rattle.std.specs.Option.{ForSome};
ghost use Rattle.adc_ports.specs.Files.{Files};
ghost use Rattle.adc_ports.specs.States.{ShelfState, SinkState, IsThere};
ghost use Rattle.vec_files.specs.Rows.{ivecs_row};
ghost use Rattle.book_model.specs.Sums.{numbers_below};
ghost use Rattle.play_script.specs.Texts as texts;
ghost use Rattle.adc_inputs.specs.declared.stop.InputError.{InputError};
ghost use Rattle.adc_inputs.specs.Steps.{Reads, nothing_wrong};
ghost use Rattle.adc_program.specs.Asking.{rows_in, IsChecked};
ghost use Rattle.adc_program.specs.Exacts.{nearest_at, nearest_below, with_nearest, exact_output};
ghost use Rattle.adc_program.specs.Nearest.{row_numbers, number_of, IsOpened};
ghost use Rattle.adc_program.specs.Outputs.{Output};
ghost use Rattle.adc_program.specs.Rowing.{Adds};
ghost use Rattle.adc_program.specs.Steps.{ReadsWell, Makes};

use crate::halts::Halted;
use crate::lines::write_line;
use crate::rowing::{add_row, begin_file};
use adc_inputs::{ExactJob, Rows, Stop, check_vectors, fetch_row, of_rows};
use adc_ports::{Shelf, Sink};
use flat_truth::{TruePair, exact};
use play_script::{Role, exact_done};
use std::alloc::Global;
use vec_files::Checked;

/// What is asked: for each query, the numbers of the k nearest rows of a base, and the file that they go to.
#[derive(Clone, Copy)]
struct Asked<'a> {
    base: Rows<'a>,
    queries: Rows<'a>,
    k: u32,
    out: &'a str,
    ghost d: { 0 < base.checked.rows → queries.checked.d ≡ base.checked.d },
    ghost k_some: { 1 ≤ k },
    ghost k_few: { k ≤ 1000 },
    ghost base_apart: { base.name.now ≢ out.now },
    ghost queries_apart: { queries.name.now ≢ out.now },
}

/// The number of the row of a place, or -1 if there are fewer.
fn number_at(pairs: &[TruePair], n: usize) -> i32
    ensures { result ≡ number_of (row_numbers pairs.now) n }
{
    match pairs.get(n) {
        Some(pair) => pair.row.cast_signed(),
        None => -1,
    }
}

/// Sets a row of numbers: those of the rows of these pairs in order, and -1 behind them.
pub(crate) fn set_numbers(row: &mut [i32], pairs: &[TruePair])
    ensures { row.new ≡ map (number_of (row_numbers pairs.now)) (numbers_below (length row.old)) }
{
    for n in 0..row.len() {
        row[n] = number_at(pairs, n);
    }
}

/// Reads a query and finds its nearest base rows. Their numbers then stand in their room.
fn find<H: Shelf>(
    alloc: Global,
    asked: &Asked<'_>,
    number: u32,
    vector: &mut [u8],
    numbers: &mut [i32],
    shelf: &mut H,
) -> Result<(), Stop>
    requires number { number < asked.now.queries.checked.rows }
    requires vector { length vector.old ≡ asked.now.queries.checked.d }
    requires numbers { length numbers.old ≡ asked.now.k }
    requires base { ForSome (H.state shelf.old).files (λ files. IsChecked files asked.now.base) }
    requires queries { ForSome (H.state shelf.old).files (λ files. IsChecked files asked.now.queries) }
    ensures reads { Reads result (λ files _. numbers.new ≡ nearest_at (rows_in files asked.now.base) (rows_in files asked.now.queries) asked.now.k number) nothing_wrong (H.state shelf.old) (H.state shelf.new) }
{
    match fetch_row(shelf, &asked.queries, u64::from(number), vector) {
        Ok(()) => {}
        Err(stop) => return Err(stop),
    }
    let base = &asked.base;
    match exact(alloc, shelf, base.name, base.checked, vector, asked.k) {
        Ok(nearest) => {
            set_numbers(numbers, nearest.pairs());
            Ok(())
        }
        Err(error) => Err(of_rows(base.role, error)),
    }
}

/// Adds the row of a query to the file.
fn add_nearest<H: Shelf>(
    alloc: Global,
    asked: &Asked<'_>,
    number: u32,
    vector: &mut [u8],
    numbers: &mut [i32],
    shelf: &mut H,
) -> Result<(), Halted>
    requires number { number < asked.now.queries.checked.rows }
    requires vector { length vector.old ≡ asked.now.queries.checked.d }
    requires numbers { length numbers.old ≡ asked.now.k }
    requires base { ForSome (H.state shelf.old).files (λ files. IsChecked files asked.now.base) }
    requires queries { ForSome (H.state shelf.old).files (λ files. IsChecked files asked.now.queries) }
    requires there { IsThere (H.state shelf.old) asked.now.out.now }
    ensures adds { (text : SinkState) → Adds asked.now.out.now result (λ _. []) (λ files. ivecs_row asked.now.k (nearest_at (rows_in files asked.now.base) (rows_in files asked.now.queries) asked.now.k number)) (H.state shelf.old) (H.state shelf.new) text text }
{
    match find(alloc, asked, number, vector, numbers, shelf) {
        Ok(()) => add_row(asked.out, numbers, shelf),
        Err(stop) => Err(Halted::Stopped(stop)),
    }
}

/// Adds the rows of all queries in order.
fn add_all<H: Shelf>(
    alloc: Global,
    asked: &Asked<'_>,
    vector: &mut [u8],
    numbers: &mut [i32],
    shelf: &mut H,
) -> Result<(), Halted>
    requires vector { length vector.old ≡ asked.now.queries.checked.d }
    requires numbers { length numbers.old ≡ asked.now.k }
    requires base { ForSome (H.state shelf.old).files (λ files. IsChecked files asked.now.base) }
    requires queries { ForSome (H.state shelf.old).files (λ files. IsChecked files asked.now.queries) }
    requires there { IsThere (H.state shelf.old) asked.now.out.now }
    ensures adds { (text : SinkState) → Adds asked.now.out.now result (λ _. []) (λ files. nearest_below (rows_in files asked.now.base) (rows_in files asked.now.queries) asked.now.k asked.now.queries.checked.rows) (H.state shelf.old) (H.state shelf.new) text text }
{
    for number in 0..asked.queries.checked.rows {
        match add_nearest(alloc, asked, number, vector, numbers, shelf) {
            Ok(()) => {}
            Err(halted) => return Err(halted),
        }
    }
    Ok(())
}

/// Begins the file, adds the rows of all queries, and writes a line.
fn write<H: Shelf, K: Sink>(
    alloc: Global,
    asked: &Asked<'_>,
    vector: &mut [u8],
    numbers: &mut [i32],
    shelf: &mut H,
    out: &mut K,
) -> Result<(), Halted>
    requires vector { length vector.old ≡ asked.now.queries.checked.d }
    requires numbers { length numbers.old ≡ asked.now.k }
    requires base { ForSome (H.state shelf.old).files (λ files. IsChecked files asked.now.base) }
    requires queries { ForSome (H.state shelf.old).files (λ files. IsChecked files asked.now.queries) }
    ensures makes { (before : ShelfState) (wanted : Files → Result Output InputError) → ReadsWell before (H.state shelf.old)
        → ((files : Files) → before.files ≡ Some files → wanted files ≡ Ok (with_nearest asked.now.out.now (texts.exact_done asked.now.queries.checked.rows asked.now.base.checked.rows) (rows_in files asked.now.base) (rows_in files asked.now.queries) asked.now.k asked.now.queries.checked.rows))
        → Makes (Some asked.now.out.now) result wanted before (H.state shelf.new) (K.state out.old) (K.state out.new) }
{
    match begin_file(Role::Out, asked.out, shelf) {
        Ok(()) => {}
        Err(halted) => return Err(halted),
    }
    match add_all(alloc, asked, vector, numbers, shelf) {
        Ok(()) => write_line(
            out,
            &exact_done(asked.queries.checked.rows, asked.base.checked.rows),
        ),
        Err(halted) => Err(halted),
    }
}

/// The length of the rows that a check found, if there is a row.
fn length_of(checked: Checked) -> Option<u32>
    ensures { result ≡ (if nat_lt 0 checked.rows then Some checked.d else None) }
{
    if checked.rows > 0 {
        Some(checked.d)
    } else {
        None
    }
}

/// Checks the base, and then the queries, which have as many components as the base if it has a row.
fn open<'a, H: Shelf>(job: &ExactJob<'a>, shelf: &mut H) -> Result<Asked<'a>, Stop>
    ensures out { IfOk result (λ asked. asked.out.now ≡ job.now.out.now) }
    ensures reads { Reads result (λ files asked. IsOpened files (exact_output files job.now.base.now job.now.queries.now job.now.k job.now.out.now) job.now.out.now asked.base asked.queries asked.k) (λ files. exact_output files job.now.base.now job.now.queries.now job.now.k job.now.out.now) (H.state shelf.old) (H.state shelf.new) }
{
    let base = match check_vectors(shelf, Role::Base, job.base, None) {
        Ok(checked) => Rows {
            role: Role::Base,
            name: job.base,
            checked,
        },
        Err(stop) => return Err(stop),
    };
    let wanted = length_of(base.checked);
    let queries = match check_vectors(shelf, Role::Queries, job.queries, wanted) {
        Ok(checked) => Rows {
            role: Role::Queries,
            name: job.queries,
            checked,
        },
        Err(stop) => return Err(stop),
    };
    Ok(Asked {
        base,
        queries,
        k: job.k,
        out: job.out,
    })
}

/// Writes the numbers of the nearest rows of a base for each query.
pub(crate) fn write_exact<H: Shelf, K: Sink>(
    alloc: Global,
    job: &ExactJob<'_>,
    shelf: &mut H,
    out: &mut K,
) -> Result<(), Halted>
    ensures makes { Makes (Some job.now.out.now) result (λ files. exact_output files job.now.base.now job.now.queries.now job.now.k job.now.out.now) (H.state shelf.old) (H.state shelf.new) (K.state out.old) (K.state out.new) }
{
    let asked = match open(job, shelf) {
        Ok(asked) => asked,
        Err(stop) => return Err(Halted::Stopped(stop)),
    };
    let Ok(mut vector) = vec![in alloc; 0u8; asked.queries.checked.d as usize] else {
        return Err(Halted::Stopped(Stop::OutOfMemory));
    };
    let Ok(mut numbers) = vec![in alloc; 0i32; asked.k as usize] else {
        return Err(Halted::Stopped(Stop::OutOfMemory));
    };
    write(alloc, &asked, &mut vector, &mut numbers, shelf, out)
}
