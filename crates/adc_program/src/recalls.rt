//! Recall: how many answers have the nearest neighbour.
ghost use Rattle.std.specs.Prelude.{◌≡◌, ◌+◌, ◌<◌, ◌≤◌, [], length, slice_index_or, IfOk, OnOk, OnErr};
ghost use Rattle.std.specs.Option.{ForSome};
ghost use Rattle.vec_files.specs.Found.{IsWithinLimits};
ghost use Rattle.flat_truth.specs.Flat.{is_hit, hits_in};
ghost use Rattle.play_script.specs.declared.Role.TheVariants as role;
ghost use Rattle.adc_inputs.specs.Numbers.{numbers_held, IsNumbersCheckOf};
ghost use Rattle.adc_inputs.specs.Steps.{Reads, nothing_wrong};
ghost use Rattle.adc_program.specs.Recalls.{unpaired_at, recall_lines};
ghost use Rattle.adc_program.specs.Comparing.{AreCompared, numbers_in, AreNumbers};
ghost use Rattle.adc_program.specs.Steps.{Plays};

use crate::halts::Halted;
use crate::lines::write_line;
use adc_inputs::{InputError, RecallJob, Rows, Stop, check_numbers, fetch_numbers};
use adc_ports::{Shelf, Sink};
use flat_truth::hit;
use play_script::{Role, recall_done};
use std::alloc::Global;
use vec_files::Checked;

/// What was found, and the truth: as many rows of each.
#[derive(Clone, Copy)]
struct Compared<'a> {
    found: Rows<'a>,
    truth: Rows<'a>,
    ghost paired: { truth.checked.rows ≡ found.checked.rows },
}

/// The place where the rows of the truth and of what was found cease to be pairs.
fn unpaired_at(founds: u32, truth: Checked) -> u64
    requires { truth.d ≤ 1024 }
    ensures { result ≡ unpaired_at founds truth.rows truth.d }
{
    u64::from(founds.min(truth.rows)) * (4 + 4 * u64::from(truth.d))
}

/// Checks what was found and the truth, each whole, and then that they have as many rows.
fn check_both<'a, H: Shelf>(job: &RecallJob<'a>, shelf: &mut H) -> Result<Compared<'a>, Stop>
    ensures reads { Reads result (λ files both. AreCompared files job.now.found.now job.now.truth.now both.found both.truth) (λ files. recall_lines files job.now.found.now job.now.truth.now job.now.k) (H.state shelf.old) (H.state shelf.new) }
{
    let found = match check_numbers(shelf, Role::Found, job.found) {
        Ok(checked) => Rows {
            role: Role::Found,
            name: job.found,
            checked,
        },
        Err(stop) => return Err(stop),
    };
    let truth = match check_numbers(shelf, Role::Truth, job.truth) {
        Ok(checked) => Rows {
            role: Role::Truth,
            name: job.truth,
            checked,
        },
        Err(stop) => return Err(stop),
    };
    if truth.checked.rows != found.checked.rows {
        return Err(Stop::Input(InputError::Malformed {
            role: Role::Truth,
            at: unpaired_at(found.checked.rows, truth.checked),
        }));
    }
    Ok(Compared { found, truth })
}

/// Whether the answer of this number, from 0 on, is a hit. Both rows are read into room of their size.
fn is_hit<H: Shelf>(
    both: &Compared<'_>,
    number: u32,
    k: u32,
    near: &mut [i32],
    nearest: &mut [i32],
    shelf: &mut H,
) -> Result<bool, Stop>
    requires number { number < both.now.found.checked.rows }
    requires near { length near.old ≡ both.now.found.checked.d }
    requires nearest { length nearest.old ≡ both.now.truth.checked.d }
    requires found { ForSome (H.state shelf.old).files (λ files. AreNumbers files both.now.found) }
    requires truth { ForSome (H.state shelf.old).files (λ files. AreNumbers files both.now.truth) }
    ensures reads { Reads result (λ files is. is ≡ is_hit k (slice_index_or (numbers_in files both.now.found) number []) (slice_index_or (numbers_in files both.now.truth) number [])) nothing_wrong (H.state shelf.old) (H.state shelf.new) }
{
    match fetch_numbers(shelf, &both.found, number, near) {
        Ok(()) => {}
        Err(stop) => return Err(stop),
    }
    match fetch_numbers(shelf, &both.truth, number, nearest) {
        Ok(()) => Ok(hit(near, nearest, k)),
        Err(stop) => Err(stop),
    }
}

/// How many answers are hits.
fn count_hits<H: Shelf>(
    both: &Compared<'_>,
    k: u32,
    near: &mut [i32],
    nearest: &mut [i32],
    shelf: &mut H,
) -> Result<u32, Stop>
    requires near { length near.old ≡ both.now.found.checked.d }
    requires nearest { length nearest.old ≡ both.now.truth.checked.d }
    requires found { ForSome (H.state shelf.old).files (λ files. AreNumbers files both.now.found) }
    requires truth { ForSome (H.state shelf.old).files (λ files. AreNumbers files both.now.truth) }
    ensures reads { Reads result (λ files hits. hits ≡ hits_in k (numbers_in files both.now.found) (numbers_in files both.now.truth)) nothing_wrong (H.state shelf.old) (H.state shelf.new) }
{
    let mut hits = 0;
    for number in 0..both.found.checked.rows {
        match is_hit(both, number, k, near, nearest, shelf) {
            Ok(is) => hits += u32::from(is),
            Err(stop) => return Err(stop),
        }
    }
    Ok(hits)
}

/// Takes room for a row of each, and counts the hits.
fn hits_of<H: Shelf>(alloc: Global, both: &Compared<'_>, k: u32, shelf: &mut H) -> Result<u32, Stop>
    requires found { ForSome (H.state shelf.old).files (λ files. AreNumbers files both.now.found) }
    requires truth { ForSome (H.state shelf.old).files (λ files. AreNumbers files both.now.truth) }
    ensures reads { Reads result (λ files hits. hits ≡ hits_in k (numbers_in files both.now.found) (numbers_in files both.now.truth)) nothing_wrong (H.state shelf.old) (H.state shelf.new) }
{
    let Ok(mut near) = vec![in alloc; 0i32; both.found.checked.d as usize] else {
        return Err(Stop::OutOfMemory);
    };
    let Ok(mut nearest) = vec![in alloc; 0i32; both.truth.checked.d as usize] else {
        return Err(Stop::OutOfMemory);
    };
    count_hits(both, k, &mut near, &mut nearest, shelf)
}

/// Prints for how many queries the nearest neighbour is among the first k that were found.
pub(crate) fn print_recall<H: Shelf, K: Sink>(
    alloc: Global,
    job: &RecallJob<'_>,
    shelf: &mut H,
    out: &mut K,
) -> Result<(), Halted>
    ensures plays { Plays result (λ files. recall_lines files job.now.found.now job.now.truth.now job.now.k) (H.state shelf.old) (H.state shelf.new) (K.state out.old) (K.state out.new) }
{
    let both = match check_both(job, shelf) {
        Ok(both) => both,
        Err(stop) => return Err(Halted::Stopped(stop)),
    };
    match hits_of(alloc, &both, job.k, shelf) {
        Ok(hits) => write_line(out, &recall_done(job.k, hits, both.found.checked.rows)),
        Err(stop) => Err(Halted::Stopped(stop)),
    }
}
