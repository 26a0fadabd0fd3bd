//! Lists of allowed ids: rows of numbers, of which those that are not negative are ids.
ghost use Rattle.std.specs.Prelude.{◌≡◌, ◌≤◌, length, IfOk};
ghost use Rattle.std.specs.Option.{ForSome};
ghost use Rattle.vec_files.specs.Found.{IsWithinLimits};
ghost use Rattle.id_filter.specs.Allowed.{single_ranges, allowed_ranges};
ghost use Rattle.adc_inputs.specs.Allows.{allow_input, IsAllowCheckOf};
ghost use Rattle.adc_inputs.specs.Numbers.{numbers_held, IsNumbersCheckOf};
ghost use Rattle.adc_inputs.specs.Steps.{Finds, Reads, nothing_wrong};

use crate::numbers::{check_numbers, fetch_numbers};
use crate::rows::Rows;
use crate::stop::{InputError, Stop};
use adc_ports::{Shelf, What};
use id_filter::add_ids;
use play_script::Role;
use std::alloc::Global;
use vec_files::Checked;

/// The most numbers of a list, negative ones too.
const MAX_NUMBERS: u64 = 4_194_304;

/// Checks a list whole: its rows, and then how many numbers they have.
fn check_allowed<H: Shelf>(shelf: &mut H, name: &str) -> Result<Checked, Stop>
    ensures within_limits { IfOk result IsWithinLimits }
    ensures reads { Reads result (λ files checked. IsAllowCheckOf files name.now checked) (λ files. allow_input files name.now) (H.state shelf.old) (H.state shelf.new) }
{
    let checked = match check_numbers(shelf, Role::Allow, name) {
        Ok(checked) => checked,
        Err(stop) => return Err(stop),
    };
    let numbers = u64::from(checked.rows) * u64::from(checked.d);
    if numbers > MAX_NUMBERS {
        return Err(Stop::Input(InputError::Limit {
            role: Role::Allow,
            what: What::Rows,
            value: numbers,
        }));
    }
    Ok(checked)
}

/// The ids among the numbers of an input that was checked, in their order. Each row is read into `row`, which has d numbers.
fn ids_of<H: Shelf>(
    alloc: Global,
    shelf: &mut H,
    rows: &Rows<'_>,
    row: &mut [i32],
) -> Result<Vec<u32>, Stop>
    requires room { length row.old ≡ rows.now.checked.d }
    requires check { ForSome (H.state shelf.old).files (λ files. IsNumbersCheckOf files rows.now.role rows.now.name.now rows.now.checked) }
    ensures reads { Reads result (λ files ids. single_ranges ids.items ≡ allowed_ranges (numbers_held files rows.now.role rows.now.name.now)) nothing_wrong (H.state shelf.old) (H.state shelf.new) }
{
    let mut ids = Vec::new(alloc);
    for number in 0..rows.checked.rows {
        match fetch_numbers(shelf, rows, number, row) {
            Ok(()) => {}
            Err(stop) => return Err(stop),
        }
        let Ok(()) = add_ids(&mut ids, row) else {
            return Err(Stop::OutOfMemory);
        };
    }
    Ok(ids)
}

/// The ids that an input allows, in its order: of at most 4,194,304 numbers those that are not negative.
///
/// # Errors
/// `Input` if it is not there, at its first faulty field, or if it has more numbers; `Unread` if a read of the shelf failed;
/// `OutOfMemory`.
pub fn read_allowed<H: Shelf>(alloc: Global, shelf: &mut H, name: &str) -> Result<Vec<u32>, Stop>
    ensures reads { Finds (λ ids. single_ranges ids.items) result (λ files. allow_input files name.now) (H.state shelf.old) (H.state shelf.new) }
{
    let checked = match check_allowed(shelf, name) {
        Ok(checked) => checked,
        Err(stop) => return Err(stop),
    };
    let Ok(mut row) = vec![in alloc; 0i32; checked.d as usize] else {
        return Err(Stop::OutOfMemory);
    };
    let rows = Rows {
        role: Role::Allow,
        name,
        checked,
    };
    ids_of(alloc, shelf, &rows, &mut row)
}
