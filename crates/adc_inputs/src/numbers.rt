//! Inputs of rows of numbers: each is checked whole, and then its rows are read one by one.
ghost use Rattle.std.specs.Prelude.{◌≡◌, ◌<◌, [], length, slice_index_or, IfOk};
ghost use Rattle.std.specs.Option.{ForSome};
ghost use Rattle.vec_files.specs.Found.{IsWithinLimits};
ghost use Rattle.adc_inputs.specs.Numbers.{numbers_input, numbers_held, IsNumbersCheckOf};
ghost use Rattle.adc_inputs.specs.Steps.{Reads, nothing_wrong};

use crate::rows::Rows;
use crate::stop::{Stop, of_rows};
use adc_ports::Shelf;
use play_script::Role;
use vec_files::{Checked, check_ivecs, read_ivecs_row};

/// Checks an input of rows of numbers, all of one length.
///
/// # Errors
/// `Input` if it is not there or at its first faulty field, `Unread` if a read of the shelf failed, `OutOfMemory`.
pub fn check_numbers<H: Shelf>(shelf: &mut H, role: Role, name: &str) -> Result<Checked, Stop>
    ensures within_limits { IfOk result IsWithinLimits }
    ensures reads { Reads result (λ files checked. IsNumbersCheckOf files role name.now checked) (λ files. numbers_input files role name.now) (H.state shelf.old) (H.state shelf.new) }
{
    match check_ivecs(shelf, name) {
        Ok(checked) => Ok(checked),
        Err(error) => Err(of_rows(role, error)),
    }
}

/// Reads the row of this number, from 0 on, into `row`, which has d numbers.
///
/// # Errors
/// `Unread` if a read of the shelf failed, `OutOfMemory`; and `Input` if the file has changed since it was checked.
pub fn fetch_numbers<H: Shelf>(
    shelf: &mut H,
    rows: &Rows<'_>,
    number: u32,
    row: &mut [i32],
) -> Result<(), Stop>
    requires number { number < rows.now.checked.rows }
    requires room { length row.old ≡ rows.now.checked.d }
    requires check { ForSome (H.state shelf.old).files (λ files. IsNumbersCheckOf files rows.now.role rows.now.name.now rows.now.checked) }
    ensures reads { Reads result (λ files _. row.new ≡ slice_index_or (numbers_held files rows.now.role rows.now.name.now) number []) nothing_wrong (H.state shelf.old) (H.state shelf.new) }
{
    match read_ivecs_row(shelf, rows.name, rows.checked, number, row) {
        Ok(()) => Ok(()),
        Err(error) => Err(of_rows(rows.role, error)),
    }
}
