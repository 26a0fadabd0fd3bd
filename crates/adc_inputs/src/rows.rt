//! The rows of an input that was checked, which are read one by one.
ghost use Rattle.std.specs.Prelude.{◌≡◌, ℕ, ◌<◌, ◌≤◌, [], length, slice_index_or};
ghost use Rattle.std.specs.Option.{ForSome};
ghost use Rattle.vec_files.specs.declared.TheConstants.{MAX_D, MAX_ROWS};
ghost use Rattle.adc_inputs.specs.Inputs.{rows_held, IsCheckOf};
ghost use Rattle.adc_inputs.specs.Steps.{Reads, nothing_wrong};

use crate::stop::{Stop, of_rows};
use adc_ports::Shelf;
use play_script::Role;
use vec_files::{Checked, read_row};

/// An input of rows that was checked: its role, its name, and what the check found, within the limits.
#[derive(Clone, Copy)]
pub struct Rows<'a> {
    pub role: Role,
    pub name: &'a str,
    pub checked: Checked,
    pub ghost size: { checked.d ≤ MAX_D },
    pub ghost few: { checked.rows ≤ MAX_ROWS },
}

/// Reads the row of this number, from 0 on, into `row`, which has d bytes.
///
/// # Errors
/// `Unread` if a read of the shelf failed, `OutOfMemory`; and `Input` if the file has changed since it was checked.
pub fn fetch_row<H: Shelf>(
    shelf: &mut H,
    rows: &Rows<'_>,
    number: u64,
    row: &mut [u8],
) -> Result<(), Stop>
    requires number { number < rows.now.checked.rows }
    requires room { length row.old ≡ rows.now.checked.d }
    requires check { ForSome (H.state shelf.old).files (λ files. IsCheckOf files rows.now.role rows.now.name.now rows.now.checked.d rows.now.checked) }
    ensures reads { Reads result (λ files _. row.new ≡ slice_index_or (rows_held files rows.now.role rows.now.name.now rows.now.checked.d) number []) nothing_wrong (H.state shelf.old) (H.state shelf.new) }
{
    match read_row(shelf, rows.name, rows.checked, number as u32, row) {
        Ok(()) => Ok(()),
        Err(error) => Err(of_rows(rows.role, error)),
    }
}
