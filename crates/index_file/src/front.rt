//! What stands before the rows of an index.

ghost use Rattle.std.specs.Prelude.{◌≡◌, ◌+◌, ◌≤◌, length, IfOk, OnOk};
ghost use Rattle.std.specs.Int.{w32};
ghost use Rattle.adc_ports.specs.Reading.{limited_at};
ghost use Rattle.adc_ports.specs.declared.What.TheVariants as what;
ghost use Rattle.index_file.specs.Parts.{found};
ghost use Rattle.index_file.specs.Reading.{version_at};
ghost use Rattle.index_file.specs.Ahead.{ahead_at, rows_ahead, steps_ahead, HasCell};

use crate::MAX_BOOK;
use crate::fields::{PartFault, allowed, limited};
use crate::sizes::{Ahead, GroupsAhead, RowsAhead, Sizes};
use crate::version::Version;
use adc_ports::What;
use book_model::limits::MAX_ROWS;

/// The version that the eight letters at the front name.
#[tactic(auto, unfolding(crate::specs::Reading::version_at))]
pub(crate) fn read_version(part: &[u8]) -> Result<Version, PartFault>
    ensures { version_at part.now 0 ≡ found (λ version. (version, 8)) result }
{
    if part.starts_with(b"ADCINDX1") {
        Ok(Version::One)
    } else if part.starts_with(b"ADCINDX2") {
        Ok(Version::Two)
    } else {
        Err(PartFault::Malformed { at: 0 })
    }
}

/// The length of the book, which stands behind the letters.
pub(crate) fn book_length(part: &[u8]) -> Result<u32, PartFault>
    ensures value { limited_at what.Book w32 0 4194304 part.now 8 ≡ found (λ size. (size, 12)) result }
    ensures few { IfOk result (λ size. size ≤ 4194304) }
    ensures whole { OnOk result (12 ≤ length part.now) }
{
    limited(part, 8, What::Book, MAX_BOOK)
}

/// What is ahead behind the counts, and how many bytes these have.
#[tactic(auto, unfolding(crate::specs::Ahead::ahead_at))]
pub(crate) fn read_counts(
    part: &[u8],
    version: Version,
    sizes: Sizes,
) -> Result<(Ahead, u32), PartFault>
    ensures value { ahead_at version sizes.cells part.now 0 ≡ found (λ x. x) result }
    ensures few { IfOk result (λ x. rows_ahead x.0 ≤ 4194304) }
    ensures steps { IfOk result (λ x. steps_ahead x.0 ≤ 8388608) }
    ensures small { IfOk result (λ x. x.1 ≤ 8) }
    ensures cell { IfOk result (λ x. HasCell sizes.cells x.0) }
{
    let rows = limited(part, 0, What::Rows, MAX_ROWS)?;
    match version {
        Version::One => {
            let ahead = RowsAhead { left: rows, low: 0 };
            Ok((Ahead::Rows(ahead), 4))
        }
        Version::Two => {
            let groups = allowed(part, 4, rows.min(1), rows.min(sizes.cells))?;
            let ahead = GroupsAhead {
                cell: 0,
                members: 0,
                groups,
                left: rows,
                low: 0,
            };
            Ok((Ahead::Groups(ahead), 8))
        }
    }
}
