//! The scan of a cell, block by block.
ghost use Rattle.std.specs.Prelude.{◌≡◌, ℕ, ◌+◌, ◌*◌, ◌<◌, ◌≤◌, length, map, take, drop};
ghost use Rattle.cell_store.specs.State.{kept_in};
ghost use Rattle.cell_store.specs.Slots.{slot_at};
ghost use Rattle.cell_store.specs.Blocks.{slot_of};
ghost use Rattle.cell_store.specs.Shown.{shown_in, shown_rows};
ghost use Rattle.prune_scan.specs.Standing.{IsStanding, Adds, Counts};
ghost use Rattle.prune_scan.specs.Marks.{AreMarks};
ghost use Rattle.prune_scan.specs.Work.{CanScan, Reads};

use crate::block::{limit_of, scan_block};
use crate::masks::{first_lanes, with_lane};
use crate::{Meters, ScanState};
use adc_tables::{FullTables, SmallTables};
use best_k::Best;
use cell_store::{ShownCell, Slot, Snapshot};
use id_filter::IdSelector;
use shape_core::Shape;

/// Scans the rows of a cell that a snapshot shows, in their order. The first k rows of a query are full, and later ones whose
/// bound is not above the threshold of the k-th least distance before them; each full row raises the meter `full` by one. It
/// reads at most a block for each 32 rows kept, and makes at most one lane call a block.
pub fn scan_cell<S: Shape, P: IdSelector>(
    snapshot: &Snapshot<'_, S, P>,
    cell: u32,
    tables: &FullTables<S>,
    small: &mut SmallTables<S>,
    best: &mut Best,
    state: &mut ScanState,
    meters: &mut Meters,
)
    requires standing { IsStanding S.widths tables.now state.old small.old best.old }
    requires tables { tables.now.g ≡ snapshot.now.store.g }
    requires room { small.old.g ≡ snapshot.now.store.g }
    requires rows { state.old.rows + length (shown_in cell snapshot.now) ≤ 4294967295 }
    requires meters { CanScan meters.old }
    ensures adds { Adds S.widths tables.now (shown_in cell snapshot.now) state.old state.new small.old small.new best.old best.new }
    ensures full { Counts S.widths tables.now (shown_in cell snapshot.now) state.old small.old best.old meters.old.full meters.new.full }
    ensures reads { Reads (length (kept_in cell snapshot.now.store.kept)) meters.old meters.new }
    ensures others { (meters.new.half_full ≡ meters.old.half_full) × (meters.new.halves ≡ meters.old.halves) }
{
    if let Some(shown) = snapshot.cell(cell) {
        scan_shown(&shown, tables, small, best, state, meters);
    }
}

/// Scans the rows of a cell that are shown.
fn scan_shown<S: Shape, P: IdSelector>(
    cell: &ShownCell<'_, S, P>,
    tables: &FullTables<S>,
    small: &mut SmallTables<S>,
    best: &mut Best,
    state: &mut ScanState,
    meters: &mut Meters,
)
    requires standing { IsStanding S.widths tables.now state.old small.old best.old }
    requires tables { tables.now.g ≡ cell.now.g }
    requires room { small.old.g ≡ cell.now.g }
    requires rows { state.old.rows + length (shown_rows cell.now) ≤ 4294967295 }
    requires meters { CanScan meters.old }
    ensures adds { Adds S.widths tables.now (shown_rows cell.now) state.old state.new small.old small.new best.old best.new }
    ensures full { Counts S.widths tables.now (shown_rows cell.now) state.old small.old best.old meters.old.full meters.new.full }
    ensures reads { Reads (length cell.now.rows) meters.old meters.new }
    ensures others { (meters.new.half_full ≡ meters.old.half_full) × (meters.new.halves ≡ meters.old.halves) }
{
    let groups = cell.kept().div_ceil(32) as u32;
    let mut limit = limit_of(tables, small, best, state);
    for n in 0..groups {
        let marks = marks_of(cell, n);
        let slots = cell.slots(n);
        let block = cell.block(n, &mut meters.blocks);
        scan_block(
            slots,
            marks,
            &block,
            tables,
            small,
            best,
            state,
            &mut meters.full,
            &mut meters.lanes,
            &mut limit,
        );
    }
}

/// The mask of the n-th 32 slots whose rows are shown. It reads no slot of a whole cell.
#[inline(always)]
pub fn marks_of<S: Shape, P: IdSelector>(cell: &ShownCell<'_, S, P>, n: u32) -> u64
    requires { 32 * n < length cell.now.rows }
    ensures { AreMarks cell.now.ranges cell.now.stamp (map slot_of (take 32 (drop (32 * n) cell.now.rows))) result }
{
    let slots = cell.slots(n);
    if cell.is_whole() {
        return first_lanes(slots.len());
    }
    shown_lanes(cell, slots)
}

/// The mask of the slots whose rows are shown, each of which it reads.
fn shown_lanes<S: Shape, P: IdSelector>(cell: &ShownCell<'_, S, P>, slots: &[Slot]) -> u64
    requires few { length slots.now ≤ 32 }
    requires ids { (i : ℕ) → i < length slots.now → (slot_at slots.now i).id ≤ 2147483647 }
    ensures { AreMarks cell.now.ranges cell.now.stamp slots.now result }
{
    let mut marks = 0;
    for (i, slot) in slots.iter().enumerate() {
        marks = with_lane(marks, i, cell.shows(slot));
    }
    marks
}
