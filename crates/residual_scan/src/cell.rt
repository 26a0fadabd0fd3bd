//! The scan of a cell, group by group.
ghost use Rattle.std.specs.Prelude.{◌≡◌, ℕ, ◌+◌, ◌*◌, ◌^◌, ◌<◌, ◌≤◌, ◌++◌, false, [], length, map, slice_index, slice_index_or};
ghost use Rattle.std.specs.List.{AllByRecursion};
ghost use Rattle.book_model.specs.Sums.{numbers_below};
ghost use Rattle.book_model.specs.Bound.{Tables};
ghost use Rattle.shape_core.specs.Word.{code_of_words, IsCode};
ghost use Rattle.lane_kernels.specs.Sums.{AreTables};
ghost use Rattle.code_blocks.specs.Codes.{word_count};
ghost use Rattle.cell_store.specs.State.{kept_in};
ghost use Rattle.cell_store.specs.Shown.{shown_in, shown_rows};
ghost use Rattle.cell_store.specs.Held.{IsStore};
ghost use Rattle.adc_tables.specs.Small.{small_table};
ghost use Rattle.prune_scan.specs.Work.{Reads};
ghost use Rattle.residual_scan.specs.Near.{Scans};
ghost use Rattle.residual_scan.specs.Cutting.{bound_by, Goes};
ghost use Rattle.residual_scan.specs.Cells.{AreOfCell, IsSmallRoom, CanScan};

use crate::cutting::{Cut, cut_of};
use crate::group::scan_group;
use best_k::Best;
use cell_store::{ShownCell, Snapshot};
use code_blocks::BlockRef;
use half_tables::HalfTable;
use id_filter::IdSelector;
use lane_kernels::{LaneMeter, SplitTable, sum32};
use prune_scan::marks_of;
use query_engine::Meters;
use shape_core::Shape;

/// Scans the rows of a cell that a snapshot shows, in their order, by the tables of the cell's two halves. It reads at most a
/// block for each 32 rows kept, and makes at most one lane call a block.
pub(crate) fn scan_cell<S: Shape, P: IdSelector>(
    snapshot: &Snapshot<'_, S, P>,
    cell: u32,
    low: &HalfTable<S>,
    high: &HalfTable<S>,
    parts: &mut [SplitTable],
    best: &mut Best,
    meters: &mut Meters,
)
    requires is { IsStore S.widths snapshot.now.store }
    requires tables { AreOfCell S.widths snapshot.now.store.g low.now high.now }
    requires parts { IsSmallRoom S.widths snapshot.now.store.g parts.old }
    requires some { 1 ≤ best.old.k }
    requires meters { CanScan meters.old }
    ensures scans { Scans (low.now.tables ++ high.now.tables) (shown_in cell snapshot.now) best.old best.new meters.old.half_full meters.new.half_full }
    ensures reads { Reads (length (kept_in cell snapshot.now.store.kept)) meters.old meters.new }
    ensures others { (meters.new.halves ≡ meters.old.halves) × (meters.new.full ≡ meters.old.full) }
    ensures parts { IsSmallRoom S.widths snapshot.now.store.g parts.new }
{
    match snapshot.cell(cell) {
        Some(shown) => scan_shown(&shown, low, high, parts, best, meters),
        None => {}
    }
}

/// Scans the rows of a cell that are shown, unless it lies wholly too far.
fn scan_shown<S: Shape, P: IdSelector>(
    cell: &ShownCell<'_, S, P>,
    low: &HalfTable<S>,
    high: &HalfTable<S>,
    parts: &mut [SplitTable],
    best: &mut Best,
    meters: &mut Meters,
)
    requires tables { AreOfCell S.widths cell.now.g low.now high.now }
    requires codes { AllByRecursion (λ k. IsCode S.widths cell.now.g k.row.code) cell.now.rows }
    requires parts { IsSmallRoom S.widths cell.now.g parts.old }
    requires some { 1 ≤ best.old.k }
    requires meters { CanScan meters.old }
    ensures scans { Scans (low.now.tables ++ high.now.tables) (shown_rows cell.now) best.old best.new meters.old.half_full meters.new.half_full }
    ensures reads { Reads (length cell.now.rows) meters.old meters.new }
    ensures others { (meters.new.halves ≡ meters.old.halves) × (meters.new.full ≡ meters.old.full) }
    ensures parts { IsSmallRoom S.widths cell.now.g parts.new }
{
    let cut = match cut_of(low, high, best) {
        Some(cut) => cut,
        None => {
            return;
        }
    };
    fill_late(&cut, low, high, parts);
    scan_groups(cell, &cut, low, high, parts, best, meters);
}

/// Writes the small entries of both halves, unless the cell is early.
fn fill_late<S: Shape>(cut: &Cut, low: &HalfTable<S>, high: &HalfTable<S>, parts: &mut [SplitTable])
    requires step { 1 ≤ cut.now.step }
    requires tables { AreOfCell S.widths low.now.g low.now high.now }
    requires parts { IsSmallRoom S.widths low.now.g parts.old }
    ensures filled { cut.now.early ≡ false → parts.new ≡ map (small_table S.widths cut.now.step (low.now.tables ++ high.now.tables)) (numbers_below (length (low.now.tables ++ high.now.tables))) }
    ensures parts { IsSmallRoom S.widths low.now.g parts.new }
{
    if cut.early {
        return;
    }
    fill_small(cut.step, low, high, parts);
}

/// Writes the small entries of both halves, in steps of this size, into one table for each sub-quantizer.
fn fill_small<S: Shape>(
    step: u64,
    low: &HalfTable<S>,
    high: &HalfTable<S>,
    parts: &mut [SplitTable],
)
    requires step { 1 ≤ step }
    requires tables { AreOfCell S.widths low.now.g low.now high.now }
    requires parts { IsSmallRoom S.widths low.now.g parts.old }
    ensures filled { parts.new ≡ map (small_table S.widths step (low.now.tables ++ high.now.tables)) (numbers_below (length (low.now.tables ++ high.now.tables))) }
    ensures parts { IsSmallRoom S.widths low.now.g parts.new }
{
    let split = low.count();
    low.small(step, &mut parts[..split]);
    high.small(step, &mut parts[split..]);
}

/// Scans the rows of a cell that are shown, if their small entries are written.
fn scan_groups<S: Shape, P: IdSelector>(
    cell: &ShownCell<'_, S, P>,
    cut: &Cut,
    low: &HalfTable<S>,
    high: &HalfTable<S>,
    parts: &[SplitTable],
    best: &mut Best,
    meters: &mut Meters,
)
    requires tables { AreOfCell S.widths cell.now.g low.now high.now }
    requires parts { AreTables S.widths cell.now.g parts.now }
    requires filled { cut.now.early ≡ false → parts.now ≡ map (small_table S.widths cut.now.step (low.now.tables ++ high.now.tables)) (numbers_below (length (low.now.tables ++ high.now.tables))) }
    requires step { 1 ≤ cut.now.step }
    requires some { 1 ≤ best.old.k }
    requires meters { CanScan meters.old }
    ensures goes { Goes (low.now.tables ++ high.now.tables) cut.now (shown_rows cell.now) best.old best.new meters.old.half_full meters.new.half_full }
    ensures sizes { (best.new.k ≡ best.old.k) × (best.new.room ≡ best.old.room) }
    ensures reads { Reads (length cell.now.rows) meters.old meters.new }
    ensures others { (meters.new.halves ≡ meters.old.halves) × (meters.new.full ≡ meters.old.full) }
{
    let groups = cell.kept().div_ceil(32) as u32;
    for n in 0..groups {
        let marks = marks_of(cell, n);
        let slots = cell.slots(n);
        let block = cell.block(n, &mut meters.blocks);
        let bounds = bounds_of(cut, parts, &block, &mut meters.lanes);
        scan_group(
            slots,
            marks,
            &block,
            &bounds,
            cut,
            low,
            high,
            best,
            &mut meters.half_full,
        );
    }
}

/// The bounds of the lanes of a block. In an early cell none is needed, and it makes no lane call.
#[inline(always)]
fn bounds_of<S: Shape>(
    cut: &Cut,
    parts: &[SplitTable],
    block: &BlockRef<'_, S>,
    lanes: &mut LaneMeter,
) -> [u8; 32]
    requires parts { AreTables S.widths (word_count block.now) parts.now }
    requires lanes { lanes.old ≤ 2 ^ 63 }
    ensures bounds { cut.now.early ≡ false → (ts : Tables) → length ts ≡ word_count block.now * length S.widths →
        parts.now ≡ map (small_table S.widths cut.now.step ts) (numbers_below (length ts)) →
        (i : ℕ) → i < 32 → slice_index result i ≡ bound_by cut.now.step ts (code_of_words S.widths (slice_index_or block.now i [])) }
    ensures lanes { (lanes.old ≤ lanes.new) × (lanes.new ≤ lanes.old + 1) }
{
    if cut.early {
        return [0; 32];
    }
    sum32::<S>(parts, block.words(), lanes)
}
