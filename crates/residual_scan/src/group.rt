//! The scan of a group of 32 rows of a cell.
ghost use Rattle.std.specs.Prelude.{◌≡◌, ℕ, ◌+◌, ◌<◌, ◌^◌, ◌≤◌, ◌++◌, List, length, false, slice_index, slice_index_or, [], ◌∷◌};
ghost use Rattle.book_model.specs.Bound.{picked_sum};
ghost use Rattle.book_model.specs.Laws.{Picks};
ghost use Rattle.book_model.specs.Order.{Pair as Pairs};
ghost use Rattle.best_k.specs.Least.{least};
ghost use Rattle.shape_core.specs.Word.{code_of_words};
ghost use Rattle.half_tables.specs.Half.{AreHalves};
ghost use Rattle.prune_scan.specs.LaneMasks.{is_set};
ghost use Rattle.prune_scan.specs.Blocks.{marked_rows, AreCodes};
ghost use Rattle.residual_scan.specs.Cutting.{bound_by, Goes};

use crate::cutting::{Cut, near_lanes};
use best_k::{Best, Pair};
use cell_store::Slot;
use code_blocks::BlockRef;
use half_tables::{HalfFullMeter, HalfTable, pair_distance};
use prune_scan::next_lane;
use shape_core::Shape;

/// Scans the marked rows of a block in order: each whose bound is not above the threshold then is full.
pub(crate) fn scan_group<S: Shape>(
    slots: &[Slot],
    marks: u64,
    block: &BlockRef<'_, S>,
    bounds: &[u8; 32],
    cut: &Cut,
    low: &HalfTable<S>,
    high: &HalfTable<S>,
    best: &mut Best,
    full: &mut HalfFullMeter,
)
    requires halves { AreHalves low.now high.now }
    requires few { low.now.g ≤ 32 }
    requires codes { AreCodes low.now.g block.now }
    requires slots { length slots.now ≤ 32 }
    requires marks { (i : ℕ) → length slots.now ≤ i → is_set marks i ≡ false }
    requires picks { (i : ℕ) → i < 32 → Picks (low.now.tables ++ high.now.tables) (code_of_words S.widths (slice_index_or block.now i [])) }
    requires step { 1 ≤ cut.now.step }
    requires some { 1 ≤ best.old.k }
    requires bounds { cut.now.early ≡ false → (i : ℕ) → i < 32 → slice_index bounds.now i ≡ bound_by cut.now.step (low.now.tables ++ high.now.tables) (code_of_words S.widths (slice_index_or block.now i [])) }
    requires full { full.old + 32 ≤ 2 ^ 63 }
    ensures goes { (cell : ℕ) → Goes (low.now.tables ++ high.now.tables) cut.now (marked_rows S.widths cell slots.now marks block.now 32) best.old best.new full.old full.new }
    ensures risen { full.new ≤ full.old + 32 }
    ensures k { best.new.k ≡ best.old.k }
    ensures room { best.new.room ≡ best.old.room }
{
    let mut near = near_lanes(bounds, cut, best);
    let mut at = 0;
    while let Some(i) = next_lane(marks & near, at) {
        take_lane(slots[i as usize].id, i, block, low, high, best, full);
        near = near_lanes(bounds, cut, best);
        at = i + 1;
    }
}

/// Takes the distance of the row of a lane and offers it.
fn take_lane<S: Shape>(
    id: u32,
    lane: u32,
    block: &BlockRef<'_, S>,
    low: &HalfTable<S>,
    high: &HalfTable<S>,
    best: &mut Best,
    full: &mut HalfFullMeter,
)
    requires halves { AreHalves low.now high.now }
    requires few { low.now.g ≤ 32 }
    requires codes { AreCodes low.now.g block.now }
    requires lane { lane < 32 }
    requires full { full.old ≤ 2 ^ 63 }
    ensures offered { (seen : List Pairs) → best.old.pairs ≡ least best.old.k seen → best.new.pairs ≡ least best.old.k (seen ++ (picked_sum (low.now.tables ++ high.now.tables) (code_of_words S.widths (slice_index_or block.now lane [])), id) ∷ []) }
    ensures raised { full.new ≡ full.old + 1 }
    ensures k { best.new.k ≡ best.old.k }
    ensures room { best.new.room ≡ best.old.room }
{
    let g = block.words().len();
    let mut words = [0; 32];
    block.get(lane, &mut words[..g]);
    let distance = pair_distance(low, high, &words[..g], full);
    best.offer(Pair { distance, id });
}
