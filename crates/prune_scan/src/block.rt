//! The scan of one block of 32 lanes.
ghost use Rattle.std.specs.Prelude.{◌≡◌, ℕ, ◌+◌, ◌-◌, ◌*◌, ◌/◌, ◌^◌, ◌<◌, ◌≤◌, true, false, List, [], ◌∷◌, length, min, nat_le, slice_index, slice_index_or};
ghost use Rattle.book_model.specs.Book.{Book};
ghost use Rattle.book_model.specs.Answer.{table_distance};
ghost use Rattle.shape_core.specs.Word.{code_of_words};
ghost use Rattle.lane_kernels.specs.Sums.{code_sum};
ghost use Rattle.code_blocks.specs.Codes.{word_count};
ghost use Rattle.adc_tables.specs.Full.{IsFilledFor};
ghost use Rattle.prune_scan.specs.Standing.{IsStanding, Adds, Counts};
ghost use Rattle.prune_scan.specs.LaneMasks.{is_set};
ghost use Rattle.prune_scan.specs.Blocks.{marked_rows, AreCodes, IsLimit, IsNear};

use crate::ScanState;
use crate::masks::{count_below, lanes_up_to, next_lane};
use adc_tables::{FullMeter, FullTables, SmallTables};
use best_k::{Best, Pair};
use cell_store::Slot;
use code_blocks::BlockRef;
use lane_kernels::{LaneMeter, sum32};
use shape_core::Shape;

/// The k-th least distance once rows are pruned, and its threshold: rows whose bound is above that are left out.
#[derive(Drop)]
pub(crate) struct Limit {
    pub theta: u64,
    pub most: u8,
}

/// The bounds of a block's lanes, and the mask of those whose bound is not above the threshold.
#[derive(Drop)]
pub(crate) struct Near {
    pub bounds: [u8; 32],
    pub lanes: u64,
}

/// Scans the marked rows of a block in order. It makes at most one lane call, and reads the slots of the rows that it takes.
pub(crate) fn scan_block<S: Shape>(
    slots: &[Slot],
    marks: u64,
    block: &BlockRef<'_, S>,
    tables: &FullTables<S>,
    small: &mut SmallTables<S>,
    best: &mut Best,
    state: &mut ScanState,
    full: &mut FullMeter,
    calls: &mut LaneMeter,
    limit: &mut Limit,
)
    requires standing { IsStanding S.widths tables.now state.old small.old best.old }
    requires words { word_count block.now ≡ tables.now.g }
    requires room { small.old.g ≡ tables.now.g }
    requires slots { length slots.now ≤ 32 }
    requires marks { (i : ℕ) → length slots.now ≤ i → is_set marks i ≡ false }
    requires rows { (cell : ℕ) → state.old.rows + length (marked_rows S.widths cell slots.now marks block.now 32) ≤ 4294967295 }
    requires full { full.old + 32 ≤ 2 ^ 63 }
    requires calls { calls.old + 1 ≤ 2 ^ 63 }
    requires limit { IsLimit state.old.pruning small.old best.old limit.old }
    ensures adds { (cell : ℕ) → Adds S.widths tables.now (marked_rows S.widths cell slots.now marks block.now 32) state.old state.new small.old small.new best.old best.new }
    ensures full { (cell : ℕ) → Counts S.widths tables.now (marked_rows S.widths cell slots.now marks block.now 32) state.old small.old best.old full.old full.new }
    ensures calls { (calls.old ≤ calls.new) × (calls.new ≤ calls.old + 1) }
    ensures limit { IsLimit state.new.pruning small.new best.new limit.new }
{
    let _words = block.words();
    let first = state.rows;
    let mut near = near_of(block, small, state.pruning, limit.most, calls);
    let mut at = 0;
    while let Some(i) = next_lane(marks & near.lanes, at) {
        state.rows = first + count_below(marks, i);
        take_lane(
            slots[i as usize].id,
            i,
            block,
            tables,
            small,
            best,
            state,
            full,
            calls,
            limit,
            &mut near,
        );
        at = i + 1;
    }
    state.rows = first + count_below(marks, 32);
}

/// The limit of the k least pairs so far.
pub(crate) fn limit_of<S: Shape>(
    tables: &FullTables<S>,
    small: &SmallTables<S>,
    best: &Best,
    state: &ScanState,
) -> Limit
    requires standing { IsStanding S.widths tables.now state.now small.now best.now }
    ensures { IsLimit state.now.pruning small.now best.now result }
{
    match best.worst() {
        Some(worst) => Limit {
            theta: worst.distance,
            most: small.threshold(worst.distance),
        },
        None => Limit {
            theta: 0,
            most: 255,
        },
    }
}

/// Which lanes of a block are near. Before rows are pruned it makes no lane call.
#[inline(always)]
fn near_of<S: Shape>(
    block: &BlockRef<'_, S>,
    small: &SmallTables<S>,
    pruning: bool,
    most: u8,
    calls: &mut LaneMeter,
) -> Near
    requires codes { AreCodes small.now.g block.now }
    requires calls { calls.old ≤ 2 ^ 63 }
    ensures near { IsNear S.widths block.now pruning small.now most result }
    ensures calls { (calls.old ≤ calls.new) × (calls.new ≤ calls.old + 1) }
    ensures none { pruning ≡ false → calls.new ≡ calls.old }
{
    if !pruning {
        return Near {
            bounds: [0; 32],
            lanes: 4_294_967_295,
        };
    }
    let bounds = sum32::<S>(small.parts(), block.words(), calls);
    let lanes = lanes_up_to(&bounds, most);
    Near { bounds, lanes }
}

/// Takes the row of a lane that is near, and makes the limit and the near lanes those of the k least pairs with it.
fn take_lane<S: Shape>(
    id: u32,
    lane: u32,
    block: &BlockRef<'_, S>,
    tables: &FullTables<S>,
    small: &mut SmallTables<S>,
    best: &mut Best,
    state: &mut ScanState,
    full: &mut FullMeter,
    calls: &mut LaneMeter,
    limit: &mut Limit,
    near: &mut Near,
)
    requires standing { IsStanding S.widths tables.now state.old small.old best.old }
    requires codes { AreCodes tables.now.g block.now }
    requires room { small.old.g ≡ tables.now.g }
    requires lane { lane < 32 }
    requires rows { state.old.rows < 4294967295 }
    requires full { full.old ≤ 2 ^ 63 }
    requires calls { calls.old ≤ 2 ^ 63 }
    requires limit { IsLimit state.old.pruning small.old best.old limit.old }
    requires near { IsNear S.widths block.now state.old.pruning small.old limit.old.most near.old }
    requires set { is_set near.old.lanes lane ≡ true }
    ensures adds { (cell : ℕ) → Adds S.widths tables.now (record { id = id; cell = cell; code = code_of_words S.widths (slice_index_or block.now lane []) } ∷ []) state.old state.new small.old small.new best.old best.new }
    ensures full { (cell : ℕ) → Counts S.widths tables.now (record { id = id; cell = cell; code = code_of_words S.widths (slice_index_or block.now lane []) } ∷ []) state.old small.old best.old full.old full.new }
    ensures risen { full.new ≤ full.old + 1 }
    ensures limit { IsLimit state.new.pruning small.new best.new limit.new }
    ensures near { IsNear S.widths block.now state.new.pruning small.new limit.new.most near.new }
    ensures calls { (calls.old ≤ calls.new) × (calls.new ≤ calls.old + 1) }
    ensures open_before { state.new.pruning ≡ false → calls.new ≡ calls.old }
    ensures none { state.old.pruning ≡ true → calls.new ≡ calls.old }
{
    let pruned = state.pruning;
    take_row(id, lane, block, tables, small, best, state, full);
    if pruned {
        renew(tables, small, best, state, limit, near);
        return;
    }
    *limit = limit_of(tables, small, best, state);
    *near = near_of(block, small, state.pruning, limit.most, calls);
}

/// Makes the limit that of the k least pairs, and the near lanes those by it, where the k-th least distance has changed.
#[inline(always)]
fn renew<S: Shape>(
    tables: &FullTables<S>,
    small: &SmallTables<S>,
    best: &Best,
    state: &ScanState,
    limit: &mut Limit,
    near: &mut Near,
)
    requires standing { IsStanding S.widths tables.now state.now small.now best.now }
    requires on { state.now.pruning ≡ true }
    requires most { limit.old.most ≡ (limit.old.theta - small.now.base) / small.now.size }
    requires lanes { (i : ℕ) → i < 32 → is_set near.old.lanes i ≡ nat_le (slice_index near.old.bounds i) limit.old.most }
    ensures limit { IsLimit state.now.pruning small.now best.now limit.new }
    ensures bounds { near.new.bounds ≡ near.old.bounds }
    ensures lanes { (i : ℕ) → i < 32 → is_set near.new.lanes i ≡ nat_le (slice_index near.new.bounds i) limit.new.most }
{
    if let Some(worst) = best.worst() {
        if worst.distance != limit.theta {
            limit.theta = worst.distance;
            limit.most = small.threshold(worst.distance);
            near.lanes = lanes_up_to(&near.bounds, limit.most);
        }
    }
}

/// Takes the distance of a row and offers it. With the k-th row the pruning begins.
fn take_row<S: Shape>(
    id: u32,
    lane: u32,
    block: &BlockRef<'_, S>,
    tables: &FullTables<S>,
    small: &mut SmallTables<S>,
    best: &mut Best,
    state: &mut ScanState,
    full: &mut FullMeter,
)
    requires standing { IsStanding S.widths tables.now state.old small.old best.old }
    requires codes { AreCodes tables.now.g block.now }
    requires room { small.old.g ≡ tables.now.g }
    requires lane { lane < 32 }
    requires rows { state.old.rows < 4294967295 }
    requires full { full.old ≤ 2 ^ 63 }
    ensures adds { (cell : ℕ) → Adds S.widths tables.now (record { id = id; cell = cell; code = code_of_words S.widths (slice_index_or block.now lane []) } ∷ []) state.old state.new small.old small.new best.old best.new }
    ensures full { full.new ≡ full.old + 1 }
{
    let distance = distance_of(lane, block, tables, full);
    best.offer(Pair { distance, id });
    state.rows += 1;
    if !state.pruning {
        if let Some(worst) = best.worst() {
            state.pruning = true;
            state.theta0 = worst.distance;
            small.fill(tables, worst.distance);
        }
    }
}

/// The table distance of the code of a lane, which raises the meter by one.
pub fn distance_of<S: Shape>(
    lane: u32,
    block: &BlockRef<'_, S>,
    tables: &FullTables<S>,
    full: &mut FullMeter,
) -> u64
    requires few { tables.now.g ≤ 32 }
    requires codes { AreCodes tables.now.g block.now }
    requires lane { lane < 32 }
    requires full { full.old ≤ 2 ^ 63 }
    ensures distance { (book : Book) (query : List ℕ) → IsFilledFor S.widths book query tables.now → result ≡ table_distance book query (code_of_words S.widths (slice_index_or block.now lane [])) }
    ensures full { full.new ≡ full.old + 1 }
{
    let g = block.words().len();
    let mut words = [0; 32];
    block.get(lane, &mut words[..g]);
    tables.distance(&words[..g], full)
}
