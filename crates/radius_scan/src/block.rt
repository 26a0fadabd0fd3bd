//! The scan of one block of 32 lanes by a radius.
ghost use Rattle.std.specs.Prelude.{◌≡◌, ℕ, ◌+◌, ◌^◌, ◌<◌, ◌≤◌, false, List, [], ◌∷◌, ◌++◌, length, map, slice_index_or, vec_len, vec_capacity};
ghost use Rattle.book_model.specs.Book.{Book};
ghost use Rattle.book_model.specs.Answer.{pairs_of};
ghost use Rattle.shape_core.specs.Word.{code_of_words};
ghost use Rattle.code_blocks.specs.Codes.{word_count};
ghost use Rattle.adc_tables.specs.Full.{IsFilledFor};
ghost use Rattle.best_k.specs.Least.{key_of};
ghost use Rattle.prune_scan.specs.LaneMasks.{is_set};
ghost use Rattle.prune_scan.specs.Blocks.{marked_rows, AreCodes};
ghost use Rattle.radius_scan.specs.Radius.{pairs_within};
ghost use Rattle.radius_scan.specs.Found.{Scans, IsThreshold, IsReach, AreNear};

use adc_tables::{FullMeter, FullTables, SmallTables};
use best_k::Pair;
use cell_store::Slot;
use code_blocks::BlockRef;
use lane_kernels::{LaneMeter, sum32};
use prune_scan::{distance_of, lanes_up_to, next_lane};
use shape_core::Shape;

/// A squared distance, and its threshold: rows whose bound is above that lie farther. If no row can lie within it there is
/// no threshold.
#[derive(Debug, Clone, Copy, PartialEq, Eq)]
pub struct Reach {
    pub radius: u64,
    pub most: Option<u8>,
}

/// Fills the small tables for a radius that is not below the sum of the least entries, and gives its threshold.
pub(crate) fn reach_of<S: Shape>(
    tables: &FullTables<S>,
    small: &mut SmallTables<S>,
    radius: u64,
) -> Reach
    requires room { tables.now.g ≡ small.old.g }
    ensures reach { IsReach S.widths tables.now small.new result }
    ensures radius { result.radius ≡ radius }
    ensures room { small.new.g ≡ small.old.g }
{
    if radius < tables.base_sum() {
        return Reach { radius, most: None };
    }
    small.fill(tables, radius);
    let most = Some(small.threshold(radius));
    Reach { radius, most }
}

/// Scans the marked rows of a block in order, with one lane call. It reads the slots of the rows whose bound is not above the
/// threshold.
pub(crate) fn scan_block<S: Shape>(
    slots: &[Slot],
    marks: u64,
    block: &BlockRef<'_, S>,
    tables: &FullTables<S>,
    small: &SmallTables<S>,
    radius: u64,
    most: u8,
    pairs: &mut Vec<Pair>,
    full: &mut FullMeter,
    calls: &mut LaneMeter,
)
    requires threshold { IsThreshold S.widths tables.now small.now radius most }
    requires words { word_count block.now ≡ tables.now.g }
    requires room { small.now.g ≡ tables.now.g }
    requires slots { length slots.now ≤ 32 }
    requires marks { (i : ℕ) → length slots.now ≤ i → is_set marks i ≡ false }
    requires pairs { (cell : ℕ) → vec_len pairs.old + length (marked_rows S.widths cell slots.now marks block.now 32) ≤ vec_capacity pairs.old }
    requires full { full.old + 32 ≤ 2 ^ 63 }
    requires calls { calls.old ≤ 2 ^ 63 }
    ensures scans { (cell : ℕ) → Scans S.widths tables.now radius (marked_rows S.widths cell slots.now marks block.now 32) pairs.old.items pairs.new.items full.old full.new }
    ensures capacity { vec_capacity pairs.old ≤ vec_capacity pairs.new }
    ensures calls { calls.new ≡ calls.old + 1 }
{
    let near = near_lanes(block, small, most, calls);
    let mut at = 0;
    while let Some(i) = next_lane(marks & near, at) {
        take_lane(slots[i as usize].id, i, block, tables, radius, pairs, full);
        at = i + 1;
    }
}

/// The mask of the lanes whose bound is not above the threshold. It makes one lane call.
#[inline(always)]
fn near_lanes<S: Shape>(
    block: &BlockRef<'_, S>,
    small: &SmallTables<S>,
    most: u8,
    calls: &mut LaneMeter,
) -> u64
    requires words { word_count block.now ≡ small.now.g }
    requires calls { calls.old ≤ 2 ^ 63 }
    ensures near { AreNear S.widths block.now small.now most result }
    ensures codes { AreCodes small.now.g block.now }
    ensures calls { calls.new ≡ calls.old + 1 }
{
    let bounds = sum32::<S>(small.parts(), block.words(), calls);
    lanes_up_to(&bounds, most)
}

/// Takes the full distance of the row of a lane, and keeps its pair if it lies within the radius.
fn take_lane<S: Shape>(
    id: u32,
    lane: u32,
    block: &BlockRef<'_, S>,
    tables: &FullTables<S>,
    radius: u64,
    pairs: &mut Vec<Pair>,
    full: &mut FullMeter,
)
    requires few { tables.now.g ≤ 32 }
    requires codes { AreCodes tables.now.g block.now }
    requires lane { lane < 32 }
    requires pairs { vec_len pairs.old < vec_capacity pairs.old }
    requires full { full.old ≤ 2 ^ 63 }
    ensures found { (cell : ℕ) (book : Book) (query : List ℕ) → IsFilledFor S.widths book query tables.now →
        map key_of pairs.new.items ≡ map key_of pairs.old.items ++ pairs_within radius (pairs_of book query (record { id = id; cell = cell; code = code_of_words S.widths (slice_index_or block.now lane []) } ∷ [])) }
    ensures few { length pairs.new.items ≤ length pairs.old.items + 1 }
    ensures capacity { vec_capacity pairs.old ≤ vec_capacity pairs.new }
    ensures full { full.new ≡ full.old + 1 }
{
    let distance = distance_of(lane, block, tables, full);
    if distance <= radius {
        let _ = pairs.push(Pair { distance, id });
    }
}
