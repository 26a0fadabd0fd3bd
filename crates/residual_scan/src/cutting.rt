//! Which rows of a cell are left out by their bounds.
ghost use Rattle.std.specs.Prelude.{◌≡◌, ℕ, ◌≤◌, ◌++◌, List, IfSome, IfNone};
ghost use Rattle.book_model.specs.Order.{Pair as Pairs};
ghost use Rattle.best_k.specs.Least.{least};
ghost use Rattle.residual_scan.specs.Cutting.{IsCut, IsFarCell, AreNear};

use best_k::Best;
use half_tables::HalfTable;
use prune_scan::{first_lanes, lanes_up_to};
use shape_core::Shape;

/// By what the rows of a cell are left out: if fewer than k rows came before the cell (`early`), none is. Else their bounds are
/// taken in steps of this size, in squared distance, above the sum of the least entries.
#[derive(Drop)]
pub(crate) struct Cut {
    pub early: bool,
    pub base: u64,
    pub step: u64,
}

/// The cut of a cell with these tables, after the k least pairs before it, and none if the cell lies wholly too far: if the sum
/// of the least entries is above the k-th least distance.
pub(crate) fn cut_of<S: Shape>(low: &HalfTable<S>, high: &HalfTable<S>, best: &Best) -> Option<Cut>
    ensures cut { IfSome result (λ cut. (before : List Pairs) → best.now.pairs ≡ least best.now.k before → IsCut (low.now.tables ++ high.now.tables) best.now.k before cut) }
    ensures step { IfSome result (λ cut. 1 ≤ cut.step) }
    ensures far { IfNone result ((before : List Pairs) → best.now.pairs ≡ least best.now.k before → IsFarCell (low.now.tables ++ high.now.tables) best.now.k before) }
{
    let worst = match best.worst() {
        Some(worst) => worst,
        None => {
            return Some(Cut {
                early: true,
                base: 0,
                step: 1,
            });
        }
    };
    let base = low.base_sum() + high.base_sum();
    if worst.distance < base {
        return None;
    }
    Some(Cut {
        early: false,
        base,
        step: (worst.distance - base) / 255 + 1,
    })
}

/// The lanes whose bound is not above the threshold of the k-th least distance so far. In an early cell each lane is.
#[inline(always)]
pub(crate) fn near_lanes(bounds: &[u8; 32], cut: &Cut, best: &Best) -> u64
    requires step { 1 ≤ cut.now.step }
    ensures { AreNear bounds.now cut.now best.now result }
{
    if cut.early {
        return first_lanes(32);
    }
    match best.worst() {
        Some(worst) => {
            let most = worst.distance.saturating_sub(cut.base) / cut.step;
            lanes_up_to(bounds, most.min(255) as u8)
        }
        None => first_lanes(32),
    }
}
