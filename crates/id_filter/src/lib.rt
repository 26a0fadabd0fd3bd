//! Selectors of ids: what tells whether an id passes, and the ranges of ids that it stands for.
#![tactic(auto)]

ghost use Rattle.std.specs.Prelude.{◌≡◌, ◌≤◌, ◌<◌, ◌^◌, ◌↔◌, ℕ, Bool, true, List, IsTrue};
ghost use Rattle.std.specs.List.{list_any};
ghost use Rattle.book_model.specs.Rows.{in_ranges};
ghost use Rattle.id_filter.specs.Ranges.{pairs_of, pair_of, is_whole, has_whole};

mod lists;
mod selecting;

use book_model::limits::MAX_ID;
pub use lists::{AllowedIds, add_ids, allowed};
pub use selecting::{AllIds, IdSelector};

/// The ids from `lo` to `hi`, both among them; none if `lo` is above `hi`.
#[derive(Debug, Clone, Copy, PartialEq, Eq)]
pub struct IdRange {
    pub lo: u32,
    pub hi: u32,
}

impl IdRange {
    /// The greatest id.
    pub const LAST_ID: u32 = MAX_ID;

    /// Whether the range holds each id from 0 to the last.
    pub(crate) fn is_whole(&self) -> bool
        ensures { result ≡ is_whole (pair_of self.now) }
    {
        self.lo == 0 && Self::LAST_ID <= self.hi
    }
}

/// One range of ids, or many.
#[derive(Debug, Drop)]
pub enum IdRanges {
    One(IdRange),
    Many(Vec<IdRange>),
}

impl IdRanges {
    /// Whether one of the ranges holds each id from 0 to the last.
    #[tactic(auto, using(crate::proofs::Whole::list_any_map))]
    fn has_whole(&self) -> bool
        ensures { result ≡ has_whole (pairs_of self.now) }
    {
        match self {
            IdRanges::One(range) => range.is_whole(),
            IdRanges::Many(ranges) => any_whole(ranges),
        }
    }
}

/// Whether one of the ranges holds each id from 0 to the last.
fn any_whole(ranges: &[IdRange]) -> bool
    ensures { result ≡ list_any (λ range. is_whole (pair_of range)) ranges.now }
{
    ranges.iter().any(|range| range.is_whole())
}

/// A filter on ids: a closure, and the ranges that it stands for (`ranges_of`). As a selector it
/// asks for `IsKept`, which `new` gives.
#[derive(Drop)]
pub struct KeptFilter<F: Fn(u32) -> bool> {
    ranges: IdRanges,
    allows: F,
    all: bool,
    ghost known: { all ≡ has_whole (pairs_of ranges) },
}

impl<F: Fn(u32) -> bool> KeptFilter<F> {
    ghost use Rattle.id_filter.specs.Kept.{ranges_of, IsKept};

    /// Keeps a closure beside the ranges that it stands for: for every id from 0 to `MAX_ID` it may be called, and answers
    /// whether one of the ranges has the id.
    pub fn new(ranges: IdRanges, allows: F) -> KeptFilter<F>
        requires callable { (id : ℕ) → id ≤ MAX_ID → F.pre allows id }
        requires exact { (id : ℕ) (answer : Bool) → id ≤ MAX_ID → F.post allows id answer → answer ≡ in_ranges (pairs_of ranges) id }
        ensures kept { IsKept F.Fn result }
        ensures ranges { ranges_of result ≡ pairs_of ranges }
    {
        let all = ranges.has_whole();
        KeptFilter {
            ranges,
            allows,
            all,
        }
    }
}

impl<F: Fn(u32) -> bool> IdSelector for KeptFilter<F> {
    ghost use Rattle.id_filter.specs.Kept.{ranges_of, IsKept};

    ghost ranges = { λ filter. ranges_of filter };

    ghost can_pass = { λ filter. IsKept F.Fn filter };

    fn passes(&self, id: u32) -> bool {
        (self.allows)(id)
    }

    fn is_all(&self) -> bool {
        self.all
    }
}
