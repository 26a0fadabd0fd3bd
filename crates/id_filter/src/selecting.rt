//! The trait of selectors, and those that need no closure.
ghost use Rattle.std.specs.Prelude.{◌≡◌, ◌≤◌, ◌<◌, ◌^◌, ℕ, List, [], ◌∷◌};
ghost use Rattle.book_model.specs.Rows.{in_ranges};
ghost use Rattle.id_filter.specs.Ranges.{pair_of, has_whole};
ghost use Rattle.id_filter.specs.Allowed.{single_ranges};

use crate::{AllowedIds, IdRange};
use book_model::limits::MAX_ID;

/// What tells whether an id passes: it stands for ranges of ids, and an id passes if one of them has it.
pub trait IdSelector {
    /// The ends (lo, hi) of its ranges.
    ghost ranges: { Self → List (ℕ × ℕ) };

    /// What it asks for before it is asked: a closure's promise; of other selectors nothing.
    ghost can_pass: { Self → Type 0 };

    /// Whether one of the ranges has the id.
    fn passes(&self, id: u32) -> bool
        requires can { can_pass self.now }
        requires id { id ≤ MAX_ID }
        ensures { result ≡ in_ranges (ranges self.now) id };

    /// Whether one of the ranges holds each id from 0 to `MAX_ID`, so that no row need be asked.
    fn is_all(&self) -> bool
        ensures { result ≡ has_whole (ranges self.now) };
}

/// Every id from 0 to `MAX_ID`.
#[derive(Debug, Clone, Copy, PartialEq, Eq)]
pub struct AllIds;

impl IdSelector for AllIds {
    ghost ranges = { λ _. (0, 2147483647) ∷ [] };

    ghost can_pass = { λ _. Unit {0} };

    fn passes(&self, _id: u32) -> bool {
        true
    }

    fn is_all(&self) -> bool {
        true
    }
}

impl IdSelector for IdRange {
    ghost ranges = { λ range. pair_of range ∷ [] };

    ghost can_pass = { λ _. Unit {0} };

    fn passes(&self, id: u32) -> bool {
        self.lo <= id && id <= self.hi
    }

    fn is_all(&self) -> bool {
        self.is_whole()
    }
}

impl IdSelector for AllowedIds {
    ghost ranges = { λ ids. single_ranges ids };

    ghost can_pass = { λ _. Unit {0} };

    fn passes(&self, id: u32) -> bool {
        self.has(id)
    }

    fn is_all(&self) -> bool {
        false
    }
}
