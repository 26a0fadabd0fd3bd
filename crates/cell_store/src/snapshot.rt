//! The rows of a store that live at a stamp and whose ids pass.

ghost use Rattle.std.specs.Prelude.{◌≡◌, ◌≤◌, ◌<◌, ◌+◌, ◌*◌, ◌^◌, ℕ, [], length, map, take, drop, min, true, MatchOption, IfSome, slice_index_or};
ghost use Rattle.std.specs.List.{AllByRecursion};
ghost use Rattle.cell_store.specs.State.{kept_in, IsHeldStamp};
ghost use Rattle.shape_core.specs.Word.{code_of_words};
ghost use Rattle.code_blocks.specs.Codes.{IsBlock};
ghost use Rattle.cell_store.specs.Blocks.{slot_of, row_at};
ghost use Rattle.cell_store.specs.Slots.{slot_at, slot_passes};
ghost use Rattle.cell_store.specs.Held.{IsStore};
ghost use Rattle.cell_store.specs.Shown.{shown, shown_in};

use crate::rows::lives;
use crate::{BlockMeter, CellStore, CellView, NEVER, Slot};
use code_blocks::BlockRef;
use id_filter::IdSelector;
use shape_core::Shape;
use std::marker::Model;

/// A store at a stamp, as a selector of ids shows it. It holds two facts: the stamp is the present one or pinned, and the
/// selector may be asked.
#[derive(Drop)]
pub struct Snapshot<'a, S: Shape, P: IdSelector> {
    store: &'a CellStore<S>,
    stamp: u64,
    selector: &'a P,
}

impl<'a, S: Shape, P: IdSelector> Model for Snapshot<'a, S, P> {
    ghost use Rattle.cell_store.specs.State.{IsHeldStamp};
    ghost use Rattle.cell_store.specs.Shown.{Shown};

    ghost Value = { Shown };

    ghost view = { λ s. record { store = s.store.now; stamp = s.stamp; ranges = P.ranges s.selector.now } };

    ghost invariant = { λ s. P.can_pass s.selector.now × IsHeldStamp s.store.now s.stamp };
}

impl<'a, S: Shape, P: IdSelector> Snapshot<'a, S, P> {
    /// The rows of a store at a stamp.
    pub fn new(store: &'a CellStore<S>, stamp: u64, selector: &'a P) -> Snapshot<'a, S, P>
        requires selector { P.can_pass selector.now }
        requires stamp { IsHeldStamp store.now stamp }
        ensures { result ≡ record { store = store.now; stamp = stamp; ranges = P.ranges selector.now } }
    {
        Snapshot {
            store,
            stamp,
            selector,
        }
    }

    /// How many rows of a cell it shows.
    pub fn count(&self, cell: u32) -> u32
        ensures count { result ≡ length (shown_in cell self.now) }
        ensures is { IsStore S.widths self.now.store }
    {
        let store = self.store;
        let _stamp = store.stamp();
        store.count(cell, self.stamp, self.selector)
    }

    /// The lesser of a number and how many rows it shows.
    pub fn count_up_to(&self, most: u32) -> u32
        ensures count { result ≡ min most (length (shown self.now)) }
        ensures few { length (shown self.now) ≤ 8388608 }
        ensures most { length (shown self.now) ≤ self.now.store.most }
    {
        let store = self.store;
        store.passing_up_to(self.stamp, self.selector, most)
    }

    /// The rows that a cell keeps, with those that are not shown; `None` if it keeps none.
    pub fn cell(&self, cell: u32) -> Option<ShownCell<'a, S, P>>
        ensures rows { MatchOption result (kept_in cell self.now.store.kept ≡ []) (λ c. c ≡ record { cell = cell; g = self.now.store.g; rows = kept_in cell self.now.store.kept; stamp = self.now.stamp; ranges = self.now.ranges }) }
        ensures few { IfSome result (λ c. length c.rows ≤ 16777248) }
    {
        let store = self.store;
        let Some(view) = store.cell(cell) else {
            return None;
        };
        let whole = is_whole(store, &view, self.stamp, self.selector);
        Some(ShownCell {
            view,
            stamp: self.stamp,
            selector: self.selector,
            whole,
        })
    }
}

/// Whether the store and the selector tell at once that each row of a cell is shown.
fn is_whole<S: Shape, P: IdSelector>(
    store: &CellStore<S>,
    view: &CellView<'_, S>,
    stamp: u64,
    selector: &P,
) -> bool
    requires born { AllByRecursion (λ k. k.born ≤ store.now.stamp) view.now.rows }
    requires ids { AllByRecursion (λ k. k.row.id ≤ 2147483647) view.now.rows }
    ensures { result ≡ true → AllByRecursion (λ k. slot_passes (P.ranges selector.now) stamp (slot_of k) ≡ true) view.now.rows }
{
    if stamp != store.stamp() || stamp == NEVER || !selector.is_all() {
        return false;
    }
    view.all_live()
}

/// A cell as a snapshot shows it.
#[derive(Drop)]
pub struct ShownCell<'a, S: Shape, P: IdSelector> {
    view: CellView<'a, S>,
    stamp: u64,
    selector: &'a P,
    whole: bool,
}

impl<'a, S: Shape, P: IdSelector> Model for ShownCell<'a, S, P> {
    ghost use Rattle.cell_store.specs.Shown.{CellShown, IsShownCell};

    ghost Value = { CellShown };

    ghost view = { λ c. record { cell = c.view.cell; g = c.view.g; rows = c.view.rows; stamp = c.stamp; ranges = P.ranges c.selector.now } };

    ghost invariant = { λ c. P.can_pass c.selector.now × IsShownCell c.view (P.ranges c.selector.now) c.stamp c.whole };
}

impl<'a, S: Shape, P: IdSelector> ShownCell<'a, S, P> {
    /// How many rows the cell keeps.
    pub fn kept(&self) -> usize
        ensures rows { result ≡ length self.now.rows }
        ensures few { result ≤ 16777248 }
        ensures cell { AllByRecursion (λ k. k.row.cell ≡ self.now.cell) self.now.rows }
    {
        self.view.kept()
    }

    /// The n-th 32 slots of the cell.
    pub fn slots(&self, n: u32) -> &'a [Slot]
        requires { 32 * n < length self.now.rows }
        ensures slots { result.now ≡ map slot_of (take 32 (drop (32 * n) self.now.rows)) }
        ensures few { length result.now ≤ 32 }
        ensures ids { (i : ℕ) → i < length result.now → (slot_at result.now i).id ≤ 2147483647 }
    {
        self.view.slots(n)
    }

    /// The codes of the n-th 32 slots. Those past the last row mean nothing. The meter counts one.
    pub fn block(&self, n: u32, blocks: &mut BlockMeter) -> BlockRef<'a, S>
        requires there { 32 * n < length self.now.rows }
        requires meter { blocks.old ≤ 2 ^ 63 }
        ensures codes { (i : ℕ) → i < 32 → 32 * n + i < length self.now.rows → code_of_words S.widths (slice_index_or result i []) ≡ (row_at self.now.rows (32 * n + i)).row.code }
        ensures words { IsBlock S.widths self.now.g result }
        ensures meter { blocks.new ≡ blocks.old + 1 }
    {
        self.view.block(n, blocks)
    }

    /// Whether it is known without a look at the rows that each is shown.
    pub fn is_whole(&self) -> bool
        ensures { result ≡ true → AllByRecursion (λ k. slot_passes self.now.ranges self.now.stamp (slot_of k) ≡ true) self.now.rows }
    {
        self.whole
    }

    /// Whether the row of a slot is shown.
    pub fn shows(&self, slot: &Slot) -> bool
        requires { slot.now.id ≤ 2147483647 }
        ensures { result ≡ slot_passes self.now.ranges self.now.stamp slot.now }
    {
        lives(slot, self.stamp) && self.selector.passes(slot.id)
    }
}
