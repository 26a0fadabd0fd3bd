//! The scan of cells by the tables of their two halves.
ghost use Rattle.std.specs.Prelude.{◌≡◌, ℕ, ◌<◌, ◌≤◌, [], length, slice_index};

use crate::cell::scan_cell;
use crate::keeping::ready;
use best_k::Best;
use cell_store::Snapshot;
use codebook_core::Codebook;
use half_tables::HalfTable;
use id_filter::IdSelector;
use lane_kernels::SplitTable;
use lru::LruCache;
use query_engine::{Meters, Scanner};
use shape_core::Shape;

/// A query by a book.
#[derive(Clone, Copy)]
pub struct Asking<'a, S: Shape> {
    pub book: &'a Codebook<S>,
    pub query: &'a [u8],
}

/// What scans by halves: their tables, of which each slot of the cache has one, a small table for each sub-quantizer, and the
/// k least pairs. `places` has for each coarse word of both parts the slot that has its table.
#[derive(Drop)]
pub struct Halved<S: Shape> {
    pub(crate) tables: Vec<HalfTable<S>>,
    pub(crate) parts: Vec<SplitTable>,
    pub(crate) best: Best,
    pub(crate) places: Vec<u32>,
    pub(crate) cache: u32,
    pub(crate) slots: Option<LruCache<u32, u32>>,
}

impl<S: Shape> Halved<S> {
    /// Begins a query for the k least pairs: no slot has a table of it.
    pub(crate) fn begin(&mut self, k: u32)
        requires some { 1 ≤ k }
        requires few { k ≤ self.old.best.room }
        ensures places { (key : ℕ) → key < length self.new.places.items → slice_index self.new.places.items key ≡ self.old.cache }
        ensures count { length self.new.places.items ≡ length self.old.places.items }
        ensures best { self.new.best ≡ record self.old.best { k = k; pairs = [] } }
        ensures rest { self.new ≡ record self.old { places = self.new.places; best = self.new.best } }
    {
        self.best.start(k);
        clear(&mut self.places, self.cache);
    }
}

/// Sets each place to that of no slot.
fn clear(places: &mut [u32], none: u32)
    ensures { (key : ℕ) → key < length places.new → slice_index places.new key ≡ none }
{
    for place in places.iter_mut() {
        *place = none;
    }
}

impl<'a, S: Shape> Scanner<S, Asking<'a, S>> for Halved<S> {
    ghost use Rattle.residual_scan.specs.Halving.{IsReady, CellScans, Went, ready_less, went_none, went_next};

    ghost is_ready = { λ asked s w store n. IsReady S.widths asked.book.now asked.query.now s w store n };

    ghost scans = { λ asked a b cell rows u v. CellScans asked.book.now asked.query.now a b cell rows u v };

    ghost went = { λ asked a b rows cells u v. Went asked.book.now asked.query.now a b rows cells u v };

    /// A cell without a row that is shown costs nothing.
    fn scan<P: IdSelector>(
        &mut self,
        asked: &Asking<'a, S>,
        snapshot: &Snapshot<'_, S, P>,
        cell: u32,
        meters: &mut Meters,
    ) -> u32 {
        let rows = snapshot.count(cell);
        if rows == 0 {
            return 0;
        }
        let at = ready(
            asked.book,
            asked.query,
            cell,
            &mut self.tables,
            &mut self.slots,
            &mut self.places,
            &mut meters.halves,
        );
        scan_cell(
            snapshot,
            cell,
            &self.tables[at.low as usize],
            &self.tables[at.high as usize],
            &mut self.parts,
            &mut self.best,
            meters,
        );
        rows
    }

    ghost ready_less = { λ asked s w store n m is. ready_less S.widths asked.book.now asked.query.now s w store n m is };

    ghost went_none = { λ asked s rows w. went_none asked.book.now asked.query.now s rows w };

    ghost went_next = { λ asked a b c rows cells cell u v w one two. went_next asked.book.now asked.query.now a b c rows cells cell u v w one two };
}
