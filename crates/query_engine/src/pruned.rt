//! The scan of cells for the k least pairs.
ghost use Rattle.std.specs.Prelude.{◌≡◌, ℕ, ◌≤◌, List, []};
ghost use Rattle.book_model.specs.Book.{Book};
ghost use Rattle.adc_tables.specs.Full.{IsFilledFor};
ghost use Rattle.prune_scan.specs.Standing.{Stands};

use crate::{Meters, Scanner};
use adc_tables::{FullTables, SmallTables};
use best_k::Best;
use cell_store::Snapshot;
use id_filter::IdSelector;
use prune_scan::{ScanState, scan_cell};
use shape_core::Shape;

/// What scans for the k least: full and small tables, the best pairs, and how far the scan has come.
#[derive(Drop)]
pub struct Pruned<S: Shape> {
    pub(crate) tables: FullTables<S>,
    pub(crate) small: SmallTables<S>,
    pub(crate) best: Best,
    pub(crate) state: ScanState,
}

impl<S: Shape> Pruned<S> {
    /// Begins with no rows.
    pub(crate) fn begin(&mut self, k: u32)
        requires some { 1 ≤ k }
        requires few { k ≤ self.old.best.room }
        ensures fresh { (book : Book) (query : List ℕ) → IsFilledFor S.widths book query self.new.tables → Stands S.widths self.new.tables book query [] self.new.state self.new.small self.new.best }
        ensures rest { self.new ≡ record self.old { best = self.new.best; state = self.new.state } }
        ensures rows { self.new.state.rows ≡ 0 }
        ensures best { (self.new.best.k ≡ k) × (self.new.best.room ≡ self.old.best.room) }
    {
        self.best.start(k);
        self.state = ScanState::START;
    }
}

impl<S: Shape> Scanner<S, ()> for Pruned<S> {
    ghost use Rattle.book_model.specs.Visit.{rows_of_cells};
    ghost use Rattle.query_engine.specs.Pruning.{IsReady, Went, ready_less, went_none, went_next};

    ghost is_ready = { λ _ s w store n. IsReady S.widths s w store n };

    ghost scans = { λ _ a b _ rows u v. Went S.widths a b rows u v };

    ghost went = { λ _ a b rows cells u v. Went S.widths a b (rows_of_cells rows cells) u v };

    fn scan<P: IdSelector>(
        &mut self,
        _asked: &(),
        snapshot: &Snapshot<'_, S, P>,
        cell: u32,
        meters: &mut Meters,
    ) -> u32 {
        let before = self.state.rows;
        scan_cell(
            snapshot,
            cell,
            &self.tables,
            &mut self.small,
            &mut self.best,
            &mut self.state,
            meters,
        );
        self.state.rows - before
    }

    ghost ready_less = { λ _ s w store n m ready. ready_less S.widths s w store n m ready };

    ghost went_none = { λ _ s _ w. went_none S.widths s w };

    ghost went_next = { λ _ a b c rows cells cell u v w one two. went_next S.widths a b c rows cells cell u v w one two };
}
