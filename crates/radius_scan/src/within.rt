//! The scan of cells by a radius.
ghost use Rattle.std.specs.Prelude.{◌≡◌, ℕ, ◌+◌, ◌≤◌, [], length, vec_len, vec_capacity};
ghost use Rattle.cell_store.specs.Shown.{shown_rows};
ghost use Rattle.prune_scan.specs.Work.{CanScan, Reads};
ghost use Rattle.radius_scan.specs.Found.{Scans, IsThreshold, IsReach};

use crate::block::{Reach, reach_of, scan_block};
use adc_tables::{FullTables, SmallTables};
use best_k::Pair;
use cell_store::{ShownCell, Snapshot};
use id_filter::IdSelector;
use prune_scan::{count_below, marks_of};
use query_engine::{Meters, Scanner};
use shape_core::Shape;

/// What scans by a radius: full tables, small tables that are filled for it, and the pairs of the rows within it.
#[derive(Drop)]
pub struct Within<S: Shape> {
    pub(crate) tables: FullTables<S>,
    pub(crate) small: SmallTables<S>,
    pub(crate) reach: Reach,
    pub(crate) pairs: Vec<Pair>,
}

impl<S: Shape> Within<S> {
    /// Begins with a radius, and no pairs.
    pub(crate) fn begin(&mut self, radius: u64)
        requires { self.old.tables.g ≡ self.old.small.g }
        ensures reach { IsReach S.widths self.new.tables self.new.small self.new.reach }
        ensures radius { self.new.reach.radius ≡ radius }
        ensures tables { self.new.tables ≡ self.old.tables }
        ensures room { self.new.small.g ≡ self.old.small.g }
        ensures none { self.new.pairs.items ≡ [] }
        ensures capacity { vec_capacity self.old.pairs ≤ vec_capacity self.new.pairs }
    {
        self.reach = reach_of(&self.tables, &mut self.small, radius);
        self.pairs.clear();
    }
}

impl<S: Shape> Scanner<S, ()> for Within<S> {
    ghost use Rattle.book_model.specs.Visit.{rows_of_cells};
    ghost use Rattle.radius_scan.specs.Going.{IsReady, Went, ready_less, went_none, went_next};

    ghost is_ready = { λ _ s w store n. IsReady S.widths s w store n };

    ghost scans = { λ _ a b _ rows u v. Went S.widths a b rows u v };

    ghost went = { λ _ a b rows cells u v. Went S.widths a b (rows_of_cells rows cells) u v };

    /// The pairs of the rows within the radius come behind those that are there. If the radius has no threshold the rows are
    /// counted, and no block is read.
    fn scan<P: IdSelector>(
        &mut self,
        _asked: &(),
        snapshot: &Snapshot<'_, S, P>,
        cell: u32,
        meters: &mut Meters,
    ) -> u32 {
        match self.reach.most {
            Some(most) => match snapshot.cell(cell) {
                Some(shown) => {
                    let radius = self.reach.radius;
                    scan_shown(
                        &shown,
                        &self.tables,
                        &self.small,
                        radius,
                        most,
                        &mut self.pairs,
                        meters,
                    )
                }
                None => 0,
            },
            None => snapshot.count(cell),
        }
    }

    ghost ready_less = { λ _ s w store n m ready. ready_less S.widths s w store n m ready };

    ghost went_none = { λ _ s _ w. went_none S.widths s w };

    ghost went_next = { λ _ a b c rows cells cell u v w one two. went_next S.widths a b c rows cells cell u v w one two };
}

/// Scans the rows of a cell that are shown by a radius that has a threshold, with one lane call a block.
fn scan_shown<S: Shape, P: IdSelector>(
    cell: &ShownCell<'_, S, P>,
    tables: &FullTables<S>,
    small: &SmallTables<S>,
    radius: u64,
    most: u8,
    pairs: &mut Vec<Pair>,
    meters: &mut Meters,
) -> u32
    requires threshold { IsThreshold S.widths tables.now small.now radius most }
    requires tables { tables.now.g ≡ cell.now.g }
    requires small { small.now.g ≡ cell.now.g }
    requires room { vec_len pairs.old + length (shown_rows cell.now) ≤ vec_capacity pairs.old }
    requires meters { CanScan meters.old }
    ensures rows { result ≡ length (shown_rows cell.now) }
    ensures scans { Scans S.widths tables.now radius (shown_rows cell.now) pairs.old.items pairs.new.items meters.old.full meters.new.full }
    ensures capacity { vec_capacity pairs.old ≤ vec_capacity pairs.new }
    ensures reads { Reads (length cell.now.rows) meters.old meters.new }
    ensures others { (meters.new.half_full ≡ meters.old.half_full) × (meters.new.halves ≡ meters.old.halves) }
{
    let groups = cell.kept().div_ceil(32) as u32;
    let mut rows = 0;
    for n in 0..groups {
        let marks = marks_of(cell, n);
        let slots = cell.slots(n);
        let block = cell.block(n, &mut meters.blocks);
        scan_block(
            slots,
            marks,
            &block,
            tables,
            small,
            radius,
            most,
            pairs,
            &mut meters.full,
            &mut meters.lanes,
        );
        rows += count_below(marks, 32);
    }
    rows
}
