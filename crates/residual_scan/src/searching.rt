//! The search of a residual engine.
ghost use Rattle.std.specs.Prelude.{◌≡◌, ◌*◌, ◌≤◌, length};
ghost use Rattle.half_tables.specs.Residual.{IsResidual};
ghost use Rattle.query_engine.specs.Report.{query_of};
ghost use Rattle.residual_scan.specs.Report.{scratch_of, HasRoomFor, HaveRoom, Answers};

use crate::halved::{Asking, Halved};
use crate::{ResidualEngine, ResidualScratch};
use cell_store::{CellStore, Snapshot};
use id_filter::IdSelector;
use query_engine::{Meters, Report, Visit};
use shape_core::Shape;

impl<S: Shape> ResidualEngine<S> {
    /// Answers a query of d components with the k nearest by residual distance, 1 to 1000, of the allowed live rows in the first
    /// cells that hold as many of them as are wanted, 1 to 4,194,304, or all there are. The answer stands in the scratch. It takes
    /// no memory.
    pub fn search<P: IdSelector>(
        &self,
        scratch: &mut ResidualScratch<S>,
        query: &[u8],
        k: u32,
        wanted: u32,
        selector: &P,
        meters: &mut Meters,
    ) -> Report
        requires selector { P.can_pass selector.now }
        requires room { HasRoomFor self.now.book scratch.old }
        requires query { length query.now ≡ self.now.book.d }
        requires some { 1 ≤ k }
        requires few { k ≤ scratch.old.best.room }
        requires wanted_some { 1 ≤ wanted }
        requires wanted_few { wanted ≤ 4194304 }
        requires meters { HaveRoom meters.old }
        ensures answers { Answers self.now.book (query_of query.now k wanted (P.ranges selector.now)) self.now.store scratch.old.cache scratch.new.best result meters.old meters.new }
        ensures room { HasRoomFor self.now.book scratch.new }
        ensures best_room { scratch.new.best.room ≡ scratch.old.best.room }
        ensures cache { scratch.new.cache ≡ scratch.old.cache }
    {
        let _book = self.book();
        let asked = Asking {
            book: &self.book,
            query,
        };
        answer(
            &mut scratch.visit,
            &asked,
            &self.store,
            k,
            wanted,
            selector,
            meters,
        )
    }
}

/// Answers a query over the live rows of a store of the book's sizes: ranks the coarse words, and visits cells until they hold
/// the rows that are wanted.
fn answer<S: Shape, P: IdSelector>(
    visit: &mut Visit<Halved<S>>,
    asked: &Asking<'_, S>,
    store: &CellStore<S>,
    k: u32,
    wanted: u32,
    selector: &P,
    meters: &mut Meters,
) -> Report
    requires selector { P.can_pass selector.now }
    requires residual { IsResidual asked.now.book.now }
    requires g { store.now.g ≡ asked.now.book.now.g }
    requires cells { store.now.cells ≡ asked.now.book.now.k0 * asked.now.book.now.k1 }
    requires room { HasRoomFor asked.now.book.now (scratch_of visit.old) }
    requires query { length asked.now.query.now ≡ asked.now.book.now.d }
    requires some { 1 ≤ k }
    requires few { k ≤ visit.old.scanner.best.room }
    requires wanted_few { wanted ≤ 4194304 }
    requires meters { HaveRoom meters.old }
    ensures answers { Answers asked.now.book.now (query_of asked.now.query.now k wanted (P.ranges selector.now)) store.now visit.old.scanner.cache visit.new.scanner.best result meters.old meters.new }
    ensures room { HasRoomFor asked.now.book.now (scratch_of visit.new) }
    ensures best_room { visit.new.scanner.best.room ≡ visit.old.scanner.best.room }
    ensures cache { visit.new.scanner.cache ≡ visit.old.scanner.cache }
{
    let snapshot = Snapshot::new(store, store.stamp(), selector);
    let needed = snapshot.count_up_to(wanted);
    let _d = asked.book.d();
    let before = meters.half_full.count();
    visit.ranks.fill(asked.book, asked.query);
    visit.scanner.begin(k);
    visit.start(meters);
    let cells = visit.go_on(asked, &snapshot, needed, u32::MAX, meters);
    Report {
        cells,
        live: visit.rows,
        full: (meters.half_full.count() - before) as u32,
    }
}
