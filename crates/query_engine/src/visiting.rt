//! What comes after a query was asked: its visit, cell by cell.
ghost use Rattle.std.specs.Prelude.{◌≡◌, ℕ, ◌+◌, ◌*◌, ◌-◌, ◌^◌, ◌≤◌, List, length, min};
ghost use Rattle.book_model.specs.Book.{Book};
ghost use Rattle.book_model.specs.Rows.{Row};
ghost use Rattle.cell_store.specs.Shown.{shown};
ghost use Rattle.query_engine.specs.Parts.{StandsFor, IsAsked, SameQuery};
ghost use Rattle.query_engine.specs.Progress.{HasVisited, Costs, visit_length};
ghost use Rattle.query_engine.specs.Report.{query_of, Answers, HaveRoom, CanVisit};

use crate::{Meters, Report, Scratch};
use cell_store::{CellStore, Snapshot};
use id_filter::IdSelector;
use shape_core::Shape;

impl<S: Shape> Scratch<S> {
    /// Begins the visit of the query that was asked, for its k least pairs.
    pub fn begin(&mut self, k: u32, meters: &mut Meters)
        requires asked { IsAsked S.widths self.old.ranks self.old.full }
        requires small { self.old.small.g ≡ self.old.full.g }
        requires some { 1 ≤ k }
        requires few { k ≤ self.old.best.room }
        requires pairs { meters.old.pairs ≤ 2 ^ 62 }
        ensures visited { (rows : List Row) → HasVisited S.widths rows self.new }
        ensures none { self.new.walk.given ≡ 0 }
        ensures rows { self.new.state.rows ≡ 0 }
        ensures stays { (self.new.ranks ≡ self.old.ranks) × (self.new.full ≡ self.old.full) × (self.new.small ≡ self.old.small) }
        ensures best { (self.new.best.k ≡ k) × (self.new.best.room ≡ self.old.best.room) }
        ensures pairs { (meters.old.pairs ≤ meters.new.pairs) × (meters.new.pairs ≤ meters.old.pairs + 1) }
        ensures others { meters.new ≡ record meters.old { pairs = meters.new.pairs } }
    {
        self.visit.scanner.begin(k);
        self.visit.start(meters);
    }

    /// Goes on with a visit that is to hold `needed` of the rows that a snapshot shows, by at most `budget` cells, and answers
    /// how many it visited.
    pub fn go_on<P: IdSelector>(
        &mut self,
        snapshot: &Snapshot<'_, S, P>,
        needed: u32,
        budget: u32,
        meters: &mut Meters,
    ) -> u32
        requires asked { IsAsked S.widths self.old.ranks self.old.full }
        requires g { self.old.full.g ≡ snapshot.now.store.g }
        requires visited { HasVisited S.widths (shown snapshot.now) self.old }
        requires within { self.old.walk.given ≤ visit_length (shown snapshot.now) needed self.old.ranks }
        requires rows { length (shown snapshot.now) ≤ 8388608 }
        requires meters { CanVisit meters.old }
        ensures visited { HasVisited S.widths (shown snapshot.now) self.new }
        ensures given { self.new.walk.given ≡ self.old.walk.given + result }
        ensures cells { result ≡ min budget (visit_length (shown snapshot.now) needed self.old.ranks - self.old.walk.given) }
        ensures same { SameQuery self.old self.new }
        ensures few { self.new.state.rows ≤ 16777216 }
        ensures costs { Costs S.widths snapshot.now self.old self.new.walk.given meters.old meters.new }
    {
        self.visit.go_on(&(), snapshot, needed, budget, meters)
    }
}

/// Does all of a query that comes after `ask`. It is given no book and no query: what it promises holds of each book and
/// query that the scratch stands for.
pub fn visit<S: Shape, P: IdSelector>(
    store: &CellStore<S>,
    scratch: &mut Scratch<S>,
    k: u32,
    wanted: u32,
    selector: &P,
    meters: &mut Meters,
) -> Report
    requires selector { P.can_pass selector.now }
    requires asked { IsAsked S.widths scratch.old.ranks scratch.old.full }
    requires g { scratch.old.full.g ≡ store.now.g }
    requires small { scratch.old.small.g ≡ store.now.g }
    requires some { 1 ≤ k }
    requires few { k ≤ scratch.old.best.room }
    requires wanted_some { 1 ≤ wanted }
    requires wanted_few { wanted ≤ 4194304 }
    requires meters { HaveRoom meters.old }
    ensures answers { (book : Book) (query : List ℕ) → StandsFor S.widths book query scratch.old.ranks scratch.old.full →
        Answers book (query_of query k wanted (P.ranges selector.now)) store.now scratch.new.best result meters.old meters.new }
    ensures stands { (scratch.new.ranks ≡ scratch.old.ranks) × (scratch.new.full ≡ scratch.old.full) }
    ensures rooms { (scratch.new.small.g ≡ scratch.old.small.g) × (scratch.new.best.room ≡ scratch.old.best.room) }
{
    let snapshot = Snapshot::new(store, store.stamp(), selector);
    let needed = snapshot.count_up_to(wanted);
    let before = meters.full.count();
    scratch.begin(k, meters);
    let cells = scratch.go_on(&snapshot, needed, u32::MAX, meters);
    let live = scratch.rows();
    let full = (meters.full.count() - before) as u32;
    Report { cells, live, full }
}
