//! A visit by whatever scans its cells.
ghost use Rattle.std.specs.Prelude.{◌≡◌, ℕ, ◌+◌, ◌-◌, ◌^◌, ◌<◌, ◌≤◌, List, [], ◌∷◌, ◌++◌, true, false, length, min};
ghost use Rattle.book_model.specs.Order.{Pair};
ghost use Rattle.book_model.specs.Rows.{Row, rows_in};
ghost use Rattle.cell_store.specs.State.{Store, kept_in};
ghost use Rattle.cell_store.specs.Shown.{shown, shown_in};
ghost use Rattle.coarse_rank.specs.Ranked.{cells_of, IsFilled};
ghost use Rattle.pair_walk.specs.Walking.{IsWalkOver};
ghost use Rattle.prune_scan.specs.Work.{CanRead, Reads};
ghost use Rattle.query_engine.specs.Progress.{visit_length};
ghost use Rattle.query_engine.specs.Report.{CanGo};

use crate::Meters;
use cell_store::Snapshot;
use coarse_rank::Ranks;
use id_filter::IdSelector;
use pair_walk::Walk;
use shape_core::Shape;

/// What scans the rows of a cell for whoever asked (`A`).
pub trait Scanner<S: Shape, A> {
    ghost use Rattle.query_engine.specs.Scanning.{Work, work_of};

    /// At this cost so far, it is ready for n rows more of a store.
    ghost is_ready: { A → Self → Work → Store → ℕ → Type 0 };

    /// It scanned these rows of a cell, at a cost.
    ghost scans: { A → Self → Self → ℕ → List Row → Work → Work → Type 0 };

    /// It went on over cells, and scanned those of the rows that are theirs.
    ghost went: { A → Self → Self → List Row → List Pair → Work → Work → Type 0 };

    /// Scans the rows of a cell that a snapshot shows, in their order, and answers how many there are.
    fn scan<P: IdSelector>(
        &mut self,
        asked: &A,
        snapshot: &Snapshot<'_, S, P>,
        cell: u32,
        meters: &mut Meters,
    ) -> u32
        requires ready { is_ready asked.now self.old (work_of meters.old) snapshot.now.store (length (shown_in cell snapshot.now)) }
        requires meters { CanRead meters.old }
        ensures rows { result ≡ length (shown_in cell snapshot.now) }
        ensures scans { scans asked.now self.old self.new cell (shown_in cell snapshot.now) (work_of meters.old) (work_of meters.new) }
        ensures ready { (n : ℕ) → is_ready asked.now self.old (work_of meters.old) snapshot.now.store (length (shown_in cell snapshot.now) + n) → is_ready asked.now self.new (work_of meters.new) snapshot.now.store n }
        ensures reads { Reads (length (kept_in cell snapshot.now.store.kept)) meters.old meters.new };

    ghost ready_less: { (asked : A) (s : Self) (w : Work) (store : Store) (n m : ℕ) → is_ready asked s w store (n + m) → is_ready asked s w store n };

    ghost went_none: { (asked : A) (s : Self) (rows : List Row) (w : Work) → went asked s s rows [] w w };

    ghost went_next: { (asked : A) (a b c : Self) (rows : List Row) (cells : List Pair) (cell : Pair) (u v w : Work) → went asked a b rows cells u v → scans asked b c cell.1 (rows_in cell.1 rows) v w → went asked a c rows (cells ++ cell ∷ []) u w };
}

/// A visit: ranked coarse words, a walk over them, how many rows it saw, and what scans them.
#[derive(Drop)]
pub struct Visit<C> {
    pub ranks: Ranks,
    pub walk: Walk,
    pub rows: u32,
    pub scanner: C,
}

impl<C> Visit<C> {
    ghost use Rattle.query_engine.specs.Scanning.{IsVisit, GoesOn, GoesFurther};

    /// Begins at the first cell.
    pub fn start(&mut self, meters: &mut Meters)
        requires filled { IsFilled self.old.ranks }
        requires pairs { meters.old.pairs ≤ 2 ^ 62 }
        ensures over { IsWalkOver self.new.ranks self.new.walk }
        ensures none { self.new.walk.given ≡ 0 }
        ensures rest { self.new ≡ record self.old { walk = self.new.walk; rows = 0 } }
        ensures pairs { (meters.old.pairs ≤ meters.new.pairs) × (meters.new.pairs ≤ meters.old.pairs + 1) }
        ensures others { meters.new ≡ record meters.old { pairs = meters.new.pairs } }
    {
        self.walk.start(&self.ranks, &mut meters.pairs);
        self.rows = 0;
    }

    /// Visits the next cell of the walk. It says whether there was a cell.
    fn visit_next<S: Shape, A, P: IdSelector>(
        &mut self,
        asked: &A,
        snapshot: &Snapshot<'_, S, P>,
        meters: &mut Meters,
    ) -> bool
    where
        C: Scanner<S, A>,
        requires is { IsVisit C.is_ready asked.now snapshot.now self.old meters.old }
        requires meters { CanRead meters.old }
        requires pairs { meters.old.pairs ≤ 2 ^ 62 + 2 ^ 32 }
        ensures is { IsVisit C.is_ready asked.now snapshot.now self.new meters.new }
        ensures there { result ≡ true → (self.new.walk.given ≡ self.old.walk.given + 1) × (self.old.walk.given < length (cells_of self.old.ranks)) }
        ensures none { result ≡ false → (self.new.walk.given ≡ self.old.walk.given) × (length (cells_of self.old.ranks) ≤ self.old.walk.given) }
        ensures goes { GoesFurther C.went asked.now snapshot.now self.old self.new meters.old meters.new }
    {
        match self.walk.next(&self.ranks, &mut meters.pairs) {
            Some(cell) => {
                self.rows += self.scanner.scan(asked, snapshot, cell.number, meters);
                true
            }
            None => false,
        }
    }

    /// Goes on until `needed` of the rows that a snapshot shows were seen, `budget` cells were visited, or none is left, and
    /// answers how many it visited.
    pub fn go_on<S: Shape, A, P: IdSelector>(
        &mut self,
        asked: &A,
        snapshot: &Snapshot<'_, S, P>,
        needed: u32,
        budget: u32,
        meters: &mut Meters,
    ) -> u32
    where
        C: Scanner<S, A>,
        requires is { IsVisit C.is_ready asked.now snapshot.now self.old meters.old }
        requires within { self.old.walk.given ≤ visit_length (shown snapshot.now) needed self.old.ranks }
        requires meters { CanGo meters.old }
        ensures is { IsVisit C.is_ready asked.now snapshot.now self.new meters.new }
        ensures given { self.new.walk.given ≡ self.old.walk.given + result }
        ensures cells { result ≡ min budget (visit_length (shown snapshot.now) needed self.old.ranks - self.old.walk.given) }
        ensures goes { GoesOn C.went asked.now snapshot.now self.old self.new meters.old meters.new }
    {
        for n in 0..budget {
            if needed <= self.rows {
                return n;
            }
            if !self.visit_next(asked, snapshot, meters) {
                return n;
            }
        }
        budget
    }
}
