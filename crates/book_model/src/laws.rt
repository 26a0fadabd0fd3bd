//! Laws over the definitions, each carried by a call that does nothing.
ghost use Rattle.book_model.specs.Laws.{
  FullAreVisited,
  ThresholdFits,
  PrunesFar,
  DependsOnCells,
  NearestIsFirst,
  CellsAreOrdered,
  VisitIsShortest,
  VisitHoldsNeeded,
  RowsLieInCells,
  AnswerIsLeast,
};

/// The full rows of a query are visited rows, and the first k visited rows are full.
#[tactic(auto, using(crate::proofs::Fullness::full_are_visited))]
pub fn full_are_visited()
    ensures { FullAreVisited }
{}

/// A threshold is at most 254.
#[tactic(auto, using(crate::proofs::Pruning::threshold_fits))]
pub fn threshold_fits()
    ensures { ThresholdFits }
{}

/// A bound above the threshold means a distance above the k-th least.
#[tactic(auto, using(crate::proofs::Pruning::prunes_far))]
pub fn prunes_far()
    ensures { PrunesFar }
{}

/// Visit, answer and full count depend on the rows of each cell in their order alone.
pub fn depends_on_cells()
    ensures { DependsOnCells }
{}

/// No word lies nearer than the nearest, and those before it lie farther.
#[tactic(auto, using(crate::proofs::Nearest::nearest_is_first))]
pub fn nearest_is_first()
    ensures { NearestIsFirst }
{}

/// The cell order has each cell once, in rising order of (sum, number).
pub fn cells_are_ordered()
    ensures { CellsAreOrdered }
{}

/// A visit is the shortest prefix of the cell order that holds the needed passing rows.
#[tactic(auto, using(crate::proofs::Cells::visit_is_shortest))]
pub fn visit_is_shortest()
    ensures { VisitIsShortest }
{}

/// If the rows lie in the book's cells, a visit holds at least as many passing rows as are needed.
pub fn visit_holds_needed()
    ensures { VisitHoldsNeeded }
{}

/// The row of a vector lies in a cell of the book.
pub fn rows_lie_in_cells()
    ensures { RowsLieInCells }
{}

/// An answer is the k least pairs of the visited rows in rising order, or all of them if there are fewer.
pub fn answer_is_least()
    ensures { AnswerIsLeast }
{}
