//! The visit of a query by radius.
ghost use Rattle.std.specs.Prelude.{◌≡◌, ℕ, ◌*◌, ◌≤◌, List, length, map, vec_capacity};
ghost use Rattle.book_model.specs.Book.{Book};
ghost use Rattle.best_k.specs.Least.{key_of};
ghost use Rattle.cell_store.specs.State.{live_rows};
ghost use Rattle.query_engine.specs.Parts.{StandsFor, IsAsked};
ghost use Rattle.query_engine.specs.Report.{HaveRoom};
ghost use Rattle.radius_scan.specs.Report.{radius_query, Finds};

use crate::within::Within;
use cell_store::{CellStore, Snapshot};
use id_filter::IdSelector;
use query_engine::{Meters, Report, Visit};
use shape_core::Shape;

/// Does all of a query that comes after ranks and full tables were filled. It is given no book and no query: what it promises
/// holds of each book and query that they stand for.
pub(crate) fn find_rows<S: Shape, P: IdSelector>(
    visit: &mut Visit<Within<S>>,
    store: &CellStore<S>,
    radius: u64,
    wanted: u32,
    selector: &P,
    meters: &mut Meters,
) -> Report
    requires selector { P.can_pass selector.now }
    requires asked { IsAsked S.widths visit.old.ranks visit.old.scanner.tables }
    requires tables { visit.old.scanner.tables.g ≡ store.now.g }
    requires small { visit.old.scanner.small.g ≡ store.now.g }
    requires cells { store.now.cells ≡ visit.old.ranks.k0 * visit.old.ranks.k1 }
    requires room { length (live_rows store.now) ≤ vec_capacity visit.old.scanner.pairs }
    requires wanted_some { 1 ≤ wanted }
    requires wanted_few { wanted ≤ 4194304 }
    requires meters { HaveRoom meters.old }
    ensures finds { (book : Book) (query : List ℕ) → StandsFor S.widths book query visit.old.ranks visit.old.scanner.tables →
        Finds book (radius_query query wanted (P.ranges selector.now)) radius store.now (map key_of visit.new.scanner.pairs.items) result meters.old meters.new }
    ensures stays { (visit.new.ranks ≡ visit.old.ranks) × (visit.new.scanner.tables ≡ visit.old.scanner.tables) × (visit.new.scanner.small.g ≡ visit.old.scanner.small.g) }
    ensures capacity { vec_capacity visit.old.scanner.pairs ≤ vec_capacity visit.new.scanner.pairs }
{
    let snapshot = Snapshot::new(store, store.stamp(), selector);
    let needed = snapshot.count_up_to(wanted);
    let before = meters.full.count();
    visit.scanner.begin(radius);
    visit.start(meters);
    let cells = visit.go_on(&(), &snapshot, needed, u32::MAX, meters);
    visit.scanner.pairs.sort_unstable();
    Report {
        cells,
        live: visit.rows,
        full: (meters.full.count() - before) as u32,
    }
}
