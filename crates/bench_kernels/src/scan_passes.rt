//! The pruned scan of a query over all cells of a store.
ghost use Rattle.std.specs.Prelude.{◌≡◌, ◌≤◌, [], length};
ghost use Rattle.cell_store.specs.Shown.{shown};
ghost use Rattle.adc_tables.specs.Full.{IsFilledFor};
ghost use Rattle.prune_scan.specs.Standing.{IsStanding};

use adc_tables::{FullTables, SmallTables};
use best_k::Best;
use cell_store::{CellStore, Snapshot};
use codebook_core::Codebook;
use id_filter::AllIds;
use prune_scan::{Meters, ScanState, scan_cell};
use shape_core::Shape;
use std::alloc::Global;

/// Scans all cells for a query that nothing was scanned for, and gives how many rows were full.
pub fn scan_fresh<S: Shape>(
    alloc: Global,
    _book: &Codebook<S>,
    _query: &[u8],
    store: &CellStore<S>,
    cells: u32,
    tables: &FullTables<S>,
    small: &mut SmallTables<S>,
    best: &mut Best,
) -> u64
    requires filled { IsFilledFor S.widths _book.now _query.now tables.now }
    requires tables { tables.now.g ≡ store.now.g }
    requires room { small.old.g ≡ store.now.g }
    requires some { 1 ≤ best.old.k }
    requires none { best.old.pairs ≡ [] }
{
    let mut state = ScanState {
        rows: 0,
        pruning: false,
        theta0: 0,
    };
    let mut meters = Meters::new(alloc);
    scan_all(store, cells, tables, small, best, &mut state, &mut meters);
    meters.full.count()
}

/// Scans all cells.
fn scan_all<S: Shape>(
    store: &CellStore<S>,
    cells: u32,
    tables: &FullTables<S>,
    small: &mut SmallTables<S>,
    best: &mut Best,
    state: &mut ScanState,
    meters: &mut Meters,
)
    requires standing { IsStanding S.widths tables.now state.old small.old best.old }
    requires tables { tables.now.g ≡ store.now.g }
    requires room { small.old.g ≡ store.now.g }
{
    let snapshot = Snapshot::new(store, store.stamp(), &AllIds);
    let _few = snapshot.count_up_to(1);
    for cell in 0..cells {
        scan_one(&snapshot, cell, tables, small, best, state, meters);
    }
}

/// Scans a cell, while the counts are small.
fn scan_one<S: Shape>(
    snapshot: &Snapshot<'_, S, AllIds>,
    cell: u32,
    tables: &FullTables<S>,
    small: &mut SmallTables<S>,
    best: &mut Best,
    state: &mut ScanState,
    meters: &mut Meters,
)
    requires standing { IsStanding S.widths tables.now state.old small.old best.old }
    requires tables { tables.now.g ≡ snapshot.now.store.g }
    requires room { small.old.g ≡ snapshot.now.store.g }
    requires few { length (shown snapshot.now) ≤ 8388608 }
    ensures standing { IsStanding S.widths tables.now state.new small.new best.new }
    ensures room { small.new.g ≡ snapshot.now.store.g }
{
    let most = 4_611_686_018_427_387_904;
    let blocks = meters.blocks.count();
    let counted = meters.full.count() > most || blocks > most || meters.lanes.count() > most;
    if counted || state.rows > 4_000_000_000 {
        return;
    }
    scan_cell(snapshot, cell, tables, small, best, state, meters);
}
