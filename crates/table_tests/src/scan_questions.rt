//! Questions about a store of four cells with codes of one word, for the tests.
ghost use Rattle.std.specs.Prelude.{◌≡◌, ◌≤◌, false, [], ◌∷◌};
ghost use Rattle.adc_tables.specs.Full.{IsFilledFor};
ghost use Rattle.cell_store.specs.State.{IsHeldStamp};
ghost use Rattle.prune_scan.specs.Standing.{IsStanding};

use adc_tables::{FullTables, SmallTables};
use best_k::{Best, Pair};
use cell_store::{Absent, CellStore, InsertRefusal, Snapshot};
use codebook_core::{AnyBook, Codebook, decode};
use id_filter::IdRange;
use prune_scan::{Meters, ScanState, scan_cell};
use shape_core::Fields;
use std::alloc::{AllocError, Global};
use std::process::Abort;

pub(crate) type Shape4444 = Fields<4, 4, 4, 4>;

/// The word w of each of four sub-quantizers is 16 w.
fn small_book(alloc: Global) -> Result<Vec<u8>, AllocError> {
    let mut bytes = b"ADCBOOK1".to_vec(alloc)?;
    bytes.extend_from_slice(&[4, 0, 2, 0, 2, 0, 2, 0, 0, 1, 1, 0, 1, 0, 1, 0, 1, 0])?;
    bytes.extend_from_slice(&[0, 0, 128, 128, 0, 0, 128, 128])?;
    for i in 0..64u8 {
        bytes.push(i % 16 * 16)?;
    }
    Ok(bytes)
}

/// The small book.
fn book(rt: &impl Abort, alloc: Global) -> Codebook<Shape4444> {
    let bytes = small_book(alloc).expect(rt, "memory");
    match decode(alloc, &bytes) {
        Ok(AnyBook::F4444(book)) => book,
        _ => rt.panic("another book"),
    }
}

/// What is asked: the k nearest to a query, of the ids from `lo` to `hi`.
#[derive(Drop)]
pub(crate) struct Question {
    pub query: [u8; 4],
    pub lo: u32,
    pub hi: u32,
    pub k: u32,
}

/// What a scan left: the nearest pairs in order, and the counts of full rows, blocks and lane calls.
#[derive(Drop)]
pub(crate) struct Scanned {
    pub pairs: Vec<Pair>,
    pub full: u64,
    pub blocks: u64,
    pub calls: u64,
}

/// Scans the four cells of a store at a stamp.
pub(crate) fn ask(
    rt: &impl Abort,
    alloc: Global,
    store: &CellStore<Shape4444>,
    stamp: u64,
    question: &Question,
) -> Scanned
    requires g { store.now.g ≡ 1 }
    requires stamp { IsHeldStamp store.now stamp }
    requires some { 1 ≤ question.now.k }
    requires most { question.now.k ≤ 1000 }
{
    let book = book(rt, alloc);
    assert_eq!(rt; book.d(), 4);
    assert_eq!(rt; book.g(), 1);
    let mut tables = FullTables::with_room(alloc, &book).expect(rt, "memory");
    tables.fill(&book, &question.query);
    ask_by(rt, alloc, &book, &tables, store, stamp, question)
}

fn ask_by(
    rt: &impl Abort,
    alloc: Global,
    _book: &Codebook<Shape4444>,
    tables: &FullTables<Shape4444>,
    store: &CellStore<Shape4444>,
    stamp: u64,
    question: &Question,
) -> Scanned
    requires filled { IsFilledFor (4 ∷ 4 ∷ 4 ∷ 4 ∷ []) _book.now question.now.query tables.now }
    requires tables { tables.now.g ≡ 1 }
    requires g { store.now.g ≡ 1 }
    requires stamp { IsHeldStamp store.now stamp }
    requires some { 1 ≤ question.now.k }
    requires most { question.now.k ≤ 1000 }
{
    let Ok(mut small) = SmallTables::with_room(alloc, 1) else {
        rt.panic("memory")
    };
    let Ok(mut best) = Best::with_room(alloc, question.k) else {
        rt.panic("memory")
    };
    let (lo, hi) = (question.lo, question.hi);
    let range = IdRange { lo, hi };
    let snapshot = Snapshot::new(store, stamp, &range);
    let mut meters = Meters::new(alloc);
    scan_cells(rt, &snapshot, tables, &mut small, &mut best, &mut meters);
    let mut pairs = Vec::new(alloc);
    pairs.extend_from_slice(best.finish()).expect(rt, "memory");
    Scanned {
        pairs,
        full: meters.full.count(),
        blocks: meters.blocks.count(),
        calls: meters.lanes.count(),
    }
}

/// Scans the four cells for a query that nothing was scanned for.
fn scan_cells(
    rt: &impl Abort,
    snapshot: &Snapshot<'_, Shape4444, IdRange>,
    tables: &FullTables<Shape4444>,
    small: &mut SmallTables<Shape4444>,
    best: &mut Best,
    meters: &mut Meters,
)
    requires standing { IsStanding (4 ∷ 4 ∷ 4 ∷ 4 ∷ []) tables.now (record { rows = 0; pruning = false; theta0 = 0 }) small.old best.old }
    requires tables { tables.now.g ≡ 1 }
    requires g { snapshot.now.store.g ≡ 1 }
    requires room { small.old.g ≡ 1 }
{
    let mut state = ScanState {
        rows: 0,
        pruning: false,
        theta0: 0,
    };
    for cell in 0..4 {
        scan_next(rt, snapshot, cell, tables, small, best, &mut state, meters);
    }
}

/// Scans one more cell, while the counts are small.
fn scan_next(
    rt: &impl Abort,
    snapshot: &Snapshot<'_, Shape4444, IdRange>,
    cell: u32,
    tables: &FullTables<Shape4444>,
    small: &mut SmallTables<Shape4444>,
    best: &mut Best,
    state: &mut ScanState,
    meters: &mut Meters,
)
    requires standing { IsStanding (4 ∷ 4 ∷ 4 ∷ 4 ∷ []) tables.now state.old small.old best.old }
    requires tables { tables.now.g ≡ 1 }
    requires g { snapshot.now.store.g ≡ 1 }
    requires room { small.old.g ≡ 1 }
    ensures standing { IsStanding (4 ∷ 4 ∷ 4 ∷ 4 ∷ []) tables.now state.new small.new best.new }
    ensures room { small.new.g ≡ 1 }
{
    let rows = snapshot.count(cell);
    assert!(rt; rows <= 100_000 && state.rows <= 100_000);
    assert!(rt; meters.full.count() <= 100_000);
    assert!(rt; meters.blocks.count() <= 100_000 && meters.lanes.count() <= 100_000);
    scan_cell(snapshot, cell, tables, small, best, state, meters);
}

/// Adds a row to a cell.
pub(crate) fn add_to(
    rt: &impl Abort,
    store: &mut CellStore<Shape4444>,
    id: u32,
    cell: u32,
    word: u16,
) -> Result<(), InsertRefusal>
    requires g { store.old.g ≡ 1 }
    requires cells { store.old.cells ≡ 4 }
    ensures g { store.new.g ≡ 1 }
    ensures cells { store.new.cells ≡ 4 }
{
    assert!(rt; id <= 2_147_483_647 && cell < 4 && store.stamp() < 4_611_686_018_427_387_904);
    store.insert(id, cell, &[word])
}

/// Takes a row out.
pub(crate) fn remove(
    rt: &impl Abort,
    store: &mut CellStore<Shape4444>,
    id: u32,
) -> Result<(), Absent>
    requires g { store.old.g ≡ 1 }
    requires cells { store.old.cells ≡ 4 }
    ensures g { store.new.g ≡ 1 }
    ensures cells { store.new.cells ≡ 4 }
    ensures pins { store.new.pins ≡ store.old.pins }
{
    assert!(rt; id <= 2_147_483_647 && store.stamp() < 4_611_686_018_427_387_904);
    store.delete(id)
}
