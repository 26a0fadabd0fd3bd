//! Changes and queries over a small residual book, worked out by hand.
ghost use Rattle.std.specs.Prelude.{◌≡◌, IfOk};
ghost use Rattle.residual_scan.specs.Report.{HasRoomFor};

use best_k::Pair;
use cell_store::{Absent, InsertRefusal, Placed, PutRefusal};
use codebook_core::{AnyBook, decode};
use id_filter::{AllIds, IdRange};
use query_engine::{Meters, Report};
use residual_scan::{ResidualEngine, ResidualScratch, check};
use shape_core::Fields;
use std::alloc::Global;
use std::process::Abort;
use std::test::Fail;
use test_files::RESIDUAL_BOOK;

type Shape4444 = Fields<4, 4, 4, 4>;

type Engine = ResidualEngine<Shape4444>;

/// Vectors that the book sends to the cells 0, 2, 0, 1 and 3. The residual distances of the first four to zeros are 0, 29184,
/// 16384 and 32768, and those of all to `FAR` are 260100, 158724, 145924, 162308 and 900.
const ROWS: [[u8; 4]; 5] = [
    [0, 0, 0, 0],
    [130, 120, 10, 0],
    [64, 64, 64, 64],
    [0, 0, 128, 128],
    FAR,
];

/// A query whose cells are 3, 1, 2 and 0, in which no row is nearer than 900, 41348, 41348 and 81796.
const FAR: [u8; 4] = [255, 255, 255, 255];

/// An engine without rows over the residual book.
fn engine(alloc: Global) -> Result<Engine, Fail> {
    match decode(alloc, &RESIDUAL_BOOK)? {
        AnyBook::F4444(book) => match check(&book) {
            Ok(()) => Ok(ResidualEngine::new(alloc, book, 100)),
            Err(_) => Err(Fail::from("no residual book")),
        },
        _other => Err(Fail::from("another shape")),
    }
}

fn insert(
    rt: &impl Abort,
    engine: &mut Engine,
    id: u32,
    vector: &[u8],
) -> Result<u32, InsertRefusal>
    ensures { engine.new.book ≡ engine.old.book }
{
    assert!(rt; id <= IdRange::LAST_ID && engine.store().stamp() < 1_000_000);
    assert_eq!(rt; vector.len(), engine.book().d() as usize);
    engine.insert(id, vector)
}

fn put(rt: &impl Abort, engine: &mut Engine, id: u32, vector: &[u8]) -> Result<Placed, PutRefusal>
    ensures { engine.new.book ≡ engine.old.book }
{
    assert!(rt; id <= IdRange::LAST_ID && engine.store().stamp() < 1_000_000);
    assert_eq!(rt; vector.len(), engine.book().d() as usize);
    engine.put(id, vector)
}

fn delete(rt: &impl Abort, engine: &mut Engine, id: u32) -> Result<(), Absent>
    ensures { engine.new.book ≡ engine.old.book }
{
    assert!(rt; id <= IdRange::LAST_ID && engine.store().stamp() < 1_000_000);
    engine.delete(id)
}

/// Inserts the first three vectors under their places.
fn insert_three(rt: &impl Abort, engine: &mut Engine)
    ensures { engine.new.book ≡ engine.old.book }
{
    assert_eq!(rt; insert(rt, engine, 0, &ROWS[0]), Ok(0));
    assert_eq!(rt; insert(rt, engine, 1, &ROWS[1]), Ok(2));
    assert_eq!(rt; insert(rt, engine, 2, &ROWS[2]), Ok(0));
}

/// What a query is asked for and finds: its vector, k, wanted, cells, rows and full rows, and computed halves.
#[derive(Debug, Clone, Copy)]
struct Asked {
    vector: [u8; 4],
    k: u32,
    wanted: u32,
    finds: (u32, u32, u32),
    halves: u64,
}

/// Asks by a scratch and by new meters, and compares the hits.
fn ask(
    rt: &impl Abort,
    alloc: Global,
    engine: &Engine,
    scratch: &mut ResidualScratch<Shape4444>,
    asked: Asked,
    hits: &[Pair],
) -> (Report, Meters)
    requires room { HasRoomFor engine.now.book scratch.old }
    requires most { scratch.old.best.room ≡ 1000 }
    ensures room { HasRoomFor engine.now.book scratch.new }
    ensures most { scratch.new.best.room ≡ 1000 }
{
    assert!(rt; 1 <= asked.k && asked.k <= 1000);
    assert!(rt; 1 <= asked.wanted && asked.wanted <= 4_194_304);
    assert_eq!(rt; engine.book().d(), 4);
    let mut meters = Meters::new(alloc);
    let report = engine.search(
        scratch,
        &asked.vector,
        asked.k,
        asked.wanted,
        &AllIds,
        &mut meters,
    );
    assert_eq!(rt; scratch.answers(), hits, "{asked:?}");
    (report, meters)
}

/// Asks by a scratch, and compares the counts, the rise of the meters, and the hits.
fn expect_by(
    rt: &impl Abort,
    alloc: Global,
    engine: &Engine,
    scratch: &mut ResidualScratch<Shape4444>,
    asked: Asked,
    hits: &[Pair],
)
    requires room { HasRoomFor engine.now.book scratch.old }
    requires most { scratch.old.best.room ≡ 1000 }
    ensures room { HasRoomFor engine.now.book scratch.new }
    ensures most { scratch.new.best.room ≡ 1000 }
{
    let (report, meters) = ask(rt, alloc, engine, scratch, asked, hits);
    let (cells, live, full) = asked.finds;
    assert_eq!(rt; report, Report { cells, live, full }, "{asked:?}");
    assert_eq!(rt; meters.half_full.count(), u64::from(full), "{asked:?}");
    assert_eq!(rt; meters.halves.count(), asked.halves, "{asked:?}");
}

/// Asks by a scratch of its own, with slots for so many cached tables.
fn expect_with(
    rt: &impl Abort,
    alloc: Global,
    engine: &Engine,
    cache: u32,
    asked: Asked,
    hits: &[Pair],
) -> Result<(), Fail> {
    assert!(rt; cache <= 2048);
    let Ok(mut scratch) = ResidualScratch::new(alloc, engine.book(), 1000, cache) else {
        return Err(Fail::from("no memory"));
    };
    expect_by(rt, alloc, engine, &mut scratch, asked, hits);
    Ok(())
}

fn hit(id: u32, distance: u64) -> Pair {
    Pair { distance, id }
}

/// A query for the first row, which visits all three cells that have rows.
fn near(k: u32, wanted: u32, full: u32, halves: u64) -> Asked {
    Asked {
        vector: ROWS[0],
        k,
        wanted,
        finds: (3, 3, full),
        halves,
    }
}

/// Asks for the nearest row and then for all rows by one scratch, with slots for so many cached tables.
fn expect_twice(
    rt: &impl Abort,
    alloc: Global,
    engine: &Engine,
    cache: u32,
    halves: u64,
) -> Result<(), Fail> {
    assert!(rt; cache <= 2048);
    let Ok(mut scratch) = ResidualScratch::new(alloc, engine.book(), 1000, cache) else {
        return Err(Fail::from("no memory"));
    };
    let hits = [hit(0, 0), hit(2, 16384), hit(1, 29184)];
    let one = near(1, 3, 2, halves);
    expect_by(rt, alloc, engine, &mut scratch, one, &hits[..1]);
    let all = near(9, 9, 3, halves);
    expect_by(rt, alloc, engine, &mut scratch, all, &hits);
    Ok(())
}

#[test]
fn a_query_answers_the_same_for_every_cache(rt: HostRuntime) -> Result<(), Fail> {
    let alloc = rt.alloc();
    let mut engine = engine(alloc)?;
    insert_three(&rt, &mut engine);
    for (cache, halves) in [(0, 4), (1, 4), (2, 3), (2048, 3)] {
        expect_twice(&rt, alloc, &engine, cache, halves)?;
    }
    Ok(())
}

/// Changes of the rows, and those that are refused.
fn change_rows(rt: &impl Abort, engine: &mut Engine) {
    insert_three(rt, engine);
    assert_eq!(rt;
        insert(rt, engine, 1, &ROWS[1]),
        Err(InsertRefusal::Present)
    );
    assert_eq!(rt; delete(rt, engine, 0), Ok(()));
    assert_eq!(rt; delete(rt, engine, 0), Err(Absent));
    let placed = Placed {
        cell: 1,
        replaced: true,
    };
    assert_eq!(rt; put(rt, engine, 1, &ROWS[3]), Ok(placed));
    assert_eq!(rt; engine.store().live(), 2);
}

#[test]
fn rows_come_and_go(rt: HostRuntime) -> Result<(), Fail> {
    let alloc = rt.alloc();
    let mut engine = engine(alloc)?;
    change_rows(&rt, &mut engine);
    let asked = Asked {
        vector: ROWS[0],
        k: 2,
        wanted: 2,
        finds: (2, 2, 2),
        halves: 3,
    };
    let hits = [hit(2, 16384), hit(1, 32768)];
    expect_with(&rt, alloc, &engine, 4, asked, &hits)
}

/// Queries for the far vector: the first cell alone is early, and the others lie wholly beyond its row; the first two are early;
/// all are.
fn expect_far(rt: &impl Abort, alloc: Global, engine: &Engine) -> Result<(), Fail> {
    let hits = [
        hit(4, 900),
        hit(2, 145_924),
        hit(1, 158_724),
        hit(3, 162_308),
        hit(0, 260_100),
    ];
    for (k, full, found) in [(1, 1, 1), (2, 4, 2), (9, 5, 5)] {
        let asked = Asked {
            vector: FAR,
            k,
            wanted: 9,
            finds: (4, 5, full),
            halves: 6,
        };
        expect_with(rt, alloc, engine, 2, asked, &hits[..found])?;
    }
    Ok(())
}

#[test]
fn early_cells_are_full_and_far_cells_are_left_out(rt: HostRuntime) -> Result<(), Fail> {
    let alloc = rt.alloc();
    let mut engine = engine(alloc)?;
    insert_three(&rt, &mut engine);
    assert_eq!(rt; insert(&rt, &mut engine, 3, &ROWS[3]), Ok(1));
    assert_eq!(rt; insert(&rt, &mut engine, 4, &ROWS[4]), Ok(3));
    expect_far(&rt, alloc, &engine)
}
