//! Queries by radius over the small book, worked out by hand.
ghost use Rattle.std.specs.Prelude.{◌≡◌};
ghost use Rattle.id_filter.specs.Kept.{IsKept};
ghost use Rattle.radius_scan.specs.Parts.{HasRadiusRoom};

use crate::books::{Shape4444, small};
use best_k::Pair;
use id_filter::{IdRange, IdRanges, KeptFilter};
use query_engine::{Engine, Meters, Report};
use radius_scan::{RadiusScratch, radius};
use std::alloc::Global;
use std::process::Abort;
use std::test::Fail;

/// Vectors that the small book sends to the cells 0, 2, 0 and 1. Their distances to zeros are 0, 29184, 16384 and 32768.
const ROWS: [[u8; 4]; 4] = [
    [0, 0, 0, 0],
    [130, 120, 10, 0],
    [64, 64, 64, 64],
    [0, 0, 128, 128],
];

const EVERY_ID: (u32, u32) = (0, IdRange::LAST_ID);

/// The greatest number that a script or the command line can spell.
const LAST_NUMBER: u64 = 999_999_999_999_999_999;

/// An engine without rows over the small book.
fn engine(alloc: Global) -> Result<Engine<Shape4444>, Fail> {
    Ok(Engine::new(alloc, small(alloc)?, 1000))
}

/// Inserts a row whose id is not there.
pub(crate) fn insert(rt: &impl Abort, engine: &mut Engine<Shape4444>, id: u32, vector: &[u8]) {
    assert!(rt; id <= IdRange::LAST_ID && engine.store().stamp() < 1_000_000);
    assert_eq!(rt; vector.len(), engine.book().d() as usize);
    assert!(rt; engine.insert(id, vector).is_ok());
}

/// Deletes a row that is there.
pub(crate) fn delete(rt: &impl Abort, engine: &mut Engine<Shape4444>, id: u32) {
    assert!(rt; id <= IdRange::LAST_ID && engine.store().stamp() < 1_000_000);
    assert_eq!(rt; engine.delete(id), Ok(()));
}

/// An engine with the first three vectors under their places.
fn engine_of_three(rt: &impl Abort, alloc: Global) -> Result<Engine<Shape4444>, Fail> {
    let mut engine = engine(alloc)?;
    insert(rt, &mut engine, 0, &ROWS[0]);
    insert(rt, &mut engine, 1, &ROWS[1]);
    insert(rt, &mut engine, 2, &ROWS[2]);
    Ok(engine)
}

/// What a query asks for, and what it visits: cells, rows and full rows.
#[derive(Debug, Clone, Copy)]
pub(crate) struct Asked {
    pub query: [u8; 4],
    pub r: u64,
    pub wanted: u32,
    pub ids: (u32, u32),
    pub finds: (u32, u32, u32),
}

/// A query of zeros that wants 3 rows of any id.
fn zeros(r: u64, finds: (u32, u32, u32)) -> Asked {
    Asked {
        query: [0; 4],
        r,
        wanted: 3,
        ids: EVERY_ID,
        finds,
    }
}

/// Asks by a scratch and a filter, compares the counts, what the meters rose by, and the hits, and answers how many blocks
/// were read.
fn expect_kept<F: Fn(u32) -> bool>(
    rt: &impl Abort,
    alloc: Global,
    engine: &Engine<Shape4444>,
    scratch: &mut RadiusScratch<Shape4444>,
    filter: &KeptFilter<F>,
    asked: Asked,
    hits: &[Pair],
) -> u64
    requires filter { IsKept F.Fn filter.now }
    requires room { HasRadiusRoom engine.now.book scratch.old }
    requires most { scratch.old.room ≡ 1000 }
    ensures room { HasRadiusRoom engine.now.book scratch.new }
    ensures most { scratch.new.room ≡ 1000 }
{
    assert!(rt; 1 <= asked.wanted && asked.wanted <= 4_194_304);
    assert!(rt; engine.store().live() <= 1000);
    assert_eq!(rt; engine.book().d(), 4);
    let mut meters = Meters::new(alloc);
    let report = radius(
        engine,
        scratch,
        &asked.query,
        asked.r,
        asked.wanted,
        filter,
        &mut meters,
    );
    expect_counts(rt, &asked, report, &meters);
    assert_eq!(rt; scratch.pairs(), hits, "{asked:?}");
    meters.blocks.count()
}

/// Compares the counts, and what the meters rose by from 0.
fn expect_counts(rt: &impl Abort, asked: &Asked, report: Report, meters: &Meters) {
    let (cells, live, full) = asked.finds;
    let want = Report { cells, live, full };
    assert_eq!(rt;
        (report, meters.full.count(), meters.lanes.count()),
        (want, u64::from(full), meters.blocks.count()),
        "{asked:?}"
    );
    assert!(rt;
        meters.pairs.count() <= 2 * u64::from(cells) + 1,
        "{asked:?}"
    );
}

/// Asks for the ids of a range by a scratch, and answers how many blocks were read.
pub(crate) fn expect_by(
    rt: &impl Abort,
    alloc: Global,
    engine: &Engine<Shape4444>,
    scratch: &mut RadiusScratch<Shape4444>,
    asked: Asked,
    hits: &[Pair],
) -> u64
    requires room { HasRadiusRoom engine.now.book scratch.old }
    requires most { scratch.old.room ≡ 1000 }
    ensures room { HasRadiusRoom engine.now.book scratch.new }
    ensures most { scratch.new.room ≡ 1000 }
{
    let (lo, hi) = asked.ids;
    let range = IdRange { lo, hi };
    let filter = KeptFilter::new(IdRanges::One(range), |id: u32| lo <= id && id <= hi);
    expect_kept(rt, alloc, engine, scratch, &filter, asked, hits)
}

/// Asks by a scratch of its own, and compares how many blocks were read too.
fn expect(
    rt: &impl Abort,
    alloc: Global,
    engine: &Engine<Shape4444>,
    asked: Asked,
    hits: &[Pair],
    blocks: u64,
) {
    let mut scratch = RadiusScratch::with_room(alloc, engine.book(), 1000).expect(rt, "memory");
    let read = expect_by(rt, alloc, engine, &mut scratch, asked, hits);
    assert_eq!(rt; read, blocks);
}

fn hit(id: u32, distance: u64) -> Pair {
    Pair { distance, id }
}

/// Asks for the rows within growing distances of zeros, and expects the first of three hits.
fn expect_more_and_more(rt: &impl Abort, alloc: Global, engine: &Engine<Shape4444>) {
    let hits = [hit(0, 0), hit(2, 16384), hit(1, 29184)];
    for (r, full, found) in [
        (0, 1, 1),
        (16383, 2, 1),
        (16384, 2, 2),
        (29183, 3, 2),
        (29184, 3, 3),
        (260_100, 3, 3),
        (LAST_NUMBER, 3, 3),
        (u64::MAX, 3, 3),
    ] {
        let asked = zeros(r, (3, 3, full));
        expect(rt, alloc, engine, asked, &hits[..found], 2);
    }
}

#[test]
fn rows_as_far_as_the_radius_are_found(rt: HostRuntime) -> Result<(), Fail> {
    let engine = engine_of_three(&rt, rt.alloc())?;
    expect_more_and_more(&rt, rt.alloc(), &engine);
    Ok(())
}

/// Asks beside the nearest row, for a radius that does not reach it and for one that does.
fn expect_beside(rt: &impl Abort, alloc: Global, engine: &Engine<Shape4444>) {
    let beside = Asked {
        query: [1, 0, 0, 0],
        wanted: 1,
        ..zeros(0, (1, 2, 0))
    };
    expect(rt, alloc, engine, beside, &[], 0);
    let reached = Asked {
        r: 1,
        finds: (1, 2, 1),
        ..beside
    };
    expect(rt, alloc, engine, reached, &[hit(0, 1)], 1);
}

#[test]
fn no_block_is_read_if_no_row_can_lie_within(rt: HostRuntime) -> Result<(), Fail> {
    let engine = engine_of_three(&rt, rt.alloc())?;
    expect_beside(&rt, rt.alloc(), &engine);
    Ok(())
}

/// Asks for as many rows as there are and for more, and then for fewer.
fn expect_all_and_few(rt: &impl Abort, alloc: Global, engine: &Engine<Shape4444>) {
    let hits = [hit(0, 0), hit(2, 16384)];
    for wanted in [3, 4, 4_194_304] {
        let all = Asked {
            wanted,
            ..zeros(16384, (3, 3, 2))
        };
        expect(rt, alloc, engine, all, &hits, 2);
    }
    let few = Asked {
        wanted: 2,
        ..zeros(LAST_NUMBER, (1, 2, 2))
    };
    expect(rt, alloc, engine, few, &hits, 1);
}

#[test]
fn all_rows_are_visited_if_more_are_wanted(rt: HostRuntime) -> Result<(), Fail> {
    let engine = engine_of_three(&rt, rt.alloc())?;
    expect_all_and_few(&rt, rt.alloc(), &engine);
    Ok(())
}

#[test]
fn an_engine_without_rows_has_none_within(rt: HostRuntime) -> Result<(), Fail> {
    let engine = engine(rt.alloc())?;
    for r in [0, LAST_NUMBER] {
        expect(&rt, rt.alloc(), &engine, zeros(r, (0, 0, 0)), &[], 0);
    }
    Ok(())
}

/// Asks for two ids of three, and for ids that no row has.
fn expect_held_back(rt: &impl Abort, alloc: Global, engine: &Engine<Shape4444>) {
    let two = Asked {
        ids: (1, 2),
        ..zeros(LAST_NUMBER, (3, 2, 2))
    };
    let allowed = [hit(2, 16384), hit(1, 29184)];
    expect(rt, alloc, engine, two, &allowed, 2);
    let none = Asked {
        ids: (3, 9),
        ..zeros(LAST_NUMBER, (0, 0, 0))
    };
    expect(rt, alloc, engine, none, &[], 0);
}

#[test]
fn dead_rows_and_those_held_back_are_not_found(rt: HostRuntime) -> Result<(), Fail> {
    let alloc = rt.alloc();
    let mut engine = engine_of_three(&rt, alloc)?;
    expect_held_back(&rt, alloc, &engine);
    assert_eq!(rt; engine.pin(), Ok(3));
    delete(&rt, &mut engine, 2);
    let left = [hit(0, 0), hit(1, 29184)];
    let every = zeros(LAST_NUMBER, (3, 2, 2));
    expect(&rt, alloc, &engine, every, &left, 2);
    Ok(())
}

/// Inserts rows 32 to 0 of one vector, and gives what is hit if all are near.
fn insert_a_block_and_one(rt: &impl Abort, engine: &mut Engine<Shape4444>) -> [Pair; 33] {
    let mut hits = [hit(0, 16384); 33];
    for i in 0..33 {
        let id = 32 - i;
        insert(rt, engine, id, &ROWS[2]);
        hits[i as usize] = hit(i, 16384);
    }
    hits
}

#[test]
fn a_cell_of_more_rows_than_a_block_has(rt: HostRuntime) -> Result<(), Fail> {
    let alloc = rt.alloc();
    let mut engine = engine(alloc)?;
    let hits = insert_a_block_and_one(&rt, &mut engine);
    for (r, full, found) in [(16384, 33, 33), (16383, 33, 0), (100, 0, 0)] {
        let asked = zeros(r, (1, 33, full));
        expect(&rt, alloc, &engine, asked, &hits[..found], 2);
    }
    Ok(())
}

/// Asks near zeros, at a far corner and near zeros again by one scratch.
fn expect_near_far_near(rt: &impl Abort, alloc: Global, engine: &Engine<Shape4444>) -> [u64; 3] {
    let mut scratch = RadiusScratch::with_room(alloc, engine.book(), 1000).expect(rt, "memory");
    let near = zeros(16384, (3, 3, 2));
    let first = [hit(0, 0), hit(2, 16384)];
    let before = expect_by(rt, alloc, engine, &mut scratch, near, &first);
    let far = Asked {
        query: [128, 128, 0, 0],
        wanted: 1,
        ..zeros(512, (1, 1, 1))
    };
    let between = expect_by(rt, alloc, engine, &mut scratch, far, &[hit(1, 512)]);
    let after = expect_by(rt, alloc, engine, &mut scratch, near, &first);
    [before, between, after]
}

#[test]
fn a_query_leaves_nothing_of_the_last_one(rt: HostRuntime) -> Result<(), Fail> {
    let engine = engine_of_three(&rt, rt.alloc())?;
    let blocks = expect_near_far_near(&rt, rt.alloc(), &engine);
    assert_eq!(rt; blocks, [2, 1, 2]);
    Ok(())
}

/// Asks an engine without rows by a scratch with room for none.
fn expect_none(rt: &impl Abort, alloc: Global, engine: &Engine<Shape4444>) {
    let mut scratch = RadiusScratch::with_room(alloc, engine.book(), 0).expect(rt, "memory");
    assert!(rt; scratch.pairs().is_empty());
    assert_eq!(rt; engine.store().live(), 0);
    assert_eq!(rt; engine.book().d(), 4);
    let range = IdRange { lo: 0, hi: 9 };
    let filter = KeptFilter::new(IdRanges::One(range), |id: u32| id <= 9);
    let mut meters = Meters::new(alloc);
    let report = radius(engine, &mut scratch, &[0; 4], 0, 1, &filter, &mut meters);
    let (cells, live, full) = (0, 0, 0);
    assert_eq!(rt; report, Report { cells, live, full });
    assert!(rt; scratch.pairs().is_empty());
}

#[test]
fn a_scratch_with_room_for_no_rows(rt: HostRuntime) -> Result<(), Fail> {
    let engine = engine(rt.alloc())?;
    expect_none(&rt, rt.alloc(), &engine);
    Ok(())
}
