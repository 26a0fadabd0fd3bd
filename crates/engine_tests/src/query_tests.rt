//! Changes and queries over small books, worked out by hand.
ghost use Rattle.std.specs.Prelude.{◌≡◌, ◌≤◌, [], ◌∷◌, IfOk};
ghost use Rattle.id_filter.specs.Kept.{IsKept};
ghost use Rattle.id_filter.specs.Ranges.{pairs_of};
ghost use Rattle.query_engine.specs.Parts.{HasRoomFor};

use crate::books::{Shape4444, scaled, small};
use best_k::Pair;
use cell_store::{Absent, CellStore, InsertRefusal, Placed, PutRefusal, Sessions};
use id_filter::{IdRange, IdRanges, KeptFilter};
use query_engine::{Engine, Meters, Report, Scratch, visit};
use shape_core::Shape;
use std::alloc::{AllocError, AllocGlobal, Global};
use std::process::Abort;
use std::test::Fail;

/// Vectors that the small book sends to the cells 0, 2, 0 and 1. Their distances to zeros are 0, 29184, 16384 and 32768.
const ROWS: [[u8; 4]; 4] = [
    [0, 0, 0, 0],
    [130, 120, 10, 0],
    [64, 64, 64, 64],
    [0, 0, 128, 128],
];

const EVERY_ID: (u32, u32) = (0, IdRange::LAST_ID);

/// An engine without rows over the small book.
fn engine(alloc: Global, most: u32) -> Result<Engine<Shape4444>, Fail> {
    if most < 1 || 4_194_304 < most {
        return Err(Fail::from("no such engine"));
    }
    Ok(Engine::new(alloc, small(alloc)?, most))
}

fn insert<S: Shape>(
    rt: &impl Abort,
    engine: &mut Engine<S>,
    id: u32,
    vector: &[u8],
) -> Result<u32, InsertRefusal> {
    assert!(rt; id <= IdRange::LAST_ID && engine.store().stamp() < 1_000_000);
    assert_eq!(rt; vector.len(), engine.book().d() as usize);
    engine.insert(id, vector)
}

fn put<S: Shape>(
    rt: &impl Abort,
    engine: &mut Engine<S>,
    id: u32,
    vector: &[u8],
) -> Result<Placed, PutRefusal> {
    assert!(rt; id <= IdRange::LAST_ID && engine.store().stamp() < 1_000_000);
    assert_eq!(rt; vector.len(), engine.book().d() as usize);
    engine.put(id, vector)
}

fn delete<S: Shape>(rt: &impl Abort, engine: &mut Engine<S>, id: u32) -> Result<(), Absent> {
    assert!(rt; id <= IdRange::LAST_ID && engine.store().stamp() < 1_000_000);
    engine.delete(id)
}

/// Inserts a vector, and expects its cell.
fn add<S: Shape>(rt: &impl Abort, engine: &mut Engine<S>, id: u32, vector: &[u8], cell: u32) {
    assert_eq!(rt; insert(rt, engine, id, vector), Ok(cell));
}

/// Takes a row out that is there.
fn remove<S: Shape>(rt: &impl Abort, engine: &mut Engine<S>, id: u32) {
    assert_eq!(rt; delete(rt, engine, id), Ok(()));
}

/// Inserts the first three vectors under their places.
fn insert_three<S: Shape>(rt: &impl Abort, engine: &mut Engine<S>) {
    add(rt, engine, 0, &ROWS[0], 0);
    add(rt, engine, 1, &ROWS[1], 2);
    add(rt, engine, 2, &ROWS[2], 0);
    assert_eq!(rt; engine.store().live(), 3);
}

/// An engine with the first three vectors.
fn engine_of_three(rt: &impl Abort, alloc: Global, most: u32) -> Result<Engine<Shape4444>, Fail> {
    let mut engine = engine(alloc, most)?;
    insert_three(rt, &mut engine);
    Ok(engine)
}

/// What a query asks for, and what it visits: cells, rows and full rows.
#[derive(Debug, Clone, Copy)]
struct Asked {
    query: [u8; 4],
    k: u32,
    wanted: u32,
    ids: (u32, u32),
    finds: (u32, u32, u32),
}

/// A query of zeros that wants this many.
fn zeros((k, wanted): (u32, u32), ids: (u32, u32), finds: (u32, u32, u32)) -> Asked {
    Asked {
        query: [0; 4],
        k,
        wanted,
        ids,
        finds,
    }
}

/// Asks by a scratch and a filter, and compares the counts, the rise of the meter of full distances, and the hits.
fn expect_kept<S: Shape, F: Fn(u32) -> bool>(
    rt: &impl Abort,
    alloc: Global,
    engine: &Engine<S>,
    scratch: &mut Scratch<S>,
    filter: &KeptFilter<F>,
    asked: Asked,
    hits: &[Pair],
)
    requires filter { IsKept F.Fn filter.now }
    requires room { HasRoomFor engine.now.book scratch.old }
    requires some { 1 ≤ asked.k }
    requires most { asked.k ≤ scratch.old.best.room }
    ensures room { HasRoomFor engine.now.book scratch.new }
    ensures most { scratch.new.best.room ≡ scratch.old.best.room }
{
    assert!(rt; 1 <= asked.wanted && asked.wanted <= 4_194_304);
    assert_eq!(rt; engine.book().d(), 4);
    let mut meters = Meters::new(alloc);
    let report = engine.search(
        scratch,
        &asked.query,
        asked.k,
        asked.wanted,
        filter,
        &mut meters,
    );
    let (cells, live, full) = asked.finds;
    assert_eq!(rt; report, Report { cells, live, full }, "{asked:?}");
    assert_eq!(rt; meters.full.count(), u64::from(full), "{asked:?}");
    assert_eq!(rt; scratch.answers(), hits, "{asked:?}");
}

/// Asks for the ids of a range by a scratch with room for 1,000 pairs.
fn expect_by<S: Shape>(
    rt: &impl Abort,
    alloc: Global,
    engine: &Engine<S>,
    scratch: &mut Scratch<S>,
    asked: Asked,
    hits: &[Pair],
)
    requires room { HasRoomFor engine.now.book scratch.old }
    requires most { scratch.old.best.room ≡ 1000 }
    ensures room { HasRoomFor engine.now.book scratch.new }
    ensures most { scratch.new.best.room ≡ 1000 }
{
    assert!(rt; 1 <= asked.k && asked.k <= 1000);
    let (lo, hi) = asked.ids;
    let range = IdRange { lo, hi };
    let filter = KeptFilter::new(IdRanges::One(range), |id: u32| lo <= id && id <= hi);
    expect_kept(rt, alloc, engine, scratch, &filter, asked, hits);
}

/// Asks by a scratch of its own with room for 1,000 pairs.
fn expect<S: Shape>(
    rt: &impl Abort,
    alloc: Global,
    engine: &Engine<S>,
    asked: Asked,
    hits: &[Pair],
) {
    let mut scratch = Scratch::new(alloc, engine.book(), 1000).expect(rt, "memory");
    expect_by(rt, alloc, engine, &mut scratch, asked, hits);
}

/// The same where one row is hit.
fn expect_one<S: Shape>(
    rt: &impl Abort,
    alloc: Global,
    engine: &Engine<S>,
    asked: Asked,
    found: Pair,
) {
    expect(rt, alloc, engine, asked, &[found]);
}

/// Asks for more and more rows of the three, and expects the first of them.
fn expect_more_and_more<S: Shape>(rt: &impl Abort, alloc: Global, engine: &Engine<S>) {
    let hits = [hit(0, 0), hit(2, 16384), hit(1, 29184)];
    for (asked, found) in [
        ((1, 1), (1, 2, 1)),
        ((2, 3), (3, 3, 2)),
        ((1000, 9), (3, 3, 3)),
        ((1, 4_194_304), (3, 3, 1)),
    ] {
        let count = (asked.0 as usize).min(3);
        let asked = zeros(asked, EVERY_ID, found);
        expect(rt, alloc, engine, asked, &hits[..count]);
    }
}

fn hit(id: u32, distance: u64) -> Pair {
    Pair { distance, id }
}

#[test]
fn a_query_visits_cells_until_enough_rows_are_seen(rt: HostRuntime) -> Result<(), Fail> {
    let alloc = rt.alloc();
    let mut engine = engine(alloc, 4_194_304)?;
    let none = zeros((1, 1), EVERY_ID, (0, 0, 0));
    expect(&rt, alloc, &engine, none, &[]);
    insert_three(&rt, &mut engine);
    expect_more_and_more(&rt, alloc, &engine);
    Ok(())
}

#[test]
fn ids_that_a_filter_holds_back_are_not_seen(rt: HostRuntime) -> Result<(), Fail> {
    let alloc = rt.alloc();
    let engine = engine_of_three(&rt, alloc, 3)?;
    let one = zeros((1, 1), (1, 1), (3, 1, 1));
    expect_one(&rt, alloc, &engine, one, hit(1, 29184));
    for ids in [(7, 9), (2, 1)] {
        let none = zeros((1, 1), ids, (0, 0, 0));
        expect(&rt, alloc, &engine, none, &[]);
    }
    Ok(())
}

/// The id 1, and the ids from 2 to 9.
fn two_ranges(alloc: Global) -> Result<IdRanges, AllocError>
    ensures { IfOk result (λ ranges. pairs_of ranges ≡ (1, 1) ∷ (2, 9) ∷ []) }
{
    let mut ranges = Vec::new(alloc);
    ranges.push(IdRange { lo: 1, hi: 1 })?;
    ranges.push(IdRange { lo: 2, hi: 9 })?;
    Ok(IdRanges::Many(ranges))
}

/// Asks for the ids from 1 to 9, which are two ranges, by a scratch with room for 9 pairs.
fn expect_of_two_ranges<S: Shape>(
    rt: &impl Abort,
    alloc: Global,
    engine: &Engine<S>,
    asked: Asked,
    hits: &[Pair],
) {
    assert!(rt; 1 <= asked.k && asked.k <= 9);
    let ranges = two_ranges(alloc).expect(rt, "memory");
    let mut scratch = Scratch::new(alloc, engine.book(), 9).expect(rt, "memory");
    let filter = KeptFilter::new(ranges, |id: u32| 1 <= id && id <= 9);
    expect_kept(rt, alloc, engine, &mut scratch, &filter, asked, hits);
}

#[test]
fn many_ranges_hold_back_one_id(rt: HostRuntime) -> Result<(), Fail> {
    let alloc = rt.alloc();
    let engine = engine_of_three(&rt, alloc, 3)?;
    let two = zeros((9, 9), (1, 9), (3, 2, 2));
    let hits = [hit(2, 16384), hit(1, 29184)];
    expect_of_two_ranges(&rt, alloc, &engine, two, &hits);
    Ok(())
}

#[test]
fn equal_cells_go_by_number_and_equal_rows_by_id(rt: HostRuntime) -> Result<(), Fail> {
    let alloc = rt.alloc();
    let mut engine = engine(alloc, 4)?;
    add(&rt, &mut engine, 7, &ROWS[3], 1);
    add(&rt, &mut engine, 1, &ROWS[1], 2);
    let first = zeros((1, 1), EVERY_ID, (2, 1, 1));
    expect_one(&rt, alloc, &engine, first, hit(7, 32768));
    add(&rt, &mut engine, 5, &ROWS[2], 0);
    add(&rt, &mut engine, 3, &ROWS[2], 0);
    let tied = zeros((1, 2), EVERY_ID, (1, 2, 2));
    expect_one(&rt, alloc, &engine, tied, hit(3, 16384));
    Ok(())
}

#[test]
fn a_row_comes_back_after_it_is_deleted(rt: HostRuntime) -> Result<(), Fail> {
    let alloc = rt.alloc();
    let mut engine = engine_of_three(&rt, alloc, 3)?;
    remove(&rt, &mut engine, 0);
    let without = zeros((1, 1), EVERY_ID, (1, 1, 1));
    expect_one(&rt, alloc, &engine, without, hit(2, 16384));
    add(&rt, &mut engine, 0, &ROWS[0], 0);
    let last = zeros((1, 1), EVERY_ID, (1, 2, 2));
    expect_one(&rt, alloc, &engine, last, hit(0, 0));
    Ok(())
}

/// Puts a vector, and expects where it goes.
fn replace<S: Shape>(
    rt: &impl Abort,
    engine: &mut Engine<S>,
    id: u32,
    vector: &[u8],
    placed: Placed,
) {
    assert_eq!(rt; put(rt, engine, id, vector), Ok(placed));
}

#[test]
fn a_put_moves_a_row_or_adds_one(rt: HostRuntime) -> Result<(), Fail> {
    let alloc = rt.alloc();
    let mut engine = engine_of_three(&rt, alloc, 4)?;
    for (id, vector, cell, replaced, live, nearest) in [
        (0, ROWS[0], 0, true, 2, hit(0, 0)),
        (0, ROWS[3], 1, true, 1, hit(2, 16384)),
        (9, ROWS[0], 0, false, 2, hit(9, 0)),
    ] {
        let placed = Placed { cell, replaced };
        replace(&rt, &mut engine, id, &vector, placed);
        let asked = zeros((1, 1), EVERY_ID, (1, live, live));
        expect_one(&rt, alloc, &engine, asked, nearest);
    }
    assert_eq!(rt; engine.store().live(), 4);
    Ok(())
}

#[test]
fn a_cell_of_more_rows_than_a_block_has(rt: HostRuntime) -> Result<(), Fail> {
    let alloc = rt.alloc();
    let mut engine = engine(alloc, 99)?;
    for id in 0..32 {
        add(&rt, &mut engine, id, &ROWS[2], 0);
    }
    let tied = zeros((1, 1), EVERY_ID, (1, 32, 32));
    expect_one(&rt, alloc, &engine, tied, hit(0, 16384));
    add(&rt, &mut engine, 32, &ROWS[0], 0);
    let nearer = zeros((1, 1), EVERY_ID, (1, 33, 33));
    expect_one(&rt, alloc, &engine, nearer, hit(32, 0));
    Ok(())
}

#[test]
fn a_book_with_a_scale(rt: HostRuntime) -> Result<(), Fail> {
    let alloc = rt.alloc();
    let mut engine = Engine::new(alloc, scaled(alloc)?, 9);
    insert_three(&rt, &mut engine);
    let asked = zeros((2, 3), EVERY_ID, (3, 3, 2));
    expect(&rt, alloc, &engine, asked, &[hit(0, 0), hit(2, 4194304)]);
    Ok(())
}

/// Asks near zeros, at a far corner and near zeros again by one scratch.
fn expect_near_far_near<S: Shape>(rt: &impl Abort, alloc: Global, engine: &Engine<S>) {
    let mut scratch = Scratch::new(alloc, engine.book(), 1000).expect(rt, "memory");
    let near = zeros((2, 3), EVERY_ID, (3, 3, 2));
    let first = [hit(0, 0), hit(2, 16384)];
    expect_by(rt, alloc, engine, &mut scratch, near, &first);
    let far = Asked {
        query: [128, 128, 0, 0],
        ..zeros((1, 1), EVERY_ID, (1, 1, 1))
    };
    expect_by(rt, alloc, engine, &mut scratch, far, &[hit(1, 512)]);
    expect_by(rt, alloc, engine, &mut scratch, near, &first);
}

#[test]
fn two_queries_by_one_scratch(rt: HostRuntime) -> Result<(), Fail> {
    let alloc = rt.alloc();
    let engine = engine_of_three(&rt, alloc, 9)?;
    expect_near_far_near(&rt, alloc, &engine);
    Ok(())
}

/// Inserts a row, and expects the refusal of another of its id.
fn insert_twice<S: Shape>(rt: &impl Abort, engine: &mut Engine<S>) {
    assert_eq!(rt; delete(rt, engine, 5), Err(Absent));
    add(rt, engine, 5, &ROWS[2], 0);
    let present = Err(InsertRefusal::Present);
    assert_eq!(rt; insert(rt, engine, 5, &ROWS[0]), present);
}

/// Inserts the last row, and expects the refusals of the id that is there and of one that is not.
fn insert_the_last<S: Shape>(rt: &impl Abort, engine: &mut Engine<S>) {
    add(rt, engine, 6, &ROWS[1], 2);
    let present = Err(InsertRefusal::Present);
    assert_eq!(rt; insert(rt, engine, 5, &ROWS[0]), present);
    let full = Err(InsertRefusal::Full);
    assert_eq!(rt; insert(rt, engine, 7, &ROWS[0]), full);
    assert_eq!(rt; put(rt, engine, 7, &ROWS[0]), Err(PutRefusal::Full));
    assert_eq!(rt; delete(rt, engine, 7), Err(Absent));
}

#[test]
fn each_refusal_has_its_cause_and_changes_nothing(rt: HostRuntime) -> Result<(), Fail> {
    let alloc = rt.alloc();
    let mut engine = engine(alloc, 2)?;
    insert_twice(&rt, &mut engine);
    insert_the_last(&rt, &mut engine);
    let asked = zeros((9, 9), EVERY_ID, (3, 2, 2));
    expect(&rt, alloc, &engine, asked, &[hit(5, 16384), hit(6, 29184)]);
    Ok(())
}

/// Pins the present stamp.
fn pin<S: Shape>(rt: &impl Abort, engine: &mut Engine<S>, stamp: u64) {
    assert_eq!(rt; engine.pin(), Ok(stamp));
}

/// Leaves id 6 live, and the deleted row of id 5 needed by the first of two pins.
fn pin_around_a_delete<S: Shape>(rt: &impl Abort, engine: &mut Engine<S>) {
    add(rt, engine, 5, &ROWS[2], 0);
    pin(rt, engine, 1);
    remove(rt, engine, 5);
    add(rt, engine, 6, &ROWS[1], 2);
    pin(rt, engine, 3);
}

#[test]
fn a_put_is_held_back_by_rows_that_pins_need(rt: HostRuntime) -> Result<(), Fail> {
    let alloc = rt.alloc();
    let mut engine = engine(alloc, 1)?;
    pin_around_a_delete(&rt, &mut engine);
    assert_eq!(rt; put(&rt, &mut engine, 6, &ROWS[0]), Err(PutRefusal::Held));
    let one = zeros((9, 9), EVERY_ID, (3, 1, 1));
    expect_one(&rt, alloc, &engine, one, hit(6, 29184));
    Ok(())
}

#[test]
fn an_insert_is_held_back_by_rows_that_pins_need(rt: HostRuntime) -> Result<(), Fail> {
    let alloc = rt.alloc();
    let mut engine = engine(alloc, 1)?;
    pin_around_a_delete(&rt, &mut engine);
    remove(&rt, &mut engine, 6);
    let held = Err(InsertRefusal::Held);
    assert_eq!(rt; insert(&rt, &mut engine, 7, &ROWS[0]), held);
    let none = zeros((9, 9), EVERY_ID, (0, 0, 0));
    expect(&rt, alloc, &engine, none, &[]);
    Ok(())
}

#[test]
fn a_pin_is_given_back(rt: HostRuntime) -> Result<(), Fail> {
    let mut engine = engine(rt.alloc(), 1)?;
    for _ in 0..64 {
        pin(&rt, &mut engine, 0);
    }
    assert_eq!(rt; engine.pin(), Err(Sessions));
    Ok(())
}

/// An engine of a book and a store of its own.
fn engine_of_parts(alloc: Global) -> Result<Engine<Shape4444>, Fail> {
    let book = small(alloc)?;
    let store = CellStore::new(alloc, book.g(), book.k0() * book.k1(), 9);
    Ok(Engine::from_parts(book, store))
}

/// Asks, and visits the store of an engine without rows.
fn visit_none<S: Shape>(rt: &impl Abort, alloc: Global, engine: &Engine<S>) {
    let mut scratch = Scratch::new(alloc, engine.book(), 9).expect(rt, "memory");
    assert_eq!(rt; engine.book().d(), 4);
    scratch.ask(engine.book(), &[0; 4]);
    let range = IdRange { lo: 0, hi: 9 };
    let filter = KeptFilter::new(IdRanges::One(range), |id: u32| id <= 9);
    let mut meters = Meters::new(alloc);
    let report = visit(engine.store(), &mut scratch, 9, 9, &filter, &mut meters);
    let (cells, live, full) = (0, 0, 0);
    assert_eq!(rt; report, Report { cells, live, full });
    assert!(rt; meters.pairs.count() <= 1);
    assert!(rt; scratch.answers().is_empty());
}

#[test]
fn a_store_of_its_own_is_asked(rt: HostRuntime) -> Result<(), Fail> {
    let engine = engine_of_parts(rt.alloc())?;
    visit_none(&rt, rt.alloc(), &engine);
    Ok(())
}
