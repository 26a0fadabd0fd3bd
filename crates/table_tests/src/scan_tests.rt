//! Scans of one cell, worked out by hand.
ghost use Rattle.std.specs.Prelude.{◌≡◌};
ghost use Rattle.cell_store.specs.State.{IsHeldStamp};

use crate::scan_questions::{Question, Shape4444, add_to, ask, remove};
use best_k::Pair;
use cell_store::CellStore;
use std::alloc::Global;
use std::process::Abort;

/// The nearest pair, and the counts of full rows, blocks and lane calls.
#[derive(Debug, Clone, Copy, PartialEq, Eq)]
struct Summary {
    nearest: Option<Pair>,
    full: u64,
    blocks: u64,
    calls: u64,
}

fn outcome(nearest: Option<(u64, u32)>, full: u64, blocks: u64, calls: u64) -> Summary {
    let nearest = match nearest {
        Some((distance, id)) => Some(Pair { distance, id }),
        None => None,
    };
    Summary {
        nearest,
        full,
        blocks,
        calls,
    }
}

/// Scans for the k nearest to (0, 0, 0, 0) at a stamp, and compares what the scan left.
fn expect_at(
    rt: &impl Abort,
    alloc: Global,
    store: &CellStore<Shape4444>,
    stamp: u64,
    asked: (u32, u32, u32),
    want: Summary,
)
    requires g { store.now.g ≡ 1 }
    requires stamp { IsHeldStamp store.now stamp }
{
    let (lo, hi, k) = asked;
    assert!(rt; 1 <= k && k <= 1000);
    let query = [0, 0, 0, 0];
    let question = Question { query, lo, hi, k };
    let scanned = ask(rt, alloc, store, stamp, &question);
    let found = Summary {
        nearest: scanned.pairs.first().copied(),
        full: scanned.full,
        blocks: scanned.blocks,
        calls: scanned.calls,
    };
    assert_eq!(rt; found, want);
}

/// The same at the present stamp.
fn expect(
    rt: &impl Abort,
    alloc: Global,
    store: &CellStore<Shape4444>,
    asked: (u32, u32, u32),
    want: Summary,
)
    requires g { store.now.g ≡ 1 }
{
    expect_at(rt, alloc, store, store.stamp(), asked, want);
}

/// Adds a row to cell 0.
fn add(rt: &impl Abort, store: &mut CellStore<Shape4444>, id: u32, word: u16)
    requires g { store.old.g ≡ 1 }
    requires cells { store.old.cells ≡ 4 }
    ensures g { store.new.g ≡ 1 }
    ensures cells { store.new.cells ≡ 4 }
{
    assert_eq!(rt; add_to(rt, store, id, 0, word), Ok(()));
}

/// A store whose cell 0 has 33 rows, of which the one at a place is nearer to (0, 0, 0, 0).
fn with_near_row(rt: &impl Abort, alloc: Global, place: u32) -> CellStore<Shape4444>
    ensures g { result.g ≡ 1 }
    ensures cells { result.cells ≡ 4 }
{
    let mut store = CellStore::new(alloc, 1, 4, 100);
    for id in 0..33 {
        let word = if id == place { 0x0000 } else { 0x0001 };
        add(rt, &mut store, id, word);
    }
    store
}

#[test]
fn a_row_past_the_threshold_is_pruned(rt: HostRuntime) {
    let alloc = rt.alloc();
    let mut store = CellStore::new(alloc, 1, 4, 100);
    add(&rt, &mut store, 0, 0x0000);
    add(&rt, &mut store, 2, 0x4444);
    let nearest = Some((0, 0));
    expect(&rt, alloc, &store, (0, 9, 1), outcome(nearest, 1, 1, 1));
    expect(&rt, alloc, &store, (0, 9, 2), outcome(nearest, 2, 1, 1));
    expect(&rt, alloc, &store, (0, 9, 1000), outcome(nearest, 2, 1, 0));
    expect(&rt, alloc, &store, (9, 0, 1), outcome(None, 0, 1, 0));
}

#[test]
fn a_tie_is_kept(rt: HostRuntime) {
    let alloc = rt.alloc();
    let mut store = CellStore::new(alloc, 1, 4, 100);
    add(&rt, &mut store, 5, 0x4444);
    add(&rt, &mut store, 3, 0x4444);
    let least = outcome(Some((16384, 3)), 2, 1, 1);
    expect(&rt, alloc, &store, (0, 9, 1), least);
}

#[test]
fn a_block_is_read_for_each_32_rows(rt: HostRuntime) {
    let alloc = rt.alloc();
    let mut store = CellStore::new(alloc, 1, 4, 100);
    for id in 0..32 {
        add(&rt, &mut store, id, 0x0001);
    }
    let one = outcome(Some((256, 0)), 32, 1, 1);
    expect(&rt, alloc, &store, (0, 99, 1), one);
    add(&rt, &mut store, 32, 0x0000);
    let two = outcome(Some((0, 32)), 33, 2, 2);
    expect(&rt, alloc, &store, (0, 99, 1), two);
}

/// Scans before and after the row at a place dies, and at a pinned stamp before that.
fn expect_a_death(rt: &impl Abort, alloc: Global, place: u32) {
    let nearest = (0, 2_147_483_647, 1);
    let mut store = with_near_row(rt, alloc, place);
    let before = outcome(Some((0, place)), u64::from(place) + 1, 2, 2);
    expect(rt, alloc, &store, nearest, before);
    let stamp = store.pin().expect(rt, "room for a pin");
    assert_eq!(rt; remove(rt, &mut store, place), Ok(()));
    let first = if place == 0 { 1 } else { 0 };
    let after = outcome(Some((256, first)), 32, 2, 2);
    expect(rt, alloc, &store, nearest, after);
    expect_at(rt, alloc, &store, stamp, nearest, before);
}

#[test]
fn a_row_that_died_is_seen_at_a_pinned_stamp_alone(rt: HostRuntime) {
    for place in 0..33 {
        expect_a_death(&rt, rt.alloc(), place);
    }
}
