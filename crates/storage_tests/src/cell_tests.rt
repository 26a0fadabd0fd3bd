//! Tests of the store.
ghost use Rattle.std.specs.Prelude.{◌≡◌, ◌<◌, ◌≤◌, [], ◌∷◌, ◌++◌};
ghost use Rattle.cell_store.specs.State.{IsHeldStamp};

use cell_store::*;
use id_filter::{IdRange, IdRanges, KeptFilter};
use shape_core::Fields;
use std::alloc::Global;
use std::process::Abort;
use std::test::Fail;

type Small = CellStore<Fields<4, 4, 4, 4>>;

/// Inserts a row of one word into a store of twenty cells.
fn add(rt: &impl Abort, store: &mut Small, id: u32, cell: u32) -> Result<(), InsertRefusal>
    requires g { store.old.g ≡ 1 }
    requires cells { store.old.cells ≡ 20 }
    ensures g { store.new.g ≡ 1 }
    ensures cells { store.new.cells ≡ 20 }
    ensures pins { store.new.pins ≡ store.old.pins }
{
    assert!(rt; id <= 2_147_483_647 && cell < 20 && store.stamp() < 4_611_686_018_427_387_904);
    store.insert(id, cell, &[(id & 0xffff) as u16])
}

fn put(rt: &impl Abort, store: &mut Small, id: u32, cell: u32) -> Result<bool, PutRefusal>
    requires g { store.old.g ≡ 1 }
    requires cells { store.old.cells ≡ 20 }
    ensures g { store.new.g ≡ 1 }
    ensures cells { store.new.cells ≡ 20 }
    ensures pins { store.new.pins ≡ store.old.pins }
{
    assert!(rt; id <= 2_147_483_647 && cell < 20 && store.stamp() < 4_611_686_018_427_387_904);
    store.put(id, cell, &[(id & 0xffff) as u16])
}

fn remove(rt: &impl Abort, store: &mut Small, id: u32) -> Result<(), Absent>
    requires g { store.old.g ≡ 1 }
    requires cells { store.old.cells ≡ 20 }
    ensures g { store.new.g ≡ 1 }
    ensures cells { store.new.cells ≡ 20 }
    ensures pins { store.new.pins ≡ store.old.pins }
{
    assert!(rt; id <= 2_147_483_647 && store.stamp() < 4_611_686_018_427_387_904);
    store.delete(id)
}

/// Adds a row, and compares the answer.
fn adds(rt: &impl Abort, store: &mut Small, id: u32, cell: u32, want: Result<(), InsertRefusal>)
    requires g { store.old.g ≡ 1 }
    requires cells { store.old.cells ≡ 20 }
    ensures g { store.new.g ≡ 1 }
    ensures cells { store.new.cells ≡ 20 }
    ensures pins { store.new.pins ≡ store.old.pins }
{
    assert_eq!(rt; add(rt, store, id, cell), want);
}

/// Puts a row, and compares the answer.
fn puts(rt: &impl Abort, store: &mut Small, id: u32, cell: u32, want: Result<bool, PutRefusal>)
    requires g { store.old.g ≡ 1 }
    requires cells { store.old.cells ≡ 20 }
    ensures g { store.new.g ≡ 1 }
    ensures cells { store.new.cells ≡ 20 }
    ensures pins { store.new.pins ≡ store.old.pins }
{
    assert_eq!(rt; put(rt, store, id, cell), want);
}

/// Takes a row out, and compares the answer.
fn removes(rt: &impl Abort, store: &mut Small, id: u32, want: Result<(), Absent>)
    requires g { store.old.g ≡ 1 }
    requires cells { store.old.cells ≡ 20 }
    ensures g { store.new.g ≡ 1 }
    ensures cells { store.new.cells ≡ 20 }
    ensures pins { store.new.pins ≡ store.old.pins }
{
    assert_eq!(rt; remove(rt, store, id), want);
}

/// Compares the live rows, the used cells and the stamp.
fn counts(rt: &impl Abort, store: &Small, live: u32, used: u32, stamp: u64) {
    assert_eq!(rt;
        (store.live(), store.used(), store.stamp()),
        (live, used, stamp)
    );
}

/// How many rows pass at the present stamp, of those with ids from `lo` to `hi`.
fn passing(store: &Small, lo: u32, hi: u32) -> u32 {
    let range = IdRange { lo, hi };
    let filter = KeptFilter::new(IdRanges::One(range), |id: u32| lo <= id && id <= hi);
    store.passing(store.stamp(), &filter)
}

/// Fills a store of two rows with ids 5 and 6 in cell 1, and expects the refusals on the way.
fn fill_two(rt: &impl Abort, store: &mut Small)
    requires g { store.old.g ≡ 1 }
    requires cells { store.old.cells ≡ 20 }
    ensures g { store.new.g ≡ 1 }
    ensures cells { store.new.cells ≡ 20 }
{
    assert_eq!(rt; store.live(), 0);
    adds(rt, store, 5, 1, Ok(()));
    adds(rt, store, 5, 0, Err(InsertRefusal::Present));
    adds(rt, store, 6, 1, Ok(()));
    adds(rt, store, 7, 1, Err(InsertRefusal::Full));
}

/// What a store with ids 5 and 6 in cell 1 shows.
fn expect_two(rt: &impl Abort, store: &Small)
    requires { store.now.cells ≡ 20 }
{
    counts(rt, store, 2, 1, 2);
    assert_eq!(rt; store.next_cell(0), Some(1));
    assert_eq!(rt; passing(store, 0, 5), 1);
    assert_eq!(rt; passing(store, 0, 2_147_483_647), 2);
}

#[test]
fn rows_come_and_go(rt: HostRuntime) {
    let mut store = Small::new(rt.alloc(), 1, 20, 2);
    fill_two(&rt, &mut store);
    expect_two(&rt, &store);
    removes(&rt, &mut store, 5, Ok(()));
    removes(&rt, &mut store, 5, Err(Absent));
    assert_eq!(rt; store.stamp(), 3);
    assert!(rt; store.contains(6));
    assert!(rt; !store.contains(5));
}

#[test]
fn a_full_store_takes_a_row_after_a_delete(rt: HostRuntime) {
    let mut store = Small::new(rt.alloc(), 1, 20, 2);
    adds(&rt, &mut store, 5, 0, Ok(()));
    adds(&rt, &mut store, 6, 1, Ok(()));
    adds(&rt, &mut store, 7, 2, Err(InsertRefusal::Full));
    adds(&rt, &mut store, 5, 3, Err(InsertRefusal::Present));
    removes(&rt, &mut store, 6, Ok(()));
    adds(&rt, &mut store, 7, 2, Ok(()));
    removes(&rt, &mut store, 6, Err(Absent));
    assert_eq!(rt; store.stamp(), 4);
    assert_eq!(rt; store.live(), 2);
}

#[test]
fn a_put_moves_a_row_to_its_new_cell(rt: HostRuntime) {
    let mut store = Small::new(rt.alloc(), 1, 20, 1);
    puts(&rt, &mut store, 5, 0, Ok(false));
    puts(&rt, &mut store, 5, 1, Ok(true));
    puts(&rt, &mut store, 6, 1, Err(PutRefusal::Full));
    assert_eq!(rt; store.live(), 1);
    assert_eq!(rt; store.stamp(), 2);
    assert_eq!(rt; store.used(), 1);
}

/// Pins the present stamp of a store that has room for a pin.
fn pinned(rt: &impl Abort, store: &mut Small) -> u64
    ensures g { store.new.g ≡ store.old.g }
    ensures cells { store.new.cells ≡ store.old.cells }
    ensures pins { store.new.pins ≡ store.old.pins ++ result ∷ [] }
{
    store.pin().expect(rt, "room for a pin")
}

/// How many rows live at a stamp.
fn rows_at(store: &Small, stamp: u64) -> u32
    requires { IsHeldStamp store.now stamp }
{
    let range = IdRange {
        lo: 0,
        hi: 2_147_483_647,
    };
    store.passing(stamp, &KeptFilter::new(IdRanges::One(range), |_: u32| true))
}

/// Pins a stamp of two rows, which are then deleted, and one of two others, of which one is deleted.
fn two_pins(rt: &impl Abort, store: &mut Small) -> (u64, u64)
    requires g { store.old.g ≡ 1 }
    requires cells { store.old.cells ≡ 20 }
    requires pins { store.old.pins ≡ [] }
    ensures g { store.new.g ≡ 1 }
    ensures cells { store.new.cells ≡ 20 }
    ensures pins { store.new.pins ≡ result.0 ∷ result.1 ∷ [] }
{
    adds(rt, store, 5, 0, Ok(()));
    adds(rt, store, 6, 0, Ok(()));
    let first = pinned(rt, store);
    removes(rt, store, 5, Ok(()));
    removes(rt, store, 6, Ok(()));
    adds(rt, store, 7, 0, Ok(()));
    adds(rt, store, 8, 1, Ok(()));
    let second = pinned(rt, store);
    removes(rt, store, 7, Ok(()));
    adds(rt, store, 9, 0, Err(InsertRefusal::Held));
    (first, second)
}

/// How many rows live at two pinned stamps, and at the present one.
fn rows_at_pins(store: &Small, first: u64, second: u64) -> (u32, u32, u32)
    requires { store.now.pins ≡ first ∷ second ∷ [] }
{
    let now = store.stamp();
    (
        rows_at(store, first),
        rows_at(store, second),
        rows_at(store, now),
    )
}

#[test]
fn pinned_rows_hold_their_room(rt: HostRuntime) {
    let mut store = Small::new(rt.alloc(), 1, 20, 2);
    let (first, second) = two_pins(&rt, &mut store);
    let rows = rows_at_pins(&store, first, second);
    assert_eq!(rt; (first, second, store.stamp()), (2, 6, 7));
    assert_eq!(rt; rows, (2, 2, 1));
    assert_eq!(rt; store.kept(0), 3);
    store.unpin(first);
    room_comes_back(&rt, &mut store);
}

/// Inserts the one row for which an unpinned stamp made room.
fn room_comes_back(rt: &impl Abort, store: &mut Small)
    requires g { store.old.g ≡ 1 }
    requires cells { store.old.cells ≡ 20 }
{
    adds(rt, store, 9, 0, Ok(()));
    assert_eq!(rt; store.stamp(), 8);
    adds(rt, store, 10, 0, Err(InsertRefusal::Full));
}

#[test]
fn a_pin_past_the_sixty_fourth_is_refused(rt: HostRuntime) {
    let mut store = Small::new(rt.alloc(), 1, 20, 2);
    adds(&rt, &mut store, 5, 0, Ok(()));
    for _ in 0..64 {
        assert_eq!(rt; store.pin(), Ok(1));
    }
    assert_eq!(rt; store.pin(), Err(Sessions));
    assert_eq!(rt; store.stamp(), 1);
}

#[test]
fn an_unpinned_row_is_needed_no_more(rt: HostRuntime) {
    let mut store = Small::new(rt.alloc(), 1, 20, 1);
    adds(&rt, &mut store, 5, 0, Ok(()));
    let first = pinned(&rt, &mut store);
    removes(&rt, &mut store, 5, Ok(()));
    assert_eq!(rt; rows_at(&store, first), 1);
    adds(&rt, &mut store, 6, 1, Ok(()));
    let second = pinned(&rt, &mut store);
    puts(&rt, &mut store, 6, 0, Err(PutRefusal::Held));
    store.unpin(first);
    puts(&rt, &mut store, 6, 0, Ok(true));
    assert_eq!(rt; (store.live(), store.stamp(), second), (1, 4, 3));
}

#[test]
fn held_counts_each_row_that_a_pin_needs(rt: HostRuntime) {
    let mut store = Small::new(rt.alloc(), 1, 20, 2);
    adds(&rt, &mut store, 5, 0, Ok(()));
    adds(&rt, &mut store, 6, 0, Ok(()));
    let first = pinned(&rt, &mut store);
    puts(&rt, &mut store, 5, 1, Ok(true));
    puts(&rt, &mut store, 6, 1, Ok(true));
    let second = pinned(&rt, &mut store);
    puts(&rt, &mut store, 5, 0, Err(PutRefusal::Held));
    removes(&rt, &mut store, 5, Ok(()));
    adds(&rt, &mut store, 7, 0, Err(InsertRefusal::Held));
    puts(&rt, &mut store, 7, 0, Err(PutRefusal::Held));
    puts(&rt, &mut store, 6, 0, Err(PutRefusal::Held));
    assert_eq!(rt; (first, second, store.stamp()), (2, 4, 5));
    store.unpin(first);
    room_for_two(&rt, &mut store);
}

/// Changes for which an unpinned stamp made room.
fn room_for_two(rt: &impl Abort, store: &mut Small)
    requires g { store.old.g ≡ 1 }
    requires cells { store.old.cells ≡ 20 }
{
    adds(rt, store, 7, 0, Ok(()));
    puts(rt, store, 6, 0, Ok(true));
    puts(rt, store, 7, 1, Ok(true));
    assert_eq!(rt; (store.live(), store.stamp()), (2, 8));
}

/// Compares the two slots of cell 1, and the last code, which reads one block.
fn expect_lent(rt: &impl Abort, store: &Small, blocks: &mut BlockMeter)
    requires g { store.now.g ≡ 1 }
    requires cells { store.now.cells ≡ 20 }
    requires blocks { blocks.old ≡ 0 }
{
    let Some(cell) = store.cell(1) else {
        return;
    };
    assert_eq!(rt; cell.kept(), 2);
    let dead = Slot {
        id: 5,
        born: 1,
        died: 3,
    };
    let live = Slot {
        id: 6,
        born: 2,
        died: NEVER,
    };
    assert_eq!(rt; cell.slots(0), [dead, live].as_slice());
    let words = cell.block(0, blocks).words();
    assert_eq!(rt; words.len(), 1);
    assert_eq!(rt; words[0][1], 6);
}

#[test]
fn a_cell_lends_its_slots_and_codes(rt: HostRuntime) {
    let mut store = Small::new(rt.alloc(), 1, 20, 9);
    adds(&rt, &mut store, 5, 1, Ok(()));
    adds(&rt, &mut store, 6, 1, Ok(()));
    removes(&rt, &mut store, 5, Ok(()));
    let mut blocks = BlockMeter::new(rt.alloc());
    assert!(rt; store.cell(0).is_none());
    expect_lent(&rt, &store, &mut blocks);
    assert_eq!(rt; blocks.count(), 1);
}

/// A store of twenty cells with rows 0 to n - 1 in cell 0.
fn filled(rt: &impl Abort, alloc: Global, n: u32) -> Small
    ensures g { result.g ≡ 1 }
    ensures cells { result.cells ≡ 20 }
{
    let mut store = Small::new(alloc, 1, 20, 100);
    for id in 0..n {
        adds(rt, &mut store, id, 0, Ok(()));
    }
    store
}

/// Whether the live slots of cell 0 are those of the ids 0 to n - 1 but one, in order.
fn is_without(store: &Small, n: u32, gone: u32) -> bool {
    let mut next = 0;
    let mut group = 0;
    while group < 4 && 32 * group < store.kept(0) {
        for slot in store.slots(0, group) {
            if slot.died == NEVER {
                if next == gone {
                    next = gone.saturating_add(1);
                }
                if slot.id != next {
                    return false;
                }
                next = next.saturating_add(1);
            }
        }
        group += 1;
    }
    next == n || (gone.saturating_add(1) == n && next == gone)
}

#[test]
fn a_delete_keeps_the_order_at_each_place(rt: HostRuntime) {
    for n in [32, 33, 65] {
        for gone in 0..n {
            let mut store = filled(&rt, rt.alloc(), n);
            removes(&rt, &mut store, gone, Ok(()));
            assert!(rt; is_without(&store, n, gone));
            assert_eq!(rt; store.live() + 1, n);
        }
    }
}

#[test]
fn a_cell_lets_go_of_rows_past_32_dead_ones(rt: HostRuntime) {
    let mut store = filled(&rt, rt.alloc(), 33);
    assert_eq!(rt; store.kept(0), 33);
    for id in 0..33 {
        removes(&rt, &mut store, id, Ok(()));
    }
    assert!(rt; store.kept(0) <= 32);
    assert_eq!(rt; (store.live(), store.used()), (0, 0));
}

/// The first place from one on whose row is of the cell, or the count of rows.
fn next_of(rows: &[(u32, u32)], from: usize, cell: u32) -> usize {
    for i in from..rows.len() {
        if rows[i].1 == cell {
            return i;
        }
    }
    rows.len()
}

/// Whether the live rows of a cell are those of a plain list of (id, cell), in order.
fn is_same(store: &Small, rows: &[(u32, u32)], cell: u32) -> bool {
    let mut at = 0;
    let mut group = 0;
    while group < 4 && 32 * group < store.kept(cell) {
        for slot in store.slots(cell, group) {
            if slot.died == NEVER {
                at = next_of(rows, at, cell);
                if rows.get(at) != Some(&(slot.id, cell)) {
                    return false;
                }
                at = at.saturating_add(1);
            }
        }
        group += 1;
    }
    next_of(rows, at, cell) == rows.len()
}

/// Takes the row of an id out of a plain list, and says whether there was one.
fn take_out(rows: &mut Vec<(u32, u32)>, id: u32) -> bool {
    match rows.iter().position(|row| row.0 == id) {
        Some(i) if i < rows.len() => {
            rows.remove(i);
            true
        }
        _ => false,
    }
}

/// Adds a row to the store, and to a plain list of at most 12.
fn step_add(
    rt: &impl Abort,
    store: &mut Small,
    rows: &mut Vec<(u32, u32)>,
    id: u32,
    cell: u32,
) -> Result<(), Fail>
    requires g { store.old.g ≡ 1 }
    requires cells { store.old.cells ≡ 20 }
    ensures g { store.new.g ≡ 1 }
    ensures cells { store.new.cells ≡ 20 }
{
    if rows.iter().any(|row| row.0 == id) {
        adds(rt, store, id, cell, Err(InsertRefusal::Present));
    } else if rows.len() == 12 {
        adds(rt, store, id, cell, Err(InsertRefusal::Full));
    } else {
        adds(rt, store, id, cell, Ok(()));
        rows.push((id, cell))?;
    }
    Ok(())
}

/// Puts a row into the store, and into a plain list of at most 12.
fn step_put(
    rt: &impl Abort,
    store: &mut Small,
    rows: &mut Vec<(u32, u32)>,
    id: u32,
    cell: u32,
) -> Result<(), Fail>
    requires g { store.old.g ≡ 1 }
    requires cells { store.old.cells ≡ 20 }
    ensures g { store.new.g ≡ 1 }
    ensures cells { store.new.cells ≡ 20 }
{
    let replaced = take_out(rows, id);
    if rows.len() == 12 {
        puts(rt, store, id, cell, Err(PutRefusal::Full));
    } else {
        puts(rt, store, id, cell, Ok(replaced));
        rows.push((id, cell))?;
    }
    Ok(())
}

/// Takes a row out of the store and of a plain list.
fn step_remove(rt: &impl Abort, store: &mut Small, rows: &mut Vec<(u32, u32)>, id: u32)
    requires g { store.old.g ≡ 1 }
    requires cells { store.old.cells ≡ 20 }
    ensures g { store.new.g ≡ 1 }
    ensures cells { store.new.cells ≡ 20 }
{
    let want = if take_out(rows, id) {
        Ok(())
    } else {
        Err(Absent)
    };
    removes(rt, store, id, want);
}

/// One step of a history: what a number chooses, on the store and on the plain list.
fn step(rt: &impl Abort, store: &mut Small, rows: &mut Vec<(u32, u32)>, x: u64) -> Result<(), Fail>
    requires g { store.old.g ≡ 1 }
    requires cells { store.old.cells ≡ 20 }
    ensures g { store.new.g ≡ 1 }
    ensures cells { store.new.cells ≡ 20 }
{
    let id = (x >> 33) as u32 % 20;
    let cell = (x >> 32) as u32 % 2;
    match (x >> 55) % 3 {
        0 => step_add(rt, store, rows, id, cell)?,
        1 => step_remove(rt, store, rows, id),
        _ => step_put(rt, store, rows, id, cell)?,
    }
    Ok(())
}

#[test]
fn a_long_history_is_that_of_a_plain_list(rt: HostRuntime) -> Result<(), Fail> {
    let mut store = Small::new(rt.alloc(), 1, 20, 12);
    let mut rows = Vec::new(rt.alloc());
    let mut x = 7u64;
    for round in 0..4000 {
        x = x
            .wrapping_mul(6_364_136_223_846_793_005)
            .wrapping_add(1_442_695_040_888_963_407);
        step(&rt, &mut store, &mut rows, x)?;
        assert_eq!(rt; store.live() as usize, rows.len());
        assert!(rt; is_same(&store, &rows, 0));
        assert!(rt; is_same(&store, &rows, 1));
    }
    Ok(())
}

/// Takes the row of an id out, or puts one in where there is none, in the store and in the plain list.
fn toggle(
    rt: &impl Abort,
    store: &mut Small,
    rows: &mut Vec<(u32, u32)>,
    id: u32,
    cell: u32,
) -> Result<(), Fail>
    requires g { store.old.g ≡ 1 }
    requires cells { store.old.cells ≡ 20 }
    ensures g { store.new.g ≡ 1 }
    ensures cells { store.new.cells ≡ 20 }
{
    if take_out(rows, id) {
        removes(rt, store, id, Ok(()));
    } else {
        adds(rt, store, id, cell, Ok(()));
        rows.push((id, cell))?;
    }
    Ok(())
}

#[test]
fn a_history_of_many_deletes_is_that_of_a_plain_list(rt: HostRuntime) -> Result<(), Fail> {
    let mut store = Small::new(rt.alloc(), 1, 20, 100);
    let mut rows = Vec::new(rt.alloc());
    let mut x = 11u64;
    for round in 0..3000 {
        x = x
            .wrapping_mul(6_364_136_223_846_793_005)
            .wrapping_add(1_442_695_040_888_963_407);
        toggle(
            &rt,
            &mut store,
            &mut rows,
            (x >> 33) as u32 % 90,
            (x >> 60) as u32 % 3,
        )?;
        assert_eq!(rt; store.live() as usize, rows.len());
        assert!(rt; is_same(&store, &rows, 0));
        assert!(rt; is_same(&store, &rows, 1));
        assert!(rt; is_same(&store, &rows, 2));
    }
    Ok(())
}

/// What a store shows: its counts, and sums over its ids and over the rows of each cell.
#[derive(Debug, Clone, Copy, PartialEq, Eq)]
struct Snapshot {
    live: u32,
    stamp: u64,
    used: u32,
    kept: [u32; 20],
    rows: [u64; 20],
    ids: u64,
}

/// A sum with a number mixed in, modulo 2^64.
fn mix(sum: u64, number: u64) -> u64 {
    sum.wrapping_mul(6_364_136_223_846_793_005)
        .wrapping_add(number)
        .wrapping_add(1)
}

/// A sum with slots and their codes mixed in.
fn mix_slots(sum: u64, slots: &[Slot], codes: &[u16; 32]) -> u64 {
    let mut mixed = sum;
    for (slot, code) in slots.iter().zip(codes) {
        let stamps = mix(mix(mixed, slot.born), slot.died);
        mixed = mix(mix(stamps, slot.id as u64), *code as u64);
    }
    mixed
}

/// A sum over the slots and codes of a cell.
fn rows_sum(rt: &impl Abort, alloc: Global, store: &Small, cell: u32) -> u64 {
    let mut sum = 0;
    let mut group = 0;
    while group < 8 && 32 * group < store.kept(cell) {
        let mut blocks = BlockMeter::new(alloc);
        let words = store.block(cell, group, &mut blocks).words();
        assert_eq!(rt; words.len(), 1);
        sum = mix_slots(sum, store.slots(cell, group), &words[0]);
        group += 1;
    }
    sum
}

/// A sum over which of the ids below 200 are live.
fn ids_sum(store: &Small) -> u64 {
    let mut sum = 0;
    for id in 0..200 {
        sum = mix(sum, store.contains(id) as u64);
    }
    sum
}

/// What a store shows.
fn shown(rt: &impl Abort, alloc: Global, store: &Small) -> Snapshot {
    let mut kept = [0; 20];
    let mut rows = [0; 20];
    for cell in 0..20 {
        kept[cell] = store.kept(cell as u32);
        rows[cell] = rows_sum(rt, alloc, store, cell as u32);
    }
    Snapshot {
        live: store.live(),
        stamp: store.stamp(),
        used: store.used(),
        kept,
        rows,
        ids: ids_sum(store),
    }
}

/// Inserts a row. Where memory runs out, the store shows what it showed before, and takes the row then.
fn add_at_last(rt: &impl Abort, alloc: Global, store: &mut Small, id: u32, cell: u32)
    requires g { store.old.g ≡ 1 }
    requires cells { store.old.cells ≡ 20 }
    ensures g { store.new.g ≡ 1 }
    ensures cells { store.new.cells ≡ 20 }
    ensures pins { store.new.pins ≡ store.old.pins }
{
    let before = shown(rt, alloc, store);
    let answer = add(rt, store, id, cell);
    if answer == Err(InsertRefusal::Memory) {
        assert_eq!(rt; shown(rt, alloc, store), before);
        adds(rt, store, id, cell, Ok(()));
    } else {
        assert_eq!(rt; answer, Ok(()));
    }
    assert_eq!(rt; store.stamp(), before.stamp.saturating_add(1));
    assert!(rt; store.contains(id));
}

/// Puts a row in the place of a live one. Where memory runs out, the store shows what it showed before, and takes the
/// row then.
fn put_at_last(rt: &impl Abort, alloc: Global, store: &mut Small, id: u32, cell: u32)
    requires g { store.old.g ≡ 1 }
    requires cells { store.old.cells ≡ 20 }
    ensures g { store.new.g ≡ 1 }
    ensures cells { store.new.cells ≡ 20 }
    ensures pins { store.new.pins ≡ store.old.pins }
{
    let before = shown(rt, alloc, store);
    let answer = put(rt, store, id, cell);
    if answer == Err(PutRefusal::Memory) {
        assert_eq!(rt; shown(rt, alloc, store), before);
        puts(rt, store, id, cell, Ok(true));
    } else {
        assert_eq!(rt; answer, Ok(true));
    }
    assert_eq!(rt;
        (store.live(), store.stamp()),
        (before.live, before.stamp.saturating_add(1))
    );
}

/// Inserts the ids below 150: one into each cell but the first, and all others into the first.
fn add_all(rt: &impl Abort, alloc: Global, store: &mut Small)
    requires g { store.old.g ≡ 1 }
    requires cells { store.old.cells ≡ 20 }
    ensures g { store.new.g ≡ 1 }
    ensures cells { store.new.cells ≡ 20 }
{
    for id in 0..150 {
        add_at_last(rt, alloc, store, id, if id < 20 { id } else { 0 });
    }
}

/// Puts every third id below 150 into cell 1.
fn put_thirds(rt: &impl Abort, alloc: Global, store: &mut Small)
    requires g { store.old.g ≡ 1 }
    requires cells { store.old.cells ≡ 20 }
    ensures g { store.new.g ≡ 1 }
    ensures cells { store.new.cells ≡ 20 }
    ensures pins { store.new.pins ≡ store.old.pins }
{
    for third in 0..50 {
        put_at_last(rt, alloc, store, 3 * third, 1);
    }
}

/// Deletes the ids below 150.
fn remove_all(rt: &impl Abort, store: &mut Small)
    requires g { store.old.g ≡ 1 }
    requires cells { store.old.cells ≡ 20 }
    ensures g { store.new.g ≡ 1 }
    ensures cells { store.new.cells ≡ 20 }
{
    for id in 0..150 {
        removes(rt, store, id, Ok(()));
    }
}

/// Puts every third row into cell 1 while the stamp before is pinned, and deletes all rows.
fn put_thirds_and_remove_all(rt: &impl Abort, alloc: Global, store: &mut Small)
    requires g { store.old.g ≡ 1 }
    requires cells { store.old.cells ≡ 20 }
    ensures g { store.new.g ≡ 1 }
    ensures cells { store.new.cells ≡ 20 }
{
    let pin = pinned(rt, store);
    put_thirds(rt, alloc, store);
    assert_eq!(rt;
        (rows_at(store, pin), store.live(), store.kept(1)),
        (150, 150, 51)
    );
    store.unpin(pin);
    remove_all(rt, store);
}

/// Run with each allocation failing in turn, it meets a refusal at each kind of memory that a store takes.
#[test]
fn a_refused_insert_changes_nothing(rt: HostRuntime) {
    let mut store = Small::new(rt.alloc(), 1, 20, 200);
    add_all(&rt, rt.alloc(), &mut store);
    let full = shown(&rt, rt.alloc(), &store);
    assert_eq!(rt;
        (full.live, full.used, full.kept[0], full.kept[19]),
        (150, 20, 131, 1)
    );
    put_thirds_and_remove_all(&rt, rt.alloc(), &mut store);
    counts(&rt, &store, 0, 0, 350);
    add_at_last(&rt, rt.alloc(), &mut store, 7, 2);
    assert_eq!(rt;
        (store.live(), store.used(), store.contains(7)),
        (1, 1, true)
    );
}
