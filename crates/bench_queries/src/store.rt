//! Passes over a store of 65,536 cells: rows that come, that are seen and that go.
ghost use Rattle.std.specs.Prelude.{◌≡◌, ◌≤◌};

use crate::store_walk::walk;
use bench_common::{Numbers, number, resident, since};
use cell_store::CellStore;
use id_filter::{IdRange, IdRanges, KeptFilter};
use shape_core::Fields;
use std::alloc::{AllocError, Global};
use std::time::CpuClock;
use std::{env, io};

/// Rows of 8 words.
pub type Store = CellStore<Fields<4, 4, 4, 4>>;

/// Runs by the word ROWS, and prints a line for each pass: its number, a checksum, the nanoseconds spent and the resident bytes.
pub fn run_words(rt: &HostRuntime, mut words: env::Args) -> io::Result<()> {
    let rows = number(words.next());
    if 0 < rows && rows <= 4_194_304 {
        return time_store(rt, rows as u32);
    }
    Ok(())
}

/// Times each pass over a store of so many rows.
fn time_store(rt: &HostRuntime, rows: u32) -> io::Result<()>
    requires some { 1 ≤ rows }
    requires few { rows ≤ 4194304 }
{
    let ids = shuffled(rt.alloc(), rows)?;
    let mut store = Store::new(rt.alloc(), 8, 65_536, rows);
    println!(rt; "start 0 0 {}", resident(rt))?;
    for pass in 0..7 {
        time_pass(rt, &mut store, &ids, pass)?;
    }
    Ok(())
}

/// Times a pass, and prints its line.
fn time_pass(rt: &HostRuntime, store: &mut Store, ids: &[u32], pass: u32) -> io::Result<()>
    requires g { store.old.g ≡ 8 }
    requires cells { store.old.cells ≡ 65536 }
    ensures g { store.new.g ≡ 8 }
    ensures cells { store.new.cells ≡ 65536 }
{
    let start = rt.process_cpu_time()?;
    let sum = run(rt.alloc(), store, ids, pass);
    let spent = since(start, rt.process_cpu_time()?);
    println!(rt; "{pass} {sum} {spent} {}", resident(rt))
}

/// The ids below a number in the order in which their rows go.
fn shuffled(alloc: Global, rows: u32) -> Result<Vec<u32>, AllocError> {
    let mut numbers = Numbers::new(2);
    let mut ids = Vec::new(alloc);
    for id in 0..rows {
        ids.push(id)?;
    }
    shuffle(&mut ids, &mut numbers);
    Ok(ids)
}

fn shuffle(ids: &mut [u32], numbers: &mut Numbers) {
    for last in 1..ids.len() {
        let other = numbers.next_wide() as usize % (last + 1);
        if last < ids.len() && other < ids.len() {
            ids.swap(last, other);
        }
    }
}

/// One pass, and a checksum of it: 0 inserts the rows, 1 and 5 walk over them, 2 and 3 count up to 100 rows of all ids
/// and of ten, 4 and 6 delete half of the rows and the others.
fn run(alloc: Global, store: &mut Store, ids: &[u32], pass: u32) -> u64
    requires g { store.old.g ≡ 8 }
    requires cells { store.old.cells ≡ 65536 }
    ensures g { store.new.g ≡ 8 }
    ensures cells { store.new.cells ≡ 65536 }
{
    let half = ids.len() / 2;
    match pass {
        0 => insert_all(store, ids),
        1 | 5 => walk(alloc, store),
        2 => count_all(store),
        3 => count_ten(store),
        4 => delete_all(store, &ids[..half]),
        _ => delete_all(store, &ids[half..]),
    }
}

/// Inserts so many rows in the order of their ids, each into a cell by chance.
fn insert_all(store: &mut Store, ids: &[u32]) -> u64
    requires g { store.old.g ≡ 8 }
    requires cells { store.old.cells ≡ 65536 }
    ensures g { store.new.g ≡ 8 }
    ensures cells { store.new.cells ≡ 65536 }
{
    let mut numbers = Numbers::new(1);
    for id in 0..ids.len().min(4_194_304) as u32 {
        insert(store, id, u32::from(numbers.next()));
    }
    u64::from(store.live())
}

fn insert(store: &mut Store, id: u32, cell: u32)
    requires g { store.old.g ≡ 8 }
    requires cells { store.old.cells ≡ 65536 }
    ensures g { store.new.g ≡ 8 }
    ensures cells { store.new.cells ≡ 65536 }
{
    if id <= 2_147_483_647 && cell < 65_536 && store.stamp() < 4_611_686_018_427_387_904 {
        let code = [
            word(id, 0),
            word(id, 1),
            word(id, 2),
            word(id, 3),
            word(id, 4),
            word(id, 5),
            word(id, 6),
            word(id, 7),
        ];
        let _ = store.insert(id, cell, &code);
    }
}

/// A word of the code of an id.
fn word(id: u32, at: u32) -> u16 {
    (id.wrapping_mul(2_654_435_761).wrapping_add(at) & 0xffff) as u16
}

/// Deletes the rows of these ids.
fn delete_all(store: &mut Store, ids: &[u32]) -> u64
    requires g { store.old.g ≡ 8 }
    requires cells { store.old.cells ≡ 65536 }
    ensures g { store.new.g ≡ 8 }
    ensures cells { store.new.cells ≡ 65536 }
{
    for id in ids {
        delete(store, *id);
    }
    u64::from(store.live())
}

fn delete(store: &mut Store, id: u32)
    requires g { store.old.g ≡ 8 }
    requires cells { store.old.cells ≡ 65536 }
    ensures g { store.new.g ≡ 8 }
    ensures cells { store.new.cells ≡ 65536 }
{
    if id <= 2_147_483_647 && store.stamp() < 4_611_686_018_427_387_904 {
        let _ = store.delete(id);
    }
}

/// Counts rows of all ids, a thousand times.
fn count_all(store: &Store) -> u64 {
    let range = IdRange {
        lo: 0,
        hi: 2_147_483_647,
    };
    let filter = KeptFilter::new(IdRanges::One(range), |_: u32| true);
    let mut sum: u64 = 0;
    for i in 0..1000 {
        let found = store.passing_up_to(store.stamp(), &filter, 100);
        sum = sum.wrapping_mul(31).wrapping_add(u64::from(found));
    }
    sum
}

/// Counts rows of ten ids, ten times.
fn count_ten(store: &Store) -> u64 {
    let range = IdRange { lo: 1000, hi: 1009 };
    let filter = KeptFilter::new(IdRanges::One(range), |id: u32| 1000 <= id && id <= 1009);
    let mut sum: u64 = 0;
    for i in 0..10 {
        let found = store.passing_up_to(store.stamp(), &filter, 100);
        sum = sum.wrapping_mul(31).wrapping_add(u64::from(found));
    }
    sum
}
