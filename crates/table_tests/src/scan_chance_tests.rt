//! Scans of rows by chance, beside a plain sort of all their distances.
ghost use Rattle.std.specs.Prelude.{◌≡◌, ◌≤◌};

use crate::scan_questions::{Question, Shape4444, add_to, ask, remove};
use best_k::Pair;
use cell_store::CellStore;
use std::alloc::Global;
use std::process::Abort;
use std::test::Fail;

/// A row of the plain list.
#[derive(Clone, Copy)]
struct Plain {
    id: u32,
    word: u16,
    is_live: bool,
}

/// The number after one, by a linear congruence.
fn next_number(x: u64) -> u64 {
    x.wrapping_mul(6_364_136_223_846_793_005)
        .wrapping_add(1_442_695_040_888_963_407)
}

/// The squared distance of a query from what a code stands for: word w of each of the four parts is 16 w.
fn plain_distance(query: &[u8; 4], code: u16) -> u64 {
    let mut sum: u64 = 0;
    for part in 0..4 {
        let word = u64::from(code >> (4 * part)) % 16;
        let gap = u64::from(query[part]).abs_diff(16 * word);
        sum = sum.wrapping_add(gap.wrapping_mul(gap));
    }
    sum
}

/// The k nearest of the live rows that a question asks for, by a sort of all.
fn nearest(alloc: Global, rows: &[Plain], question: &Question) -> Result<Vec<Pair>, Fail> {
    let mut pairs = Vec::new(alloc);
    for row in rows {
        if row.is_live && question.lo <= row.id && row.id <= question.hi {
            let distance = plain_distance(&question.query, row.word);
            pairs.push(Pair {
                distance,
                id: row.id,
            })?;
        }
    }
    pairs.sort_unstable();
    pairs.truncate(question.k as usize);
    Ok(pairs)
}

/// Asks for the ten nearest to a query, of the ids from `lo` to `hi`, and sorts all rows beside it.
fn ask_both(
    rt: &impl Abort,
    alloc: Global,
    store: &CellStore<Shape4444>,
    rows: &[Plain],
    query: [u8; 4],
    lo: u32,
    hi: u32,
) -> Result<(), Fail>
    requires g { store.now.g ≡ 1 }
{
    let question = Question {
        query,
        lo,
        hi,
        k: 10,
    };
    let scanned = ask(rt, alloc, store, store.stamp(), &question);
    assert_eq!(rt; scanned.pairs, nearest(alloc, rows, &question)?);
    assert!(rt; 10 <= scanned.full && scanned.full < rows.len() as u64);
    Ok(())
}

/// Asks eight queries by chance, of all ids and of some.
fn ask_queries(
    rt: &impl Abort,
    alloc: Global,
    store: &CellStore<Shape4444>,
    rows: &[Plain],
) -> Result<(), Fail>
    requires g { store.now.g ≡ 1 }
{
    let mut x = 11u64;
    for _round in 0..8 {
        x = next_number(x);
        let query = [
            (x >> 56) as u8,
            ((x >> 48) & 255) as u8,
            ((x >> 40) & 255) as u8,
            ((x >> 32) & 255) as u8,
        ];
        ask_both(rt, alloc, store, rows, query, 0, 2_147_483_647)?;
        ask_both(rt, alloc, store, rows, query, 500, 1_900)?;
    }
    Ok(())
}

#[test]
fn a_scan_finds_the_nearest_of_rows_by_chance(rt: HostRuntime) -> Result<(), Fail> {
    let alloc = rt.alloc();
    let mut store = CellStore::new(alloc, 1, 4, 5_000);
    let mut rows = Vec::new(alloc);
    let mut x = 7u64;
    for id in 0..3_000 {
        x = next_number(x);
        let word = (x >> 48) as u16;
        let cell = (x >> 40) as u32 % 4;
        assert_eq!(rt; add_to(&rt, &mut store, id, cell, word), Ok(()));
        rows.push(Plain {
            id,
            word,
            is_live: true,
        })?;
    }
    ask_queries(&rt, alloc, &store, &rows)?;
    for row in &mut rows {
        if row.id % 7 == 3 {
            assert_eq!(rt; remove(&rt, &mut store, row.id), Ok(()));
            row.is_live = false;
        }
    }
    ask_queries(&rt, alloc, &store, &rows)
}
