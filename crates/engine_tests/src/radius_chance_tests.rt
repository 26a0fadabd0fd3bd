//! Queries by radius over random rows, beside a plain double of the definition.
ghost use Rattle.std.specs.Prelude.{◌≡◌};
ghost use Rattle.radius_scan.specs.Parts.{HasRadiusRoom};

use crate::books::{Shape4444, small};
use crate::radius_tests::{Asked, delete, expect_by, insert};
use best_k::Pair;
use id_filter::IdRange;
use query_engine::Engine;
use radius_scan::RadiusScratch;
use std::alloc::Global;
use std::process::Abort;
use std::test::Fail;

/// A row of the plain list: the words of its code, and its cell.
#[derive(Clone, Copy)]
struct Plain {
    id: u32,
    cell: u32,
    words: [u64; 4],
    is_live: bool,
}

/// The number after one, by a linear congruence.
fn next_number(x: u64) -> u64 {
    x.wrapping_mul(6_364_136_223_846_793_005)
        .wrapping_add(1_442_695_040_888_963_407)
}

/// Four bytes of a random number.
fn vector_of(x: u64) -> [u8; 4] {
    [
        (x >> 56) as u8,
        ((x >> 48) & 255) as u8,
        ((x >> 40) & 255) as u8,
        ((x >> 32) & 255) as u8,
    ]
}

/// The squared distance of two numbers.
fn square(a: u64, b: u64) -> u64 {
    let gap = a.abs_diff(b);
    gap.wrapping_mul(gap)
}

/// The least number of the nearest of so many words, of which word w is w times a step.
fn nearest(component: u8, count: u64, step: u64) -> u64 {
    let mut best = 0;
    for w in 0..count {
        let near = square(u64::from(component), step.wrapping_mul(best));
        if square(u64::from(component), step.wrapping_mul(w)) < near {
            best = w;
        }
    }
    best
}

/// The squared distance of a pair of components to a coarse word: 0 is (0, 0), and 1 is (128, 128).
fn coarse_distance(x: u8, y: u8, word: u64) -> u64 {
    square(u64::from(x), word.wrapping_mul(128)).wrapping_add(square(
        u64::from(y),
        word.wrapping_mul(128),
    ))
}

/// The sum of the coarse distances of a cell.
fn cell_sum(query: &[u8; 4], cell: u32) -> u64 {
    let first = coarse_distance(query[0], query[1], u64::from(cell / 2 % 2));
    first.wrapping_add(coarse_distance(query[2], query[3], u64::from(cell % 2)))
}

/// The cell of a vector: the one of the least sum, the least number first.
fn plain_cell(vector: &[u8; 4]) -> u32 {
    let mut best = 0;
    for cell in 1..4 {
        if cell_sum(vector, cell) < cell_sum(vector, best) {
            best = cell;
        }
    }
    best
}

fn plain_row(id: u32, vector: [u8; 4]) -> Plain {
    let words = [
        nearest(vector[0], 16, 16),
        nearest(vector[1], 16, 16),
        nearest(vector[2], 16, 16),
        nearest(vector[3], 16, 16),
    ];
    Plain {
        id,
        cell: plain_cell(&vector),
        words,
        is_live: true,
    }
}

/// The distance of each component to the word of a row.
fn parts(query: &[u8; 4], words: &[u64; 4]) -> [u64; 4] {
    [
        square(u64::from(query[0]), words[0].wrapping_mul(16)),
        square(u64::from(query[1]), words[1].wrapping_mul(16)),
        square(u64::from(query[2]), words[2].wrapping_mul(16)),
        square(u64::from(query[3]), words[3].wrapping_mul(16)),
    ]
}

fn sum(numbers: [u64; 4]) -> u64 {
    let mut sum: u64 = 0;
    for number in numbers {
        sum = sum.wrapping_add(number);
    }
    sum
}

/// Whether the bound of a row is not above the threshold of r.
fn is_full(query: &[u8; 4], r: u64, words: &[u64; 4]) -> bool {
    let least = parts(query, &plain_row(0, *query).words);
    let base = sum(least);
    if r < base {
        return false;
    }
    let step = ((r - base) / 255).saturating_add(1);
    let far = parts(query, words);
    let mut bound: u64 = 0;
    for j in 0..4 {
        let steps = far[j].saturating_sub(least[j]).checked_div(step);
        bound = bound.saturating_add(steps.unwrap_or(0).min(255));
    }
    bound.min(255) <= ((r - base).checked_div(step)).unwrap_or(0)
}

/// The cells in the order of a query.
fn cell_order(alloc: Global, query: &[u8; 4]) -> Result<Vec<(u64, u32)>, Fail> {
    let mut order = Vec::new(alloc);
    for cell in 0..4 {
        order.push((cell_sum(query, cell), cell))?;
    }
    order.sort_unstable();
    Ok(order)
}

/// What a query by radius has to find among the rows, cell by cell, for the ids that pass.
fn plain_find(
    alloc: Global,
    rows: &[Plain],
    asked: &Asked,
) -> Result<((u32, u32, u32), Vec<Pair>), Fail> {
    let mut hits = Vec::new(alloc);
    let mut finds = (0u32, 0u32, 0u32);
    let (lo, hi) = asked.ids;
    let passing = rows
        .iter()
        .filter(|row| row.is_live && lo <= row.id && row.id <= hi)
        .count();
    for (_sum, cell) in cell_order(alloc, &asked.query)? {
        if (asked.wanted as usize).min(passing) <= finds.1 as usize {
            break;
        }
        finds.0 = finds.0.wrapping_add(1);
        for row in rows {
            if row.is_live && lo <= row.id && row.id <= hi && row.cell == cell {
                finds.1 = finds.1.wrapping_add(1);
                finds.2 = finds
                    .2
                    .wrapping_add(u32::from(is_full(&asked.query, asked.r, &row.words)));
                let distance = sum(parts(&asked.query, &row.words));
                if distance <= asked.r {
                    hits.push(Pair {
                        distance,
                        id: row.id,
                    })?;
                }
            }
        }
    }
    hits.sort_unstable();
    Ok((finds, hits))
}

/// Asks queries of growing radius by one scratch.
fn ask_queries(
    rt: &impl Abort,
    alloc: Global,
    engine: &Engine<Shape4444>,
    scratch: &mut RadiusScratch<Shape4444>,
    rows: &[Plain],
    wanted: u32,
    ids: (u32, u32),
) -> Result<(), Fail>
    requires room { HasRadiusRoom engine.now.book scratch.old }
    requires most { scratch.old.room ≡ 1000 }
    ensures room { HasRadiusRoom engine.now.book scratch.new }
    ensures most { scratch.new.room ≡ 1000 }
{
    let mut x = 11u64;
    for round in 0..16u64 {
        x = next_number(x);
        let mut asked = Asked {
            query: vector_of(x),
            r: round.wrapping_mul(round).wrapping_mul(150),
            wanted,
            ids,
            finds: (0, 0, 0),
        };
        let (finds, hits) = plain_find(alloc, rows, &asked)?;
        asked.finds = finds;
        let _blocks = expect_by(rt, alloc, engine, scratch, asked, &hits);
    }
    Ok(())
}

/// Asks by a scratch of its own.
fn ask_all(
    rt: &impl Abort,
    alloc: Global,
    engine: &Engine<Shape4444>,
    rows: &[Plain],
    wanted: u32,
    ids: (u32, u32),
) -> Result<(), Fail> {
    let Ok(mut scratch) = RadiusScratch::with_room(alloc, engine.book(), 1000) else {
        return Err(Fail::from("no memory"));
    };
    ask_queries(rt, alloc, engine, &mut scratch, rows, wanted, ids)
}

/// Inserts 600 random rows.
fn insert_random(
    rt: &impl Abort,
    engine: &mut Engine<Shape4444>,
    rows: &mut Vec<Plain>,
) -> Result<(), Fail> {
    let mut x = 7u64;
    for id in 0..600 {
        x = next_number(x);
        let vector = vector_of(x);
        insert(rt, engine, id, &vector);
        rows.push(plain_row(id, vector))?;
    }
    Ok(())
}

/// Deletes each seventh row.
fn delete_some(rt: &impl Abort, engine: &mut Engine<Shape4444>, rows: &mut [Plain]) {
    for row in rows {
        if row.id % 7 == 3 {
            delete(rt, engine, row.id);
            row.is_live = false;
        }
    }
}

/// Asks with all rows there, and with each seventh deleted.
fn ask_before_and_after(
    rt: &impl Abort,
    alloc: Global,
    engine: &mut Engine<Shape4444>,
    rows: &mut [Plain],
) -> Result<(), Fail> {
    let every = (0, IdRange::LAST_ID);
    ask_all(rt, alloc, engine, rows, 1000, every)?;
    delete_some(rt, engine, rows);
    ask_all(rt, alloc, engine, rows, 200, every)?;
    ask_all(rt, alloc, engine, rows, 1000, (100, 300))
}

#[test]
fn random_rows_within_a_radius_are_found(rt: HostRuntime) -> Result<(), Fail> {
    let alloc = rt.alloc();
    let mut engine = Engine::new(alloc, small(alloc)?, 1000);
    let mut rows = Vec::new(alloc);
    insert_random(&rt, &mut engine, &mut rows)?;
    ask_before_and_after(&rt, alloc, &mut engine, &mut rows)
}
