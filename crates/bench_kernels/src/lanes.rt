//! Rounds of sums over a few blocks of 32 codes.
ghost use Rattle.std.specs.Prelude.{◌≡◌, ◌*◌, ◌≤◌, length, IfOk};
ghost use Rattle.lane_kernels.specs.Sums.{AreTables};

use bench_common::Numbers;
use lane_kernels::{LaneMeter, SplitTable, sum32};
use shape_core::{Fields, Shape};
use std::alloc::{AllocError, Global};
use std::simd::prelude::*;

const BLOCKS: usize = 8;

/// A checksum of so many rounds over 8 blocks of codes of g words, g at most 32.
pub fn run(alloc: Global, shape: &str, g: u64, rounds: u64) -> Result<u64, AllocError> {
    let g = g.min(32) as usize;
    match shape {
        "4-4-4-4" => sum_of_rounds::<Fields<4, 4, 4, 4>>(alloc, g, rounds),
        "5-5-5" => sum_of_rounds::<Fields<5, 5, 5, 0>>(alloc, g, rounds),
        "6-6-4" => sum_of_rounds::<Fields<6, 6, 4, 0>>(alloc, g, rounds),
        _ => sum_of_rounds::<Fields<8, 8, 0, 0>>(alloc, g, rounds),
    }
}

fn sum_of_rounds<S: Shape>(alloc: Global, g: usize, rounds: u64) -> Result<u64, AllocError>
    requires { g ≤ 32 }
{
    let mut numbers = Numbers::new(1);
    let tables = tables_of::<S>(alloc, g, &mut numbers)?;
    let mut words = words_of(alloc, g * BLOCKS, &mut numbers)?;
    let mut total = u8x32::splat(0);
    for round in 0..rounds {
        change_first(&mut words, (round % 1024) as u16);
        total = total + sum_of_blocks::<S>(alloc, &tables, &words, g);
    }
    Ok(checksum(total.to_array()))
}

/// No round is like the one before, so that none is left out.
fn change_first(words: &mut [[u16; 32]], value: u16) {
    if words.len() > 0 {
        words[0][0] = value;
    }
}

fn sum_of_blocks<S: Shape>(
    alloc: Global,
    tables: &[SplitTable],
    words: &[[u16; 32]],
    g: usize,
) -> u8x32
    requires few { g ≤ 32 }
    requires tables { AreTables S.widths g tables.now }
    requires words { length words.now ≡ g * 8 }
{
    let mut lanes = LaneMeter::new(alloc);
    let mut total = u8x32::splat(0);
    for block in 0..BLOCKS {
        let words = &words[g * block..g * block + g];
        total = total + u8x32::from_array(sum32::<S>(tables, words, &mut lanes));
    }
    total
}

fn tables_of<S: Shape>(
    alloc: Global,
    g: usize,
    numbers: &mut Numbers,
) -> Result<Vec<SplitTable>, AllocError>
    requires { g ≤ 32 }
    ensures { IfOk result (λ tables. AreTables S.widths g tables.items) }
{
    let mut tables = Vec::new(alloc);
    for j in 0..g * S::FIELDS {
        tables.push(table_of(S::WIDTHS[j % S::FIELDS], numbers))?;
    }
    Ok(tables)
}

fn table_of(width: u32, numbers: &mut Numbers) -> SplitTable
    requires { (4 ≤ width) × (width ≤ 8) }
    ensures { result.width ≡ width }
{
    let mut table = SplitTable::zero(width);
    for at in 0..1 << width {
        table.set(at, (numbers.next() % 16) as u8);
    }
    table
}

fn words_of(
    alloc: Global,
    count: usize,
    numbers: &mut Numbers,
) -> Result<Vec<[u16; 32]>, AllocError>
    ensures { IfOk result (λ words. length words.items ≡ count) }
{
    let mut words = Vec::new(alloc);
    for _place in 0..count {
        words.push(row_of(numbers))?;
    }
    Ok(words)
}

fn row_of(numbers: &mut Numbers) -> [u16; 32] {
    let mut row = [0; 32];
    for lane in row.iter_mut() {
        *lane = numbers.next();
    }
    row
}

fn checksum(lanes: [u8; 32]) -> u64 {
    let mut sum: u64 = 0;
    for lane in lanes {
        sum = sum.wrapping_mul(31).wrapping_add(u64::from(lane));
    }
    sum
}
