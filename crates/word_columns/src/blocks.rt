//! The distances of a list of bytes to the words that columns keep, block by block.
ghost use Rattle.std.specs.Prelude.{◌≡◌, ℕ, ◌+◌, ◌*◌, ◌/◌, ◌^◌, ◌<◌, ◌≤◌, length, slice_index, EachIndex};
ghost use Rattle.book_model.specs.Sums.{sum_below};
ghost use Rattle.book_model.specs.Distance.{squared_gap};
ghost use Rattle.word_columns.specs.Lanes.{HasLanes};
ghost use Rattle.word_columns.specs.Columns.{pairs_of, component, column_distance, squared, AreColumns};

use crate::products::{dots, dots_two, long_dots, squares_of, total_of};
use crate::vectors::{differences, widened};
use std::simd::prelude::*;

/// Writes the distances of x to the words of block b, from the products. The last block may have fewer than 16 places.
#[inline(always)]
fn write_block(
    scale: u32,
    x: &[u8],
    columns: &[u16],
    norms: &[u64],
    b: usize,
    base: u64,
    products: u64x16,
    into: &mut [u64],
)
    requires scale { scale ≤ 8 }
    requires short { length x.now ≤ 1024 }
    requires some { b * 16 < length into.old }
    requires kept { AreColumns (length x.now) columns.now norms.now (length into.old) }
    requires base { base ≡ sum_below (length x.now) (λ i. squared (slice_index x.now i * 2 ^ scale)) }
    requires small { base ≤ 4363753881600 }
    requires products { HasLanes 16 products (λ k. sum_below (length x.now) (λ i. slice_index x.now i * component columns.now (b * (32 * pairs_of (length x.now))) k i)) }
    ensures block { (k : ℕ) → k < 16 → b * 16 + k < length into.old → slice_index into.new (b * 16 + k) ≡ sum_below (length x.now) (λ i. squared_gap scale (slice_index x.now i) (component columns.now (b * (32 * pairs_of (length x.now))) k i)) }
    ensures before { (w : ℕ) → w < b * 16 → slice_index into.new w ≡ slice_index into.old w }
    ensures long { length into.new ≡ length into.old }
{
    let _components = columns.len();
    let found = differences(scale, base, u64x16::from_slice(&norms[b * 16..]), products);
    write_lanes(found, b * 16, into);
}

/// Writes the lanes from place `at` on, as many as there are places.
#[inline(always)]
pub(crate) fn write_lanes(lanes: u64x16, at: usize, into: &mut [u64])
    requires { at < length into.old }
    ensures lanes { (k : ℕ) → k < 16 → at + k < length into.old → slice_index into.new (at + k) ≡ slice_index lanes k }
    ensures before { (w : ℕ) → w < at → slice_index into.new w ≡ slice_index into.old w }
    ensures long { length into.new ≡ length into.old }
{
    if into.len() - at < 16 {
        write_front(lanes, at, into);
        return;
    }
    lanes.copy_to_slice(&mut into[at..]);
}

/// The same of fewer than 16 places.
fn write_front(lanes: u64x16, at: usize, into: &mut [u64])
    requires at { at < length into.old }
    requires few { length into.old < at + 16 }
    ensures lanes { (k : ℕ) → k < 16 → at + k < length into.old → slice_index into.new (at + k) ≡ slice_index lanes k }
    ensures before { (w : ℕ) → w < at → slice_index into.new w ≡ slice_index into.old w }
    ensures long { length into.new ≡ length into.old }
{
    let lanes = lanes.to_array();
    for k in 0..into.len() - at {
        into[at + k] = lanes[k];
    }
}

/// The distances of at most 256 bytes to the words, two blocks at a time.
#[inline(always)]
fn short_distances(scale: u32, x: &[u8], columns: &[u16], norms: &[u64], into: &mut [u64])
    requires scale { scale ≤ 8 }
    requires short { length x.now ≤ 256 }
    requires few { length into.old ≤ 1024 }
    requires kept { AreColumns (length x.now) columns.now norms.now (length into.old) }
    ensures each { EachIndex into.new (λ w. slice_index into.new w ≡ column_distance scale columns.now x.now w) }
    ensures long { length into.new ≡ length into.old }
{
    let base = squares_of(scale, x);
    let total = total_of(x);
    let size = 32 * (x.len() / 2 + x.len() % 2);
    let blocks = (into.len() + 15) / 16;
    for b in 0..blocks / 2 {
        let (first, second) = dots_two(x, columns, 2 * b * size, (2 * b + 1) * size, total);
        write_block(scale, x, columns, norms, 2 * b, base, widened(first), into);
        write_block(
            scale,
            x,
            columns,
            norms,
            2 * b + 1,
            base,
            widened(second),
            into,
        );
    }
    if blocks % 2 == 1 {
        let sums = dots(x, columns, (blocks - 1) * size, total);
        write_block(
            scale,
            x,
            columns,
            norms,
            blocks - 1,
            base,
            widened(sums),
            into,
        );
    }
}

/// The distances of at most 1024 bytes to the words, block by block.
fn long_distances(scale: u32, x: &[u8], columns: &[u16], norms: &[u64], into: &mut [u64])
    requires scale { scale ≤ 8 }
    requires short { length x.now ≤ 1024 }
    requires few { length into.old ≤ 1024 }
    requires kept { AreColumns (length x.now) columns.now norms.now (length into.old) }
    ensures each { EachIndex into.new (λ w. slice_index into.new w ≡ column_distance scale columns.now x.now w) }
    ensures long { length into.new ≡ length into.old }
{
    let base = squares_of(scale, x);
    let size = 32 * (x.len() / 2 + x.len() % 2);
    for b in 0..(into.len() + 15) / 16 {
        let products = long_dots(x, columns, b * size);
        write_block(scale, x, columns, norms, b, base, products, into);
    }
}

/// The distances of at most 1024 bytes. The usual lengths of a sub-quantizer's words, 4 and 8, have code of their own.
#[inline]
fn by_length(scale: u32, x: &[u8], columns: &[u16], norms: &[u64], into: &mut [u64])
    requires scale { scale ≤ 8 }
    requires short { length x.now ≤ 1024 }
    requires few { length into.old ≤ 1024 }
    requires kept { AreColumns (length x.now) columns.now norms.now (length into.old) }
    ensures each { EachIndex into.new (λ w. slice_index into.new w ≡ column_distance scale columns.now x.now w) }
    ensures long { length into.new ≡ length into.old }
{
    match x.len() {
        4 => short_distances(scale, &x[..4], columns, norms, into),
        8 => short_distances(scale, &x[..8], columns, norms, into),
        0..=256 => short_distances(scale, x, columns, norms, into),
        _ => long_distances(scale, x, columns, norms, into),
    }
}

/// Writes the squared distance of x, whose bytes each count 2 to the scale, to as many words as `into` has places.
#[inline]
pub(crate) fn distances_to_all(
    scale: u32,
    x: &[u8],
    columns: &[u16],
    norms: &[u64],
    into: &mut [u64],
)
    requires scale { scale ≤ 8 }
    requires short { length x.now ≤ 1024 }
    requires few { length into.old ≤ 1024 }
    requires kept { AreColumns (length x.now) columns.now norms.now (length into.old) }
    ensures each { EachIndex into.new (λ w. slice_index into.new w ≡ column_distance scale columns.now x.now w) }
    ensures long { length into.new ≡ length into.old }
    ensures small { (w : ℕ) → slice_index into.new w ≤ 4397912294400 }
{
    by_length(scale, x, columns, norms, into);
}
