//! Sums of squares, and of products with the components of a block.
ghost use Rattle.std.specs.Prelude.{◌≡◌, ℕ, ◌+◌, ◌*◌, ◌%◌, ◌^◌, ◌≤◌, length, slice_index};
ghost use Rattle.book_model.specs.Sums.{sum_below};
ghost use Rattle.word_columns.specs.Lanes.{HasLanes};
ghost use Rattle.word_columns.specs.Columns.{pairs_of, component, squared, less_half, signed};

use crate::vectors::{add_pair, add_signed, widened};
use std::simd::prelude::*;

/// The sum of at most 256 bytes.
#[inline(always)]
pub(crate) fn total_of(x: &[u8]) -> u32
    requires { length x.now ≤ 256 }
    ensures value { result ≡ sum_below (length x.now) (λ i. slice_index x.now i) }
    ensures few { result ≤ 65280 }
{
    let mut sum: u32 = 0;
    for (i, byte) in x.iter().enumerate() {
        sum += u32::from(*byte);
    }
    sum
}

/// The sum of the squares of at most 1024 bytes that each count 2 to the scale.
#[inline(always)]
pub(crate) fn squares_of(scale: u32, x: &[u8]) -> u64
    requires scale { scale ≤ 8 }
    requires short { length x.now ≤ 1024 }
    ensures value { result ≡ sum_below (length x.now) (λ i. squared (slice_index x.now i * 2 ^ scale)) }
    ensures few { result ≤ 4363753881600 }
{
    let mut sum: u32 = 0;
    for (i, byte) in x.iter().enumerate() {
        let wide = u32::from(*byte);
        sum += wide * wide;
    }
    u64::from(sum) << (2 * scale)
}

/// The sums of the products of at most 256 bytes and the components of the 16 words of the block that begins at `at`.
#[inline(always)]
pub(crate) fn dots(x: &[u8], columns: &[u16], at: usize, total: u32) -> u32x16
    requires short { length x.now ≤ 256 }
    requires room { at + 32 * pairs_of (length x.now) ≤ length columns.now }
    requires total { total ≡ sum_below (length x.now) (λ i. slice_index x.now i) }
    requires few { total ≤ 65280 }
    ensures { HasLanes 16 result (λ k. sum_below (length x.now) (λ i. slice_index x.now i * component columns.now at k i)) }
{
    let pairs = x.len() / 2;
    let mut sum = u32x16::splat(total * 32768);
    for p in 0..pairs {
        sum = add_pair(
            sum,
            u16x32::from_slice(&columns[at + 32 * p..]),
            u8x2::from_slice(&x[2 * p..]),
        );
    }
    if x.len() % 2 == 1 {
        return add_pair(
            sum,
            u16x32::from_slice(&columns[at + 32 * pairs..]),
            u8x2::from_array([x[2 * pairs], 0]),
        );
    }
    sum
}

/// The same of two blocks at once, of which the second begins at `next`: one load of a pair serves both.
#[inline(always)]
pub(crate) fn dots_two(
    x: &[u8],
    columns: &[u16],
    at: usize,
    next: usize,
    total: u32,
) -> (u32x16, u32x16)
    requires short { length x.now ≤ 256 }
    requires room { at + 32 * pairs_of (length x.now) ≤ length columns.now }
    requires next_room { next + 32 * pairs_of (length x.now) ≤ length columns.now }
    requires total { total ≡ sum_below (length x.now) (λ i. slice_index x.now i) }
    requires few { total ≤ 65280 }
    ensures first { HasLanes 16 result.0 (λ k. sum_below (length x.now) (λ i. slice_index x.now i * component columns.now at k i)) }
    ensures second { HasLanes 16 result.1 (λ k. sum_below (length x.now) (λ i. slice_index x.now i * component columns.now next k i)) }
{
    let pairs = x.len() / 2;
    let mut low = u32x16::splat(total * 32768);
    let mut high = u32x16::splat(total * 32768);
    for p in 0..pairs {
        let pair = u8x2::from_slice(&x[2 * p..]);
        low = add_pair(low, u16x32::from_slice(&columns[at + 32 * p..]), pair);
        high = add_pair(high, u16x32::from_slice(&columns[next + 32 * p..]), pair);
    }
    if x.len() % 2 == 1 {
        let pair = u8x2::from_array([x[2 * pairs], 0]);
        let first = add_pair(low, u16x32::from_slice(&columns[at + 32 * pairs..]), pair);
        let second = add_pair(
            high,
            u16x32::from_slice(&columns[next + 32 * pairs..]),
            pair,
        );
        return (first, second);
    }
    (low, high)
}

/// The sums of the products of at most 1024 bytes and the components of the 16 words of a block, 256 bytes at a time, since
/// sums of 32 bits have room for no more.
#[inline(always)]
pub(crate) fn long_dots(x: &[u8], columns: &[u16], at: usize) -> u64x16
    requires short { length x.now ≤ 1024 }
    requires room { at + 32 * pairs_of (length x.now) ≤ length columns.now }
    ensures { HasLanes 16 result (λ k. sum_below (length x.now) (λ i. slice_index x.now i * component columns.now at k i)) }
{
    let whole = x.len() / 256;
    let mut sum = u64x16::splat(0);
    for c in 0..whole {
        let part = &x[256 * c..256 * c + 256];
        sum = sum + widened(dots(part, columns, at + 4096 * c, total_of(part)));
    }
    let rest = &x[256 * whole..];
    sum + widened(dots(rest, columns, at + 4096 * whole, total_of(rest)))
}

/// The sums of the products of n signed numbers and the components of the 16 words of the block that begins at `at`, each less
/// 32768. They begin at `start`, and wrap.
#[inline(always)]
pub(crate) fn signed_dots(
    numbers: &[u16],
    n: usize,
    columns: &[u16],
    at: usize,
    start: u32,
) -> u32x16
    requires numbers { n ≤ length numbers.now }
    requires room { at + 32 * pairs_of n ≤ length columns.now }
    ensures { HasLanes 16 result (λ k. (start + sum_below n (λ i. less_half (component columns.now at k i) * signed (slice_index numbers.now i))) % 4294967296) }
{
    let pairs = n / 2;
    let mut sum = u32x16::splat(start);
    for p in 0..pairs {
        sum = add_signed(
            sum,
            u16x32::from_slice(&columns[at + 32 * p..]),
            u16x2::from_slice(&numbers[2 * p..]),
        );
    }
    if n % 2 == 1 {
        return add_signed(
            sum,
            u16x32::from_slice(&columns[at + 32 * pairs..]),
            u16x2::from_array([numbers[2 * pairs], 0]),
        );
    }
    sum
}
