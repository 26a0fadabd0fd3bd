//! Vector operations, lane by lane.
ghost use Rattle.std.specs.Prelude.{◌≡◌, ℕ, ◌+◌, ◌-◌, ◌*◌, ◌%◌, ◌^◌, ◌<◌, ◌≤◌, slice_index, bit_xor};
ghost use Rattle.word_columns.specs.Lanes.{HasLanes};
ghost use Rattle.word_columns.specs.Columns.{less_half, signed};

use std::simd::prelude::*;

/// The pair in each of 16 pairs of lanes.
#[inline(always)]
pub(crate) fn spread(pair: u8x2) -> u32x32
    ensures { HasLanes 32 result (λ k. slice_index pair (k % 2)) }
{
    pair.cast::<u32>().swizzle([
        0, 1, 0, 1, 0, 1, 0, 1, 0, 1, 0, 1, 0, 1, 0, 1, 0, 1, 0, 1, 0, 1, 0, 1, 0, 1, 0, 1, 0, 1,
        0, 1,
    ])
}

/// The pair in each of 16 pairs of lanes.
#[inline(always)]
pub(crate) fn spread_signed(pair: u16x2) -> u16x32
    ensures { HasLanes 32 result (λ k. slice_index pair (k % 2)) }
{
    pair.swizzle([
        0, 1, 0, 1, 0, 1, 0, 1, 0, 1, 0, 1, 0, 1, 0, 1, 0, 1, 0, 1, 0, 1, 0, 1, 0, 1, 0, 1, 0, 1,
        0, 1,
    ])
}

/// Each component less 32768, from components with their top bit turned.
#[inline(always)]
pub(crate) fn lessened(turned: u16x32) -> u32x32
    ensures { HasLanes 32 result (λ k. less_half (bit_xor (slice_index turned k) 32768)) }
{
    (turned.cast::<u32>() ^ u32x32::splat(32768)) - u32x32::splat(32768)
}

/// The sum of each pair of lanes.
#[inline(always)]
pub(crate) fn pair_sums(v: u32x32) -> u32x16
    ensures { HasLanes 16 result (λ k. (slice_index v (2 * k) + slice_index v (2 * k + 1)) % 4294967296) }
{
    let first = v.swizzle([0, 2, 4, 6, 8, 10, 12, 14, 16, 18, 20, 22, 24, 26, 28, 30]);
    let second = v.swizzle([1, 3, 5, 7, 9, 11, 13, 15, 17, 19, 21, 23, 25, 27, 29, 31]);
    first + second
}

/// Adds to each lane the products of the two components of its word, each less 32768, and the pair.
#[inline(always)]
pub(crate) fn add_pair(sum: u32x16, turned: u16x32, pair: u8x2) -> u32x16
    ensures { HasLanes 16 result (λ k. (slice_index sum k + (less_half (bit_xor (slice_index turned (2 * k)) 32768) * slice_index pair 0 + less_half (bit_xor (slice_index turned (2 * k + 1)) 32768) * slice_index pair 1)) % 4294967296) }
{
    sum + pair_sums(lessened(turned) * spread(pair))
}

/// Adds to each lane the products of the two components of its word, each less 32768, and the two signed numbers.
#[inline(always)]
pub(crate) fn add_signed(sum: u32x16, turned: u16x32, pair: u16x2) -> u32x16
    ensures { HasLanes 16 result (λ k. (slice_index sum k + (less_half (bit_xor (slice_index turned (2 * k)) 32768) * signed (slice_index pair 0) + less_half (bit_xor (slice_index turned (2 * k + 1)) 32768) * signed (slice_index pair 1))) % 4294967296) }
{
    sum + pair_sums(lessened(turned) * lessened(spread_signed(pair)))
}

/// The lanes, with room for sums of several stretches.
#[inline(always)]
pub(crate) fn widened(v: u32x16) -> u64x16
    ensures { HasLanes 16 result (λ k. slice_index v k) }
{
    v.cast::<u64>()
}

/// 256 times the one and once the other.
#[inline(always)]
pub(crate) fn joined(high: u32x16, low: u32x16) -> u64x16
    ensures { HasLanes 16 result (λ k. (slice_index high k * 256 % 18446744073709551616 + slice_index low k) % 18446744073709551616) }
{
    (widened(high) << u64x16::splat(8)) + widened(low)
}

/// The distances, from the squares of x, the squares of 16 words and the products.
#[inline(always)]
pub(crate) fn differences(scale: u32, base: u64, norms: u64x16, dots: u64x16) -> u64x16
    requires scale { scale ≤ 8 }
    requires base { base < 2 ^ 48 }
    requires norms { (k : ℕ) → k < 16 → slice_index norms k < 2 ^ 48 }
    requires enough { (k : ℕ) → k < 16 → slice_index dots k * 2 ^ (scale + 1) ≤ base + slice_index norms k }
    ensures { HasLanes 16 result (λ k. base + slice_index norms k - slice_index dots k * 2 ^ (scale + 1)) }
{
    (u64x16::splat(base) + norms) - (dots << u64x16::splat(u64::from(scale) + 1))
}
