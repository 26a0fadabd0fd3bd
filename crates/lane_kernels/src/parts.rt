//! The entries that 32 lanes pick from a table of up to 16 parts of 16 entries.
ghost use Rattle.std.specs.Prelude.{◌≡◌, ℕ, ◌+◌, ◌*◌, ◌/◌, ◌%◌, ◌^◌, ◌<◌, ◌≤◌, slice_index, if◌then◌else◌, nat_le, min};
ghost use Rattle.lane_kernels.specs.Lanes.{HasLanes};

use std::simd::prelude::*;

/// The 16 entries twice over, as the selection within a part wants them.
#[inline(always)]
fn twice(table: u8x16) -> u8x32
    ensures { HasLanes result (λ k. slice_index table (k % 16)) }
{
    table.swizzle([
        0, 1, 2, 3, 4, 5, 6, 7, 8, 9, 10, 11, 12, 13, 14, 15, 0, 1, 2, 3, 4, 5, 6, 7, 8, 9, 10, 11,
        12, 13, 14, 15,
    ])
}

/// The entries of the part from `at` on, at each lane's low four bits.
#[inline(always)]
fn one(entries: &[u8; 256], at: usize, v: u8x32) -> u8x32
    requires { at + 16 ≤ 256 }
    ensures { HasLanes result (λ k. slice_index entries.now (at + slice_index v k % 16)) }
{
    let table = twice(u8x16::from_slice(&entries[at..]));
    table.swizzle_dyn_within::<16>(v & u8x32::splat(15))
}

/// At each lane of v the bit that a shift by `shift` takes to the top picks b, and else a.
#[inline(always)]
fn choose(v: u8x32, shift: u8, a: u8x32, b: u8x32) -> u8x32
    requires { shift < 8 }
    ensures { HasLanes result (λ k. if nat_le 128 (slice_index v k * 2 ^ shift % 256) then slice_index b k else slice_index a k) }
{
    (v << u8x32::splat(shift))
        .simd_ge(u8x32::splat(128))
        .select(b, a)
}

// The selection across a table of two halves of $size entries from $at on: the bit that a shift by $shift takes to the
// top tells which.
macro_rules! across_halves {
    ($half:ident, $entries:ident, $at:expr, $size:literal, $v:ident, $shift:literal) => {
        choose($v, $shift, $half($entries, $at, $v), $half($entries, $at + $size, $v))
    };
}

#[inline(always)]
fn two(entries: &[u8; 256], at: usize, v: u8x32) -> u8x32
    requires { at + 32 ≤ 256 }
    ensures { HasLanes result (λ k. slice_index entries.now (at + slice_index v k % 32)) }
{
    across_halves!(one, entries, at, 16, v, 3)
}

#[inline(always)]
fn four(entries: &[u8; 256], at: usize, v: u8x32) -> u8x32
    requires { at + 64 ≤ 256 }
    ensures { HasLanes result (λ k. slice_index entries.now (at + slice_index v k % 64)) }
{
    across_halves!(two, entries, at, 32, v, 2)
}

#[inline(always)]
fn eight(entries: &[u8; 256], at: usize, v: u8x32) -> u8x32
    requires { at + 128 ≤ 256 }
    ensures { HasLanes result (λ k. slice_index entries.now (at + slice_index v k % 128)) }
{
    across_halves!(four, entries, at, 64, v, 1)
}

#[inline(always)]
fn sixteen(entries: &[u8; 256], v: u8x32) -> u8x32
    ensures { HasLanes result (λ k. slice_index entries.now (slice_index v k % 256)) }
{
    across_halves!(eight, entries, 0, 128, v, 0)
}

/// The entry at each lane's low `width` bits, across 1, 2, 4, 8 or 16 parts.
#[inline(always)]
pub(crate) fn select(entries: &[u8; 256], width: u32, v: u8x32) -> u8x32
    requires { (4 ≤ width) × (width ≤ 8) }
    ensures { HasLanes result (λ k. slice_index entries.now (slice_index v k % 2 ^ width)) }
{
    match width {
        4 => one(entries, 0, v),
        5 => two(entries, 0, v),
        6 => four(entries, 0, v),
        7 => eight(entries, 0, v),
        _ => sixteen(entries, v),
    }
}

/// The sum of two lanes, or 255 if that is less.
#[inline(always)]
pub(crate) fn add_capped(a: u8x32, b: u8x32) -> u8x32
    ensures { HasLanes result (λ k. min 255 (slice_index a k + slice_index b k)) }
{
    a.saturating_add(b)
}

/// The bits of each word from `offset` on, as many as `width`.
#[inline(always)]
pub(crate) fn field(word: u16x32, offset: u16, width: u16) -> u8x32
    requires fits { offset < 16 }
    requires small { width ≤ 8 }
    ensures { HasLanes result (λ k. slice_index word k / 2 ^ offset % 2 ^ width) }
{
    let mask = (1 << width) - 1;
    ((word >> u16x32::splat(offset)) & u16x32::splat(mask)).cast::<u8>()
}
