//! Masks of lanes: bit i of a number stands for lane i.
ghost use Rattle.std.specs.Prelude.{◌≡◌, ◌≢◌, ℕ, ◌<◌, ◌≤◌, true, false, List, length, IfSome, IfNone, nat_le, slice_index};
ghost use Rattle.cell_store.specs.declared.Slot.{Slot};
ghost use Rattle.prune_scan.specs.LaneMasks.{is_set};
ghost use Rattle.prune_scan.specs.Blocks.{marked_rows};

use std::simd::prelude::*;

/// The lanes whose bound is not above `most`.
#[inline(always)]
pub fn lanes_up_to(bounds: &[u8; 32], most: u8) -> u64
    ensures { (i : ℕ) → i < 32 → is_set result i ≡ nat_le (slice_index bounds.now i) most }
{
    u8x32::from_array(*bounds)
        .simd_le(u8x32::splat(most))
        .to_bitmask()
}

/// The first lane of a mask from `at` on.
#[inline(always)]
pub fn next_lane(mask: u64, at: u32) -> Option<u32>
    requires { at < 64 }
    ensures from { IfSome result (λ i. at ≤ i) }
    ensures set { IfSome result (λ i. is_set mask i ≡ true) }
    ensures first { IfSome result (λ i. (k : ℕ) → at ≤ k → k < i → is_set mask k ≡ false) }
    ensures none { IfNone result ((k : ℕ) → at ≤ k → is_set mask k ≡ false) }
{
    let rest = mask >> at;
    if rest == 0 {
        return None;
    }
    Some(at + rest.trailing_zeros())
}

/// How many lanes before `end` are in a mask.
#[inline(always)]
pub fn count_below(marks: u64, end: u32) -> u32
    requires { end < 64 }
    ensures { (widths : List ℕ) (cell : ℕ) (slots : List Slot) (codes : List (List ℕ)) → result ≡ length (marked_rows widths cell slots marks codes end) }
{
    let below = (1 << end) - 1;
    (marks & below).count_ones()
}

/// The mask of the first lanes, as many as `count`.
#[inline(always)]
pub fn first_lanes(count: usize) -> u64
    requires { count < 64 }
    ensures set { (i : ℕ) → i < count → is_set result i ≡ true }
    ensures rest { (i : ℕ) → count ≤ i → is_set result i ≡ false }
{
    (1 << count) - 1
}

/// A mask with one more lane, which it had not, where `on` says so.
#[inline(always)]
pub(crate) fn with_lane(mask: u64, lane: usize, on: bool) -> u64
    requires lane { lane < 64 }
    requires clear { is_set mask lane ≡ false }
    ensures own { is_set result lane ≡ on }
    ensures others { (i : ℕ) → i ≢ lane → is_set result i ≡ is_set mask i }
{
    mask | (u64::from(on) << lane)
}
