//! The place of the least of some distances.
ghost use Rattle.std.specs.Prelude.{◌≡◌, ℕ, ◌+◌, ◌*◌, ◌^◌, ◌<◌, ◌≤◌, length, min, slice_index};
ghost use Rattle.book_model.specs.Sums.{first_least};
ghost use Rattle.word_columns.specs.Lanes.{HasLanes};
ghost use Rattle.word_columns.specs.Least.{key_at, AreLeastKeys};

use book_model::nearest_step;
use std::simd::prelude::*;

/// The place of the least distance, the first among equal ones.
#[inline(always)]
pub(crate) fn first_least(distances: &[u64]) -> usize
    requires some { 1 ≤ length distances.now }
    requires few { length distances.now ≤ 1024 }
    requires small { (w : ℕ) → slice_index distances.now w < 2 ^ 53 }
    ensures { result ≡ first_least distances.now }
{
    if distances.len() <= 16 {
        return first_of_few(distances);
    }
    let lanes = least_keys(distances).to_array();
    (least_of(&lanes) % 1024) as usize
}

/// The same of a few distances, one after another.
#[inline(always)]
fn first_of_few(distances: &[u64]) -> usize
    requires { 1 ≤ length distances.now }
    ensures { result ≡ first_least distances.now }
{
    let mut best = 0;
    let mut least = distances[0];
    for w in 1..distances.len() {
        if nearest_step(least, distances[w]) {
            least = distances[w];
            best = w;
        }
    }
    best
}

/// The least key that each lane meets. A key is a distance times 1024 and its place, so that the least key has the first
/// of the least distances. The last 16 distances, which may end in mid-block, come first.
#[inline(always)]
fn least_keys(distances: &[u64]) -> u64x16
    requires some { 16 ≤ length distances.now }
    requires few { length distances.now ≤ 1024 }
    requires small { (w : ℕ) → slice_index distances.now w < 2 ^ 53 }
    ensures { AreLeastKeys distances.now result }
{
    let mut least = keys(distances, distances.len() - 16);
    for b in 0..distances.len() / 16 {
        least = lesser(least, keys(distances, b * 16));
    }
    least
}

/// The lesser of each two lanes.
#[inline(always)]
fn lesser(one: u64x16, other: u64x16) -> u64x16
    ensures { HasLanes 16 result (λ k. min (slice_index one k) (slice_index other k)) }
{
    one.simd_min(other)
}

/// The keys of the 16 distances from place `at` on.
#[inline(always)]
fn keys(distances: &[u64], at: usize) -> u64x16
    requires few { at < 1024 }
    requires room { at + 16 ≤ length distances.now }
    requires small { (w : ℕ) → slice_index distances.now w < 2 ^ 53 }
    ensures { HasLanes 16 result (λ k. key_at distances.now (at + k)) }
{
    let places = u64x16::from_array([0, 1, 2, 3, 4, 5, 6, 7, 8, 9, 10, 11, 12, 13, 14, 15]);
    let shifted = u64x16::from_slice(&distances[at..]) << u64x16::splat(10);
    shifted + (u64x16::splat(at as u64) + places)
}

/// The least of some numbers.
#[inline(always)]
fn least_of(numbers: &[u64]) -> u64
    requires { 1 ≤ length numbers.now }
    ensures least { (k : ℕ) → k < length numbers.now → result ≤ slice_index numbers.now k }
    ensures one { (k : ℕ) × (k < length numbers.now) × (result ≡ slice_index numbers.now k) }
{
    let mut least = numbers[0];
    for number in numbers {
        least = least.min(*number);
    }
    least
}
