//! The distances of what is left of a list of bytes, when a coarse word is taken off, to the words that columns keep.
ghost use Rattle.std.specs.Prelude.{◌≡◌, ℕ, ◌+◌, ◌*◌, ◌/◌, ◌^◌, ◌<◌, ◌≤◌, length, slice_index, bit_xor, EachIndex};
ghost use Rattle.std.specs.Int.{abs_diff};
ghost use Rattle.word_columns.specs.Lanes.{HasLanes};
ghost use Rattle.word_columns.specs.Columns.{squared, AreColumns};
ghost use Rattle.word_columns.specs.Left.{column_rest, lifted, start_of, IsSplit};

use crate::blocks::write_lanes;
use crate::products::signed_dots;
use crate::vectors::{differences, joined};
use std::simd::prelude::*;

/// The sum of the squares of what is left, and where the sums of products of both of its numbers begin.
#[derive(Clone, Copy)]
struct Rest {
    squares: u64,
    high: u32,
    low: u32,
}

/// What is left of a byte, 65536 higher.
#[inline(always)]
#[tactic(auto, using(book_model::proofs::Gaps::scaled_le))]
fn lifted(scale: u32, x: u8, c: u16) -> u32
    requires { scale ≤ 8 }
    ensures value { result ≡ lifted scale x c }
    ensures few { result ≤ 130816 }
{
    (u32::from(x) << scale) + 65536 - u32::from(c)
}

/// The square of what is left, from it 32768 higher.
#[inline(always)]
fn square_of(rest: u32) -> u64
    requires { rest ≤ 130816 }
    ensures value { result ≡ squared (abs_diff rest 32768) }
    ensures few { result ≤ 9613410304 }
{
    let gap = u64::from(rest.abs_diff(32768));
    gap * gap
}

/// A number below 512 less 128, as a signed number.
#[inline(always)]
fn signed_of(n: u32) -> u16
    requires { n < 512 }
    ensures { bit_xor result 32768 ≡ n + 32640 }
{
    (n + 32640) as u16 ^ 32768
}

/// Where sums of products of n numbers of this sum begin.
#[inline(always)]
fn start_of(n: usize, total: u32) -> u32
    requires n { n ≤ 128 }
    requires total { total ≤ 65408 }
    ensures { result ≡ start_of n total }
{
    total * 32768 + (1073741824 - n as u32 * 4194304)
}

/// Takes coarse components off of as many bytes that each count 2 to the scale, and writes what is left of each as two signed
/// numbers.
#[inline(always)]
fn split(scale: u32, x: &[u8], coarse: &[u16], high: &mut [u16], low: &mut [u16]) -> Rest
    requires scale { scale ≤ 8 }
    requires short { length x.now ≤ 128 }
    requires coarse { length coarse.now ≡ length x.now }
    requires high { length x.now ≤ length high.old }
    requires low { length x.now ≤ length low.old }
    ensures { IsSplit scale x.now coarse.now high.new low.new result.squares result.high result.low }
{
    let mut squares = 0;
    let mut highs = 0;
    let mut lows = 0;
    for (i, byte) in x.iter().enumerate() {
        let rest = lifted(scale, *byte, coarse[i]);
        let one = rest / 256;
        let other = rest % 256 + 128;
        squares += square_of(rest);
        highs += one;
        lows += other;
        high[i] = signed_of(one);
        low[i] = signed_of(other);
    }
    Rest {
        squares,
        high: start_of(x.len(), highs),
        low: start_of(x.len(), lows),
    }
}

/// The distances of what is left to the words of block b.
#[inline(always)]
fn block_rests(
    scale: u32,
    x: &[u8],
    coarse: &[u16],
    high: &[u16],
    low: &[u16],
    rest: Rest,
    columns: &[u16],
    norms: &[u64],
    count: usize,
    b: usize,
) -> u64x16
    requires scale { scale ≤ 8 }
    requires short { length x.now ≤ 128 }
    requires split { IsSplit scale x.now coarse.now high.now low.now rest.squares rest.high rest.low }
    requires kept { AreColumns (length x.now) columns.now norms.now count }
    requires some { b * 16 < count }
    ensures { HasLanes 16 result (λ k. column_rest scale columns.now x.now coarse.now (b * 16 + k)) }
{
    let at = b * (32 * (x.len() / 2 + x.len() % 2));
    let highs = signed_dots(high, x.len(), columns, at, rest.high);
    let lows = signed_dots(low, x.len(), columns, at, rest.low);
    let norms = u64x16::from_slice(&norms[b * 16..]);
    differences(0, rest.squares + 551903297536, norms, joined(highs, lows))
}

/// Writes the distances of what is left to as many words as `into` has places.
#[inline(always)]
fn write_rests(
    scale: u32,
    x: &[u8],
    coarse: &[u16],
    high: &[u16],
    low: &[u16],
    rest: Rest,
    columns: &[u16],
    norms: &[u64],
    into: &mut [u64],
)
    requires scale { scale ≤ 8 }
    requires short { length x.now ≤ 128 }
    requires few { length into.old ≤ 1024 }
    requires split { IsSplit scale x.now coarse.now high.now low.now rest.squares rest.high rest.low }
    requires kept { AreColumns (length x.now) columns.now norms.now (length into.old) }
    ensures each { EachIndex into.new (λ w. slice_index into.new w ≡ column_rest scale columns.now x.now coarse.now w) }
    ensures long { length into.new ≡ length into.old }
{
    let count = into.len();
    for b in 0..(count + 15) / 16 {
        let found = block_rests(scale, x, coarse, high, low, rest, columns, norms, count, b);
        write_lanes(found, b * 16, into);
    }
}

/// The same with a room of N numbers for what is left.
#[inline(always)]
fn rests_in<const N: usize>(
    scale: u32,
    x: &[u8],
    coarse: &[u16],
    columns: &[u16],
    norms: &[u64],
    into: &mut [u64],
)
    requires scale { scale ≤ 8 }
    requires room { (length x.now ≤ N) × (N ≤ 128) }
    requires few { length into.old ≤ 1024 }
    requires coarse { length coarse.now ≡ length x.now }
    requires kept { AreColumns (length x.now) columns.now norms.now (length into.old) }
    ensures each { EachIndex into.new (λ w. slice_index into.new w ≡ column_rest scale columns.now x.now coarse.now w) }
    ensures long { length into.new ≡ length into.old }
{
    let mut high = [0; N];
    let mut low = [0; N];
    let rest = split(scale, x, coarse, &mut high, &mut low);
    write_rests(scale, x, coarse, &high, &low, rest, columns, norms, into);
}

/// The distances of what is left of at most 128 bytes. The usual lengths of a sub-quantizer's words, 4 and 8, have code of their
/// own.
#[inline]
fn rests_by_length(
    scale: u32,
    x: &[u8],
    coarse: &[u16],
    columns: &[u16],
    norms: &[u64],
    into: &mut [u64],
)
    requires scale { scale ≤ 8 }
    requires short { length x.now ≤ 128 }
    requires few { length into.old ≤ 1024 }
    requires coarse { length coarse.now ≡ length x.now }
    requires kept { AreColumns (length x.now) columns.now norms.now (length into.old) }
    ensures each { EachIndex into.new (λ w. slice_index into.new w ≡ column_rest scale columns.now x.now coarse.now w) }
    ensures long { length into.new ≡ length into.old }
{
    match x.len() {
        4 => rests_in::<4>(scale, &x[..4], coarse, columns, norms, into),
        8 => rests_in::<8>(scale, &x[..8], coarse, columns, norms, into),
        _ => rests_in::<128>(scale, x, coarse, columns, norms, into),
    }
}

/// Writes the squared distance of what is left of x, whose bytes each count 2 to the scale, to as many words as `into` has
/// places.
#[inline]
pub(crate) fn rests_to_all(
    scale: u32,
    x: &[u8],
    coarse: &[u16],
    columns: &[u16],
    norms: &[u64],
    into: &mut [u64],
)
    requires scale { scale ≤ 8 }
    requires short { length x.now ≤ 128 }
    requires few { length into.old ≤ 1024 }
    requires coarse { length coarse.now ≡ length x.now }
    requires kept { AreColumns (length x.now) columns.now norms.now (length into.old) }
    ensures each { EachIndex into.new (λ w. slice_index into.new w ≡ column_rest scale columns.now x.now coarse.now w) }
    ensures long { length into.new ≡ length into.old }
    ensures small { (w : ℕ) → slice_index into.new w ≤ 2198956147200 }
{
    rests_by_length(scale, x, coarse, columns, norms, into);
}
