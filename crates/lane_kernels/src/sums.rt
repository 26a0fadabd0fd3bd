//! Capped sums of what the fields of 32 codes pick, with the steps over a word's fields written out.
ghost use Rattle.std.specs.Prelude.{◌≡◌, ℕ, List, ◌+◌, ◌*◌, ◌^◌, ◌≤◌, length, slice_index, min};
ghost use Rattle.lane_kernels.specs.Lanes.{HasLanes};
ghost use Rattle.lane_kernels.specs.Table.{Table};
ghost use Rattle.book_model.specs.Sums.{sum_below};
ghost use Rattle.shape_core.specs.Word.{code_of_words};
ghost use Rattle.lane_kernels.specs.Sums.{AreTables, HasTables, picked_or_none, word_sum, code_sum, entries_at, lane_words};

use crate::parts::{add_capped, field};
use crate::{LaneMeter, SplitTable};
use shape_core::{Shape, offset};
use std::simd::prelude::*;

/// Sums of table entries of 32 codes: lane `l` is the least of 255 and the sum, over word `w` and field `f`, of
/// the entry of table `w * FIELDS + f` at that field of the `l`-th code's word `w`. Place `w` of `words` holds word `w`
/// of all codes. Adds one to the meter.
pub fn sum32<S: Shape>(
    tables: &[SplitTable],
    words: &[[u16; 32]],
    lanes: &mut LaneMeter,
) -> [u8; 32]
    requires tables { AreTables S.widths (length words.now) tables.now }
    requires meter { lanes.old ≤ 2 ^ 63 }
    ensures sums { HasLanes result (λ l. min 255 (code_sum S.widths tables.now (lane_words words.now l))) }
    ensures meter { lanes.new ≡ lanes.old + 1 }
{
    lanes.raise();
    let mut sum = u8x32::splat(0);
    for w in 0..words.len() {
        sum = add_word::<S>(sum, tables, w * S::FIELDS, u16x32::from_array(words[w]));
    }
    sum.to_array()
}

/// Law: what the words of a code pick is what its places pick, place `j` from table `j`.
pub fn code_sums_go_by_places<S: Shape>()
    ensures { (tables : List Table) (words : List ℕ) → code_sum S.widths tables words ≡ sum_below (length words * S.FIELDS) (λ j. slice_index (entries_at tables j) (slice_index (code_of_words S.widths words) j)) }
{}

/// Adds to each lane what the fields of its word pick.
#[inline(always)]
fn add_word<S: Shape>(sum: u8x32, tables: &[SplitTable], at: usize, word: u16x32) -> u8x32
    requires { HasTables S.widths at tables.now }
    ensures { HasLanes result (λ k. min 255 (slice_index sum k + word_sum S.widths tables.now at (slice_index word k))) }
{
    let first = add_field::<S>(sum, tables, at, word, 0);
    let second = add_field::<S>(first, tables, at, word, 1);
    let third = add_field::<S>(second, tables, at, word, 2);
    add_field::<S>(third, tables, at, word, 3)
}

/// Adds to each lane what field f of its word picks, if there is such a field.
#[inline(always)]
fn add_field<S: Shape>(
    sum: u8x32,
    tables: &[SplitTable],
    at: usize,
    word: u16x32,
    f: usize,
) -> u8x32
    requires { HasTables S.widths at tables.now }
    ensures { HasLanes result (λ k. min 255 (slice_index sum k + picked_or_none S.widths tables.now at (slice_index word k) f)) }
{
    if f < S::FIELDS {
        let width = S::WIDTHS[f];
        let fields = field(word, offset::<S>(f) as u16, width as u16);
        return add_capped(sum, tables[at + f].picked(width, fields));
    }
    sum
}
