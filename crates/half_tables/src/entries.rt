//! The entries of a half's tables, one table after another. The first of them is table `first` of the book.
ghost use Rattle.std.specs.Prelude.{◌≡◌, ℕ, ◌+◌, ◌*◌, ◌^◌, ◌%◌, ◌<◌, ◌≤◌, length, map, slice_index};
ghost use Rattle.book_model.specs.Sums.{sum_below, numbers_below};
ghost use Rattle.book_model.specs.Book.{IsGood, part, sub_words, sub_count, width_of, start_of, length_of};
ghost use Rattle.book_model.specs.Bound.{base_sum};
ghost use Rattle.shape_core.specs.Word.{code_of_words};
ghost use Rattle.adc_tables.specs.Full.{table_size};
ghost use Rattle.half_tables.specs.Half.{start_from, table_from, tables_from, distances_from, stretch_of, Bounded, AreLeast, AreParts, small_part, picked_from, split_below, split_of};

use crate::distance::residual_each;
use adc_tables::{Steps, fill_in_steps, least_of, picked_words, size_of_table};
use codebook_core::Codebook;
use lane_kernels::SplitTable;
use shape_core::{Shape, field};

/// How many sub-quantizers begin in part 0.
pub(crate) fn split_of<S: Shape>(book: &Codebook<S>) -> u32
    ensures value { result ≡ split_of book.now }
    ensures within { result ≤ sub_count book.now }
{
    let mut split = 0;
    for j in 0..book.subs() {
        if book.start(j) < book.h() {
            split += 1;
        }
    }
    split
}

/// How many entries the tables from `first` on have, as many as `count`.
pub(crate) fn size_from<S: Shape>(first: usize, count: usize) -> usize
    requires first { first ≤ 128 }
    requires count { count ≤ 128 }
    ensures value { result ≡ start_from S.widths first count }
    ensures small { result ≤ 32768 }
{
    let mut size = 0;
    for i in 0..count {
        size += size_of_table::<S>(first + i);
    }
    size
}

/// Fills the tables of the sub-quantizers from `first` on, as many as `count`, which lie in the part that begins at `from`,
/// for this coarse word of the part.
pub(crate) fn fill_tables<S: Shape>(
    entries: &mut [u64],
    book: &Codebook<S>,
    query: &[u8],
    first: u32,
    count: u32,
    coarse: &[u16],
    from: u32,
)
    requires room { start_from S.widths first count ≤ length entries.old }
    requires bounded { Bounded 9895202000896 entries.old }
    requires query { length query.now ≡ book.now.d }
    requires within { first + count ≤ sub_count book.now }
    requires after { (j : ℕ) → first ≤ j → j < first + count → from ≤ start_of book.now j }
    requires before { (j : ℕ) → first ≤ j → j < first + count → start_of book.now j + length_of book.now j ≤ from + length coarse.now }
    ensures long { length entries.new ≡ length entries.old }
    ensures bounded { Bounded 9895202000896 entries.new }
    ensures tables { tables_from S.widths first count entries.new ≡ map (λ i. distances_from book.now query.now from coarse.now (first + i)) (numbers_below count) }
{
    let _d = book.d();
    let mut at = 0;
    for i in 0..count {
        let j = first + i;
        let end = at + size_of_table::<S>(j as usize);
        fill_table(&mut entries[at..end], book, query, j, coarse, from);
        at = end;
    }
}

/// Fills the table of sub-quantizer j. Words of at most 128 components, as the usual ones are, have columns for it.
fn fill_table<S: Shape>(
    table: &mut [u64],
    book: &Codebook<S>,
    query: &[u8],
    j: u32,
    coarse: &[u16],
    from: u32,
)
    requires good { IsGood book.now }
    requires query { length query.now ≡ book.now.d }
    requires number { j < sub_count book.now }
    requires size { length table.old ≡ 2 ^ width_of book.now j }
    requires after { from ≤ start_of book.now j }
    requires before { start_of book.now j + length_of book.now j ≤ from + length coarse.now }
    ensures distances { table.new ≡ distances_from book.now query.now from coarse.now j }
    ensures small { Bounded 9895202000896 table.new }
{
    let start = book.start(j) as usize;
    let length = book.length(j) as usize;
    let place = start - from as usize;
    let x = &query[start..start + length];
    let coarse = &coarse[place..place + length];
    if length <= 128 {
        book.sub_columns(j)
            .rest_distances(book.scale(), x, coarse, table);
        return;
    }
    residual_each(book.scale(), book.sub_words(j), x, coarse, table);
}

/// Writes the least entry of each table, as many as `count`, and answers their sum.
pub(crate) fn write_least<S: Shape>(
    least: &mut [u64],
    entries: &[u64],
    first: usize,
    count: usize,
) -> u64
    requires first { first ≤ 128 }
    requires count { count ≤ 128 }
    requires places { count ≤ length least.old }
    requires room { start_from S.widths first count ≤ length entries.now }
    requires bounded { Bounded 9895202000896 entries.now }
    ensures each { AreLeast S.widths first count entries.now least.new }
    ensures long { length least.new ≡ length least.old }
    ensures sum { result ≡ base_sum (tables_from S.widths first count entries.now) }
    ensures small { result ≤ count * 9895202000896 }
{
    let mut sum = 0;
    let mut at = 0;
    for i in 0..count {
        let end = at + size_of_table::<S>(first + i);
        let one = least_of(&entries[at..end]);
        least[i] = one;
        sum += one;
        at = end;
    }
    sum
}

/// The sum of the entries that a code picks. Whole words, of which the halves of the usual books are made, are taken at once.
#[inline(always)]
pub(crate) fn picked<S: Shape>(entries: &[u64], first: usize, count: usize, code: &[u16]) -> u64
    requires within { first + count ≤ length code.now * length S.widths }
    requires short { length code.now ≤ 32 }
    requires room { start_from S.widths first count ≤ length entries.now }
    requires bounded { Bounded 9895202000896 entries.now }
    ensures value { result ≡ picked_from (tables_from S.widths first count entries.now) first (code_of_words S.widths code.now) }
    ensures small { result ≤ 1266585856114688 }
{
    let fields = S::FIELDS;
    let low = first / fields;
    let words = count / fields;
    if low * fields == first && words * fields == count {
        return picked_words::<S>(entries, &code[low..low + words]);
    }
    picked_fields::<S>(entries, first, count, code)
}

/// The same, field by field.
fn picked_fields<S: Shape>(entries: &[u64], first: usize, count: usize, code: &[u16]) -> u64
    requires within { first + count ≤ length code.now * length S.widths }
    requires short { length code.now ≤ 32 }
    requires room { start_from S.widths first count ≤ length entries.now }
    requires bounded { Bounded 9895202000896 entries.now }
    ensures value { result ≡ picked_from (tables_from S.widths first count entries.now) first (code_of_words S.widths code.now) }
    ensures small { result ≤ count * 9895202000896 }
{
    let mut sum = 0;
    let mut at = 0;
    for i in 0..count {
        let j = first + i;
        let place = field::<S>(code[j / S::FIELDS], j % S::FIELDS);
        sum += entries[at + place as usize];
        at += size_of_table::<S>(j);
    }
    sum
}

/// Writes the entries in steps of this size.
pub(crate) fn fill_parts<S: Shape>(
    into: &mut [SplitTable],
    entries: &[u64],
    least: &[u64],
    first: usize,
    step: u64,
)
    requires first { first ≤ 128 }
    requires few { length into.old ≤ 128 }
    requires step { 1 ≤ step }
    requires room { start_from S.widths first (length into.old) ≤ length entries.now }
    requires bounded { Bounded 9895202000896 entries.now }
    requires places { length into.old ≤ length least.now }
    requires least { AreLeast S.widths first (length into.old) entries.now least.now }
    requires parts { AreParts S.widths first into.old }
    ensures { into.new ≡ map (small_part S.widths first step (tables_from S.widths first (length into.old) entries.now)) (numbers_below (length into.old)) }
{
    let steps = Steps::new(step);
    let mut at = 0;
    for (i, part) in into.iter_mut().enumerate() {
        let end = at + size_of_table::<S>(first + i);
        fill_in_steps(part, &entries[at..end], least[i], &steps);
        at = end;
    }
}
