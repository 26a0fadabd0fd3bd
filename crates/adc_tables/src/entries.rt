//! The entries of full tables, one table after another.
ghost use Rattle.std.specs.Prelude.{◌≡◌, ℕ, ◌+◌, ◌*◌, ◌^◌, ◌%◌, ◌<◌, ◌≤◌, length, min, slice_index};
ghost use Rattle.book_model.specs.Sums.{sum_below, least};
ghost use Rattle.book_model.specs.Distance.{distances};
ghost use Rattle.book_model.specs.Book.{IsGood, part, sub_words, sub_count, width_of};
ghost use Rattle.book_model.specs.Bound.{tables, picked_sum};
ghost use Rattle.shape_core.specs.Word.{code_of_words};
ghost use Rattle.adc_tables.specs.Full.{table_size, table_start, tables_in, entry_of_field, AreEntries};

use codebook_core::Codebook;
use shape_core::{Shape, field};

/// How many entries table j has.
#[inline(always)]
pub fn size_of_table<S: Shape>(j: usize) -> usize
    ensures size { result ≡ table_size S.widths j }
    ensures small { (1 ≤ result) × (result ≤ 256) }
{
    1 << S::WIDTHS[j % S::FIELDS]
}

/// How many entries the first n tables have.
#[inline]
pub(crate) fn size_of_tables<S: Shape>(n: usize) -> usize
    requires { n ≤ 128 }
    ensures { result ≡ table_start S.widths n }
{
    let mut size = 0;
    for j in 0..n {
        size += size_of_table::<S>(j);
    }
    size
}

/// Fills all tables of a query.
pub(crate) fn fill_tables<S: Shape>(entries: &mut [u64], book: &Codebook<S>, query: &[u8])
    requires entries { AreEntries S.widths (sub_count book.now) entries.old }
    requires query { length query.now ≡ book.now.d }
    ensures entries { AreEntries S.widths (sub_count book.now) entries.new }
    ensures tables { tables_in S.widths (sub_count book.now) entries.new ≡ tables book.now query.now }
{
    let _d = book.d();
    let mut at = 0;
    for j in 0..book.subs() {
        let end = at + size_of_table::<S>(j as usize);
        fill_table(&mut entries[at..end], book, query, j);
        at = end;
    }
}

/// Fills the table of sub-quantizer j.
fn fill_table<S: Shape>(table: &mut [u64], book: &Codebook<S>, query: &[u8], j: u32)
    requires good { IsGood book.now }
    requires query { length query.now ≡ book.now.d }
    requires number { j < sub_count book.now }
    requires size { length table.old ≡ 2 ^ width_of book.now j }
    ensures distances { table.new ≡ distances book.now.scale (sub_words book.now j) (part book.now j query.now) }
    ensures small { (i : ℕ) → slice_index table.new i ≤ 4397912294400 }
{
    let start = book.start(j) as usize;
    let stretch = &query[start..start + book.length(j) as usize];
    book.sub_columns(j).distances(book.scale(), stretch, table);
}

/// How many entries the table of field f of a word has, and 0 if there is no such field.
#[inline(always)]
fn size_of_field<S: Shape>(f: usize) -> usize
    ensures there { f < length S.widths → result ≡ table_size S.widths f }
    ensures none { length S.widths ≤ f → result ≡ 0 }
    ensures small { result ≤ 256 }
{
    if f < S::FIELDS { 1 << S::WIDTHS[f] } else { 0 }
}

/// Where the table of field f begins among those of its word. From `FIELDS` on it is where they end.
#[inline(always)]
pub(crate) fn field_start<S: Shape>(f: usize) -> usize
    ensures { result ≡ table_start S.widths (min f (length S.widths)) }
{
    let second = size_of_field::<S>(0);
    let third = second + size_of_field::<S>(1);
    let fourth = third + size_of_field::<S>(2);
    match f {
        0 => 0,
        1 => second,
        2 => third,
        3 => fourth,
        _ => fourth + size_of_field::<S>(3),
    }
}

/// The sum of the entries that the words of a code pick from the tables that begin with these entries.
#[inline]
pub fn picked_words<S: Shape>(entries: &[u64], code: &[u16]) -> u64
    requires room { table_start S.widths (length code.now * length S.widths) ≤ length entries.now }
    requires short { length code.now ≤ 32 }
    requires small { (i : ℕ) → slice_index entries.now i ≤ 9895202000896 }
    ensures sum { result ≡ picked_sum (tables_in S.widths (length code.now * length S.widths) entries.now) (code_of_words S.widths code.now) }
    ensures small { result ≤ length code.now * 39580808003584 }
{
    let mut sum = 0;
    let mut at = 0;
    for word in code {
        sum += picked::<S>(entries, at, *word);
        at += field_start::<S>(4);
    }
    sum
}

/// The sum of the entries that a word picks from the tables that begin at `at`, one for each of its fields.
#[inline(always)]
pub(crate) fn picked<S: Shape>(entries: &[u64], at: usize, word: u16) -> u64
    requires room { at + table_start S.widths (length S.widths) ≤ length entries.now }
    requires small { (i : ℕ) → slice_index entries.now i ≤ 9895202000896 }
    ensures sum { result ≡ sum_below (length S.widths) (entry_of_field S.widths entries.now at word) }
    ensures small { result ≤ 39580808003584 }
{
    let first = add_field::<S>(0, entries, at, word, 0);
    let second = add_field::<S>(first, entries, at, word, 1);
    let third = add_field::<S>(second, entries, at, word, 2);
    add_field::<S>(third, entries, at, word, 3)
}

/// Adds the entry that field f of a word picks, if there is such a field.
#[inline(always)]
fn add_field<S: Shape>(sum: u64, entries: &[u64], at: usize, word: u16, f: usize) -> u64
    requires room { at + table_start S.widths (length S.widths) ≤ length entries.now }
    requires small { (i : ℕ) → slice_index entries.now i ≤ 9895202000896 }
    requires few { sum ≤ f * 9895202000896 }
    requires number { f < 4 }
    ensures there { f < length S.widths → result ≡ sum + entry_of_field S.widths entries.now at word f }
    ensures none { length S.widths ≤ f → result ≡ sum }
    ensures few { result ≤ (f + 1) * 9895202000896 }
{
    if f < S::FIELDS {
        return sum + entries[at + field_start::<S>(f) + field::<S>(word, f) as usize];
    }
    sum
}

/// The least entry of a table.
#[inline]
pub fn least_of(table: &[u64]) -> u64
    requires { 1 ≤ length table.now }
    ensures { result ≡ least table.now }
{
    let mut best = table[0];
    for entry in table {
        best = best.min(*entry);
    }
    best
}
