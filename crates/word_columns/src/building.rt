//! Columns from words that stand one after another.
ghost use Rattle.std.specs.Prelude.{◌≡◌, ℕ, ◌+◌, ◌*◌, ◌/◌, ◌%◌, ◌<◌, ◌≤◌, length, slice_index, IfOk};
ghost use Rattle.book_model.specs.Sums.{sum_below};
ghost use Rattle.word_columns.specs.Columns.{pairs_of, blocks_of, component_of, kept, squared};

use std::alloc::{AllocError, Global};

/// The columns of `count` words of n components, which stand one after another. A last block is filled up with words of zeros.
///
/// # Errors
/// Where memory runs out.
pub(crate) fn columns_of(
    alloc: Global,
    words: &[u16],
    count: usize,
    n: usize,
) -> Result<Vec<u16>, AllocError>
    requires count { count ≤ 1024 }
    requires size { (1 ≤ n) × (n ≤ 1024) }
    requires whole { length words.now ≡ count * n }
    ensures components { IfOk result (λ columns. (w : ℕ) → w < count → (i : ℕ) → i < n → component_of columns.items n w i ≡ slice_index words.now (w * n + i)) }
    ensures long { IfOk result (λ columns. length columns.items ≡ blocks_of count * (32 * pairs_of n)) }
{
    let pairs = n / 2 + n % 2;
    let mut columns = Vec::new(alloc);
    for t in 0..(count + 15) / 16 * pairs {
        let b = t / pairs;
        let p = t % pairs;
        for k in 0..16 {
            columns.push(turned(words, count, n, 16 * b + k, 2 * p))?;
            columns.push(turned(words, count, n, 16 * b + k, 2 * p + 1))?;
        }
    }
    Ok(columns)
}

/// What is kept for component i of word w.
#[inline(always)]
fn turned(words: &[u16], count: usize, n: usize, w: usize, i: usize) -> u16
    requires whole { length words.now ≡ count * n }
    requires sizes { (count ≤ 1024) × (n ≤ 1024) }
    ensures { result ≡ kept words.now count n w i }
{
    if w < count && i < n {
        return words[w * n + i] ^ 32768;
    }
    32768
}

/// The sums of squares of the words that columns of n components a word keep in these blocks.
///
/// # Errors
/// Where memory runs out.
pub(crate) fn norms_of(
    alloc: Global,
    columns: &[u16],
    blocks: usize,
    n: usize,
) -> Result<Vec<u64>, AllocError>
    requires blocks { blocks ≤ 64 }
    requires size { n ≤ 1024 }
    requires whole { blocks * (32 * pairs_of n) ≤ length columns.now }
    ensures squares { IfOk result (λ norms. (w : ℕ) → w < blocks * 16 → slice_index norms.items w ≡ sum_below n (λ i. squared (component_of columns.now n w i))) }
    ensures long { IfOk result (λ norms. length norms.items ≡ blocks * 16) }
{
    let mut norms = Vec::new(alloc);
    for w in 0..blocks * 16 {
        norms.push(norm(columns, n, w))?;
    }
    Ok(norms)
}

/// The sum of squares of word w.
fn norm(columns: &[u16], n: usize, w: usize) -> u64
    requires number { w < 1024 }
    requires size { n ≤ 1024 }
    requires whole { (w / 16 + 1) * (32 * pairs_of n) ≤ length columns.now }
    ensures { result ≡ sum_below n (λ i. squared (component_of columns.now n w i)) }
{
    let begin = w / 16 * (32 * (n / 2 + n % 2));
    let mut sum: u64 = 0;
    for i in 0..n {
        let c = u32::from(columns[begin + 32 * (i / 2) + (2 * (w % 16) + i % 2)] ^ 32768);
        sum += u64::from(c * c);
    }
    sum
}
