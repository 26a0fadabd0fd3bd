//! What a book keeps: its numbers, its words in a row, and where each list of them begins.

ghost use Rattle.std.specs.Prelude.{◌≡◌, ℕ, ◌+◌, ◌-◌, ◌*◌, ◌^◌, ◌%◌, ◌<◌, ◌≤◌, length, sum, take, drop, slice_index, IfOk};
ghost use Rattle.std.specs.List.{AllByRecursion};
ghost use Rattle.codebook_core.specs.Starts.{AreStarts, sub_sizes};

use crate::fields::Front;
use std::alloc::{AllocError, Global};

/// The numbers of a book and its components in a row, a list for each part and one for all sub-quantizers.
#[derive(Drop)]
pub struct Parts {
    pub front: Front,
    pub scale: u8,
    pub g: u8,
    pub lengths: Vec<u32>,
    /// Where the stretch of each sub-quantizer begins in a vector.
    pub starts: Vec<u32>,
    /// Where the words of each sub-quantizer begin among all `words`.
    pub places: Vec<u32>,
    pub coarse0: Vec<u16>,
    pub coarse1: Vec<u16>,
    pub words: Vec<u16>,
}

/// Where each of the stretches begins that have these lengths.
pub fn starts_of(alloc: Global, numbers: &[u32]) -> Result<Vec<u32>, AllocError>
    requires { sum numbers.now < 2 ^ 32 }
    ensures { IfOk result (λ starts. AreStarts starts.items numbers.now) }
{
    let mut starts = Vec::with_capacity(alloc, numbers.len())?;
    let mut next = 0;
    for n in numbers {
        starts.push(next)?;
        next += *n;
    }
    Ok(starts)
}

/// How many components the words of each sub-quantizer have.
pub fn sizes(alloc: Global, widths: &[u32], lengths: &[u32]) -> Result<Vec<u32>, AllocError>
    requires fields { 0 < length widths.now }
    requires widths { AllByRecursion (λ width. width ≤ 8) widths.now }
    requires total { sum lengths.now ≤ 1024 }
    ensures { IfOk result (λ sizes. sizes.items ≡ sub_sizes widths.now 0 lengths.now) }
{
    let mut sizes = Vec::with_capacity(alloc, lengths.len())?;
    for (j, n) in lengths.iter().enumerate() {
        sizes.push(word_count(widths, j) * *n)?;
    }
    Ok(sizes)
}

/// How many words a sub-quantizer has.
pub fn word_count(widths: &[u32], j: usize) -> u32
    requires fields { 0 < length widths.now }
    requires widths { AllByRecursion (λ width. width ≤ 8) widths.now }
    ensures value { result ≡ 2 ^ slice_index widths.now (j % length widths.now) }
    ensures small { result ≤ 256 }
{
    1 << widths[j % widths.len()]
}

/// So many components from a place on.
pub fn stretch(components: &[u16], from: usize, n: usize) -> &[u16]
    requires { from + n ≤ length components.now }
    ensures { result.now ≡ take n (drop from components.now) }
{
    &components[from..from + n]
}

/// The word of this number, of words of one size in a row.
pub fn word(words: &[u16], i: usize, size: usize) -> &[u16]
    requires { i * size + size ≤ length words.now }
    ensures { result.now ≡ take size (drop (i * size) words.now) }
{
    stretch(words, i * size, size)
}

/// The same where the first word begins at a place.
pub fn word_from(words: &[u16], place: usize, i: usize, size: usize) -> &[u16]
    requires { place + i * size + size ≤ length words.now }
    ensures { result.now ≡ take size (drop (i * size) (drop place words.now)) }
{
    word(&words[place..], i, size)
}
