//! The words of a book by column, for distances to all words of a list.

ghost use Rattle.std.specs.Prelude.{◌≡◌, ◌<◌, IfOk};
ghost use Rattle.book_model.specs.Book.{sub_count, sub_words};
ghost use Rattle.codebook_core.specs.Front.{AreWidths};
ghost use Rattle.codebook_core.specs.View.{view_of, IsKept};
ghost use Rattle.codebook_core.specs.Columns.{KeepWords};

use crate::parts::{Parts, stretch, word_count};
use std::alloc::{AllocError, Global};
use word_columns::WordColumns;

/// The lists of words: those of each part, and one for each sub-quantizer.
#[derive(Drop)]
pub struct Columns {
    pub coarse0: WordColumns,
    pub coarse1: WordColumns,
    pub subs: Vec<WordColumns>,
}

/// The columns of the words of a book of these parts, where the fields have these widths.
#[tactic(auto, unfolding(crate::specs::View::view_of), using(crate::proofs::ByColumn::rows_in_row))]
pub fn columns_of(alloc: Global, widths: &[u32], parts: &Parts) -> Result<Columns, AllocError>
    requires widths { AreWidths widths.now }
    requires kept { IsKept widths.now parts.now }
    ensures { IfOk result (λ columns. KeepWords (view_of widths.now parts.now) columns) }
{
    let front = parts.front;
    let size = front.d - front.h;
    let coarse0 = WordColumns::new(alloc, &parts.coarse0, front.k0 as usize, front.h as usize)?;
    let coarse1 = WordColumns::new(alloc, &parts.coarse1, front.k1 as usize, size as usize)?;
    let subs = sub_columns(alloc, widths, parts)?;
    Ok(Columns {
        coarse0,
        coarse1,
        subs,
    })
}

/// The columns of the words of each sub-quantizer.
#[tactic(auto, unfolding(crate::specs::View::view_of))]
fn sub_columns(alloc: Global, widths: &[u32], parts: &Parts) -> Result<Vec<WordColumns>, AllocError>
    requires widths { AreWidths widths.now }
    requires kept { IsKept widths.now parts.now }
    ensures { IfOk result (λ subs. subs.items ≡ (view_of widths.now parts.now).subs) }
{
    let count = parts.lengths.len();
    let mut subs = Vec::with_capacity(alloc, count)?;
    for j in 0..count {
        subs.push(columns_of_sub(alloc, widths, parts, j)?)?;
    }
    Ok(subs)
}

/// The columns of the words of sub-quantizer j.
fn columns_of_sub(
    alloc: Global,
    widths: &[u32],
    parts: &Parts,
    j: usize,
) -> Result<WordColumns, AllocError>
    requires widths { AreWidths widths.now }
    requires kept { IsKept widths.now parts.now }
    requires number { j < sub_count (view_of widths.now parts.now) }
    ensures { IfOk result (λ columns. columns ≡ sub_words (view_of widths.now parts.now) j) }
{
    let count = word_count(widths, j) as usize;
    let size = parts.lengths[j] as usize;
    let place = parts.places[j] as usize;
    let words = stretch(&parts.words, place, count * size);
    WordColumns::new(alloc, words, count, size)
}
