//! Ranks of small books.
ghost use Rattle.std.specs.Prelude.{IfOk};
ghost use Rattle.coarse_rank.specs.Ranked.{IsFilled};

use coarse_rank::Ranks;
use codebook_core::{AnyBook, Codebook, decode};
use shape_core::Fields;
use std::alloc::Global;
use std::test::Fail;

type Book = Codebook<Fields<4, 4, 4, 4>>;

/// A book of vectors of four bytes with these coarse words of two bytes each, those of part 0 first. The words of its
/// sub-quantizers are zeros.
fn book_of(alloc: Global, k0: u16, k1: u16, words: &[u8]) -> Result<Book, Fail> {
    let mut bytes = Vec::new(alloc);
    bytes.extend_from_slice(b"ADCBOOK1")?;
    bytes.extend_from_slice(&[4, 0, 2, 0])?;
    bytes.extend_from_slice(&k0.to_le_bytes())?;
    bytes.extend_from_slice(&k1.to_le_bytes())?;
    bytes.extend_from_slice(&[0, 1, 1, 0, 1, 0, 1, 0, 1, 0])?;
    bytes.extend_from_slice(words)?;
    bytes.extend_from_slice(&[0; 64])?;
    match decode(alloc, &bytes) {
        Ok(AnyBook::F4444(book)) => Ok(book),
        _ => Err(Fail::from("no book")),
    }
}

/// The ranks of a book for a query.
fn ranks_for(alloc: Global, book: &Book, query: &[u8]) -> Result<Ranks, Fail>
    ensures { IfOk result (λ ranks. IsFilled ranks) }
{
    if query.len() != book.d() as usize {
        return Err(Fail::from("length"));
    }
    let Ok(mut ranks) = Ranks::with_room(alloc, book.k0(), book.k1()) else {
        return Err(Fail::from("no memory"));
    };
    ranks.fill(book, query);
    Ok(ranks)
}

/// The ranks of these words for a query.
pub(crate) fn ranks_of(
    alloc: Global,
    k0: u16,
    k1: u16,
    words: &[u8],
    query: &[u8],
) -> Result<Ranks, Fail>
    ensures { IfOk result (λ ranks. IsFilled ranks) }
{
    let book = book_of(alloc, k0, k1, words)?;
    ranks_for(alloc, &book, query)
}
