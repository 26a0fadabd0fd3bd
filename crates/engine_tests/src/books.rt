//! Books for the tests.
use codebook_core::{AnyBook, Codebook, decode};
use shape_core::Fields;
use std::alloc::Global;
use std::test::Fail;
use test_files::{SMALL_BOOK, WIDE_BOOK};

pub(crate) type Shape4444 = Fields<4, 4, 4, 4>;

/// The book of bytes of shape 4-4-4-4.
fn book_of(alloc: Global, bytes: &[u8]) -> Result<Codebook<Shape4444>, Fail> {
    match decode(alloc, bytes)? {
        AnyBook::F4444(book) => Ok(book),
        _ => Err(Fail::from("another shape")),
    }
}

/// The small book: each part of a vector has the coarse words (0, 0) and (128, 128), and word w of each of the four
/// sub-quantizers is 16 w.
pub(crate) fn small(alloc: Global) -> Result<Codebook<Shape4444>, Fail> {
    book_of(alloc, &SMALL_BOOK)
}

/// The same in version 2 at scale 4.
pub(crate) fn scaled(alloc: Global) -> Result<Codebook<Shape4444>, Fail> {
    book_of(alloc, &WIDE_BOOK)
}
