//! Cells and words of a small book, worked out by hand.
use code_assign::*;
use codebook_core::{AnyBook, BookError, Codebook, decode};
use shape_core::Shape;
use std::alloc::Global;
use test_files::{SMALL_BOOK, WIDE_BOOK};

/// The cell and the word of a vector.
fn assigned<S: Shape>(book: &Codebook<S>, vector: &[u8]) -> (u32, u16) {
    if vector.len() == book.d() as usize && book.g() == 1 {
        let mut words = [0];
        encode(book, vector, &mut words);
        (coarse(book, vector), words[0])
    } else {
        (9, 9)
    }
}

/// The cell and the word of a vector by the small book, in version 2 if `wide`.
fn by_small_book(alloc: Global, wide: bool, vector: &[u8]) -> Result<(u32, u16), BookError> {
    let bytes: &[u8] = if wide { &WIDE_BOOK } else { &SMALL_BOOK };
    match decode(alloc, bytes)? {
        AnyBook::F4444(book) => Ok(assigned(&book, vector)),
        _other => Ok((9, 9)),
    }
}

#[test]
fn a_vector_goes_to_its_nearest_words(rt: HostRuntime) {
    let alloc = rt.alloc();
    for wide in [false, true] {
        assert_eq!(rt; by_small_book(alloc, wide, &[0, 0, 0, 0]), Ok((0, 0x0000)));
        assert_eq!(rt;
            by_small_book(alloc, wide, &[130, 120, 10, 0]),
            Ok((2, 0x0178))
        );
        assert_eq!(rt;
            by_small_book(alloc, wide, &[0, 0, 128, 128]),
            Ok((1, 0x8800))
        );
    }
}

#[test]
fn a_tie_goes_to_the_least_word(rt: HostRuntime) {
    let alloc = rt.alloc();
    assert_eq!(rt;
        by_small_book(alloc, false, &[64, 64, 64, 64]),
        Ok((0, 0x4444))
    );
    assert_eq!(rt;
        by_small_book(alloc, false, &[8, 24, 40, 56]),
        Ok((0, 0x3210))
    );
}
