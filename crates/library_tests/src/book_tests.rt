//! Worked books, and their faults.

use adc_ports::What;
use codebook_core::{AnyBook, BookError, Codebook, decode, decode_at};
use shape_core::{Fields, Shape};
use std::alloc::{AllocError, Global};
use std::process::Abort;
use std::test::Fail;

type Small = Codebook<Fields<4, 4, 4, 4>>;

/// The words of a sub-quantizer of the small book: word w is 16 w.
const WORDS: [u8; 16] = [
    0x00, 0x10, 0x20, 0x30, 0x40, 0x50, 0x60, 0x70, 0x80, 0x90, 0xa0, 0xb0, 0xc0, 0xd0, 0xe0, 0xf0,
];

/// The small book: d 4, h 2, K0 and K1 2, shape 4-4-4-4, g 1, four lengths of 1.
fn small(alloc: Global) -> Result<Vec<u8>, AllocError> {
    let mut bytes = b"ADCBOOK1".to_vec(alloc)?;
    bytes.extend_from_slice(&[4, 0, 2, 0, 2, 0, 2, 0, 0, 1, 1, 0, 1, 0, 1, 0, 1, 0])?;
    bytes.extend_from_slice(&[0, 0, 128, 128, 0, 0, 128, 128])?;
    for _ in 0..4 {
        bytes.extend_from_slice(&WORDS)?;
    }
    Ok(bytes)
}

/// The same in version 2, with a scale of 4: coarse words (0, 0) and (2048, 2048), and word w is 256 w.
fn wide(alloc: Global) -> Result<Vec<u8>, AllocError> {
    let mut bytes = b"ADCBOOK2".to_vec(alloc)?;
    bytes.extend_from_slice(&[4, 0, 2, 0, 2, 0, 2, 0, 0, 1, 4, 1, 0, 1, 0, 1, 0, 1, 0])?;
    for _ in 0..2 {
        bytes.extend_from_slice(&[0, 0, 0, 0, 0, 8, 0, 8])?;
    }
    for _ in 0..4 {
        for w in 0..16u8 {
            bytes.push(0)?;
            bytes.push(w)?;
        }
    }
    Ok(bytes)
}

/// A book of one coarse word in each part and as many lengths of 1 as the shape has fields, whose components are all 7.
fn least(alloc: Global, shape: u8, fields: u8, components: usize) -> Result<Vec<u8>, AllocError> {
    let mut bytes = b"ADCBOOK1".to_vec(alloc)?;
    bytes.extend_from_slice(&[fields, 0, 1, 0, 1, 0, 1, 0, shape, 1])?;
    for _ in 0..fields {
        bytes.extend_from_slice(&[1, 0])?;
    }
    for _ in 0..components {
        bytes.push(7)?;
    }
    Ok(bytes)
}

/// What is wrong with a file, if anything is.
fn fault(alloc: Global, bytes: &[u8]) -> Option<BookError> {
    decode(alloc, bytes).err()
}

fn spelled<S: Shape>(alloc: Global, book: &Codebook<S>) -> Result<Vec<u8>, Fail> {
    Ok(book.encode(alloc)?)
}

/// The number of the shape of a book, and its spelling.
fn numbered(alloc: Global, book: &AnyBook) -> Result<(u8, Vec<u8>), Fail> {
    let (number, bytes) = match book {
        AnyBook::F4444(book) => (0, spelled(alloc, book)),
        AnyBook::F555(book) => (1, spelled(alloc, book)),
        AnyBook::F664(book) => (2, spelled(alloc, book)),
        AnyBook::F88(book) => (3, spelled(alloc, book)),
    };
    Ok((number, bytes?))
}

/// The number of the shape and the spelling of the book of a file.
fn written(alloc: Global, bytes: &[u8]) -> Result<(u8, Vec<u8>), Fail> {
    let book = decode(alloc, bytes)?;
    numbered(alloc, &book)
}

#[test]
fn books_are_read_and_written_again(rt: HostRuntime) -> Result<(), Fail> {
    let small = small(rt.alloc())?;
    assert_eq!(rt; small.len(), 98);
    assert_eq!(rt; written(rt.alloc(), &small)?, (0, small));
    let wide = wide(rt.alloc())?;
    assert_eq!(rt; wide.len(), 171);
    assert_eq!(rt; written(rt.alloc(), &wide)?, (0, wide));
    Ok(())
}

#[test]
fn each_shape_has_its_number(rt: HostRuntime) -> Result<(), Fail> {
    for (shape, fields, components) in [(0, 4, 68), (1, 3, 99), (2, 3, 147), (3, 2, 514)] {
        let bytes = least(rt.alloc(), shape, fields, components)?;
        assert_eq!(rt; written(rt.alloc(), &bytes)?, (shape, bytes));
    }
    Ok(())
}

#[test]
fn one_changed_byte_is_a_fault_at_its_field(rt: HostRuntime) -> Result<(), Fail> {
    for (at, value, place) in [
        (7, b'3', 0),
        (8, 1, 8),
        (10, 4, 10),
        (12, 0, 12),
        (14, 0, 14),
        (16, 4, 16),
        (17, 0, 17),
        (17, 2, 17),
        (18, 2, 18),
        (20, 0, 20),
        (24, 2, 24),
    ] {
        let mut bytes = small(rt.alloc())?;
        assert!(rt; at < bytes.len());
        bytes[at] = value;
        assert_eq!(rt;
            fault(rt.alloc(), &bytes),
            Some(BookError::Malformed { at: place })
        );
    }
    Ok(())
}

#[test]
fn a_scale_above_8_is_a_fault(rt: HostRuntime) -> Result<(), Fail> {
    let mut bytes = wide(rt.alloc())?;
    assert!(rt; 18 < bytes.len());
    bytes[18] = 9;
    assert_eq!(rt;
        fault(rt.alloc(), &bytes),
        Some(BookError::Malformed { at: 18 })
    );
    Ok(())
}

#[test]
fn what_is_above_a_limit_is_named(rt: HostRuntime) -> Result<(), Fail> {
    for (at, low, high, what, value) in [
        (8, 1, 4, What::D, 1025),
        (12, 1, 4, What::K0, 1025),
        (14, 255, 255, What::K1, 65535),
        (17, 33, 1, What::G, 33),
    ] {
        let mut bytes = small(rt.alloc())?;
        assert!(rt; at + 1 < bytes.len());
        bytes[at] = low;
        bytes[at + 1] = high;
        assert_eq!(rt;
            fault(rt.alloc(), &bytes),
            Some(BookError::Limit { what, value })
        );
    }
    let long = vec![in rt.alloc(); 0u8; 4_194_305]?;
    let what = What::Bytes;
    let value = 4_194_305;
    assert_eq!(rt;
        fault(rt.alloc(), &long),
        Some(BookError::Limit { what, value })
    );
    Ok(())
}

/// Where the small book is faulty that is cut to n bytes.
fn cut_at(n: u64) -> u64 {
    match n {
        0..=7 => 0,
        8..=15 => n - n % 2,
        18..=25 => n - n % 2,
        _ => n,
    }
}

/// What is wrong with the first n bytes.
fn cut_fault(alloc: Global, bytes: &[u8], n: usize) -> Option<BookError> {
    match bytes.get(..n) {
        Some(front) => fault(alloc, front),
        None => None,
    }
}

#[test]
fn a_cut_book_is_a_fault_at_the_field_that_is_cut(rt: HostRuntime) -> Result<(), Fail> {
    let bytes = small(rt.alloc())?;
    for n in 0..98 {
        let at = cut_at(n as u64);
        assert_eq!(rt;
            cut_fault(rt.alloc(), &bytes, n),
            Some(BookError::Malformed { at })
        );
    }
    Ok(())
}

#[test]
fn a_cut_component_is_a_fault_where_it_begins(rt: HostRuntime) -> Result<(), Fail> {
    let bytes = wide(rt.alloc())?;
    let at = 169;
    assert_eq!(rt;
        cut_fault(rt.alloc(), &bytes, 170),
        Some(BookError::Malformed { at })
    );
    Ok(())
}

#[test]
fn a_byte_more_is_a_fault_at_that_byte(rt: HostRuntime) -> Result<(), Fail> {
    let mut bytes = small(rt.alloc())?;
    bytes.push(0)?;
    let at = 98;
    assert_eq!(rt;
        fault(rt.alloc(), &bytes),
        Some(BookError::Malformed { at })
    );
    Ok(())
}

/// The book of shape 4-4-4-4 of a file.
fn book_of(alloc: Global, bytes: &[u8]) -> Result<Small, Fail> {
    match decode(alloc, bytes)? {
        AnyBook::F4444(book) => Ok(book),
        _ => Err(Fail::from("the shape is another")),
    }
}

fn small_book(alloc: Global) -> Result<Small, Fail> {
    let bytes = small(alloc)?;
    book_of(alloc, &bytes)
}

fn wide_book(alloc: Global) -> Result<Small, Fail> {
    let bytes = wide(alloc)?;
    book_of(alloc, &bytes)
}

/// Compares the numbers of the small book.
fn expect_numbers(rt: &impl Abort, book: &Small) {
    assert_eq!(rt; (book.version(), book.scale()), (1, 0));
    assert_eq!(rt; (book.d(), book.h(), book.k0(), book.k1()), (4, 2, 2, 2));
    assert_eq!(rt; (book.g(), book.subs()), (1, 4));
    assert_eq!(rt; (book.length(3), book.start(3)), (1, 3));
}

#[test]
fn the_numbers_of_a_book_are_its_parts(rt: HostRuntime) -> Result<(), Fail> {
    let book = small_book(rt.alloc())?;
    expect_numbers(&rt, &book);
    Ok(())
}

/// Compares two coarse words of the wide book.
fn expect_coarse(rt: &impl Abort, book: &Small) {
    assert_eq!(rt; (book.version(), book.scale()), (2, 4));
    assert_eq!(rt; (book.k0(), book.k1(), book.subs()), (2, 2, 4));
    assert_eq!(rt; book.coarse0(1), [2048, 2048].as_slice());
    assert_eq!(rt; book.coarse1(0), [0, 0].as_slice());
}

#[test]
fn the_words_of_a_book_are_its_parts(rt: HostRuntime) -> Result<(), Fail> {
    let book = wide_book(rt.alloc())?;
    expect_coarse(&rt, &book);
    Ok(())
}

/// Compares words of two sub-quantizers of the small book.
fn expect_subs(rt: &impl Abort, book: &Small) {
    assert_eq!(rt; book.subs(), 4);
    assert_eq!(rt; book.d(), 4);
    assert_eq!(rt; book.sub(2, 3), [48].as_slice());
    let words = book.sub_words(1);
    assert_eq!(rt; words.len(), 16);
    assert_eq!(rt; words[15], 240);
}

#[test]
fn the_words_of_a_sub_quantizer_are_its_parts(rt: HostRuntime) -> Result<(), Fail> {
    let book = small_book(rt.alloc())?;
    expect_subs(&rt, &book);
    Ok(())
}

/// Compares how many words each kind of columns has.
fn expect_columns(rt: &impl Abort, book: &Small) {
    assert_eq!(rt; book.subs(), 4);
    assert_eq!(rt; book.coarse0_columns().count(), 2);
    assert_eq!(rt; book.coarse1_columns().count(), 2);
    assert_eq!(rt; book.sub_columns(3).count(), 16);
}

#[test]
fn the_words_of_a_book_are_kept_by_column(rt: HostRuntime) -> Result<(), Fail> {
    let book = wide_book(rt.alloc())?;
    expect_columns(&rt, &book);
    Ok(())
}

/// The small book from byte 4 on, between other bytes.
fn between(alloc: Global) -> Result<Vec<u8>, AllocError> {
    let mut bytes = b"book".to_vec(alloc)?;
    bytes.extend_from_slice(&small(alloc)?)?;
    bytes.push(1)?;
    Ok(bytes)
}

#[test]
fn a_book_between_other_bytes_is_read(rt: HostRuntime) -> Result<(), Fail> {
    let bytes = between(rt.alloc())?;
    assert!(rt; 4 < bytes.len());
    let (book, end) = decode_at(rt.alloc(), &bytes, 4)?;
    assert_eq!(rt; end, 102);
    assert!(rt; matches!(&book, AnyBook::F4444(_)));
    Ok(())
}
