//! Halves of a small residual book, worked out by hand.
ghost use Rattle.std.specs.Prelude.{◌≡◌, ◌≤◌, ◌<◌};
ghost use Rattle.half_tables.specs.Residual.{IsResidual};

use codebook_core::{AnyBook, Codebook, decode};
use half_tables::*;
use shape_core::Fields;
use std::alloc::{AllocError, Global};
use std::process::Abort;
use std::test::Fail;
use test_files::{RESIDUAL_BOOK, SMALL_BOOK};

type Shape4444 = Fields<4, 4, 4, 4>;

/// What the two halves of a cell give: how many tables the first has, the distance of a word, the sum of both bases, and how many
/// halves were filled.
#[derive(Debug, Clone, Copy, PartialEq, Eq)]
struct Given {
    tables: usize,
    distance: u64,
    base: u64,
    filled: u64,
}

/// Fills both halves of cell (low, high) for the query (0, 0, 0, 0), and asks for a word.
fn ask(
    rt: &impl Abort,
    alloc: Global,
    book: &Codebook<Shape4444>,
    low: u32,
    high: u32,
    word: u16,
) -> Result<Given, Fail>
    requires residual { IsResidual book.now }
    requires d { book.now.d ≡ 4 }
    requires g { book.now.g ≡ 1 }
    requires low { low < book.now.k0 }
    requires high { high < book.now.k1 }
{
    let Ok(mut first) = HalfTable::with_room(alloc, book) else {
        return Err(Fail::from("no memory"));
    };
    let Ok(mut second) = HalfTable::with_room(alloc, book) else {
        return Err(Fail::from("no memory"));
    };
    let mut halves = HalfMeter::new(alloc);
    first.fill(book, &[0, 0, 0, 0], 0, low, &mut halves);
    second.fill(book, &[0, 0, 0, 0], 1, high, &mut halves);
    let mut full = HalfFullMeter::new(alloc);
    let distance = pair_distance(&first, &second, &[word], &mut full);
    assert_eq!(rt; full.count(), 1);
    Ok(Given {
        tables: first.count(),
        distance,
        base: first.base_sum() + second.base_sum(),
        filled: halves.count(),
    })
}

/// The residual book, if it is read and residual, and what its halves give.
fn halves_of(
    rt: &impl Abort,
    alloc: Global,
    low: u32,
    high: u32,
    word: u16,
) -> Result<Given, Fail> {
    match decode(alloc, &RESIDUAL_BOOK)? {
        AnyBook::F4444(book) => {
            let Ok(()) = check(&book) else {
                return Err(Fail::from("no residual book"));
            };
            if book.d() != 4 || book.g() != 1 {
                return Err(Fail::from("another book"));
            }
            if low >= book.k0() || high >= book.k1() {
                return Err(Fail::from("no such cell"));
            }
            ask(rt, alloc, &book, low, high, word)
        }
        _other => Err(Fail::from("another shape")),
    }
}

#[test]
fn a_distance_is_the_sum_of_the_entries_of_both_halves(rt: HostRuntime) -> Result<(), Fail> {
    let alloc = rt.alloc();
    for (low, high, word, distance) in [
        (0, 0, 0x8888, 0),
        (0, 0, 0xcccc, 16384),
        (1, 0, 0x8978, 29184),
        (0, 1, 0x0088, 0),
        (1, 1, 0x0000, 0),
        (1, 1, 0x1111, 1024),
    ] {
        let outcome = Given {
            tables: 2,
            distance,
            base: 0,
            filled: 2,
        };
        assert_eq!(rt; halves_of(&rt, alloc, low, high, word)?, outcome);
    }
    Ok(())
}

#[test]
fn a_residual_below_0_is_near_a_word_below_32768(rt: HostRuntime) -> Result<(), Fail> {
    assert_eq!(rt; residual_dist(0, &[10, 10], &[13, 10], &[32765, 32769]), 1);
    assert_eq!(rt; residual_dist(8, &[255], &[0], &[0]), 9_613_410_304);
    assert_eq!(rt; residual_dist(0, &[0], &[65535], &[65535]), 9_663_283_204);
    assert_eq!(rt; residual_dist(0, &[], &[], &[]), 0);
    Ok(())
}

/// A book of d 4 with one coarse word in each part and two sub-quantizers of these lengths, in version 2.
fn long_book(alloc: Global, h: u8, first: u8, second: u8) -> Result<Vec<u8>, AllocError> {
    let mut bytes = b"ADCBOOK2".to_vec(alloc)?;
    bytes.extend_from_slice(&[4, 0, h, 0, 1, 0, 1, 0, 3, 1, 0, first, 0, second, 0])?;
    for _n in 0..2056 {
        bytes.push(0)?;
    }
    Ok(bytes)
}

/// Whether a book is refused, and where.
fn refused(alloc: Global, bytes: &[u8]) -> Result<Option<u64>, Fail> {
    let outcome = match decode(alloc, bytes)? {
        AnyBook::F4444(book) => check(&book),
        AnyBook::F88(book) => check(&book),
        _other => return Err(Fail::from("another shape")),
    };
    match outcome {
        Ok(()) => Ok(None),
        Err(NotResidual { at }) => Ok(Some(at)),
    }
}

#[test]
fn lengths_may_meet_h_and_not_cross_it(rt: HostRuntime) -> Result<(), Fail> {
    let alloc = rt.alloc();
    assert_eq!(rt; refused(alloc, &SMALL_BOOK)?, Some(0));
    assert_eq!(rt; refused(alloc, &RESIDUAL_BOOK)?, None);
    for (h, first, second, at) in [
        (2, 2, 2, None),
        (1, 1, 3, None),
        (3, 3, 1, None),
        (1, 2, 2, Some(19)),
        (3, 2, 2, Some(21)),
        (2, 1, 3, Some(21)),
    ] {
        let bytes = long_book(alloc, h, first, second)?;
        assert_eq!(rt; refused(alloc, &bytes)?, at);
    }
    Ok(())
}
