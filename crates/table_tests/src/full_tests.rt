//! Tables of a small book, worked out by hand.
ghost use Rattle.std.specs.Prelude.{◌≡◌, IfOk};

use adc_ports::Memory;
use adc_tables::{FullMeter, FullTables, SmallTables};
use codebook_core::{AnyBook, decode};
use lane_kernels::LaneMeter;
use shape_core::Fields;
use std::alloc::Global;
use std::process::Abort;
use std::test::Fail;
use test_files::{SMALL_BOOK, WIDE_BOOK};

type Shape4444 = Fields<4, 4, 4, 4>;

/// The full tables of the query (0, 0, 0, 0) over the small book, in version 2 if `wide`.
fn filled(alloc: Global, wide: bool) -> Result<FullTables<Shape4444>, Fail>
    ensures { IfOk result (λ full. full.g ≡ 1) }
{
    let bytes: &[u8] = if wide { &WIDE_BOOK } else { &SMALL_BOOK };
    match decode(alloc, bytes)? {
        AnyBook::F4444(book) => {
            if book.d() != 4 || book.g() != 1 {
                return Err(Fail::from("another book"));
            }
            let Ok(mut full) = FullTables::with_room(alloc, &book) else {
                return Err(Fail::from("no memory"));
            };
            full.fill(&book, &[0, 0, 0, 0]);
            Ok(full)
        }
        _other => Err(Fail::from("another shape")),
    }
}

/// The distance of a word.
fn distance(rt: &impl Abort, alloc: Global, full: &FullTables<Shape4444>, word: u16) -> u64
    requires { full.now.g ≡ 1 }
{
    let mut meter = FullMeter::new(alloc);
    let distance = full.distance(&[word], &mut meter);
    assert_eq!(rt; meter.count(), 1);
    distance
}

/// The threshold of theta and the bound of a word, if the small tables are filled with theta0.
fn bounded(
    rt: &impl Abort,
    alloc: Global,
    full: &FullTables<Shape4444>,
    theta0: u64,
    theta: u64,
    word: u16,
) -> Result<(u8, u8), Memory>
    requires { full.now.g ≡ 1 }
{
    let base = full.base_sum();
    assert!(rt; base <= theta);
    assert!(rt; theta <= theta0);
    let mut small = SmallTables::with_room(alloc, 1)?;
    small.fill(full, theta0);
    assert_eq!(rt; small.parts().len(), 4);
    let mut lanes = LaneMeter::new(alloc);
    let bound = small.bound(&[word], &mut lanes);
    assert_eq!(rt; lanes.count(), 1);
    Ok((small.threshold(theta), bound))
}

#[test]
fn a_distance_is_the_sum_of_its_entries(rt: HostRuntime) -> Result<(), Fail> {
    let alloc = rt.alloc();
    let full = filled(alloc, false)?;
    assert_eq!(rt; full.base_sum(), 0);
    assert_eq!(rt; distance(&rt, alloc, &full, 0x0000), 0);
    assert_eq!(rt; distance(&rt, alloc, &full, 0x0178), 29184);
    assert_eq!(rt; distance(&rt, alloc, &full, 0x4444), 16384);
    assert_eq!(rt; distance(&rt, alloc, &full, 0x8800), 32768);
    Ok(())
}

#[test]
fn a_bound_above_the_threshold_is_pruned(rt: HostRuntime) -> Result<(), Fail> {
    let alloc = rt.alloc();
    let full = filled(alloc, false)?;
    assert_eq!(rt; bounded(&rt, alloc, &full, 0, 0, 0x4444), Ok((0, 255)));
    assert_eq!(rt;
        bounded(&rt, alloc, &full, 16384, 16384, 0x0178),
        Ok((252, 255))
    );
    Ok(())
}

#[test]
fn a_bound_at_the_threshold_is_kept(rt: HostRuntime) -> Result<(), Fail> {
    let alloc = rt.alloc();
    let full = filled(alloc, false)?;
    assert_eq!(rt;
        bounded(&rt, alloc, &full, 16384, 16384, 0x4444),
        Ok((252, 252))
    );
    Ok(())
}

#[test]
fn entries_are_rounded_down_and_cut(rt: HostRuntime) -> Result<(), Fail> {
    let alloc = rt.alloc();
    let full = filled(alloc, false)?;
    for (word, bound) in [(1, 3), (4, 63), (7, 192), (8, 252), (9, 255)] {
        assert_eq!(rt; bounded(&rt, alloc, &full, 16384, 0, word), Ok((0, bound)));
    }
    Ok(())
}

#[test]
fn scaled_words_have_larger_steps(rt: HostRuntime) -> Result<(), Fail> {
    let alloc = rt.alloc();
    let full = filled(alloc, true)?;
    assert_eq!(rt; distance(&rt, alloc, &full, 0x4444), 4_194_304);
    assert_eq!(rt;
        bounded(&rt, alloc, &full, 4_194_304, 4_194_304, 0x0178),
        Ok((254, 255))
    );
    for (word, bound) in [(1, 3), (7, 195), (8, 254)] {
        assert_eq!(rt;
            bounded(&rt, alloc, &full, 4_194_304, 16448, word),
            Ok((0, bound))
        );
        assert_eq!(rt;
            bounded(&rt, alloc, &full, 4_194_304, 16449, word),
            Ok((1, bound))
        );
    }
    Ok(())
}
