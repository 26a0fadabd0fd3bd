//! Worked rows, ties, bases of several stretches, each read failing in turn, and files that changed after their check.
ghost use Rattle.std.specs.Prelude.{◌<◌, ◌↔◌, IsTrue, All};

use adc_ports::MemoryShelf;
use flat_truth::*;
use std::alloc::AllocError;
use std::test::Fail;
use vec_files::{Checked, VecError, check_bvecs};

/// Four rows of four components.
const BASE: [u8; 32] = [
    4, 0, 0, 0, 0, 0, 0, 0, 4, 0, 0, 0, 130, 120, 10, 0, 4, 0, 0, 0, 64, 64, 64, 64, 4, 0, 0, 0, 0,
    0, 128, 128,
];

const FOUR: Checked = Checked { d: 4, rows: 4 };

/// Two rows: (7, 0, 0, 0) and (1, 0, 0, 0).
const TWO_ROWS: [u8; 16] = [4, 0, 0, 0, 7, 0, 0, 0, 4, 0, 0, 0, 1, 0, 0, 0];

const TWO: Checked = Checked { d: 4, rows: 2 };

/// Whether each id numbers one of so many rows.
fn are_below(ids: &[u32], rows: u32) -> bool
    ensures { IsTrue result ↔ All (λ id. id < rows) ids.now }
{
    ids.iter().all(|id| *id < rows)
}

fn pair(distance: u64, row: u32) -> TruePair {
    TruePair { distance, row }
}

#[test]
fn fewer_rows_than_k_are_all_answered(rt: HostRuntime) -> Result<(), Fail> {
    let mut shelf = MemoryShelf::new(rt.alloc());
    assert_eq!(rt; shelf.add("base", &BASE), Ok(()));
    assert_eq!(rt; check_bvecs(&mut shelf, "base", None), Ok(FOUR));
    let Ok(answer) = exact(rt.alloc(), &mut shelf, "base", FOUR, &[0; 4], 5) else {
        return Err(Fail::from("no answer"));
    };
    let want = [pair(0, 0), pair(16384, 2), pair(31400, 1), pair(32768, 3)];
    assert_eq!(rt; answer.pairs(), want.as_slice());
    Ok(())
}

#[test]
fn a_tie_goes_by_the_row_number(rt: HostRuntime) -> Result<(), Fail> {
    let mut shelf = MemoryShelf::new(rt.alloc());
    let rows = [1, 0, 0, 0, 1, 1, 0, 0, 0, 3, 1, 0, 0, 0, 1];
    assert_eq!(rt; shelf.add("base", &rows), Ok(()));
    let checked = Checked { d: 1, rows: 3 };
    let Ok(answer) = exact(rt.alloc(), &mut shelf, "base", checked, &[2], 2) else {
        return Err(Fail::from("no answer"));
    };
    assert_eq!(rt; answer.pairs(), [pair(1, 0), pair(1, 1)].as_slice());
    Ok(())
}

#[test]
fn an_empty_base_answers_nothing(rt: HostRuntime) -> Result<(), Fail> {
    let mut shelf = MemoryShelf::new(rt.alloc());
    assert_eq!(rt; shelf.add("base", b""), Ok(()));
    let checked = Checked { d: 0, rows: 0 };
    let Ok(answer) = exact(rt.alloc(), &mut shelf, "base", checked, &[1, 2, 3], 2) else {
        return Err(Fail::from("no answer"));
    };
    assert!(rt; answer.pairs().is_empty());
    Ok(())
}

/// So many rows of one component, 1 to 200 in turn, but 0 in the last row and in row 7.
fn long_base(rt: &HostRuntime, rows: u32) -> Result<Vec<u8>, AllocError> {
    let mut bytes = Vec::new(rt.alloc());
    for row in 0..rows {
        let component = if row == 7 || row == rows - 1 {
            0
        } else {
            1 + (row % 200) as u8
        };
        bytes.extend_from_slice(&[1, 0, 0, 0, component])?;
    }
    Ok(bytes)
}

#[test]
fn the_nearest_of_several_stretches_are_found(rt: HostRuntime) -> Result<(), Fail> {
    let mut shelf = MemoryShelf::new(rt.alloc());
    let bytes = long_base(&rt, 30_000)?;
    assert_eq!(rt; shelf.add("base", &bytes), Ok(()));
    let checked = Checked { d: 1, rows: 30_000 };
    let Ok(answer) = exact(rt.alloc(), &mut shelf, "base", checked, &[0], 4) else {
        return Err(Fail::from("no answer"));
    };
    let want = [pair(0, 7), pair(0, 29_999), pair(1, 0), pair(1, 200)];
    assert_eq!(rt; answer.pairs(), want.as_slice());
    Ok(())
}

#[test]
fn exact_distances_order_the_chosen_rows(rt: HostRuntime) -> Result<(), Fail> {
    let mut shelf = MemoryShelf::new(rt.alloc());
    assert_eq!(rt; shelf.add("base", &TWO_ROWS), Ok(()));
    for (k, want) in [
        (1, [pair(1, 1)].as_slice()),
        (2, [pair(1, 1), pair(49, 0)].as_slice()),
        (9, [pair(1, 1), pair(49, 0), pair(49, 0)].as_slice()),
    ] {
        let ids = [0, 1, 0];
        assert!(rt; are_below(&ids, TWO.rows));
        let Ok(answer) = rerank(rt.alloc(), &mut shelf, "base", TWO, &[0; 4], &ids, k) else {
            return Err(Fail::from("no answer"));
        };
        assert_eq!(rt; answer.pairs(), want);
    }
    Ok(())
}

#[test]
fn no_ids_answer_nothing(rt: HostRuntime) -> Result<(), Fail> {
    let mut shelf = MemoryShelf::new(rt.alloc());
    assert_eq!(rt; shelf.add("base", &TWO_ROWS), Ok(()));
    assert!(rt; are_below(&[], TWO.rows));
    let Ok(answer) = rerank(rt.alloc(), &mut shelf, "base", TWO, &[0; 4], &[], 3) else {
        return Err(Fail::from("no answer"));
    };
    assert!(rt; answer.pairs().is_empty());
    Ok(())
}

#[test]
fn a_hit_stands_among_the_first_k(rt: HostRuntime) {
    for (found, truth, k, want) in [
        ([0].as_slice(), [1].as_slice(), 1, false),
        ([1].as_slice(), [1].as_slice(), 1, true),
        ([5, 1].as_slice(), [1, 5].as_slice(), 1, false),
        ([5, 1].as_slice(), [1, 5].as_slice(), 2, true),
        ([5, 1].as_slice(), [1].as_slice(), 1000, true),
        ([-1].as_slice(), [-1].as_slice(), 1, false),
        ([-1].as_slice(), [].as_slice(), 1, false),
        ([].as_slice(), [0].as_slice(), 1, false),
        (
            [2_147_483_647].as_slice(),
            [2_147_483_647].as_slice(),
            1,
            true,
        ),
    ] {
        assert_eq!(rt; hit(found, truth, k), want);
    }
}

#[test]
fn a_row_that_is_no_longer_there_is_refused_at_its_first_byte(rt: HostRuntime) {
    let mut other_header = BASE;
    other_header[16] = 5;
    for (bytes, at) in [
        (&BASE[..31], 24),
        (&BASE[..17], 16),
        (&BASE[..0], 0),
        (other_header.as_slice(), 16),
    ] {
        let mut shelf = MemoryShelf::new(rt.alloc());
        assert_eq!(rt; shelf.add("base", bytes), Ok(()));
        let missing = Some(VecError::Malformed { at });
        let nearest = exact(rt.alloc(), &mut shelf, "base", FOUR, &[0; 4], 2);
        assert_eq!(rt; nearest.err(), missing);
        let ids = [0, 2, 3, 1];
        assert!(rt; are_below(&ids, FOUR.rows));
        let chosen = rerank(rt.alloc(), &mut shelf, "base", FOUR, &[0; 4], &ids, 2);
        assert_eq!(rt; chosen.err(), missing);
    }
}

#[test]
fn each_read_fails_in_turn(rt: HostRuntime) {
    for call in 1..4 {
        let mut shelf = MemoryShelf::new(rt.alloc());
        assert_eq!(rt; shelf.add("base", &TWO_ROWS), Ok(()));
        assert_eq!(rt; shelf.fail(call, 0), Ok(()));
        let nearest = exact(rt.alloc(), &mut shelf, "base", TWO, &[0; 4], 1);
        let ids = [1, 0];
        assert!(rt; are_below(&ids, TWO.rows));
        let chosen = rerank(rt.alloc(), &mut shelf, "base", TWO, &[0; 4], &ids, 1);
        let fault = Some(VecError::ReadFault);
        assert_eq!(rt; nearest.err(), if call == 1 { fault } else { None });
        assert_eq!(rt; chosen.err(), if call > 1 { fault } else { None });
        assert_eq!(rt; shelf.faults(), (1, 0));
    }
}
