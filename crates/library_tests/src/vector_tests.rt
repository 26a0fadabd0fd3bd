//! Worked files and rows, each fault in turn, and how many calls a check makes.
ghost use Rattle.std.specs.Prelude.{None};

use adc_ports::{Halt, MemoryShelf, Shelf, SizedShelf, SteadyShelf, What};
use std::alloc::AllocError;
use vec_files::*;

/// Four rows of four components.
const BASE: [u8; 32] = [
    4, 0, 0, 0, 0, 0, 0, 0, 4, 0, 0, 0, 130, 120, 10, 0, 4, 0, 0, 0, 64, 64, 64, 64, 4, 0, 0, 0, 0,
    0, 128, 128,
];

#[test]
fn a_file_of_rows_is_good(rt: HostRuntime) {
    let mut shelf = MemoryShelf::new(rt.alloc());
    let mut row = [0u8; 4];
    assert_eq!(rt; shelf.add("base", &BASE), Ok(()));
    assert_eq!(rt;
        check_bvecs(&mut shelf, "base", None),
        Ok(Checked { d: 4, rows: 4 })
    );
    let checked = Checked { d: 4, rows: 4 };
    assert_eq!(rt; check_bvecs(&mut shelf, "base", Some(4)), Ok(checked));
    assert_eq!(rt; read_row(&mut shelf, "base", checked, 1, &mut row), Ok(()));
    assert!(rt; row == [130, 120, 10, 0]);
    assert_eq!(rt; read_row(&mut shelf, "base", checked, 3, &mut row), Ok(()));
    assert!(rt; row == [0, 0, 128, 128]);
}

#[test]
fn some_rows_are_read_behind_their_headers(rt: HostRuntime) {
    let mut shelf = MemoryShelf::new(rt.alloc());
    let checked = Checked { d: 4, rows: 4 };
    let mut two = [0u8; 16];
    let mut three = [0u8; 24];
    assert_eq!(rt; shelf.add("base", &BASE), Ok(()));
    assert_eq!(rt;
        read_rows(&mut shelf, "base", checked, 1, 2, &mut two),
        Ok(())
    );
    assert!(rt; two.as_slice() == &BASE[8..24]);
    assert_eq!(rt; shelf.add("base", &BASE[..20]), Ok(()));
    assert_eq!(rt;
        read_rows(&mut shelf, "base", checked, 0, 3, &mut three),
        Err(VecError::Malformed { at: 16 })
    );
}

#[test]
fn an_empty_file_is_good(rt: HostRuntime) {
    let mut shelf = MemoryShelf::new(rt.alloc());
    assert_eq!(rt; shelf.add("base", b""), Ok(()));
    assert_eq!(rt;
        check_bvecs(&mut shelf, "base", None),
        Ok(Checked { d: 0, rows: 0 })
    );
    assert_eq!(rt;
        check_bvecs(&mut shelf, "base", Some(4)),
        Ok(Checked { d: 4, rows: 0 })
    );
    assert_eq!(rt;
        check_ivecs(&mut shelf, "base"),
        Ok(Checked { d: 0, rows: 0 })
    );
    assert_eq!(rt;
        check_bvecs(&mut shelf, "queries", None),
        Err(VecError::Missing)
    );
}

#[test]
fn a_file_is_refused_at_its_first_faulty_field(rt: HostRuntime) {
    let malformed = |at: u64| Err(VecError::Malformed { at });
    for (bytes, want) in [
        ([4, 0].as_slice(), malformed(0)),
        ([4, 0, 0, 0, 0x82, 0x78].as_slice(), malformed(6)),
        (
            [4, 0, 0, 0, 1, 2, 3, 4, 5, 0, 0, 0].as_slice(),
            malformed(8),
        ),
        ([0, 0, 0, 0].as_slice(), malformed(0)),
        ([3, 0, 0, 0, 1, 2, 3].as_slice(), malformed(0)),
    ] {
        let mut shelf = MemoryShelf::new(rt.alloc());
        assert_eq!(rt; shelf.add("base", bytes), Ok(()));
        assert_eq!(rt; check_bvecs(&mut shelf, "base", Some(4)), want);
    }
}

#[test]
fn a_length_above_the_limit_is_told(rt: HostRuntime) {
    let mut shelf = MemoryShelf::new(rt.alloc());
    let limit = VecError::Limit {
        what: What::D,
        value: 1025,
    };
    assert_eq!(rt; shelf.add("base", &[1, 4, 0, 0]), Ok(()));
    assert_eq!(rt; check_bvecs(&mut shelf, "base", Some(4)), Err(limit));
    assert_eq!(rt; check_ivecs(&mut shelf, "base"), Err(limit));
}

#[test]
fn signed_rows_are_read(rt: HostRuntime) {
    let mut shelf = MemoryShelf::new(rt.alloc());
    let checked = Checked { d: 2, rows: 1 };
    let mut row = [7i32; 2];
    let bytes = [2, 0, 0, 0, 0, 0, 0, 0, 255, 255, 255, 255];
    assert_eq!(rt; shelf.add("found", &bytes), Ok(()));
    assert_eq!(rt; check_ivecs(&mut shelf, "found"), Ok(checked));
    assert_eq!(rt;
        read_ivecs_row(&mut shelf, "found", checked, 0, &mut row),
        Ok(())
    );
    assert!(rt; row == [0, -1]);
    assert_eq!(rt; shelf.add("found", &bytes[..10]), Ok(()));
    let malformed = |at: u64| VecError::Malformed { at };
    assert_eq!(rt; check_ivecs(&mut shelf, "found"), Err(malformed(8)));
    assert_eq!(rt;
        read_ivecs_row(&mut shelf, "found", checked, 0, &mut row),
        Err(malformed(0))
    );
}

#[test]
fn signed_rows_are_written(rt: HostRuntime) {
    let mut shelf = MemoryShelf::new(rt.alloc());
    assert_eq!(rt; shelf.fail(3, 5), Ok(()));
    assert_eq!(rt; shelf.begin("found"), Ok(()));
    assert_eq!(rt; write_ivecs_row(&mut shelf, "found", &[3, -1]), Ok(()));
    assert_eq!(rt;
        write_ivecs_row(&mut shelf, "found", &[9]),
        Err(WriteError::WriteFault)
    );
    let written = [2, 0, 0, 0, 3, 0, 0, 0, 255, 255, 255, 255, 1, 0, 0, 0, 9];
    assert!(rt; shelf.file("found") == Some(written.as_slice()));
    assert_eq!(rt; shelf.faults(), (0, 1));
}

#[test]
fn a_row_that_is_no_longer_there_is_refused_at_its_first_byte(rt: HostRuntime) {
    let mut shelf = MemoryShelf::new(rt.alloc());
    let checked = Checked { d: 4, rows: 4 };
    let mut row = [0u8; 4];
    let malformed = |at: u64| Err(VecError::Malformed { at });
    assert_eq!(rt; shelf.add("base", &BASE[..15]), Ok(()));
    assert_eq!(rt;
        read_row(&mut shelf, "base", checked, 1, &mut row),
        malformed(8)
    );
    assert_eq!(rt; shelf.add("base", &[5, 0, 0, 0, 1, 2, 3, 4, 5]), Ok(()));
    assert_eq!(rt;
        read_row(&mut shelf, "base", checked, 0, &mut row),
        malformed(0)
    );
}

#[test]
fn each_read_fails_in_turn(rt: HostRuntime) {
    for call in 1..4 {
        let mut shelf = MemoryShelf::new(rt.alloc());
        let checked = Checked { d: 4, rows: 4 };
        let mut row = [0u8; 4];
        assert_eq!(rt; shelf.add("base", &BASE), Ok(()));
        assert_eq!(rt; shelf.fail(call, 0), Ok(()));
        let found = check_bvecs(&mut shelf, "base", Some(4));
        let read = read_row(&mut shelf, "base", checked, 2, &mut row);
        assert_eq!(rt;
            found,
            if call < 3 {
                Err(VecError::ReadFault)
            } else {
                Ok(checked)
            }
        );
        assert_eq!(rt;
            read,
            if call < 3 {
                Ok(())
            } else {
                Err(VecError::ReadFault)
            }
        );
        assert_eq!(rt; shelf.faults(), (1, 0));
    }
}

#[test]
fn a_thousand_rows_take_at_most_twenty_calls(rt: HostRuntime) -> Result<(), AllocError> {
    let mut bytes = Vec::new(rt.alloc());
    for _ in 0..1000 {
        bytes.extend_from_slice(&[128, 0, 0, 0])?;
        bytes.extend_from_slice(&[7; 128])?;
    }
    let mut shelf = MemoryShelf::new(rt.alloc());
    assert_eq!(rt; shelf.add("base", &bytes), Ok(()));
    assert_eq!(rt; shelf.fail(21, 0), Ok(()));
    let checked = Checked { d: 128, rows: 1000 };
    assert_eq!(rt; check_bvecs(&mut shelf, "base", None), Ok(checked));
    Ok(())
}

#[test]
fn a_file_is_too_long_by_its_size_alone(rt: HostRuntime) -> Result<(), AllocError> {
    let name = String::from_str(rt.alloc(), "base")?;
    let mut shelf = SizedShelf::new(SteadyShelf::new(rt.alloc()), name, 2_147_483_649);
    let limit = VecError::Limit {
        what: What::Bytes,
        value: 2_147_483_649,
    };
    assert_eq!(rt; check_bvecs(&mut shelf, "base", None), Err(limit));
    assert_eq!(rt; check_ivecs(&mut shelf, "base"), Err(limit));
    Ok(())
}

#[test]
fn a_fetch_that_comes_short_ends_the_file(rt: HostRuntime) -> Result<(), AllocError> {
    for (kept, want) in [
        (32, Ok(Checked { d: 4, rows: 4 })),
        (30, Err(VecError::Malformed { at: 30 })),
    ] {
        let mut inner = SteadyShelf::new(rt.alloc());
        assert_eq!(rt; inner.add("base", &BASE[..kept]), Ok(()));
        let name = String::from_str(rt.alloc(), "base")?;
        let mut shelf = SizedShelf::new(inner, name, 1000);
        assert_eq!(rt; check_bvecs(&mut shelf, "base", None), want);
    }
    Ok(())
}

/// Answers 4,194,305 rows of one component, and keeps none of them.
#[derive(Clone, Copy)]
struct ManyRows;

impl Shelf for ManyRows {
    ghost state = { λ _. record { files = None; read_faults = 0; write_faults = 0 } };

    fn size(&mut self, _name: &str) -> Result<Option<u64>, Halt> {
        Ok(Some(20_971_525))
    }

    fn fetch(&mut self, _name: &str, at: u64, into: &mut [u8]) -> Result<usize, Halt> {
        let first = at % 5;
        for (i, byte) in into.iter_mut().enumerate() {
            *byte = if (first + i as u64 % 5) % 5 == 0 {
                1
            } else {
                0
            };
        }
        Ok(into.len())
    }

    fn begin(&mut self, _name: &str) -> Result<(), Halt> {
        Ok(())
    }

    fn append(&mut self, _name: &str, _bytes: &[u8]) -> Result<(), Halt> {
        Ok(())
    }
}

#[test]
fn one_row_too_many_is_told(rt: HostRuntime) {
    let limit = VecError::Limit {
        what: What::Rows,
        value: 4_194_305,
    };
    assert_eq!(rt; check_bvecs(&mut ManyRows, "base", None), Err(limit));
}
