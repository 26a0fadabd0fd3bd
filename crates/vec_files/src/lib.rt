//! Vector files: checks and rows of bvecs and ivecs files, the formats of the TEXMEX corpus, read by stretches.
#![tactic(auto)]

ghost use Rattle.std.specs.Prelude.{◌≡◌};

mod check;
mod laws;
mod numbers;
mod progress;
mod rows;
mod some_rows;

use adc_ports::{Halt, What};
pub use check::{check_bvecs, check_ivecs};
pub use laws::{bvecs_laws, ivecs_laws};
pub use rows::{read_ivecs_row, read_row, write_ivecs_row};
pub use some_rows::read_rows;

/// The most bytes that a vector file may have.
pub const MAX_BYTES: u64 = 2_147_483_648;

/// The most rows that a vector file may have.
pub const MAX_ROWS: u32 = 4_194_304;

/// The greatest length of a row.
pub const MAX_D: u32 = 1024;

/// What a check of a vector file found: the length d of its rows, and how many there are.
#[derive(Debug, Clone, Copy, PartialEq, Eq)]
pub struct Checked {
    pub d: u32,
    pub rows: u32,
}

/// Why a vector file, or a row of it, was refused.
#[derive(Debug, Clone, Copy, PartialEq, Eq)]
pub enum VecError {
    /// There is no file of this name.
    Missing,
    /// The field whose first byte is at this offset is cut, missing or not allowed.
    Malformed { at: u64 },
    /// The length of the file in bytes, the length of a row or the number of rows is above its limit.
    Limit { what: What, value: u64 },
    /// A read of the shelf failed, and its count of read faults rose.
    ReadFault,
    /// The shelf's own call was out of memory. The calls of this crate take none.
    Memory,
}

/// Why a row was not written. The first few bytes of it were, or none.
#[derive(Debug, Clone, Copy, PartialEq, Eq)]
pub enum WriteError {
    /// A write of the shelf failed, and its count of write faults rose.
    WriteFault,
    /// The shelf's own call was out of memory.
    Memory,
}

impl From<Halt> for VecError {
    ghost use Rattle.vec_files.specs.Halts.{stops_reading};

    ghost from_gives = { λ halt e. e ≡ stops_reading halt };

    fn from(halt: Halt) -> VecError {
        match halt {
            Halt::Failed => VecError::ReadFault,
            Halt::Memory => VecError::Memory,
        }
    }
}

impl From<Halt> for WriteError {
    ghost use Rattle.vec_files.specs.Halts.{stops_writing};

    ghost from_gives = { λ halt e. e ≡ stops_writing halt };

    fn from(halt: Halt) -> WriteError {
        match halt {
            Halt::Failed => WriteError::WriteFault,
            Halt::Memory => WriteError::Memory,
        }
    }
}
