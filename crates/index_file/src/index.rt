//! What an index file holds, and why it was refused.

use adc_ports::{Halt, What};
use cell_store::CellStore;
use codebook_core::{BookError, Codebook};
use shape_core::{Fields, Shape};
use std::alloc::AllocError;

/// What an index file holds: a book, and a store of its rows.
#[derive(Drop)]
pub struct Index<S: Shape> {
    pub book: Codebook<S>,
    pub store: CellStore<S>,
}

/// An index of one of the four shapes.
#[derive(Drop)]
pub enum AnyIndex {
    /// Four fields of 4 bits.
    F4444(Index<Fields<4, 4, 4, 4>>),
    /// Three fields of 5 bits.
    F555(Index<Fields<5, 5, 5, 0>>),
    /// Two fields of 6 bits and one of 4.
    F664(Index<Fields<6, 6, 4, 0>>),
    /// Two fields of 8 bits.
    F88(Index<Fields<8, 8, 0, 0>>),
}

/// Why an index was not read.
#[derive(Debug, Clone, Copy, PartialEq, Eq)]
pub enum IndexError {
    /// There is no file of this name.
    Missing,
    /// The field whose first byte is at this offset is cut, missing or not allowed, or a byte stands where the index has ended.
    Malformed { at: u64 },
    /// The length of the file in bytes, that of its book, a number of the book, the number of rows or an id is above its limit.
    Limit { what: What, value: u64 },
    /// A read of the shelf failed, and its count of read faults rose.
    ReadFault,
    /// Memory ran out.
    Memory,
}

impl From<Halt> for IndexError {
    ghost use Rattle.std.specs.Prelude.{◌≡◌};
    ghost use Rattle.index_file.specs.Stops.{stops_reading};

    ghost from_gives = { λ halt e. e ≡ stops_reading halt };

    fn from(halt: Halt) -> IndexError {
        match halt {
            Halt::Failed => IndexError::ReadFault,
            Halt::Memory => IndexError::Memory,
        }
    }
}

impl From<BookError> for IndexError {
    ghost use Rattle.std.specs.Prelude.{◌≡◌};
    ghost use Rattle.index_file.specs.Stops.{of_book};

    ghost from_gives = { λ error e. e ≡ of_book error };

    fn from(error: BookError) -> IndexError {
        match error {
            BookError::Malformed { at } => IndexError::Malformed { at },
            BookError::Limit { what, value } => IndexError::Limit { what, value },
            BookError::Memory => IndexError::Memory,
        }
    }
}

impl From<AllocError> for IndexError {
    ghost use Rattle.std.specs.Prelude.{◌≡◌};
    ghost use Rattle.index_file.specs.declared.index.IndexError.TheVariants.{Memory};

    ghost from_gives = { λ _ e. e ≡ Memory };

    fn from(_e: AllocError) -> IndexError {
        IndexError::Memory
    }
}
