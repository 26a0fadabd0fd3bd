//! Why bytes are no book.

ghost use Rattle.std.specs.Prelude.{◌≡◌};
ghost use Rattle.codebook_core.specs.declared.error.BookError.TheVariants.{Memory};

use adc_ports::What;
use std::alloc::{AllocError, AllocFailed};

/// Why bytes are no book.
#[derive(Debug, Clone, Copy, PartialEq, Eq)]
pub enum BookError {
    /// The first faulty field begins there: it is cut, missing or not allowed, or a byte stands where the book has ended.
    Malformed { at: u64 },
    /// The first faulty field has a value above a limit, or the file has too many bytes.
    Limit { what: What, value: u64 },
    /// Memory ran out.
    Memory,
}

impl From<AllocError> for BookError {
    ghost from_gives = { λ _ e. e ≡ Memory };

    fn from(_e: AllocError) -> BookError {
        BookError::Memory
    }
}

impl<T: Drop> From<AllocFailed<T>> for BookError {
    ghost from_gives = { λ _ e. e ≡ Memory };

    fn from(_e: AllocFailed<T>) -> BookError {
        BookError::Memory
    }
}
