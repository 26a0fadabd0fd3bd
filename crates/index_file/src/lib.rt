//! Index files: a codebook with coded rows, cell by cell.
//!
//! A file of version 1 spells each row with its cell, by cells that do not fall; one of version 2 groups the rows of a
//! cell, as the inverted lists of an inverted multi-index lie. Both versions are read, and version 2 is written.
#![tactic(auto)]

mod ahead;
mod fields;
mod front;
mod index;
mod laws;
mod pieces;
mod reading;
mod rows;
mod sizes;
mod version;
mod writing;

pub use index::{AnyIndex, Index, IndexError};
pub use laws::{finds_same_by_cell, index_laws};
pub use reading::decode;
pub use writing::write;

/// The most bytes that an index file may have.
const MAX_BYTES: u64 = 2_147_483_648;

/// The most bytes that the book of an index may have.
const MAX_BOOK: u32 = 4_194_304;

/// The most bytes that are fetched or appended at once.
const STRETCH: usize = 8192;
