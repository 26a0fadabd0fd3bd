//! The limits that crates share. The clauses and definitions of the crates above cite them by these names.

/// The greatest id of a row.
pub const MAX_ID: u32 = 2_147_483_647;

/// The most rows of a file of vectors, and of an engine.
pub const MAX_ROWS: u32 = 4_194_304;

/// The most components of a vector.
pub const MAX_D: u32 = 1024;

/// The most rows that a query answers.
pub const MAX_K: u32 = 1000;

/// The most rows that a query asks its visit to hold.
pub const MAX_WANTED: u32 = 4_194_304;

/// The greatest squared distance of two vectors of bytes: 1024 times 255 squared.
pub const MAX_DISTANCE: u64 = 66_585_600;
