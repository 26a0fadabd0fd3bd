//! The versions of index files.

/// How the rows of an index are spelled.
#[derive(Clone, Copy)]
pub(crate) enum Version {
    /// Each with its cell.
    One,
    /// Grouped by cell.
    Two,
}
