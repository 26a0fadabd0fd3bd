//! What a query reports.

/// How many cells and rows a query visited, and how many of these rows needed a full distance.
#[derive(Debug, Clone, Copy, PartialEq, Eq)]
pub struct Report {
    pub cells: u32,
    pub live: u32,
    pub full: u32,
}
