//! The best list of a query: the k least of the pairs of a distance and an id that it was offered.
#![tactic(auto)]

mod best;

pub use best::Best;

/// An answer: a squared distance and the id of a row, ordered by the distance, then the id.
#[derive(Debug, Clone, Copy, PartialEq, Eq, PartialOrd, Ord)]
pub struct Pair {
    pub distance: u64,
    pub id: u32,
}
