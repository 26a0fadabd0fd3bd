//! Exact search over a bvecs file, reranking by exact distances, and recall.
#![tactic(auto)]

mod answer;
mod chosen;
mod flat;
mod pairs;
mod recall;

pub use answer::Exact;
pub use chosen::rerank;
pub use flat::exact;
pub use recall::hit;

/// A base row and its squared distance from a query, ordered by the distance, then the row.
#[derive(Debug, Clone, Copy, PartialEq, Eq, PartialOrd, Ord)]
pub struct TruePair {
    pub distance: u64,
    pub row: u32,
}
