//! Queries that go step by step over the rows at a pinned stamp.
#![tactic(auto)]

mod session;

pub use session::{Room, Session};

/// Whether cells of a session's visit remain.
#[derive(Debug, Clone, Copy, PartialEq, Eq)]
pub enum Step {
    More,
    Ended,
}
