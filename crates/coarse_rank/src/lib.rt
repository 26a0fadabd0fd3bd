//! The coarse words of both parts, ranked by their distance to a query, and the count of the sums that are read of them.
#![tactic(auto)]

mod meter;
mod ranks;

pub use meter::PairMeter;
pub use ranks::Ranks;
