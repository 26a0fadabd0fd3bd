//! The tables of one half of a residual query, and the meters of their work.
//!
//! A cell's center is a coarse word of each part. Each sub-quantizer of a residual book lies in one part, so the distances of
//! its residuals depend on one coarse word alone: the tables of a cell are those of its two halves, one after the other.
#![tactic(auto)]

mod checking;
mod distance;
mod entries;
pub mod laws;
mod meters;
mod table;

pub use checking::{NotResidual, check};
pub use distance::residual_dist;
pub use meters::{HalfFullMeter, HalfMeter};
pub use table::{HalfTable, pair_distance};
