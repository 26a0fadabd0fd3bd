//! The pruned scan: which rows of a cell get their full distance, and which are left out by their bound.
#![tactic(auto)]

mod block;
mod cell;
mod masks;
mod meters;
mod state;

pub use block::distance_of;
pub use cell::{marks_of, scan_cell};
pub use masks::{count_below, first_lanes, lanes_up_to, next_lane};
pub use meters::Meters;
pub use state::ScanState;
