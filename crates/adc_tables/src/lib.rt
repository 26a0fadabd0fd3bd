//! Tables of the distances of a query, and small tables of eight-bit bounds that are made of them.
//!
//! A full table has the squared distance of the query's stretch to each word of a sub-quantizer: asymmetric distance
//! computation (Jégou, Douze and Schmid, TPAMI 2011). A small table has the same distances above the least one, counted in
//! steps and cut to a byte, after Quick ADC (André, Kermarrec and Le Scouarnec, ICMR 2017) in outline: sums of small entries
//! are bounds of distances, so a code whose bound is above the threshold lies farther than the k-th least distance.
#![tactic(auto)]

mod entries;
mod full;
mod meter;
mod small;
mod steps;

pub use entries::{least_of, picked_words, size_of_table};
pub use full::FullTables;
pub use meter::FullMeter;
pub use small::{SmallTables, fill_in_steps, zero_parts};
pub use steps::Steps;
