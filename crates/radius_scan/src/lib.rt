//! Queries by radius: all visited rows within a squared distance.
//!
//! A query visits cells as a query of the k least does, and answers each visited row whose table distance is at most r. The
//! threshold of r does not change on the way, so no row waits for another: a block of 32 codes takes one call over lanes, and
//! only rows whose bound is not above the threshold take their full distance. If r is below the sum of the bases no row lies
//! within it: then the rows are counted, and no block is read.
#![tactic(auto)]

mod block;
mod query;
mod scratch;
mod visiting;
mod within;

pub use query::radius;
pub use scratch::RadiusScratch;
