//! Residual codes: an engine whose rows are coded by what is left of them in their cell, and its queries.
#![tactic(auto)]

mod caching;
mod cell;
mod codes;
mod cutting;
mod engine;
mod group;
mod halved;
mod keeping;
pub mod laws;
mod nearest;
mod scratch;
mod searching;

pub use engine::ResidualEngine;
pub use half_tables::{NotResidual, check};
pub use scratch::ResidualScratch;
