//! Tests of the store of rows and of what stands below it: filters on ids, the best list and blocks of codes.
#![tactic(auto)]

#[cfg(test)]
mod best_tests;
#[cfg(test)]
mod block_tests;
#[cfg(test)]
mod cell_tests;
#[cfg(test)]
mod filter_tests;
