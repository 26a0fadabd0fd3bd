//! Tests of what a query computes before it reads its answer: distances, ranks, the walk, tables and the pruned scan.
#![tactic(auto)]

#[cfg(test)]
mod assign_tests;
#[cfg(test)]
mod column_tests;
#[cfg(test)]
mod full_tests;
#[cfg(test)]
mod half_tests;
#[cfg(test)]
mod lane_tests;
#[cfg(test)]
mod rank_books;
#[cfg(test)]
mod rank_tests;
#[cfg(test)]
mod scan_chance_tests;
#[cfg(test)]
mod scan_questions;
#[cfg(test)]
mod scan_tests;
#[cfg(test)]
mod walk_tests;
