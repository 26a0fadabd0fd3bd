//! Tests of the engines: queries, sessions, queries by radius and residual codes.
#![tactic(auto)]

#[cfg(test)]
mod books;
#[cfg(test)]
mod query_tests;
#[cfg(test)]
mod radius_chance_tests;
#[cfg(test)]
mod radius_tests;
#[cfg(test)]
mod residual_tests;
#[cfg(test)]
mod session_tests;
