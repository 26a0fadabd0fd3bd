//! Tests of the program by its words, over shelves and sinks in memory.
#![tactic(auto)]

#[cfg(test)]
mod allow_tests;
#[cfg(test)]
mod exact_tests;
#[cfg(test)]
mod file_tests;
#[cfg(test)]
mod index_tests;
#[cfg(test)]
mod play_tests;
#[cfg(test)]
mod radius_tests;
#[cfg(test)]
mod recall_tests;
#[cfg(test)]
mod rerank_tests;
#[cfg(test)]
mod residual_tests;
#[cfg(test)]
mod runs;
#[cfg(test)]
mod sample_tests;
#[cfg(test)]
mod search_tests;
#[cfg(test)]
mod session_tests;
