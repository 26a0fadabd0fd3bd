//! Tests of the definitions, the ports, files, books, indexes, scripts and the exact search, over what their crates offer.
#![tactic(auto)]

#[cfg(test)]
mod book_tests;
#[cfg(test)]
mod index_tests;
#[cfg(test)]
mod model_tests;
#[cfg(test)]
mod port_tests;
#[cfg(test)]
mod script_tests;
#[cfg(test)]
mod shape_tests;
#[cfg(test)]
mod truth_tests;
#[cfg(test)]
mod vector_tests;
