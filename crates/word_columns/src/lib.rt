//! Squared distances of a list of bytes to all words of a list at once.
//!
//! The words are kept in blocks of 16, pair of components by pair of components, so that a lane has a word: no transposing and no sum
//! across lanes. A distance is `|x|^2 + |w|^2 - 2 x w`: the squares of the words are kept, and the products are sums of pairs of
//! 16-bit products, for which processors have an instruction. It takes signed numbers, so a component is kept with its top bit
//! turned, and counts 32768 less: the sums wrap, and are mended by 32768 times the sum of x.
#![tactic(auto)]

mod blocks;
mod building;
mod least;
mod products;
mod rests;
mod vectors;
mod words;

pub use words::WordColumns;
