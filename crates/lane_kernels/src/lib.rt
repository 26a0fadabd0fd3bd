//! Sums of table entries for 32 codes at a time.
//!
//! A code of g words picks one entry of a small table for each of its `g * FIELDS` fields, and its sum stops at 255.
//! `sum32` gives the sums of 32 codes, a lane each: a table's entries lie in parts of 16, a field's low four bits select
//! within each part by one shuffle of bytes, its higher bits select between parts, and saturating sums of bytes are capped
//! sums, since `min 255 (min 255 a + b)` is `min 255 (a + b)`. The tables in parts follow the split tables of Quicker ADC
//! (André, Kermarrec and Le Scouarnec, TPAMI 2021).
//!
//! Entries are private: only `select32` and `sum32` read them, and each call adds one to the meter that it is given.
//!
//! Nanoseconds a code, the least of 9 runs in one run of `bench/run_lanes`, blocks in cache, on a shared Intel Xeon of 4
//! processors; `kernel` is written by hand with vector instructions in C++ and `plain` is the plain loop over the tables
//! (both by g++ 12.2 -O3), all three built for the same instruction set:
//!
//! | shape | g | v2 proved | v2 kernel | v2 plain | v3 proved | v3 kernel | v3 plain |
//! |---|---|---|---|---|---|---|---|
//! | 4-4-4-4 | 1 | 0.13 | 0.17 | 2.95 | 0.09 | 0.11 | 2.36 |
//! | 4-4-4-4 | 4 | 0.52 | 0.55 | 8.60 | 0.34 | 0.32 | 7.31 |
//! | 4-4-4-4 | 8 | 0.98 | 1.09 | 13.72 | 0.73 | 0.94 | 24.37 |
//! | 4-4-4-4 | 16 | 2.70 | 2.19 | 33.45 | 1.23 | 1.25 | 46.45 |
//! | 5-5-5 | 1 | 0.24 | 0.23 | 2.30 | 0.19 | 0.16 | 2.45 |
//! | 5-5-5 | 4 | 0.85 | 0.86 | 6.06 | 0.72 | 0.73 | 10.41 |
//! | 5-5-5 | 8 | 1.58 | 1.60 | 12.11 | 1.00 | 1.02 | 11.06 |
//! | 5-5-5 | 16 | 3.12 | 3.19 | 21.66 | 1.85 | 1.96 | 20.51 |
//! | 6-6-4 | 1 | 0.26 | 0.28 | 2.13 | 0.18 | 0.21 | 2.19 |
//! | 6-6-4 | 4 | 1.34 | 1.12 | 6.15 | 0.68 | 0.74 | 5.90 |
//! | 6-6-4 | 8 | 1.88 | 1.99 | 11.09 | 1.49 | 1.52 | 11.78 |
//! | 6-6-4 | 16 | 3.90 | 3.70 | 22.05 | 2.90 | 2.89 | 22.69 |
//! | 8-8 | 1 | 0.58 | 0.63 | 1.53 | 0.55 | 0.58 | 2.06 |
//! | 8-8 | 4 | 2.27 | 2.24 | 3.60 | 2.00 | 1.99 | 3.90 |
//! | 8-8 | 8 | 4.57 | 4.67 | 6.43 | 3.91 | 3.90 | 7.23 |
//! | 8-8 | 16 | 8.98 | 8.62 | 11.68 | 7.92 | 7.98 | 13.15 |
//!
//! At 8-8 a lane at a time, in Rattle, was measured at 1.3, 3.0, 4.5 and 7.8 for v2 and 1.7, 3.1, 5.0 and 7.3 for v3: slower
//! up to g 8, a little faster at 16. So one body serves the four shapes.
#![tactic(auto)]

mod meter;
mod parts;
mod sums;
mod table;

pub use meter::LaneMeter;
pub use sums::{code_sums_go_by_places, sum32};
pub use table::{SplitTable, select32};
