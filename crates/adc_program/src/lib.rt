//! The program: what its words ask for, over a shelf and a sink.
#![tactic(auto)]

mod adding;
mod allows;
mod builds;
mod coded;
mod exacts;
mod files;
mod halts;
mod infos;
pub mod laws;
mod lines;
mod opened;
mod performing;
mod play;
mod played;
mod player;
mod radii;
mod recalls;
mod reranks;
mod residual;
mod residual_files;
mod rowing;
mod running;
mod samples;
mod searcher;
mod searches;
mod session_files;
mod session_player;
mod stepping;

pub use adc_inputs::{InputError, Status, Stop};
pub use running::run;

/// The most live rows.
pub(crate) const MAX_LIVE: u32 = 4_194_304;
