//! What a run is given: the job that its words ask for, and its input files, each checked whole.
#![tactic(auto)]

mod allows;
mod indexes;
mod inputs;
mod job;
mod numbers;
mod rows;
mod session_inputs;
mod stop;
mod vectors;
mod words;

pub use allows::read_allowed;
pub use indexes::read_index;
pub use inputs::{book_of, check_rows, read_book, read_script};
pub use job::{
    AllowedJob, BuildJob, ExactJob, Job, PlayJob, RadiusJob, RecallJob, RerankJob, ResidualJob,
    SampleJob, SearchJob, UpgradeJob,
};
pub use numbers::{check_numbers, fetch_numbers};
pub use rows::{Rows, fetch_row};
pub use session_inputs::read_sessions;
pub use stop::{InputError, Status, Stop, of_rows};
pub use vectors::check_vectors;
pub use words::job_of;
