//! The command of a job.
ghost use Rattle.std.specs.Prelude.{◌^◌, OnOk};
ghost use Rattle.std.specs.Option.{ForSome};
ghost use Rattle.adc_inputs.specs.Words.{out_of};
ghost use Rattle.adc_inputs.specs.Jobs.{job_seen};
ghost use Rattle.adc_program.specs.Verdict.{output_of, residuals_of};
ghost use Rattle.adc_program.specs.Played.{AreUpTo};
ghost use Rattle.adc_program.specs.Residuals.{ResidualWorks, metered_of_residual};
ghost use Rattle.adc_program.specs.Steps.{Makes, counts_wanted};
ghost use Rattle.adc_program.specs.Work.{Works, AreEarly};

use crate::allows::search_allowed;
use crate::builds::{build, upgrade};
use crate::exacts::write_exact;
use crate::files::play_files;
use crate::halts::Halted;
use crate::infos::print_info;
use crate::radii::print_radius;
use crate::recalls::print_recall;
use crate::reranks::write_reranked;
use crate::residual_files::play_residual;
use crate::samples::print_sample;
use crate::searches::search;
use crate::session_files::play_session_files;
use adc_inputs::Job;
use adc_ports::{Shelf, Sink};
use query_engine::Meters;
use std::alloc::Global;

/// Does what a job asks for.
pub(crate) fn perform<H: Shelf, K: Sink>(
    alloc: Global,
    job: &Job<'_>,
    shelf: &mut H,
    out: &mut K,
    meters: &mut Meters,
    residual: &mut Meters,
) -> Result<(), Halted>
    requires meters { AreEarly meters.old }
    requires residual { AreUpTo (2 ^ 61) (metered_of_residual residual.old) }
    ensures makes { Makes (out_of (job_seen job.now)) result (λ files. output_of files (job_seen job.now)) (H.state shelf.old) (H.state shelf.new) (K.state out.old) (K.state out.new) }
    ensures works { ForSome (H.state shelf.old).files (λ files. OnOk result (Works (counts_wanted (output_of files (job_seen job.now))) meters.old meters.new)) }
    ensures residuals { ForSome (H.state shelf.old).files (λ files. OnOk result (ResidualWorks (residuals_of files (job_seen job.now)) residual.old residual.new)) }
{
    match *job {
        Job::Play(job) => play_files(alloc, &job, shelf, out, meters),
        Job::Sample(job) => print_sample(alloc, job, out, meters),
        Job::Info(index) => print_info(alloc, index, shelf, out),
        Job::Build(job) => build(alloc, &job, shelf, out),
        Job::Upgrade(job) => upgrade(alloc, &job, shelf, out),
        Job::Search(job) => search(alloc, &job, shelf, out, meters),
        Job::Radius(job) => print_radius(alloc, &job, shelf, out, meters),
        Job::Recall(job) => print_recall(alloc, &job, shelf, out),
        Job::Residual(job) => play_residual(alloc, &job, shelf, out, residual),
        Job::Exact(job) => write_exact(alloc, &job, shelf, out),
        Job::Rerank(job) => write_reranked(alloc, &job, shelf, out, meters),
        Job::Allowed(job) => search_allowed(alloc, &job, shelf, out, meters),
        Job::Sessions(job) => play_session_files(alloc, &job, shelf, out, meters),
    }
}
