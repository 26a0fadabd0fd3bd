//! Times kernels: distances, assignments, lane sums, the pruned scan and the walk over cells. The first word chooses the benchmark.
#![tactic(auto)]

mod assign;
mod calls;
mod distance;
mod lanes;
mod scan_book;
mod scan_exact;
mod scan_fills;
mod scan_passes;
mod scan_rows;
mod scan_runs;
mod walk;

use std::{env, io};

fn main(rt: HostRuntime) -> io::Result<()> {
    let mut words = env::args(&rt)?;
    let _program = words.next();
    match words.next() {
        Some(name) => run(&rt, name.as_str(), words),
        None => Ok(()),
    }
}

/// Runs the benchmark of a name.
fn run(rt: &HostRuntime, name: &str, words: env::Args) -> io::Result<()> {
    match name {
        "distance" => calls::run_words(rt, calls::Kernel::Distance, words),
        "assign" => calls::run_words(rt, calls::Kernel::Assign, words),
        "lanes" => calls::run_words(rt, calls::Kernel::Lanes, words),
        "scan" => scan_runs::run_words(rt, words),
        "walk" => walk::run_words(rt, words),
        _ => Ok(()),
    }
}
