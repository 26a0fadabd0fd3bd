//! Times a store, and queries of each engine over rows of 128 components. The first word chooses the benchmark.
#![tactic(auto)]

mod engine;
mod inserts;
mod radius_passes;
mod radius_runs;
mod residual;
mod store;
mod store_walk;

use std::{env, io};

fn main(rt: HostRuntime) -> io::Result<()> {
    let mut words = env::args(&rt)?;
    let _program = words.next();
    match words.next() {
        Some(name) => run(&rt, name.as_str(), words),
        None => Ok(()),
    }
}

/// Runs the benchmark of a name.
fn run(rt: &HostRuntime, name: &str, words: env::Args) -> io::Result<()> {
    match name {
        "store" => store::run_words(rt, words),
        "engine" => engine::run_words(rt, words),
        "residual" => residual::run_words(rt, words),
        "radius" => radius_runs::run_words(rt, words),
        _ => Ok(()),
    }
}
