//! Times files: reading and writing of an index, the exact search and reranking. The first word chooses the benchmark.
#![tactic(auto)]

mod exact_search;
mod index;
mod index_passes;
mod index_rows;

use std::{env, io};

fn main(rt: HostRuntime) -> io::Result<()> {
    let mut words = env::args(&rt)?;
    let _program = words.next();
    match words.next() {
        Some(name) => run(&rt, name.as_str(), words),
        None => Ok(()),
    }
}

/// Runs the benchmark of a name.
fn run(rt: &HostRuntime, name: &str, words: env::Args) -> io::Result<()> {
    match name {
        "index" => index::run_words(rt, words),
        "exact" => exact_search::run_words(rt, words),
        _ => Ok(()),
    }
}
