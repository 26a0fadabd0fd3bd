//! Times sessions over rows of 128 components among changes, and plain queries of the same engine.
//!
//! The words BOOK BASE QUERIES WANTED and then SESSIONS BUDGET CHANGES, as often as is wanted, print a line for the inserts: a
//! checksum of the cells, the nanoseconds spent, the bytes by which the process has grown and how many rows are live; and for
//! each three numbers four lines, which `trials` describes. Without words it does nothing.
#![tactic(auto)]

mod feed;
mod found;
mod plain;
mod sessions;
mod trials;

use bench_common::{number, numbers_of};
use codebook_core::{AnyBook, decode};
use std::{env, fs, io};
use trials::Data;

fn main(rt: HostRuntime) -> io::Result<()> {
    let mut words = env::args(&rt)?;
    let _program = words.next();
    let (Some(book), Some(base), Some(queries)) = (words.next(), words.next(), words.next()) else {
        return Ok(());
    };
    run_files(&rt, book.as_str(), base.as_str(), queries.as_str(), words)
}

/// Reads the files, and runs with the numbers of the words that are left.
fn run_files(
    rt: &HostRuntime,
    book: &str,
    base: &str,
    queries: &str,
    words: env::Args,
) -> io::Result<()> {
    let book = fs::read(rt, book)?;
    let data = data_of(rt, base, queries, words)?;
    run_over(rt, &book, &data)
}

/// The rows of two files, and the numbers of the words.
fn data_of(rt: &HostRuntime, base: &str, queries: &str, mut words: env::Args) -> io::Result<Data> {
    let base = fs::read(rt, base)?;
    let queries = fs::read(rt, queries)?;
    let wanted = number(words.next());
    let trials = numbers_of(rt.alloc(), words)?;
    Ok(Data {
        base,
        queries,
        wanted,
        trials,
    })
}

/// Runs over the book of a file, if it is of the shape 4-4-4-4.
fn run_over(rt: &HostRuntime, book: &[u8], data: &Data) -> io::Result<()> {
    match decode(rt.alloc(), book) {
        Ok(AnyBook::F4444(book)) => trials::run(rt, rt.alloc(), book, data),
        _ => Ok(()),
    }
}
