//! The benchmarks of one call: the words CALL NUMBER ROUNDS print a checksum and the nanoseconds spent.

use crate::{assign, distance, lanes};
use bench_common::{number, since};
use std::alloc::{AllocError, Global};
use std::time::CpuClock;
use std::{env, io};

/// What is called: distances, the cell or the code of a vector, or lane sums.
#[derive(Clone, Copy)]
pub enum Kernel {
    Distance,
    Assign,
    Lanes,
}

/// Times a kernel by its words.
pub fn run_words(rt: &HostRuntime, kernel: Kernel, mut words: env::Args) -> io::Result<()> {
    let call = words.next();
    let size = number(words.next());
    let rounds = number(words.next());
    match call {
        Some(call) => time(rt, kernel, call.as_str(), size, rounds),
        None => Ok(()),
    }
}

/// Times so many rounds, and prints their checksum and the nanoseconds.
fn time(rt: &HostRuntime, kernel: Kernel, call: &str, size: u64, rounds: u64) -> io::Result<()> {
    let start = rt.process_cpu_time()?;
    let sum = sum_of(rt.alloc(), kernel, call, size, rounds)?;
    let spent = since(start, rt.process_cpu_time()?);
    println!(rt; "{sum} {spent}")
}

/// The checksum of so many rounds.
fn sum_of(
    alloc: Global,
    kernel: Kernel,
    call: &str,
    size: u64,
    rounds: u64,
) -> Result<u64, AllocError> {
    match kernel {
        Kernel::Distance => distance::run(alloc, call, size, rounds),
        Kernel::Assign => assign::run(alloc, call, size, rounds),
        Kernel::Lanes => lanes::run(alloc, call, size, rounds),
    }
}
