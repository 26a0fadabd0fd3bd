//! The time that filling the tables of a query takes.
ghost use Rattle.std.specs.Prelude.{◌≡◌, ◌≤◌, IfOk};
ghost use Rattle.book_model.specs.Bound.{base_sum};

use crate::scan_runs::{Done, filled, queries_of, small_room};
use adc_tables::{FullMeter, FullTables, SmallTables};
use bench_common::{Numbers, since};
use codebook_core::Codebook;
use lane_kernels::LaneMeter;
use shape_core::Shape;
use std::alloc::Global;
use std::io;
use std::time::CpuClock;

/// Fills the full tables for 16 queries, so many times. The sum is that of the bases.
pub fn full_rounds<S: Shape>(
    rt: &impl CpuClock,
    alloc: Global,
    book: &Codebook<S>,
    rounds: u64,
    numbers: &mut Numbers,
) -> io::Result<Done> {
    let queries = queries_of(alloc, 16, numbers)?;
    let mut tables = room(alloc, book)?;
    let start = rt.process_cpu_time()?;
    fill_full(book, &queries, &mut tables, rounds);
    let spent = since(start, rt.process_cpu_time()?);
    Ok(Done {
        sum: tables.base_sum(),
        full: 0,
        spent,
    })
}

/// Room for the tables of a book.
fn room<S: Shape>(alloc: Global, book: &Codebook<S>) -> io::Result<FullTables<S>>
    ensures { IfOk result (λ tables. tables.g ≡ book.now.g) }
{
    match FullTables::with_room(alloc, book) {
        Ok(tables) => Ok(tables),
        Err(_) => Err(io::Error::from(io::ErrorKind::OutOfMemory)),
    }
}

/// Fills full tables for each query, so many times.
fn fill_full<S: Shape>(book: &Codebook<S>, queries: &[u8], tables: &mut FullTables<S>, rounds: u64)
    requires { tables.old.g ≡ book.now.g }
{
    for _round in 0..rounds {
        for query in queries.chunks(128) {
            if query.len() == book.d() as usize {
                tables.fill(book, query);
            }
        }
    }
}

/// Fills the small tables of a query 16 times, so many times. The sum is the bound of the code of zeros.
pub fn small_rounds<S: Shape>(
    rt: &impl CpuClock,
    alloc: Global,
    book: &Codebook<S>,
    rounds: u64,
    numbers: &mut Numbers,
) -> io::Result<Done> {
    let query = queries_of(alloc, 1, numbers)?;
    if query.len() != book.d() as usize || book.g() != 8 {
        return Err(io::Error::from(io::ErrorKind::InvalidData));
    }
    let tables = filled(alloc, book, &query)?;
    let mut small = small_room(alloc, 8)?;
    let theta0 = theta0_of(alloc, &tables);
    let start = rt.process_cpu_time()?;
    fill_small(&tables, &mut small, theta0, rounds.min(65_536) * 16);
    let spent = since(start, rt.process_cpu_time()?);
    Ok(Done {
        sum: bound_of(alloc, &tables, &mut small, theta0),
        full: 0,
        spent,
    })
}

/// The distance of the code of zeros, which is not below the sum of bases.
fn theta0_of<S: Shape>(alloc: Global, tables: &FullTables<S>) -> u64
    requires { tables.now.g ≡ 8 }
    ensures above { base_sum tables.now.tables ≤ result }
{
    let mut full = FullMeter::new(alloc);
    let distance = tables.distance(&[0; 8], &mut full);
    distance.max(tables.base_sum())
}

/// Fills small tables so many times, no two in a row by the same distance.
fn fill_small<S: Shape>(
    tables: &FullTables<S>,
    small: &mut SmallTables<S>,
    theta0: u64,
    rounds: u64,
)
    requires g { small.old.g ≡ tables.now.g }
    requires above { base_sum tables.now.tables ≤ theta0 }
    ensures g { small.new.g ≡ tables.now.g }
{
    for round in 0..rounds {
        small.fill(tables, theta0.saturating_add(round % 16));
    }
}

/// The bound of the code of zeros, by which the tables were filled.
fn bound_of<S: Shape>(
    alloc: Global,
    tables: &FullTables<S>,
    small: &mut SmallTables<S>,
    theta0: u64,
) -> u64
    requires tables { tables.now.g ≡ 8 }
    requires g { small.old.g ≡ 8 }
    requires above { base_sum tables.now.tables ≤ theta0 }
{
    let mut lanes = LaneMeter::new(alloc);
    small.fill(tables, theta0);
    u64::from(small.bound(&[0; 8], &mut lanes))
}
