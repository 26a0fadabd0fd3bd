//! Times reading an index file in memory and writing it again.
ghost use Rattle.std.specs.Prelude.{◌≡◌, ◌*◌};

use crate::index_passes::{Small, read, sum_of, write_again};
use crate::index_rows;
use adc_ports::SteadyShelf;
use bench_common::{number, since};
use std::time::{CpuClock, Duration};
use std::{env, io};

/// Runs by the word ROWS, and prints a line for the reading and one for the writing: a name, a checksum and the nanoseconds
/// spent.
pub fn run_words(rt: &HostRuntime, mut words: env::Args) -> io::Result<()> {
    let rows = number(words.next());
    if 0 < rows && rows <= 4_194_304 {
        let mut shelf = index_rows::shelf_of(rt.alloc(), rows as u32)?;
        return time_read(rt, &mut shelf);
    }
    Ok(())
}

/// Reads the index of the file `read`, and prints its line and the line of writing it again.
fn time_read(rt: &HostRuntime, shelf: &mut SteadyShelf) -> io::Result<()> {
    let start = rt.process_cpu_time()?;
    let index = read(rt.alloc(), shelf);
    match index {
        Some(index) => report(rt, shelf, &index, start),
        None => Ok(()),
    }
}

/// Prints what was read and the nanoseconds since the start, and the line of writing it again.
fn report(
    rt: &HostRuntime,
    shelf: &mut SteadyShelf,
    index: &Small,
    start: Duration,
) -> io::Result<()>
    requires g { index.now.store.g ≡ index.now.book.g }
    requires cells { index.now.store.cells ≡ index.now.book.k0 * index.now.book.k1 }
{
    let spent = since(start, rt.process_cpu_time()?);
    println!(rt; "read {} {spent}", sum_of(index))?;
    time_write(rt, shelf, index)
}

/// Writes an index, and prints its line.
fn time_write(rt: &HostRuntime, shelf: &mut SteadyShelf, index: &Small) -> io::Result<()>
    requires g { index.now.store.g ≡ index.now.book.g }
    requires cells { index.now.store.cells ≡ index.now.book.k0 * index.now.book.k1 }
{
    let start = rt.process_cpu_time()?;
    let written = write_again(rt.alloc(), shelf, index);
    let spent = since(start, rt.process_cpu_time()?);
    println!(rt; "write {} {spent}", index_rows::sum_of(shelf, written))
}
