//! Output files that are written row by row: their begin, and a row of numbers more.
ghost use Rattle.std.specs.Prelude.{◌≡◌, ◌≤◌, [], length};
ghost use Rattle.adc_ports.specs.States.{SinkState, IsThere};
ghost use Rattle.vec_files.specs.Rows.{ivecs_row};
ghost use Rattle.adc_program.specs.Rowing.{Begins, Adds};

use crate::builds::of_write;
use crate::halts::Halted;
use adc_inputs::Stop;
use adc_ports::{Halt, Shelf};
use play_script::Role;
use vec_files::write_ivecs_row;

/// Begins the file of a role, which is then there and empty.
pub(crate) fn begin_file<H: Shelf>(role: Role, name: &str, shelf: &mut H) -> Result<(), Halted>
    ensures begins { Begins role name.now result (H.state shelf.old) (H.state shelf.new) }
{
    match shelf.begin(name) {
        Ok(()) => Ok(()),
        Err(Halt::Failed) => Err(Halted::Unsaved(role)),
        Err(Halt::Memory) => Err(Halted::Stopped(Stop::OutOfMemory)),
    }
}

/// Adds a row of 1 to 1024 numbers to an output file.
pub(crate) fn add_row<H: Shelf>(name: &str, row: &[i32], shelf: &mut H) -> Result<(), Halted>
    requires some { 1 ≤ length row.now }
    requires few { length row.now ≤ 1024 }
    requires there { IsThere (H.state shelf.old) name.now }
    ensures { (out : SinkState) → Adds name.now result (λ _. []) (λ _. ivecs_row (length row.now) row.now) (H.state shelf.old) (H.state shelf.new) out out }
{
    match write_ivecs_row(shelf, name, row) {
        Ok(()) => Ok(()),
        Err(error) => Err(of_write(Role::Out, error)),
    }
}
