//! The index of an input.
ghost use Rattle.std.specs.Prelude.{◌≡◌, IfOk};
ghost use Rattle.index_file.specs.View.{book_of, store_of, view_index, IsFresh};
ghost use Rattle.adc_inputs.specs.Indexes.{index_input, stop_of_index};
ghost use Rattle.adc_inputs.specs.Steps.{Finds};

use crate::stop::{InputError, Stop};
use adc_ports::Shelf;
use index_file::{AnyIndex, IndexError, decode};
use play_script::Role;
use std::alloc::Global;

/// The stop of a refused index.
fn of_index(error: IndexError) -> Stop
    ensures { result ≡ stop_of_index error }
{
    let role = Role::Index;
    match error {
        IndexError::Missing => Stop::Input(InputError::Missing(role)),
        IndexError::Malformed { at } => Stop::Input(InputError::Malformed { role, at }),
        IndexError::Limit { what, value } => Stop::Input(InputError::Limit { role, what, value }),
        IndexError::ReadFault => Stop::Unread(role),
        IndexError::Memory => Stop::OutOfMemory,
    }
}

/// The index of an input: its book, and a store of its rows.
///
/// # Errors
/// `Input` if it is not there or at its first faulty field, `Unread` if a read of the shelf failed, `OutOfMemory`.
pub fn read_index<H: Shelf>(alloc: Global, shelf: &mut H, name: &str) -> Result<AnyIndex, Stop>
    ensures reads { Finds view_index result (λ files. index_input files name.now) (H.state shelf.old) (H.state shelf.new) }
    ensures fresh { IfOk result (λ index. IsFresh (book_of index) (store_of index)) }
{
    match decode(alloc, shelf, name) {
        Ok(index) => Ok(index),
        Err(error) => Err(of_index(error)),
    }
}
