//! A row that is inserted without a line.
ghost use Rattle.std.specs.Prelude.{◌≡◌, ◌+◌, ◌^◌, ◌<◌, ◌≤◌, length, OnOk};
ghost use Rattle.book_model.specs.Rows.{row_of, insert_row, or_unchanged};
ghost use Rattle.query_engine.specs.State.{rows_of};
ghost use Rattle.adc_program.specs.Work.{IsPlain};

use crate::MAX_LIVE;
use crate::play::MAX_ID;
use adc_ports::Memory;
use cell_store::InsertRefusal;
use query_engine::Engine;
use shape_core::Shape;

/// Inserts the row of a vector of d components. An insert that is refused for the rows that are there changes nothing.
///
/// # Errors
/// `Memory`; the engine is then as it was.
pub(crate) fn add<S: Shape>(engine: &mut Engine<S>, id: u32, vector: &[u8]) -> Result<(), Memory>
    requires id { id ≤ MAX_ID }
    requires vector { length vector.now ≡ engine.old.book.d }
    requires plain { IsPlain engine.old.store }
    requires stamp { engine.old.store.stamp < 2 ^ 62 }
    ensures book { engine.new.book ≡ engine.old.book }
    ensures plain { IsPlain engine.new.store }
    ensures stamp { engine.new.store.stamp ≤ engine.old.store.stamp + 1 }
    ensures rows { OnOk result (rows_of engine.new ≡ or_unchanged (rows_of engine.old) (insert_row MAX_LIVE (rows_of engine.old) (row_of engine.old.book id vector.now))) }
{
    match engine.insert(id, vector) {
        Ok(_cell) => Ok(()),
        Err(InsertRefusal::Present) => Ok(()),
        Err(InsertRefusal::Full) => Ok(()),
        Err(InsertRefusal::Held) => Ok(()),
        Err(InsertRefusal::Memory) => Err(Memory),
    }
}
