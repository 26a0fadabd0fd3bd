//! A search as it stands: the engine of its index, and what is asked of it.
ghost use Rattle.std.specs.Prelude.{◌≡◌, ◌≢◌, ◌≤◌, length};
ghost use Rattle.query_engine.specs.Parts.{HasRoomFor};

use adc_inputs::Rows;
use query_engine::{Engine, Scratch};
use shape_core::Shape;

/// What is asked: a query for each row, how many of the nearest, how many rows are wanted, and the file that the answers go to.
#[derive(Clone, Copy)]
pub(crate) struct Asking<'a> {
    pub queries: Rows<'a>,
    pub k: u32,
    pub wanted: u32,
    pub out: &'a str,
    ghost k_some: { 1 ≤ k },
    ghost k_few: { k ≤ 1000 },
    ghost wanted_some: { 1 ≤ wanted },
    ghost wanted_few: { wanted ≤ 4194304 },
    ghost apart: { queries.name.now ≢ out.now },
}

/// A search as it stands: the engine of the index, the scratch of its queries, what is asked, and room for a query and for its
/// row of ids.
#[derive(Drop)]
pub(crate) struct Searcher<'a, S: Shape> {
    pub engine: Engine<S>,
    pub scratch: Scratch<S>,
    pub asking: Asking<'a>,
    pub vector: Vec<u8>,
    pub ids: Vec<i32>,
    ghost d: { asking.queries.checked.d ≡ engine.book.d },
    ghost vector_room: { length vector.items ≡ engine.book.d },
    ghost ids_room: { length ids.items ≡ asking.k },
    ghost asks: { HasRoomFor engine.book scratch },
    ghost best: { scratch.best.room ≡ 1000 },
}
