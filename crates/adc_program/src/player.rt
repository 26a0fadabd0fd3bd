//! A play as it stands: what it is played on, and its inputs.
ghost use Rattle.std.specs.Prelude.{◌≡◌, length};

use crate::played::Played;
use adc_inputs::Rows;

/// The inputs of rows that a script is played on.
#[derive(Clone, Copy)]
pub(crate) struct Inputs<'a> {
    pub base: Rows<'a>,
    pub queries: Rows<'a>,
}

/// A play: the engine with the scratch of its queries, the inputs, and room for one of their rows.
#[derive(Drop)]
pub(crate) struct Player<'a, E: Played> {
    pub engine: E,
    pub inputs: Inputs<'a>,
    pub row: Vec<u8>,
    ghost base: { inputs.base.checked.d ≡ (E.stand engine).book.d },
    ghost queries: { inputs.queries.checked.d ≡ (E.stand engine).book.d },
    ghost room: { length row.items ≡ (E.stand engine).book.d },
}
