//! An engine of codes, as a script is played on it.
ghost use Rattle.std.specs.Prelude.{◌≡◌, ◌*◌, ◌≤◌, refl, IfOk};
ghost use Rattle.cell_store.specs.State.{empty};
ghost use Rattle.play_script.specs.Play.{by_codes};
ghost use Rattle.query_engine.specs.Parts.{HasRoomFor};
ghost use Rattle.adc_program.specs.Work.{IsPlain};
ghost use Rattle.adc_program.specs.Played.{no_halves, metered_of};

use crate::MAX_LIVE;
use crate::halts::Halted;
use crate::play::{ask, write_found};
use crate::played::{Asked, Played};
use adc_ports::{Memory, Sink};
use cell_store::{Absent, InsertRefusal, Placed, PutRefusal};
use codebook_core::Codebook;
use query_engine::{Engine, Meters, Scratch};
use shape_core::Shape;
use std::alloc::Global;

/// An engine of codes, and the scratch of its queries.
#[derive(Drop)]
pub(crate) struct CodeEngine<S: Shape> {
    pub engine: Engine<S>,
    pub scratch: Scratch<S>,
    ghost asks: { HasRoomFor engine.book scratch },
    ghost best: { scratch.best.room ≡ 1000 },
}

impl<S: Shape> CodeEngine<S> {
    /// The engine of a book, without rows.
    ///
    /// # Errors
    /// `Memory` where memory runs out.
    pub(crate) fn new(alloc: Global, book: Codebook<S>) -> Result<CodeEngine<S>, Memory>
        ensures engine { IfOk result (λ it. it.engine ≡ record { book = book; store = empty book.g (book.k0 * book.k1) MAX_LIVE }) }
    {
        let engine = Engine::new(alloc, book, MAX_LIVE);
        match Scratch::new(alloc, engine.book(), 1000) {
            Ok(scratch) => Ok(CodeEngine { engine, scratch }),
            Err(Memory) => Err(Memory),
        }
    }
}

impl<S: Shape> Played for CodeEngine<S> {
    type Meters = Meters;

    ghost means = { by_codes };

    ghost computes = { no_halves };

    ghost widths = { S.widths };

    ghost stand = { λ e. record { book = e.engine.book; store = e.engine.store; cache = 0 } };

    ghost metered = { metered_of };

    ghost numbered = { λ book id v. refl };

    fn d(&self) -> u32 {
        self.engine.book().d()
    }

    fn live(&self) -> u32 {
        let _stamp = self.engine.store().stamp();
        self.engine.store().live()
    }

    fn insert(&mut self, id: u32, vector: &[u8]) -> Result<u32, InsertRefusal> {
        self.engine.insert(id, vector)
    }

    fn put(&mut self, id: u32, vector: &[u8]) -> Result<Placed, PutRefusal> {
        self.engine.put(id, vector)
    }

    fn delete(&mut self, id: u32) -> Result<(), Absent> {
        self.engine.delete(id)
    }

    fn query<K: Sink>(
        &mut self,
        out: &mut K,
        row: &[u8],
        asked: Asked,
        meters: &mut Meters,
    ) -> Result<(), Halted> {
        let report = ask(
            &self.engine,
            &mut self.scratch,
            row,
            asked.k as u32,
            asked.wanted as u32,
            asked.ids,
            meters,
        );
        write_found(out, asked.number, report, self.scratch.answers())
    }
}
