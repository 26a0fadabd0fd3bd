//! The room of a query, which is taken once.
ghost use Rattle.std.specs.Prelude.{◌≡◌, ◌≤◌, [], length, map, IfOk};
ghost use Rattle.best_k.specs.Least.{key_of};
ghost use Rattle.query_engine.specs.Parts.{HasRoomFor, StandsFor};

use crate::{Pruned, Visit};
use adc_ports::Memory;
use adc_tables::{FullTables, SmallTables};
use best_k::{Best, Pair};
use coarse_rank::Ranks;
use codebook_core::Codebook;
use pair_walk::Walk;
use prune_scan::ScanState;
use shape_core::Shape;
use std::alloc::Global;
use std::marker::Model;

/// What a query works with. After `ask` it stands for a book and a query: its ranks and full tables are theirs.
#[derive(Drop)]
pub struct Scratch<S: Shape> {
    pub(crate) visit: Visit<Pruned<S>>,
}

impl<S: Shape> Model for Scratch<S> {
    ghost use Rattle.std.specs.Prelude.{◌≡◌};
    ghost use Rattle.query_engine.specs.Parts.{Scratched};
    ghost use Rattle.query_engine.specs.Pruning.{scratch_of};

    ghost Value = { Scratched };

    ghost view = { λ s. scratch_of s.visit };

    ghost invariant = { λ s. s.visit.rows ≡ s.visit.scanner.state.rows };
}

impl<S: Shape> Scratch<S> {
    ghost use Rattle.std.specs.Borrow.{sem};
    ghost use Rattle.std.specs.Prelude.{⊤};
    ghost use denote.Follow.{follows_so};
    ghost use mathlib.Core.Option.{none};
    ghost use Rattle.query_engine.specs.contracts.scratch.Scratch.{the_row};

    /// Room for queries by a book that ask for at most k rows. It alone takes memory.
    ///
    /// # Errors
    /// `Memory` where memory runs out.
    pub fn new(alloc: Global, book: &Codebook<S>, k: u32) -> Result<Scratch<S>, Memory>
        requires some { 1 ≤ k }
        requires few { k ≤ 1000 }
        ensures room { IfOk result (λ scratch. HasRoomFor book.now scratch) }
        ensures best { IfOk result (λ scratch. scratch.best.room ≡ k) }
        ensures empty { IfOk result (λ scratch. scratch.best.pairs ≡ []) }
    {
        let _d = book.d();
        let ranks = Ranks::with_room(alloc, book.k0(), book.k1())?;
        let tables = FullTables::with_room(alloc, book)?;
        let small = SmallTables::with_room(alloc, book.g())?;
        let best = Best::with_room(alloc, k)?;
        Ok(Scratch {
            visit: Visit {
                ranks,
                walk: Walk::new(),
                rows: 0,
                scanner: Pruned {
                    tables,
                    small,
                    best,
                    state: ScanState::START,
                },
            },
        })
    }

    /// Fills ranks and full tables for a query of d bytes. It takes no memory.
    pub fn ask(&mut self, book: &Codebook<S>, query: &[u8])
        requires room { HasRoomFor book.now self.old }
        requires query { length query.now ≡ book.now.d }
        ensures asked { StandsFor S.widths book.now query.now self.new.ranks self.new.full }
        ensures room { HasRoomFor book.now self.new }
        ensures rest { self.new ≡ record self.old { ranks = self.new.ranks; full = self.new.full } }
    {
        self.visit.ranks.fill(book, query);
        self.visit.scanner.tables.fill(book, query);
    }

    /// How many rows were visited by now.
    pub fn rows(&self) -> u32
        ensures { result ≡ self.now.state.rows }
    {
        self.visit.rows
    }

    /// The best pairs of the query that was visited last, in order.
    pub fn answers(&mut self) -> &[Pair]
        ensures* unchanged { sem 𝓛 (follows_so (the_row S.row S.Shape) (the_row S.row S.Shape) self.entry.ghost_name none (λ _ _. ⊤) (λ after. after ≡ self.old)) }
        ensures value { map key_of result.now ≡ self.old.best.pairs }
        ensures most { length result.now ≤ self.old.best.k }
    {
        self.visit.scanner.best.finish()
    }
}
