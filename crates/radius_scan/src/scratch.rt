//! The room of queries by radius, which is taken once.
ghost use Rattle.std.specs.Prelude.{◌≡◌, ℕ, ◌*◌, ◌≤◌, List, [], length, map, IfOk};
ghost use Rattle.book_model.specs.Book.{Book};
ghost use Rattle.best_k.specs.Least.{key_of};
ghost use Rattle.cell_store.specs.State.{live_rows};
ghost use Rattle.query_engine.specs.Parts.{StandsFor, IsAsked};
ghost use Rattle.query_engine.specs.Report.{HaveRoom};
ghost use Rattle.radius_scan.specs.Parts.{HasRadiusRoom};
ghost use Rattle.radius_scan.specs.Report.{radius_query, Finds};

use crate::block::Reach;
use crate::visiting::find_rows;
use crate::within::Within;
use adc_ports::Memory;
use adc_tables::{FullTables, SmallTables};
use best_k::Pair;
use cell_store::CellStore;
use coarse_rank::Ranks;
use codebook_core::Codebook;
use id_filter::IdSelector;
use pair_walk::Walk;
use query_engine::{Meters, Report, Visit};
use shape_core::Shape;
use std::alloc::Global;
use std::marker::Model;

/// What queries by radius work with, and the pairs that the last one found.
#[derive(Drop)]
pub struct RadiusScratch<S: Shape> {
    visit: Visit<Within<S>>,
    room: u32,
}

impl<S: Shape> Model for RadiusScratch<S> {
    ghost use Rattle.std.specs.Prelude.{◌≤◌, map, vec_capacity};
    ghost use Rattle.best_k.specs.Least.{key_of};
    ghost use Rattle.radius_scan.specs.Parts.{RadiusParts};

    ghost Value = { RadiusParts };

    ghost view = { λ s. record { ranks = s.visit.ranks; walk = s.visit.walk; full = s.visit.scanner.tables; small = s.visit.scanner.small; room = s.room; pairs = map key_of s.visit.scanner.pairs.items } };

    ghost invariant = { λ s. s.room ≤ vec_capacity s.visit.scanner.pairs };
}

impl<S: Shape> RadiusScratch<S> {
    /// Room for queries by a book over up to `rows` live rows, at most 4,194,304: 16 bytes for each beside the tables. It alone
    /// takes memory.
    ///
    /// # Errors
    /// `Memory` if memory runs out.
    pub fn with_room(
        alloc: Global,
        book: &Codebook<S>,
        rows: u32,
    ) -> Result<RadiusScratch<S>, Memory>
        requires { rows ≤ 4194304 }
        ensures room { IfOk result (λ scratch. HasRadiusRoom book.now scratch) }
        ensures rows { IfOk result (λ scratch. scratch.room ≡ rows) }
        ensures empty { IfOk result (λ scratch. scratch.pairs ≡ []) }
    {
        let _d = book.d();
        let ranks = Ranks::with_room(alloc, book.k0(), book.k1())?;
        let tables = FullTables::with_room(alloc, book)?;
        let small = SmallTables::with_room(alloc, book.g())?;
        let Ok(pairs) = Vec::with_capacity(alloc, rows as usize) else {
            return Err(Memory);
        };
        Ok(RadiusScratch {
            visit: Visit {
                ranks,
                walk: Walk::new(),
                rows: 0,
                scanner: Within {
                    tables,
                    small,
                    reach: Reach {
                        radius: 0,
                        most: None,
                    },
                    pairs,
                },
            },
            room: rows,
        })
    }

    /// The pairs that the last query found, in rising order.
    pub fn pairs(&self) -> &[Pair]
        ensures { map key_of result.now ≡ self.now.pairs }
    {
        self.visit.scanner.pairs.as_slice()
    }

    /// Fills ranks and full tables for a query of d bytes.
    pub(crate) fn ask(&mut self, book: &Codebook<S>, query: &[u8])
        requires room { HasRadiusRoom book.now self.old }
        requires query { length query.now ≡ book.now.d }
        ensures asked { StandsFor S.widths book.now query.now self.new.ranks self.new.full }
        ensures room { HasRadiusRoom book.now self.new }
        ensures rows { self.new.room ≡ self.old.room }
    {
        self.visit.ranks.fill(book, query);
        self.visit.scanner.tables.fill(book, query);
    }

    /// Does all of a query that comes after `ask`.
    pub(crate) fn find<P: IdSelector>(
        &mut self,
        store: &CellStore<S>,
        r: u64,
        wanted: u32,
        selector: &P,
        meters: &mut Meters,
    ) -> Report
        requires selector { P.can_pass selector.now }
        requires asked { IsAsked S.widths self.old.ranks self.old.full }
        requires full { self.old.full.g ≡ store.now.g }
        requires small { self.old.small.g ≡ store.now.g }
        requires cells { store.now.cells ≡ self.old.ranks.k0 * self.old.ranks.k1 }
        requires room { length (live_rows store.now) ≤ self.old.room }
        requires wanted_some { 1 ≤ wanted }
        requires wanted_few { wanted ≤ 4194304 }
        requires meters { HaveRoom meters.old }
        ensures finds { (book : Book) (query : List ℕ) → StandsFor S.widths book query self.old.ranks self.old.full →
            Finds book (radius_query query wanted (P.ranges selector.now)) r store.now self.new.pairs result meters.old meters.new }
        ensures stays { (self.new.ranks ≡ self.old.ranks) × (self.new.full ≡ self.old.full) × (self.new.small.g ≡ self.old.small.g) }
        ensures room { self.new.room ≡ self.old.room }
    {
        find_rows(&mut self.visit, store, r, wanted, selector, meters)
    }
}
