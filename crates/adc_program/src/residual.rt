//! An engine of residual codes, as a script is played on it.
ghost use Rattle.std.specs.Prelude.{◌≡◌, ◌≤◌, ◌∷◌, [], ℕ, length, Option, Some, None, refl};
ghost use Rattle.std.proofs.Props.{props};
ghost use Rattle.lru.specs.LruCache.{LruCache};
ghost use Rattle.play_script.specs.Play.{ranges_of};
ghost use Rattle.query_engine.specs.Report.{query_of};
ghost use Rattle.residual_scan.specs.Caching.{AreSlots};
ghost use Rattle.residual_scan.specs.Misses.{computed};
ghost use Rattle.residual_scan.specs.Report.{HasRoomFor, HaveRoom, Answers};
ghost use Rattle.adc_program.specs.Residuals.{by_residuals, metered_of_residual};

use crate::halts::Halted;
use crate::play::{MAX_K, MAX_WANTED, range_of, write_found};
use crate::played::{Asked, Played};
use adc_ports::Sink;
use cell_store::{Absent, InsertRefusal, Placed, PutRefusal};
use id_filter::AllIds;
use query_engine::{Meters, Report};
use residual_scan::{ResidualEngine, ResidualScratch};
use shape_core::Shape;

/// An engine of residual codes, and the scratch of its queries.
#[derive(Drop)]
pub(crate) struct ResidualPlayed<S: Shape> {
    pub engine: ResidualEngine<S>,
    pub scratch: ResidualScratch<S>,
    ghost asks: { HasRoomFor engine.book scratch } by { let slots_prop : (cache : ℕ) (slots : Option (LruCache ℕ ℕ)) → IsProp (AreSlots cache slots) = λ cache. elim [ None ↦ Prim.hlevel props | Some slots ↦ Prim.hlevel props ] in
        Prim.hlevel (props, slots_prop) },
    ghost best: { scratch.best.room ≡ 1000 },
}

impl<S: Shape> Played for ResidualPlayed<S> {
    type Meters = Meters;

    ghost means = { by_residuals };

    ghost computes = { computed };

    ghost widths = { S.widths };

    ghost stand = { λ e. record { book = e.engine.book; store = e.engine.store; cache = e.scratch.cache } };

    ghost metered = { metered_of_residual };

    ghost numbered = { λ book id v. refl };

    fn d(&self) -> u32 {
        self.engine.book().d()
    }

    fn live(&self) -> u32 {
        let _stamp = self.engine.store().stamp();
        self.engine.store().live()
    }

    fn insert(&mut self, id: u32, vector: &[u8]) -> Result<u32, InsertRefusal> {
        self.engine.insert(id, vector)
    }

    fn put(&mut self, id: u32, vector: &[u8]) -> Result<Placed, PutRefusal> {
        self.engine.put(id, vector)
    }

    fn delete(&mut self, id: u32) -> Result<(), Absent> {
        self.engine.delete(id)
    }

    fn query<K: Sink>(
        &mut self,
        out: &mut K,
        row: &[u8],
        asked: Asked,
        meters: &mut Meters,
    ) -> Result<(), Halted> {
        let report = ask(
            &self.engine,
            &mut self.scratch,
            row,
            asked.k as u32,
            asked.wanted as u32,
            asked.ids,
            meters,
        );
        write_found(out, asked.number, report, self.scratch.answers())
    }
}

/// Asks for the nearest of the rows whose ids pass. The answer stands in the scratch.
fn ask<S: Shape>(
    engine: &ResidualEngine<S>,
    scratch: &mut ResidualScratch<S>,
    row: &[u8],
    k: u32,
    wanted: u32,
    ids: Option<(u64, u64)>,
    meters: &mut Meters,
) -> Report
    requires vector { length row.now ≡ engine.now.book.d }
    requires room { HasRoomFor engine.now.book scratch.old }
    requires best { scratch.old.best.room ≡ MAX_K }
    requires k_some { 1 ≤ k }
    requires k_few { k ≤ MAX_K }
    requires wanted_some { 1 ≤ wanted }
    requires wanted_few { wanted ≤ MAX_WANTED }
    requires meters { HaveRoom meters.old }
    ensures answers { Answers engine.now.book (query_of row.now k wanted (ranges_of ids)) engine.now.store scratch.old.cache scratch.new.best result meters.old meters.new }
    ensures room { HasRoomFor engine.now.book scratch.new }
    ensures best { scratch.new.best.room ≡ scratch.old.best.room }
    ensures cache { scratch.new.cache ≡ scratch.old.cache }
{
    // The store tells that its ids are within the range of ids.
    let _stamp = engine.store().stamp();
    match ids {
        None => engine.search(scratch, row, k, wanted, &AllIds, meters),
        Some(ids) => engine.search(scratch, row, k, wanted, &range_of(ids), meters),
    }
}
