//! The room of a residual query, which is taken once.
ghost use Rattle.std.specs.Prelude.{◌≡◌, ◌+◌, ◌<◌, ◌≤◌, ◌++◌, [], length, map, replicate, IfOk};
ghost use Rattle.std.specs.List.{AllByRecursion};
ghost use Rattle.best_k.specs.Least.{key_of};
ghost use Rattle.half_tables.specs.Residual.{IsResidual};
ghost use Rattle.half_tables.specs.Half.{IsRoomOf};
ghost use Rattle.residual_scan.specs.Caching.{AreSlots};
ghost use Rattle.residual_scan.specs.Report.{HasRoomFor};

use crate::halved::Halved;
use adc_ports::Memory;
use adc_tables::zero_parts;
use best_k::{Best, Pair};
use coarse_rank::Ranks;
use codebook_core::Codebook;
use half_tables::HalfTable;
use lru::LruCache;
use pair_walk::Walk;
use query_engine::Visit;
use shape_core::Shape;
use std::alloc::Global;
use std::marker::Model;
use std::num::NonZeroUsize;

/// What a residual query works with. Each slot of the cache has the table of a half. Below two slots there is no cache, since the
/// two halves of a cell would take turns in it: then the first two tables are filled for each cell.
#[derive(Drop)]
pub struct ResidualScratch<S: Shape> {
    pub(crate) visit: Visit<Halved<S>>,
}

impl<S: Shape> Model for ResidualScratch<S> {
    ghost use Rattle.residual_scan.specs.Report.{Scratched, scratch_of};

    ghost Value = { Scratched };

    ghost view = { λ s. scratch_of s.visit };
}

impl<S: Shape> ResidualScratch<S> {
    ghost use Rattle.std.specs.Borrow.{sem};
    ghost use Rattle.std.specs.Prelude.{⊤};
    ghost use denote.Follow.{follows_so};
    ghost use mathlib.Core.Option.{none};
    ghost use Rattle.residual_scan.specs.contracts.scratch.ResidualScratch.{the_row};

    /// Room for queries by a residual book that ask for at most k rows, with the tables of `cache` slots and two more. It alone
    /// takes memory.
    ///
    /// # Errors
    /// `Memory` if memory runs out.
    pub fn new(
        alloc: Global,
        book: &Codebook<S>,
        k: u32,
        cache: u32,
    ) -> Result<ResidualScratch<S>, Memory>
        requires residual { IsResidual book.now }
        requires some { 1 ≤ k }
        requires few { k ≤ 1000 }
        requires cache { cache ≤ 2048 }
        ensures room { IfOk result (λ scratch. HasRoomFor book.now scratch) }
        ensures best { IfOk result (λ scratch. scratch.best.room ≡ k) }
        ensures cache { IfOk result (λ scratch. scratch.cache ≡ cache) }
        ensures empty { IfOk result (λ scratch. scratch.best.pairs ≡ []) }
    {
        let _d = book.d();
        let ranks = Ranks::with_room(alloc, book.k0(), book.k1())?;
        let tables = halves_for(alloc, book, cache + 2)?;
        let parts = zero_parts::<S>(alloc, book.g())?;
        let best = Best::with_room(alloc, k)?;
        let words = book.k0() + book.k1();
        let Ok(places) = vec![in alloc; cache; words as usize] else {
            return Err(Memory);
        };
        let slots = slots_for(alloc, cache)?;
        Ok(ResidualScratch {
            visit: Visit {
                ranks,
                walk: Walk::new(),
                rows: 0,
                scanner: Halved {
                    tables,
                    parts,
                    best,
                    places,
                    cache,
                    slots,
                },
            },
        })
    }

    /// The best pairs of the query that was answered last, in order.
    pub fn answers(&mut self) -> &[Pair]
        ensures* unchanged { sem 𝓛 (follows_so (the_row S.row S.Shape) (the_row S.row S.Shape) self.entry.ghost_name none (λ _ _. ⊤) (λ after. after ≡ self.old)) }
        ensures value { map key_of result.now ≡ self.old.best.pairs }
        ensures most { length result.now ≤ self.old.best.k }
    {
        self.visit.scanner.best.finish()
    }
}

/// Tables of halves, as many as `count`.
fn halves_for<S: Shape>(
    alloc: Global,
    book: &Codebook<S>,
    count: u32,
) -> Result<Vec<HalfTable<S>>, Memory>
    ensures count { IfOk result (λ halves. length halves.items ≡ count) }
    ensures each { IfOk result (λ halves. AllByRecursion (IsRoomOf book.now) halves.items) }
{
    let Ok(mut halves) = Vec::with_capacity(alloc, count as usize) else {
        return Err(Memory);
    };
    for _n in 0..count {
        let table = HalfTable::with_room(alloc, book)?;
        let Ok(()) = halves.push(table) else {
            return Err(Memory);
        };
    }
    Ok(halves)
}

/// A cache of which each slot is an entry, or none below two slots.
fn slots_for(alloc: Global, cache: u32) -> Result<Option<LruCache<u32, u32>>, Memory>
    ensures { IfOk result (λ slots. AreSlots cache slots) }
{
    if cache < 2 {
        return Ok(None);
    }
    let Some(cap) = NonZeroUsize::new(cache as usize) else {
        return Ok(None);
    };
    let Ok(mut slots) = LruCache::new(alloc, cap) else {
        return Err(Memory);
    };
    for slot in 0..cache {
        let Ok(_) = slots.put(slot, 0) else {
            return Err(Memory);
        };
    }
    Ok(Some(slots))
}
