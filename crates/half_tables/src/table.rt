//! The tables of a half in a room that is taken once.
ghost use Rattle.std.specs.Prelude.{◌≡◌, ℕ, ◌+◌, ◌*◌, ◌^◌, ◌<◌, ◌≤◌, ◌-◌, ◌++◌, List, length, map, IfOk};
ghost use Rattle.book_model.specs.Sums.{numbers_below};
ghost use Rattle.book_model.specs.Bound.{base_sum, picked_sum};
ghost use Rattle.shape_core.specs.Word.{code_of_words};
ghost use Rattle.half_tables.specs.Residual.{IsResidual};
ghost use Rattle.book_model.specs.Book.{sub_count};
ghost use Rattle.half_tables.specs.Half.{IsRoomOf, IsHalfOf, AreHalves, AreParts, Bounded, coarse_count, first_of, count_of, half_of, split_of, small_part, start_from, tables_from};

use crate::entries::{fill_parts, fill_tables, picked, size_from, split_of, write_least};
use crate::{HalfFullMeter, HalfMeter};
use adc_ports::Memory;
use codebook_core::Codebook;
use lane_kernels::SplitTable;
use shape_core::Shape;
use std::alloc::Global;
use std::marker::{Model, PhantomData};

/// For each sub-quantizer of a half the squared distances of a query's residual to its words. The entries lie in one stretch
/// of memory, one table after another, and are private: `pair_distance` alone gives their sums. The least entry of each table is kept.
#[derive(Drop)]
pub struct HalfTable<S: Shape> {
    g: u32,
    split: u32,
    half: u32,
    entries: Vec<u64>,
    least: Vec<u64>,
    base: u64,
    shape: PhantomData<S>,
}

impl<S: Shape> Model for HalfTable<S> {
    ghost use Rattle.half_tables.specs.Half.{HalfSeen};

    ghost Value = { HalfSeen };

    ghost use Rattle.half_tables.specs.View.{view_half, IsHalfRoom};

    ghost view = { λ half. view_half S.widths half };

    ghost invariant = { λ half. IsHalfRoom S.widths half };
}

impl<S: Shape> HalfTable<S> {
    /// Room for the tables of either half of a residual book. It alone takes memory.
    ///
    /// # Errors
    /// `Memory` if memory runs out.
    pub fn with_room(alloc: Global, book: &Codebook<S>) -> Result<HalfTable<S>, Memory>
        ensures room { IfOk result (λ table. IsRoomOf book.now table) }
    {
        let _d = book.d();
        let split = split_of(book);
        let count = room_for::<S>(split, book.subs());
        let Ok(entries) = vec![in alloc; 0; count] else {
            return Err(Memory);
        };
        let places = split.max(book.subs() - split) as usize;
        let Ok(mut least) = vec![in alloc; 0; places] else {
            return Err(Memory);
        };
        let base = write_least::<S>(&mut least, &entries, 0, split as usize);
        Ok(HalfTable {
            g: book.g(),
            split,
            half: 0,
            entries,
            least,
            base,
            shape: PhantomData,
        })
    }

    /// Fills the tables for a half of a query of d bytes and the coarse word of that number of its part, and raises the meter by one.
    pub fn fill(
        &mut self,
        book: &Codebook<S>,
        query: &[u8],
        half: u32,
        word: u32,
        halves: &mut HalfMeter,
    )
        requires residual { IsResidual book.now }
        requires room { IsRoomOf book.now self.old }
        requires query { length query.now ≡ book.now.d }
        requires half { half < 2 }
        requires word { word < coarse_count book.now half }
        requires meter { halves.old ≤ 2 ^ 63 }
        ensures filled { IsHalfOf book.now query.now half word self.new }
        ensures room { IsRoomOf book.now self.new }
        ensures raised { halves.new ≡ halves.old + 1 }
    {
        let _d = book.d();
        halves.raise();
        fill_half(&mut self.entries, book, query, half, word, self.split);
        let first = first_of(half, self.split) as usize;
        let count = count_of::<S>(half, self.split, self.g);
        self.base = write_least::<S>(&mut self.least, &self.entries, first, count);
        self.half = half;
    }

    /// How many tables it has: one for each sub-quantizer of its half.
    pub fn count(&self) -> usize
        ensures { result ≡ length self.now.tables }
    {
        count_of::<S>(self.half, self.split, self.g)
    }

    /// The sum of the least entries of the tables.
    #[inline]
    pub fn base_sum(&self) -> u64
        ensures sum { result ≡ base_sum self.now.tables }
        ensures small { result ≤ 1266585856114688 }
    {
        self.base
    }

    /// Writes the small entries of the tables, in steps of this size, into one split table a sub-quantizer of the half.
    pub fn small(&self, step: u64, into: &mut [SplitTable])
        requires step { 1 ≤ step }
        requires count { length into.old ≡ length self.now.tables }
        requires parts { AreParts S.widths (first_of self.now.half self.now.split) into.old }
        ensures { into.new ≡ map (small_part S.widths (first_of self.now.half self.now.split) step self.now.tables) (numbers_below (length self.now.tables)) }
    {
        let _n = self.g as usize * S::FIELDS;
        let first = first_of(self.half, self.split);
        fill_parts::<S>(into, &self.entries, &self.least, first as usize, step);
    }
}

/// The distance of a code of g words by the tables of both halves of a cell, which raises the meter by one.
pub fn pair_distance<S: Shape>(
    low: &HalfTable<S>,
    high: &HalfTable<S>,
    code: &[u16],
    full: &mut HalfFullMeter,
) -> u64
    requires halves { AreHalves low.now high.now }
    requires code { length code.now ≡ low.now.g }
    requires meter { full.old ≤ 2 ^ 63 }
    ensures distance { result ≡ picked_sum (low.now.tables ++ high.now.tables) (code_of_words S.widths code.now) }
    ensures raised { full.new ≡ full.old + 1 }
{
    full.raise();
    let n = low.g as usize * S::FIELDS;
    let split = low.split as usize;
    picked::<S>(&low.entries, 0, split, code) + picked::<S>(&high.entries, split, n - split, code)
}

/// The first sub-quantizer of a half.
fn first_of(half: u32, split: u32) -> u32
    ensures { result ≡ first_of half split }
{
    if half == 0 { 0 } else { split }
}

/// How many sub-quantizers a half has.
fn count_of<S: Shape>(half: u32, split: u32, g: u32) -> usize
    requires few { g ≤ 32 }
    requires split { split ≤ g * length S.widths }
    ensures { result ≡ count_of half split (g * length S.widths) }
{
    let split = split as usize;
    if half == 0 {
        return split;
    }
    g as usize * S::FIELDS - split
}

/// How many entries the tables of either half have at most.
fn room_for<S: Shape>(split: u32, subs: u32) -> usize
    requires split { split ≤ subs }
    requires few { subs ≤ 128 }
    ensures low { start_from S.widths 0 split ≤ result }
    ensures high { start_from S.widths split (subs - split) ≤ result }
{
    let low = size_from::<S>(0, split as usize);
    let high = size_from::<S>(split as usize, (subs - split) as usize);
    low.max(high)
}

/// Fills the entries for a half.
fn fill_half<S: Shape>(
    entries: &mut [u64],
    book: &Codebook<S>,
    query: &[u8],
    half: u32,
    word: u32,
    split: u32,
)
    requires residual { IsResidual book.now }
    requires split { split ≡ split_of book.now }
    requires low { start_from S.widths 0 split ≤ length entries.old }
    requires high { start_from S.widths split (sub_count book.now - split) ≤ length entries.old }
    requires bounded { Bounded 9895202000896 entries.old }
    requires query { length query.now ≡ book.now.d }
    requires half { half < 2 }
    requires word { word < coarse_count book.now half }
    ensures long { length entries.new ≡ length entries.old }
    ensures bounded { Bounded 9895202000896 entries.new }
    ensures tables { tables_from S.widths (first_of half split) (count_of half split (sub_count book.now)) entries.new ≡ half_of book.now query.now half word }
{
    let _d = book.d();
    if half == 0 {
        fill_tables(entries, book, query, 0, split, book.coarse0(word), 0);
    } else {
        let count = book.subs() - split;
        fill_tables(
            entries,
            book,
            query,
            split,
            count,
            book.coarse1(word),
            book.h(),
        );
    }
}
