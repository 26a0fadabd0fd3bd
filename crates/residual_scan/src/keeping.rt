//! The tables of a cell's two halves, which a query keeps for its later cells.
ghost use Rattle.std.specs.Prelude.{◌≡◌, ◌≢◌, ℕ, ◌+◌, ◌-◌, ◌*◌, ◌/◌, ◌%◌, ◌^◌, ◌<◌, ◌≤◌, List, length, slice_index_or, slice_get, Some, ◌==◌, if◌then◌else◌};
ghost use Rattle.std.specs.List.{AllByRecursion, list_any};
ghost use Rattle.half_tables.specs.Residual.{IsResidual};
ghost use Rattle.half_tables.specs.Half.{IsRoomOf, IsHalfOf};
ghost use Rattle.residual_scan.specs.Misses.{cell_keys, used, misses, kept_after};
ghost use Rattle.residual_scan.specs.Caching.{AreFilled, AreSlots, HasTables, IsTableOf, Stands, no_half};

use crate::caching::take_slot;
use codebook_core::Codebook;
use half_tables::{HalfMeter, HalfTable};
use lru::LruCache;
use shape_core::Shape;

/// At which places the tables of a cell's two halves are.
#[derive(Debug, Clone, Copy, PartialEq, Eq)]
pub(crate) struct Halves {
    pub low: u32,
    pub high: u32,
}

/// Makes the tables of both halves of a cell ready, and answers where they are. Those that are kept are not filled again.
pub(crate) fn ready<S: Shape>(
    book: &Codebook<S>,
    query: &[u8],
    cell: u32,
    tables: &mut [HalfTable<S>],
    slots: &mut Option<LruCache<u32, u32>>,
    places: &mut [u32],
    halves: &mut HalfMeter,
) -> Halves
    requires residual { IsResidual book.now }
    requires query { length query.now ≡ book.now.d }
    requires cell { cell < book.now.k0 * book.now.k1 }
    requires two { 2 ≤ length tables.old }
    requires room { AllByRecursion (IsRoomOf book.now) tables.old }
    requires slots { AreSlots (length tables.old - 2) slots.old }
    requires places { length places.old ≡ book.now.k0 + book.now.k1 }
    requires filled { AreFilled book.now query.now slots.old places.old tables.old }
    requires meter { halves.old ≤ 2 ^ 62 + 2 ^ 32 }
    ensures there { (result.low < length tables.new) × (result.high < length tables.new) }
    ensures stands { (kept : List ℕ) → Stands book.now query.now kept slots.old places.old tables.old →
        Stands book.now query.now (kept_after (length tables.old - 2) kept (cell_keys book.now cell)) slots.new places.new tables.new
        × (halves.new ≡ halves.old + misses (length tables.old - 2) kept (cell_keys book.now cell)) }
    ensures low { IsHalfOf book.now query.now 0 (cell / book.now.k1) (slice_index_or tables.new result.low no_half) }
    ensures high { IsHalfOf book.now query.now 1 (cell % book.now.k1) (slice_index_or tables.new result.high no_half) }
    ensures room { AllByRecursion (IsRoomOf book.now) tables.new }
    ensures slots { AreSlots (length tables.old - 2) slots.new }
    ensures places { length places.new ≡ length places.old }
{
    let _d = book.d();
    let k1 = book.k1();
    let low_key = cell / k1;
    let high_key = book.k0() + cell % k1;
    match slots {
        Some(slots) => {
            let low = ready_key(book, query, low_key, tables, slots, places, halves);
            let high = ready_key(book, query, high_key, tables, slots, places, halves);
            Halves { low, high }
        }
        None => {
            fill_key(book, query, low_key, &mut tables[0], halves);
            fill_key(book, query, high_key, &mut tables[1], halves);
            Halves { low: 0, high: 1 }
        }
    }
}

/// The slot of a key, whose table is filled if the slot has not got it.
fn ready_key<S: Shape>(
    book: &Codebook<S>,
    query: &[u8],
    key: u32,
    tables: &mut [HalfTable<S>],
    slots: &mut LruCache<u32, u32>,
    places: &mut [u32],
    halves: &mut HalfMeter,
) -> u32
    requires residual { IsResidual book.now }
    requires query { length query.now ≡ book.now.d }
    requires key { key < book.now.k0 + book.now.k1 }
    requires room { AllByRecursion (IsRoomOf book.now) tables.old }
    requires places { length places.old ≡ book.now.k0 + book.now.k1 }
    requires some { 1 ≤ length slots.old.entries }
    requires whole { length slots.old.entries ≡ slots.old.cap }
    requires within { AllByRecursion (λ e. e.0 < length tables.old) slots.old.entries }
    requires meter { halves.old ≤ 2 ^ 63 }
    ensures there { result < length tables.new }
    ensures tables { (kept : List ℕ) → HasTables book.now query.now kept slots.old.entries places.old tables.old →
        HasTables book.now query.now (used slots.old.cap kept key) slots.new.entries places.new tables.new
        × (halves.new ≡ halves.old + (if list_any (λ other. other == key) kept then 0 else 1))
        × IsTableOf book.now query.now key (slice_index_or tables.new result no_half) }
    ensures others { (slot : ℕ) → slot ≢ result → slice_index_or tables.new slot no_half ≡ slice_index_or tables.old slot no_half }
    ensures room { AllByRecursion (IsRoomOf book.now) tables.new }
    ensures first { slice_get slots.new.entries 0 ≡ Some (result, key) }
    ensures apart { (slot other : ℕ) → slice_get slots.old.entries 0 ≡ Some (slot, other) → other ≢ key → 2 ≤ length slots.old.entries → result ≢ slot }
    ensures within { (n : ℕ) → AllByRecursion (λ e. e.0 < n) slots.old.entries → AllByRecursion (λ e. e.0 < n) slots.new.entries }
    ensures length { length slots.new.entries ≡ length slots.old.entries }
    ensures cap { slots.new.cap ≡ slots.old.cap }
    ensures places { length places.new ≡ length places.old }
    ensures raised { halves.new ≤ halves.old + 1 }
{
    let taken = take_slot(slots, places, key);
    if !taken.fresh {
        return taken.slot;
    }
    fill_key(book, query, key, &mut tables[taken.slot as usize], halves);
    taken.slot
}

/// Fills the table of a key.
fn fill_key<S: Shape>(
    book: &Codebook<S>,
    query: &[u8],
    key: u32,
    table: &mut HalfTable<S>,
    halves: &mut HalfMeter,
)
    requires residual { IsResidual book.now }
    requires query { length query.now ≡ book.now.d }
    requires key { key < book.now.k0 + book.now.k1 }
    requires room { IsRoomOf book.now table.old }
    requires meter { halves.old ≤ 2 ^ 63 }
    ensures table { IsTableOf book.now query.now key table.new }
    ensures room { IsRoomOf book.now table.new }
    ensures raised { halves.new ≡ halves.old + 1 }
{
    let k0 = book.k0();
    if key < k0 {
        table.fill(book, query, 0, key, halves);
    } else {
        table.fill(book, query, 1, key - k0, halves);
    }
}
