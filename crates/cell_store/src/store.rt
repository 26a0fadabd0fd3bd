//! A store of rows by cell.

ghost use Rattle.std.specs.Prelude.{◌≡◌, ◌≢◌, ◌+◌, ◌^◌, ◌<◌, ◌≤◌, ℕ, [], ◌∷◌, ◌++◌, length, true, false, IsSome, None, is_some, OnOk, OnErr, IfOk, IfErr};
ghost use Rattle.std.specs.List.{Contains, AllByRecursion};
ghost use Rattle.std.specs.Ordering.{nat_cmp};
ghost use Rattle.std.specs.FinMap as map;
ghost use Rattle.id_table.specs.Slots.{IsPlace};
ghost use Rattle.cell_store.specs.Groups.{Regroups, StaysGrouped};
ghost use Rattle.shape_core.specs.Word.{AreCodeWords, code_of_words};
ghost use Rattle.book_model.specs.Rows.{has_id, without};
ghost use Rattle.std.specs.Prelude.{Some, IfSome, SomeIndex, if◌then◌else◌};
ghost use Rattle.code_blocks.specs.Codes.{IsBlock};
ghost use Rattle.cell_store.specs.Blocks.{kept_of, row_at, slot_of, CellRows};
ghost use Rattle.cell_store.specs.Cells.{rows_for, rows_below, IsTidied, AreFew, is_needed_dead, used_below, Replaces, Ends};
ghost use Rattle.std.specs.Prelude.{◌*◌, map, take, drop, min, filter, slice_index, slice_index_or, MatchOption};
ghost use Rattle.cell_store.specs.State.{is_live, rows_at, Unpins, empty, inserted, put_rows, live_rows, Changes, kept_in, held_in, passing_at, never, IsNextCell, IsHeldStamp, used_count, Rising};
ghost use Rattle.cell_store.specs.Held.{held_rows, ended_id, born_at, put_done, put_cause, deleted, KeepsAs, IsStore};
ghost use Rattle.cell_store.specs.Refusals.{insert_refusal, put_refusal, as_put_refusal, RefusesAs};

use crate::cells::Cells;
use crate::groups::{find_row, place_at, regroup};
use crate::meter::BlockMeter;
use crate::rows::is_needed;
use crate::view::{CellView, count_in, count_up_to, kept_count, live_in, used_at};
use crate::{Absent, InsertRefusal, NEVER, PutRefusal, Sessions, Slot};
use adc_ports::Memory;
use code_blocks::BlockRef;
use id_filter::IdSelector;
use id_table::IdTable;
use shape_core::Shape;
use std::alloc::Global;
use std::marker::Model;

/// Where the live row of an id lies: its cell, and when it was born.
#[derive(Debug, Clone, Copy, PartialEq, Eq)]
pub struct Place {
    pub cell: u32,
    pub born: u64,
}

/// The rows of each cell in order, live ones and dead ones that may be needed. Contracts see it as the list of all kept
/// rows in the order of their births, with the stamp and the pins.
#[derive(Drop)]
pub struct CellStore<S: Shape> {
    g: u32,
    cells: u32,
    most: u32,
    stamp: u64,
    live: u32,
    needed: u32,
    used: u32,
    pins: [u64; 64],
    pinned: usize,
    lists: Cells<S>,
    ids: IdTable,
}

impl<S: Shape> Model for CellStore<S> {
    ghost use Rattle.std.specs.Prelude.{◌≡◌, ℕ, ◌≤◌, take, length};
    ghost use Rattle.cell_store.specs.State.{Store, FewPinned};
    ghost use Rattle.cell_store.specs.Cells.{all_kept, rows_for, used_below};
    ghost use Rattle.cell_store.specs.Groups.{IsIndexed};

    ghost Value = { Store };

    ghost view = { λ s. record { g = s.g; cells = s.cells; most = s.most; kept = all_kept (rows_for s.lists) s.cells; stamp = s.stamp; pins = take s.pinned s.pins } };

    ghost invariant = { λ s. IsIndexed s.g s.cells s.most s.stamp s.live s.needed (take s.pinned s.pins) s.lists s.ids × (s.pinned ≤ 64) × (length s.pins ≡ 64) × (s.used ≡ used_below (rows_for s.lists) s.cells) × FewPinned s.most (take s.pinned s.pins) (all_kept (rows_for s.lists) s.cells) };
}

impl<S: Shape> CellStore<S> {
    /// A store of no rows, for codes of g words, cells below a number, and as many live rows as may be.
    pub fn new(alloc: Global, g: u32, cells: u32, most: u32) -> CellStore<S>
        requires g { (1 ≤ g) × (g ≤ 32) }
        requires cells { (1 ≤ cells) × (cells ≤ 1048576) }
        requires most { (1 ≤ most) × (most ≤ 4194304) }
        ensures { result ≡ empty g cells most }
    {
        CellStore {
            g,
            cells,
            most,
            stamp: 0,
            live: 0,
            needed: 0,
            used: 0,
            pins: [0; 64],
            pinned: 0,
            lists: Cells::new(alloc, g),
            ids: IdTable::new(alloc),
        }
    }

    /// A store of no rows, with room for the ids of so many rows if there is memory for it.
    pub fn with_room(alloc: Global, g: u32, cells: u32, most: u32, rows: u32) -> CellStore<S>
        requires g { (1 ≤ g) × (g ≤ 32) }
        requires cells { (1 ≤ cells) × (cells ≤ 1048576) }
        requires most { (1 ≤ most) × (most ≤ 4194304) }
        ensures { result ≡ empty g cells most }
    {
        let mut store = CellStore::new(alloc, g, cells, most);
        let _ = store.ids.reserve(rows as usize);
        store
    }

    /// How many rows are live.
    pub fn live(&self) -> u32
        ensures live { result ≡ length (live_rows self.now) }
        ensures few { result ≤ self.now.most }
    {
        self.live
    }

    /// The number of accepted changes.
    pub fn stamp(&self) -> u64
        ensures stamp { result ≡ self.now.stamp }
        ensures is { IsStore S.widths self.now }
    {
        self.lists.codes_fit();
        self.stamp
    }

    /// The least cell from a number on that keeps a row.
    pub fn next_cell(&self, from: u32) -> Option<u32>
        ensures { IsNextCell self.now from result }
    {
        self.lists.next(from)
    }

    /// How many cells have a live row.
    pub fn used(&self) -> u32
        ensures { result ≡ used_count self.now }
    {
        self.used
    }

    /// How many rows a cell keeps, dead ones among them.
    pub fn kept(&self, cell: u32) -> u32
        ensures kept { result ≡ length (kept_in cell self.now.kept) }
        ensures few { result ≤ 2 * held_in cell self.now + 32 }
    {
        kept_count(&self.lists, cell) as u32
    }

    /// The rows of a cell, for one look-up; none where it keeps none.
    pub fn cell(&self, cell: u32) -> Option<CellView<'_, S>>
        ensures rows { MatchOption result (kept_in cell self.now.kept ≡ []) (λ view. (view ≡ record { cell = cell; g = self.now.g; rows = kept_in cell self.now.kept }) × (0 < length view.rows)) }
        ensures few { IfSome result (λ view. length view.rows ≤ 16777248) }
        ensures ids { IfSome result (λ view. AllByRecursion (λ k. k.row.id ≤ 2147483647) view.rows) }
        ensures born { IfSome result (λ view. AllByRecursion (λ k. k.born ≤ self.now.stamp) view.rows) }
    {
        self.lists.get(cell)
    }

    /// The n-th 32 slots of a cell.
    pub fn slots(&self, cell: u32, n: u32) -> &[Slot]
        requires { 32 * n < length (kept_in cell self.now.kept) }
        ensures { result.now ≡ map slot_of (take 32 (drop (32 * n) (kept_in cell self.now.kept))) }
    {
        match self.cell(cell) {
            Some(view) => view.slots(n),
            None => unreachable!(),
        }
    }

    /// The codes of the n-th 32 slots of a cell. Those past the last row mean nothing. The meter counts one.
    pub fn block(&self, cell: u32, n: u32, blocks: &mut BlockMeter) -> BlockRef<'_, S>
        requires there { 32 * n < length (kept_in cell self.now.kept) }
        requires meter { blocks.old ≤ 2 ^ 63 }
        ensures codes { (i : ℕ) → i < 32 → 32 * n + i < length (kept_in cell self.now.kept) → code_of_words S.widths (slice_index_or result i []) ≡ (row_at (kept_in cell self.now.kept) (32 * n + i)).row.code }
        ensures words { IsBlock S.widths self.now.g result }
        ensures meter { blocks.new ≡ blocks.old + 1 }
    {
        match self.cell(cell) {
            Some(view) => view.block(n, blocks),
            None => unreachable!(),
        }
    }

    /// How many rows of a cell live at a stamp and pass. It reads no row where the stamp is the present one and all ids pass.
    pub fn count<P: IdSelector>(&self, cell: u32, stamp: u64, filter: &P) -> u32
        requires kept { P.can_pass filter.now }
        requires stamp { IsHeldStamp self.now stamp }
        ensures { result ≡ length (passing_at (P.ranges filter.now) stamp (kept_in cell self.now.kept)) }
    {
        if stamp == self.stamp && filter.is_all() {
            return live_in(&self.lists, cell) as u32;
        }
        count_in(&self.lists, cell, stamp, filter) as u32
    }

    /// How many rows live at a stamp and pass. The stamp is the present one or pinned.
    pub fn passing<P: IdSelector>(&self, stamp: u64, filter: &P) -> u32
        requires kept { P.can_pass filter.now }
        requires stamp { IsHeldStamp self.now stamp }
        ensures { result ≡ length (passing_at (P.ranges filter.now) stamp self.now.kept) }
    {
        self.passing_up_to(stamp, filter, u32::MAX)
    }

    /// The lesser of a number and `passing`. It stops at the first cell with which there are enough, and counts nothing
    /// where the stamp is the present one and all ids pass.
    pub fn passing_up_to<P: IdSelector>(&self, stamp: u64, filter: &P, most: u32) -> u32
        requires kept { P.can_pass filter.now }
        requires stamp { IsHeldStamp self.now stamp }
        ensures count { result ≡ min most (length (passing_at (P.ranges filter.now) stamp self.now.kept)) }
        ensures few { length (passing_at (P.ranges filter.now) stamp self.now.kept) ≤ 8388608 }
        ensures most { length (passing_at (P.ranges filter.now) stamp self.now.kept) ≤ self.now.most }
    {
        if stamp == self.stamp && filter.is_all() {
            return self.live.min(most);
        }
        count_up_to(&self.lists, self.cells, stamp, filter, most)
    }

    /// Pins the present stamp and gives it: its rows stay until it is unpinned. Where 64 pins are held, nothing changes.
    pub fn pin(&mut self) -> Result<u64, Sessions>
        ensures ok { IfOk result (λ stamp. stamp ≡ self.old.stamp) }
        ensures room { OnOk result (length self.old.pins < 64) }
        ensures pins { OnOk result (self.new ≡ record self.old { pins = self.old.pins ++ self.old.stamp ∷ [] }) }
        ensures full { OnErr result (length self.old.pins ≡ 64) }
        ensures err { OnErr result (self.new ≡ self.old) }
    {
        if self.pinned == 64 {
            return Err(Sessions);
        }
        self.pins[self.pinned] = self.stamp;
        self.pinned += 1;
        Ok(self.stamp)
    }

    /// Takes one pin of a stamp away, and lets go of rows in every cell that has many that are held no more.
    pub fn unpin(&mut self, stamp: u64)
        requires { Contains self.old.pins stamp }
        ensures pins { Unpins stamp self.old.pins self.new.pins }
        ensures keeps { KeepsAs self.new (record self.old { pins = self.new.pins }) }
    {
        self.pinned = remove_pin(&mut self.pins, self.pinned, stamp);
        let needed = settle_all(
            &mut self.lists,
            &mut self.ids,
            self.cells,
            &self.pins[..self.pinned],
        );
        self.needed = needed as u32;
    }

    /// Whether a live row has the id.
    pub fn contains(&self, id: u32) -> bool
        ensures { result ≡ has_id (live_rows self.now) id }
    {
        id <= 2_147_483_647 && self.ids.get(id).is_some()
    }
}

impl<S: Shape> CellStore<S> {
    /// Adds a row as the last of its cell and of all rows. A refusal changes nothing; the causes are tried in the order
    /// of `InsertRefusal`.
    pub fn insert(&mut self, id: u32, cell: u32, code: &[u16]) -> Result<(), InsertRefusal>
        requires id { id ≤ 2147483647 }
        requires cell { cell < self.old.cells }
        requires words { AreCodeWords S.widths self.old.g code.now }
        requires stamp { self.old.stamp < 2 ^ 62 }
        ensures refusals { RefusesAs (insert_refusal self.old id) InsertRefusal.Memory result }
        ensures ok { OnOk result (self.new ≡ inserted self.old (record { id = id; cell = cell; code = code_of_words S.widths code.now })) }
        ensures err { OnErr result (self.new ≡ self.old) }
    {
        if self.most <= self.live {
            return Err(there_or(&self.ids, id, InsertRefusal::Full));
        }
        if 2 * self.most <= self.live + self.needed {
            return Err(there_or(&self.ids, id, InsertRefusal::Held));
        }
        let born = self.stamp + 1;
        let slot = Slot {
            id,
            born,
            died: NEVER,
        };
        let place = place_at(cell, kept_count(&self.lists, cell));
        match give_place(&mut self.ids, id, place) {
            Ok(()) => {}
            Err(refusal) => return Err(refusal),
        }
        if add_row(
            &mut self.lists,
            &mut self.used,
            self.cells,
            cell,
            slot,
            code,
        )
        .is_err()
        {
            self.ids.remove(id);
            return Err(InsertRefusal::Memory);
        }
        self.stamp = born;
        self.live += 1;
        Ok(())
    }
}

impl<S: Shape> CellStore<S> {
    /// Puts a row as the last of its cell and of all rows, in the place of the live row of its id, if there is one, and
    /// says whether there was. A refusal changes nothing; the causes are tried in the order of `PutRefusal`.
    pub fn put(&mut self, id: u32, cell: u32, code: &[u16]) -> Result<bool, PutRefusal>
        requires id { id ≤ 2147483647 }
        requires cell { cell < self.old.cells }
        requires words { AreCodeWords S.widths self.old.g code.now }
        requires stamp { self.old.stamp < 2 ^ 62 }
        ensures replaced { IfOk result (λ replaced. replaced ≡ has_id (live_rows self.old) id) }
        ensures keeps { OnOk result (KeepsAs self.new (put_done self.old (record { id = id; cell = cell; code = code_of_words S.widths code.now }))) }
        ensures refusals { RefusesAs (put_cause self.old (record { id = id; cell = cell; code = code_of_words S.widths code.now })) PutRefusal.Memory result }
        ensures insert { OnOk result (has_id (live_rows self.old) id ≡ false → self.new ≡ inserted self.old (record { id = id; cell = cell; code = code_of_words S.widths code.now })) }
        ensures err { OnErr result (self.new ≡ self.old) }
    {
        let Some(place) = find_row(&self.ids, &self.lists, id) else {
            return self.put_new(id, cell, code);
        };
        let now = self.stamp + 1;
        let ended = Slot {
            id,
            born: place.born,
            died: now,
        };
        let needs = is_needed(&ended, &self.pins[..self.pinned]);
        if 2 * self.most < self.live + (self.needed + one_if(needs)) {
            return Err(PutRefusal::Held);
        }
        let slot = Slot {
            id,
            born: now,
            died: NEVER,
        };
        let last = place_at(cell, kept_count(&self.lists, cell));
        if add_row(
            &mut self.lists,
            &mut self.used,
            self.cells,
            cell,
            slot,
            code,
        )
        .is_err()
        {
            return Err(PutRefusal::Memory);
        }
        self.ids.set(id, last);
        end_row(
            &mut self.lists,
            &mut self.ids,
            &mut self.used,
            self.cells,
            place,
            now,
            &self.pins[..self.pinned],
        );
        self.stamp = now;
        self.needed += one_if(needs);
        Ok(true)
    }

    /// Puts a row whose id is not live.
    fn put_new(&mut self, id: u32, cell: u32, code: &[u16]) -> Result<bool, PutRefusal>
        requires id { id ≤ 2147483647 }
        requires cell { cell < self.old.cells }
        requires words { AreCodeWords S.widths self.old.g code.now }
        requires stamp { self.old.stamp < 2 ^ 62 }
        requires absent { has_id (live_rows self.old) id ≡ false }
        ensures refusals { RefusesAs (put_refusal self.old id) PutRefusal.Memory result }
        ensures replaced { IfOk result (λ replaced. replaced ≡ false) }
        ensures new { OnOk result (self.new ≡ inserted self.old (record { id = id; cell = cell; code = code_of_words S.widths code.now })) }
        ensures err { OnErr result (self.new ≡ self.old) }
    {
        match self.insert(id, cell, code) {
            Ok(()) => Ok(false),
            Err(refusal) => Err(put_refusal_of(refusal)),
        }
    }

    /// Takes the live row of an id out; the others keep their order. Where no live row has the id, nothing changes.
    pub fn delete(&mut self, id: u32) -> Result<(), Absent>
        requires id { id ≤ 2147483647 }
        requires stamp { self.old.stamp < 2 ^ 62 }
        ensures there { OnOk result (has_id (live_rows self.old) id ≡ true) }
        ensures keeps { OnOk result (KeepsAs self.new (deleted self.old id)) }
        ensures absent { OnErr result (has_id (live_rows self.old) id ≡ false) }
        ensures err { OnErr result (self.new ≡ self.old) }
    {
        let Some(place) = find_row(&self.ids, &self.lists, id) else {
            return Err(Absent);
        };
        self.ids.remove(id);
        let now = self.stamp + 1;
        let needed = end_row(
            &mut self.lists,
            &mut self.ids,
            &mut self.used,
            self.cells,
            place,
            now,
            &self.pins[..self.pinned],
        );
        self.stamp = now;
        self.live -= 1;
        self.needed += one_if(needed);
        Ok(())
    }
}

/// Adds a live row to its cell, and keeps the count of cells with a live row. Where memory runs out, each cell has its rows.
fn add_row<S: Shape>(
    lists: &mut Cells<S>,
    used: &mut u32,
    cells: u32,
    cell: u32,
    slot: Slot,
    code: &[u16],
) -> Result<(), Memory>
    requires words { AreCodeWords S.widths lists.old.g code.now }
    requires live { slot.died ≡ never }
    requires cell { cell < cells }
    requires small { cells ≤ 1048576 }
    requires counted { used.old ≡ used_below (rows_for lists.old) cells }
    ensures ok { OnOk result (Replaces cell (rows_for lists.old) (rows_for lists.new) (rows_for lists.old cell ++ kept_of S.widths cell slot code.now ∷ [])) }
    ensures err { OnErr result ((c : ℕ) → rows_for lists.new c ≡ rows_for lists.old c) }
    ensures g { lists.new.g ≡ lists.old.g }
    ensures counted { used.new ≡ used_below (rows_for lists.new) cells }
{
    let had = lists.push(cell, slot, code)?;
    if !had {
        *used += 1;
    }
    Ok(())
}

/// The cause for a put where an insert of an id that is not live has one.
fn put_refusal_of(refusal: InsertRefusal) -> PutRefusal
    ensures { result ≡ as_put_refusal refusal }
{
    match refusal {
        InsertRefusal::Present | InsertRefusal::Full => PutRefusal::Full,
        InsertRefusal::Held => PutRefusal::Held,
        InsertRefusal::Memory => PutRefusal::Memory,
    }
}

/// The cause that refuses an insert: `Present` if the id has a place, and else another.
fn there_or(ids: &IdTable, id: u32, other: InsertRefusal) -> InsertRefusal
    requires { id ≤ 2147483647 }
    ensures { result ≡ (if is_some (map.get ids.now id) then InsertRefusal.Present else other) }
{
    if ids.get(id).is_some() {
        InsertRefusal::Present
    } else {
        other
    }
}

/// Gives an id a place by one look-up. An id that has one keeps it.
fn give_place(ids: &mut IdTable, id: u32, place: id_table::Place) -> Result<(), InsertRefusal>
    requires id { id ≤ 2147483647 }
    requires place { IsPlace place }
    ensures put { OnOk result (ids.new ≡ map.insert ids.old id place) }
    ensures free { OnOk result (map.get ids.old id ≡ None) }
    ensures refused { IfErr result (λ cause. cause ≡ (if is_some (map.get ids.old id) then InsertRefusal.Present else InsertRefusal.Memory)) }
    ensures err { OnErr result (ids.new ≡ ids.old) }
{
    match ids.give(id, place) {
        Ok(true) => Ok(()),
        Ok(false) => Err(InsertRefusal::Present),
        Err(_) => Err(InsertRefusal::Memory),
    }
}

/// 1 for true.
fn one_if(so: bool) -> u32
    ensures { result ≡ (if so then 1 else 0) }
{
    if so { 1 } else { 0 }
}

/// Ends the row of a place, keeps the count of cells with a live row, and says whether a pinned stamp needs the row.
fn end_row<S: Shape>(
    lists: &mut Cells<S>,
    ids: &mut IdTable,
    used: &mut u32,
    cells: u32,
    place: Place,
    now: u64,
    pins: &[u64],
) -> bool
    requires rising { Rising (rows_for lists.old place.cell) }
    requires there { SomeIndex (rows_for lists.old place.cell) (λ i. ((row_at (rows_for lists.old place.cell) i).born ≡ place.born) × (is_live (row_at (rows_for lists.old place.cell) i) ≡ true)) }
    requires now { now < never }
    requires past { (c : ℕ) → cells ≤ c → rows_for lists.old c ≡ [] }
    requires small { cells ≤ 1048576 }
    requires counted { used.old ≡ used_below (rows_for lists.old) cells }
    requires few { length (rows_for lists.old place.cell) ≤ 16777280 }
    requires ids { AllByRecursion (λ k. k.row.id ≤ 2147483647) (rows_for lists.old place.cell) }
    ensures ends { Ends place.born now pins.now (rows_for lists.old place.cell) (rows_for lists.new place.cell) result }
    ensures others { (c : ℕ) → c ≢ place.cell → rows_for lists.new c ≡ rows_for lists.old c }
    ensures g { lists.new.g ≡ lists.old.g }
    ensures counted { used.new ≡ used_below (rows_for lists.new) cells }
    ensures groups { Regroups (rows_for lists.new) place.cell (length (rows_for lists.old place.cell)) ids.old ids.new }
{
    let kept = kept_count(lists, place.cell);
    let before = used_at(lists, place.cell);
    let needed = lists.finish(place, now, pins);
    *used = *used + used_at(lists, place.cell) - before;
    regroup(ids, lists, place.cell, kept);
    needed
}

/// Lets go of the rows that are not held in each cell that has many, and counts the dead rows that are needed.
fn settle_all<S: Shape>(lists: &mut Cells<S>, ids: &mut IdTable, cells: u32, pins: &[u64]) -> usize
    requires past { (c : ℕ) → cells ≤ c → rows_for lists.old c ≡ [] }
    requires few { (c : ℕ) → length (rows_for lists.old c) ≤ 16777248 }
    requires small { cells ≤ 1048576 }
    requires ids { (c : ℕ) → AllByRecursion (λ k. k.row.id ≤ 2147483647) (rows_for lists.old c) }
    ensures tidied { (c : ℕ) → IsTidied pins.now (rows_for lists.old c) (rows_for lists.new c) }
    ensures few { (c : ℕ) → AreFew pins.now (rows_for lists.new c) }
    ensures needed { result ≡ length (filter (is_needed_dead pins.now) (rows_below (rows_for lists.new) cells)) }
    ensures g { lists.new.g ≡ lists.old.g }
    ensures groups { StaysGrouped (rows_for lists.old) (rows_for lists.new) ids.old ids.new }
{
    let mut needed = 0;
    let mut from = 0;
    'cells: loop {
        match lists.next(from) {
            Some(cell) => {
                let kept = kept_count(lists, cell);
                needed += lists.settle(cell, pins);
                regroup(ids, lists, cell, kept);
                from = cell + 1;
            }
            None => return needed,
        }
    }
}

/// Takes one pin of a stamp away from the first so many, and gives how many are left.
fn remove_pin(pins: &mut [u64], pinned: usize, stamp: u64) -> usize
    requires room { pinned ≤ length pins.old }
    requires there { Contains (take pinned pins.old) stamp }
    ensures left { result + 1 ≡ pinned }
    ensures pins { Unpins stamp (take pinned pins.old) (take result pins.new) }
{
    let at = find_pin(&pins[..pinned], stamp);
    close_up(pins, at, pinned);
    pinned - 1
}

/// Where a stamp stands among the pins.
fn find_pin(pins: &[u64], stamp: u64) -> usize
    requires { Contains pins.now stamp }
    ensures within { result < length pins.now }
    ensures found { slice_index pins.now result ≡ stamp }
{
    for (i, pin) in pins.iter().enumerate() {
        if *pin == stamp {
            return i;
        }
    }
    unreachable!()
}

/// Moves the first n pins past a place one place down.
fn close_up(pins: &mut [u64], at: usize, n: usize)
    requires at { at < n }
    requires n { n ≤ length pins.old }
    ensures before { (k : ℕ) → k < at → slice_index pins.new k ≡ slice_index pins.old k }
    ensures behind { (k : ℕ) → at ≤ k → k + 1 < n → slice_index pins.new k ≡ slice_index pins.old (k + 1) }
{
    for j in at + 1..n {
        pins[j - 1] = pins[j];
    }
}
