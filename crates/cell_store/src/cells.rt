//! The rows of all cells: a table with the key of each cell's entry, and the slab of the entries.

ghost use Rattle.std.specs.Prelude.{◌≡◌, ◌≢◌, ◌+◌, ◌<◌, ◌≤◌, ℕ, [], ◌∷◌, ◌++◌, length, filter, Some, None, true, IfSome, SomeIndex, MatchOption, OnOk, OnErr, IfOk, option_copied, Option};
ghost use Rattle.std.specs.List.{list_any, AllByRecursion};
ghost use Rattle.slab.specs.Slab.{get as slab_get};
ghost use Rattle.shape_core.specs.Word.{AreCodeWords, IsCode};
ghost use Rattle.cell_store.specs.State.{is_live, never, Rising};
ghost use Rattle.cell_store.specs.Blocks.{CellRows, row_at, kept_of};
ghost use Rattle.cell_store.specs.Tables.{AreEntries, IsNewEntry, key_at, entry_at, rows_at_cell};
ghost use Rattle.cell_store.specs.Cells.{rows_for, Replaces, Ends, IsTidied, AreFew, is_needed_dead};

use crate::Slot;
use crate::rows::Rows;
use crate::store::Place;
use crate::view::CellView;
use adc_ports::Memory;
use shape_core::Shape;
use slab::Slab;
use std::alloc::Global;
use std::marker::{Model, PhantomData};

/// The rows of each cell. The table has, at the number of a cell that ever had a row, the key of its entry in the slab.
/// Contracts see what each cell keeps.
#[derive(Drop)]
pub struct Cells<S: Shape> {
    alloc: Global,
    g: u32,
    keys: Vec<Option<usize>>,
    entries: Slab<Rows>,
    shape: PhantomData<S>,
}

impl<S: Shape> Model for Cells<S> {
    ghost use Rattle.cell_store.specs.Cells.{Table};

    ghost Value = { Table };

    ghost use Rattle.cell_store.specs.Tables.{table_of, AreEntries};

    ghost view = { λ s. table_of S.widths s.g s.keys.items s.entries };

    ghost invariant = { λ s. AreEntries S.widths s.g s.keys.items s.entries };
}

impl<S: Shape> Cells<S> {
    /// No rows, for codes of g words.
    #[tactic(auto, unfolding(crate::specs::Tables::table_of))]
    pub fn new(alloc: Global, g: u32) -> Cells<S>
        requires { (1 ≤ g) × (g ≤ 32) }
        ensures { result ≡ record { g = g; lists = [] } }
    {
        Cells {
            alloc,
            g,
            keys: Vec::new(alloc),
            entries: Slab::new(alloc),
            shape: PhantomData,
        }
    }

    /// Each code has a field for each place, within its width.
    pub fn codes_fit(&self)
        ensures { (c : ℕ) → AllByRecursion (λ k. IsCode S.widths self.now.g k.row.code) (rows_for self.now c) }
    {
        let _keys = &self.keys;
    }

    /// The rows of a cell, if it keeps some.
    pub fn get(&self, cell: u32) -> Option<CellView<'_, S>>
        ensures { MatchOption result (rows_for self.now cell ≡ []) (λ view. (view ≡ record { cell = cell; g = self.now.g; rows = rows_for self.now cell }) × (0 < length view.rows)) }
    {
        match entry_of(&self.keys, &self.entries, cell) {
            Some(rows) => {
                if rows.slots.len() == 0 {
                    return None;
                }
                Some(CellView::new(cell, rows))
            }
            None => None,
        }
    }

    /// The least cell from a number on that keeps a row.
    pub fn next(&self, from: u32) -> Option<u32>
        ensures { MatchOption result ((c : ℕ) → from ≤ c → rows_for self.now c ≡ []) (λ cell. (from ≤ cell) × (0 < length (rows_for self.now cell)) × ((c : ℕ) → from ≤ c → c < cell → rows_for self.now c ≡ [])) }
    {
        for cell in from..self.keys.len() as u32 {
            if let Some(_view) = self.get(cell) {
                return Some(cell);
            }
        }
        None
    }

    /// Adds a live row to its cell, and says whether the cell had one. Where memory runs out, each cell has its rows.
    pub fn push(&mut self, cell: u32, slot: Slot, code: &[u16]) -> Result<bool, Memory>
        requires cell { cell < 1048576 }
        requires words { AreCodeWords S.widths self.old.g code.now }
        requires live { slot.died ≡ never }
        ensures ok { OnOk result (Replaces cell (rows_for self.old) (rows_for self.new) (rows_for self.old cell ++ kept_of S.widths cell slot code.now ∷ [])) }
        ensures err { OnErr result ((c : ℕ) → rows_for self.new c ≡ rows_for self.old c) }
        ensures had { IfOk result (λ had. had ≡ list_any is_live (rows_for self.old cell)) }
        ensures g { self.new.g ≡ self.old.g }
    {
        let key = make_entry::<S>(&mut self.keys, &mut self.entries, self.alloc, self.g, cell)?;
        let rows = &mut self.entries[key];
        rows.push::<S>(slot, code)
    }

    /// Ends the row of a place in its cell, and says whether a pinned stamp needs it. The cell may be left with no rows.
    pub fn finish(&mut self, place: Place, now: u64, pins: &[u64]) -> bool
        requires rising { Rising (rows_for self.old place.cell) }
        requires there { SomeIndex (rows_for self.old place.cell) (λ i. ((row_at (rows_for self.old place.cell) i).born ≡ place.born) × (is_live (row_at (rows_for self.old place.cell) i) ≡ true)) }
        requires now { now < never }
        ensures ends { Ends place.born now pins.now (rows_for self.old place.cell) (rows_for self.new place.cell) result }
        ensures others { (c : ℕ) → c ≢ place.cell → rows_for self.new c ≡ rows_for self.old c }
        ensures g { self.new.g ≡ self.old.g }
    {
        match key_of(&self.keys, place.cell) {
            Some(key) => {
                let rows = &mut self.entries[key];
                rows.finish::<S>(place.born, now, pins)
            }
            None => unreachable!(),
        }
    }

    /// Lets go of the rows of a cell that are not held where they are many, and counts its dead rows that are needed. The
    /// cell may be left with no rows.
    pub fn settle(&mut self, cell: u32, pins: &[u64]) -> usize
        requires { 0 < length (rows_for self.old cell) }
        ensures tidied { IsTidied pins.now (rows_for self.old cell) (rows_for self.new cell) }
        ensures few { AreFew pins.now (rows_for self.new cell) }
        ensures needed { result ≡ length (filter (is_needed_dead pins.now) (rows_for self.new cell)) }
        ensures others { (c : ℕ) → c ≢ cell → rows_for self.new c ≡ rows_for self.old c }
        ensures g { self.new.g ≡ self.old.g }
    {
        match key_of(&self.keys, cell) {
            Some(key) => {
                let rows = &mut self.entries[key];
                rows.settle::<S>(pins)
            }
            None => unreachable!(),
        }
    }
}

/// The key of a cell's entry.
fn key_of(keys: &[Option<usize>], cell: u32) -> Option<usize>
    ensures { result ≡ key_at keys.now cell }
{
    if keys.len() <= cell as usize {
        return None;
    }
    keys[cell as usize]
}

/// The entry of a cell.
fn entry_of<'a>(keys: &[Option<usize>], entries: &'a Slab<Rows>, cell: u32) -> Option<&'a Rows>
    ensures { option_copied result ≡ entry_at keys.now entries.now cell }
{
    match key_of(keys, cell) {
        Some(key) => entries.get(key),
        None => None,
    }
}

/// Gives the key of a cell's entry, and makes one with no rows where there is none. Each cell has its rows.
fn make_entry<S: Shape>(
    keys: &mut Vec<Option<usize>>,
    entries: &mut Slab<Rows>,
    alloc: Global,
    g: u32,
    cell: u32,
) -> Result<usize, Memory>
    requires cell { cell < 1048576 }
    requires entries { AreEntries S.widths g keys.old.items entries.old }
    ensures entries { AreEntries S.widths g keys.new.items entries.new }
    ensures key { IfOk result (λ key. key_at keys.new.items cell ≡ Some key) }
    ensures same { (c : ℕ) → rows_at_cell S.widths keys.new.items entries.new c ≡ rows_at_cell S.widths keys.old.items entries.old c }
{
    if let Some(key) = key_of(keys, cell) {
        return Ok(key);
    }
    widen(keys, cell as usize)?;
    let key = new_entry(entries, alloc, g)?;
    keys[cell as usize] = Some(key);
    Ok(key)
}

/// Adds an entry with no rows.
fn new_entry(entries: &mut Slab<Rows>, alloc: Global, g: u32) -> Result<usize, Memory>
    requires { (1 ≤ g) × (g ≤ 32) }
    ensures made { IfOk result (λ key. IsNewEntry g entries.old entries.new key) }
    ensures err { OnErr result ((key : ℕ) → slab_get entries.new key ≡ slab_get entries.old key) }
{
    match entries.insert(Rows::new(alloc, g)) {
        Ok(key) => Ok(key),
        Err(_) => Err(Memory),
    }
}

/// Makes a place for the key of a cell.
fn widen(keys: &mut Vec<Option<usize>>, at: usize) -> Result<(), Memory>
    requires at { at < 1048576 }
    requires few { length keys.old.items ≤ 1048576 }
    ensures room { OnOk result (at < length keys.new.items) }
    ensures same { (c : ℕ) → key_at keys.new.items c ≡ key_at keys.old.items c }
    ensures few { length keys.new.items ≤ 1048576 }
{
    if at < keys.len() {
        return Ok(());
    }
    match keys.resize(at + 1, None) {
        Ok(()) => Ok(()),
        Err(_) => Err(Memory),
    }
}
