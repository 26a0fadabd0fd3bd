//! The rows that a cell keeps: their slots, and their codes in one stretch of blocks.

ghost use Rattle.std.specs.Prelude.{◌≡◌, ◌*◌, ◌+◌, ◌<◌, ◌≤◌, ℕ, [], ◌∷◌, ◌++◌, length, take, drop, slice_set, slice_index_or, filter, SomeIndex, true, OnOk, OnErr, IfOk, min};
ghost use Rattle.std.specs.List.{list_any};
ghost use Rattle.shape_core.specs.Word.{AreCodeWords, code_of_words};
ghost use Rattle.code_blocks.specs.Codes.{IsBlock};
ghost use Rattle.cell_store.specs.State.{is_held, is_live, never};
ghost use Rattle.cell_store.specs.Cells.{Ends, AreFew, IsTidied, is_needed_dead};
ghost use Rattle.cell_store.specs.Slots.{slot_lives, slot_held, slot_needed_dead, slot_is_live, slot_at, AreRising};
ghost use Rattle.cell_store.specs.Blocks.{kept_of, row_at};
ghost use Rattle.cell_store.specs.Tables.{HasCodes, IsCounted, rows_in};

use crate::{NEVER, Slot};
use adc_ports::Memory;
use code_blocks::{BlockRef, Codes};
use shape_core::Shape;
use std::alloc::Global;

/// The rows of a cell in order: their slots, how many of them are live, and their codes.
#[derive(Drop)]
pub struct Rows {
    pub slots: Vec<Slot>,
    pub live: usize,
    pub codes: Codes,
}

impl Rows {
    /// No rows, for codes of g words.
    pub fn new(alloc: Global, g: u32) -> Rows
        requires { (1 ≤ g) × (g ≤ 32) }
        ensures slots { result.slots.items ≡ [] }
        ensures live { result.live ≡ 0 }
        ensures codes { result.codes ≡ record { g = g; codes = [] } }
    {
        Rows {
            slots: Vec::new(alloc),
            live: 0,
            codes: Codes::new(alloc, g),
        }
    }

    /// Adds a live row, and says whether there was one. Where memory runs out, the rows stay.
    pub fn push<S: Shape>(&mut self, slot: Slot, code: &[u16]) -> Result<bool, Memory>
        requires is { HasCodes S.widths self.old.codes.g self.old }
        requires counted { IsCounted self.old }
        requires words { AreCodeWords S.widths self.old.codes.g code.now }
        requires live { slot.died ≡ never }
        ensures ok { OnOk result ((cell : ℕ) → rows_in S.widths cell self.new ≡ rows_in S.widths cell self.old ++ kept_of S.widths cell slot code.now ∷ []) }
        ensures err { OnErr result ((cell : ℕ) → rows_in S.widths cell self.new ≡ rows_in S.widths cell self.old) }
        ensures had { IfOk result (λ had. (cell : ℕ) → had ≡ list_any is_live (rows_in S.widths cell self.old)) }
        ensures is { HasCodes S.widths self.old.codes.g self.new }
        ensures counted { IsCounted self.new }
    {
        let at = self.slots.len();
        self.codes.reserve(at)?;
        push_slot(&mut self.slots, slot)?;
        self.codes.set(at, code);
        let had = 0 < self.live;
        self.live += 1;
        Ok(had)
    }

    /// Copies a row over another.
    fn copy<S: Shape>(&mut self, from: usize, to: usize)
        requires is { HasCodes S.widths self.old.codes.g self.old }
        requires from { from < length self.old.slots.items }
        requires to { to < length self.old.slots.items }
        ensures rows { (cell : ℕ) → rows_in S.widths cell self.new ≡ slice_set (rows_in S.widths cell self.old) to (row_at (rows_in S.widths cell self.old) from) }
        ensures size { length self.new.slots.items ≡ length self.old.slots.items }
        ensures live { self.new.live ≡ self.old.live }
        ensures is { HasCodes S.widths self.old.codes.g self.new }
    {
        let mut code = [0; 32];
        let words = &mut code[..self.codes.g()];
        self.codes.get(from, words);
        self.codes.set(to, words);
        self.slots[to] = self.slots[from];
    }

    /// Lets go of the rows past the first n.
    fn truncate<S: Shape>(&mut self, n: usize)
        requires is { HasCodes S.widths self.old.codes.g self.old }
        requires n { n ≤ length self.old.slots.items }
        ensures rows { (cell : ℕ) → rows_in S.widths cell self.new ≡ take n (rows_in S.widths cell self.old) }
        ensures live { self.new.live ≡ self.old.live }
        ensures is { HasCodes S.widths self.old.codes.g self.new }
    {
        self.slots.truncate(n);
        self.codes.truncate(n);
    }
}

/// Adds a slot. Where memory runs out, the slots stay. Room is made for an eighth more.
fn push_slot(slots: &mut Vec<Slot>, slot: Slot) -> Result<(), Memory>
    ensures ok { OnOk result (slots.new.items ≡ slots.old.items ++ slot ∷ []) }
    ensures err { OnErr result (slots.new.items ≡ slots.old.items) }
{
    let len = slots.len();
    if slots.capacity() == len && slots.reserve_exact(4 + len / 8).is_err() {
        return Err(Memory);
    }
    match slots.push(slot) {
        Ok(()) => Ok(()),
        Err(_) => Err(Memory),
    }
}

/// Whether a row lives at a stamp.
pub fn lives(slot: &Slot, stamp: u64) -> bool
    ensures { result ≡ slot_lives stamp slot.now }
{
    slot.born <= stamp && stamp < slot.died
}

/// Whether a row is live, or dead and needed by a pinned stamp.
pub fn is_held(slot: &Slot, pins: &[u64]) -> bool
    ensures { result ≡ slot_held pins.now slot.now }
{
    slot.died == NEVER || is_needed(slot, pins)
}

/// Whether a pinned stamp needs a row.
pub fn is_needed(slot: &Slot, pins: &[u64]) -> bool
    ensures { result ≡ list_any (λ s. slot_lives s slot.now) pins.now }
{
    pins.iter().any(|stamp| lives(slot, *stamp))
}

/// How many rows are held.
pub fn held_count(slots: &[Slot], pins: &[u64]) -> usize
    ensures { result ≡ length (filter (slot_held pins.now) slots.now) }
{
    slots.iter().filter(|slot| is_held(slot, pins)).count()
}

/// Where the row of a birth lies. Births rise along the slots.
pub fn find_born(slots: &[Slot], born: u64) -> usize
    requires rising { AreRising slots.now }
    requires there { SomeIndex slots.now (λ i. (slot_at slots.now i).born ≡ born) }
    ensures within { result < length slots.now }
    ensures found { (slot_at slots.now result).born ≡ born }
{
    let mut low = 0;
    let mut high = slots.len();
    while 1 < high - low {
        let middle = low + (high - low) / 2;
        if slots[middle].born <= born {
            low = middle;
        } else {
            high = middle;
        }
    }
    low
}

impl Rows {
    /// Lets go of the rows that are neither live nor needed, and keeps the order of the others.
    fn compact<S: Shape>(&mut self, pins: &[u64])
        requires is { HasCodes S.widths self.old.codes.g self.old }
        requires counted { IsCounted self.old }
        ensures rows { (cell : ℕ) → rows_in S.widths cell self.new ≡ filter (is_held pins.now) (rows_in S.widths cell self.old) }
        ensures counted { IsCounted self.new }
        ensures is { HasCodes S.widths self.old.codes.g self.new }
    {
        let mut to = 0;
        for from in 0..self.slots.len() {
            if is_held(&self.slots[from], pins) {
                self.copy::<S>(from, to);
                to += 1;
            }
        }
        self.truncate::<S>(to);
    }

    /// Ends the row that was born at a stamp, and lets go of rows that are not held where they are many. Says whether
    /// a pinned stamp needs the row.
    pub fn finish<S: Shape>(&mut self, born: u64, now: u64, pins: &[u64]) -> bool
        requires is { HasCodes S.widths self.old.codes.g self.old }
        requires counted { IsCounted self.old }
        requires rising { AreRising self.old.slots.items }
        requires there { SomeIndex self.old.slots.items (λ i. ((slot_at self.old.slots.items i).born ≡ born) × (slot_is_live (slot_at self.old.slots.items i) ≡ true)) }
        requires now { now < never }
        ensures ends { (cell : ℕ) → Ends born now pins.now (rows_in S.widths cell self.old) (rows_in S.widths cell self.new) result }
        ensures counted { IsCounted self.new }
        ensures is { HasCodes S.widths self.old.codes.g self.new }
    {
        let at = find_born(&self.slots, born);
        self.slots[at].died = now;
        self.live -= 1;
        let needed = is_needed(&self.slots[at], pins);
        self.tidy::<S>(pins);
        needed
    }

    /// Lets go of rows that are not held where they are many. It looks at no row where the live ones are enough.
    fn tidy<S: Shape>(&mut self, pins: &[u64])
        requires is { HasCodes S.widths self.old.codes.g self.old }
        requires counted { IsCounted self.old }
        ensures tidied { (cell : ℕ) → IsTidied pins.now (rows_in S.widths cell self.old) (rows_in S.widths cell self.new) }
        ensures few { (cell : ℕ) → AreFew pins.now (rows_in S.widths cell self.new) }
        ensures counted { IsCounted self.new }
        ensures is { HasCodes S.widths self.old.codes.g self.new }
    {
        let kept = self.slots.len();
        if kept <= allowed(self.live) {
            return;
        }
        let held = held_count(&self.slots, pins);
        if allowed(held) < kept {
            self.compact::<S>(pins);
        }
    }

    /// Lets go of rows that are not held where they are many, and counts the dead ones that are needed. It looks at no row
    /// where all are live.
    pub fn settle<S: Shape>(&mut self, pins: &[u64]) -> usize
        requires is { HasCodes S.widths self.old.codes.g self.old }
        requires counted { IsCounted self.old }
        ensures tidied { (cell : ℕ) → IsTidied pins.now (rows_in S.widths cell self.old) (rows_in S.widths cell self.new) }
        ensures few { (cell : ℕ) → AreFew pins.now (rows_in S.widths cell self.new) }
        ensures needed { (cell : ℕ) → result ≡ length (filter (is_needed_dead pins.now) (rows_in S.widths cell self.new)) }
        ensures counted { IsCounted self.new }
        ensures is { HasCodes S.widths self.old.codes.g self.new }
    {
        if self.live == self.slots.len() {
            return 0;
        }
        self.tidy::<S>(pins);
        needed_dead_count(&self.slots, pins)
    }
}

/// How many rows a cell may keep of which so many are held.
fn allowed(held: usize) -> usize
    ensures { result ≡ min (2 * held + 32) 18446744073709551615 }
{
    held.saturating_mul(2).saturating_add(32)
}

/// How many dead rows pinned stamps need.
fn needed_dead_count(slots: &[Slot], pins: &[u64]) -> usize
    ensures { result ≡ length (filter (slot_needed_dead pins.now) slots.now) }
{
    slots
        .iter()
        .filter(|slot| is_needed_dead(slot, pins))
        .count()
}

fn is_needed_dead(slot: &Slot, pins: &[u64]) -> bool
    ensures { result ≡ slot_needed_dead pins.now slot.now }
{
    slot.died != NEVER && is_needed(slot, pins)
}
