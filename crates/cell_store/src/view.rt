//! What a store shows of its cells, and what it counts.

ghost use Rattle.std.specs.Prelude.{◌≡◌, ◌≢◌, ◌+◌, ◌*◌, ◌^◌, ◌<◌, ◌≤◌, ◌⊎◌, ℕ, [], length, map, take, drop, min, filter, slice_index_or, IsSome, None, MatchOption, IfSome, IfNone, not};
ghost use Rattle.std.specs.List.{AllByRecursion, list_any, list_all};
ghost use Rattle.shape_core.specs.Word.{code_of_words};
ghost use Rattle.cell_store.specs.State.{is_live, Kept, kept_in, held_in, rows_at};
ghost use Rattle.code_blocks.specs.Codes.{IsBlock};
ghost use Rattle.cell_store.specs.Blocks.{CellRows, row_at, slot_of};
ghost use Rattle.cell_store.specs.Tables.{HasCodes, IsCounted, rows_in};
ghost use Rattle.cell_store.specs.Cells.{rows_for, rows_below, used_in};
ghost use Rattle.cell_store.specs.Slots.{slot_at, slot_passes, slot_is_live};

use crate::cells::Cells;
use crate::meter::BlockMeter;
use crate::rows::{Rows, lives};
use crate::{NEVER, Slot};
use code_blocks::BlockRef;
use id_filter::IdSelector;
use shape_core::Shape;
use std::marker::{Model, PhantomData};

/// The rows of one cell, as a store lends them. Contracts see it as its number, the words of a
/// code and the list of its kept rows, dead ones among them.
#[derive(Drop)]
pub struct CellView<'a, S: Shape> {
    cell: u32,
    rows: &'a Rows,
    shape: PhantomData<S>,
}

impl<'a, S: Shape> Model for CellView<'a, S> {
    ghost use Rattle.cell_store.specs.Blocks.{CellRows};

    ghost Value = { CellRows };

    ghost use Rattle.cell_store.specs.Tables.{rows_in, HasCodes, IsCounted};

    ghost view = { λ view. record { cell = view.cell; g = view.rows.now.codes.g; rows = rows_in S.widths view.cell view.rows.now } };

    ghost invariant = { λ view. HasCodes S.widths view.rows.now.codes.g view.rows.now × IsCounted view.rows.now };
}

impl<'a, S: Shape> CellView<'a, S> {
    /// The view of the rows of a cell.
    pub(crate) fn new(cell: u32, rows: &'a Rows) -> CellView<'a, S>
        requires is { HasCodes S.widths rows.now.codes.g rows.now }
        requires counted { IsCounted rows.now }
        ensures { result ≡ record { cell = cell; g = rows.now.codes.g; rows = rows_in S.widths cell rows.now } }
    {
        CellView {
            cell,
            rows,
            shape: PhantomData,
        }
    }

    /// The number of the cell.
    pub fn cell(&self) -> u32
        ensures { result ≡ self.now.cell }
    {
        self.cell
    }

    /// How many rows the cell keeps.
    #[tactic(auto, using(crate::proofs::Counting::shown_rows))]
    pub fn kept(&self) -> usize
        ensures { result ≡ length self.now.rows }
    {
        self.rows.slots.len()
    }

    /// Whether the cell has a live row.
    pub fn has_live(&self) -> bool
        ensures { result ≡ list_any is_live self.now.rows }
    {
        0 < self.rows.live
    }

    /// How many rows of the cell are live.
    #[tactic(auto, using(crate::proofs::Counting::shown_rows))]
    pub fn live(&self) -> usize
        ensures { result ≡ length (filter is_live self.now.rows) }
    {
        self.rows.live
    }

    /// Whether no row of the cell is dead.
    pub fn all_live(&self) -> bool
        ensures { result ≡ list_all is_live self.now.rows }
    {
        self.rows.live == self.rows.slots.len()
    }

    /// All slots of the cell.
    #[tactic(auto, using(crate::proofs::Counting::shown_rows))]
    pub(crate) fn all_slots(&self) -> &'a [Slot]
        ensures { result.now ≡ map slot_of self.now.rows }
    {
        &self.rows.slots
    }

    /// The n-th 32 slots of the cell.
    pub fn slots(&self, n: u32) -> &'a [Slot]
        requires { 32 * n < length self.now.rows }
        ensures { result.now ≡ map slot_of (take 32 (drop (32 * n) self.now.rows)) }
    {
        group(self.all_slots(), n as usize * 32)
    }

    /// The codes of the n-th 32 slots. Those past the last row mean nothing. The meter counts one.
    pub fn block(&self, n: u32, blocks: &mut BlockMeter) -> BlockRef<'a, S>
        requires there { 32 * n < length self.now.rows }
        requires meter { blocks.old ≤ 2 ^ 63 }
        ensures codes { (i : ℕ) → i < 32 → 32 * n + i < length self.now.rows → code_of_words S.widths (slice_index_or result i []) ≡ (row_at self.now.rows (32 * n + i)).row.code }
        ensures words { IsBlock S.widths self.now.g result }
        ensures meter { blocks.new ≡ blocks.old + 1 }
    {
        blocks.raise();
        self.rows.codes.block::<S>(n as usize)
    }
}

/// The 32 slots from a place, or as many as there are.
pub(crate) fn group(slots: &[Slot], from: usize) -> &[Slot]
    requires { from < length slots.now }
    ensures { result.now ≡ take 32 (drop from slots.now) }
{
    let rest = &slots[from..];
    if rest.len() < 32 { rest } else { &rest[..32] }
}

/// How many rows of these slots live at a stamp and pass.
fn count_passing<P: IdSelector>(slots: &[Slot], stamp: u64, wanted: &P) -> usize
    requires kept { P.can_pass wanted.now }
    requires ids { (i : ℕ) → i < length slots.now → (slot_at slots.now i).id ≤ 2147483647 }
    ensures { result ≡ length (filter (slot_passes (P.ranges wanted.now) stamp) slots.now) }
{
    let mut count = 0;
    for slot in slots {
        if lives(slot, stamp) && wanted.passes(slot.id) {
            count += 1;
        }
    }
    count
}

/// How many rows a cell keeps.
pub(crate) fn kept_count<S: Shape>(lists: &Cells<S>, cell: u32) -> usize
    ensures { result ≡ length (rows_for lists.now cell) }
{
    match lists.get(cell) {
        Some(rows) => rows.kept(),
        None => 0,
    }
}

/// How many rows of a cell are live.
pub(crate) fn live_in<S: Shape>(lists: &Cells<S>, cell: u32) -> usize
    ensures { result ≡ length (filter is_live (rows_for lists.now cell)) }
{
    match lists.get(cell) {
        Some(rows) => rows.live(),
        None => 0,
    }
}

/// How many rows of a cell live at a stamp and pass.
pub(crate) fn count_in<S: Shape, P: IdSelector>(
    lists: &Cells<S>,
    cell: u32,
    stamp: u64,
    wanted: &P,
) -> usize
    requires kept { P.can_pass wanted.now }
    requires ids { AllByRecursion (λ k. k.row.id ≤ 2147483647) (rows_for lists.now cell) }
    ensures { result ≡ length (filter (λ k. slot_passes (P.ranges wanted.now) stamp (slot_of k)) (rows_for lists.now cell)) }
{
    match lists.get(cell) {
        Some(rows) => count_passing(rows.all_slots(), stamp, wanted),
        None => 0,
    }
}

/// The lesser of a number and the count of rows that live at a stamp and pass. It stops at the first cell with which
/// there are enough.
pub(crate) fn count_up_to<S: Shape, P: IdSelector>(
    lists: &Cells<S>,
    cells: u32,
    stamp: u64,
    wanted: &P,
    most: u32,
) -> u32
    requires kept { P.can_pass wanted.now }
    requires ids { (c : ℕ) → AllByRecursion (λ k. k.row.id ≤ 2147483647) (rows_for lists.now c) }
    requires past { (c : ℕ) → cells ≤ c → rows_for lists.now c ≡ [] }
    requires few { (c : ℕ) → length (rows_for lists.now c) ≤ 16777248 }
    ensures { result ≡ min most (length (filter (λ k. slot_passes (P.ranges wanted.now) stamp (slot_of k)) (rows_below (rows_for lists.now) cells))) }
{
    let enough = most as usize;
    let mut count = 0;
    let mut from = 0;
    while count < enough {
        match lists.next(from) {
            Some(cell) => {
                count += count_in(lists, cell, stamp, wanted);
                from = cell + 1;
            }
            None => return count as u32,
        }
    }
    most
}

/// Whether a cell has a live row.
fn has_live<S: Shape>(lists: &Cells<S>, cell: u32) -> bool
    ensures { result ≡ list_any is_live (rows_for lists.now cell) }
{
    match lists.get(cell) {
        Some(rows) => rows.has_live(),
        None => false,
    }
}

/// 1 for a cell that has a live row.
pub(crate) fn used_at<S: Shape>(lists: &Cells<S>, cell: u32) -> u32
    ensures used { result ≡ used_in (rows_for lists.now) cell }
    ensures few { result ≤ 1 }
{
    if has_live(lists, cell) { 1 } else { 0 }
}
