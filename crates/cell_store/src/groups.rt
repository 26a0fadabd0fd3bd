//! Where the table of ids says that the live rows stand.

ghost use Rattle.std.specs.Prelude.{◌≡◌, ◌≢◌, ◌+◌, ◌*◌, ◌/◌, ◌<◌, ◌≤◌, ℕ, length, false, true, Option, MatchOption, SomeIndex};
ghost use Rattle.std.specs.List.{AllByRecursion};
ghost use Rattle.std.specs.FinMap as map;
ghost use Rattle.cell_store.specs.Cells.{rows_for, IsIndex};
ghost use Rattle.cell_store.specs.Slots.{slot_at};
ghost use Rattle.cell_store.specs.Groups.{listed_at, slot_has, listed_anew, IsGrouped, Regroups};
ghost use Rattle.cell_store.specs.declared.store.Place.{Place};

use crate::cells::Cells;
use crate::store::Place;
use crate::{NEVER, Slot};
use id_table::IdTable;
use shape_core::Shape;

/// How many rows of a cell make a group: so many that 8,190 groups have more rows than a cell may keep.
const GROUP: usize = 2560;

/// The place of the row of a cell that stands behind so many.
pub fn place_at(cell: u32, at: usize) -> id_table::Place
    requires { at ≤ 16777280 }
    ensures { result ≡ listed_at cell at }
{
    id_table::Place {
        cell,
        group: (at / GROUP) as u32,
    }
}

/// The birth of a live row of an id among the slots from a place on and below another.
fn live_born(slots: &[Slot], from: usize, to: usize, id: u32) -> Option<u64>
    ensures { MatchOption result ((k : ℕ) → from ≤ k → k < to → k < length slots.now → slot_has id (slot_at slots.now k) ≡ false) (λ born. SomeIndex slots.now (λ k. ((slot_at slots.now k).born ≡ born) × (slot_has id (slot_at slots.now k) ≡ true))) }
{
    for at in from..to.min(slots.len()) {
        let slot = &slots[at];
        if slot.died == NEVER && slot.id == id {
            return Some(slot.born);
        }
    }
    None
}

/// The live row of an id, found in its group.
pub fn find_row<S: Shape>(ids: &IdTable, lists: &Cells<S>, id: u32) -> Option<Place>
    requires { id ≤ 2147483647 }
    ensures { (places : ℕ → Option Place) → IsIndex (rows_for lists.now) places → IsGrouped (rows_for lists.now) places ids.now → result ≡ places id }
{
    let listed = ids.get(id)?;
    let view = lists.get(listed.cell)?;
    let first = listed.group as usize * GROUP;
    match live_born(view.all_slots(), first, first + GROUP, id) {
        Some(born) => Some(Place {
            cell: listed.cell,
            born,
        }),
        None => None,
    }
}

/// Gives each live row of a cell, if the table lists its id, the group in which it stands.
fn list_groups(ids: &mut IdTable, cell: u32, slots: &[Slot])
    requires cell { cell < 1048576 }
    requires few { length slots.now ≤ 16777280 }
    requires small { (k : ℕ) → k < length slots.now → (slot_at slots.now k).id ≤ 2147483647 }
    ensures { (id : ℕ) → map.get ids.new id ≡ listed_anew cell slots.now (length slots.now) id (map.get ids.old id) }
{
    for (at, slot) in slots.iter().enumerate() {
        if slot.died == NEVER {
            ids.set(slot.id, place_at(cell, at));
        }
    }
}

/// Where a cell keeps fewer rows than before, gives each live row of it the group in which it stands now.
pub fn regroup<S: Shape>(ids: &mut IdTable, lists: &Cells<S>, cell: u32, before: usize)
    requires cell { cell < 1048576 }
    requires few { length (rows_for lists.now cell) ≤ 16777280 }
    requires small { AllByRecursion (λ k. k.row.id ≤ 2147483647) (rows_for lists.now cell) }
    ensures { Regroups (rows_for lists.now) cell before ids.old ids.new }
{
    if let Some(view) = lists.get(cell) {
        if view.kept() < before {
            list_groups(ids, cell, view.all_slots());
        }
    }
}
