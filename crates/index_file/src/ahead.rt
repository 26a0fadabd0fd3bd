//! One step of reading the rows that are ahead in an index.

ghost use Rattle.std.specs.Prelude.{◌≡◌, ◌≢◌, ℕ, ◌+◌, ◌<◌, ◌≤◌, ◌^◌, ◌*◌, List, length, take, drop, Err, IfOk};
ghost use Rattle.std.specs.Bool.{OnTrue, OnFalse};
ghost use Rattle.cell_store.specs.State.{Store};
ghost use Rattle.index_file.specs.Ahead.{layout, size_of, steps_ahead, IsDone, HasMore, IsBefore, KeepsRest};

use crate::fields::located;
use crate::index::IndexError;
use crate::rows::{add_row, read_head, read_member, read_row};
use crate::sizes::{Ahead, GroupsAhead, RowsAhead, Sizes};
use cell_store::CellStore;
use shape_core::Shape;

/// Whether nothing is left.
pub(crate) fn is_done(ahead: Ahead) -> bool
    ensures done { OnTrue result (IsDone ahead) }
    ensures more { OnFalse result (HasMore ahead) }
{
    match ahead {
        Ahead::Rows(rows) => rows.left == 0,
        Ahead::Groups(groups) => groups.members == 0 && groups.groups == 0,
    }
}

/// How many bytes the next row or the next front of a group has, if a code has g words.
pub(crate) fn size(ahead: Ahead, g: u32) -> usize
    requires { g ≤ 32 }
    ensures value { result ≡ size_of g ahead }
    ensures some { 4 ≤ result }
    ensures few { result ≤ 72 }
{
    match ahead {
        Ahead::Rows(_) => 8 + 2 * g as usize,
        Ahead::Groups(groups) => {
            if groups.members == 0 {
                8
            } else {
                4 + 2 * g as usize
            }
        }
    }
}

/// Reads the next row or front of a group from its part of the file, which is whole, or cut by the file's end. Gives what is
/// ahead then, and how many bytes were read.
pub(crate) fn step<S: Shape>(
    part: &[u8],
    at: u64,
    sizes: Sizes,
    ahead: Ahead,
    store: &mut CellStore<S>,
    code: &mut [u16],
) -> Result<(Ahead, usize), IndexError>
    requires before { IsBefore sizes ahead store.old }
    requires more { HasMore ahead }
    requires at { at ≤ 2 ^ 62 }
    requires code { length code.old ≡ sizes.g }
    ensures size { IfOk result (λ x. x.1 ≡ size_of sizes.g ahead) }
    ensures whole { IfOk result (λ x. x.1 ≤ length part.now) }
    ensures before { IfOk result (λ x. IsBefore sizes x.0 store.new) }
    ensures fewer { IfOk result (λ x. steps_ahead x.0 < steps_ahead ahead) }
    ensures rest { (bytes : List ℕ) → part.now ≡ take (size_of sizes.g ahead) (drop at bytes) → KeepsRest (layout S.widths sizes) ahead store.old store.new bytes at result }
    ensures no_fault { result ≢ Err IndexError.ReadFault }
{
    match ahead {
        Ahead::Rows(rows) => step_row(part, at, sizes, rows, store, code),
        Ahead::Groups(groups) => {
            if groups.members == 0 {
                step_head(part, at, sizes, groups)
            } else {
                step_member(part, at, sizes, groups, store, code)
            }
        }
    }
}

/// Reads a row of version 1, and adds it.
fn step_row<S: Shape>(
    part: &[u8],
    at: u64,
    sizes: Sizes,
    rows: RowsAhead,
    store: &mut CellStore<S>,
    code: &mut [u16],
) -> Result<(Ahead, usize), IndexError>
    requires before { IsBefore sizes (Ahead.Rows rows) store.old }
    requires more { 0 < rows.left }
    requires at { at ≤ 2 ^ 62 }
    requires code { length code.old ≡ sizes.g }
    ensures size { IfOk result (λ x. x.1 ≡ size_of sizes.g (Ahead.Rows rows)) }
    ensures whole { IfOk result (λ x. x.1 ≤ length part.now) }
    ensures before { IfOk result (λ x. IsBefore sizes x.0 store.new) }
    ensures fewer { IfOk result (λ x. steps_ahead x.0 < rows.left) }
    ensures rest { (bytes : List ℕ) → part.now ≡ take (size_of sizes.g (Ahead.Rows rows)) (drop at bytes) → KeepsRest (layout S.widths sizes) (Ahead.Rows rows) store.old store.new bytes at result }
    ensures no_fault { result ≢ Err IndexError.ReadFault }
{
    match read_row(part, sizes, rows.low, store, code) {
        Ok((id, cell)) => {
            add_row(store, sizes, id, cell, code)?;
            let left = rows.left - 1;
            let next = RowsAhead { left, low: cell };
            Ok((Ahead::Rows(next), 8 + 2 * sizes.g as usize))
        }
        Err(fault) => Err(located(fault, at)),
    }
}

/// Reads a row of a group, and adds it.
fn step_member<S: Shape>(
    part: &[u8],
    at: u64,
    sizes: Sizes,
    groups: GroupsAhead,
    store: &mut CellStore<S>,
    code: &mut [u16],
) -> Result<(Ahead, usize), IndexError>
    requires before { IsBefore sizes (Ahead.Groups groups) store.old }
    requires more { 0 < groups.members }
    requires at { at ≤ 2 ^ 62 }
    requires code { length code.old ≡ sizes.g }
    ensures size { IfOk result (λ x. x.1 ≡ 4 + 2 * sizes.g) }
    ensures whole { IfOk result (λ x. x.1 ≤ length part.now) }
    ensures before { IfOk result (λ x. IsBefore sizes x.0 store.new) }
    ensures fewer { IfOk result (λ x. steps_ahead x.0 < steps_ahead (Ahead.Groups groups)) }
    ensures rest { (bytes : List ℕ) → part.now ≡ take (4 + 2 * sizes.g) (drop at bytes) → KeepsRest (layout S.widths sizes) (Ahead.Groups groups) store.old store.new bytes at result }
    ensures no_fault { result ≢ Err IndexError.ReadFault }
{
    match read_member(part, sizes, groups.cell, store, code) {
        Ok(id) => {
            add_row(store, sizes, id, groups.cell, code)?;
            let next = GroupsAhead {
                members: groups.members - 1,
                ..groups
            };
            Ok((Ahead::Groups(next), 4 + 2 * sizes.g as usize))
        }
        Err(fault) => Err(located(fault, at)),
    }
}

/// Reads the front of a group.
fn step_head(
    part: &[u8],
    at: u64,
    sizes: Sizes,
    groups: GroupsAhead,
) -> Result<(Ahead, usize), IndexError>
    requires ended { groups.members ≡ 0 }
    requires more { 0 < groups.groups }
    requires at { at ≤ 2 ^ 62 }
    ensures size { IfOk result (λ x. x.1 ≡ 8) }
    ensures whole { IfOk result (λ x. x.1 ≤ length part.now) }
    ensures before { (store : Store) → IsBefore sizes (Ahead.Groups groups) store → IfOk result (λ x. IsBefore sizes x.0 store) }
    ensures fewer { IfOk result (λ x. steps_ahead x.0 < steps_ahead (Ahead.Groups groups)) }
    ensures rest { (widths : List ℕ) (store : Store) (bytes : List ℕ) → part.now ≡ take 8 (drop at bytes) → KeepsRest (layout widths sizes) (Ahead.Groups groups) store store bytes at result }
    ensures no_fault { result ≢ Err IndexError.ReadFault }
{
    match read_head(part, sizes, groups.low, groups.groups - 1, groups.left) {
        Ok((cell, count)) => {
            let next = GroupsAhead {
                cell,
                members: count,
                groups: groups.groups - 1,
                left: groups.left - count,
                low: cell + 1,
            };
            Ok((Ahead::Groups(next), 8))
        }
        Err(fault) => Err(located(fault, at)),
    }
}
