//! The fields of rows and groups within a part of a file.

ghost use Rattle.std.specs.Prelude.{◌≡◌, ◌-◌, ◌+◌, ◌*◌, ◌<◌, ◌≤◌, ◌^◌, length, false, sum, IfOk, IfErr, OnOk, ◌==◌, if◌then◌else◌};
ghost use Rattle.std.specs.Int.{w16};
ghost use Rattle.std.specs.List.{AllByRecursion};
ghost use Rattle.adc_ports.specs.Reading.{allowed_at};
ghost use Rattle.shape_core.specs.Word.{IsWord, AreCodeWords, code_of_words};
ghost use Rattle.book_model.specs.Rows.{has_id};
ghost use Rattle.cell_store.specs.State.{live_rows, inserted};
ghost use Rattle.index_file.specs.Parts.{found};
ghost use Rattle.index_file.specs.Reading.{words_at, id_at, row_at, member_at, head_at};
ghost use Rattle.index_file.specs.Ahead.{layout, IsFilled};

use crate::fields::{PartFault, allowed, limited, short_number};
use crate::index::IndexError;
use crate::sizes::Sizes;
use adc_ports::What;
use book_model::limits::MAX_ID;
use cell_store::CellStore;
use shape_core::{Shape, is_word};

/// The id at the front of a part, which no row of the store has.
#[tactic(auto, unfolding(crate::specs::Reading::id_at))]
fn read_id<S: Shape>(part: &[u8], store: &CellStore<S>) -> Result<u32, PartFault>
    ensures value { id_at (live_rows store.now) part.now 0 ≡ found (λ id. (id, 4)) result }
    ensures new { IfOk result (λ id. has_id (live_rows store.now) id ≡ false) }
    ensures bound { IfOk result (λ id. id ≤ 2147483647) }
    ensures whole { OnOk result (4 ≤ length part.now) }
{
    let id = limited(part, 0, What::Id, MAX_ID)?;
    if store.contains(id) {
        return Err(PartFault::Malformed { at: 0 });
    }
    Ok(id)
}

/// A word at a place, whose unused high bits are 0.
#[tactic(auto, unfolding(adc_ports::specs::Reading::allowed_at))]
fn read_word<S: Shape>(part: &[u8], at: u32) -> Result<u16, PartFault>
    requires { at ≤ 80 }
    ensures value { allowed_at w16 0 (2 ^ sum S.widths - 1) part.now at ≡ found (λ word. (word, at + 2)) result }
    ensures word { IfOk result (λ word. IsWord S.widths word) }
    ensures within { IfOk result (λ _. at + 2 ≤ length part.now) }
{
    let word = short_number(part, at)?;
    if !is_word::<S>(word) {
        return Err(PartFault::Malformed { at });
    }
    Ok(word)
}

/// Words of a code from a place on.
fn read_words<S: Shape>(part: &[u8], at: u32, into: &mut [u16]) -> Result<(), PartFault>
    requires at { at ≤ 8 }
    requires few { length into.old ≤ 32 }
    requires within { at ≤ length part.now }
    ensures value { words_at S.widths (length into.old) part.now at ≡ found (λ _. (into.new, at + 2 * length into.old)) result }
    ensures words { OnOk result (AllByRecursion (IsWord S.widths) into.new) }
    ensures whole { OnOk result (at + 2 * length into.old ≤ length part.now) }
{
    let mut place = at;
    for i in 0..into.len() {
        let word = read_word::<S>(part, place)?;
        into[i] = word;
        place += 2;
    }
    Ok(())
}

/// The id and the cell of a row of version 1; its words are placed in `code`.
#[tactic(auto, unfolding(crate::specs::Reading::row_at))]
pub(crate) fn read_row<S: Shape>(
    part: &[u8],
    sizes: Sizes,
    low: u32,
    store: &CellStore<S>,
    code: &mut [u16],
) -> Result<(u32, u32), PartFault>
    requires { length code.old ≡ sizes.g }
    ensures value { row_at (layout S.widths sizes) (live_rows store.now) low part.now 0
        ≡ found (λ x. (record { id = x.0; cell = x.1; code = code_of_words S.widths code.new }, 8 + 2 * sizes.g)) result }
    ensures new { IfOk result (λ x. has_id (live_rows store.now) x.0 ≡ false) }
    ensures id { IfOk result (λ x. x.0 ≤ 2147483647) }
    ensures cell { IfOk result (λ x. x.1 < sizes.cells) }
    ensures words { OnOk result (AreCodeWords S.widths sizes.g code.new) }
    ensures whole { OnOk result (8 + 2 * sizes.g ≤ length part.now) }
{
    let id = read_id(part, store)?;
    let cell = allowed(part, 4, low, sizes.cells - 1)?;
    read_words::<S>(part, 8, code)?;
    Ok((id, cell))
}

/// The id of a row of a group; its words are placed in `code`.
#[tactic(auto, unfolding(crate::specs::Reading::member_at))]
pub(crate) fn read_member<S: Shape>(
    part: &[u8],
    sizes: Sizes,
    cell: u32,
    store: &CellStore<S>,
    code: &mut [u16],
) -> Result<u32, PartFault>
    requires { length code.old ≡ sizes.g }
    ensures value { member_at (layout S.widths sizes) cell (live_rows store.now) part.now 0
        ≡ found (λ id. (record { id = id; cell = cell; code = code_of_words S.widths code.new }, 4 + 2 * sizes.g)) result }
    ensures new { IfOk result (λ id. has_id (live_rows store.now) id ≡ false) }
    ensures id { IfOk result (λ id. id ≤ 2147483647) }
    ensures words { OnOk result (AreCodeWords S.widths sizes.g code.new) }
    ensures whole { OnOk result (4 + 2 * sizes.g ≤ length part.now) }
{
    let id = read_id(part, store)?;
    read_words::<S>(part, 4, code)?;
    Ok(id)
}

/// The cell and the count at the front of a group, if so many groups come after it, and so many rows are left.
#[tactic(auto, unfolding(crate::specs::Reading::head_at))]
pub(crate) fn read_head(
    part: &[u8],
    sizes: Sizes,
    low: u32,
    more: u32,
    left: u32,
) -> Result<(u32, u32), PartFault>
    ensures value { head_at sizes.cells low more left part.now 0 ≡ found (λ x. (x, 8)) result }
    ensures cell { IfOk result (λ x. x.0 < sizes.cells) }
    ensures count { IfOk result (λ x. x.1 ≤ left) }
    ensures whole { OnOk result (8 ≤ length part.now) }
{
    let cell = allowed(part, 0, low, sizes.cells - 1)?;
    let least = if more == 0 { left } else { 1 };
    let count = allowed(part, 4, least, left.saturating_sub(more))?;
    Ok((cell, count))
}

/// Adds a row whose id no row of the store has.
pub(crate) fn add_row<S: Shape>(
    store: &mut CellStore<S>,
    sizes: Sizes,
    id: u32,
    cell: u32,
    code: &[u16],
) -> Result<(), IndexError>
    requires filled { IsFilled sizes store.old }
    requires room { length store.old.kept < 4194304 }
    requires new { has_id (live_rows store.old) id ≡ false }
    requires id { id ≤ 2147483647 }
    requires cell { cell < sizes.cells }
    requires words { AreCodeWords S.widths sizes.g code.now }
    ensures ok { OnOk result (store.new ≡ inserted store.old (record { id = id; cell = cell; code = code_of_words S.widths code.now })) }
    ensures filled { OnOk result (IsFilled sizes store.new) }
    ensures memory { IfErr result (λ e. e ≡ IndexError.Memory) }
{
    match store.insert(id, cell, code) {
        Ok(()) => Ok(()),
        Err(_) => Err(IndexError::Memory),
    }
}
