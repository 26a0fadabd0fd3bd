//! The rows of a run: their codes one after another, and a store that keeps them.
ghost use Rattle.std.specs.Prelude.{◌≡◌, ◌≤◌, ◌<◌, length, IsTrue, OnOk, IfOk};
ghost use Rattle.std.specs.List.{AllByRecursion};
ghost use Rattle.shape_core.specs.Word.{IsWord};

use bench_common::Numbers;
use cell_store::CellStore;
use shape_core::{Shape, is_word, offset};
use std::alloc::{AllocError, Global};
use std::io;

/// The words of so many codes, so many each.
pub fn codes_of<S: Shape>(
    alloc: Global,
    rows: u32,
    groups: u32,
    numbers: &mut Numbers,
) -> Result<Vec<u16>, AllocError> {
    let mut codes = Vec::new(alloc);
    let mask = mask_of::<S>();
    for _place in 0..u64::from(rows) * u64::from(groups) {
        codes.push(numbers.next() & mask)?;
    }
    Ok(codes)
}

/// The bits of a word that its fields take.
fn mask_of<S: Shape>() -> u16 {
    match offset::<S>(4) {
        15 => 32767,
        _ => 65535,
    }
}

/// A store of these codes of so many words, so many codes in each cell. They come cell by cell, or dealt round the cells.
pub fn store_of<S: Shape>(
    alloc: Global,
    codes: &[u16],
    groups: u32,
    cells: u32,
    rows: u32,
    dealt: bool,
) -> io::Result<CellStore<S>>
    requires groups { (1 ≤ groups) × (groups ≤ 32) }
    requires cells { (1 ≤ cells) × (cells ≤ 1048576) }
    ensures { IfOk result (λ store. store.g ≡ groups) }
{
    let mut store = CellStore::new(alloc, groups, cells, 4_194_304);
    let mut id: u32 = 0;
    for code in codes.chunks(groups as usize) {
        let cell = if dealt {
            id % cells
        } else {
            id.checked_div(rows).unwrap_or(0)
        };
        add_row(&mut store, id, cell, code, groups, cells)?;
        id = id.wrapping_add(1);
    }
    Ok(store)
}

/// Adds a row, where it is a good one.
fn add_row<S: Shape>(
    store: &mut CellStore<S>,
    id: u32,
    cell: u32,
    code: &[u16],
    groups: u32,
    cells: u32,
) -> io::Result<()>
    requires g { store.old.g ≡ groups }
    requires cells { store.old.cells ≡ cells }
    ensures g { OnOk result (store.new.g ≡ groups) }
    ensures cells { OnOk result (store.new.cells ≡ cells) }
{
    let early = id <= 2_147_483_647 && store.stamp() < 4_611_686_018_427_387_904;
    if early && cell < cells && code.len() == groups as usize && are_words::<S>(code) {
        if let Ok(()) = store.insert(id, cell, code) {
            return Ok(());
        }
    }
    Err(io::Error::from(io::ErrorKind::InvalidData))
}

/// Whether each is a word of the shape.
fn are_words<S: Shape>(code: &[u16]) -> bool
    ensures { IsTrue result → AllByRecursion (IsWord S.widths) code.now }
{
    code.iter().all(|word| is_word::<S>(*word))
}
