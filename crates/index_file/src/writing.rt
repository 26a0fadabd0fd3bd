//! Writing an index file of version 2.

ghost use Rattle.std.specs.Prelude.{◌≡◌, ◌≢◌, ℕ, ◌+◌, ◌*◌, ◌/◌, ◌<◌, ◌≤◌, ◌^◌, ◌⊎◌, List, [], ◌∷◌, ◌++◌, length, take, drop, map, filter, codes, Option, Some, Ok, Err, OnOk, OnErr, slice_index_or, if◌then◌else◌};
ghost use Rattle.std.specs.Int.{w16, w32, to_le_bytes};
ghost use Rattle.adc_ports.specs.States.{OnlyWrites, SameWrites, Has, IsThere};
ghost use Rattle.adc_ports.specs.Files.{Rose};
ghost use Rattle.codebook_core.specs.Spelling.{spelled};
ghost use Rattle.cell_store.specs.State.{live_rows};
ghost use Rattle.cell_store.specs.Held.{IsStore};
ghost use Rattle.std.specs.List.{flat_map};
ghost use Rattle.code_blocks.specs.Codes.{word_count};
ghost use Rattle.cell_store.specs.Slots.{slot_lives};
ghost use Rattle.index_file.specs.Spelling.{by_cell, group_bytes, index_bytes};
ghost use Rattle.index_file.specs.Reading.{index_outcome};
ghost use Rattle.index_file.specs.Grouped.{living, group_at, members_text, cell_text, cells_text, body_text, index_text};
ghost use Rattle.index_file.specs.Written.{HoldsFront, Adds};

use crate::STRETCH;
use crate::pieces::Pieces;
use adc_ports::Shelf;
use byteorder::{ByteOrder, LittleEndian};
use cell_store::{BlockMeter, CellStore, CellView, Slot};
use code_blocks::BlockRef;
use codebook_core::Codebook;
use shape_core::Shape;
use std::alloc::Global;
use vec_files::WriteError;

/// Begins the file and writes the index of a store: the live rows by rising cell, in a cell in their order. It is appended by
/// pieces of at most 8,192 bytes. After a refusal the file is as before, or it holds the first bytes of the index.
///
/// # Errors
/// `WriteFault` if the shelf's count of write faults rose; `Memory`.
pub fn write<S: Shape, H: Shelf>(
    alloc: Global,
    book: &Codebook<S>,
    store: &CellStore<S>,
    shelf: &mut H,
    name: &str,
) -> Result<(), WriteError>
    requires g { store.now.g ≡ book.now.g }
    requires cells { store.now.cells ≡ book.now.k0 * book.now.k1 }
    ensures writes { OnlyWrites name.now (H.state shelf.old) (H.state shelf.new) }
    ensures written { OnOk result (Has (H.state shelf.new) name.now (Some (index_bytes book.now (by_cell store.now.cells (live_rows store.now))))) }
    ensures front { (file : Option (List ℕ)) → Has (H.state shelf.old) name.now file
        → OnErr result (Has (H.state shelf.new) name.now file ⊎ HoldsFront (H.state shelf.new) name.now (index_bytes book.now (by_cell store.now.cells (live_rows store.now)))) }
    ensures failed { result ≡ Err WriteError.WriteFault → Rose (H.state shelf.old).write_faults (H.state shelf.new).write_faults }
    ensures memory { result ≡ Err WriteError.Memory → SameWrites (H.state shelf.old) (H.state shelf.new) }
    ensures counts { OnOk result (SameWrites (H.state shelf.old) (H.state shelf.new)) }
    // What is written is read again: `decode` answers this outcome.
    ensures again { index_outcome (index_bytes book.now (by_cell store.now.cells (live_rows store.now))) ≡ Ok (record { book = book.now; rows = by_cell store.now.cells (live_rows store.now) }) }
{
    // The number of components tells that the book is good and of the shape, and the stamp what holds of every store.
    let _d = book.d();
    let stamp = store.stamp();
    let text = match book.encode(alloc) {
        Ok(text) => text,
        Err(_) => return Err(WriteError::Memory),
    };
    shelf.begin(name)?;
    let mut pieces = Pieces::new();
    put_index(alloc, &mut pieces, shelf, name, &text, store, stamp)
}

/// An index, all of which is appended.
fn put_index<S: Shape, H: Shelf>(
    alloc: Global,
    pieces: &mut Pieces,
    shelf: &mut H,
    name: &str,
    text: &[u8],
    store: &CellStore<S>,
    stamp: u64,
) -> Result<(), WriteError>
    requires there { IsThere (H.state shelf.old) name.now }
    requires few { length text.now < 2 ^ 32 }
    requires is { IsStore S.widths store.now }
    requires stamp { stamp ≡ store.now.stamp }
    ensures adds { Adds name.now result (H.state shelf.old) (H.state shelf.new) pieces.old pieces.new (index_text S.widths text.now store.now) }
    ensures empty { OnOk result (pieces.new ≡ []) }
{
    put_front(pieces, shelf, name, text)?;
    put_body(alloc, pieces, shelf, name, store, stamp)?;
    pieces.flush(shelf, name)
}

/// The counts and the groups.
fn put_body<S: Shape, H: Shelf>(
    alloc: Global,
    pieces: &mut Pieces,
    shelf: &mut H,
    name: &str,
    store: &CellStore<S>,
    stamp: u64,
) -> Result<(), WriteError>
    requires there { IsThere (H.state shelf.old) name.now }
    requires is { IsStore S.widths store.now }
    requires stamp { stamp ≡ store.now.stamp }
    ensures { Adds name.now result (H.state shelf.old) (H.state shelf.new) pieces.old pieces.new (body_text S.widths store.now) }
{
    put_pair(pieces, shelf, name, store.live(), store.used())?;
    put_groups(alloc, pieces, shelf, name, store, stamp)
}

/// The letters of version 2, and the book behind its length.
fn put_front<H: Shelf>(
    pieces: &mut Pieces,
    shelf: &mut H,
    name: &str,
    text: &[u8],
) -> Result<(), WriteError>
    requires there { IsThere (H.state shelf.old) name.now }
    requires few { length text.now < 2 ^ 32 }
    ensures { Adds name.now result (H.state shelf.old) (H.state shelf.new) pieces.old pieces.new (codes "ADCINDX2" ++ (to_le_bytes w32 (length text.now) ++ text.now)) }
{
    pieces.put(shelf, name, b"ADCINDX2")?;
    put_book(pieces, shelf, name, text)
}

/// A book behind its length.
fn put_book<H: Shelf>(
    pieces: &mut Pieces,
    shelf: &mut H,
    name: &str,
    text: &[u8],
) -> Result<(), WriteError>
    requires there { IsThere (H.state shelf.old) name.now }
    requires few { length text.now < 2 ^ 32 }
    ensures { Adds name.now result (H.state shelf.old) (H.state shelf.new) pieces.old pieces.new (to_le_bytes w32 (length text.now) ++ text.now) }
{
    put_number(pieces, shelf, name, text.len() as u32)?;
    put_text(pieces, shelf, name, text)
}

/// A text of any length.
fn put_text<H: Shelf>(
    pieces: &mut Pieces,
    shelf: &mut H,
    name: &str,
    text: &[u8],
) -> Result<(), WriteError>
    requires { IsThere (H.state shelf.old) name.now }
    ensures { Adds name.now result (H.state shelf.old) (H.state shelf.new) pieces.old pieces.new text.now }
{
    let mut at = 0;
    'text: while at < text.len() {
        let size = STRETCH.min(text.len() - at);
        pieces.put(shelf, name, &text[at..at + size])?;
        at += size;
    }
    Ok(())
}

/// A number of four bytes.
fn put_number<H: Shelf>(
    pieces: &mut Pieces,
    shelf: &mut H,
    name: &str,
    n: u32,
) -> Result<(), WriteError>
    requires { IsThere (H.state shelf.old) name.now }
    ensures { Adds name.now result (H.state shelf.old) (H.state shelf.new) pieces.old pieces.new (to_le_bytes w32 n) }
{
    let mut bytes = [0u8; 4];
    LittleEndian::write_u32(&mut bytes, n);
    pieces.put(shelf, name, &bytes)
}

/// Two numbers.
fn put_pair<H: Shelf>(
    pieces: &mut Pieces,
    shelf: &mut H,
    name: &str,
    first: u32,
    second: u32,
) -> Result<(), WriteError>
    requires { IsThere (H.state shelf.old) name.now }
    ensures { Adds name.now result (H.state shelf.old) (H.state shelf.new) pieces.old pieces.new (to_le_bytes w32 first ++ to_le_bytes w32 second) }
{
    put_number(pieces, shelf, name, first)?;
    put_number(pieces, shelf, name, second)
}

/// The groups of all cells that have a live row.
fn put_groups<S: Shape, H: Shelf>(
    alloc: Global,
    pieces: &mut Pieces,
    shelf: &mut H,
    name: &str,
    store: &CellStore<S>,
    stamp: u64,
) -> Result<(), WriteError>
    requires there { IsThere (H.state shelf.old) name.now }
    requires is { IsStore S.widths store.now }
    ensures { Adds name.now result (H.state shelf.old) (H.state shelf.new) pieces.old pieces.new (cells_text S.widths store.now.g stamp store.now.kept store.now.cells) }
{
    let mut from = 0;
    'cells: loop {
        match store.next_cell(from) {
            Some(cell) => {
                put_cell(alloc, pieces, shelf, name, store, stamp, cell)?;
                from = cell + 1;
            }
            None => return Ok(()),
        }
    }
}

/// The group of a cell, if it has a row that lives at the stamp.
fn put_cell<S: Shape, H: Shelf>(
    alloc: Global,
    pieces: &mut Pieces,
    shelf: &mut H,
    name: &str,
    store: &CellStore<S>,
    stamp: u64,
    cell: u32,
) -> Result<(), WriteError>
    requires there { IsThere (H.state shelf.old) name.now }
    requires is { IsStore S.widths store.now }
    ensures { Adds name.now result (H.state shelf.old) (H.state shelf.new) pieces.old pieces.new (cell_text S.widths store.now.g stamp store.now.kept cell) }
{
    match store.cell(cell) {
        Some(view) => put_group(alloc, pieces, shelf, name, &view, stamp, cell),
        None => Ok(()),
    }
}

/// The rows of a cell that live at the stamp, as a group, if there are any.
fn put_group<S: Shape, H: Shelf>(
    alloc: Global,
    pieces: &mut Pieces,
    shelf: &mut H,
    name: &str,
    view: &CellView<'_, S>,
    stamp: u64,
    cell: u32,
) -> Result<(), WriteError>
    requires there { IsThere (H.state shelf.old) name.now }
    requires g { view.now.g ≤ 32 }
    requires few { length view.now.rows ≤ 16777248 }
    ensures { Adds name.now result (H.state shelf.old) (H.state shelf.new) pieces.old pieces.new (flat_map (group_bytes S.widths view.now.g) (group_at cell (living stamp view.now.rows))) }
{
    let live = living_count(view, stamp);
    if live == 0 {
        return Ok(());
    }
    put_pair(pieces, shelf, name, cell, live)?;
    put_members(alloc, pieces, shelf, name, view, stamp)
}

/// How many rows of a cell live at the stamp.
fn living_count<S: Shape>(view: &CellView<'_, S>, stamp: u64) -> u32
    requires { length view.now.rows ≤ 16777248 }
    ensures { result ≡ length (living stamp view.now.rows) }
{
    let mut count = 0;
    let groups = view.kept().div_ceil(32) as u32;
    for n in 0..groups {
        count += living_in(view.slots(n), stamp);
    }
    count
}

/// How many of at most 32 rows live at the stamp.
fn living_in(slots: &[Slot], stamp: u64) -> u32
    requires { length slots.now ≤ 32 }
    ensures count { result ≡ length (filter (slot_lives stamp) slots.now) }
    ensures few { result ≤ 32 }
{
    let mut count = 0;
    for slot in slots {
        if lives(slot, stamp) {
            count += 1;
        }
    }
    count
}

/// Whether a row lives at the stamp.
fn lives(slot: &Slot, stamp: u64) -> bool
    ensures { result ≡ slot_lives stamp slot.now }
{
    slot.born <= stamp && stamp < slot.died
}

/// The rows of a cell that live at the stamp.
fn put_members<S: Shape, H: Shelf>(
    alloc: Global,
    pieces: &mut Pieces,
    shelf: &mut H,
    name: &str,
    view: &CellView<'_, S>,
    stamp: u64,
) -> Result<(), WriteError>
    requires there { IsThere (H.state shelf.old) name.now }
    requires g { view.now.g ≤ 32 }
    requires few { length view.now.rows ≤ 16777248 }
    ensures { Adds name.now result (H.state shelf.old) (H.state shelf.new) pieces.old pieces.new (members_text S.widths view.now.g stamp view.now.rows) }
{
    let mut meter = BlockMeter::new(alloc);
    let groups = view.kept().div_ceil(32) as u32;
    for n in 0..groups {
        put_slots(pieces, shelf, name, view, stamp, n, &mut meter)?;
    }
    Ok(())
}

/// The rows of the n-th 32 slots that live at the stamp.
fn put_slots<S: Shape, H: Shelf>(
    pieces: &mut Pieces,
    shelf: &mut H,
    name: &str,
    view: &CellView<'_, S>,
    stamp: u64,
    n: u32,
    meter: &mut BlockMeter,
) -> Result<(), WriteError>
    requires there { IsThere (H.state shelf.old) name.now }
    requires g { view.now.g ≤ 32 }
    requires slots { 32 * n < length view.now.rows }
    requires meter { meter.old ≤ 2 ^ 40 }
    ensures adds { Adds name.now result (H.state shelf.old) (H.state shelf.new) pieces.old pieces.new (members_text S.widths view.now.g stamp (take 32 (drop (32 * n) view.now.rows))) }
    ensures meter { meter.new ≡ meter.old + 1 }
{
    let slots = view.slots(n);
    let block = view.block(n, meter);
    for (i, slot) in slots.iter().enumerate() {
        put_slot(pieces, shelf, name, slot, stamp, &block, i as u32)?;
    }
    Ok(())
}

/// The row of a slot whose code stands at a place of a block, if it lives at the stamp.
fn put_slot<S: Shape, H: Shelf>(
    pieces: &mut Pieces,
    shelf: &mut H,
    name: &str,
    slot: &Slot,
    stamp: u64,
    block: &BlockRef<'_, S>,
    place: u32,
) -> Result<(), WriteError>
    requires there { IsThere (H.state shelf.old) name.now }
    requires place { place < 32 }
    requires few { word_count block.now ≤ 32 }
    requires words { length (slice_index_or block.now place []) ≡ word_count block.now }
    ensures { Adds name.now result (H.state shelf.old) (H.state shelf.new) pieces.old pieces.new
        (if slot_lives stamp slot.now then to_le_bytes w32 slot.now.id ++ spelled w16 (slice_index_or block.now place []) else []) }
{
    if lives(slot, stamp) {
        put_member(pieces, shelf, name, slot.id, block, place)
    } else {
        Ok(())
    }
}

/// An id, and the code at a place of a block.
fn put_member<S: Shape, H: Shelf>(
    pieces: &mut Pieces,
    shelf: &mut H,
    name: &str,
    id: u32,
    block: &BlockRef<'_, S>,
    place: u32,
) -> Result<(), WriteError>
    requires there { IsThere (H.state shelf.old) name.now }
    requires place { place < 32 }
    requires few { word_count block.now ≤ 32 }
    requires words { length (slice_index_or block.now place []) ≡ word_count block.now }
    ensures { Adds name.now result (H.state shelf.old) (H.state shelf.new) pieces.old pieces.new (to_le_bytes w32 id ++ spelled w16 (slice_index_or block.now place [])) }
{
    put_number(pieces, shelf, name, id)?;
    let mut code = [0u16; 32];
    let words = &mut code[..block.words().len()];
    block.get(place, words);
    put_words(pieces, shelf, name, words)
}

/// Words of two bytes each.
fn put_words<H: Shelf>(
    pieces: &mut Pieces,
    shelf: &mut H,
    name: &str,
    words: &[u16],
) -> Result<(), WriteError>
    requires there { IsThere (H.state shelf.old) name.now }
    requires few { length words.now ≤ 32 }
    ensures { Adds name.now result (H.state shelf.old) (H.state shelf.new) pieces.old pieces.new (spelled w16 words.now) }
{
    let mut bytes = [0u8; 64];
    let size = 2 * words.len();
    LittleEndian::write_u16_into(words, &mut bytes[..size]);
    pieces.put(shelf, name, &bytes[..size])
}
