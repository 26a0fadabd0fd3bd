//! Reading an index file by stretches of at most 8,192 bytes.

ghost use Rattle.std.specs.Prelude.{◌≡◌, ◌≢◌, ℕ, ◌+◌, ◌*◌, ◌<◌, ◌≤◌, ◌^◌, ◌⊎◌, List, [], length, take, drop, Ok, Err, IfOk, IfErr, OnOk, option_map};
ghost use Rattle.std.specs.Bool.{OnTrue, OnFalse};
ghost use Rattle.std.specs.Option.{ForSome};
ghost use Rattle.adc_ports.specs.States.{OnlyReads, SameReads};
ghost use Rattle.adc_ports.specs.Files.{Rose, bytes_of};
ghost use Rattle.codebook_core.specs.Any.{view_any};
ghost use Rattle.cell_store.specs.State.{live_rows};
ghost use Rattle.index_file.specs.Ahead.{layout, ahead_at, rest, size_of, steps_ahead, rows_ahead, IsDone, HasMore, HasCell, IsFilled, IsBefore, KeepsRest};
ghost use Rattle.index_file.specs.Reading.{layout_of, start_of, front_of, all_rows, index_outcome};
ghost use Rattle.index_file.specs.View.{Answers, Finds, IsFresh, book_of, store_of};

use crate::ahead::{is_done, size, step};
use crate::fields::located;
use crate::front::{book_length, read_counts, read_version};
use crate::index::{AnyIndex, Index, IndexError};
use crate::sizes::{Ahead, Sizes};
use crate::version::Version;
use crate::{MAX_BYTES, STRETCH};
use adc_ports::{Shelf, What};
use book_model::limits::MAX_ROWS;
use cell_store::CellStore;
use codebook_core::{AnyBook, Codebook, decode_at};
use shape_core::Shape;
use std::alloc::Global;

/// Reads an index file of either version, of at most 2,147,483,648 bytes. The store has the rows of the file in its order, for
/// at most 4,194,304 live rows; its stamp is the number of rows, and it has no pin. Bytes are fetched by stretches of at most
/// 8,192, and no more of the file is held than the bytes of its book.
///
/// # Errors
/// `Missing` if there is no file of this name; `Malformed` and `Limit` at the first faulty field; `ReadFault` if the
/// shelf's count of read faults rose; `Memory`.
pub fn decode<H: Shelf>(alloc: Global, shelf: &mut H, name: &str) -> Result<AnyIndex, IndexError>
    ensures reads { OnlyReads (H.state shelf.old) (H.state shelf.new) }
    ensures failed { result ≡ Err IndexError.ReadFault → Rose (H.state shelf.old).read_faults (H.state shelf.new).read_faults }
    ensures memory { result ≡ Err IndexError.Memory → SameReads (H.state shelf.old) (H.state shelf.new) }
    ensures counts { OnOk result (SameReads (H.state shelf.old) (H.state shelf.new)) }
    ensures answers { ForSome (H.state shelf.old).files (λ files. Answers result (option_map index_outcome (files name.now))) }
    ensures fresh { IfOk result (λ index. IsFresh (book_of index) (store_of index)) }
{
    let Some(size) = shelf.size(name)? else {
        return Err(IndexError::Missing);
    };
    if size > MAX_BYTES {
        return Err(IndexError::Limit {
            what: What::Bytes,
            value: size,
        });
    }
    let (version, book, at) = read_book(alloc, shelf, name)?;
    read_any(alloc, shelf, name, version, book, at, size)
}

/// Reads the rows of a book of any shape, from the counts on.
fn read_any<H: Shelf>(
    alloc: Global,
    shelf: &mut H,
    name: &str,
    version: Version,
    book: AnyBook,
    at: u64,
    end: u64,
) -> Result<AnyIndex, IndexError>
    requires { at ≤ 4194316 }
    ensures reads { OnlyReads (H.state shelf.old) (H.state shelf.new) }
    ensures failed { result ≡ Err IndexError.ReadFault → Rose (H.state shelf.old).read_faults (H.state shelf.new).read_faults }
    ensures memory { result ≡ Err IndexError.Memory → SameReads (H.state shelf.old) (H.state shelf.new) }
    ensures counts { OnOk result (SameReads (H.state shelf.old) (H.state shelf.new)) }
    ensures rows { ForSome (H.state shelf.old).files (λ files. end ≡ length (bytes_of files name.now)
        → Finds (λ index. live_rows (store_of index)) result (all_rows version (layout_of (view_any book)) (bytes_of files name.now) at)) }
    ensures book { IfOk result (λ index. book_of index ≡ view_any book) }
    ensures fresh { IfOk result (λ index. IsFresh (view_any book) (store_of index)) }
{
    match book {
        AnyBook::F4444(book) => {
            let index = read_rows(alloc, shelf, name, version, book, at, end)?;
            Ok(AnyIndex::F4444(index))
        }
        AnyBook::F555(book) => {
            let index = read_rows(alloc, shelf, name, version, book, at, end)?;
            Ok(AnyIndex::F555(index))
        }
        AnyBook::F664(book) => {
            let index = read_rows(alloc, shelf, name, version, book, at, end)?;
            Ok(AnyIndex::F664(index))
        }
        AnyBook::F88(book) => {
            let index = read_rows(alloc, shelf, name, version, book, at, end)?;
            Ok(AnyIndex::F88(index))
        }
    }
}

/// The version and the book, and where the counts begin.
fn read_book<H: Shelf>(
    alloc: Global,
    shelf: &mut H,
    name: &str,
) -> Result<(Version, AnyBook, u64), IndexError>
    ensures reads { OnlyReads (H.state shelf.old) (H.state shelf.new) }
    ensures failed { result ≡ Err IndexError.ReadFault → Rose (H.state shelf.old).read_faults (H.state shelf.new).read_faults }
    ensures memory { result ≡ Err IndexError.Memory → SameReads (H.state shelf.old) (H.state shelf.new) }
    ensures counts { OnOk result (SameReads (H.state shelf.old) (H.state shelf.new)) }
    ensures found { ForSome (H.state shelf.old).files (λ files. Finds (λ x. ((x.0, view_any x.1), x.2)) result (front_of (bytes_of files name.now))) }
    ensures small { IfOk result (λ x. x.2 ≤ 4194316) }
{
    let mut front = Vec::new(alloc);
    fetch_to(shelf, name, 12, &mut front)?;
    let (version, size) = read_start(&front)?;
    fetch_to(shelf, name, 12 + size as usize, &mut front)?;
    read_inner(alloc, &front, version, size)
}

/// The book of so many bytes that stands from offset 12 on in the front of a file, and where it ends.
fn read_inner(
    alloc: Global,
    front: &[u8],
    version: Version,
    size: u32,
) -> Result<(Version, AnyBook, u64), IndexError>
    requires few { size ≤ 4194304 }
    requires long { 12 ≤ length front.now }
    ensures found { (bytes : List ℕ) → start_of bytes ≡ Ok (version, size) → front.now ≡ take (12 + size) bytes → Finds (λ x. ((x.0, view_any x.1), x.2)) result (front_of bytes) }
    ensures small { IfOk result (λ x. x.2 ≤ 4194316) }
    ensures no_fault { result ≢ Err IndexError.ReadFault }
{
    let (book, at) = decode_at(alloc, front, 12)?;
    if at != 12 + size as usize {
        return Err(IndexError::Malformed { at: at as u64 });
    }
    Ok((version, book, at as u64))
}

/// The version and the length of the book, from the first 12 bytes of a file.
fn read_start(front: &[u8]) -> Result<(Version, u32), IndexError>
    ensures found { (bytes : List ℕ) → front.now ≡ take 12 bytes → Finds (λ x. x) result (start_of bytes) }
    ensures few { IfOk result (λ x. x.1 ≤ 4194304) }
    ensures whole { OnOk result (12 ≤ length front.now) }
    ensures no_fault { result ≢ Err IndexError.ReadFault }
{
    match read_version(front) {
        Ok(version) => match book_length(front) {
            Ok(size) => Ok((version, size)),
            Err(fault) => Err(located(fault, 0)),
        },
        Err(fault) => Err(located(fault, 0)),
    }
}

/// Fetches the bytes of a file up to the n-th, or to the file's end, behind those that were fetched.
fn fetch_to<H: Shelf>(
    shelf: &mut H,
    name: &str,
    n: usize,
    bytes: &mut Vec<u8>,
) -> Result<(), IndexError>
    requires few { length bytes.old.items ≤ n }
    requires small { n ≤ 2 ^ 32 }
    ensures reads { OnlyReads (H.state shelf.old) (H.state shelf.new) }
    ensures failed { result ≡ Err IndexError.ReadFault → Rose (H.state shelf.old).read_faults (H.state shelf.new).read_faults }
    ensures memory { result ≡ Err IndexError.Memory → SameReads (H.state shelf.old) (H.state shelf.new) }
    ensures counts { OnOk result (SameReads (H.state shelf.old) (H.state shelf.new)) }
    ensures refusal { IfErr result (λ e. (e ≡ IndexError.ReadFault) ⊎ (e ≡ IndexError.Memory)) }
    ensures longer { OnOk result (length bytes.old.items ≤ length bytes.new.items) }
    ensures within { OnOk result (length bytes.new.items ≤ n) }
    ensures value { ForSome (H.state shelf.old).files (λ files. bytes.old.items ≡ take (length bytes.old.items) (bytes_of files name.now)
        → OnOk result (bytes.new.items ≡ take n (bytes_of files name.now))) }
{
    let mut buffer = [0u8; STRETCH];
    'fetches: while bytes.len() < n {
        let room = STRETCH.min(n - bytes.len());
        let count = shelf.fetch(name, bytes.len() as u64, &mut buffer[..room])?;
        bytes.extend_from_slice(&buffer[..count])?;
        if count < room {
            return Ok(());
        }
    }
    Ok(())
}

/// Reads the rows of a book, from the counts on.
fn read_rows<S: Shape, H: Shelf>(
    alloc: Global,
    shelf: &mut H,
    name: &str,
    version: Version,
    book: Codebook<S>,
    at: u64,
    end: u64,
) -> Result<Index<S>, IndexError>
    requires { at ≤ 4194316 }
    ensures reads { OnlyReads (H.state shelf.old) (H.state shelf.new) }
    ensures failed { result ≡ Err IndexError.ReadFault → Rose (H.state shelf.old).read_faults (H.state shelf.new).read_faults }
    ensures memory { result ≡ Err IndexError.Memory → SameReads (H.state shelf.old) (H.state shelf.new) }
    ensures counts { OnOk result (SameReads (H.state shelf.old) (H.state shelf.new)) }
    ensures rows { ForSome (H.state shelf.old).files (λ files. end ≡ length (bytes_of files name.now)
        → Finds (λ index. live_rows index.store) result (all_rows version (layout_of book) (bytes_of files name.now) at)) }
    ensures book { IfOk result (λ index. index.book ≡ book) }
    ensures fresh { IfOk result (λ index. IsFresh book index.store) }
{
    let sizes = sizes_of(&book);
    let (ahead, at) = fetch_counts(shelf, name, version, sizes, at)?;
    let rows = rows_within(end.saturating_sub(at), sizes.g);
    let mut store = CellStore::with_room(alloc, sizes.g, sizes.cells, MAX_ROWS, rows);
    read_ahead(shelf, name, sizes, ahead, at, end, &mut store)?;
    Ok(Index { book, store })
}

/// How many rows so many bytes may hold, at most as many as may be live.
fn rows_within(bytes: u64, g: u32) -> u32 {
    (bytes / (4 + 2 * u64::from(g))).min(u64::from(MAX_ROWS)) as u32
}

/// What the rows of a book are read by.
fn sizes_of<S: Shape>(book: &Codebook<S>) -> Sizes
    ensures { layout_of book.now ≡ layout S.widths result }
{
    let _d = book.d();
    Sizes {
        g: book.g(),
        cells: book.k0() * book.k1(),
    }
}

/// Reads the counts, and says what is ahead, and from where on.
fn fetch_counts<H: Shelf>(
    shelf: &mut H,
    name: &str,
    version: Version,
    sizes: Sizes,
    at: u64,
) -> Result<(Ahead, u64), IndexError>
    requires { at ≤ 4194316 }
    ensures reads { OnlyReads (H.state shelf.old) (H.state shelf.new) }
    ensures failed { result ≡ Err IndexError.ReadFault → Rose (H.state shelf.old).read_faults (H.state shelf.new).read_faults }
    ensures memory { result ≡ Err IndexError.Memory → SameReads (H.state shelf.old) (H.state shelf.new) }
    ensures counts { OnOk result (SameReads (H.state shelf.old) (H.state shelf.new)) }
    ensures found { ForSome (H.state shelf.old).files (λ files. Finds (λ x. x) result (ahead_at version sizes.cells (bytes_of files name.now) at)) }
    ensures few { IfOk result (λ x. rows_ahead x.0 ≤ 4194304) }
    ensures steps { IfOk result (λ x. steps_ahead x.0 ≤ 8388608) }
    ensures cell { IfOk result (λ x. HasCell sizes.cells x.0) }
    ensures small { IfOk result (λ x. x.1 ≤ 4194324) }
{
    let mut buffer = [0u8; 8];
    let count = shelf.fetch(name, at, &mut buffer)?;
    match read_counts(&buffer[..count], version, sizes) {
        Ok((ahead, size)) => Ok((ahead, at + u64::from(size))),
        Err(fault) => Err(located(fault, at)),
    }
}

/// Reads the rows that are ahead from an offset on, with which the file has to end.
fn read_ahead<S: Shape, H: Shelf>(
    shelf: &mut H,
    name: &str,
    sizes: Sizes,
    ahead: Ahead,
    at: u64,
    end: u64,
    store: &mut CellStore<S>,
) -> Result<(), IndexError>
    requires before { IsBefore sizes ahead store.old }
    requires at { at ≤ 4194324 }
    ensures reads { OnlyReads (H.state shelf.old) (H.state shelf.new) }
    ensures failed { result ≡ Err IndexError.ReadFault → Rose (H.state shelf.old).read_faults (H.state shelf.new).read_faults }
    ensures memory { result ≡ Err IndexError.Memory → SameReads (H.state shelf.old) (H.state shelf.new) }
    ensures counts { OnOk result (SameReads (H.state shelf.old) (H.state shelf.new)) }
    ensures filled { OnOk result (IsFilled sizes store.new) }
    ensures few { OnOk result (length store.new.kept ≤ 4194304) }
    ensures rows { ForSome (H.state shelf.old).files (λ files. end ≡ length (bytes_of files name.now)
        → Finds (λ _. live_rows store.new) result (rest (layout S.widths sizes) ahead (live_rows store.old) (bytes_of files name.now) at)) }
{
    let mut buffer = [0u8; STRETCH];
    let mut ahead = ahead;
    let mut at = at;
    'stretches: while !is_done(ahead) {
        let (next, count) = fetch_stretch(shelf, name, &mut buffer, at, sizes, ahead, store)?;
        ahead = next;
        at += count as u64;
    }
    if at != end {
        return Err(IndexError::Malformed { at });
    }
    Ok(())
}

/// Fetches a stretch of the file from an offset on, and reads its rows.
fn fetch_stretch<S: Shape, H: Shelf>(
    shelf: &mut H,
    name: &str,
    buffer: &mut [u8],
    at: u64,
    sizes: Sizes,
    ahead: Ahead,
    store: &mut CellStore<S>,
) -> Result<(Ahead, usize), IndexError>
    requires long { length buffer.old ≡ 8192 }
    requires before { IsBefore sizes ahead store.old }
    requires at { at ≤ 2 ^ 61 }
    ensures reads { OnlyReads (H.state shelf.old) (H.state shelf.new) }
    ensures failed { result ≡ Err IndexError.ReadFault → Rose (H.state shelf.old).read_faults (H.state shelf.new).read_faults }
    ensures memory { result ≡ Err IndexError.Memory → SameReads (H.state shelf.old) (H.state shelf.new) }
    ensures counts { OnOk result (SameReads (H.state shelf.old) (H.state shelf.new)) }
    ensures within { IfOk result (λ x. x.1 ≤ 8192) }
    ensures before { IfOk result (λ x. IsBefore sizes x.0 store.new) }
    ensures fewer { IfOk result (λ x. HasMore ahead → steps_ahead x.0 < steps_ahead ahead) }
    ensures rest { ForSome (H.state shelf.old).files (λ files. KeepsRest (layout S.widths sizes) ahead store.old store.new (bytes_of files name.now) at result) }
{
    let count = shelf.fetch(name, at, buffer)?;
    over_stretch(&buffer[..count], at, sizes, ahead, store)
}

/// Reads the rows of a stretch of the file that are whole in it, or all up to the file's end if it is short. Gives what is
/// ahead then, and how many bytes were read.
fn over_stretch<S: Shape>(
    stretch: &[u8],
    at: u64,
    sizes: Sizes,
    ahead: Ahead,
    store: &mut CellStore<S>,
) -> Result<(Ahead, usize), IndexError>
    requires before { IsBefore sizes ahead store.old }
    requires short { length stretch.now ≤ 8192 }
    requires at { at ≤ 2 ^ 61 }
    ensures within { IfOk result (λ x. x.1 ≤ length stretch.now) }
    ensures before { IfOk result (λ x. IsBefore sizes x.0 store.new) }
    ensures fewer { IfOk result (λ x. HasMore ahead → steps_ahead x.0 < steps_ahead ahead) }
    ensures rest { (bytes : List ℕ) → stretch.now ≡ take 8192 (drop at bytes) → KeepsRest (layout S.widths sizes) ahead store.old store.new bytes at result }
    ensures no_fault { result ≢ Err IndexError.ReadFault }
{
    let mut code = [0u16; 32];
    let mut ahead = ahead;
    let mut place = 0;
    'steps: while is_next(stretch, place, sizes, ahead) {
        let part = part_at(stretch, place, size(ahead, sizes.g));
        let (next, count) = step(
            part,
            at + place as u64,
            sizes,
            ahead,
            store,
            &mut code[..sizes.g as usize],
        )?;
        ahead = next;
        place += count;
    }
    Ok((ahead, place))
}

/// Whether something is ahead at a place of a stretch, and is whole there, or the stretch ends the file.
fn is_next(stretch: &[u8], place: usize, sizes: Sizes, ahead: Ahead) -> bool
    requires { place ≤ length stretch.now }
    ensures more { OnTrue result (HasMore ahead) }
    ensures whole { OnTrue result ((place + size_of sizes.g ahead ≤ length stretch.now) ⊎ (length stretch.now < 8192)) }
    ensures first { OnFalse result (place ≡ 0 → IsDone ahead) }
{
    !is_done(ahead) && (stretch.len() < STRETCH || size(ahead, sizes.g) <= stretch.len() - place)
}

/// So many bytes at a place, or as many as there are.
fn part_at(stretch: &[u8], place: usize, size: usize) -> &[u8]
    requires { place ≤ length stretch.now }
    ensures { result.now ≡ take size (drop place stretch.now) }
{
    let rest = &stretch[place..];
    if rest.len() < size {
        rest
    } else {
        &rest[..size]
    }
}
