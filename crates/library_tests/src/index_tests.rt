//! Worked indexes, each cut and each changed byte, writes that fail, and indexes of many stretches.

ghost use Rattle.std.specs.Prelude.{◌≡◌, ◌*◌, IfOk};

use adc_ports::{MemoryShelf, Shelf, SizedShelf, SteadyShelf, What};
use cell_store::CellStore;
use index_file::{AnyIndex, Index, IndexError, decode, write};
use play_script::generate;
use shape_core::Fields;
use std::alloc::{AllocError, Global};
use std::test::Fail;
use vec_files::WriteError;

type Small = Index<Fields<4, 4, 4, 4>>;

type Usual = Index<Fields<6, 6, 4, 0>>;

/// The words of a sub-quantizer of the small book: word w is 16 w.
const WORDS: [u8; 16] = [
    0x00, 0x10, 0x20, 0x30, 0x40, 0x50, 0x60, 0x70, 0x80, 0x90, 0xa0, 0xb0, 0xc0, 0xd0, 0xe0, 0xf0,
];

/// Three rows of version 1 behind their count: id 0 and id 2 in cell 0, and id 1 in cell 2.
const PLAIN: [u8; 34] = [
    3, 0, 0, 0, 0, 0, 0, 0, 0, 0, 0, 0, 0, 0, 2, 0, 0, 0, 0, 0, 0, 0, 0x44, 0x44, 1, 0, 0, 0, 2, 0,
    0, 0, 0x78, 0x01,
];

/// The same of version 2: two groups, of cell 0 and of cell 2.
const GROUPED: [u8; 42] = [
    3, 0, 0, 0, 2, 0, 0, 0, 0, 0, 0, 0, 2, 0, 0, 0, 0, 0, 0, 0, 0, 0, 2, 0, 0, 0, 0x44, 0x44, 2, 0,
    0, 0, 1, 0, 0, 0, 1, 0, 0, 0, 0x78, 0x01,
];

/// The small book, 98 bytes: d 4, h 2, K0 and K1 2, shape 4-4-4-4, g 1, four lengths of 1.
fn small_book(alloc: Global) -> Result<Vec<u8>, AllocError> {
    let mut bytes = b"ADCBOOK1".to_vec(alloc)?;
    bytes.extend_from_slice(&[4, 0, 2, 0, 2, 0, 2, 0, 0, 1, 1, 0, 1, 0, 1, 0, 1, 0])?;
    bytes.extend_from_slice(&[0, 0, 128, 128, 0, 0, 128, 128])?;
    for _ in 0..4 {
        bytes.extend_from_slice(&WORDS)?;
    }
    Ok(bytes)
}

/// An index of the small book: the letters of its version, and what stands behind the book.
fn small_index(alloc: Global, letters: &[u8], rows: &[u8]) -> Result<Vec<u8>, AllocError> {
    let mut bytes = letters.to_vec(alloc)?;
    bytes.extend_from_slice(&[98, 0, 0, 0])?;
    bytes.extend_from_slice(&small_book(alloc)?)?;
    bytes.extend_from_slice(rows)?;
    Ok(bytes)
}

/// A book of one cell and three fields of 5 bits, and one row whose word ends in this byte: 149 bytes.
fn narrow_index(alloc: Global, last: u8) -> Result<Vec<u8>, AllocError> {
    let mut bytes = b"ADCINDX1".to_vec(alloc)?;
    bytes.extend_from_slice(&[123, 0, 0, 0])?;
    bytes.extend_from_slice(b"ADCBOOK1")?;
    bytes.extend_from_slice(&[3, 0, 1, 0, 1, 0, 1, 0, 1, 1, 1, 0, 1, 0, 1, 0, 0, 0, 0])?;
    for _ in 0..3 {
        for w in 0..32u8 {
            bytes.push(w * 8)?;
        }
    }
    bytes.extend_from_slice(&[1, 0, 0, 0, 0, 0, 0, 0, 0, 0, 0, 0, 0, last])?;
    Ok(bytes)
}

/// Why the file `index` of a shelf is refused, if it is.
fn refusal<H: Shelf>(alloc: Global, shelf: &mut H) -> Option<IndexError> {
    decode(alloc, shelf, "index").err()
}

/// A shelf with a file of these bytes.
fn shelf_of(alloc: Global, bytes: &[u8]) -> Result<SteadyShelf, Fail> {
    let mut shelf = SteadyShelf::new(alloc);
    if shelf.add("index", bytes).is_err() {
        return Err(Fail::from("out of memory"));
    }
    Ok(shelf)
}

/// What is wrong with a file of these bytes, if anything is.
fn fault(alloc: Global, bytes: &[u8]) -> Result<Option<IndexError>, Fail> {
    let mut shelf = shelf_of(alloc, bytes)?;
    Ok(refusal(alloc, &mut shelf))
}

/// The index of the small book in a file of these bytes.
fn read(alloc: Global, bytes: &[u8]) -> Result<Small, Fail>
    ensures g { IfOk result (λ index. index.store.g ≡ index.book.g) }
    ensures cells { IfOk result (λ index. index.store.cells ≡ index.book.k0 * index.book.k1) }
{
    let mut shelf = shelf_of(alloc, bytes)?;
    match decode(alloc, &mut shelf, "index") {
        Ok(AnyIndex::F4444(index)) => Ok(index),
        _ => Err(Fail::from("it is no index of the shape")),
    }
}

/// A copy of the bytes of a file, if there is one.
fn copied(alloc: Global, file: Option<&[u8]>) -> Result<Option<Vec<u8>>, Fail> {
    match file {
        Some(bytes) => Ok(Some(bytes.to_vec(alloc)?)),
        None => Ok(None),
    }
}

/// The bytes of the file that is written of an index.
fn written(alloc: Global, index: &Small) -> Result<Vec<u8>, Fail>
    requires g { index.now.store.g ≡ index.now.book.g }
    requires cells { index.now.store.cells ≡ index.now.book.k0 * index.now.book.k1 }
{
    let mut shelf = SteadyShelf::new(alloc);
    if write(alloc, &index.book, &index.store, &mut shelf, "index").is_err() {
        return Err(Fail::from("the index was not written"));
    }
    match copied(alloc, shelf.file("index"))? {
        Some(bytes) => Ok(bytes),
        None => Err(Fail::from("no file was written")),
    }
}

/// What stands in the file if writing an index fails at the call of this number, after five bytes.
fn cut_off(alloc: Global, index: &Small, call: u32) -> Result<Option<Vec<u8>>, Fail>
    requires g { index.now.store.g ≡ index.now.book.g }
    requires cells { index.now.store.cells ≡ index.now.book.k0 * index.now.book.k1 }
{
    let mut shelf = MemoryShelf::new(alloc);
    if shelf.fail(call, 5).is_err() {
        return Err(Fail::from("out of memory"));
    }
    if write(alloc, &index.book, &index.store, &mut shelf, "index") != Err(WriteError::WriteFault) {
        return Err(Fail::from("the write did not fail"));
    }
    copied(alloc, shelf.file("index"))
}

/// How many rows are live, how many cells have one, and the stamp.
type Counts = (u32, u32, u64);

fn counts(index: &Small) -> Counts {
    (index.store.live(), index.store.used(), index.store.stamp())
}

/// The counts of what is read of these bytes, and what is written of it.
fn again(alloc: Global, bytes: &[u8]) -> Result<(Counts, Vec<u8>), Fail> {
    let index = read(alloc, bytes)?;
    let counts = counts(&index);
    let bytes = written(alloc, &index)?;
    Ok((counts, bytes))
}

/// What writing an index of these bytes leaves if it fails at the call of this number.
fn cut_again(alloc: Global, bytes: &[u8], call: u32) -> Result<Option<Vec<u8>>, Fail> {
    let index = read(alloc, bytes)?;
    cut_off(alloc, &index, call)
}

#[test]
fn both_versions_are_read_and_version_2_is_written(rt: HostRuntime) -> Result<(), Fail> {
    let plain = small_index(rt.alloc(), b"ADCINDX1", &PLAIN)?;
    let grouped = small_index(rt.alloc(), b"ADCINDX2", &GROUPED)?;
    assert_eq!(rt; (plain.len(), grouped.len()), (144, 152));
    for bytes in [&plain, &grouped] {
        let (counts, written) = again(rt.alloc(), bytes)?;
        assert_eq!(rt; counts, (3, 2, 3));
        assert_eq!(rt; written.as_slice(), grouped.as_slice());
    }
    Ok(())
}

/// The ids and births of the first two rows of cell 0.
fn first_rows(index: &Small) -> Option<[(u32, u64); 2]> {
    let view = index.store.cell(0)?;
    match view.slots(0) {
        [first, second] => Some([(first.id, first.born), (second.id, second.born)]),
        _ => None,
    }
}

fn first_read(alloc: Global, bytes: &[u8]) -> Result<Option<[(u32, u64); 2]>, Fail> {
    let index = read(alloc, bytes)?;
    Ok(first_rows(&index))
}

#[test]
fn the_rows_of_a_cell_come_in_the_order_of_the_file(rt: HostRuntime) -> Result<(), Fail> {
    let plain = small_index(rt.alloc(), b"ADCINDX1", &PLAIN)?;
    assert_eq!(rt; first_read(rt.alloc(), &plain)?, Some([(0, 1), (2, 2)]));
    Ok(())
}

/// Where an index of the small book is faulty that is cut to n bytes, up to its counts.
fn cut_front(n: u64) -> u64 {
    match n {
        0..=7 => 0,
        8..=11 => 8,
        12..=19 => 12,
        20..=27 | 30..=37 => n - n % 2,
        _ => n,
    }
}

/// The greatest of these places that is at most n.
fn last_place(n: u64, places: &[u64]) -> u64 {
    let mut last = 0;
    for place in places {
        if *place <= n {
            last = *place;
        }
    }
    last
}

/// What is wrong with the first n bytes.
fn cut_fault(alloc: Global, bytes: &[u8], n: usize) -> Result<Option<IndexError>, Fail> {
    match bytes.get(..n) {
        Some(front) => fault(alloc, front),
        None => Ok(None),
    }
}

#[test]
fn an_index_of_version_1_that_is_cut_is_faulty_at_the_field_that_is_cut(
    rt: HostRuntime,
) -> Result<(), Fail> {
    let bytes = small_index(rt.alloc(), b"ADCINDX1", &PLAIN)?;
    for n in 0..144 {
        let places = [110, 114, 118, 122, 124, 128, 132, 134, 138, 142];
        let at = if n < 110 {
            cut_front(n)
        } else {
            last_place(n, &places)
        };
        assert_eq!(rt;
            cut_fault(rt.alloc(), &bytes, n as usize)?,
            Some(IndexError::Malformed { at })
        );
    }
    Ok(())
}

#[test]
fn an_index_of_version_2_that_is_cut_is_faulty_at_the_field_that_is_cut(
    rt: HostRuntime,
) -> Result<(), Fail> {
    let bytes = small_index(rt.alloc(), b"ADCINDX2", &GROUPED)?;
    for n in 0..152 {
        let places = [110, 114, 118, 122, 126, 130, 132, 136, 138, 142, 146, 150];
        let at = if n < 110 {
            cut_front(n)
        } else {
            last_place(n, &places)
        };
        assert_eq!(rt;
            cut_fault(rt.alloc(), &bytes, n as usize)?,
            Some(IndexError::Malformed { at })
        );
    }
    Ok(())
}

/// What is wrong if the high bit of the byte at a place is the other one, up to the counts.
fn changed_front(place: u64) -> Option<IndexError> {
    let limit = |what, value| Some(IndexError::Limit { what, value });
    match place {
        0..=7 => malformed(0),
        8 | 9 | 24 | 26 => malformed(110),
        10 => limit(What::Book, 8_388_706),
        11 => limit(What::Book, 2_147_483_746),
        12..=19 => malformed(12),
        20 => malformed(36),
        21 => limit(What::D, 32_772),
        22 | 23 => malformed(22),
        25 => limit(What::K0, 32_770),
        27 => limit(What::K1, 32_770),
        28 => malformed(28),
        29 => limit(What::G, 129),
        30..=37 => malformed(place - place % 2),
        112 => limit(What::Rows, 8_388_611),
        113 => limit(What::Rows, 2_147_483_651),
        _ => None,
    }
}

fn malformed(at: u64) -> Option<IndexError> {
    Some(IndexError::Malformed { at })
}

/// An id that is above its limit by the high bit of its last byte.
fn high_id(id: u32) -> Option<IndexError> {
    Some(IndexError::Limit {
        what: What::Id,
        value: 2_147_483_648 + u64::from(id),
    })
}

/// The same in version 1, from the counts on.
fn changed_plain(place: u64) -> Option<IndexError> {
    match place {
        110 | 111 => malformed(144),
        117 => high_id(0),
        127 => high_id(2),
        137 => high_id(1),
        118..=121 => malformed(118),
        128..=131 => malformed(128),
        138..=141 => malformed(138),
        _ => changed_front(place),
    }
}

/// The same in version 2.
fn changed_grouped(place: u64) -> Option<IndexError> {
    match place {
        110 | 111 => malformed(142),
        129 => high_id(0),
        135 => high_id(2),
        149 => high_id(1),
        114..=117 => malformed(114),
        118..=121 => malformed(118),
        122..=125 => malformed(122),
        138..=141 => malformed(138),
        142..=145 => malformed(142),
        _ => changed_front(place),
    }
}

/// What is wrong if the byte at a place is put.
fn put_fault(
    alloc: Global,
    bytes: &[u8],
    place: usize,
    byte: u8,
) -> Result<Option<IndexError>, Fail> {
    let mut bytes = bytes.to_vec(alloc)?;
    match bytes.get_mut(place) {
        Some(old) => *old = byte,
        None => return Err(Fail::from("the place is past the end")),
    }
    fault(alloc, &bytes)
}

#[test]
fn each_changed_byte_of_version_1_is_a_fault_of_its_field(rt: HostRuntime) -> Result<(), Fail> {
    let bytes = small_index(rt.alloc(), b"ADCINDX1", &PLAIN)?;
    for (place, byte) in bytes.iter().enumerate() {
        assert_eq!(rt;
            put_fault(rt.alloc(), &bytes, place, *byte ^ 128)?,
            changed_plain(place as u64)
        );
    }
    Ok(())
}

#[test]
fn each_changed_byte_of_version_2_is_a_fault_of_its_field(rt: HostRuntime) -> Result<(), Fail> {
    let bytes = small_index(rt.alloc(), b"ADCINDX2", &GROUPED)?;
    for (place, byte) in bytes.iter().enumerate() {
        assert_eq!(rt;
            put_fault(rt.alloc(), &bytes, place, *byte ^ 128)?,
            changed_grouped(place as u64)
        );
    }
    Ok(())
}

#[test]
fn an_id_that_is_there_and_a_lower_cell_are_faults(rt: HostRuntime) -> Result<(), Fail> {
    let plain = small_index(rt.alloc(), b"ADCINDX1", &PLAIN)?;
    let grouped = small_index(rt.alloc(), b"ADCINDX2", &GROUPED)?;
    for (bytes, place, byte, at) in [
        (&plain, 124, 0, 124),
        (&plain, 118, 1, 128),
        (&grouped, 146, 0, 146),
        (&grouped, 114, 0, 114),
        (&grouped, 122, 3, 122),
        (&grouped, 138, 0, 138),
        (&grouped, 142, 2, 142),
    ] {
        assert_eq!(rt; put_fault(rt.alloc(), bytes, place, byte)?, malformed(at));
    }
    Ok(())
}

#[test]
fn a_stray_high_bit_and_a_byte_more_are_faults(rt: HostRuntime) -> Result<(), Fail> {
    let narrow = narrow_index(rt.alloc(), 0)?;
    assert_eq!(rt; narrow.len(), 149);
    assert_eq!(rt; fault(rt.alloc(), &narrow)?, None);
    assert_eq!(rt;
        fault(rt.alloc(), &narrow_index(rt.alloc(), 128)?)?,
        malformed(147)
    );
    let mut plain = small_index(rt.alloc(), b"ADCINDX1", &PLAIN)?;
    plain.push(0)?;
    assert_eq!(rt; fault(rt.alloc(), &plain)?, malformed(144));
    Ok(())
}

#[test]
fn no_file_and_a_file_that_is_too_long_are_refused(rt: HostRuntime) -> Result<(), Fail> {
    let mut shelf = SteadyShelf::new(rt.alloc());
    assert_eq!(rt; refusal(rt.alloc(), &mut shelf), Some(IndexError::Missing));
    let name = String::from_str(rt.alloc(), "index")?;
    let value = 2_147_483_649;
    let mut shelf = SizedShelf::new(shelf, name, value);
    let what = What::Bytes;
    assert_eq!(rt;
        refusal(rt.alloc(), &mut shelf),
        Some(IndexError::Limit { what, value })
    );
    Ok(())
}

/// An index of 3,000 rows of version 1: 750 in each cell, with their id as their word.
fn long_index(alloc: Global) -> Result<Vec<u8>, AllocError> {
    let mut bytes = small_index(alloc, b"ADCINDX1", &[0xb8, 0x0b, 0, 0])?;
    for id in 0..3000u32 {
        let cell = id / 750;
        let word = id as u16;
        bytes.extend_from_slice(&id.to_le_bytes())?;
        bytes.extend_from_slice(&cell.to_le_bytes())?;
        bytes.extend_from_slice(&word.to_le_bytes())?;
    }
    Ok(bytes)
}

#[test]
fn an_index_of_many_stretches_is_read_and_written(rt: HostRuntime) -> Result<(), Fail> {
    let bytes = long_index(rt.alloc())?;
    assert_eq!(rt; bytes.len(), 30_114);
    let (counts, grouped) = again(rt.alloc(), &bytes)?;
    assert_eq!(rt; counts, (3000, 4, 3000));
    assert_eq!(rt; grouped.len(), 18_150);
    let (counts, same) = again(rt.alloc(), &grouped)?;
    assert_eq!(rt; counts, (3000, 4, 3000));
    assert_eq!(rt; same.as_slice(), grouped.as_slice());
    Ok(())
}

/// The bytes of a row of d 128 in a bvecs file, and of 1,000,000 rows.
const _: () = prove!(1_000_000 * (4 + 128) == 132_000_000);

/// An index of 1,000,000 rows of a book of 38,962 bytes and codes of 8 words, in version 1, and in version 2 but for the groups.
const _: () = prove!(8 + 4 + 38_962 + 4 + 1_000_000 * (4 + 4 + 2 * 8) == 24_038_978);

const _: () = prove!(8 + 4 + 38_962 + 8 + 1_000_000 * (4 + 2 * 8) == 20_038_982);

/// An index of version 1 of a sample's book, with the row of id 0, cell 0 and a code of zeros.
fn usual_index(alloc: Global) -> Result<Vec<u8>, Fail> {
    let Ok(sample) = generate(alloc, 1, 1) else {
        return Err(Fail::from("out of memory"));
    };
    let mut bytes = b"ADCINDX1".to_vec(alloc)?;
    bytes.extend_from_slice(&38_962u32.to_le_bytes())?;
    bytes.extend_from_slice(sample.book())?;
    bytes.extend_from_slice(&[1, 0, 0, 0])?;
    bytes.extend_from_slice(&[0; 24])?;
    Ok(bytes)
}

/// How many bytes are written of an index.
fn written_size(alloc: Global, index: &Usual) -> Result<usize, Fail>
    requires g { index.now.store.g ≡ index.now.book.g }
    requires cells { index.now.store.cells ≡ index.now.book.k0 * index.now.book.k1 }
{
    let mut shelf = SteadyShelf::new(alloc);
    if write(alloc, &index.book, &index.store, &mut shelf, "index").is_err() {
        return Err(Fail::from("the index was not written"));
    }
    match shelf.file("index") {
        Some(bytes) => Ok(bytes.len()),
        None => Err(Fail::from("no file was written")),
    }
}

/// How many bytes are written of what is read of these.
fn size_again(alloc: Global, bytes: &[u8]) -> Result<usize, Fail> {
    let mut shelf = shelf_of(alloc, bytes)?;
    match decode(alloc, &mut shelf, "index") {
        Ok(AnyIndex::F664(index)) => written_size(alloc, &index),
        _ => Err(Fail::from("it is no index of the shape")),
    }
}

#[test]
fn a_row_of_a_usual_index_has_24_bytes_and_then_20(rt: HostRuntime) -> Result<(), Fail> {
    let bytes = usual_index(rt.alloc())?;
    assert_eq!(rt; bytes.len(), 8 + 4 + 38_962 + 4 + 24);
    assert_eq!(rt;
        size_again(rt.alloc(), &bytes)?,
        8 + 4 + 38_962 + 8 + (8 + 20)
    );
    Ok(())
}

/// Deletes the rows of ids 1 and 0 while their stamp is pinned.
fn delete_two(index: &mut Small) -> Result<(), Fail>
    ensures book { index.new.book ≡ index.old.book }
    ensures g { index.new.store.g ≡ index.old.store.g }
    ensures cells { index.new.store.cells ≡ index.old.store.cells }
{
    if index.store.pin().is_err() {
        return Err(Fail::from("the stamp is not pinned"));
    }
    delete(&mut index.store, 1)?;
    delete(&mut index.store, 0)
}

fn delete(store: &mut CellStore<Fields<4, 4, 4, 4>>, id: u32) -> Result<(), Fail>
    ensures g { store.new.g ≡ store.old.g }
    ensures cells { store.new.cells ≡ store.old.cells }
{
    if 9 < id || 9 < store.stamp() || store.delete(id).is_err() {
        return Err(Fail::from("the row is not deleted"));
    }
    Ok(())
}

/// What is written of an index of these bytes without the rows of ids 1 and 0.
fn without_two(alloc: Global, bytes: &[u8]) -> Result<Vec<u8>, Fail> {
    let mut index = read(alloc, bytes)?;
    delete_two(&mut index)?;
    written(alloc, &index)
}

#[test]
fn rows_that_were_deleted_are_left_out(rt: HostRuntime) -> Result<(), Fail> {
    let plain = small_index(rt.alloc(), b"ADCINDX1", &PLAIN)?;
    let rows = [
        1, 0, 0, 0, 1, 0, 0, 0, 0, 0, 0, 0, 1, 0, 0, 0, 2, 0, 0, 0, 0x44, 0x44,
    ];
    let want = small_index(rt.alloc(), b"ADCINDX2", &rows)?;
    assert_eq!(rt;
        without_two(rt.alloc(), &plain)?.as_slice(),
        want.as_slice()
    );
    Ok(())
}

#[test]
fn a_write_that_fails_leaves_the_first_bytes(rt: HostRuntime) -> Result<(), Fail> {
    let plain = small_index(rt.alloc(), b"ADCINDX1", &PLAIN)?;
    for (call, want) in [(1, None), (2, Some(b"ADCIN".as_slice()))] {
        let left = cut_again(rt.alloc(), &plain, call)?;
        assert_eq!(rt; left.as_deref(), want);
    }
    Ok(())
}

/// What is answered if the call of this number fails.
fn read_fault(alloc: Global, bytes: &[u8], call: u32) -> Result<Option<IndexError>, Fail> {
    let mut shelf = MemoryShelf::new(alloc);
    if shelf.add("index", bytes).is_err() || shelf.fail(call, 0).is_err() {
        return Err(Fail::from("out of memory"));
    }
    Ok(refusal(alloc, &mut shelf))
}

#[test]
fn each_read_that_fails_is_a_read_fault(rt: HostRuntime) -> Result<(), Fail> {
    let bytes = long_index(rt.alloc())?;
    // The length, the front, the book, the counts and four stretches of rows.
    for call in 1..9 {
        assert_eq!(rt;
            read_fault(rt.alloc(), &bytes, call)?,
            Some(IndexError::ReadFault)
        );
    }
    assert_eq!(rt; read_fault(rt.alloc(), &bytes, 9)?, None);
    Ok(())
}
