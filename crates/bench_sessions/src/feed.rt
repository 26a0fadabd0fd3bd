//! The first rows of an engine, and the changes after them.
ghost use Rattle.bench_sessions.specs.Staying.{Stays};

use id_filter::IdRange;
use query_engine::Engine;
use shape_core::Shape;

/// How many places of the file lie between two rows of the scattered order: a number prime to a million.
const STRIDE: u64 = 617_411;

/// The changes that are still to come: in turn a delete of one of the first rows, in a scattered order, and an insert of the
/// vector of another under an id of its own.
#[derive(Drop)]
pub struct Feed<'a> {
    base: &'a [u8],
    done: u64,
}

/// Changes by the vectors of a file, each of which stands behind a header, in 132 bytes.
pub fn changes_by(base: &[u8]) -> Feed<'_> {
    Feed { base, done: 0 }
}

/// Inserts all vectors of a file under their places, and gives a checksum of their cells.
#[tactic(auto, using(crate::proofs::Changing::stays_same, crate::proofs::Changing::stays_on))]
pub fn insert_all<S: Shape>(engine: &mut Engine<S>, base: &[u8]) -> u64
    ensures { Stays engine.old engine.new }
{
    let mut sum: u64 = 0;
    let mut id: u64 = 0;
    for row in base.chunks(132) {
        sum = sum.wrapping_mul(31).wrapping_add(insert(engine, id, row));
        id = id.wrapping_add(1);
    }
    sum
}

/// Makes so many of the changes.
#[tactic(auto, using(crate::proofs::Changing::stays_same, crate::proofs::Changing::stays_on))]
pub fn change<S: Shape>(engine: &mut Engine<S>, feed: &mut Feed<'_>, count: u64)
    ensures { Stays engine.old engine.new }
{
    for _ in 0..count {
        change_once(engine, feed);
    }
}

/// Makes the next change.
fn change_once<S: Shape>(engine: &mut Engine<S>, feed: &mut Feed<'_>)
    ensures { Stays engine.old engine.new }
{
    let n = feed.done;
    feed.done = n.wrapping_add(1);
    make_change(engine, feed.base, n);
}

/// Makes the n-th change: a delete if n is even, and else an insert.
fn make_change<S: Shape>(engine: &mut Engine<S>, base: &[u8], n: u64)
    ensures { Stays engine.old engine.new }
{
    let rows = base.len() as u64 / 132;
    let pair = n / 2;
    if n % 2 == 0 {
        delete(engine, place(pair, rows));
    } else {
        let row = row_at(base, place(pair.wrapping_add(rows / 2), rows));
        let _cell = insert(engine, rows.wrapping_add(pair), row);
    }
}

/// The place of the n-th row in a scattered order, and 0 if there is none.
fn place(n: u64, rows: u64) -> u64 {
    if rows == 0 {
        return 0;
    }
    n.wrapping_mul(STRIDE) % rows
}

/// The 132 bytes of a row, or none if it is not there.
fn row_at(base: &[u8], place: u64) -> &[u8] {
    if place >= base.len() as u64 / 132 {
        return &[];
    }
    let start = place as usize * 132;
    &base[start..start + 132]
}

/// Inserts the vector that stands behind its header, and gives its cell.
#[tactic(auto, using(crate::proofs::Changing::stays_same, crate::proofs::Changing::stays_changed))]
fn insert<S: Shape>(engine: &mut Engine<S>, id: u64, row: &[u8]) -> u64
    ensures { Stays engine.old engine.new }
{
    if row.len() != 132 || engine.book().d() != 128 || id > u64::from(IdRange::LAST_ID) {
        return 0;
    }
    if engine.store().stamp() > 4_000_000_000 {
        return 0;
    }
    match engine.insert(id as u32, &row[4..]) {
        Ok(cell) => u64::from(cell),
        Err(_) => 0,
    }
}

/// Deletes the row of an id, if there is one.
#[tactic(auto, using(crate::proofs::Changing::stays_same, crate::proofs::Changing::stays_changed))]
fn delete<S: Shape>(engine: &mut Engine<S>, id: u64)
    ensures { Stays engine.old engine.new }
{
    if id > u64::from(IdRange::LAST_ID) || engine.store().stamp() > 4_000_000_000 {
        return;
    }
    let _absent = engine.delete(id as u32);
}
