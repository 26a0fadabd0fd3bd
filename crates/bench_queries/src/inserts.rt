//! The inserts of all rows.

use id_filter::IdRange;
use query_engine::Engine;
use shape_core::Shape;

/// Inserts a row for each 132 bytes, and gives a checksum of their cells.
pub fn insert_all<S: Shape>(engine: &mut Engine<S>, base: &[u8]) -> u64 {
    let mut sum: u64 = 0;
    let mut id: u32 = 0;
    for row in base.chunks(132) {
        sum = sum.wrapping_mul(31).wrapping_add(insert(engine, id, row));
        id = id.wrapping_add(1);
    }
    sum
}

/// Inserts the row of a vector that stands behind its header, and gives its cell.
fn insert<S: Shape>(engine: &mut Engine<S>, id: u32, row: &[u8]) -> u64 {
    if row.len() != 132 || engine.book().d() != 128 || id > IdRange::LAST_ID {
        return 0;
    }
    if engine.store().stamp() > 4_000_000_000 {
        return 0;
    }
    match engine.insert(id, &row[4..]) {
        Ok(cell) => u64::from(cell),
        Err(_) => 0,
    }
}
