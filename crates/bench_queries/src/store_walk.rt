//! A walk over all blocks of a store.
use crate::store::Store;
use cell_store::{BlockMeter, CellView, NEVER, Slot};
use shape_core::Fields;
use std::alloc::Global;

/// A checksum of the live rows: of their ids in the order of their cells, and of the words of their codes.
pub fn walk(alloc: Global, store: &Store) -> u64 {
    let mut blocks = BlockMeter::new(alloc);
    let mut sum: u64 = 0;
    for cell in 0..65_536 {
        if let Some(view) = store.cell(cell) {
            let rows = walk_cell(&view, &mut blocks);
            sum = sum.wrapping_add(rows.wrapping_mul(u64::from(cell) + 1));
        }
    }
    sum
}

fn walk_cell(view: &CellView<'_, Fields<4, 4, 4, 4>>, blocks: &mut BlockMeter) -> u64 {
    let mut ids: u64 = 0;
    let mut words: u64 = 0;
    for n in 0..131_072 {
        if view.kept() <= n as usize * 32 || 9_223_372_036_854_775_808 < blocks.count() {
            return ids.wrapping_add(words);
        }
        let live = live_of(view.slots(n), &mut ids);
        for lane in view.block(n, blocks).words() {
            words = words.wrapping_add(lane_sum(lane, &live));
        }
    }
    ids.wrapping_add(words)
}

/// All bits for each slot of a live row, and none for the others. The ids of the live rows go into a checksum.
fn live_of(slots: &[Slot], ids: &mut u64) -> [u16; 32] {
    let mut live = [0; 32];
    for (i, slot) in slots.iter().enumerate() {
        if i < 32 && slot.died == NEVER {
            live[i] = 0xffff;
            *ids = ids.wrapping_mul(31).wrapping_add(u64::from(slot.id));
        }
    }
    live
}

fn lane_sum(lane: &[u16; 32], live: &[u16; 32]) -> u64 {
    let mut sum: u64 = 0;
    for i in 0..32 {
        sum = sum.wrapping_add(u64::from(lane[i] & live[i]));
    }
    sum
}
