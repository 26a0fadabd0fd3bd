//! Exact distances of all rows of a query, through the best list.
ghost use Rattle.std.specs.Prelude.{◌≡◌, ◌≤◌, length};

use adc_tables::{FullMeter, FullTables};
use best_k::{Best, Pair};
use shape_core::Shape;
use std::alloc::Global;

/// Offers the distance of each code, so many words each.
pub fn offer_all<S: Shape>(
    alloc: Global,
    codes: &[u16],
    groups: u32,
    tables: &FullTables<S>,
    best: &mut Best,
)
    requires groups { 1 ≤ groups }
    requires g { tables.now.g ≡ groups }
{
    let mut id: u32 = 0;
    for code in codes.chunks(groups as usize) {
        if code.len() == groups as usize {
            offer_row(alloc, code, tables, id, best);
        }
        id = id.wrapping_add(1);
    }
}

/// Offers the distance of a code.
#[inline(always)]
fn offer_row<S: Shape>(
    alloc: Global,
    code: &[u16],
    tables: &FullTables<S>,
    id: u32,
    best: &mut Best,
)
    requires { length code.now ≡ tables.now.g }
{
    let mut full = FullMeter::new(alloc);
    let distance = tables.distance(code, &mut full);
    best.offer(Pair { distance, id });
}
