//! A table of 2^width small entries.
ghost use Rattle.std.specs.Prelude.{◌≡◌, ℕ, ◌+◌, ◌^◌, ◌%◌, ◌<◌, ◌≤◌, List, take, replicate, slice_index, slice_set};
ghost use Rattle.lane_kernels.specs.Lanes.{HasLanes};
ghost use Rattle.lane_kernels.specs.Table.{Table};

use crate::LaneMeter;
use crate::parts::select;
use std::marker::Model;
use std::simd::prelude::*;

/// The entries that the fields of one width pick from, in parts of 16. `select32` and `sum32` alone read them.
#[derive(Drop)]
pub struct SplitTable {
    filled: [u8; 256],
    bits: u32,
}

impl Model for SplitTable {
    ghost Value = { Table };

    ghost view = { λ t. record { width = t.bits; entries = take (2 ^ t.bits) t.filled } };

    ghost invariant = { λ t. (4 ≤ t.bits) × (t.bits ≤ 8) };
}

impl SplitTable {
    /// A table of zeros for indices of 4 to 8 bits. The fields of a shape have 4, 5, 6 or 8.
    pub fn zero(width: u32) -> SplitTable
        requires { (4 ≤ width) × (width ≤ 8) }
        ensures width { result.width ≡ width }
        ensures entries { result.entries ≡ replicate (2 ^ width) 0 }
    {
        SplitTable {
            filled: [0; 256],
            bits: width,
        }
    }

    /// The bits of an index.
    #[inline(always)]
    pub fn width(&self) -> u32
        ensures { result ≡ self.now.width }
    {
        self.bits
    }

    /// Puts an entry in place. `at` is below 2 to the width.
    pub fn set(&mut self, at: u32, value: u8)
        requires { at < 2 ^ self.old.width }
        ensures entries { self.new.entries ≡ slice_set self.old.entries at value }
        ensures width { self.new.width ≡ self.old.width }
    {
        self.filled[at as usize] = value;
    }

    /// The entry at each lane's low bits. A caller that knows the width names it, so that it is compiled for that width.
    #[inline(always)]
    pub(crate) fn picked(&self, width: u32, v: u8x32) -> u8x32
        requires { width ≡ self.now.width }
        ensures { HasLanes result (λ k. slice_index self.now.entries (slice_index v k % 2 ^ width)) }
    {
        select(&self.filled, width, v)
    }
}

/// The entry at each of 32 indices, each below 2 to the table's width. Adds one to the meter.
pub fn select32(table: &SplitTable, indices: &[u8; 32], lanes: &mut LaneMeter) -> [u8; 32]
    requires indices { (l : ℕ) → l < 32 → slice_index indices.now l < 2 ^ table.now.width }
    requires meter { lanes.old ≤ 2 ^ 63 }
    ensures entries { HasLanes result (λ l. slice_index table.now.entries (slice_index indices.now l)) }
    ensures meter { lanes.new ≡ lanes.old + 1 }
{
    lanes.raise();
    table
        .picked(table.width(), u8x32::from_array(*indices))
        .to_array()
}
