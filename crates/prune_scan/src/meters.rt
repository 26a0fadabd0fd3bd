//! What queries cost.
ghost use Rattle.std.specs.Prelude.{◌≡◌};

use adc_tables::FullMeter;
use cell_store::BlockMeter;
use coarse_rank::PairMeter;
use half_tables::{HalfFullMeter, HalfMeter};
use lane_kernels::LaneMeter;
use std::alloc::Global;

/// The work of queries: sums of ranked distances, full distances, blocks of codes, and calls over lanes; of residual queries
/// full distances of two halves, and filled halves.
#[derive(Drop)]
pub struct Meters {
    pub pairs: PairMeter,
    pub full: FullMeter,
    pub blocks: BlockMeter,
    pub lanes: LaneMeter,
    pub half_full: HalfFullMeter,
    pub halves: HalfMeter,
}

impl Meters {
    /// Meters at 0. They take no memory.
    pub fn new(alloc: Global) -> Meters
        ensures pairs { result.pairs ≡ 0 }
        ensures full { result.full ≡ 0 }
        ensures blocks { result.blocks ≡ 0 }
        ensures lanes { result.lanes ≡ 0 }
        ensures half_full { result.half_full ≡ 0 }
        ensures halves { result.halves ≡ 0 }
    {
        Meters {
            pairs: PairMeter::new(alloc),
            full: FullMeter::new(alloc),
            blocks: BlockMeter::new(alloc),
            lanes: LaneMeter::new(alloc),
            half_full: HalfFullMeter::new(alloc),
            halves: HalfMeter::new(alloc),
        }
    }
}
