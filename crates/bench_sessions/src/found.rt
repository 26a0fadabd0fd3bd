//! What queries found, in sums that do not depend on their order.
ghost use Rattle.std.specs.Prelude.{◌≡◌, true};
ghost use Rattle.query_engine.specs.Report.{HaveRoom};

use best_k::Pair;
use query_engine::{Meters, Report};

/// A checksum of the pairs of all queries, and how many cells, rows and full rows they visited.
#[derive(Clone, Copy)]
pub struct Found {
    pub sum: u64,
    pub cells: u64,
    pub live: u64,
    pub full: u64,
}

impl Found {
    /// No query.
    pub const NOTHING: Found = Found {
        sum: 0,
        cells: 0,
        live: 0,
        full: 0,
    };
}

/// Adds what a query visited and answered.
pub fn add(found: &mut Found, report: &Report, pairs: &[Pair]) {
    found.sum = found.sum.wrapping_add(sum_of(pairs));
    found.cells = found.cells.wrapping_add(u64::from(report.cells));
    found.live = found.live.wrapping_add(u64::from(report.live));
    found.full = found.full.wrapping_add(u64::from(report.full));
}

/// A checksum of pairs in their order.
fn sum_of(pairs: &[Pair]) -> u64 {
    let mut sum: u64 = 0;
    for pair in pairs {
        let mixed = pair.distance ^ (u64::from(pair.id) << 32).wrapping_mul(256);
        sum = sum.wrapping_mul(31).wrapping_add(mixed);
    }
    sum
}

/// Whether each count is far from its end.
pub fn are_early(meters: &Meters) -> bool
    ensures { result ≡ true → HaveRoom meters.now }
{
    meters.pairs.count() < 1_000_000_000_000_000
        && meters.full.count() < 1_000_000_000_000_000
        && meters.blocks.count() < 1_000_000_000_000_000
        && meters.lanes.count() < 1_000_000_000_000_000
}
