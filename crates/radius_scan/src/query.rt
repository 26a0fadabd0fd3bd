//! The query by radius.
ghost use Rattle.std.specs.Prelude.{◌≡◌, ◌≤◌, length};
ghost use Rattle.cell_store.specs.State.{live_rows};
ghost use Rattle.query_engine.specs.Report.{HaveRoom};
ghost use Rattle.radius_scan.specs.Parts.{HasRadiusRoom};
ghost use Rattle.radius_scan.specs.Report.{radius_query, Finds};

use crate::RadiusScratch;
use id_filter::IdSelector;
use query_engine::{Engine, Meters, Report};
use shape_core::Shape;

/// Answers a query of d components with all allowed live rows within a squared distance of r, in the first cells that hold as
/// many allowed rows as are wanted, 1 to 4,194,304, or all there are. The pairs stand in the scratch, which has room for all
/// live rows. It refuses nothing, and takes no memory.
pub fn radius<S: Shape, P: IdSelector>(
    engine: &Engine<S>,
    scratch: &mut RadiusScratch<S>,
    query: &[u8],
    r: u64,
    wanted: u32,
    selector: &P,
    meters: &mut Meters,
) -> Report
    requires selector { P.can_pass selector.now }
    requires room { HasRadiusRoom engine.now.book scratch.old }
    requires rows { length (live_rows engine.now.store) ≤ scratch.old.room }
    requires query { length query.now ≡ engine.now.book.d }
    requires wanted_some { 1 ≤ wanted }
    requires wanted_few { wanted ≤ 4194304 }
    requires meters { HaveRoom meters.old }
    ensures finds { Finds engine.now.book (radius_query query.now wanted (P.ranges selector.now)) r engine.now.store scratch.new.pairs result meters.old meters.new }
    ensures room { HasRadiusRoom engine.now.book scratch.new }
    ensures rows { scratch.new.room ≡ scratch.old.room }
{
    scratch.ask(engine.book(), query);
    scratch.find(engine.store(), r, wanted, selector, meters)
}
