//! Tests of kept filters.
ghost use Rattle.std.specs.Prelude.{◌≤◌};
ghost use Rattle.id_filter.specs.Kept.{IsKept};

use id_filter::*;
use std::test::Fail;

fn in_range(lo: u32, hi: u32, id: u32) -> bool
    requires { id ≤ 2147483647 }
{
    let range = IdRange { lo, hi };
    let filter = KeptFilter::new(IdRanges::One(range), |id: u32| lo <= id && id <= hi);
    filter.passes(id)
}

/// How many of these ids pass: a caller that is given its filter.
fn passing<F: Fn(u32) -> bool>(filter: &KeptFilter<F>, ids: [u32; 3]) -> u8
    requires kept { IsKept F.Fn filter.now }
{
    let mut count = 0;
    for id in ids {
        if id <= IdRange::LAST_ID && filter.passes(id) && count < 3 {
            count += 1;
        }
    }
    count
}

fn whole(lo: u32, hi: u32) -> bool {
    let range = IdRange { lo, hi };
    KeptFilter::new(IdRanges::One(range), |id: u32| lo <= id && id <= hi).is_all()
}

#[test]
fn a_range_holds_its_ends(rt: HostRuntime) {
    assert!(rt; in_range(7, 9, 7));
    assert!(rt; in_range(7, 9, 9));
    assert!(rt; !in_range(7, 9, 6));
    assert!(rt; !in_range(7, 9, 10));
    assert!(rt; in_range(0, 2_147_483_647, 2_147_483_647));
}

#[test]
fn a_range_from_above_its_end_holds_nothing(rt: HostRuntime) {
    assert!(rt; !in_range(1, 0, 0));
    assert!(rt; !in_range(1, 0, 1));
}

#[test]
fn all_ids_pass_one_closure(rt: HostRuntime) {
    let range = IdRange {
        lo: 0,
        hi: 2_147_483_647,
    };
    let filter = KeptFilter::new(IdRanges::One(range), |_: u32| true);
    assert!(rt; filter.is_all());
    assert_eq!(rt; passing(&filter, [0, 5, 2_147_483_647]), 3);
}

#[test]
fn only_a_range_of_all_ids_is_all(rt: HostRuntime) {
    assert!(rt; whole(0, 2_147_483_647));
    assert!(rt; whole(0, 4_294_967_295));
    assert!(rt; !whole(1, 2_147_483_647));
    assert!(rt; !whole(0, 2_147_483_646));
}

#[test]
fn many_ranges_pass_what_one_of_them_has(rt: HostRuntime) -> Result<(), Fail> {
    let ranges = vec![in rt.alloc(); IdRange { lo: 3, hi: 3 }, IdRange { lo: 5, hi: 6 }]?;
    let filter = KeptFilter::new(
        IdRanges::Many(ranges),
        |id: u32| id == 3 || (5 <= id && id <= 6),
    );
    assert!(rt; !filter.is_all());
    assert_eq!(rt; passing(&filter, [3, 4, 6]), 2);
    Ok(())
}

#[test]
fn a_list_passes_its_ids_alone(rt: HostRuntime) -> Result<(), Fail> {
    let mut ids = Vec::new(rt.alloc());
    add_ids(&mut ids, &[9, -1, 3, 2_147_483_647])?;
    add_ids(&mut ids, &[3, -2_147_483_648, 0])?;
    let (ranges, ids) = allowed(rt.alloc(), ids)?;
    let filter = KeptFilter::new(ranges, |id: u32| ids.has(id));
    assert!(rt; !filter.is_all());
    assert_eq!(rt; passing(&filter, [0, 3, 9]), 3);
    assert_eq!(rt; passing(&filter, [1, 4, 2_147_483_647]), 1);
    Ok(())
}

#[test]
fn an_empty_list_passes_no_id(rt: HostRuntime) -> Result<(), Fail> {
    let mut ids = Vec::new(rt.alloc());
    add_ids(&mut ids, &[-1])?;
    let (ranges, ids) = allowed(rt.alloc(), ids)?;
    let filter = KeptFilter::new(ranges, |id: u32| ids.has(id));
    assert_eq!(rt; passing(&filter, [0, 1, 2_147_483_647]), 0);
    Ok(())
}
