//! The best list keeps the least pairs, in order.
use best_k::*;
use std::test::Fail;

fn pair(distance: u64, id: u32) -> Pair {
    Pair { distance, id }
}

#[test]
fn the_least_two_are_kept_in_order(rt: HostRuntime) -> Result<(), Fail> {
    let Ok(mut best) = Best::with_room(rt.alloc(), 2) else {
        return Err(Fail::from("no memory"));
    };
    best.offer(pair(5, 1));
    assert_eq!(rt; best.worst(), None);
    best.offer(pair(3, 9));
    assert_eq!(rt; best.worst(), Some(pair(5, 1)));
    best.offer(pair(5, 0));
    assert_eq!(rt; best.worst(), Some(pair(5, 0)));
    assert_eq!(rt; best.finish(), [pair(3, 9), pair(5, 0)].as_slice());
    Ok(())
}

#[test]
fn a_pair_offered_twice_counts_twice_and_offers_go_on(rt: HostRuntime) -> Result<(), Fail> {
    let Ok(mut best) = Best::with_room(rt.alloc(), 3) else {
        return Err(Fail::from("no memory"));
    };
    best.offer(pair(7, 1));
    best.offer(pair(7, 1));
    assert_eq!(rt; best.finish(), [pair(7, 1), pair(7, 1)].as_slice());
    best.offer(pair(7, 2));
    best.offer(pair(7, 0));
    assert_eq!(rt;
        best.finish(),
        [pair(7, 0), pair(7, 1), pair(7, 1)].as_slice()
    );
    best.start(1);
    assert!(rt; best.finish().is_empty());
    best.offer(pair(u64::MAX, u32::MAX));
    best.offer(pair(u64::MAX, 0));
    assert_eq!(rt; best.worst(), Some(pair(u64::MAX, 0)));
    Ok(())
}
