//! The ranks of a small book.
ghost use Rattle.coarse_rank.specs.Ranked.{IsFilled};

use crate::rank_books::ranks_of;
use coarse_rank::*;
use std::test::Fail;

/// The cell and the sum of two ranked words that are there.
fn read(ranks: &Ranks, a: u32, b: u32, pairs: &mut PairMeter) -> Option<(u32, u64)>
    requires { IsFilled ranks.now }
{
    if a >= ranks.k0() || b >= ranks.k1() || pairs.count() > 99 {
        return None;
    }
    Some((ranks.cell(a, b), ranks.sum(a, b, pairs)))
}

#[test]
fn words_are_ranked_by_distance_and_then_by_number(rt: HostRuntime) -> Result<(), Fail> {
    let alloc = rt.alloc();
    // Part 0 has the words (5, 0), (0, 1) and (1, 0), and part 1 has (9, 9) and (0, 0).
    let words = [5, 0, 0, 1, 1, 0, 9, 9, 0, 0];
    let ranks = ranks_of(alloc, 3, 2, &words, &[0, 0, 9, 7])?;
    let mut pairs = PairMeter::new(alloc);
    assert_eq!(rt; (ranks.k0(), ranks.k1(), pairs.count()), (3, 2, 0));
    for (a, b, cell) in [
        (0, 0, Some((2, 1 + 4))),
        (1, 0, Some((4, 1 + 4))),
        (2, 0, Some((0, 25 + 4))),
        (2, 1, Some((1, 25 + 130))),
        (3, 0, None),
    ] {
        assert_eq!(rt; read(&ranks, a, b, &mut pairs), cell, "{a} {b}");
    }
    assert_eq!(rt; pairs.count(), 4);
    Ok(())
}
