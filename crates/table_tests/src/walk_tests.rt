//! Walks over small books, over random ones and over the largest.
ghost use Rattle.std.specs.Prelude.{◌≤◌, ◌^◌};
ghost use Rattle.coarse_rank.specs.Ranked.{IsFilled};

use crate::rank_books::ranks_of;
use book_model::dist;
use coarse_rank::{PairMeter, Ranks};
use pair_walk::*;
use std::alloc::Global;
use std::test::Fail;

/// The cells that a walk gives, as sums and numbers, at most so many.
fn given(
    alloc: Global,
    ranks: &Ranks,
    most: u32,
    pairs: &mut PairMeter,
) -> Result<Vec<(u64, u32)>, Fail>
    requires filled { IsFilled ranks.now }
    requires room { pairs.old ≤ 2 ^ 40 }
{
    let mut walk = Walk::new();
    walk.start(ranks, pairs);
    let mut cells = Vec::new(alloc);
    for i in 0..most {
        let Some(cell) = walk.next(ranks, pairs) else {
            return Ok(cells);
        };
        cells.push((cell.sum, cell.number))?;
    }
    Ok(cells)
}

/// The cells that a walk over these words gives for a query of zeros, at most so many, and the sums that it computed.
fn counted(
    alloc: Global,
    k0: u16,
    k1: u16,
    words: &[u8],
    most: u32,
) -> Result<(Vec<(u64, u32)>, u64), Fail> {
    let ranks = ranks_of(alloc, k0, k1, words, &[0; 4])?;
    let mut pairs = PairMeter::new(alloc);
    let cells = given(alloc, &ranks, most, &mut pairs)?;
    Ok((cells, pairs.count()))
}

/// All cells that a walk over these words gives for a query of zeros.
fn walked(alloc: Global, k0: u16, k1: u16, words: &[u8]) -> Result<Vec<(u64, u32)>, Fail> {
    let (cells, _pairs) = counted(alloc, k0, k1, words, 2_000_000)?;
    Ok(cells)
}

/// The squared length of a word.
fn squared_length(word: &[u8]) -> u64 {
    if word.len() == 2 {
        dist(word, &[0, 0])
    } else {
        0
    }
}

/// All cells for a query of zeros, computed and sorted.
fn sorted(alloc: Global, words0: &[u8], words1: &[u8]) -> Result<Vec<(u64, u32)>, Fail> {
    let mut cells = Vec::new(alloc);
    let mut number: u32 = 0;
    for p in words0.chunks(2) {
        for q in words1.chunks(2) {
            cells.push((squared_length(p).saturating_add(squared_length(q)), number))?;
            number = number.wrapping_add(1);
        }
    }
    cells.sort()?;
    Ok(cells)
}

/// So many bytes of a generator that begins with this number, each below a bound.
fn random_bytes(alloc: Global, start: u32, count: usize, bound: u32) -> Result<Vec<u8>, Fail> {
    let mut bytes = Vec::new(alloc);
    let mut state = start;
    for _ in 0..count {
        state = state.wrapping_mul(1_664_525).wrapping_add(1_013_904_223);
        bytes.push((state / 65_536 % bound.clamp(1, 256)) as u8)?;
    }
    Ok(bytes)
}

#[test]
fn cells_come_by_sum_and_then_by_number(rt: HostRuntime) -> Result<(), Fail> {
    let words = [1, 2, 0, 1, 0, 0, 1, 1, 1, 1];
    let (cells, pairs) = counted(rt.alloc(), 2, 3, &words, 6)?;
    assert_eq!(rt;
        cells.as_slice(),
        [(1, 3), (3, 4), (3, 5), (5, 0), (7, 1), (7, 2)].as_slice()
    );
    assert!(rt; pairs <= 13);
    Ok(())
}

#[test]
fn numbers_alone_decide_where_words_are_equal(rt: HostRuntime) -> Result<(), Fail> {
    let cells = walked(rt.alloc(), 2, 3, &[0; 10])?;
    assert_eq!(rt;
        cells.as_slice(),
        [(0, 0), (0, 1), (0, 2), (0, 3), (0, 4), (0, 5)].as_slice()
    );
    Ok(())
}

#[test]
fn one_word_in_a_part(rt: HostRuntime) -> Result<(), Fail> {
    let row = walked(rt.alloc(), 1, 3, &[1, 0, 2, 0, 0, 0, 1, 0])?;
    assert_eq!(rt; row.as_slice(), [(1, 1), (2, 2), (5, 0)].as_slice());
    let column = walked(rt.alloc(), 3, 1, &[2, 0, 0, 0, 1, 0, 1, 0])?;
    assert_eq!(rt; column.as_slice(), [(1, 1), (2, 2), (5, 0)].as_slice());
    Ok(())
}

#[test]
fn random_cells_come_as_they_are_sorted(rt: HostRuntime) -> Result<(), Fail> {
    let alloc = rt.alloc();
    for (start, k0, k1, bound) in [
        (1, 37, 53, 256),
        (2, 53, 37, 4),
        (3, 1, 64, 9),
        (4, 64, 2, 2),
    ] {
        let words0 = random_bytes(alloc, start, 2 * usize::from(k0), bound)?;
        let words1 = random_bytes(alloc, start + 100, 2 * usize::from(k1), bound)?;
        let mut words = words0.clone()?;
        words.extend_from_slice(&words1)?;
        assert_eq!(rt;
            walked(alloc, k0, k1, &words)?,
            sorted(alloc, &words0, &words1)?
        );
    }
    Ok(())
}

#[test]
fn the_largest_ranks_give_each_cell_once(rt: HostRuntime) -> Result<(), Fail> {
    let alloc = rt.alloc();
    let words = random_bytes(alloc, 7, 4096, 256)?;
    let mut cells = walked(alloc, 1024, 1024, &words)?;
    assert!(rt; cells.is_sorted());
    cells.dedup();
    assert_eq!(rt; cells.len(), 1_048_576);
    Ok(())
}
