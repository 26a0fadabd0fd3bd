//! The pairs of base rows, and the k least of them.
ghost use Rattle.std.specs.Prelude.{◌≡◌, ◌+◌, ◌*◌, ◌≤◌, ◌++◌, length, map, take, IfErr, IfOk, OnOk};
ghost use Rattle.std.specs.Option.{ForSome};
ghost use Rattle.std.specs.Vec.Iter.{into_iter_items};
ghost use Rattle.std.specs.List.{enumerate_from};
ghost use Rattle.book_model.specs.Order.{sorted, pair_cmp, IsRising};
ghost use Rattle.vec_files.specs.Standing.{rows_standing};
ghost use Rattle.vec_files.specs.declared.VecError.TheVariants.{Memory};
ghost use Rattle.itertools.specs.Extremes.{IsKLeast, by_cmp};
ghost use Rattle.flat_truth.specs.Pairs.{key_of, by_key, is_near, near, IsReach};
ghost use Rattle.flat_truth.specs.Flat.{flat_pairs};

use crate::TruePair;
use book_model::dist;
use book_model::limits::{MAX_D, MAX_ROWS};
use itertools::Itertools;
use std::alloc::{AllocError, Global};
use std::vec::IntoIter;
use vec_files::VecError;

/// From so many pairs on, only the k least are kept.
const MANY: usize = 8_192;

/// Adds the pair of each row of a stretch of rows with their headers, of which the first has this number, but for those that are
/// farther than `most`.
pub(crate) fn add_pairs(
    pairs: &mut Vec<TruePair>,
    query: &[u8],
    first: u32,
    count: u32,
    stretch: &[u8],
    most: Option<u64>,
) -> Result<(), VecError>
    requires short { length query.now ≤ MAX_D }
    requires numbers { first + count ≤ MAX_ROWS }
    requires whole { length stretch.now ≡ count * (4 + length query.now) }
    ensures refusal { IfErr result (λ e. e ≡ Memory) }
    ensures added { OnOk result (map key_of pairs.new.items ≡ map key_of pairs.old.items
        ++ near most (flat_pairs query.now (enumerate_from first (rows_standing (length query.now) count stretch.now)))) }
{
    let size = 4 + query.len();
    for i in 0..count {
        let at = i as usize * size;
        let distance = dist(query, &stretch[at + 4..at + size]);
        let row = first + i;
        let pair = TruePair { distance, row };
        if is_near(most, &pair) {
            let Ok(()) = pairs.push(pair) else {
                return Err(VecError::Memory);
            };
        }
    }
    Ok(())
}

/// Whether a pair is no farther than `most`, if that is known.
fn is_near(most: Option<u64>, pair: &TruePair) -> bool
    ensures { result ≡ is_near most (key_of pair.now) }
{
    match most {
        Some(most) => pair.distance <= most,
        None => true,
    }
}

/// Leaves the k least of the pairs, in rising order.
pub(crate) fn keep_least(alloc: Global, pairs: &mut Vec<TruePair>, k: u32) -> Result<(), VecError>
    ensures refusal { IfErr result (λ e. e ≡ Memory) }
    ensures kept { OnOk result (map key_of pairs.new.items ≡ take k (sorted pair_cmp (map key_of pairs.old.items))) }
{
    let Ok(least) = least_of(alloc, pairs, k as usize) else {
        return Err(VecError::Memory);
    };
    *pairs = least;
    Ok(())
}

/// Leaves the k least of the pairs if there are many. No farther pair than `most` is among the k least of all, and what is returned
/// is such a distance too.
pub(crate) fn keep_few(
    alloc: Global,
    pairs: &mut Vec<TruePair>,
    k: u32,
    most: Option<u64>,
) -> Result<Option<u64>, VecError>
    requires most { ForSome most (IsReach k (map key_of pairs.old.items)) }
    ensures refusal { IfErr result (λ e. e ≡ Memory) }
    ensures same { OnOk result (take k (sorted pair_cmp (map key_of pairs.new.items)) ≡ take k (sorted pair_cmp (map key_of pairs.old.items))) }
    ensures most { IfOk result (λ most. ForSome most (IsReach k (map key_of pairs.new.items))) }
{
    if pairs.len() < MANY {
        return Ok(most);
    }
    keep_least(alloc, pairs, k)?;
    Ok(reach(pairs, k))
}

/// The distance of the last of k pairs in rising order; nothing if there are fewer, or none.
fn reach(pairs: &[TruePair], k: u32) -> Option<u64>
    requires rising { IsRising pair_cmp (map key_of pairs.now) }
    ensures { ForSome result (IsReach k (map key_of pairs.now)) }
{
    let last = (k as usize).checked_sub(1)?;
    Some(pairs.get(last)?.distance)
}

/// The k least of some pairs, in rising order.
fn least_of(alloc: Global, pairs: &[TruePair], k: usize) -> Result<Vec<TruePair>, AllocError>
    ensures { IfOk result (λ least. IsKLeast (by_cmp by_key) k pairs.now least.items) }
{
    let least = k_least(alloc, pairs, k)?;
    least.collect(alloc)
}

/// The k least of some pairs, one after another.
fn k_least(alloc: Global, pairs: &[TruePair], k: usize) -> Result<IntoIter<TruePair>, AllocError>
    ensures { IfOk result (λ least. IsKLeast (by_cmp by_key) k pairs.now (into_iter_items least)) }
{
    pairs.iter().copied().k_smallest(alloc, k)
}
