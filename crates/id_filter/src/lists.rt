//! Lists of allowed ids: their ranges, and the ids in rising order, among which one is found by halving.
ghost use Rattle.std.specs.Prelude.{◌≡◌, ◌++◌, ℕ, take, map, IfOk, OnOk, OnErr};
ghost use Rattle.std.specs.List.Sorted.{IsPermutation};
ghost use Rattle.book_model.specs.Rows.{in_ranges};
ghost use Rattle.id_filter.specs.Ranges.{pairs_of};
ghost use Rattle.id_filter.specs.Allowed.{id_of, ids_in, single_ranges, has_id, range_of};

use crate::{IdRange, IdRanges};
use std::alloc::{AllocError, Global};
use std::marker::Model;

/// Allowed ids in rising order.
#[derive(Drop)]
pub struct AllowedIds {
    ids: Vec<u32>,
}

impl Model for AllowedIds {
    ghost use Rattle.std.specs.Prelude.{List, ℕ};

    ghost Value = { List ℕ };

    ghost use Rattle.id_filter.specs.Allowed.{view_allowed, IsInOrder};

    ghost view = { view_allowed };

    ghost invariant = { IsInOrder };
}

impl AllowedIds {
    /// These ids, put in rising order.
    fn sort(mut ids: Vec<u32>) -> AllowedIds
        ensures { IsPermutation ids.items result }
    {
        ids.sort_unstable();
        AllowedIds { ids }
    }

    /// Whether the id is allowed, by a binary search.
    pub fn has(&self, id: u32) -> bool
        ensures { result ≡ has_id self.now id }
    {
        self.ids.binary_search(&id).is_ok()
    }
}

/// What a filter needs to pass the ids of a list and no others: the ranges, one from each id to itself in the order of the list,
/// and the ids for a search. `KeptFilter::new(ranges, |id| ids.has(id))` is that filter, and costs a binary search a row.
pub fn allowed(alloc: Global, ids: Vec<u32>) -> Result<(IdRanges, AllowedIds), AllocError>
    ensures ranges { IfOk result (λ made. pairs_of made.0 ≡ single_ranges ids.items) }
    ensures same { IfOk result (λ made. (id : ℕ) → has_id made.1 id ≡ in_ranges (pairs_of made.0) id) }
{
    let ranges = ranges_of(alloc, &ids)?;
    Ok((IdRanges::Many(ranges), AllowedIds::sort(ids)))
}

/// Each id as a range of its own.
fn ranges_of(alloc: Global, ids: &[u32]) -> Result<Vec<IdRange>, AllocError>
    ensures { IfOk result (λ ranges. ranges.items ≡ map range_of ids.now) }
{
    ids.iter()
        .map(|id| IdRange { lo: *id, hi: *id })
        .collect(alloc)
}

/// Adds the ids among these numbers, in their order: a negative number is none.
pub fn add_ids(ids: &mut Vec<u32>, numbers: &[i32]) -> Result<(), AllocError>
    ensures ok { OnOk result (ids.new.items ≡ ids.old.items ++ ids_in numbers.now) }
    ensures err { OnErr result ((n : ℕ) × (ids.new.items ≡ ids.old.items ++ ids_in (take n numbers.now))) }
{
    for number in numbers {
        if let Some(id) = id_of(*number) {
            ids.push(id)?;
        }
    }
    Ok(())
}

/// The id that a number is; a negative one is none.
fn id_of(number: i32) -> Option<u32>
    ensures { result ≡ id_of number }
{
    if number < 0 {
        None
    } else {
        Some(number.unsigned_abs())
    }
}
