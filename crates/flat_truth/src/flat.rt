//! Exact search: the k nearest of all rows of a base.
ghost use Rattle.std.specs.Prelude.{◌≡◌, ◌+◌, ◌*◌, ◌<◌, ◌≤◌, ℕ, List, Option, Ok, Err, length, map, take, IfOk, IfErr, OnOk};
ghost use Rattle.std.specs.Option.{ForSome};
ghost use Rattle.std.specs.List.{enumerate_from};
ghost use Rattle.adc_ports.specs.States.{OnlyReads, SameReads};
ghost use Rattle.adc_ports.specs.Files.{Rose, bytes_of};
ghost use Rattle.book_model.specs.Order.{sorted, pair_cmp};
ghost use Rattle.vec_files.specs.Found.{found};
ghost use Rattle.vec_files.specs.Rows.{bvecs_outcome};
ghost use Rattle.vec_files.specs.Standing.{rows_standing, IsRowThere, FirstMissing, IsRowStart, RefusesAt, Gives};
ghost use Rattle.vec_files.specs.declared.VecError.TheVariants.{ReadFault};
ghost use Rattle.flat_truth.specs.Flat.{flat_pairs, exact};
ghost use Rattle.flat_truth.specs.Pairs.{key_of};

use crate::pairs::{add_pairs, keep_few, keep_least};
use crate::{Exact, TruePair};
use adc_ports::Shelf;
use book_model::limits::{MAX_D, MAX_ROWS};
use std::alloc::{AllocError, Global};
use vec_files::{Checked, VecError, read_rows};

/// The most bytes that are read at once.
const STRETCH: usize = 65_536;

/// The k nearest rows of a base, a bvecs file that was checked, by their squared distance from a query, then by their number; all
/// rows if there are fewer. The query has `checked.d` bytes; if the base has no row, any number. The base is read by stretches
/// of at most 65,536 bytes. A header or bytes that are not there as checked are Malformed at the first byte of the first such row;
/// if `checked` is what a check of this file found, that never comes.
#[tactic(auto, unfolding(crate::specs::Flat::exact))]
pub fn exact<H: Shelf>(
    alloc: Global,
    shelf: &mut H,
    name: &str,
    checked: Checked,
    query: &[u8],
    k: u32,
) -> Result<Exact, VecError>
    requires d { checked.d ≤ MAX_D }
    requires rows { checked.rows ≤ MAX_ROWS }
    requires query { 0 < checked.rows → length query.now ≡ checked.d }
    ensures reads { OnlyReads (H.state shelf.old) (H.state shelf.new) }
    ensures failed { result ≡ Err ReadFault → Rose (H.state shelf.old).read_faults (H.state shelf.new).read_faults }
    ensures memory { result ≡ Err VecError.Memory → SameReads (H.state shelf.old) (H.state shelf.new) }
    ensures counts { OnOk result (SameReads (H.state shelf.old) (H.state shelf.new)) }

    // If the rows are there as checked, the answer is over them, and if not, the first that is not there is refused.
    ensures refusal { IfErr result (λ e. RefusesAt e (IsRowStart checked.d 0 checked.rows)) }
    ensures there { ForSome (H.state shelf.old).files (λ files. OnOk result ((i : ℕ) → i < checked.rows → IsRowThere (bytes_of files name.now) checked.d i)) }
    ensures value { ForSome (H.state shelf.old).files (λ files. IfOk result (λ it. it ≡ exact (rows_standing checked.d checked.rows (bytes_of files name.now)) query.now k)) }
    ensures not_there { ForSome (H.state shelf.old).files (λ files. IfErr result (λ e. RefusesAt e (FirstMissing (bytes_of files name.now) checked.d 0 checked.rows))) }

    // What a check of this file found is there.
    ensures listed { ForSome (H.state shelf.old).files (λ files. (d : Option ℕ) (rows : List (List ℕ)) → bvecs_outcome d (bytes_of files name.now) ≡ Ok rows
        → found d rows ≡ checked → Gives result (λ it. it ≡ exact rows query.now k)) }
{
    let Ok(mut room) = room_of(alloc, STRETCH) else {
        return Err(VecError::Memory);
    };
    let pairs = nearest(alloc, shelf, name, checked, query, k, &mut room)?;
    Ok(Exact::of_pairs(pairs))
}

/// The nearest rows, read by stretches into a room that holds some rows.
fn nearest<H: Shelf>(
    alloc: Global,
    shelf: &mut H,
    name: &str,
    checked: Checked,
    query: &[u8],
    k: u32,
    room: &mut [u8],
) -> Result<Vec<TruePair>, VecError>
    requires d { checked.d ≤ MAX_D }
    requires rows { checked.rows ≤ MAX_ROWS }
    requires query { 0 < checked.rows → length query.now ≡ checked.d }
    requires some { 4 + checked.d ≤ length room.old }
    requires short { length room.old ≤ STRETCH }
    ensures reads { OnlyReads (H.state shelf.old) (H.state shelf.new) }
    ensures failed { result ≡ Err ReadFault → Rose (H.state shelf.old).read_faults (H.state shelf.new).read_faults }
    ensures memory { result ≡ Err VecError.Memory → SameReads (H.state shelf.old) (H.state shelf.new) }
    ensures counts { OnOk result (SameReads (H.state shelf.old) (H.state shelf.new)) }
    ensures refusal { IfErr result (λ e. RefusesAt e (IsRowStart checked.d 0 checked.rows)) }
    ensures there { ForSome (H.state shelf.old).files (λ files. OnOk result ((i : ℕ) → i < checked.rows → IsRowThere (bytes_of files name.now) checked.d i)) }
    ensures value { ForSome (H.state shelf.old).files (λ files. IfOk result (λ pairs. map key_of pairs.items
        ≡ take k (sorted pair_cmp (flat_pairs query.now (enumerate_from 0 (rows_standing checked.d checked.rows (bytes_of files name.now))))))) }
    ensures not_there { ForSome (H.state shelf.old).files (λ files. IfErr result (λ e. RefusesAt e (FirstMissing (bytes_of files name.now) checked.d 0 checked.rows))) }
{
    let size = 4 + checked.d as usize;
    let whole = rows_of_room(room.len(), size);
    let mut pairs = Vec::new(alloc);
    let mut most = None;
    let mut first = 0;
    while first < checked.rows {
        let count = whole.min(checked.rows - first);
        let stretch = &mut room[..count as usize * size];
        read_rows(shelf, name, checked, first, count, stretch)?;
        add_pairs(&mut pairs, query, first, count, stretch, most)?;
        most = keep_few(alloc, &mut pairs, k, most)?;
        first += count;
    }
    keep_least(alloc, &mut pairs, k)?;
    Ok(pairs)
}

/// A room of so many bytes.
fn room_of(alloc: Global, bytes: usize) -> Result<Vec<u8>, AllocError>
    ensures { IfOk result (λ room. length room.items ≡ bytes) }
{
    vec![in alloc; 0u8; bytes]
}

/// How many rows of so many bytes a room holds.
fn rows_of_room(room: usize, size: usize) -> u32
    requires some { 1 ≤ size }
    requires whole { size ≤ room }
    requires short { room ≤ STRETCH }
    ensures some { 1 ≤ result }
    ensures fits { result * size ≤ room }
{
    (room / size) as u32
}
