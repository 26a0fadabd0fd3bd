//! Reranking: chosen rows of a base by their exact distances.
ghost use Rattle.std.specs.Prelude.{◌≡◌, ◌+◌, ◌*◌, ◌<◌, ◌≤◌, ℕ, List, Option, Ok, Err, length, IfOk, IfErr, OnOk, All};
ghost use Rattle.std.specs.Option.{ForSome};
ghost use Rattle.adc_ports.specs.States.{OnlyReads, SameReads};
ghost use Rattle.adc_ports.specs.Files.{Rose, bytes_of};
ghost use Rattle.vec_files.specs.Found.{found};
ghost use Rattle.vec_files.specs.Rows.{bvecs_outcome};
ghost use Rattle.vec_files.specs.Standing.{rows_standing, IsRowThere, RefusesAt, Gives};
ghost use Rattle.vec_files.specs.declared.VecError.TheVariants.{ReadFault};
ghost use Rattle.flat_truth.specs.Flat.{rerank};
ghost use Rattle.flat_truth.specs.Missing.{FirstMissingOf, IsStartOf};

use crate::Exact;
use crate::pairs::{add_pairs, keep_least};
use adc_ports::Shelf;
use book_model::limits::{MAX_D, MAX_ROWS};
use std::alloc::Global;
use vec_files::{Checked, VecError, read_rows};

/// The bytes of the longest row, with its header.
const LONGEST_ROW: usize = 4 + MAX_D as usize;

/// The k nearest of these rows of a base, a bvecs file that was checked, by their squared distance from a query of `checked.d`
/// bytes, then by their number; all of them if there are fewer. An id that stands twice counts twice. Rows are read one by one,
/// in the order of the ids, and one that is not there as checked is Malformed at its first byte; if `checked` is what a check of
/// this file found, that never comes.
pub fn rerank<H: Shelf>(
    alloc: Global,
    shelf: &mut H,
    name: &str,
    checked: Checked,
    query: &[u8],
    ids: &[u32],
    k: u32,
) -> Result<Exact, VecError>
    requires d { checked.d ≤ MAX_D }
    requires rows { checked.rows ≤ MAX_ROWS }
    requires query { 0 < checked.rows → length query.now ≡ checked.d }
    requires ids { All (λ id. id < checked.rows) ids.now }
    ensures reads { OnlyReads (H.state shelf.old) (H.state shelf.new) }
    ensures failed { result ≡ Err ReadFault → Rose (H.state shelf.old).read_faults (H.state shelf.new).read_faults }
    ensures memory { result ≡ Err VecError.Memory → SameReads (H.state shelf.old) (H.state shelf.new) }
    ensures counts { OnOk result (SameReads (H.state shelf.old) (H.state shelf.new)) }

    // If the rows are there as checked, the answer is over them, and if not, the first that is not there is refused.
    ensures refusal { IfErr result (λ e. RefusesAt e (IsStartOf checked.d ids.now)) }
    ensures there { ForSome (H.state shelf.old).files (λ files. OnOk result (All (λ id. IsRowThere (bytes_of files name.now) checked.d id) ids.now)) }
    ensures value { ForSome (H.state shelf.old).files (λ files. IfOk result (λ it. it ≡ rerank (rows_standing checked.d checked.rows (bytes_of files name.now)) query.now ids.now k)) }
    ensures not_there { ForSome (H.state shelf.old).files (λ files. IfErr result (λ e. RefusesAt e (FirstMissingOf (bytes_of files name.now) checked.d ids.now))) }

    // What a check of this file found is there.
    ensures listed { ForSome (H.state shelf.old).files (λ files. (d : Option ℕ) (rows : List (List ℕ)) → bvecs_outcome d (bytes_of files name.now) ≡ Ok rows
        → found d rows ≡ checked → Gives result (λ it. it ≡ rerank rows query.now ids.now k)) }
{
    let mut buffer = [0u8; LONGEST_ROW];
    let spelled = &mut buffer[..4 + checked.d as usize];
    let mut pairs = Vec::new(alloc);
    for id in ids {
        read_rows(shelf, name, checked, *id, 1, spelled)?;
        add_pairs(&mut pairs, query, *id, 1, spelled, None)?;
    }
    keep_least(alloc, &mut pairs, k)?;
    Ok(Exact::of_pairs(pairs))
}
