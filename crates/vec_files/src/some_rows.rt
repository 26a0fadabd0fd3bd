//! Rows of bvecs files, read some at a time.
ghost use Rattle.std.specs.Prelude.{◌≡◌, ◌+◌, ◌*◌, ◌<◌, ◌≤◌, ℕ, List, take, drop, Option, Ok, Err, length, IfErr, OnOk};
ghost use Rattle.std.specs.Option.{ForSome};
ghost use Rattle.adc_ports.specs.States.{OnlyReads, SameReads};
ghost use Rattle.adc_ports.specs.Files.{Rose, bytes_of, stretch};
ghost use Rattle.vec_files.specs.Found.{found};
ghost use Rattle.vec_files.specs.Rows.{bvecs_outcome};
ghost use Rattle.vec_files.specs.Standing.{rows_standing, IsRowThere, FirstMissing, IsRowStart, RefusesAt, Gives};
ghost use Rattle.vec_files.specs.declared.VecError.TheVariants.{ReadFault};

use crate::numbers::number;
use crate::{Checked, MAX_D, MAX_ROWS, VecError};
use adc_ports::Shelf;

/// Reads so many rows from this number on, counted from 0, of a bvecs file that was checked, by one fetch. `into` has
/// `4 + checked.d` bytes for each, and then holds the rows one after another, each behind its header; after a refusal it may
/// hold anything. A header or bytes that are not there as checked are Malformed at the first byte of the first such row; if
/// `checked` is what a check of this file found, that never comes.
pub fn read_rows<H: Shelf>(
    shelf: &mut H,
    name: &str,
    checked: Checked,
    first: u32,
    count: u32,
    into: &mut [u8],
) -> Result<(), VecError>
    requires d { checked.d ≤ MAX_D }
    requires rows { checked.rows ≤ MAX_ROWS }
    requires among { first + count ≤ checked.rows }
    requires room { length into.old ≡ count * (4 + checked.d) }
    ensures reads { OnlyReads (H.state shelf.old) (H.state shelf.new) }
    ensures failed { result ≡ Err ReadFault → Rose (H.state shelf.old).read_faults (H.state shelf.new).read_faults }
    ensures memory { result ≡ Err VecError.Memory → SameReads (H.state shelf.old) (H.state shelf.new) }
    ensures counts { OnOk result (SameReads (H.state shelf.old) (H.state shelf.new)) }

    // If the rows are there as checked, they are what is read, and if not, the first that is not there is refused.
    ensures refusal { IfErr result (λ e. RefusesAt e (IsRowStart checked.d first (first + count))) }
    ensures bytes { ForSome (H.state shelf.old).files (λ files. OnOk result (into.new ≡ stretch files name.now (first * (4 + checked.d)) (count * (4 + checked.d)))) }
    ensures there { ForSome (H.state shelf.old).files (λ files. OnOk result ((i : ℕ) → first ≤ i → i < first + count → IsRowThere (bytes_of files name.now) checked.d i)) }
    ensures not_there { ForSome (H.state shelf.old).files (λ files. IfErr result (λ e. RefusesAt e (FirstMissing (bytes_of files name.now) checked.d first (first + count)))) }

    // What a check of this file found is there.
    ensures listed { ForSome (H.state shelf.old).files (λ files. (d : Option ℕ) (rows : List (List ℕ)) → bvecs_outcome d (bytes_of files name.now) ≡ Ok rows
        → found d rows ≡ checked → Gives result (λ _. rows_standing checked.d count into.new ≡ take count (drop first rows))) }
{
    let size = 4 + checked.d as usize;
    let at = first as u64 * size as u64;
    let held = shelf.fetch(name, at, into)?;
    let there = rows_in_front(&into[..held], checked.d);
    if there < count as usize {
        let at = at + there as u64 * size as u64;
        return Err(VecError::Malformed { at });
    }
    Ok(())
}

/// How many rows of d components stand at the front, one after another, each whole and behind its header.
fn rows_in_front(bytes: &[u8], d: u32) -> usize
    requires { d ≤ MAX_D }
    ensures there { (i : ℕ) → i < result → IsRowThere bytes.now d i }
    ensures ends { IsRowThere bytes.now d result → ⊥ }
{
    let size = 4 + d as usize;
    let mut at = 0;
    let mut count = 0;
    while bytes.len() - at >= size && number(&bytes[at..at + 4]) == d {
        at += size;
        count += 1;
    }
    count
}
