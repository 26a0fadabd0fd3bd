//! Rows of vector files, read and written one by one.
ghost use Rattle.std.specs.Prelude.{All, FitsSigned, ◌≡◌, ◌+◌, ◌*◌, ◌<◌, ◌≤◌, ◌++◌, ℕ, ℤ, List, take, drop, Option, Some, None, Ok, Err, length, IfErr, OnOk, OnErr, IsSome};
ghost use Rattle.std.specs.Int.{w32, from_le_bytes, to_le_bytes};
ghost use Rattle.std.specs.Option.{ForSome};
ghost use Rattle.adc_ports.specs.States.{OnlyReads, OnlyWrites, SameReads, SameWrites, Has, IsThere};
ghost use Rattle.adc_ports.specs.Files.{Rose, OthersStay, bytes_of, stretch};
ghost use Rattle.vec_files.specs.Found.{found};
ghost use Rattle.vec_files.specs.Places.{StandsAt, RefusesRow, OnMalformed, GivesRow};
ghost use Rattle.vec_files.specs.Rows.{bvecs_row, ivecs_row, spelled_signed, bvecs_outcome, ivecs_outcome};
ghost use Rattle.vec_files.specs.declared.VecError.TheVariants.{ReadFault};
ghost use Rattle.vec_files.specs.declared.WriteError.TheVariants.{WriteFault};

use crate::numbers::number;
use crate::{Checked, MAX_D, MAX_ROWS, VecError, WriteError};
use adc_ports::Shelf;
use byteorder::{ByteOrder, LittleEndian};

/// The bytes of the longest row of a bvecs file, with its header.
const BVECS_ROW: usize = 4 + MAX_D as usize;

/// The bytes of the longest row of an ivecs file, with its header.
const IVECS_ROW: usize = 4 + 4 * MAX_D as usize;

/// Reads the row of this number, from 0 on, of a bvecs file that was checked, by one fetch. `into` has `checked.d` bytes, and
/// after a refusal may hold anything. A header or bytes that are not there as checked are Malformed at the row's first byte;
/// if `checked` is what a check of this file found, that never comes.
pub fn read_row<H: Shelf>(
    shelf: &mut H,
    name: &str,
    checked: Checked,
    row: u32,
    into: &mut [u8],
) -> Result<(), VecError>
    requires d { checked.d ≤ MAX_D }
    requires rows { checked.rows ≤ MAX_ROWS }
    requires row { row < checked.rows }
    requires room { length into.old ≡ checked.d }
    ensures reads { OnlyReads (H.state shelf.old) (H.state shelf.new) }
    ensures failed { result ≡ Err ReadFault → Rose (H.state shelf.old).read_faults (H.state shelf.new).read_faults }
    ensures memory { result ≡ Err VecError.Memory → SameReads (H.state shelf.old) (H.state shelf.new) }
    ensures counts { OnOk result (SameReads (H.state shelf.old) (H.state shelf.new)) }

    // If the row is there as checked, it is the one that is read, and if it is not, that is the refusal.
    ensures refusal { IfErr result (λ e. RefusesRow e (row * (4 + checked.d))) }
    ensures there { ForSome (H.state shelf.old).files (λ files. OnOk result (StandsAt (bytes_of files name.now) (row * (4 + checked.d)) (bvecs_row checked.d into.new))) }
    ensures not_there { ForSome (H.state shelf.old).files (λ files. IfErr result (λ e. OnMalformed e ((it : List ℕ) → length it ≡ checked.d
        → StandsAt (bytes_of files name.now) (row * (4 + checked.d)) (bvecs_row checked.d it) → ⊥))) }

    // What a check of this file found is there.
    ensures listed { ForSome (H.state shelf.old).files (λ files. (d : Option ℕ) (rows : List (List ℕ)) → bvecs_outcome d (bytes_of files name.now) ≡ Ok rows
        → found d rows ≡ checked → GivesRow result into.new rows row) }
{
    let mut buffer = [0u8; BVECS_ROW];
    let at = row as u64 * (4 + checked.d as u64);
    let size = 4 + checked.d as usize;
    let spelled = &mut buffer[..size];
    fetch_row(shelf, name, checked.d, at, size, spelled)?;
    into.copy_from_slice(&spelled[4..]);
    Ok(())
}

/// Fetches a row with its header, which must be d, by so many bytes.
fn fetch_row<H: Shelf>(
    shelf: &mut H,
    name: &str,
    d: u32,
    at: u64,
    size: usize,
    into: &mut [u8],
) -> Result<(), VecError>
    requires size { 4 ≤ size }
    requires room { length into.old ≡ size }
    ensures reads { OnlyReads (H.state shelf.old) (H.state shelf.new) }
    ensures failed { result ≡ Err ReadFault → Rose (H.state shelf.old).read_faults (H.state shelf.new).read_faults }
    ensures memory { result ≡ Err VecError.Memory → SameReads (H.state shelf.old) (H.state shelf.new) }
    ensures counts { OnOk result (SameReads (H.state shelf.old) (H.state shelf.new)) }
    ensures refusal { IfErr result (λ e. RefusesRow e at) }
    ensures header { OnOk result (take 4 into.new ≡ to_le_bytes w32 d) }
    ensures bytes { ForSome (H.state shelf.old).files (λ files. OnOk result (into.new ≡ stretch files name.now at size)) }
    ensures not_there { ForSome (H.state shelf.old).files (λ files. IfErr result (λ e. OnMalformed e (at + size ≤ length (bytes_of files name.now)
        → from_le_bytes w32 (take 4 (drop at (bytes_of files name.now))) ≡ d → ⊥))) }
{
    let count = shelf.fetch(name, at, into)?;
    if count < size {
        return Err(VecError::Malformed { at });
    }
    if number(&into[..4]) != d {
        return Err(VecError::Malformed { at });
    }
    Ok(())
}

/// Reads the row of this number, from 0 on, of an ivecs file that was checked, by one fetch: as `read_row`, with `checked.d`
/// numbers.
pub fn read_ivecs_row<H: Shelf>(
    shelf: &mut H,
    name: &str,
    checked: Checked,
    row: u32,
    into: &mut [i32],
) -> Result<(), VecError>
    requires d { checked.d ≤ MAX_D }
    requires rows { checked.rows ≤ MAX_ROWS }
    requires row { row < checked.rows }
    requires room { length into.old ≡ checked.d }
    ensures reads { OnlyReads (H.state shelf.old) (H.state shelf.new) }
    ensures failed { result ≡ Err ReadFault → Rose (H.state shelf.old).read_faults (H.state shelf.new).read_faults }
    ensures memory { result ≡ Err VecError.Memory → SameReads (H.state shelf.old) (H.state shelf.new) }
    ensures counts { OnOk result (SameReads (H.state shelf.old) (H.state shelf.new)) }

    // If the row is there as checked, it is the one that is read, and if it is not, that is the refusal.
    ensures refusal { IfErr result (λ e. RefusesRow e (row * (4 + 4 * checked.d))) }
    ensures there { ForSome (H.state shelf.old).files (λ files. OnOk result (StandsAt (bytes_of files name.now) (row * (4 + 4 * checked.d)) (ivecs_row checked.d into.new))) }
    ensures not_there { ForSome (H.state shelf.old).files (λ files. IfErr result (λ e. OnMalformed e ((it : List ℤ) → length it ≡ checked.d
        → StandsAt (bytes_of files name.now) (row * (4 + 4 * checked.d)) (ivecs_row checked.d it) → ⊥))) }

    // What a check of this file found is there.
    ensures listed { ForSome (H.state shelf.old).files (λ files. (rows : List (List ℤ)) → ivecs_outcome (bytes_of files name.now) ≡ Ok rows
        → found None rows ≡ checked → GivesRow result into.new rows row) }
{
    let mut buffer = [0u8; IVECS_ROW];
    let at = row as u64 * (4 + 4 * checked.d as u64);
    let size = 4 + 4 * checked.d as usize;
    let spelled = &mut buffer[..size];
    fetch_row(shelf, name, checked.d, at, size, spelled)?;
    read_signed(&spelled[4..], into);
    Ok(())
}

/// Reads signed numbers of four bytes each.
fn read_signed(bytes: &[u8], into: &mut [i32])
    requires size { length bytes.now ≡ 4 * length into.old }
    requires few { length into.old ≤ MAX_D }
    ensures spelling { spelled_signed into.new ≡ bytes.now }
    ensures fits { All (FitsSigned w32) into.new }
{
    LittleEndian::read_i32_into(bytes, into);
}

/// Adds a row of 1 to 1024 numbers at the end of an ivecs file, which a shelf that tells has, by one append. After a refusal the
/// first few bytes of the row were added, or none.
pub fn write_ivecs_row<H: Shelf>(shelf: &mut H, name: &str, row: &[i32]) -> Result<(), WriteError>
    requires some { 1 ≤ length row.now }
    requires few { length row.now ≤ MAX_D }
    requires begun { IsThere (H.state shelf.old) name.now }
    ensures writes { OnlyWrites name.now (H.state shelf.old) (H.state shelf.new) }
    ensures there { IsThere (H.state shelf.new) name.now }
    ensures written { (held : List ℕ) → Has (H.state shelf.old) name.now (Some held) → OnOk result (Has (H.state shelf.new) name.now (Some (held ++ ivecs_row (length row.now) row.now))) }
    ensures cut { (held : List ℕ) → Has (H.state shelf.old) name.now (Some held) → OnErr result ((n : ℕ) × Has (H.state shelf.new) name.now (Some (held ++ take n (ivecs_row (length row.now) row.now)))) }
    ensures failed { result ≡ Err WriteFault → Rose (H.state shelf.old).write_faults (H.state shelf.new).write_faults }
    ensures memory { result ≡ Err WriteError.Memory → SameWrites (H.state shelf.old) (H.state shelf.new) }
    ensures counts { OnOk result (SameWrites (H.state shelf.old) (H.state shelf.new)) }
{
    let mut buffer = [0u8; IVECS_ROW];
    let size = 4 + 4 * row.len();
    LittleEndian::write_u32(&mut buffer[..4], row.len() as u32);
    LittleEndian::write_i32_into(row, &mut buffer[4..size]);
    shelf.append(name, &buffer[..size])?;
    Ok(())
}
