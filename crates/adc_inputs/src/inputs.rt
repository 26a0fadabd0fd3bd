//! The input files of a run. Each is checked whole.
ghost use Rattle.std.specs.Prelude.{◌≡◌, ◌<◌, ◌≤◌, length, IfOk, IfErr};
ghost use Rattle.std.specs.Option.{ForSome};
ghost use Rattle.adc_ports.specs.Files.{bytes_of};
ghost use Rattle.book_model.specs.Book.{IsGood};
ghost use Rattle.codebook_core.specs.Any.{view_any};
ghost use Rattle.codebook_core.specs.Spelling.{book_bytes};
ghost use Rattle.vec_files.specs.Found.{IsWithinLimits};
ghost use Rattle.codebook_core.specs.Reading.{book_outcome};
ghost use Rattle.play_script.specs.Grammar.{script_outcome};
ghost use Rattle.play_script.specs.declared.Role.TheVariants as role;
ghost use Rattle.adc_inputs.specs.Inputs.{book_input, rows_input, script_input, of_role, of_script, sized_input, IsCheckOf};
ghost use Rattle.adc_inputs.specs.Steps.{Decodes, Reads, Finds, nothing_wrong};

use crate::stop::{InputError, Stop, of_book, of_halt, of_rows, of_script};
use adc_ports::{Shelf, What};
use codebook_core::{AnyBook, decode};
use play_script::{Role, Script, parse};
use std::alloc::Global;
use vec_files::{Checked, MAX_D, check_bvecs};

/// The most bytes of a book.
const MAX_BOOK: u64 = 4_194_304;

/// The most bytes of a script.
pub(crate) const MAX_SCRIPT: u64 = 268_435_456;

/// All the bytes of an input of at most `most` bytes.
pub(crate) fn whole_input<H: Shelf>(
    alloc: Global,
    shelf: &mut H,
    role: Role,
    name: &str,
    most: u64,
) -> Result<Vec<u8>, Stop>
    ensures reads { Finds (λ bytes. bytes.items) result (λ files. sized_input files role name.now most) (H.state shelf.old) (H.state shelf.new) }
{
    let size = match shelf.size(name) {
        Err(halt) => return Err(of_halt(role, halt)),
        Ok(None) => return Err(Stop::Input(InputError::Missing(role))),
        Ok(Some(size)) => size,
    };
    if size > most {
        return Err(Stop::Input(InputError::Limit {
            role,
            what: What::Bytes,
            value: size,
        }));
    }
    fetch_whole(alloc, shelf, role, name, size)
}

/// The bytes of an input that has so many.
fn fetch_whole<H: Shelf>(
    alloc: Global,
    shelf: &mut H,
    role: Role,
    name: &str,
    size: u64,
) -> Result<Vec<u8>, Stop>
    requires { ForSome (H.state shelf.old).files (λ files. size ≡ length (bytes_of files name.now)) }
    ensures whole { IfOk result (λ bytes. length bytes.items ≡ size) }
    ensures reads { Reads result (λ files bytes. bytes.items ≡ bytes_of files name.now) nothing_wrong (H.state shelf.old) (H.state shelf.new) }
{
    let Ok(mut bytes) = vec![in alloc; 0u8; size as usize] else {
        return Err(Stop::OutOfMemory);
    };
    match shelf.fetch(name, 0, &mut bytes) {
        Ok(count) => all_read(role, bytes, count),
        Err(halt) => Err(of_halt(role, halt)),
    }
}

/// The bytes of an input if all of them were read. If not, the input ends where they do, before the size that the shelf gave, and is
/// malformed there: a shelf that tells never has such a file, and one over real files may count it as a read fault itself.
fn all_read(role: Role, bytes: Vec<u8>, count: usize) -> Result<Vec<u8>, Stop>
    requires { count ≤ length bytes.items }
    ensures all { IfOk result (λ all. (all.items ≡ bytes.items) × (count ≡ length bytes.items)) }
    ensures short { IfErr result (λ stop. (stop ≡ Stop.Input (InputError.Malformed role count)) × (count < length bytes.items)) }
{
    if count < bytes.len() {
        let at = count as u64;
        return Err(Stop::Input(InputError::Malformed { role, at }));
    }
    Ok(bytes)
}

/// The book of an input.
pub fn read_book<H: Shelf>(alloc: Global, shelf: &mut H, name: &str) -> Result<AnyBook, Stop>
    ensures reads { Finds view_any result (λ files. book_input files name.now) (H.state shelf.old) (H.state shelf.new) }
{
    match whole_input(alloc, shelf, Role::Book, name, MAX_BOOK) {
        Ok(bytes) => book_of(alloc, &bytes),
        Err(stop) => Err(stop),
    }
}

/// The book that bytes spell.
///
/// # Errors
/// `Input` at the first faulty field or above a limit, `OutOfMemory`.
pub fn book_of(alloc: Global, bytes: &[u8]) -> Result<AnyBook, Stop>
    ensures decodes { Decodes view_any result (of_role role.Book (book_outcome bytes.now)) }
    ensures spelled { IfOk result (λ book. IsGood (view_any book) × (bytes.now ≡ book_bytes (view_any book))) }
{
    match decode(alloc, bytes) {
        Ok(book) => Ok(book),
        Err(error) => Err(of_book(error)),
    }
}

/// The script of an input.
pub fn read_script<H: Shelf>(alloc: Global, shelf: &mut H, name: &str) -> Result<Script, Stop>
    ensures reads { Finds (λ script. script) result (λ files. script_input files name.now) (H.state shelf.old) (H.state shelf.new) }
{
    match whole_input(alloc, shelf, Role::Script, name, MAX_SCRIPT) {
        Ok(bytes) => script_of(alloc, &bytes),
        Err(stop) => Err(stop),
    }
}

/// The script that bytes spell.
fn script_of(alloc: Global, bytes: &[u8]) -> Result<Script, Stop>
    ensures { Decodes (λ script. script) result (of_script (script_outcome bytes.now)) }
{
    match parse(alloc, bytes) {
        Ok(script) => Ok(script),
        Err(error) => Err(of_script(error)),
    }
}

/// Checks an input of rows of d components each.
pub fn check_rows<H: Shelf>(shelf: &mut H, role: Role, name: &str, d: u32) -> Result<Checked, Stop>
    requires some { 1 ≤ d }
    requires few { d ≤ MAX_D }
    ensures within_limits { IfOk result IsWithinLimits }
    ensures size { IfOk result (λ checked. checked.d ≡ d) }
    ensures reads { Reads result (λ files checked. IsCheckOf files role name.now d checked) (λ files. rows_input files role name.now d) (H.state shelf.old) (H.state shelf.new) }
{
    match check_bvecs(shelf, name, Some(d)) {
        Ok(checked) => Ok(checked),
        Err(error) => Err(of_rows(role, error)),
    }
}
