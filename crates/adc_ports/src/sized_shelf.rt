//! A shelf in memory that answers another length for one file than it has.
ghost use Rattle.std.specs.Prelude.{◌≡◌, ◌≢◌, ℕ, ◌+◌, ◌≤◌, ◌⊎◌, Bool, false, List, [], ◌++◌, length, take, drop, Ok, Some, None, IsSome, IfOk, OnOk, OnErr, option_map, string_bytes};
ghost use Rattle.std.specs.Option.{ForSome};
ghost use Rattle.adc_ports.specs.States.{OnlyReads, OnlyWrites, OnlyPuts, Has, IsThere};
ghost use Rattle.adc_ports.specs.Files.{Rose, Files, bytes_of, stretch, OthersStay};
ghost use Rattle.adc_ports.specs.Kept.{files_of, with_file, with_appended};

use crate::{Halt, Shelf, SteadyShelf};
use std::marker::Model;

/// Passes calls on to a shelf in memory, and answers `size` with a given number for one name, so that a file can be too long
/// without its bytes. It tells nothing.
#[derive(Drop)]
pub struct SizedShelf {
    inner: SteadyShelf,
    name: String,
    size: u64,
}

impl Model for SizedShelf {
    ghost use Rattle.std.specs.Prelude.{string_bytes};
    ghost use Rattle.adc_ports.specs.SizedFiles.{SizedFiles, sized_files_code};

    ghost Value = { SizedFiles };

    ghost coded = { sized_files_code };

    ghost view = { λ s. record { files = s.inner; name = string_bytes s.name; size = s.size } };
}

impl SizedShelf {
    /// A shelf over `inner` that answers `size` bytes for the file of this name. It takes no memory.
    pub fn new(inner: SteadyShelf, name: String, size: u64) -> SizedShelf
        ensures { result ≡ record { files = inner; name = string_bytes name; size = size } }
    {
        SizedShelf { inner, name, size }
    }
}

/// Makes a file exist if there is none of its name, and leaves one that is there.
#[tactic(auto, using(crate::proofs::KeptLemmas::with_file_is, crate::proofs::KeptLemmas::begun_appended))]
fn begin_absent(inner: &mut SteadyShelf, name: &str) -> Result<(), Halt>
    ensures there { OnOk result (IsSome (files_of inner.new name.now)) }
    ensures same { OnOk result ((bytes : List ℕ) → with_appended inner.new name.now bytes ≡ with_appended inner.old name.now bytes) }
    ensures change { (inner.new ≡ inner.old) ⊎ ((files_of inner.old name.now ≡ None) × (inner.new ≡ with_file inner.old name.now [])) }
    ensures err { OnErr result (inner.new ≡ inner.old) }
    ensures never_fails { result ≢ Err Halt.Failed }
{
    match inner.file(name) {
        Some(_) => Ok(()),
        None => inner.begin(name),
    }
}

impl Shelf for SizedShelf {
    ghost state = { λ _. record { files = None; read_faults = 0; write_faults = 0 } };

    fn size(&mut self, name: &str) -> Result<Option<u64>, Halt>
        ensures given { name.now ≡ self.old.name → result ≡ Ok (Some self.old.size) }
        ensures others { name.now ≢ self.old.name → result ≡ Ok (option_map length (files_of self.old.files name.now)) }
        ensures unchanged { self.new ≡ self.old }
        ensures never_fails { result ≢ Err Halt.Failed }
    {
        if self.name.as_str() == name {
            return Ok(Some(self.size));
        }
        self.inner.size(name)
    }

    fn fetch(&mut self, name: &str, at: u64, into: &mut [u8]) -> Result<usize, Halt>
        ensures value { result ≡ Ok (length (stretch (files_of self.old.files) name.now at (length into.old))) }
        ensures unchanged { self.new ≡ self.old }
        ensures within { IfOk result (λ n. n ≤ length into.old) }
        ensures bytes { IfOk result (λ n. take n into.new ≡ stretch (files_of self.old.files) name.now at (length into.old)) }
        ensures rest { IfOk result (λ n. drop n into.new ≡ drop n into.old) }
    {
        self.inner.fetch(name, at, into)
    }

    fn begin(&mut self, name: &str) -> Result<(), Halt>
        ensures ok { OnOk result (self.new ≡ record self.old { files = with_file self.old.files name.now [] }) }
        ensures err { OnErr result (self.new ≡ self.old) }
        ensures never_fails { result ≢ Err Halt.Failed }
    {
        self.inner.begin(name)
    }

    fn append(&mut self, name: &str, bytes: &[u8]) -> Result<(), Halt>
        ensures ok { OnOk result (self.new ≡ record self.old { files = with_appended self.old.files name.now bytes.now }) }
        ensures err { OnErr result ((self.new ≡ self.old) ⊎ ((files_of self.old.files name.now ≡ None) × (self.new ≡ record self.old { files = with_file self.old.files name.now [] }))) }
        ensures never_fails { result ≢ Err Halt.Failed }
    {
        begin_absent(&mut self.inner, name)?;
        self.inner.append(name, bytes)
    }
}
