//! A shelf in memory that fails at listed calls.
ghost use Rattle.std.specs.Prelude.{◌≡◌, ◌≢◌, ℕ, ◌+◌, ◌≤◌, ◌⊎◌, Bool, true, List, [], ◌++◌, length, take, drop, Ok, Some, None, IsSome, IsErr, IfOk, OnOk, OnErr, option_map};
ghost use Rattle.std.specs.Option.{ForSome};
ghost use Rattle.adc_ports.specs.States.{OnlyReads, OnlyWrites, OnlyPuts, Has, IsThere};
ghost use Rattle.adc_ports.specs.Files.{Rose, bytes_of, stretch, OthersStay};
ghost use Rattle.adc_ports.specs.Kept.{no_files, files_of, with_file, with_appended};
ghost use Rattle.adc_ports.specs.Listed.{next_keep, kept_bytes, called, listing};

use crate::numbered::Numbered;
use crate::{Halt, Memory, Shelf, SteadyShelf};
use std::alloc::Global;
use std::marker::Model;

/// Keeps files in memory, tells what they hold, and fails at listed calls.
#[derive(Drop)]
pub struct MemoryShelf {
    files: SteadyShelf,
    calls: Numbered,
    read_faults: u64,
    write_faults: u64,
}

impl Model for MemoryShelf {
    ghost use Rattle.std.specs.Prelude.{◌≤◌};
    ghost use Rattle.adc_ports.specs.Listed.{FailingShelf, failing_shelf_code};

    ghost Value = { FailingShelf };

    ghost coded = { failing_shelf_code };

    ghost view = { λ s. record { files = s.files; calls = s.calls; read_faults = s.read_faults; write_faults = s.write_faults } };

    ghost invariant = { λ s. (s.read_faults ≤ s.calls.made) × (s.write_faults ≤ s.calls.made) };
}

impl MemoryShelf {
    /// A shelf without files, of which no call is to fail. It takes no memory yet.
    pub fn new(alloc: Global) -> MemoryShelf
        ensures { result ≡ record { files = no_files; calls = record { listed = []; made = 0 }; read_faults = 0; write_faults = 0 } }
    {
        MemoryShelf {
            files: SteadyShelf::new(alloc),
            calls: Numbered::new(alloc),
            read_faults: 0,
            write_faults: 0,
        }
    }

    /// Puts a file, or replaces the one of its name. It is no numbered call.
    pub fn add(&mut self, name: &str, bytes: &[u8]) -> Result<(), Memory>
        ensures ok { OnOk result (self.new ≡ record self.old { files = with_file self.old.files name.now bytes.now }) }
        ensures err { OnErr result (self.new ≡ self.old) }
    {
        self.files.add(name, bytes)
    }

    /// Lists a call of the trait that is to fail, by its number from 1 on. A listed `append` adds the first `keep` bytes. Of
    /// two listings of one call the first counts.
    pub fn fail(&mut self, call: u32, keep: u32) -> Result<(), Memory>
        ensures ok { OnOk result (self.new ≡ record self.old { calls = listing self.old.calls call keep }) }
        ensures err { OnErr result (self.new ≡ self.old) }
    {
        self.calls.fail(call, keep)
    }

    /// The bytes of a file; none if there is no file of this name.
    pub fn file(&self, name: &str) -> Option<&[u8]>
        ensures { option_map (λ r. r.now) result ≡ files_of self.now.files name.now }
    {
        self.files.file(name)
    }

    /// How many reads and how many writes failed.
    pub fn faults(&self) -> (u64, u64)
        ensures reads { result.0 ≡ self.now.read_faults }
        ensures writes { result.1 ≡ self.now.write_faults }
    {
        (self.read_faults, self.write_faults)
    }
}

#[tactic(auto, using(crate::proofs::KeptLemmas::with_file_is, crate::proofs::KeptLemmas::with_file_others))]
impl Shelf for MemoryShelf {
    ghost state = { λ s. record { files = Some (files_of s.files); read_faults = s.read_faults; write_faults = s.write_faults } };

    fn size(&mut self, name: &str) -> Result<Option<u64>, Halt>
        ensures unlisted { next_keep self.old.calls ≡ None → result ≡ Ok (option_map length (files_of self.old.files name.now)) }
        ensures listed { IsSome (next_keep self.old.calls) → result ≡ Err Halt.Failed }
        ensures ok { OnOk result (self.new ≡ record self.old { calls = called self.old.calls }) }
        ensures err { OnErr result (self.new ≡ record self.old { calls = called self.old.calls; read_faults = self.old.read_faults + 1 }) }
    {
        if self.calls.next().is_some() {
            self.read_faults += 1;
            return Err(Halt::Failed);
        }
        self.files.size(name)
    }

    fn fetch(&mut self, name: &str, at: u64, into: &mut [u8]) -> Result<usize, Halt>
        ensures unlisted { next_keep self.old.calls ≡ None → result ≡ Ok (length (stretch (files_of self.old.files) name.now at (length into.old))) }
        ensures listed { IsSome (next_keep self.old.calls) → result ≡ Err Halt.Failed }
        ensures within { IfOk result (λ n. n ≤ length into.old) }
        ensures bytes { IfOk result (λ n. take n into.new ≡ stretch (files_of self.old.files) name.now at (length into.old)) }
        ensures rest { IfOk result (λ n. drop n into.new ≡ drop n into.old) }
        ensures ok { OnOk result (self.new ≡ record self.old { calls = called self.old.calls }) }
        ensures err { OnErr result (self.new ≡ record self.old { calls = called self.old.calls; read_faults = self.old.read_faults + 1 }) }
    {
        if self.calls.next().is_some() {
            self.read_faults += 1;
            return Err(Halt::Failed);
        }
        self.files.fetch(name, at, into)
    }

    fn begin(&mut self, name: &str) -> Result<(), Halt>
        ensures unlisted { next_keep self.old.calls ≡ None → result ≢ Err Halt.Failed }
        ensures listed { IsSome (next_keep self.old.calls) → result ≡ Err Halt.Failed }
        ensures ok { OnOk result (self.new ≡ record self.old { files = with_file self.old.files name.now []; calls = called self.old.calls }) }
        ensures failed { result ≡ Err Halt.Failed → self.new ≡ record self.old { calls = called self.old.calls; write_faults = self.old.write_faults + 1 } }
        ensures memory { result ≡ Err Halt.Memory → self.new ≡ record self.old { calls = called self.old.calls } }
        ensures content { OnOk result (files_of self.new.files name.now ≡ Some []) }
        ensures others { OthersStay (files_of self.old.files) (files_of self.new.files) name.now }
    {
        if self.calls.next().is_some() {
            self.write_faults += 1;
            return Err(Halt::Failed);
        }
        self.files.begin(name)
    }

    fn append(&mut self, name: &str, bytes: &[u8]) -> Result<(), Halt>
        requires { IsSome (files_of self.old.files name.now) }
        ensures unlisted { next_keep self.old.calls ≡ None → result ≢ Err Halt.Failed }
        ensures listed { IsSome (next_keep self.old.calls) → IsErr result }
        ensures ok { OnOk result (self.new ≡ record self.old { files = with_appended self.old.files name.now bytes.now; calls = called self.old.calls }) }
        ensures failed { result ≡ Err Halt.Failed → self.new ≡ record self.old {
          files = with_appended self.old.files name.now (kept_bytes self.old.calls bytes.now);
          calls = called self.old.calls;
          write_faults = self.old.write_faults + 1;
        } }
        ensures memory { result ≡ Err Halt.Memory → self.new ≡ record self.old { calls = called self.old.calls } }
        ensures content { OnOk result (files_of self.new.files name.now ≡ Some (bytes_of (files_of self.old.files) name.now ++ bytes.now)) }
        ensures err { OnErr result ((n : ℕ) × (files_of self.new.files name.now ≡ Some (bytes_of (files_of self.old.files) name.now ++ take n bytes.now))) }
        ensures others { OthersStay (files_of self.old.files) (files_of self.new.files) name.now }
    {
        match self.calls.next() {
            None => self.files.append(name, bytes),
            Some(keep) => {
                let kept = bytes.len().min(keep as usize);
                self.files.append(name, &bytes[..kept])?;
                self.write_faults += 1;
                Err(Halt::Failed)
            }
        }
    }

    fn end(&mut self, _name: &str) -> Result<(), Halt>
        ensures unlisted { next_keep self.old.calls ≡ None → result ≡ Ok tt }
        ensures listed { IsSome (next_keep self.old.calls) → result ≡ Err Halt.Failed }
        ensures ok { OnOk result (self.new ≡ record self.old { calls = called self.old.calls }) }
        ensures err { OnErr result (self.new ≡ record self.old { calls = called self.old.calls; write_faults = self.old.write_faults + 1 }) }
    {
        if self.calls.next().is_some() {
            self.write_faults += 1;
            return Err(Halt::Failed);
        }
        Ok(())
    }
}
