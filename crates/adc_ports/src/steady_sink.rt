//! A sink in memory that never fails.
ghost use Rattle.std.specs.Prelude.{◌≡◌, None, Some, take, ◌≢◌, ℕ, ◌+◌, ◌≤◌, Bool, true, List, [], ◌++◌, OnOk, OnErr};
ghost use Rattle.std.specs.Io.KnownBytes.{Appends};
ghost use Rattle.adc_ports.specs.States.{OnlyReads, OnlyWrites, OnlyPuts, Has, IsThere};
ghost use Rattle.adc_ports.specs.Files.{Rose, AddsPrefix};

use crate::{Halt, Sink};
use std::alloc::Global;
use std::marker::Model;

/// Keeps what is written, and tells it.
#[derive(Drop)]
pub struct SteadySink {
    bytes: Vec<u8>,
}

impl Model for SteadySink {
    ghost Value = { List ℕ };

    ghost view = { λ s. s.bytes.items };
}

impl SteadySink {
    /// A sink without bytes. It takes no memory yet.
    pub fn new(alloc: Global) -> SteadySink
        ensures { result ≡ [] }
    {
        SteadySink {
            bytes: Vec::new(alloc),
        }
    }

    /// What was written.
    pub fn written(&self) -> &[u8]
        ensures { result.now ≡ self.now }
    {
        self.bytes.as_slice()
    }

    /// How many calls failed: none ever does.
    pub fn faults(&self) -> u64
        ensures { result ≡ 0 }
    {
        0
    }
}

/// Adds all of the bytes, or none if out of memory.
pub fn add(to: &mut Vec<u8>, bytes: &[u8]) -> Result<(), Halt>
    ensures ok { OnOk result (to.new.items ≡ to.old.items ++ bytes.now) }
    ensures err { OnErr result (to.new.items ≡ to.old.items) }
    ensures only_memory { result ≢ Err Halt.Failed }
{
    match to.extend_from_slice(bytes) {
        Ok(()) => Ok(()),
        Err(_) => Err(Halt::Memory),
    }
}

impl Sink for SteadySink {
    ghost state = { λ bytes. record { written = Some bytes; faults = 0 } };

    fn put(&mut self, bytes: &[u8]) -> Result<(), Halt>
        ensures ok { OnOk result (self.new ≡ self.old ++ bytes.now) }
        ensures err { OnErr result (self.new ≡ self.old) }
        ensures never_fails { result ≢ Err Halt.Failed }
    {
        add(&mut self.bytes, bytes)
    }
}
