//! A sink over standard output.
ghost use Rattle.std.specs.Prelude.{◌≡◌, None, Some, take, ℕ, ◌+◌, ◌≤◌, ◌++◌, Bool, false, List, [], length, OnOk, OnErr};
ghost use Rattle.std.specs.Io.KnownBytes.{Appends};
ghost use Rattle.adc_ports.specs.States.{OnlyReads, OnlyWrites, OnlyPuts, Has, IsThere};
ghost use Rattle.adc_ports.specs.Files.{Rose, AddsPrefix, risen};

use crate::kept_text::KeptText;
use crate::system::told;
use crate::{Halt, Sink};
use std::alloc::Global;
use std::io::Write;
use std::marker::Model;

/// Takes text for standard output, and tells nothing of what was written. 65,536 bytes or so are kept and written together, and
/// `flush` writes the rest: what a `put` took may meet an error of the system at a later call. That error is `Failed` and
/// counted, and after it nothing more is written. An allocation that is refused is `Memory`.
#[derive(Drop)]
pub struct StdSink<W: Write> {
    text: KeptText<W>,
    faults: u64,
}

impl<W: Write> Model for StdSink<W> {
    ghost Value = { ℕ };

    ghost view = { λ s. s.faults };
}

impl<W: Write> StdSink<W> {
    /// A sink over standard output, with no fault yet. If `at_once`, as for a terminal, each text is written by its own call.
    pub fn new(alloc: Global, out: W, at_once: bool) -> StdSink<W>
        ensures { result ≡ 0 }
    {
        StdSink {
            text: KeptText::new(alloc, out, at_once),
            faults: 0,
        }
    }

    /// Writes all the text that is kept. What is kept when the sink is dropped is lost.
    pub fn flush(&mut self) -> Result<(), Halt>
        ensures ok { OnOk result (self.new ≡ self.old) }
        ensures failed { result ≡ Err Halt.Failed → self.new ≡ risen self.old }
        ensures memory { result ≡ Err Halt.Memory → self.new ≡ self.old }
        ensures never_falls { self.old ≤ self.new }
    {
        told(self.text.flush(), &mut self.faults)
    }
}

impl<W: Write> Sink for StdSink<W> {
    ghost state = { λ faults. record { written = None; faults = faults } };

    fn put(&mut self, bytes: &[u8]) -> Result<(), Halt>
        ensures ok { OnOk result (self.new ≡ self.old) }
        ensures failed { result ≡ Err Halt.Failed → self.new ≡ risen self.old }
        ensures memory { result ≡ Err Halt.Memory → self.new ≡ self.old }
        ensures never_falls { self.old ≤ self.new }
    {
        told(self.text.put(bytes), &mut self.faults)
    }
}
