//! A shelf over real files.
ghost use Rattle.std.specs.Prelude.{◌≡◌, ◌≢◌, ℕ, ◌+◌, ◌≤◌, ◌⊎◌, Bool, false, None, Some, IsSome, List, [], ◌++◌, length, take, drop, IfOk, OnOk, OnErr, option_map};
ghost use Rattle.std.specs.Option.{ForSome};
ghost use Rattle.adc_ports.specs.States.{OnlyReads, OnlyWrites, OnlyPuts, Has, IsThere};
ghost use Rattle.adc_ports.specs.Files.{Rose, Files, bytes_of, stretch, OthersStay, risen};

use crate::open_files::OpenFiles;
use crate::system::told;
use crate::{Halt, Shelf};
use std::alloc::Global;
use std::marker::Model;
use std::rt::Files;

/// Reads and writes files of the system, and tells nothing of what they hold. The two files that were read last and the one
/// that was written last stay open. A file that the system says does not exist is none. `Failed`, and counted, are:
///
/// - to read what is no regular file (a folder, a pipe, a socket, a device);
/// - a file that ends before the length that it had when it was opened or asked for its size;
/// - to write a file that was read under another name (a link, another path), which stays as it is;
/// - every other error of the system, at the close of a written file too.
///
/// An allocation that is refused is `Memory`.
#[derive(Drop)]
pub struct FileShelf<R: Files> {
    files: OpenFiles<R>,
    read_faults: u64,
    write_faults: u64,
}

impl<R: Files> Model for FileShelf<R> {
    ghost use Rattle.adc_ports.specs.Files.{FaultCounts};

    ghost Value = { FaultCounts };

    ghost view = { λ s. record { read_faults = s.read_faults; write_faults = s.write_faults } };
}

impl<R: Files> FileShelf<R> {
    /// A shelf over the files that the runtime gives `main`, with no fault yet.
    pub fn new(alloc: Global, system: R) -> FileShelf<R>
        ensures { result ≡ record { read_faults = 0; write_faults = 0 } }
    {
        FileShelf {
            files: OpenFiles::new(alloc, system),
            read_faults: 0,
            write_faults: 0,
        }
    }
}

impl<R: Files> Shelf for FileShelf<R> {
    ghost state = { λ s. record { files = None; read_faults = s.read_faults; write_faults = s.write_faults } };

    fn size(&mut self, name: &str) -> Result<Option<u64>, Halt>
        ensures ok { OnOk result (self.new ≡ self.old) }
        ensures failed { result ≡ Err Halt.Failed → self.new ≡ record self.old { read_faults = risen self.old.read_faults } }
        ensures memory { result ≡ Err Halt.Memory → self.new ≡ self.old }
        ensures never_falls { self.old.read_faults ≤ self.new.read_faults }
    {
        told(self.files.size(name), &mut self.read_faults)
    }

    fn fetch(&mut self, name: &str, at: u64, into: &mut [u8]) -> Result<usize, Halt>
        ensures ok { OnOk result (self.new ≡ self.old) }
        ensures failed { result ≡ Err Halt.Failed → self.new ≡ record self.old { read_faults = risen self.old.read_faults } }
        ensures memory { result ≡ Err Halt.Memory → self.new ≡ self.old }
        ensures never_falls { self.old.read_faults ≤ self.new.read_faults }
        ensures within { IfOk result (λ n. n ≤ length into.old) }
        ensures rest { IfOk result (λ n. drop n into.new ≡ drop n into.old) }
    {
        told(self.files.read(name, at, into), &mut self.read_faults)
    }

    fn begin(&mut self, name: &str) -> Result<(), Halt>
        ensures ok { OnOk result (self.new ≡ self.old) }
        ensures failed { result ≡ Err Halt.Failed → self.new ≡ record self.old { write_faults = risen self.old.write_faults } }
        ensures memory { result ≡ Err Halt.Memory → self.new ≡ self.old }
        ensures never_falls { self.old.write_faults ≤ self.new.write_faults }
    {
        told(self.files.begin(name), &mut self.write_faults)
    }

    fn append(&mut self, name: &str, bytes: &[u8]) -> Result<(), Halt>
        ensures ok { OnOk result (self.new ≡ self.old) }
        ensures failed { result ≡ Err Halt.Failed → self.new ≡ record self.old { write_faults = risen self.old.write_faults } }
        ensures memory { result ≡ Err Halt.Memory → self.new ≡ self.old }
        ensures never_falls { self.old.write_faults ≤ self.new.write_faults }
    {
        told(self.files.append(name, bytes), &mut self.write_faults)
    }

    fn end(&mut self, name: &str) -> Result<(), Halt>
        ensures ok { OnOk result (self.new ≡ self.old) }
        ensures failed { result ≡ Err Halt.Failed → self.new ≡ record self.old { write_faults = risen self.old.write_faults } }
        ensures memory { result ≡ Err Halt.Memory → self.new ≡ self.old }
        ensures never_falls { self.old.write_faults ≤ self.new.write_faults }
    {
        told(self.files.end(name), &mut self.write_faults)
    }
}
