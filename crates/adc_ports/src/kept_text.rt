//! Text that is kept until there is much of it, and then written.
ghost use Rattle.std.specs.Prelude.{◌≡◌, true, [], ◌++◌, OnOk, OnErr, IsErr};
ghost use Rattle.std.specs.Io.KnownBytes.{Appends, append_known};
ghost use Rattle.adc_ports.specs.Files.{AddsPrefix};

use crate::system::write_whole;
use std::alloc::Global;
use std::io;
use std::io::{ErrorKind, Write};

/// How much text is kept.
const FULL: usize = 65_536;

/// A writer, and text that was taken for it and is not yet written. After an error nothing more is written, so that what was
/// written is the first of what was taken.
#[derive(Drop)]
pub struct KeptText<W: Write> {
    to: W,
    kept: Vec<u8>,
    at_once: bool,
    broken: bool,
}

/// Writes all of the bytes, unless a write before met an error.
fn write_on<W: Write>(to: &mut W, broken: &mut bool, bytes: &[u8]) -> io::Result<()>
    ensures ok { OnOk result (Appends (W.contents to.old) (W.contents to.new) bytes.now) }
    ensures err { OnErr result (AddsPrefix (W.contents to.old) (W.contents to.new) bytes.now) }
    ensures breaks { OnErr result (broken.new ≡ true) }
    ensures stays_broken { broken.old ≡ true → IsErr result × (to.new ≡ to.old) }
{
    if *broken {
        return Err(io::Error::from(ErrorKind::BrokenPipe));
    }
    let answer = write_whole(to, bytes);
    *broken = answer.is_err();
    answer
}

impl<W: Write> KeptText<W> {
    /// No text is kept. If `at_once`, none ever is.
    pub fn new(alloc: Global, to: W, at_once: bool) -> KeptText<W>
        ensures nothing { result.kept.items ≡ [] }
        ensures to { result.to ≡ to }
    {
        KeptText {
            to,
            kept: Vec::new(alloc),
            at_once,
            broken: false,
        }
    }

    /// Takes text, and writes what is kept if it is much. If there is no memory to keep it, it is written at once.
    #[tactic(auto, using(crate::proofs::StepLemmas::prefix_of_more, crate::proofs::StepLemmas::prefix_behind))]
    pub fn put(&mut self, bytes: &[u8]) -> io::Result<()>
        ensures ok { OnOk result (Appends (append_known (W.contents self.old.to) self.old.kept.items) (append_known (W.contents self.new.to) self.new.kept.items) bytes.now) }
        ensures err { OnErr result (AddsPrefix (W.contents self.old.to) (W.contents self.new.to) (self.old.kept.items ++ bytes.now)) }
    {
        if self.kept.extend_from_slice(bytes).is_err() {
            self.flush()?;
            return write_on(&mut self.to, &mut self.broken, bytes);
        }
        if self.at_once || self.kept.len() >= FULL {
            self.flush()?;
        }
        Ok(())
    }

    /// Writes all the text that is kept.
    pub fn flush(&mut self) -> io::Result<()>
        ensures empty { OnOk result (self.new.kept.items ≡ []) }
        ensures ok { OnOk result (Appends (W.contents self.old.to) (W.contents self.new.to) self.old.kept.items) }
        ensures err { OnErr result (AddsPrefix (W.contents self.old.to) (W.contents self.new.to) self.old.kept.items) }
    {
        write_on(&mut self.to, &mut self.broken, &self.kept)?;
        self.kept.clear();
        Ok(())
    }
}
