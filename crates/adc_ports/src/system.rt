//! Whole writes and stretches of reads over the calls of the system, and what an error of them means.
ghost use Rattle.std.specs.Prelude.{◌≡◌, ℕ, ◌+◌, ◌<◌, ◌≤◌, length, take, drop, slice_range, IfOk, OnOk, OnErr, IsErr, Ok, Err};
ghost use Rattle.std.specs.IoError.{error_kind};
ghost use Rattle.std.specs.Io.KnownBytes.{Appends, Consumes, IsAtEnd, Keeps};
ghost use Rattle.adc_ports.specs.Files.{risen};

use crate::Halt;
use std::io;
use std::io::{ErrorKind, Read, Write};

/// What an error of the system is to a caller. A count of faults rises, and stands still at its type's end; to be
/// out of memory is no fault.
fn halt(error: &io::Error, faults: &mut u64) -> Halt
    ensures failed { result ≡ Halt.Failed → faults.new ≡ risen faults.old }
    ensures memory { result ≡ Halt.Memory → faults.new ≡ faults.old }
    ensures no_fault { error_kind error.now ≡ ErrorKind.OutOfMemory → result ≡ Halt.Memory }
    ensures only_memory { result ≡ Halt.Memory → error_kind error.now ≡ ErrorKind.OutOfMemory }
    ensures never_falls { faults.old ≤ faults.new }
{
    if error.kind() == ErrorKind::OutOfMemory {
        return Halt::Memory;
    }
    *faults = faults.saturating_add(1);
    Halt::Failed
}

/// What a caller of a port is told of an answer of the system: an error is counted, unless memory ran out.
pub fn told<T>(answer: io::Result<T>, faults: &mut u64) -> Result<T, Halt>
    ensures passed { IfOk answer (λ x. result ≡ Ok x) }
    ensures refused { OnErr answer (IsErr result) }
    ensures ok { OnOk result (faults.new ≡ faults.old) }
    ensures failed { result ≡ Err Halt.Failed → faults.new ≡ risen faults.old }
    ensures memory { result ≡ Err Halt.Memory → faults.new ≡ faults.old }
    ensures never_falls { faults.old ≤ faults.new }
{
    match answer {
        Ok(value) => Ok(value),
        Err(error) => Err(halt(&error, faults)),
    }
}

/// Writes all of the bytes, in as many writes as it takes. After an error the first few were written, or none.
pub fn write_whole<W: Write>(to: &mut W, bytes: &[u8]) -> io::Result<()>
    ensures ok { OnOk result (Appends (W.contents to.old) (W.contents to.new) bytes.now) }
    ensures err { OnErr result ((n : ℕ) × Appends (W.contents to.old) (W.contents to.new) (take n bytes.now)) }
{
    let mut written = 0;
    for _ in 0..u64::MAX {
        if written == bytes.len() {
            return Ok(());
        }
        match to.write(&bytes[written..]) {
            Ok(0) => return Err(io::Error::from(ErrorKind::WriteZero)),
            Ok(n) => written += n,
            Err(error) => {
                if error.kind() != ErrorKind::Interrupted {
                    return Err(error);
                }
            }
        }
    }
    Err(io::Error::from(ErrorKind::WriteZero))
}

/// One read by way of `stretch`, to a place of `into`, so that nothing past the bytes that were read changes.
fn read_some<F: Read>(
    from: &mut F,
    stretch: &mut [u8],
    into: &mut [u8],
    at: usize,
) -> io::Result<usize>
    requires within { at ≤ length into.old }
    requires room { 0 < length stretch.old }
    ensures within { IfOk result (λ n. at + n ≤ length into.old) }
    ensures front { IfOk result (λ n. take at into.new ≡ take at into.old) }
    ensures rest { IfOk result (λ n. (k : ℕ) → at + n ≤ k → drop k into.new ≡ drop k into.old) }
    ensures err { OnErr result (into.new ≡ into.old) }
    ensures bytes { IfOk result (λ n. Consumes (F.remaining from.old) (F.remaining from.new) (slice_range into.new at (at + n))) }
    ensures end { IfOk result (λ n. n ≡ 0 → at < length into.old → IsAtEnd (F.remaining from.new)) }
    ensures kept { OnErr result (Keeps (F.remaining from.old) (F.remaining from.new)) }
{
    let wanted = stretch.len().min(into.len() - at);
    let n = from.read(&mut stretch[..wanted])?;
    into[at..at + n].copy_from_slice(&stretch[..n]);
    Ok(n)
}

/// Reads until `into` is full or the file ends, in as many reads as it takes.
pub fn read_whole<F: Read>(from: &mut F, stretch: &mut [u8], into: &mut [u8]) -> io::Result<usize>
    requires room { 0 < length stretch.old }
    ensures within { IfOk result (λ n. n ≤ length into.old) }
    ensures rest { IfOk result (λ n. drop n into.new ≡ drop n into.old) }
    ensures bytes { IfOk result (λ n. Consumes (F.remaining from.old) (F.remaining from.new) (take n into.new)) }
    ensures end { IfOk result (λ n. n < length into.old → IsAtEnd (F.remaining from.new)) }
{
    let mut filled = 0;
    for _ in 0..u64::MAX {
        if filled == into.len() {
            return Ok(filled);
        }
        match read_some(from, stretch, into, filled) {
            Ok(0) => return Ok(filled),
            Ok(n) => filled += n,
            Err(error) => {
                if error.kind() != ErrorKind::Interrupted {
                    return Err(error);
                }
            }
        }
    }
    Err(io::Error::from(ErrorKind::UnexpectedEof))
}
