//! Components one after another, of one byte each or of two.

ghost use Rattle.std.specs.Prelude.{◌≡◌, ℕ, ◌+◌, ◌*◌, ◌<◌, ◌≤◌, length, map, IfOk};
ghost use Rattle.std.specs.Int.{w8, w16};
ghost use Rattle.adc_ports.specs.Reading.{number_at, numbers_at};
ghost use Rattle.codebook_core.specs.Gives.{Gives};
ghost use Rattle.codebook_core.specs.Spelling.{component_width};

use crate::error::BookError;
use byteorder::{ByteOrder, LittleEndian};
use std::alloc::{AllocError, Global};

/// As many components of a version, and where the next field begins.
pub fn components(
    alloc: Global,
    bytes: &[u8],
    at: usize,
    version: u8,
    count: usize,
) -> Result<(Vec<u16>, usize), BookError>
    requires { at ≤ length bytes.now }
    ensures within { IfOk result (λ x. x.1 ≤ length bytes.now) }
    ensures len { IfOk result (λ x. length x.0.items ≡ count) }
    ensures value { Gives (λ x. (x.0.items, x.1)) result
        (numbers_at (component_width version) count bytes.now at) }
{
    if version == 1 {
        bytes_at(alloc, bytes, at, count)
    } else {
        pairs_at(alloc, bytes, at, count)
    }
}

/// Components of one byte.
#[tactic(auto, using(crate::proofs::Pairs::bytes_are))]
fn bytes_at(
    alloc: Global,
    bytes: &[u8],
    at: usize,
    count: usize,
) -> Result<(Vec<u16>, usize), BookError>
    requires { at ≤ length bytes.now }
    ensures within { IfOk result (λ x. x.1 ≤ length bytes.now) }
    ensures len { IfOk result (λ x. length x.0.items ≡ count) }
    ensures value { Gives (λ x. (x.0.items, x.1)) result (numbers_at w8 count bytes.now at) }
{
    if bytes.len() - at < count {
        return Err(BookError::Malformed {
            at: bytes.len() as u64,
        });
    }
    let end = at + count;
    Ok((widened(alloc, &bytes[at..end])?, end))
}

/// Bytes as numbers of two bytes.
fn widened(alloc: Global, bytes: &[u8]) -> Result<Vec<u16>, AllocError>
    ensures { IfOk result (λ v. v.items ≡ map (λ b. b) bytes.now) }
{
    bytes.iter().map(|b| u16::from(*b)).collect(alloc)
}

/// Components of two bytes.
fn pairs_at(
    alloc: Global,
    bytes: &[u8],
    at: usize,
    count: usize,
) -> Result<(Vec<u16>, usize), BookError>
    requires { at ≤ length bytes.now }
    ensures within { IfOk result (λ x. x.1 ≤ length bytes.now) }
    ensures len { IfOk result (λ x. length x.0.items ≡ count) }
    ensures value { Gives (λ x. (x.0.items, x.1)) result (numbers_at w16 count bytes.now at) }
{
    let whole = (bytes.len() - at) / 2;
    if whole < count {
        return Err(BookError::Malformed {
            at: (at + whole * 2) as u64,
        });
    }
    let end = at + count * 2;
    let mut numbers = vec![in alloc; 0u16; count]?;
    LittleEndian::read_u16_into(&bytes[at..end], &mut numbers);
    Ok((numbers, end))
}
