//! Numbers within a part of a file that was fetched.

ghost use Rattle.std.specs.Prelude.{◌≡◌, ◌+◌, ◌<◌, ◌≤◌, ◌^◌, length, IfOk, take, drop};
ghost use Rattle.std.specs.Int.{w16, w32};
ghost use Rattle.adc_ports.specs.Reading.{number_at, allowed_at, limited_at};
ghost use Rattle.index_file.specs.Parts.{found, located_fault};

use crate::index::IndexError;
use adc_ports::What;
use byteorder::{ByteOrder, LittleEndian};

/// The first fault of a part of a file: the field that begins this far in is cut or not allowed, or a value is above a limit.
#[derive(Debug, Clone, Copy, PartialEq, Eq)]
pub(crate) enum PartFault {
    Malformed { at: u32 },
    Limit { what: What, value: u32 },
}

/// The fault as that of a file in which the part begins at an offset.
pub(crate) fn located(fault: PartFault, at: u64) -> IndexError
    requires { at ≤ 2 ^ 62 }
    ensures { result ≡ located_fault fault at }
{
    match fault {
        PartFault::Malformed { at: place } => IndexError::Malformed {
            at: at + u64::from(place),
        },
        PartFault::Limit { what, value } => IndexError::Limit {
            what,
            value: u64::from(value),
        },
    }
}

/// The number of four bytes at a place.
#[tactic(auto, unfolding(adc_ports::specs::Reading::number_at), using(crate::proofs::Numbers::number_is))]
pub(crate) fn number(part: &[u8], at: u32) -> Result<u32, PartFault>
    requires { at ≤ 64 }
    ensures value { number_at w32 part.now at ≡ found (λ n. (n, at + 4)) result }
    ensures within { IfOk result (λ _. at + 4 ≤ length part.now) }
{
    let rest = from_place(part, at);
    if rest.len() < 4 {
        return Err(PartFault::Malformed { at });
    }
    Ok(LittleEndian::read_u32(rest))
}

/// The number of two bytes at a place.
#[tactic(auto, unfolding(adc_ports::specs::Reading::number_at), using(crate::proofs::Numbers::short_is))]
pub(crate) fn short_number(part: &[u8], at: u32) -> Result<u16, PartFault>
    requires { at ≤ 80 }
    ensures value { number_at w16 part.now at ≡ found (λ n. (n, at + 2)) result }
    ensures within { IfOk result (λ _. at + 2 ≤ length part.now) }
{
    let rest = from_place(part, at);
    if rest.len() < 2 {
        return Err(PartFault::Malformed { at });
    }
    Ok(LittleEndian::read_u16(rest))
}

/// The bytes from a place on, and none past the end.
fn from_place(part: &[u8], at: u32) -> &[u8]
    ensures { result.now ≡ drop at part.now }
{
    let at = at as usize;
    if part.len() < at { &[] } else { &part[at..] }
}

/// A number of four bytes that must lie within bounds.
#[tactic(auto, unfolding(adc_ports::specs::Reading::allowed_at))]
pub(crate) fn allowed(part: &[u8], at: u32, low: u32, high: u32) -> Result<u32, PartFault>
    requires { at ≤ 64 }
    ensures value { allowed_at w32 low high part.now at ≡ found (λ n. (n, at + 4)) result }
    ensures bounds { IfOk result (λ n. (low ≤ n) × (n ≤ high)) }
    ensures within { IfOk result (λ _. at + 4 ≤ length part.now) }
{
    let n = number(part, at)?;
    if n < low || n > high {
        return Err(PartFault::Malformed { at });
    }
    Ok(n)
}

/// A number of four bytes that must not be above a limit.
#[tactic(auto, unfolding(adc_ports::specs::Reading::limited_at))]
pub(crate) fn limited(part: &[u8], at: u32, what: What, high: u32) -> Result<u32, PartFault>
    requires { at ≤ 64 }
    ensures value { limited_at what w32 0 high part.now at ≡ found (λ n. (n, at + 4)) result }
    ensures bounds { IfOk result (λ n. n ≤ high) }
    ensures within { IfOk result (λ _. at + 4 ≤ length part.now) }
{
    let n = number(part, at)?;
    if n > high {
        return Err(PartFault::Limit { what, value: n });
    }
    Ok(n)
}
