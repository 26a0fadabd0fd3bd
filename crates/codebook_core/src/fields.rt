//! Readers of the fields that stand before the words.

ghost use Rattle.std.specs.Prelude.{◌≡◌, ℕ, ◌+◌, ◌-◌, ◌*◌, ◌<◌, ◌≤◌, ◌^◌, ◌==◌, ◌⊎◌, length, sum, IfOk, if◌then◌else◌};
ghost use Rattle.std.specs.List.{AllByRecursion};
ghost use Rattle.std.specs.Int.{w8, w16};
ghost use Rattle.adc_ports.specs.Reading.{number_at, allowed_at, limited_at};
ghost use Rattle.codebook_core.specs.Gives.{Gives};
ghost use Rattle.codebook_core.specs.Reading.{version_at, front_at, groups_at, scale_at, lengths_at};
ghost use Rattle.codebook_core.specs.Front.{IsFront};

use crate::error::BookError;
use adc_ports::What;
use byteorder::{ByteOrder, LittleEndian};
use std::alloc::Global;

/// The numbers at the front of a book, up to that of its shape.
#[derive(Clone, Copy)]
pub struct Front {
    pub version: u8,
    pub d: u16,
    pub h: u16,
    pub k0: u16,
    pub k1: u16,
    pub shape: u8,
}

/// A number of two bytes, and where the next field begins.
#[tactic(auto, unfolding(adc_ports::specs::Reading::number_at))]
pub fn u16_at(bytes: &[u8], at: usize) -> Result<(u16, usize), BookError>
    requires { at ≤ length bytes.now }
    ensures within { IfOk result (λ x. x.1 ≤ length bytes.now) }
    ensures value { Gives (λ x. x) result (number_at w16 bytes.now at) }
{
    let rest = &bytes[at..];
    if rest.len() < 2 {
        return Err(BookError::Malformed { at: at as u64 });
    }
    Ok((LittleEndian::read_u16(rest), at + 2))
}

/// A number of one byte.
#[tactic(auto, unfolding(adc_ports::specs::Reading::number_at))]
fn u8_at(bytes: &[u8], at: usize) -> Result<(u8, usize), BookError>
    requires { at ≤ length bytes.now }
    ensures within { IfOk result (λ x. x.1 ≤ length bytes.now) }
    ensures value { Gives (λ x. x) result (number_at w8 bytes.now at) }
{
    let rest = &bytes[at..];
    if rest.is_empty() {
        return Err(BookError::Malformed { at: at as u64 });
    }
    Ok((rest[0], at + 1))
}

/// A number of two bytes within bounds.
#[tactic(auto, unfolding(adc_ports::specs::Reading::allowed_at))]
fn allowed(bytes: &[u8], at: usize, low: u16, high: u16) -> Result<(u16, usize), BookError>
    requires { at ≤ length bytes.now }
    ensures within { IfOk result (λ x. x.1 ≤ length bytes.now) }
    ensures bounds { IfOk result (λ x. (low ≤ x.0) × (x.0 ≤ high)) }
    ensures value { Gives (λ x. x) result (allowed_at w16 low high bytes.now at) }
{
    let n = u16_at(bytes, at)?;
    if n.0 < low || n.0 > high {
        return Err(BookError::Malformed { at: at as u64 });
    }
    Ok(n)
}

/// A number of one byte that is not above a bound.
#[tactic(auto, unfolding(adc_ports::specs::Reading::allowed_at))]
fn allowed_byte(bytes: &[u8], at: usize, high: u8) -> Result<(u8, usize), BookError>
    requires { at ≤ length bytes.now }
    ensures within { IfOk result (λ x. x.1 ≤ length bytes.now) }
    ensures bounds { IfOk result (λ x. x.0 ≤ high) }
    ensures value { Gives (λ x. x) result (allowed_at w8 0 high bytes.now at) }
{
    let n = u8_at(bytes, at)?;
    if n.0 > high {
        return Err(BookError::Malformed { at: at as u64 });
    }
    Ok(n)
}

/// A number of two bytes within bounds, above which is a limit.
#[tactic(auto, unfolding(adc_ports::specs::Reading::limited_at))]
fn limited(
    bytes: &[u8],
    at: usize,
    what: What,
    low: u16,
    high: u16,
) -> Result<(u16, usize), BookError>
    requires { at ≤ length bytes.now }
    ensures within { IfOk result (λ x. x.1 ≤ length bytes.now) }
    ensures bounds { IfOk result (λ x. (low ≤ x.0) × (x.0 ≤ high)) }
    ensures value { Gives (λ x. x) result (limited_at what w16 low high bytes.now at) }
{
    let n = u16_at(bytes, at)?;
    if n.0 < low {
        return Err(BookError::Malformed { at: at as u64 });
    }
    if n.0 > high {
        return Err(BookError::Limit {
            what,
            value: u64::from(n.0),
        });
    }
    Ok(n)
}

/// The version that the eight letters name that stand there.
#[tactic(auto, unfolding(crate::specs::Reading::version_at))]
fn version(bytes: &[u8], at: usize) -> Result<(u8, usize), BookError>
    requires { at ≤ length bytes.now }
    ensures within { IfOk result (λ x. x.1 ≤ length bytes.now) }
    ensures bounds { IfOk result (λ x. (1 ≤ x.0) × (x.0 ≤ 2)) }
    ensures value { Gives (λ x. x) result (version_at bytes.now at) }
{
    let rest = &bytes[at..];
    if rest.starts_with(b"ADCBOOK1") {
        Ok((1, at + 8))
    } else if rest.starts_with(b"ADCBOOK2") {
        Ok((2, at + 8))
    } else {
        Err(BookError::Malformed { at: at as u64 })
    }
}

/// The fields up to the shape, and where the next one begins.
#[tactic(auto, unfolding(crate::specs::Reading::front_at))]
pub fn read_front(bytes: &[u8], at: usize) -> Result<(Front, usize), BookError>
    requires { at ≤ length bytes.now }
    ensures within { IfOk result (λ x. x.1 ≤ length bytes.now) }
    ensures bounds { IfOk result (λ x. IsFront x.0) }
    ensures value { Gives (λ x. x) result (front_at bytes.now at) }
{
    let (version, at) = version(bytes, at)?;
    let (d, at) = limited(bytes, at, What::D, 2, 1024)?;
    let (h, at) = allowed(bytes, at, 1, d - 1)?;
    let (k0, at) = limited(bytes, at, What::K0, 1, 1024)?;
    let (k1, at) = limited(bytes, at, What::K1, 1, 1024)?;
    let (shape, at) = allowed_byte(bytes, at, 3)?;
    let front = Front {
        version,
        d,
        h,
        k0,
        k1,
        shape,
    };
    Ok((front, at))
}

/// The number of words in a code, which has no more fields than a vector of d components has components.
#[tactic(auto, unfolding(crate::specs::Reading::groups_at, adc_ports::specs::Reading::limited_at))]
pub fn groups(bytes: &[u8], at: usize, d: u16, fields: usize) -> Result<(u8, usize), BookError>
    requires at { at ≤ length bytes.now }
    requires fields { fields ≤ 4 }
    ensures within { IfOk result (λ x. x.1 ≤ length bytes.now) }
    ensures bounds { IfOk result (λ x. (1 ≤ x.0) × (x.0 ≤ 32) × (x.0 * fields ≤ d)) }
    ensures value { Gives (λ x. x) result (groups_at d fields bytes.now at) }
{
    let n = u8_at(bytes, at)?;
    if n.0 < 1 {
        return Err(BookError::Malformed { at: at as u64 });
    }
    if n.0 > 32 {
        return Err(BookError::Limit {
            what: What::G,
            value: u64::from(n.0),
        });
    }
    if n.0 as usize * fields > d as usize {
        return Err(BookError::Malformed { at: at as u64 });
    }
    Ok(n)
}

/// The scale, which version 1 does not have.
#[tactic(auto, unfolding(crate::specs::Reading::scale_at))]
pub fn scale(bytes: &[u8], at: usize, version: u8) -> Result<(u8, usize), BookError>
    requires { at ≤ length bytes.now }
    ensures within { IfOk result (λ x. x.1 ≤ length bytes.now) }
    ensures none { version ≡ 1 → IfOk result (λ x. x.0 ≡ 0) }
    ensures bounds { IfOk result (λ x. x.0 ≤ 8) }
    ensures value { Gives (λ x. x) result (scale_at version bytes.now at) }
{
    if version == 1 {
        return Ok((0, at));
    }
    allowed_byte(bytes, at, 8)
}

/// As many lengths, which add up to `total`, and where the next field begins.
#[tactic(auto, using(crate::proofs::Loop::goes_on, crate::proofs::Rows::sum_more))]
pub fn lengths(
    alloc: Global,
    bytes: &[u8],
    at: usize,
    count: u32,
    total: u16,
) -> Result<(Vec<u32>, usize), BookError>
    requires { at ≤ length bytes.now }
    ensures within { IfOk result (λ x. x.1 ≤ length bytes.now) }
    ensures sum { IfOk result (λ x. sum x.0.items ≤ total) }
    ensures value { Gives (λ x. (x.0.items, x.1)) result (lengths_at count total bytes.now at) }
{
    let mut found = Vec::with_capacity(alloc, count as usize)?;
    let mut rest = total;
    let mut at = at;
    for i in 0..count {
        let (n, next) = length_of_many(bytes, at, count - (i + 1), rest)?;
        found.push(u32::from(n))?;
        rest -= n;
        at = next;
    }
    Ok((found, at))
}

/// A length that leaves 1 or more for each of the others that come, and the last takes the rest.
fn length_of_many(bytes: &[u8], at: usize, more: u32, rest: u16) -> Result<(u16, usize), BookError>
    requires { at ≤ length bytes.now }
    ensures within { IfOk result (λ x. x.1 ≤ length bytes.now) }
    ensures bounds { IfOk result (λ x. x.0 ≤ rest) }
    ensures value { Gives (λ x. x) result
        (allowed_at w16 (if more == 0 then rest else 1) (rest - more) bytes.now at) }
{
    let low = if more == 0 { rest } else { 1 };
    let high = if more > u32::from(rest) {
        0
    } else {
        rest - more as u16
    };
    allowed(bytes, at, low, high)
}
