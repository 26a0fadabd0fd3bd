//! Writing a book.

ghost use Rattle.std.specs.Prelude.{◌≡◌, ℕ, [], ◌∷◌, ◌++◌, IfOk, OnOk, ◌==◌, if◌then◌else◌};
ghost use Rattle.std.specs.Int.{w8, w16, to_le_bytes};
ghost use Rattle.codebook_core.specs.Spelling.{spelled, magic_of, scale_text, component_width};
ghost use Rattle.codebook_core.specs.Text.{sizes_text, parts_text};

use crate::parts::Parts;
use byteorder::{ByteOrder, LittleEndian};
use std::alloc::{AllocError, Global};

/// The spelling of the book of these parts, whose shape has this number.
#[tactic(auto, unfolding(crate::specs::Text::parts_text))]
pub fn text(alloc: Global, number: u8, parts: &Parts) -> Result<Vec<u8>, AllocError>
    ensures { IfOk result (λ v. v.items ≡ parts_text number parts.now) }
{
    let mut out = Vec::with_capacity(alloc, room(parts))?;
    put_magic(&mut out, parts.front.version)?;
    put_sizes(&mut out, number, parts)?;
    put_scale(&mut out, parts.front.version, parts.scale)?;
    put_lengths(&mut out, &parts.lengths)?;
    put_components(&mut out, parts.front.version, &parts.coarse0)?;
    put_components(&mut out, parts.front.version, &parts.coarse1)?;
    put_components(&mut out, parts.front.version, &parts.words)?;
    Ok(out)
}

/// Room for the spelling, in bytes.
fn room(parts: &Parts) -> usize {
    let coarse = parts.coarse0.len().saturating_add(parts.coarse1.len());
    let components = coarse.saturating_add(parts.words.len());
    let wide = if parts.front.version == 1 { 1 } else { 2 };
    let lengths = parts.lengths.len().saturating_mul(2);
    components
        .saturating_mul(wide)
        .saturating_add(lengths)
        .saturating_add(19)
}

/// The letters of a version.
fn put_magic(out: &mut Vec<u8>, version: u8) -> Result<(), AllocError>
    ensures { OnOk result (out.new.items ≡ out.old.items ++ magic_of version) }
{
    if version == 1 {
        out.extend_from_slice(b"ADCBOOK1")
    } else {
        out.extend_from_slice(b"ADCBOOK2")
    }
}

/// The sizes, the number of the shape and g.
fn put_sizes(out: &mut Vec<u8>, number: u8, parts: &Parts) -> Result<(), AllocError>
    ensures { OnOk result (out.new.items ≡ out.old.items ++ sizes_text number parts.now) }
{
    let d = two_bytes(parts.front.d);
    let h = two_bytes(parts.front.h);
    let k0 = two_bytes(parts.front.k0);
    let k1 = two_bytes(parts.front.k1);
    out.extend_from_slice(&[
        d[0], d[1], h[0], h[1], k0[0], k0[1], k1[0], k1[1], number, parts.g,
    ])
}

/// The two bytes that spell a number.
fn two_bytes(n: u16) -> [u8; 2]
    ensures { result ≡ to_le_bytes w16 n }
{
    let mut bytes = [0u8; 2];
    LittleEndian::write_u16(&mut bytes, n);
    bytes
}

/// The scale, which version 1 does not have.
fn put_scale(out: &mut Vec<u8>, version: u8, scale: u8) -> Result<(), AllocError>
    ensures { OnOk result (out.new.items ≡ out.old.items ++ scale_text version scale) }
{
    if version != 1 {
        out.push(scale)?;
    }
    Ok(())
}

/// Lengths of two bytes each.
fn put_lengths(out: &mut Vec<u8>, lengths: &[u32]) -> Result<(), AllocError>
    ensures { OnOk result (out.new.items ≡ out.old.items ++ spelled w16 lengths.now) }
{
    for n in lengths {
        let mut bytes = [0u8; 4];
        LittleEndian::write_u32(&mut bytes, *n);
        out.extend_from_slice(&bytes[..2])?;
    }
    Ok(())
}

/// Components as a version spells them.
fn put_components(out: &mut Vec<u8>, version: u8, components: &[u16]) -> Result<(), AllocError>
    ensures { OnOk result (out.new.items ≡ out.old.items ++ spelled (component_width version) components.now) }
{
    if version == 1 {
        put_bytes(out, components)
    } else {
        put_pairs(out, components)
    }
}

/// Components of one byte.
fn put_bytes(out: &mut Vec<u8>, components: &[u16]) -> Result<(), AllocError>
    ensures { OnOk result (out.new.items ≡ out.old.items ++ spelled w8 components.now) }
{
    for c in components {
        out.push(c.to_le_bytes()[0])?;
    }
    Ok(())
}

/// Components of two bytes.
fn put_pairs(out: &mut Vec<u8>, components: &[u16]) -> Result<(), AllocError>
    ensures { OnOk result (out.new.items ≡ out.old.items ++ spelled w16 components.now) }
{
    for c in components {
        out.extend_from_slice(&two_bytes(*c))?;
    }
    Ok(())
}
