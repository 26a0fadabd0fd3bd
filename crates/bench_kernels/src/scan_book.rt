//! The book of a run: d 128, one coarse word in each part, and components from the numbers.

use bench_common::Numbers;
use std::alloc::{AllocError, Global};

/// The bytes of a book of the shape, of version 1 where the scale is 0 and else of version 2 with scale 4.
pub fn bytes_of(
    alloc: Global,
    shape: &str,
    scale: u64,
    groups: u8,
    numbers: &mut Numbers,
) -> Result<Vec<u8>, AllocError> {
    let wide = scale > 0;
    match shape {
        "4-4-4-4" => spelled(alloc, 0, &[16, 16, 16, 16], wide, groups, numbers),
        "5-5-5" => spelled(alloc, 1, &[32, 32, 32], wide, groups, numbers),
        "6-6-4" => spelled(alloc, 2, &[64, 64, 16], wide, groups, numbers),
        _ => spelled(alloc, 3, &[256, 256], wide, groups, numbers),
    }
}

/// The bytes of a book whose fields have so many words.
fn spelled(
    alloc: Global,
    number: u8,
    sizes: &[u16],
    wide: bool,
    groups: u8,
    numbers: &mut Numbers,
) -> Result<Vec<u8>, AllocError> {
    let mut bytes = Vec::new(alloc);
    bytes.extend_from_slice(if wide { b"ADCBOOK2" } else { b"ADCBOOK1" })?;
    bytes.extend_from_slice(&[128, 0, 64, 0, 1, 0, 1, 0])?;
    bytes.push(number)?;
    bytes.push(groups)?;
    if wide {
        bytes.push(4)?;
    }
    let count = sizes.len().min(4) as u32 * u32::from(groups);
    for j in 0..count {
        bytes.extend_from_slice(&length_of(j, count).to_le_bytes())?;
    }
    push_components(&mut bytes, 128, wide, numbers)?;
    push_words(&mut bytes, count, groups, sizes, wide, numbers)?;
    Ok(bytes)
}

/// The length of stretch j where 128 components are divided among so many.
fn length_of(j: u32, count: u32) -> u16 {
    if count == 0 {
        return 0;
    }
    let more = if j < 128 % count { 1 } else { 0 };
    (128 / count + more) as u16
}

/// The words of all sub-quantizers.
fn push_words(
    bytes: &mut Vec<u8>,
    count: u32,
    groups: u8,
    sizes: &[u16],
    wide: bool,
    numbers: &mut Numbers,
) -> Result<(), AllocError> {
    let mut j: u32 = 0;
    for _word in 0..groups {
        for size in sizes {
            let components = usize::from(length_of(j, count)) * usize::from(*size);
            push_components(bytes, components, wide, numbers)?;
            j = j.wrapping_add(1);
        }
    }
    Ok(())
}

/// So many components, below 256 or below 4,096.
fn push_components(
    bytes: &mut Vec<u8>,
    count: usize,
    wide: bool,
    numbers: &mut Numbers,
) -> Result<(), AllocError> {
    for _place in 0..count {
        let component = numbers.next();
        if wide {
            bytes.extend_from_slice(&(component & 4095).to_le_bytes())?;
        } else {
            bytes.push((component & 255) as u8)?;
        }
    }
    Ok(())
}
