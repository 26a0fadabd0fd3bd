//! Distances and nearest words worked out by hand.
use std::alloc::Global;
use std::test::Fail;
use word_columns::*;

/// The distances of x to the words in this row, and the number of the nearest.
fn found(alloc: Global, row: &[u16], scale: u32, x: &[u8]) -> Result<(Vec<u64>, u32), Fail> {
    let size = x.len();
    if size == 0 || 1024 < size || 8 < scale || row.len() % size != 0 {
        return Err(Fail::from("no row of words"));
    }
    let count = row.len() / size;
    if count == 0 || 1024 < count {
        return Err(Fail::from("no words, or too many"));
    }
    let Ok(words) = WordColumns::new(alloc, row, count, size) else {
        return Err(Fail::from("no memory"));
    };
    let mut distances = vec![in alloc; 0; words.count()]?;
    words.distances(scale, x, &mut distances);
    let nearest = words.nearest(scale, x);
    Ok((distances, nearest))
}

#[test]
fn words_of_an_odd_length(rt: HostRuntime) -> Result<(), Fail> {
    let row = [5, 0, 300, 0, 1, 2, 1, 0, 65535];
    let (distances, nearest) = found(rt.alloc(), &row, 0, &[1, 2, 3])?;
    assert_eq!(rt; distances.as_slice(), [88229, 3, 4294443028].as_slice());
    assert_eq!(rt; nearest, 1);
    Ok(())
}

#[test]
fn a_byte_counts_256_at_scale_8(rt: HostRuntime) -> Result<(), Fail> {
    let (distances, nearest) = found(rt.alloc(), &[0, 65535, 65280], 8, &[255])?;
    assert_eq!(rt; distances.as_slice(), [4261478400, 65025, 0].as_slice());
    assert_eq!(rt; nearest, 2);
    Ok(())
}

#[test]
fn a_tie_goes_to_the_first_of_many_words(rt: HostRuntime) -> Result<(), Fail> {
    let mut row = Vec::new(rt.alloc());
    for w in 0..40 {
        row.push(5 * (w % 20))?;
    }
    let (distances, nearest) = found(rt.alloc(), &row, 0, &[37])?;
    assert_eq!(rt; (distances.get(7), distances.get(27)), (Some(&4), Some(&4)));
    assert_eq!(rt; nearest, 7);
    Ok(())
}

#[test]
fn a_thousand_components(rt: HostRuntime) -> Result<(), Fail> {
    let mut row = Vec::new(rt.alloc());
    for w in 0..17u16 {
        for _ in 0..1000 {
            row.push(w * 4)?;
        }
    }
    let (distances, nearest) = found(rt.alloc(), &row, 1, &[32; 1000])?;
    assert_eq!(rt;
        (distances.get(0), distances.get(15)),
        (Some(&4096000), Some(&16000))
    );
    assert_eq!(rt; nearest, 16);
    Ok(())
}

/// The distances of what is left of x at a coarse word to words that stand one after another, and the nearest word.
fn left(
    alloc: Global,
    row: &[u16],
    scale: u32,
    x: &[u8],
    coarse: &[u16],
) -> Result<(Vec<u64>, u32), Fail> {
    let size = x.len();
    if size == 0 || 128 < size || 8 < scale || coarse.len() != size || row.len() % size != 0 {
        return Err(Fail::from("no row of words"));
    }
    let count = row.len() / size;
    if count == 0 || 1024 < count {
        return Err(Fail::from("no words, or too many"));
    }
    let Ok(words) = WordColumns::new(alloc, row, count, size) else {
        return Err(Fail::from("no memory"));
    };
    let mut found = vec![in alloc; 0; words.count()]?;
    words.rest_distances(scale, x, coarse, &mut found);
    let nearest = words.rest_nearest(scale, x, coarse);
    Ok((found, nearest))
}

#[test]
fn what_is_left_may_be_below_0(rt: HostRuntime) -> Result<(), Fail> {
    let (found, nearest) = left(
        rt.alloc(),
        &[0, 0, 32765, 32769, 32768, 32768],
        0,
        &[10, 10],
        &[13, 10],
    )?;
    assert_eq!(rt; found.get(1), Some(&1));
    assert_eq!(rt; found.get(2), Some(&9));
    assert_eq!(rt; nearest, 1);
    let (found, _) = left(rt.alloc(), &[0], 8, &[255], &[0])?;
    assert_eq!(rt; found.get(0), Some(&9_613_410_304));
    let (found, _) = left(rt.alloc(), &[65535], 0, &[0], &[65535])?;
    assert_eq!(rt; found.get(0), Some(&9_663_283_204));
    Ok(())
}
