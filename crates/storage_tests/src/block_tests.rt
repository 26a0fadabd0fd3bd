//! Tests of blocks.
use code_blocks::*;
use shape_core::Fields;
use std::test::Fail;

#[test]
fn a_block_begins_with_zeros(rt: HostRuntime) -> Result<(), Fail> {
    let block = Block::<Fields<4, 4, 4, 4>>::new(rt.alloc(), 2).map_err(|_| "memory")?;
    let mut code = [7, 7];
    block.get(31, &mut code);
    assert_eq!(rt; code, [0, 0]);
    assert_eq!(rt; block.words().len(), 2);
    Ok(())
}

#[test]
fn two_codes_lie_side_by_side_in_each_lane(rt: HostRuntime) -> Result<(), Fail> {
    let mut block = Block::<Fields<8, 8, 0, 0>>::new(rt.alloc(), 2).map_err(|_| "memory")?;
    block.set(0, &[0x0201, 0x0403]);
    block.set(31, &[0x6261, 0x6463]);
    let mut code = [0, 0];
    block.get(0, &mut code);
    assert_eq!(rt; code, [0x0201, 0x0403]);
    block.get(31, &mut code);
    assert_eq!(rt; code, [0x6261, 0x6463]);
    block.get(1, &mut code);
    assert_eq!(rt; code, [0, 0]);
    Ok(())
}

#[test]
fn the_last_slot_of_a_lane_holds_the_word_that_was_set(rt: HostRuntime) -> Result<(), Fail> {
    let mut block = Block::<Fields<4, 4, 4, 4>>::new(rt.alloc(), 1).map_err(|_| "memory")?;
    block.set(31, &[0x0178]);
    let mut code = [9];
    block.get(31, &mut code);
    assert_eq!(rt; code, [0x0178]);
    block.get(30, &mut code);
    assert_eq!(rt; code, [0]);
    let words = block.words();
    assert_eq!(rt; words.len(), 1);
    assert_eq!(rt; words[0][31], 0x0178);
    Ok(())
}

#[test]
fn codes_lie_in_as_many_blocks_as_they_need(rt: HostRuntime) -> Result<(), Fail> {
    let mut codes = Codes::new(rt.alloc(), 2);
    codes.reserve(0).map_err(|_| "memory")?;
    codes.set(0, &[0x0201, 0x0403]);
    assert_eq!(rt; codes.g(), 2);
    let mut code = [7, 7];
    codes.get(0, &mut code);
    assert_eq!(rt; code, [0x0201, 0x0403]);
    codes.truncate(0);
    codes.reserve(0).map_err(|_| "memory")?;
    codes.get(0, &mut code);
    assert_eq!(rt; code, [0, 0]);
    Ok(())
}
