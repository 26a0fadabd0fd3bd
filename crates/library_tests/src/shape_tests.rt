//! Worked words of each shape.
use shape_core::{Fields, field, is_word, offset, pack};

#[test]
fn fields_stand_from_the_low_end(rt: HostRuntime) {
    assert_eq!(rt; pack::<Fields<6, 6, 4, 0>>(&[63, 0, 15]), 0xF03F);
    assert_eq!(rt; pack::<Fields<6, 6, 4, 0>>(&[0, 63, 0]), 0x0FC0);
    assert_eq!(rt; pack::<Fields<5, 5, 5, 0>>(&[31, 0, 1]), 0x041F);
    assert_eq!(rt; pack::<Fields<8, 8, 0, 0>>(&[255, 1]), 0x01FF);
    assert_eq!(rt; pack::<Fields<4, 4, 4, 4>>(&[8, 7, 1, 0]), 0x0178);
}

#[test]
fn a_word_gives_its_fields(rt: HostRuntime) {
    assert_eq!(rt; field::<Fields<6, 6, 4, 0>>(0xF03F, 2), 15);
    assert_eq!(rt; field::<Fields<5, 5, 5, 0>>(0x041F, 0), 31);
    assert_eq!(rt; field::<Fields<8, 8, 0, 0>>(0x01FF, 1), 1);
    assert_eq!(rt; field::<Fields<4, 4, 4, 4>>(0x0178, 2), 1);
    assert_eq!(rt; offset::<Fields<6, 6, 4, 0>>(2), 12);
}

#[test]
fn only_fifteen_bits_leave_one_unused(rt: HostRuntime) {
    assert!(rt; !is_word::<Fields<5, 5, 5, 0>>(0x8000));
    assert!(rt; is_word::<Fields<5, 5, 5, 0>>(0x7FFF));
    assert!(rt; is_word::<Fields<4, 4, 4, 4>>(0x8000));
    assert!(rt; is_word::<Fields<6, 6, 4, 0>>(0x8000));
    assert!(rt; is_word::<Fields<8, 8, 0, 0>>(0x8000));
}
