//! Worked sums and selections.
ghost use Rattle.std.specs.Prelude.{◌≡◌, ◌+◌, ◌^◌, ◌<◌, ◌≤◌};

use lane_kernels::{LaneMeter, SplitTable, select32, sum32};
use shape_core::{Fields, Shape};
use std::process::Abort;

/// `sum32` after a test of what it requires.
fn sum_of<S: Shape>(
    rt: &impl Abort,
    tables: &[SplitTable],
    words: &[[u16; 32]],
    lanes: &mut LaneMeter,
) -> [u8; 32]
    requires { lanes.old ≤ 2 ^ 63 }
    ensures { lanes.new ≡ lanes.old + 1 }
{
    assert!(rt; words.len() <= 32);
    assert_eq!(rt; tables.len(), words.len() * S::FIELDS);
    for j in 0..tables.len() {
        assert_eq!(rt; tables[j].width(), S::WIDTHS[j % S::FIELDS]);
    }
    sum32::<S>(tables, words, lanes)
}

/// A table whose entry w is start + step * w, modulo 256.
fn rising(width: u32, start: u8, step: u8) -> SplitTable
    requires { (4 ≤ width) × (width ≤ 8) }
{
    let mut table = SplitTable::zero(width);
    let mut value = start;
    for at in 0..1 << width {
        table.set(at, value);
        value = value.wrapping_add(step);
    }
    table
}

#[test]
fn sums_stop_at_255(rt: HostRuntime) {
    let mut lanes = LaneMeter::new(rt.alloc());
    let words = [[0x01FF; 32]];
    let above = [rising(8, 200, 0), rising(8, 100, 0)];
    let below = [rising(8, 100, 0), rising(8, 100, 0)];
    assert_eq!(rt;
        sum_of::<Fields<8, 8, 0, 0>>(&rt, &above, &words, &mut lanes),
        [255; 32]
    );
    assert_eq!(rt;
        sum_of::<Fields<8, 8, 0, 0>>(&rt, &below, &words, &mut lanes),
        [200; 32]
    );
    assert_eq!(rt; lanes.count(), 2);
}

#[test]
fn each_lane_picks_by_its_own_word(rt: HostRuntime) {
    let mut lanes = LaneMeter::new(rt.alloc());
    let mut words = [[0; 32]];
    words[0][0] = 0xF03F;
    let tables = [rising(6, 0, 1), SplitTable::zero(6), SplitTable::zero(4)];
    let mut expected = [0; 32];
    expected[0] = 63;
    assert_eq!(rt;
        sum_of::<Fields<6, 6, 4, 0>>(&rt, &tables, &words, &mut lanes),
        expected
    );
}

/// Two words of 5-5-5, whose fields are 1, 2, 3 and 4, 5, 6, at the last lane.
#[test]
fn each_field_picks_from_its_own_table(rt: HostRuntime) {
    let mut lanes = LaneMeter::new(rt.alloc());
    let mut words = [[0; 32]; 2];
    words[0][31] = 1 + 2 * 32 + 3 * 1024;
    words[1][31] = 4 + 5 * 32 + 6 * 1024;
    let tables = [
        rising(5, 0, 1),
        rising(5, 0, 2),
        rising(5, 0, 3),
        rising(5, 0, 4),
        rising(5, 0, 5),
        rising(5, 0, 6),
    ];
    let mut expected = [0; 32];
    expected[31] = 1 + 4 + 9 + 16 + 25 + 36;
    assert_eq!(rt;
        sum_of::<Fields<5, 5, 5, 0>>(&rt, &tables, &words, &mut lanes),
        expected
    );
}

/// Of 8 tables the one at `full` has 255 everywhere, and the others 1.
fn entry_at(full: usize, at: usize) -> u8 {
    if at == full { 255 } else { 1 }
}

#[test]
fn a_full_entry_at_any_place_fills_the_sum(rt: HostRuntime) {
    for full in 0..8 {
        let mut lanes = LaneMeter::new(rt.alloc());
        let tables = [
            rising(4, entry_at(full, 0), 0),
            rising(4, entry_at(full, 1), 0),
            rising(4, entry_at(full, 2), 0),
            rising(4, entry_at(full, 3), 0),
            rising(4, entry_at(full, 4), 0),
            rising(4, entry_at(full, 5), 0),
            rising(4, entry_at(full, 6), 0),
            rising(4, entry_at(full, 7), 0),
        ];
        let sums = sum_of::<Fields<4, 4, 4, 4>>(
            &rt,
            &tables,
            &[[0x3210; 32], [0xFEDC; 32]],
            &mut lanes,
        );
        assert_eq!(rt; sums, [255; 32], "at {full}");
    }
}

fn expect_last(rt: &impl Abort, width: u32, lanes: &mut LaneMeter)
    requires width { (4 ≤ width) × (width ≤ 8) }
    requires meter { lanes.old ≤ 2 ^ 63 }
    ensures { lanes.new ≡ lanes.old + 1 }
{
    let last = ((1u32 << width) - 1) as u8;
    let mut table = SplitTable::zero(width);
    table.set(u32::from(last), 7);
    assert_eq!(rt; select32(&table, &[last; 32], lanes), [7; 32]);
}

#[test]
fn the_last_index_of_each_width_picks_the_last_entry(rt: HostRuntime) {
    let mut lanes = LaneMeter::new(rt.alloc());
    expect_last(&rt, 4, &mut lanes);
    expect_last(&rt, 5, &mut lanes);
    expect_last(&rt, 6, &mut lanes);
    expect_last(&rt, 8, &mut lanes);
    assert_eq!(rt; lanes.count(), 4);
}
