//! Distances worked out by hand, and each call once.
use book_model::*;

#[test]
fn a_word_of_bytes_lies_at_the_sum_of_squares(rt: HostRuntime) {
    assert_eq!(rt; dist(&[0, 0, 0, 0], &[130, 120, 10, 0]), 31400);
    assert_eq!(rt; dist(&[64, 64], &[128, 128]), 8192);
    assert_eq!(rt; dist(&[255, 0], &[0, 255]), 130050);
}

#[test]
fn a_tie_is_no_nearer(rt: HostRuntime) {
    assert!(rt; nearest_step(2, 1));
    assert!(rt; !nearest_step(1, 1));
    assert!(rt; !nearest_step(1, 2));
}

#[test]
fn seven_and_eight_at_scale_one_lie_at_one_from_fifteen(rt: HostRuntime) {
    assert_eq!(rt; dist_scaled(1, &[7], &[15]), 1);
    assert_eq!(rt; dist_scaled(1, &[8], &[15]), 1);
}

#[test]
fn the_farthest_components(rt: HostRuntime) {
    assert_eq!(rt; dist_scaled(0, &[0; 16], &[65535; 16]), 68717379600);
    assert_eq!(rt; dist_scaled(8, &[255; 2], &[0; 2]), 8522956800);
}

#[test]
fn each_word_of_a_list_has_its_distance(rt: HostRuntime) {
    let mut near = [0; 3];
    dist_each(4, &[16, 32, 0], &[1], &mut near);
    assert_eq!(rt; near, [0, 256, 256]);
    let mut far = [0; 2];
    dist_each(4, &[16, 16, 16, 16, 0, 0, 0, 17], &[1, 1, 1, 1], &mut far);
    assert_eq!(rt; far, [0, 769]);
    dist_each(
        0,
        &[3, 0, 0, 0, 0, 0, 0, 0, 0, 0, 0, 0, 0, 0, 0, 4],
        &[0; 8],
        &mut far,
    );
    assert_eq!(rt; far, [9, 16]);
}

#[test]
fn laws_are_calls(_rt: HostRuntime) {
    laws::full_are_visited();
    laws::threshold_fits();
    laws::prunes_far();
    laws::depends_on_cells();
    laws::nearest_is_first();
    laws::cells_are_ordered();
    laws::visit_is_shortest();
    laws::visit_holds_needed();
    laws::rows_lie_in_cells();
    laws::answer_is_least();
}
