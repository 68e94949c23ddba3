//! NURand of given draws (TPC-C 2.1.6).

use population_draws::nurand;

#[test]
fn the_draws_are_mixed_bit_by_bit(rt: HostRuntime) {
    // 3 | 5 is 7, and 107 leaves 7 by 10.
    assert_eq!(rt; nurand(3, 5, 0, 9, 100), 7);
    // 255 | 12 is 255, and 355 leaves 7 by 12.
    assert_eq!(rt; nurand(255, 12, 1, 12, 100), 8);
}

#[test]
fn the_widest_draws_fit(rt: HostRuntime) {
    let most = u32::MAX;
    assert_eq!(rt; nurand(most, most, 0, most, most), most - 1);
    assert_eq!(rt; nurand(most, 0, most, most, most), most);
}
