//! Whole scripts of Deliveries, by what they write.

use crate::small_scripts::{assert_answers, assert_refused};
use std::test::Fail;

#[test]
fn a_delivery(rt: HostRuntime) -> Result<(), Fail> {
    let lines = [
        "delivery 1 4",
        "show customer 1 2 8",
        "show customer 1 1 8",
        "show order 1 1 8",
    ];
    let answers = [
        "delivery 1 1:8 2:8",
        "customer 1 2 8 balance 5.00 paid 10.00 payments 1 deliveries 1",
        "customer 1 1 8 balance 5.00 paid 10.00 payments 1 deliveries 1",
        "order 1 1 8 customer 8 carrier 4 lines 5 local 1",
    ];
    assert_answers(&rt, &lines, &answers, 1)
}

/// Of the ten orders of each district the last three wait.
#[test]
fn deliveries_until_no_order_waits(rt: HostRuntime) -> Result<(), Fail> {
    let answers = [
        "delivery 1 1:8 2:8",
        "delivery 1 1:9 2:9",
        "delivery 1 1:10 2:10",
        "delivery 1 1:- 2:-",
    ];
    assert_answers(&rt, &["delivery 1 4"; 4], &answers, 4)
}

#[test]
fn a_new_order_is_delivered(rt: HostRuntime) -> Result<(), Fail> {
    let lines = [
        "delivery 1 4",
        "delivery 1 4",
        "delivery 1 4",
        "delivery 1 4",
        "neworder 1 1 3 1:1:1 2:1:1 3:1:1 4:1:1 5:1:1",
        "delivery 1 4",
        "show customer 1 1 3",
    ];
    let answers = [
        "delivery 1 1:8 2:8",
        "delivery 1 1:9 2:9",
        "delivery 1 1:10 2:10",
        "delivery 1 1:- 2:-",
        "neworder 1 1 11 customer 3 lines 15.00 total 15.52 1:1:49:1.00 2:1:49:2.00 3:1:49:3.00 4:1:49:4.00 \
         5:1:49:5.00",
        "delivery 1 1:11 2:-",
        "customer 1 1 3 balance 5.00 paid 10.00 payments 1 deliveries 1",
    ];
    assert_answers(&rt, &lines, &answers, 6)
}

/// The carriers are numbered from 1 to 10.
#[test]
fn the_first_and_the_last_carrier(rt: HostRuntime) -> Result<(), Fail> {
    let lines = [
        "delivery 1 1",
        "delivery 1 10",
        "show order 1 1 8",
        "show order 1 1 9",
        "delivery 1 11",
    ];
    let answers = [
        "delivery 1 1:8 2:8",
        "delivery 1 1:9 2:9",
        "order 1 1 8 customer 8 carrier 1 lines 5 local 1",
        "order 1 1 9 customer 9 carrier 10 lines 5 local 1",
        "2 line 5",
    ];
    assert_answers(&rt, &lines, &answers, 2)
}

#[test]
fn refused_lines(rt: HostRuntime) -> Result<(), Fail> {
    let refused = [
        (" 1 0", 2),
        (" 1 11", 2),
        (" 2 4", 2),
        (" 0 4", 2),
        (" 1", 14),
        (" 1 4 4", 14),
        (" 1 04", 14),
        ("", 14),
    ];
    assert_refused(&rt, "delivery", &refused)
}
