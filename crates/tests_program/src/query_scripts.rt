//! Whole scripts of Order-Status and Stock-Level, and of customers by last name, by what they write.

use crate::small_scripts::{assert_answers, assert_answers_over, assert_refused, written};
use std::alloc::Global;
use std::sync::Wait;
use std::test::Fail;
use tables::Scale;

#[test]
fn an_order_status(rt: HostRuntime) -> Result<(), Fail> {
    let lines = [
        "neworder 1 1 3 1:1:10 2:1:10 3:1:10 4:1:10 5:1:10",
        "status 1 1 3",
        "status 1 1 4",
        "status 1 2 8",
    ];
    let answers = [
        "neworder 1 1 11 customer 3 lines 150.00 total 155.25 1:1:40:10.00 2:1:40:20.00 3:1:40:30.00 4:1:40:40.00 \
         5:1:40:50.00",
        "status 1 1 3 balance -10.00 order 11 date 1 carrier - 1:1:10:10.00:- 2:1:10:20.00:- 3:1:10:30.00:- \
         4:1:10:40.00:- 5:1:10:50.00:-",
        "status 1 1 4 balance -10.00 order 4 date 1 carrier 1 1:1:5:0.00:1 2:1:5:0.00:1 3:1:5:0.00:1 4:1:5:0.00:1 \
         5:1:5:0.00:1",
        "status 1 2 8 balance -10.00 order 8 date 1 carrier - 1:1:5:1.00:- 2:1:5:2.00:- 3:1:5:3.00:- 4:1:5:4.00:- \
         5:1:5:5.00:-",
    ];
    assert_answers(&rt, &lines, &answers, 4)
}

/// Stocks of items 1 and 2 fall to 10 and 19; item 3, of two orders, to 48.
#[test]
fn stock_levels(rt: HostRuntime) -> Result<(), Fail> {
    let lines = [
        "neworder 1 1 1 1:1:10 1:1:10 1:1:10 1:1:10 3:1:1",
        "neworder 1 1 2 2:1:10 2:1:10 2:1:10 2:1:1 3:1:1",
        "level 1 1 10",
        "level 1 1 20",
    ];
    let answers = [
        "neworder 1 1 11 customer 1 lines 43.00 total 44.50 1:1:40:10.00 1:1:30:10.00 1:1:20:10.00 1:1:10:10.00 \
         3:1:49:3.00",
        "neworder 1 1 12 customer 2 lines 65.00 total 67.27 2:1:40:20.00 2:1:30:20.00 2:1:20:20.00 2:1:19:2.00 \
         3:1:48:3.00",
        "level 1 1 threshold 10 low 0",
        "level 1 1 threshold 20 low 2",
    ];
    assert_answers(&rt, &lines, &answers, 4)
}

/// The answer to a Stock-Level behind an order that leaves 10 of item 20, and so many more orders, of items 1 to 5.
fn level_behind<T: Wait>(rt: &T, alloc: Global, orders: u32) -> Result<String, Fail> {
    let mut input = String::from_str(
        alloc,
        "neworder 1 1 1 20:1:10 20:1:10 20:1:10 20:1:10 1:1:1\n",
    )?;
    for _ in 0..orders {
        input.push_str("neworder 1 1 1 1:1:1 2:1:1 3:1:1 4:1:1 5:1:1\n")?;
    }
    input.push_str("level 1 1 20\n")?;
    let written = written(rt, alloc, (1, 40, 1_000), input.as_str())?;
    let answers = str::from_utf8(written.as_slice()).map_err(|_| "not a text")?;
    match answers.lines().find(|line| line.starts_with("level")) {
        Some(line) => Ok(String::from_str(alloc, line)?),
        None => Err("no answer to the level".into()),
    }
}

/// A district's last 20 orders are looked at: those from the next order's number less 20 on.
#[test]
fn the_last_twenty_orders(rt: HostRuntime) -> Result<(), Fail> {
    for (orders, low) in [(0, 1), (19, 1), (20, 0)] {
        let level = level_behind(&rt, rt.alloc(), orders)?;
        let expected = format!(in rt.alloc(); "level 1 1 threshold 20 low {low}")?;
        assert_eq!(rt; level, expected, "behind {orders} orders");
    }
    Ok(())
}

/// Customer 6 has the last name of number 5, and customer 7 that of number 6.
#[test]
fn by_last_name(rt: HostRuntime) -> Result<(), Fail> {
    let lines = [
        "payment 1 1 1 1 BARBARESE 1.00",
        "status 1 1 BARBARANTI",
        "show customer 1 1 6",
    ];
    let answers = [
        "payment 1 1 customer 1 1 6 balance -11.00",
        "status 1 1 7 balance -10.00 order 7 date 1 carrier 1 1:1:5:0.00:1 2:1:5:0.00:1 3:1:5:0.00:1 4:1:5:0.00:1 \
         5:1:5:0.00:1",
        "customer 1 1 6 balance -11.00 paid 11.00 payments 2 deliveries 0",
    ];
    assert_answers(&rt, &lines, &answers, 2)
}

/// Customers 6, 1006 and 2006 have one last name, in the order of their first names 2006, 1006, 6; 16 and 1016 another,
/// in the order 1016, 16.
#[test]
fn the_customer_at_the_middle(rt: HostRuntime) -> Result<(), Fail> {
    let scale = Scale::new(1, 1, 2_010, 20, 3_000, 1_000)?;
    let lines = ["status 1 1 BARBARESE", "status 1 1 BAROUGHTESE"];
    let answers = [
        "status 1 1 1006 balance -10.00 order 1006 date 1 carrier 1 1:1:5:0.00:1 2:1:5:0.00:1 3:1:5:0.00:1 \
         4:1:5:0.00:1 5:1:5:0.00:1",
        "status 1 1 1016 balance -10.00 order 1016 date 1 carrier 1 1:1:5:0.00:1 2:1:5:0.00:1 3:1:5:0.00:1 \
         4:1:5:0.00:1 5:1:5:0.00:1",
    ];
    assert_answers_over(&rt, scale, &lines, &answers, 2)
}

/// A transaction that only reads has a commit number too.
#[test]
fn reads_up_to_the_commit_cap(rt: HostRuntime) -> Result<(), Fail> {
    let scale = Scale::new(1, 2, 10, 20, 30, 1)?;
    let answers = ["level 1 1 threshold 10 low 0", "7 line 2"];
    assert_answers_over(&rt, scale, &["level 1 1 10"; 2], &answers, 1)
}

#[test]
fn refused_status_lines(rt: HostRuntime) -> Result<(), Fail> {
    let refused = [
        (" 1 1 11", 2),
        (" 1 1 0", 2),
        (" 1 3 1", 2),
        (" 1 1 BAROUGHTBAR", 2),
        (" 1 1 BARBAR", 14),
        (" 1 1 BARBARBARBAR", 14),
        (" 1 1 barbarbar", 14),
        (" 1 1", 14),
    ];
    assert_refused(&rt, "status", &refused)
}

#[test]
fn refused_level_lines(rt: HostRuntime) -> Result<(), Fail> {
    let refused = [
        (" 1 1 9", 2),
        (" 1 1 21", 2),
        (" 2 1 10", 2),
        (" 1 0 10", 2),
        (" 1 1", 14),
        (" 1 1 10 10", 14),
    ];
    assert_refused(&rt, "level", &refused)
}
