//! Whole scripts of New-Orders, by what they write.

use crate::GOOD;
use crate::small_scripts::{assert_refused, written};
use std::test::Fail;

#[test]
fn worked_rows(rt: HostRuntime) -> Result<(), Fail> {
    let rows = [
        (
            (1, 30, 1_000),
            "neworder 1 1 3 1:1:10 2:1:10 3:1:10 4:1:10 5:1:10\nshow order 1 1 11\nshow order 1 1 7\n\
             show order 1 1 12\nshow order 1 1 31\nneworder 1 1 4 1:1:1 1:1:1 1:1:1 1:1:1 1:1:1\n",
            "neworder 1 1 11 customer 3 lines 150.00 total 155.25 1:1:40:10.00 2:1:40:20.00 3:1:40:30.00 \
             4:1:40:40.00 5:1:40:50.00\n\
             order 1 1 11 customer 3 carrier - lines 5 local 1\n\
             order 1 1 7 customer 7 carrier 1 lines 5 local 1\n\
             order 1 1 12 none\n\
             2 line 5\n\
             neworder 1 1 12 customer 4 lines 5.00 total 5.17 1:1:39:1.00 1:1:38:1.00 1:1:37:1.00 1:1:36:1.00 \
             1:1:35:1.00\n",
            2,
        ),
        (
            (1, 30, 1_000),
            "neworder 1 1 1 1:1:10 1:1:10 1:1:10 1:1:10 2:1:10 2:1:10 2:1:10 2:1:1 2:1:10\nshow stock 1 2\n",
            "neworder 1 1 11 customer 1 lines 122.00 total 126.27 1:1:40:10.00 1:1:30:10.00 1:1:20:10.00 \
             1:1:10:10.00 2:1:40:20.00 2:1:30:20.00 2:1:20:20.00 2:1:19:2.00 2:1:100:20.00\n\
             stock 1 2 quantity 100 ytd 41 orders 5 remote 0\n",
            1,
        ),
        (
            (2, 30, 1_000),
            "neworder 1 1 3 1:2:10 2:1:10 3:1:10 4:1:10 5:1:10\nshow stock 2 1\nshow stock 1 1\nshow order 1 1 11\n",
            "neworder 1 1 11 customer 3 lines 150.00 total 155.25 1:2:40:10.00 2:1:40:20.00 3:1:40:30.00 \
             4:1:40:40.00 5:1:40:50.00\n\
             stock 2 1 quantity 40 ytd 10 orders 1 remote 1\n\
             stock 1 1 quantity 50 ytd 0 orders 0 remote 0\n\
             order 1 1 11 customer 3 carrier - lines 5 local 0\n",
            1,
        ),
        (
            (1, 30, 1_000),
            "neworder 1 1 3 1:1:10 2:1:10 3:1:10 4:1:10 21:1:10\nneworder 1 1 3 1:1:1 2:1:1 3:1:1 4:1:1 5:1:1\n",
            "5 line 1 item 21\n\
             neworder 1 1 11 customer 3 lines 15.00 total 15.52 1:1:49:1.00 2:1:49:2.00 3:1:49:3.00 4:1:49:4.00 \
             5:1:49:5.00\n",
            1,
        ),
        (
            (1, 10, 1_000),
            "neworder 1 1 3 1:1:10 2:1:10 3:1:10 4:1:10 5:1:10\n",
            "6 line 1\n",
            0,
        ),
    ];
    for (numbers, input, replies, commits) in rows {
        let expected = format!(in rt.alloc(); "{replies}commits {commits}\n{GOOD}")?;
        let written = written(&rt, rt.alloc(), numbers, input)?;
        assert_eq!(rt; written.as_slice(), expected.as_bytes(), "on {input:?}");
    }
    Ok(())
}

/// At the order cap and at the commit cap, an order of an item that isn't in ITEM, one above the order cap, and one
/// that has a number: each is refused by what comes first.
#[test]
fn refusals_in_their_order(rt: HostRuntime) -> Result<(), Fail> {
    let input = "neworder 1 1 3 1:1:1 2:1:1 3:1:1 4:1:1 5:1:1\n\
        neworder 1 1 3 1:1:1 22:1:1 3:1:1 21:1:1 5:1:1\n\
        neworder 1 1 3 1:1:1 2:1:1 3:1:1 4:1:1 5:1:1\n\
        neworder 1 2 3 1:1:1 2:1:1 3:1:1 4:1:1 5:1:1\n\
        neworder 1 2 3 1:1:1 2:1:1 3:1:1 4:1:1 5:1:0\n\
        neworder 1 2 3 1:1:1 2:1:1 3:1:1 4:1:1 5:1\n";
    let replies =
        "neworder 1 1 11 customer 3 lines 15.00 total 15.52 1:1:49:1.00 2:1:49:2.00 3:1:49:3.00 \
        4:1:49:4.00 5:1:49:5.00\n\
        5 line 2 item 22\n6 line 3\n7 line 4\n2 line 5\n14 line 6\n";
    let expected = format!(in rt.alloc(); "{replies}commits 1\n{GOOD}")?;
    let written = written(&rt, rt.alloc(), (1, 11, 1), input)?;
    assert_eq!(rt; written.as_slice(), expected.as_bytes());
    Ok(())
}

#[test]
fn refused_lines(rt: HostRuntime) -> Result<(), Fail> {
    let refused = [
        ("neworder 1 1 3", 2),
        ("neworder 1 1 3 1:1:1 2:1:1 3:1:1 4:1:1", 2),
        ("neworder 1 1 11 1:1:1 2:1:1 3:1:1 4:1:1 5:1:1", 2),
        ("neworder 1 1", 14),
        ("neworder 1 1 3 ", 14),
        ("show stock 1 21", 2),
        ("show stock 2 1", 2),
        ("show stock 1", 14),
        ("show order 1 1 0", 2),
        ("show order 1 3 1", 2),
        ("show order 1 1", 14),
    ];
    assert_refused(&rt, "", &refused)
}

/// Orders by their fifth line.
#[test]
fn refused_lines_of_an_order(rt: HostRuntime) -> Result<(), Fail> {
    let refused = [
        ("0:1:1", 2),
        ("100002:1:1", 2),
        ("5:2:1", 2),
        ("5:1:11", 2),
        ("5:1", 14),
        ("5:1:1:1", 14),
        ("5:1:01", 14),
        ("5:1:-1", 14),
        (" 5:1:1", 14),
    ];
    assert_refused(&rt, "neworder 1 1 3 1:1:1 2:1:1 3:1:1 4:1:1 ", &refused)
}

/// An order of more lines than it may have is in the form while its line is no longer than any may be.
#[test]
fn orders_of_many_lines(rt: HostRuntime) -> Result<(), Fail> {
    for (lines, refusal) in [(16, 2), (168, 2), (169, 14)] {
        let mut input = String::from_str(rt.alloc(), "neworder 1 1 3")?;
        for _ in 0..lines {
            input.push_str(" 1:1:1")?;
        }
        let expected = format!(in rt.alloc(); "{refusal} line 1\ncommits 0\n{GOOD}")?;
        let written = written(&rt, rt.alloc(), (1, 30, 1_000), input.as_str())?;
        assert_eq!(rt; written.as_slice(), expected.as_bytes(), "on {lines} lines");
    }
    Ok(())
}
