//! Which fields make a New-Order's input, and copies of lines and replies.

use money::{Cents, Refusal};
use std::alloc::{AllocError, Global};
use std::test::Fail;
use tables::{
    Input, Lines, NewOrderInput, NewOrderReply, PaymentReply, Reply, RequestedLine, Scale,
    SuppliedLine,
};

/// Two warehouses of three districts with ten customers, and 20 items.
fn scale() -> Result<Scale, Refusal> {
    Scale::new(2, 3, 10, 20, 30, 1_000)
}

fn line(item: u32, supply_warehouse: u32, quantity: u32) -> RequestedLine {
    RequestedLine {
        item,
        supply_warehouse,
        quantity,
    }
}

/// So many lines, of which the last is this one.
fn lines(
    alloc: Global,
    count: u32,
    last: RequestedLine,
) -> Result<Lines<RequestedLine>, AllocError> {
    let mut lines = Vec::new(alloc);
    for _ in 1..count {
        lines.push(line(1, 1, 1))?;
    }
    lines.push(last)?;
    Ok(Lines::new(lines))
}

/// An order of the last customer of the last district, with these lines.
fn order(lines: Lines<RequestedLine>) -> NewOrderInput {
    NewOrderInput {
        date: 4_000_000_000,
        warehouse: 2,
        district: 3,
        customer: 10,
        lines,
    }
}

#[test]
fn an_order_is_taken(rt: HostRuntime) -> Result<(), Fail> {
    let asked = order(lines(rt.alloc(), 5, line(20, 2, 10))?);
    let same = order(lines(rt.alloc(), 5, line(20, 2, 10))?);
    assert_eq!(rt;
        Input::new_order(&scale()?, asked),
        Ok(Input::NewOrder(same))
    );
    Ok(())
}

#[test]
fn from_five_to_fifteen_lines(rt: HostRuntime) -> Result<(), Fail> {
    let refused = Some(Refusal::BadInput);
    for (count, refusal) in [(4, refused), (5, None), (15, None), (16, refused)] {
        let asked = order(lines(rt.alloc(), count, line(1, 1, 1))?);
        let input = Input::new_order(&scale()?, asked);
        assert_eq!(rt; input.err(), refusal, "{count}");
    }
    Ok(())
}

/// ITEM has 20 items at this scale.
#[test]
fn items_beyond_those_of_the_scale_are_taken(rt: HostRuntime) -> Result<(), Fail> {
    for item in [21, 100_001] {
        let asked = order(lines(rt.alloc(), 5, line(item, 1, 1))?);
        assert!(rt; Input::new_order(&scale()?, asked).is_ok(), "{item}");
    }
    Ok(())
}

#[test]
fn lines_outside_their_ranges(rt: HostRuntime) -> Result<(), Fail> {
    let outside = [
        line(0, 1, 1),
        line(100_002, 1, 1),
        line(1, 0, 1),
        line(1, 3, 1),
        line(1, 1, 0),
        line(1, 1, 11),
    ];
    for last in outside {
        let asked = order(lines(rt.alloc(), 5, last)?);
        let refused = Input::new_order(&scale()?, asked);
        assert_eq!(rt; refused, Err(Refusal::BadInput), "{last:?}");
    }
    Ok(())
}

#[test]
fn fields_outside_their_ranges(rt: HostRuntime) -> Result<(), Fail> {
    let outside = [
        (0, 1, 1, 1),
        (4_000_000_001, 1, 1, 1),
        (1, 0, 1, 1),
        (1, 3, 1, 1),
        (1, 1, 0, 1),
        (1, 1, 4, 1),
        (1, 1, 1, 0),
        (1, 1, 1, 11),
    ];
    for (date, warehouse, district, customer) in outside {
        let asked = NewOrderInput {
            date,
            warehouse,
            district,
            customer,
            lines: lines(rt.alloc(), 5, line(1, 1, 1))?,
        };
        let refused = Input::new_order(&scale()?, asked);
        assert_eq!(rt;
            refused,
            Err(Refusal::BadInput),
            "{date} {warehouse} {district} {customer}"
        );
    }
    Ok(())
}

#[test]
fn copies_of_lines(rt: HostRuntime) -> Result<(), Fail> {
    let lines = lines(rt.alloc(), 2, line(7, 1, 3))?;
    let copy = lines.copied()?;
    assert_eq!(rt; copy.as_slice(), [line(1, 1, 1), line(7, 1, 3)].as_slice());
    assert_eq!(rt; copy, lines);
    Ok(())
}

/// The reply to an order of one line, which left so much stock.
fn order_reply(alloc: Global, stock: u32) -> Result<Reply, AllocError> {
    let mut lines = Vec::new(alloc);
    lines.push(SuppliedLine {
        item: 1,
        supply_warehouse: 1,
        stock,
        amount: Cents::new(500),
    })?;
    Ok(Reply::NewOrder(NewOrderReply {
        warehouse: 1,
        district: 1,
        order: 11,
        customer: 3,
        amount: Cents::new(500),
        total: Cents::new(517),
        lines: Lines::new(lines),
    }))
}

#[test]
fn copies_of_order_replies(rt: HostRuntime) -> Result<(), Fail> {
    let copy = order_reply(rt.alloc(), 40)?.copied()?;
    assert_eq!(rt; copy, order_reply(rt.alloc(), 40)?);
    assert_ne!(rt; copy, order_reply(rt.alloc(), 41)?);
    Ok(())
}

#[test]
fn copies_of_payment_replies(rt: HostRuntime) -> Result<(), Fail> {
    let reply = Reply::Payment(PaymentReply {
        warehouse: 1,
        district: 1,
        customer_warehouse: 1,
        customer_district: 1,
        customer: 3,
        balance: Cents::new(-2_234),
    });
    assert_eq!(rt; reply.copied()?, reply);
    Ok(())
}
