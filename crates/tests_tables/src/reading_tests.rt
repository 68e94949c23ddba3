//! Rows from the words of their records.

use money::Cents;
use rows::Row;
use std::test::Fail;
use tables::{Order, OrderLine, Scale};

#[test]
fn an_order_that_is_not_delivered(rt: HostRuntime) -> Result<(), Fail> {
    let order = Order {
        customer: 3,
        entry_date: 1,
        carrier: None,
        line_count: 5,
        all_local: true,
    };
    let scale = Scale::new(1, 2, 10, 20, 30, 1_000)?;
    assert_eq!(rt; Order::read(&scale, &[3, 1, 0, 5, 1, 0, 0]), Some(order));
    Ok(())
}

#[test]
fn a_line_that_is_delivered(rt: HostRuntime) -> Result<(), Fail> {
    let line = OrderLine {
        item: 7,
        supply_warehouse: 2,
        delivery_date: Some(9),
        quantity: 10,
        amount: Cents::new(1_000),
    };
    let scale = Scale::new(2, 2, 10, 20, 30, 1_000)?;
    assert_eq!(rt;
        OrderLine::read(&scale, &[7, 2, 9, 10, 1_000, 0, 0]),
        Some(line)
    );
    Ok(())
}
