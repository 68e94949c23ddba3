//! What recovered tables are asked, of the plain tables of a small scale with one change.

use conditions_reach::{belong_to_orders, is_in_reach};
use money::Cents;
use population::Population;
use std::alloc::Global;
use std::test::Fail;
use tables::{CustomerKey, LineKey, NewOrder, OrderKey, OrderLine, Scale, StockKey, Tables};

fn plain(alloc: Global) -> Result<Tables, Fail> {
    let scale = Scale::new(1, 2, 10, 20, 30, 1_000)?;
    Ok(Population::plain(alloc, scale)?.into_tables())
}

fn line(order: u32, line: u32) -> LineKey {
    LineKey {
        warehouse: 1,
        district: 2,
        order,
        line,
    }
}

fn any_line() -> OrderLine {
    OrderLine {
        item: 1,
        supply_warehouse: 1,
        delivery_date: None,
        quantity: 5,
        amount: Cents::new(100),
    }
}

#[test]
fn plain_tables_are_in_reach_of_no_commit(rt: HostRuntime) -> Result<(), Fail> {
    let tables = plain(rt.alloc())?;
    assert!(rt; belong_to_orders(&tables));
    assert!(rt; is_in_reach(0, &tables));
    Ok(())
}

// Each district has ten orders.
#[test]
fn a_new_order_row_of_no_order(rt: HostRuntime) -> Result<(), Fail> {
    let mut tables = plain(rt.alloc())?;
    let key = OrderKey {
        warehouse: 1,
        district: 1,
        order: 11,
    };
    tables.new_orders.insert(key, NewOrder)?;
    assert!(rt; !belong_to_orders(&tables));
    Ok(())
}

// Each order of the plain tables has five lines.
#[test]
fn a_line_above_what_its_order_counts(rt: HostRuntime) -> Result<(), Fail> {
    let mut tables = plain(rt.alloc())?;
    tables.lines.insert(line(10, 6), any_line())?;
    assert!(rt; !belong_to_orders(&tables));
    Ok(())
}

#[test]
fn a_line_of_a_missing_order(rt: HostRuntime) -> Result<(), Fail> {
    let mut tables = plain(rt.alloc())?;
    tables.lines.insert(line(11, 1), any_line())?;
    assert!(rt; !belong_to_orders(&tables));
    Ok(())
}

fn pay_warehouse(tables: &mut Tables, cents: i64) {
    if let Some(row) = tables.warehouses.get_mut(&1) {
        row.year_to_date = Cents::new(cents);
    }
}

// 15,000,000 for each of three commits, and 30,000,000 before the first.
#[test]
fn a_warehouse_at_its_bound_and_above(rt: HostRuntime) -> Result<(), Fail> {
    let mut tables = plain(rt.alloc())?;
    pay_warehouse(&mut tables, 75_000_000);
    assert!(rt; is_in_reach(3, &tables));
    pay_warehouse(&mut tables, 75_000_001);
    assert!(rt; !is_in_reach(3, &tables));
    Ok(())
}

fn owe(tables: &mut Tables, balance: i64) {
    let key = CustomerKey {
        warehouse: 1,
        district: 2,
        customer: 10,
    };
    if let Some(row) = tables.customers.get_mut(&key) {
        row.balance = Cents::new(balance);
    }
}

#[test]
fn a_balance_at_its_bound_and_below(rt: HostRuntime) -> Result<(), Fail> {
    let mut tables = plain(rt.alloc())?;
    owe(&mut tables, -75_000_000);
    assert!(rt; is_in_reach(3, &tables));
    owe(&mut tables, -75_000_001);
    assert!(rt; !is_in_reach(3, &tables));
    Ok(())
}

fn supply(tables: &mut Tables, remote_orders: u32) {
    let key = StockKey {
        warehouse: 1,
        item: 20,
    };
    if let Some(row) = tables.stock.get_mut(&key) {
        row.remote_orders = remote_orders;
    }
}

// 150 for each of two commits, and 1 before the first.
#[test]
fn a_stock_at_its_bound_and_above(rt: HostRuntime) -> Result<(), Fail> {
    let mut tables = plain(rt.alloc())?;
    supply(&mut tables, 301);
    assert!(rt; is_in_reach(2, &tables));
    supply(&mut tables, 302);
    assert!(rt; !is_in_reach(2, &tables));
    Ok(())
}
