//! The plain population of one warehouse, two districts, ten customers a district and twenty items, against
//! its description.

use money::{Cents, Rate};
use population::Population;
use std::test::Fail;
use tables::{
    Credit, Customer, CustomerKey, District, DistrictKey, History, Item, LineKey, NewOrder, Order,
    OrderKey, OrderLine, Scale, Stock, StockKey, Warehouse,
};

fn small() -> Result<Scale, Fail> {
    Ok(Scale::new(1, 2, 10, 20, 30, 1_000)?)
}

#[test]
fn counts_of_rows(rt: HostRuntime) -> Result<(), Fail> {
    let population = Population::plain(rt.alloc(), small()?)?;
    assert_eq!(rt; population.seed(), 0);
    assert_eq!(rt; population.scale(), small()?);
    let tables = population.tables();
    assert_eq!(rt; tables.warehouses.len(), 1);
    assert_eq!(rt; tables.districts.len(), 2);
    assert_eq!(rt; tables.customers.len(), 20);
    assert_eq!(rt; tables.texts.len(), 20);
    assert_eq!(rt; tables.history.len(), 20);
    assert_eq!(rt; tables.new_orders.len(), 6);
    assert_eq!(rt; tables.orders.len(), 20);
    assert_eq!(rt; tables.lines.len(), 100);
    assert_eq!(rt; tables.items.len(), 20);
    assert_eq!(rt; tables.stock.len(), 20);
    Ok(())
}

#[test]
fn places_and_goods(rt: HostRuntime) -> Result<(), Fail> {
    let tables = Population::plain(rt.alloc(), small()?)?.into_tables();
    let warehouse = Warehouse {
        tax: Rate::new(1_000).ok_or("rate")?,
        year_to_date: Cents::new(20_000),
    };
    assert_eq!(rt; tables.warehouses.get(&1).copied(), Some(warehouse));
    let key = DistrictKey {
        warehouse: 1,
        district: 2,
    };
    let district = District {
        tax: Rate::new(500).ok_or("rate")?,
        year_to_date: Cents::new(10_000),
        next_order: 11,
    };
    assert_eq!(rt; tables.districts.get(&key).copied(), Some(district));
    assert_eq!(rt;
        tables.items.get(&20).copied(),
        Some(Item {
            price: Cents::new(2_000)
        })
    );
    let key = StockKey {
        warehouse: 1,
        item: 20,
    };
    let stock = Stock {
        quantity: 50,
        year_to_date: 0,
        orders: 0,
        remote_orders: 0,
    };
    assert_eq!(rt; tables.stock.get(&key).copied(), Some(stock));
    Ok(())
}

#[test]
fn customers_and_payments(rt: HostRuntime) -> Result<(), Fail> {
    let tables = Population::plain(rt.alloc(), small()?)?.into_tables();
    let key = CustomerKey {
        warehouse: 1,
        district: 1,
        customer: 10,
    };
    let customer = Customer {
        first_name: 9_989,
        last_name: 9,
        credit: Credit::Bad,
        discount: Rate::new(1_000).ok_or("rate")?,
        balance: Cents::new(-1_000),
        paid: Cents::new(1_000),
        payments: 1,
        deliveries: 0,
    };
    assert_eq!(rt; tables.customers.get(&key).copied(), Some(customer));
    let first = History {
        customer: 1,
        customer_district: 1,
        customer_warehouse: 1,
        district: 1,
        warehouse: 1,
        date: 1,
        amount: Cents::new(1_000),
    };
    let last = History {
        customer: 10,
        customer_district: 2,
        district: 2,
        ..first
    };
    assert_eq!(rt; tables.history.first().copied(), Some(first));
    assert_eq!(rt; tables.history.last().copied(), Some(last));
    Ok(())
}

#[test]
fn orders_and_lines(rt: HostRuntime) -> Result<(), Fail> {
    let tables = Population::plain(rt.alloc(), small()?)?.into_tables();
    let delivered = OrderKey {
        warehouse: 1,
        district: 2,
        order: 7,
    };
    let open = OrderKey {
        order: 8,
        ..delivered
    };
    let order = Order {
        customer: 7,
        entry_date: 1,
        carrier: Some(1),
        line_count: 5,
        all_local: true,
    };
    assert_eq!(rt; tables.orders.get(&delivered).copied(), Some(order));
    let order = Order {
        customer: 8,
        carrier: None,
        ..order
    };
    assert_eq!(rt; tables.orders.get(&open).copied(), Some(order));
    assert_eq!(rt; tables.new_orders.get(&delivered).copied(), None);
    assert_eq!(rt; tables.new_orders.get(&open).copied(), Some(NewOrder));
    let key = LineKey {
        warehouse: 1,
        district: 2,
        order: 7,
        line: 5,
    };
    let line = OrderLine {
        item: 5,
        supply_warehouse: 1,
        delivery_date: Some(1),
        quantity: 5,
        amount: Cents::new(0),
    };
    assert_eq!(rt; tables.lines.get(&key).copied(), Some(line));
    let key = LineKey { order: 8, ..key };
    let line = OrderLine {
        delivery_date: None,
        amount: Cents::new(500),
        ..line
    };
    assert_eq!(rt; tables.lines.get(&key).copied(), Some(line));
    Ok(())
}
