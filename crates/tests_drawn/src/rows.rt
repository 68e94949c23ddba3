//! The drawn columns of tables' rows, behind their keys.

use std::collections::BTreeMap;
use tables::{
    Credit, Customer, CustomerKey, District, DistrictKey, Item, LineKey, Order, OrderKey,
    OrderLine, Stock, StockKey, Tables, Warehouse,
};

/// Prints a line for each row, a table after another.
pub(crate) fn print_rows<R: Print + Alloc>(rt: &R, tables: &Tables) -> anyhow::Result<()> {
    print_items(rt, &tables.items)?;
    print_warehouses(rt, &tables.warehouses)?;
    print_stock(rt, &tables.stock)?;
    print_districts(rt, &tables.districts)?;
    print_customers(rt, &tables.customers, 1)?;
    print_orders(rt, &tables.orders, 1)?;
    print_lines(rt, &tables.lines)?;
    Ok(())
}

fn print_items<R: Print + Alloc>(rt: &R, table: &BTreeMap<u32, Item>) -> anyhow::Result<()> {
    for (item, row) in table.iter() {
        let price = row.price.amount();
        println!(rt; "item {item} {price}")?;
    }
    Ok(())
}

fn print_warehouses<R: Print + Alloc>(
    rt: &R,
    table: &BTreeMap<u32, Warehouse>,
) -> anyhow::Result<()> {
    for (warehouse, row) in table.iter() {
        let tax = row.tax.ten_thousandths();
        println!(rt; "warehouse {warehouse} {tax}")?;
    }
    Ok(())
}

fn print_stock<R: Print + Alloc>(rt: &R, table: &BTreeMap<StockKey, Stock>) -> anyhow::Result<()> {
    for (key, row) in table.iter() {
        let (warehouse, item) = (key.warehouse, key.item);
        let quantity = row.quantity;
        println!(rt; "stock {warehouse} {item} {quantity}")?;
    }
    Ok(())
}

fn print_districts<R: Print + Alloc>(
    rt: &R,
    table: &BTreeMap<DistrictKey, District>,
) -> anyhow::Result<()> {
    for (key, row) in table.iter() {
        let (warehouse, district) = (key.warehouse, key.district);
        let tax = row.tax.ten_thousandths();
        println!(rt; "district {warehouse} {district} {tax}")?;
    }
    Ok(())
}

/// Prints the rows of the customers from this number on.
pub(crate) fn print_customers<R: Print + Alloc>(
    rt: &R,
    table: &BTreeMap<CustomerKey, Customer>,
    first: u32,
) -> anyhow::Result<()> {
    for (key, row) in table.iter() {
        if key.customer < first {
            continue;
        }
        let (warehouse, district, customer) = (key.warehouse, key.district, key.customer);
        let (first_name, last_name) = (row.first_name, row.last_name);
        let discount = row.discount.ten_thousandths();
        let credit = match row.credit {
            Credit::Good => "GC",
            Credit::Bad => "BC",
        };
        print!(rt; "customer {warehouse} {district} {customer} ")?;
        println!(rt; "{first_name} {last_name} {discount} {credit}")?;
    }
    Ok(())
}

/// Prints the rows of the orders from this number on.
pub(crate) fn print_orders<R: Print + Alloc>(
    rt: &R,
    table: &BTreeMap<OrderKey, Order>,
    first: u32,
) -> anyhow::Result<()> {
    for (key, row) in table.iter() {
        if key.order < first {
            continue;
        }
        let (warehouse, district, order) = (key.warehouse, key.district, key.order);
        let (customer, count) = (row.customer, row.line_count);
        let carrier = row.carrier.unwrap_or(0);
        println!(rt; "order {warehouse} {district} {order} {customer} {carrier} {count}")?;
    }
    Ok(())
}

fn print_lines<R: Print + Alloc>(
    rt: &R,
    table: &BTreeMap<LineKey, OrderLine>,
) -> anyhow::Result<()> {
    for (key, row) in table.iter() {
        let (warehouse, district, order) = (key.warehouse, key.district, key.order);
        let (line, item) = (key.line, row.item);
        let amount = row.amount.amount();
        println!(rt; "line {warehouse} {district} {order} {line} {item} {amount}")?;
    }
    Ok(())
}
