//! The rows of one district: its customers and their payments, and its orders with their lines.

ghost use Rattle.std.specs.Prelude.{◌≡◌, ◌+◌, ◌++◌, length, All, IfOk, OnOk};
ghost use Rattle.std.specs.FinMap.{from_entries};
ghost use Rattle.tables.specs.Sizes.{IsNumber, IsBetween};
ghost use Rattle.tables.specs.Database.{database};
ghost use Rattle.tables.specs.declared.limits.TheConstants.{MIN_ORDER_LINES, MAX_ORDER_LINES};
ghost use Rattle.population_tables.specs.Plain.{delivered_orders, district_payments};
ghost use Rattle.population_tables.specs.Adds.{is_in, is_number, is_at, is_order_at, is_order_in};
ghost use Rattle.population_tables.specs.Adds.{AddsCustomers, AddsTexts, AddsOrders};
ghost use Rattle.population_tables.specs.Adds.{AddsNewOrders, AddsLines, AddsDistricts, KeepsOtherTables, is_line_in};

use crate::plain::{delivered, history_row};
use crate::source::Source;
use customer_data::CustomerData;
use std::alloc::{AllocError, Global};
use std::collections::BTreeMap;
use tables::{
    Customer, CustomerKey, DistrictKey, History, LineKey, NewOrder, Order, OrderKey, OrderLine,
    Scale, Tables,
};

/// The rows of a district.
pub fn add_district<S: Source>(
    alloc: Global,
    tables: &mut Tables,
    source: &mut S,
    scale: Scale,
    key: DistrictKey,
) -> Result<(), AllocError>
    ensures district { OnOk result (AddsDistricts S.kind scale (is_at key.warehouse key.district)
        (district_payments scale key.warehouse key.district) (database tables.old) (database tables.new)) }
    ensures others { OnOk result (KeepsOtherTables (database tables.old) (database tables.new)) }
{
    tables.districts.insert(key, source.district(scale))?;
    add_customers(&mut tables.customers, source, scale, key)?;
    add_texts(alloc, &mut tables.texts, scale, key)?;
    add_payments(&mut tables.history, scale, key)?;
    let mut customers = customer_numbers(alloc, scale)?;
    let listed = customers.as_mut_slice();
    add_arranged_orders(
        &mut tables.orders,
        &mut tables.lines,
        source,
        scale,
        key,
        listed,
    )?;
    add_new_orders(&mut tables.new_orders, scale, key)?;
    Ok(())
}

/// The customers of a district.
fn add_customers<S: Source>(
    table: &mut BTreeMap<CustomerKey, Customer>,
    source: &mut S,
    scale: Scale,
    of: DistrictKey,
) -> Result<(), AllocError>
    ensures { OnOk result (AddsCustomers S.kind (is_at of.warehouse of.district) (is_number scale.customers)
        (from_entries table.old.entries) (from_entries table.new.entries)) }
{
    for customer in 1..=scale.customers() {
        let key = CustomerKey {
            warehouse: of.warehouse,
            district: of.district,
            customer,
        };
        table.insert(key, source.customer(customer))?;
    }
    Ok(())
}

/// C_DATA of the customers of a district, each the same.
fn add_texts(
    alloc: Global,
    table: &mut BTreeMap<CustomerKey, CustomerData>,
    scale: Scale,
    of: DistrictKey,
) -> Result<(), AllocError>
    ensures { OnOk result (AddsTexts (is_at of.warehouse of.district) (is_number scale.customers)
        (from_entries table.old.entries) (from_entries table.new.entries)) }
{
    for customer in 1..=scale.customers() {
        let key = CustomerKey {
            warehouse: of.warehouse,
            district: of.district,
            customer,
        };
        table.insert(key, CustomerData::first(alloc))?;
    }
    Ok(())
}

/// A payment by each customer of a district, in the order of their numbers.
fn add_payments(table: &mut Vec<History>, scale: Scale, of: DistrictKey) -> Result<(), AllocError>
    ensures { OnOk result (table.new.items
        ≡ table.old.items ++ district_payments scale of.warehouse of.district) }
{
    for payer in 1..=scale.customers() {
        table.push(history_row(of.warehouse, of.district, payer))?;
    }
    Ok(())
}

/// The numbers of a district's customers, from 1 on.
fn customer_numbers(alloc: Global, scale: Scale) -> Result<Vec<u32>, AllocError>
    ensures count { IfOk result (λ numbers. length numbers.items ≡ scale.customers) }
    ensures range { IfOk result (λ numbers. All (IsNumber scale.customers) numbers.items) }
{
    let mut numbers = Vec::new(alloc);
    numbers.reserve(scale.customers() as usize)?;
    for customer in 1..=scale.customers() {
        numbers.push(customer)?;
    }
    Ok(numbers)
}

/// An order of each customer of a district, in an order that the source gives.
fn add_arranged_orders<S: Source>(
    orders: &mut BTreeMap<OrderKey, Order>,
    lines: &mut BTreeMap<LineKey, OrderLine>,
    source: &mut S,
    scale: Scale,
    of: DistrictKey,
    customers: &mut [u32],
) -> Result<(), AllocError>
    requires count { length customers.old ≡ scale.customers }
    requires range { All (IsNumber scale.customers) customers.old }
    ensures { OnOk result (AddsOrders S.kind scale
        (is_order_in (is_at of.warehouse of.district) (is_number scale.customers))
        (from_entries orders.old.entries) (from_entries orders.new.entries)
        (from_entries lines.old.entries) (from_entries lines.new.entries)) }
{
    source.arrange(customers);
    add_orders(orders, lines, source, scale, of, customers)?;
    Ok(())
}

/// The orders of a district: each is of the customer who stands at its number.
fn add_orders<S: Source>(
    orders: &mut BTreeMap<OrderKey, Order>,
    lines: &mut BTreeMap<LineKey, OrderLine>,
    source: &mut S,
    scale: Scale,
    of: DistrictKey,
    customers: &[u32],
) -> Result<(), AllocError>
    requires count { length customers.now ≡ scale.customers }
    requires range { All (IsNumber scale.customers) customers.now }
    ensures { OnOk result (AddsOrders S.kind scale
        (is_order_in (is_at of.warehouse of.district) (is_number scale.customers))
        (from_entries orders.old.entries) (from_entries orders.new.entries)
        (from_entries lines.old.entries) (from_entries lines.new.entries)) }
{
    for order in 1..=scale.customers() {
        let key = OrderKey {
            warehouse: of.warehouse,
            district: of.district,
            order,
        };
        let customer = customers[order as usize - 1];
        add_order(orders, lines, source, scale, key, customer)?;
    }
    Ok(())
}

/// An order and its lines.
fn add_order<S: Source>(
    orders: &mut BTreeMap<OrderKey, Order>,
    lines: &mut BTreeMap<LineKey, OrderLine>,
    source: &mut S,
    scale: Scale,
    key: OrderKey,
    customer: u32,
) -> Result<(), AllocError>
    requires { IsNumber scale.customers customer }
    ensures { OnOk result (AddsOrders S.kind scale (is_order_at key)
        (from_entries orders.old.entries) (from_entries orders.new.entries)
        (from_entries lines.old.entries) (from_entries lines.new.entries)) }
{
    let order = source.order(scale, key.order, customer);
    let count = order.line_count;
    orders.insert(key, order)?;
    add_lines(lines, source, scale, key, count)?;
    Ok(())
}

/// The lines of an order.
fn add_lines<S: Source>(
    table: &mut BTreeMap<LineKey, OrderLine>,
    source: &mut S,
    scale: Scale,
    of: OrderKey,
    count: u32,
) -> Result<(), AllocError>
    requires { IsBetween MIN_ORDER_LINES MAX_ORDER_LINES count }
    ensures { OnOk result (AddsLines S.kind scale (is_order_at of) (is_line_in (is_number count))
        (from_entries table.old.entries) (from_entries table.new.entries)) }
{
    for line in 1..=count {
        let key = LineKey {
            warehouse: of.warehouse,
            district: of.district,
            order: of.order,
            line,
        };
        table.insert(key, source.line(scale, key))?;
    }
    Ok(())
}

/// The orders of a district that aren't delivered.
fn add_new_orders(
    table: &mut BTreeMap<OrderKey, NewOrder>,
    scale: Scale,
    of: DistrictKey,
) -> Result<(), AllocError>
    ensures { OnOk result (AddsNewOrders (is_at of.warehouse of.district)
        (is_in (delivered_orders scale + 1) (scale.customers + 1))
        (from_entries table.old.entries) (from_entries table.new.entries)) }
{
    for order in delivered(scale) + 1..=scale.customers() {
        let key = OrderKey {
            warehouse: of.warehouse,
            district: of.district,
            order,
        };
        table.insert(key, NewOrder)?;
    }
    Ok(())
}
