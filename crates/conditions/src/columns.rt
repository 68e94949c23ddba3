//! Columns of the row of a key, as the conditions ask for them.

ghost use Rattle.std.specs.Prelude.{◌≡◌, pos, is_none, true};
ghost use Rattle.std.specs.Option.{option_map_or};
ghost use Rattle.std.specs.BTreeMap.{is_at};
ghost use Rattle.std.specs.Map.{lookup};
ghost use Rattle.tables.specs.Keys.{customer_cmp, order_cmp};
ghost use Rattle.tables.specs.Maps.{column};
ghost use Rattle.tables.specs.Database.{database};
ghost use Rattle.tables.specs.OrderNumbers.{next_order as next_order_at};

use conditions_walks::Walk;
use money::Cents;
use tables::{Customer, CustomerKey, DistrictKey, Order, OrderKey, Tables};

/// W_YTD, or 0 where the row is missing.
pub fn warehouse_year_to_date(tables: &Tables, warehouse: &u32) -> Cents
    ensures { result ≡ column (λ r. r.year_to_date) (database tables.now).warehouses warehouse.now }
{
    match tables.warehouses.get(warehouse) {
        Some(row) => row.year_to_date,
        None => Cents::new(0),
    }
}

/// D_YTD, or 0 where the row is missing.
pub fn district_year_to_date(tables: &Tables, key: &DistrictKey) -> Cents
    ensures { result ≡ column (λ r. r.year_to_date) (database tables.now).districts key.now }
{
    match tables.districts.get(key) {
        Some(row) => row.year_to_date,
        None => Cents::new(0),
    }
}

/// D_NEXT_O_ID, or 0 where the row is missing.
pub fn next_order(tables: &Tables, key: &DistrictKey) -> u32
    ensures { result ≡ next_order_at (database tables.now) key.now }
{
    match tables.districts.get(key) {
        Some(row) => row.next_order,
        None => 0,
    }
}

/// C_BALANCE, or 0 where the row is missing.
pub fn balance(customers: &mut Walk<'_, CustomerKey, Customer>, key: &CustomerKey) -> Cents
    ensures stays { customers.new ≡ customers.old }
    ensures cents { result ≡ option_map_or (λ r. r.balance)
        (lookup (is_at (customer_cmp key.now)) customers.old) (pos 0) }
{
    match customers.get(key) {
        Some(row) => row.balance,
        None => Cents::new(0),
    }
}

/// C_YTD_PAYMENT, or 0 where the row is missing.
pub fn paid(customers: &mut Walk<'_, CustomerKey, Customer>, key: &CustomerKey) -> Cents
    ensures stays { customers.new ≡ customers.old }
    ensures cents { result ≡ option_map_or (λ r. r.paid)
        (lookup (is_at (customer_cmp key.now)) customers.old) (pos 0) }
{
    match customers.get(key) {
        Some(row) => row.paid,
        None => Cents::new(0),
    }
}

/// Whether O_CARRIER_ID is null, as it counts where the row is missing.
pub fn is_without_carrier(orders: &mut Walk<'_, OrderKey, Order>, key: &OrderKey) -> bool
    ensures stays { orders.new ≡ orders.old }
    ensures answer { result ≡ option_map_or (λ order. is_none order.carrier)
        (lookup (is_at (order_cmp key.now)) orders.old) true }
{
    match orders.get(key) {
        Some(order) => order.carrier.is_none(),
        None => true,
    }
}
