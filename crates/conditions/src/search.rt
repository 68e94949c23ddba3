//! The least key that breaks a condition.

ghost use Rattle.std.specs.Prelude.{◌≡◌, IsSome};
ghost use Rattle.std.specs.Option.{ForSome};
ghost use Rattle.std.specs.Ordering.{nat_cmp};
ghost use Rattle.std.specs.BTreeMap as tree;
ghost use Rattle.std.specs.FinMap.{IsAntisymmetric};
ghost use Rattle.tables.specs.Keys.{district_cmp, customer_cmp, IsWarehouseKey, IsDistrictKey, IsCustomerKey};
ghost use Rattle.tables.specs.Database.{database};
ghost use Rattle.conditions.specs.Finds.{FindsLeast};
ghost use Rattle.conditions.specs.Sums.{AreSumsOf};
ghost use Rattle.conditions.specs.CustomerWalks.{AreWalksOf};
ghost use Rattle.conditions.specs.Steps.{FindsDistrictOf, FindsCustomerOf};

use crate::customer_conditions::CustomerCondition;
use crate::customer_walks::CustomerWalks;
use crate::key_conditions::Condition;
use crate::row_conditions::RowCondition;
use crate::sums::Sums;
use std::collections::BTreeMap;
use tables::{CustomerKey, DistrictKey, Tables};

/// The least warehouse that breaks the condition.
pub fn least_warehouse<C: Condition<u32>>(tables: &Tables, sums: &Sums) -> Option<u32>
    requires { AreSumsOf (database tables.now) sums.now }
    ensures { FindsLeast nat_cmp (IsWarehouseKey (database tables.now).scale) (C.holds_at (database tables.now))
        result }
{
    for warehouse in 1..=tables.scale.warehouses() {
        if !C::holds(tables, sums, &warehouse) {
            return Some(warehouse);
        }
    }
    None
}

/// The least district that breaks the condition.
pub fn least_district<C: Condition<DistrictKey>>(
    tables: &Tables,
    sums: &Sums,
) -> Option<DistrictKey>
    requires { AreSumsOf (database tables.now) sums.now }
    ensures { FindsLeast district_cmp (IsDistrictKey (database tables.now).scale) (C.holds_at (database tables.now))
        result }
{
    for warehouse in 1..=tables.scale.warehouses() {
        if let Some(key) = least_district_of::<C>(tables, sums, warehouse) {
            return Some(key);
        }
    }
    None
}

/// The least district of a warehouse that breaks the condition.
fn least_district_of<C: Condition<DistrictKey>>(
    tables: &Tables,
    sums: &Sums,
    warehouse: u32,
) -> Option<DistrictKey>
    requires { AreSumsOf (database tables.now) sums.now }
    ensures { FindsDistrictOf warehouse tables.now.scale.districts (C.holds_at (database tables.now)) result }
{
    for district in 1..=tables.scale.districts() {
        let key = DistrictKey {
            warehouse,
            district,
        };
        if !C::holds(tables, sums, &key) {
            return Some(key);
        }
    }
    None
}

/// The least customer that breaks the condition.
pub fn least_customer<C: CustomerCondition>(tables: &Tables, sums: &Sums) -> Option<CustomerKey>
    requires { AreSumsOf (database tables.now) sums.now }
    ensures { FindsLeast customer_cmp (IsCustomerKey (database tables.now).scale) (C.holds_at (database tables.now))
        result }
{
    let mut walks = CustomerWalks::new(tables, sums);
    for warehouse in 1..=tables.scale.warehouses() {
        for district in 1..=tables.scale.districts() {
            if let Some(key) = least_customer_of::<C>(
                tables, sums, &mut walks, warehouse, district,
            ) {
                return Some(key);
            }
        }
    }
    None
}

/// The least customer of a district that breaks the condition.
fn least_customer_of<C: CustomerCondition>(
    tables: &Tables,
    sums: &Sums,
    walks: &mut CustomerWalks<'_>,
    warehouse: u32,
    district: u32,
) -> Option<CustomerKey>
    requires sums { AreSumsOf (database tables.now) sums.now }
    requires walks { AreWalksOf tables.now sums.now walks.old }
    ensures walks { AreWalksOf tables.now sums.now walks.new }
    ensures finds { FindsCustomerOf warehouse district tables.now.scale.customers
        (C.holds_at (database tables.now)) result }
{
    for customer in 1..=tables.scale.customers() {
        let key = CustomerKey {
            warehouse,
            district,
            customer,
        };
        if !C::holds(tables, sums, walks, &key) {
            return Some(key);
        }
    }
    None
}

/// The least key of a table whose row breaks the condition.
pub fn least_row<K: Ord + Copy, X, C: RowCondition<K, X>>(
    condition: &mut C,
    rows: &BTreeMap<K, X>,
) -> Option<K>
    requires { IsAntisymmetric K.cmp }
    ensures { FindsLeast K.cmp (λ k. IsSome (tree.get K.cmp rows.now k))
        (λ k. ForSome (tree.get K.cmp rows.now k) (C.holds_of condition.old k)) result }
{
    for (key, row) in rows.iter() {
        if !condition.holds(key, row) {
            return Some(*key);
        }
    }
    None
}
