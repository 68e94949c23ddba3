//! The rates of customers, districts and warehouses: lists that are made once, since they never change.
ghost use Rattle.std.specs.Prelude.{◌≡◌, ◌↔◌, IsTrue, IfOk};
ghost use Rattle.tables.specs.Database.{database};
ghost use Rattle.tables.specs.Keys.{IsDistrictKey, IsCustomerKey};
ghost use Rattle.tables.specs.NewOrder.{discount, district_tax, warehouse_tax};
ghost use Rattle.population.specs.Rates.{discounts_of, district_taxes_of, warehouse_taxes_of};

use money::Rate;
use std::alloc::{AllocError, Global};
use tables::{
    CustomerKey, DistrictKey, Scale, Table, Tables, customer_at, district_at, is_between,
};

/// C_DISCOUNT of each customer of the scale, by place. Costs a look-up and 2 bytes a customer.
pub(crate) fn discounts(alloc: Global, tables: &Tables) -> Result<Vec<Rate>, AllocError>
    ensures { IfOk result (λ rates. rates.items ≡ discounts_of (database tables.now)) }
{
    let count = Table::Customer.size(&tables.scale);
    let mut rates = Vec::with_capacity(alloc, count as usize)?;
    for place in 0..count {
        let key = customer_at(&tables.scale, place);
        rates.push(discount_in(tables, key))?;
    }
    Ok(rates)
}

/// D_TAX of each district of the scale, by place. Costs a look-up and 2 bytes a district.
pub(crate) fn district_taxes(alloc: Global, tables: &Tables) -> Result<Vec<Rate>, AllocError>
    ensures { IfOk result (λ rates. rates.items ≡ district_taxes_of (database tables.now)) }
{
    let count = Table::District.size(&tables.scale);
    let mut rates = Vec::with_capacity(alloc, count as usize)?;
    for place in 0..count {
        let key = district_at(&tables.scale, place);
        rates.push(district_tax_in(tables, key))?;
    }
    Ok(rates)
}

/// W_TAX of each warehouse, from 1 on. Costs a look-up and 2 bytes a warehouse.
pub(crate) fn warehouse_taxes(alloc: Global, tables: &Tables) -> Result<Vec<Rate>, AllocError>
    ensures { IfOk result (λ rates. rates.items ≡ warehouse_taxes_of (database tables.now)) }
{
    let count = tables.scale.warehouses();
    let mut rates = Vec::with_capacity(alloc, count as usize)?;
    for done in 0..count {
        rates.push(warehouse_tax_in(tables, done + 1))?;
    }
    Ok(rates)
}

fn discount_in(tables: &Tables, key: CustomerKey) -> Rate
    ensures { result ≡ discount (database tables.now) key }
{
    match tables.customers.get(&key) {
        Some(row) => row.discount,
        None => no_rate(),
    }
}

fn district_tax_in(tables: &Tables, key: DistrictKey) -> Rate
    ensures { result ≡ district_tax (database tables.now) key }
{
    match tables.districts.get(&key) {
        Some(row) => row.tax,
        None => no_rate(),
    }
}

fn warehouse_tax_in(tables: &Tables, warehouse: u32) -> Rate
    ensures { result ≡ warehouse_tax (database tables.now) warehouse }
{
    match tables.warehouses.get(&warehouse) {
        Some(row) => row.tax,
        None => no_rate(),
    }
}

/// What a column of a row that isn't there counts as.
pub(crate) fn no_rate() -> Rate
    ensures { result ≡ 0 }
{
    match Rate::new(0) {
        Some(rate) => rate,
        None => unreachable!(),
    }
}

/// Whether the scale has the district.
pub(crate) fn has_district(scale: &Scale, key: DistrictKey) -> bool
    ensures { IsTrue result ↔ IsDistrictKey scale.now key }
{
    is_between(1, scale.warehouses(), key.warehouse)
        && is_between(1, scale.districts(), key.district)
}

/// Whether the scale has the customer.
pub(crate) fn has_customer(scale: &Scale, key: CustomerKey) -> bool
    ensures { IsTrue result ↔ IsCustomerKey scale.now key }
{
    is_between(1, scale.warehouses(), key.warehouse)
        && is_between(1, scale.districts(), key.district)
        && is_between(1, scale.customers(), key.customer)
}
