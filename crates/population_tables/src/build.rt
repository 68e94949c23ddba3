//! Fills tables with the rows of a population, in ascending order of their keys.

ghost use Rattle.std.specs.Prelude.{◌≡◌, ◌+◌, IfOk, OnOk};
ghost use Rattle.std.specs.FinMap.{from_entries};
ghost use Rattle.tables.specs.Database.{database};
ghost use Rattle.population_tables.specs.Plain.{warehouse_payments, plain_history};
ghost use Rattle.population_tables.specs.First.{AreFirstTables, IsFit};
ghost use Rattle.population_tables.specs.Adds.{is, is_number, is_of, is_before, AddsItems, AddsStock, AddsDistricts};
ghost use Rattle.population_tables.specs.Adds.{AddsWarehouses, KeepsOtherTables};

use crate::district::add_district;
use crate::source::Source;
use std::alloc::{AllocError, Global};
use std::collections::BTreeMap;
use tables::{DistrictKey, Item, Scale, Stock, StockKey, Tables};

/// The tables of the source's population.
pub fn first_tables<S: Source>(
    alloc: Global,
    scale: Scale,
    source: &mut S,
) -> Result<Tables, AllocError>
    ensures rows { IfOk result (λ tables. AreFirstTables S.kind scale (database tables)) }
    ensures fit { IsFit scale }
{
    // These limits of a scale keep the tables well-formed and consistent and give them room.
    prove!(scale.districts() <= 10);
    prove!(scale.customers() >= 1);
    prove!(scale.customers() <= scale.orders());
    prove!(scale.items() >= 5);
    let mut tables = Tables::new(alloc, scale);
    add_items(&mut tables.items, source, scale)?;
    let payments = scale.warehouses() * scale.districts() * scale.customers();
    tables.history.reserve(payments as usize)?;
    add_warehouses(alloc, &mut tables, source, scale)?;
    Ok(tables)
}

/// A row for each item.
fn add_items<S: Source>(
    table: &mut BTreeMap<u32, Item>,
    source: &mut S,
    scale: Scale,
) -> Result<(), AllocError>
    ensures { OnOk result (AddsItems S.kind (is_number scale.items)
        (from_entries table.old.entries) (from_entries table.new.entries)) }
{
    for item in 1..=scale.items() {
        table.insert(item, source.item(item))?;
    }
    Ok(())
}

/// The rows of every warehouse, of its stock and of its districts.
fn add_warehouses<S: Source>(
    alloc: Global,
    tables: &mut Tables,
    source: &mut S,
    scale: Scale,
) -> Result<(), AllocError>
    ensures { OnOk result (AddsWarehouses S.kind scale (is_number scale.warehouses)
        (is_before scale (scale.warehouses + 1)) (plain_history scale) (database tables.old) (database tables.new)) }
{
    for warehouse in 1..=scale.warehouses() {
        add_warehouse(alloc, tables, source, scale, warehouse)?;
    }
    Ok(())
}

/// The rows of a warehouse, of its stock and of its districts.
fn add_warehouse<S: Source>(
    alloc: Global,
    tables: &mut Tables,
    source: &mut S,
    scale: Scale,
    warehouse: u32,
) -> Result<(), AllocError>
    ensures { OnOk result (AddsWarehouses S.kind scale (is warehouse) (is_of scale warehouse)
        (warehouse_payments scale warehouse) (database tables.old) (database tables.new)) }
{
    tables
        .warehouses
        .insert(warehouse, source.warehouse(scale))?;
    add_stock(&mut tables.stock, source, scale, warehouse)?;
    add_districts(alloc, tables, source, scale, warehouse)?;
    Ok(())
}

/// A row for each item of a warehouse.
fn add_stock<S: Source>(
    table: &mut BTreeMap<StockKey, Stock>,
    source: &mut S,
    scale: Scale,
    warehouse: u32,
) -> Result<(), AllocError>
    ensures { OnOk result (AddsStock S.kind (is warehouse) (is_number scale.items)
        (from_entries table.old.entries) (from_entries table.new.entries)) }
{
    for item in 1..=scale.items() {
        let key = StockKey { warehouse, item };
        table.insert(key, source.stock())?;
    }
    Ok(())
}

/// The rows of the districts of a warehouse.
fn add_districts<S: Source>(
    alloc: Global,
    tables: &mut Tables,
    source: &mut S,
    scale: Scale,
    warehouse: u32,
) -> Result<(), AllocError>
    ensures districts { OnOk result (AddsDistricts S.kind scale (is_of scale warehouse)
        (warehouse_payments scale warehouse) (database tables.old) (database tables.new)) }
    ensures others { OnOk result (KeepsOtherTables (database tables.old) (database tables.new)) }
{
    for district in 1..=scale.districts() {
        let key = DistrictKey {
            warehouse,
            district,
        };
        add_district(alloc, tables, source, scale, key)?;
    }
    Ok(())
}
