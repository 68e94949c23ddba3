//! Tables from the newest writes of their records.
ghost use Rattle.std.specs.Prelude.{◌≡◌, ℕ, Some, IfOk, OnOk, length};
ghost use Rattle.tables.specs.Database.{Database, database};
ghost use Rattle.tables.specs.Records.{record_count as count_of_records, key_of as key_of_number};
ghost use Rattle.log_text.specs.Writes.{words_of_value};
ghost use Rattle.tables.specs.Rows.{rows};
ghost use Rattle.tables.specs.Sizes.{IsScale};
ghost use Rattle.tables.specs.WellFormed.{IsWellFormed};
ghost use Rattle.encoding.specs.Held.{by_key, AreTables};
ghost use Rattle.encoding.specs.Puts.{Puts};
ghost use Rattle.recover_newest.specs.Known.{known};
ghost use Rattle.recover_newest.specs.Putting.{MayPut, left_in};
ghost use Rattle.recover_newest.specs.declared.latest.Latest.{Latest};

use crate::newest::Newest;
use customer_data::words_of;
use encoding::{put, put_text, take_out};
use log_text::Value;
use std::alloc::{AllocError, Global};
use tables::{RecordKey, Tables, key_of, record_count};

/// A copy of tables. Costs their memory, and a pass over their rows.
pub fn copied(alloc: Global, tables: &Tables) -> Result<Tables, AllocError>
    ensures { IfOk result (λ copy. database copy ≡ database tables.now) }
{
    let mut history = Vec::new(alloc);
    history.extend_from_slice(&tables.history)?;
    Ok(Tables {
        scale: tables.scale,
        warehouses: tables.warehouses.clone()?,
        districts: tables.districts.clone()?,
        customers: tables.customers.clone()?,
        texts: tables.texts.clone()?,
        history,
        new_orders: tables.new_orders.clone()?,
        orders: tables.orders.clone()?,
        lines: tables.lines.clone()?,
        items: tables.items.clone()?,
        stock: tables.stock.clone()?,
    })
}

/// Puts what records were left with into the tables that a population's have become, in the order of their numbers. One
/// pass over the records, and a look-up and an insert for each that was written.
pub fn put_all(
    alloc: Global,
    tables: &mut Tables,
    population: &Tables,
    newest: &Newest,
) -> Result<(), AllocError>
    requires population { IsWellFormed (database population.now) }
    requires lawful { IsScale (database population.now).scale }
    requires records { length newest.now.places ≡ count_of_records (database population.now).scale }
    requires writes { (n : ℕ) (w : Latest) → known newest.now n ≡ Some w
        → MayPut (database population.now).scale n w.value }
    requires tables { AreTables (database population.now) (by_key (database population.now).scale
        (rows (database population.now))) (database tables.old) }
    ensures tables { OnOk result (AreTables (database population.now) (by_key (database population.now).scale
        (λ n. left_in (known newest.now n) (rows (database population.now) n))) (database tables.new)) }
    ensures history { OnOk result ((database tables.new).history ≡ (database tables.old).history) }
{
    for number in 0..record_count(&population.scale) {
        if let Some(write) = newest.get(number as usize) {
            put_one(alloc, tables, population, number, &write.value)?;
        }
    }
    Ok(())
}

/// Puts what a record was left with, which only a NEW-ORDER row may lack.
fn put_one(
    alloc: Global,
    tables: &mut Tables,
    population: &Tables,
    number: u32,
    value: &Value,
) -> Result<(), AllocError>
    requires population { IsWellFormed (database population.now) }
    requires lawful { IsScale (database population.now).scale }
    requires value { MayPut (database population.now).scale number value.now }
    ensures { OnOk result (Puts (database population.now) (key_of_number (database population.now).scale number)
        (words_of_value value.now) (database tables.old) (database tables.new)) }
{
    let key = key_of(&population.scale, number);
    match value {
        Value::Columns(words) => put(tables, population, key, words)?,
        Value::Text(text) => {
            if let RecordKey::CustomerData(customer) = key {
                put_text(alloc, tables, customer, &words_of(text.as_bytes()))?;
            }
        }
        Value::Absent => {
            if let RecordKey::NewOrder(order) = key {
                take_out(tables, order);
            }
        }
    }
    Ok(())
}
