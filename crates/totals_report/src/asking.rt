//! What a report notes when it asks a record.

ghost use Rattle.std.specs.Prelude.{◌≡◌, ◌+◌, ◌<◌, Some, length};
ghost use Rattle.readset.specs.Cells.{AreCellsOf};
ghost use Rattle.tables.specs.Keys.{IsWarehouseKey, IsDistrictKey, IsCustomerKey, IsOrderKey, IsLineKey, order_of};
ghost use Rattle.tables.specs.Records.{narrow_count, key_of, number_of_key};
ghost use Rattle.tables.specs.Rows.{row_at};
ghost use Rattle.tables.specs.Database.{Database};
ghost use Rattle.tables.specs.declared.records.RecordKey.TheVariants as record_key;
ghost use Rattle.totals.specs.Counts.{AreHeld};
ghost use Rattle.totals_report.specs.Told.{HasTotals};
ghost use Rattle.totals_report.specs.Found.{first_noted, IsFound};

use crate::holding::{
    condition_1, condition_2, condition_3, condition_4, condition_5, condition_6, condition_7,
    condition_8, condition_9, condition_10, condition_12,
};
use cells::{Cells, Pen};
use conditions::Report;
use money::Payload;
use tables::{
    CustomerKey, DistrictKey, LineKey, OrderKey, RecordKey, Scale, key_of, number_of_key,
};
use totals::RunningSums;
use totals_bounds::OrderBounds;

/// Asks the record of a number, where those below it were asked.
pub fn ask(
    report: &mut Report,
    scale: &Scale,
    cells: &Cells,
    pen: &mut Pen,
    sums: &RunningSums,
    bounds: &OrderBounds,
    number: u32,
)
    requires sums { sums.now.scale ≡ scale.now }
    requires bounds { bounds.now.scale ≡ scale.now }
    requires own { pen.old.cells ≡ cells.now }
    requires count { AreCellsOf scale.now cells.now }
    requires number { number < narrow_count scale.now }
    ensures pen { pen.new ≡ pen.old }
    ensures found { (t : Database) → HasTotals sums.now bounds.now t → AreHeld pen.old t → IsFound t number report.old
        → IsFound t (number + 1) report.new }
{
    let Some(words) = cells.held(pen, number) else {
        return;
    };
    match key_of(scale, number) {
        RecordKey::Warehouse(warehouse) => {
            ask_warehouse(report, sums, bounds, warehouse, &words);
        }
        RecordKey::District(key) => ask_district(report, sums, bounds, key, &words),
        RecordKey::Customer(key) => ask_customer(report, sums, bounds, key, &words),
        RecordKey::Order(key) => {
            let number = number_of_key(scale, RecordKey::NewOrder(key));
            let new_order = cells.held(pen, number);
            ask_order(report, sums, bounds, key, &words, &new_order);
        }
        RecordKey::OrderLine(key) => {
            let number = number_of_key(scale, RecordKey::Order(key.order_key()));
            let order = cells.held(pen, number);
            ask_line(report, sums, bounds, key, &words, &order);
        }
        RecordKey::NewOrder(_)
        | RecordKey::Stock(_)
        | RecordKey::Oldest(_)
        | RecordKey::Last(_)
        | RecordKey::CustomerData(_) => {}
    }
}

/// Asks the record of a warehouse.
fn ask_warehouse(
    report: &mut Report,
    sums: &RunningSums,
    bounds: &OrderBounds,
    warehouse: u32,
    words: &Payload,
)
    requires { IsWarehouseKey sums.now.scale warehouse }
    ensures { (t : Database) → HasTotals sums.now bounds.now t
        → row_at t (record_key.Warehouse warehouse) ≡ Some words.now
        → IsFound t (number_of_key t.scale (record_key.Warehouse warehouse)) report.old
        → IsFound t (number_of_key t.scale (record_key.Warehouse warehouse) + 1) report.new }
{
    note(
        &mut report.condition_1,
        warehouse,
        condition_1(sums, warehouse, words),
    );
    note(
        &mut report.condition_8,
        warehouse,
        condition_8(sums, warehouse, words),
    );
}

/// Asks the record of a district.
fn ask_district(
    report: &mut Report,
    sums: &RunningSums,
    bounds: &OrderBounds,
    key: DistrictKey,
    words: &Payload,
)
    requires sums { IsDistrictKey sums.now.scale key }
    requires bounds { IsDistrictKey bounds.now.scale key }
    ensures { (t : Database) → HasTotals sums.now bounds.now t → row_at t (record_key.District key) ≡ Some words.now
        → IsFound t (number_of_key t.scale (record_key.District key)) report.old
        → IsFound t (number_of_key t.scale (record_key.District key) + 1) report.new }
{
    note(
        &mut report.condition_2,
        key,
        condition_2(sums, bounds, key, words),
    );
    note(&mut report.condition_3, key, condition_3(sums, bounds, key));
    note(&mut report.condition_4, key, condition_4(sums, key));
    note(&mut report.condition_9, key, condition_9(sums, key, words));
}

/// Asks the record of a customer.
fn ask_customer(
    report: &mut Report,
    sums: &RunningSums,
    bounds: &OrderBounds,
    key: CustomerKey,
    words: &Payload,
)
    requires { IsCustomerKey sums.now.scale key }
    ensures { (t : Database) → HasTotals sums.now bounds.now t → row_at t (record_key.Customer key) ≡ Some words.now
        → IsFound t (number_of_key t.scale (record_key.Customer key)) report.old
        → IsFound t (number_of_key t.scale (record_key.Customer key) + 1) report.new }
{
    note(
        &mut report.condition_10,
        key,
        condition_10(sums, key, words),
    );
    note(
        &mut report.condition_12,
        key,
        condition_12(sums, key, words),
    );
}

/// Asks the record of an order, beside that of its NEW-ORDER row.
fn ask_order(
    report: &mut Report,
    sums: &RunningSums,
    bounds: &OrderBounds,
    key: OrderKey,
    words: &Payload,
    new_order: &Option<Payload>,
)
    requires { IsOrderKey sums.now.scale key }
    ensures { (t : Database) → HasTotals sums.now bounds.now t → row_at t (record_key.Order key) ≡ Some words.now
        → row_at t (record_key.NewOrder key) ≡ new_order.now
        → IsFound t (number_of_key t.scale (record_key.Order key)) report.old
        → IsFound t (number_of_key t.scale (record_key.Order key) + 1) report.new }
{
    note(&mut report.condition_5, key, condition_5(words, new_order));
    note(&mut report.condition_6, key, condition_6(sums, key, words));
}

/// Asks the record of a line, beside that of its order.
fn ask_line(
    report: &mut Report,
    sums: &RunningSums,
    bounds: &OrderBounds,
    key: LineKey,
    words: &Payload,
    order: &Option<Payload>,
)
    requires { IsLineKey sums.now.scale key }
    ensures { (t : Database) → HasTotals sums.now bounds.now t → row_at t (record_key.OrderLine key) ≡ Some words.now
        → row_at t (record_key.Order (order_of key)) ≡ order.now
        → IsFound t (number_of_key t.scale (record_key.OrderLine key)) report.old
        → IsFound t (number_of_key t.scale (record_key.OrderLine key) + 1) report.new }
{
    note(&mut report.condition_7, key, condition_7(words, order));
}

/// Notes a key that breaks a condition, where none was noted.
fn note<K: Copy>(found: &mut Option<K>, key: K, holds: bool)
    ensures { found.new ≡ first_noted found.old key holds }
{
    if found.is_none() && !holds {
        *found = Some(key);
    }
}
