//! The order that a Delivery takes in a district, on record cells (TPC-C 2.7.4.2).
ghost use Rattle.std.specs.Prelude.{◌≡◌, ◌-◌, ◌≤◌, ◌≤ℤ◌, pos, IsSome, IfOk, IfErr, OnOk};
ghost use Rattle.std.specs.FinMap.{get};
ghost use Rattle.tables.specs.Sizes.{IsNumber};
ghost use Rattle.tables.specs.Keys.{IsOrderKey, IsCustomerKey};
ghost use Rattle.tables.specs.Records.{number_of_key};
ghost use Rattle.tables.specs.Delivery.{IsDelivery};
ghost use Rattle.tables.specs.declared.records.RecordKey.TheVariants as key_variants;
ghost use Rattle.tables.specs.declared.limits.TheConstants.{MAX_MONEY_STEP, MAX_ORDER_LINES};
ghost use Rattle.money.specs.declared.refusal.Refusal.TheVariants.{OutOfMemory};
ghost use Rattle.readset.specs.Reads.{held};
ghost use Rattle.readset.specs.Changes.{puts_all};
ghost use Rattle.readset.specs.Transaction.{AtAll, Finds, GoesOn, IsStepRefusal, ReadsMore};
ghost use Rattle.delivery.specs.Steps.{AreDone};
ghost use Rattle.rows.specs.Columns.{AreCustomerColumns};
ghost use Rattle.delivery.specs.Ending.{Waits, IsCredited, buyer_of, credited_columns, ending_changes};

use crate::lines::date_lines;
use money::{Cents, Refusal};
use readset::{Start, Transaction, put_row, read_present, read_row};
use rows::CustomerColumns;
use std::sync::Wait;
use tables::{CustomerKey, DeliveryInput, Order, OrderKey, RecordKey};

/// Takes the order of this key, which waits longest in its district: reads its ORDER record, its lines and its
/// customer's, and says what these and its NEW-ORDER record are to hold. Costs at most seventeen loads and some forty
/// look-ups.
///
/// # Errors
///
/// `Stale` only where no tables at which the transaction may have read have the versions read; `OutOfMemory`.
pub(crate) fn deliver_order<R: Wait, K: Start>(
    rt: &R,
    transaction: &mut Transaction<'_, K>,
    delivery: &DeliveryInput,
    key: OrderKey,
) -> Result<(), Refusal>
    requires input { IsDelivery K.tables.scale delivery.now }
    requires key { IsOrderKey K.tables.scale key }
    requires home { key.warehouse ≡ delivery.now.warehouse }
    requires holds_new_order { IsSome (held transaction.old.reads
        (number_of_key K.tables.scale (key_variants.NewOrder key))) }
    requires waits { AtAll K.tables transaction.old (λ t. Waits t delivery.now (key.district - 1) key.order) }
    requires done { AreDone K.tables delivery.now (key.district - 1) 0 transaction.old }
    ensures done { OnOk result
        (AreDone K.tables delivery.now key.district 0 transaction.new) }
    ensures refused { IfErr result (IsStepRefusal K.tables transaction.new) }
    ensures goes_on { GoesOn 17 18 transaction.old transaction.new }
{
    let order = read_order(rt, transaction, key)?;
    let sum = date_lines(rt, transaction, delivery, key, order.line_count)?;
    let buyer = key.district_key().customer_key(order.customer);
    let customer = credit_buyer(rt, transaction, buyer, sum)?;
    end_order(transaction, delivery, key, &order, &customer)
}

/// Reads the order's row, which an order that waits has.
fn read_order<R: Wait, K: Start>(
    rt: &R,
    transaction: &mut Transaction<'_, K>,
    key: OrderKey,
) -> Result<Order, Refusal>
    requires key { IsOrderKey K.tables.scale key }
    requires there { AtAll K.tables transaction.old (λ t. IsSome (get t.orders key)) }
    ensures order { Finds K.tables transaction.new result (λ order t. get t.orders key ≡ Some order) }
    ensures range { IfOk result (λ order. IsNumber K.tables.scale.customers order.customer
        × (order.line_count ≤ MAX_ORDER_LINES)) }
    ensures holds { OnOk result
        (IsSome (held transaction.new.reads (number_of_key K.tables.scale (key_variants.Order key)))) }
    ensures reads { ReadsMore 1 transaction.old transaction.new }
{
    let order: Option<Order> = read_row(rt, transaction, key)?;
    match order {
        Some(order) => Ok(order),
        None => Err(Refusal::Stale),
    }
}

/// Reads the customer's row, and gives it with C_BALANCE raised by this sum and C_DELIVERY_CNT by 1.
fn credit_buyer<R: Wait, K: Start>(
    rt: &R,
    transaction: &mut Transaction<'_, K>,
    buyer: CustomerKey,
    sum: Cents,
) -> Result<CustomerColumns, Refusal>
    requires buyer { IsCustomerKey K.tables.scale buyer }
    requires low { pos 0 ≤ℤ sum }
    requires high { sum ≤ℤ pos MAX_MONEY_STEP }
    ensures credited { Finds K.tables transaction.new result (IsCredited buyer sum) }
    ensures holds { OnOk result
        (IsSome (held transaction.new.reads (number_of_key K.tables.scale (key_variants.Customer buyer)))) }
    ensures reads { ReadsMore 1 transaction.old transaction.new }
{
    let customer = read_present(rt, transaction, buyer)?;
    Ok(credited(&customer, sum))
}

/// C_BALANCE raised by an order's sum, and C_DELIVERY_CNT by 1.
fn credited(customer: &CustomerColumns, sum: Cents) -> CustomerColumns
    requires range { AreCustomerColumns customer.now }
    requires low { pos 0 ≤ℤ sum }
    requires high { sum ≤ℤ pos MAX_MONEY_STEP }
    ensures { result ≡ credited_columns sum customer.now }
{
    CustomerColumns {
        balance: customer.balance + sum,
        deliveries: customer.deliveries + 1,
        ..*customer
    }
}

/// Says what the records at a district's end are to hold: no NEW-ORDER row, the order with its carrier, and the
/// customer's row.
fn end_order<K: Start>(
    transaction: &mut Transaction<'_, K>,
    delivery: &DeliveryInput,
    key: OrderKey,
    order: &Order,
    customer: &CustomerColumns,
) -> Result<(), Refusal>
    requires key { IsOrderKey K.tables.scale key }
    requires customer { IsNumber K.tables.scale.customers order.now.customer }
    requires holds_new_order { IsSome (held transaction.old.reads
        (number_of_key K.tables.scale (key_variants.NewOrder key))) }
    requires holds_order { IsSome (held transaction.old.reads (number_of_key K.tables.scale (key_variants.Order key))) }
    requires holds_buyer { IsSome
        (held transaction.old.reads (number_of_key K.tables.scale (key_variants.Customer (buyer_of key order.now)))) }
    ensures written { OnOk result (transaction.new.writes
        ≡ puts_all K.tables.scale transaction.old.writes (ending_changes delivery.now key order.now customer.now)) }
    ensures reads { transaction.new.reads ≡ transaction.old.reads }
    ensures goes_on { GoesOn 0 3 transaction.old transaction.new }
    ensures only_memory { IfErr result (λ refusal. refusal ≡ OutOfMemory) }
{
    let home = key.district_key();
    let carried = Order {
        carrier: Some(delivery.carrier),
        ..*order
    };
    transaction.put(RecordKey::NewOrder(key), None)?;
    put_row(transaction, key, &carried)?;
    put_row(transaction, home.customer_key(order.customer), customer)
}
