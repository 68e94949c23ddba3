//! The districts of a Delivery, on record cells (TPC-C 2.7.4.2).
ghost use Rattle.std.specs.Prelude.{◌≡◌, ◌+◌, ◌-◌, ◌*◌, ◌^◌, ◌<◌, ◌≤◌, All, IsSome, IfOk, IfErr, OnOk, length};
ghost use Rattle.std.specs.Option.{ForSome};
ghost use Rattle.tables.specs.Sizes.{IsNumber};
ghost use Rattle.tables.specs.Keys.{IsDistrictKey, order_key};
ghost use Rattle.tables.specs.Records.{number_of_key};
ghost use Rattle.tables.specs.Delivery.{IsDelivery, waiting};
ghost use Rattle.tables.specs.declared.limits.TheConstants.{MAX_DISTRICTS};
ghost use Rattle.tables.specs.declared.records.RecordKey.TheVariants as key_variants;
ghost use Rattle.readset.specs.Reads.{held};
ghost use Rattle.readset.specs.Explains.{HasOrderConditions};
ghost use Rattle.readset.specs.Transaction.{Finds, GoesOn, IsStepRefusal, ReadsMore};
ghost use Rattle.delivery.specs.Steps.{AreDone, AreOldestRead, AreTold};

use crate::order::deliver_order;
use money::Refusal;
use readset::{Start, Transaction, read_present};
use rows::Oldest;
use std::alloc::Global;
use std::sync::Wait;
use tables::{DeliveredOrder, DeliveryInput, DistrictKey, RecordKey};

/// Does all districts of the warehouse, from the first on, but for OLDEST, and gives the order taken in each. Costs
/// what each costs, and memory for the orders.
///
/// # Errors
///
/// `Stale` only where no tables at which the transaction may have read have the versions read; `OutOfMemory`.
pub(crate) fn deliver_districts<R: Wait, K: Start>(
    rt: &R,
    alloc: Global,
    transaction: &mut Transaction<'_, K>,
    delivery: &DeliveryInput,
) -> Result<Vec<DeliveredOrder>, Refusal>
    requires input { IsDelivery K.tables.scale delivery.now }
    requires done { AreDone K.tables delivery.now 0 0 transaction.old }
    ensures done { OnOk result
        (AreDone K.tables delivery.now K.tables.scale.districts 0 transaction.new) }
    ensures told { IfOk result (λ orders.
        AreTold K.tables delivery.now K.tables.scale.districts transaction.new orders.items) }
    ensures all { IfOk result (λ orders. length orders.items ≡ K.tables.scale.districts) }
    ensures range { IfOk result (λ orders. All (λ o. ForSome o.order (λ n. n + 1 < 2 ^ 32)) orders.items) }
    ensures oldest { OnOk result (AreOldestRead K.tables delivery.now K.tables.scale.districts transaction.new) }
    ensures refused { IfErr result (IsStepRefusal K.tables transaction.new) }
    ensures goes_on { GoesOn (19 * K.tables.scale.districts) (18 * K.tables.scale.districts) transaction.old
        transaction.new }
    ensures few { K.tables.scale.districts ≤ MAX_DISTRICTS }
{
    let districts = transaction.scale().districts();
    let mut orders = Vec::with_capacity(alloc, districts as usize)?;
    for done in 0..districts {
        let order = deliver_district(rt, transaction, delivery, done + 1)?;
        orders.push(order)?;
    }
    Ok(orders)
}

/// Does one district, but for OLDEST: takes the order that waits longest there, if one does. Costs at most nineteen
/// loads.
fn deliver_district<R: Wait, K: Start>(
    rt: &R,
    transaction: &mut Transaction<'_, K>,
    delivery: &DeliveryInput,
    district: u32,
) -> Result<DeliveredOrder, Refusal>
    requires input { IsDelivery K.tables.scale delivery.now }
    requires district { IsNumber K.tables.scale.districts district }
    requires done { AreDone K.tables delivery.now (district - 1) 0 transaction.old }
    ensures done { OnOk result (AreDone K.tables delivery.now district 0 transaction.new) }
    ensures told { Finds K.tables transaction.new result (λ o t. o ≡ record {
      district = district;
      order = waiting t (record { warehouse = delivery.now.warehouse; district = district });
    }) }
    ensures range { IfOk result (λ o. ForSome o.order (λ n. n + 1 < 2 ^ 32)) }
    ensures holds { OnOk result (IsSome (held transaction.new.reads (number_of_key K.tables.scale
        (key_variants.Oldest (record { warehouse = delivery.now.warehouse; district = district }))))) }
    ensures goes_on { GoesOn 19 18 transaction.old transaction.new }
{
    let home = delivery.district_key(district);
    let Some(number) = read_waiting(rt, transaction, home)? else {
        return Ok(DeliveredOrder {
            district,
            order: None,
        });
    };
    deliver_order(rt, transaction, delivery, home.order_key(number))?;
    Ok(DeliveredOrder {
        district,
        order: Some(number),
    })
}

/// Reads a district's OLDEST and the NEW-ORDER record of that number, and says which order waits longest there, if one
/// does: that one, where it has its row. A number above the order cap, which OLDEST may have, has no record.
fn read_waiting<R: Wait, K: Start>(
    rt: &R,
    transaction: &mut Transaction<'_, K>,
    home: DistrictKey,
) -> Result<Option<u32>, Refusal>
    requires { IsDistrictKey K.tables.scale home }
    ensures waits { Finds K.tables transaction.new result
        (λ order t. (waiting t home ≡ order) × HasOrderConditions t home) }
    ensures number { IfOk result (λ order. ForSome order (λ o.
        IsNumber K.tables.scale.orders o × (o + 1 < 2 ^ 32))) }
    ensures holds { OnOk result
        (IsSome (held transaction.new.reads (number_of_key K.tables.scale (key_variants.Oldest home)))) }
    ensures holds_new_order { IfOk result (λ order. ForSome order (λ o. IsSome
        (held transaction.new.reads (number_of_key K.tables.scale (key_variants.NewOrder (order_key home o)))))) }
    ensures reads { ReadsMore 2 transaction.old transaction.new }
{
    let oldest: Oldest = read_present(rt, transaction, home)?;
    if oldest.order > transaction.scale().orders() {
        return Ok(None);
    }
    let row = transaction.read(rt, RecordKey::NewOrder(home.order_key(oldest.order)))?;
    match row {
        Some(_) => Ok(Some(oldest.order)),
        None => Ok(None),
    }
}
