//! OLDEST of the districts of a Delivery, on record cells (TPC-C 2.7.4.2).
ghost use Rattle.std.specs.Prelude.{◌≡◌, ◌+◌, ◌^◌, ◌<◌, All, IsSome, IfErr, OnOk, length};
ghost use Rattle.std.specs.Option.{ForSome};
ghost use Rattle.tables.specs.Keys.{IsDistrictKey};
ghost use Rattle.tables.specs.Records.{number_of_key};
ghost use Rattle.tables.specs.Delivery.{IsDelivery};
ghost use Rattle.tables.specs.declared.records.RecordKey.TheVariants as key_variants;
ghost use Rattle.money.specs.declared.refusal.Refusal.TheVariants.{OutOfMemory};
ghost use Rattle.readset.specs.Reads.{held};
ghost use Rattle.readset.specs.Changes.{puts_all};
ghost use Rattle.readset.specs.Transaction.{GoesOn};
ghost use Rattle.delivery.specs.Steps.{AreDone, AreOldestRead, AreTold};
ghost use Rattle.delivery.specs.Ending.{oldest_changes};

use money::Refusal;
use readset::{Start, Transaction, put_row};
use rows::Oldest;
use tables::{DeliveredOrder, DeliveryInput, DistrictKey};

/// Says what OLDEST is to hold in each district in which an order was taken. Last of all, since the numbers of these
/// records are above all others that a Delivery writes: so those of each table rise.
///
/// # Errors
///
/// `OutOfMemory`, and no other.
pub(crate) fn raise_oldest<K: Start>(
    transaction: &mut Transaction<'_, K>,
    delivery: &DeliveryInput,
    orders: &[DeliveredOrder],
) -> Result<(), Refusal>
    requires input { IsDelivery K.tables.scale delivery.now }
    requires done { AreDone K.tables delivery.now K.tables.scale.districts 0 transaction.old }
    requires told { AreTold K.tables delivery.now K.tables.scale.districts transaction.old orders.now }
    requires all { length orders.now ≡ K.tables.scale.districts }
    requires range { All (λ o. ForSome o.order (λ n. n + 1 < 2 ^ 32)) orders.now }
    requires oldest { AreOldestRead K.tables delivery.now K.tables.scale.districts transaction.old }
    ensures done { OnOk result
        (AreDone K.tables delivery.now K.tables.scale.districts K.tables.scale.districts transaction.new) }
    ensures reads { transaction.new.reads ≡ transaction.old.reads }
    ensures goes_on { GoesOn 0 K.tables.scale.districts transaction.old transaction.new }
    ensures only_memory { IfErr result (λ refusal. refusal ≡ OutOfMemory) }
{
    let districts = transaction.scale().districts();
    for done in 0..districts {
        let order = orders[done as usize].order;
        raise_district(transaction, delivery.district_key(done + 1), order)?;
    }
    Ok(())
}

/// The same of one district, in which this order was taken, if one was.
fn raise_district<K: Start>(
    transaction: &mut Transaction<'_, K>,
    home: DistrictKey,
    taken: Option<u32>,
) -> Result<(), Refusal>
    requires key { IsDistrictKey K.tables.scale home }
    requires next { ForSome taken (λ o. o + 1 < 2 ^ 32) }
    requires holds { IsSome (held transaction.old.reads (number_of_key K.tables.scale (key_variants.Oldest home))) }
    ensures written { OnOk result (transaction.new.writes
        ≡ puts_all K.tables.scale transaction.old.writes (oldest_changes home taken)) }
    ensures reads { transaction.new.reads ≡ transaction.old.reads }
    ensures goes_on { GoesOn 0 1 transaction.old transaction.new }
    ensures only_memory { IfErr result (λ refusal. refusal ≡ OutOfMemory) }
{
    let Some(order) = taken else {
        return Ok(());
    };
    let next = Oldest { order: order + 1 };
    put_row(transaction, home, &next)
}
