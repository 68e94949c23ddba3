//! Opening an order on record cells (TPC-C 2.4.2.2): it takes its number, and gets its rows of ORDER and NEW-ORDER.
ghost use Rattle.std.specs.Prelude.{◌≡◌, ◌≤◌, List, [], IsSome, IfOk, IfErr, OnOk};
ghost use Rattle.tables.specs.Sizes.{IsNumber};
ghost use Rattle.tables.specs.Keys.{IsOrderKey};
ghost use Rattle.tables.specs.Records.{number_of_key};
ghost use Rattle.tables.specs.NewOrder.{IsNewOrder, home};
ghost use Rattle.tables.specs.declared.new_order.RequestedLine.{RequestedLine};
ghost use Rattle.tables.specs.declared.new_order.SuppliedLine.{SuppliedLine};
ghost use Rattle.tables.specs.declared.limits.TheConstants.{MAX_ORDERS};
ghost use Rattle.tables.specs.declared.records.RecordKey.TheVariants as key_variants;
ghost use Rattle.money.specs.declared.refusal.Refusal.TheVariants.{OutOfMemory};
ghost use Rattle.readset.specs.Reads.{held};
ghost use Rattle.readset.specs.Writes.{no_writes};
ghost use Rattle.readset.specs.Changes.{puts_all};
ghost use Rattle.readset.specs.Transaction.{ReadsMore, GoesOn, AtAll};
ghost use Rattle.neworder.specs.Steps.{AreTaken, numbered_columns, opening_changes, with_last};
ghost use Rattle.neworder.specs.Opening.{IsHomeTaken, IsWithinCap, IsOrderRefusal};

use crate::new_rows::order_row;
use money::{NO_PAYLOAD, Refusal};
use readset::{Start, Transaction, put_row, read_present};
use rows::{DistrictColumns, Last};
use std::sync::Wait;
use tables::{NewOrderInput, OrderKey, RecordKey};

/// Opens an order: reads its district's record and takes D_NEXT_O_ID from it, reads the absent records of its rows, and
/// says what these three are to hold. Gives the order's key. Costs three loads and a few look-ups.
///
/// # Errors
///
/// `OrdersFull` exactly where D_NEXT_O_ID as read is above the order cap; `Stale` only where no tables at which the
/// transaction may have read have the versions read; `OutOfMemory`.
pub(crate) fn open_order<R: Wait, K: Start>(
    rt: &R,
    transaction: &mut Transaction<'_, K>,
    order: &NewOrderInput,
) -> Result<OrderKey, Refusal>
    requires input { IsNewOrder K.tables.scale order.now }
    requires begun { transaction.old ≡ record { reads = []; writes = no_writes } }
    ensures opened { IfOk result (λ k. AreTaken K.tables order.now k [] []
        (with_last K.tables order.now k transaction.new) []) }
    ensures key { IfOk result (IsOrderKey K.tables.scale) }
    ensures within_cap { OnOk result (IsWithinCap K.tables.scale order.now transaction.new.reads) }
    ensures refused { IfErr result (IsOrderRefusal K.tables order.now transaction.new) }
    ensures goes_on { GoesOn 3 3 transaction.old transaction.new }
{
    let district = read_home(rt, transaction, order)?;
    let key = order.home().order_key(district.next_order);
    read_rows(rt, transaction, key)?;
    write_rows(transaction, order, key, &numbered(&district))?;
    Ok(key)
}

/// Reads the columns of an order's district, whose D_NEXT_O_ID is a number that the order can take.
///
/// # Errors
///
/// `OrdersFull` exactly where it is above the order cap; `Stale` and `OutOfMemory` as above.
fn read_home<R: Wait, K: Start>(
    rt: &R,
    transaction: &mut Transaction<'_, K>,
    order: &NewOrderInput,
) -> Result<DistrictColumns, Refusal>
    requires input { IsNewOrder K.tables.scale order.now }
    ensures taken { IfOk result (λ district. AtAll K.tables transaction.new (IsHomeTaken order.now district)) }
    ensures number { IfOk result (λ district. IsNumber K.tables.scale.orders district.next_order) }
    ensures limit { IfOk result (λ district. district.next_order ≤ MAX_ORDERS) }
    ensures within_cap { OnOk result (IsWithinCap K.tables.scale order.now transaction.new.reads) }
    ensures refused { IfErr result (IsOrderRefusal K.tables order.now transaction.new) }
    ensures holds { OnOk result (IsSome (held transaction.new.reads
        (number_of_key K.tables.scale (key_variants.District (home order.now))))) }
    ensures reads { ReadsMore 1 transaction.old transaction.new }
{
    let district: DistrictColumns = read_present(rt, transaction, order.home())?;
    if district.next_order > transaction.scale().orders() {
        return Err(Refusal::OrdersFull);
    }
    Ok(district)
}

/// A district's columns once its D_NEXT_O_ID is taken.
fn numbered(district: &DistrictColumns) -> DistrictColumns
    requires { district.now.next_order ≤ MAX_ORDERS }
    ensures { result ≡ numbered_columns district.now }
{
    DistrictColumns {
        next_order: district.next_order + 1,
        ..*district
    }
}

/// Reads the records of an order's two rows, which are absent.
fn read_rows<R: Wait, K: Start>(
    rt: &R,
    transaction: &mut Transaction<'_, K>,
    key: OrderKey,
) -> Result<(), Refusal>
    requires key { IsOrderKey K.tables.scale key }
    ensures holds_new_order { OnOk result
        (IsSome (held transaction.new.reads (number_of_key K.tables.scale (key_variants.NewOrder key)))) }
    ensures holds_order { OnOk result
        (IsSome (held transaction.new.reads (number_of_key K.tables.scale (key_variants.Order key)))) }
    ensures reads { ReadsMore 2 transaction.old transaction.new }
    ensures only_memory { IfErr result (λ refusal. refusal ≡ OutOfMemory) }
{
    transaction.read(rt, RecordKey::NewOrder(key))?;
    transaction.read(rt, RecordKey::Order(key))?;
    Ok(())
}

/// Says what the three records are to hold: the district's columns, and the order's two rows.
fn write_rows<K: Start>(
    transaction: &mut Transaction<'_, K>,
    order: &NewOrderInput,
    key: OrderKey,
    district: &DistrictColumns,
) -> Result<(), Refusal>
    requires input { IsNewOrder K.tables.scale order.now }
    requires key { IsOrderKey K.tables.scale key }
    requires holds_district { IsSome (held transaction.old.reads
        (number_of_key K.tables.scale (key_variants.District (home order.now)))) }
    requires holds_new_order { IsSome (held transaction.old.reads
        (number_of_key K.tables.scale (key_variants.NewOrder key))) }
    requires holds_order { IsSome (held transaction.old.reads
        (number_of_key K.tables.scale (key_variants.Order key))) }
    ensures written { OnOk result (transaction.new.writes
        ≡ puts_all K.tables.scale transaction.old.writes (opening_changes order.now key district.now)) }
    ensures reads { transaction.new.reads ≡ transaction.old.reads }
    ensures goes_on { GoesOn 0 3 transaction.old transaction.new }
    ensures only_memory { IfErr result (λ refusal. refusal ≡ OutOfMemory) }
{
    put_row(transaction, order.home(), district)?;
    transaction.put(RecordKey::NewOrder(key), Some(NO_PAYLOAD))?;
    put_row(transaction, key, &order_row(order))
}

/// Says that an order is its buyer's last one: its LAST, which is read here, has the greatest record number of all that
/// an order writes. Costs a load. `OutOfMemory` is the only refusal.
pub(crate) fn write_last<R: Wait, K: Start>(
    rt: &R,
    transaction: &mut Transaction<'_, K>,
    order: &NewOrderInput,
    key: OrderKey,
) -> Result<(), Refusal>
    requires input { IsNewOrder K.tables.scale order.now }
    ensures written { (rows draws : List RequestedLine) (told : List SuppliedLine)
        → AreTaken K.tables order.now key rows draws (with_last K.tables order.now key transaction.old) told
        → OnOk result (AreTaken K.tables order.now key rows draws transaction.new told) }
    ensures goes_on { GoesOn 1 1 transaction.old transaction.new }
    ensures only_memory { IfErr result (λ refusal. refusal ≡ OutOfMemory) }
{
    transaction.read(rt, RecordKey::Last(order.buyer()))?;
    put_row(transaction, order.buyer(), &Last { order: key.order })
}
