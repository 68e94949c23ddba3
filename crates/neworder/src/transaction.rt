//! A New-Order on record cells.
ghost use Rattle.std.specs.Prelude.{◌≡◌, ◌≤◌, [], length, All, IfOk, IfErr};
ghost use Rattle.tables.specs.Keys.{IsItemKey};
ghost use Rattle.tables.specs.NewOrder.{IsNewOrder, IsRequestedLine};
ghost use Rattle.tables.specs.declared.input.Input.TheVariants as input_variants;
ghost use Rattle.readset.specs.Writes.{no_writes};
ghost use Rattle.readset.specs.Transaction.{IsExecuted};
ghost use Rattle.neworder.specs.Opening.{IsOrderRefusal};
ghost use Rattle.neworder.specs.Priced.{ArePriced};
ghost use Rattle.neworder.specs.Executed.{IsReplyOf, IsOrderWork};

use crate::lines::take_lines;
use crate::opening::{open_order, write_last};
use crate::prices::{Priced, Pricing, price_lines};
use crate::reply::reply_to;
use cells::Reader;
use money::Refusal;
use readset::{ReadSet, Start, Transaction, Work, WriteSet};
use std::alloc::{AllocError, Global};
use std::sync::Wait;
use tables::{Input, NewOrderInput, Reply};

/// Executes a New-Order (TPC-C 2.4.2.2) in a transaction that has read nothing: reads its records once each, the absent
/// ones that it inserts too, and says what it is to write and to reply if it commits. No cell changes. Gives back the
/// reader. An item that comes twice is drawn from what its first line left. Costs four loads, two loads and a few
/// look-ups a line, and memory for what it reads, writes and replies, whatever the tables' size.
///
/// # Errors
///
/// `ItemNotValid`, with the first such item, exactly where an item isn't in ITEM: no cell is read then. Else
/// `OrdersFull` exactly where D_NEXT_O_ID as read is above the order cap. Else `Stale` only where no well-formed tables
/// of this population, with conditions 2, 3 and 6 of the district, have the versions that this call has read.
/// `OutOfMemory` at any time. After a refusal, too, the reader has seen what it had seen, and perhaps more.
pub fn execute<R: Wait, K: Start>(
    rt: &R,
    alloc: Global,
    mut transaction: Transaction<'_, K>,
    order: &NewOrderInput,
) -> (Reader, Result<Work, Refusal>)
    requires input { IsNewOrder K.tables.scale order.now }
    requires begun { transaction ≡ record { reads = []; writes = no_writes } }
    ensures { IsExecuted K.tables (input_variants.NewOrder order.now) K.reader result.0 result.1 }
{
    let priced = match price_lines(alloc, transaction.population(), order.lines.as_slice()) {
        Pricing::Priced(priced) => priced,
        Pricing::ItemMissing(item) => {
            return (
                transaction.into_parts().0,
                Err(Refusal::ItemNotValid { item }),
            );
        }
        Pricing::OutOfMemory => return (transaction.into_parts().0, Err(Refusal::OutOfMemory)),
    };
    let reply = take_order(rt, alloc, &mut transaction, order, &priced);
    let (reader, reads, writes) = transaction.into_parts();
    (reader, work_of(order, reads, writes, reply))
}

/// Opens the order, takes its lines, and replies. The numbers of the records that it reads rise, and so do those that
/// it writes: four, and two for each line, but for a stock that comes twice.
fn take_order<R: Wait, K: Start>(
    rt: &R,
    alloc: Global,
    transaction: &mut Transaction<'_, K>,
    order: &NewOrderInput,
    priced: &Priced,
) -> Result<Reply, Refusal>
    requires input { IsNewOrder K.tables.scale order.now }
    requires lines { All (λ l. IsRequestedLine K.tables.scale l × IsItemKey K.tables.scale l.item) order.now.lines }
    requires priced { ArePriced K.tables order.now.lines priced.now }
    requires begun { transaction.old ≡ record { reads = []; writes = no_writes } }
    ensures reply { IfOk result (IsReplyOf K.tables order.now transaction.new) }
    ensures refused { IfErr result (IsOrderRefusal K.tables order.now transaction.new) }
    ensures reads { length transaction.new.reads ≤ 49 }
    ensures writes { length transaction.new.writes.values ≤ 49 }
{
    let amounts = priced.amounts.as_slice();
    let records = 4 + 2 * amounts.len();
    transaction.reserve(records, records)?;
    let key = open_order(rt, transaction, order)?;
    let supplied = take_lines(rt, alloc, transaction, order, key, amounts)?;
    write_last(rt, transaction, order, key)?;
    Ok(Reply::NewOrder(reply_to(transaction.population(), order, key, priced.sum, supplied)))
}

/// The work of an order that has this reply, if it has one. Costs a copy of its input.
fn work_of(
    order: &NewOrderInput,
    reads: ReadSet,
    writes: WriteSet,
    reply: Result<Reply, Refusal>,
) -> Result<Work, Refusal>
    ensures { IsOrderWork order.now reads writes reply result }
{
    let reply = reply?;
    let input = Input::NewOrder(copied(order)?);
    Ok(Work {
        input,
        reads,
        writes,
        reply,
    })
}

/// A copy of an order's input. Costs a pass over its lines, and memory for them.
fn copied(order: &NewOrderInput) -> Result<NewOrderInput, AllocError>
    ensures { IfOk result (λ copy. copy ≡ order.now) }
{
    let lines = order.lines.copied()?;
    Ok(NewOrderInput {
        date: order.date,
        warehouse: order.warehouse,
        district: order.district,
        customer: order.customer,
        lines,
    })
}
