//! A Delivery on record cells.
ghost use Rattle.std.specs.Prelude.{◌≡◌, ◌≤◌, [], length};
ghost use Rattle.tables.specs.Delivery.{IsDelivery};
ghost use Rattle.tables.specs.declared.input.Input.TheVariants as input_variants;
ghost use Rattle.readset.specs.Writes.{no_writes};
ghost use Rattle.readset.specs.Commit.{IsCommitOf};
ghost use Rattle.readset.specs.Transaction.{Finds, IsExecuted};

use crate::districts::deliver_districts;
use crate::oldest::raise_oldest;
use cells::Reader;
use money::Refusal;
use readset::{Start, Transaction, Work};
use std::alloc::Global;
use std::sync::Wait;
use tables::{DeliveryInput, DeliveryReply, Input, Lines, Reply};

// How many records a Delivery reads and writes at most: in each of ten districts its oldest waiting order's number,
// that order with its NEW-ORDER, 15 lines, and its customer.
const MOST_RECORDS: usize = 190;

/// Executes a Delivery (TPC-C 2.7.4.2) in all districts of its warehouse, in a transaction that has read nothing: reads
/// its records once each, and says what it is to write and to reply if it commits. No cell changes. Gives back the
/// reader. Costs two loads a district, at most seventeen more where an order waits there, and memory for what it reads,
/// writes and replies, whatever the tables' size.
///
/// # Errors
///
/// `Stale` only where no well-formed tables of this population, with conditions 2, 3 and 6 of the districts, have the
/// versions that this call has read; `OutOfMemory`. After a refusal, too, the reader has seen what it had seen, and
/// perhaps more.
pub fn execute<R: Wait, K: Start>(
    rt: &R,
    alloc: Global,
    mut transaction: Transaction<'_, K>,
    delivery: &DeliveryInput,
) -> (Reader, Result<Work, Refusal>)
    requires input { IsDelivery K.tables.scale delivery.now }
    requires begun { transaction ≡ record { reads = []; writes = no_writes } }
    ensures { IsExecuted K.tables (input_variants.Delivery delivery.now) K.reader result.0 result.1 }
{
    let reply = deliver(rt, alloc, &mut transaction, delivery);
    transaction.finish(Input::Delivery(*delivery), reply)
}

/// Does all districts, and replies.
fn deliver<R: Wait, K: Start>(
    rt: &R,
    alloc: Global,
    transaction: &mut Transaction<'_, K>,
    delivery: &DeliveryInput,
) -> Result<Reply, Refusal>
    requires input { IsDelivery K.tables.scale delivery.now }
    requires begun { transaction.old ≡ record { reads = []; writes = no_writes } }
    ensures reply { Finds K.tables transaction.new result (λ reply t.
        IsCommitOf t (input_variants.Delivery delivery.now) transaction.new.writes reply) }
    ensures reads { length transaction.new.reads ≤ 190 }
    ensures writes { length transaction.new.writes.values ≤ 190 }
{
    transaction.reserve(MOST_RECORDS, MOST_RECORDS)?;
    let orders = deliver_districts(rt, alloc, transaction, delivery)?;
    raise_oldest(transaction, delivery, &orders)?;
    Ok(Reply::Delivery(DeliveryReply {
        warehouse: delivery.warehouse,
        orders: Lines::new(orders),
    }))
}
