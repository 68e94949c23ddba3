//! An Order-Status on record cells.
ghost use Rattle.std.specs.Prelude.{◌≡◌, []};
ghost use Rattle.tables.specs.Keys.{IsCustomerKey};
ghost use Rattle.tables.specs.OrderStatus.{IsOrderStatus, asked, asked_number};
ghost use Rattle.tables.specs.declared.input.Input.TheVariants as input_variants;
ghost use Rattle.population.specs.Initial.{initial};
ghost use Rattle.readset.specs.Writes.{no_writes};
ghost use Rattle.readset.specs.Commit.{IsCommitOf};
ghost use Rattle.readset.specs.Transaction.{Finds, ReadsMore, IsExecuted};

use crate::last_order::{read_balance, read_last, read_order};
use cells::Reader;
use money::Refusal;
use population::Population;
use readset::{Start, Transaction, Work};
use std::alloc::Global;
use std::sync::Wait;
use tables::{CustomerKey, Input, OrderStatusInput, OrderStatusReply, Reply};

/// Executes an Order-Status (TPC-C 2.6.2.2) in a transaction that has read nothing: reads its customer, the number of
/// the customer's last order, and that order with its lines. No cell changes, and it writes nothing. Gives back the
/// reader. Costs at most eighteen loads, by last name what `Population::customer` does, and memory for what it reads
/// and replies, whatever the tables' size.
///
/// # Errors
///
/// `Stale` only where no well-formed tables of this population have the versions that this call has read;
/// `OutOfMemory`. After a refusal, too, the reader has seen what it had seen, and perhaps more.
pub fn order_status<R: Wait, K: Start>(
    rt: &R,
    alloc: Global,
    mut transaction: Transaction<'_, K>,
    query: &OrderStatusInput,
) -> (Reader, Result<Work, Refusal>)
    requires input { IsOrderStatus K.tables.scale query.now }
    requires begun { transaction ≡ record { reads = []; writes = no_writes } }
    ensures { IsExecuted K.tables (input_variants.OrderStatus query.now) K.reader result.0 result.1 }
{
    let asked = asked_for(transaction.population(), query);
    let reply = read_reply(rt, alloc, &mut transaction, query, asked);
    transaction.finish(Input::OrderStatus(*query), reply)
}

/// Reads what the reply tells: the customer's balance, the number of its last order, and that order.
fn read_reply<R: Wait, K: Start>(
    rt: &R,
    alloc: Global,
    transaction: &mut Transaction<'_, K>,
    query: &OrderStatusInput,
    customer: CustomerKey,
) -> Result<Reply, Refusal>
    requires input { IsOrderStatus K.tables.scale query.now }
    requires asked { customer ≡ asked query.now (asked_number K.tables query.now) }
    requires key { IsCustomerKey K.tables.scale customer }
    ensures reply { Finds K.tables transaction.new result
        (λ reply t. IsCommitOf t (input_variants.OrderStatus query.now) no_writes reply) }
    ensures reads { ReadsMore 18 transaction.old transaction.new }
{
    let balance = read_balance(rt, transaction, customer)?;
    let order = read_last(rt, transaction, customer)?;
    let order = read_order(rt, alloc, transaction, query.home().order_key(order))?;
    Ok(Reply::OrderStatus(OrderStatusReply {
        warehouse: query.warehouse,
        district: query.district,
        customer: customer.customer,
        balance,
        order,
    }))
}

/// The customer that is asked for.
fn asked_for(population: &Population, query: &OrderStatusInput) -> CustomerKey
    requires { IsOrderStatus (initial population.now).scale query.now }
    ensures asked { result ≡ asked query.now (asked_number (initial population.now) query.now) }
    ensures key { IsCustomerKey (initial population.now).scale result }
{
    let home = query.home();
    home.customer_key(population.customer(home, query.who))
}
