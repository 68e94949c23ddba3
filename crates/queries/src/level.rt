//! A Stock-Level on record cells.
ghost use Rattle.std.specs.Prelude.{◌≡◌, []};
ghost use Rattle.tables.specs.StockLevel.{IsStockLevel};
ghost use Rattle.tables.specs.declared.input.Input.TheVariants as input_variants;
ghost use Rattle.readset.specs.Writes.{no_writes};
ghost use Rattle.readset.specs.Commit.{IsCommitOf};
ghost use Rattle.readset.specs.Transaction.{Finds, ReadsMore, IsExecuted};

use crate::low_stock::count_low;
use crate::sold_items::{read_next_order, sold_items};
use cells::Reader;
use money::Refusal;
use readset::{Start, Transaction, Work};
use std::alloc::Global;
use std::sync::Wait;
use tables::{Input, Reply, StockLevelInput, StockLevelReply};

/// Executes a Stock-Level (TPC-C 2.8.2.2) in a transaction that has read nothing: reads its district, the last 20
/// orders with the lines that their O_OL_CNT says that they have, and the stock of each item in them once. No cell
/// changes, and it writes nothing. Gives back the reader. Costs at most 621 loads, a step for each 64 items of the
/// scale, and memory for 621 versions, whatever it reads, and a bit for each item of the scale.
///
/// # Errors
///
/// `Stale` only where no well-formed tables of this population, with conditions 2, 3 and 6 of the district, have the
/// versions that this call has read; `OutOfMemory`. After a refusal, too, the reader has seen what it had seen, and
/// perhaps more.
pub fn stock_level<R: Wait, K: Start>(
    rt: &R,
    alloc: Global,
    mut transaction: Transaction<'_, K>,
    query: &StockLevelInput,
) -> (Reader, Result<Work, Refusal>)
    requires input { IsStockLevel K.tables.scale query.now }
    requires begun { transaction ≡ record { reads = []; writes = no_writes } }
    ensures { IsExecuted K.tables (input_variants.StockLevel query.now) K.reader result.0 result.1 }
{
    let reply = read_reply(rt, alloc, &mut transaction, query);
    transaction.finish(Input::StockLevel(*query), reply)
}

/// Reads what the reply tells: how many of the items in the district's last orders have a low stock.
fn read_reply<R: Wait, K: Start>(
    rt: &R,
    alloc: Global,
    transaction: &mut Transaction<'_, K>,
    query: &StockLevelInput,
) -> Result<Reply, Refusal>
    requires input { IsStockLevel K.tables.scale query.now }
    requires none { transaction.old.reads ≡ [] }
    ensures reply { Finds K.tables transaction.new result
        (λ reply t. IsCommitOf t (input_variants.StockLevel query.now) no_writes reply) }
    ensures reads { ReadsMore 621 transaction.old transaction.new }
{
    transaction.reserve(621, 0)?;
    let home = query.home();
    let next = read_next_order(rt, transaction, home)?;
    let items = sold_items(rt, alloc, transaction, home, next)?;
    let low = count_low(rt, transaction, query, items.as_slice())?;
    Ok(Reply::StockLevel(StockLevelReply {
        warehouse: query.warehouse,
        district: query.district,
        threshold: query.threshold,
        low,
    }))
}
