//! How many of some items have a low stock, on record cells (TPC-C 2.8.2.2).
ghost use Rattle.std.specs.Prelude.{◌≡◌, ◌≤◌, ◌==◌, ◌&&◌, cond, length, IfOk, All};
ghost use Rattle.std.specs.List.{filter, list_any, range_with_len};
ghost use Rattle.std.specs.List.Sorted.{IsStrictlyIncreasing};
ghost use Rattle.tables.specs.Keys.{IsItemKey};
ghost use Rattle.tables.specs.StockLevel.{IsStockLevel, is_low};
ghost use Rattle.readset.specs.Transaction.{Finds, ReadsMore};

use money::Refusal;
use readset::{Start, Transaction, read_present};
use std::sync::Wait;
use tables::{Stock, StockKey, StockLevelInput};

/// How many of these items, which stand in the order of their numbers, have S_QUANTITY below the threshold in the
/// warehouse. Costs a load an item at most.
///
/// # Errors
///
/// `Stale` only where no tables at which the transaction may have read have the versions read; `OutOfMemory`.
pub(crate) fn count_low<R: Wait, K: Start>(
    rt: &R,
    transaction: &mut Transaction<'_, K>,
    query: &StockLevelInput,
    items: &[u32],
) -> Result<u32, Refusal>
    requires input { IsStockLevel K.tables.scale query.now }
    requires items { All (IsItemKey K.tables.scale) items.now }
    requires rising { IsStrictlyIncreasing items.now }
    requires few { length items.now ≤ 300 }
    ensures low { Finds K.tables transaction.new result (λ low t.
        length (filter (λ i. list_any (λ j. j == i) items.now && is_low t query.now.warehouse query.now.threshold i)
        (range_with_len 1 K.tables.scale.items)) ≡ low) }
    ensures reads { ReadsMore (length items.now) transaction.old transaction.new }
{
    let mut low = 0;
    for item in items {
        low += count_item(rt, transaction, query, *item)?;
    }
    Ok(low)
}

/// 1 where an item has S_QUANTITY below the threshold, else 0. Costs a load at most.
fn count_item<R: Wait, K: Start>(
    rt: &R,
    transaction: &mut Transaction<'_, K>,
    query: &StockLevelInput,
    item: u32,
) -> Result<u32, Refusal>
    requires input { IsStockLevel K.tables.scale query.now }
    requires item { IsItemKey K.tables.scale item }
    ensures low { Finds K.tables transaction.new result
        (λ one t. cond (is_low t query.now.warehouse query.now.threshold item) 1 0 ≡ one) }
    ensures range { IfOk result (λ one. one ≤ 1) }
    ensures reads { ReadsMore 1 transaction.old transaction.new }
{
    let key = StockKey {
        warehouse: query.warehouse,
        item,
    };
    let stock: Stock = read_present(rt, transaction, key)?;
    if stock.quantity < query.threshold {
        Ok(1)
    } else {
        Ok(0)
    }
}
