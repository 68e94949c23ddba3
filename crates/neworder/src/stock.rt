//! What a line of a New-Order makes of a stock (TPC-C 2.4.2.2).
ghost use Rattle.std.specs.Prelude.{◌≡◌, ◌+◌, ◌-◌, ◌≤◌, nat_le, cond};
ghost use Rattle.tables.specs.Sizes.{IsBetween};
ghost use Rattle.tables.specs.NewOrder.{drawn};
ghost use Rattle.tables.specs.declared.limits.TheConstants.{MAX_COUNT, MAX_COUNT_STEP, MAX_QUANTITY, MAX_STOCK};
ghost use Rattle.tables.specs.declared.limits.TheConstants.{MIN_STOCK, RESTOCK};
ghost use Rattle.neworder.specs.Held.{IsStockUpTo};

use tables::limits::{MIN_STOCK, RESTOCK};
use tables::{RequestedLine, Stock};

/// A stock after a line of an order of the warehouse `home`: S_QUANTITY falls by the line's quantity, or rises by 91
/// less that where less than 10 would be left; S_YTD rises by it, S_ORDER_CNT by 1, and S_REMOTE_CNT by 1 where another
/// warehouse supplies the line.
pub(crate) fn drawn(stock: &Stock, home: u32, line: &RequestedLine) -> Stock
    requires quantity { line.now.quantity ≤ MAX_QUANTITY }
    requires stock { IsStockUpTo (MAX_COUNT + MAX_COUNT_STEP) stock.now }
    ensures { result ≡ drawn home line.now stock.now }
{
    Stock {
        quantity: quantity_left(stock.quantity, line.quantity),
        year_to_date: stock.year_to_date + line.quantity,
        orders: stock.orders + 1,
        remote_orders: stock.remote_orders + u32::from(line.supply_warehouse != home),
    }
}

/// S_QUANTITY once so many are sold.
fn quantity_left(stock: u32, sold: u32) -> u32
    requires sold { sold ≤ MAX_QUANTITY }
    requires stock { IsBetween MIN_STOCK MAX_STOCK stock }
    ensures { result ≡ cond (nat_le (sold + MIN_STOCK) stock) (stock - sold) (stock + RESTOCK - sold) }
{
    if sold + MIN_STOCK <= stock {
        stock - sold
    } else {
        stock + RESTOCK - sold
    }
}
