//! A customer's balance and its last order, on record cells (TPC-C 2.6.2.2).
ghost use Rattle.std.specs.Prelude.{◌≡◌, ◌≤◌, ◌++◌, IfOk, OnOk};
ghost use Rattle.std.specs.Option.{option_map, option_to_list};
ghost use Rattle.std.specs.FinMap.{get};
ghost use Rattle.tables.specs.Sizes.{IsNumber};
ghost use Rattle.tables.specs.Keys.{IsCustomerKey, IsOrderKey};
ghost use Rattle.tables.specs.Maps.{column};
ghost use Rattle.tables.specs.NewOrder.{line_key};
ghost use Rattle.tables.specs.Rows.{last};
ghost use Rattle.tables.specs.OrderStatus.{told_of};
ghost use Rattle.tables.specs.declared.limits.TheConstants.{MAX_ORDER_LINES};
ghost use Rattle.readset.specs.Transaction.{Finds, ReadsMore};
ghost use Rattle.queries.specs.Lines.{lines_up_to};

use money::{Cents, Refusal};
use readset::{Start, Transaction, read_present, read_row};
use rows::{CustomerColumns, Last};
use std::alloc::{AllocError, Global};
use std::sync::Wait;
use tables::{CustomerKey, LastOrder, Lines, Order, OrderKey, OrderLine};

/// Reads C_BALANCE of a customer. Costs a load.
///
/// # Errors
///
/// `Stale` only where no tables at which the transaction may have read have the version read; `OutOfMemory`.
pub(crate) fn read_balance<R: Wait, K: Start>(
    rt: &R,
    transaction: &mut Transaction<'_, K>,
    asked: CustomerKey,
) -> Result<Cents, Refusal>
    requires { IsCustomerKey K.tables.scale asked }
    ensures balance { Finds K.tables transaction.new result
        (λ balance t. column (λ r. r.balance) t.customers asked ≡ balance) }
    ensures reads { ReadsMore 1 transaction.old transaction.new }
{
    let customer: CustomerColumns = read_present(rt, transaction, asked)?;
    Ok(customer.balance)
}

/// Reads the number of a customer's last order, or 0 where it has none. Costs a load.
///
/// # Errors
///
/// `Stale` only where no tables at which the transaction may have read have the version read; `OutOfMemory`.
pub(crate) fn read_last<R: Wait, K: Start>(
    rt: &R,
    transaction: &mut Transaction<'_, K>,
    asked: CustomerKey,
) -> Result<u32, Refusal>
    requires { IsCustomerKey K.tables.scale asked }
    ensures last { Finds K.tables transaction.new result (λ number t. last t asked ≡ number) }
    ensures range { IfOk result (λ number. number ≤ K.tables.scale.orders) }
    ensures reads { ReadsMore 1 transaction.old transaction.new }
{
    let last: Last = read_present(rt, transaction, asked)?;
    Ok(last.order)
}

/// Reads an order and its lines, and gives what is told of it: nothing where there is no such order, as of number 0.
/// Costs at most sixteen loads, and memory for the lines.
///
/// # Errors
///
/// `Stale` only where no tables at which the transaction may have read have the versions read; `OutOfMemory`.
pub(crate) fn read_order<R: Wait, K: Start>(
    rt: &R,
    alloc: Global,
    transaction: &mut Transaction<'_, K>,
    key: OrderKey,
) -> Result<Option<LastOrder>, Refusal>
    requires warehouse { IsNumber K.tables.scale.warehouses key.warehouse }
    requires district { IsNumber K.tables.scale.districts key.district }
    requires order { key.order ≤ K.tables.scale.orders }
    ensures told { Finds K.tables transaction.new result
        (λ told t. option_map (told_of t key) (get t.orders key) ≡ told) }
    ensures reads { ReadsMore 16 transaction.old transaction.new }
{
    if key.order == 0 {
        return Ok(None);
    }
    let order: Option<Order> = read_row(rt, transaction, key)?;
    let Some(order) = order else {
        return Ok(None);
    };
    let lines = read_lines(rt, alloc, transaction, key, order.line_count)?;
    Ok(Some(LastOrder {
        order: key.order,
        entry_date: order.entry_date,
        carrier: order.carrier,
        lines,
    }))
}

/// Reads an order's lines from the first to this one, and gives those that are there. Costs a load a line, and memory
/// for the lines.
fn read_lines<R: Wait, K: Start>(
    rt: &R,
    alloc: Global,
    transaction: &mut Transaction<'_, K>,
    key: OrderKey,
    count: u32,
) -> Result<Lines<OrderLine>, Refusal>
    requires key { IsOrderKey K.tables.scale key }
    requires count { count ≤ MAX_ORDER_LINES }
    ensures lines { Finds K.tables transaction.new result (λ lines t. lines_up_to t key count ≡ lines) }
    ensures reads { ReadsMore count transaction.old transaction.new }
{
    let mut lines = Vec::with_capacity(alloc, count as usize)?;
    for done in 0..count {
        let line = read_line(rt, transaction, key, done + 1)?;
        push_line(&mut lines, line)?;
    }
    Ok(Lines::new(lines))
}

/// Puts a line behind the others, where there is one.
fn push_line(lines: &mut Vec<OrderLine>, line: Option<OrderLine>) -> Result<(), AllocError>
    ensures { OnOk result (lines.new.items ≡ lines.old.items ++ option_to_list line) }
{
    if let Some(line) = line {
        lines.push(line)?;
    }
    Ok(())
}

/// Reads one line of an order, where there is one.
fn read_line<R: Wait, K: Start>(
    rt: &R,
    transaction: &mut Transaction<'_, K>,
    key: OrderKey,
    number: u32,
) -> Result<Option<OrderLine>, Refusal>
    requires key { IsOrderKey K.tables.scale key }
    requires number { IsNumber MAX_ORDER_LINES number }
    ensures line { Finds K.tables transaction.new result
        (λ line t. get t.lines (line_key key number) ≡ line) }
    ensures reads { ReadsMore 1 transaction.old transaction.new }
{
    read_row(rt, transaction, key.line_key(number))
}
