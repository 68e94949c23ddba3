//! The lines of the order that a Delivery takes, on record cells (TPC-C 2.7.4.2).
ghost use Rattle.std.specs.Prelude.{◌≡◌, ◌-◌, ◌≤◌, pos, ℤ, ◌+ℤ◌, ◌*ℤ◌, ◌≤ℤ◌, IfOk, IfErr};
ghost use Rattle.tables.specs.Sizes.{IsNumber};
ghost use Rattle.tables.specs.Keys.{IsOrderKey};
ghost use Rattle.tables.specs.declared.limits.TheConstants.{MAX_LINE_AMOUNT, MAX_ORDER_LINES};
ghost use Rattle.readset.specs.Transaction.{GoesOn, IsStepRefusal};
ghost use Rattle.delivery.specs.Steps.{AreDated};

use money::{Cents, Refusal};
use readset::{Start, Transaction, put_row, read_row};
use std::sync::Wait;
use tables::{DeliveryInput, OrderKey, OrderLine};

/// Sets OL_DELIVERY_D of an order's lines from the first to this one, and gives the sum of OL_AMOUNT. Costs a load and
/// a few look-ups a line.
///
/// # Errors
///
/// `Stale` only where no tables at which the transaction may have read have the versions read; `OutOfMemory`.
pub(crate) fn date_lines<R: Wait, K: Start>(
    rt: &R,
    transaction: &mut Transaction<'_, K>,
    delivery: &DeliveryInput,
    order: OrderKey,
    count: u32,
) -> Result<Cents, Refusal>
    requires order { IsOrderKey K.tables.scale order }
    requires home { order.warehouse ≡ delivery.now.warehouse }
    requires count { count ≤ MAX_ORDER_LINES }
    requires dated { AreDated K.tables delivery.now (order.district - 1) order.order 0
        transaction.old (pos 0) }
    ensures dated { IfOk result (AreDated K.tables delivery.now (order.district - 1) order.order count
        transaction.new) }
    ensures range { IfOk result (λ sum. (pos 0 ≤ℤ sum) × (sum ≤ℤ (MAX_LINE_AMOUNT *ℤ pos count))) }
    ensures refused { IfErr result (IsStepRefusal K.tables transaction.new) }
    ensures goes_on { GoesOn count count transaction.old transaction.new }
{
    let mut sum = Cents::new(0);
    for done in 0..count {
        let amount = date_line(rt, transaction, delivery, order, done + 1)?;
        sum = sum + amount;
    }
    Ok(sum)
}

/// Sets OL_DELIVERY_D of one line, and gives its OL_AMOUNT. Writes nothing of a line that isn't there, and gives 0.
fn date_line<R: Wait, K: Start>(
    rt: &R,
    transaction: &mut Transaction<'_, K>,
    delivery: &DeliveryInput,
    order: OrderKey,
    number: u32,
) -> Result<Cents, Refusal>
    requires order { IsOrderKey K.tables.scale order }
    requires home { order.warehouse ≡ delivery.now.warehouse }
    requires number { IsNumber MAX_ORDER_LINES number }
    ensures dated { (sum : ℤ) → AreDated K.tables delivery.now (order.district - 1) order.order (number - 1)
        transaction.old sum
        → IfOk result (λ amount. AreDated K.tables delivery.now (order.district - 1) order.order number
        transaction.new (sum +ℤ amount)) }
    ensures range { IfOk result (λ amount. (pos 0 ≤ℤ amount) × (amount ≤ℤ MAX_LINE_AMOUNT)) }
    ensures refused { IfErr result (IsStepRefusal K.tables transaction.new) }
    ensures goes_on { GoesOn 1 1 transaction.old transaction.new }
{
    let key = order.line_key(number);
    let line: Option<OrderLine> = read_row(rt, transaction, key)?;
    let Some(line) = line else {
        return Ok(Cents::new(0));
    };
    let dated = OrderLine {
        delivery_date: Some(delivery.date),
        ..line
    };
    put_row(transaction, key, &dated)?;
    Ok(line.amount)
}
