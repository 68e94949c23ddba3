//! The lines of a New-Order on record cells (TPC-C 2.4.2.2), in passes by record number: the lines' own rows, and then
//! the stocks that they draw from.
ghost use Rattle.std.specs.Prelude.{◌≡◌, ◌+◌, ◌*◌, ◌≤◌, List, [], ◌∷◌, ◌++◌, length, map, All, IfOk, IfErr, OnOk};
ghost use Rattle.money.specs.declared.refusal.Refusal.TheVariants.{OutOfMemory};
ghost use Rattle.tables.specs.Sizes.{IsNumber};
ghost use Rattle.tables.specs.Keys.{IsOrderKey, IsItemKey};
ghost use Rattle.tables.specs.NewOrder.{IsRequestedLine, line_amount};
ghost use Rattle.tables.specs.declared.new_order.SuppliedLine.{SuppliedLine};
ghost use Rattle.tables.specs.declared.limits.TheConstants.{MAX_ORDER_LINES};
ghost use Rattle.readset.specs.Transaction.{GoesOn, IsStepRefusal};
ghost use Rattle.neworder.specs.Steps.{AreTaken, with_last};

use crate::draws::draw_lines;
use crate::new_rows::line_row;
use money::{Cents, Refusal};
use readset::{Start, Transaction, put_row};
use std::alloc::Global;
use std::sync::Wait;
use tables::{NewOrderInput, OrderKey, RecordKey, RequestedLine, SuppliedLine};

/// All lines of an order, with their OL_AMOUNTs: their rows, and then, in their order, what they draw, an item that
/// comes twice from what its first line left. Gives the lines of the reply. Costs two loads and a few look-ups a line,
/// a sort of the stocks, and memory for these and for the reply.
///
/// # Errors
///
/// `Stale` only where no tables at which the transaction may have read have the versions read; `OutOfMemory`.
pub(crate) fn take_lines<R: Wait, K: Start>(
    rt: &R,
    alloc: Global,
    transaction: &mut Transaction<'_, K>,
    order: &NewOrderInput,
    key: OrderKey,
    amounts: &[Cents],
) -> Result<Vec<SuppliedLine>, Refusal>
    requires key { IsOrderKey K.tables.scale key }
    requires count { length order.now.lines ≤ MAX_ORDER_LINES }
    requires lines { All (λ l. IsRequestedLine K.tables.scale l × IsItemKey K.tables.scale l.item) order.now.lines }
    requires amounts { amounts.now ≡ map (line_amount K.tables) order.now.lines }
    requires opened { AreTaken K.tables order.now key [] [] (with_last K.tables order.now key transaction.old) [] }
    ensures taken { IfOk result (λ supplied. AreTaken K.tables order.now key order.now.lines order.now.lines
        (with_last K.tables order.now key transaction.new) supplied.items) }
    ensures refused { IfErr result (IsStepRefusal K.tables transaction.new) }
    ensures goes_on { GoesOn (3 * length order.now.lines) (3 * length order.now.lines)
        transaction.old transaction.new }
{
    add_rows(rt, transaction, order, key, amounts)?;
    draw_lines(rt, alloc, transaction, order, key, amounts)
}

/// Adds the rows of all lines of an order, with their OL_AMOUNTs. Costs a load a line. `OutOfMemory` is the only
/// refusal.
fn add_rows<R: Wait, K: Start>(
    rt: &R,
    transaction: &mut Transaction<'_, K>,
    order: &NewOrderInput,
    key: OrderKey,
    amounts: &[Cents],
) -> Result<(), Refusal>
    requires key { IsOrderKey K.tables.scale key }
    requires count { length order.now.lines ≤ MAX_ORDER_LINES }
    requires amounts { amounts.now ≡ map (line_amount K.tables) order.now.lines }
    requires opened { AreTaken K.tables order.now key [] [] (with_last K.tables order.now key transaction.old) [] }
    ensures added { OnOk result (AreTaken K.tables order.now key order.now.lines []
        (with_last K.tables order.now key transaction.new) []) }
    ensures goes_on { GoesOn (length order.now.lines) (length order.now.lines) transaction.old transaction.new }
    ensures only_memory { IfErr result (λ refusal. refusal ≡ OutOfMemory) }
{
    let mut number = 0;
    for line in order.lines.as_slice() {
        let amount = amounts[number as usize];
        number += 1;
        add_row(rt, transaction, order, key, number, line, amount)?;
    }
    Ok(())
}

/// Reads the absent record of line `number`, from 1, of an order, with this OL_AMOUNT, and says what it is to hold.
/// `OutOfMemory` is the only refusal.
fn add_row<R: Wait, K: Start>(
    rt: &R,
    transaction: &mut Transaction<'_, K>,
    _order: &NewOrderInput,
    key: OrderKey,
    number: u32,
    line: &RequestedLine,
    amount: Cents,
) -> Result<(), Refusal>
    requires key { IsOrderKey K.tables.scale key }
    requires number { IsNumber MAX_ORDER_LINES number }
    requires amount { amount ≡ line_amount K.tables line.now }
    ensures added { (rows : List RequestedLine) → number ≡ length rows + 1
        → AreTaken K.tables _order.now key rows [] (with_last K.tables _order.now key transaction.old) []
        → OnOk result (AreTaken K.tables _order.now key (rows ++ line.now ∷ []) []
        (with_last K.tables _order.now key transaction.new) []) }
    ensures goes_on { GoesOn 1 1 transaction.old transaction.new }
    ensures only_memory { IfErr result (λ refusal. refusal ≡ OutOfMemory) }
{
    let own = key.line_key(number);
    transaction.read(rt, RecordKey::OrderLine(own))?;
    put_row(transaction, own, &line_row(line, amount))
}
