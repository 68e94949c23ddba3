//! Which crate executes an input: one arm a transaction.
ghost use Rattle.std.specs.Prelude.{◌≡◌, IfOk, IfErr, OnOk};
ghost use Rattle.tables.specs.Inputs.{IsInput};
ghost use Rattle.population.specs.Initial.{initial};
ghost use Rattle.cells.specs.Records.{HasGrown};
ghost use Rattle.readset.specs.Cells.{AreCellsOf};
ghost use Rattle.readset.specs.Reads.{AreRead};
ghost use Rattle.readset.specs.Explains.{Explains, IsWithinLimits};
ghost use Rattle.readset.specs.Refused.{NoneMissing, IsAboveCap, IsRefusal};
ghost use Rattle.readset.specs.Transaction.{IsExecuted};

use cells::{Cells, Reader};
use money::Refusal;
use population::Population;
use readset::{Start, Transaction, Work};
use std::alloc::Global;
use std::marker::Brand;
use std::mem;
use std::sync::Wait;
use tables::Input;

/// Executes a transaction: reads its records once each, and says what it is to write and to reply if it commits. No
/// cell changes. Costs what its kind costs.
///
/// # Errors
///
/// `ItemNotValid`, with the first such item, exactly where an order's item isn't in ITEM. Else `OrdersFull` exactly
/// where its D_NEXT_O_ID as read is above the order cap. Else `Stale` only where no tables of this population at which
/// it may have read have the versions that this call has read. `OutOfMemory` at any time. After a refusal, too, the
/// reader has seen what it had seen, and perhaps more.
#[inline(always)]
pub fn execute<R: Wait>(
    rt: &R,
    alloc: Global,
    cells: &Cells,
    reader: &mut Reader,
    population: &Population,
    input: &Input,
) -> Result<Work, Refusal>
    requires input { IsInput (initial population.now).scale input.now }
    requires own { reader.old.cells ≡ cells.now }
    requires cells { AreCellsOf (initial population.now).scale cells.now }
    ensures input { IfOk result (λ work. work.input ≡ input.now) }
    ensures none_missing { OnOk result (NoneMissing (initial population.now) input.now) }
    ensures within_cap { IfOk result (λ work. ¬ IsAboveCap (initial population.now).scale input.now work.reads) }
    ensures read { IfOk result (λ work. AreRead reader.old reader.new work.reads) }
    ensures explains { IfOk result (λ work.
        Explains (initial population.now) input.now work.reads work.writes work.reply) }
    ensures limits { IfOk result (λ work. IsWithinLimits cells.now work.reads work.writes) }
    ensures grown { HasGrown reader.old reader.new }
    ensures refused { IfErr result (IsRefusal (initial population.now) input.now reader.old reader.new) }
{
    let taken = mem::replace(reader, Reader::new(alloc));
    let (after, work) = run::<Brand, R>(rt, alloc, cells, taken, population, input);
    *reader = after;
    work
}

/// The same of a reader of its own.
#[inline(always)]
fn run<K: Start, R: Wait>(
    rt: &R,
    alloc: Global,
    cells: &Cells,
    reader: Reader,
    population: &Population,
    input: &Input,
) -> (Reader, Result<Work, Refusal>)
    requires input { IsInput K.tables.scale input.now }
    requires tables { initial population.now ≡ K.tables }
    requires reader { reader ≡ K.reader }
    requires own { reader.cells ≡ cells.now }
    requires cells { AreCellsOf K.tables.scale cells.now }
    ensures { IsExecuted K.tables input.now K.reader result.0 result.1 }
{
    let transaction = Transaction::<K>::begin(alloc, cells, population, reader);
    match input {
        Input::Payment(payment) => payment::execute(rt, alloc, transaction, payment),
        Input::NewOrder(order) => neworder::execute(rt, alloc, transaction, order),
        Input::Delivery(delivery) => delivery::execute(rt, alloc, transaction, delivery),
        Input::OrderStatus(query) => queries::order_status(rt, alloc, transaction, query),
        Input::StockLevel(query) => queries::stock_level(rt, alloc, transaction, query),
    }
}
