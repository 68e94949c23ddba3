//! Refusals of executions, as they are at the committed tables.
ghost use Rattle.std.specs.Prelude.{◌≡◌, ◌+◌, ◌⊎◌, length, MatchBool};
ghost use Rattle.money.specs.declared.refusal.Refusal.TheVariants.{OutOfMemory, OrdersFull, Stale};
ghost use Rattle.tables.specs.Inputs.{IsInput};
ghost use Rattle.tables.specs.Apply.{HasOrderNumber};
ghost use Rattle.tables.specs.NewOrder.{IsNewOrder, HasNumber};
ghost use Rattle.cells.specs.Records.{ReaderView};
ghost use Rattle.readset.specs.Refused.{IsRefusal};
ghost use Rattle.book.specs.History.{replay};
ghost use Rattle.book.specs.Next.{IsRefusedAt};

use crate::book::Book;
use crate::run::Run;
use cells::Cells;
use money::Refusal;
use rows::column::D_NEXT_O_ID;
use tables::{Input, NewOrderInput, RecordKey, Scale, number_of_key};

impl<K: Run> Book<K> {
    /// A refusal of an execution as it is at the committed tables. That no order number is left may have been read at
    /// older ones, so it is looked up there: where one is left, what was read is stale. Constant time, no memory.
    pub fn confirmed(&mut self, cells: &Cells, input: &Input, refusal: Refusal) -> Refusal
        requires cells { cells.now ≡ K.run.cells }
        requires input { IsInput K.run.first.scale input.now }
        requires refusal { (old : ReaderView) × ((new : ReaderView) × IsRefusal K.run.first input.now old new refusal) }
        ensures same { self.new ≡ self.old }
        ensures there { (result ≡ Stale) ⊎ (result ≡ OutOfMemory)
            ⊎ IsRefusedAt (replay K.run.first self.old.history) (K.run.past + length self.old.history) input.now result }
        ensures stale { result ≡ Stale → (refusal ≡ Stale)
            ⊎ ((refusal ≡ OrdersFull) × HasOrderNumber (replay K.run.first self.old.history) input.now) }
        ensures memory { result ≡ OutOfMemory → refusal ≡ OutOfMemory }
    {
        match refusal {
            Refusal::OrdersFull => {
                let scale = self.scale();
                if has_order_number(self, cells, &scale, input) {
                    Refusal::Stale
                } else {
                    Refusal::OrdersFull
                }
            }
            refusal => refusal,
        }
    }

    /// The scale of the run.
    fn scale(&self) -> Scale
        ensures { result ≡ K.run.first.scale }
    {
        self.population.scale()
    }
}

/// Whether a transaction has an order number at the committed tables, where it makes an order.
fn has_order_number<K: Run>(book: &mut Book<K>, cells: &Cells, scale: &Scale, input: &Input) -> bool
    requires cells { cells.now ≡ K.run.cells }
    requires scale { scale.now ≡ K.run.first.scale }
    requires input { IsInput K.run.first.scale input.now }
    ensures same { book.new ≡ book.old }
    ensures number { MatchBool result
        (HasOrderNumber (replay K.run.first book.old.history) input.now)
        (¬ HasOrderNumber (replay K.run.first book.old.history) input.now) }
{
    match input {
        Input::NewOrder(order) => has_number(book, cells, scale, order),
        Input::Payment(_) | Input::Delivery(_) | Input::OrderStatus(_) | Input::StockLevel(_) =>
            true,
    }
}

/// Whether D_NEXT_O_ID of an order's district is within the order cap.
fn has_number<K: Run>(
    book: &mut Book<K>,
    cells: &Cells,
    scale: &Scale,
    order: &NewOrderInput,
) -> bool
    requires cells { cells.now ≡ K.run.cells }
    requires scale { scale.now ≡ K.run.first.scale }
    requires input { IsNewOrder K.run.first.scale order.now }
    ensures same { book.new ≡ book.old }
    ensures number { MatchBool result
        (HasNumber (replay K.run.first book.old.history) order.now)
        (¬ HasNumber (replay K.run.first book.old.history) order.now) }
{
    let number = number_of_key(scale, RecordKey::District(order.home()));
    match book.record(cells, number) {
        Some(words) => words[D_NEXT_O_ID] <= u64::from(scale.orders()),
        None => true,
    }
}
