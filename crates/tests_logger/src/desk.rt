//! A terminal that pays, and holds what it is told.
ghost use Rattle.std.specs.Prelude.{◌≡◌, ◌<◌, length, IfOk};
ghost use Rattle.tables.specs.Inputs.{IsInput};
ghost use Rattle.book.specs.Book.{IsWorkOf};

use book::{Done, Engine, Run, Seat, Share};
use cells::Reader;
use money::{Cents, Refusal};
use readset::Work;
use std::alloc::Global;
use std::marker::Model;
use std::sync::Wait;
use tables::{Input, PaymentInput, Who};
use terminals::Outbox;
use transactions::execute;

/// Executes a Payment of so many cents by a customer of the first district, there.
fn payment<K: Run, R: Wait>(
    rt: &R,
    alloc: Global,
    engine: &Engine<K>,
    reader: &mut Reader,
    customer: u32,
    cents: i64,
) -> Result<Work, Refusal>
    requires { reader.old.cells ≡ K.run.cells }
    ensures reader { reader.new.cells ≡ K.run.cells }
    ensures work { IfOk result (λ work. IsWorkOf K.run.first K.run.cells reader.new work) }
{
    let paid = PaymentInput {
        date: 1,
        warehouse: 1,
        district: 1,
        customer_warehouse: 1,
        customer_district: 1,
        who: Who::Id(customer),
        amount: Cents::new(cents),
    };
    let input = Input::payment(&engine.population().scale(), paid)?;
    executed(rt, alloc, engine, reader, &input)
}

fn executed<K: Run, R: Wait>(
    rt: &R,
    alloc: Global,
    engine: &Engine<K>,
    reader: &mut Reader,
    input: &Input,
) -> Result<Work, Refusal>
    requires own { reader.old.cells ≡ K.run.cells }
    requires input { IsInput K.run.first.scale input.now }
    ensures reader { reader.new.cells ≡ K.run.cells }
    ensures work { IfOk result (λ work. IsWorkOf K.run.first K.run.cells reader.new work) }
{
    let (cells, population) = (engine.cells(), engine.population());
    execute(rt, alloc, cells, reader, population, input)
}

/// A terminal, with its outbox.
#[derive(Drop)]
pub(crate) struct Desk<K: Run> {
    reader: Reader,
    share: Share<K>,
    pub(crate) outbox: Outbox,
}

impl<K: Run> Model for Desk<K> {
    ghost use Rattle.std.specs.Prelude.{◌≡◌};

    ghost Value = { Unit {0} };

    ghost view = { λ d. tt };

    ghost invariant = { λ d. (d.reader.cells ≡ K.run.cells) × (d.outbox.seat.board ≡ K.run.board) };
}

impl<K: Run> Desk<K> {
    /// A terminal that has room for two replies.
    pub(crate) fn new(alloc: Global, seat: Seat<K>) -> Result<Desk<K>, Refusal> {
        let Seat {
            reader,
            board,
            share,
        } = seat;
        let outbox = Outbox::new(alloc, board, 2)?;
        Ok(Desk {
            reader,
            share,
            outbox,
        })
    }

    /// Commits a Payment, and holds the reply.
    pub(crate) fn pay<R: Wait>(
        &mut self,
        rt: &R,
        alloc: Global,
        engine: &Engine<K>,
        customer: u32,
        cents: i64,
    ) -> Result<(), Refusal> {
        let done = self.commit(rt, alloc, engine, customer, cents)?;
        if self.outbox.room() == 0 {
            return Err(Refusal::OutOfMemory);
        }
        self.outbox.hold(done);
        Ok(())
    }

    fn commit<R: Wait>(
        &mut self,
        rt: &R,
        alloc: Global,
        engine: &Engine<K>,
        customer: u32,
        cents: i64,
    ) -> Result<Done, Refusal> {
        let work = payment(rt, alloc, engine, &mut self.reader, customer, cents)?;
        let (board, cells) = (engine.board(), engine.cells());
        engine
            .lock(rt)
            .commit(rt, board, cells, &mut self.reader, &mut self.share, work)
    }

    /// How many replies are released.
    pub(crate) fn acknowledge(&mut self, engine: &Engine<K>) -> u64 {
        self.outbox.acknowledge(engine.board())
    }
}
