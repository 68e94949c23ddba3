//! A gate before whose commits another terminal pays.
ghost use Rattle.std.specs.Prelude.{◌≡◌};
ghost use Rattle.tables.specs.Inputs.{IsInput};

use book::{Done, Engine, Run, Seat, Share};
use cells::Reader;
use money::{Cents, Refusal};
use std::alloc::Global;
use std::marker::Model;
use std::sync::Wait;
use tables::{Input, PaymentInput, Who};
use terminals::{Calls, Gate};
use transactions::execute;

/// Another terminal of an engine, which only pays.
#[derive(Drop)]
pub(crate) struct Payer<K: Run> {
    reader: Reader,
    share: Share<K>,
}

impl<K: Run> Model for Payer<K> {
    ghost use Rattle.std.specs.Prelude.{◌≡◌};

    ghost Value = { Unit {0} };

    ghost view = { λ p. tt };

    ghost invariant = { λ p. p.reader.cells ≡ K.run.cells };
}

impl<K: Run> Payer<K> {
    /// At a seat.
    pub(crate) fn new(seat: Seat<K>) -> Payer<K> {
        let Seat {
            reader,
            board: _,
            share,
        } = seat;
        Payer { reader, share }
    }

    /// Commits a Payment of customer 3 of the first district, there.
    fn pay<R: Wait>(&mut self, rt: &R, alloc: Global, engine: &Engine<K>) -> Result<Done, Refusal> {
        let paid = PaymentInput {
            date: 1,
            warehouse: 1,
            district: 1,
            customer_warehouse: 1,
            customer_district: 1,
            who: Who::Id(3),
            amount: Cents::new(100),
        };
        let input = Input::payment(&engine.population().scale(), paid)?;
        self.commit(rt, alloc, engine, &input)
    }

    fn commit<R: Wait>(
        &mut self,
        rt: &R,
        alloc: Global,
        engine: &Engine<K>,
        input: &Input,
    ) -> Result<Done, Refusal>
        requires { IsInput K.run.first.scale input.now }
    {
        let (board, cells) = (engine.board(), engine.cells());
        let work = execute(
            rt,
            alloc,
            cells,
            &mut self.reader,
            engine.population(),
            input,
        )?;
        engine
            .lock(rt)
            .commit(rt, board, cells, &mut self.reader, &mut self.share, work)
    }
}

/// A gate before whose commits, so often, another terminal pays: of what a Payment to that warehouse has read, its row
/// is then no longer the latest.
#[derive(Drop)]
pub(crate) struct Rival<'a, K: Run, R: Wait> {
    pub(crate) rt: &'a R,
    pub(crate) alloc: Global,
    pub(crate) engine: &'a Engine<K>,
    pub(crate) payer: Payer<K>,
    pub(crate) left: u32,
    pub(crate) calls: Calls,
}

impl<'a, K: Run, R: Wait> Gate for Rival<'a, K, R> {
    ghost calls = { λ gate. gate.calls };

    fn before_execute(&mut self) {
        self.calls.before_execute();
    }

    fn before_commit(&mut self) {
        if self.left > 0 && self.payer.pay(self.rt, self.alloc, self.engine).is_ok() {
            self.left -= 1;
        }
        self.calls.before_commit();
    }

    fn after_commit(&mut self) {
        self.calls.after_commit();
    }
}
