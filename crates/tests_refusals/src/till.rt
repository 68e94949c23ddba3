//! An engine whose terminal pays, and the file of its logger.
ghost use Rattle.std.specs.Prelude.{◌≡◌, ◌<◌, [], IfOk};
ghost use Rattle.tables.specs.Inputs.{IsInput};
ghost use Rattle.book.specs.Parts.{IsOpenedAs, IsLedgerOf, loggers_of};

use crate::again::Again;
use crate::looks::{Look, look_at};
use board::ClockSeat;
use book::{Batch, Done, Engine, Parts, Run, Seat, Seats};
use log_disk::Disk;
use log_header::Header;
use logfile::LogFile;
use money::{Cents, Refusal};
use std::alloc::Global;
use std::marker::Model;
use std::sync::Wait;
use std::sync::atomic::{AtomicU64, Ordering};
use tables::{Input, PaymentInput, Who};
use tests_one_logger::{append_to, commit};

/// An engine with its clock, its first terminal, the file of its one logger, and how many calls the file's disk has
/// done.
#[derive(Drop)]
pub(crate) struct Till<'a, K: Run, D: Disk + Drop> {
    engine: Engine<K>,
    clock: ClockSeat,
    terminal: Seat<K>,
    file: LogFile<D>,
    calls: &'a AtomicU64,
}

impl<'a, K: Run, D: Disk + Drop> Model for Till<'a, K, D> {
    ghost use Rattle.std.specs.Prelude.{◌≡◌, ◌<◌};

    ghost Value = { Unit {0} };

    ghost view = { λ t. tt };

    ghost invariant = { λ t. (t.clock.board ≡ K.run.board) × (0 < K.run.board.plan.loggers) };
}

impl<'a, K: Run, D: Disk + Drop> Till<'a, K, D> {
    /// An engine in epoch 1 in which nothing has committed, and a new file on an empty disk.
    pub(crate) fn open(
        alloc: Global,
        parts: Parts,
        disk: D,
        calls: &'a AtomicU64,
    ) -> Result<Till<'a, K, D>, Refusal>
        requires run { IsOpenedAs parts K.run }
        requires ledger { IsLedgerOf parts K.name K.parts }
        requires loggers { loggers_of parts ≡ 1 }
        requires empty { D.is_modelled → D.seen disk ≡ [] }
    {
        let (engine, clock, terminal) = opened::<K>(parts)?;
        let header = Header::new(engine.population().scale(), 0, 0, 1);
        Ok(Till {
            engine,
            clock,
            terminal,
            file: LogFile::create(alloc, disk, header)?,
            calls,
        })
    }
}

impl<K: Run, D: Disk + Drop> Till<'_, K, D> {
    fn look<R: Wait>(&self, rt: &R) -> Look {
        let calls = self.calls.load(Ordering::SeqCst);
        look_at(rt, &self.engine, &self.file, calls)
    }

    /// A customer pays 1.00, in an epoch of its own: executes and commits that. Once more, where memory is refused.
    pub(crate) fn pay<R: Wait>(
        &mut self,
        rt: &R,
        alloc: Global,
        again: &mut Again,
        customer: u32,
    ) -> Result<u32, Refusal> {
        let before = self.look(rt);
        let mut outcome = self.committed(rt, alloc, customer);
        if let Err(Refusal::OutOfMemory) = &outcome {
            again.note(self.look(rt) == before);
            outcome = self.committed(rt, alloc, customer);
        }
        let done = outcome?;
        self.engine.board().advance(&mut self.clock)?;
        Ok(done.number())
    }

    fn committed<R: Wait>(
        &mut self,
        rt: &R,
        alloc: Global,
        customer: u32,
    ) -> Result<Done, Refusal> {
        let input = payment_of(&self.engine, customer)?;
        commit(rt, alloc, &self.engine, &mut self.terminal, &input)
    }

    /// Appends what has committed. Once more, where memory is refused.
    pub(crate) fn append<R: Wait>(&mut self, rt: &R, again: &mut Again) -> Result<(), Refusal> {
        let batch = self.take(rt);
        let before = self.look(rt);
        match append_to(&mut self.file, &batch) {
            Err(Refusal::OutOfMemory) => {
                again.note(self.look(rt) == before);
                append_to(&mut self.file, &batch)
            }
            outcome => outcome,
        }
    }

    /// What has committed since the last take.
    fn take<R: Wait>(&self, rt: &R) -> Batch {
        self.engine.lock(rt).take(self.engine.board(), 0)
    }
}

/// The engine that opens with these parts, its clock and its first terminal.
fn opened<K: Run>(parts: Parts) -> Result<(Engine<K>, ClockSeat, Seat<K>), Refusal>
    requires run { IsOpenedAs parts K.run }
    requires ledger { IsLedgerOf parts K.name K.parts }
    ensures clock { IfOk result (λ x. x.1.board ≡ K.run.board) }
    ensures loggers { 0 < K.run.board.plan.loggers }
{
    let (engine, seats) = Engine::<K>::open(parts);
    let Seats {
        clock,
        loggers: _,
        mut terminals,
    } = seats;
    let terminal = terminals.next().ok_or(Refusal::BadInput)?;
    Ok((engine, clock, terminal))
}

/// The Payment of 1.00 by a customer of district 1 to that district, with date 1.
fn payment_of<K: Run>(engine: &Engine<K>, customer: u32) -> Result<Input, Refusal>
    ensures { IfOk result (λ input. IsInput K.run.first.scale input) }
{
    let payment = PaymentInput {
        date: 1,
        warehouse: 1,
        district: 1,
        customer_warehouse: 1,
        customer_district: 1,
        who: Who::Id(customer),
        amount: Cents::new(100),
    };
    Input::payment(&engine.population().scale(), payment)
}
