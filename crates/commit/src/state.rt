//! The commit protocol, to run.
ghost use Rattle.std.specs.Prelude.{◌≡◌, ◌<◌, ◌↔◌, length, IsTrue, IfOk, IfErr};
ghost use Rattle.money.specs.declared.refusal.Refusal.TheVariants.{OutOfMemory};
ghost use Rattle.commit.specs.declared.worker.Phase.TheVariants.{Failed};

mod choosing;
mod executing;
mod installing;
mod validating;

use crate::event::Event;
use crate::value::Value;
use crate::worker::{Cell, Phase, Worker};
use money::{NO_PAYLOAD, Refusal};
use std::alloc::Global;
use std::marker::Model;
use tidword::TidWord;

/// The records, the workers, and the epoch of the commit protocol (Silo, section 4.4), which goes from event to event.
/// Contracts see it as the `Machine`. It takes the memory of its records and workers, and of what the workers have
/// read and locked.
#[derive(Drop)]
pub struct State {
    records: Vec<Cell>,
    workers: Vec<Worker>,
    epoch: u32,
    finished: u32,
}

impl Model for State {
    ghost use Rattle.commit.specs.Machine.{Machine};

    ghost Value = { Machine };

    ghost view = { λ s. record {
      records = s.records.items;
      workers = s.workers.items;
      epoch = s.epoch;
      finished =
          s.finished;
    } };
}

impl State {
    ghost use Rattle.commit.specs.Machine.{IsOpening, cell, worker};
    ghost use Rattle.commit.specs.Events.{with_cell};
    ghost use Rattle.commit.specs.State.{fresh, IsStep};

    /// So many records, each with the word 2 (epoch 0, the latest version) and words 0, and so many workers, none
    /// of which has had a transaction, in epoch 1. A run may begin here. Costs a step a record and a worker.
    ///
    /// # Errors
    ///
    /// `OutOfMemory`, and no other.
    pub fn new(alloc: Global, records: u32, workers: u16) -> Result<State, Refusal>
        ensures made { IfOk result (λ state. state ≡ fresh records workers) }
        ensures opening { IsOpening (fresh records workers) }
        ensures only_memory { IfErr result (λ refusal. refusal ≡ OutOfMemory) }
    {
        let populated = Cell {
            word: TidWord::POPULATED,
            value: Some(Value::narrow(NO_PAYLOAD)),
        };
        let cells = vec![in alloc; populated; records as usize]?;
        let mut idle = Vec::with_capacity(alloc, usize::from(workers))?;
        for _worker in 0..workers {
            idle.push(Worker::new(alloc))?;
        }
        Ok(State {
            records: cells,
            workers: idle,
            epoch: 1,
            finished: 0,
        })
    }

    /// What this event does (Silo, section 4.4). Costs a pass over what its worker has read and locked, and no memory
    /// but for a Read, a Lock and a Validate, which note one record more.
    ///
    /// # Errors
    ///
    /// `BadInput` exactly where the event may not happen, and else `OutOfMemory`. The state is then as before.
    pub fn step(&mut self, event: Event) -> Result<(), Refusal>
        ensures step { IsStep self.old event result self.new }
        ensures records { length self.new.records ≡ length self.old.records }
        ensures workers { length self.new.workers ≡ length self.old.workers }
    {
        match event {
            Event::Begin { worker } => self.begin(worker),
            Event::Read { worker, record } => self.read(worker, record),
            Event::Lock {
                worker,
                record,
                value,
            } => self.lock(worker, record, value),
            Event::ReadEpoch { worker } => self.read_epoch(worker),
            Event::Validate { worker, record } => self.validate(worker, record),
            Event::ChooseTid { worker } => self.choose_tid(worker),
            Event::Install { worker, record } => self.install(worker, record),
            Event::Unlock { worker, record } => self.unlock(worker, record),
            Event::AdvanceEpoch => self.advance_epoch(),
        }
    }

    /// The TID word of this record, with its status bits. Constant time, no memory.
    pub fn word(&self, number: u32) -> TidWord
        requires { number < length self.now.records }
        ensures { result ≡ (cell self.now number).word }
    {
        self.records[number as usize].word
    }

    /// The epoch, from 1 to 4,294,967,295. Constant time, no memory.
    pub fn epoch(&self) -> u64
        ensures { result ≡ self.now.epoch }
    {
        u64::from(self.epoch)
    }

    /// Whether this worker's transaction has failed: from its failure until it begins another. Constant time, no
    /// memory.
    pub fn failed(&self, number: u16) -> bool
        requires { number < length self.now.workers }
        ensures { IsTrue result ↔ ((worker self.now number).phase ≡ Failed) }
    {
        self.workers[usize::from(number)].phase() == Phase::Failed
    }

    /// How many transactions have installed all that they wrote; it stays at 4,294,967,295. Constant time, no memory.
    pub fn finished(&self) -> u32
        ensures { result ≡ self.now.finished }
    {
        self.finished
    }

    /// A record, and an empty one beyond the last.
    fn cell(&self, number: u32) -> Cell
        ensures { result ≡ cell self.now number }
    {
        match self.records.get(number as usize) {
            Some(cell) => *cell,
            None => Cell {
                word: TidWord::POPULATED,
                value: None,
            },
        }
    }

    /// Another record, if this one is there.
    fn put(&mut self, number: u32, cell: Cell)
        ensures { self.new ≡ with_cell self.old number cell }
    {
        if let Some(place) = self.records.get_mut(number as usize) {
            *place = cell;
        }
    }
}
