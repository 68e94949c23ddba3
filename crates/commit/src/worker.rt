//! Where a worker of the machine stands, and what it knows of a record.
ghost use Rattle.std.specs.Prelude.{◌≡◌};

mod changes;

use crate::notes::held;
use crate::tid::Tid;
use crate::value::Value;
use std::alloc::Global;
use std::marker::Model;
use tidword::TidWord;

/// How far a worker's transaction is.
#[derive(Clone, Copy, Debug, PartialEq, Eq)]
pub enum Phase {
    /// It has had none.
    Idle,
    /// It reads and locks.
    Begun,
    /// It has read its epoch, and validates.
    Entered,
    /// It has its TID, and installs.
    Chosen,
    /// Its validation or its choice of a TID failed, and it unlocks.
    Failed,
}

/// A record: its TID word, with the three status bits, and its value, which an absent one hasn't.
#[derive(Clone, Copy, Debug, PartialEq, Eq)]
pub struct Cell {
    pub word: TidWord,
    pub value: Option<Value>,
}

impl Cell {
    ghost use Rattle.std.specs.Prelude.{true, false, MatchOption};
    ghost use Rattle.tidword.specs.TidWord.{is_locked};
    ghost use Rattle.commit.specs.Events.{locked_cell, unlocked_cell};

    /// The record once it is locked. None where it is locked already.
    pub(crate) fn locked(self) -> Option<Cell>
        ensures { MatchOption result (is_locked self.word ≡ true)
            (λ locked. (is_locked self.word ≡ false) × (locked ≡ locked_cell self)) }
    {
        if self.word.is_locked() {
            return None;
        }
        Some(Cell {
            word: TidWord::new(self.word.word() + 1),
            value: self.value,
        })
    }

    /// The record once it is unlocked.
    pub(crate) fn unlocked(self) -> Cell
        ensures { result ≡ unlocked_cell self }
    {
        Cell {
            word: TidWord::new(self.word.word().saturating_sub(1)),
            value: self.value,
        }
    }
}

/// What a worker has read of a record: its TID, without status bits, and its value.
#[derive(Clone, Copy, Debug, PartialEq, Eq)]
pub struct Version {
    pub tid: Tid,
    pub value: Option<Value>,
}

/// A worker: what it has read and has yet to validate, what it has validated, what it has locked and is to write, the
/// epoch that it read, and the TID that it took last (Silo, section 4.4). Contracts see it as the `Worker` of the
/// machine.
#[derive(Drop)]
pub struct Worker {
    phase: Phase,
    reads: Vec<(u32, Version)>,
    validated: Vec<(u32, Version)>,
    locks: Vec<(u32, Option<Value>)>,
    epoch: u32,
    last: Tid,
}

impl Model for Worker {
    ghost use Rattle.commit.specs.Machine as machine;

    ghost Value = { machine.Worker };

    ghost view = { λ w. record {
      phase = w.phase;
      reads = w.reads.items;
      validated = w.validated.items;
      locks =
          w.locks.items;
      epoch = w.epoch;
      last = w.last;
    } };
}

impl Worker {
    ghost use Rattle.std.specs.Prelude.{[], IsTrue, ◌↔◌, ◌<◌, None, Some, IsSome, MatchOption, All};
    ghost use Rattle.commit.specs.declared.worker.Phase.TheVariants.{Begun, Entered, Chosen, Failed};
    ghost use Rattle.commit.specs.Machine.{IsIdle, note_at, idle_worker};
    ghost use Rattle.tidword.specs.TidWord.{installed_word};
    ghost use Rattle.tidword.specs.Lawful.{next};

    /// A worker that has had no transaction. Takes no memory.
    pub(crate) fn new(alloc: Global) -> Worker
        ensures { result ≡ idle_worker }
    {
        Worker {
            phase: Phase::Idle,
            reads: Vec::new(alloc),
            validated: Vec::new(alloc),
            locks: Vec::new(alloc),
            epoch: 0,
            last: Tid::zero(),
        }
    }

    /// How far it is.
    pub(crate) fn phase(&self) -> Phase
        ensures { result ≡ self.now.phase }
    {
        self.phase
    }

    /// Whether it may begin a transaction.
    pub(crate) fn is_idle(&self) -> bool
        ensures { IsTrue result ↔ IsIdle self.now }
    {
        let is_over = matches!(self.phase, Phase::Idle | Phase::Chosen | Phase::Failed);
        is_over && self.locks.is_empty()
    }

    /// Whether it may read this record. Costs a pass over what it has read.
    pub(crate) fn may_read(&self, number: u32) -> bool
        ensures { IsTrue result ↔ ((self.now.phase ≡ Begun) × (self.now.locks ≡ [])
            × (note_at self.now.reads number ≡ None)) }
    {
        self.phase == Phase::Begun && self.locks.is_empty() && held(&self.reads, number).is_none()
    }

    /// Whether it may lock this record, if that is unlocked. Costs a pass over what it has locked.
    pub(crate) fn may_lock(&self, number: u32) -> bool
        ensures { IsTrue result ↔ ((self.now.phase ≡ Begun) × All (λ lock. lock.0 < number) self.now.locks) }
    {
        self.phase == Phase::Begun && self.locks.iter().all(|lock| lock.0 < number)
    }

    /// Whether it may take its TID.
    pub(crate) fn may_choose(&self) -> bool
        ensures { IsTrue result ↔ ((self.now.phase ≡ Entered) × (self.now.reads ≡ [])) }
    {
        self.phase == Phase::Entered && self.reads.is_empty()
    }

    /// What it may validate of this record. Costs a pass over what it has yet to validate.
    pub(crate) fn to_validate(&self, number: u32) -> Option<Version>
        ensures { MatchOption result
            (¬ ((self.now.phase ≡ Entered) × IsSome (note_at self.now.reads number)))
            (λ version. (self.now.phase ≡ Entered) × (note_at self.now.reads number ≡ Some version)) }
    {
        if self.phase != Phase::Entered {
            return None;
        }
        held(&self.reads, number)
    }

    /// What it may install in this record. Costs a pass over what it has locked.
    pub(crate) fn to_install(&self, number: u32) -> Option<Option<Value>>
        ensures { MatchOption result
            (¬ ((self.now.phase ≡ Chosen) × IsSome (note_at self.now.locks number)))
            (λ value. (self.now.phase ≡ Chosen) × (note_at self.now.locks number ≡ Some value)) }
    {
        if self.phase != Phase::Chosen {
            return None;
        }
        held(&self.locks, number)
    }

    /// What it has locked, and is to write.
    pub(crate) fn locks(&self) -> &[(u32, Option<Value>)]
        ensures { result.now ≡ self.now.locks }
    {
        &self.locks
    }

    /// The TID that it would take in its epoch, of the greatest that it has seen. None where there is none left.
    pub(crate) fn next(&self, seen: Tid) -> Option<Tid>
        ensures { result ≡ next seen self.now.last self.now.epoch }
    {
        Tid::next(seen, self.last, self.epoch)
    }

    /// A record as it leaves it that writes this there, by its last TID.
    pub(crate) fn installed(&self, value: Option<Value>) -> Cell
        ensures { result ≡ record { word = installed_word self.now.last value; value = value } }
    {
        let word = self.last.installed(&value);
        Cell { word, value }
    }

    /// Whether it may unlock this record. Costs a pass over what it has locked.
    pub(crate) fn may_unlock(&self, number: u32) -> bool
        ensures { IsTrue result ↔ ((self.now.phase ≡ Failed) × IsSome (note_at self.now.locks number)) }
    {
        self.phase == Phase::Failed && held(&self.locks, number).is_some()
    }
}
