//! What an event makes of a worker.
ghost use Rattle.std.specs.Prelude.{◌≡◌, max, [], ◌∷◌, ◌++◌, MatchResult, option_map};
ghost use Rattle.money.specs.declared.refusal.Refusal.TheVariants.{OutOfMemory};
ghost use Rattle.commit.specs.declared.worker.Phase.TheVariants.{Begun, Entered};
ghost use Rattle.commit.specs.Machine.{without};
ghost use Rattle.commit.specs.Events.{greatest_read, still_holds, checked, after_choice, finished_by};

use crate::notes::{forget, held};
use crate::tid::Tid;
use crate::value::Value;
use crate::worker::{Cell, Phase, Version, Worker};
use money::Refusal;

impl Worker {
    /// It begins a transaction.
    pub(crate) fn begin(&mut self)
        ensures { self.new ≡ record self.old { phase = Begun; reads = [] } }
    {
        self.phase = Phase::Begun;
        self.reads.clear();
    }

    /// It has read this version of a record. Where there is no memory for that, it is as before.
    pub(crate) fn read(&mut self, number: u32, version: Version) -> Result<(), Refusal>
        ensures { MatchResult result
            (λ _. self.new ≡ record self.old { reads = self.old.reads ++ (number, version) ∷ [] })
            (λ refusal. (refusal ≡ OutOfMemory) × (self.new ≡ self.old)) }
    {
        self.reads.push((number, version))?;
        Ok(())
    }

    /// It has locked a record, and is to write this there. Where there is no memory for that, it is as before.
    pub(crate) fn lock(&mut self, number: u32, value: Option<Value>) -> Result<(), Refusal>
        ensures { MatchResult result
            (λ _. self.new ≡ record self.old { locks = self.old.locks ++ (number, value) ∷ [] })
            (λ refusal. (refusal ≡ OutOfMemory) × (self.new ≡ self.old)) }
    {
        self.locks.push((number, value))?;
        Ok(())
    }

    /// It has read this epoch.
    pub(crate) fn enter(&mut self, epoch: u32)
        ensures { self.new ≡ record self.old { phase = Entered; epoch = epoch; validated = [] } }
    {
        self.phase = Phase::Entered;
        self.epoch = epoch;
        self.validated.clear();
    }

    /// Whether its read of this version of a record stands, of which this is the cell now. Costs a pass over what it
    /// has locked.
    pub(crate) fn still_holds(&self, number: u32, version: &Version, cell: &Cell) -> bool
        ensures { result ≡ still_holds cell.now self.now number version.now }
    {
        Tid::of(cell.word) == version.tid
            && cell.word.is_latest()
            && (!cell.word.is_locked() || held(&self.locks, number).is_some())
    }

    /// It has validated its read of this version of a record, or failed. Where there is no memory for that, it is as
    /// before. Costs a pass over what it has yet to validate.
    pub(crate) fn check(
        &mut self,
        number: u32,
        version: Version,
        holds: bool,
    ) -> Result<(), Refusal>
        ensures { MatchResult result
            (λ _. self.new ≡ checked self.old number version holds)
            (λ refusal. (refusal ≡ OutOfMemory) × (self.new ≡ self.old)) }
    {
        if !holds {
            self.phase = Phase::Failed;
            return Ok(());
        }
        self.validated.push((number, version))?;
        forget(&mut self.reads, number);
        Ok(())
    }

    /// The greatest TID that it has validated. Costs a pass over what it has validated.
    pub(crate) fn greatest_read(&self) -> Tid
        ensures { result ≡ greatest_read self.now.validated }
    {
        let mut greatest = Tid::zero();
        for note in &self.validated {
            greatest = greatest.max(note.1.tid);
        }
        greatest
    }

    /// It has taken this TID, or failed where there is none.
    pub(crate) fn choose(&mut self, tid: Option<Tid>)
        ensures { self.new ≡ after_choice self.old tid }
    {
        match tid {
            Some(tid) => {
                self.phase = Phase::Chosen;
                self.last = tid;
            }
            None => self.phase = Phase::Failed,
        }
    }

    /// It holds this record's lock no more. Costs a pass over what it has locked.
    pub(crate) fn release(&mut self, number: u32)
        ensures { self.new ≡ record self.old { locks = without self.old.locks number } }
    {
        forget(&mut self.locks, number);
    }

    /// The count of finishes, once the worker stands as it does.
    pub(crate) fn count(&self, finished: u32) -> u32
        ensures { result ≡ finished_by finished self.now }
    {
        if self.phase == Phase::Chosen && self.locks.is_empty() {
            finished.saturating_add(1)
        } else {
            finished
        }
    }
}
