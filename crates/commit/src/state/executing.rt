//! A worker begins, reads and locks (Silo, section 4.4: execution and phase 1).
ghost use Rattle.std.specs.Prelude.{◌≡◌};
ghost use Rattle.commit.specs.declared.event.Event.TheVariants.{Begin, Read, Lock};
ghost use Rattle.commit.specs.State.{IsStep};

use crate::state::State;
use crate::tid::Tid;
use crate::value::Value;
use crate::worker::Version;
use money::Refusal;

impl State {
    /// A worker begins.
    pub(super) fn begin(&mut self, worker: u16) -> Result<(), Refusal>
        ensures { IsStep self.old (Begin worker) result self.new }
    {
        let at = usize::from(worker);
        if at >= self.workers.len() || !self.workers[at].is_idle() {
            return Err(Refusal::BadInput);
        }
        self.workers[at].begin();
        Ok(())
    }

    /// A worker reads a record.
    pub(super) fn read(&mut self, worker: u16, number: u32) -> Result<(), Refusal>
        ensures { IsStep self.old (Read worker number) result self.new }
    {
        let at = usize::from(worker);
        if at >= self.workers.len() || number as usize >= self.records.len() {
            return Err(Refusal::BadInput);
        }
        if !self.workers[at].may_read(number) {
            return Err(Refusal::BadInput);
        }
        let cell = self.cell(number);
        let version = Version {
            tid: Tid::of(cell.word),
            value: cell.value,
        };
        self.workers[at].read(number, version)
    }

    /// A worker locks a record.
    pub(super) fn lock(
        &mut self,
        worker: u16,
        number: u32,
        value: Option<Value>,
    ) -> Result<(), Refusal>
        ensures { IsStep self.old (Lock worker number value) result self.new }
    {
        let at = usize::from(worker);
        if at >= self.workers.len() || number as usize >= self.records.len() {
            return Err(Refusal::BadInput);
        }
        if !self.workers[at].may_lock(number) {
            return Err(Refusal::BadInput);
        }
        let Some(locked) = self.cell(number).locked() else {
            return Err(Refusal::BadInput);
        };
        self.workers[at].lock(number, value)?;
        self.put(number, locked);
        Ok(())
    }
}
