//! A worker reads the epoch, and validates (Silo, section 4.4: the serialization point and phase 2).
ghost use Rattle.std.specs.Prelude.{◌≡◌};
ghost use Rattle.commit.specs.declared.event.Event.TheVariants.{ReadEpoch, Validate, AdvanceEpoch};
ghost use Rattle.commit.specs.State.{IsStep};

use crate::state::State;
use crate::worker::Phase;
use money::Refusal;

impl State {
    /// A worker reads the epoch.
    pub(super) fn read_epoch(&mut self, worker: u16) -> Result<(), Refusal>
        ensures { IsStep self.old (ReadEpoch worker) result self.new }
    {
        let at = usize::from(worker);
        if at >= self.workers.len() || self.workers[at].phase() != Phase::Begun {
            return Err(Refusal::BadInput);
        }
        self.workers[at].enter(self.epoch);
        Ok(())
    }

    /// A worker validates a read.
    pub(super) fn validate(&mut self, worker: u16, number: u32) -> Result<(), Refusal>
        ensures { IsStep self.old (Validate worker number) result self.new }
    {
        let at = usize::from(worker);
        if at >= self.workers.len() {
            return Err(Refusal::BadInput);
        }
        let Some(version) = self.workers[at].to_validate(number) else {
            return Err(Refusal::BadInput);
        };
        let cell = self.cell(number);
        let holds = self.workers[at].still_holds(number, &version, &cell);
        self.workers[at].check(number, version, holds)
    }

    /// The epoch goes on.
    pub(super) fn advance_epoch(&mut self) -> Result<(), Refusal>
        ensures { IsStep self.old AdvanceEpoch result self.new }
    {
        if self.epoch == u32::MAX {
            return Err(Refusal::BadInput);
        }
        self.epoch += 1;
        Ok(())
    }
}
