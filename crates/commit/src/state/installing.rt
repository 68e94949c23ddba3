//! A worker installs what it is to write, or unlocks (Silo, section 4.4: phase 3).
ghost use Rattle.std.specs.Prelude.{◌≡◌};
ghost use Rattle.commit.specs.declared.event.Event.TheVariants.{Install, Unlock};
ghost use Rattle.commit.specs.State.{IsStep};

use crate::state::State;
use money::Refusal;

impl State {
    /// A worker installs one of the records that it has locked.
    pub(super) fn install(&mut self, worker: u16, number: u32) -> Result<(), Refusal>
        ensures { IsStep self.old (Install worker number) result self.new }
    {
        let at = usize::from(worker);
        if at >= self.workers.len() {
            return Err(Refusal::BadInput);
        }
        let installer = &mut self.workers[at];
        let Some(value) = installer.to_install(number) else {
            return Err(Refusal::BadInput);
        };
        let cell = installer.installed(value);
        installer.release(number);
        self.finished = installer.count(self.finished);
        self.put(number, cell);
        Ok(())
    }

    /// A worker that failed unlocks one of the records that it has locked.
    pub(super) fn unlock(&mut self, worker: u16, number: u32) -> Result<(), Refusal>
        ensures { IsStep self.old (Unlock worker number) result self.new }
    {
        let at = usize::from(worker);
        if at >= self.workers.len() || !self.workers[at].may_unlock(number) {
            return Err(Refusal::BadInput);
        }
        self.workers[at].release(number);
        let cell = self.cell(number);
        self.put(number, cell.unlocked());
        Ok(())
    }
}
