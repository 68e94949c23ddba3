//! A worker takes its TID (Silo, section 4.4: the end of phase 2).
ghost use Rattle.std.specs.Prelude.{◌≡◌, ◌<◌, length};
ghost use Rattle.commit.specs.declared.event.Event.TheVariants.{ChooseTid};
ghost use Rattle.commit.specs.Machine.{worker};
ghost use Rattle.commit.specs.Events.{seen_by};
ghost use Rattle.commit.specs.State.{IsStep};

use crate::state::State;
use crate::tid::Tid;
use money::Refusal;

impl State {
    /// A worker takes its TID.
    pub(super) fn choose_tid(&mut self, worker: u16) -> Result<(), Refusal>
        ensures { IsStep self.old (ChooseTid worker) result self.new }
    {
        let at = usize::from(worker);
        if at >= self.workers.len() || !self.workers[at].may_choose() {
            return Err(Refusal::BadInput);
        }
        let seen = self.seen_by(at);
        let chooser = &mut self.workers[at];
        let tid = chooser.next(seen);
        chooser.choose(tid);
        self.finished = chooser.count(self.finished);
        Ok(())
    }

    /// The greatest TID of what a worker has validated and locked. Costs a pass over that.
    fn seen_by(&self, at: usize) -> Tid
        requires { at < length self.now.workers }
        ensures { result ≡ seen_by self.now (worker self.now at) }
    {
        let worker = &self.workers[at];
        let mut greatest = worker.greatest_read();
        for lock in worker.locks() {
            greatest = greatest.max(Tid::of(self.cell(lock.0).word));
        }
        greatest
    }
}
