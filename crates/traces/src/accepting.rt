//! The checker.
ghost use Rattle.std.specs.Prelude.{◌≡◌, ◌↔◌, ℕ, IfOk, IsTrue, length};
ghost use Rattle.logfile.specs.Standing.{LogFileView};
ghost use Rattle.recover_crashes.specs.World.{Life, DiskView, World, opening};
ghost use Rattle.traces.specs.Shown.{ShowsWorld};
ghost use Rattle.traces.specs.Told.{AreStarts, IsTraceOf, MayBeTakenInTurn};

use crate::follower::Follower;
use crate::step::{Start, Step};
use crate::trace::Trace;
use money::Refusal;
use std::alloc::Global;

/// Whether these steps of a life that begins behind this epoch may be taken one after another, the first of them first:
/// each tells of an event of the crash world, which may happen there. Costs a pass over the steps, one over the history
/// for each logger, and one over the texts.
///
/// # Errors
///
/// `OutOfMemory`; `BadInput` where a number of 64 bits is too small: for the epoch behind that one, or for the place
/// where a file's text would end.
pub fn accepts(
    alloc: Global,
    base: u64,
    starts: &[Start],
    trace: &Trace<'_>,
    steps: &[Step],
) -> Result<bool, Refusal>
    requires { length starts.now ≡ length trace.now.disks }
    ensures { IfOk result (λ accepted. (life : Life) (files : ℕ → LogFileView DiskView)
        → IsTraceOf life trace.now → life.plan.base ≡ base → AreStarts life trace.now starts.now files
        → IsTrue accepted ↔ MayBeTakenInTurn life trace.now (opening life.plan files) steps.now) }
{
    let mut follower = Follower::new(alloc, base, starts)?;
    follow_all(&mut follower, alloc, trace, steps)
}

/// Takes steps until one may not be taken, and tells whether all may.
fn follow_all(
    follower: &mut Follower,
    alloc: Global,
    trace: &Trace<'_>,
    steps: &[Step],
) -> Result<bool, Refusal>
    ensures { IfOk result (λ accepted. (life : Life) (w : World) → IsTraceOf life trace.now
        → ShowsWorld trace.now follower.old w → IsTrue accepted ↔ MayBeTakenInTurn life trace.now w steps.now) }
{
    for step in steps {
        if !follower.follow(alloc, trace, *step)? {
            return Ok(false);
        }
    }
    Ok(true)
}
