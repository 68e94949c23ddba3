//! What is wrong with a void body.
ghost use Rattle.std.specs.Prelude.{◌≡◌};
ghost use Rattle.log_flaws.specs.Voids.{range_flaw, void_flaw};

use log_codec::u64_at;
use log_text::{Last, VOID_MARK};
use tables::limits::MAX_MARK;

/// The length of a void body: what stands in its mark's place, two epochs, and the next gate.
const VOID_BYTES: u64 = 25;

/// What keeps bytes that begin as a void body from being one that may stand there: the first such thing.
#[derive(Clone, Copy, Debug, PartialEq, Eq)]
pub enum VoidFlaw {
    /// Its length isn't 25.
    OtherLength,
    /// It begins at epoch 0.
    BeginsAtZero,
    /// It begins behind its end.
    EndsTooEarly,
    /// It ends past the greatest mark.
    EndsTooLate,
    /// It ends before a mark or an entry's epoch that stands in front of it.
    EndsBeforeOthers,
}

impl VoidFlaw {
    ghost use Rattle.std.specs.Prelude.{◌≡◌};
    ghost use Rattle.log_flaws.specs.Texts.{void_flaw_text};

    /// How it is told.
    pub fn told(self) -> &'static str
        ensures { result.now ≡ void_flaw_text self }
    {
        match self {
            VoidFlaw::OtherLength => "its length isn't 25",
            VoidFlaw::BeginsAtZero => "it begins at epoch 0",
            VoidFlaw::EndsTooEarly => "it begins behind its end",
            VoidFlaw::EndsTooLate => "it ends behind epoch 4294967294",
            VoidFlaw::EndsBeforeOthers => "it ends before a mark or an epoch in front of it",
        }
    }
}

/// The flaw of a void body of these epochs, where a file stands there.
fn range_flaw(last: Last, low: u64, high: u64) -> Option<VoidFlaw>
    ensures { result ≡ range_flaw last low high }
{
    if low == 0 {
        Some(VoidFlaw::BeginsAtZero)
    } else if high < low {
        Some(VoidFlaw::EndsTooEarly)
    } else if MAX_MARK < high {
        Some(VoidFlaw::EndsTooLate)
    } else if high < last.mark || high < last.epoch {
        Some(VoidFlaw::EndsBeforeOthers)
    } else {
        None
    }
}

/// The flaw of the void body as which bytes begin, where a file stands there; None where they begin as no void body, or
/// none of these flaws is theirs.
#[tactic(auto, unfolding(crate::specs::Voids::void_flaw))]
pub(crate) fn void_flaw(last: Last, bytes: &[u8]) -> Option<VoidFlaw>
    ensures { result ≡ void_flaw last bytes.now }
{
    let (length, rest) = u64_at(bytes)?;
    let (mark, rest) = u64_at(rest)?;
    if mark != VOID_MARK {
        return None;
    }
    if length != VOID_BYTES {
        return Some(VoidFlaw::OtherLength);
    }
    let (low, rest) = u64_at(rest)?;
    let (high, _) = u64_at(rest)?;
    range_flaw(last, low, high)
}
