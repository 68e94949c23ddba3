//! Where a log file stands behind what it has so far.
use tables::limits::MAX_MARK;

/// The last mark, and the last entry's epoch.
#[derive(Clone, Copy, Debug, PartialEq, Eq)]
pub struct Last {
    pub mark: u64,
    pub epoch: u64,
}

impl Last {
    ghost use Rattle.std.specs.Prelude.{◌≡◌};
    ghost use Rattle.log_text.specs.Bodies.{may_be_void, start};

    /// Where a file stands behind its header: epochs are at least 1.
    pub fn start() -> Last
        ensures { result ≡ start }
    {
        Last { mark: 0, epoch: 1 }
    }

    /// Whether the epochs from `low` to `high` may be declared void by a body where a file stands there.
    pub fn may_be_void(self, low: u64, high: u64) -> bool
        ensures { result ≡ may_be_void self low high }
    {
        1 <= low && low <= high && self.mark <= high && self.epoch <= high && high <= MAX_MARK
    }
}
