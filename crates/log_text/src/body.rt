//! What one append leaves in a log file.
use crate::entry::LoggedEntry;

/// The number that stands in a void body where others have their mark, which is never so large.
pub const VOID_MARK: u64 = 18_446_744_073_709_551_615;

/// A body of a log file.
#[derive(Drop)]
pub enum Body {
    /// The mark up to which the file is whole with it (Silo, section 4.10), and entries.
    Entries(u64, Vec<LoggedEntry>),
    /// The first and the last of the epochs that were given up: in no file does an entry of theirs count. The last is
    /// the mark, too.
    Void(u64, u64),
}

impl Body {
    ghost use Rattle.std.specs.Prelude.{◌≡◌};
    ghost use Rattle.log_text.specs.Bodies.{body_of, mark_of};

    /// The mark up to which the file is whole with it.
    pub fn mark(&self) -> u64
        ensures { result ≡ mark_of (body_of self.now) }
    {
        match self {
            Body::Entries(mark, _) => *mark,
            Body::Void(_, high) => *high,
        }
    }
}
