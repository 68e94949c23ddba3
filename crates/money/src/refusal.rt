//! Why a call gave no value.
ghost use Rattle.std.specs.Prelude.{◌≡◌};

use std::alloc::{AllocError, AllocFailed};
use std::error::Error;
use std::fmt;

/// Why a call gave no value. After any refusal the state is as before the call, unless the call says
/// otherwise.
#[derive(Clone, Copy, Debug, PartialEq, Eq)]
pub enum Refusal {
    /// Memory was wanted and refused.
    OutOfMemory,
    /// A field of an input, or a text, is outside its range.
    BadInput,
    /// No consistent tables agree with what a transaction read, so it read at several moments.
    Stale,
    /// A record that a transaction read has changed since (Silo, section 4.4).
    Conflict,
    /// An order line names an item that isn't in ITEM, which rolls New-Order back (TPC-C 2.4.1.5).
    ItemNotValid {
        /// The first such item of the order.
        item: u32,
    },
    /// The district's order numbers have reached the order cap.
    OrdersFull,
    /// The commits have reached the commit cap.
    CommitsFull,
    /// No epoch, or no transaction number in an epoch, is left (Silo, sections 4.1 and 4.2).
    EpochFull,
    /// A device failed: a disk, a file, or a standard stream.
    Device,
    /// The bytes of a log aren't in its grammar, or the log belongs to another database.
    Damaged,
    /// Logs that lack a commit of an epoch that they are to have whole.
    Gap,
    /// A transaction met a conflict at each of its tries.
    GaveUp,
    /// A number of a scale is outside its limits.
    BadScale,
    /// A line of a script is in none of the forms.
    BadLine,
}

impl Refusal {
    ghost use Rattle.std.specs.Prelude.{◌⊎◌, ◌↔◌, IsTrue};
    ghost use Rattle.money.specs.Refusal.{refusal_number, refusal_name};
    ghost use Rattle.money.specs.declared.refusal.Refusal.TheVariants.{Stale, Conflict};

    /// The number of this refusal, from 1 to 14.
    pub fn number(self) -> u8
        ensures { result ≡ refusal_number self }
    {
        match self {
            Refusal::OutOfMemory => 1,
            Refusal::BadInput => 2,
            Refusal::Stale => 3,
            Refusal::Conflict => 4,
            Refusal::ItemNotValid { .. } => 5,
            Refusal::OrdersFull => 6,
            Refusal::CommitsFull => 7,
            Refusal::EpochFull => 8,
            Refusal::Device => 9,
            Refusal::Damaged => 10,
            Refusal::Gap => 11,
            Refusal::GaveUp => 12,
            Refusal::BadScale => 13,
            Refusal::BadLine => 14,
        }
    }

    /// The name of this refusal.
    pub fn name(self) -> &'static str
        ensures { result.now ≡ refusal_name self }
    {
        match self {
            Refusal::OutOfMemory => "OutOfMemory",
            Refusal::BadInput => "BadInput",
            Refusal::Stale => "Stale",
            Refusal::Conflict => "Conflict",
            Refusal::ItemNotValid { .. } => "ItemNotValid",
            Refusal::OrdersFull => "OrdersFull",
            Refusal::CommitsFull => "CommitsFull",
            Refusal::EpochFull => "EpochFull",
            Refusal::Device => "Device",
            Refusal::Damaged => "Damaged",
            Refusal::Gap => "Gap",
            Refusal::GaveUp => "GaveUp",
            Refusal::BadScale => "BadScale",
            Refusal::BadLine => "BadLine",
        }
    }

    /// Whether a transaction that is refused so is tried again: exactly where what it read wasn't or isn't the latest.
    pub fn is_retried(self) -> bool
        ensures { IsTrue result ↔ (self ≡ Stale) ⊎ (self ≡ Conflict) }
    {
        matches!(self, Refusal::Stale | Refusal::Conflict)
    }
}

/// The number, a space and the name, as `9 Device`.
impl fmt::Display for Refusal {
    ghost use Rattle.std.specs.Prelude.{Some};
    ghost use Rattle.money.specs.Refusal.{refusal_text};

    ghost output = { λ r. Some (refusal_text r) };

    fn fmt<W: fmt::Write>(&self, f: &mut fmt::Formatter<W>) -> fmt::Result {
        let (number, name) = (self.number(), self.name());
        write!(f, "{number} {name}")
    }
}

impl Error for Refusal {}

impl From<AllocError> for Refusal {
    ghost use Rattle.std.specs.Prelude.{◌≡◌};
    ghost use Rattle.money.specs.declared.refusal.Refusal.TheVariants.{OutOfMemory};

    ghost from_gives = { λ _ r. r ≡ OutOfMemory };

    fn from(_e: AllocError) -> Refusal {
        Refusal::OutOfMemory
    }
}

impl<T: Drop> From<AllocFailed<T>> for Refusal {
    ghost use Rattle.std.specs.Prelude.{◌≡◌};
    ghost use Rattle.money.specs.declared.refusal.Refusal.TheVariants.{OutOfMemory};

    ghost from_gives = { λ _ r. r ≡ OutOfMemory };

    fn from(_e: AllocFailed<T>) -> Refusal {
        Refusal::OutOfMemory
    }
}
