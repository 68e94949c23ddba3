//! Why a run was refused.
ghost use Rattle.std.specs.Prelude.{◌≡◌, None};

use log_flaws::FileFlaw;
use money::Refusal;
use program_recovery::{Beyond, Misnumbered};
use std::alloc::{AllocError, AllocFailed};
use std::io::Error;

/// A refusal, and what is known of why.
#[derive(Debug, Drop)]
pub struct Fault {
    /// The refusal.
    pub refusal: Refusal,
    /// Why, where that is known and there was memory for it.
    pub cause: Option<Cause>,
}

/// Why a run was refused.
#[derive(Debug, Drop)]
pub enum Cause {
    /// The file of this path, or the folder of the files, couldn't be used.
    Unusable { path: String, trouble: Trouble },
    /// The file of this path isn't the log file that it is to be.
    Flawed { path: String, flaw: FileFlaw },
    /// The file of this path is of this version, which is read, but not gone on with.
    Older { path: String, version: u64 },
    /// The commits that log files have lack one, or have one twice.
    Amiss(Misnumbered),
    /// The files are whole, but what they recover to no commits can have made, in this column if one is known.
    Unsound(Option<Beyond>),
    /// The logger of the file of this path had no memory for its last batch; so many commits aren't durable.
    Unlogged { path: String, commits: u64 },
    /// So many commits of the last epoch aren't durable, since the file of this path can have no mark behind it.
    InLastEpoch { path: String, commits: u64 },
}

/// What log files are used for.
#[derive(Clone, Copy, Debug, PartialEq, Eq)]
pub enum Purpose {
    /// To be read: they are there.
    Read,
    /// To be made, and then written: they aren't there yet.
    Create,
    /// To be read, and then written behind what they hold: they are there.
    Append,
}

impl Purpose {
    ghost use Rattle.std.specs.Prelude.{◌≡◌};
    ghost use Rattle.program_files.specs.Logs.{broken_off};

    /// What it is called that a file of this purpose couldn't be used on, once it was open, where the call that failed
    /// writes or not.
    pub(crate) fn broken_off(self, writes: bool, error: Error) -> Trouble
        ensures { result ≡ broken_off self writes error }
    {
        match self {
            Purpose::Read => Trouble::NotRead(error),
            Purpose::Create => Trouble::NotWritten(error),
            Purpose::Append if writes => Trouble::NotWritten(error),
            Purpose::Append => Trouble::NotRead(error),
        }
    }
}

/// What couldn't be done with a file, and why, which is the system's to say.
#[derive(Clone, Copy, Debug)]
pub enum Trouble {
    /// It couldn't be made.
    NotCreated(Error),
    /// It couldn't be made, since it is there.
    Exists(Error),
    /// It is there, but none of those in front of it.
    Alone,
    /// Something is there that no start that was killed can have left.
    NotLeft,
    /// It couldn't be given its name.
    NotNamed(Error),
    /// It couldn't be opened.
    NotOpened(Error),
    /// It couldn't be locked.
    NotLocked(Error),
    /// Another process has locked it.
    InUse,
    /// Its bytes couldn't be read.
    NotRead(Error),
    /// It couldn't be written, or its bytes not be made durable.
    NotWritten(Error),
    /// The names in the folder couldn't be made durable.
    NotSynced(Error),
}

impl Trouble {
    ghost use Rattle.std.specs.Prelude.{◌≡◌};
    ghost use Rattle.program_files.specs.Causes.{reason_of, trouble_of};

    /// What it is called.
    pub fn name(&self) -> &'static str
        ensures { result.now ≡ trouble_of self.now }
    {
        match self {
            Trouble::NotCreated(_) => "can't be created",
            Trouble::Exists(_) => {
                "can't be created, and the file that is there is left as it is (--resume goes on with it)"
            }
            Trouble::Alone => "is there without log-0",
            Trouble::NotLeft => "is there, and isn't what a start that was killed leaves",
            Trouble::NotNamed(_) => "can't be given this name",
            Trouble::NotOpened(_) => "can't be opened",
            Trouble::NotLocked(_) => "can't be locked",
            Trouble::InUse => "in use by another process",
            Trouble::NotRead(_) => "can't be read",
            Trouble::NotWritten(_) => "can't be written",
            Trouble::NotSynced(_) => "can't be synced",
        }
    }

    /// The system's reason, if it is one of its own.
    pub fn reason(&self) -> Option<Error>
        ensures { result ≡ reason_of self.now }
    {
        match self {
            Trouble::NotCreated(error)
            | Trouble::Exists(error)
            | Trouble::NotNamed(error)
            | Trouble::NotOpened(error)
            | Trouble::NotLocked(error)
            | Trouble::NotRead(error)
            | Trouble::NotWritten(error)
            | Trouble::NotSynced(error) => Some(*error),
            Trouble::Alone | Trouble::NotLeft | Trouble::InUse => None,
        }
    }
}

impl Fault {
    /// A refusal of which no more is known.
    pub fn of(refusal: Refusal) -> Fault
        ensures { result ≡ record { refusal = refusal; cause = None } }
    {
        Fault {
            refusal,
            cause: None,
        }
    }
}

impl From<Refusal> for Fault {
    ghost use Rattle.std.specs.Prelude.{◌≡◌, None};

    ghost from_gives = { λ refusal fault. fault ≡ record { refusal = refusal; cause = None } };

    fn from(refusal: Refusal) -> Fault {
        Fault::of(refusal)
    }
}

impl From<AllocError> for Fault {
    ghost use Rattle.std.specs.Prelude.{◌≡◌, None};
    ghost use Rattle.money.specs.declared.refusal.Refusal.TheVariants.{OutOfMemory};

    ghost from_gives = { λ _ fault. fault ≡ record { refusal = OutOfMemory; cause = None } };

    fn from(_e: AllocError) -> Fault {
        Fault::of(Refusal::OutOfMemory)
    }
}

impl<T: Drop> From<AllocFailed<T>> for Fault {
    ghost use Rattle.std.specs.Prelude.{◌≡◌, None};
    ghost use Rattle.money.specs.declared.refusal.Refusal.TheVariants.{OutOfMemory};

    ghost from_gives = { λ _ fault. fault ≡ record { refusal = OutOfMemory; cause = None } };

    fn from(_e: AllocFailed<T>) -> Fault {
        Fault::of(Refusal::OutOfMemory)
    }
}
