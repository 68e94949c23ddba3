//! The disks and gates of a run that is recorded.
ghost use Rattle.std.specs.Prelude.{◌≡◌, length, IfOk};

use crate::notes::Notes;
use crate::recorder::Recorder;
use crate::tape::Tape;
use crate::teller::Teller;
use money::Refusal;
use std::alloc::{AllocError, Global};
use terminals::Calls;
use tests_disks::{FailingDisk, Fault};

/// How a life's disks are: which call of them fails, if one does, and how often terminals ask for their replies before a
/// sync that is held. More often than there are terminals, and one of them asks twice.
#[derive(Clone, Copy, Debug, PartialEq, Eq)]
pub struct Ways {
    pub fault: Option<Fault>,
    pub asks: u64,
}

/// A disk of a run that is recorded.
pub type Recorded<'a> = Recorder<'a, FailingDisk<'a>>;

/// A disk, recorded.
fn recorder<'a>(notes: &'a Notes, tape: &'a mut Tape, ways: Ways) -> Recorded<'a> {
    Recorder {
        disk: FailingDisk::new(&mut tape.memory, ways.fault),
        notes,
        stamps: &mut tape.stamps,
        asks: ways.asks,
    }
}

/// The disks, recorded.
pub fn recorded<'a>(
    alloc: Global,
    notes: &'a Notes,
    tapes: &'a mut [Tape],
    ways: Ways,
) -> Result<Vec<Recorded<'a>>, AllocError> {
    let mut all = Vec::new(alloc);
    for tape in tapes.iter_mut() {
        all.push(recorder(notes, tape, ways))?;
    }
    Ok(all)
}

/// The terminals' gates.
pub fn tellers<'a>(
    alloc: Global,
    notes: &'a Notes,
    terminals: u16,
) -> Result<Vec<Teller<'a>>, Refusal>
    ensures { IfOk result (λ gates. length gates.items ≡ terminals) }
{
    let mut gates = Vec::new(alloc);
    for terminal in 0..terminals {
        gates.push(Teller {
            calls: Calls::default(),
            notes,
            terminal: u64::from(terminal),
        })?;
    }
    if gates.len() != usize::from(terminals) {
        return Err(Refusal::BadInput);
    }
    Ok(gates)
}
