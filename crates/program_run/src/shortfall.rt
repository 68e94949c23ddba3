//! Why commits of a run aren't durable.
ghost use Rattle.std.specs.Prelude.{◌≡◌, ◌≢◌, ◌↔◌, ◌<◌, ◌≤◌, false, None, All, IfSome, IsTrue};
ghost use Rattle.money.specs.declared.refusal.Refusal.TheVariants.{Device};
ghost use Rattle.program_run.specs.Told.{IsShortBy};

use log_disk::Disk;
use money::Refusal;
use run_threads::{Counts, Written};

/// What kept a logger of a run from making durable what it was to.
#[derive(Clone, Copy, Debug, PartialEq, Eq)]
pub struct Shortfall {
    /// The number of the logger.
    pub logger: u16,
    /// What its last turn came to: `Device`, where its device failed; `OutOfMemory`, where it had no memory for its
    /// last batch; `EpochFull`, where it appended all, but the last epoch is behind no mark.
    pub refusal: Refusal,
    /// How many commits of the run weren't acknowledged.
    pub lost: u64,
}

/// What kept commits of a run from being durable, if some weren't acknowledged, or the first logger that stopped, if
/// one did: the first logger whose device failed, or else the first that had no memory. Where there is none such, all
/// was appended, and only E, which the first logger's clock couldn't advance, can have held the marks back.
pub(crate) fn shortfall_of<D: Disk>(counts: &Counts, files: &[Written<D>]) -> Option<Shortfall>
    ensures none { result ≡ None → counts.now.commits ≤ counts.now.acknowledged }
    ensures short { IfSome result (λ shortfall. IsShortBy counts.now shortfall.refusal shortfall.lost) }
    ensures stopped { IfSome result (λ shortfall. shortfall.refusal ≢ Device)
        ↔ All (λ file. file.has_stopped ≡ false) files.now }
{
    let lost = counts.commits.saturating_sub(counts.acknowledged);
    if !all_went_on(files) {
        return Some(Shortfall {
            logger: number_of(files.iter().find(|file| file.has_stopped)),
            refusal: Refusal::Device,
            lost,
        });
    }
    if lost == 0 {
        return None;
    }
    let lacking = files.iter().find(|file| file.lacks_memory);
    Some(Shortfall {
        refusal: match lacking {
            Some(_) => Refusal::OutOfMemory,
            None => Refusal::EpochFull,
        },
        logger: number_of(lacking),
        lost,
    })
}

/// Whether no logger has stopped.
fn all_went_on<D: Disk>(files: &[Written<D>]) -> bool
    ensures { IsTrue result ↔ All (λ file. file.has_stopped ≡ false) files.now }
{
    files.iter().all(|file| !file.has_stopped)
}

/// The number of the logger of a file, and that of the first without one.
fn number_of<D: Disk>(file: Option<&Written<D>>) -> u16 {
    file.map_or(0, |file| file.logger.file().header().logger)
}
