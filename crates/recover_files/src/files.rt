//! The bodies of a database's log files.
ghost use Rattle.std.specs.Prelude.{◌≡◌, ◌≢◌, ◌↔◌, ◌+◌, ◌<◌, ◌≤◌, ◌^◌, ℕ, List, length};
ghost use Rattle.std.specs.Prelude.{IfOk, IfErr, IsErrOf, IsTrue};
ghost use Rattle.money.specs.declared.refusal.Refusal.TheVariants.{OutOfMemory, Damaged, Device};
ghost use Rattle.log_disk.specs.Calls.{CountsDevice, OnlyReads};
ghost use Rattle.log_header.specs.Header.{header_of_version, header_view};
ghost use Rattle.log_text.specs.Bodies.{BodyView};
ghost use Rattle.log_text.specs.File.{IsFile};
ghost use Rattle.population.specs.Initial.{initial, seed_of};
ghost use Rattle.recover_files.specs.Files.{headers_from, ReadsFiles};
ghost use Rattle.recover_found.specs.Found.{bodies_in};

use crate::file_set::FileSet;
use log_disk::Disk;
use log_header::{Header, VERSION};
use log_scan::scan_noted;
use log_text::Body;
use money::Refusal;
use population::Population;
use recover_progress::Progress;
use std::alloc::Global;

/// The bodies of the log files of some loggers of a population's database, which has so many: of those from the first
/// of these disks' on, in their order. All are of one version. Each is noted as it is read.
///
/// # Errors
///
/// `Device` where a call of a disk fails, and only there. `Damaged` where a file is no log file of this population's
/// database, of its logger and of that many loggers, or is of another version than the first. `OutOfMemory`. The first
/// file that refuses decides.
pub(crate) fn read_some<D: Disk>(
    alloc: Global,
    population: &Population,
    loggers: usize,
    first: usize,
    disks: &mut [D],
    progress: &Progress,
) -> Result<FileSet, Refusal>
    requires { first + length disks.old ≤ loggers }
    ensures { ReadsFiles D.is_modelled D.seen D.story D.failed
        (headers_from first loggers (initial population.now).scale (seed_of population.now)) disks.old disks.new
        result }
{
    let mut files = FileSet::new(alloc);
    for n in 0..disks.len() {
        let (version, bodies) = read_one(
            alloc,
            population,
            first + n,
            loggers,
            &mut disks[n],
            progress,
        )?;
        files.push(version, bodies)?;
    }
    Ok(files)
}

/// The version and the bodies of the file of this logger, whose header must be that of the population's database and of
/// so many loggers, in whatever version.
fn read_one<D: Disk>(
    alloc: Global,
    population: &Population,
    logger: usize,
    loggers: usize,
    disk: &mut D,
    progress: &Progress,
) -> Result<(u32, Vec<Body>), Refusal>
    ensures found { IfOk result (λ x. (file : List ℕ) × (length file < 2 ^ 64)
        × (D.is_modelled → file ≡ D.seen disk.old)
        × IsFile file (header_of_version x.0 logger loggers (initial population.now).scale (seed_of population.now))
        (bodies_in x.1.items)) }
    ensures damaged { IsErrOf result Damaged → (file : List ℕ) × (D.is_modelled → file ≡ D.seen disk.old)
        × ((version : ℕ) (bodies : List BodyView) → IsFile file
        (header_of_version version logger loggers (initial population.now).scale (seed_of population.now)) bodies
        → ⊥) }
    ensures counts { CountsDevice result (D.failed disk.old) (D.failed disk.new) }
    ensures others { IfErr result (λ refusal. (refusal ≢ OutOfMemory) → (refusal ≢ Device) → refusal ≡ Damaged) }
    ensures reads { OnlyReads D.is_modelled D.seen D.story disk.old disk.new }
{
    let (header, bodies) = scan_noted(alloc, disk, progress)?;
    if !is_of_some_version(&header, population, logger, loggers) {
        return Err(Refusal::Damaged);
    }
    Ok((header.version, bodies))
}

/// Whether a header is that of this logger, one of so many, and of the population's database, in the version that is
/// written today.
pub fn is_of(header: &Header, population: &Population, logger: usize, loggers: usize) -> bool
    ensures { IsTrue result ↔ (header.now ≡ header_view logger loggers (initial population.now).scale
        (seed_of population.now)) }
{
    header.version == VERSION && is_of_some_version(header, population, logger, loggers)
}

/// The same in whatever version.
fn is_of_some_version(
    header: &Header,
    population: &Population,
    logger: usize,
    loggers: usize,
) -> bool
    ensures { IsTrue result ↔ (header.now ≡ header_of_version header.now.version logger loggers
        (initial population.now).scale (seed_of population.now)) }
{
    usize::from(header.logger) == logger
        && usize::from(header.loggers) == loggers
        && header.scale == population.scale()
        && header.seed == population.seed()
}
