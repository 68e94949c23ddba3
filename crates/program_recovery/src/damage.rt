//! The first log file that is none of the database's.
ghost use Rattle.std.specs.Prelude.{◌≡◌, ◌≢◌, ◌<◌, ◌≤◌, ℕ, List, [], length, map, slice_index_or};
ghost use Rattle.std.specs.Prelude.{IfOk, IfErr, IfSome, MatchOption, Ok};
ghost use Rattle.std.specs.Option.{option_map_or};
ghost use Rattle.money.specs.declared.refusal.Refusal.TheVariants.{OutOfMemory, Device};
ghost use Rattle.tables.specs.Sizes.{IsBetween};
ghost use Rattle.tables.specs.declared.limits.TheConstants.{MAX_LOGGERS};
ghost use Rattle.log_disk.specs.Calls.{OnlyReads};
ghost use Rattle.log_header.specs.declared.header.TheConstants.{OLDEST_VERSION, VERSION};
ghost use Rattle.log_text.specs.Bodies.{BodyView};
ghost use Rattle.log_text.specs.File.{IsFile};
ghost use Rattle.log_flaws.specs.Flaws.{HasFlaw};
ghost use Rattle.population.specs.Initial.{initial, seed_of};
ghost use Rattle.program_recovery.specs.Flaws.{IsAskedVersion, IsDamage, IsLogFileOf, IsVersionOf};

use log_disk::Disk;
use log_flaws::{Examined, FileFlaw, examine};
use log_header::{Header, VERSION, read_header};
use log_scan::{text, text_of_size};
use money::Refusal;
use population::Population;
use recover_progress::Progress;
use std::alloc::Global;

/// A file that is no log file of the database and its logger.
#[derive(Clone, Copy, Debug, PartialEq, Eq)]
pub struct Damage {
    /// The number of the logger.
    pub logger: u16,
    /// What is wrong with its file.
    pub flaw: FileFlaw,
}

/// Of which version log files are asked to be.
#[derive(Clone, Copy, Debug, PartialEq, Eq)]
pub enum AskedVersion {
    /// Of that of the first file, since recovery reads files of any one.
    First,
    /// Of that which is written today, since whoever goes on behind files writes it.
    Today,
}

/// What `recover` and a restart refuse by `Damaged`: of log files, in their order, the first that is none of the
/// population's database and of its logger in the version that is asked for, and its first flaw; None where there is
/// none such. It reads the disks once more, the first one twice where its file's version is the one that is asked for,
/// and writes nothing. There are 8 disks at most.
///
/// # Errors
///
/// `Device` where a call of a disk fails, `OutOfMemory`.
pub fn first_damage<D: Disk>(
    alloc: Global,
    population: &Population,
    asked: AskedVersion,
    disks: &mut [D],
) -> Result<Option<Damage>, Refusal>
    requires { length disks.old ≤ MAX_LOGGERS }
    ensures damage { IfOk result (λ found. IfSome found (λ damage. (first file : List ℕ)
        × (D.is_modelled → first ≡ slice_index_or (map D.seen disks.old) 0 [])
        × (D.is_modelled → file ≡ slice_index_or (map D.seen disks.old) damage.logger [])
        × IsDamage asked (initial population.now).scale (seed_of population.now) (length disks.old) first file
        damage)) }
    ensures first { D.is_modelled → IfOk result (λ found. (version : ℕ)
        × IsAskedVersion asked (slice_index_or (map D.seen disks.old) 0 []) version
        × ((l : ℕ) → l < option_map_or (λ damage. damage.logger) found (length disks.old)
        → IsLogFileOf version (initial population.now).scale (seed_of population.now) l (length disks.old)
        (slice_index_or (map D.seen disks.old) l []))) }
    ensures cause { IfErr result (λ refusal. (refusal ≢ OutOfMemory) → refusal ≡ Device) }
    ensures reads { OnlyReads D.is_modelled (map D.seen) (map D.story) disks.old disks.new }
{
    let version = version_asked(alloc, asked, disks)?;
    let loggers = disks.len() as u16;
    for logger in 0..loggers {
        let today = Header::new(population.scale(), population.seed(), logger, loggers);
        let wanted = Header { version, ..today };
        let disk = &mut disks[usize::from(logger)];
        if let Some(flaw) = flaw_on(alloc, &wanted, disk)? {
            return Ok(Some(Damage { logger, flaw }));
        }
    }
    Ok(None)
}

/// The version that is asked for of the log files on these disks.
fn version_asked<D: Disk>(
    alloc: Global,
    asked: AskedVersion,
    disks: &mut [D],
) -> Result<u32, Refusal>
    ensures asked { IfOk result (λ version. (first : List ℕ)
        × (D.is_modelled → first ≡ slice_index_or (map D.seen disks.old) 0 [])
        × IsAskedVersion asked first version) }
    ensures range { IfOk result (IsBetween OLDEST_VERSION VERSION) }
    ensures cause { IfErr result (λ refusal. (refusal ≢ OutOfMemory) → refusal ≡ Device) }
    ensures reads { OnlyReads D.is_modelled (map D.seen) (map D.story) disks.old disks.new }
    ensures count { length disks.new ≡ length disks.old }
{
    match asked {
        AskedVersion::Today => Ok(VERSION),
        AskedVersion::First => first_version(alloc, disks),
    }
}

/// The version of the first of these disks' files.
fn first_version<D: Disk>(alloc: Global, disks: &mut [D]) -> Result<u32, Refusal>
    ensures version { IfOk result (λ version. (first : List ℕ)
        × (D.is_modelled → first ≡ slice_index_or (map D.seen disks.old) 0 []) × IsVersionOf first version) }
    ensures range { IfOk result (IsBetween OLDEST_VERSION VERSION) }
    ensures cause { IfErr result (λ refusal. (refusal ≢ OutOfMemory) → refusal ≡ Device) }
    ensures reads { OnlyReads D.is_modelled (map D.seen) (map D.story) disks.old disks.new }
    ensures count { length disks.new ≡ length disks.old }
{
    if disks.is_empty() {
        return Ok(version_of(&[]));
    }
    let unshown = Progress::of(Vec::new(alloc));
    let bytes = text(alloc, &mut disks[0], &unshown)?;
    Ok(version_of(&bytes))
}

/// The version in the header with which bytes begin, and the one that is written today where they begin with none.
fn version_of(bytes: &[u8]) -> u32
    ensures version { IsVersionOf bytes.now result }
    ensures range { IsBetween OLDEST_VERSION VERSION result }
{
    match read_header(bytes) {
        Some((header, _)) => header.version,
        None => VERSION,
    }
}

/// The first flaw of the log file on a disk, which is asked to have this header.
fn flaw_on<D: Disk>(
    alloc: Global,
    asked: &Header,
    disk: &mut D,
) -> Result<Option<FileFlaw>, Refusal>
    ensures flaw { IfOk result (λ flaw. (file : List ℕ) × (D.is_modelled → file ≡ D.seen disk.old)
        × MatchOption flaw ((bodies : List BodyView) × IsFile file asked.now bodies) (HasFlaw file asked.now)) }
    ensures cause { IfErr result (λ refusal. (refusal ≢ OutOfMemory) → refusal ≡ Device) }
    ensures reads { OnlyReads D.is_modelled D.seen D.story disk.old disk.new }
{
    let unshown = Progress::of(Vec::new(alloc));
    let size = disk.len()?;
    let bytes = text_of_size(alloc, disk, size, &unshown)?;
    match examine(alloc, asked, &bytes)? {
        Examined::Whole(_) => Ok(None),
        Examined::Flawed(flaw) => Ok(Some(flaw.in_file_of(size))),
    }
}
