//! Why a run on log files was refused.
ghost use Rattle.std.specs.Prelude.{◌≡◌, ◌≤◌, ◌++◌, ℕ, List, length, IfSome};
ghost use Rattle.money.specs.declared.refusal.Refusal.TheVariants.{Damaged, Device, Gap};
ghost use Rattle.tables.specs.declared.limits.TheConstants.{MAX_LOGGERS};
ghost use Rattle.log_header.specs.Header.{HeaderView, IsHeader, header_text};
ghost use Rattle.log_flaws.specs.declared.field.HeaderField.TheVariants.{Version};
ghost use Rattle.log_flaws.specs.declared.flaw.FileFlaw.TheVariants.{OtherHeader};
ghost use Rattle.program_recovery.specs.Flaws.{IsDamage};
ghost use Rattle.program_recovery.specs.declared.damage.AskedVersion.TheVariants.{Today};
ghost use Rattle.population.specs.Initial.{initial, seed_of};
ghost use Rattle.program_options.specs.declared.asked.LogFiles.{LogFiles as LogFilesValue};
ghost use Rattle.program_files.specs.Causes.{Flawed, Older, cause_of, cause_view};
ghost use Rattle.program_files.specs.Logs.{AreUnready, HasBroken, HasOtherLoggers, IsBeyondOf, IsOlder, IsWhy, path_of};
ghost use Rattle.program_files.specs.declared.fault.Purpose.{Purpose as PurposeValue};
ghost use Rattle.program_files.specs.declared.fault.Purpose.TheVariants.{Append};

use crate::fault::{Cause, Fault, Purpose, Trouble};
use crate::header::HEADER_BYTES;
use crate::logs::path;
use log_disk::{Disk, FileDisk};
use log_flaws::{FileFlaw, HeaderField};
use log_header::read_header;
use money::Refusal;
use population::Population;
use program_options::LogFiles;
use program_recovery::{AskedVersion, Beyond, Damage, beyond_reach, first_damage, first_gap};
use std::alloc::Global;
use std::io::ErrorKind;
use tables::limits::MAX_LOGGERS;

/// The fault of log files that aren't ready, where those in front of the one at fault are on these disks. Where that
/// one isn't there, and the first file is of another number of loggers, it tells of these, unless memory is short.
pub(crate) fn unready(
    alloc: Global,
    files: &LogFiles,
    purpose: Purpose,
    fault: Fault,
    disks: &mut [FileDisk],
) -> Fault
    requires { AreUnready purpose files.now fault.refusal (cause_of fault) }
    ensures { AreUnready purpose files.now result.refusal (cause_of result) }
{
    if purpose == Purpose::Create || !is_absent(&fault) {
        return fault;
    }
    match other_loggers(alloc, files, disks) {
        Some(cause) => Fault {
            refusal: Refusal::Device,
            cause: Some(cause),
        },
        None => fault,
    }
}

/// Whether it is that of a file that isn't there.
fn is_absent(fault: &Fault) -> bool {
    match &fault.cause {
        Some(
            Cause::Unusable {
                trouble: Trouble::NotOpened(error),
                ..
            },
        ) => error.kind() == ErrorKind::NotFound,
        _ => false,
    }
}

/// The first file, which is on the first of these disks, where it is of another number of loggers. None where it is of
/// that one, or it can't be told.
fn other_loggers(alloc: Global, files: &LogFiles, disks: &mut [FileDisk]) -> Option<Cause>
    ensures { IfSome result (λ cause. HasOtherLoggers files.now (cause_view cause)) }
{
    let found = loggers_told(disks)?;
    let asked = files.loggers;
    if u32::from(found) == asked {
        return None;
    }
    let path = path(alloc, files, 0).ok()?;
    let flaw = FileFlaw::OtherHeader {
        field: HeaderField::Loggers,
        found: u64::from(found),
        asked: u64::from(asked),
    };
    Some(Cause::Flawed { path, flaw })
}

/// The number of loggers in the header of the first file, which is on the first of these disks. None where it can't be
/// told.
fn loggers_told(disks: &mut [FileDisk]) -> Option<u16>
    ensures { IfSome result (λ loggers. (h : HeaderView) × (first rest : List ℕ) × IsHeader h
        × (first ≡ header_text h ++ rest) × (loggers ≡ h.loggers)) }
{
    if disks.is_empty() {
        return None;
    }
    let mut bytes = [0; HEADER_BYTES];
    match disks[0].read_at(0, &mut bytes) {
        Ok(()) => loggers_in(&bytes),
        Err(_) => None,
    }
}

/// The number of loggers in the header with which bytes begin. None where they begin with none.
fn loggers_in(bytes: &[u8]) -> Option<u16>
    ensures { IfSome result (λ loggers. (h : HeaderView) × (rest : List ℕ) × IsHeader h
        × (bytes.now ≡ header_text h ++ rest) × (loggers ≡ h.loggers)) }
{
    match read_header(bytes) {
        Some((header, _)) => Some(header.loggers),
        None => None,
    }
}

/// The fault of a refusal that came once the disks in log files were in use. Where a device failed, it tells the first
/// file on whose disk a call has, unless memory is short.
pub fn broken_off(
    alloc: Global,
    files: &LogFiles,
    purpose: Purpose,
    refusal: Refusal,
    disks: &[FileDisk],
) -> Fault
    ensures refusal { result.refusal ≡ refusal }
    ensures cause { IfSome (cause_of result) (HasBroken purpose files.now refusal) }
{
    match refusal {
        Refusal::Device => Fault {
            refusal,
            cause: broken_file(alloc, files, purpose, disks),
        },
        _ => Fault::of(refusal),
    }
}

/// The first file on whose disk a call has failed. None where none has, or for want of memory.
fn broken_file(
    alloc: Global,
    files: &LogFiles,
    purpose: Purpose,
    disks: &[FileDisk],
) -> Option<Cause>
    ensures { IfSome result (λ cause. HasBroken purpose files.now Device (cause_view cause)) }
{
    for (logger, disk) in (0..files.loggers).zip(disks) {
        if let Some(error) = disk.last_error() {
            let path = path(alloc, files, logger).ok()?;
            return Some(Cause::Unusable {
                path,
                trouble: purpose.broken_off(disk.has_failed_to_write(), error),
            });
        }
    }
    None
}

/// The fault of a recovery, or a restart, that was refused. It tells the file that couldn't be used, or what is wrong
/// with the files, for which it reads them once more, unless memory is short.
pub fn unrecovered(
    alloc: Global,
    population: &Population,
    files: &LogFiles,
    purpose: Purpose,
    refusal: Refusal,
    disks: &mut [FileDisk],
) -> Fault
    requires { length disks.old ≡ files.now.loggers }
    ensures refusal { result.refusal ≡ refusal }
    ensures cause { IfSome (cause_of result) (IsWhy purpose files.now (initial population.now).scale
        (seed_of population.now) refusal) }
{
    match refusal {
        Refusal::Damaged => Fault {
            refusal,
            cause: damaged_file(alloc, population, files, purpose, disks),
        },
        Refusal::Gap => Fault {
            refusal,
            cause: gap_in(alloc, population, disks),
        },
        _ => broken_off(alloc, files, purpose, refusal, disks),
    }
}

/// The first file that isn't the log file that it is to be; where all are, files that are to be gone on with recover to
/// what no commits can have made. None where it can't be told.
fn damaged_file(
    alloc: Global,
    population: &Population,
    files: &LogFiles,
    purpose: Purpose,
    disks: &mut [FileDisk],
) -> Option<Cause>
    requires { length disks.old ≡ files.now.loggers }
    ensures { IfSome result (λ cause. IsWhy purpose files.now (initial population.now).scale (seed_of population.now)
        Damaged (cause_view cause)) }
{
    // A command line lets no more through.
    if disks.len() > usize::from(MAX_LOGGERS) {
        return None;
    }
    match purpose {
        Purpose::Append => unresumable(alloc, population, files, disks),
        _ => match first_damage(alloc, population, AskedVersion::First, disks) {
            Ok(Some(damage)) => flawed(alloc, files, &damage),
            _ => None,
        },
    }
}

/// What keeps files from being gone on with: the first that isn't the log file that it is to be, or that is of an older
/// version; or what they recover to.
fn unresumable(
    alloc: Global,
    population: &Population,
    files: &LogFiles,
    disks: &mut [FileDisk],
) -> Option<Cause>
    requires loggers { length disks.old ≡ files.now.loggers }
    requires few { length disks.old ≤ MAX_LOGGERS }
    ensures { IfSome result (λ cause. IsWhy Append files.now (initial population.now).scale (seed_of population.now)
        Damaged (cause_view cause)) }
{
    match first_damage(alloc, population, AskedVersion::Today, disks) {
        Ok(Some(damage)) => unwritable(alloc, population, files, &damage, disks),
        Ok(None) => Some(Cause::Unsound(beyond(alloc, population, disks))),
        Err(_) => None,
    }
}

/// The file of this damage, for which it isn't one that is written today.
fn unwritable(
    alloc: Global,
    population: &Population,
    files: &LogFiles,
    damage: &Damage,
    disks: &mut [FileDisk],
) -> Option<Cause>
    requires loggers { length disks.old ≡ files.now.loggers }
    requires few { length disks.old ≤ MAX_LOGGERS }
    requires damage { (first file : List ℕ) × IsDamage Today (initial population.now).scale
        (seed_of population.now) files.now.loggers first file damage.now }
    ensures { IfSome result (λ cause. IsWhy Append files.now (initial population.now).scale (seed_of population.now)
        Damaged (cause_view cause)) }
{
    match version_in(&damage.flaw) {
        Some(found) => older(alloc, population, files, (*damage, found), disks),
        None => flawed(alloc, files, damage),
    }
}

/// The version of a file whose flaw is that it is of another one than was asked for.
fn version_in(flaw: &FileFlaw) -> Option<u64>
    ensures { IfSome result (λ found. (wanted : ℕ) × (flaw.now ≡ OtherHeader Version found wanted)) }
{
    match flaw {
        FileFlaw::OtherHeader {
            field: HeaderField::Version,
            found,
            ..
        } => Some(*found),
        _ => None,
    }
}

/// The file of this damage, which is of this version and not of the one that is written today; or, where files can't be
/// read either, the first that can't.
fn older(
    alloc: Global,
    population: &Population,
    files: &LogFiles,
    damage: (Damage, u64),
    disks: &mut [FileDisk],
) -> Option<Cause>
    requires loggers { length disks.old ≡ files.now.loggers }
    requires few { length disks.old ≤ MAX_LOGGERS }
    requires damage { IsOlder (initial population.now).scale (seed_of population.now) files.now damage.0 damage.1 }
    ensures { IfSome result (λ cause. IsWhy Append files.now (initial population.now).scale (seed_of population.now)
        Damaged (cause_view cause)) }
{
    match first_damage(alloc, population, AskedVersion::First, disks) {
        Ok(None) => older_file(alloc, files, damage.0.logger, damage.1),
        Ok(Some(damage)) => flawed(alloc, files, &damage),
        Err(_) => None,
    }
}

/// The file of this logger, which is of this version. None for want of memory.
fn older_file(alloc: Global, files: &LogFiles, logger: u16, version: u64) -> Option<Cause>
    ensures { IfSome result (λ cause. cause_view cause ≡ Older (path_of files.now logger) version) }
{
    let path = path(alloc, files, u32::from(logger)).ok()?;
    Some(Cause::Older { path, version })
}

/// The first column of what disks recover to that is out of reach of the commits, where the conditions hold. None where
/// none is, or it can't be told.
fn beyond(alloc: Global, population: &Population, disks: &mut [FileDisk]) -> Option<Beyond>
    ensures { IfSome result (IsBeyondOf (initial population.now).scale (seed_of population.now)) }
{
    match beyond_reach(alloc, population, disks) {
        Ok(Some(found)) => Some(found),
        _ => None,
    }
}

/// The file of this damage. None for want of memory.
fn flawed(alloc: Global, files: &LogFiles, damage: &Damage) -> Option<Cause>
    ensures { IfSome result (λ cause. cause_view cause
        ≡ Flawed (path_of files.now damage.now.logger) damage.now.flaw) }
{
    let path = path(alloc, files, u32::from(damage.logger)).ok()?;
    Some(Cause::Flawed {
        path,
        flaw: damage.flaw,
    })
}

/// The first number that is amiss of the commits that log files have. None where none is, or it can't be told.
fn gap_in(alloc: Global, population: &Population, disks: &mut [FileDisk]) -> Option<Cause>
    ensures { IfSome result (λ cause. (purpose : PurposeValue) (files : LogFilesValue) → IsWhy purpose files
        (initial population.now).scale (seed_of population.now) Gap (cause_view cause)) }
{
    match first_gap(alloc, population, disks) {
        Ok(Some(gap)) => Some(Cause::Amiss(gap)),
        _ => None,
    }
}
