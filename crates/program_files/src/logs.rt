//! Log files: opening those that a command line names, and telling what they recover to.
ghost use Rattle.std.specs.Prelude.{◌≡◌, ◌≢◌, ◌<◌, ℕ, List, true, length, map, string_bytes};
ghost use Rattle.std.specs.Prelude.{IfOk, IfErr};
ghost use Rattle.population.specs.Initial.{initial, seed_of};
ghost use Rattle.program_recovery.specs.Told.{IsRefused, Shows, Reports};
ghost use Rattle.program_files.specs.Causes.{cause_of};
ghost use Rattle.program_files.specs.Logs.{AreUnready, IsShownWith, IsCheckedWith, IsRefusedWith};
ghost use Rattle.program_files.specs.Logs.{folder_of, may_stop, path_of};
ghost use Rattle.program_files.specs.declared.fault.Purpose.{Purpose as PurposeValue};
ghost use Rattle.program_files.specs.declared.fault.Purpose.TheVariants.{Create, Read};

use crate::causes::{unready, unrecovered};
use crate::fault::{Cause, Fault, Purpose, Trouble};
use crate::starting::end_start;
use conditions::{Report, check};
use log_disk::{Disk, FileDisk, sync_folder};
use money::Refusal;
use population::Population;
use program_options::{LogFiles, RecoverOptions};
use program_recovery::{Manner, checked, recovered};
use std::alloc::{AllocError, Global};
use std::fs::{self, File, TryLockError};
use std::io::Write;
use std::rt::Files;
use std::sync::Wait;
use std::thread::Threads;
use std::time::Clock;

/// Recovers log files, in as many threads as are asked for, and shows what they recover to. Answers the report of the
/// recovered tables. How far it is goes to the screen, if there is one. May wait, for its threads.
pub fn show<
    T: Wait + Threads + Clock + Files<File = File> + Sync,
    W: Write,
    S: Write + Send + Drop,
>(
    rt: &T,
    alloc: Global,
    population: &Population,
    options: &RecoverOptions,
    output: &mut W,
    screen: Option<S>,
) -> Result<Report, Fault>
    ensures shown { IfOk result (IsShownWith (initial population.now) (seed_of population.now)
        (W.contents output.old) (W.contents output.new)) }
    ensures refused { IfErr result (λ fault. IsRefusedWith options.now.files Shows (initial population.now)
        (seed_of population.now) (W.contents output.old) (W.contents output.new) fault.refusal (cause_of fault)) }
{
    let files = &options.files;
    let mut disks = match disks(rt, alloc, files, Purpose::Read) {
        Ok(disks) => disks,
        Err(fault) => return Err(fault),
    };
    let manner = manner(rt, alloc, options, screen);
    match show_recovered(rt, alloc, population, &mut disks, output, manner) {
        Ok(report) => Ok(report),
        Err(refusal) => {
            let purpose = Purpose::Read;
            Err(unrecovered(alloc, population, files, purpose, refusal, &mut disks))
        }
    }
}

/// Recovers log files, in as many threads as are asked for, and writes the report of the recovered tables. How far it
/// is goes to the screen, if there is one. May wait, for its threads.
pub fn report<
    T: Wait + Threads + Clock + Files<File = File> + Sync,
    W: Write,
    S: Write + Send + Drop,
>(
    rt: &T,
    alloc: Global,
    population: &Population,
    options: &RecoverOptions,
    output: &mut W,
    screen: Option<S>,
) -> Result<Report, Fault>
    ensures checked { IfOk result (IsCheckedWith (initial population.now) (seed_of population.now)
        (W.contents output.old) (W.contents output.new)) }
    ensures refused { IfErr result (λ fault. IsRefusedWith options.now.files Reports (initial population.now)
        (seed_of population.now) (W.contents output.old) (W.contents output.new) fault.refusal (cause_of fault)) }
{
    let files = &options.files;
    let mut disks = match disks(rt, alloc, files, Purpose::Read) {
        Ok(disks) => disks,
        Err(fault) => return Err(fault),
    };
    let manner = manner(rt, alloc, options, screen);
    match checked(rt, alloc, population, &mut disks, output, manner) {
        Ok(report) => Ok(report),
        Err(refusal) => {
            let purpose = Purpose::Read;
            Err(unrecovered(alloc, population, files, purpose, refusal, &mut disks))
        }
    }
}

/// Shows what disks recover to, and checks the recovered tables.
fn show_recovered<
    T: Wait + Threads + Clock + Sync,
    D: Disk + Send,
    W: Write,
    S: Write + Send + Drop,
>(
    rt: &T,
    alloc: Global,
    population: &Population,
    disks: &mut [D],
    output: &mut W,
    manner: Manner<S>,
) -> Result<Report, Refusal>
    ensures shown { IfOk result (IsShownWith (initial population.now) (seed_of population.now)
        (W.contents output.old) (W.contents output.new)) }
    ensures refused { IfErr result (λ refusal. (strings : List (List ℕ)) × IsRefused (initial population.now)
        (seed_of population.now) strings Shows (map D.failed disks.old) (map D.failed disks.new)
        (W.contents output.old) (W.contents output.new) refusal) }
{
    let recovered = recovered(rt, alloc, population, disks, output, manner)?;
    check(alloc, &recovered.tables)
}

/// How a recovery is gone about, with these options, and this screen, if there is one.
fn manner<T: Files<File = File>, S>(
    rt: &T,
    alloc: Global,
    options: &RecoverOptions,
    screen: Option<S>,
) -> Manner<S> {
    let sizes = match &screen {
        Some(_) => sizes(rt, alloc, &options.files).unwrap_or(Vec::new(alloc)),
        None => Vec::new(alloc),
    };
    Manner {
        threads: options.threads as usize,
        screen,
        sizes,
    }
}

/// How many bytes each log file has, in the order of the loggers, and 0 where the system doesn't tell.
pub fn sizes<T: Files<File = File>>(
    rt: &T,
    alloc: Global,
    files: &LogFiles,
) -> Result<Vec<u64>, AllocError>
    ensures { IfOk result (λ sizes. length sizes.items ≡ files.now.loggers) }
{
    let mut sizes = Vec::new(alloc);
    for logger in 0..files.loggers {
        let path = path(alloc, files, logger)?;
        let size = match fs::metadata(rt, path.as_str()) {
            Ok(metadata) => metadata.len(),
            Err(_) => 0,
        };
        sizes.push(size)?;
    }
    Ok(sizes)
}

/// The disks in log files that are there, in the order of their loggers. The first file that can't be opened refuses.
/// Where they are to be gone on with, a start that was killed is ended before, and the names are made durable.
pub fn disks<T: Files<File = File>>(
    rt: &T,
    alloc: Global,
    files: &LogFiles,
    purpose: Purpose,
) -> Result<Vec<FileDisk>, Fault>
    requires { purpose ≢ Create }
    ensures count { IfOk result (λ disks. length disks.items ≡ files.now.loggers) }
    ensures unready { IfErr result (λ fault. AreUnready purpose files.now fault.refusal (cause_of fault)) }
{
    if purpose == Purpose::Append {
        end_start(rt, alloc, files)?;
    }
    let mut disks = Vec::new(alloc);
    for logger in 0..files.loggers {
        let disk = match disk(rt, alloc, files, logger, purpose) {
            Ok(disk) => disk,
            Err(fault) => return Err(unready(alloc, files, purpose, fault, &mut disks)),
        };
        disks.push(disk)?;
    }
    if purpose == Purpose::Append {
        match sync_names(rt, alloc, files) {
            Ok(()) => {}
            Err(fault) => return Err(fault),
        }
    }
    Ok(disks)
}

/// The disk in the file of this logger, which is there.
fn disk<T: Files<File = File>>(
    rt: &T,
    alloc: Global,
    files: &LogFiles,
    logger: u32,
    purpose: Purpose,
) -> Result<FileDisk, Fault>
    requires { purpose ≢ Create }
    ensures unready { IfErr result (λ fault. logger < files.now.loggers
        → AreUnready purpose files.now fault.refusal (cause_of fault)) }
{
    let path = path(alloc, files, logger)?;
    match disk_at(rt, path.as_str(), purpose) {
        Ok(disk) => Ok(disk),
        Err(trouble) => Err(Fault {
            refusal: Refusal::Device,
            cause: Some(Cause::Unusable { path, trouble }),
        }),
    }
}

/// The disk in the file of this path. One that is gone on with belongs to this process alone, until it ends; one that
/// is read may be shared by processes that read it, and needn't be one that can be written.
fn disk_at<T: Files<File = File>>(rt: &T, path: &str, purpose: Purpose) -> Result<FileDisk, Trouble>
    requires { purpose ≢ Create }
    ensures { IfErr result (λ trouble. may_stop purpose trouble ≡ true) }
{
    if purpose == Purpose::Read {
        let disk = FileDisk::in_file_to_read(rt, path).map_err(Trouble::NotOpened)?;
        disk.try_lock_shared().map_err(not_locked)?;
        return Ok(disk);
    }
    let disk = FileDisk::in_file(rt, path).map_err(Trouble::NotOpened)?;
    disk.try_lock().map_err(not_locked)?;
    Ok(disk)
}

/// What it is called that a file couldn't be locked.
pub(crate) fn not_locked(error: TryLockError) -> Trouble
    ensures { (purpose : PurposeValue) → may_stop purpose result ≡ true }
{
    match error {
        TryLockError::WouldBlock => Trouble::InUse,
        TryLockError::Error(error) => Trouble::NotLocked(error),
    }
}

/// Makes the names of the log files in their folder durable.
pub(crate) fn sync_names<T: Files<File = File>>(
    rt: &T,
    alloc: Global,
    files: &LogFiles,
) -> Result<(), Fault>
    ensures { IfErr result (λ fault. (purpose : PurposeValue) → purpose ≢ Read
        → AreUnready purpose files.now fault.refusal (cause_of fault)) }
{
    let path = folder(alloc, files)?;
    match sync_folder(rt, path.as_str()) {
        Ok(()) => Ok(()),
        Err(error) => Err(Fault {
            refusal: Refusal::Device,
            cause: Some(Cause::Unusable {
                path,
                trouble: Trouble::NotSynced(error),
            }),
        }),
    }
}

/// The path of the folder, as it stands in front of its files' names.
fn folder(alloc: Global, files: &LogFiles) -> Result<String, AllocError>
    ensures { IfOk result (λ path. string_bytes path ≡ folder_of files.now) }
{
    let folder = files.folder.as_str();
    format!(in alloc; "{folder}/")
}

/// The path of the file of this logger.
pub fn path(alloc: Global, files: &LogFiles, logger: u32) -> Result<String, AllocError>
    ensures { IfOk result (λ path. string_bytes path ≡ path_of files.now logger) }
{
    let folder = files.folder.as_str();
    format!(in alloc; "{folder}/log-{logger}")
}
