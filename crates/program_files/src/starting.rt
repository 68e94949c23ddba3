//! The log files of a run that begins: they are made whole before any of them has a log file's name.
ghost use Rattle.std.specs.Prelude.{◌≡◌, ◌<◌, true, Err, IfErr, Some, string_bytes};
ghost use Rattle.money.specs.declared.refusal.Refusal.TheVariants.{Device};
ghost use Rattle.program_files.specs.Causes.{cause_of, Unusable};
ghost use Rattle.program_files.specs.Logs.{AreUnready, may_stop};
ghost use Rattle.program_files.specs.declared.fault.Purpose.TheVariants.{Create};
ghost use Rattle.program_files.specs.declared.fault.Trouble.{Trouble as TroubleValue};
ghost use Rattle.program_files.specs.declared.starting.Unmade.TheVariants.{Left};

use crate::fault::{Cause, Fault, Trouble};
use crate::logs::{not_locked, path, sync_names};
use log_disk::FileDisk;
use money::Refusal;
use program_options::LogFiles;
use std::alloc::{AllocError, Global};
use std::fs::{self, File};
use std::io::{Error, ErrorKind};
use std::rt::Files;
use tables::limits::MAX_LOGGERS;

/// How many bytes a log file has that has no body: a header and a closed gate.
const NEW_FILE_BYTES: u64 = 49;

/// The system's number for a file that is there already.
const EXISTS: i32 = 17;

/// The two names of a new log file: the one under which it is made, and then its own.
#[derive(Drop)]
pub struct Names {
    temporary: String,
    own: String,
}

impl Names {
    ghost use Rattle.std.specs.Prelude.{◌≡◌, IfOk, string_bytes};
    ghost use Rattle.program_files.specs.Logs.{first_path_of, path_of};

    /// Those of the file of this logger.
    fn of(alloc: Global, files: &LogFiles, logger: u32) -> Result<Names, AllocError>
        ensures own { IfOk result (λ names. string_bytes names.own ≡ path_of files.now logger) }
        ensures temporary { IfOk result (λ names. string_bytes names.temporary ≡ first_path_of files.now logger) }
    {
        let own = path(alloc, files, logger)?;
        let named = own.as_str();
        let temporary = format!(in alloc; "{named}.new")?;
        Ok(Names { temporary, own })
    }
}

/// The log files of a run that begins, in the order of their loggers, each locked as long as this is kept.
#[derive(Drop)]
pub struct NewFiles {
    /// An empty disk in each.
    pub disks: Vec<FileDisk>,
    /// The names of each.
    pub names: Vec<Names>,
}

impl NewFiles {
    ghost use Rattle.std.specs.Prelude.{◌≡◌, ◌+◌, ◌<◌, [], length, IfOk, IfErr, OnOk};
    ghost use Rattle.program_files.specs.Causes.{cause_of};
    ghost use Rattle.program_files.specs.Logs.{AreUnready};
    ghost use Rattle.program_files.specs.declared.fault.Purpose.TheVariants.{Create};

    /// Makes them, in their order, empty, and under names that no log file has; a file that a killed start left under
    /// such a name is taken over. The first log file that is there already refuses, or the first that can't be made;
    /// what was made before it is removed then.
    pub fn make<T: Files<File = File>>(
        rt: &T,
        alloc: Global,
        files: &LogFiles,
    ) -> Result<NewFiles, Fault>
        ensures count { IfOk result (λ made. length made.disks.items ≡ files.now.loggers) }
        ensures unready { IfErr result (λ fault. AreUnready Create files.now fault.refusal (cause_of fault)) }
    {
        let mut made = NewFiles {
            disks: Vec::new(alloc),
            names: Vec::new(alloc),
        };
        match made.make_all(rt, alloc, files) {
            Ok(()) => Ok(made),
            Err(fault) => {
                made.remove(rt);
                Err(fault)
            }
        }
    }

    /// Makes all of them, where no log file is there.
    fn make_all<T: Files<File = File>>(
        &mut self,
        rt: &T,
        alloc: Global,
        files: &LogFiles,
    ) -> Result<(), Fault>
        requires none { self.old.disks.items ≡ [] }
        ensures count { OnOk result (length self.new.disks.items ≡ files.now.loggers) }
        ensures unready { IfErr result (λ fault. AreUnready Create files.now fault.refusal (cause_of fault)) }
    {
        match are_free(rt, alloc, files) {
            Ok(()) => {}
            Err(fault) => return Err(fault),
        }
        for logger in 0..files.loggers {
            match self.make_one(rt, alloc, files, logger) {
                Ok(()) => {}
                Err(fault) => return Err(fault),
            }
        }
        remove_others(rt, alloc, files);
        Ok(())
    }

    /// Makes the one of this logger.
    fn make_one<T: Files<File = File>>(
        &mut self,
        rt: &T,
        alloc: Global,
        files: &LogFiles,
        logger: u32,
    ) -> Result<(), Fault>
        ensures count { OnOk result (length self.new.disks.items ≡ length self.old.disks.items + 1) }
        ensures unready { IfErr result (λ fault. logger < files.now.loggers
            → AreUnready Create files.now fault.refusal (cause_of fault)) }
    {
        self.names.reserve(1)?;
        self.disks.reserve(1)?;
        let names = Names::of(alloc, files, logger)?;
        match new_disk(rt, names.temporary.as_str()) {
            Ok(disk) => {
                self.names.push_reserved(names);
                self.disks.push_reserved(disk);
                Ok(())
            }
            Err(Unmade::New(error)) => Err(unusable(names.own, Trouble::NotCreated(error))),
            Err(Unmade::Left(trouble)) => Err(unusable(names.temporary, trouble)),
        }
    }

    /// Removes them. Those that have their own names get their first ones back before, the last first, and none is
    /// removed where that can't be done: so a run that goes on ends the start, or the next one takes it up, wherever
    /// this is broken off. What can't be removed is left. Takes no memory.
    pub fn remove<T: Files<File = File>>(&self, rt: &T) {
        for place in 0..self.names.len() {
            let behind = self.names.len() - 1 - place;
            if !self.take_name_back(rt, behind) {
                return;
            }
        }
        for (disk, names) in self.disks.iter().zip(&self.names) {
            remove_at(rt, disk, names.temporary.as_str());
        }
    }

    /// Gives the file at this place its first name back, if it has its own, and answers whether it hasn't its own then.
    fn take_name_back<T: Files<File = File>>(&self, rt: &T, place: usize) -> bool {
        let (Some(disk), Some(names)) = (self.disks.get(place), self.names.get(place)) else {
            return true;
        };
        let (temporary, own) = (names.temporary.as_str(), names.own.as_str());
        !has_name(rt, disk, own) || fs::rename(rt, own, temporary).is_ok()
    }
}

/// Gives new log files their own names, in the order of their loggers, and makes the names durable, those under which
/// they were made first: what a crash then leaves under a log file's name has all that was synced in it.
pub fn give_names<T: Files<File = File>>(
    rt: &T,
    alloc: Global,
    files: &LogFiles,
    all: &[Names],
) -> Result<(), Fault>
    ensures unready { IfErr result (λ fault. AreUnready Create files.now fault.refusal (cause_of fault)) }
{
    match sync_names(rt, alloc, files) {
        Ok(()) => {}
        Err(fault) => return Err(fault),
    }
    match rename_all(rt, alloc, files, all) {
        Ok(()) => {}
        Err(fault) => return Err(fault),
    }
    sync_names(rt, alloc, files)
}

/// Why a file couldn't be made under its first name.
#[derive(Clone, Copy, Debug)]
enum Unmade {
    /// None is there, and none could be made.
    New(Error),
    /// Something is there, with which this is the trouble.
    Left(Trouble),
}

/// An empty disk for a log file, at the path at which it is made, for this process alone: in a new file, which is
/// removed where that can't be had, or in one that a killed start left.
fn new_disk<T: Files<File = File>>(rt: &T, path: &str) -> Result<FileDisk, Unmade>
    ensures { (trouble : TroubleValue) → result ≡ Err (Left trouble) → may_stop Create trouble ≡ true }
{
    match FileDisk::in_new_file(rt, path) {
        Ok(disk) => match lock_at(rt, &disk, path) {
            Ok(()) => Ok(disk),
            Err(Trouble::InUse) => Err(Unmade::Left(Trouble::InUse)),
            Err(trouble) => {
                remove_at(rt, &disk, path);
                Err(Unmade::Left(trouble))
            }
        },
        Err(error) if error.kind() == ErrorKind::AlreadyExists => match taken_over(rt, path) {
            Ok(disk) => Ok(disk),
            Err(trouble) => Err(Unmade::Left(trouble)),
        },
        Err(error) => Err(Unmade::New(error)),
    }
}

/// The fault of a file at this path.
fn unusable(path: String, trouble: Trouble) -> Fault
    ensures refusal { result.refusal ≡ Device }
    ensures cause { cause_of result ≡ Some (Unusable (string_bytes path) trouble) }
{
    Fault {
        refusal: Refusal::Device,
        cause: Some(Cause::Unusable { path, trouble }),
    }
}

/// An empty disk in the file at this path, which a killed start left.
fn taken_over<T: Files<File = File>>(rt: &T, path: &str) -> Result<FileDisk, Trouble>
    ensures { IfErr result (λ trouble. may_stop Create trouble ≡ true) }
{
    if !is_left(rt, path) {
        return Err(Trouble::NotLeft);
    }
    let disk = FileDisk::in_file(rt, path).map_err(Trouble::NotCreated)?;
    lock_at(rt, &disk, path)?;
    disk.clear().map_err(Trouble::NotCreated)?;
    Ok(disk)
}

/// Locks a file, which is to have the name that this path is. Another process may have had it locked before, and have
/// given it another name meanwhile.
fn lock_at<T: Files<File = File>>(rt: &T, disk: &FileDisk, path: &str) -> Result<(), Trouble>
    ensures { IfErr result (λ trouble. may_stop Create trouble ≡ true) }
{
    if let Err(error) = disk.try_lock() {
        return Err(not_locked(error));
    }
    if !has_name(rt, disk, path) {
        return Err(Trouble::InUse);
    }
    Ok(())
}

/// Whether this path is a name of the file itself, and no link to it.
fn has_name<T: Files<File = File>>(rt: &T, disk: &FileDisk, path: &str) -> bool {
    let is_file = matches!(fs::symlink_metadata(rt, path), Ok(found) if found.is_file());
    is_file && matches!(disk.is_at(rt, path), Ok(true))
}

/// Whether a start that was killed may have left what is at this path: a file with no more than a header.
fn is_left<T: Files<File = File>>(rt: &T, path: &str) -> bool {
    match fs::symlink_metadata(rt, path) {
        Ok(found) => found.is_file() && found.len() <= NEW_FILE_BYTES,
        Err(_) => false,
    }
}

/// Refuses where something is there that has the name of one of these log files.
fn are_free<T: Files<File = File>>(rt: &T, alloc: Global, files: &LogFiles) -> Result<(), Fault>
    ensures unready { IfErr result (λ fault. AreUnready Create files.now fault.refusal (cause_of fault)) }
{
    for logger in 0..files.loggers {
        let path = path(alloc, files, logger)?;
        if let Err(trouble) = is_free(rt, path.as_str(), logger) {
            return Err(unusable(path, trouble));
        }
    }
    Ok(())
}

/// Refuses where something is there that has the name of the log file of this logger.
fn is_free<T: Files<File = File>>(rt: &T, path: &str, logger: u32) -> Result<(), Trouble>
    ensures { IfErr result (λ trouble. may_stop Create trouble ≡ true) }
{
    match fs::symlink_metadata(rt, path) {
        // The files in front of it aren't there, or they would have refused before.
        Ok(_) if logger > 0 => Err(Trouble::Alone),
        Ok(_) => Err(Trouble::Exists(Error::from_raw_os_error(EXISTS))),
        Err(error) if error.kind() == ErrorKind::NotFound => Ok(()),
        Err(error) => Err(Trouble::NotCreated(error)),
    }
}

/// Gives files their own names, in the order of their loggers.
fn rename_all<T: Files<File = File>>(
    rt: &T,
    alloc: Global,
    files: &LogFiles,
    all: &[Names],
) -> Result<(), Fault>
    ensures unready { IfErr result (λ fault. AreUnready Create files.now fault.refusal (cause_of fault)) }
{
    for logger in 0..files.loggers {
        let Some(names) = all.get(logger as usize) else {
            break;
        };
        match rename_one(rt, alloc, files, names, logger) {
            Ok(()) => {}
            Err(fault) => return Err(fault),
        }
    }
    Ok(())
}

/// Gives the file of this logger its own name.
fn rename_one<T: Files<File = File>>(
    rt: &T,
    alloc: Global,
    files: &LogFiles,
    names: &Names,
    logger: u32,
) -> Result<(), Fault>
    ensures unready { IfErr result (λ fault. logger < files.now.loggers
        → AreUnready Create files.now fault.refusal (cause_of fault)) }
{
    let path = path(alloc, files, logger)?;
    match rename(rt, names, logger) {
        Ok(()) => Ok(()),
        Err(trouble) => Err(unusable(path, trouble)),
    }
}

/// Gives the file of this logger its own name, which nothing has.
fn rename<T: Files<File = File>>(rt: &T, names: &Names, logger: u32) -> Result<(), Trouble>
    ensures { IfErr result (λ trouble. may_stop Create trouble ≡ true) }
{
    is_free(rt, names.own.as_str(), logger)?;
    fs::rename(rt, names.temporary.as_str(), names.own.as_str()).map_err(Trouble::NotNamed)
}

/// Removes the file of a disk, where this path names it.
fn remove_at<T: Files<File = File>>(rt: &T, disk: &FileDisk, path: &str) {
    if has_name(rt, disk, path) {
        let _ = fs::remove_file(rt, path);
    }
}

/// Removes what a killed start of more loggers left. What can't be removed is left.
fn remove_others<T: Files<File = File>>(rt: &T, alloc: Global, files: &LogFiles) {
    for logger in files.loggers..u32::from(MAX_LOGGERS) {
        if let Ok(names) = Names::of(alloc, files, logger) {
            remove_left(rt, names.temporary.as_str());
        }
    }
}

/// Removes the file at this path, if a killed start left one that nobody has locked.
fn remove_left<T: Files<File = File>>(rt: &T, path: &str) {
    if !is_left(rt, path) {
        return;
    }
    if let Some(disk) = left_at(rt, path) {
        remove_at(rt, &disk, path);
    }
}

/// The file that a start that was killed left at this path, locked, if there is one.
fn left_at<T: Files<File = File>>(rt: &T, path: &str) -> Option<FileDisk> {
    let disk = FileDisk::in_file(rt, path).ok()?;
    lock_at(rt, &disk, path).ok()?;
    Some(disk)
}

/// Ends a start that was killed once some of its files had their names and others not yet: each of these gets its name,
/// which is durable once the names are synced, where all are there, and none has anything behind its header. Where that
/// isn't so nothing is done.
pub(crate) fn end_start<T: Files<File = File>>(
    rt: &T,
    alloc: Global,
    files: &LogFiles,
) -> Result<(), AllocError> {
    let mut left = Vec::new(alloc);
    let mut locked = Vec::new(alloc);
    for logger in 0..files.loggers {
        let names = Names::of(alloc, files, logger)?;
        if is_new(rt, names.own.as_str()) {
            continue;
        }
        let Some(disk) = left_of(rt, &names) else {
            return Ok(());
        };
        locked.push(disk)?;
        left.push(names)?;
    }
    if !left.is_empty() && left.len() < files.loggers as usize {
        name_left(rt, &left);
    }
    Ok(())
}

/// Whether the file at this path has a header and no body.
fn is_new<T: Files<File = File>>(rt: &T, path: &str) -> bool {
    matches!(fs::metadata(rt, path), Ok(found) if found.len() == NEW_FILE_BYTES)
}

/// The file with these names, locked, where it hasn't its own yet, but is whole.
fn left_of<T: Files<File = File>>(rt: &T, names: &Names) -> Option<FileDisk> {
    if is_free(rt, names.own.as_str(), 0).is_err() || !is_new(rt, names.temporary.as_str()) {
        return None;
    }
    left_at(rt, names.temporary.as_str())
}

/// Gives files their own names. What can't be done is left.
fn name_left<T: Files<File = File>>(rt: &T, left: &[Names]) {
    for names in left {
        let _ = fs::rename(rt, names.temporary.as_str(), names.own.as_str());
    }
}
