//! Restart.
ghost use Rattle.std.specs.Prelude.{◌≡◌, ◌≢◌, ◌⊎◌, ◌<◌, ◌≤◌, ℕ, List, [], length, map, vec_capacity, IfOk, IfErr, OnOk, IsErrOf};
ghost use Rattle.money.specs.declared.refusal.Refusal.TheVariants.{OutOfMemory, Damaged, Device, Gap, EpochFull};
ghost use Rattle.tables.specs.declared.limits.TheConstants.{MAX_LOGGERS, MAX_TERMINALS};
ghost use Rattle.population.specs.Initial.{initial, seed_of};
ghost use Rattle.book.specs.Parts.{base_of};
ghost use Rattle.recover_found.specs.Found.{bodies_in, found};
ghost use Rattle.recover_found.specs.Rebuilt.{HaveNoGap};
ghost use Rattle.recover_files.specs.Files.{AreFiles, AreOnDisks};
ghost use Rattle.recover_opening.specs.Opening.{AreOpenBehind, disk_on, file_on};
ghost use Rattle.recover_restart.specs.Restarting.{AreStopped, GoesOnBehind, GoesOnFrom, HaveLost, HaveMoved, IsRefusedRestart, IsRestart, StandAt};
ghost use Rattle.recover_restart.specs.Restarting.{AreFilesThat, HaveAGap, HaveLastEpoch, GiveUnsoundTables, AreDamagedOrUnsound};

use crate::basing::base_of;
use crate::declaring::declare_lost;
use book::Parts;
use log_disk::Disk;
use log_text::Body;
use logfile::LogFile;
use money::Refusal;
use population::Population;
use recover_found::durable_of;
use recover_opening::{AllRefused, disks_of, open_all_or_give_back, top_epoch};
use recover_progress::Progress;
use recover_sound::sound_tables_may_begin;
use std::alloc::Global;
use std::sync::Wait;

/// What a restart gives.
#[derive(Drop)]
pub struct Restarted<D: Disk> {
    /// What the engine is opened with that goes on.
    pub parts: Parts,
    /// The log files, in the order of their loggers, to which it goes on to append.
    pub files: Vec<LogFile<D>>,
    /// How many commits were recovered: the next one has the number behind them.
    pub commits: u64,
    /// The epoch in which it goes on: the one behind all of which the files have anything.
    pub epoch: u64,
}

/// What goes on behind files.
#[derive(Drop)]
pub(crate) struct Resumption {
    pub(crate) parts: Parts,
    /// Epochs behind this one up to the last are given up.
    pub(crate) durable: u64,
    /// The last epoch of which the files have anything.
    pub(crate) top: u64,
    pub(crate) commits: u64,
}

/// Goes on from log files, as `restart_or_give_back`, which gives no disk back.
///
/// # Errors
///
/// As `restart_or_give_back`. An Err drops the disks.
pub fn restart<R: Wait, D: Disk + Drop>(
    rt: &R,
    alloc: Global,
    population: Population,
    disks: Vec<D>,
    terminals: u16,
    progress: &Progress,
) -> Result<Restarted<D>, Refusal>
    requires loggers { (0 < length disks.items) × (length disks.items ≤ MAX_LOGGERS) }
    requires terminals { (0 < terminals) × (terminals ≤ MAX_TERMINALS) }
    ensures restarted { D.is_modelled → IfOk result (λ r. IsRestart (initial population) (seed_of population)
        terminals (map (disk_on D.seen D.story) disks.items) r.parts (map (file_on D.seen D.story) r.files.items)
        r.commits r.epoch) }
    ensures goes_on { IfOk result (λ r. (strings : List (List ℕ))
        × AreOnDisks D.is_modelled (map D.seen disks.items) strings
        × GoesOnFrom (initial population) (seed_of population) (length disks.items) terminals strings r.parts r.commits
        r.epoch) }
    ensures stand { IfOk result (λ r. StandAt (initial population).scale (seed_of population) (length disks.items)
        (base_of r.parts) r.files.items) }
    ensures none_failed { IfOk result (λ r. map (λ file. D.failed file.disk) r.files.items ≡ map D.failed disks.items) }
    ensures gap { D.is_modelled → IsErrOf result Gap
        → AreFilesThat (initial population).scale (seed_of population) (map D.seen disks.items) HaveAGap }
    ensures full { D.is_modelled → IsErrOf result EpochFull
        → AreFilesThat (initial population).scale (seed_of population) (map D.seen disks.items) HaveLastEpoch }
    ensures damaged { D.is_modelled → IsErrOf result Damaged
        → AreDamagedOrUnsound (initial population) (seed_of population) (map D.seen disks.items) }
    ensures others { IfErr result (λ refusal. (refusal ≢ OutOfMemory) → (refusal ≢ Device) → (refusal ≢ Gap)
        → (refusal ≢ EpochFull) → refusal ≡ Damaged) }
{
    match restart_or_give_back(rt, alloc, population, disks, terminals, progress) {
        Ok(restarted) => Ok(restarted),
        Err(refused) => Err(refused.refusal),
    }
}

/// Goes on from the log files that a database's last process has left: disk `l` has the file of logger `l`, of as many
/// loggers as disks. Opens all of them (`open_all_or_give_back`); recovers (`recover_files::recover`); and declares void,
/// in every file in turn, the epochs behind the durable one up to the last of which the files have anything, if there are
/// such (Silo, section 4.10). The engine that is opened with these parts commits in the epoch behind that. Costs what a
/// recovery does, and what `Parts::behind` does. May wait, at a record's cell alone.
///
/// # Errors
///
/// With the disks, in their order (`IsRefusedRestart`). Of modelled disks in this order, and each only where it is due.
/// `Damaged`: some file is no log file of this population's database, of its logger and of that many loggers, in the
/// version that is written today. `Gap`: all are, but the commits that count don't have the numbers 1, 2 and so on, each
/// once. `EpochFull`: they have, but the files have something of the last epoch that there is. `Damaged`: they have
/// nothing of it, but the tables that they recover to aren't such as so many commits can have made. Beside these
/// `Device`, exactly where a call of a disk fails, and `OutOfMemory`.
///
/// Nothing is written but void bodies, when nothing can refuse any more but a device. So behind each refusal but `Device`
/// the disks have had syncs alone, and behind `Device` the files are as they were, or as a crash may leave them
/// (`HasStopped`): on them it may be called again.
pub fn restart_or_give_back<R: Wait, D: Disk + Drop>(
    rt: &R,
    alloc: Global,
    population: Population,
    disks: Vec<D>,
    terminals: u16,
    progress: &Progress,
) -> Result<Restarted<D>, AllRefused<D>>
    requires loggers { (0 < length disks.items) × (length disks.items ≤ MAX_LOGGERS) }
    requires terminals { (0 < terminals) × (terminals ≤ MAX_TERMINALS) }
    ensures restarted { D.is_modelled → IfOk result (λ r. IsRestart (initial population) (seed_of population)
        terminals (map (disk_on D.seen D.story) disks.items) r.parts (map (file_on D.seen D.story) r.files.items)
        r.commits r.epoch) }
    ensures goes_on { IfOk result (λ r. (strings : List (List ℕ))
        × AreOnDisks D.is_modelled (map D.seen disks.items) strings
        × GoesOnFrom (initial population) (seed_of population) (length disks.items) terminals strings r.parts r.commits
        r.epoch) }
    ensures stand { IfOk result (λ r. StandAt (initial population).scale (seed_of population) (length disks.items)
        (base_of r.parts) r.files.items) }
    ensures none_failed { IfOk result (λ r. map (λ file. D.failed file.disk) r.files.items ≡ map D.failed disks.items) }
    ensures gap { D.is_modelled → IfErr result (λ refused. refused.refusal ≡ Gap
        → AreFilesThat (initial population).scale (seed_of population) (map D.seen disks.items) HaveAGap) }
    ensures full { D.is_modelled → IfErr result (λ refused. refused.refusal ≡ EpochFull
        → AreFilesThat (initial population).scale (seed_of population) (map D.seen disks.items) HaveLastEpoch) }
    ensures damaged { D.is_modelled → IfErr result (λ refused. refused.refusal ≡ Damaged
        → AreDamagedOrUnsound (initial population) (seed_of population) (map D.seen disks.items)) }
    ensures given_back { IfErr result (λ refused. IsRefusedRestart D.is_modelled D.seen D.story D.failed
        (initial population) (seed_of population) terminals refused.refusal disks.items refused.disks.items) }
    ensures others { IfErr result (λ refused. (refused.refusal ≢ OutOfMemory) → (refused.refusal ≢ Device)
        → (refused.refusal ≢ Gap) → (refused.refusal ≢ EpochFull) → refused.refusal ≡ Damaged) }
{
    match Vec::with_capacity(alloc, disks.len()) {
        Ok(room) => restart_in_room(rt, alloc, population, disks, room, terminals, progress),
        Err(_) => Err(AllRefused {
            refusal: Refusal::OutOfMemory,
            disks,
        }),
    }
}

/// The same, with room for the disks that are given back.
fn restart_in_room<R: Wait, D: Disk + Drop>(
    rt: &R,
    alloc: Global,
    population: Population,
    disks: Vec<D>,
    room: Vec<D>,
    terminals: u16,
    progress: &Progress,
) -> Result<Restarted<D>, AllRefused<D>>
    requires none { room.items ≡ [] }
    requires room { length disks.items ≤ vec_capacity room }
    requires loggers { (0 < length disks.items) × (length disks.items ≤ MAX_LOGGERS) }
    requires terminals { (0 < terminals) × (terminals ≤ MAX_TERMINALS) }
    ensures restarted { D.is_modelled → IfOk result (λ r. IsRestart (initial population) (seed_of population)
        terminals (map (disk_on D.seen D.story) disks.items) r.parts (map (file_on D.seen D.story) r.files.items)
        r.commits r.epoch) }
    ensures goes_on { IfOk result (λ r. (strings : List (List ℕ))
        × AreOnDisks D.is_modelled (map D.seen disks.items) strings
        × GoesOnFrom (initial population) (seed_of population) (length disks.items) terminals strings r.parts r.commits
        r.epoch) }
    ensures stand { IfOk result (λ r. StandAt (initial population).scale (seed_of population) (length disks.items)
        (base_of r.parts) r.files.items) }
    ensures none_failed { IfOk result (λ r. map (λ file. D.failed file.disk) r.files.items ≡ map D.failed disks.items) }
    ensures gap { D.is_modelled → IfErr result (λ refused. refused.refusal ≡ Gap
        → AreFilesThat (initial population).scale (seed_of population) (map D.seen disks.items) HaveAGap) }
    ensures full { D.is_modelled → IfErr result (λ refused. refused.refusal ≡ EpochFull
        → AreFilesThat (initial population).scale (seed_of population) (map D.seen disks.items) HaveLastEpoch) }
    ensures damaged { D.is_modelled → IfErr result (λ refused. refused.refusal ≡ Damaged
        → AreDamagedOrUnsound (initial population) (seed_of population) (map D.seen disks.items)) }
    ensures given_back { IfErr result (λ refused. IsRefusedRestart D.is_modelled D.seen D.story D.failed
        (initial population) (seed_of population) terminals refused.refusal disks.items refused.disks.items) }
    ensures others { IfErr result (λ refused. (refused.refusal ≢ OutOfMemory) → (refused.refusal ≢ Device)
        → (refused.refusal ≢ Gap) → (refused.refusal ≢ EpochFull) → refused.refusal ≡ Damaged) }
{
    let loggers = disks.len() as u16;
    let (mut files, bodies) = open_all_or_give_back(alloc, &population, disks, progress)?;
    match resume(
        rt, alloc, population, &mut files, bodies, loggers, terminals, progress,
    ) {
        Ok(ahead) => Ok(Restarted {
            parts: ahead.parts,
            files,
            commits: ahead.commits,
            epoch: ahead.top + 1,
        }),
        Err(refusal) => Err(AllRefused {
            refusal,
            disks: disks_of(room, files),
        }),
    }
}

/// What goes on behind open log files of these bodies, in which what was lost is declared void.
///
/// # Errors
///
/// As `base_of`: the files stand as they stood. `Device`, as `declare_lost`.
fn resume<R: Wait, D: Disk>(
    rt: &R,
    alloc: Global,
    population: Population,
    files: &mut [LogFile<D>],
    bodies: Vec<Vec<Body>>,
    loggers: u16,
    terminals: u16,
    progress: &Progress,
) -> Result<Resumption, Refusal>
    requires open { AreOpenBehind (initial population).scale (seed_of population) loggers files.old
        (map (λ bodies. bodies_in bodies.items) bodies.items) }
    requires files { (strings : List (List ℕ)) × AreFiles (initial population).scale (seed_of population) strings
        (map (λ bodies. bodies_in bodies.items) bodies.items) }
    requires loggers { (0 < loggers) × (loggers ≤ MAX_LOGGERS) }
    requires terminals { (0 < terminals) × (terminals ≤ MAX_TERMINALS) }
    ensures goes_on { IfOk result (λ r. GoesOnBehind (initial population) (seed_of population) loggers terminals
        (map (λ bodies. bodies_in bodies.items) bodies.items) r.parts r.durable r.top r.commits) }
    ensures moved { IfOk result (λ r. HaveMoved r.durable r.top files.old files.new) }
    ensures lost { D.is_modelled → IfOk result (λ r. HaveLost r.durable r.top (map (file_on D.seen D.story) files.old)
        (map (file_on D.seen D.story) files.new)) }
    ensures none_failed { OnOk result (map (λ file. D.failed file.disk) files.new
        ≡ map (λ file. D.failed file.disk) files.old) }
    ensures gap { IsErrOf result Gap → HaveNoGap (found (map (λ bodies. bodies_in bodies.items) bodies.items))
        → ⊥ }
    ensures full { IsErrOf result EpochFull → HaveLastEpoch (map (λ bodies. bodies_in bodies.items) bodies.items) }
    ensures damaged { IsErrOf result Damaged → GiveUnsoundTables (initial population)
        (map (λ bodies. bodies_in bodies.items) bodies.items) }
    ensures left { IfErr result (λ refusal. ((refusal ≢ Device) × (files.new ≡ files.old))
        ⊎ ((refusal ≡ Device) × AreStopped D.is_modelled D.seen D.story D.failed (initial population)
        (seed_of population) loggers terminals (map (λ bodies. bodies_in bodies.items) bodies.items) files.old
        files.new)) }
    ensures others { IfErr result (λ refusal. (refusal ≢ OutOfMemory) → (refusal ≢ Device) → (refusal ≢ Gap)
        → (refusal ≢ EpochFull) → refusal ≡ Damaged) }
{
    let ahead = behind_files(rt, alloc, population, bodies, loggers, terminals, progress)?;
    match declare_lost(files, ahead.durable, ahead.top) {
        Ok(()) => Ok(ahead),
        Err(refusal) => Err(refusal),
    }
}

/// What goes on behind log files of these bodies.
///
/// # Errors
///
/// As `base_of`.
fn behind_files<R: Wait>(
    rt: &R,
    alloc: Global,
    population: Population,
    files: Vec<Vec<Body>>,
    loggers: u16,
    terminals: u16,
    progress: &Progress,
) -> Result<Resumption, Refusal>
    requires files { (strings : List (List ℕ)) × AreFiles (initial population).scale (seed_of population) strings
        (map (λ bodies. bodies_in bodies.items) files.items) }
    requires loggers { (0 < loggers) × (loggers ≤ MAX_LOGGERS) }
    requires terminals { (0 < terminals) × (terminals ≤ MAX_TERMINALS) }
    ensures goes_on { IfOk result (λ r. GoesOnBehind (initial population) (seed_of population) loggers terminals
        (map (λ bodies. bodies_in bodies.items) files.items) r.parts r.durable r.top r.commits) }
    ensures gap { IsErrOf result Gap → HaveNoGap (found (map (λ bodies. bodies_in bodies.items) files.items))
        → ⊥ }
    ensures full { IsErrOf result EpochFull → HaveLastEpoch (map (λ bodies. bodies_in bodies.items) files.items) }
    ensures damaged { IsErrOf result Damaged → GiveUnsoundTables (initial population)
        (map (λ bodies. bodies_in bodies.items) files.items) }
    ensures no_device { IfErr result (λ refusal. refusal ≢ Device) }
    ensures others { IfErr result (λ refusal. (refusal ≢ OutOfMemory) → (refusal ≢ Gap)
        → (refusal ≢ EpochFull) → refusal ≡ Damaged) }
{
    // Who asks for a scale knows its limits.
    let _scale = population.scale();
    let durable = durable_of(&files);
    let top = top_epoch(&files);
    let base = base_of(alloc, &population, files, top, progress)?;
    let commits = u64::from(base.commits);
    sound_tables_may_begin();
    let parts = Parts::behind(rt, alloc, population, base, loggers, terminals)?;
    Ok(Resumption {
        parts,
        durable,
        top,
        commits,
    })
}
