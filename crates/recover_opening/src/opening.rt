//! All log files of a database, opened again.
ghost use Rattle.std.specs.Prelude.{◌≡◌, ◌≢◌, ℕ, ◌<◌, ◌≤◌, ◌^◌, List, [], length, map, vec_capacity};
ghost use Rattle.std.specs.Prelude.{IfOk, IfErr, OnOk, OnErr, IsErrOf};
ghost use Rattle.money.specs.declared.refusal.Refusal.TheVariants.{OutOfMemory, Damaged, Device};
ghost use Rattle.log_header.specs.Header.{header_view};
ghost use Rattle.log_text.specs.Bodies.{BodyView};
ghost use Rattle.log_text.specs.File.{IsFile};
ghost use Rattle.population.specs.Initial.{initial, seed_of};
ghost use Rattle.recover_files.specs.Files.{AreFiles, AreNoFiles, AreOnDisks, AreShort};
ghost use Rattle.recover_found.specs.Found.{bodies_in};
ghost use Rattle.logfile.specs.Refused.{IsGivenBack};
ghost use Rattle.recover_opening.specs.Opening.{AreOpenBehind, AreOpened, AreReopened, AreSynced, AreGivenBack, IsReopened};
ghost use Rattle.recover_opening.specs.Opening.{disk_on, file_on};

use crate::refused::{AllRefused, put_back};
use log_disk::Disk;
use log_text::Body;
use logfile::{LogFile, Refused};
use money::Refusal;
use population::Population;
use recover_files::is_of;
use recover_progress::Progress;
use std::alloc::{AllocError, Global};

/// The log files of a population's database, opened again, as by `open_all_or_give_back`, which gives no disk back.
///
/// # Errors
///
/// As `open_all_or_give_back`. An Err drops the disks.
pub fn open_all<D: Disk + Drop>(
    alloc: Global,
    population: &Population,
    disks: Vec<D>,
    progress: &Progress,
) -> Result<(Vec<LogFile<D>>, Vec<Vec<Body>>), Refusal>
    ensures opened { D.is_modelled → IfOk result (λ x. AreOpened (initial population.now).scale
        (seed_of population.now)
        (map (disk_on D.seen D.story) disks.items) (map (file_on D.seen D.story) x.0.items)
        (map (λ bodies. bodies_in bodies.items) x.1.items)) }
    ensures behind { IfOk result (λ x. AreOpenBehind (initial population.now).scale (seed_of population.now)
        (length disks.items) x.0.items (map (λ bodies. bodies_in bodies.items) x.1.items)) }
    ensures read { IfOk result (λ x. (strings : List (List ℕ))
        × AreOnDisks D.is_modelled (map D.seen disks.items) strings × AreShort strings
        × AreFiles (initial population.now).scale (seed_of population.now) strings
        (map (λ bodies. bodies_in bodies.items) x.1.items)) }
    ensures none_failed { IfOk result (λ x. map (λ file. D.failed file.disk) x.0.items ≡ map D.failed disks.items) }
    ensures damaged { D.is_modelled → IsErrOf result Damaged
        → AreNoFiles (initial population.now).scale (seed_of population.now) (map D.seen disks.items) }
    ensures others { IfErr result (λ refusal. (refusal ≢ OutOfMemory) → (refusal ≢ Device)
        → refusal ≡ Damaged) }
{
    match open_all_or_give_back(alloc, population, disks, progress) {
        Ok(opened) => Ok(opened),
        Err(refused) => Err(refused.refusal),
    }
}

/// The log files of a population's database, opened again for appending (`LogFile::open_or_give_back`), and the bodies
/// that stand in them: disk `l` has the file of logger `l`, of as many loggers as disks. Each disk is synced before its
/// file is read; all are, before any is read, so that what was read of some is no older, after a crash, than what was
/// read of others (Silo, section 4.10; which disk is synced before which is read no clause says). Writes nothing. What
/// is read is noted as it is read. Costs two syncs of each disk, and a pass over the files.
///
/// # Errors
///
/// With the disks (`AreGivenBack`): nothing was written. `Damaged`, of modelled disks only where some file is no log
/// file of this population's database, of its logger and of that many loggers, in the version that is written today;
/// `Device` exactly where a call of a disk fails; `OutOfMemory`, where none fails. The first file that refuses decides.
pub fn open_all_or_give_back<D: Disk + Drop>(
    alloc: Global,
    population: &Population,
    disks: Vec<D>,
    progress: &Progress,
) -> Result<(Vec<LogFile<D>>, Vec<Vec<Body>>), AllRefused<D>>
    ensures opened { D.is_modelled → IfOk result (λ x. AreOpened (initial population.now).scale
        (seed_of population.now)
        (map (disk_on D.seen D.story) disks.items) (map (file_on D.seen D.story) x.0.items)
        (map (λ bodies. bodies_in bodies.items) x.1.items)) }
    ensures behind { IfOk result (λ x. AreOpenBehind (initial population.now).scale (seed_of population.now)
        (length disks.items) x.0.items (map (λ bodies. bodies_in bodies.items) x.1.items)) }
    ensures read { IfOk result (λ x. (strings : List (List ℕ))
        × AreOnDisks D.is_modelled (map D.seen disks.items) strings × AreShort strings
        × AreFiles (initial population.now).scale (seed_of population.now) strings
        (map (λ bodies. bodies_in bodies.items) x.1.items)) }
    ensures none_failed { IfOk result (λ x. map (λ file. D.failed file.disk) x.0.items ≡ map D.failed disks.items) }
    ensures damaged { D.is_modelled → IfErr result (λ refused. refused.refusal ≡ Damaged
        → AreNoFiles (initial population.now).scale (seed_of population.now) (map D.seen disks.items)) }
    ensures given_back { IfErr result (λ refused. AreGivenBack D.is_modelled D.seen D.story D.failed refused.refusal
        disks.items refused.disks.items) }
    ensures others { IfErr result (λ refused. (refused.refusal ≢ OutOfMemory) → (refused.refusal ≢ Device)
        → refused.refusal ≡ Damaged) }
{
    let mut synced = disks;
    match sync_all(&mut synced) {
        Ok(()) => open_synced(alloc, population, synced, progress),
        Err(refusal) => Err(AllRefused {
            refusal,
            disks: synced,
        }),
    }
}

/// Syncs disks, in their order.
///
/// # Errors
///
/// `Device`, exactly where a device has failed.
fn sync_all<D: Disk>(disks: &mut [D]) -> Result<(), Refusal>
    ensures synced { OnOk result (AreSynced D.is_modelled D.seen D.story D.failed disks.old disks.new) }
    ensures left { OnErr result (AreGivenBack D.is_modelled D.seen D.story D.failed Device disks.old disks.new) }
    ensures only_device { IfErr result (λ refusal. refusal ≡ Device) }
{
    for n in 0..disks.len() {
        disks[n].sync()?;
    }
    Ok(())
}

/// Vectors of files, of their bodies and of disks with room for as many as there are loggers.
#[derive(Drop)]
struct Rooms<D: Disk> {
    files: Vec<LogFile<D>>,
    all: Vec<Vec<Body>>,
    disks: Vec<D>,
}

/// Room for so many.
fn make_room<D: Disk + Drop>(alloc: Global, loggers: usize) -> Result<Rooms<D>, AllocError>
    ensures empty { IfOk result (λ r. (r.files.items ≡ []) × (r.all.items ≡ []) × (r.disks.items ≡ [])) }
    ensures room { IfOk result (λ r. (loggers ≤ vec_capacity r.files) × (loggers ≤ vec_capacity r.all)
        × (loggers ≤ vec_capacity r.disks)) }
{
    let files = Vec::with_capacity(alloc, loggers)?;
    let all = Vec::with_capacity(alloc, loggers)?;
    let disks = Vec::with_capacity(alloc, loggers)?;
    Ok(Rooms { files, all, disks })
}

/// The log files on these disks, each opened as the one of its logger.
///
/// # Errors
///
/// As `open_all_or_give_back`.
fn open_synced<D: Disk + Drop>(
    alloc: Global,
    population: &Population,
    disks: Vec<D>,
    progress: &Progress,
) -> Result<(Vec<LogFile<D>>, Vec<Vec<Body>>), AllRefused<D>>
    ensures opened { IfOk result (λ x. AreReopened D.is_modelled D.seen D.story D.failed (initial population.now).scale
        (seed_of population.now) (length disks.items) disks.items x.0.items
        (map (λ bodies. bodies_in bodies.items) x.1.items)) }
    ensures damaged { D.is_modelled → IfErr result (λ refused. refused.refusal ≡ Damaged
        → AreNoFiles (initial population.now).scale (seed_of population.now) (map D.seen disks.items)) }
    ensures given_back { IfErr result (λ refused. AreGivenBack D.is_modelled D.seen D.story D.failed refused.refusal
        disks.items refused.disks.items) }
    ensures others { IfErr result (λ refused. (refused.refusal ≢ OutOfMemory) → (refused.refusal ≢ Device)
        → refused.refusal ≡ Damaged) }
{
    match make_room(alloc, disks.len()) {
        Ok(rooms) => open_into(rooms, alloc, population, disks, progress),
        Err(_) => Err(AllRefused {
            refusal: Refusal::OutOfMemory,
            disks,
        }),
    }
}

/// The same, into vectors that have room.
fn open_into<D: Disk + Drop>(
    rooms: Rooms<D>,
    alloc: Global,
    population: &Population,
    disks: Vec<D>,
    progress: &Progress,
) -> Result<(Vec<LogFile<D>>, Vec<Vec<Body>>), AllRefused<D>>
    requires empty { (rooms.files.items ≡ []) × (rooms.all.items ≡ []) × (rooms.disks.items ≡ []) }
    requires room { (length disks.items ≤ vec_capacity rooms.files) × (length disks.items ≤ vec_capacity rooms.all)
        × (length disks.items ≤ vec_capacity rooms.disks) }
    ensures opened { IfOk result (λ x. AreReopened D.is_modelled D.seen D.story D.failed (initial population.now).scale
        (seed_of population.now) (length disks.items) disks.items x.0.items
        (map (λ bodies. bodies_in bodies.items) x.1.items)) }
    ensures damaged { D.is_modelled → IfErr result (λ refused. refused.refusal ≡ Damaged
        → AreNoFiles (initial population.now).scale (seed_of population.now) (map D.seen disks.items)) }
    ensures given_back { IfErr result (λ refused. AreGivenBack D.is_modelled D.seen D.story D.failed refused.refusal
        disks.items refused.disks.items) }
    ensures others { IfErr result (λ refused. (refused.refusal ≢ OutOfMemory) → (refused.refusal ≢ Device)
        → refused.refusal ≡ Damaged) }
{
    let loggers = disks.len();
    let Rooms {
        mut files,
        mut all,
        disks: room,
    } = rooms;
    let mut rest = disks.into_iter();
    while let Some(disk) = rest.next() {
        match open_one(alloc, population, files.len(), loggers, disk, progress) {
            Ok(opened) => {
                let (file, bodies) = opened;
                files.push_reserved(file);
                all.push_reserved(bodies);
            }
            Err(refused) => {
                return Err(AllRefused {
                    refusal: refused.refusal,
                    disks: put_back(room, files, refused.disk, rest),
                });
            }
        }
    }
    Ok((files, all))
}

/// The log file on a disk, opened as that of this logger, one of so many, and its bodies.
fn open_one<D: Disk + Drop>(
    alloc: Global,
    population: &Population,
    logger: usize,
    loggers: usize,
    disk: D,
    progress: &Progress,
) -> Result<(LogFile<D>, Vec<Body>), Refused<D>>
    ensures opened { IfOk result (λ x. (bytes : List ℕ) × IsReopened D.is_modelled D.seen D.story D.failed
        (header_view logger loggers (initial population.now).scale (seed_of population.now)) disk bytes x.0
        (bodies_in x.1.items)) }
    ensures damaged { D.is_modelled → IfErr result (λ refused. refused.refusal ≡ Damaged → (bodies : List BodyView)
        → IsFile (D.seen disk)
        (header_view logger loggers (initial population.now).scale (seed_of population.now)) bodies → ⊥) }
    ensures given_back { IfErr result (λ refused. IsGivenBack D.is_modelled D.seen D.story D.failed refused.refusal
        disk refused.disk) }
    ensures others { IfErr result (λ refused. (refused.refusal ≢ OutOfMemory) → (refused.refusal ≢ Device)
        → refused.refusal ≡ Damaged) }
{
    let (file, bodies) = LogFile::open_or_give_back(alloc, disk, progress)?;
    if !is_of(&file.header(), population, logger, loggers) {
        return Err(Refused {
            refusal: Refusal::Damaged,
            disk: file.into_disk(),
        });
    }
    Ok((file, bodies))
}
