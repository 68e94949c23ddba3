//! Recovery.
ghost use Rattle.std.specs.Prelude.{◌≡◌, ◌≢◌, ℕ, List, map, flat_map, IfOk, IfErr, IsErrOf};
ghost use Rattle.std.specs.List.{All};
ghost use Rattle.money.specs.declared.refusal.Refusal.TheVariants.{OutOfMemory, Gap};
ghost use Rattle.tables.specs.Database.{database};
ghost use Rattle.tables.specs.Sizes.{IsScale};
ghost use Rattle.log_text.specs.Bodies.{BodyView};
ghost use Rattle.log_text.specs.Entries.{EntryView};
ghost use Rattle.population.specs.Initial.{initial, seed_of};
ghost use Rattle.recover_found.specs.Found.{bodies_in, counted, counts_by, entries_of, found};
ghost use Rattle.recover_found.specs.Rebuilt.{HaveNoGap, IsRebuilt};
ghost use Rattle.recover_files.specs.Answers.{IsAnswerOn};
ghost use Rattle.recover_files.specs.Files.{AreFilesOf};
ghost use Rattle.recover_files.specs.Parts.{IsPart, IsMerged, HaveLawfulWrites};
ghost use Rattle.recover_files.specs.Recovered.{IsOfFiles};

use crate::files::read_some;
use crate::history::add_history;
use crate::merging::merged_with;
use crate::numbering::{are_numbered, sort};
use crate::part::Part;
use crate::reading::read_with;
use encoding::{values_are_held, values_determine_tables};
use log_disk::Disk;
use log_text::Body;
use money::Refusal;
use population::Population;
use recover_found::Keeps;
use recover_newest::{copied, put_all};
use recover_progress::Progress;
use std::alloc::{AllocError, Global};
use std::thread::Threads;
use tables::{Scale, Tables};

/// What recovery gives.
#[derive(Drop)]
pub struct Recovered {
    /// The tables.
    pub tables: Tables,
    /// How many commits they are of: those with the numbers from 1 to this one.
    pub commits: u64,
    /// The durable epoch: the commits are those up to it.
    pub durable: u64,
}

/// The tables that a database had at the durable epoch, from its log files and the population that it began with: file
/// `l` of this slice is that of logger `l` (Silo, section 4.10). Of each record it takes the newest write, by TID and
/// then commit number; rows of HISTORY follow the population's in the order of commit numbers. It reads the disks, and
/// writes nothing. How far it is can be read from `progress` by other threads; nothing else goes by that.
///
/// Costs a pass over the files, constant time a write, a pass over the records for each file and one more, a look-up
/// and an insert for each that was written, a sort of the commits, and a copy of the population. Beside that copy it
/// takes 4 bytes a record of the scale, twice, and memory for what was written.
///
/// # Errors
///
/// `Device` where a call of a disk fails, and only there. `Damaged` exactly where none fails and some file is no log
/// file of this population's database, of its logger and of that many loggers, or they are of two versions. `Gap`
/// exactly where, else, the commits that count, those up to the durable epoch in no epoch that a file declares void,
/// don't have the numbers 1, 2 and so on, each once. `OutOfMemory`. The files are looked at in their order, and the
/// first that refuses decides.
pub fn recover<D: Disk>(
    alloc: Global,
    population: &Population,
    disks: &mut [D],
    progress: &Progress,
) -> Result<Recovered, Refusal>
    ensures { IsAnswerOn D.is_modelled D.seen D.story D.failed (initial population.now) (seed_of population.now)
        disks.old disks.new result }
{
    let loggers = disks.len();
    let files = read_some(alloc, population, loggers, 0, disks, progress)?;
    recover_bodies(alloc, population, files.bodies, progress)
}

/// What `recover` gives of files that were read: these are their bodies, in the order of the loggers. Costs what it
/// does, but for the reading. Each body is given up once it was looked at.
///
/// # Errors
///
/// `Gap` exactly where the commits that count don't have the numbers 1, 2 and so on, each once. `OutOfMemory`.
pub fn recover_bodies(
    alloc: Global,
    population: &Population,
    files: Vec<Vec<Body>>,
    progress: &Progress,
) -> Result<Recovered, Refusal>
    requires { (version : ℕ) × (strings : List (List ℕ)) × AreFilesOf version (initial population.now).scale
        (seed_of population.now) strings (map (λ bodies. bodies_in bodies.items) files.items) }
    ensures recovered { IfOk result (IsOfFiles (initial population.now)
        (map (λ bodies. bodies_in bodies.items) files.items)) }
    ensures gap { IsErrOf result Gap → HaveNoGap (found (map (λ bodies. bodies_in bodies.items) files.items))
        → ⊥ }
    ensures others { IfErr result (λ refusal. (refusal ≢ OutOfMemory) → refusal ≡ Gap) }
{
    let keeps = Keeps::of(alloc, &files)?;
    let part = merged(alloc, &population.scale(), files, &keeps, progress)?;
    settled(alloc, population, part, keeps.durable())
}

/// What `recover` does, where files are read, and what they say is merged, in at most so many threads, of which the
/// calling one is the first; with 0 or 1 it is the only one, and there are no more than files. Where a thread can't be
/// started, the calling one does its work. Takes 4 bytes a record of the scale for each thread and one more. May wait,
/// for its threads.
///
/// # Errors
///
/// As `recover`, but that each thread looks at its own files until one refuses: where one thread finds a device that
/// fails, that decides, whatever another has found.
pub fn recover_with<R: Threads + Sync, D: Disk + Send>(
    rt: &R,
    alloc: Global,
    population: &Population,
    disks: &mut [D],
    threads: usize,
    progress: &Progress,
) -> Result<Recovered, Refusal>
    ensures { IsAnswerOn D.is_modelled D.seen D.story D.failed (initial population.now) (seed_of population.now)
        disks.old disks.new result }
{
    let loggers = disks.len();
    let read = read_with(rt, alloc, population, loggers, 0, threads, disks, progress)?;
    let files = read.bodies;
    let keeps = Keeps::of(alloc, &files)?;
    let part = merged_with(
        rt,
        alloc,
        &population.scale(),
        files,
        &keeps,
        threads,
        progress,
    )?;
    settled(alloc, population, part, keeps.durable())
}

/// What the files say together, from one part a file.
pub(crate) fn merged(
    alloc: Global,
    scale: &Scale,
    files: Vec<Vec<Body>>,
    keeps: &Keeps,
    progress: &Progress,
) -> Result<Part, AllocError>
    requires scale { IsScale scale.now }
    requires lawful { All (λ bodies. HaveLawfulWrites scale.now (entries_of bodies))
        (map (λ bodies. bodies_in bodies.items) files.items) }
    ensures { IfOk result (λ part. IsPart scale.now
        (flat_map (counted (counts_by keeps.now)) (map (λ bodies. bodies_in bodies.items) files.items)) part) }
{
    let mut all = Part::new(alloc, scale)?;
    for bodies in files {
        let part = Part::of_file(alloc, scale, bodies, keeps, progress)?;
        all.merge(part)?;
    }
    Ok(all)
}

/// What a part recovers to that has what the files say together, which count up to this durable epoch.
fn settled(
    alloc: Global,
    population: &Population,
    part: Part,
    durable: u64,
) -> Result<Recovered, Refusal>
    requires merged { (files : List (List BodyView)) × IsMerged (initial population.now).scale files durable part }
    ensures recovered { (files : List (List BodyView)) → IsMerged (initial population.now).scale files durable part
        → IfOk result (IsOfFiles (initial population.now) files) }
    ensures gap { (files : List (List BodyView)) → IsMerged (initial population.now).scale files durable part
        → IsErrOf result Gap → HaveNoGap (found files) → ⊥ }
    ensures others { IfErr result (λ refusal. (refusal ≢ OutOfMemory) → refusal ≡ Gap) }
{
    let commits = part.commits.len() as u64;
    let tables = rebuilt(alloc, population, part)?;
    Ok(Recovered {
        tables,
        commits,
        durable,
    })
}

/// The tables of what all files say.
fn rebuilt(alloc: Global, population: &Population, part: Part) -> Result<Tables, Refusal>
    requires part { (es : List EntryView) × IsPart (initial population.now).scale es part
        × HaveLawfulWrites (initial population.now).scale es }
    ensures rebuilt { IfOk result (λ tables. (es : List EntryView) → IsPart (initial population.now).scale es part
        → HaveLawfulWrites (initial population.now).scale es
        → IsRebuilt (initial population.now) es (database tables)) }
    ensures gap { IsErrOf result Gap → (es : List EntryView) → IsPart (initial population.now).scale es part
        → HaveNoGap es → ⊥ }
    ensures others { IfErr result (λ refusal. (refusal ≢ OutOfMemory) → refusal ≡ Gap) }
{
    let mut commits = part.commits;
    sort(&mut commits);
    if !are_numbered(&commits) {
        return Err(Refusal::Gap);
    }
    // The copy holds what the population's records hold.
    values_determine_tables();
    values_are_held();
    let first = population.tables();
    let mut tables = copied(alloc, first)?;
    put_all(alloc, &mut tables, first, &part.newest)?;
    add_history(&mut tables, &commits)?;
    Ok(tables)
}
