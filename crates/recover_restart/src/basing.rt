//! What a database goes on from, of the bodies of its log files.
ghost use Rattle.std.specs.Prelude.{◌≡◌, ◌≢◌, ◌<◌, ◌≤◌, ℕ, List, map, IfOk, IfErr, OnOk, OnErr, IsErrOf, IsTrue};
ghost use Rattle.money.specs.declared.refusal.Refusal.TheVariants.{OutOfMemory, Damaged, Gap, EpochFull};
ghost use Rattle.tables.specs.Database.{database};
ghost use Rattle.tables.specs.declared.limits.TheConstants.{MAX_COMMITS};
ghost use Rattle.population.specs.Initial.{initial, seed_of};
ghost use Rattle.board.specs.Words.{last_epoch};
ghost use Rattle.recover_found.specs.Found.{bodies_in, found};
ghost use Rattle.recover_found.specs.Rebuilt.{HaveNoGap};
ghost use Rattle.recover_files.specs.Files.{AreFiles};
ghost use Rattle.recover_sound.specs.Sound.{AreSoundTables, rows_behind_those_of};
ghost use Rattle.recover_restart.specs.Basing.{IsBaseOf, AreUnsound};

use book::Base;
use log_text::Body;
use money::Refusal;
use population::Population;
use recover_files::{Recovered, recover_bodies};
use recover_progress::Progress;
use recover_sound::{is_sound, recovered_commits_are_within_the_cap};
use std::alloc::{AllocError, Global};
use tables::limits::LAST_EPOCH;
use tables::{History, Tables};

/// What a database goes on from whose log files have these bodies: the tables that they recover to, the HISTORY rows
/// that these have behind the population's, how many commits made them, and `top` as the last epoch.
///
/// # Errors
///
/// `Gap`, as `recover`. Else `EpochFull` exactly where `top` is the last epoch that there is. Else `Damaged` exactly
/// where the tables aren't such as the commits can have made (`AreSoundTables`). `OutOfMemory`.
pub(crate) fn base_of(
    alloc: Global,
    population: &Population,
    files: Vec<Vec<Body>>,
    top: u64,
    progress: &Progress,
) -> Result<Base, Refusal>
    requires { (strings : List (List ℕ)) × AreFiles (initial population.now).scale (seed_of population.now) strings
        (map (λ bodies. bodies_in bodies.items) files.items) }
    ensures base { IfOk result (IsBaseOf (initial population.now) (map (λ bodies. bodies_in bodies.items) files.items)
        top) }
    ensures gap { IsErrOf result Gap → HaveNoGap (found (map (λ bodies. bodies_in bodies.items) files.items))
        → ⊥ }
    ensures full { IsErrOf result EpochFull → HaveNoGap (found (map (λ bodies. bodies_in bodies.items) files.items))
        × (last_epoch ≤ top) }
    ensures damaged { IsErrOf result Damaged → (top < last_epoch) × AreUnsound (initial population.now)
        (map (λ bodies. bodies_in bodies.items) files.items) }
    ensures others { IfErr result (λ refusal. (refusal ≢ OutOfMemory) → (refusal ≢ Gap)
        → (refusal ≢ EpochFull) → refusal ≡ Damaged) }
{
    // Who asks for a scale knows its limits.
    let _scale = population.scale();
    recovered_commits_are_within_the_cap();
    let recovered = recover_bodies(alloc, population, files, progress)?;
    room_behind(top)?;
    admitted(alloc, population, recovered, top)
}

/// Refuses by `EpochFull`, and by nothing else, exactly where `top` is the last epoch that there is.
fn room_behind(top: u64) -> Result<(), Refusal>
    ensures room { OnOk result (top < last_epoch) }
    ensures full { OnErr result (last_epoch ≤ top) }
    ensures only_full { IfErr result (λ refusal. refusal ≡ EpochFull) }
{
    if top >= LAST_EPOCH {
        return Err(Refusal::EpochFull);
    }
    Ok(())
}

/// What was recovered, as what to go on from, if the tables are such as the commits can have made.
fn admitted(
    alloc: Global,
    population: &Population,
    recovered: Recovered,
    top: u64,
) -> Result<Base, Refusal>
    requires { recovered.commits ≤ MAX_COMMITS }
    ensures base { IfOk result (λ base. (database base.tables ≡ database recovered.tables)
        × (base.rows.items ≡ rows_behind_those_of (initial population.now) (database recovered.tables))
        × (base.commits ≡ recovered.commits) × (base.epoch ≡ top)
        × AreSoundTables recovered.commits (database recovered.tables)) }
    ensures damaged { IsErrOf result Damaged → AreSoundTables recovered.commits (database recovered.tables) → ⊥ }
    ensures others { IfErr result (λ refusal. (refusal ≢ OutOfMemory) → refusal ≡ Damaged) }
{
    let commits = recovered.commits as u32;
    sound_or_damaged(is_sound(alloc, &recovered.tables, commits)?)?;
    let rows = rows_behind(alloc, population.tables(), &recovered.tables)?;
    Ok(Base {
        tables: recovered.tables,
        rows,
        commits,
        epoch: top,
    })
}

/// Refuses by `Damaged`, and by nothing else, exactly where tables aren't sound.
fn sound_or_damaged(sound: bool) -> Result<(), Refusal>
    ensures sound { OnOk result (IsTrue sound) }
    ensures unsound { OnErr result (IsTrue sound → ⊥) }
    ensures only_damaged { IfErr result (λ refusal. refusal ≡ Damaged) }
{
    if sound { Ok(()) } else { Err(Refusal::Damaged) }
}

/// The rows of HISTORY that tables have behind as many as the first ones have. A copy of them.
fn rows_behind(alloc: Global, first: &Tables, tables: &Tables) -> Result<Vec<History>, AllocError>
    ensures { IfOk result (λ rows. rows.items ≡ rows_behind_those_of (database first.now) (database tables.now)) }
{
    let mut rows = Vec::new(alloc);
    let old = first.history.len().min(tables.history.len());
    rows.extend_from_slice(&tables.history[old..])?;
    Ok(rows)
}
