//! A run of a terminal beside a logger, and whether an input of it ran where it was refused.
ghost use Rattle.std.specs.Prelude.{◌≡◌, ◌<◌, [], length, All, IfOk};
ghost use Rattle.board.specs.declared.rule.Role.TheVariants.{Logger as logger_role};
ghost use Rattle.board.specs.Opening.{logger_seats};
ghost use Rattle.board.specs.Seats.{new_seat};
ghost use Rattle.population.specs.Initial.{initial};
ghost use Rattle.lane_logger.specs.Found.{IsFoundIn, new_files};
ghost use Rattle.book.specs.Parts.{IsFresh, IsOpenedAs, IsLedgerOf, base_of, loggers_of, terminals_of};

use crate::roomy::Roomy;
use board::{Board, LoggerSeat};
use book::{Engine, Parts, Seats};
use lane_logger::LoggedRun;
use log_disk::Disk;
use log_header::Header;
use logfile::LogFile;
use logger::Logger;
use money::Refusal;
use population::Population;
use run_threads::{AtOnce, Desks, Paced, Station, run};
use std::alloc::Global;
use std::marker::Brand;
use std::sync::Wait;
use std::sync::atomic::AtomicU64;
use std::thread::Threads;
use tables::Scale;
use terminals::Calls;
use terminals_deck::{Deck, Settings};

/// How many inputs the terminal has.
const INPUTS: u32 = 20;

/// How many bytes a log file has in which no body stands: those of its header, and a closed gate.
const NEW: usize = 49;

fn parts<R: Wait>(rt: &R, alloc: Global) -> Result<Parts, Refusal>
    ensures fresh { IfOk result IsFresh }
    ensures plan { IfOk result (λ parts. (loggers_of parts ≡ 1) × (base_of parts ≡ 0)) }
    ensures terminals { IfOk result (λ parts. terminals_of parts ≡ 1) }
{
    let scale = Scale::new(1, 2, 10, 20, 60, 200)?;
    Parts::new(rt, alloc, Population::plain(alloc, scale)?, 1, 1)
}

/// The terminal's station.
fn stations(alloc: Global, scale: Scale) -> Result<Vec<Station<Calls>>, Refusal>
    ensures count { IfOk result (λ stations. length stations.items ≡ 1) }
    ensures decks { IfOk result (λ stations. All (λ station. station.deck.scale ≡ scale) stations.items) }
{
    let mut stations = Vec::new(alloc);
    stations.push(Station {
        deck: Deck::new(scale, Settings::usual(), 1, 0),
        gate: Calls::default(),
    })?;
    Ok(stations)
}

/// The logger, with a new file on an empty disk.
fn logs<D: Disk + Drop>(
    alloc: Global,
    population: &Population,
    board: &Board,
    seats: Vec<LoggerSeat>,
    disk: D,
) -> Result<Vec<Paced<Logger<D>, AtOnce>>, Refusal>
    requires seats { seats.items ≡ logger_seats board.now 1 }
    requires plan { (board.now.plan.loggers ≡ 1) × (board.now.plan.base ≡ 0) }
    requires empty { D.is_modelled → (D.seen disk ≡ []) × (D.story disk ≡ []) }
    ensures { IfOk result (λ logs. All (λ log. IsFoundIn board.now (new_files 1 (initial population.now).scale 0)
        D.is_modelled D.seen D.story log.inner) logs.items) }
{
    let mut seats = seats;
    let Some(seat) = seats.pop() else {
        return Err(Refusal::BadInput);
    };
    let mut logs = Vec::new(alloc);
    logs.push(log_on(alloc, population, disk, seat)?)?;
    Ok(logs)
}

fn log_on<D: Disk + Drop>(
    alloc: Global,
    population: &Population,
    disk: D,
    seat: LoggerSeat,
) -> Result<Paced<Logger<D>, AtOnce>, Refusal>
    requires seat { seat ≡ new_seat seat.board (logger_role 0) }
    requires plan { (seat.board.plan.loggers ≡ 1) × (seat.board.plan.base ≡ 0) }
    requires empty { D.is_modelled → (D.seen disk ≡ []) × (D.story disk ≡ []) }
    ensures { IfOk result (λ log. IsFoundIn seat.board (new_files 1 (initial population.now).scale 0)
        D.is_modelled D.seen D.story log.inner) }
{
    // Plain populations have seed 0.
    let header = Header::new(population.scale(), 0, 0, 1);
    let file = LogFile::create(alloc, disk, header)?;
    Ok(Paced {
        inner: Logger::new(file, seat),
        pace: AtOnce,
    })
}

/// Runs the inputs. Answers how many there were.
fn ran_on<K: LoggedRun + Send + Sync, D: Disk + Send + Drop, R: Threads + Wait + Sync>(
    rt: &R,
    alloc: Global,
    parts: Parts,
    disk: D,
) -> Result<u64, Refusal>
    requires run { IsOpenedAs parts K.run }
    requires ledger { IsLedgerOf parts K.name K.parts }
    requires named { K.found ≡ new_files 1 K.run.first.scale 0 }
    requires loggers { (loggers_of parts ≡ 1) × (base_of parts ≡ 0) }
    requires terminals { terminals_of parts ≡ 1 }
    requires empty { D.is_modelled → (D.seen disk ≡ []) × (D.story disk ≡ []) }
{
    let (engine, seats) = Engine::<K>::open(parts);
    let Seats {
        clock,
        loggers,
        terminals,
    } = seats;
    let logs = logs(alloc, engine.population(), engine.board(), loggers, disk)?;
    let stations = stations(alloc, engine.population().scale())?;
    let desks = Desks { clock, terminals };
    let counts = run(rt, alloc, engine, desks, logs, stations, INPUTS)?.counts;
    let ends = [counts.rollbacks, counts.gave_up, counts.refused];
    Ok(
        ends.iter()
            .fold(counts.commits, |sum, n| sum.saturating_add(*n)),
    )
}

/// What a run came to whose log file has these bytes.
fn told(outcome: Result<u64, Refusal>, file: &[u8]) -> &'static [u8] {
    match outcome {
        Ok(inputs) if inputs == u64::from(INPUTS) => b"all inputs ran\n",
        Ok(_) => b"inputs are missing\n",
        Err(Refusal::OutOfMemory) if file.len() <= NEW => b"no input ran\n",
        Err(Refusal::OutOfMemory) => b"inputs ran, and are refused\n",
        Err(_) => b"another refusal\n",
    }
}

/// Runs a terminal beside a logger, and tells what came of that.
pub(crate) fn run_terminal<R: Threads + Wait + Sync>(
    rt: &R,
    alloc: Global,
    out: &mut Vec<u8>,
) -> Result<(), Refusal> {
    out.reserve(64)?;
    let calls = AtomicU64::new(0);
    let mut disk = Roomy::new(alloc, &calls)?;
    let parts = parts(rt, alloc)?;
    let outcome = ran_on::<Brand, &mut Roomy<'_>, R>(rt, alloc, parts, &mut disk);
    out.extend_from_slice(told(outcome, disk.bytes()))?;
    Ok(())
}
