//! Engines of one warehouse, and what a run of them needs.
ghost use Rattle.std.specs.Prelude.{◌≡◌, ◌<◌, ◌≤◌, [], length, All, IfOk};
ghost use Rattle.board.specs.declared.rule.Role.TheVariants.{Logger as logger_role};
ghost use Rattle.board.specs.Opening.{logger_seats};
ghost use Rattle.board.specs.Seats.{new_seat};
ghost use Rattle.population.specs.Initial.{initial};
ghost use Rattle.lane_logger.specs.Found.{IsFoundIn, new_files};
ghost use Rattle.book.specs.Parts.{IsFresh, base_of, loggers_of, terminals_of};

use crate::held::{Follower, Passing};
use crate::meeting::{Attendance, Meeting};
use board::{Board, LoggerSeat};
use book::Parts;
use log_disk::Disk;
use log_header::Header;
use logfile::LogFile;
use logger::Logger;
use money::Refusal;
use population::Population;
use run_threads::{AtOnce, Pace, Paced, Station};
use std::alloc::Global;
use std::sync::Wait;
use tables::Scale;
use terminals::Calls;
use terminals_deck::{Deck, Settings};

/// How many terminals meet.
pub(crate) const TERMINALS: u32 = 4;

/// The plain population of one warehouse, two districts, ten customers a district and 20 items.
pub(crate) fn plain(alloc: Global) -> Result<Population, Refusal> {
    Population::plain(alloc, Scale::new(1, 2, 10, 20, 2_000, 2_000)?)
}

/// The parts of an engine over it, for so many loggers and terminals.
pub(crate) fn parts<R: Wait>(
    rt: &R,
    alloc: Global,
    loggers: u16,
    terminals: u16,
) -> Result<Parts, Refusal>
    requires loggers { (0 < loggers) × (loggers ≤ 8) }
    requires terminals { (0 < terminals) × (terminals ≤ 16) }
    ensures fresh { IfOk result IsFresh }
    ensures plan { IfOk result (λ parts. (loggers_of parts ≡ loggers) × (base_of parts ≡ 0)) }
    ensures terminals { IfOk result (λ parts. terminals_of parts ≡ terminals) }
{
    Parts::new(rt, alloc, plain(alloc)?, loggers, terminals)
}

/// The stations of terminals that meet before their first commits.
pub(crate) fn stations<'a>(
    alloc: Global,
    scale: Scale,
    meeting: &'a Meeting,
) -> Result<Vec<Station<Attendance<'a>>>, Refusal>
    ensures count { IfOk result (λ stations. length stations.items ≡ 4) }
    ensures decks { IfOk result (λ stations. All (λ station. station.deck.scale ≡ scale) stations.items) }
{
    let mut stations = Vec::new(alloc);
    for terminal in 0..TERMINALS {
        stations.push(Station {
            deck: Deck::new(scale, Settings::usual(), 1, terminal),
            gate: Attendance {
                calls: Calls::default(),
                meeting,
                all: TERMINALS,
            },
        })?;
    }
    Ok(stations)
}

/// The station of a terminal that goes on beside a sync.
pub(crate) fn follower<'a>(
    alloc: Global,
    scale: Scale,
    passing: &'a Passing,
) -> Result<Vec<Station<Follower<'a>>>, Refusal>
    ensures count { IfOk result (λ stations. length stations.items ≡ 1) }
    ensures decks { IfOk result (λ stations. All (λ station. station.deck.scale ≡ scale) stations.items) }
{
    let mut stations = Vec::new(alloc);
    stations.push(Station {
        deck: Deck::new(scale, Settings::usual(), 1, 0),
        gate: Follower {
            calls: Calls::default(),
            passing,
        },
    })?;
    Ok(stations)
}

/// The two loggers, with new files on these disks, each with how it waits between its turns.
pub(crate) fn logs<D: Disk + Drop, P: Pace + Drop>(
    alloc: Global,
    population: &Population,
    board: &Board,
    seats: Vec<LoggerSeat>,
    slots: ((D, P), (D, P)),
) -> Result<Vec<Paced<Logger<D>, P>>, Refusal>
    requires seats { seats.items ≡ logger_seats board.now 2 }
    requires plan { (board.now.plan.loggers ≡ 2) × (board.now.plan.base ≡ 0) }
    requires first { D.is_modelled → (D.seen slots.0.0 ≡ []) × (D.story slots.0.0 ≡ []) }
    requires second { D.is_modelled → (D.seen slots.1.0 ≡ []) × (D.story slots.1.0 ≡ []) }
    ensures { IfOk result (λ logs. All (λ log. IsFoundIn board.now (new_files 2 (initial population.now).scale 0)
        D.is_modelled D.seen D.story log.inner) logs.items) }
{
    let mut seats = seats;
    let (Some(second), Some(first)) = (seats.pop(), seats.pop()) else {
        return Err(Refusal::BadInput);
    };
    let mut logs = Vec::new(alloc);
    logs.push(log_on(alloc, population, slots.0, first, (0, 2))?)?;
    logs.push(log_on(alloc, population, slots.1, second, (1, 2))?)?;
    Ok(logs)
}

/// The only logger, with a new file on this disk.
pub(crate) fn one_log<D: Disk + Drop>(
    alloc: Global,
    population: &Population,
    board: &Board,
    seats: Vec<LoggerSeat>,
    disk: D,
) -> Result<Vec<Paced<Logger<D>, AtOnce>>, Refusal>
    requires seats { seats.items ≡ logger_seats board.now 1 }
    requires plan { (board.now.plan.loggers ≡ 1) × (board.now.plan.base ≡ 0) }
    requires empty { D.is_modelled → (D.seen disk ≡ []) × (D.story disk ≡ []) }
    ensures { IfOk result (λ logs. All (λ log. IsFoundIn board.now (new_files 1 (initial population.now).scale 0)
        D.is_modelled D.seen D.story log.inner) logs.items) }
{
    let mut seats = seats;
    let Some(seat) = seats.pop() else {
        return Err(Refusal::BadInput);
    };
    let mut logs = Vec::new(alloc);
    logs.push(log_on(alloc, population, (disk, AtOnce), seat, (0, 1))?)?;
    Ok(logs)
}

/// A logger with a new file on a disk. Plain populations have seed 0.
fn log_on<D: Disk + Drop, P: Pace + Drop>(
    alloc: Global,
    population: &Population,
    slot: (D, P),
    seat: LoggerSeat,
    logger: (u16, u16),
) -> Result<Paced<Logger<D>, P>, Refusal>
    requires seat { seat ≡ new_seat seat.board (logger_role logger.0) }
    requires plan { (seat.board.plan.loggers ≡ logger.1) × (seat.board.plan.base ≡ 0) }
    requires logger { (logger.0 < logger.1) × (logger.1 ≤ 8) }
    requires empty { D.is_modelled → (D.seen slot.0 ≡ []) × (D.story slot.0 ≡ []) }
    ensures { IfOk result (λ log. IsFoundIn seat.board (new_files logger.1 (initial population.now).scale 0)
        D.is_modelled D.seen D.story log.inner) }
{
    let ((disk, pace), (number, loggers)) = (slot, logger);
    let header = Header::new(population.scale(), 0, number, loggers);
    let file = LogFile::create(alloc, disk, header)?;
    Ok(Paced {
        inner: Logger::new(file, seat),
        pace,
    })
}
