//! What the terminals and loggers of a run are given.
ghost use Rattle.std.specs.Prelude.{◌≡◌, ◌≢◌, ◌<◌, ◌≤◌, [], length, map, All, IfOk, IfErr};
ghost use Rattle.money.specs.declared.refusal.Refusal.TheVariants.{OutOfMemory, Device};
ghost use Rattle.tables.specs.declared.limits.TheConstants.{MAX_LOGGERS};
ghost use Rattle.log_header.specs.Header.{header_view};
ghost use Rattle.board.specs.declared.rule.Role.TheVariants.{Logger as logger_role};
ghost use Rattle.board.specs.Opening.{logger_seats};
ghost use Rattle.board.specs.Seats.{new_seat};
ghost use Rattle.lane_logger.specs.Found.{IsFoundIn, as_they_are};
ghost use Rattle.program_run.specs.Outfit.{AreLogsOf};

use board::{Board, LoggerSeat};
use log_disk::Disk;
use log_header::Header;
use logfile::LogFile;
use logger::Logger;
use money::Refusal;
use run_threads::{Pace, Paced, Station};
use std::alloc::{AllocError, Global};
use tables::Scale;
use terminals::Gate;
use terminals_deck::{Deck, Settings};

/// A station for each of so many terminals: a deck of its own, drawn from the seed, and its gate.
pub(crate) fn stations<G: Gate + Drop>(
    alloc: Global,
    scale: Scale,
    gates: Vec<G>,
    terminals: u16,
    seed: u64,
) -> Result<Vec<Station<G>>, AllocError>
    requires gates { length gates.items ≡ terminals }
    ensures count { IfOk result (λ stations. length stations.items ≡ terminals) }
    ensures decks { IfOk result (λ stations. All (λ station. station.deck.scale ≡ scale) stations.items) }
{
    let mut gates = gates;
    gates.reverse();
    let mut stations = Vec::new(alloc);
    for terminal in 0..terminals {
        let Some(gate) = gates.pop() else {
            unreachable!()
        };
        stations.push(Station {
            deck: Deck::new(scale, Settings::usual(), seed, u32::from(terminal)),
            gate,
        })?;
    }
    Ok(stations)
}

/// New log files on the disks of slots, one for each logger, in their order, of a population of this scale and seed.
/// `OutOfMemory` is a refusal, and so is `Device`, where a disk fails.
pub fn created<D: Disk + Drop, P: Pace + Drop>(
    alloc: Global,
    scale: Scale,
    seed: u64,
    slots: Vec<Paced<D, P>>,
) -> Result<Vec<Paced<LogFile<D>, P>>, Refusal>
    requires few { length slots.items ≤ MAX_LOGGERS }
    requires empty { D.is_modelled → All (λ slot. D.seen slot.inner ≡ []) slots.items }
    ensures logs { IfOk result (λ logs. AreLogsOf (length slots.items) 0 (map (λ log. log.inner) logs.items)) }
    ensures cause { IfErr result (λ refusal. (refusal ≢ OutOfMemory) → refusal ≡ Device) }
{
    let loggers = slots.len() as u16;
    let mut logs = Vec::new(alloc);
    for slot in slots {
        let header = Header::new(scale, seed, logs.len() as u16, loggers);
        logs.push(new_log(alloc, header, slot)?)?;
    }
    Ok(logs)
}

/// A new log file on a slot's disk. `OutOfMemory` is a refusal, and so is `Device`, where the disk fails.
fn new_log<D: Disk + Drop, P: Pace + Drop>(
    alloc: Global,
    header: Header,
    slot: Paced<D, P>,
) -> Result<Paced<LogFile<D>, P>, Refusal>
    requires empty { D.is_modelled → D.seen slot.inner ≡ [] }
    ensures own { IfOk result (λ log. (log.inner.header
        ≡ header_view header.logger header.loggers header.scale header.seed) × (log.inner.last.mark ≡ 0)) }
    ensures cause { IfErr result (λ refusal. (refusal ≢ OutOfMemory) → refusal ≡ Device) }
{
    let Paced { inner: disk, pace } = slot;
    let inner = LogFile::create(alloc, disk, header)?;
    Ok(Paced { inner, pace })
}

/// The loggers of these seats, each with its log file, in the order of their numbers.
pub(crate) fn manned<D: Disk + Drop, P: Pace + Drop>(
    alloc: Global,
    board: &Board,
    seats: Vec<LoggerSeat>,
    logs: Vec<Paced<LogFile<D>, P>>,
) -> Result<Vec<Paced<Logger<D>, P>>, AllocError>
    requires seats { seats.items ≡ logger_seats board.now board.now.plan.loggers }
    requires logs { AreLogsOf board.now.plan.loggers board.now.plan.base (map (λ log. log.inner) logs.items) }
    ensures found { IfOk result (λ manned. All (λ log. IsFoundIn board.now
        (as_they_are D.seen D.story (map (λ log. log.inner) logs.items)) D.is_modelled D.seen D.story log.inner)
        manned.items) }
{
    let (mut seats, mut logs) = (seats, logs);
    let mut manned = Vec::new(alloc);
    while let Some(seat) = seats.pop() {
        let Some(log) = logs.pop() else {
            unreachable!()
        };
        manned.push(log_of(seat, log))?;
    }
    manned.reverse();
    Ok(manned)
}

/// The logger of this seat, with its log file.
fn log_of<D: Disk, P: Pace>(seat: LoggerSeat, log: Paced<LogFile<D>, P>) -> Paced<Logger<D>, P>
    requires seat { seat ≡ new_seat seat.board (logger_role log.inner.header.logger) }
    requires loggers { seat.board.plan.loggers ≡ log.inner.header.loggers }
    requires base { seat.board.plan.base ≡ log.inner.last.mark }
    ensures own { result.inner ≡ record { file = log.inner; seat = seat } }
{
    let Paced { inner: file, pace } = log;
    Paced {
        inner: Logger::new(file, seat),
        pace,
    }
}
