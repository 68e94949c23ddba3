//! Those who go to work in a run.
ghost use Rattle.std.specs.Prelude.{◌≡◌, ◌≤◌, length, map, All, Some, IfOk, vec_capacity, [], IfErr};
ghost use Rattle.money.specs.declared.refusal.Refusal.TheVariants.{OutOfMemory};
ghost use Rattle.lane_logger.specs.Found.{IsFoundIn};
ghost use Rattle.run_threads.specs.Clocks.{clocks};
ghost use Rattle.run_threads.specs.Tally.{inputs_in};

use crate::ending::{LoggerRoom, TerminalRoom};
use crate::pace::{Pace, Paced};
use crate::worker::{Station, TerminalThread};
use crate::writer::Writer;
use board::ClockSeat;
use book::{Engine, Run, TerminalSeats};
use lane_logger::LoggedRun;
use log_disk::Disk;
use logger::Logger;
use money::Refusal;
use std::alloc::{AllocError, Global};
use terminals::Gate;

/// The seats of an engine's clock and terminals.
#[derive(Drop)]
pub struct Desks<K: Run> {
    pub clock: ClockSeat,
    pub terminals: TerminalSeats<K>,
}

/// Those who go to work in a run, with the memory that their ends take.
#[derive(Drop)]
pub(crate) struct Crew<K: LoggedRun, G: Gate, D: Disk, P: Pace> {
    pub(crate) workers: Vec<TerminalThread<K, G>>,
    pub(crate) writers: Vec<Writer<K, D, P>>,
    pub(crate) ends: TerminalRoom<K>,
    pub(crate) turns: LoggerRoom<K, D, P>,
}

/// The terminals and loggers that go to work. `OutOfMemory` is the only refusal.
pub(crate) fn crew_of<K: LoggedRun, G: Gate + Drop, D: Disk + Drop, P: Pace + Drop>(
    alloc: Global,
    engine: &Engine<K>,
    desks: Desks<K>,
    logs: Vec<Paced<Logger<D>, P>>,
    stations: Vec<Station<G>>,
) -> Result<Crew<K, G, D, P>, Refusal>
    requires clock { desks.clock.board ≡ K.run.board }
    requires logs { All (λ log. IsFoundIn K.run.board K.found D.is_modelled D.seen D.story log.inner) logs.items }
    requires terminals { (desks.terminals.left ≡ K.parts) × (length stations.items ≡ K.parts) }
    requires decks { All (λ station. station.deck.scale ≡ K.run.first.scale) stations.items }
    ensures count { IfOk result (λ crew. length crew.workers.items ≡ K.parts) }
    ensures idle { IfOk result (λ crew. All (λ worker. inputs_in worker.tally ≡ 0) crew.workers.items) }
    ensures own { IfOk result (λ crew.
        map (λ worker. worker.terminal.deck) crew.workers.items ≡ map (λ station. station.deck) stations.items) }
    ensures tallies { IfOk result (λ crew. (crew.ends.tallies.items ≡ [])
        × (length crew.workers.items ≤ vec_capacity crew.ends.tallies)) }
    ensures shares { IfOk result (λ crew. (crew.ends.shares.items ≡ [])
        × (length crew.workers.items ≤ vec_capacity crew.ends.shares)) }
    ensures decks { IfOk result (λ crew. (crew.ends.decks.items ≡ [])
        × (length crew.workers.items ≤ vec_capacity crew.ends.decks)) }
    ensures turned { IfOk result (λ crew. (crew.turns.turned.items ≡ [])
        × (length crew.writers.items ≤ vec_capacity crew.turns.turned)) }
    ensures files { IfOk result (λ crew. (crew.turns.files.items ≡ [])
        × (length crew.writers.items ≤ vec_capacity crew.turns.files)) }
    ensures paces { IfOk result (λ crew. (crew.turns.paces.items ≡ [])
        × (length crew.writers.items ≤ vec_capacity crew.turns.paces)) }
    ensures only_memory { IfErr result (λ refusal. refusal ≡ OutOfMemory) }
{
    let Desks { clock, terminals } = desks;
    let workers = staffed(alloc, engine, terminals, stations)?;
    let writers = manned(alloc, engine, clock, logs)?;
    let ends = TerminalRoom::new(alloc, workers.len())?;
    let turns = LoggerRoom::new(alloc, writers.len())?;
    Ok(Crew {
        workers,
        writers,
        ends,
        turns,
    })
}

/// The terminals at their stations. `OutOfMemory` is the only refusal.
fn staffed<K: Run, G: Gate + Drop>(
    alloc: Global,
    engine: &Engine<K>,
    seats: TerminalSeats<K>,
    stations: Vec<Station<G>>,
) -> Result<Vec<TerminalThread<K, G>>, Refusal>
    requires seats { (seats.left ≡ K.parts) × (length stations.items ≡ K.parts) }
    requires decks { All (λ station. station.deck.scale ≡ K.run.first.scale) stations.items }
    ensures count { IfOk result (λ workers. length workers.items ≡ K.parts) }
    ensures idle { IfOk result (λ workers. All (λ worker. inputs_in worker.tally ≡ 0) workers.items) }
    ensures own { IfOk result (λ workers.
        map (λ worker. worker.terminal.deck) workers.items ≡ map (λ station. station.deck) stations.items) }
    ensures only_memory { IfErr result (λ refusal. refusal ≡ OutOfMemory) }
{
    let (mut seats, mut stations) = (seats, stations);
    stations.as_mut_slice().reverse();
    let mut workers = Vec::new(alloc);
    while let Some(station) = stations.pop() {
        let Some(seat) = seats.next() else {
            unreachable!()
        };
        workers.push(TerminalThread::new(alloc, engine, seat, station)?)?;
    }
    Ok(workers)
}

/// The loggers at work, the first of them with the clock.
fn manned<K: LoggedRun, D: Disk + Drop, P: Pace + Drop>(
    alloc: Global,
    engine: &Engine<K>,
    clock: ClockSeat,
    logs: Vec<Paced<Logger<D>, P>>,
) -> Result<Vec<Writer<K, D, P>>, AllocError>
    requires clock { clock.board ≡ K.run.board }
    requires logs { All (λ log. IsFoundIn K.run.board K.found D.is_modelled D.seen D.story log.inner) logs.items }
    ensures loggers { IfOk result (λ writers.
        map (λ writer. writer.appender.logger.logger) writers.items ≡ map (λ log. log.inner) logs.items) }
    ensures clocks { IfOk result (λ writers.
        map (λ writer. writer.clock) writers.items ≡ clocks (Some clock) (length logs.items)) }
{
    let mut clock = Some(clock);
    let mut writers = Vec::new(alloc);
    for log in logs {
        writers.push(Writer::new(engine, log.inner, log.pace, clock.take()))?;
    }
    Ok(writers)
}
