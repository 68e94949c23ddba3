//! The threads of a run.
ghost use Rattle.std.specs.Prelude.{◌≡◌, ◌^◌, ◌<◌, ◌≤◌, length, map, All, IfOk, IfErr, vec_len, vec_capacity, []};
ghost use Rattle.money.specs.declared.refusal.Refusal.TheVariants.{OutOfMemory};
ghost use Rattle.lane_logger.specs.Found.{IsFoundIn};
ghost use Rattle.run_threads.specs.History.{IsMadeBy};
ghost use Rattle.run_threads.specs.Inputs.{CameOfInputs, HaveRun};
ghost use Rattle.run_threads.specs.Tally.{IsCounted, inputs_in};

use crate::crew::{Crew, Desks, crew_of};
use crate::ending::settled;
use crate::outcome::Outcome;
use crate::pace::{Pace, Paced};
use crate::progress::RunProgress;
use crate::worker::{Station, TerminalThread};
use crate::writer::Writer;
use book::{Engine, Run};
use lane_logger::LoggedRun;
use log_disk::Disk;
use logger::Logger;
use money::Refusal;
use std::alloc::Global;
use std::sync::Wait;
use std::thread::{self, Threads};
use terminals::Gate;

/// Runs so many inputs at each terminal, each in a thread of its own, beside a thread for each logger (Silo, sections
/// 4.1 and 4.10). Where a thread can't be started, the calling thread does its work, terminals first. The first logger
/// has the clock, and advances E before each of its takes. A terminal goes on after any refusal; a logger tries a batch
/// again after want of memory, and stops for good when its device fails. After all inputs E is advanced once more, each
/// logger that hasn't stopped takes its last turn, and each terminal acknowledges what is durable. Stations are those
/// of terminals in order of their numbers; their decks are given back, behind these inputs. Logs are as the run names
/// them (`IsFoundIn`): by its type each logger's file is then a lane of its stream at every moment. May wait, for the
/// book's lock and at records' cells.
///
/// # Errors
///
/// `OutOfMemory`, before any input runs, and no other.
pub fn run<
    K: LoggedRun + Send + Sync,
    G: Gate + Send + Drop,
    D: Disk + Send + Drop,
    P: Pace + Send + Drop,
    R: Threads + Wait + Sync,
>(
    rt: &R,
    alloc: Global,
    engine: Engine<K>,
    desks: Desks<K>,
    logs: Vec<Paced<Logger<D>, P>>,
    stations: Vec<Station<G>>,
    inputs: u32,
) -> Result<Outcome<K, D>, Refusal>
    requires clock { desks.clock.board ≡ K.run.board }
    requires logs { All (λ log. IsFoundIn K.run.board K.found D.is_modelled D.seen D.story log.inner) logs.items }
    requires terminals { (desks.terminals.left ≡ K.parts) × (length stations.items ≡ K.parts) }
    requires few { K.parts < 2 ^ 16 }
    requires decks { All (λ station. station.deck.scale ≡ K.run.first.scale) stations.items }
    ensures history { IfOk result (λ outcome. IsMadeBy K.parts K.run.past K.run.first outcome.closed) }
    ensures commits { IfOk result (λ outcome. outcome.counts.commits ≡ length outcome.closed) }
    ensures counted { IfOk result (λ outcome. IsCounted K.parts inputs outcome.tallies.items outcome.counts) }
    ensures inputs { IfOk result (λ outcome. HaveRun K.run.past K.run.first inputs
        (map (λ station. station.deck) stations.items) outcome.tallies.items outcome.decks.items) }
    ensures memory { IfErr result (λ refusal. refusal ≡ OutOfMemory) }
{
    let crew = crew_of(alloc, &engine, desks, logs, stations)?;
    Ok(run_crew(rt, alloc, engine, crew, inputs))
}

/// All of them do their work, and the run ends.
fn run_crew<
    K: LoggedRun + Send + Sync,
    G: Gate + Send + Drop,
    D: Disk + Send + Drop,
    P: Pace + Send + Drop,
    R: Threads + Wait + Sync,
>(rt: &R, alloc: Global, engine: Engine<K>, crew: Crew<K, G, D, P>, inputs: u32) -> Outcome<K, D>
    requires count { length crew.workers.items ≡ K.parts }
    requires few { K.parts < 2 ^ 16 }
    requires idle { All (λ worker. inputs_in worker.tally ≡ 0) crew.workers.items }
    requires tallies { (crew.ends.tallies.items ≡ []) × (length crew.workers.items ≤ vec_capacity crew.ends.tallies) }
    requires shares { (crew.ends.shares.items ≡ []) × (length crew.workers.items ≤ vec_capacity crew.ends.shares) }
    requires decks { (crew.ends.decks.items ≡ []) × (length crew.workers.items ≤ vec_capacity crew.ends.decks) }
    requires turned { (crew.turns.turned.items ≡ []) × (length crew.writers.items ≤ vec_capacity crew.turns.turned) }
    requires files { (crew.turns.files.items ≡ []) × (length crew.writers.items ≤ vec_capacity crew.turns.files) }
    requires paces { (crew.turns.paces.items ≡ []) × (length crew.writers.items ≤ vec_capacity crew.turns.paces) }
    ensures history { IsMadeBy K.parts K.run.past K.run.first result.closed }
    ensures commits { result.counts.commits ≡ length result.closed }
    ensures counted { IsCounted K.parts inputs result.tallies.items result.counts }
    ensures inputs { HaveRun K.run.past K.run.first inputs
        (map (λ worker. worker.terminal.deck) crew.workers.items) result.tallies.items result.decks.items }
{
    let Crew {
        workers,
        writers,
        ends,
        turns,
    } = crew;
    let progress = RunProgress::new();
    let (workers, writers) = in_threads(rt, alloc, &engine, workers, writers, inputs, &progress);
    settled(rt, engine, workers, writers, ends, turns, &progress)
}

/// The terminals do their inputs, in threads of their own, while the loggers take turns in theirs.
fn in_threads<
    K: LoggedRun + Send + Sync,
    G: Gate + Send + Drop,
    D: Disk + Send + Drop,
    P: Pace + Send + Drop,
    R: Threads + Wait + Sync,
>(
    rt: &R,
    alloc: Global,
    engine: &Engine<K>,
    workers: Vec<TerminalThread<K, G>>,
    writers: Vec<Writer<K, D, P>>,
    inputs: u32,
    progress: &RunProgress,
) -> (Vec<TerminalThread<K, G>>, Vec<Writer<K, D, P>>)
    requires idle { All (λ worker. inputs_in worker.tally ≡ 0) workers.items }
    ensures workers { length result.0.items ≡ length workers.items }
    ensures all { All (λ worker. inputs_in worker.tally ≡ inputs) result.0.items }
    ensures came { HaveRun K.run.past K.run.first inputs (map (λ worker. worker.terminal.deck) workers.items)
        (map (λ worker. worker.tally) result.0.items) (map (λ worker. worker.terminal.deck) result.0.items) }
    ensures writers { length result.1.items ≡ length writers.items }
{
    let serve = move || -> Vec<Writer<K, D, P>>
        ensures { vec_len result ≡ vec_len writers }
    { serve_all(rt, engine, writers, progress) };
    let work = move || -> Vec<TerminalThread<K, G>>
        requires { All (λ worker. inputs_in worker.tally ≡ 0) workers.items }
        ensures { (vec_len result ≡ vec_len workers)
            × All (λ worker. inputs_in worker.tally ≡ inputs) result.items
            × HaveRun K.run.past K.run.first inputs (map (λ worker. worker.terminal.deck) workers.items)
            (map (λ worker. worker.tally) result.items) (map (λ worker. worker.terminal.deck) result.items) }
    { work_all(rt, alloc, engine, workers, inputs, progress) };
    // The first of the two gets a thread of its own, or runs last: terminals wait for no logger.
    let (writers, workers) = thread::join(rt, serve, work);
    (workers, writers)
}

/// The terminals do so many inputs each, in threads of their own; then all loggers are told that the run has ended.
fn work_all<K: Run + Send + Sync, G: Gate + Send + Drop, R: Threads + Wait + Sync>(
    rt: &R,
    alloc: Global,
    engine: &Engine<K>,
    workers: Vec<TerminalThread<K, G>>,
    inputs: u32,
    progress: &RunProgress,
) -> Vec<TerminalThread<K, G>>
    requires idle { All (λ worker. inputs_in worker.tally ≡ 0) workers.items }
    ensures count { vec_len result ≡ vec_len workers }
    ensures all { All (λ worker. inputs_in worker.tally ≡ inputs) result.items }
    ensures came { HaveRun K.run.past K.run.first inputs (map (λ worker. worker.terminal.deck) workers.items)
        (map (λ worker. worker.tally) result.items) (map (λ worker. worker.terminal.deck) result.items) }
{
    let mut workers = workers;
    let threads = workers.len().max(1);
    let work = |_: usize, worker: &mut TerminalThread<K, G>|
        requires { inputs_in worker.now.tally ≡ 0 }
        ensures { (inputs_in worker.exit.now.tally ≡ inputs) × CameOfInputs K.run.past K.run.first
            worker.entry.now.terminal.deck inputs worker.exit.now.tally worker.exit.now.terminal.deck }
    { worker.work(rt, alloc, engine, inputs, progress) };
    thread::for_each_mut(rt, workers.as_mut_slice(), threads, &work);
    progress.end();
    workers
}

/// The loggers take turns, in threads of their own, until the terminals have ended.
fn serve_all<
    K: LoggedRun + Send + Sync,
    D: Disk + Send + Drop,
    P: Pace + Send + Drop,
    R: Threads + Wait + Sync,
>(
    rt: &R,
    engine: &Engine<K>,
    writers: Vec<Writer<K, D, P>>,
    progress: &RunProgress,
) -> Vec<Writer<K, D, P>>
    ensures { vec_len result ≡ vec_len writers }
{
    let mut writers = writers;
    let threads = writers.len();
    if threads > 0 {
        let serve = |_: usize, writer: &mut Writer<K, D, P>| { writer.serve(rt, engine, progress) };
        thread::for_each_mut(rt, writers.as_mut_slice(), threads, &serve);
    }
    writers
}
