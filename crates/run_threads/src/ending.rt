//! The end of a run.
ghost use Rattle.std.specs.Prelude.{◌≡◌, ◌+◌, ◌^◌, ◌<◌, ◌≤◌, length, map, IfOk, vec_capacity, []};
ghost use Rattle.std.specs.List.{sum_by};
ghost use Rattle.book.specs.Share.{parts_of, share_commits};
ghost use Rattle.run_threads.specs.History.{IsMadeBy};
ghost use Rattle.run_threads.specs.Tally.{AreTallySums};

use crate::counts::Counts;
use crate::outcome::{Outcome, Written};
use crate::pace::Pace;
use crate::progress::RunProgress;
use crate::sums::gathered;
use crate::tally::Tally;
use crate::worker::TerminalThread;
use crate::writer::{Turned, Writer};
use book::{Closed, Engine, Run, Share};
use lane_logger::LoggedRun;
use log_disk::Disk;
use std::alloc::{AllocError, Global};
use std::sync::Wait;
use terminals::Gate;
use terminals_deck::Deck;

/// The memory that the end of terminals' work takes.
#[derive(Drop)]
pub(crate) struct TerminalRoom<K: Run> {
    pub(crate) tallies: Vec<Tally>,
    pub(crate) shares: Vec<Share<K>>,
    pub(crate) decks: Vec<Deck>,
}

impl<K: Run> TerminalRoom<K> {
    /// For so many terminals.
    pub(crate) fn new(alloc: Global, terminals: usize) -> Result<TerminalRoom<K>, AllocError>
        ensures tallies { IfOk result (λ room. (room.tallies.items ≡ []) × (terminals ≤ vec_capacity room.tallies)) }
        ensures shares { IfOk result (λ room. (room.shares.items ≡ []) × (terminals ≤ vec_capacity room.shares)) }
        ensures decks { IfOk result (λ room. (room.decks.items ≡ []) × (terminals ≤ vec_capacity room.decks)) }
    {
        Ok(TerminalRoom {
            tallies: Vec::with_capacity(alloc, terminals)?,
            shares: Vec::with_capacity(alloc, terminals)?,
            decks: Vec::with_capacity(alloc, terminals)?,
        })
    }
}

/// The memory that the end of loggers' work takes.
#[derive(Drop)]
pub(crate) struct LoggerRoom<K: LoggedRun, D: Disk, P: Pace> {
    pub(crate) turned: Vec<Turned<K, D, P>>,
    pub(crate) files: Vec<Written<D>>,
    pub(crate) paces: Vec<P>,
}

impl<K: LoggedRun, D: Disk + Drop, P: Pace + Drop> LoggerRoom<K, D, P> {
    /// For so many loggers.
    pub(crate) fn new(alloc: Global, loggers: usize) -> Result<LoggerRoom<K, D, P>, AllocError>
        ensures turned { IfOk result (λ room. (room.turned.items ≡ []) × (loggers ≤ vec_capacity room.turned)) }
        ensures files { IfOk result (λ room. (room.files.items ≡ []) × (loggers ≤ vec_capacity room.files)) }
        ensures paces { IfOk result (λ room. (room.paces.items ≡ []) × (loggers ≤ vec_capacity room.paces)) }
    {
        Ok(LoggerRoom {
            turned: Vec::with_capacity(alloc, loggers)?,
            files: Vec::with_capacity(alloc, loggers)?,
            paces: Vec::with_capacity(alloc, loggers)?,
        })
    }
}

/// The end of a run: loggers take their last turns, terminals acknowledge, and the engine is closed.
pub(crate) fn settled<K: LoggedRun, G: Gate + Drop, D: Disk + Drop, P: Pace + Drop, R: Wait>(
    rt: &R,
    engine: Engine<K>,
    workers: Vec<TerminalThread<K, G>>,
    writers: Vec<Writer<K, D, P>>,
    ends: TerminalRoom<K>,
    turns: LoggerRoom<K, D, P>,
    progress: &RunProgress,
) -> Outcome<K, D>
    requires count { length workers.items ≡ K.parts }
    requires few { K.parts < 2 ^ 16 }
    requires tallies { (ends.tallies.items ≡ []) × (length workers.items ≤ vec_capacity ends.tallies) }
    requires shares { (ends.shares.items ≡ []) × (length workers.items ≤ vec_capacity ends.shares) }
    requires decks { (ends.decks.items ≡ []) × (length workers.items ≤ vec_capacity ends.decks) }
    requires turned { (turns.turned.items ≡ []) × (length writers.items ≤ vec_capacity turns.turned) }
    requires files { (turns.files.items ≡ []) × (length writers.items ≤ vec_capacity turns.files) }
    requires paces { (turns.paces.items ≡ []) × (length writers.items ≤ vec_capacity turns.paces) }
    ensures history { IsMadeBy K.parts K.run.past K.run.first result.closed }
    ensures commits { result.counts.commits ≡ length result.closed }
    ensures tallies { result.tallies.items ≡ map (λ worker. worker.tally) workers.items }
    ensures decks { result.decks.items ≡ map (λ worker. worker.terminal.deck) workers.items }
    ensures sums { AreTallySums result.tallies.items result.counts }
{
    let TerminalRoom {
        mut tallies,
        mut shares,
        mut decks,
    } = ends;
    let LoggerRoom {
        mut turned,
        mut files,
        mut paces,
    } = turns;
    last_turns(rt, &engine, writers, &mut turned, progress);
    end_turns(rt, &engine, turned, &mut files, &mut paces, progress);
    let acknowledged = gathered(&engine, workers, &mut tallies, &mut shares, &mut decks);
    progress.note_acknowledged(acknowledged);
    end_paces(paces, progress);
    let counts = Counts::of(&tallies, progress.durable(), acknowledged);
    let closed = closed_of(engine, shares);
    Outcome {
        counts,
        tallies,
        decks,
        files,
        closed,
    }
}

/// Ends an engine for the shares of all its terminals.
fn closed_of<K: Run>(engine: Engine<K>, shares: Vec<Share<K>>) -> Closed<K>
    requires { sum_by parts_of shares.items ≡ K.parts }
    ensures history { IsMadeBy K.parts K.run.past K.run.first result }
    ensures commits { length result ≡ sum_by share_commits shares.items }
{
    let closed = engine.close(shares);
    // The contract of the history says that it is legal.
    let _ = closed.history();
    closed
}

/// Each logger's pace hears that the run has ended, the first first.
fn end_paces<P: Pace + Drop>(paces: Vec<P>, progress: &RunProgress) {
    for pace in paces {
        end_pace(pace, progress);
    }
}

/// A logger's pace hears it.
fn end_pace<P: Pace + Drop>(pace: P, progress: &RunProgress) {
    let mut pace = pace;
    pace.end(progress);
}

/// Each logger takes its last turn, the first first; there is room for what they are then.
fn last_turns<K: LoggedRun, D: Disk + Drop, P: Pace + Drop, R: Wait>(
    rt: &R,
    engine: &Engine<K>,
    writers: Vec<Writer<K, D, P>>,
    turned: &mut Vec<Turned<K, D, P>>,
    progress: &RunProgress,
)
    requires room { length turned.old.items + length writers.items ≤ vec_capacity turned.old }
    ensures count { length turned.new.items ≡ length turned.old.items + length writers.items }
{
    for writer in writers {
        turned.push_reserved(writer.last_turn(rt, engine, progress));
    }
}

/// Each logger ends, the first first, and gives its file and its pace, for which there is room.
fn end_turns<K: LoggedRun, D: Disk + Drop, P: Pace + Drop, R: Wait>(
    rt: &R,
    engine: &Engine<K>,
    turned: Vec<Turned<K, D, P>>,
    files: &mut Vec<Written<D>>,
    paces: &mut Vec<P>,
    progress: &RunProgress,
)
    requires files { length files.old.items + length turned.items ≤ vec_capacity files.old }
    requires paces { length paces.old.items + length turned.items ≤ vec_capacity paces.old }
{
    for logger in turned {
        let mut logger = logger;
        logger.retry(rt, engine, progress);
        let (file, pace) = logger.end();
        files.push_reserved(file);
        paces.push_reserved(pace);
    }
}
