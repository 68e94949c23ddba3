//! Two terminals, whose entries are their decks' inputs, and more inputs than commits that their population takes.
ghost use Rattle.std.specs.Prelude.{◌≡◌, [], length, All, IfOk};
ghost use Rattle.lane_logger.specs.Found.{new_files};
ghost use Rattle.book.specs.Parts.{IsOpenedAs, IsLedgerOf, base_of, loggers_of, terminals_of};

use crate::stage::one_log;
use book::{Engine, Entry, Parts, Run, Seats};
use lane_logger::LoggedRun;
use log_disk::{Disk, Memory};
use money::Refusal;
use population::Population;
use program_run::ran;
use run_threads::{Desks, Outcome, Station, run};
use std::alloc::Global;
use std::marker::Brand;
use std::sync::{Arc, Wait};
use std::test::Fail;
use std::thread::Threads;
use tables::{Input, Scale};
use terminals::{Calls, TRIES};
use terminals_deck::{Deck, Settings};

/// The seed of the decks. Of the first 20 inputs of both, one has an item that isn't in ITEM, by `tests/draws.py`.
const SEED: u64 = 11;

/// How many inputs each terminal has.
const INPUTS: u32 = 20;

/// How many commits the population takes.
const COMMITS: u32 = 25;

/// The lines of other counts.
const TOLD: &str = "commits 1\nrollbacks 2\ngaveup 3\nrefused 4\ndurable 5\nacknowledged 6\n";

fn deck(scale: Scale, terminal: u16) -> Deck
    ensures { result.scale ≡ scale }
{
    Deck::new(scale, Settings::usual(), SEED, u32::from(terminal))
}

fn station(scale: Scale, terminal: u16) -> Station<Calls>
    ensures { result.deck.scale ≡ scale }
{
    Station {
        deck: deck(scale, terminal),
        gate: Calls::default(),
    }
}

/// The stations of terminals 0 and 1.
fn stations(alloc: Global, scale: Scale) -> Result<Vec<Station<Calls>>, Refusal>
    ensures count { IfOk result (λ stations. length stations.items ≡ 2) }
    ensures decks { IfOk result (λ stations. All (λ station. station.deck.scale ≡ scale) stations.items) }
{
    let mut stations = Vec::new(alloc);
    stations.push(station(scale, 0))?;
    stations.push(station(scale, 1))?;
    Ok(stations)
}

/// A deck, and how many inputs were drawn of it.
#[derive(Drop)]
struct Drawn {
    deck: Deck,
    count: u32,
}

impl Drawn {
    /// Draws until this input comes, and tells whether it did, as one of those that the terminal had.
    fn comes_to(&mut self, alloc: Global, input: &Input) -> Result<bool, Refusal> {
        for _ in self.count..INPUTS {
            self.count = self.count.saturating_add(1);
            if self.deck.next(alloc)? == *input {
                return Ok(true);
            }
        }
        Ok(false)
    }
}

/// Whether the entries of a terminal are inputs of its deck, in order.
fn are_drawn(
    alloc: Global,
    scale: Scale,
    terminal: u16,
    history: &[Arc<Entry, Global>],
) -> Result<bool, Refusal> {
    let mut drawn = Drawn {
        deck: deck(scale, terminal),
        count: 0,
    };
    for entry in history {
        if entry.terminal == terminal && !drawn.comes_to(alloc, &entry.input)? {
            return Ok(false);
        }
    }
    Ok(true)
}

/// What is seen of a run.
#[derive(Clone, Copy, Debug, PartialEq, Eq)]
struct Seen {
    commits: u64,
    rollbacks: u64,
    /// Inputs that were refused or given up, and whether some were refused.
    others: u64,
    has_refused: bool,
    /// Whether the entries are of the two terminals, and of each inputs of its deck, in order.
    are_drawn: bool,
}

fn seen_of<K: Run, D: Disk + Drop>(
    alloc: Global,
    scale: Scale,
    outcome: &Outcome<K, D>,
) -> Result<Seen, Refusal> {
    let history = outcome.closed.history();
    Ok(Seen {
        commits: outcome.counts.commits,
        rollbacks: outcome.counts.rollbacks,
        others: outcome
            .counts
            .refused
            .saturating_add(outcome.counts.gave_up),
        has_refused: outcome.counts.refused > 0,
        are_drawn: history.iter().all(|entry| entry.terminal < 2)
            && are_drawn(alloc, scale, 0, history)?
            && are_drawn(alloc, scale, 1, history)?,
    })
}

/// Whether a run that came to other counts is told by their lines.
fn is_told<K: Run, D: Disk + Drop>(alloc: Global, outcome: Outcome<K, D>) -> Result<bool, Refusal> {
    let mut outcome = outcome;
    outcome.counts.commits = 1;
    outcome.counts.rollbacks = 2;
    outcome.counts.gave_up = 3;
    outcome.counts.refused = 4;
    outcome.counts.durable = 5;
    outcome.counts.acknowledged = 6;
    let mut text = Vec::new(alloc);
    ran(alloc, &mut outcome, &mut text)?;
    Ok(text.as_slice().starts_with(TOLD.as_bytes()))
}

/// Runs the inputs of two terminals. Answers what is seen of the run, and whether other counts are told.
fn run_of<K: LoggedRun + Send + Sync, R: Threads + Wait + Sync>(
    rt: &R,
    alloc: Global,
    parts: Parts,
) -> Result<(Seen, bool), Refusal>
    requires run { IsOpenedAs parts K.run }
    requires ledger { IsLedgerOf parts K.name K.parts }
    requires named { K.found ≡ new_files 1 K.run.first.scale 0 }
    requires loggers { (loggers_of parts ≡ 1) × (base_of parts ≡ 0) }
    requires terminals { terminals_of parts ≡ 2 }
{
    let (engine, seats) = Engine::<K>::open(parts);
    let Seats {
        clock,
        loggers,
        terminals,
    } = seats;
    let scale = engine.population().scale();
    let disk = Memory::new(alloc);
    let logs = one_log(alloc, engine.population(), engine.board(), loggers, disk)?;
    let stations = stations(alloc, scale)?;
    let desks = Desks { clock, terminals };
    let outcome = run(rt, alloc, engine, desks, logs, stations, INPUTS)?;
    Ok((seen_of(alloc, scale, &outcome)?, is_told(alloc, outcome)?))
}

#[test]
fn a_terminal_s_entries_are_its_deck_s_inputs(rt: HostRuntime) -> Result<(), Fail> {
    let scale = Scale::new(1, 2, 10, 20, 2_000, COMMITS)?;
    let population = Population::plain(rt.alloc(), scale)?;
    let parts = Parts::new(&rt, rt.alloc(), population, 1, 2)?;
    let (seen, is_told) = run_of::<Brand, _>(&rt, rt.alloc(), parts)?;
    let wanted = Seen {
        commits: 25,
        rollbacks: 1,
        others: 14,
        has_refused: true,
        are_drawn: true,
    };
    assert_eq!(rt; seen, wanted);
    assert!(rt; is_told);
    Ok(())
}

/// The tries of an input, which no run here comes to.
#[test]
fn how_often_an_input_is_tried(rt: HostRuntime) {
    assert_eq!(rt; TRIES, 64);
}
