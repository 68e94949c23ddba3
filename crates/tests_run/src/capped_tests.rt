//! A terminal whose district takes two orders more, and all that it asks for besides.
ghost use Rattle.std.specs.Prelude.{◌≡◌, [], length, All, IfOk};
ghost use Rattle.lane_logger.specs.Found.{new_files};
ghost use Rattle.book.specs.Parts.{IsOpenedAs, IsLedgerOf, base_of, loggers_of, terminals_of};

use crate::stage::one_log;
use book::{Closed, Engine, Parts, Run, Seats};
use lane_logger::LoggedRun;
use log_disk::Memory;
use money::Refusal;
use population::Population;
use run_threads::{Counts, Desks, Station, run};
use std::alloc::Global;
use std::marker::Brand;
use std::sync::Wait;
use std::test::Fail;
use std::thread::Threads;
use tables::{Input, Scale};
use terminals::Calls;
use terminals_deck::{Deck, Settings};

/// How many inputs the terminal has.
const INPUTS: u32 = 200;

/// How many orders the district takes behind those of its ten customers.
const ORDERS: u32 = 2;

fn deck(scale: Scale) -> Deck
    ensures { result.scale ≡ scale }
{
    Deck::new(scale, Settings::usual(), 1, 0)
}

/// The station of terminal 0.
fn stations(alloc: Global, scale: Scale) -> Result<Vec<Station<Calls>>, Refusal>
    ensures count { IfOk result (λ stations. length stations.items ≡ 1) }
    ensures decks { IfOk result (λ stations. All (λ station. station.deck.scale ≡ scale) stations.items) }
{
    let mut stations = Vec::new(alloc);
    stations.push(Station {
        deck: deck(scale),
        gate: Calls::default(),
    })?;
    Ok(stations)
}

/// What a run comes to.
#[derive(Clone, Copy, Debug, Default, PartialEq, Eq)]
struct Seen {
    commits: u64,
    rollbacks: u64,
    gave_up: u64,
    refused: u64,
    /// How many of the commits are Payments.
    payments: u64,
}

impl Seen {
    /// Counts what is to come of an input: an order that has all its items is the district's, as long as that takes
    /// one.
    fn note(&mut self, scale: Scale, orders: &mut u32, input: &Input) {
        match input {
            Input::NewOrder(order)
                if order
                    .lines
                    .as_slice()
                    .iter()
                    .any(|line| line.item > scale.items()) => {
                self.rollbacks = self.rollbacks.saturating_add(1);
            }
            Input::NewOrder(_) if *orders == 0 => self.refused = self.refused.saturating_add(1),
            Input::NewOrder(_) => {
                *orders = orders.saturating_sub(1);
                self.commits = self.commits.saturating_add(1);
            }
            other => {
                self.payments = self.payments.saturating_add(payments_in(other));
                self.commits = self.commits.saturating_add(1);
            }
        }
    }

    fn of<K: Run>(counts: &Counts, closed: &Closed<K>) -> Seen {
        let history = closed.history().iter();
        Seen {
            commits: counts.commits,
            rollbacks: counts.rollbacks,
            gave_up: counts.gave_up,
            refused: counts.refused,
            payments: history.fold(0u64, |sum, entry| {
                sum.saturating_add(payments_in(&entry.input))
            }),
        }
    }
}

fn payments_in(input: &Input) -> u64 {
    match input {
        Input::Payment(_) => 1,
        _ => 0,
    }
}

/// What is to come of the deck's inputs.
fn wanted(alloc: Global, scale: Scale) -> Result<Seen, Refusal> {
    let (mut deck, mut orders) = (deck(scale), ORDERS);
    let mut seen = Seen::default();
    for _ in 0..INPUTS {
        seen.note(scale, &mut orders, &deck.next(alloc)?);
    }
    Ok(seen)
}

/// Runs the inputs of the terminal.
fn run_of<K: LoggedRun + Send + Sync, R: Threads + Wait + Sync>(
    rt: &R,
    alloc: Global,
    parts: Parts,
) -> Result<Seen, Refusal>
    requires run { IsOpenedAs parts K.run }
    requires ledger { IsLedgerOf parts K.name K.parts }
    requires named { K.found ≡ new_files 1 K.run.first.scale 0 }
    requires loggers { (loggers_of parts ≡ 1) × (base_of parts ≡ 0) }
    requires terminals { terminals_of parts ≡ 1 }
{
    let (engine, seats) = Engine::<K>::open(parts);
    let Seats {
        clock,
        loggers,
        terminals,
    } = seats;
    let disk = Memory::new(alloc);
    let logs = one_log(alloc, engine.population(), engine.board(), loggers, disk)?;
    let stations = stations(alloc, engine.population().scale())?;
    let desks = Desks { clock, terminals };
    let outcome = run(rt, alloc, engine, desks, logs, stations, INPUTS)?;
    Ok(Seen::of(&outcome.counts, &outcome.closed))
}

#[test]
fn payments_commit_behind_an_order_that_is_refused(rt: HostRuntime) -> Result<(), Fail> {
    let scale = Scale::new(1, 1, 10, 20, 10 + ORDERS, 2_000)?;
    let population = Population::plain(rt.alloc(), scale)?;
    let parts = Parts::new(&rt, rt.alloc(), population, 1, 1)?;
    let seen = run_of::<Brand, _>(&rt, rt.alloc(), parts)?;
    assert_eq!(rt; seen, wanted(rt.alloc(), scale)?);
    assert!(rt; seen.refused > 50 && seen.payments > 50);
    Ok(())
}
