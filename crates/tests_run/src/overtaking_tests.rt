//! An input that is given up, and all behind it.
ghost use Rattle.std.specs.Prelude.{◌≡◌, [], length, All, IfOk};
ghost use Rattle.lane_logger.specs.Found.{new_files};
ghost use Rattle.book.specs.Parts.{IsOpenedAs, IsLedgerOf, base_of, loggers_of, terminals_of};

use crate::overtaking::{Lane, Overtaking};
use crate::stage::one_log;
use book::{Engine, Parts, Seats};
use lane_logger::LoggedRun;
use log_disk::Memory;
use money::Refusal;
use population::Population;
use run_threads::{Desks, Station, Tally, run};
use std::alloc::Global;
use std::marker::Brand;
use std::sync::Wait;
use std::test::Fail;
use std::thread::Threads;
use tables::{Input, Scale};
use terminals::Calls;
use terminals_deck::{Deck, Settings};

/// How many inputs each terminal has: more than the fast one commits beside 64 tries.
const INPUTS: u32 = 400;

/// What inputs are drawn from so that the slow terminal's first one is a Payment, which each Payment and each New-Order
/// of the only district overtakes.
fn seed_of_a_payment(alloc: Global, scale: Scale) -> Result<u64, Refusal> {
    for seed in 1..100 {
        if let Input::Payment(_) = Deck::new(scale, Settings::usual(), seed, 0).next(alloc)? {
            return Ok(seed);
        }
    }
    Err(Refusal::BadInput)
}

/// The stations: of the slow terminal, and of the fast one.
fn stations<'a>(
    alloc: Global,
    scale: Scale,
    seed: u64,
    overtaking: &'a Overtaking,
) -> Result<Vec<Station<Lane<'a>>>, Refusal>
    ensures count { IfOk result (λ stations. length stations.items ≡ 2) }
    ensures decks { IfOk result (λ stations. All (λ station. station.deck.scale ≡ scale) stations.items) }
{
    let mut stations = Vec::new(alloc);
    for terminal in 0..2u32 {
        stations.push(Station {
            deck: Deck::new(scale, Settings::usual(), seed, terminal),
            gate: Lane {
                calls: Calls::default(),
                overtaking,
                is_fast: terminal > 0,
            },
        })?;
    }
    Ok(stations)
}

/// What came of a terminal's inputs: how many there were, and how many were given up and refused.
#[derive(Clone, Copy, Debug, Default, PartialEq, Eq)]
struct Ends {
    inputs: u32,
    gave_up: u32,
    refused: u32,
}

impl Ends {
    fn of(tallies: &[Tally], terminal: usize) -> Ends {
        let Some(tally) = tallies.get(terminal) else {
            return Ends::default();
        };
        let ends = [tally.commits, tally.rollbacks, tally.gave_up, tally.refused];
        Ends {
            inputs: ends.iter().fold(0u32, |sum, n| sum.saturating_add(*n)),
            gave_up: tally.gave_up,
            refused: tally.refused,
        }
    }
}

/// Runs the two terminals.
fn run_of<K: LoggedRun + Send + Sync, R: Threads + Wait + Sync>(
    rt: &R,
    alloc: Global,
    parts: Parts,
    overtaking: &Overtaking,
) -> Result<(Ends, Ends), Refusal>
    requires run { IsOpenedAs parts K.run }
    requires ledger { IsLedgerOf parts K.name K.parts }
    requires named { K.found ≡ new_files 1 K.run.first.scale 0 }
    requires loggers { (loggers_of parts ≡ 1) × (base_of parts ≡ 0) }
    requires terminals { terminals_of parts ≡ 2 }
{
    let (engine, seats) = Engine::<K>::open(parts);
    let Seats {
        clock,
        loggers,
        terminals,
    } = seats;
    let disk = Memory::new(alloc);
    let logs = one_log(alloc, engine.population(), engine.board(), loggers, disk)?;
    let scale = engine.population().scale();
    let stations = stations(alloc, scale, seed_of_a_payment(alloc, scale)?, overtaking)?;
    let desks = Desks { clock, terminals };
    let outcome = run(rt, alloc, engine, desks, logs, stations, INPUTS)?;
    Ok((Ends::of(&outcome.tallies, 0), Ends::of(&outcome.tallies, 1)))
}

#[test]
fn a_terminal_that_is_overtaken_gives_its_input_up(rt: HostRuntime) -> Result<(), Fail> {
    let scale = Scale::new(1, 1, 10, 20, 2_000, 2_000)?;
    let population = Population::plain(rt.alloc(), scale)?;
    let parts = Parts::new(&rt, rt.alloc(), population, 1, 2)?;
    let overtaking = Overtaking::default();
    let (slow, fast) = run_of::<Brand, _>(&rt, rt.alloc(), parts, &overtaking)?;
    let all = Ends {
        inputs: INPUTS,
        ..Ends::default()
    };
    assert_eq!(rt; slow, Ends { gave_up: 1, ..all });
    assert_eq!(rt; fast, all);
    assert_eq!(rt; overtaking.in_vain(), 0);
    Ok(())
}
