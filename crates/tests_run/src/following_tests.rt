//! A logger without the clock, whose turns begin when E has changed.
ghost use Rattle.std.specs.Prelude.{◌≡◌, [], IfOk};
ghost use Rattle.lane_logger.specs.Found.{new_files};
ghost use Rattle.book.specs.Parts.{IsOpenedAs, IsLedgerOf, base_of, loggers_of, terminals_of};

use crate::following::{ROUNDS, Round, Rounds, late_station};
use crate::held::{Held, Passing};
use crate::stage::{logs, parts};
use book::{Engine, Parts, Seats};
use lane_logger::LoggedRun;
use log_disk::{Disk, Memory};
use money::Refusal;
use run_threads::{Desks, run};
use std::alloc::Global;
use std::marker::Brand;
use std::sync::Wait;
use std::test::Fail;
use std::thread::Threads;
use std::time::Clock;

/// What the threads of a run share.
#[derive(Default, Drop)]
struct Shared {
    rounds: Rounds,
    /// Holds a sync of the second logger.
    second: Passing,
    /// Holds none of the first.
    first: Passing,
}

/// A logger's disk and pace.
fn slot<'a, R: Wait + Clock>(
    rt: &'a R,
    alloc: Global,
    shared: &'a Shared,
    has_clock: bool,
) -> (Held<'a, Memory>, Round<'a, R>)
    ensures { (⟦<Memory as Disk>⟧.seen result.0.disk ≡ []) × (⟦<Memory as Disk>⟧.story result.0.disk ≡ []) }
{
    let disk = Held {
        disk: Memory::new(alloc),
        passing: if has_clock {
            &shared.first
        } else {
            &shared.second
        },
    };
    let pace = Round {
        rt,
        rounds: &shared.rounds,
        passing: &shared.second,
        has_clock,
    };
    (disk, pace)
}

/// A run of one input at one terminal, beside two loggers. Answers how many commits were acknowledged.
fn run_of<K: LoggedRun + Send + Sync, R: Threads + Wait + Clock + Sync>(
    rt: &R,
    alloc: Global,
    parts: Parts,
    shared: &Shared,
) -> Result<u64, Refusal>
    requires run { IsOpenedAs parts K.run }
    requires ledger { IsLedgerOf parts K.name K.parts }
    requires named { K.found ≡ new_files 2 K.run.first.scale 0 }
    requires loggers { (loggers_of parts ≡ 2) × (base_of parts ≡ 0) }
    requires terminals { terminals_of parts ≡ 1 }
{
    let (engine, seats) = Engine::<K>::open(parts);
    let Seats {
        clock,
        loggers,
        terminals,
    } = seats;
    let slots = (
        slot(rt, alloc, shared, true),
        slot(rt, alloc, shared, false),
    );
    let logs = logs(alloc, engine.population(), engine.board(), loggers, slots)?;
    let stations = late_station(alloc, engine.population().scale(), &shared.rounds)?;
    let desks = Desks { clock, terminals };
    let outcome = run(rt, alloc, engine, desks, logs, stations, 1)?;
    Ok(outcome.counts.acknowledged)
}

#[test]
fn a_logger_follows_the_clock(rt: HostRuntime) -> Result<(), Fail> {
    let shared = Shared::default();
    let parts = parts(&rt, rt.alloc(), 2, 1)?;
    let acknowledged = run_of::<Brand, _>(&rt, rt.alloc(), parts, &shared)?;
    assert_eq!(rt; acknowledged, 1);
    // One turn behind each advance of E, and none for another reason.
    assert_eq!(rt; shared.rounds.followed(), ROUNDS);
    assert_eq!(rt; (shared.rounds.in_vain(), shared.second.in_vain()), (0, 0));
    assert_eq!(rt; shared.second.held(), 1);
    Ok(())
}
