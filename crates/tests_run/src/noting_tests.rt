//! The last turns of two loggers, of which the first has the clock.
ghost use Rattle.std.specs.Prelude.{◌≡◌, [], IfOk};
ghost use Rattle.lane_logger.specs.Found.{new_files};
ghost use Rattle.book.specs.Parts.{IsOpenedAs, IsLedgerOf, base_of, loggers_of, terminals_of};

use crate::held::Passing;
use crate::noting::{Notes, noted};
use crate::stage::{follower, logs, parts};
use book::{Engine, Parts, Seats};
use lane_logger::LoggedRun;
use money::Refusal;
use run_threads::{Desks, run};
use std::alloc::Global;
use std::marker::Brand;
use std::sync::Wait;
use std::test::Fail;
use std::thread::Threads;

/// A run of one terminal without inputs, beside two loggers that note when they end. Answers the last D.
fn run_of<K: LoggedRun + Send + Sync, R: Threads + Wait + Sync>(
    rt: &R,
    alloc: Global,
    parts: Parts,
    passing: &Passing,
    notes: &Notes,
) -> Result<u64, Refusal>
    requires run { IsOpenedAs parts K.run }
    requires ledger { IsLedgerOf parts K.name K.parts }
    requires named { K.found ≡ new_files 2 K.run.first.scale 0 }
    requires loggers { (loggers_of parts ≡ 2) × (base_of parts ≡ 0) }
    requires terminals { terminals_of parts ≡ 1 }
{
    let (engine, seats) = Engine::<K>::open(parts);
    let Seats {
        clock,
        loggers,
        terminals,
    } = seats;
    let slots = noted(alloc, notes);
    let logs = logs(alloc, engine.population(), engine.board(), loggers, slots)?;
    let stations = follower(alloc, engine.population().scale(), passing)?;
    let desks = Desks { clock, terminals };
    let outcome = run(rt, alloc, engine, desks, logs, stations, 0)?;
    Ok(outcome.counts.durable)
}

#[test]
fn the_last_turns_make_all_epochs_durable(rt: HostRuntime) -> Result<(), Fail> {
    let (passing, notes) = (Passing::default(), Notes::default());
    let parts = parts(&rt, rt.alloc(), 2, 1)?;
    let durable = run_of::<Brand, _>(&rt, rt.alloc(), parts, &passing, &notes)?;
    // The clock is the first logger's, so E is the same as both end; and E is advanced before the take, so the mark of
    // the last takes is the epoch before.
    let epoch = durable.saturating_add(1);
    assert_eq!(rt; notes.first.read(), (0, epoch));
    assert_eq!(rt; notes.second.read(), (1, epoch));
    Ok(())
}
