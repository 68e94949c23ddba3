//! A terminal that commits while its logger syncs.
ghost use Rattle.std.specs.Prelude.{◌≡◌, [], IfOk};
ghost use Rattle.lane_logger.specs.Found.{new_files};
ghost use Rattle.book.specs.Parts.{IsOpenedAs, IsLedgerOf, base_of, loggers_of, terminals_of};

use crate::held::{BESIDE, Held, Passing};
use crate::stage::{follower, one_log, parts};
use book::{Engine, Parts, Seats};
use lane_logger::LoggedRun;
use log_disk::Memory;
use money::Refusal;
use run_threads::{Desks, run};
use std::alloc::Global;
use std::marker::Brand;
use std::sync::Wait;
use std::test::Fail;
use std::thread::Threads;

/// Runs 200 inputs at one terminal, beside a logger of which a sync is held. Answers how many have committed, and how
/// many were acknowledged.
fn run_of<K: LoggedRun + Send + Sync, R: Threads + Wait + Sync>(
    rt: &R,
    alloc: Global,
    parts: Parts,
    passing: &Passing,
) -> Result<(u64, u64), Refusal>
    requires run { IsOpenedAs parts K.run }
    requires ledger { IsLedgerOf parts K.name K.parts }
    requires named { K.found ≡ new_files 1 K.run.first.scale 0 }
    requires loggers { (loggers_of parts ≡ 1) × (base_of parts ≡ 0) }
    requires terminals { terminals_of parts ≡ 1 }
{
    let (engine, seats) = Engine::<K>::open(parts);
    let Seats {
        clock,
        loggers,
        terminals,
    } = seats;
    let disk = Held {
        disk: Memory::new(alloc),
        passing,
    };
    let logs = one_log(alloc, engine.population(), engine.board(), loggers, disk)?;
    let stations = follower(alloc, engine.population().scale(), passing)?;
    let desks = Desks { clock, terminals };
    let outcome = run(rt, alloc, engine, desks, logs, stations, 200)?;
    Ok((outcome.counts.commits, outcome.counts.acknowledged))
}

#[test]
fn a_terminal_commits_while_its_logger_syncs(rt: HostRuntime) -> Result<(), Fail> {
    let passing = Passing::default();
    let parts = parts(&rt, rt.alloc(), 1, 1)?;
    let (commits, acknowledged) = run_of::<Brand, _>(&rt, rt.alloc(), parts, &passing)?;
    assert!(rt; commits > u64::from(BESIDE));
    assert_eq!(rt; acknowledged, commits);
    assert_eq!(rt; (passing.held(), passing.in_vain()), (1, 0));
    Ok(())
}
