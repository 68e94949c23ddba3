//! Four terminals that meet, beside two loggers.
ghost use Rattle.std.specs.Prelude.{◌≡◌, [], IfOk};
ghost use Rattle.lane_logger.specs.Found.{new_files};
ghost use Rattle.book.specs.Parts.{IsOpenedAs, IsLedgerOf, base_of, loggers_of, terminals_of};

use crate::books::{Books, paid};
use crate::meeting::Meeting;
use crate::stage::{logs, parts, stations};
use book::{Engine, Parts, Run, Seats};
use lane_logger::LoggedRun;
use log_disk::{Disk, Memory};
use money::Refusal;
use run_threads::{AtOnce, Desks, Outcome, run};
use std::alloc::Global;
use std::marker::Brand;
use std::sync::Wait;
use std::test::Fail;
use std::thread::Threads;

/// What is seen of a run.
#[derive(Clone, Copy, Debug, PartialEq, Eq)]
struct Seen {
    /// Commits, rollbacks and inputs that were given up.
    inputs: u64,
    refused: u64,
    few_gave_up: bool,
    all_acknowledged: bool,
    as_many_in_the_history: bool,
    is_good: bool,
    stopped: usize,
}

fn seen_of<K: Run, D: Disk + Drop>(
    alloc: Global,
    outcome: &mut Outcome<K, D>,
) -> Result<Seen, Refusal> {
    let sums = [
        outcome.counts.commits,
        outcome.counts.rollbacks,
        outcome.counts.gave_up,
    ];
    Ok(Seen {
        inputs: sums.iter().fold(0u64, |sum, n| sum.saturating_add(*n)),
        refused: outcome.counts.refused,
        few_gave_up: outcome.counts.gave_up < 100,
        all_acknowledged: outcome.counts.acknowledged == outcome.counts.commits,
        as_many_in_the_history: outcome.closed.history().len() as u64 == outcome.counts.commits,
        is_good: outcome.closed.report(alloc)?.is_good(),
        stopped: outcome.files.iter().filter(|file| file.has_stopped).count(),
    })
}

/// Runs 500 inputs at each of four terminals.
fn outcome_of<K: LoggedRun + Send + Sync, D: Disk + Send + Drop, R: Threads + Wait + Sync>(
    rt: &R,
    alloc: Global,
    parts: Parts,
    meeting: &Meeting,
    disks: (D, D),
) -> Result<Outcome<K, D>, Refusal>
    requires run { IsOpenedAs parts K.run }
    requires ledger { IsLedgerOf parts K.name K.parts }
    requires named { K.found ≡ new_files 2 K.run.first.scale 0 }
    requires loggers { (loggers_of parts ≡ 2) × (base_of parts ≡ 0) }
    requires terminals { terminals_of parts ≡ 4 }
    requires first { D.is_modelled → (D.seen disks.0 ≡ []) × (D.story disks.0 ≡ []) }
    requires second { D.is_modelled → (D.seen disks.1 ≡ []) × (D.story disks.1 ≡ []) }
{
    let (engine, seats) = Engine::<K>::open(parts);
    let Seats {
        clock,
        loggers,
        terminals,
    } = seats;
    let slots = ((disks.0, AtOnce), (disks.1, AtOnce));
    let logs = logs(alloc, engine.population(), engine.board(), loggers, slots)?;
    let stations = stations(alloc, engine.population().scale(), meeting)?;
    let desks = Desks { clock, terminals };
    run(rt, alloc, engine, desks, logs, stations, 500)
}

/// The same. Answers what is seen of the run, what it comes to, and what W_YTD is to be, in cents: 200.00, as at the
/// start, and all that was paid.
fn run_of<K: LoggedRun + Send + Sync, D: Disk + Send + Drop, R: Threads + Wait + Sync>(
    rt: &R,
    alloc: Global,
    parts: Parts,
    meeting: &Meeting,
    disks: (D, D),
) -> Result<(Seen, Books, i64), Refusal>
    requires run { IsOpenedAs parts K.run }
    requires ledger { IsLedgerOf parts K.name K.parts }
    requires named { K.found ≡ new_files 2 K.run.first.scale 0 }
    requires loggers { (loggers_of parts ≡ 2) × (base_of parts ≡ 0) }
    requires terminals { terminals_of parts ≡ 4 }
    requires first { D.is_modelled → (D.seen disks.0 ≡ []) × (D.story disks.0 ≡ []) }
    requires second { D.is_modelled → (D.seen disks.1 ≡ []) × (D.story disks.1 ≡ []) }
{
    let mut outcome = outcome_of::<K, D, R>(rt, alloc, parts, meeting, disks)?;
    told_of(alloc, &mut outcome)
}

fn told_of<K: Run, D: Disk + Drop>(
    alloc: Global,
    outcome: &mut Outcome<K, D>,
) -> Result<(Seen, Books, i64), Refusal> {
    let paid = paid(&outcome.closed).saturating_add(20_000);
    Ok((seen_of(alloc, outcome)?, Books::of_run(outcome)?, paid))
}

#[test]
fn four_terminals_beside_two_loggers(rt: HostRuntime) -> Result<(), Fail> {
    let meeting = Meeting::default();
    let mut disks = (Memory::new(rt.alloc()), Memory::new(rt.alloc()));
    let parts = parts(&rt, rt.alloc(), 2, 4)?;
    let lent = (&mut disks.0, &mut disks.1);
    let (seen, books, paid) = run_of::<Brand, _, _>(&rt, rt.alloc(), parts, &meeting, lent)?;
    let wanted = Seen {
        inputs: 2_000,
        refused: 0,
        few_gave_up: true,
        all_acknowledged: true,
        as_many_in_the_history: true,
        is_good: true,
        stopped: 0,
    };
    assert_eq!(rt; seen, wanted);
    assert_eq!(rt; books.year_to_date, paid);
    assert_eq!(rt; (meeting.come(), meeting.alone()), (4, 0));
    assert_eq!(rt; Books::recovered(rt.alloc(), disks)?, books);
    Ok(())
}
