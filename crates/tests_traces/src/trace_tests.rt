//! Runs of threads are lists of the crash world's events.

use crate::crashing::{crashed_at, standing_at};
use crate::lives::{COMMITS, begun, empty, memories, resumed};
use crate::record::{Beginning, Judgements, Made, Record};
use crate::sights::Sights;
use money::Refusal;
use program_run::RunPlan;
use std::alloc::{AllocError, Global};
use std::sync::Wait;
use std::test::Fail;
use std::thread::Threads;
use tests_recorded::{Notes, Tape, Ways};
use traces::Start;

/// How many calls make a log file.
const MAKING: usize = 2;

/// About how many inputs a run has, of all terminals: enough for many syncs to be held.
const INPUTS: u32 = 96;

/// The number of the commit at the release of whose reply a life crashes: so it is past in the next one.
const RELEASED: usize = 8;

/// How the disks of a run are: of some syncs each is held until its terminals have asked for their replies, one of them
/// twice.
fn ways_of(plan: &RunPlan) -> Ways {
    Ways {
        fault: None,
        asks: u64::from(plan.terminals).saturating_add(1),
    }
}

/// A record, what was seen with stamps, how many commits were past, and how many syncs were held so.
#[derive(Drop)]
struct Seen {
    record: Record,
    sights: Sights,
    past: u64,
    held: u64,
}

impl Seen {
    /// Of a life that has committed this, with numbers behind so many. `BadInput` where a call has no stamp.
    fn of(
        alloc: Global,
        notes: &Notes,
        tapes: Vec<Tape>,
        beginning: Beginning,
        made: Made,
        past: u64,
    ) -> Result<Seen, Refusal> {
        if tapes.iter().any(|tape| tape.unstamped() > 0) {
            return Err(Refusal::BadInput);
        }
        let sights = Sights::of(alloc, notes, &tapes, &beginning.starts, past as usize)?;
        let disks = memories(alloc, tapes)?;
        let record = Record::of(alloc, made, beginning, disks)?;
        Ok(Seen {
            record,
            sights,
            past,
            held: notes.met(),
        })
    }
}

/// What is said of runs.
#[derive(Clone, Copy, Debug, Default, PartialEq, Eq)]
struct Verdict {
    /// Of their records.
    runs: Judgements,
    commits: usize,
    released: usize,
    past: u64,
    /// How many syncs were held until terminals had asked.
    held: u64,
    /// Of records with two stamps exchanged.
    exchanged: Judgements,
}

impl Verdict {
    /// With what is said of one more, and of those records of it in which the stamps of every `step`th release and of
    /// its sync are exchanged.
    fn with(self, alloc: Global, seen: Seen, step: usize) -> Result<Verdict, Refusal> {
        let Seen {
            record,
            mut sights,
            past,
            held,
        } = seen;
        let mut runs = self.runs;
        runs.add(record.is_accepted(alloc, &sights)?);
        let released = sights.releases();
        let exchanged = record.exchanged(alloc, &mut sights, step)?;
        Ok(Verdict {
            runs,
            commits: self.commits.saturating_add(record.made.history.len()),
            released: self.released.saturating_add(released),
            past: self.past.saturating_add(past),
            held: self.held.saturating_add(held),
            exchanged: self.exchanged.with(exchanged),
        })
    }

    /// Whether so many runs are accepted, in which syncs were held and each reply was released, and of some records with
    /// exchanged stamps all are refused.
    fn is_good(&self, runs: u64) -> bool {
        let all = Judgements {
            accepted: runs,
            ..Judgements::default()
        };
        self.runs == all
            && self.held.saturating_sub(runs) > runs
            && self.released == self.commits
            && self.exchanged.accepted == 0
            && self.exchanged.refused > 0
    }
}

/// Where new log files stand.
fn new_files(alloc: Global, loggers: u16) -> Result<Beginning, AllocError> {
    let mut starts = Vec::new(alloc);
    for _ in 0..loggers {
        starts.push(Start {
            calls: MAKING,
            end: 0,
        })?;
    }
    Ok(Beginning {
        is_first: true,
        base: 0,
        starts,
    })
}

/// Runs terminals beside loggers on empty disks.
fn first_life<R: Threads + Wait + Sync>(
    rt: &R,
    alloc: Global,
    loggers: u16,
    plan: &RunPlan,
) -> Result<Seen, Refusal> {
    let notes = Notes::new(alloc, COMMITS as usize)?;
    let mut tapes = empty(alloc, loggers)?;
    let made = begun(rt, alloc, &notes, &mut tapes, ways_of(plan), plan)?;
    let beginning = new_files(alloc, loggers)?;
    Seen::of(alloc, &notes, tapes, beginning, made, 0)
}

/// Where the log files stood that were open at a stamp. `Gap` where one's last mark is another than this.
fn open_files(alloc: Global, tapes: &[Tape], stamp: u64, base: u64) -> Result<Beginning, Refusal> {
    let mut starts = Vec::new(alloc);
    for tape in tapes {
        let (start, mark) = standing_at(alloc, tape, stamp)?;
        if mark != base {
            return Err(Refusal::Gap);
        }
        starts.push(start)?;
    }
    Ok(Beginning {
        is_first: false,
        base,
        starts,
    })
}

/// Runs terminals on what a crash leaves of such a life in the midst of it, right behind a release.
fn second_life<R: Threads + Wait + Sync>(
    rt: &R,
    alloc: Global,
    loggers: u16,
    plan: &RunPlan,
) -> Result<Seen, Refusal> {
    let notes = Notes::new(alloc, COMMITS as usize)?;
    let mut tapes = empty(alloc, loggers)?;
    begun(rt, alloc, &notes, &mut tapes, ways_of(plan), plan)?;
    let stamp = notes
        .fact(RELEASED)
        .map_or(notes.stamps(), |fact| fact.stamp);
    let left = crashed_at(alloc, &tapes, stamp)?;
    life_on(rt, alloc, left, plan)
}

/// Runs terminals on disks that have log files.
fn life_on<R: Threads + Wait + Sync>(
    rt: &R,
    alloc: Global,
    left: Vec<Tape>,
    plan: &RunPlan,
) -> Result<Seen, Refusal> {
    let notes = Notes::new(alloc, COMMITS as usize)?;
    let mut tapes = left;
    let life = resumed(rt, alloc, &notes, &mut tapes, ways_of(plan), plan)?;
    let beginning = open_files(alloc, &tapes, life.stamps, life.base)?;
    Seen::of(alloc, &notes, tapes, beginning, life.made, life.past)
}

/// First lives of so many loggers and terminals.
fn first_lives<R: Threads + Wait + Sync>(
    rt: &R,
    alloc: Global,
    sizes: &[(u16, u16)],
) -> Result<Verdict, Refusal> {
    let mut verdict = Verdict::default();
    for (loggers, terminals) in sizes {
        let plan = RunPlan {
            terminals: *terminals,
            inputs: (INPUTS / u32::from(*terminals).max(1)).max(8),
            seed: u64::from(*loggers),
        };
        let seen = first_life(rt, alloc, *loggers, &plan)?;
        verdict = verdict.with(alloc, seen, 11)?;
    }
    Ok(verdict)
}

#[test]
fn runs_are_lists_of_events(rt: HostRuntime) -> Result<(), Fail> {
    let sizes = [(1, 1), (1, 4), (1, 16), (2, 4), (3, 5)];
    let verdict = first_lives(&rt, rt.alloc(), &sizes)?;
    assert!(rt; verdict.is_good(5));
    assert!(rt; verdict.commits > 300);
    assert!(rt; verdict.exchanged.refused > 20);
    Ok(())
}

#[test]
fn runs_of_many_loggers_are_lists_of_events(rt: HostRuntime) -> Result<(), Fail> {
    let verdict = first_lives(&rt, rt.alloc(), &[(4, 8), (5, 2), (8, 16)])?;
    assert!(rt; verdict.is_good(3));
    assert!(rt; verdict.commits > 200);
    Ok(())
}

#[test]
fn second_lives_are_lists_of_events(rt: HostRuntime) -> Result<(), Fail> {
    let plan = RunPlan {
        terminals: 4,
        inputs: 12,
        seed: 3,
    };
    let seen = second_life(&rt, rt.alloc(), 3, &plan)?;
    let verdict = Verdict::default().with(rt.alloc(), seen, 5)?;
    assert!(rt; verdict.is_good(1));
    assert!(rt; verdict.past >= RELEASED as u64);
    assert!(rt; verdict.commits > 30);
    Ok(())
}
