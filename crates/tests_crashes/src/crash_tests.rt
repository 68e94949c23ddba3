//! All crashes of runs.

use crate::judging::{Found, Seen};
use crate::lives::{COMMITS, Lived, begun, plain, resumed};
use crate::walking::{Walk, crashes, moments};
use log_disk::Memory;
use money::Refusal;
use population::Population;
use program_run::RunPlan;
use std::alloc::{AllocError, Global};
use std::sync::Wait;
use std::test::Fail;
use std::thread::Threads;
use tests_disks::{Fault, Torn};
use tests_recorded::{Notes, Tape, Ways};

/// A life that ends well.
const WELL: Lived = Lived {
    is_good: true,
    has_stopped: false,
};

/// Disks of which none fails, of which some syncs are held until five times a terminal has asked for its replies.
const SOUND: Ways = Ways {
    fault: None,
    asks: 5,
};

/// Empty disks.
fn empty(alloc: Global, loggers: u16) -> Result<Vec<Tape>, AllocError> {
    let mut tapes = Vec::new(alloc);
    for _ in 0..loggers {
        tapes.push(Tape::new(alloc))?;
    }
    Ok(tapes)
}

/// Runs terminals beside loggers on empty disks, and crashes them at about so many calls.
fn crashed<R: Threads + Wait + Sync>(
    rt: &R,
    alloc: Global,
    loggers: u16,
    ways: Ways,
    plan: &RunPlan,
    calls: usize,
) -> Result<(Lived, Seen), Refusal> {
    let notes = Notes::new(alloc, COMMITS as usize)?;
    let mut tapes = empty(alloc, loggers)?;
    let lived = begun(rt, alloc, &notes, &mut tapes, ways, plan)?;
    let seen = crashes(alloc, &notes, &tapes, calls)?;
    Ok((lived, seen))
}

#[test]
fn every_crash_of_a_run_is_recovered(rt: HostRuntime) -> Result<(), Fail> {
    let plan = RunPlan {
        terminals: 4,
        inputs: 45,
        seed: 1,
    };
    let (lived, seen) = crashed(&rt, rt.alloc(), 2, SOUND, &plan, 2_000)?;
    assert_eq!(rt; lived, WELL);
    assert_eq!(rt; seen, seen.right());
    assert!(rt; seen.crashes > 300);
    assert!(rt; seen.partly > 100);
    Ok(())
}

/// The last sync of a batch fails: behind the two calls of a new file, those of 20 batches, and the text, its sync and
/// the gate.
const LAST_SYNC: Fault = Fault {
    behind: 85,
    bytes: 0,
};

#[test]
fn every_crash_of_a_run_whose_disk_fails_is_recovered(rt: HostRuntime) -> Result<(), Fail> {
    let plan = RunPlan {
        terminals: 4,
        inputs: 40,
        seed: 2,
    };
    let ways = Ways {
        fault: Some(LAST_SYNC),
        asks: 2,
    };
    let (lived, seen) = crashed(&rt, rt.alloc(), 1, ways, &plan, 1_000)?;
    assert_eq!(rt;
        lived,
        Lived {
            is_good: true,
            has_stopped: true
        }
    );
    assert_eq!(rt; seen, seen.right());
    assert!(rt; seen.crashes > 100);
    assert!(rt; seen.partly > 10);
    Ok(())
}

/// A life that was stopped.
#[derive(Drop)]
struct Stopped {
    notes: Notes,
    /// What it has left.
    tapes: Vec<Tape>,
}

/// Disks with what was left on these.
fn restored(alloc: Global, left: &[Memory]) -> Result<Vec<Tape>, Refusal> {
    let mut tapes = Vec::new(alloc);
    for disk in left {
        tapes.push(Tape::of(alloc, disk.bytes())?)?;
    }
    Ok(tapes)
}

/// The durable epoch of what a crash leaves by which the last writes are torn so.
fn durable_of(
    alloc: Global,
    population: &Population,
    walk: &Walk,
    mix: (Torn, Torn),
) -> Result<u64, Refusal> {
    let mut left = walk.left(mix)?;
    Ok(Found::on(alloc, population, &mut left)?.durable)
}

/// Goes on to the first of these moments at which such a crash loses epochs that a file has: with all written, more
/// would be durable. Answers its stamp.
fn go_to_a_loss(
    alloc: Global,
    walk: &mut Walk,
    moments: &[u64],
    mix: (Torn, Torn),
) -> Result<Option<u64>, Refusal> {
    let population = plain(alloc)?;
    for stamp in moments {
        walk.advance(*stamp)?;
        let most = durable_of(alloc, &population, walk, (Torn::New, Torn::New))?;
        if durable_of(alloc, &population, walk, mix)? < most {
            return Ok(Some(*stamp));
        }
    }
    Ok(None)
}

/// Stops a life when so many quarters of its calls are done, and as soon as it loses epochs then, with its last writes
/// torn so. None where no such crash loses any.
fn stopped_at(
    alloc: Global,
    notes: &Notes,
    tapes: &[Tape],
    quarters: usize,
    mix: (Torn, Torn),
) -> Result<Option<Stopped>, Refusal> {
    let moments = moments(alloc, tapes)?;
    let at = moments.len().saturating_mul(quarters) / 4;
    let later = moments.get(at..).unwrap_or(&[]);
    let mut walk = Walk::new(alloc, tapes)?;
    let Some(stamp) = go_to_a_loss(alloc, &mut walk, later, mix)? else {
        return Ok(None);
    };
    let mut left = walk.left(mix)?;
    let found = Found::on(alloc, &plain(alloc)?, &mut left)?;
    Ok(Some(Stopped {
        notes: Notes::behind(alloc, notes, stamp, found.commits)?,
        tapes: restored(alloc, &left)?,
    }))
}

/// Stops a life so, or with no last write: which logger's write lets more be durable is up to the threads, so a crash
/// that spares one disk may lose nothing in a whole life. One that spares none does, wherever more gets durable, and
/// that is so in a life's last calls too.
fn stopped_at_a_loss(
    alloc: Global,
    notes: &Notes,
    tapes: &[Tape],
    quarters: usize,
    mix: (Torn, Torn),
) -> Result<Stopped, Refusal> {
    if let Some(stopped) = stopped_at(alloc, notes, tapes, quarters, mix)? {
        return Ok(stopped);
    }
    stopped_at(alloc, notes, tapes, quarters, (Torn::Old, Torn::Old))?.ok_or(Refusal::BadInput)
}

/// How lives are stopped.
const STOPS: [(usize, (Torn, Torn)); 3] = [
    (1, (Torn::Old, Torn::New)),
    (2, (Torn::New, Torn::FirstHalf)),
    (3, (Torn::New, Torn::Old)),
];

/// Stops a life in each of these ways, goes on behind it, and crashes what goes on. Answers how many ended well, too.
fn crashed_again<R: Threads + Wait + Sync>(
    rt: &R,
    alloc: Global,
    notes: &Notes,
    tapes: &[Tape],
    plan: &RunPlan,
) -> Result<(usize, Seen), Refusal> {
    let (mut well, mut seen) = (0usize, Seen::default());
    for (quarters, mix) in STOPS {
        let mut stopped = stopped_at_a_loss(alloc, notes, tapes, quarters, mix)?;
        let lived = resumed(rt, alloc, &stopped.notes, &mut stopped.tapes, SOUND, plan)?;
        well = well.saturating_add(usize::from(lived == WELL));
        seen = seen.with(crashes(alloc, &stopped.notes, &stopped.tapes, 500)?);
    }
    Ok((well, seen))
}

/// A life, and all crashes of lives that go on behind it.
fn crashed_over_two<R: Threads + Wait + Sync>(
    rt: &R,
    alloc: Global,
    plan: &RunPlan,
) -> Result<(usize, Seen), Refusal> {
    let notes = Notes::new(alloc, COMMITS as usize)?;
    let mut tapes = empty(alloc, 2)?;
    begun(rt, alloc, &notes, &mut tapes, SOUND, plan)?;
    crashed_again(rt, alloc, &notes, &tapes, plan)
}

#[test]
fn every_crash_of_a_second_life_is_recovered(rt: HostRuntime) -> Result<(), Fail> {
    let plan = RunPlan {
        terminals: 3,
        inputs: 10,
        seed: 3,
    };
    let (well, seen) = crashed_over_two(&rt, rt.alloc(), &plan)?;
    assert_eq!(rt; well, 3);
    assert_eq!(rt; seen, seen.right());
    assert!(rt; seen.crashes > 200);
    assert!(rt; seen.partly > 50);
    Ok(())
}
