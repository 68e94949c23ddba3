//! Showing on a screen how far a recovery is.
ghost use Rattle.std.specs.Prelude.{◌≡◌};
ghost use Rattle.std.specs.Thread.{IsSync};
ghost use denote.Param.Send.{IsSend};
ghost use Rattle.population.specs.Initial.{initial, seed_of};
ghost use Rattle.recover_files.specs.Answers.{IsAnswerOn};

use log_disk::Disk;
use money::Refusal;
use population::Population;
use program_streams::ScreenLine;
use recover::{Recovered, recover_with};
use recover_progress::Progress;
use std::alloc::{AllocError, Global};
use std::io::Write;
use std::str::FromStr;
use std::sync::Wait;
use std::sync::atomic::{AtomicBool, Ordering};
use std::thread::{Parker, Threads, join, join_mut};
use std::time::{Clock, Duration};

/// How often the screen is looked at, in milliseconds.
const STEP: u64 = 100;

/// What is shown of a recovery of all files at once that has read nothing yet.
const READING_ALL: &str = "reading log files";

/// What is shown where the files are read in turn.
const READING_FIRST: &str = "reading log-0";

/// How a recovery is gone about.
#[derive(Drop)]
pub struct Manner<S> {
    /// In how many threads at most files are read, and what they say is merged.
    pub threads: usize,
    /// Where it is shown how far the recovery is, if anywhere.
    pub screen: Option<S>,
    /// How many bytes each file has, in the order of the loggers: nothing but the screen goes by them.
    pub sizes: Vec<u64>,
}

/// The end of a recovery, for which the thread waits that shows how far it is.
#[derive(Drop)]
struct End {
    has_come: AtomicBool,
    parker: Parker,
}

impl End {
    /// One that is to come.
    fn new() -> End {
        End {
            has_come: AtomicBool::new(false),
            parker: Parker::new(),
        }
    }

    /// It has come.
    fn come(&self) {
        self.has_come.store(true, Ordering::SeqCst);
        self.parker.unpark();
    }

    /// Waits for it, but no longer than this, and answers whether it has come.
    fn wait<R: Wait>(&self, rt: &R, longest: Duration) -> bool {
        if !self.has_come.load(Ordering::SeqCst) {
            self.parker.park_timeout(rt, longest);
        }
        self.has_come.load(Ordering::SeqCst)
    }
}

/// The tables that log files hold, as `recover_with` has them. Where there is a screen, a line there shows how far the
/// recovery is, once it takes longer than a second, and is erased at its end. May wait, for its threads.
pub(crate) fn recover_shown<
    R: Threads + Wait + Clock + Sync,
    D: Disk + Send,
    S: Write + Send + Drop,
>(
    rt: &R,
    alloc: Global,
    population: &Population,
    disks: &mut [D],
    manner: Manner<S>,
) -> Result<Recovered, Refusal>
    ensures { IsAnswerOn D.is_modelled D.seen D.story D.failed (initial population.now) (seed_of population.now)
        disks.old disks.new result }
{
    let Manner {
        threads,
        screen,
        sizes,
    } = manner;
    let progress = Progress::of(sizes);
    match (screen, rt.monotonic()) {
        (Some(screen), Ok(began)) => {
            let mut line = ScreenLine::new(alloc, screen, began);
            recover_watched(rt, alloc, population, disks, threads, &progress, &mut line)
        }
        _ => recover_with(rt, alloc, population, disks, threads, &progress),
    }
}

/// The tables that log files hold, while the line on a screen shows how far the recovery is.
fn recover_watched<R: Threads + Wait + Clock + Sync, D: Disk + Send, S: Write + Send>(
    rt: &R,
    alloc: Global,
    population: &Population,
    disks: &mut [D],
    threads: usize,
    progress: &Progress,
    line: &mut ScreenLine<S>,
) -> Result<Recovered, Refusal>
    ensures { IsAnswerOn D.is_modelled D.seen D.story D.failed (initial population.now) (seed_of population.now)
        disks.old disks.new result }
{
    let end = End::new();
    let begun = if threads == 1 {
        READING_FIRST
    } else {
        READING_ALL
    };
    let mut watch = || { show_until(rt, alloc, &end, progress, begun, line) };
    let mut work = || -> Result<Recovered, Refusal>
        ensures { IsAnswerOn D.is_modelled D.seen D.story D.failed (initial population.entry.now)
            (seed_of population.entry.now) disks.entry.now disks.exit.now result }
    {
        let found = recover_with(rt, alloc, population, disks, threads, progress);
        end.come();
        found
    };
    // The first of the two gets a thread of its own. Where none can be started it comes last, and shows nothing.
    let ((), found) = join_mut(rt, &mut watch, &mut work);
    found
}

/// Does this work, of which the progress tells how far its recovery is. Where there is a screen, a line there shows
/// that, once it takes longer than a second, and is erased at its end. The calling thread does the work; may wait, for
/// the thread that shows it.
pub fn while_shown<R: Threads + Wait + Clock + Sync, S: Write + Send + Drop, A, F: FnOnce() -> A>(
    rt: &R,
    alloc: Global,
    progress: &Progress,
    screen: Option<S>,
    work: F,
) -> A
    requires { F.pre work }
    ensures { F.post work result }
{
    match (screen, rt.monotonic()) {
        (Some(screen), Ok(began)) => {
            let line = ScreenLine::new(alloc, screen, began);
            while_watched(rt, alloc, progress, READING_ALL, line, work)
        }
        _ => work(),
    }
}

/// Does this work while the line on a screen shows how far its recovery is.
fn while_watched<R: Threads + Wait + Clock + Sync, S: Write + Send + Drop, A, F: FnOnce() -> A>(
    rt: &R,
    alloc: Global,
    progress: &Progress,
    begun: &'static str,
    line: ScreenLine<S>,
    work: F,
) -> A
    requires { F.pre work }
    ensures { F.post work result }
{
    let end = &End::new();
    let watch = move || {
        let mut line = line;
        show_until(rt, alloc, end, progress, begun, &mut line)
    };
    let work = move || -> A
        requires { F.pre work }
        ensures { F.post work result }
    {
        let done = work();
        end.come();
        done
    };
    // The first of the two gets a thread of its own. Where none can be started it comes last, and shows nothing.
    let ((), done) = join(rt, watch, work);
    done
}

/// Shows how far a recovery is until its end, and erases it then.
fn show_until<R: Wait + Clock, S: Write>(
    rt: &R,
    alloc: Global,
    end: &End,
    progress: &Progress,
    begun: &str,
    line: &mut ScreenLine<S>,
) {
    for _ in 0..u64::MAX {
        if end.wait(rt, Duration::from_millis(STEP)) {
            break;
        }
        show(rt, alloc, progress, begun, line);
    }
    line.erase();
}

/// Shows how far it is now, if a line is due.
fn show<C: Clock, S: Write>(
    clock: &C,
    alloc: Global,
    progress: &Progress,
    begun: &str,
    line: &mut ScreenLine<S>,
) {
    let Ok(now) = clock.monotonic() else {
        return;
    };
    if line.is_due(now) {
        if let Ok(text) = text_of(alloc, progress, begun) {
            line.rewrite(now, text.as_str());
        }
    }
}

/// The text of the line: how many bytes of the files were read, and how many entries were looked at; or while there are
/// none of both, what is done.
fn text_of(alloc: Global, progress: &Progress, begun: &str) -> Result<String, AllocError> {
    let (entries, read, all) = (progress.entries(), progress.read(), progress.to_read());
    if entries == 0 && read == 0 {
        return String::from_str(alloc, begun);
    }
    format!(in alloc; "read {read} of {all} bytes, {entries} entries")
}
