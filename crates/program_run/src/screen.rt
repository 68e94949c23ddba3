//! How far a run is, on one line of a terminal's screen.

use crate::alarm::Alarm;
use crate::waits::Waits;
use program_streams::ScreenLine;
use run_threads::RunProgress;
use std::alloc::{AllocError, Global};
use std::io::{Error, Write};
use std::time::Duration;

/// The line of a run on a screen, once the run takes longer than a second. At the end a summary of the run is left in
/// its place. A log file that can't be written any longer is told at once, on a line of its own. What can't be written
/// is left aside.
#[derive(Drop)]
pub struct Screen<'a, S: Write> {
    alloc: Global,
    line: ScreenLine<S>,
    began: Duration,
    waits: &'a Waits,
    alarms: &'a [Alarm],
    /// The folder of the log files.
    folder: &'a str,
    /// How many commits the line tells that stands there.
    commits: u64,
}

impl<'a, S: Write> Screen<'a, S> {
    /// A screen on which nothing stands, for a run that begins at this time of a clock, and whose terminals tell here
    /// what their commits wait. The alarms are those of the log files in this folder, in the order of their loggers.
    pub fn new(
        alloc: Global,
        writer: S,
        began: Duration,
        waits: &'a Waits,
        alarms: &'a [Alarm],
        folder: &'a str,
    ) -> Screen<'a, S> {
        Screen {
            alloc,
            line: ScreenLine::new(alloc, writer, began),
            began,
            waits,
            alarms,
            folder,
            commits: 0,
        }
    }

    /// Shows at once what is done before the run begins, which may take long.
    pub fn announce(&mut self, text: &str) {
        self.line.rewrite(self.began, text);
    }

    /// Shows how far the run is at this time, if a line is due; and at once which log files can't be written any
    /// longer.
    pub fn show(&mut self, now: Duration, progress: &RunProgress) {
        self.tell_alarms(progress);
        if self.line.is_due(now) {
            self.rewrite(now, progress);
        }
    }

    /// Leaves the summary of the run at its end, if anything stands there, and ends the line. Where the time isn't
    /// known, the line stays as it is.
    pub fn end(&mut self, now: Option<Duration>, progress: &RunProgress) {
        self.tell_alarms(progress);
        if !self.line.is_shown() {
            return;
        }
        if let Some(now) = now {
            self.sum_up(now, progress);
        }
        self.line.leave();
    }

    /// Tells which log files can't be written any longer, of which that wasn't told yet.
    fn tell_alarms(&mut self, progress: &RunProgress) {
        for (logger, alarm) in self.alarms.iter().enumerate() {
            let Some(error) = alarm.take() else {
                continue;
            };
            let durable = progress.durable();
            if let Ok(text) = alarm_text(self.alloc, self.folder, logger, error, durable) {
                self.line.tell(text.as_str());
            }
        }
    }

    /// Writes the line anew.
    fn rewrite(&mut self, now: Duration, progress: &RunProgress) {
        let numbers = Figures::of(progress);
        let since = millis(self.line.since(), now);
        let rate = per_second(numbers.commits.saturating_sub(self.commits), since);
        let Ok(text) = numbers.text(self.alloc, rate) else {
            return;
        };
        self.line.rewrite(now, text.as_str());
        self.commits = numbers.commits;
    }

    /// Writes the summary of a run that ends now.
    fn sum_up(&mut self, now: Duration, progress: &RunProgress) {
        let millis = millis(self.began, now);
        let Ok(waits) = self.waits.text(self.alloc) else {
            return;
        };
        let (commits, acknowledged) = (progress.commits(), progress.acknowledged());
        if let Ok(text) = summary(self.alloc, millis, commits, acknowledged, &waits) {
            self.line.tell(text.as_str());
        }
    }
}

/// The text of a run that took so long and committed so much: its seconds, its commits a second, or those that were
/// acknowledged, where that is fewer, and what is told of how long they waited.
fn summary(
    alloc: Global,
    millis: u64,
    commits: u64,
    acknowledged: u64,
    waits: &str,
) -> Result<String, AllocError> {
    let (seconds, tenths) = (millis / 1000, millis % 1000 / 100);
    let (counted, what) = if acknowledged < commits {
        (acknowledged, "acknowledged commits/s")
    } else {
        (commits, "commits/s")
    };
    let rate = per_second(counted, millis);
    format!(in alloc; "{seconds}.{tenths} s, {rate} {what}, {waits}")
}

/// The text on a log file that can't be written any longer, for this reason, where it is known, in a run whose replies
/// are given up to this epoch.
fn alarm_text(
    alloc: Global,
    folder: &str,
    logger: usize,
    error: Option<Error>,
    durable: u64,
) -> Result<String, AllocError> {
    let mut text = format!(in alloc; "9 Device: {folder}/log-{logger}: can't be written")?;
    if let Some(error) = error {
        write!(text, ": {error}")?;
    }
    write!(text, "; replies are durable up to epoch {durable}")?;
    Ok(text)
}

/// The whole milliseconds from one time to another, or none where that is before.
fn millis(from: Duration, to: Duration) -> u64 {
    u64::try_from(to.saturating_sub(from).as_millis()).unwrap_or(u64::MAX)
}

/// How many a second these are, in so many milliseconds.
fn per_second(count: u64, millis: u64) -> u64 {
    count.saturating_mul(1000) / millis.max(1)
}

/// The numbers of a line.
#[derive(Clone, Copy, Debug)]
struct Figures {
    durable: u64,
    acknowledged: u64,
    epoch: u64,
    commits: u64,
    inputs: u64,
}

impl Figures {
    /// How far a run is. The numbers are read in such an order that none is ahead of what it is a part of.
    fn of(progress: &RunProgress) -> Figures {
        Figures {
            durable: progress.durable(),
            acknowledged: progress.acknowledged(),
            epoch: progress.epoch(),
            commits: progress.commits(),
            inputs: progress.inputs(),
        }
    }

    /// The text of a line.
    fn text(&self, alloc: Global, rate: u64) -> Result<String, AllocError> {
        let Figures {
            durable,
            acknowledged,
            epoch,
            commits,
            inputs,
        } = *self;
        let mut text = format!(in alloc;
            "inputs {inputs} commits {commits} ({rate}/s) acknowledged {acknowledged}"
        )?;
        write!(text, " epoch {epoch} durable {durable}")?;
        Ok(text)
    }
}
