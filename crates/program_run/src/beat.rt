//! How often a logger takes a turn.

use crate::screen::Screen;
use run_threads::{Pace, RunProgress};
use std::io::Write;
use std::sync::Wait;
use std::time::{Clock, Duration};

/// A logger's turn begins once E has changed since the one before, and an interval after that one's beginning at the
/// latest, or at once where it took longer. So the logger with the clock, which alone advances E, has turns, and
/// epochs, of its interval (Silo, section 4.1), and others follow it. The first logger's also has the screen, if there
/// is one.
#[derive(Drop)]
pub struct Beat<'a, C: Clock + Wait, S: Write> {
    clock: &'a C,
    interval: Duration,
    due: Duration,
    screen: Option<Screen<'a, S>>,
}

impl<'a, C: Clock + Wait, S: Write> Beat<'a, C, S> {
    /// The pace of this interval by a clock.
    pub fn new(clock: &'a C, interval: Duration, screen: Option<Screen<'a, S>>) -> Beat<'a, C, S> {
        Beat {
            clock,
            interval,
            due: Duration::MAX,
            screen,
        }
    }

    /// Waits until the next turn is due: an interval at the longest, and a whole one where the clock can't be read.
    fn wait(&mut self, progress: &RunProgress, signals: u64) {
        let left = match self.clock.monotonic() {
            Ok(now) => self.due.saturating_sub(now).min(self.interval),
            Err(_) => self.interval,
        };
        progress.wait(self.clock, signals, left);
    }
}

impl<'a, C: Clock + Wait, S: Write> Pace for Beat<'a, C, S> {
    fn pause(&mut self, progress: &RunProgress, signals: u64) {
        self.wait(progress, signals);
        let Ok(now) = self.clock.monotonic() else {
            return;
        };
        self.due = now.saturating_add(self.interval);
        if let Some(screen) = &mut self.screen {
            screen.show(now, progress);
        }
    }

    fn end(&mut self, progress: &RunProgress) {
        if let Some(screen) = &mut self.screen {
            screen.end(self.clock.monotonic().ok(), progress);
        }
    }
}
