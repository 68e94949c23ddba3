//! A line on a terminal's screen.

ghost use Rattle.std.specs.Prelude.{◌≡◌, ◌↔◌, IsTrue, IsSome};

use crate::writing::write_text;
use std::alloc::{AllocError, Global};
use std::io::Write;
use std::time::Duration;

/// How long what a line tells of takes before anything is shown, in milliseconds.
const QUIET: u64 = 1000;

/// How long a line stands before it is rewritten, in milliseconds.
const STANDING: u64 = 100;

/// A line on a screen that is rewritten, at most ten times a second, once what it tells of takes longer than a second.
/// What can't be written is left aside.
#[derive(Drop)]
pub struct ScreenLine<S: Write> {
    alloc: Global,
    writer: S,
    /// When the line was written that stands there; where none does, when what it tells of began.
    since: Duration,
    /// How many places the lines have taken so far; None where none was written.
    width: Option<usize>,
}

impl<S: Write> ScreenLine<S> {
    /// A screen on which nothing stands, for what begins at this time of a clock.
    pub fn new(alloc: Global, writer: S, began: Duration) -> ScreenLine<S> {
        ScreenLine {
            alloc,
            writer,
            since: began,
            width: None,
        }
    }

    /// When the line was written that stands there; where none does, when what it tells of began.
    pub fn since(&self) -> Duration
        ensures { result ≡ self.now.since }
    {
        self.since
    }

    /// Whether a line stands there.
    pub fn is_shown(&self) -> bool
        ensures { IsTrue result ↔ IsSome self.now.width }
    {
        self.width.is_some()
    }

    /// Whether a line is to be written at this time.
    pub fn is_due(&self, now: Duration) -> bool {
        let least = if self.is_shown() { STANDING } else { QUIET };
        now.saturating_sub(self.since) >= Duration::from_millis(least)
    }

    /// Writes this over the whole of what stands there, if there is memory. It has a place for each of its bytes, as
    /// digits have, and letters without accents.
    pub fn rewrite(&mut self, now: Duration, text: &str) {
        let width = self.width.unwrap_or(0);
        let Ok(line) = over(self.alloc, text, width) else {
            return;
        };
        let _ = write_text(&mut self.writer, line.as_bytes());
        self.since = now;
        self.width = Some(width.max(text.len()));
    }

    /// Writes a line that stays over what stands there, if anything does, and goes on to the next line.
    pub fn tell(&mut self, text: &str) {
        let width = self.width.unwrap_or(0);
        if let Ok(line) = staying(self.alloc, text, width) {
            let _ = write_text(&mut self.writer, line.as_bytes());
            self.width = None;
        }
    }

    /// Leaves what stands there, if anything does, and goes on to the next line.
    pub fn leave(&mut self) {
        if self.is_shown() {
            let _ = write_text(&mut self.writer, b"\n");
            self.width = None;
        }
    }

    /// Writes blanks over what stands there, if anything does, and goes back to where it began.
    pub fn erase(&mut self) {
        let Some(width) = self.width else {
            return;
        };
        if let Ok(blanks) = erasing(self.alloc, width) {
            let _ = write_text(&mut self.writer, blanks.as_bytes());
            self.width = None;
        }
    }
}

/// A text behind a carriage return, which blanks fill up to this width.
fn over(alloc: Global, text: &str, width: usize) -> Result<String, AllocError> {
    let mut line = format!(in alloc; "\r{text}")?;
    for _ in text.len()..width {
        line.push(' ')?;
    }
    Ok(line)
}

/// The same, with a line feed.
fn staying(alloc: Global, text: &str, width: usize) -> Result<String, AllocError> {
    let mut line = over(alloc, text, width)?;
    line.push('\n')?;
    Ok(line)
}

/// Blanks of this width, between carriage returns.
fn erasing(alloc: Global, width: usize) -> Result<String, AllocError> {
    let mut line = over(alloc, "", width)?;
    line.push('\r')?;
    Ok(line)
}
