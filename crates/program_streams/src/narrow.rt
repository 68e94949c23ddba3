//! A screen of so many columns.

ghost use Rattle.std.specs.Prelude.{◌≤◌, length, IfOk};
ghost use Rattle.std.specs.Io.{WritesAtMost};

use crate::writing::write_text;
use std::io::{self, Write};

/// The columns of a screen of which it isn't known how many it has.
const COLUMNS: usize = 80;

/// The fewest columns that are believed.
const FEWEST: usize = 20;

/// What a line that is cut has in place of its words that are dropped.
const BLANKS: [u8; 80] = [b' '; 80];

/// A screen whose lines are cut: of each, the words that go beyond the last column but one are dropped, as if they were
/// written, and blanks stand in their place, over what stood there before. A line begins behind a line feed or a
/// carriage return, and each other byte has a column. What is written with a line feed behind it stays on the screen,
/// and isn't cut.
#[derive(Drop)]
pub struct Narrow<S: Write> {
    stream: S,
    /// The columns that are written to.
    columns: usize,
    /// The next one.
    next: usize,
}

impl<S: Write> Narrow<S> {
    ghost use Rattle.std.specs.Prelude.{◌≡◌, ◌≤◌, length, IfOk};

    /// A screen on whose line nothing stands, of as many columns as this text says, if it is a number from 20 on, and
    /// else of 80.
    pub fn new(stream: S, columns: Option<&str>) -> Narrow<S> {
        let asked = match columns {
            Some(text) => text.parse::<usize>().unwrap_or(0),
            None => 0,
        };
        let columns = if asked < FEWEST { COLUMNS } else { asked };
        Narrow {
            stream,
            columns: columns.saturating_sub(1),
            next: 0,
        }
    }

    /// What is written to.
    pub fn stream(&self) -> &S
        ensures { result.now ≡ self.now.stream }
    {
        &self.stream
    }

    /// How many bytes from the first on have a column, or begin a line.
    fn room(&self, text: &[u8]) -> usize
        ensures { result ≤ length text.now }
    {
        let mut next = self.next;
        for (place, byte) in text.iter().enumerate() {
            if begins_line(*byte) {
                next = 0;
            } else if next < self.columns {
                next += 1;
            } else {
                return place;
            }
        }
        text.len()
    }

    /// Writes so many bytes from the first on, or some of them.
    fn write_front(&mut self, text: &[u8], count: usize) -> io::Result<usize>
        requires { count ≤ length text.now }
        ensures { IfOk result (λ written. written ≤ count) }
    {
        let written = self.stream.write(&text[..count])?;
        self.pass(&text[..written]);
        Ok(written)
    }

    /// Writes blanks up to the last column that is written to, of which 80 at most are left, as a word is shorter. What
    /// can't be written is left aside.
    fn blank(&mut self) {
        let left = self.columns.saturating_sub(self.next);
        let _ = write_text(&mut self.stream, &BLANKS[..left.min(BLANKS.len())]);
        self.next = self.columns;
    }

    /// These bytes were written.
    fn pass(&mut self, text: &[u8]) {
        for byte in text {
            self.next = if begins_line(*byte) {
                0
            } else {
                self.next.saturating_add(1)
            };
        }
    }
}

impl<S: Write> Write for Narrow<S> {
    ghost use Rattle.std.specs.Prelude.{None};

    ghost contents = { λ _. None };

    fn write(&mut self, buf: &[u8]) -> io::Result<usize>
        ensures bound { WritesAtMost result buf.now }
    {
        if buf.last() == Some(&b'\n') {
            return self.write_front(buf, buf.len());
        }
        let room = self.room(buf);
        if room == 0 {
            return Ok(dropped(buf));
        }
        let kept = words_within(buf, room);
        let count = self.write_front(buf, kept)?;
        if count == kept && kept < room {
            self.blank();
        }
        Ok(count)
    }

    fn flush(&mut self) -> io::Result<()> {
        self.stream.flush()
    }
}

/// How many bytes stand before the next line.
fn dropped(text: &[u8]) -> usize
    ensures { result ≤ length text.now }
{
    for (place, byte) in text.iter().enumerate() {
        if begins_line(*byte) {
            return place;
        }
    }
    text.len()
}

/// How many of so many bytes are whole words, with the blanks between them; or all of them, where there is no blank.
fn words_within(text: &[u8], room: usize) -> usize
    requires { room ≤ length text.now }
    ensures { result ≤ room }
{
    if matches!(text.get(room), None | Some(b' ')) {
        return room;
    }
    match text[..room].iter().rposition(|byte| *byte == b' ') {
        Some(place) => place + 1,
        None => room,
    }
}

fn begins_line(byte: u8) -> bool {
    byte == b'\n' || byte == b'\r'
}
