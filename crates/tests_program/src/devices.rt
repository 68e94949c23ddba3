//! A script on readers and writers that are slow, interrupted, or watched.

use crate::GOOD;
use book::Done;
use conditions::Report;
use money::Refusal;
use population::Population;
use program_script::script;
use std::alloc::Global;
use std::cell::Cell;
use std::io::{self, ErrorKind, Read, Write};
use std::sync::Wait;
use std::test::Fail;
use tables::Scale;

fn small(alloc: Global) -> Result<Population, Refusal> {
    Population::plain(alloc, Scale::new(1, 2, 10, 20, 30, 5_000)?)
}

fn run<R: Read, W: Write, T: Wait>(
    rt: &T,
    alloc: Global,
    reader: &mut R,
    writer: &mut W,
) -> Result<(Report, Vec<Done>), Refusal> {
    script(rt, alloc, small(alloc)?, reader, writer)
}

/// A reader that is interrupted before each byte that it gives.
#[derive(Drop)]
struct Hesitant<'a> {
    text: &'a [u8],
    is_ready: bool,
}

impl Read for Hesitant<'_> {
    fn read(&mut self, buf: &mut [u8]) -> io::Result<usize> {
        self.is_ready = !self.is_ready;
        if self.is_ready {
            return Err(io::Error::from(ErrorKind::Interrupted));
        }
        let few = buf.len().min(1);
        self.text.read(&mut buf[..few])
    }
}

/// A writer that is interrupted before each byte that it takes.
#[derive(Drop)]
struct Reluctant {
    written: Vec<u8>,
    is_ready: bool,
}

impl Write for Reluctant {
    fn write(&mut self, buf: &[u8]) -> io::Result<usize> {
        self.is_ready = !self.is_ready;
        if self.is_ready {
            return Err(io::Error::from(ErrorKind::Interrupted));
        }
        let few = buf.len().min(1);
        self.written.extend_from_slice(&buf[..few])?;
        Ok(few)
    }

    fn flush(&mut self) -> io::Result<()> {
        Ok(())
    }
}

#[test]
fn interrupted_calls_are_tried_again(rt: HostRuntime) -> Result<(), Fail> {
    let mut reader = Hesitant {
        text: b"show warehouse 1\npayment 1 1 1 1 3 1.00\n",
        is_ready: false,
    };
    let mut writer = Reluctant {
        written: Vec::new(rt.alloc()),
        is_ready: false,
    };
    run(&rt, rt.alloc(), &mut reader, &mut writer)?;
    let expected = format!(in rt.alloc();
        "warehouse 1 ytd 200.00\npayment 1 1 customer 1 1 3 balance -11.00\ncommits 1\n{GOOD}"
    )?;
    assert_eq!(rt; writer.written.as_slice(), expected.as_bytes());
    Ok(())
}

/// How many bytes a writer has taken, and how many of them it was told to pass on.
#[derive(Drop)]
struct Progress {
    taken: Cell<usize>,
    flushed: Cell<usize>,
}

/// A writer that counts.
#[derive(Drop)]
struct Watched<'a>(&'a Progress);

impl Write for Watched<'_> {
    fn write(&mut self, buf: &[u8]) -> io::Result<usize> {
        let taken = self.0.taken.get();
        self.0.taken.set(taken.saturating_add(buf.len()));
        Ok(buf.len())
    }

    fn flush(&mut self) -> io::Result<()> {
        self.0.flushed.set(self.0.taken.get());
        Ok(())
    }
}

/// A reader that gives a line at a time, and looks at what is flushed before each.
#[derive(Drop)]
struct Watching<'a> {
    line: &'a [u8],
    lines: usize,
    progress: &'a Progress,
    seen: Vec<usize>,
}

impl Read for Watching<'_> {
    fn read(&mut self, buf: &mut [u8]) -> io::Result<usize> {
        self.seen.push(self.progress.flushed.get())?;
        if self.lines == 0 {
            return Ok(0);
        }
        self.lines -= 1;
        let mut line = self.line;
        line.read(buf)
    }
}

#[test]
fn answers_are_flushed_before_the_next_read(rt: HostRuntime) -> Result<(), Fail> {
    let progress = &Progress {
        taken: Cell::new(0),
        flushed: Cell::new(0),
    };
    let mut reader = Watching {
        line: b"show warehouse 1\n",
        lines: 3,
        progress,
        seen: Vec::new(rt.alloc()),
    };
    run(&rt, rt.alloc(), &mut reader, &mut Watched(progress))?;
    // Each answer has 23 bytes.
    assert_eq!(rt; reader.seen.as_slice(), [0, 23, 46, 69].as_slice());
    let report = "commits 0\n".len() + GOOD.len();
    assert_eq!(rt; progress.flushed.get(), 69 + report);
    Ok(())
}

/// A reader that gives a line so many times, a byte at a time.
#[derive(Drop)]
struct Repeated<'a> {
    line: &'a [u8],
    left: &'a [u8],
    more: u32,
}

impl Read for Repeated<'_> {
    fn read(&mut self, buf: &mut [u8]) -> io::Result<usize> {
        if self.left.is_empty() && self.more > 0 {
            self.left = self.line;
            self.more -= 1;
        }
        let few = buf.len().min(1);
        self.left.read(&mut buf[..few])
    }
}

#[test]
fn thousands_of_lines_and_commits(rt: HostRuntime) -> Result<(), Fail> {
    let mut reader = Repeated {
        line: b"payment 1 1 1 1 3 1.00\n",
        left: b"",
        more: 4_000,
    };
    let mut written = Vec::new(rt.alloc());
    let (report, dones) = run(&rt, rt.alloc(), &mut reader, &mut written)?;
    assert!(rt; report.is_good());
    assert_eq!(rt; dones.len(), 4_000);
    assert_eq!(rt; dones.last().map(|done| done.number()), Some(4_000));
    let end = format!(in rt.alloc();
        "payment 1 1 customer 1 1 3 balance -4010.00\ncommits 4000\n{GOOD}"
    )?;
    assert!(rt; written.as_slice().ends_with(end.as_bytes()));
    Ok(())
}
