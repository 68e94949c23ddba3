//! A logger's file, and what waits to be appended to it.

use crate::outcome::Written;
use crate::progress::RunProgress;
use book::{Engine, Taken};
use lane_logger::{LaneLogger, LoggedRun};
use log_disk::Disk;
use logger::Logger;
use money::Refusal;
use std::marker::Model;
use std::sync::Wait;

/// A logger, with the batch that it couldn't append for want of memory, and whether it has stopped for good. That its
/// file is a lane of its stream is the logger's own to keep.
#[derive(Drop)]
pub(crate) struct Appender<K: LoggedRun, D: Disk> {
    logger: LaneLogger<K, D>,
    number: u16,
    waiting: Option<Taken<K>>,
    has_stopped: bool,
}

impl<K: LoggedRun, D: Disk> Model for Appender<K, D> {
    ghost use Rattle.std.specs.Prelude.{◌≡◌, ◌<◌, true, None};
    ghost use Rattle.run_threads.specs.Appending.{AppenderView};

    ghost Value = { AppenderView D };

    ghost view = { λ a. record { logger = a.logger; waiting = a.waiting; has_stopped = a.has_stopped } };

    ghost invariant = { λ a. (a.number < K.run.board.plan.loggers) × (a.has_stopped ≡ true → a.waiting ≡ None) };
}

impl<K: LoggedRun, D: Disk> Appender<K, D> {
    ghost use Rattle.std.specs.Prelude.{◌≡◌, ◌↔◌, false, IsSome, IsTrue};
    ghost use Rattle.lane_logger.specs.Found.{IsFoundIn};
    ghost use Rattle.run_threads.specs.Appending.{ComesOf, IsAppenderIdle, Retries, Turns};

    /// A logger that has taken nothing yet.
    pub(crate) fn new(engine: &Engine<K>, logger: Logger<D>) -> Appender<K, D>
        requires { IsFoundIn K.run.board K.found D.is_modelled D.seen D.story logger }
        ensures logger { result.logger.logger ≡ logger }
        ensures idle { IsAppenderIdle result }
    {
        let number = logger.file().header().logger;
        Appender {
            logger: LaneLogger::new(engine, logger),
            number,
            waiting: None,
            has_stopped: false,
        }
    }

    /// What waits is tried again; and then, if nothing waits and the logger hasn't stopped, what it takes of the book
    /// is appended, outside the book's lock.
    pub(crate) fn turn<R: Wait>(&mut self, rt: &R, engine: &Engine<K>, progress: &RunProgress)
        ensures { Turns self.old self.new }
    {
        self.retry(engine, progress);
        if self.is_idle() {
            let taken = self.take(rt, engine);
            self.append(engine, taken, progress);
        }
    }

    /// Tries again what waits, if something does.
    fn retry(&mut self, engine: &Engine<K>, progress: &RunProgress)
        ensures { Retries self.old self.new }
    {
        if let Some(taken) = self.waiting.take() {
            self.append(engine, taken, progress);
        }
    }

    /// Whether it may take.
    fn is_idle(&self) -> bool
        ensures { IsTrue result ↔ IsAppenderIdle self.now }
    {
        self.waiting.is_none() && !self.has_stopped
    }

    /// What the logger is to write of the book.
    fn take<R: Wait>(&self, rt: &R, engine: &Engine<K>) -> Taken<K>
        requires { IsAppenderIdle self.now }
    {
        engine.lock(rt).taken(engine.board(), self.number)
    }

    /// Appends a batch: for want of memory it waits for the next turn, and when the device fails the logger stops for
    /// good. A batch that doesn't begin where the file ends is none of this file's, and stops it too.
    fn append(&mut self, engine: &Engine<K>, taken: Taken<K>, progress: &RunProgress)
        requires { IsAppenderIdle self.old }
        ensures { ComesOf taken self.old self.new }
    {
        if !self.logger.may_append(&taken) {
            self.has_stopped = true;
            return;
        }
        let mut taken = taken;
        match self.logger.turn(engine, &mut taken) {
            Ok(durable) => progress.note_durable(durable),
            Err(Refusal::OutOfMemory) => self.waiting = Some(taken),
            Err(_) => self.has_stopped = true,
        }
    }

    /// Whether a batch waits, for which there was no memory.
    pub(crate) fn waits(&self) -> bool
        ensures { IsTrue result ↔ IsSome self.now.waiting }
    {
        self.waiting.is_some()
    }

    /// The logger, whether it has stopped, and whether a batch waits.
    pub(crate) fn end(self) -> Written<D>
        requires { self.has_stopped ≡ false → self.logger.logger.file.failed ≡ false }
        ensures logger { result.logger ≡ self.logger.logger }
        ensures has_stopped { result.has_stopped ≡ self.has_stopped }
        ensures lacks_memory { IsTrue result.lacks_memory ↔ IsSome self.waiting }
    {
        let lacks_memory = self.waits();
        let Appender {
            logger,
            number: _,
            waiting: _,
            has_stopped,
        } = self;
        let (logger, _) = logger.end();
        Written {
            logger,
            has_stopped,
            lacks_memory,
        }
    }
}
