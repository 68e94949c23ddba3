//! A logger at work.
ghost use Rattle.std.specs.Prelude.{◌≡◌, false, IfSome};
ghost use Rattle.std.specs.Option.{ForSome};

use crate::appender::Appender;
use crate::outcome::Written;
use crate::pace::Pace;
use crate::progress::RunProgress;
use board::ClockSeat;
use book::Engine;
use lane_logger::LoggedRun;
use log_disk::Disk;
use logger::Logger;
use std::sync::Wait;

/// A logger, with how it waits between its turns, and the clock, if it has that.
#[derive(Drop)]
pub(crate) struct Writer<K: LoggedRun, D: Disk, P: Pace> {
    pub(crate) appender: Appender<K, D>,
    pub(crate) clock: Option<ClockSeat>,
    pub(crate) pace: P,
    ghost clocked: { ForSome clock (λ seat. seat.board ≡ K.run.board) },
}

impl<K: LoggedRun, D: Disk, P: Pace + Drop> Writer<K, D, P> {
    ghost use Rattle.std.specs.Prelude.{◌≡◌, false, IfSome};
    ghost use Rattle.lane_logger.specs.Found.{IsFoundIn};

    /// A logger that has taken nothing yet.
    pub(crate) fn new(
        engine: &Engine<K>,
        logger: Logger<D>,
        pace: P,
        clock: Option<ClockSeat>,
    ) -> Writer<K, D, P>
        requires logger { IsFoundIn K.run.board K.found D.is_modelled D.seen D.story logger }
        requires clock { IfSome clock (λ seat. seat.board ≡ K.run.board) }
        ensures logger { result.appender.logger.logger ≡ logger }
        ensures clock { result.clock ≡ clock }
    {
        Writer {
            appender: Appender::new(engine, logger),
            clock,
            pace,
        }
    }

    /// Takes turns until the terminals have ended.
    pub(crate) fn serve<R: Wait>(&mut self, rt: &R, engine: &Engine<K>, progress: &RunProgress) {
        for _ in rt.forever() {
            if progress.has_ended() {
                break;
            }
            let signals = self.turn(rt, engine, progress);
            self.pace.pause(progress, signals);
        }
    }

    /// One turn: the clock's advances E first, so that the mark of the take is the epoch before. Answers how many
    /// signals there were before the take: an advance that comes later, and that the take may have missed, is one
    /// more.
    fn turn<R: Wait>(&mut self, rt: &R, engine: &Engine<K>, progress: &RunProgress) -> u64
        ensures { self.new.appender.has_stopped ≡ false → self.new.appender.logger.logger.file.failed ≡ false }
    {
        self.advance(engine, progress);
        let signals = progress.signals();
        self.appender.turn(rt, engine, progress);
        signals
    }

    /// Advances E, if this logger has the clock. In the last epoch E stays.
    fn advance(&mut self, engine: &Engine<K>, progress: &RunProgress) {
        if let Some(clock) = &mut self.clock {
            if let Ok(epoch) = engine.board().advance(clock) {
                progress.note_epoch(epoch);
            }
        }
    }

    /// Takes the last turn of the run.
    pub(crate) fn last_turn<R: Wait>(
        self,
        rt: &R,
        engine: &Engine<K>,
        progress: &RunProgress,
    ) -> Turned<K, D, P> {
        let mut writer = self;
        writer.turn(rt, engine, progress);
        let Writer {
            appender,
            clock: _,
            pace,
        } = writer;
        Turned { appender, pace }
    }
}

/// A logger that has taken its last turn of a run.
#[derive(Drop)]
pub(crate) struct Turned<K: LoggedRun, D: Disk, P: Pace> {
    appender: Appender<K, D>,
    pace: P,
    ghost told: { appender.has_stopped ≡ false → appender.logger.logger.file.failed ≡ false },
}

impl<K: LoggedRun, D: Disk, P: Pace + Drop> Turned<K, D, P> {
    /// Whether it had no memory for what it was to append.
    pub(crate) fn waits(&self) -> bool {
        self.appender.waits()
    }

    /// What waits, for want of memory, is tried once more, and then what was committed since: memory may have been
    /// given back.
    pub(crate) fn retry<R: Wait>(&mut self, rt: &R, engine: &Engine<K>, progress: &RunProgress) {
        if self.waits() {
            self.appender.turn(rt, engine, progress);
        }
    }

    /// Ends the logger. Its pace ends once the terminals have acknowledged what is durable then.
    pub(crate) fn end(self) -> (Written<D>, P) {
        let Turned { appender, pace } = self;
        (appender.end(), pace)
    }
}
