//! One logger of the world, as values.
ghost use Rattle.std.specs.Prelude.{◌≡◌, ◌↔◌, ◌+◌, ◌<◌, ◌^◌, min, None, Some, IfOk, IsTrue};
ghost use Rattle.recover_crashes.specs.Events.{text_of};
ghost use Rattle.traces.specs.Shown.{CallsLane, body_between, lane_at};

use crate::calls::{is_sync, is_write_of};
use crate::step::Start;
use crate::text::text_of_stream;
use crate::trace::Trace;
use log_disk::MemoryCall;
use money::Refusal;
use std::alloc::Global;

/// A gate that is open.
const OPEN: [u8; 1] = [1];

/// How far a logger is with a batch.
#[derive(Clone, Copy, Debug, PartialEq, Eq)]
pub(crate) enum Phase {
    BatchTaken,
    TextWritten,
    TextSynced,
    GateOpened,
}

/// A batch that a logger has taken, and which isn't in its file yet.
#[derive(Clone, Copy, Debug, PartialEq, Eq)]
pub(crate) struct Batched {
    pub phase: Phase,
    pub mark: u64,
    /// How many entries had committed when it was taken.
    pub until: usize,
    /// How long its text is, once that is written.
    pub length: u64,
}

/// A logger.
#[derive(Clone, Copy, Debug, PartialEq, Eq)]
pub(crate) struct Lane {
    /// How many calls its disk has done.
    pub calls: usize,
    /// The place of the gate that ends its file's text.
    pub end: u64,
    /// Its file's mark, and its own.
    pub mark: u64,
    pub local: u64,
    /// How many entries had committed when the last batch in its file was taken.
    pub taken: usize,
    /// How many local marks it has loaded for a publication, and the least of them.
    pub loaded: usize,
    pub least: u64,
    pub batched: Option<Batched>,
}

impl Lane {
    /// The lane of a logger that begins at this mark, with a log file that stands so.
    pub(crate) fn new(base: u64, start: Start) -> Lane
        ensures { result ≡ lane_at base start }
    {
        Lane {
            calls: start.calls,
            end: start.end,
            mark: base,
            local: base,
            taken: 0,
            loaded: 0,
            least: 0,
            batched: None,
        }
    }

    /// Whether nothing is under way.
    pub(crate) fn is_idle(self) -> bool
        ensures { IsTrue result ↔ (self.batched ≡ None) }
    {
        self.batched.is_none()
    }

    /// The least of the marks that it has loaded, with one more.
    pub(crate) fn least_with(self, mark: u64) -> u64
        ensures first { self.loaded ≡ 0 → result ≡ mark }
        ensures later { 0 < self.loaded → result ≡ min mark self.least }
    {
        if self.loaded == 0 {
            mark
        } else {
            mark.min(self.least)
        }
    }

    /// Behind the next call of its disk, if that is the one that may come.
    ///
    /// # Errors
    ///
    /// `OutOfMemory`; `BadInput` where its text would end at 2^64 or beyond.
    pub(crate) fn called(
        self,
        alloc: Global,
        trace: &Trace<'_>,
        logger: usize,
        call: &MemoryCall,
    ) -> Result<Option<Lane>, Refusal>
        requires few { self.calls < 2 ^ 63 }
        ensures { IfOk result (CallsLane trace.now logger self call.now) }
    {
        let Some(batched) = self.batched else {
            return Ok(None);
        };
        match batched.phase {
            Phase::BatchTaken => self.write_text(alloc, trace, logger, call, batched),
            Phase::TextWritten => Ok(self.sync_text(trace, logger, call, batched)),
            Phase::TextSynced => Ok(self.open_gate(trace, logger, call, batched)),
            Phase::GateOpened => self.sync_gate(trace, logger, call, batched),
        }
    }

    /// Its text is written behind the gate that ends its file's.
    fn write_text(
        self,
        alloc: Global,
        trace: &Trace<'_>,
        logger: usize,
        call: &MemoryCall,
        batched: Batched,
    ) -> Result<Option<Lane>, Refusal>
        requires few { self.calls < 2 ^ 63 }
        requires batched { self.batched ≡ Some batched }
        requires phase { batched.phase ≡ Phase.BatchTaken }
        ensures { IfOk result (CallsLane trace.now logger self call.now) }
    {
        let text = text_of_batch(alloc, trace, logger, self.taken, batched)?;
        let Some(at) = self.end.checked_add(1) else {
            return Err(Refusal::BadInput);
        };
        if !is_write_of(call, at, &text) {
            return Ok(None);
        }
        Ok(Some(self.after(Batched {
            phase: Phase::TextWritten,
            length: text.len() as u64,
            ..batched
        })))
    }

    /// It is synced.
    fn sync_text(
        self,
        _trace: &Trace<'_>,
        _logger: usize,
        call: &MemoryCall,
        batched: Batched,
    ) -> Option<Lane>
        requires few { self.calls < 2 ^ 63 }
        requires batched { self.batched ≡ Some batched }
        requires phase { batched.phase ≡ Phase.TextWritten }
        ensures { CallsLane _trace.now _logger self call.now result }
    {
        if !is_sync(call) {
            return None;
        }
        Some(self.after(Batched {
            phase: Phase::TextSynced,
            ..batched
        }))
    }

    /// The gate in front of it is opened.
    fn open_gate(
        self,
        _trace: &Trace<'_>,
        _logger: usize,
        call: &MemoryCall,
        batched: Batched,
    ) -> Option<Lane>
        requires few { self.calls < 2 ^ 63 }
        requires batched { self.batched ≡ Some batched }
        requires phase { batched.phase ≡ Phase.TextSynced }
        ensures { CallsLane _trace.now _logger self call.now result }
    {
        if !is_write_of(call, self.end, &OPEN) {
            return None;
        }
        Some(self.after(Batched {
            phase: Phase::GateOpened,
            ..batched
        }))
    }

    /// That is synced: the file has the batch.
    fn sync_gate(
        self,
        _trace: &Trace<'_>,
        _logger: usize,
        call: &MemoryCall,
        batched: Batched,
    ) -> Result<Option<Lane>, Refusal>
        requires few { self.calls < 2 ^ 63 }
        requires batched { self.batched ≡ Some batched }
        requires phase { batched.phase ≡ Phase.GateOpened }
        ensures { IfOk result (CallsLane _trace.now _logger self call.now) }
    {
        if !is_sync(call) {
            return Ok(None);
        }
        let Some(end) = self.end.checked_add(batched.length) else {
            return Err(Refusal::BadInput);
        };
        Ok(Some(Lane {
            calls: self.calls + 1,
            end,
            mark: batched.mark,
            taken: batched.until,
            batched: None,
            ..self
        }))
    }

    /// Behind one call more, with the batch so.
    fn after(self, batched: Batched) -> Lane
        requires { self.calls < 2 ^ 63 }
        ensures { result ≡ record self { calls = self.calls + 1; batched = Some batched } }
    {
        Lane {
            calls: self.calls + 1,
            batched: Some(batched),
            ..self
        }
    }
}

/// The text of a batch, behind so much of the history that is in the logger's file.
fn text_of_batch(
    alloc: Global,
    trace: &Trace<'_>,
    logger: usize,
    taken: usize,
    batched: Batched,
) -> Result<Vec<u8>, Refusal>
    ensures { IfOk result (λ text. text.items
        ≡ text_of (body_between trace.now logger batched.mark taken batched.until)) }
{
    // Neither happens: there is the logger, and its batches are of what has committed.
    let loggers = trace.loggers();
    if loggers == 0 {
        return Err(Refusal::BadInput);
    }
    let Some(entries) = trace.entries(taken, batched.until) else {
        return Err(Refusal::BadInput);
    };
    let text = text_of_stream(
        alloc,
        &trace.scale(),
        entries,
        loggers,
        logger,
        batched.mark,
    )?;
    Ok(text)
}
