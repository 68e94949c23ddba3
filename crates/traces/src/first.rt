//! The checker, of first lives.
ghost use Rattle.std.specs.Prelude.{◌≡◌, ◌<◌, ◌≤◌, ◌++◌, ◌∷◌, [], length, IfOk, IfSome, IsTrue};
ghost use Rattle.log_header.specs.Header.{header_text};
ghost use Rattle.recover_crashes.specs.World.{Life};
ghost use Rattle.tables.specs.declared.limits.TheConstants.{MAX_LOGGERS};
ghost use Rattle.traces.specs.First.{AreOfFirstLife, IsMade};
ghost use Rattle.traces.specs.Told.{IsTraceOf};

use crate::accepting::accepts;
use crate::calls::{is_sync, is_write_of};
use crate::step::{Start, Step};
use crate::text::CLOSED;
use crate::trace::Trace;
use log_codec::put_u8;
use log_header::{Header, put_header};
use money::Refusal;
use std::alloc::{AllocError, Global};
use tables::limits::MAX_LOGGERS;

// How many calls make a log file.
const MAKING: usize = 2;

/// Whether these steps are those of a first life, over a population with this seed, on log files that the first two
/// calls of each disk have made, and may be taken one after another, as `accepts` tells.
///
/// # Errors
///
/// As `accepts`.
pub fn accepts_first_life(
    alloc: Global,
    seed: u64,
    trace: &Trace<'_>,
    steps: &[Step],
) -> Result<bool, Refusal>
    ensures { IfOk result (λ accepted. (life : Life) → IsTraceOf life trace.now → life.plan.base ≡ 0
        → life.past ≡ 0 → life.seed ≡ seed → IsTrue accepted → AreOfFirstLife life trace.now steps.now) }
{
    let loggers = trace.loggers();
    if loggers == 0 || usize::from(MAX_LOGGERS) < loggers {
        return Ok(false);
    }
    let mut starts = Vec::new(alloc);
    for logger in 0..loggers as u16 {
        let Some(start) = made(alloc, trace, seed, loggers as u16, logger)? else {
            return Ok(false);
        };
        starts.push(start)?;
    }
    accepts(alloc, 0, &starts, trace, steps)
}

/// Where a logger's log file stands that the first two calls of its disk have made, if they have.
fn made(
    alloc: Global,
    trace: &Trace<'_>,
    seed: u64,
    loggers: u16,
    logger: u16,
) -> Result<Option<Start>, AllocError>
    requires loggers { (1 ≤ loggers) × (loggers ≤ MAX_LOGGERS) }
    requires all { length trace.now.disks ≡ loggers }
    requires logger { logger < loggers }
    ensures { IfOk result (λ start. IfSome start (IsMade trace.now seed logger)) }
{
    let header = Header::new(trace.scale(), seed, logger, loggers);
    let text = first_text(alloc, &header)?;
    let Some(first) = trace.call(usize::from(logger), 0) else {
        return Ok(None);
    };
    let Some(second) = trace.call(usize::from(logger), 1) else {
        return Ok(None);
    };
    if !is_write_of(first, 0, &text) || !is_sync(second) {
        return Ok(None);
    }
    Ok(Some(Start {
        calls: MAKING,
        end: text.len() as u64 - 1,
    }))
}

/// The text of a new log file: its header, and a closed gate.
fn first_text(alloc: Global, header: &Header) -> Result<Vec<u8>, AllocError>
    ensures { IfOk result (λ text. text.items ≡ header_text header.now ++ CLOSED ∷ []) }
{
    let mut text = Vec::new(alloc);
    put_header(&mut text, header)?;
    put_u8(&mut text, CLOSED)?;
    Ok(text)
}
