//! The text that one append writes.
ghost use Rattle.std.specs.Prelude.{◌≡◌, [], ◌++◌, ◌∷◌, length, map, flat_map, slice_range, All, OnOk, IfOk, ◌<◌, ◌≤◌};
ghost use Rattle.std.specs.Arc.{arc_value};
ghost use Rattle.log_text.specs.Bodies.{Entries, body_text};
ghost use Rattle.log_text.specs.Entries.{entry_text};
ghost use Rattle.book.specs.Loggable.{IsLoggable};
ghost use Rattle.book.specs.Streams.{stream};
ghost use Rattle.log_entries.specs.Logged.{logged_entry};
ghost use Rattle.recover_crashes.specs.Events.{text_of};

use book::Entry;
use log_codec::{put_u8, put_u64};
use log_entries::put_entry;
use log_text::set_length;
use std::alloc::{AllocError, Global};
use std::sync::Arc;
use tables::Scale;

// The gate behind the last body.
pub(crate) const CLOSED: u8 = 0;

/// The text of a body with this mark and, of these entries, those of a logger's stream, and of the closed gate behind
/// it. Costs a pass over the entries.
pub(crate) fn text_of_stream(
    alloc: Global,
    scale: &Scale,
    entries: &[Arc<Entry, Global>],
    loggers: usize,
    logger: usize,
    mark: u64,
) -> Result<Vec<u8>, AllocError>
    requires some { 0 < loggers }
    requires loggable { All (IsLoggable scale.now) (map arc_value entries.now) }
    ensures { IfOk result (λ text. text.items ≡ text_of (Entries mark
        (map (logged_entry scale.now) (stream loggers logger (map arc_value entries.now))))) }
{
    let mut out = Vec::new(alloc);
    put_body(&mut out, scale, entries, loggers, logger, mark)?;
    put_u8(&mut out, CLOSED)?;
    Ok(out)
}

/// Appends the body.
fn put_body(
    out: &mut Vec<u8>,
    scale: &Scale,
    entries: &[Arc<Entry, Global>],
    loggers: usize,
    logger: usize,
    mark: u64,
) -> Result<(), AllocError>
    requires some { 0 < loggers }
    requires loggable { All (IsLoggable scale.now) (map arc_value entries.now) }
    ensures { OnOk result (out.new.items ≡ out.old.items ++ body_text (Entries mark
        (map (logged_entry scale.now) (stream loggers logger (map arc_value entries.now))))) }
{
    let start = out.len();
    put_u64(out, 0)?;
    put_u64(out, mark)?;
    put_stream(out, scale, entries, loggers, logger)?;
    set_length(out.as_mut_slice(), start);
    Ok(())
}

/// Appends the entries of a logger's stream.
fn put_stream(
    out: &mut Vec<u8>,
    scale: &Scale,
    entries: &[Arc<Entry, Global>],
    loggers: usize,
    logger: usize,
) -> Result<(), AllocError>
    requires some { 0 < loggers }
    requires loggable { All (IsLoggable scale.now) (map arc_value entries.now) }
    ensures { OnOk result (out.new.items ≡ out.old.items
        ++ flat_map entry_text (map (logged_entry scale.now) (stream loggers logger (map arc_value entries.now)))) }
{
    for entry in entries {
        put_own(out, scale, entry, loggers, logger)?;
    }
    Ok(())
}

/// Appends an entry, if it is of a logger's stream.
fn put_own(
    out: &mut Vec<u8>,
    scale: &Scale,
    entry: &Entry,
    loggers: usize,
    logger: usize,
) -> Result<(), AllocError>
    requires some { 0 < loggers }
    requires loggable { IsLoggable scale.now entry.now }
    ensures { OnOk result (out.new.items ≡ out.old.items
        ++ flat_map entry_text (map (logged_entry scale.now) (stream loggers logger (entry.now ∷ [])))) }
{
    if usize::from(entry.terminal) % loggers != logger {
        return Ok(());
    }
    put_entry(out, scale, entry)
}
