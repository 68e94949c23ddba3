//! Writing a batch as a body of a log file.
ghost use Rattle.std.specs.Prelude.{◌≡◌, [], ◌∷◌, ◌++◌, flat_map, map, IfOk, OnOk};
ghost use Rattle.std.specs.Arc.{arc_value};
ghost use Rattle.std.specs.List.{All};
ghost use Rattle.log_text.specs.Bodies.{body_text};
ghost use Rattle.log_text.specs.Entries.{entry_text};
ghost use Rattle.book.specs.Loggable.{IsLoggable};
ghost use Rattle.book.specs.Streams.{last_number};
ghost use Rattle.log_entries.specs.Logged.{logged_entry};
ghost use Rattle.log_entries.specs.Following.{behind_batch, body_of_batch, last_epoch_of};

use crate::writing::put_entry;
use book::{Batch, Entry};
use log_codec::{put_u8, put_u64};
use log_text::{Last, set_length};
use std::alloc::{AllocError, Global};
use std::sync::Arc;
use tables::Scale;

// The gate behind the last body: what stands behind it doesn't count.
const CLOSED: u8 = 0;

/// Appends a batch as a body, with a closed gate behind it, for a file that stands there (`last`) and to which entries
/// were appended up to a commit number; gives where the file then stands, and up to which number. Costs a pass over the
/// batch, whose text is made once.
///
/// # Errors
///
/// Want of memory: the bytes may then have a part of the body at their end.
pub fn put_batch(
    out: &mut Vec<u8>,
    batch: &Batch,
    last: Last,
    number: u64,
) -> Result<(Last, u64), AllocError>
    ensures text { OnOk result (out.new.items
        ≡ out.old.items ++ (body_text (body_of_batch batch.now) ++ CLOSED ∷ [])) }
    ensures last { IfOk result (λ x. x.0 ≡ behind_batch last batch.now) }
    ensures rises { IfOk result (λ x. x.1 ≡ last_number number batch.now.entries) }
{
    let (now, number) = put_body(out, batch, last, number)?;
    put_u8(out, CLOSED)?;
    Ok((now, number))
}

/// Appends a batch as a body.
fn put_body(
    out: &mut Vec<u8>,
    batch: &Batch,
    last: Last,
    number: u64,
) -> Result<(Last, u64), AllocError>
    ensures text { OnOk result (out.new.items ≡ out.old.items ++ body_text (body_of_batch batch.now)) }
    ensures last { IfOk result (λ x. x.0 ≡ behind_batch last batch.now) }
    ensures rises { IfOk result (λ x. x.1 ≡ last_number number batch.now.entries) }
{
    let start = out.len();
    put_u64(out, 0)?;
    let mark = batch.mark();
    put_u64(out, mark)?;
    let scale = batch.scale();
    let (last, number) = put_entries(out, &scale, batch.entries(), last, number)?;
    set_length(out.as_mut_slice(), start);
    let now = Last {
        mark,
        epoch: last.epoch,
    };
    Ok((now, number))
}

/// Appends the entries of a body; gives where the file stands behind the last, and its commit number.
fn put_entries(
    out: &mut Vec<u8>,
    scale: &Scale,
    entries: &[Arc<Entry, Global>],
    last: Last,
    before: u64,
) -> Result<(Last, u64), AllocError>
    requires { All (IsLoggable scale.now) (map arc_value entries.now) }
    ensures text { OnOk result (out.new.items ≡ out.old.items
        ++ flat_map entry_text (map (logged_entry scale.now) (map arc_value entries.now))) }
    ensures last { IfOk result (λ x. x.0 ≡ record {
      mark = last.mark;
      epoch = last_epoch_of last.epoch (map arc_value entries.now);
    }) }
    ensures rises { IfOk result (λ x. x.1 ≡ last_number before (map arc_value entries.now)) }
{
    let mut now = last;
    let mut number = before;
    for entry in entries {
        put_entry(out, scale, entry)?;
        number = u64::from(entry.number);
        now = Last {
            mark: now.mark,
            epoch: u64::from(entry.tid.epoch()),
        };
    }
    Ok((now, number))
}
