//! Which entries and bodies may follow one another in a file.
ghost use Rattle.std.specs.Prelude.{◌≡◌, ◌≤◌, map};
ghost use Rattle.log_text.specs.Entries.{logged};
ghost use Rattle.log_text.specs.Bodies.{Entries, behind, body_after, body_of, entries_after};
ghost use Rattle.log_text.specs.Bodies.{is_asked, is_entry, is_next, is_timed};
ghost use Rattle.tables.specs.declared.limits.TheConstants.{MAX_MARK};

use crate::body::Body;
use crate::entry::LoggedEntry;
use crate::last::Last;
use crate::write_rules::{are_of_version, are_writes};
use log_header::Header;
use tables::limits::{MAX_MARK, MAX_TERMINALS};

fn is_next(header: &Header, last: u64, number: u64) -> bool
    ensures { result ≡ is_next header.now last number }
{
    last < number && number <= u64::from(header.scale.commits())
}

fn is_timed(mark: u64, last: Last, tid: u64) -> bool
    requires { mark ≤ MAX_MARK }
    ensures { result ≡ is_timed mark last tid }
{
    let epoch = tid >> 32;
    tid % 8 == 0 && last.epoch <= epoch && last.mark < epoch && epoch <= mark + 1
}

fn is_asked(header: &Header, terminal: u16) -> bool
    ensures { result ≡ is_asked header.now terminal }
{
    terminal < MAX_TERMINALS && terminal % header.loggers == header.logger
}

fn is_entry(header: &Header, mark: u64, number: u64, last: Last, entry: &LoggedEntry) -> bool
    requires mark { mark ≤ MAX_MARK }
    ensures { result ≡ is_entry header.now mark number last (logged entry.now) }
{
    is_next(header, number, entry.number)
        && is_timed(mark, last, entry.tid)
        && is_asked(header, entry.terminal)
        && are_writes(&header.scale, &entry.writes)
        && are_of_version(header.version, &entry.writes)
}

fn behind(last: Last, entry: &LoggedEntry) -> Last
    ensures { result ≡ behind last (logged entry.now) }
{
    Last {
        epoch: entry.tid >> 32,
        ..last
    }
}

/// Where the file stands behind the entries of a body, or None where they may not stand in it.
fn entries_after(header: &Header, mark: u64, last: Last, entries: &[LoggedEntry]) -> Option<Last>
    requires mark { mark ≤ MAX_MARK }
    ensures { result ≡ entries_after header.now mark 0 last (map logged entries.now) }
{
    let mut now = last;
    let mut number = 0;
    for entry in entries {
        if !is_entry(header, mark, number, now, entry) {
            return None;
        }
        number = entry.number;
        now = behind(now, entry);
    }
    Some(now)
}

/// Where the file stands behind a body with entries, or None where it may not follow.
fn entries_body_after(
    header: &Header,
    last: Last,
    mark: u64,
    entries: &[LoggedEntry],
) -> Option<Last>
    ensures { result ≡ body_after header.now last (Entries mark (map logged entries.now)) }
{
    if mark < last.mark || mark > MAX_MARK {
        return None;
    }
    let now = entries_after(header, mark, last, entries)?;
    Some(Last { mark, ..now })
}

/// Where the file stands behind this body, or None where it may not follow.
pub(crate) fn body_after(header: &Header, last: Last, body: &Body) -> Option<Last>
    ensures { result ≡ body_after header.now last (body_of body.now) }
{
    match body {
        Body::Entries(mark, entries) => entries_body_after(header, last, *mark, entries),
        Body::Void(low, high) => {
            if !last.may_be_void(*low, *high) {
                return None;
            }
            Some(Last {
                mark: *high,
                ..last
            })
        }
    }
}
