//! Bodies whose bytes are known, there and back, and bodies that may not stand in a file.
ghost use Rattle.std.specs.Prelude.{◌<◌, ◌^◌, length, IfOk};
ghost use Rattle.log_text.specs.Bodies.{HasFewWrites};

use log_header::Header;
use log_text::{Body, Last, LoggedEntry, Value, Write, put_body, read_body};
use money::Refusal;
use std::alloc::{AllocError, Global};
use std::test::Fail;
use tables::{Scale, Table};
use tests_log_vectors::{NOTHING, PAYMENT};

/// A write of columns, or of nothing.
#[derive(Clone, Copy, Debug, PartialEq, Eq)]
struct Row {
    table: Table,
    place: u32,
    words: Option<[u64; 7]>,
}

const WAREHOUSE: Row = Row {
    table: Table::Warehouse,
    place: 0,
    words: Some([21_234, 0, 0, 0, 0, 0, 0]),
};

const DISTRICT: Row = Row {
    table: Table::District,
    place: 0,
    words: Some([11_234, 11, 0, 0, 0, 0, 0]),
};

const CUSTOMER: Row = Row {
    table: Table::Customer,
    place: 2,
    words: Some([u64::MAX - 2_233, 2_234, 2, 0, 0, 0, 0]),
};

const HISTORY: Row = Row {
    table: Table::History,
    place: 0,
    words: Some([3, 1, 1, 1, 1, 1, 1_234]),
};

/// What stands in front of an entry's writes, and the mark of the body that has it alone.
#[derive(Clone, Copy, Debug, PartialEq, Eq)]
struct Front {
    mark: u64,
    number: u64,
    tid: u64,
    terminal: u16,
}

/// Commit 1 of terminal 0 in epoch 1.
const FRONT: Front = Front {
    mark: 1,
    number: 1,
    tid: 1 << 32,
    terminal: 0,
};

/// Behind that commit.
const BEHIND: Last = Last { mark: 1, epoch: 1 };

fn present(table: Table, place: u32, words: [u64; 7]) -> Row {
    Row {
        table,
        place,
        words: Some(words),
    }
}

fn header() -> Result<Header, Refusal> {
    Ok(Header::new(Scale::new(1, 2, 10, 20, 30, 1_000)?, 0, 0, 1))
}

/// A row as a write, and a write as a row, where it is none of a text.
fn write_of(row: Row) -> Write {
    let value = match row.words {
        Some(words) => Value::Columns(words),
        None => Value::Absent,
    };
    Write {
        table: row.table,
        place: row.place,
        value,
    }
}

fn row_of(write: &Write) -> Option<Row> {
    let words = match &write.value {
        Value::Absent => None,
        Value::Columns(words) => Some(*words),
        Value::Text(_) => return None,
    };
    Some(Row {
        table: write.table,
        place: write.place,
        words,
    })
}

fn entry(alloc: Global, front: Front, rows: &[Row]) -> Result<LoggedEntry, AllocError>
    ensures { IfOk result (λ e. length e.writes.items < 2 ^ 16) }
{
    let mut own = Vec::new(alloc);
    for row in rows {
        own.push(write_of(*row))?;
    }
    if own.len() >= 65_536 {
        return Err(AllocError);
    }
    Ok(LoggedEntry {
        number: front.number,
        tid: front.tid,
        terminal: front.terminal,
        writes: own,
    })
}

fn body(alloc: Global, front: Front, writes: &[Row]) -> Result<Body, AllocError>
    ensures { IfOk result HasFewWrites }
{
    let entry = entry(alloc, front, writes)?;
    let mut entries = Vec::new(alloc);
    entries.push(entry)?;
    Ok(Body::Entries(front.mark, entries))
}

/// The text of a body with one entry.
fn text(alloc: Global, front: Front, writes: &[Row]) -> Result<Vec<u8>, AllocError> {
    let body = body(alloc, front, writes)?;
    let mut out = Vec::new(alloc);
    put_body(&mut out, &body)?;
    Ok(out)
}

/// Where a file stands behind the body that the bytes are, or None where they may not follow there.
fn stands(alloc: Global, last: Last, bytes: &[u8]) -> Result<Option<Last>, Refusal> {
    let header = header()?;
    match read_body(alloc, &header, last, bytes) {
        Ok((_, now, [])) => Ok(Some(now)),
        Ok(_) | Err(Refusal::Damaged) => Ok(None),
        Err(refusal) => Err(refusal),
    }
}

/// The same of a body with one entry.
fn follows(
    alloc: Global,
    last: Last,
    front: Front,
    writes: &[Row],
) -> Result<Option<Last>, Refusal> {
    let text = text(alloc, front, writes)?;
    stands(alloc, last, &text)
}

#[test]
fn a_body_without_entries_has_its_bytes(rt: HostRuntime) -> Result<(), Fail> {
    let now = stands(rt.alloc(), Last::start(), &NOTHING)?;
    let marked = Last {
        mark: 1,
        ..Last::start()
    };
    assert!(rt; now == Some(marked));
    Ok(())
}

#[test]
fn a_payment_has_its_bytes(rt: HostRuntime) -> Result<(), Fail> {
    let text = text(rt.alloc(), FRONT, &[WAREHOUSE, DISTRICT, CUSTOMER, HISTORY])?;
    assert!(rt; text.as_slice() == PAYMENT.as_slice());
    let now = stands(rt.alloc(), Last::start(), &text)?;
    assert!(rt; now == Some(BEHIND));
    Ok(())
}

/// What stands in front of the writes of the body's one entry, and the row of the write at this place among them.
fn read_row(alloc: Global, place: usize) -> Result<Option<(Front, Option<Row>)>, Refusal> {
    let header = header()?;
    let (body, _, []) = read_body(alloc, &header, Last::start(), &PAYMENT)? else {
        return Ok(None);
    };
    let Body::Entries(mark, entries) = &body else {
        return Ok(None);
    };
    let [entry] = entries.as_slice() else {
        return Ok(None);
    };
    let front = Front {
        mark: *mark,
        number: entry.number,
        tid: entry.tid,
        terminal: entry.terminal,
    };
    Ok(Some((front, entry.writes.get(place).and_then(row_of))))
}

#[test]
fn a_body_is_read_as_it_was_written(rt: HostRuntime) -> Result<(), Fail> {
    let rows = [
        Some(WAREHOUSE),
        Some(DISTRICT),
        Some(CUSTOMER),
        Some(HISTORY),
        None,
    ];
    for place in 0..5 {
        let read = read_row(rt.alloc(), place)?;
        assert!(rt; read == Some((FRONT, rows[place])));
    }
    Ok(())
}

#[test]
fn each_beginning_of_a_body_is_none(rt: HostRuntime) -> Result<(), Fail> {
    for length in 0..PAYMENT.len() {
        let now = stands(rt.alloc(), Last::start(), &PAYMENT[..length])?;
        assert!(rt; now.is_none());
    }
    Ok(())
}

#[test]
fn lengths_that_do_not_fit_are_refused(rt: HostRuntime) -> Result<(), Fail> {
    for length in [0, 8, 10, 0xa4, 0xa6, u64::MAX - 1, u64::MAX] {
        let mut bytes = PAYMENT;
        bytes[..8].copy_from_slice(&length.to_le_bytes());
        let now = stands(rt.alloc(), Last::start(), &bytes)?;
        assert!(rt; now.is_none());
    }
    Ok(())
}

#[test]
fn fronts_that_break_a_rule_are_refused(rt: HostRuntime) -> Result<(), Fail> {
    let fronts = [
        // commit 0, and one past the commit cap
        Front { number: 0, ..FRONT },
        Front {
            number: 1_001,
            ..FRONT
        },
        // a status bit, epoch 0, and an epoch two above the mark
        Front {
            tid: (1 << 32) + 2,
            ..FRONT
        },
        Front { tid: 8, ..FRONT },
        Front {
            tid: 3 << 32,
            ..FRONT
        },
        // no terminal, and a mark that is none
        Front {
            terminal: 16,
            ..FRONT
        },
        Front {
            mark: 4_294_967_295,
            ..FRONT
        },
    ];
    for front in fronts {
        let now = follows(rt.alloc(), Last::start(), front, &[WAREHOUSE])?;
        assert!(rt; now.is_none());
    }
    let now = follows(rt.alloc(), Last::start(), FRONT, &[WAREHOUSE])?;
    assert!(rt; now == Some(BEHIND));
    Ok(())
}

/// A row of HISTORY and so many of ORDER-LINE.
fn lines_behind_history(alloc: Global, lines: u32) -> Result<Vec<Row>, AllocError> {
    let mut writes = Vec::new(alloc);
    writes.push(HISTORY)?;
    for place in 0..lines {
        writes.push(present(Table::OrderLine, place, [1, 1, 0, 5, 500, 0, 0]))?;
    }
    Ok(writes)
}

#[test]
fn an_entry_has_200_writes_beside_history_at_most(rt: HostRuntime) -> Result<(), Fail> {
    for (lines, behind) in [(200, Some(BEHIND)), (201, None)] {
        let writes = lines_behind_history(rt.alloc(), lines)?;
        assert!(rt; follows(rt.alloc(), Last::start(), FRONT, &writes)? == behind);
    }
    Ok(())
}

#[test]
fn the_last_mark_and_the_last_epoch_behind_it(rt: HostRuntime) -> Result<(), Fail> {
    let last = Front {
        mark: 4_294_967_294,
        tid: 4_294_967_295 << 32,
        ..FRONT
    };
    let behind = Last {
        mark: 4_294_967_294,
        epoch: 4_294_967_295,
    };
    let now = follows(rt.alloc(), Last::start(), last, &[WAREHOUSE])?;
    assert!(rt; now == Some(behind));
    Ok(())
}

#[test]
fn bodies_that_go_back_are_refused(rt: HostRuntime) -> Result<(), Fail> {
    let next = Front {
        mark: 2,
        number: 2,
        tid: 2 << 32,
        terminal: 1,
    };
    let later = Last { mark: 2, epoch: 2 };
    let now = follows(rt.alloc(), BEHIND, next, &[WAREHOUSE])?;
    assert!(rt; now == Some(later));
    // an epoch that the mark before has, and a mark below the one before
    for front in [
        Front {
            tid: 1 << 32,
            ..next
        },
        Front {
            mark: 0,
            tid: 1 << 32,
            ..next
        },
    ] {
        let now = follows(rt.alloc(), BEHIND, front, &[WAREHOUSE])?;
        assert!(rt; now.is_none());
    }
    // an epoch before the last entry's
    let last = Last { mark: 1, epoch: 3 };
    let now = follows(rt.alloc(), last, next, &[WAREHOUSE])?;
    assert!(rt; now.is_none());
    Ok(())
}

/// The text of a body of mark 1 with two entries of these commit numbers.
fn two_entries(alloc: Global, first: u64, second: u64) -> Result<Vec<u8>, AllocError> {
    let mut out = Vec::new(alloc);
    out.extend_from_slice(&PAYMENT)?;
    out.extend_from_slice(&PAYMENT[16..])?;
    let bytes = out.as_mut_slice();
    if bytes.len() == 328 {
        bytes[..8].copy_from_slice(&321_u64.to_le_bytes());
        bytes[16..24].copy_from_slice(&first.to_le_bytes());
        bytes[172..180].copy_from_slice(&second.to_le_bytes());
    }
    Ok(out)
}

#[test]
fn numbers_begin_anew_in_each_body(rt: HostRuntime) -> Result<(), Fail> {
    let next = Front {
        mark: 2,
        number: 1,
        tid: 2 << 32,
        terminal: 1,
    };
    let now = follows(rt.alloc(), BEHIND, next, &[WAREHOUSE])?;
    assert!(rt; now == Some(Last { mark: 2, epoch: 2 }));
    Ok(())
}

#[test]
fn numbers_rise_inside_a_body(rt: HostRuntime) -> Result<(), Fail> {
    for (first, second, behind) in [
        (1, 2, Some(BEHIND)),
        (7, 9, Some(BEHIND)),
        (1, 1, None),
        (2, 1, None),
    ] {
        let text = two_entries(rt.alloc(), first, second)?;
        assert!(rt; stands(rt.alloc(), Last::start(), &text)? == behind);
    }
    Ok(())
}

#[test]
fn writes_that_break_a_rule_are_refused(rt: HostRuntime) -> Result<(), Fail> {
    let stock = present(Table::Stock, 0, [9, 0, 0, 0, 0, 0, 0]);
    let absent = Row {
        table: Table::Order,
        place: 0,
        words: None,
    };
    let pairs = [
        // the same write twice, and in the other order
        [WAREHOUSE, WAREHOUSE],
        [DISTRICT, WAREHOUSE],
        // S_QUANTITY 9, an ORDER row taken out, ITEM, C_DATA, and HISTORY at place 1
        [WAREHOUSE, stock],
        [WAREHOUSE, absent],
        [WAREHOUSE, present(Table::Item, 0, [0; 7])],
        [WAREHOUSE, present(Table::CustomerData, 0, [0; 7])],
        [
            WAREHOUSE,
            Row {
                place: 1,
                ..HISTORY
            },
        ],
        // a warehouse that isn't there
        [
            WAREHOUSE,
            Row {
                place: 1,
                ..WAREHOUSE
            },
        ],
    ];
    for pair in pairs {
        let now = follows(rt.alloc(), Last::start(), FRONT, &pair)?;
        assert!(rt; now.is_none());
    }
    Ok(())
}
