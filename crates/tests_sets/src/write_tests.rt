//! What a write set holds, and what a list of it has.
ghost use Rattle.std.specs.Prelude.{◌≡◌, ◌<◌, ◌≤◌, length};
ghost use Rattle.readset.specs.Writes.{AreWrittenOfKind};

use crate::stage::{NARROW, open};
use cells::Cells;
use customer_data::DataWords;
use money::{Cents, Payload, Refusal};
use readset::{WriteList, WriteSet};
use std::alloc::Global;
use std::mem::size_of;
use std::test::Fail;
use tables::History;
use tables::limits::{MAX_READS, MAX_WRITES};

/// A HISTORY row of the customer's.
fn history_row() -> History {
    History {
        customer: 3,
        customer_district: 1,
        customer_warehouse: 1,
        district: 1,
        warehouse: 1,
        date: 1,
        amount: Cents::new(1_234),
    }
}

/// Says what a narrow record is to hold.
fn put(
    cells: &Cells,
    writes: &mut WriteSet,
    number: u32,
    value: Option<Payload>,
) -> Result<(), Refusal>
    requires kinds { AreWrittenOfKind cells.now writes.old }
    requires narrow { number < length cells.now.narrow }
    ensures { AreWrittenOfKind cells.now writes.new }
{
    let _ = cells;
    writes.put(number, value)
}

/// Says what a wide one is to hold.
fn put_wide(
    cells: &Cells,
    writes: &mut WriteSet,
    number: u32,
    words: &DataWords,
) -> Result<(), Refusal>
    requires kinds { AreWrittenOfKind cells.now writes.old }
    requires wide { length cells.now.narrow ≤ number }
    ensures { AreWrittenOfKind cells.now writes.new }
{
    let _ = cells;
    writes.put_wide(number, words)
}

/// Says what four records are to hold, the later ones first, and two of them once more at the end.
fn put_all(cells: &Cells, writes: &mut WriteSet) -> Result<(), Refusal>
    requires count { length cells.now.narrow ≡ 2 }
    requires kinds { AreWrittenOfKind cells.now writes.old }
{
    put_wide(cells, writes, 3, &[7; 63])?;
    put(cells, writes, 1, Some(NARROW))?;
    put_wide(cells, writes, 2, &[8; 63])?;
    put(cells, writes, 0, Some(NARROW))?;
    put_wide(cells, writes, 3, &[9; 63])?;
    put(cells, writes, 1, None)
}

/// What was seen of writes, how many there are, what record 1 is to hold, and the HISTORY row; and of a list of them
/// its row, how many narrow records it has and how many wide ones, and the first and the last of either.
#[derive(Clone, Copy, Debug, PartialEq, Eq)]
struct Listed {
    written: (usize, Option<Option<Payload>>, Option<History>),
    row: Option<History>,
    counts: (usize, usize),
    narrow: (
        Option<(u32, Option<Payload>)>,
        Option<(u32, Option<Payload>)>,
    ),
    wide: (Option<(u32, DataWords)>, Option<(u32, DataWords)>),
}

fn list_of(writes: WriteSet) -> Result<Listed, Refusal> {
    let written = (writes.len(), writes.value(1), writes.history_row());
    let list = writes.into_list()?;
    let (narrow, wide) = list.parts();
    Ok(Listed {
        written,
        row: list.history_row(),
        counts: (narrow.len(), wide.len()),
        narrow: (narrow.first().copied(), narrow.last().copied()),
        wide: (wide.first().copied(), wide.last().copied()),
    })
}

fn list_of_all(alloc: Global, cells: &Cells, row: Option<History>) -> Result<Listed, Refusal>
    requires { length cells.now.narrow ≡ 2 }
{
    let mut writes = WriteSet::new(alloc);
    put_all(cells, &mut writes)?;
    if let Some(row) = row {
        writes.put_history_row(row);
    }
    list_of(writes)
}

/// What is to be seen, with the HISTORY row of the writes and that of their list.
fn wanted(put: Option<History>, listed: Option<History>) -> Listed {
    Listed {
        written: (4, Some(None), put),
        row: listed,
        counts: (2, 2),
        narrow: (Some((0, Some(NARROW))), Some((1, None))),
        wide: (Some((2, [8; 63])), Some((3, [9; 63]))),
    }
}

#[test]
fn a_list_has_the_last_values_in_order(rt: HostRuntime) -> Result<(), Fail> {
    let stage = open(&rt, rt.alloc())?;
    assert_eq!(rt;
        list_of_all(rt.alloc(), &stage.cells, None)?,
        wanted(None, None)
    );
    Ok(())
}

#[test]
fn a_list_has_the_row_beside_them(rt: HostRuntime) -> Result<(), Fail> {
    let stage = open(&rt, rt.alloc())?;
    let listed = list_of_all(rt.alloc(), &stage.cells, Some(history_row()))?;
    let row = Some(history_row());
    assert_eq!(rt; listed, wanted(row, Some(history_row())));
    Ok(())
}

fn list_of_one(alloc: Global, cells: &Cells) -> Result<Listed, Refusal>
    requires { length cells.now.narrow ≡ 2 }
{
    let mut writes = WriteSet::new(alloc);
    put(cells, &mut writes, 1, Some(NARROW))?;
    writes.put_history_row(history_row());
    list_of(writes)
}

#[test]
fn a_list_of_narrow_records_has_the_row(rt: HostRuntime) -> Result<(), Fail> {
    let stage = open(&rt, rt.alloc())?;
    let put = Some(history_row());
    let listed = Some(history_row());
    let expected = Listed {
        written: (1, Some(Some(NARROW)), put),
        row: listed,
        counts: (1, 0),
        narrow: (Some((1, Some(NARROW))), Some((1, Some(NARROW)))),
        wide: (None, None),
    };
    assert_eq!(rt; list_of_one(rt.alloc(), &stage.cells)?, expected);
    Ok(())
}

/// A history has many lists, and nearly all are of narrow records alone.
#[test]
fn wide_records_make_no_list_longer(rt: HostRuntime) {
    let without = size_of::<(Vec<(u32, Option<Payload>)>, Option<History>)>();
    assert_eq!(rt; size_of::<WriteList>(), without);
}

/// Proofs and code have these from one place, so a proof sees no other number there.
#[test]
fn how_much_one_transaction_reads_and_writes(rt: HostRuntime) {
    assert_eq!(rt; [MAX_READS, MAX_WRITES], [1_024, 200]);
}
