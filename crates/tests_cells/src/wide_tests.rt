//! Reads, stores and meets of wide cells by one thread, behind two narrow ones.
ghost use Rattle.std.specs.Prelude.{◌≡◌, All, length, IfOk};
ghost use Rattle.cells.specs.Records.{at};
ghost use Rattle.cells.specs.Versions.{last_tid};

use cells::{Cells, FirstVersions, FirstWideVersions, Pen, Reader, WideNewest};
use customer_data::DataWords;
use money::Refusal;
use std::alloc::{AllocError, Global};
use std::sync::Wait;
use std::test::Fail;
use tidword::TidWord;

/// What the wide records begin with: records 2 and 3; 4 is absent.
const FIRST: [WideNewest; 3] = [
    WideNewest {
        word: TidWord::POPULATED,
        payload: [2; 63],
    },
    WideNewest {
        word: TidWord::POPULATED,
        payload: [3; 63],
    },
    WideNewest {
        word: TidWord::ABSENT,
        payload: [0; 63],
    },
];

/// What is asked of a wide record.
#[derive(Clone, Copy, Debug, PartialEq, Eq)]
struct Answers {
    first: DataWords,
    is_latest: bool,
    is_latest_then: bool,
    stored: DataWords,
    held: Option<DataWords>,
    beside: Option<DataWords>,
    absent: Option<DataWords>,
    are_present: (bool, bool, bool),
    learnt: (u64, u64),
}

/// These versions, as cells are made of them.
fn versions_of(alloc: Global, list: &[WideNewest]) -> Result<FirstWideVersions, AllocError>
    ensures { IfOk result (λ wide. wide ≡ list.now) }
{
    let mut wide = FirstWideVersions::new(alloc);
    for version in list {
        wide.push(*version)?;
    }
    Ok(wide)
}

/// Two narrow cells and three wide ones, with their pen and a reader.
fn made<R: Wait>(rt: &R, alloc: Global) -> Result<(Cells, Pen, Vec<Reader>), Refusal>
    ensures count { IfOk result (λ p. (length p.0.narrow ≡ 2) × (length p.0.wide ≡ 3)) }
    ensures pen { IfOk result (λ p. p.1.cells ≡ p.0) }
    ensures readers { IfOk result (λ p. All (λ reader. reader.cells ≡ p.0) p.2.items) }
    ensures first { IfOk result (λ p. last_tid (at p.1.all 2) ≡ 0) }
{
    let first = FirstVersions::absent(alloc, 2)?;
    let wide = versions_of(alloc, &FIRST)?;
    Cells::with_wide(rt, alloc, first, wide, 1)
}

/// The data that are stored: each word is another.
fn other_data() -> DataWords {
    let mut data = [0; 63];
    for place in 0..63 {
        data[place] = 100 + place as u64;
    }
    data
}

/// What comes of a read of record 2, a store, and what is asked then of all three.
fn answered<R: Wait>(rt: &R, cells: &Cells, pen: &mut Pen, reader: &mut Reader) -> Answers
    requires own { (pen.old.cells ≡ cells.now) × (reader.old.cells ≡ cells.now) }
    requires count { (length cells.now.narrow ≡ 2) × (length cells.now.wide ≡ 3) }
    requires first { last_tid (at pen.old.all 2) ≡ 0 }
{
    let first = cells.read_wide(rt, reader, 2);
    let is_latest = cells.meet_wide(rt, pen, reader, &first);
    cells.store_wide(rt, pen, 2, TidWord::new(8 + 2), &other_data());
    let is_latest_then = cells.meet_wide(rt, pen, reader, &first);
    let stored = cells.read_wide(rt, reader, 2);
    let (first, stored) = (first.payload, stored.payload);
    Answers {
        first,
        is_latest,
        is_latest_then,
        stored,
        held: cells.held_wide(pen, 2),
        beside: cells.held_wide(pen, 3),
        absent: cells.held_wide(pen, 4),
        are_present: (
            cells.is_present(pen, 2),
            cells.is_present(pen, 3),
            cells.is_present(pen, 4),
        ),
        learnt: (
            cells.learn(rt, pen, reader, 2).word(),
            cells.learn(rt, pen, reader, 3).word(),
        ),
    }
}

/// What is to come of it.
fn wanted() -> Answers {
    let stored = other_data();
    Answers {
        first: [2; 63],
        is_latest: true,
        is_latest_then: false,
        stored,
        held: Some(other_data()),
        beside: Some([3; 63]),
        absent: None,
        are_present: (true, true, false),
        learnt: (8 + 2, 2),
    }
}

#[test]
fn wide_records_are_read_stored_and_met(rt: HostRuntime) -> Result<(), Fail> {
    let (cells, mut pen, mut readers) = made(&rt, rt.alloc())?;
    let mut reader = readers.pop().ok_or("reader")?;
    let answers = answered(&rt, &cells, &mut pen, &mut reader);
    assert_eq!(rt; answers, wanted());
    Ok(())
}
