//! What a read set holds, and in which order.
ghost use Rattle.std.specs.Prelude.{◌≡◌, length};
ghost use Rattle.readset.specs.Reads.{AreReadOfKind};

use crate::stage::{NARROW, Stage, open};
use customer_data::DataWords;
use money::{Payload, Refusal};
use readset::ReadSet;
use std::alloc::Global;
use std::sync::Wait;
use std::test::Fail;

/// What was read of records: a wide one before a narrow one.
#[derive(Clone, Copy, Debug, PartialEq, Eq)]
struct Read {
    wide: DataWords,
    narrow: Payload,
}

/// Reads record 3, and then record 1.
fn read_both<R: Wait>(rt: &R, stage: &mut Stage, reads: &mut ReadSet) -> Result<Read, Refusal>
    requires narrow { length stage.old.cells.narrow ≡ 2 }
    requires wide { length stage.old.cells.wide ≡ 2 }
    requires reader { stage.old.reader.cells ≡ stage.old.cells }
    requires kinds { AreReadOfKind stage.old.cells reads.old }
    ensures cells { stage.new.cells ≡ stage.old.cells }
    ensures reader { stage.new.reader.cells ≡ stage.old.reader.cells }
    ensures kinds { AreReadOfKind stage.old.cells reads.new }
{
    let wide = reads.get_wide(rt, &stage.cells, &mut stage.reader, 3)?;
    let narrow = reads.get(rt, &stage.cells, &mut stage.reader, 1)?;
    let (wide, narrow) = (wide.payload, narrow.payload);
    Ok(Read { wide, narrow })
}

/// What is held after both are read twice: the records in their order, and the words of one.
#[derive(Clone, Copy, Debug, PartialEq, Eq)]
struct Held {
    first: Read,
    again: Read,
    count: usize,
    records: Option<(u32, u32)>,
    narrow: Option<Payload>,
    none: Option<Payload>,
}

fn held_after<R: Wait>(rt: &R, alloc: Global, stage: &mut Stage) -> Result<Held, Refusal>
    requires narrow { length stage.old.cells.narrow ≡ 2 }
    requires wide { length stage.old.cells.wide ≡ 2 }
    requires reader { stage.old.reader.cells ≡ stage.old.cells }
{
    let mut reads = ReadSet::new(alloc);
    let first = read_both(rt, stage, &mut reads)?;
    let again = read_both(rt, stage, &mut reads)?;
    Ok(Held {
        first,
        again,
        count: reads.len(),
        records: records(&reads),
        narrow: reads.held(1).map(|version| version.payload),
        none: reads.held(0).map(|version| version.payload),
    })
}

/// The first two records held, in their order.
fn records(reads: &ReadSet) -> Option<(u32, u32)> {
    if reads.len() < 2 {
        return None;
    }
    Some((reads.seen(0).0, reads.seen(1).0))
}

#[test]
fn records_that_are_read_twice_are_held_once(rt: HostRuntime) -> Result<(), Fail> {
    let mut stage = open(&rt, rt.alloc())?;
    let read = Read {
        wide: [3; 63],
        narrow: NARROW,
    };
    let expected = Held {
        first: read,
        again: read,
        count: 2,
        records: Some((1, 3)),
        narrow: Some(NARROW),
        none: None,
    };
    assert_eq!(rt; held_after(&rt, rt.alloc(), &mut stage)?, expected);
    Ok(())
}
