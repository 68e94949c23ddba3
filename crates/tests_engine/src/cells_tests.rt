//! Reads, stores and meets by one thread.
ghost use Rattle.std.specs.Prelude.{◌≡◌, ◌<◌, length};
ghost use Rattle.tidword.specs.TidWord.{tid_of};
ghost use Rattle.cells.specs.Versions.{last_tid};
ghost use Rattle.cells.specs.Records.{at};

use crate::stage::{CUSTOMER, DISTRICT, WAREHOUSE, open};
use cells::{Cells, Pen, Reader, Version};
use money::Payload;
use std::alloc::Global;
use std::sync::Wait;
use std::test::Fail;
use tidword::{Status, TidWord};

/// The first version of a record.
fn populated(record: u32, payload: Payload) -> Version {
    Version {
        record,
        word: TidWord::POPULATED,
        payload,
    }
}

/// The versions of the warehouse, the first district and its third customer.
fn read_three<R: Wait>(rt: &R, cells: &Cells, reader: &mut Reader) -> [Version; 3]
    requires own { reader.old.cells ≡ cells.now }
    requires count { length cells.now.narrow ≡ 1085 }
    ensures { reader.new.cells ≡ cells.now }
{
    let warehouse = cells.read(rt, reader, 0);
    let district = cells.read(rt, reader, 1);
    let customer = cells.read(rt, reader, 5);
    [warehouse, district, customer]
}

/// The three answers of `meet`, and what is stored.
type Met = (bool, bool, bool, Payload);

/// The answers of `meet` for a version that is the latest, for that version once another is stored, and for the
/// other, and what is stored.
fn answers<R: Wait>(
    rt: &R,
    cells: &Cells,
    pen: &mut Pen,
    reader: &mut Reader,
    number: u32,
    word: TidWord,
) -> Met
    requires pen { pen.old.cells ≡ cells.now }
    requires reader { reader.old.cells ≡ cells.now }
    requires record { number < length cells.now.narrow }
    requires larger { last_tid (at pen.old.all number) < tid_of word }
{
    let old = cells.read(rt, reader, number);
    let before = cells.meet(rt, pen, reader, &old);
    cells.store(rt, pen, number, word, [9, 8, 7, 6, 5, 4, 3]);
    let after = cells.meet(rt, pen, reader, &old);
    let new = cells.read(rt, reader, number);
    let latest = cells.meet(rt, pen, reader, &new);
    (before, after, latest, new.payload)
}

/// The first versions of three records, and what `answers` gives of the second.
fn seen_by_one<R: Wait>(rt: &R, alloc: Global) -> Result<([Version; 3], Met), Fail> {
    let mut stage = open(rt, alloc)?;
    let first = read_three(rt, &stage.cells, &mut stage.reader);
    let status = Status {
        latest: true,
        absent: false,
        locked: false,
    };
    let word = TidWord::pack(1, 7, status);
    let met = answers(rt, &stage.cells, &mut stage.pen, &mut stage.reader, 1, word);
    Ok((first, met))
}

#[test]
fn one_thread(rt: HostRuntime) -> Result<(), Fail> {
    let (first, met) = seen_by_one(&rt, rt.alloc())?;
    let warehouse = populated(0, WAREHOUSE);
    let district = populated(1, DISTRICT);
    let customer = populated(5, CUSTOMER);
    assert_eq!(rt; first, [warehouse, district, customer]);
    assert_eq!(rt; met, (true, false, true, [9, 8, 7, 6, 5, 4, 3]));
    Ok(())
}

#[test]
fn tid_words(rt: HostRuntime) {
    let status = Status {
        latest: false,
        absent: true,
        locked: true,
    };
    let word = TidWord::pack(3, 5, status);
    assert_eq!(rt;
        (word.word(), word.epoch(), word.sequence()),
        ((3 << 32) + 45, 3, 5)
    );
    assert_eq!(rt; word.tid(), TidWord::new((3 << 32) + 40));
    assert!(rt; word.is_locked() && word.is_absent() && !word.is_latest());
    let (there, absent) = (TidWord::POPULATED, TidWord::ABSENT);
    assert!(rt;
        there.is_latest() && !there.is_absent() && absent.is_latest() && absent.is_absent()
    );
}
