//! Log files that are made and appended to: their bytes, and what is read back.
ghost use Rattle.std.specs.Prelude.{◌≡◌, []};

use log_disk::{FileDisk, Memory};
use log_scan::scan;
use log_text::{Body, read_file};
use money::Refusal;
use std::alloc::Global;
use std::fs;
use std::test::Fail;
use tests_log_vectors::{FIRST, NOTHING, PAYMENT};
use tests_one_logger::{Paid, Standing, filled};

/// Whether these bytes are a header, an open gate, this body, and a closed gate.
fn is_file_of(bytes: &[u8], body: &[u8]) -> bool {
    bytes
        .strip_prefix(&FIRST)
        .and_then(|rest| rest.strip_prefix(&[1]))
        .and_then(|rest| rest.strip_prefix(body))
        == Some(&[0])
}

/// Payments of three batches.
const THREE: [&[Paid]; 3] = [&[(3, 100), (3, 200)], &[], &[(3, 300)]];

/// Of a body: its mark, how many entries it has, and the commit number of the last (0 without one).
type Shape = (u64, usize, u64);

/// The bodies of those three batches.
const BODIES: [Shape; 3] = [(1, 2, 2), (2, 0, 0), (3, 1, 3)];

fn shape_of(body: &Body) -> Shape {
    match body {
        Body::Entries(mark, entries) => {
            let last = entries.last().map_or(0, |entry| entry.number);
            (*mark, entries.len(), last)
        }
        Body::Void(_, high) => (*high, 0, 0),
    }
}

pub(crate) fn shapes(alloc: Global, bodies: &[Body]) -> Result<Vec<Shape>, Refusal> {
    let mut shapes = Vec::new(alloc);
    for body in bodies {
        shapes.push(shape_of(body))?;
    }
    Ok(shapes)
}

/// Whether these bytes are a file of a beginning of the three bodies, or no log file at all.
fn is_beginning(alloc: Global, bytes: &[u8]) -> Result<bool, Refusal> {
    match read_file(alloc, bytes) {
        Ok((_, bodies)) => Ok(BODIES.starts_with(&shapes(alloc, &bodies)?)),
        Err(Refusal::Damaged) => Ok(true),
        Err(refusal) => Err(refusal),
    }
}

#[test]
fn a_batch_without_entries_has_its_bytes(rt: HostRuntime) -> Result<(), Fail> {
    let mut memory = Memory::new(rt.alloc());
    let standing = filled(&rt, rt.alloc(), &mut memory, &[&[]])?;
    assert_eq!(rt;
        standing,
        Standing {
            count: 0,
            last: 0,
            mark: 1,
            kept: 1
        }
    );
    assert_eq!(rt; memory.bytes().len(), 66);
    assert!(rt; is_file_of(memory.bytes(), &NOTHING));
    assert_eq!(rt; memory.calls().len(), 6);
    Ok(())
}

#[test]
fn a_batch_with_a_payment_has_its_bytes(rt: HostRuntime) -> Result<(), Fail> {
    let mut memory = Memory::new(rt.alloc());
    let standing = filled(&rt, rt.alloc(), &mut memory, &[&[(3, 1_234)]])?;
    assert_eq!(rt;
        standing,
        Standing {
            count: 1,
            last: 1,
            mark: 1,
            kept: 1
        }
    );
    assert_eq!(rt; memory.bytes().len(), 222);
    assert!(rt; is_file_of(memory.bytes(), &PAYMENT));
    Ok(())
}

#[test]
fn three_batches_in_a_file_are_read_back(rt: HostRuntime) -> Result<(), Fail> {
    let _ = fs::remove_file(&rt, "log-three");
    let disk = FileDisk::create(&rt, "log-three")?;
    let standing = filled(&rt, rt.alloc(), disk, &THREE)?;
    assert_eq!(rt;
        standing,
        Standing {
            count: 3,
            last: 3,
            mark: 3,
            kept: 3
        }
    );
    assert!(rt; FileDisk::create(&rt, "log-three").err() == Some(Refusal::Device));
    let mut again = FileDisk::open(&rt, "log-three")?;
    let (_, bodies) = scan(rt.alloc(), &mut again)?;
    assert!(rt; shapes(rt.alloc(), &bodies)?.as_slice() == BODIES.as_slice());
    assert!(rt; fs::remove_file(&rt, "log-three").is_ok());
    Ok(())
}

#[test]
fn a_file_that_is_cut_short_is_a_beginning_or_none(rt: HostRuntime) -> Result<(), Fail> {
    let mut memory = Memory::new(rt.alloc());
    filled(&rt, rt.alloc(), &mut memory, &THREE)?;
    let bytes = memory.bytes();
    for length in 0..=bytes.len() {
        assert!(rt; is_beginning(rt.alloc(), &bytes[..length])?);
    }
    Ok(())
}
