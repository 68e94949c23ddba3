//! Void bodies: log files that have one behind others, and void bodies that may not stand there.
use log_header::Header;
use log_text::{Body, Last, put_body, read_body, read_to_end, void_text};
use money::Refusal;
use std::alloc::{AllocError, Global};
use std::test::Fail;
use tables::Scale;
use tests_log_vectors::{VOID, file_of_payments};

/// A file with this void body behind its own.
fn voided(alloc: Global, file: &[u8], void: &[u8]) -> Result<Vec<u8>, AllocError> {
    let mut out = Vec::new(alloc);
    out.extend_from_slice(&file[..file.len().saturating_sub(1)])?;
    out.push(1)?;
    out.extend_from_slice(void)?;
    Ok(out)
}

/// What is read of a file: how many bodies, how many entries in the first, the second's epochs where it is void, where
/// the file stands, and the place of the gate that ends its text.
#[derive(Clone, Copy, Debug, PartialEq, Eq)]
struct Found {
    bodies: usize,
    entries: usize,
    void: Option<(u64, u64)>,
    last: Last,
    end: usize,
}

fn entries_of(body: Option<&Body>) -> usize {
    match body {
        Some(Body::Entries(_, entries)) => entries.len(),
        _ => 0,
    }
}

fn void_of(body: Option<&Body>) -> Option<(u64, u64)> {
    match body {
        Some(Body::Void(low, high)) => Some((*low, *high)),
        _ => None,
    }
}

fn read(alloc: Global, file: &[u8]) -> Result<Found, Refusal> {
    let (_, bodies, last, end) = read_to_end(alloc, file)?;
    Ok(Found {
        bodies: bodies.len(),
        entries: entries_of(bodies.first()),
        void: void_of(bodies.get(1)),
        last,
        end,
    })
}

#[test]
fn a_void_body_stands_behind_one_payment(rt: HostRuntime) -> Result<(), Fail> {
    let file = file_of_payments(rt.alloc(), 0, 5, (1, 1))?;
    assert_eq!(rt; file.len(), 222);
    let file = voided(rt.alloc(), &file, &VOID)?;
    assert_eq!(rt; file.len(), 255);
    let expected = Found {
        bodies: 2,
        entries: 1,
        void: Some((6, 8)),
        last: Last { mark: 8, epoch: 4 },
        end: 254,
    };
    assert_eq!(rt; read(rt.alloc(), &file)?, expected);
    Ok(())
}

#[test]
fn a_void_body_stands_behind_four_payments(rt: HostRuntime) -> Result<(), Fail> {
    let file = file_of_payments(rt.alloc(), 1, 7, (2, 5))?;
    assert_eq!(rt; file.len(), 690);
    let file = voided(rt.alloc(), &file, &VOID)?;
    assert_eq!(rt; file.len(), 723);
    let expected = Found {
        bodies: 2,
        entries: 4,
        void: Some((6, 8)),
        last: Last { mark: 8, epoch: 8 },
        end: 722,
    };
    assert_eq!(rt; read(rt.alloc(), &file)?, expected);
    Ok(())
}

/// A void body of these epochs, byte by byte, with this length and a closed gate.
fn void_body(length: u64, low: u64, high: u64) -> [u8; 33] {
    let mut bytes = VOID;
    bytes[..8].copy_from_slice(&length.to_le_bytes());
    bytes[16..24].copy_from_slice(&low.to_le_bytes());
    bytes[24..32].copy_from_slice(&high.to_le_bytes());
    bytes
}

/// Whether this void body may stand behind the four Payments, of epochs up to 8 and mark 7.
fn may_stand(alloc: Global, void: &[u8]) -> Result<bool, Refusal> {
    let file = file_of_payments(alloc, 1, 7, (2, 5))?;
    let file = voided(alloc, &file, void)?;
    match read(alloc, &file) {
        Ok(_) => Ok(true),
        Err(Refusal::Damaged) => Ok(false),
        Err(refusal) => Err(refusal),
    }
}

#[test]
fn void_bodies_that_break_a_rule_are_refused(rt: HostRuntime) -> Result<(), Fail> {
    let ranges = [
        (6, 8, true),
        (8, 8, true),
        (1, 4_294_967_294, true),
        // from epoch 0, from behind its end, and to what is no mark
        (0, 8, false),
        (9, 8, false),
        (6, 4_294_967_295, false),
        // to before the last entry's epoch, and to before the last mark
        (6, 7, false),
        (6, 6, false),
    ];
    for (low, high, lawful) in ranges {
        assert_eq!(rt; may_stand(rt.alloc(), &void_body(25, low, high))?, lawful);
    }
    Ok(())
}

#[test]
fn a_void_body_has_length_25(rt: HostRuntime) -> Result<(), Fail> {
    for length in [0, 8, 9, 17, 24, 26, 33, u64::MAX] {
        assert!(rt; !may_stand(rt.alloc(), &void_body(length, 6, 8))?);
    }
    Ok(())
}

/// Behind a void body up to mark 8: a mark below is refused even where it is no lower than the last entry's epoch.
#[test]
fn a_void_body_ends_no_lower_than_the_last_mark(rt: HostRuntime) -> Result<(), Fail> {
    let header = Header::new(Scale::new(1, 2, 10, 20, 30, 1_000)?, 0, 0, 1);
    let last = Last { mark: 8, epoch: 4 };
    for (high, lawful) in [(7, false), (8, true)] {
        let bytes = void_body(25, 6, high);
        let read = read_body(rt.alloc(), &header, last, &bytes);
        assert_eq!(rt; read.is_ok(), lawful);
    }
    Ok(())
}

#[test]
fn void_bodies_are_written_so(rt: HostRuntime) -> Result<(), Fail> {
    assert!(rt; void_text(6, 8) == VOID);
    let mut out = Vec::new(rt.alloc());
    put_body(&mut out, &Body::Void(6, 8))?;
    assert!(rt; out.as_slice() == &VOID[..32]);
    Ok(())
}
