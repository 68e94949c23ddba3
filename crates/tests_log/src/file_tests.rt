//! Whole log files: their bytes, their gates, and bytes that are no log file.
use log_text::{Body, read_file};
use money::Refusal;
use std::alloc::{AllocError, Global};
use std::test::Fail;
use tests_log_vectors::{FIRST, NOTHING, PAYMENT};

/// A file with one body between two gates.
fn file(alloc: Global, gate: u8, body: &[u8], next: u8) -> Result<Vec<u8>, AllocError> {
    let mut out = Vec::new(alloc);
    out.extend_from_slice(&FIRST)?;
    out.push(gate)?;
    out.extend_from_slice(body)?;
    out.push(next)?;
    Ok(out)
}

/// How many bodies and entries a file has, or None where it is no log file.
fn counted(alloc: Global, file: &[u8]) -> Result<Option<(usize, usize)>, Refusal> {
    match read_file(alloc, file) {
        Ok((_, bodies)) => {
            let entries = match bodies.first() {
                Some(Body::Entries(_, entries)) => entries.len(),
                _ => 0,
            };
            Ok(Some((bodies.len(), entries)))
        }
        Err(Refusal::Damaged) => Ok(None),
        Err(refusal) => Err(refusal),
    }
}

#[test]
fn files_of_one_body_have_their_lengths(rt: HostRuntime) -> Result<(), Fail> {
    let empty = file(rt.alloc(), 1, &NOTHING, 0)?;
    assert_eq!(rt; empty.len(), 66);
    assert_eq!(rt; counted(rt.alloc(), &empty)?, Some((1, 0)));
    let paid = file(rt.alloc(), 1, &PAYMENT, 0)?;
    assert_eq!(rt; paid.len(), 222);
    Ok(())
}

#[test]
fn a_payment_is_in_its_file(rt: HostRuntime) -> Result<(), Fail> {
    let paid = file(rt.alloc(), 1, &PAYMENT, 0)?;
    assert_eq!(rt; counted(rt.alloc(), &paid)?, Some((1, 1)));
    Ok(())
}

#[test]
fn a_body_counts_behind_an_open_gate_alone(rt: HostRuntime) -> Result<(), Fail> {
    for gate in 0..=255 {
        let paid = file(rt.alloc(), gate, &PAYMENT, 0)?;
        let expected = if gate == 1 {
            Some((1, 1))
        } else {
            Some((0, 0))
        };
        assert_eq!(rt; counted(rt.alloc(), &paid)?, expected);
    }
    Ok(())
}

#[test]
fn a_gate_that_is_open_wants_a_body(rt: HostRuntime) -> Result<(), Fail> {
    let paid = file(rt.alloc(), 1, &PAYMENT, 1)?;
    assert!(rt; counted(rt.alloc(), &paid)?.is_none());
    Ok(())
}

#[test]
fn what_is_cut_short_is_no_file(rt: HostRuntime) -> Result<(), Fail> {
    let paid = file(rt.alloc(), 1, &PAYMENT, 0)?;
    for length in 0..paid.len() {
        assert!(rt; counted(rt.alloc(), &paid[..length])?.is_none());
    }
    Ok(())
}

#[test]
fn what_stands_behind_a_closed_gate_is_left_aside(rt: HostRuntime) -> Result<(), Fail> {
    let mut closed = file(rt.alloc(), 0, &[], 1)?;
    closed.extend_from_slice(&PAYMENT)?;
    for length in 49..closed.len() {
        assert_eq!(rt; counted(rt.alloc(), &closed[..length])?, Some((0, 0)));
    }
    Ok(())
}
