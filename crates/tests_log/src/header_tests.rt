//! Headers whose bytes are known, there and back.
use log_codec::put_u8;
use log_header::{Header, OLDEST_VERSION, put_header, read_header};
use money::Refusal;
use std::test::Fail;
use tables::Scale;
use tests_log_vectors::{FIRST, first_of_version_1};

#[test]
fn a_header_has_its_bytes(rt: HostRuntime) -> Result<(), Fail> {
    let header = Header::new(Scale::new(1, 2, 10, 20, 30, 1_000)?, 0, 0, 1);
    let mut out = Vec::new(rt.alloc());
    put_header(&mut out, &header)?;
    assert!(rt; out.as_slice() == FIRST.as_slice());
    assert!(rt; read_header(&FIRST) == Some((header, &FIRST[48..])));
    Ok(())
}

/// The header of a file that begins with these bytes.
fn header_of(bytes: &[u8]) -> Result<Header, Refusal> {
    match read_header(bytes) {
        Some((header, _)) => Ok(header),
        None => Err(Refusal::Damaged),
    }
}

#[test]
fn a_header_of_version_1_is_read_and_written_as_one(rt: HostRuntime) -> Result<(), Fail> {
    let bytes = first_of_version_1();
    let header = header_of(&bytes)?;
    assert_eq!(rt; header.version, OLDEST_VERSION);
    let mut out = Vec::new(rt.alloc());
    put_header(&mut out, &header)?;
    assert!(rt; out.as_slice() == bytes.as_slice());
    Ok(())
}

#[test]
fn a_header_leaves_what_stands_behind_it(rt: HostRuntime) -> Result<(), Fail> {
    let scale = Scale::new(8, 10, 3_000, 99_999, 100_000, 600_000)?;
    let header = Header::new(scale, 0x0102_0304_0506_0708, 6, 8);
    let mut out = Vec::new(rt.alloc());
    put_header(&mut out, &header)?;
    put_u8(&mut out, 9)?;
    assert!(rt; read_header(&out) == Some((header, [9].as_slice())));
    Ok(())
}

#[test]
fn fewer_bytes_are_no_header(rt: HostRuntime) -> Result<(), Fail> {
    for length in 0..48 {
        assert!(rt; read_header(&FIRST[..length]).is_none());
    }
    Ok(())
}

#[test]
fn other_formats_and_numbers_are_no_header(rt: HostRuntime) -> Result<(), Fail> {
    // the name, the versions 0 and 3, logger 1 of 1, 9 loggers, none, and 0 warehouses
    for (place, byte) in [(7, 0), (8, 0), (8, 3), (12, 1), (14, 9), (14, 0), (16, 0)] {
        let mut bytes = FIRST;
        bytes[place] = byte;
        assert!(rt; read_header(&bytes).is_none());
    }
    Ok(())
}
