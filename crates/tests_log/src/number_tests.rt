//! Numbers whose bytes are known, there and back.
use log_codec::{put_u8, put_u16, put_u32, put_u64, u8_at, u16_at, u32_at, u64_at};
use std::alloc::{AllocError, Global};
use std::test::Fail;

/// A number of each width, one behind the other.
fn written(alloc: Global, one: u8, two: u16, four: u32, eight: u64) -> Result<Vec<u8>, AllocError> {
    let mut out = Vec::new(alloc);
    put_u8(&mut out, one)?;
    put_u16(&mut out, two)?;
    put_u32(&mut out, four)?;
    put_u64(&mut out, eight)?;
    Ok(out)
}

/// The four numbers at the front of bytes, with the number of bytes left.
fn read(bytes: &[u8]) -> Option<(u8, u16, u32, u64, usize)> {
    let (one, bytes) = u8_at(bytes)?;
    let (two, bytes) = u16_at(bytes)?;
    let (four, bytes) = u32_at(bytes)?;
    let (eight, bytes) = u64_at(bytes)?;
    Some((one, two, four, eight, bytes.len()))
}

#[test]
fn numbers_have_their_lowest_byte_first(rt: HostRuntime) -> Result<(), Fail> {
    let bytes = written(rt.alloc(), 1, 256, 0x0102_0304, u64::MAX)?;
    let expected = [1, 0, 1, 4, 3, 2, 1, 255, 255, 255, 255, 255, 255, 255, 255];
    assert!(rt; bytes.as_slice() == expected.as_slice());
    assert!(rt; read(&bytes) == Some((1, 256, 0x0102_0304, u64::MAX, 0)));
    Ok(())
}

#[test]
fn the_largest_numbers_are_read_back(rt: HostRuntime) -> Result<(), Fail> {
    let bytes = written(rt.alloc(), u8::MAX, 65_535, u32::MAX, 256)?;
    assert!(rt; read(&bytes) == Some((u8::MAX, 65_535, u32::MAX, 256, 0)));
    Ok(())
}

/// The TID word of epoch 1 and sequence 2, as the latest version has it.
#[test]
fn a_tid_word_has_its_bytes(rt: HostRuntime) -> Result<(), Fail> {
    let mut bytes = Vec::new(rt.alloc());
    put_u64(&mut bytes, 4_294_967_314)?;
    assert!(rt; bytes.as_slice() == [0x12, 0, 0, 0, 1, 0, 0, 0].as_slice());
    Ok(())
}

#[test]
fn a_number_leaves_what_stands_behind_it(rt: HostRuntime) -> Result<(), Fail> {
    let bytes = [1, 2, 3, 4, 5, 6, 7, 8, 9];
    assert!(rt; u8_at(&bytes) == Some((1, &bytes[1..])));
    assert!(rt; u16_at(&bytes) == Some((0x0201, &bytes[2..])));
    assert!(rt; u32_at(&bytes) == Some((0x0403_0201, &bytes[4..])));
    assert!(rt; u64_at(&bytes) == Some((0x0807_0605_0403_0201, &bytes[8..])));
    Ok(())
}

#[test]
fn too_few_bytes_are_no_number(rt: HostRuntime) -> Result<(), Fail> {
    let bytes = [255; 7];
    assert!(rt; u8_at(&bytes[..0]).is_none());
    assert!(rt; u16_at(&bytes[..1]).is_none());
    assert!(rt; u32_at(&bytes[..3]).is_none());
    assert!(rt; u64_at(&bytes).is_none());
    Ok(())
}
