//! Texts of C_DATA in bodies: a Payment's bytes, and texts that may not stand there.

use log_header::{Header, read_header};
use log_text::{Body, Last, Value, read_body};
use money::Refusal;
use std::alloc::{AllocError, Global};
use std::test::Fail;
use tables::Scale;
use tests_log_vectors::{FIRST, PAID_TEXT, first_of_version_1, payment_with_text};

/// An entry of one write to C_DATA.
#[derive(Clone, Copy)]
struct Text {
    /// The customer's place, from 0.
    place: u32,
    /// 1, or what stands in its place: behind 0, the record is absent, nothing stands.
    kind: u8,
    /// The length that is told, where it isn't that of the letters.
    told: Option<u16>,
    /// How many letters `x` there are, and the byte in front of them.
    letters: u16,
    first: u8,
}

/// 300 letters of the first customer.
const LETTERS: Text = Text {
    place: 0,
    kind: 1,
    told: None,
    letters: 299,
    first: b'x',
};

/// Appends the write.
fn push_text(out: &mut Vec<u8>, text: Text) -> Result<(), AllocError> {
    out.push(12)?;
    out.extend_from_slice(&text.place.to_le_bytes())?;
    out.push(text.kind)?;
    if text.kind == 0 {
        return Ok(());
    }
    let whole = text.letters.saturating_add(1);
    out.extend_from_slice(&text.told.unwrap_or(whole).to_le_bytes())?;
    out.push(text.first)?;
    for _ in 0..text.letters {
        out.push(b'x')?;
    }
    Ok(())
}

/// Commit 1 of terminal 0 in epoch 1, with this one write, in a body of mark 1.
fn body_of(alloc: Global, text: Text) -> Result<Vec<u8>, AllocError> {
    let mut content = Vec::new(alloc);
    content.extend_from_slice(&1_u64.to_le_bytes())?;
    content.extend_from_slice(&1_u64.to_le_bytes())?;
    content.extend_from_slice(&(1_u64 << 32).to_le_bytes())?;
    content.extend_from_slice(&[0, 0, 1, 0])?;
    push_text(&mut content, text)?;
    let mut out = Vec::new(alloc);
    out.extend_from_slice(&(content.len() as u64).saturating_add(1).to_le_bytes())?;
    out.append(&mut content)?;
    Ok(out)
}

/// Whether the bytes are a body that may follow the header of these bytes.
fn follows(alloc: Global, header: &[u8], body: &[u8]) -> Result<bool, Refusal> {
    let Some((header, _)) = read_header(header) else {
        return Ok(false);
    };
    match read_body(alloc, &header, Last::start(), body) {
        Ok((_, _, rest)) => Ok(rest.is_empty()),
        Err(Refusal::Damaged) => Ok(false),
        Err(refusal) => Err(refusal),
    }
}

fn text_follows(alloc: Global, header: &[u8], text: Text) -> Result<bool, Refusal> {
    follows(alloc, header, &body_of(alloc, text)?)
}

#[test]
fn texts_of_300_to_500_printable_characters_follow(rt: HostRuntime) -> Result<(), Fail> {
    for letters in [299, 316, 499] {
        for first in [b' ', b'~', b'1'] {
            let text = Text {
                place: 19,
                letters,
                first,
                ..LETTERS
            };
            assert!(rt; text_follows(rt.alloc(), &FIRST, text)?);
        }
    }
    Ok(())
}

#[test]
fn other_lengths_and_bytes_do_not(rt: HostRuntime) -> Result<(), Fail> {
    for (letters, first) in [
        (298, b'x'),
        (500, b'x'),
        (299, 31),
        (299, 127),
        (299, 0),
        (299, 255),
    ] {
        let text = Text {
            letters,
            first,
            ..LETTERS
        };
        assert!(rt; !text_follows(rt.alloc(), &FIRST, text)?);
    }
    Ok(())
}

#[test]
fn a_length_is_that_of_the_bytes(rt: HostRuntime) -> Result<(), Fail> {
    // There are 301 bytes: the first 300 alone would be a text.
    for told in [300, 302, 500, 65_535] {
        let text = Text {
            told: Some(told),
            letters: 300,
            ..LETTERS
        };
        assert!(rt; !text_follows(rt.alloc(), &FIRST, text)?);
    }
    Ok(())
}

#[test]
fn a_text_is_present_and_of_a_customer(rt: HostRuntime) -> Result<(), Fail> {
    let outside = Text {
        place: 20,
        ..LETTERS
    };
    let absent = Text { kind: 0, ..LETTERS };
    let other = Text { kind: 2, ..LETTERS };
    for text in [outside, absent, other] {
        assert!(rt; !text_follows(rt.alloc(), &FIRST, text)?);
    }
    Ok(())
}

#[test]
fn files_of_version_1_have_none(rt: HostRuntime) -> Result<(), Fail> {
    assert!(rt; text_follows(rt.alloc(), &FIRST, LETTERS)?);
    assert!(rt; !text_follows(rt.alloc(), &first_of_version_1(), LETTERS)?);
    Ok(())
}

/// The last write of the body's one entry, where it is of a text: its place, and the text's length and first bytes.
fn last_text(alloc: Global, header: &Header, body: &[u8]) -> Result<Option<Told>, Refusal> {
    let (body, _, []) = read_body(alloc, header, Last::start(), body)? else {
        return Ok(None);
    };
    let Body::Entries(_, entries) = &body else {
        return Ok(None);
    };
    let Some(write) = entries.last().and_then(|entry| entry.writes.last()) else {
        return Ok(None);
    };
    let Value::Text(text) = &write.value else {
        return Ok(None);
    };
    let mut first = [0; 17];
    for (byte, seen) in first.iter_mut().zip(text.as_bytes()) {
        *byte = *seen;
    }
    Ok(Some(Told {
        place: write.place,
        length: text.as_bytes().len(),
        first,
    }))
}

/// What is told of a text.
#[derive(Clone, Copy, Debug, PartialEq, Eq)]
struct Told {
    place: u32,
    length: usize,
    first: [u8; 17],
}

#[test]
fn a_payment_of_bad_credit_has_its_text(rt: HostRuntime) -> Result<(), Fail> {
    let body = payment_with_text(rt.alloc())?;
    // The body's length, its mark, and an entry of 481 bytes.
    assert_eq!(rt; body.len(), 8 + 8 + 481);
    assert!(rt; body[..8] == [0xea, 1, 0, 0, 0, 0, 0, 0]);
    let header = Header::new(Scale::new(1, 2, 10, 20, 30, 1_000)?, 0, 0, 1);
    let told = Told {
        place: 9,
        length: 317,
        first: PAID_TEXT,
    };
    assert!(rt; last_text(rt.alloc(), &header, &body)? == Some(told));
    Ok(())
}
