//! Bytes of log files that are known from outside the code, for tests.
#![tactic(auto)]

ghost use Rattle.std.specs.Prelude.{◌≡◌, ◌≤◌, length, set, slice_index_or, IfOk};

use std::alloc::{AllocError, Global};

/// The header of logger 0 of 1, over 1 warehouse, 2 districts, 10 customers, 20 items, orders up to 30, 1,000 commits
/// and the plain population.
pub const FIRST: [u8; 48] = [
    0x53, 0x49, 0x4c, 0x4f, 0x54, 0x50, 0x43, 0x43, 2, 0, 0, 0, 0, 0, 1, 0, 1, 0, 0, 0, 2, 0, 0, 0,
    10, 0, 0, 0, 20, 0, 0, 0, 30, 0, 0, 0, 0xe8, 3, 0, 0, 0, 0, 0, 0, 0, 0, 0, 0,
];

/// The same header, of version 1: its file has no texts.
pub fn first_of_version_1() -> [u8; 48] {
    let mut bytes = FIRST;
    bytes[8] = 1;
    bytes
}

/// The text of a body of mark 1 without entries.
pub const NOTHING: [u8; 16] = [9, 0, 0, 0, 0, 0, 0, 0, 1, 0, 0, 0, 0, 0, 0, 0];

/// The text of a body of mark 1 with the first Payment of a terminal, commit 1: customer 3 pays 12.34 in district 1.
pub const PAYMENT: [u8; 172] = [
    0xa5, 0, 0, 0, 0, 0, 0, 0, 1, 0, 0, 0, 0, 0, 0, 0, 1, 0, 0, 0, 0, 0, 0, 0, 0, 0, 0, 0, 1, 0, 0,
    0, 0, 0, 4, 0, 1, 0, 0, 0, 0, 1, 0xf2, 0x52, 0, 0, 0, 0, 0, 0, 2, 0, 0, 0, 0, 1, 0xe2, 0x2b, 0,
    0, 0, 0, 0, 0, 11, 0, 0, 0, 0, 0, 0, 0, 3, 2, 0, 0, 0, 1, 0x46, 0xf7, 255, 255, 255, 255, 255,
    255, 0xba, 8, 0, 0, 0, 0, 0, 0, 2, 0, 0, 0, 0, 0, 0, 0, 0, 0, 0, 0, 0, 0, 0, 0, 4, 0, 0, 0, 0,
    1, 3, 0, 0, 0, 0, 0, 0, 0, 1, 0, 0, 0, 0, 0, 0, 0, 1, 0, 0, 0, 0, 0, 0, 0, 1, 0, 0, 0, 0, 0, 0,
    0, 1, 0, 0, 0, 0, 0, 0, 0, 1, 0, 0, 0, 0, 0, 0, 0, 0xd2, 4, 0, 0, 0, 0, 0, 0,
];

/// What a Payment of 12.34 by customer 10 of district 1 puts there at the left of C_DATA.
pub const PAID_TEXT: [u8; 17] = *b"10 1 1 1 1 12.34|";

/// The text of a body of mark 1 with the first Payment of a terminal, commit 1: customer 10, whose credit is bad, pays
/// 12.34 in district 1. Its entry has 481 bytes, and ends with the customer's text.
pub fn payment_with_text(alloc: Global) -> Result<Vec<u8>, AllocError> {
    let mut front = PAYMENT;
    front[..2].copy_from_slice(&490_u16.to_le_bytes());
    front[34] = 5;
    front[73] = 9;
    front[116] = 10;
    let mut body = Vec::new(alloc);
    body.extend_from_slice(&front)?;
    body.extend_from_slice(&[12, 9, 0, 0, 0, 1])?;
    body.extend_from_slice(&317_u16.to_le_bytes())?;
    body.extend_from_slice(&PAID_TEXT)?;
    body.extend_from_slice(&[b'x'; 300])?;
    Ok(body)
}

/// The text of a void body of epochs 6 to 8, and the closed gate behind it.
pub const VOID: [u8; 33] = [
    0x19, 0, 0, 0, 0, 0, 0, 0, 255, 255, 255, 255, 255, 255, 255, 255, 6, 0, 0, 0, 0, 0, 0, 0, 8,
    0, 0, 0, 0, 0, 0, 0, 0,
];

/// The entry of commit N, a Payment of 1.00 by customer N in district 1, in epoch N + 3, at this terminal.
fn payment(number: u8, terminal: u8) -> [u8; 156] {
    let mut entry = [0; 156];
    entry.copy_from_slice(&PAYMENT[16..]);
    entry[0] = number;
    entry[12] = number.wrapping_add(3);
    entry[16] = terminal;
    let paid = 100 * u64::from(number);
    entry[26..34].copy_from_slice(&(20_000 + paid).to_le_bytes());
    entry[40..48].copy_from_slice(&(10_000 + paid).to_le_bytes());
    entry[57] = number.wrapping_sub(1);
    entry[62..70].copy_from_slice(&(u64::MAX - 1_099).to_le_bytes());
    entry[70..78].copy_from_slice(&1_100_u64.to_le_bytes());
    entry[100] = number;
    entry[148..156].copy_from_slice(&100_u64.to_le_bytes());
    entry
}

/// A file of logger 0 or 1 of 2, whose terminal's number is the same, with one body of this mark, and in it the
/// Payments from one commit number to another.
pub fn file_of_payments(
    alloc: Global,
    logger: u8,
    mark: u64,
    commits: (u8, u8),
) -> Result<Vec<u8>, AllocError>
    ensures { IfOk result (λ file. (48 ≤ length file.items) × (slice_index_or file.items 12 0 ≡ logger)
        × (slice_index_or file.items 14 0 ≡ 2)) }
{
    let mut file = Vec::new(alloc);
    file.extend_from_slice(&FIRST)?;
    let mut content = Vec::new(alloc);
    content.extend_from_slice(&mark.to_le_bytes())?;
    for number in commits.0..=commits.1 {
        content.extend_from_slice(&payment(number, logger))?;
    }
    content.push(0)?;
    file.push(1)?;
    file.extend_from_slice(&(content.len() as u64).to_le_bytes())?;
    file.append(&mut content)?;
    Ok(with_logger(file, logger))
}

/// The same file, of this logger of 2.
fn with_logger(mut file: Vec<u8>, logger: u8) -> Vec<u8>
    requires { 48 ≤ length file.items }
    ensures { result.items ≡ set (set file.items 12 logger) 14 2 }
{
    file[12] = logger;
    file[14] = 2;
    file
}
