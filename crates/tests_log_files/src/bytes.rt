//! The bytes of log files, made from their format alone: at 1 warehouse, 2 districts, 10 customers, 20 items, orders up
//! to 30 and 1,000 commits, over the plain population.

ghost use Rattle.std.specs.Prelude.{◌≡◌, ◌++◌, min, take, OnOk};
ghost use Rattle.std.specs.Int.{w64, to_le_bytes};
ghost use Rattle.std.specs.List.{flat_map};

use std::alloc::AllocError;

/// Appends numbers of so many bytes each, the lowest byte first.
pub fn push_numbers(bytes: &mut Vec<u8>, size: usize, numbers: &[u64]) -> Result<(), AllocError>
    ensures { OnOk result (bytes.new.items ≡ bytes.old.items
        ++ flat_map (λ n. take (min size 8) (to_le_bytes w64 n)) numbers.now) }
{
    for number in numbers {
        let number: [u8; 8] = number.to_le_bytes();
        bytes.extend_from_slice(&number[..size.min(8)])?;
    }
    Ok(())
}

/// Appends the header of a logger's file.
pub fn push_header(bytes: &mut Vec<u8>, logger: u64, loggers: u64) -> Result<(), AllocError> {
    push_header_of(bytes, 2, logger, loggers)
}

/// The same of this version.
pub fn push_header_of(
    bytes: &mut Vec<u8>,
    version: u64,
    logger: u64,
    loggers: u64,
) -> Result<(), AllocError> {
    bytes.extend_from_slice(b"SILOTPCC")?;
    push_numbers(bytes, 4, &[version])?;
    push_numbers(bytes, 2, &[logger, loggers])?;
    push_numbers(bytes, 4, &[1, 2, 10, 20, 30, 1_000])?;
    push_numbers(bytes, 8, &[0])
}

/// Appends an open gate, and a body of this mark whose entries have so many bytes, up to those.
pub fn push_body(bytes: &mut Vec<u8>, mark: u64, size: u64) -> Result<(), AllocError> {
    push_numbers(bytes, 1, &[1])?;
    push_numbers(bytes, 8, &[size.saturating_add(9), mark])
}

/// How many bytes an entry of a Payment has.
pub const ENTRY: u64 = 156;

/// Appends the entry of a commit: customer `number` of district 1 pays 1.00 there, after `number - 1` such Payments.
pub fn push_entry(
    bytes: &mut Vec<u8>,
    number: u32,
    epoch: u32,
    terminal: u64,
) -> Result<(), AllocError> {
    push_entry_of(bytes, number, number, epoch, terminal)
}

/// The same of any customer.
pub fn push_entry_of(
    bytes: &mut Vec<u8>,
    customer: u32,
    number: u32,
    epoch: u32,
    terminal: u64,
) -> Result<(), AllocError> {
    let (customer, number, epoch) = (u64::from(customer), u64::from(number), u64::from(epoch));
    push_numbers(bytes, 8, &[number, epoch << 32])?;
    push_numbers(bytes, 2, &[terminal, 4])?;
    push_write(bytes, 1, 0, &[20_000 + 100 * number])?;
    push_write(bytes, 2, 0, &[10_000 + 100 * number, 11])?;
    push_write(
        bytes,
        3,
        customer.saturating_sub(1),
        &[0u64.wrapping_sub(1_100), 1_100, 2, 0],
    )?;
    push_write(bytes, 4, 0, &[customer, 1, 1, 1, 1, number, 100])
}

/// Appends what a record holds from a commit on.
pub fn push_write(
    bytes: &mut Vec<u8>,
    table: u64,
    place: u64,
    words: &[u64],
) -> Result<(), AllocError> {
    push_numbers(bytes, 1, &[table])?;
    push_numbers(bytes, 4, &[place])?;
    push_numbers(bytes, 1, &[1])?;
    push_numbers(bytes, 8, words)
}
