//! The bytes of numbers, and records of fields as codecs: for a file's format, the texts that are written and the
//! readers that take exactly these.
#![tactic(auto)]

mod laws;
mod numbers;

pub use laws::numbers_are_read_as_written;
pub use numbers::{put_u8, put_u16, put_u32, put_u64, u8_at, u16_at, u32_at, u64_at};
