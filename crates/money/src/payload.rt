//! The data of a record: words, the same number of them for every record.

/// How many words a record's data has: its columns stand in the first ones, and the others are 0.
pub const PAYLOAD_WORDS: usize = 7;

/// The data of a record.
pub type Payload = [u64; PAYLOAD_WORDS];

/// The data of a record without columns: every word is 0.
pub const NO_PAYLOAD: Payload = [0; PAYLOAD_WORDS];
