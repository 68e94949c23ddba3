//! What a disk in memory records.

/// A call that a disk in memory has done.
#[derive(Debug, Drop)]
pub enum MemoryCall {
    /// Bytes were written over what was there, and past the end.
    Write {
        /// The place of the first of them, from 0.
        at: u64,
        /// The bytes.
        bytes: Vec<u8>,
    },
    /// All bytes were synced.
    Sync,
}
