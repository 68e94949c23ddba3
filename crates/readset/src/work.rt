//! A transaction that is executed, and not yet committed.

use crate::reads::ReadSet;
use crate::writes::WriteSet;
use tables::{Input, Reply};

/// What a transaction was asked, has read, is to write, and replies if it commits (Silo, section 4.4).
#[derive(Drop)]
pub struct Work {
    pub input: Input,
    pub reads: ReadSet,
    pub writes: WriteSet,
    pub reply: Reply,
}
