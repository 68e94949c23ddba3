//! A script of two New-Orders, in one piece.

use money::Refusal;
use population::Population;
use program_script::script;
use std::alloc::Global;
use std::sync::Wait;
use tables::Scale;

const LINES: &[u8] = b"neworder 1 1 3 1:1:10 2:1:10 3:1:10 4:1:10 5:1:10\n\
    neworder 1 1 4 1:1:1 1:1:1 1:1:1 1:1:1 1:1:1\n";

/// The plain population of one warehouse, two districts, ten customers a district and 20 items.
pub(crate) fn small(alloc: Global) -> Result<Population, Refusal> {
    Population::plain(alloc, Scale::new(1, 2, 10, 20, 30, 1_000)?)
}

/// Answers the script over the population, and reports.
pub(crate) fn answer<R: Wait>(rt: &R, alloc: Global, out: &mut Vec<u8>) -> Result<(), Refusal> {
    let mut lines = LINES;
    script(rt, alloc, small(alloc)?, &mut lines, out)?;
    Ok(())
}
