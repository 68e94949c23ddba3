//! The pages of records of any one size, with the pen and the readers of them all, by record number (Silo, sections 4.2
//! and 4.5). What a version says is nothing to this crate: it is a list of words, of which the first is its TID word.
#![tactic(auto)]

mod holders;
mod opening;
mod pages;

pub use holders::{PenOf, ReaderOf};
pub use opening::OpeningOf;
pub use pages::PageList;
