//! A page of records, each of the same number of words: readers load a record without a lock and without tearing, and
//! the holder of the pen stores versions (Silo, sections 4.2, 4.3 and 4.5). The rule that holds between any two steps
//! is over all words of a page and over what each of its seats knows.
#![tactic(auto)]

mod loading;
mod meeting;
mod page;
mod rule;
mod showing;
mod storing;

pub use loading::read;
pub use meeting::meet;
pub use page::{PAGE_RECORDS, Page, PageSeat, PageWords, open, start};
pub use showing::{head, held};
pub use storing::store;
