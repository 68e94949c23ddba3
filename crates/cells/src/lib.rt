//! Record cells: the latest version of each record, which threads read without a lock and without tearing, and
//! which the holder of the pen changes (Silo, sections 4.2, 4.3 and 4.5).
#![tactic(auto)]

mod both;
mod cells;
mod first;
mod populate;
mod wide;
mod wide_first;
mod wide_opening;

pub use both::{Pen, Reader};
pub use cells::{Cells, Newest, Version};
pub use first::FirstVersions;
pub use wide::{WideNewest, WideVersion};
pub use wide_first::FirstWideVersions;
