//! The text of scripts: how a stream of bytes is cut into lines, what a line asks, and how the replies are
//! written. Nothing here reads or writes a file.
#![tactic(auto)]

mod amount;
mod answer;
mod cut;
mod digits;
mod fields;
mod last_names;
mod line_buffer;
mod order_words;
mod read;
mod replies;
mod report;
mod request;
mod shown;
mod words;

pub use amount::amounts_read_as_printed;
pub use answer::Answer;
pub use line_buffer::{LineBuffer, MAX_LINE, cutting_laws};
pub use read::{in_range, one_line_one_request, read_request};
pub use replies::print_reply;
pub use report::{print_report, print_verdicts};
pub use request::{Request, ShowKey};
pub use shown::ShownRow;
