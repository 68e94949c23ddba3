//! A script: lines that come in, each answered in turn, over one terminal of an engine.
#![tactic(auto)]

mod answering;
mod hints;
mod running;
mod showing;
mod turns;

pub use hints::{Hints, NoHints};
pub use running::{MAX_LINES, hinted_script, script};
pub use turns::{bytes_determine_text, lines_determine_turns};
