//! Texts on streams: a piece that is read, a text that is written, with a call tried again that was interrupted; a
//! stream that knows why it failed; and a terminal's screen: a line that is rewritten, lines that are cut.
#![tactic(auto)]

mod line;
mod narrow;
mod reading;
mod watched;
mod writing;

pub use line::ScreenLine;
pub use narrow::Narrow;
pub use reading::read_piece;
pub use watched::Watched;
pub use writing::write_text;
