//! Money, rates and refusals: the types that every layer of the engine speaks in.
#![tactic(auto)]

mod cents;
mod order;
mod payload;
mod rate;
mod refusal;
mod text;

pub use cents::{Cents, MAX_MONEY};
pub use order::total;
pub use payload::{NO_PAYLOAD, PAYLOAD_WORDS, Payload};
pub use rate::Rate;
pub use refusal::Refusal;
pub use text::one_text_one_value;
