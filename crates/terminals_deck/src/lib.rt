//! What a terminal asks for, drawn from a seed (TPC-C 2.4.1 to 2.8.1, in the shares of 5.2.3).
#![tactic(auto)]

mod deck;
mod drawing;
mod drawn;
mod order;
mod settings;

pub use deck::Deck;
pub use settings::Settings;
