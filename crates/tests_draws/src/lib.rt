//! Tests of draws and of decks, on public calls. What the seeded population and a deck draw is tested by the program
//! `drawn`.
#![tactic(auto)]

#[cfg(test)]
mod deck_tests;
#[cfg(test)]
mod skewed_tests;
