//! C_DATA, a customer's text of 300 to 500 characters (TPC-C 1.3.1), as the 63 words that stand for it in a record: a
//! text is made into words, words into their text, and a text is put at the left of it, as a Payment of a customer with
//! bad credit does (TPC-C 2.5.2.2). Nothing here takes memory but a Payment's own text, `CustomerData::of_words` and
//! copies.
#![tactic(auto)]

#[cfg(test)]
mod data_tests;
mod laws;
mod payments;
mod text;
mod words;

pub use laws::{first_text_is_one, payments_keep_texts, words_determine_text};
pub use payments::{PaymentText, data_after};
pub use text::CustomerData;
pub use words::{
    DATA_BYTES, DATA_WORDS, DataBytes, DataWords, MAX_DATA, MIN_DATA, text_of, unpack, with_front,
    words_of,
};
