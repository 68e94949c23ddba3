//! What a record of the machine holds.
ghost use Rattle.std.specs.Prelude.{◌≡◌};

use customer_data::{DATA_WORDS, DataWords};
use money::{PAYLOAD_WORDS, Payload};
use std::marker::Model;

/// What a record of the machine holds, or is to hold: the words of a row, or those of a customer's text. Contracts see
/// the list of them.
#[derive(Clone, Copy, Debug, PartialEq, Eq)]
pub struct Value {
    /// The words, and zeros behind them.
    words: DataWords,
    count: usize,
}

impl Model for Value {
    ghost use Rattle.std.specs.Prelude.{◌≡◌, ◌≤◌, ◌-◌, ◌++◌, ℕ, List, length, take, drop, replicate};
    ghost use Rattle.std.proofs.Common.{arith, sym};
    ghost use Rattle.std.proofs.lemmas.List.{length-take-le, take-append-drop};

    ghost Value = { List ℕ };

    ghost view = { λ v. take v.count v.words };

    ghost invariant = { λ v. (v.count ≤ 63) × (length v.words ≡ 63)
        × (drop v.count v.words ≡ replicate (63 - v.count) 0) };

    ghost inverse = { λ held. record { words = held ++ replicate (63 - length held) 0; count = length held } };

    ghost inverse_ok = { λ v h i.
        let held : length (take v.count v.words) ≡ v.count =
        length-take-le v.count v.words (omega (arith, h.0, h.1)) in
        let same : take v.count v.words ++ replicate (63 - length (take v.count v.words)) 0 ≡ v.words =
        rw (held, sym h.2) (take-append-drop v.count v.words) in
        record { words = same i; count = held i } };
}

impl Value {
    /// The words of a row.
    pub fn narrow(payload: Payload) -> Value
        ensures { result ≡ payload }
    {
        let mut words = [0; DATA_WORDS];
        words[..PAYLOAD_WORDS].copy_from_slice(&payload);
        Value {
            words,
            count: PAYLOAD_WORDS,
        }
    }

    /// The words of a customer's text.
    pub fn wide(words: DataWords) -> Value
        ensures { result ≡ words }
    {
        Value {
            words,
            count: DATA_WORDS,
        }
    }
}
