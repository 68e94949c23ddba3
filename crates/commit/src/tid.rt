//! TIDs as the machine keeps them.
ghost use Rattle.std.specs.Prelude.{◌≡◌, ◌%◌, max};
ghost use Rattle.tidword.specs.TidWord.{tid_of, installed_word};
ghost use Rattle.tidword.specs.Lawful.{next};

use crate::value::Value;
use money::NO_PAYLOAD;
use std::marker::Model;
use tidword::{TidWord, next_tid};

/// A TID (Silo, section 4.2): a TID word with no status bits, which contracts see as a number.
#[derive(Clone, Copy, Debug, PartialEq, Eq)]
pub struct Tid {
    word: u64,
}

impl Model for Tid {
    ghost use Rattle.std.specs.Prelude.{◌≡◌, ℕ, ◌%◌};

    ghost Value = { ℕ };

    ghost view = { λ t. t.word };

    ghost invariant = { λ t. t.word % 8 ≡ 0 };

    ghost inverse = { λ n. record { word = n } };
}

impl Tid {
    /// The TID below all others, of epoch 0.
    pub(crate) fn zero() -> Tid
        ensures { result ≡ 0 }
    {
        Tid { word: 0 }
    }

    /// The TID of a word.
    pub(crate) fn of(word: TidWord) -> Tid
        ensures { result ≡ tid_of word }
    {
        Tid {
            word: word.tid().word(),
        }
    }

    /// The greater of two TIDs.
    pub(crate) fn max(self, other: Tid) -> Tid
        ensures { result ≡ max self other }
    {
        Tid {
            word: self.word.max(other.word),
        }
    }

    /// The TID that a commit takes in this epoch, of the greatest TID that it has seen and its worker's last. None
    /// where there is none left.
    pub(crate) fn next(seen: Tid, last: Tid, epoch: u32) -> Option<Tid>
        ensures { result ≡ next seen last epoch }
    {
        match next_tid(TidWord::new(seen.word), TidWord::new(last.word), epoch) {
            Ok(tid) => Some(Tid { word: tid.word() }),
            Err(_) => None,
        }
    }

    /// The word of the version that a commit with this TID stores: the latest, unlocked, and absent with no value.
    pub(crate) fn installed(self, value: &Option<Value>) -> TidWord
        ensures { result ≡ installed_word self value.now }
    {
        // The word tells whether there is a value, and nothing of it.
        let payload = match value {
            Some(_) => Some(NO_PAYLOAD),
            None => None,
        };
        TidWord::new(self.word).installed(&payload)
    }
}
