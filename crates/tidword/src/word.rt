//! TID words.
ghost use Rattle.std.specs.Prelude.{◌≡◌, ℕ, ◌+◌, ◌*◌, ◌/◌, ◌%◌, ◌^◌, ◌<◌, ◌↔◌, IsTrue};

use money::Payload;
use std::marker::Model;

/// The status bits of a TID word (Silo, section 4.2).
#[derive(Clone, Copy, Debug, PartialEq, Eq)]
pub struct Status {
    /// The version is its record's latest.
    pub latest: bool,
    /// The record isn't in its table.
    pub absent: bool,
    /// A writer has the record.
    pub locked: bool,
}

/// The TID word of a version (after Silo, section 4.2), which contracts see as a number: the epoch in bits 63 to
/// 32, the sequence in bits 31 to 3, and the status bits absent (bit 2), latest (bit 1) and locked (bit 0).
#[derive(Clone, Copy, Debug, PartialEq, Eq)]
pub struct TidWord {
    word: u64,
}

impl Model for TidWord {
    ghost Value = { ℕ };

    ghost view = { λ t. t.word };

    ghost inverse = { λ n. record { word = n } };
}

impl TidWord {
    ghost use Rattle.tidword.specs.TidWord.{tid_word, epoch_of, sequence_of, tid_of, installed_word};

    /// The word of a record that the population has: epoch 0, sequence 0, the latest version (`populated_word`).
    pub const POPULATED: TidWord = TidWord { word: 2 };

    /// The word of a record that isn't in its table: epoch 0, sequence 0, the latest version, absent.
    pub const ABSENT: TidWord = TidWord { word: 6 };

    /// The word of an epoch, a sequence below 2^29, and the status bits.
    pub fn pack(epoch: u32, sequence: u32, status: Status) -> TidWord
        requires { sequence < 2 ^ 29 }
        ensures { result ≡ tid_word epoch sequence status }
    {
        let tid = (u64::from(epoch) << 32) + (u64::from(sequence) << 3);
        let bits = u64::from(status.absent) * 4
            + u64::from(status.latest) * 2
            + u64::from(status.locked);
        TidWord { word: tid + bits }
    }

    /// The word of this number.
    pub const fn new(word: u64) -> TidWord
        ensures { result ≡ word }
    {
        TidWord { word }
    }

    /// The word as a number.
    pub fn word(self) -> u64
        ensures { result ≡ self }
    {
        self.word
    }

    /// The epoch, in bits 63 to 32.
    pub fn epoch(self) -> u32
        ensures { result ≡ epoch_of self }
    {
        (self.word >> 32) as u32
    }

    /// The sequence, in bits 31 to 3.
    pub fn sequence(self) -> u32
        ensures { result ≡ sequence_of self }
    {
        ((self.word >> 3) % (1 << 29)) as u32
    }

    /// Whether a writer has the record (bit 0).
    pub fn is_locked(self) -> bool
        ensures { IsTrue result ↔ (self % 2 ≡ 1) }
    {
        (self.word & 1) == 1
    }

    /// Whether the version is its record's latest (bit 1).
    pub fn is_latest(self) -> bool
        ensures { IsTrue result ↔ (self / 2 % 2 ≡ 1) }
    {
        (self.word >> 1) % 2 == 1
    }

    /// Whether the record isn't in its table (bit 2).
    pub fn is_absent(self) -> bool
        ensures { IsTrue result ↔ (self / 4 % 2 ≡ 1) }
    {
        (self.word >> 2) % 2 == 1
    }

    /// The TID: the word with the three status bits 0.
    pub fn tid(self) -> TidWord
        ensures { result ≡ tid_of self }
    {
        TidWord {
            word: self.word - self.word % 8,
        }
    }

    /// The word of the version that a commit with this TID stores: unlocked, the latest, and absent where the record
    /// is to hold no value.
    pub fn installed(self, value: &Option<Payload>) -> TidWord
        ensures { result ≡ installed_word (tid_of self) value.now }
    {
        let word = self.word - self.word % 8;
        match value {
            Some(_) => TidWord { word: word + 2 },
            None => TidWord { word: word + 6 },
        }
    }
}
