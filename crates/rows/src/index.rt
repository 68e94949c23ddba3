//! What the records of the two indices hold, which have a record for each district and for each customer: a number.

ghost use Rattle.std.specs.Prelude.{◌≡◌};
ghost use Rattle.rows.specs.Reading.{IsReading};
ghost use Rattle.rows.specs.Columns.{words_of_oldest, IsOldestOfScale, words_of_last, IsLastOfScale};

use crate::reading::number;
use money::Payload;
use tables::Scale;

/// OLDEST of a district: the number of the order that waits longest for its delivery, or D_NEXT_O_ID where none does.
#[derive(Clone, Copy, Debug, PartialEq, Eq)]
pub struct Oldest {
    pub order: u32,
}

/// LAST of a customer: the number of its last order, or 0 where it has none.
#[derive(Clone, Copy, Debug, PartialEq, Eq)]
pub struct Last {
    pub order: u32,
}

impl Oldest {
    /// What these words say, or None where the number is no order's of this scale, nor a next one's.
    pub(crate) fn of_words(scale: &Scale, words: &Payload) -> Option<Oldest>
        ensures { IsReading (IsOldestOfScale scale.now) words_of_oldest words.now result }
    {
        let [order, 0, 0, 0, 0, 0, 0] = *words else {
            return None;
        };
        Some(Oldest {
            order: number(order, 1, scale.orders() + 1)?,
        })
    }

    /// Its words.
    pub(crate) fn to_words(self) -> Payload
        ensures { result ≡ words_of_oldest self }
    {
        [u64::from(self.order), 0, 0, 0, 0, 0, 0]
    }
}

impl Last {
    /// What these words say, or None where the number is above the order cap.
    pub(crate) fn of_words(scale: &Scale, words: &Payload) -> Option<Last>
        ensures { IsReading (IsLastOfScale scale.now) words_of_last words.now result }
    {
        let [order, 0, 0, 0, 0, 0, 0] = *words else {
            return None;
        };
        Some(Last {
            order: number(order, 0, scale.orders())?,
        })
    }

    /// Its words.
    pub(crate) fn to_words(self) -> Payload
        ensures { result ≡ words_of_last self }
    {
        [u64::from(self.order), 0, 0, 0, 0, 0, 0]
    }
}
