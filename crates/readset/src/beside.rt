//! What writes have beside the values of narrow records: the HISTORY row, and the words of wide records.
ghost use Rattle.std.specs.Prelude.{◌≡◌, Some, OnOk, OnErr, length};
ghost use Rattle.std.specs.Ordering.{nat_cmp};
ghost use Rattle.std.specs.BTreeMap.{insert_entry};
ghost use Rattle.readset.specs.Listed.{texts_of, history_row_of};

use crate::few::Few;
use customer_data::DataWords;
use std::alloc::{AllocError, Global};
use tables::History;

/// The HISTORY row, if there is one, and the words of wide records. Few commits write any, and a history has many lists
/// of writes, so they stand behind a box, in the room of the row.
#[derive(Drop)]
pub(crate) enum Beside {
    Nothing,
    Row(History),
    Texts(Box<Texts>),
}

/// The words of wide records, and the HISTORY row, if there is one.
#[derive(Drop)]
pub(crate) struct Texts {
    pub(crate) wide: Few<DataWords>,
    pub(crate) history_row: Option<History>,
}

impl Beside {
    /// How many wide records there are.
    #[inline(always)]
    pub(crate) fn count(&self) -> usize
        ensures { result ≡ length (texts_of self.now) }
    {
        match self {
            Beside::Texts(texts) => texts.wide.count(),
            _ => 0,
        }
    }

    /// The words of wide records, in the order of their numbers.
    #[inline(always)]
    pub(crate) fn texts(&self) -> &[(u32, DataWords)]
        ensures { result.now ≡ texts_of self.now }
    {
        match self {
            Beside::Texts(texts) => texts.wide.entries(),
            _ => &[],
        }
    }

    /// The HISTORY row, if there is one.
    #[inline(always)]
    pub(crate) fn history_row(&self) -> Option<History>
        ensures { result ≡ history_row_of self.now }
    {
        match self {
            Beside::Nothing => None,
            Beside::Row(row) => Some(*row),
            Beside::Texts(texts) => texts.history_row,
        }
    }

    /// Says which row HISTORY is to get.
    pub(crate) fn put_history_row(&mut self, row: History)
        ensures row { history_row_of self.new ≡ Some row }
        ensures texts { texts_of self.new ≡ texts_of self.old }
    {
        match self {
            Beside::Texts(texts) => texts.history_row = Some(row),
            _ => *self = Beside::Row(row),
        }
    }

    /// Says what a wide record is to hold.
    pub(crate) fn put(
        &mut self,
        alloc: Global,
        number: u32,
        words: &DataWords,
    ) -> Result<(), AllocError>
        ensures puts { OnOk result (texts_of self.new ≡ insert_entry nat_cmp (texts_of self.old) number words.now) }
        ensures kept { OnErr result (texts_of self.new ≡ texts_of self.old) }
        ensures row { history_row_of self.new ≡ history_row_of self.old }
    {
        if let Beside::Texts(texts) = self {
            return texts.wide.put(number, *words);
        }
        let history_row = self.history_row();
        let mut wide = Few::new(alloc);
        wide.put(number, *words)?;
        *self = Beside::Texts(Box::new(alloc, Texts { wide, history_row })?);
        Ok(())
    }
}
