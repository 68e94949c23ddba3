//! What a transaction that has committed wrote.
ghost use Rattle.std.specs.Prelude.{◌≡◌, ◌++◌, Some, All, map};
ghost use Rattle.cells.specs.Records.{IsNarrow, IsWide};
ghost use Rattle.readset.specs.Beside.{AreBeside};
ghost use Rattle.readset.specs.Listed.{texts_of, history_row_of};
ghost use Rattle.readset.specs.Writes.{as_written, value_for};

use crate::beside::Beside;
use customer_data::DataWords;
use money::Payload;
use std::marker::Model;
use tables::History;

/// The writes of a transaction that has committed, by record number and in the order of the numbers. Contracts see
/// it as `WriteSetView`, as they see a `WriteSet`. A history has many lists, so the words of wide records stand in the
/// room of the HISTORY row: few commits write any.
#[derive(Drop)]
pub struct WriteList {
    values: Vec<(u32, Option<Payload>)>,
    beside: Beside,
}

impl Model for WriteList {
    ghost use Rattle.std.specs.Prelude.{◌++◌, map};
    ghost use Rattle.cells.specs.Records.{IsNarrow, IsWide};
    ghost use Rattle.readset.specs.Beside.{AreBeside};
    ghost use Rattle.readset.specs.Listed.{texts_of, history_row_of};
    ghost use Rattle.readset.specs.Writes.{WriteSetView, as_written};

    ghost Value = { WriteSetView };

    ghost view = { λ w. record {
      values = w.values.items ++ map as_written (texts_of w.beside);
      history_row = history_row_of w.beside;
    } };

    ghost invariant = { λ w. AreBeside IsNarrow IsWide w.values.items (map as_written (texts_of w.beside)) };
}

impl WriteList {
    /// Of values by record number, in the order of the numbers, and what there is beside them.
    pub(crate) fn new(values: Vec<(u32, Option<Payload>)>, beside: Beside) -> WriteList
        requires { AreBeside IsNarrow IsWide values.items (map as_written (texts_of beside)) }
        ensures { result ≡ record {
          values = values.items ++ map as_written (texts_of beside);
          history_row = history_row_of beside;
        } }
    {
        WriteList { values, beside }
    }

    /// What each record written holds after the commit, in the order of the record numbers: first each narrow one, and
    /// then each wide one.
    pub fn parts(&self) -> (&[(u32, Option<Payload>)], &[(u32, DataWords)])
        ensures values { result.0.now ++ map as_written result.1.now ≡ self.now.values }
        ensures kinds { AreBeside IsNarrow IsWide result.0.now (map as_written result.1.now) }
        ensures found { All (λ e. value_for self.now e.0 ≡ Some e.1) self.now.values }
    {
        (self.values.as_slice(), self.beside.texts())
    }

    /// The row that HISTORY got, if there is one.
    pub fn history_row(&self) -> Option<History>
        ensures { result ≡ self.now.history_row }
    {
        self.beside.history_row()
    }
}
