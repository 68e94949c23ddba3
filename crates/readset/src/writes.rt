//! What a transaction is to write.
ghost use Rattle.std.specs.Prelude.{◌≡◌, ◌<◌, ℕ, List, Option, Some, All, OnOk, OnErr, IfOk, IfErr, IfSome, IfNone, length};
ghost use Rattle.std.specs.Ordering.{nat_cmp};
ghost use Rattle.std.specs.Map.{keys_of};
ghost use Rattle.std.specs.List.Sorted.{IsStrictlySortedBy};
ghost use Rattle.cells.specs.Records.{CellsView, IsNarrow, IsWide};
ghost use Rattle.readset.specs.Writes.{no_writes, value_for, puts, AreWrittenOfKind};

use crate::arrivals::Arrivals;
use crate::beside::Beside;
use crate::list::WriteList;
use customer_data::DataWords;
use money::{Payload, Refusal};
use std::alloc::Global;
use std::marker::Model;
use tables::History;

/// What a transaction is to write: for each record written the words that it is to hold, or nothing
/// where it is to be absent, and at most one HISTORY row (Silo, section 4.4: the write set). Contracts see it
/// as `WriteSetView`, in the order of the record numbers. They stand as they came, so that a transaction that writes
/// some 200 records neither moves values nor spends more than a few steps on each look-up. Those of wide records stand
/// by themselves, so that a narrow one takes no more memory for them.
#[derive(Drop)]
pub struct WriteSet {
    values: Arrivals<Option<Payload>>,
    beside: Beside,
}

impl Model for WriteSet {
    ghost use Rattle.std.specs.Prelude.{◌++◌, map};
    ghost use Rattle.cells.specs.Records.{IsNarrow, IsWide};
    ghost use Rattle.readset.specs.Writes.{WriteSetView, as_written};
    ghost use Rattle.readset.specs.Arrived.{arrived};
    ghost use Rattle.readset.specs.Beside.{AreBeside};
    ghost use Rattle.readset.specs.Listed.{texts_of, history_row_of};

    ghost Value = { WriteSetView };

    ghost view = { λ w. record {
      values = arrived w.values ++ map as_written (texts_of w.beside);
      history_row = history_row_of w.beside;
    } };

    ghost invariant = { λ w. AreBeside IsNarrow IsWide (arrived w.values) (map as_written (texts_of w.beside)) };
}

impl WriteSet {
    ghost use Rattle.money.specs.declared.refusal.Refusal.TheVariants.{OutOfMemory};

    /// Nothing to write. Takes no memory.
    pub fn new(alloc: Global) -> WriteSet
        ensures none { result ≡ no_writes }
        ensures kinds { (cells : CellsView) → AreWrittenOfKind cells result }
    {
        WriteSet {
            values: Arrivals::new(alloc),
            beside: Beside::Nothing,
        }
    }

    /// Takes memory for just so many narrow records in one block, where none was taken yet: for a caller that knows how
    /// many it is to write. More may still come.
    ///
    /// # Errors
    ///
    /// `OutOfMemory`, and no other.
    pub(crate) fn reserve(&mut self, count: usize) -> Result<(), Refusal>
        ensures same { self.new ≡ self.old }
        ensures only_memory { IfErr result (λ refusal. refusal ≡ OutOfMemory) }
    {
        self.values.reserve(count)?;
        Ok(())
    }

    /// Says what a narrow record is to hold, in the place of what was said of it before. It comes before all wide ones.
    /// Costs constant time, amortized, for a record above all other narrow ones written; else the logarithm of how many
    /// are written, and a move of 8 bytes for each of those above.
    ///
    /// # Errors
    ///
    /// `OutOfMemory`, and no other. What was said is then as before.
    pub fn put(&mut self, number: u32, value: Option<Payload>) -> Result<(), Refusal>
        requires below { (n : ℕ) (held : Option (List ℕ)) → value_for self.old n ≡ Some held → IsWide held
            → number < n }
        ensures puts { OnOk result (self.new ≡ puts self.old number value) }
        ensures narrow { IsNarrow value }
        ensures kept { OnErr result (self.new ≡ self.old) }
        ensures only_memory { IfErr result (λ refusal. refusal ≡ OutOfMemory) }
    {
        match self.values.find(number) {
            Ok(at) => self.values.replace(at, number, value)?,
            Err(at) => {
                self.values.make_room(at)?;
                self.values.add(at, number, value);
            }
        }
        Ok(())
    }

    /// Says what a wide record is to hold, in the place of what was said of it before. It comes behind all narrow ones.
    /// Costs the logarithm of how many wide ones are written, and a move of each of those above.
    ///
    /// # Errors
    ///
    /// `OutOfMemory`, and no other. What was said is then as before.
    pub fn put_wide(&mut self, number: u32, words: &DataWords) -> Result<(), Refusal>
        requires above { (n : ℕ) (held : Option (List ℕ)) → value_for self.old n ≡ Some held → IsNarrow held
            → n < number }
        ensures puts { OnOk result (self.new ≡ puts self.old number (Some words.now)) }
        ensures kept { OnErr result (self.new ≡ self.old) }
        ensures only_memory { IfErr result (λ refusal. refusal ≡ OutOfMemory) }
    {
        let alloc = self.values.allocator();
        self.beside.put(alloc, number, words)?;
        Ok(())
    }

    /// Says which row HISTORY is to get, in the place of the row said before.
    pub fn put_history_row(&mut self, row: History)
        ensures { self.new ≡ record { values = self.old.values; history_row = Some row } }
    {
        self.beside.put_history_row(row);
    }

    /// What a narrow record is to hold, if it is written. Costs the logarithm of the number of records written.
    pub fn value(&self, number: u32) -> Option<Option<Payload>>
        ensures some { IfSome result (λ value. value_for self.now number ≡ Some value) }
        ensures none { IfNone result ((value : Option (List ℕ)) → value_for self.now number ≡ Some value
            → IsWide value) }
    {
        self.values.value_at(number).copied()
    }

    /// How many records are written.
    pub fn len(&self) -> usize
        ensures len { result ≡ length self.now.values }
        ensures found { All (λ e. value_for self.now e.0 ≡ Some e.1) self.now.values }
        ensures ordered { IsStrictlySortedBy nat_cmp (keys_of self.now.values) }
    {
        self.values.count() + self.beside.count()
    }

    /// The row that HISTORY is to get, if there is one.
    pub fn history_row(&self) -> Option<History>
        ensures { result ≡ self.now.history_row }
    {
        self.beside.history_row()
    }

    /// The same writes as a list. In constant time where the narrow records were written in the order of their numbers,
    /// and at most a quarter of the memory taken for them is spare; else in one pass over them.
    ///
    /// # Errors
    ///
    /// `OutOfMemory`, and no other.
    pub fn into_list(self) -> Result<WriteList, Refusal>
        ensures list { IfOk result (λ list. list ≡ self) }
        ensures only_memory { IfErr result (λ refusal. refusal ≡ OutOfMemory) }
    {
        let WriteSet { values, beside } = self;
        Ok(WriteList::new(values.into_ordered()?, beside))
    }
}
