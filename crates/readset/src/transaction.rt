//! A transaction under way, from its first read to its work.
ghost use Rattle.std.specs.Prelude.{◌≡◌, ◌≢◌, ◌≤◌, ℕ, [], Some, Ok, IsSome, length, OnOk, OnErr, IfOk, IfErr};
ghost use Rattle.money.specs.declared.refusal.Refusal.TheVariants.{OutOfMemory};
ghost use Rattle.tables.specs.Database.{Database};
ghost use Rattle.tables.specs.Keys.{IsCustomerKey};
ghost use Rattle.tables.specs.Records.{IsNarrowKey, number_of_key};
ghost use Rattle.tables.specs.declared.records.RecordKey.TheVariants as record_key;
ghost use Rattle.tables.specs.Rows.{row_at};
ghost use Rattle.population.specs.Initial.{initial};
ghost use Rattle.cells.specs.Records.{ReaderView};
ghost use Rattle.tables.specs.declared.limits.TheConstants.{MAX_READS, MAX_WRITES};
ghost use Rattle.cells.specs.declared.cells.Version.{Version};
ghost use Rattle.readset.specs.Cells.{AreCellsOf};
ghost use Rattle.readset.specs.Reads.{held, value_of, IsReadAs};
ghost use Rattle.readset.specs.Writes.{no_writes, puts};
ghost use Rattle.readset.specs.Commit.{IsCommitOf};
ghost use Rattle.readset.specs.Refused.{NoneMissing, IsAboveCap};
ghost use Rattle.readset.specs.Transaction.{IsUnderWay, ReadsMore, GoesOn, Finds, IsExecuted};

use crate::reads::{ReadSet, value_of, wide_value_of};
use crate::work::Work;
use crate::writes::WriteSet;
use cells::{Cells, Reader};
use customer_data::DataWords;
use money::{Payload, Refusal};
use population::Population;
use std::alloc::Global;
use std::marker::{Brand, Model, PhantomData};
use std::sync::Wait;
use tables::{CustomerKey, History, Input, RecordKey, Reply, Scale};

/// Names where one transaction starts: its population's tables, and what its reader knows then.
pub trait Start {
    ghost use Rattle.tables.specs.Database.{Database};
    ghost use Rattle.cells.specs.Records.{ReaderView};

    /// The tables of the population.
    ghost tables: { Database };

    /// What the reader knows at the start.
    ghost reader: { ReaderView };
}

/// Only so that there is one: a call at `Brand` names its own start.
impl Start for Brand {
    ghost use Rattle.std.specs.Prelude.{[]};
    ghost use Rattle.tables.specs.Sizes.{sizes};
    ghost use Rattle.tables.specs.Database.{empty_database};

    ghost tables = { empty_database (sizes 1 1 10 20 10 1) };

    ghost reader = { record { cells = record { narrow = []; wide = [] }; seen = []; loads = [] } };
}

/// A transaction that reads records, each at most once, and says what they are to hold (Silo, section 4.4). Contracts
/// see what it has read and is to write so far; the type keeps that this is what its reader's loads gave.
#[derive(Drop)]
pub struct Transaction<'a, K: Start> {
    cells: &'a Cells,
    population: &'a Population,
    reader: Reader,
    reads: ReadSet,
    writes: WriteSet,
    start: PhantomData<K>,
}

impl<'a, K: Start> Model for Transaction<'a, K> {
    ghost use Rattle.std.specs.Prelude.{◌≡◌};
    ghost use Rattle.population.specs.Initial.{initial};
    ghost use Rattle.readset.specs.Cells.{AreCellsOf};
    ghost use Rattle.readset.specs.Transaction.{TransactionView, IsUnderWay};

    ghost Value = { TransactionView };

    ghost view = { λ x. record { reads = x.reads; writes = x.writes } };

    ghost invariant = { λ x. (initial x.population.now ≡ K.tables) × (x.cells.now ≡ K.reader.cells)
        × AreCellsOf K.tables.scale x.cells.now
        × IsUnderWay K.reader x.reader (record { reads = x.reads; writes = x.writes }) };
}

impl<'a, K: Start> Transaction<'a, K> {
    /// A transaction that has read nothing. Takes no memory.
    pub fn begin(
        alloc: Global,
        cells: &'a Cells,
        population: &'a Population,
        reader: Reader,
    ) -> Transaction<'a, K>
        requires tables { initial population.now ≡ K.tables }
        requires reader { reader ≡ K.reader }
        requires own { reader.cells ≡ cells.now }
        requires cells { AreCellsOf K.tables.scale cells.now }
        ensures { result ≡ record { reads = []; writes = no_writes } }
    {
        Transaction {
            cells,
            population,
            reader,
            reads: ReadSet::new(alloc),
            writes: WriteSet::new(alloc),
            start: PhantomData,
        }
    }

    /// Takes memory for just so many reads and writes of narrow records, in one block each, where none was taken yet:
    /// for a caller that knows how many it is to make. More may still come.
    ///
    /// # Errors
    ///
    /// `OutOfMemory`, and no other.
    pub fn reserve(&mut self, reads: usize, writes: usize) -> Result<(), Refusal>
        ensures same { self.new ≡ self.old }
        ensures only_memory { IfErr result (λ refusal. refusal ≡ OutOfMemory) }
    {
        self.reads.reserve(reads)?;
        self.writes.reserve(writes)
    }

    /// The scale of the tables.
    pub fn scale(&self) -> Scale
        ensures { result ≡ K.tables.scale }
    {
        self.population.scale()
    }

    /// The population.
    pub fn population(&self) -> &Population
        ensures { initial result.now ≡ K.tables }
    {
        self.population
    }

    /// The words of a narrow record, or nothing where it is absent: as it was read before, or else by a load. Costs
    /// what `ReadSet::get` does.
    ///
    /// # Errors
    ///
    /// `OutOfMemory`, and no other: nothing is read then. It isn't given of a record that was read before.
    pub fn read<R: Wait>(&mut self, rt: &R, key: RecordKey) -> Result<Option<Payload>, Refusal>
        requires { IsNarrowKey K.tables.scale key }
        ensures words { Finds K.tables self.new result (λ words t. row_at t key ≡ words) }
        ensures holds { OnOk result (IsSome (held self.new.reads (number_of_key K.tables.scale key))) }
        ensures version { IfOk result (IsReadAs self.new.reads (number_of_key K.tables.scale key)) }
        ensures again { (v : Version) → held self.old.reads (number_of_key K.tables.scale key) ≡ Some v
            → (result ≡ Ok (value_of v)) × (self.new ≡ self.old) }
        ensures others { (n : ℕ) → n ≢ number_of_key K.tables.scale key
            → held self.new.reads n ≡ held self.old.reads n }
        ensures reads { ReadsMore 1 self.old self.new }
        ensures kept { OnErr result (self.new ≡ self.old) }
        ensures only_memory { IfErr result (λ refusal. refusal ≡ OutOfMemory) }
    {
        let number = self.population.numbering().number_of_key(key);
        let version = self.reads.get(rt, self.cells, &mut self.reader, number)?;
        Ok(value_of(&version))
    }

    /// The words of a customer's C_DATA, as `read` gives those of a narrow record. Costs what `ReadSet::get_wide` does.
    ///
    /// # Errors
    ///
    /// `OutOfMemory`, and no other: nothing is read then. It isn't given of a record that was read before.
    pub fn read_wide<R: Wait>(
        &mut self,
        rt: &R,
        key: CustomerKey,
    ) -> Result<Option<DataWords>, Refusal>
        requires { IsCustomerKey K.tables.scale key }
        ensures words { Finds K.tables self.new result (λ words t. row_at t (record_key.CustomerData key) ≡ words) }
        ensures holds { OnOk result (IsSome
            (held self.new.reads (number_of_key K.tables.scale (record_key.CustomerData key)))) }
        ensures version { IfOk result
            (IsReadAs self.new.reads (number_of_key K.tables.scale (record_key.CustomerData key))) }
        ensures again { (v : Version)
            → held self.old.reads (number_of_key K.tables.scale (record_key.CustomerData key)) ≡ Some v
            → (result ≡ Ok (value_of v)) × (self.new ≡ self.old) }
        ensures others { (n : ℕ) → n ≢ number_of_key K.tables.scale (record_key.CustomerData key)
            → held self.new.reads n ≡ held self.old.reads n }
        ensures reads { ReadsMore 1 self.old self.new }
        ensures kept { OnErr result (self.new ≡ self.old) }
        ensures only_memory { IfErr result (λ refusal. refusal ≡ OutOfMemory) }
    {
        let key = RecordKey::CustomerData(key);
        let number = self.population.numbering().number_of_key(key);
        let version = self
            .reads
            .get_wide(rt, self.cells, &mut self.reader, number)?;
        Ok(wide_value_of(&version))
    }

    /// Says what a narrow record that was read is to hold, in the place of what was said of it before. Costs what
    /// `WriteSet::put` does.
    ///
    /// # Errors
    ///
    /// `OutOfMemory`, and no other. What was said is then as before.
    pub fn put(&mut self, key: RecordKey, value: Option<Payload>) -> Result<(), Refusal>
        requires key { IsNarrowKey K.tables.scale key }
        requires read { IsSome (held self.old.reads (number_of_key K.tables.scale key)) }
        ensures reads { self.new.reads ≡ self.old.reads }
        ensures puts { OnOk result (self.new.writes
            ≡ puts self.old.writes (number_of_key K.tables.scale key) value) }
        ensures kept { OnErr result (self.new.writes ≡ self.old.writes) }
        ensures goes_on { GoesOn 0 1 self.old self.new }
        ensures only_memory { IfErr result (λ refusal. refusal ≡ OutOfMemory) }
    {
        let number = self.population.numbering().number_of_key(key);
        self.writes.put(number, value)
    }

    /// Says what a customer's C_DATA, of which the record was read, is to become, as `put` does with a narrow record.
    /// Costs what `WriteSet::put_wide` does.
    ///
    /// # Errors
    ///
    /// `OutOfMemory`, and no other. What was said is then as before.
    pub fn put_wide(&mut self, key: CustomerKey, words: &DataWords) -> Result<(), Refusal>
        requires key { IsCustomerKey K.tables.scale key }
        requires read { IsSome
            (held self.old.reads (number_of_key K.tables.scale (record_key.CustomerData key))) }
        ensures reads { self.new.reads ≡ self.old.reads }
        ensures puts { OnOk result (self.new.writes
            ≡ puts self.old.writes (number_of_key K.tables.scale (record_key.CustomerData key)) (Some words.now)) }
        ensures kept { OnErr result (self.new.writes ≡ self.old.writes) }
        ensures goes_on { GoesOn 0 1 self.old self.new }
        ensures only_memory { IfErr result (λ refusal. refusal ≡ OutOfMemory) }
    {
        let key = RecordKey::CustomerData(key);
        let number = self.population.numbering().number_of_key(key);
        self.writes.put_wide(number, words)
    }

    /// Says which row HISTORY is to get, in the place of the row said before.
    pub fn put_history_row(&mut self, row: History)
        ensures { self.new ≡ record {
          reads = self.old.reads;
          writes
              = record { values = self.old.writes.values; history_row = Some row };
        } }
    {
        self.writes.put_history_row(row);
    }

    /// Its reader as it is now, what it has read, and what it is to write.
    pub fn into_parts(self) -> (Reader, ReadSet, WriteSet)
        ensures under_way { IsUnderWay K.reader result.0 self.entry }
        ensures reads { result.1 ≡ self.entry.reads }
        ensures writes { result.2 ≡ self.entry.writes }
    {
        let Transaction {
            cells: _,
            population: _,
            reader,
            reads,
            writes,
            start: _,
        } = self;
        (reader, reads, writes)
    }

    /// The reader as it is now, and the work, where the reply was found; else the refusal.
    #[inline(always)]
    pub fn finish(
        self,
        input: Input,
        reply: Result<Reply, Refusal>,
    ) -> (Reader, Result<Work, Refusal>)
        requires reply { Finds K.tables self reply (λ told t. IsCommitOf t input self.writes told) }
        requires none_missing { NoneMissing K.tables input }
        requires within_cap { ¬ IsAboveCap K.tables.scale input self.reads }
        requires reads { length self.reads ≤ MAX_READS }
        requires writes { length self.writes.values ≤ MAX_WRITES }
        ensures { IsExecuted K.tables input K.reader result.0 result.1 }
    {
        let (reader, reads, writes) = self.into_parts();
        match reply {
            Ok(reply) => (
                reader,
                Ok(Work {
                    input,
                    reads,
                    writes,
                    reply,
                }),
            ),
            Err(refusal) => (reader, Err(refusal)),
        }
    }
}
