//! Steps of a transaction that read and write rows: whether what was read is a row of the scale is decided here, and
//! with it that a version is `Stale`.

ghost use Rattle.std.specs.Prelude.{◌≡◌, ◌≢◌, ℕ, Some, IsSome, Err, OnOk, OnErr, IfOk, IfErr};
ghost use Rattle.std.specs.Option.{ForSome, option_map};
ghost use Rattle.money.specs.declared.refusal.Refusal.TheVariants.{OutOfMemory, Stale};
ghost use Rattle.tables.specs.Records.{IsNarrowKey, number_of_key};
ghost use Rattle.readset.specs.Reads.{held, IsReadAs};
ghost use Rattle.readset.specs.Writes.{puts};
ghost use Rattle.readset.specs.Transaction.{ReadsMore, GoesOn, Finds};

use crate::transaction::{Start, Transaction};
use money::Refusal;
use rows::{Present, Row};
use std::sync::Wait;

/// The row of a key, or None where the record is absent: as it was read before, or else by a load. Costs what
/// `Transaction::read` does, and a test of each column.
///
/// # Errors
///
/// `OutOfMemory`, and nothing is read then; `Stale` where the record holds no row of the scale, so that no tables at
/// which the transaction may have read have it.
pub fn read_row<T: Row, R: Wait, K: Start>(
    rt: &R,
    transaction: &mut Transaction<'_, K>,
    key: T::Key,
) -> Result<Option<T>, Refusal>
    requires { IsNarrowKey K.tables.scale (T.record_of key) }
    ensures row { Finds K.tables transaction.new result (λ row t. T.at t key ≡ row) }
    ensures range { IfOk result (λ row. ForSome row (T.are K.tables.scale)) }
    ensures version { IfOk result (λ row. IsReadAs transaction.new.reads
        (number_of_key K.tables.scale (T.record_of key)) (option_map T.words_of row)) }
    ensures stale { result ≡ Err Stale → (row : T) → T.are K.tables.scale row
        → ¬ IsReadAs transaction.new.reads (number_of_key K.tables.scale (T.record_of key))
        (Some (T.words_of row)) }
    ensures holds { OnOk result (IsSome (held transaction.new.reads (number_of_key K.tables.scale (T.record_of key)))) }
    ensures others { (n : ℕ) → n ≢ number_of_key K.tables.scale (T.record_of key)
        → held transaction.new.reads n ≡ held transaction.old.reads n }
    ensures reads { ReadsMore 1 transaction.old transaction.new }
    ensures kept { result ≡ Err OutOfMemory → transaction.new ≡ transaction.old }
{
    let Some(words) = transaction.read(rt, T::key(key))? else {
        return Ok(None);
    };
    match T::read(&transaction.scale(), &words) {
        Some(row) => Ok(Some(row)),
        None => Err(Refusal::Stale),
    }
}

/// The row of a key that well-formed tables have. Costs what `read_row` does.
///
/// # Errors
///
/// As `read_row`, and `Stale` where the record is absent.
pub fn read_present<T: Present, R: Wait, K: Start>(
    rt: &R,
    transaction: &mut Transaction<'_, K>,
    key: T::Key,
) -> Result<T, Refusal>
    requires { IsNarrowKey K.tables.scale (T.record_of key) }
    ensures row { Finds K.tables transaction.new result (λ row t. T.at t key ≡ Some row) }
    ensures range { IfOk result (T.are K.tables.scale) }
    ensures version { IfOk result (λ row. IsReadAs transaction.new.reads
        (number_of_key K.tables.scale (T.record_of key)) (Some (T.words_of row))) }
    ensures stale { result ≡ Err Stale → (row : T) → T.are K.tables.scale row
        → ¬ IsReadAs transaction.new.reads (number_of_key K.tables.scale (T.record_of key))
        (Some (T.words_of row)) }
    ensures holds { OnOk result (IsSome (held transaction.new.reads (number_of_key K.tables.scale (T.record_of key)))) }
    ensures others { (n : ℕ) → n ≢ number_of_key K.tables.scale (T.record_of key)
        → held transaction.new.reads n ≡ held transaction.old.reads n }
    ensures reads { ReadsMore 1 transaction.old transaction.new }
    ensures kept { result ≡ Err OutOfMemory → transaction.new ≡ transaction.old }
{
    let row: Option<T> = read_row(rt, transaction, key)?;
    match row {
        Some(row) => Ok(row),
        None => Err(Refusal::Stale),
    }
}

/// Says which row a record that was read is to hold. Costs what `Transaction::put` does.
///
/// # Errors
///
/// `OutOfMemory`, and no other. What was said is then as before.
pub fn put_row<T: Row, K: Start>(
    transaction: &mut Transaction<'_, K>,
    key: T::Key,
    row: &T,
) -> Result<(), Refusal>
    requires key { IsNarrowKey K.tables.scale (T.record_of key) }
    requires read { IsSome (held transaction.old.reads (number_of_key K.tables.scale (T.record_of key))) }
    ensures reads { transaction.new.reads ≡ transaction.old.reads }
    ensures puts { OnOk result (transaction.new.writes
        ≡ puts transaction.old.writes (number_of_key K.tables.scale (T.record_of key)) (Some (T.words_of row.now))) }
    ensures kept { OnErr result (transaction.new.writes ≡ transaction.old.writes) }
    ensures goes_on { GoesOn 0 1 transaction.old transaction.new }
    ensures only_memory { IfErr result (λ refusal. refusal ≡ OutOfMemory) }
{
    transaction.put(T::key(key), Some(row.words()))
}
