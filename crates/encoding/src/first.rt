//! What the records of tables begin with: all absent at first, and then a pass over each table.

ghost use Rattle.std.specs.Prelude.{◌≡◌, ◌<◌, ℕ, None, List, length, IfOk, OnOk};
ghost use Rattle.std.specs.BTreeMap.{IsOrdered};
ghost use Rattle.std.specs.FinMap.{from_entries};
ghost use Rattle.std.specs.List.{fold};
ghost use Rattle.tables.specs.Conditions.{IsConsistent};
ghost use Rattle.tables.specs.Database.{database};
ghost use Rattle.tables.specs.Maps.{EachRow};
ghost use Rattle.tables.specs.Records.{IsNarrowKey, narrow_count};
ghost use Rattle.tables.specs.Rows.{row_at};
ghost use Rattle.tables.specs.WellFormed.{IsWellFormed};
ghost use Rattle.tables.specs.declared.records.RecordKey.{RecordKey as KeyOfRecord};
ghost use Rattle.encoding.specs.Newest.{words_at, AreFirst};
ghost use Rattle.encoding.specs.Begun.{AreBegun, begun_by, rows_alone};

use crate::beginnings::{
    Customers, Districts, LastOrder, NewOrders, NextOrder, NoOrder, OldestOrder, OrderLines,
    Orders, Stocks, Warehouses,
};
use cells::{FirstVersions, Newest};
use money::Payload;
use std::alloc::{AllocError, Global};
use std::collections::BTreeMap;
use tables::{RecordKey, Scale, Tables, narrow_count, number_of_key};
use tidword::TidWord;

/// How a row of a table gives a record its first words.
pub trait Begins<K, X> {
    ghost record_of: { K → X → KeyOfRecord };

    ghost words_of: { List ℕ → K → X → List ℕ };

    /// The record.
    fn record(key: &K, row: &X) -> RecordKey
        ensures { result ≡ record_of key.now row.now };

    /// Its words with this row, where it had those before.
    fn words(before: Payload, key: &K, row: &X) -> Payload
        ensures { result ≡ words_of before key.now row.now };
}

/// What the records of tables begin with, by record number: each row's words, absence where there is no row, and the
/// numbers of the two index records. Costs one or two passes over each table, and memory for the pages of records of
/// which some is there.
pub fn first_versions(alloc: Global, tables: &Tables) -> Result<FirstVersions, AllocError>
    requires well_formed { IsWellFormed (database tables.now) }
    requires consistent { IsConsistent (database tables.now) }
    ensures { IfOk result (AreFirst (database tables.now)) }
{
    let mut first = none_of(alloc, &tables.scale)?;
    begin_rows(&mut first, tables)?;
    begin_numbers(&mut first, tables)?;
    Ok(first)
}

/// All records absent.
fn none_of(alloc: Global, scale: &Scale) -> Result<FirstVersions, AllocError>
    ensures { IfOk result (AreBegun scale.now (λ key. None)) }
{
    FirstVersions::absent(alloc, narrow_count(scale) as usize)
}

/// Gives the records of rows their words.
fn begin_rows(first: &mut FirstVersions, tables: &Tables) -> Result<(), AllocError>
    requires well_formed { IsWellFormed (database tables.now) }
    requires none { AreBegun (database tables.now).scale (λ key. None) first.old }
    ensures { OnOk result
        (AreBegun (database tables.now).scale (rows_alone (database tables.now)) first.new) }
{
    let scale = &tables.scale;
    begin::<_, _, Warehouses>(first, scale, &tables.warehouses)?;
    begin::<_, _, Districts>(first, scale, &tables.districts)?;
    begin::<_, _, Customers>(first, scale, &tables.customers)?;
    begin::<_, _, NewOrders>(first, scale, &tables.new_orders)?;
    begin::<_, _, Orders>(first, scale, &tables.orders)?;
    begin::<_, _, OrderLines>(first, scale, &tables.lines)?;
    begin::<_, _, Stocks>(first, scale, &tables.stock)?;
    Ok(())
}

/// Gives the two index records their numbers. OLDEST starts at D_NEXT_O_ID and is lowered by each NEW-ORDER row;
/// LAST starts at 0 and is raised by each ORDER row.
fn begin_numbers(first: &mut FirstVersions, tables: &Tables) -> Result<(), AllocError>
    requires well_formed { IsWellFormed (database tables.now) }
    requires consistent { IsConsistent (database tables.now) }
    requires rows { AreBegun (database tables.now).scale (rows_alone (database tables.now)) first.old }
    ensures { OnOk result (AreBegun (database tables.now).scale (row_at (database tables.now)) first.new) }
{
    let scale = &tables.scale;
    begin::<_, _, NextOrder>(first, scale, &tables.districts)?;
    begin::<_, _, OldestOrder>(first, scale, &tables.new_orders)?;
    begin::<_, _, NoOrder>(first, scale, &tables.customers)?;
    begin::<_, _, LastOrder>(first, scale, &tables.orders)?;
    Ok(())
}

/// One pass over a table, each of whose rows gives a record its words.
fn begin<K: Ord, X, B: Begins<K, X>>(
    first: &mut FirstVersions,
    scale: &Scale,
    rows: &BTreeMap<K, X>,
) -> Result<(), AllocError>
    requires count { length first.old ≡ narrow_count scale.now }
    requires keys { EachRow (λ k r. IsNarrowKey scale.now (B.record_of k r))
        (from_entries {R = K.cmp} rows.now.entries) }
    ensures count { OnOk result (length first.new ≡ length first.old) }
    ensures words { OnOk result ((n : ℕ) → n < length first.old → words_at first.new n
        ≡ fold (begun_by scale.now B.record_of B.words_of n) (words_at first.old n) rows.now.entries) }
    ensures ordered { IsOrdered K.cmp rows.now }
{
    for (key, row) in rows.iter() {
        let number = number_of_key(scale, B::record(key, row)) as usize;
        let before = first.get(number);
        let payload = B::words(before.payload, key, row);
        let version = Newest {
            word: TidWord::POPULATED,
            payload,
        };
        first.set(number, version)?;
    }
    Ok(())
}
