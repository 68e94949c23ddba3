//! Tables of what their records hold.

ghost use Rattle.std.specs.Prelude.{◌≡◌, ℕ, ◌≤◌, ◌++◌, length, None, IfOk, IfErr, OnOk};
ghost use Rattle.money.specs.declared.refusal.Refusal.TheVariants.{OutOfMemory};
ghost use Rattle.tables.specs.Constant.{IsOf};
ghost use Rattle.tables.specs.Database.{Database, database, empty_database};
ghost use Rattle.tables.specs.Records.{size, narrow_count as count_of_narrow};
ghost use Rattle.tables.specs.declared.records.Table.TheVariants as table;
ghost use Rattle.tables.specs.Rows.{rows};
ghost use Rattle.tables.specs.Sizes.{IsScale};
ghost use Rattle.tables.specs.WellFormed.{IsWellFormed};
ghost use Rattle.population.specs.Initial.{initial};
ghost use Rattle.cells.specs.Records.{held_by};
ghost use Rattle.encoding.specs.Building.{below};
ghost use Rattle.encoding.specs.Held.{row_count, IsTableRecord, by_key, AreTables};
ghost use Rattle.encoding.specs.Newest.{AreLawful};

use crate::putting::{put, put_text};
use cells::{Cells, Pen};
use money::Refusal;
use population::Population;
use std::alloc::{AllocError, Global};
use tables::{History, Scale, Table, Tables, customer_at, key_of, narrow_count, record_count};

/// Tables whose records hold what these cells do, by the pen of them, with these rows added to the population's
/// HISTORY, and the population's columns that never change. A record whose newest version is absent has no row. The
/// cells are those of the scale's records; those of the index records aren't read.
///
/// Costs what populating costs, and a look at each record.
///
/// # Errors
///
/// `OutOfMemory`, and no other.
pub fn tables_of(
    alloc: Global,
    population: &Population,
    cells: &Cells,
    pen: &mut Pen,
    added: &[History],
) -> Result<Tables, Refusal>
    requires own { pen.old.cells ≡ cells.now }
    requires narrow { length cells.now.narrow ≡ count_of_narrow (initial population.now).scale }
    requires wide { length cells.now.wide ≡ size (initial population.now).scale table.CustomerData }
    requires lawful { AreLawful (initial population.now).scale (held_by pen.old) }
    ensures pen { pen.new ≡ pen.old }
    ensures tables { IfOk result (λ tables. AreTables (initial population.now)
        (by_key (initial population.now).scale (held_by pen.old)) (database tables)) }
    ensures rows { IfOk result (λ tables. (n : ℕ) → IsTableRecord (initial population.now).scale n
        → rows (database tables) n ≡ held_by pen.old n) }
    ensures population { IfOk result (λ tables. IsOf (initial population.now) (database tables)) }
    ensures history { IfOk result (λ tables. (database tables).history
        ≡ (initial population.now).history ++ added.now) }
    ensures is { IfOk result (λ tables. (t : Database) → IsOf (initial population.now) t → IsWellFormed t
        → ((n : ℕ) → IsTableRecord (initial population.now).scale n → rows t n ≡ held_by pen.old n)
        → t.history ≡ (initial population.now).history ++ added.now → database tables ≡ t) }
    ensures only_memory { IfErr result (λ refusal. refusal ≡ OutOfMemory) }
{
    let first = population.tables();
    let mut tables = without_rows(alloc, first, added)?;
    put_rows(&mut tables, first, cells, pen)?;
    put_texts(alloc, &mut tables, first, cells, pen)?;
    Ok(tables)
}

/// Tables with no row but the population's of ITEM and HISTORY, and the added ones.
fn without_rows(alloc: Global, population: &Tables, added: &[History]) -> Result<Tables, AllocError>
    ensures { IfOk result (λ tables. database tables ≡ record (empty_database (database population.now).scale) {
      items = (database population.now).items;
      history = (database population.now).history ++ added.now;
    }) }
{
    let mut tables = Tables::new(alloc, population.scale);
    tables.items = population.items.clone()?;
    tables.history.extend_from_slice(&population.history)?;
    tables.history.extend_from_slice(added)?;
    Ok(tables)
}

/// Puts what each narrow record of a row holds into tables that have no row of a record.
fn put_rows(
    tables: &mut Tables,
    population: &Tables,
    cells: &Cells,
    pen: &mut Pen,
) -> Result<(), AllocError>
    requires own { pen.old.cells ≡ cells.now }
    requires population { IsWellFormed (database population.now) }
    requires lawful_scale { IsScale (database population.now).scale }
    requires none { AreTables (database population.now) (λ key. None) (database tables.old) }
    requires count { row_count (database population.now).scale ≤ length cells.now.narrow }
    requires lawful { AreLawful (database population.now).scale (held_by pen.old) }
    ensures pen { pen.new ≡ pen.old }
    ensures tables { OnOk result (AreTables (database population.now) (by_key (database population.now).scale
        (below (row_count (database population.now).scale) (held_by pen.old))) (database tables.new)) }
    ensures history { OnOk result ((database tables.new).history ≡ (database tables.old).history) }
{
    for number in 0..row_count(&population.scale) {
        if let Some(words) = cells.held(pen, number) {
            let key = key_of(&population.scale, number);
            put(tables, population, key, &words)?;
        }
    }
    Ok(())
}

/// Puts what each record of C_DATA holds into tables that have the rows of the narrow records.
fn put_texts(
    alloc: Global,
    tables: &mut Tables,
    population: &Tables,
    cells: &Cells,
    pen: &mut Pen,
) -> Result<(), AllocError>
    requires own { pen.old.cells ≡ cells.now }
    requires rows { AreTables (database population.now) (by_key (database population.now).scale
        (below (row_count (database population.now).scale) (held_by pen.old))) (database tables.old) }
    requires narrow { length cells.now.narrow ≡ count_of_narrow (database population.now).scale }
    requires wide { length cells.now.wide ≡ size (database population.now).scale table.CustomerData }
    requires lawful { AreLawful (database population.now).scale (held_by pen.old) }
    ensures pen { pen.new ≡ pen.old }
    ensures tables { OnOk result (AreTables (database population.now)
        (by_key (database population.now).scale (held_by pen.old)) (database tables.new)) }
    ensures history { OnOk result ((database tables.new).history ≡ (database tables.old).history) }
{
    let scale = &population.scale;
    let first = narrow_count(scale);
    for number in first..record_count(scale) {
        if let Some(words) = cells.held_wide(pen, number) {
            put_text(alloc, tables, customer_at(scale, number - first), &words)?;
        }
    }
    Ok(())
}

/// How many narrow records have rows: those before the first index record. They are the numbers below this.
pub fn row_count(scale: &Scale) -> u32
    ensures value { result ≡ row_count scale.now }
    ensures limit { result ≤ count_of_narrow scale.now }
{
    Table::Oldest.first(scale)
}
