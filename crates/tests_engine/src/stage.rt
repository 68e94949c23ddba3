//! The plain population of one warehouse, two districts and ten customers a district, on its 1,085 narrow cells and a
//! wide one for each customer's C_DATA: record 0 is the warehouse, 1 and 2 are the districts, and from 3 on there are
//! the customers of the first district.
ghost use Rattle.std.specs.Prelude.{◌≡◌, ◌≢◌, ◌<◌, ℕ, length, IfOk};
ghost use Rattle.population.specs.Initial.{initial};
ghost use Rattle.tables.specs.Inputs.{IsInput};
ghost use Rattle.tables.specs.Records.{narrow_count, size};
ghost use Rattle.tables.specs.declared.records.Table.TheVariants as table;
ghost use Rattle.readset.specs.Cells.{AreCellsOf};
ghost use Rattle.cells.specs.Records.{at};
ghost use Rattle.cells.specs.Versions.{last_tid};

use cells::{Cells, Pen, Reader};
use encoding::{first_texts, first_versions};
use money::{NO_PAYLOAD, Payload, Refusal};
use population::Population;
use readset::Work;
use std::alloc::Global;
use std::sync::Wait;
use std::test::Fail;
use tables::{Input, Scale};
use tidword::{Status, TidWord};
use transactions::execute;

/// The words of the warehouse.
pub(crate) const WAREHOUSE: Payload = [20_000, 0, 0, 0, 0, 0, 0];

/// The words of a district.
pub(crate) const DISTRICT: Payload = [10_000, 11, 0, 0, 0, 0, 0];

/// The words of a customer, of which the first is a C_BALANCE of -10.00.
pub(crate) const CUSTOMER: Payload = [u64::MAX - 999, 1_000, 1, 0, 0, 0, 0];

pub(crate) fn small(alloc: Global) -> Result<Population, Refusal>
    ensures narrow { IfOk result (λ population. narrow_count (initial population).scale ≡ 1085) }
    ensures wide { IfOk result (λ population. size (initial population).scale table.CustomerData ≡ 20) }
{
    Population::plain(alloc, Scale::new(1, 2, 10, 20, 30, 1_000)?)
}

/// The population on cells, with one reader.
#[derive(Drop)]
pub(crate) struct Stage {
    pub(crate) population: Population,
    pub(crate) cells: Cells,
    pub(crate) pen: Pen,
    pub(crate) reader: Reader,
}

pub(crate) fn open<R: Wait>(rt: &R, alloc: Global) -> Result<Stage, Fail>
    ensures count { IfOk result (λ s. length s.cells.narrow ≡ 1085) }
    ensures scale { IfOk result (λ s. AreCellsOf (initial s.population).scale s.cells) }
    ensures pen { IfOk result (λ s. s.pen.cells ≡ s.cells) }
    ensures reader { IfOk result (λ s. s.reader.cells ≡ s.cells) }
    ensures first { IfOk result (λ s. (n : ℕ) → n < length s.cells.narrow → last_tid (at s.pen.all n) ≡ 0) }
{
    let population = small(alloc)?;
    let first = first_versions(alloc, population.tables())?;
    let texts = first_texts(alloc, population.tables())?;
    let (cells, pen, mut readers) = Cells::with_wide(rt, alloc, first, texts, 1)?;
    let reader = readers.pop().ok_or("reader")?;
    Ok(Stage {
        population,
        cells,
        pen,
        reader,
    })
}

/// Executes a transaction with the one reader.
pub(crate) fn execute_on<R: Wait>(
    rt: &R,
    alloc: Global,
    stage: &mut Stage,
    input: &Input,
) -> Result<Work, Refusal>
    requires input { IsInput (initial stage.old.population).scale input.now }
    requires scale { AreCellsOf (initial stage.old.population).scale stage.old.cells }
    requires reader { stage.old.reader.cells ≡ stage.old.cells }
    ensures population { stage.new.population ≡ stage.old.population }
    ensures cells { stage.new.cells ≡ stage.old.cells }
    ensures pen { stage.new.pen ≡ stage.old.pen }
    ensures reader { stage.new.reader.cells ≡ stage.old.reader.cells }
{
    execute(
        rt,
        alloc,
        &stage.cells,
        &mut stage.reader,
        &stage.population,
        input,
    )
}

/// Stores the version 1 of epoch 1 of a record: these words, or that it is absent.
pub(crate) fn store<R: Wait>(rt: &R, stage: &mut Stage, number: u32, value: Option<Payload>)
    requires own { stage.old.pen.cells ≡ stage.old.cells }
    requires is_record { number < length stage.old.cells.narrow }
    requires first { last_tid (at stage.old.pen.all number) ≡ 0 }
    ensures own { stage.new.pen.cells ≡ stage.new.cells }
    ensures others { (n : ℕ) → n ≢ number → at stage.new.pen.all n ≡ at stage.old.pen.all n }
    ensures population { stage.new.population ≡ stage.old.population }
    ensures cells { stage.new.cells ≡ stage.old.cells }
    ensures reader { stage.new.reader ≡ stage.old.reader }
{
    let status = Status {
        latest: true,
        absent: value.is_none(),
        locked: false,
    };
    let word = TidWord::pack(1, 1, status);
    stage.cells.store(
        rt,
        &mut stage.pen,
        number,
        word,
        value.unwrap_or(NO_PAYLOAD),
    );
}
