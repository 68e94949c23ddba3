//! Tables built of records that are changed here: they hold what the plain population begins with, but for a district
//! and an order.

ghost use Rattle.std.specs.Prelude.{◌≡◌, Some, length, IfOk, OnOk};
ghost use Rattle.tables.specs.Records.{IsNarrowKey, narrow_count};
ghost use Rattle.tables.specs.Sizes.{sizes};
ghost use Rattle.population.specs.Initial.{initial};
ghost use Rattle.cells.specs.Versions.{value_in};
ghost use Rattle.encoding.specs.Newest.{words_at};
ghost use Rattle.customer_data.specs.Text.{IsData};
ghost use Rattle.customer_data.specs.Words.{data_words};
ghost use Rattle.encoding.specs.Puts.{IsRow, MayHold};
ghost use Rattle.tests_tables.specs.Lawful.{AreLawfulRows};

use cells::{Cells, FirstVersions, Newest};
use customer_data::{
    CustomerData, DataWords, PaymentText, data_after, first_text_is_one, payments_keep_texts,
};
use encoding::{first_texts, first_versions, put_text, tables_of};
use money::{Cents, Payload, Rate, Refusal};
use population::Population;
use std::alloc::{AllocError, Global};
use std::sync::Wait;
use std::test::Fail;
use tables::{
    CustomerKey, District, DistrictKey, History, Order, OrderKey, RecordKey, Scale, Tables,
    number_of_key,
};
use tidword::TidWord;

const DISTRICT: DistrictKey = DistrictKey {
    warehouse: 1,
    district: 2,
};

/// The population has the orders 1 to 10 of each district.
const ORDER: OrderKey = OrderKey {
    warehouse: 1,
    district: 2,
    order: 11,
};

fn payment() -> History {
    History {
        customer: 3,
        customer_district: 2,
        customer_warehouse: 1,
        district: 2,
        warehouse: 1,
        date: 2,
        amount: Cents::new(1_234),
    }
}

#[test]
fn rows_of_changed_records(rt: HostRuntime) -> Result<(), Fail> {
    let (district, order, last_payment) = changed_rows(&built(&rt, rt.alloc())?);
    let expected = District {
        tax: Rate::new(500).ok_or("rate")?,
        year_to_date: Cents::new(11_234),
        next_order: 12,
    };
    assert_eq!(rt; district, Some(expected));
    let expected = Order {
        customer: 3,
        entry_date: 2,
        carrier: None,
        line_count: 5,
        all_local: true,
    };
    assert_eq!(rt; order, Some(expected));
    assert_eq!(rt; last_payment, Some(payment()));
    Ok(())
}

const CUSTOMER: CustomerKey = CustomerKey {
    warehouse: 1,
    district: 2,
    customer: 3,
};

// A Payment of 12.34 by customer 3 puts 16 characters at the left of 300 letters.
#[test]
fn a_text_is_put(rt: HostRuntime) -> Result<(), Fail> {
    let mut tables = built(&rt, rt.alloc())?;
    put_text(rt.alloc(), &mut tables, CUSTOMER, &paid_words(rt.alloc())?)?;
    let text = tables.texts.get(&CUSTOMER).ok_or("C_DATA")?;
    assert_eq!(rt; text.len(), 316);
    let text = format!(in rt.alloc(); "{text}")?;
    assert!(rt; text.as_str().starts_with("3 2 1 2 1 12.34|xxx"));
    assert!(rt; text.as_str().ends_with("xxx"));
    Ok(())
}

/// The words of the first text after a Payment.
fn paid_words(alloc: Global) -> Result<DataWords, AllocError>
    ensures { IfOk result (λ words. IsRow data_words IsData (Some words)) }
{
    first_text_is_one();
    payments_keep_texts();
    let payment = PaymentText {
        customer: 3,
        customer_district: 2,
        customer_warehouse: 1,
        district: 2,
        warehouse: 1,
        amount: Cents::new(1_234),
    };
    let first = CustomerData::first(alloc);
    let words = first.words();
    data_after(alloc, &words, &payment)
}

fn changed_rows(tables: &Tables) -> (Option<District>, Option<Order>, Option<History>) {
    (
        tables.districts.get(&DISTRICT).copied(),
        tables.orders.get(&ORDER).copied(),
        tables.history.last().copied(),
    )
}

// The population has 20 rows of HISTORY and of ORDER.
#[test]
fn counts_of_built_rows(rt: HostRuntime) -> Result<(), Fail> {
    let counts = counts(&built(&rt, rt.alloc())?);
    assert_eq!(rt; counts, [1, 2, 20, 20, 21, 6, 21, 100, 20, 20]);
    Ok(())
}

/// How many rows each table has, in the order of their numbers, but for C_DATA, which stands behind CUSTOMER.
fn counts(tables: &Tables) -> [usize; 10] {
    [
        tables.warehouses.len(),
        tables.districts.len(),
        tables.customers.len(),
        tables.texts.len(),
        tables.history.len(),
        tables.new_orders.len(),
        tables.orders.len(),
        tables.lines.len(),
        tables.items.len(),
        tables.stock.len(),
    ]
}

/// The tables of the changed records, with a payment more.
fn built<R: Wait>(rt: &R, alloc: Global) -> Result<Tables, Fail> {
    let population = Population::plain(alloc, Scale::new(1, 2, 10, 20, 30, 1_000)?)?;
    Ok(tables_of_changed(rt, alloc, &population)?)
}

fn tables_of_changed<R: Wait>(
    rt: &R,
    alloc: Global,
    population: &Population,
) -> Result<Tables, Refusal>
    requires { (initial population.now).scale ≡ sizes 1 2 10 20 30 1000 }
{
    let first = changed_versions(alloc, population)?;
    let texts = first_texts(alloc, population.tables())?;
    let (cells, mut pen, _) = Cells::with_wide(rt, alloc, first, texts, 1)?;
    tables_of(alloc, population, &cells, &mut pen, &[payment()])
}

/// The versions that the population's records begin with, but for those that are changed.
fn changed_versions(alloc: Global, population: &Population) -> Result<FirstVersions, AllocError>
    requires { (initial population.now).scale ≡ sizes 1 2 10 20 30 1000 }
    ensures count { IfOk result (λ first. length first ≡ narrow_count (initial population.now).scale) }
    ensures lawful { IfOk result (λ first. AreLawfulRows (initial population.now).scale
        (λ n. value_in (words_at first n))) }
{
    let mut first = first_versions(alloc, population.tables())?;
    change(&mut first, &population.scale())?;
    Ok(first)
}

/// Another D_YTD and D_NEXT_O_ID of a district, and an order that wasn't there.
fn change(first: &mut FirstVersions, scale: &Scale) -> Result<(), AllocError>
    requires scale { scale.now ≡ sizes 1 2 10 20 30 1000 }
    requires count { length first.old ≡ narrow_count scale.now }
    requires lawful { AreLawfulRows scale.now (λ n. value_in (words_at first.old n)) }
    ensures count { OnOk result (length first.new ≡ narrow_count scale.now) }
    ensures lawful { OnOk result (AreLawfulRows scale.now (λ n. value_in (words_at first.new n))) }
{
    let district = RecordKey::District(DISTRICT);
    write(first, scale, district, [11_234, 12, 0, 0, 0, 0, 0])?;
    let order = RecordKey::Order(ORDER);
    write(first, scale, order, [3, 2, 0, 5, 1, 0, 0])?;
    Ok(())
}

/// Writes words into the record of a key.
fn write(
    first: &mut FirstVersions,
    scale: &Scale,
    key: RecordKey,
    words: Payload,
) -> Result<(), AllocError>
    requires key { IsNarrowKey scale.now key }
    requires words { MayHold scale.now key (Some words) }
    requires count { length first.old ≡ narrow_count scale.now }
    requires lawful { AreLawfulRows scale.now (λ n. value_in (words_at first.old n)) }
    ensures count { OnOk result (length first.new ≡ narrow_count scale.now) }
    ensures lawful { OnOk result (AreLawfulRows scale.now (λ n. value_in (words_at first.new n))) }
{
    let number = number_of_key(scale, key);
    let version = Newest {
        word: TidWord::POPULATED,
        payload: words,
    };
    first.set(number as usize, version)?;
    Ok(())
}
