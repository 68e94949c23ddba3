//! A Payment on record cells.
ghost use Rattle.std.specs.Prelude.{◌≡◌, ◌≤◌, ◌≤ℤ◌, pos, IsSome, [], length, Some, None, IfOk, IfErr, OnOk};
ghost use Rattle.tables.specs.Sizes.{Sizes, IsNumber};
ghost use Rattle.tables.specs.Payment.{IsPayment, payer, payer_number, history_row};
ghost use Rattle.tables.specs.declared.limits.TheConstants.{MAX_PAYMENT};
ghost use Rattle.tables.specs.declared.input.Input.TheVariants as input_variants;
ghost use Rattle.tables.specs.declared.records.RecordKey.TheVariants as record_key;
ghost use Rattle.money.specs.declared.refusal.Refusal.TheVariants.{OutOfMemory};
ghost use Rattle.tables.specs.Records.{number_of_key};
ghost use Rattle.population.specs.Initial.{initial};
ghost use Rattle.readset.specs.Reads.{held};
ghost use Rattle.readset.specs.Writes.{no_writes};
ghost use Rattle.readset.specs.Changes.{puts_all};
ghost use Rattle.readset.specs.Commit.{IsCommitOf};
ghost use Rattle.readset.specs.Transaction.{Finds, ReadsMore, IsExecuted};
ghost use Rattle.payment.specs.Steps.{paying, ArePaymentRows, AreInRange, paid, changes_of, reply_of};

use crate::text::tell;
use cells::Reader;
use money::{Cents, Refusal};
use population::Population;
use readset::{Start, Transaction, Work, put_row, read_present};
use rows::{CustomerColumns, DistrictColumns, WarehouseColumns};
use std::alloc::Global;
use std::sync::Wait;
use tables::{History, Input, PaymentInput, PaymentReply, Reply};

/// The rows that a Payment changes.
#[derive(Clone, Copy)]
struct Rows {
    warehouse: WarehouseColumns,
    district: DistrictColumns,
    customer: CustomerColumns,
}

/// Executes a Payment (TPC-C 2.5.2.2) in a transaction that has read nothing: reads its records once each, and says
/// what it is to write and to reply if it commits. No cell changes. Gives back the reader. Costs three loads and a
/// few look-ups, memory for what it reads and writes, whatever the tables' size, and by last name what
/// `Population::customer` does; for a customer with bad credit also a load of C_DATA, and memory for its words and for
/// what the Payment puts there.
///
/// # Errors
///
/// `Stale` only where no consistent, well-formed tables of this population have the versions that this call has read,
/// as when they were never the latest ones together; `OutOfMemory`. After a refusal, too, the reader has seen what it
/// had seen, and perhaps more.
pub fn execute<R: Wait, K: Start>(
    rt: &R,
    alloc: Global,
    mut transaction: Transaction<'_, K>,
    payment: &PaymentInput,
) -> (Reader, Result<Work, Refusal>)
    requires input { IsPayment K.tables.scale payment.now }
    requires begun { transaction ≡ record { reads = []; writes = no_writes } }
    ensures { IsExecuted K.tables (input_variants.Payment payment.now) K.reader result.0 result.1 }
{
    let customer = payer(transaction.population(), payment);
    let reply = pay(rt, alloc, &mut transaction, payment, customer);
    transaction.finish(Input::Payment(*payment), reply)
}

/// The C_ID of the customer who pays.
fn payer(population: &Population, payment: &PaymentInput) -> u32
    requires { IsPayment (initial population.now).scale payment.now }
    ensures payer { result ≡ payer_number (initial population.now) payment.now }
    ensures customer { IsNumber (initial population.now).scale.customers result }
{
    population.customer(payment.customer_home(), payment.who)
}

/// Reads the three records, and C_DATA where the customer's credit is bad, says what they are to hold and which row
/// HISTORY is to get, and replies.
fn pay<R: Wait, K: Start>(
    rt: &R,
    alloc: Global,
    transaction: &mut Transaction<'_, K>,
    payment: &PaymentInput,
    customer: u32,
) -> Result<Reply, Refusal>
    requires input { IsPayment K.tables.scale payment.now }
    requires payer { customer ≡ payer_number K.tables payment.now }
    requires customer { IsNumber K.tables.scale.customers customer }
    requires begun { transaction.old ≡ record { reads = []; writes = no_writes } }
    ensures reply { Finds K.tables transaction.new result (λ reply t.
        IsCommitOf t (input_variants.Payment payment.now) transaction.new.writes reply) }
    ensures reads { length transaction.new.reads ≤ 4 }
    ensures writes { length transaction.new.writes.values ≤ 4 }
{
    transaction.reserve(3, 3)?;
    let rows = read(rt, transaction, payment, customer)?;
    let rows = raised(&rows, payment.amount);
    write(transaction, payment, customer, &rows)?;
    tell(rt, alloc, transaction, payment, customer)?;
    Ok(Reply::Payment(reply(payment, &rows, customer)))
}

/// Reads the three rows, each once.
fn read<R: Wait, K: Start>(
    rt: &R,
    transaction: &mut Transaction<'_, K>,
    payment: &PaymentInput,
    customer: u32,
) -> Result<Rows, Refusal>
    requires input { IsPayment K.tables.scale payment.now }
    requires customer { IsNumber K.tables.scale.customers customer }
    ensures rows { Finds K.tables transaction.new result (ArePaymentRows payment.now customer) }
    ensures range { IfOk result (AreInRange K.tables.scale) }
    ensures warehouse { OnOk result (IsSome
        (held transaction.new.reads (number_of_key K.tables.scale (record_key.Warehouse payment.now.warehouse)))) }
    ensures district { OnOk result (IsSome
        (held transaction.new.reads (number_of_key K.tables.scale (record_key.District (paying payment.now))))) }
    ensures customer { OnOk result (IsSome (held transaction.new.reads
        (number_of_key K.tables.scale (record_key.Customer (payer payment.now customer))))) }
    ensures reads { ReadsMore 3 transaction.old transaction.new }
{
    let warehouse = read_present(rt, transaction, payment.warehouse)?;
    let district = read_present(rt, transaction, payment.home())?;
    let customer = read_present(rt, transaction, payment.payer(customer))?;
    Ok(Rows {
        warehouse,
        district,
        customer,
    })
}

/// What a payment of this amount, from 0 to 5,000.00, makes of the rows: W_YTD and D_YTD raised, C_BALANCE lowered,
/// C_YTD_PAYMENT raised, and one payment more.
fn raised(rows: &Rows, amount: Cents) -> Rows
    requires rows { (s : Sizes) × AreInRange s rows.now }
    requires low { pos 0 ≤ℤ amount }
    requires high { amount ≤ℤ MAX_PAYMENT }
    ensures { result ≡ paid amount rows.now }
{
    let Rows {
        warehouse,
        district,
        customer,
    } = *rows;
    Rows {
        warehouse: WarehouseColumns {
            year_to_date: warehouse.year_to_date + amount,
        },
        district: DistrictColumns {
            year_to_date: district.year_to_date + amount,
            ..district
        },
        customer: CustomerColumns {
            balance: customer.balance - amount,
            paid: customer.paid + amount,
            payments: customer.payments + 1,
            ..customer
        },
    }
}

/// Says what the three records are to hold, and which row HISTORY is to get.
fn write<K: Start>(
    transaction: &mut Transaction<'_, K>,
    payment: &PaymentInput,
    customer: u32,
    rows: &Rows,
) -> Result<(), Refusal>
    requires input { IsPayment K.tables.scale payment.now }
    requires customer { IsNumber K.tables.scale.customers customer }
    requires warehouse { IsSome
        (held transaction.old.reads (number_of_key K.tables.scale (record_key.Warehouse payment.now.warehouse))) }
    requires district { IsSome
        (held transaction.old.reads (number_of_key K.tables.scale (record_key.District (paying payment.now)))) }
    requires payer { IsSome
        (held transaction.old.reads (number_of_key K.tables.scale (record_key.Customer (payer payment.now customer)))) }
    requires none { transaction.old.writes ≡ no_writes }
    ensures written { OnOk result (transaction.new.writes ≡ record {
      values = (puts_all K.tables.scale no_writes (changes_of payment.now customer rows.now None)).values;
      history_row = Some (history_row payment.now customer);
    }) }
    ensures reads { transaction.new.reads ≡ transaction.old.reads }
    ensures few { length transaction.new.writes.values ≤ 3 }
    ensures only_memory { IfErr result (λ refusal. refusal ≡ OutOfMemory) }
{
    put_row(transaction, payment.warehouse, &rows.warehouse)?;
    put_row(transaction, payment.home(), &rows.district)?;
    put_row(transaction, payment.payer(customer), &rows.customer)?;
    transaction.put_history_row(History {
        customer,
        customer_district: payment.customer_district,
        customer_warehouse: payment.customer_warehouse,
        district: payment.district,
        warehouse: payment.warehouse,
        date: payment.date,
        amount: payment.amount,
    });
    Ok(())
}

/// The reply of a Payment (TPC-C 2.5.3.3), by the rows after it.
fn reply(payment: &PaymentInput, rows: &Rows, customer: u32) -> PaymentReply
    ensures { result ≡ reply_of rows.now payment.now customer }
{
    PaymentReply {
        warehouse: payment.warehouse,
        district: payment.district,
        customer_warehouse: payment.customer_warehouse,
        customer_district: payment.customer_district,
        customer,
        balance: rows.customer.balance,
    }
}
