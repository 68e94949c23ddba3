//! What a Payment of a customer with bad credit makes of C_DATA (TPC-C 2.5.2.2).
ghost use Rattle.std.specs.Prelude.{◌≡◌, IsTrue, Some, IsSome, OnOk, IfErr};
ghost use Rattle.tables.specs.Sizes.{IsNumber};
ghost use Rattle.tables.specs.Keys.{IsCustomerKey};
ghost use Rattle.tables.specs.Payment.{IsPayment, payer, front_of, has_bad_credit};
ghost use Rattle.tables.specs.Records.{number_of_key};
ghost use Rattle.tables.specs.Rows.{row_at};
ghost use Rattle.tables.specs.declared.records.RecordKey.TheVariants as record_key;
ghost use Rattle.readset.specs.Reads.{held};
ghost use Rattle.readset.specs.Transaction.{Finds, ReadsMore, GoesOn, IsStepRefusal};
ghost use Rattle.payment.specs.Text.{TellsText};

use customer_data::{DataWords, PaymentText, data_after};
use money::Refusal;
use readset::{Start, Transaction};
use std::alloc::Global;
use std::sync::Wait;
use tables::{CustomerKey, PaymentInput};

/// Where the customer's credit is bad, reads C_DATA, and says what it is to become. Else nothing is read or written.
/// Refused by `Stale` where no consistent tables have what was read, and for want of memory.
#[inline(always)]
pub(crate) fn tell<R: Wait, K: Start>(
    rt: &R,
    alloc: Global,
    transaction: &mut Transaction<'_, K>,
    payment: &PaymentInput,
    customer: u32,
) -> Result<(), Refusal>
    requires input { IsPayment K.tables.scale payment.now }
    requires customer { IsNumber K.tables.scale.customers customer }
    ensures tells { OnOk result (TellsText K.tables payment.now customer transaction.old transaction.new) }
    ensures refused { IfErr result (IsStepRefusal K.tables transaction.new) }
    ensures goes_on { GoesOn 1 1 transaction.old transaction.new }
{
    let key = payment.payer(customer);
    if !transaction.population().has_bad_credit(key) {
        return Ok(());
    }
    put_text(rt, alloc, transaction, payment, customer)
}

/// Puts the Payment's text at the left of C_DATA of its customer, whose credit is bad. Few of a hundred transactions
/// come here, and texts take much of the stack, so it isn't inlined. Refused as `tell` is.
#[inline(never)]
fn put_text<R: Wait, K: Start>(
    rt: &R,
    alloc: Global,
    transaction: &mut Transaction<'_, K>,
    payment: &PaymentInput,
    customer: u32,
) -> Result<(), Refusal>
    requires input { IsPayment K.tables.scale payment.now }
    requires customer { IsNumber K.tables.scale.customers customer }
    requires keeps { IsTrue K.tables.keeps_texts }
    requires bad { IsTrue (has_bad_credit K.tables (payer payment.now customer)) }
    ensures tells { OnOk result (TellsText K.tables payment.now customer transaction.old transaction.new) }
    ensures refused { IfErr result (IsStepRefusal K.tables transaction.new) }
    ensures goes_on { GoesOn 1 1 transaction.old transaction.new }
{
    let key = payment.payer(customer);
    let words = read_text(rt, transaction, key)?;
    let after = data_after(alloc, &words, &front(payment, customer))?;
    transaction.put_wide(key, &after)?;
    Ok(())
}

/// Reads C_DATA of a customer, as words. `Stale` where there is none; `OutOfMemory`.
fn read_text<R: Wait, K: Start>(
    rt: &R,
    transaction: &mut Transaction<'_, K>,
    key: CustomerKey,
) -> Result<DataWords, Refusal>
    requires { IsCustomerKey K.tables.scale key }
    ensures words { Finds K.tables transaction.new result (λ words t.
        row_at t (record_key.CustomerData key) ≡ Some words) }
    ensures holds { OnOk result (IsSome
        (held transaction.new.reads (number_of_key K.tables.scale (record_key.CustomerData key)))) }
    ensures reads { ReadsMore 1 transaction.old transaction.new }
{
    match transaction.read_wide(rt, key)? {
        Some(words) => Ok(words),
        None => Err(Refusal::Stale),
    }
}

/// What the Payment tells C_DATA of itself.
fn front(payment: &PaymentInput, customer: u32) -> PaymentText
    ensures { result ≡ front_of payment.now customer }
{
    PaymentText {
        customer,
        customer_district: payment.customer_district,
        customer_warehouse: payment.customer_warehouse,
        district: payment.district,
        warehouse: payment.warehouse,
        amount: payment.amount,
    }
}
