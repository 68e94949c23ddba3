//! Whose credit is bad: a list that is made once, since credit never changes.
ghost use Rattle.std.specs.Prelude.{◌≡◌, IfOk};
ghost use Rattle.tables.specs.Database.{database};
ghost use Rattle.tables.specs.Payment.{is_bad, has_bad_credit};
ghost use Rattle.population.specs.Credits.{bad_credits_of};

use std::alloc::{AllocError, Global};
use tables::{Credit, CustomerKey, Table, Tables, customer_at};

/// Whether C_CREDIT is BC, of each customer of the scale, by place. Costs a look-up and a byte a customer.
pub(crate) fn bad_credits(alloc: Global, tables: &Tables) -> Result<Vec<bool>, AllocError>
    ensures { IfOk result (λ credits. credits.items ≡ bad_credits_of (database tables.now)) }
{
    let count = Table::Customer.size(&tables.scale);
    let mut credits = Vec::with_capacity(alloc, count as usize)?;
    for place in 0..count {
        let key = customer_at(&tables.scale, place);
        credits.push(bad_credit_in(tables, key))?;
    }
    Ok(credits)
}

fn bad_credit_in(tables: &Tables, key: CustomerKey) -> bool
    ensures { result ≡ has_bad_credit (database tables.now) key }
{
    match tables.customers.get(&key) {
        Some(row) => is_bad(row.credit),
        None => false,
    }
}

fn is_bad(credit: Credit) -> bool
    ensures { result ≡ is_bad credit }
{
    match credit {
        Credit::Good => false,
        Credit::Bad => true,
    }
}
