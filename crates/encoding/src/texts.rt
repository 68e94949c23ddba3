//! What the records of C_DATA begin with.

ghost use Rattle.std.specs.Prelude.{◌≡◌, [], IfOk, unwrap_or};
ghost use Rattle.std.specs.FinMap.{get};
ghost use Rattle.customer_data.specs.Words.{data_words};
ghost use Rattle.tables.specs.Database.{database};
ghost use Rattle.tables.specs.Keys.{IsCustomerKey};
ghost use Rattle.tables.specs.WellFormed.{IsWellFormed};
ghost use Rattle.encoding.specs.Newest.{text_versions_of};

use cells::{FirstWideVersions, WideNewest};
use customer_data::DataWords;
use std::alloc::{AllocError, Global};
use tables::{CustomerKey, Table, Tables, customer_at};
use tidword::TidWord;

/// What the records of C_DATA begin with, in the order of their numbers: the words of each customer's text. Costs a
/// look-up and 512 bytes a customer.
pub fn first_texts(alloc: Global, tables: &Tables) -> Result<FirstWideVersions, AllocError>
    requires { IsWellFormed (database tables.now) }
    ensures { IfOk result (λ texts. texts ≡ text_versions_of (database tables.now)) }
{
    let count = Table::CustomerData.size(&tables.scale);
    let mut texts = FirstWideVersions::new(alloc);
    for place in 0..count {
        let key = customer_at(&tables.scale, place);
        texts.push(WideNewest {
            word: TidWord::POPULATED,
            payload: text_words(tables, key),
        })?;
    }
    Ok(texts)
}

/// The words of a customer's text.
fn text_words(tables: &Tables, key: CustomerKey) -> DataWords
    requires well_formed { IsWellFormed (database tables.now) }
    requires key { IsCustomerKey (database tables.now).scale key }
    ensures { result ≡ data_words (unwrap_or (get (database tables.now).texts key) []) }
{
    tables.texts.get(&key).unwrap().words()
}
