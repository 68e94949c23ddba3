//! The prices of the items: a list that is made once, since ITEM never changes.
ghost use Rattle.std.specs.Prelude.{◌≡◌, IfOk};
ghost use Rattle.tables.specs.Database.{database};
ghost use Rattle.population.specs.Prices.{price_of, prices_of};

use money::Cents;
use std::alloc::{AllocError, Global};
use tables::Tables;

/// I_PRICE of each item of the scale, from 1 on, or None where ITEM lacks it. Costs a look-up and 16 bytes an item.
pub(crate) fn prices(alloc: Global, tables: &Tables) -> Result<Vec<Option<Cents>>, AllocError>
    ensures { IfOk result (λ prices. prices.items ≡ prices_of (database tables.now)) }
{
    let items = tables.scale.items();
    let mut prices = Vec::with_capacity(alloc, items as usize)?;
    for done in 0..items {
        prices.push(price_in(tables, done + 1))?;
    }
    Ok(prices)
}

/// I_PRICE of an item, or None where ITEM lacks it. Costs the logarithm of the number of items.
fn price_in(tables: &Tables, item: u32) -> Option<Cents>
    ensures { result ≡ price_of (database tables.now) item }
{
    let row = tables.items.get(&item)?;
    Some(row.price)
}
