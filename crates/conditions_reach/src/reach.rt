//! Whether tables are in reach of so many commits.

ghost use Rattle.std.specs.Prelude.{◌≡◌, ◌≤◌, ◌↔◌, IsTrue};
ghost use Rattle.tables.specs.Maps.{EachRow};
ghost use Rattle.tables.specs.Database.{database};
ghost use Rattle.tables.specs.Reach.{IsNear, IsCustomerNear, IsStockNear, IsInReach, money_by, count_by};
ghost use Rattle.tables.specs.declared.limits.TheConstants.{MAX_COMMITS};

use crate::each_row::holds_of_each;
use crate::near::{CustomerNear, DistrictNear, StockNear, WarehouseNear};
use tables::Tables;
use tables::limits::{MAX_COUNT_STEP, MAX_FIRST_COUNT, MAX_FIRST_MONEY, MAX_MONEY_STEP};

/// Whether no column is further from zero than so many commits can have taken it, from a first population. In one pass
/// over each of the four tables whose columns they move.
pub fn is_in_reach(commits: u32, tables: &Tables) -> bool
    requires { commits ≤ MAX_COMMITS }
    ensures { IsTrue result ↔ IsInReach commits (database tables.now) }
{
    let money = money_in(commits);
    let count = count_in(commits);
    warehouses_and_districts_near(money, tables) && customers_and_stock_near(money, count, tables)
}

/// How far so many commits take an amount from zero.
fn money_in(commits: u32) -> u64
    requires { commits ≤ MAX_COMMITS }
    ensures { result ≡ money_by commits }
{
    u64::from(MAX_MONEY_STEP) * u64::from(commits) + u64::from(MAX_FIRST_MONEY)
}

/// How far up they take a count.
fn count_in(commits: u32) -> u32
    requires { commits ≤ MAX_COMMITS }
    ensures { result ≡ count_by commits }
{
    MAX_COUNT_STEP * commits + MAX_FIRST_COUNT
}

/// Whether W_YTD and D_YTD are near zero, of each warehouse and district.
fn warehouses_and_districts_near(money: u64, tables: &Tables) -> bool
    ensures { IsTrue result ↔ (EachRow (λ k r. IsNear money r.year_to_date) (database tables.now).warehouses
        × EachRow (λ k r. IsNear money r.year_to_date) (database tables.now).districts) }
{
    holds_of_each(&mut WarehouseNear { money }, &tables.warehouses)
        && holds_of_each(&mut DistrictNear { money }, &tables.districts)
}

/// Whether the columns of each customer and each stock are.
fn customers_and_stock_near(money: u64, count: u32, tables: &Tables) -> bool
    ensures { IsTrue result ↔ (EachRow (λ k r. IsCustomerNear money count r) (database tables.now).customers
        × EachRow (λ k r. IsStockNear count r) (database tables.now).stock) }
{
    holds_of_each(&mut CustomerNear { money, count }, &tables.customers)
        && holds_of_each(&mut StockNear { count }, &tables.stock)
}
