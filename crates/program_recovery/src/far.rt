//! The first column that is further from zero than commits can have taken it.
ghost use Rattle.std.specs.Prelude.{◌≡◌, ◌≤◌, ◌↔◌, ℕ, List, map, IsTrue, IfOk, IfSome};
ghost use Rattle.tables.specs.Database.{database};
ghost use Rattle.tables.specs.Reach.{IsNear, count_by, money_by};
ghost use Rattle.tables.specs.declared.limits.TheConstants.{MAX_COMMITS};
ghost use Rattle.log_disk.specs.Calls.{OnlyReads};
ghost use Rattle.population.specs.Initial.{initial, seed_of};
ghost use Rattle.recover_files.specs.Recovered.{IsRecovery};
ghost use Rattle.recover_files.specs.declared.recovering.Recovered.{Recovered as RecoveredValue};
ghost use Rattle.program_recovery.specs.Far.{IsBeyond, IsFar, customer_is_near, stock_is_near};

use conditions::check;
use log_disk::Disk;
use money::{Cents, Refusal};
use population::Population;
use recover::{Recovered, recover};
use recover_progress::Progress;
use std::alloc::Global;
use std::fmt::{self, Display};
use tables::limits::{
    MAX_COMMITS, MAX_COUNT_STEP, MAX_FIRST_COUNT, MAX_FIRST_MONEY, MAX_MONEY_STEP,
};
use tables::{Customer, CustomerKey, DistrictKey, Stock, StockKey, Tables};

/// A column of CUSTOMER that commits move.
#[derive(Clone, Copy, Debug, PartialEq, Eq)]
pub enum CustomerColumn {
    Balance,
    YearToDate,
    Payments,
    Deliveries,
}

/// A column of STOCK that commits move.
#[derive(Clone, Copy, Debug, PartialEq, Eq)]
pub enum StockColumn {
    YearToDate,
    Orders,
    RemoteOrders,
}

/// A column of one row that commits move.
#[derive(Clone, Copy, Debug, PartialEq, Eq)]
pub enum FarColumn {
    /// W_YTD of a warehouse.
    Warehouse(u32),
    /// D_YTD of a district.
    District(DistrictKey),
    Customer(CustomerKey, CustomerColumn),
    Stock(StockKey, StockColumn),
}

/// A column that is further from zero than so many commits can have taken it.
#[derive(Clone, Copy, Debug, PartialEq, Eq)]
pub struct Beyond {
    /// The column.
    pub column: FarColumn,
    /// The commits.
    pub commits: u32,
}

/// How far commits take columns from zero.
#[derive(Clone, Copy)]
struct Bounds {
    money: u64,
    count: u32,
}

impl CustomerColumn {
    ghost use Rattle.std.specs.Prelude.{◌≡◌};
    ghost use Rattle.program_recovery.specs.Far.{customer_column_name};

    /// What TPC-C calls it.
    pub fn name(self) -> &'static str
        ensures { result.now ≡ customer_column_name self }
    {
        match self {
            CustomerColumn::Balance => "C_BALANCE",
            CustomerColumn::YearToDate => "C_YTD_PAYMENT",
            CustomerColumn::Payments => "C_PAYMENT_CNT",
            CustomerColumn::Deliveries => "C_DELIVERY_CNT",
        }
    }
}

impl StockColumn {
    ghost use Rattle.std.specs.Prelude.{◌≡◌};
    ghost use Rattle.program_recovery.specs.Far.{stock_column_name};

    /// What TPC-C calls it.
    pub fn name(self) -> &'static str
        ensures { result.now ≡ stock_column_name self }
    {
        match self {
            StockColumn::YearToDate => "S_YTD",
            StockColumn::Orders => "S_ORDER_CNT",
            StockColumn::RemoteOrders => "S_REMOTE_CNT",
        }
    }
}

impl Display for Beyond {
    ghost use Rattle.std.specs.Prelude.{Some};
    ghost use Rattle.program_recovery.specs.Far.{beyond_text};

    ghost output = { λ beyond. Some (beyond_text beyond) };

    fn fmt<W: fmt::Write>(&self, f: &mut fmt::Formatter<W>) -> fmt::Result {
        let commits = self.commits;
        match self.column {
            FarColumn::Warehouse(warehouse) => write!(
                f,
                "W_YTD of warehouse {warehouse} is beyond what {commits} commits can make"
            ),
            FarColumn::District(
                DistrictKey {
                    warehouse,
                    district,
                },
            ) => write!(
                f,
                "D_YTD of district {warehouse} {district} is beyond what {commits} commits can make"
            ),
            FarColumn::Customer(key, column) => {
                let column = column.name();
                let (warehouse, district, customer) = (key.warehouse, key.district, key.customer);
                write!(
                    f,
                    "{column} of customer {warehouse} {district} {customer} is beyond what {commits} commits can make"
                )
            }
            FarColumn::Stock(key, column) => {
                let column = column.name();
                let (warehouse, item) = (key.warehouse, key.item);
                write!(
                    f,
                    "{column} of stock {warehouse} {item} is beyond what {commits} commits can make"
                )
            }
        }
    }
}

/// What a restart refuses by `Damaged` though all files are log files: of the tables that they recover to, the first
/// column, in the order WAREHOUSE, DISTRICT, CUSTOMER, STOCK, that is further from zero than the commits can have taken
/// it. None where there is none such, or a consistency condition is broken, which `check` tells. It recovers once more,
/// and writes nothing.
///
/// # Errors
///
/// As `recover`.
pub fn beyond_reach<D: Disk>(
    alloc: Global,
    population: &Population,
    disks: &mut [D],
) -> Result<Option<Beyond>, Refusal>
    ensures beyond { IfOk result (λ found. IfSome found (λ beyond. (strings : List (List ℕ))
        × (D.is_modelled → strings ≡ map D.seen disks.old) × (r : RecoveredValue)
        × IsRecovery (initial population.now) (seed_of population.now) strings r
        × IsBeyond r.commits (database r.tables) beyond)) }
    ensures reads { OnlyReads D.is_modelled (map D.seen) (map D.story) disks.old disks.new }
{
    let unshown = Progress::of(Vec::new(alloc));
    let recovered = recover(alloc, population, disks, &unshown)?;
    beyond_in(alloc, &recovered)
}

/// The first such column of what was recovered.
fn beyond_in(alloc: Global, recovered: &Recovered) -> Result<Option<Beyond>, Refusal>
    ensures { IfOk result (λ found. IfSome found (IsBeyond recovered.now.commits
        (database recovered.now.tables))) }
{
    // No commit cap is larger.
    if recovered.commits > u64::from(MAX_COMMITS) {
        return Ok(None);
    }
    let report = check(alloc, &recovered.tables)?;
    if !report.is_good() {
        return Ok(None);
    }
    Ok(first_beyond(recovered.commits as u32, &recovered.tables))
}

/// Of the tables that so many commits have made, in the order WAREHOUSE, DISTRICT, CUSTOMER, STOCK, the first column
/// that is further from zero than they can have taken it from a first population; None where there is none such.
fn first_beyond(commits: u32, tables: &Tables) -> Option<Beyond>
    requires { commits ≤ MAX_COMMITS }
    ensures { IfSome result (IsBeyond commits (database tables.now)) }
{
    let bounds = bounds_of(commits);
    let column = first_far(bounds, tables)?;
    Some(Beyond { column, commits })
}

/// How far so many commits take columns from zero.
fn bounds_of(commits: u32) -> Bounds
    requires { commits ≤ MAX_COMMITS }
    ensures money { result.money ≡ money_by commits }
    ensures count { result.count ≡ count_by commits }
{
    Bounds {
        money: u64::from(MAX_MONEY_STEP) * u64::from(commits) + u64::from(MAX_FIRST_MONEY),
        count: MAX_COUNT_STEP * commits + MAX_FIRST_COUNT,
    }
}

/// The first column that is further from zero than so.
fn first_far(bounds: Bounds, tables: &Tables) -> Option<FarColumn>
    ensures { IfSome result (IsFar bounds.money bounds.count (database tables.now)) }
{
    for (key, _) in tables.warehouses.iter() {
        if let Some(far) = far_warehouse(bounds, tables, *key) {
            return Some(far);
        }
    }
    for (key, _) in tables.districts.iter() {
        if let Some(far) = far_district(bounds, tables, *key) {
            return Some(far);
        }
    }
    first_far_customer(bounds, tables).or(first_far_stock(bounds, tables))
}

/// The first such column of CUSTOMER.
fn first_far_customer(bounds: Bounds, tables: &Tables) -> Option<FarColumn>
    ensures { IfSome result (IsFar bounds.money bounds.count (database tables.now)) }
{
    for (key, _) in tables.customers.iter() {
        if let Some(far) = far_customer(bounds, tables, *key) {
            return Some(far);
        }
    }
    None
}

/// The first such column of STOCK.
fn first_far_stock(bounds: Bounds, tables: &Tables) -> Option<FarColumn>
    ensures { IfSome result (IsFar bounds.money bounds.count (database tables.now)) }
{
    for (key, _) in tables.stock.iter() {
        if let Some(far) = far_stock(bounds, tables, *key) {
            return Some(far);
        }
    }
    None
}

/// W_YTD of this warehouse, where it is so.
fn far_warehouse(bounds: Bounds, tables: &Tables, key: u32) -> Option<FarColumn>
    ensures { IfSome result (IsFar bounds.money bounds.count (database tables.now)) }
{
    let row = tables.warehouses.get(&key)?;
    if is_near(bounds.money, row.year_to_date) {
        return None;
    }
    Some(FarColumn::Warehouse(key))
}

/// D_YTD of this district, where it is so.
fn far_district(bounds: Bounds, tables: &Tables, key: DistrictKey) -> Option<FarColumn>
    ensures { IfSome result (IsFar bounds.money bounds.count (database tables.now)) }
{
    let row = tables.districts.get(&key)?;
    if is_near(bounds.money, row.year_to_date) {
        return None;
    }
    Some(FarColumn::District(key))
}

/// The first such column of this customer.
fn far_customer(bounds: Bounds, tables: &Tables, key: CustomerKey) -> Option<FarColumn>
    ensures { IfSome result (IsFar bounds.money bounds.count (database tables.now)) }
{
    let row = tables.customers.get(&key)?;
    let column = customer_column(bounds, row)?;
    Some(FarColumn::Customer(key, column))
}

/// The first column of a customer's row that is further from zero than so.
fn customer_column(bounds: Bounds, row: &Customer) -> Option<CustomerColumn>
    ensures { IfSome result (λ column. customer_is_near bounds.money bounds.count column row.now → ⊥) }
{
    if !is_near(bounds.money, row.balance) {
        return Some(CustomerColumn::Balance);
    }
    if !is_near(bounds.money, row.paid) {
        return Some(CustomerColumn::YearToDate);
    }
    if row.payments > bounds.count {
        return Some(CustomerColumn::Payments);
    }
    if row.deliveries > bounds.count {
        return Some(CustomerColumn::Deliveries);
    }
    None
}

/// The first such column of this stock.
fn far_stock(bounds: Bounds, tables: &Tables, key: StockKey) -> Option<FarColumn>
    ensures { IfSome result (IsFar bounds.money bounds.count (database tables.now)) }
{
    let row = tables.stock.get(&key)?;
    let column = stock_column(bounds, row)?;
    Some(FarColumn::Stock(key, column))
}

/// The first column of a stock's row that is further from zero than so.
fn stock_column(bounds: Bounds, row: &Stock) -> Option<StockColumn>
    ensures { IfSome result (λ column. stock_is_near bounds.count column row.now → ⊥) }
{
    if row.year_to_date > bounds.count {
        return Some(StockColumn::YearToDate);
    }
    if row.orders > bounds.count {
        return Some(StockColumn::Orders);
    }
    if row.remote_orders > bounds.count {
        return Some(StockColumn::RemoteOrders);
    }
    None
}

/// Whether an amount is so many cents from zero at most.
fn is_near(bound: u64, amount: Cents) -> bool
    ensures { IsTrue result ↔ IsNear bound amount }
{
    let bound = i128::from(bound);
    let amount = i128::from(amount.amount());
    -bound <= amount && amount <= bound
}
