//! Whether the columns of a row that commits move are near zero.

ghost use Rattle.std.specs.Prelude.{◌↔◌, ◌≤◌, IsTrue};
ghost use Rattle.tables.specs.Reach.{IsNear, IsCustomerNear, IsStockNear};

use conditions::RowCondition;
use money::Cents;
use tables::{Customer, CustomerKey, District, DistrictKey, Stock, StockKey, Warehouse};

/// W_YTD is so many cents from zero at most.
#[derive(Clone, Copy)]
pub(crate) struct WarehouseNear {
    pub(crate) money: u64,
}

impl RowCondition<u32, Warehouse> for WarehouseNear {
    ghost holds_of = { λ s k r. IsNear s.money r.year_to_date };

    fn holds(&mut self, _key: &u32, row: &Warehouse) -> bool {
        is_near(self.money, row.year_to_date)
    }
}

/// D_YTD is so many cents from zero at most.
#[derive(Clone, Copy)]
pub(crate) struct DistrictNear {
    pub(crate) money: u64,
}

impl RowCondition<DistrictKey, District> for DistrictNear {
    ghost holds_of = { λ s k r. IsNear s.money r.year_to_date };

    fn holds(&mut self, _key: &DistrictKey, row: &District) -> bool {
        is_near(self.money, row.year_to_date)
    }
}

/// A customer's amounts are so many cents from zero at most, and its counts at most so large.
#[derive(Clone, Copy)]
pub(crate) struct CustomerNear {
    pub(crate) money: u64,
    pub(crate) count: u32,
}

impl RowCondition<CustomerKey, Customer> for CustomerNear {
    ghost holds_of = { λ s k r. IsCustomerNear s.money s.count r };

    fn holds(&mut self, _key: &CustomerKey, row: &Customer) -> bool {
        has_money_near(self.money, row) && has_counts_near(self.count, row)
    }
}

/// A stock's counts are at most so large.
#[derive(Clone, Copy)]
pub(crate) struct StockNear {
    pub(crate) count: u32,
}

impl RowCondition<StockKey, Stock> for StockNear {
    ghost holds_of = { λ s k r. IsStockNear s.count r };

    fn holds(&mut self, _key: &StockKey, row: &Stock) -> bool {
        row.year_to_date <= self.count
            && row.orders <= self.count
            && row.remote_orders <= self.count
    }
}

/// Whether an amount is so many cents from zero at most.
fn is_near(bound: u64, amount: Cents) -> bool
    ensures { IsTrue result ↔ IsNear bound amount }
{
    let bound = i128::from(bound);
    let amount = i128::from(amount.amount());
    -bound <= amount && amount <= bound
}

/// Whether C_BALANCE and C_YTD_PAYMENT are.
fn has_money_near(bound: u64, row: &Customer) -> bool
    ensures { IsTrue result ↔ (IsNear bound row.now.balance × IsNear bound row.now.paid) }
{
    is_near(bound, row.balance) && is_near(bound, row.paid)
}

/// Whether C_PAYMENT_CNT and C_DELIVERY_CNT are at most so large.
fn has_counts_near(bound: u32, row: &Customer) -> bool
    ensures { IsTrue result ↔ ((row.now.payments ≤ bound) × (row.now.deliveries ≤ bound)) }
{
    row.payments <= bound && row.deliveries <= bound
}
