//! The sums that the conditions ask for.

ghost use Rattle.std.specs.Prelude.{IfOk};
ghost use Rattle.tables.specs.Database.{database};
ghost use Rattle.conditions.specs.Sums.{AreSumsOf, AreOrderSumsOf, AreHistorySumsOf};

use crate::amounts::{history_by, sums_by};
use crate::lines::LineSums;
use crate::numbers::{Numbers, numbers_by};
use crate::shares::{
    CustomerHistory, DistrictHistory, DistrictPayments, LineCounts, WarehouseHistory,
};
use std::alloc::{AllocError, Global};
use std::collections::BTreeMap;
use tables::{CustomerKey, DistrictKey, Tables};

/// Sums over the rows of the tables, by all groups that occur.
#[derive(Drop)]
pub struct Sums {
    /// D_YTD, by warehouse.
    pub districts: BTreeMap<u32, i128>,
    pub orders: OrderSums,
    pub lines: LineSums,
    pub history: HistorySums,
}

impl Sums {
    /// The sums over these tables, in one pass over a table for each, and for those of ORDER-LINE together.
    pub fn of(alloc: Global, tables: &Tables) -> Result<Sums, AllocError>
        ensures { IfOk result (AreSumsOf (database tables.now)) }
    {
        let districts = sums_by(alloc, &mut DistrictPayments, &tables.districts)?;
        let orders = OrderSums::of(alloc, tables)?;
        let lines = LineSums::of(alloc, tables)?;
        let history = HistorySums::of(alloc, tables)?;
        Ok(Sums {
            districts,
            orders,
            lines,
            history,
        })
    }
}

/// Sums over the rows of ORDER and of NEW-ORDER, by district.
#[derive(Drop)]
pub struct OrderSums {
    /// The order numbers of ORDER.
    pub orders: BTreeMap<DistrictKey, Numbers>,
    /// The order numbers of NEW-ORDER.
    pub new_orders: BTreeMap<DistrictKey, Numbers>,
    /// O_OL_CNT.
    pub line_counts: BTreeMap<DistrictKey, i128>,
}

impl OrderSums {
    /// The sums over these tables.
    fn of(alloc: Global, tables: &Tables) -> Result<OrderSums, AllocError>
        ensures { IfOk result (AreOrderSumsOf (database tables.now)) }
    {
        let orders = numbers_by(alloc, &tables.orders)?;
        let new_orders = numbers_by(alloc, &tables.new_orders)?;
        let line_counts = sums_by(alloc, &mut LineCounts, &tables.orders)?;
        Ok(OrderSums {
            orders,
            new_orders,
            line_counts,
        })
    }
}

/// Sums of H_AMOUNT.
#[derive(Drop)]
pub struct HistorySums {
    /// By H_W_ID.
    pub warehouses: BTreeMap<u32, i128>,
    /// By H_W_ID and H_D_ID.
    pub districts: BTreeMap<DistrictKey, i128>,
    /// By H_C_W_ID, H_C_D_ID and H_C_ID.
    pub customers: BTreeMap<CustomerKey, i128>,
}

impl HistorySums {
    /// The sums over these tables.
    fn of(alloc: Global, tables: &Tables) -> Result<HistorySums, AllocError>
        ensures { IfOk result (AreHistorySumsOf (database tables.now)) }
    {
        let warehouses = history_by(alloc, &mut WarehouseHistory, tables)?;
        let districts = history_by(alloc, &mut DistrictHistory, tables)?;
        let customers = history_by(alloc, &mut CustomerHistory, tables)?;
        Ok(HistorySums {
            warehouses,
            districts,
            customers,
        })
    }
}
