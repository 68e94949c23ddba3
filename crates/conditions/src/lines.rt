//! The sums over ORDER-LINE, in one walk.

ghost use Rattle.std.specs.Prelude.{IfOk, OnOk, ◌+◌, ◌-◌, ◌^◌, ℕ};
ghost use Rattle.tables.specs.Database.{database};
ghost use Rattle.conditions.specs.Lines.{AreLinesWithin, IsLineAdded, AreClosed};
ghost use Rattle.conditions.specs.Sums.{AreLineSumsOf};

use crate::amounts::add_row;
use crate::shares::{Delivered, DistrictLines, OrderLines};
use conditions_walks::{Running, Walk};
use std::alloc::{AllocError, Global};
use std::collections::BTreeMap;
use tables::{CustomerKey, DistrictKey, LineKey, OrderKey, OrderLine, Tables};

/// Sums over the rows of ORDER-LINE.
#[derive(Drop)]
pub struct LineSums {
    /// The number of rows, by district.
    pub districts: BTreeMap<DistrictKey, i128>,
    /// The number of rows, by order.
    pub orders: BTreeMap<OrderKey, i128>,
    /// OL_AMOUNT of delivered lines, by the customer of their order.
    pub delivered: BTreeMap<CustomerKey, i128>,
}

/// Those sums under way.
#[derive(Drop)]
struct LinesUnderWay<'a> {
    districts: Running<DistrictKey>,
    orders: Running<OrderKey>,
    delivered: Running<CustomerKey>,
    /// Whose a delivered line is.
    customers: Delivered<'a>,
}

impl LineSums {
    /// The sums over these tables.
    pub fn of(alloc: Global, tables: &Tables) -> Result<LineSums, AllocError>
        ensures { IfOk result (AreLineSumsOf (database tables.now)) }
    {
        let mut sums = LinesUnderWay {
            districts: Running::new(alloc),
            orders: Running::new(alloc),
            delivered: Running::new(alloc),
            customers: Delivered {
                orders: Walk::new(&tables.orders),
            },
        };
        for (key, row) in tables.lines.iter() {
            add_line(&mut sums, key, row)?;
        }
        close(sums)
    }
}

/// Adds what a line adds to each.
fn add_line(sums: &mut LinesUnderWay<'_>, key: &LineKey, row: &OrderLine) -> Result<(), AllocError>
    requires { AreLinesWithin sums.old (2 ^ 63) }
    ensures added { OnOk result (IsLineAdded sums.old sums.new key.now row.now) }
    ensures within { OnOk result ((n : ℕ) → AreLinesWithin sums.old n → AreLinesWithin sums.new (n + 1)) }
{
    add_row::<LineKey, OrderLine, DistrictLines>(
        &mut sums.districts,
        &mut DistrictLines,
        key,
        row,
    )?;
    add_row::<LineKey, OrderLine, OrderLines>(&mut sums.orders, &mut OrderLines, key, row)?;
    add_row::<LineKey, OrderLine, Delivered<'_>>(&mut sums.delivered, &mut sums.customers, key, row)
}

/// All of the sums.
fn close(sums: LinesUnderWay<'_>) -> Result<LineSums, AllocError>
    requires { AreLinesWithin sums (2 ^ 63 - 1) }
    ensures { IfOk result (AreClosed sums.entry) }
{
    let LinesUnderWay {
        districts,
        orders,
        delivered,
        ..
    } = sums;
    let districts = districts.close()?;
    let orders = orders.close()?;
    let delivered = delivered.close()?;
    Ok(LineSums {
        districts,
        orders,
        delivered,
    })
}
