//! The amount that a customer pays for an order.
ghost use Rattle.std.specs.Prelude.{◌≡◌, pos, ◌≤ℤ◌};
ghost use Rattle.money.specs.Total.{total_amount};

use crate::{Cents, Rate};

/// The total amount of an order (TPC-C, clause 2.4.2.2): the sum of its lines, less the customer's
/// discount, with the taxes of warehouse and district, rounded down to whole cents.
///
/// `lines` is at most 15 lines of 10 items of 100.00 each.
pub fn total(lines: Cents, discount: Rate, warehouse_tax: Rate, district_tax: Rate) -> Cents
    requires low { pos 0 ≤ℤ lines }
    requires high { lines ≤ℤ pos 1500000 }
    ensures { result ≡ total_amount lines discount warehouse_tax district_tax }
{
    let kept = 10_000 - u64::from(discount.ten_thousandths());
    let taxed = 10_000
        + u64::from(warehouse_tax.ten_thousandths())
        + u64::from(district_tax.ten_thousandths());
    let share = kept * taxed;
    Cents::new((lines.amount().unsigned_abs() * share / 100_000_000) as i64)
}
