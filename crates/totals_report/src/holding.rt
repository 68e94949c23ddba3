//! Whether a condition holds at the key of a record, by the record's words and the running totals.

ghost use Rattle.std.specs.Prelude.{◌≡◌, ◌+◌, ◌-◌, ◌+ℤ◌, ◌-ℤ◌, pos, ◌↔◌, ◌⊎◌, IsTrue, slice_index, is_some};
ghost use Rattle.tables.specs.Keys.{IsWarehouseKey, IsDistrictKey, IsCustomerKey, IsOrderKey};
ghost use Rattle.tables.specs.Records.{district_place, customer_place, order_place};
ghost use Rattle.tables.specs.Rows.{money_of};
ghost use Rattle.totals.specs.Totals.{amount_in};
ghost use Rattle.totals_report.specs.Words.{is_zero, has_none};

use money::Payload;
use rows::column::{
    C_BALANCE, C_YTD_PAYMENT, D_NEXT_O_ID, D_YTD, O_CARRIER_ID, O_OL_CNT, OL_DELIVERY_D, W_YTD,
};
use tables::{CustomerKey, DistrictKey, OrderKey};
use totals::RunningSums;
use totals_bounds::OrderBounds;

/// W_YTD is the sum of the warehouse's D_YTD (TPC-C 3.3.2.1).
pub fn condition_1(sums: &RunningSums, warehouse: u32, words: &Payload) -> bool
    requires { IsWarehouseKey sums.now.scale warehouse }
    ensures { IsTrue result
        ↔ (money_of (slice_index words.now W_YTD) ≡ amount_in sums.now.year_to_date (warehouse - 1)) }
{
    words[W_YTD].cast_signed() == sums.year_to_date(warehouse)
}

/// W_YTD is the sum of H_AMOUNT (TPC-C 3.3.2.8).
pub fn condition_8(sums: &RunningSums, warehouse: u32, words: &Payload) -> bool
    requires { IsWarehouseKey sums.now.scale warehouse }
    ensures { IsTrue result
        ↔ (money_of (slice_index words.now W_YTD) ≡ amount_in sums.now.paid_at_warehouse (warehouse - 1)) }
{
    words[W_YTD].cast_signed() == sums.paid_at_warehouse(warehouse)
}

/// D_NEXT_O_ID - 1 is the greatest O_ID, and the greatest NO_O_ID where there is one (TPC-C 3.3.2.2).
pub fn condition_2(
    sums: &RunningSums,
    bounds: &OrderBounds,
    key: DistrictKey,
    words: &Payload,
) -> bool
    requires sums { IsDistrictKey sums.now.scale key }
    requires bounds { IsDistrictKey bounds.now.scale key }
    ensures { IsTrue result
        ↔ (slice_index bounds.now.greatest_order (district_place bounds.now.scale key.warehouse key.district) + 1
        ≡ slice_index words.now D_NEXT_O_ID)
        × ((amount_in sums.now.waiting (district_place sums.now.scale key.warehouse key.district) ≡ pos 0)
        ⊎ (slice_index bounds.now.greatest_waiting (district_place bounds.now.scale key.warehouse key.district) + 1
        ≡ slice_index words.now D_NEXT_O_ID)) }
{
    is_after(bounds.greatest_order(key), words[D_NEXT_O_ID])
        && (sums.waiting(key) == 0 || is_after(bounds.greatest_waiting(key), words[D_NEXT_O_ID]))
}

/// Whether an order number is the next after another.
fn is_after(last: u32, next: u64) -> bool
    ensures { IsTrue result ↔ (last + 1 ≡ next) }
{
    u64::from(last) + 1 == next
}

/// The greatest NO_O_ID minus the least plus 1 is the number of NEW-ORDER rows, where there are any (TPC-C 3.3.2.3).
pub fn condition_3(sums: &RunningSums, bounds: &OrderBounds, key: DistrictKey) -> bool
    requires sums { IsDistrictKey sums.now.scale key }
    requires bounds { IsDistrictKey bounds.now.scale key }
    ensures { IsTrue result
        ↔ (amount_in sums.now.waiting (district_place sums.now.scale key.warehouse key.district) ≡ pos 0)
        ⊎ (pos (slice_index bounds.now.greatest_waiting
        (district_place bounds.now.scale key.warehouse key.district) + 1)
        ≡ pos (slice_index bounds.now.least_waiting (district_place bounds.now.scale key.warehouse key.district))
        +ℤ amount_in sums.now.waiting (district_place sums.now.scale key.warehouse key.district)) }
{
    let waiting = i128::from(sums.waiting(key));
    let least = i128::from(bounds.least_waiting(key));
    let greatest = i128::from(bounds.greatest_waiting(key));
    waiting == 0 || greatest + 1 == least + waiting
}

/// The sum of O_OL_CNT is the number of ORDER-LINE rows (TPC-C 3.3.2.4).
pub fn condition_4(sums: &RunningSums, key: DistrictKey) -> bool
    requires { IsDistrictKey sums.now.scale key }
    ensures { IsTrue result ↔ (amount_in sums.now.line_counts
        (district_place sums.now.scale key.warehouse key.district)
        ≡ amount_in sums.now.district_lines (district_place sums.now.scale key.warehouse key.district)) }
{
    sums.line_counts(key) == sums.district_lines(key)
}

/// D_YTD is the sum of H_AMOUNT (TPC-C 3.3.2.9).
pub fn condition_9(sums: &RunningSums, key: DistrictKey, words: &Payload) -> bool
    requires { IsDistrictKey sums.now.scale key }
    ensures { IsTrue result ↔ (money_of (slice_index words.now D_YTD)
        ≡ amount_in sums.now.paid_at_district (district_place sums.now.scale key.warehouse key.district)) }
{
    words[D_YTD].cast_signed() == sums.paid_at_district(key)
}

/// C_BALANCE is what was delivered minus the sum of H_AMOUNT (TPC-C 3.3.2.10).
pub fn condition_10(sums: &RunningSums, key: CustomerKey, words: &Payload) -> bool
    requires { IsCustomerKey sums.now.scale key }
    ensures { IsTrue result ↔ (money_of (slice_index words.now C_BALANCE)
        ≡ amount_in sums.now.delivered (customer_place sums.now.scale key)
        -ℤ amount_in sums.now.paid_by_customer (customer_place sums.now.scale key)) }
{
    let delivered = sums.delivered(key);
    let paid = sums.paid_by_customer(key);
    is_difference(words[C_BALANCE].cast_signed(), delivered, paid)
}

/// C_BALANCE + C_YTD_PAYMENT is what was delivered (TPC-C 3.3.2.12).
pub fn condition_12(sums: &RunningSums, key: CustomerKey, words: &Payload) -> bool
    requires { IsCustomerKey sums.now.scale key }
    ensures { IsTrue result ↔ (money_of (slice_index words.now C_BALANCE)
        +ℤ money_of (slice_index words.now C_YTD_PAYMENT)
        ≡ amount_in sums.now.delivered (customer_place sums.now.scale key)) }
{
    let delivered = sums.delivered(key);
    is_sum(
        delivered,
        words[C_BALANCE].cast_signed(),
        words[C_YTD_PAYMENT].cast_signed(),
    )
}

/// O_CARRIER_ID is null exactly where the order has a NEW-ORDER row (TPC-C 3.3.2.5).
pub fn condition_5(words: &Payload, new_order: &Option<Payload>) -> bool
    ensures { IsTrue result ↔ (is_zero (slice_index words.now O_CARRIER_ID) ≡ is_some new_order.now) }
{
    (words[O_CARRIER_ID] == 0) == new_order.is_some()
}

/// O_OL_CNT is the number of the order's lines (TPC-C 3.3.2.6).
pub fn condition_6(sums: &RunningSums, key: OrderKey, words: &Payload) -> bool
    requires { IsOrderKey sums.now.scale key }
    ensures { IsTrue result ↔ (money_of (slice_index words.now O_OL_CNT)
        ≡ amount_in sums.now.order_lines (order_place sums.now.scale key)) }
{
    words[O_OL_CNT].cast_signed() == sums.order_lines(key)
}

/// OL_DELIVERY_D is null exactly where the order's O_CARRIER_ID is (TPC-C 3.3.2.7).
pub fn condition_7(words: &Payload, order: &Option<Payload>) -> bool
    ensures { IsTrue result ↔ (is_zero (slice_index words.now OL_DELIVERY_D) ≡ has_none order.now) }
{
    (words[OL_DELIVERY_D] == 0) == is_without_carrier(order)
}

/// Whether O_CARRIER_ID is null, as it counts where the row is missing.
fn is_without_carrier(order: &Option<Payload>) -> bool
    ensures { result ≡ has_none order.now }
{
    match order {
        Some(words) => words[O_CARRIER_ID] == 0,
        None => true,
    }
}

/// Whether an amount is what is left of one without another.
fn is_difference(amount: i64, one: i64, other: i64) -> bool
    ensures { IsTrue result ↔ (amount ≡ one -ℤ other) }
{
    same(wide(amount), difference(one, other))
}

/// Whether an amount is two others together.
fn is_sum(amount: i64, one: i64, other: i64) -> bool
    ensures { IsTrue result ↔ (one +ℤ other ≡ amount) }
{
    same(sum(one, other), wide(amount))
}

fn same(one: i128, other: i128) -> bool
    ensures { IsTrue result ↔ (one ≡ other) }
{
    one == other
}

/// An amount, in a word that two of them fit.
fn wide(amount: i64) -> i128
    ensures { result ≡ amount }
{
    i128::from(amount)
}

fn sum(one: i64, other: i64) -> i128
    ensures { result ≡ one +ℤ other }
{
    i128::from(one) + i128::from(other)
}

fn difference(one: i64, other: i64) -> i128
    ensures { result ≡ one -ℤ other }
{
    i128::from(one) - i128::from(other)
}
