//! What is summed, and by what.

ghost use Rattle.std.specs.Prelude.{◌≡◌, pos, ◌==◌, false, IfSome, IfNone};
ghost use Rattle.std.specs.Ordering.{eq_by_cmp};
ghost use Rattle.std.specs.FinMap.{from_entries};
ghost use Rattle.tables.specs.Keys.{customer_cmp, order_cmp, is_district, is_customer, is_order};
ghost use Rattle.tables.specs.Conditions.{is_line_of};
ghost use Rattle.tables.specs.declared.keys.CustomerKey.{CustomerKey as KeyOfCustomer};

use crate::amounts::Share;
use conditions_walks::Walk;
use tables::{CustomerKey, District, DistrictKey, History, LineKey, Order, OrderKey, OrderLine};

/// D_YTD, by warehouse.
#[derive(Drop)]
pub struct DistrictPayments;

impl Share<DistrictKey, District> for DistrictPayments {
    type Group = u32;

    ghost is_of = { λ s g k r. k.warehouse == g };

    ghost amount = { λ r. r.year_to_date };

    fn group(&mut self, key: &DistrictKey, _row: &District) -> Option<u32> {
        Some(key.warehouse)
    }

    fn amount_of(row: &District) -> i64 {
        row.year_to_date.amount()
    }
}

/// O_OL_CNT, by district.
#[derive(Drop)]
pub struct LineCounts;

impl Share<OrderKey, Order> for LineCounts {
    type Group = DistrictKey;

    ghost is_of = { λ s g k r. is_district k.warehouse k.district g };

    ghost amount = { λ r. pos r.line_count };

    fn group(&mut self, key: &OrderKey, _row: &Order) -> Option<DistrictKey> {
        Some(DistrictKey {
            warehouse: key.warehouse,
            district: key.district,
        })
    }

    fn amount_of(row: &Order) -> i64 {
        i64::from(row.line_count)
    }
}

/// The number of ORDER-LINE rows, by district.
#[derive(Drop)]
pub struct DistrictLines;

impl Share<LineKey, OrderLine> for DistrictLines {
    type Group = DistrictKey;

    ghost is_of = { λ s g k r. is_district k.warehouse k.district g };

    ghost amount = { λ r. pos 1 };

    fn group(&mut self, key: &LineKey, _row: &OrderLine) -> Option<DistrictKey> {
        Some(DistrictKey {
            warehouse: key.warehouse,
            district: key.district,
        })
    }

    fn amount_of(_row: &OrderLine) -> i64 {
        1
    }
}

/// The number of ORDER-LINE rows, by order.
#[derive(Drop)]
pub struct OrderLines;

impl Share<LineKey, OrderLine> for OrderLines {
    type Group = OrderKey;

    ghost is_of = { λ s g k r. is_order k.warehouse k.district k.order g };

    ghost amount = { λ r. pos 1 };

    fn group(&mut self, key: &LineKey, _row: &OrderLine) -> Option<OrderKey> {
        Some(OrderKey {
            warehouse: key.warehouse,
            district: key.district,
            order: key.order,
        })
    }

    fn amount_of(_row: &OrderLine) -> i64 {
        1
    }
}

/// OL_AMOUNT of delivered lines, by the customer of their order.
#[derive(Drop)]
pub struct Delivered<'a> {
    pub orders: Walk<'a, OrderKey, Order>,
}

impl<'a> Share<LineKey, OrderLine> for Delivered<'a> {
    type Group = CustomerKey;

    ghost is_of = { λ s g k r. is_line_of (from_entries {R = order_cmp} s.orders) g k r };

    ghost amount = { λ r. r.amount };

    fn group(&mut self, key: &LineKey, row: &OrderLine) -> Option<CustomerKey>
        ensures stays { self.new ≡ self.old }
        ensures some { IfSome result (λ own. (g : KeyOfCustomer)
            → is_line_of (from_entries {R = order_cmp} self.old.orders) g key.now row.now
            ≡ eq_by_cmp customer_cmp own g) }
        ensures none { IfNone result ((g : KeyOfCustomer)
            → is_line_of (from_entries {R = order_cmp} self.old.orders) g key.now row.now ≡ false) }
    {
        if row.delivery_date.is_none() {
            return None;
        }
        let Some(order) = self.orders.get(&key.order_key()) else {
            return None;
        };
        Some(CustomerKey {
            warehouse: key.warehouse,
            district: key.district,
            customer: order.customer,
        })
    }

    fn amount_of(row: &OrderLine) -> i64
        ensures { result ≡ row.now.amount }
    {
        row.amount.amount()
    }
}

/// H_AMOUNT, by H_W_ID.
#[derive(Drop)]
pub struct WarehouseHistory;

impl Share<(), History> for WarehouseHistory {
    type Group = u32;

    ghost is_of = { λ s g k r. r.warehouse == g };

    ghost amount = { λ r. r.amount };

    fn group(&mut self, _key: &(), row: &History) -> Option<u32> {
        Some(row.warehouse)
    }

    fn amount_of(row: &History) -> i64 {
        row.amount.amount()
    }
}

/// H_AMOUNT, by H_W_ID and H_D_ID.
#[derive(Drop)]
pub struct DistrictHistory;

impl Share<(), History> for DistrictHistory {
    type Group = DistrictKey;

    ghost is_of = { λ s g k r. is_district r.warehouse r.district g };

    ghost amount = { λ r. r.amount };

    fn group(&mut self, _key: &(), row: &History) -> Option<DistrictKey> {
        Some(DistrictKey {
            warehouse: row.warehouse,
            district: row.district,
        })
    }

    fn amount_of(row: &History) -> i64 {
        row.amount.amount()
    }
}

/// H_AMOUNT, by H_C_W_ID, H_C_D_ID and H_C_ID.
#[derive(Drop)]
pub struct CustomerHistory;

impl Share<(), History> for CustomerHistory {
    type Group = CustomerKey;

    ghost is_of = { λ s g k r. is_customer r.customer_warehouse r.customer_district r.customer g };

    ghost amount = { λ r. r.amount };

    fn group(&mut self, _key: &(), row: &History) -> Option<CustomerKey> {
        Some(CustomerKey {
            warehouse: row.customer_warehouse,
            district: row.customer_district,
            customer: row.customer,
        })
    }

    fn amount_of(row: &History) -> i64 {
        row.amount.amount()
    }
}
