//! What the running totals are at a key. Each in constant time, without memory.

ghost use Rattle.std.specs.Prelude.{◌≡◌, ◌-◌};
ghost use Rattle.tables.specs.Keys.{IsWarehouseKey, IsDistrictKey, IsCustomerKey, IsOrderKey};
ghost use Rattle.tables.specs.Records.{district_place, customer_place, order_place};
ghost use Rattle.totals.specs.Totals.{amount_in};

use crate::running::RunningSums;
use tables::{
    CustomerKey, DistrictKey, OrderKey, Scale, place_of_customer, place_of_district, place_of_order,
};

impl RunningSums {
    /// The scale.
    pub fn scale(&self) -> &Scale
        ensures { result.now ≡ self.now.scale }
    {
        &self.scale
    }

    /// The sum of a warehouse's D_YTD.
    pub fn year_to_date(&self, warehouse: u32) -> i64
        requires { IsWarehouseKey self.now.scale warehouse }
        ensures { result ≡ amount_in self.now.year_to_date (warehouse - 1) }
    {
        let place = warehouse - 1;
        self.year_to_date[place as usize]
    }

    /// The sum of H_AMOUNT by H_W_ID.
    pub fn paid_at_warehouse(&self, warehouse: u32) -> i64
        requires { IsWarehouseKey self.now.scale warehouse }
        ensures { result ≡ amount_in self.now.paid_at_warehouse (warehouse - 1) }
    {
        let place = warehouse - 1;
        self.paid_at_warehouse[place as usize]
    }

    /// The sum of H_AMOUNT by H_W_ID and H_D_ID.
    pub fn paid_at_district(&self, key: DistrictKey) -> i64
        requires { IsDistrictKey self.now.scale key }
        ensures { result ≡ amount_in self.now.paid_at_district
            (district_place self.now.scale key.warehouse key.district) }
    {
        let place = place_of_district(&self.scale, key);
        self.paid_at_district[place as usize]
    }

    /// The sum of O_OL_CNT over a district's orders.
    pub fn line_counts(&self, key: DistrictKey) -> i64
        requires { IsDistrictKey self.now.scale key }
        ensures { result ≡ amount_in self.now.line_counts (district_place self.now.scale key.warehouse key.district) }
    {
        let place = place_of_district(&self.scale, key);
        self.line_counts[place as usize]
    }

    /// The number of a district's ORDER-LINE rows.
    pub fn district_lines(&self, key: DistrictKey) -> i64
        requires { IsDistrictKey self.now.scale key }
        ensures { result ≡ amount_in self.now.district_lines
            (district_place self.now.scale key.warehouse key.district) }
    {
        let place = place_of_district(&self.scale, key);
        self.district_lines[place as usize]
    }

    /// The number of a district's NEW-ORDER rows.
    pub fn waiting(&self, key: DistrictKey) -> i64
        requires { IsDistrictKey self.now.scale key }
        ensures { result ≡ amount_in self.now.waiting (district_place self.now.scale key.warehouse key.district) }
    {
        let place = place_of_district(&self.scale, key);
        self.waiting[place as usize]
    }

    /// The sum of H_AMOUNT by H_C_W_ID, H_C_D_ID and H_C_ID.
    pub fn paid_by_customer(&self, key: CustomerKey) -> i64
        requires { IsCustomerKey self.now.scale key }
        ensures { result ≡ amount_in self.now.paid_by_customer (customer_place self.now.scale key) }
    {
        let place = place_of_customer(&self.scale, key);
        self.paid_by_customer[place as usize]
    }

    /// The sum of OL_AMOUNT over a customer's delivered lines.
    pub fn delivered(&self, key: CustomerKey) -> i64
        requires { IsCustomerKey self.now.scale key }
        ensures { result ≡ amount_in self.now.delivered (customer_place self.now.scale key) }
    {
        let place = place_of_customer(&self.scale, key);
        self.delivered[place as usize]
    }

    /// The number of an order's ORDER-LINE rows.
    pub fn order_lines(&self, key: OrderKey) -> i64
        requires { IsOrderKey self.now.scale key }
        ensures { result ≡ amount_in self.now.order_lines (order_place self.now.scale key) }
    {
        let place = place_of_order(&self.scale, key);
        i64::from(self.order_lines[place as usize])
    }
}
