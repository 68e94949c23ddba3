//! What a check of the consistency conditions tells.

use tables::{CustomerKey, DistrictKey, LineKey, OrderKey};

/// For each consistency condition (TPC-C 3.3.2) the least key that breaks it, or nothing where it holds.
/// The default is the report in which every condition holds.
#[derive(Clone, Copy, Debug, Default, PartialEq, Eq)]
pub struct Report {
    /// W_YTD is the sum of D_YTD; by W_ID.
    pub condition_1: Option<u32>,
    /// D_NEXT_O_ID - 1 is the greatest O_ID, and the greatest NO_O_ID where there is one.
    pub condition_2: Option<DistrictKey>,
    /// The greatest NO_O_ID minus the least plus 1 is the number of NEW-ORDER rows, where there are any.
    pub condition_3: Option<DistrictKey>,
    /// The sum of O_OL_CNT is the number of ORDER-LINE rows.
    pub condition_4: Option<DistrictKey>,
    /// O_CARRIER_ID is null exactly where the order has a NEW-ORDER row.
    pub condition_5: Option<OrderKey>,
    /// O_OL_CNT is the number of the order's ORDER-LINE rows.
    pub condition_6: Option<OrderKey>,
    /// OL_DELIVERY_D is null exactly where the order's O_CARRIER_ID is.
    pub condition_7: Option<LineKey>,
    /// W_YTD is the sum of H_AMOUNT; by W_ID.
    pub condition_8: Option<u32>,
    /// D_YTD is the sum of H_AMOUNT.
    pub condition_9: Option<DistrictKey>,
    /// C_BALANCE is what was delivered minus the sum of H_AMOUNT.
    pub condition_10: Option<CustomerKey>,
    /// C_BALANCE and C_YTD_PAYMENT are what was delivered.
    pub condition_12: Option<CustomerKey>,
}

impl Report {
    ghost use Rattle.std.specs.Prelude.{◌↔◌, IsTrue};
    ghost use Rattle.conditions.specs.Report.{IsGood};

    /// Whether every condition holds.
    pub fn is_good(&self) -> bool
        ensures { IsTrue result ↔ IsGood self.now }
    {
        self.condition_1.is_none()
            && self.condition_2.is_none()
            && self.condition_3.is_none()
            && self.condition_4.is_none()
            && self.condition_5.is_none()
            && self.condition_6.is_none()
            && self.condition_7.is_none()
            && self.condition_8.is_none()
            && self.condition_9.is_none()
            && self.condition_10.is_none()
            && self.condition_12.is_none()
    }
}
