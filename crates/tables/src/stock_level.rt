//! Stock-Level (TPC-C 2.8): its input and its reply, which `specs/StockLevel.antt` defines. It changes nothing.

ghost use Rattle.std.specs.Prelude.{◌↔◌, IsTrue};

use crate::keys::DistrictKey;
use crate::limits::{MAX_DATE, MAX_THRESHOLD, MIN_THRESHOLD};
use crate::scale::{Scale, is_between};

/// A Stock-Level's input (TPC-C 2.8.1): the district, the threshold, and the date on which it is asked.
#[derive(Clone, Copy, Debug, PartialEq, Eq)]
pub struct StockLevelInput {
    pub date: u32,
    pub warehouse: u32,
    pub district: u32,
    pub threshold: u32,
}

/// A Stock-Level's reply (TPC-C 2.8.3.3): its input, and how many recently sold items have a stock below the threshold.
#[derive(Clone, Copy, Debug, PartialEq, Eq)]
pub struct StockLevelReply {
    pub warehouse: u32,
    pub district: u32,
    pub threshold: u32,
    pub low: u32,
}

impl StockLevelInput {
    ghost use Rattle.std.specs.Prelude.{◌≡◌};
    ghost use Rattle.tables.specs.StockLevel.{IsStockLevel};

    /// The district that is asked about.
    pub fn home(&self) -> DistrictKey
        ensures { result ≡ record { warehouse = self.now.warehouse; district = self.now.district } }
    {
        DistrictKey {
            warehouse: self.warehouse,
            district: self.district,
        }
    }

    /// Whether each field is in its range: the date from 1 to 4,000,000,000, the district within the scale, the
    /// threshold from 10 to 20.
    pub(crate) fn is_in_range(&self, scale: &Scale) -> bool
        ensures { IsTrue result ↔ IsStockLevel scale.now self.now }
    {
        is_between(1, MAX_DATE, self.date)
            && is_between(1, scale.warehouses(), self.warehouse)
            && is_between(1, scale.districts(), self.district)
            && is_between(MIN_THRESHOLD, MAX_THRESHOLD, self.threshold)
    }
}
