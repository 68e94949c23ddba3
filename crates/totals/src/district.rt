//! A district's totals.

ghost use Rattle.std.specs.Prelude.{◌≡◌};
ghost use Rattle.tables.specs.Keys.{IsDistrictKey};
ghost use Rattle.totals.specs.District.{AreOfDistrict};

use crate::totals::Totals;
use tables::DistrictKey;

/// The totals of one district.
#[derive(Clone, Copy, Debug, PartialEq, Eq)]
pub struct DistrictTotals {
    /// The sum of H_AMOUNT by H_W_ID and H_D_ID, in cents (TPC-C 3.3.2.9).
    pub paid: i64,
    /// The sum of O_OL_CNT (3.3.2.4).
    pub line_counts: i64,
    /// The number of ORDER-LINE rows (3.3.2.4).
    pub lines: i64,
    /// The number of NEW-ORDER rows (3.3.2.3).
    pub waiting: i64,
    /// The greatest O_ID, 0 where there is none (3.3.2.2).
    pub greatest_order: u32,
    /// The least NO_O_ID, 0 where there is none (3.3.2.3).
    pub least_waiting: u32,
    /// The greatest NO_O_ID, 0 where there is none (3.3.2.2, 3.3.2.3).
    pub greatest_waiting: u32,
}

impl Totals {
    /// The totals of a district. Constant time, no memory.
    pub fn of_district(&self, key: DistrictKey) -> DistrictTotals
        requires sums { IsDistrictKey self.now.sums.scale key }
        requires bounds { IsDistrictKey self.now.bounds.scale key }
        ensures { AreOfDistrict self.now key result }
    {
        DistrictTotals {
            paid: self.sums().paid_at_district(key),
            line_counts: self.sums().line_counts(key),
            lines: self.sums().district_lines(key),
            waiting: self.sums().waiting(key),
            greatest_order: self.bounds().greatest_order(key),
            least_waiting: self.bounds().least_waiting(key),
            greatest_waiting: self.bounds().greatest_waiting(key),
        }
    }
}
