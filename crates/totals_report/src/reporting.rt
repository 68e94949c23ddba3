//! The report.

ghost use Rattle.std.specs.Prelude.{◌≡◌, length};
ghost use Rattle.readset.specs.Cells.{AreCellsOf};
ghost use Rattle.tables.specs.Records.{narrow_count};
ghost use Rattle.tables.specs.Conditions.{IsConsistent};
ghost use Rattle.tables.specs.Database.{Database};
ghost use Rattle.conditions.specs.Report.{IsReportOf, IsGood};
ghost use Rattle.totals.specs.Counts.{AreHeld};
ghost use Rattle.totals_report.specs.Told.{HasTotals};

use crate::asking::ask;
use cells::{Cells, Pen};
use conditions::Report;
use tables::{Scale, narrow_count};
use totals::RunningSums;
use totals_bounds::OrderBounds;

/// For each consistency condition (TPC-C 3.3.2) the least key that breaks it, of the tables whose records hold what
/// their newest versions say, and whose totals these are. Good of consistent tables. Costs one pass over the records,
/// in which each that is there is compared with the totals of its key, and no memory.
pub fn report_of(
    scale: &Scale,
    cells: &Cells,
    pen: &mut Pen,
    sums: &RunningSums,
    bounds: &OrderBounds,
) -> Report
    requires sums { sums.now.scale ≡ scale.now }
    requires bounds { bounds.now.scale ≡ scale.now }
    requires own { pen.old.cells ≡ cells.now }
    requires count { AreCellsOf scale.now cells.now }
    ensures pen { pen.new ≡ pen.old }
    ensures report { (t : Database) → HasTotals sums.now bounds.now t → AreHeld pen.old t → IsReportOf t result }
    ensures good { (t : Database) → HasTotals sums.now bounds.now t → AreHeld pen.old t → IsConsistent t
        → IsGood result }
{
    let mut report = Report::default();
    for number in 0..narrow_count(scale) {
        ask(&mut report, scale, cells, pen, sums, bounds, number);
    }
    report
}
