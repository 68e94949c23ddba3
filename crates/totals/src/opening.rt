//! The sums of the tables that a database begins with.

ghost use Rattle.std.specs.Prelude.{◌≡◌, ◌<◌, pos, All, IfOk, length, None, replicate};
ghost use Rattle.tables.specs.Maps.{sum_of};
ghost use Rattle.tables.specs.Records.{narrow_count, key_of};
ghost use Rattle.tables.specs.WellFormed.{IsHistoryRow};
ghost use Rattle.cells.specs.Records.{held_by};
ghost use Rattle.readset.specs.Cells.{AreCellsOf};
ghost use Rattle.totals.specs.Moves.{MovesSums, HasBuyers, order_before, step, no_history, no_record};
ghost use Rattle.totals.specs.Counted.{counted_in};
ghost use Rattle.totals.specs.Opening.{no_sums, worth_from, SumsOpen};

use crate::places::{Counted, counted_records, is_past};
use crate::running::RunningSums;
use cells::{Cells, Pen};
use std::alloc::{AllocError, Global};
use tables::{History, Scale, Table, narrow_count};

impl RunningSums {
    /// The sums of the tables whose records hold what their newest versions say, and whose HISTORY has these rows.
    /// Costs a look at each record and row. Refuses only for memory.
    pub fn of(
        alloc: Global,
        scale: &Scale,
        cells: &Cells,
        pen: &mut Pen,
        history: &[History],
    ) -> Result<RunningSums, AllocError>
        requires own { pen.old.cells ≡ cells.now }
        requires count { AreCellsOf scale.now cells.now }
        requires buyers { HasBuyers scale.now (held_by pen.old) }
        requires rows { All (IsHistoryRow scale.now) history.now }
        ensures pen { pen.new ≡ pen.old }
        ensures scale { IfOk result (λ sums. sums.scale ≡ scale.now) }
        ensures sums { IfOk result (SumsOpen scale.now (held_by pen.old) history.now) }
    {
        let mut sums = RunningSums::of_no_rows(alloc, scale)?;
        sums.count_records(cells, pen);
        sums.count_rows(history);
        Ok(sums)
    }

    /// The sums of tables without rows.
    fn of_no_rows(alloc: Global, scale: &Scale) -> Result<RunningSums, AllocError>
        ensures { IfOk result (λ sums. sums ≡ no_sums scale.now) }
    {
        let districts = Table::District.size(scale);
        let customers = Table::Customer.size(scale);
        Ok(RunningSums {
            scale: *scale,
            year_to_date: none(alloc, scale.warehouses())?,
            paid_at_warehouse: none(alloc, scale.warehouses())?,
            paid_at_district: none(alloc, districts)?,
            paid_by_customer: none(alloc, customers)?,
            delivered: none(alloc, customers)?,
            line_counts: none(alloc, districts)?,
            district_lines: none(alloc, districts)?,
            order_lines: none_small(alloc, Table::Order.size(scale))?,
            waiting: none(alloc, districts)?,
        })
    }

    /// Counts all narrow records, none of which was counted.
    fn count_records(&mut self, cells: &Cells, pen: &mut Pen)
        requires own { pen.old.cells ≡ cells.now }
        requires count { AreCellsOf self.old.scale cells.now }
        requires buyers { HasBuyers self.old.scale (held_by pen.old) }
        ensures pen { pen.new ≡ pen.old }
        ensures scale { self.new.scale ≡ self.old.scale }
        ensures moves { MovesSums self.old.scale (order_before self.old.scale (held_by pen.old))
            (worth_from self.old.scale (held_by pen.old) (narrow_count self.old.scale) 0) no_history
            self.old self.new }
    {
        let counted = counted_records(&self.scale);
        let count = narrow_count(&self.scale);
        for number in 0..count {
            self.count_record(cells, pen, &counted, number);
        }
    }

    /// Counts a record, which wasn't counted.
    fn count_record(&mut self, cells: &Cells, pen: &mut Pen, counted: &Counted, number: u32)
        requires own { pen.old.cells ≡ cells.now }
        requires count { AreCellsOf self.old.scale cells.now }
        requires counted { counted.now ≡ counted_in self.old.scale }
        requires number { number < narrow_count self.old.scale }
        requires buyers { HasBuyers self.old.scale (held_by pen.old) }
        ensures pen { pen.new ≡ pen.old }
        ensures scale { self.new.scale ≡ self.old.scale }
        ensures moves { MovesSums self.old.scale (order_before self.old.scale (held_by pen.old))
            (step (key_of self.old.scale number) None (held_by pen.old number)) no_history self.old self.new }
    {
        if is_past(counted, number) {
            return;
        }
        let value = cells.held(pen, number);
        // Most records of a database are absent.
        if value.is_some() {
            self.move_record(cells, pen, counted, number, None, value.as_ref());
        }
    }

    /// Counts HISTORY rows.
    fn count_rows(&mut self, rows: &[History])
        requires { All (IsHistoryRow self.old.scale) rows.now }
        ensures scale { self.new.scale ≡ self.old.scale }
        ensures moves { (order : _) → MovesSums self.old.scale order no_record (λ f. sum_of f rows.now)
            self.old self.new }
    {
        for row in rows {
            self.follow_row(row);
        }
    }
}

/// So many amounts of 0.
fn none(alloc: Global, count: u32) -> Result<Vec<i64>, AllocError>
    ensures { IfOk result (λ amounts. amounts.items ≡ replicate count (pos 0)) }
{
    vec![in alloc; 0; count as usize]
}

/// The same, of small ones.
fn none_small(alloc: Global, count: u32) -> Result<Vec<i8>, AllocError>
    ensures { IfOk result (λ amounts. amounts.items ≡ replicate count (pos 0)) }
{
    vec![in alloc; 0; count as usize]
}
