//! The running totals of a database.

ghost use Rattle.std.specs.Prelude.{◌≡◌, IfOk};
ghost use Rattle.readset.specs.Cells.{AreCellsOf};
ghost use Rattle.readset.specs.Writes.{AreWrittenOfKind};
ghost use Rattle.tables.specs.Sizes.{IsScale};
ghost use Rattle.tables.specs.Apply.{after};
ghost use Rattle.tables.specs.Database.{Database};
ghost use Rattle.tables.specs.declared.input.Input.{Input as InputOf};
ghost use Rattle.tables.specs.declared.reply.Reply.{Reply as ReplyOf};
ghost use Rattle.totals_bounds.specs.Bounds.{AreBounds};
ghost use Rattle.totals_bounds.specs.Written.{HasOrdersWithin, IsWith};
ghost use Rattle.totals.specs.Totals.{AreSums, AreTotals};
ghost use Rattle.totals.specs.Counts.{AreHeld, AreRecords, MayFollow};

use crate::follows::{sums_begin_with_tables, sums_follow_commits};
use crate::running::RunningSums;
use cells::{Cells, Pen};
use readset::WriteList;
use std::alloc::{AllocError, Global};
use std::marker::Model;
use tables::{History, Scale};
use totals_bounds::OrderBounds;

/// The totals over a database's tables that its consistency conditions speak of (TPC-C 3.3.2): its sums and counts, and
/// the least and greatest order numbers of its districts.
#[derive(Drop)]
pub struct Totals {
    sums: RunningSums,
    bounds: OrderBounds,
}

impl Model for Totals {
    ghost use Rattle.totals.specs.Totals.{TotalsView};

    ghost Value = { TotalsView };

    ghost view = { λ a. record { sums = a.sums; bounds = a.bounds } };
}

impl Totals {
    /// The totals of the tables whose records hold what their newest versions say, and whose HISTORY has these rows.
    /// Costs a few looks at each record and row. Refuses only for memory.
    pub fn of(
        alloc: Global,
        scale: &Scale,
        cells: &Cells,
        pen: &mut Pen,
        history: &[History],
    ) -> Result<Totals, AllocError>
        requires own { pen.old.cells ≡ cells.now }
        requires records { (t : Database) × (t.scale ≡ scale.now) × (t.history ≡ history.now) × AreRecords pen.old t }
        ensures pen { pen.new ≡ pen.old }
        ensures totals { IfOk result (λ totals. (t : Database) → t.scale ≡ scale.now → t.history ≡ history.now
            → AreRecords pen.old t → AreTotals t totals) }
    {
        sums_begin_with_tables();
        keeps_limits(scale);
        let sums = RunningSums::of(alloc, scale, cells, pen, history)?;
        let bounds = OrderBounds::of(alloc, *scale, cells, pen)?;
        Ok(Totals { sums, bounds })
    }

    /// The sums and counts.
    pub fn sums(&self) -> &RunningSums
        ensures { result.now ≡ self.now.sums }
    {
        &self.sums
    }

    /// The least and greatest order numbers.
    pub fn bounds(&self) -> &OrderBounds
        ensures { result.now ≡ self.now.bounds }
    {
        &self.bounds
    }

    /// Follows a commit, before its versions are stored: the sums. Constant time for each record written, without
    /// memory.
    pub fn follow(&mut self, cells: &Cells, pen: &mut Pen, writes: &WriteList)
        requires own { pen.old.cells ≡ cells.now }
        requires may { (t : Database) × (x : InputOf) × (reply : ReplyOf)
            × MayFollow t x reply self.old pen.old writes.now }
        ensures pen { pen.new ≡ pen.old }
        ensures bounds { self.new.bounds ≡ self.old.bounds }
        ensures scale { self.new.sums.scale ≡ self.old.sums.scale }
        ensures sums { (t : Database) (x : InputOf) (reply : ReplyOf)
            → MayFollow t x reply self.old pen.old writes.now → AreSums (after t x).scale (after t x) self.new.sums }
    {
        sums_follow_commits();
        keeps_limits(self.sums.scale());
        self.sums.follow(cells, pen, writes);
    }

    /// Follows it once they are stored: the least and greatest order numbers. Costs what `OrderBounds::follow` does.
    pub fn follow_stores(&mut self, cells: &Cells, pen: &mut Pen, writes: &WriteList)
        requires own { pen.old.cells ≡ cells.now }
        requires count { AreCellsOf self.old.bounds.scale cells.now }
        requires kinds { AreWrittenOfKind cells.now writes.now }
        ensures pen { pen.new ≡ pen.old }
        ensures sums { self.new.sums ≡ self.old.sums }
        ensures scale { self.new.bounds.scale ≡ self.old.bounds.scale }
        ensures bounds { (t u : Database) → t.scale ≡ self.old.bounds.scale → HasOrdersWithin t → HasOrdersWithin u
            → IsWith t u writes.now → AreHeld pen.old u → AreBounds t.scale t self.old.bounds
            → AreBounds u.scale u self.new.bounds }
    {
        self.bounds.follow(cells, pen, writes);
    }
}

/// Does nothing: it says of a scale as a whole what its getters say of each number.
fn keeps_limits(scale: &Scale)
    ensures { IsScale scale.now }
{
    let _ = (scale.warehouses(), scale.districts(), scale.customers());
    let _ = (scale.items(), scale.orders(), scale.commits());
}
