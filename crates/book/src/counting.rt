//! Storing what a commit writes, with the running totals brought up to date.
ghost use Rattle.tables.specs.Apply.{after};
ghost use Rattle.tables.specs.Database.{Database};
ghost use Rattle.tables.specs.declared.input.Input.{Input};
ghost use Rattle.tables.specs.declared.reply.Reply.{Reply};
ghost use Rattle.totals.specs.Totals.{AreTotals};
ghost use Rattle.totals.specs.Counts.{AreHeld, MayFollow};
ghost use Rattle.book.specs.Storing.{MayStore, StoresEntry};

use crate::entry::Entry;
use crate::steps::store;
use cells::{Cells, Pen, Reader};
use std::sync::Wait;
use totals::Totals;

/// Stores the versions that this commit writes, as `store` does, and counts it in the totals.
pub(crate) fn store_counted<R: Wait>(
    rt: &R,
    cells: &Cells,
    pen: &mut Pen,
    reader: &mut Reader,
    totals: &mut Totals,
    entry: &Entry,
)
    requires may { MayStore cells.now pen.old reader.old entry.now }
    requires counted { (t : Database) × (x : Input) × (reply : Reply)
        × MayFollow t x reply totals.old pen.old entry.now.writes }
    ensures stores { StoresEntry pen.old pen.new reader.old reader.new entry.now }
    ensures totals { (t : Database) (x : Input) (reply : Reply)
        → MayFollow t x reply totals.old pen.old entry.now.writes → AreHeld pen.new (after t x)
        → AreTotals (after t x) totals.new }
{
    totals.follow(cells, pen, &entry.writes);
    store(rt, cells, pen, reader, entry);
    totals.follow_stores(cells, pen, &entry.writes);
}
