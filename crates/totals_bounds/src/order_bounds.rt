//! The least and the greatest order numbers of all districts.

ghost use Rattle.std.specs.Prelude.{◌≡◌, ◌+◌, ◌++◌, ◌<◌, ◌≤◌, ◌*◌, ◌/◌, ◌%◌, ◌^◌, ℕ, List, Option, IfOk, false};
ghost use Rattle.std.specs.Prelude.{length, slice_index};
ghost use Rattle.tables.specs.Keys.{IsDistrictKey};
ghost use Rattle.tables.specs.Records.{narrow_count, record_number, district_place, first_number, size};
ghost use Rattle.tables.specs.declared.records.Table.TheVariants as table;
ghost use Rattle.tables.specs.Database.{Database, empty_database};
ghost use Rattle.cells.specs.Records.{cell_count, held_by};
ghost use Rattle.readset.specs.Cells.{AreCellsOf};
ghost use Rattle.readset.specs.Writes.{AreWrittenOfKind};
ghost use Rattle.totals_bounds.specs.Bounds.{AreBounds, no_bounds};
ghost use Rattle.totals_bounds.specs.Written.{HasOrdersWithin, AreRowsOf, IsWith};
ghost use Rattle.totals_bounds.specs.Ends.{AreEnds, KeepsEnds, is_among};

use crate::ends::{greatest_after, greatest_beside, least_after};
use cells::{Cells, Pen};
use money::Payload;
use readset::WriteList;
use std::alloc::{AllocError, Global};
use std::marker::Model;
use tables::{DistrictKey, RecordKey, Scale, Table, number_of_key};

/// The least and the greatest order numbers of a database's districts, each a list by place of its district: 12 bytes
/// a district.
#[derive(Drop)]
pub struct OrderBounds {
    scale: Scale,
    greatest_order: Vec<u32>,
    least_waiting: Vec<u32>,
    greatest_waiting: Vec<u32>,
}

impl Model for OrderBounds {
    ghost use Rattle.totals_bounds.specs.Bounds.{BoundsView};
    ghost use Rattle.totals_bounds.specs.Ends.{HasDistrictPlaces};

    ghost Value = { BoundsView };

    ghost view = { λ a. record {
      scale = a.scale;
      greatest_order = a.greatest_order.items;
      least_waiting = a.least_waiting.items;
      greatest_waiting = a.greatest_waiting.items;
    } };

    ghost invariant = { λ a. HasDistrictPlaces (record {
      scale = a.scale;
      greatest_order = a.greatest_order.items;
      least_waiting = a.least_waiting.items;
      greatest_waiting = a.greatest_waiting.items;
    }) };
}

impl OrderBounds {
    /// Those of tables without rows: all 0.
    pub fn new(alloc: Global, scale: Scale) -> Result<OrderBounds, AllocError>
        ensures zeros { IfOk result (λ bounds. bounds ≡ no_bounds scale) }
        ensures bounds { IfOk result (λ bounds. AreBounds scale (empty_database scale) bounds) }
    {
        let districts = (scale.warehouses() * scale.districts()) as usize;
        Ok(OrderBounds {
            scale,
            greatest_order: vec![in alloc; 0; districts]?,
            least_waiting: vec![in alloc; 0; districts]?,
            greatest_waiting: vec![in alloc; 0; districts]?,
        })
    }

    /// Those of the tables whose records hold what their newest versions say. Takes a step for each record of ORDER and
    /// of NEW-ORDER.
    pub fn of(
        alloc: Global,
        scale: Scale,
        cells: &Cells,
        pen: &mut Pen,
    ) -> Result<OrderBounds, AllocError>
        requires own { pen.old.cells ≡ cells.now }
        requires count { AreCellsOf scale cells.now }
        ensures pen { pen.new ≡ pen.old }
        ensures scale { IfOk result (λ bounds. bounds.scale ≡ scale) }
        ensures bounds { IfOk result (λ bounds. (t : Database) → t.scale ≡ scale → HasOrdersWithin t
            → AreRowsOf t (held_by pen.old) → AreBounds t.scale t bounds) }
    {
        let mut bounds = OrderBounds::new(alloc, scale)?;
        bounds.follow_all(cells, pen);
        Ok(bounds)
    }

    /// The greatest O_ID of a district, 0 where it has none. Constant time.
    pub fn greatest_order(&self, key: DistrictKey) -> u32
        requires { IsDistrictKey self.now.scale key }
        ensures { result ≡ slice_index self.now.greatest_order
            (district_place self.now.scale key.warehouse key.district) }
    {
        self.greatest_order[place_of(&self.scale, key)]
    }

    /// The least NO_O_ID of a district, 0 where it has none. Constant time.
    pub fn least_waiting(&self, key: DistrictKey) -> u32
        requires { IsDistrictKey self.now.scale key }
        ensures { result ≡ slice_index self.now.least_waiting
            (district_place self.now.scale key.warehouse key.district) }
    {
        self.least_waiting[place_of(&self.scale, key)]
    }

    /// The greatest NO_O_ID of a district, 0 where it has none. Constant time.
    pub fn greatest_waiting(&self, key: DistrictKey) -> u32
        requires { IsDistrictKey self.now.scale key }
        ensures { result ≡ slice_index self.now.greatest_waiting
            (district_place self.now.scale key.warehouse key.district) }
    {
        self.greatest_waiting[place_of(&self.scale, key)]
    }

    /// Looks at a record of ORDER, by its place there.
    fn follow_order(&mut self, cells: &Cells, pen: &mut Pen, number: u32, place: u32)
        requires own { pen.old.cells ≡ cells.now }
        requires few { cell_count cells.now < 2 ^ 32 }
        requires place { place < size self.old.scale table.Order }
        requires number { number ≡ record_number self.old.scale table.Order place }
        ensures pen { pen.new ≡ pen.old }
        ensures scale { self.new.scale ≡ self.old.scale }
        ensures follows { KeepsEnds self.old.scale (held_by pen.old) number self.old self.new }
    {
        let (district, order) = order_at(&self.scale, place);
        let first = number - (order - 1);
        let greatest = self.greatest_order[district];
        self.greatest_order[district] = greatest_after(cells, pen, first, order, 0, greatest);
    }

    /// Looks at a record of NEW-ORDER, by its place there.
    fn follow_new_order(&mut self, cells: &Cells, pen: &mut Pen, number: u32, place: u32)
        requires own { pen.old.cells ≡ cells.now }
        requires few { cell_count cells.now < 2 ^ 32 }
        requires place { place < size self.old.scale table.NewOrder }
        requires number { number ≡ record_number self.old.scale table.NewOrder place }
        ensures pen { pen.new ≡ pen.old }
        ensures scale { self.new.scale ≡ self.old.scale }
        ensures follows { KeepsEnds self.old.scale (held_by pen.old) number self.old self.new }
    {
        let (district, order) = order_at(&self.scale, place);
        let first = number - (order - 1);
        let least = self.least_waiting[district];
        let greatest = self.greatest_waiting[district];
        let low = least_after(cells, pen, first, order, least, greatest);
        self.least_waiting[district] = low;
        self.greatest_waiting[district] = greatest_beside(cells, pen, first, order, low, greatest);
    }

    /// Looks at a record, where these are the first record of NEW-ORDER and the one behind the last of ORDER.
    #[inline(always)]
    fn follow_record(&mut self, cells: &Cells, pen: &mut Pen, number: u32, first: u32, end: u32)
        requires own { pen.old.cells ≡ cells.now }
        requires few { cell_count cells.now < 2 ^ 32 }
        requires first { first ≡ first_number self.old.scale table.NewOrder }
        requires end { end ≡ first_number self.old.scale table.NewOrder
            + (size self.old.scale table.NewOrder + size self.old.scale table.Order) }
        ensures pen { pen.new ≡ pen.old }
        ensures scale { self.new.scale ≡ self.old.scale }
        ensures follows { KeepsEnds self.old.scale (held_by pen.old) number self.old self.new }
    {
        // Most records written are of other tables.
        if number < first || end <= number {
            return;
        }
        // The two tables are of one size.
        let size = (end - first) / 2;
        let place = number - first;
        if place < size {
            self.follow_new_order(cells, pen, number, place);
        } else {
            self.follow_order(cells, pen, number, place - size);
        }
    }

    /// Looks at the narrow records that a commit has written, where others may be left.
    fn follow_narrow(&mut self, cells: &Cells, pen: &mut Pen, values: &[(u32, Option<Payload>)])
        requires own { pen.old.cells ≡ cells.now }
        requires count { AreCellsOf self.old.scale cells.now }
        ensures pen { pen.new ≡ pen.old }
        ensures scale { self.new.scale ≡ self.old.scale }
        ensures ends { (others : List (ℕ × Option (List ℕ)))
            → AreEnds self.old.scale (held_by pen.old) (is_among (values.now ++ others)) self.old
            → AreEnds self.old.scale (held_by pen.old) (is_among others) self.new }
    {
        let (first, end) = order_records(&self.scale);
        for (number, _) in values {
            self.follow_record(cells, pen, *number, first, end);
        }
    }

    /// Looks at the records that a commit has written. Of the wide ones none holds an order.
    fn follow_values(&mut self, cells: &Cells, pen: &mut Pen, writes: &WriteList)
        requires own { pen.old.cells ≡ cells.now }
        requires count { AreCellsOf self.old.scale cells.now }
        requires kinds { AreWrittenOfKind cells.now writes.now }
        ensures pen { pen.new ≡ pen.old }
        ensures scale { self.new.scale ≡ self.old.scale }
        ensures ends { AreEnds self.old.scale (held_by pen.old) (is_among writes.now.values) self.old
            → AreEnds self.old.scale (held_by pen.old) (λ n. false) self.new }
    {
        let (narrow, _) = writes.parts();
        self.follow_narrow(cells, pen, narrow);
    }

    /// Looks at all records of ORDER and of NEW-ORDER.
    fn follow_all(&mut self, cells: &Cells, pen: &mut Pen)
        requires own { pen.old.cells ≡ cells.now }
        requires count { AreCellsOf self.old.scale cells.now }
        ensures pen { pen.new ≡ pen.old }
        ensures scale { self.new.scale ≡ self.old.scale }
        ensures ends { self.old ≡ no_bounds self.old.scale
            → AreEnds self.old.scale (held_by pen.old) (λ n. false) self.new }
    {
        let (first, end) = order_records(&self.scale);
        for number in first..end {
            self.follow_record(cells, pen, number, first, end);
        }
    }

    /// Brings the bounds up to date with a commit, where the records have the versions after it. A commit of the five
    /// transactions takes constant time for each record written, without memory: two comparisons, and at a record of
    /// ORDER or NEW-ORDER a division and a look at a few versions, not at their data. Where a number has gone that was
    /// the least or the greatest, the next one is looked for, and that is its neighbour in sound tables.
    pub fn follow(&mut self, cells: &Cells, pen: &mut Pen, writes: &WriteList)
        requires own { pen.old.cells ≡ cells.now }
        requires count { AreCellsOf self.old.scale cells.now }
        requires kinds { AreWrittenOfKind cells.now writes.now }
        ensures pen { pen.new ≡ pen.old }
        ensures scale { self.new.scale ≡ self.old.scale }
        ensures bounds { (t u : Database) → t.scale ≡ self.old.scale → HasOrdersWithin t → HasOrdersWithin u
            → IsWith t u writes.now → AreRowsOf u (held_by pen.old) → AreBounds t.scale t self.old
            → AreBounds u.scale u self.new }
    {
        self.follow_values(cells, pen, writes);
    }
}

/// The first record of NEW-ORDER, and the one behind the last of ORDER, whose records follow.
fn order_records(scale: &Scale) -> (u32, u32)
    ensures few { narrow_count scale.now < 2 ^ 32 }
    ensures first { result.0 ≡ first_number scale.now table.NewOrder }
    ensures end { result.1 ≡ first_number scale.now table.NewOrder
        + (size scale.now table.NewOrder + size scale.now table.Order) }
{
    (Table::NewOrder.first(scale), Table::Order.end(scale))
}

/// The place of a district.
#[tactic(auto, using(tables::proofs::Numbers::district_there))]
fn place_of(scale: &Scale, key: DistrictKey) -> usize
    requires { IsDistrictKey scale.now key }
    ensures value { result ≡ district_place scale.now key.warehouse key.district }
    ensures limit { result < scale.now.warehouses * scale.now.districts }
{
    let number = number_of_key(scale, RecordKey::District(key));
    (number - scale.warehouses()) as usize
}

/// The place of an order's district, and the order's number, by the place of its record in its table.
fn order_at(scale: &Scale, place: u32) -> (usize, u32)
    requires { place < size scale.now table.Order }
    ensures district { result.0 ≡ place / scale.now.orders }
    ensures limit { result.0 < scale.now.warehouses * scale.now.districts }
    ensures order { result.1 ≡ place % scale.now.orders + 1 }
    ensures within { result.1 ≤ place + 1 }
{
    // The order cap is at least the number of customers, which isn't 0.
    prove!(scale.customers() > 0);
    let orders = scale.orders();
    ((place / orders) as usize, place % orders + 1)
}
