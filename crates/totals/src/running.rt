//! The totals that are sums and counts.

ghost use Rattle.std.specs.Prelude.{◌≡◌, ◌<◌, ◌≤◌, ℕ, pos, List, Option, Some, All, length, slice_index};
ghost use Rattle.std.specs.Option.{ForSome, option_copied};
ghost use Rattle.tables.specs.Sizes.{IsNumber};
ghost use Rattle.tables.specs.Keys.{order_of};
ghost use Rattle.tables.specs.Records.{narrow_count, record_count, key_of, size, first_number, district_at};
ghost use Rattle.tables.specs.Records.{order_at, line_at};
ghost use Rattle.tables.specs.WellFormed.{IsHistoryRow};
ghost use Rattle.tables.specs.declared.records.Table.TheVariants as table;
ghost use Rattle.cells.specs.Records.{held_by};
ghost use Rattle.readset.specs.Cells.{AreCellsOf};
ghost use Rattle.readset.specs.Writes.{AreWrittenOfKind};
ghost use Rattle.totals.specs.Moves.{MovesSums, SumsFollow, HasBuyers, order_before, step, moved, no_history};
ghost use Rattle.totals.specs.Counted.{counted_in};
ghost use Rattle.totals.specs.Steps.{HasPlaces, district_step, order_step, new_order_step, district_line_step};
ghost use Rattle.totals.specs.Steps.{order_line_step, delivered_step, deliver_step, FollowsLine};
ghost use Rattle.totals.specs.Steps.{warehouse_paid_step, district_paid_step, customer_paid_step, history_step};

use crate::amounts::{move_amount, move_small};
use crate::places::{Counted, counted_records, district_of_order, is_past, place_of_buyer};
use crate::worth::{delivered_amount, presence, signed_word, small_presence};
use cells::{Cells, Pen};
use money::Payload;
use readset::WriteList;
use rows::column::{D_YTD, O_C_ID, O_OL_CNT};
use std::marker::Model;
use tables::limits::MAX_ORDER_LINES;
use tables::{CustomerKey, DistrictKey, History, Scale, place_of_customer, place_of_district};

/// The sums over a database's tables that its consistency conditions speak of, each a list by place of its key: 8 bytes
/// a warehouse, district or customer and sum, and 1 byte an order number of the scale.
#[derive(Drop)]
pub struct RunningSums {
    pub(crate) scale: Scale,
    pub(crate) year_to_date: Vec<i64>,
    pub(crate) paid_at_warehouse: Vec<i64>,
    pub(crate) paid_at_district: Vec<i64>,
    pub(crate) paid_by_customer: Vec<i64>,
    pub(crate) delivered: Vec<i64>,
    pub(crate) line_counts: Vec<i64>,
    pub(crate) district_lines: Vec<i64>,
    pub(crate) order_lines: Vec<i8>,
    pub(crate) waiting: Vec<i64>,
}

impl Model for RunningSums {
    ghost use Rattle.totals.specs.Totals.{SumsView};
    ghost use Rattle.totals.specs.Steps.{HasPlaces};
    ghost use Rattle.totals.specs.Inside.{sums_in};

    ghost Value = { SumsView };

    ghost view = { sums_in };

    ghost invariant = { λ a. HasPlaces (sums_in a) };
}

impl RunningSums {
    /// Follows a record of DISTRICT, by its place there.
    #[inline(always)]
    fn follow_district(&mut self, place: u32, old: Option<&Payload>, new: Option<&Payload>)
        requires { place < size self.old.scale table.District }
        ensures { self.new ≡ district_step self.old (district_at self.old.scale place)
            (option_copied old.entry) (option_copied new.entry) }
    {
        let warehouse = place / self.scale.districts();
        let before = signed_word(old, D_YTD);
        let after = signed_word(new, D_YTD);
        move_amount(&mut self.year_to_date, warehouse, before, after);
    }

    /// Follows a record of ORDER, by its place there.
    #[inline(always)]
    fn follow_order(&mut self, place: u32, old: Option<&Payload>, new: Option<&Payload>)
        requires { place < size self.old.scale table.Order }
        ensures { self.new ≡ order_step self.old (order_at self.old.scale place)
            (option_copied old.entry) (option_copied new.entry) }
    {
        let district = district_of_order(&self.scale, place);
        let before = signed_word(old, O_OL_CNT);
        let after = signed_word(new, O_OL_CNT);
        move_amount(&mut self.line_counts, district, before, after);
    }

    /// Follows a record of NEW-ORDER, by its place there.
    #[inline(always)]
    fn follow_new_order(&mut self, place: u32, old: Option<&Payload>, new: Option<&Payload>)
        requires { place < size self.old.scale table.NewOrder }
        ensures { self.new ≡ new_order_step self.old (order_at self.old.scale place)
            (option_copied old.entry) (option_copied new.entry) }
    {
        let district = district_of_order(&self.scale, place);
        let before = presence(old);
        let after = presence(new);
        move_amount(&mut self.waiting, district, before, after);
    }

    /// Counts a line for its district.
    #[inline(always)]
    fn count_in_district(&mut self, district: u32, old: Option<&Payload>, new: Option<&Payload>)
        requires { district < size self.old.scale table.District }
        ensures { self.new ≡ district_line_step self.old district (option_copied old.entry) (option_copied new.entry) }
    {
        let before = presence(old);
        let after = presence(new);
        move_amount(&mut self.district_lines, district, before, after);
    }

    /// Counts a line for its order.
    #[inline(always)]
    fn count_in_order(&mut self, order: u32, old: Option<&Payload>, new: Option<&Payload>)
        requires { order < size self.old.scale table.Order }
        ensures { self.new ≡ order_line_step self.old order (option_copied old.entry) (option_copied new.entry) }
    {
        let before = small_presence(old);
        let after = small_presence(new);
        move_small(&mut self.order_lines, order, before, after);
    }

    /// Moves what the customer of an order has of delivered lines.
    fn move_delivered(&mut self, district: u32, order: &Payload, before: i64, after: i64)
        requires district { district < size self.old.scale table.District }
        requires buyer { IsNumber self.old.scale.customers (slice_index order.now 0) }
        ensures { self.new ≡ delivered_step self.old district order.now before after }
    {
        let place = place_of_buyer(&self.scale, district, order[O_C_ID]);
        move_amount(&mut self.delivered, place, before, after);
    }

    /// Moves what the customer has whose order this record is.
    fn deliver(
        &mut self,
        district: u32,
        cells: &Cells,
        pen: &mut Pen,
        order: u32,
        before: i64,
        after: i64,
    )
        requires own { pen.old.cells ≡ cells.now }
        requires district { district < size self.old.scale table.District }
        requires order { order < length cells.now.narrow }
        requires buyer { ForSome (held_by pen.old order)
            (λ words. IsNumber self.old.scale.customers (slice_index words 0)) }
        ensures pen { pen.new ≡ pen.old }
        ensures delivered { self.new ≡ deliver_step self.old district (held_by pen.old order) before after }
    {
        if let Some(words) = cells.held(pen, order) {
            self.move_delivered(district, &words, before, after);
        }
    }

    /// Follows a record of ORDER-LINE, by its place there.
    #[inline(always)]
    fn follow_line(
        &mut self,
        cells: &Cells,
        pen: &mut Pen,
        counted: &Counted,
        place: u32,
        old: Option<&Payload>,
        new: Option<&Payload>,
    )
        requires own { pen.old.cells ≡ cells.now }
        requires count { AreCellsOf self.old.scale cells.now }
        requires counted { counted.now ≡ counted_in self.old.scale }
        requires place { place < size self.old.scale table.OrderLine }
        requires buyers { HasBuyers self.old.scale (held_by pen.old) }
        ensures pen { pen.new ≡ pen.old }
        ensures follows { FollowsLine self.old self.new
            (order_before self.old.scale (held_by pen.old) (order_of (line_at self.old.scale place)))
            (line_at self.old.scale place) (option_copied old.entry) (option_copied new.entry) }
    {
        let order = place / MAX_ORDER_LINES;
        let district = district_of_order(&self.scale, order);
        self.count_in_district(district, old, new);
        self.count_in_order(order, old, new);
        let before = delivered_amount(old);
        let after = delivered_amount(new);
        // A line isn't delivered by the commit that makes it.
        if before == after {
            return;
        }
        let number = counted.first_order + order;
        self.deliver(district, cells, pen, number, before, after);
    }

    fn pay_at_warehouse(&mut self, row: &History)
        requires { IsHistoryRow self.old.scale row.now }
        ensures paid { self.new ≡ warehouse_paid_step self.old row.now }
        ensures places { HasPlaces self.old }
    {
        let place = row.warehouse - 1;
        move_amount(&mut self.paid_at_warehouse, place, 0, row.amount.amount());
    }

    fn pay_at_district(&mut self, row: &History)
        requires { IsHistoryRow self.old.scale row.now }
        ensures { self.new ≡ district_paid_step self.old row.now }
    {
        let key = DistrictKey {
            warehouse: row.warehouse,
            district: row.district,
        };
        let place = place_of_district(&self.scale, key);
        move_amount(&mut self.paid_at_district, place, 0, row.amount.amount());
    }

    fn pay_by_customer(&mut self, row: &History)
        requires { IsHistoryRow self.old.scale row.now }
        ensures { self.new ≡ customer_paid_step self.old row.now }
    {
        let key = CustomerKey {
            warehouse: row.customer_warehouse,
            district: row.customer_district,
            customer: row.customer,
        };
        let place = place_of_customer(&self.scale, key);
        move_amount(&mut self.paid_by_customer, place, 0, row.amount.amount());
    }

    /// Adds a HISTORY row's H_AMOUNT three times.
    pub(crate) fn follow_row(&mut self, row: &History)
        requires { IsHistoryRow self.old.scale row.now }
        ensures paid { self.new ≡ history_step self.old row.now }
        ensures places { HasPlaces self.old }
    {
        self.pay_at_warehouse(row);
        self.pay_at_district(row);
        self.pay_by_customer(row);
    }

    /// Follows the values that a commit writes to narrow records, where these held what their newest versions have.
    fn follow_narrow(&mut self, cells: &Cells, pen: &mut Pen, values: &[(u32, Option<Payload>)])
        requires own { pen.old.cells ≡ cells.now }
        requires count { AreCellsOf self.old.scale cells.now }
        requires below { All (λ e. e.0 < narrow_count self.old.scale) values.now }
        requires buyers { HasBuyers self.old.scale (held_by pen.old) }
        ensures pen { pen.new ≡ pen.old }
        ensures scale { self.new.scale ≡ self.old.scale }
        ensures moves { MovesSums self.old.scale (order_before self.old.scale (held_by pen.old))
            (moved self.old.scale (held_by pen.old) values.now) no_history self.old self.new }
    {
        let counted = counted_records(&self.scale);
        for (number, value) in values {
            self.follow_record(cells, pen, &counted, *number, value);
        }
    }

    /// Follows all values that a commit writes. C_DATA, which wide records hold, counts in no sum.
    fn follow_values(&mut self, cells: &Cells, pen: &mut Pen, writes: &WriteList)
        requires own { pen.old.cells ≡ cells.now }
        requires count { AreCellsOf self.old.scale cells.now }
        requires below { All (λ e. e.0 < record_count self.old.scale) writes.now.values }
        requires kinds { AreWrittenOfKind cells.now writes.now }
        requires buyers { HasBuyers self.old.scale (held_by pen.old) }
        ensures pen { pen.new ≡ pen.old }
        ensures scale { self.new.scale ≡ self.old.scale }
        ensures moves { MovesSums self.old.scale (order_before self.old.scale (held_by pen.old))
            (moved self.old.scale (held_by pen.old) writes.now.values) no_history self.old self.new }
    {
        let (narrow, _) = writes.parts();
        self.follow_narrow(cells, pen, narrow);
    }

    /// Brings the sums up to date with a commit, where the records still have the versions before it. Without memory,
    /// and in constant time for each record written: a few comparisons, and at one that they count a division or two
    /// and a load of its words, at a line that is being delivered of its order's too.
    pub fn follow(&mut self, cells: &Cells, pen: &mut Pen, writes: &WriteList)
        requires own { pen.old.cells ≡ cells.now }
        requires count { AreCellsOf self.old.scale cells.now }
        requires below { All (λ e. e.0 < record_count self.old.scale) writes.now.values }
        requires kinds { AreWrittenOfKind cells.now writes.now }
        requires row { ForSome writes.now.history_row (IsHistoryRow self.old.scale) }
        requires buyers { HasBuyers self.old.scale (held_by pen.old) }
        ensures pen { pen.new ≡ pen.old }
        ensures scale { self.new.scale ≡ self.old.scale }
        ensures sums { SumsFollow self.old.scale (held_by pen.old) writes.now self.old self.new }
    {
        self.follow_values(cells, pen, writes);
        if let Some(row) = writes.history_row() {
            self.follow_row(&row);
        }
    }

    /// Follows one record, which held what its newest version has and comes to hold this value.
    #[inline(always)]
    fn follow_record(
        &mut self,
        cells: &Cells,
        pen: &mut Pen,
        counted: &Counted,
        number: u32,
        new: &Option<Payload>,
    )
        requires own { pen.old.cells ≡ cells.now }
        requires count { AreCellsOf self.old.scale cells.now }
        requires counted { counted.now ≡ counted_in self.old.scale }
        requires number { number < narrow_count self.old.scale }
        requires buyers { HasBuyers self.old.scale (held_by pen.old) }
        ensures pen { pen.new ≡ pen.old }
        ensures scale { self.new.scale ≡ self.old.scale }
        ensures moves { MovesSums self.old.scale (order_before self.old.scale (held_by pen.old))
            (step (key_of self.old.scale number) (held_by pen.old number) new.now) no_history self.old self.new }
    {
        // Many of the records written are of other tables.
        if is_past(counted, number) {
            return;
        }
        let old = cells.held(pen, number);
        self.move_record(cells, pen, counted, number, old.as_ref(), new.as_ref());
    }

    /// Moves the sums by a record that they count, which held one value and comes to hold another, where orders hold
    /// what their newest versions have. A few comparisons, a division or two, and the words that count.
    #[inline(always)]
    pub(crate) fn move_record(
        &mut self,
        cells: &Cells,
        pen: &mut Pen,
        counted: &Counted,
        number: u32,
        old: Option<&Payload>,
        new: Option<&Payload>,
    )
        requires own { pen.old.cells ≡ cells.now }
        requires count { AreCellsOf self.old.scale cells.now }
        requires counted { counted.now ≡ counted_in self.old.scale }
        requires first { counted.now.first_district ≤ number }
        requires between { counted.now.end_districts ≤ number → counted.now.first_new_order ≤ number }
        requires end { number < counted.now.end_lines }
        requires buyers { HasBuyers self.old.scale (held_by pen.old) }
        ensures pen { pen.new ≡ pen.old }
        ensures scale { self.new.scale ≡ self.old.scale }
        ensures moves { MovesSums self.old.scale (order_before self.old.scale (held_by pen.old))
            (step (key_of self.old.scale number) (option_copied old.entry) (option_copied new.entry)) no_history
            self.old self.new }
    {
        // The proof needs to know that there are places for all keys.
        let _ = &self.scale;
        if number < counted.end_districts {
            self.follow_district(number - counted.first_district, old, new);
        } else if number < counted.first_order {
            self.follow_new_order(number - counted.first_new_order, old, new);
        } else if number < counted.first_line {
            self.follow_order(number - counted.first_order, old, new);
        } else {
            let place = number - counted.first_line;
            self.follow_line(cells, pen, counted, place, old, new);
        }
    }
}
