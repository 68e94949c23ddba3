//! The forms of the lines.

use tables::Scale;
use tables::limits::{MAX_CARRIER, MAX_QUANTITY, MAX_REQUESTED_ITEM, MAX_THRESHOLD, MIN_THRESHOLD};

/// The form of a line, by its verb, or by the table that is shown.
#[derive(Clone, Copy, Debug, PartialEq, Eq)]
pub(crate) enum Form {
    Payment,
    NewOrder,
    Delivery,
    Status,
    Level,
    ShowWarehouse,
    ShowDistrict,
    ShowCustomer,
    ShowData,
    ShowStock,
    ShowOrder,
}

/// What a word of a line is.
#[derive(Clone, Copy, Debug, PartialEq, Eq)]
pub(crate) enum Kind {
    Warehouse,
    District,
    Customer,
    Item,
    Order,
    Carrier,
    Threshold,
    /// A customer's number or last name.
    Who,
    Amount,
    /// A line of an order.
    Line,
}

/// A word of a form: what it is called, and what it is.
#[derive(Clone, Copy, Debug, PartialEq, Eq)]
pub(crate) struct Field {
    pub(crate) name: &'static str,
    pub(crate) kind: Kind,
}

/// The verbs that there are.
pub(crate) const VERBS: &str = "payment, neworder, delivery, status, level and show";

/// The tables that can be shown.
pub(crate) const TABLES: &str = "warehouse, district, customer, data, stock and order";

impl Form {
    /// The form whose lines begin with this verb. None of `show`, whose form its table says.
    pub(crate) fn of_verb(verb: &str) -> Option<Form> {
        match verb {
            "payment" => Some(Form::Payment),
            "neworder" => Some(Form::NewOrder),
            "delivery" => Some(Form::Delivery),
            "status" => Some(Form::Status),
            "level" => Some(Form::Level),
            _ => None,
        }
    }

    /// The form in which a row of this table is shown.
    pub(crate) fn of_table(table: &str) -> Option<Form> {
        match table {
            "warehouse" => Some(Form::ShowWarehouse),
            "district" => Some(Form::ShowDistrict),
            "customer" => Some(Form::ShowCustomer),
            "data" => Some(Form::ShowData),
            "stock" => Some(Form::ShowStock),
            "order" => Some(Form::ShowOrder),
            _ => None,
        }
    }

    /// What its lines begin with.
    pub(crate) fn name(self) -> &'static str {
        match self {
            Form::Payment => "payment",
            Form::NewOrder => "neworder",
            Form::Delivery => "delivery",
            Form::Status => "status",
            Form::Level => "level",
            Form::ShowWarehouse => "show warehouse",
            Form::ShowDistrict => "show district",
            Form::ShowCustomer => "show customer",
            Form::ShowData => "show data",
            Form::ShowStock => "show stock",
            Form::ShowOrder => "show order",
        }
    }

    /// How many words stand behind that, of an order but for its lines.
    pub(crate) fn words(self) -> usize {
        match self {
            Form::Payment => 6,
            Form::ShowWarehouse => 1,
            Form::Delivery | Form::ShowDistrict | Form::ShowStock => 2,
            Form::NewOrder
            | Form::Status
            | Form::Level
            | Form::ShowCustomer
            | Form::ShowData
            | Form::ShowOrder => 3,
        }
    }

    /// What the word behind so many others of these is.
    pub(crate) fn field(self, place: usize) -> Field {
        match (self, place) {
            (_, 0) => called("W", Kind::Warehouse),
            (Form::Delivery, _) => called("CARRIER", Kind::Carrier),
            (Form::ShowStock, _) => called("I", Kind::Item),
            (_, 1) => called("D", Kind::District),
            (Form::Payment, 2) => called("CW", Kind::Warehouse),
            (Form::Payment, 3) => called("CD", Kind::District),
            (Form::Payment, 4) | (Form::Status, _) => called("WHO", Kind::Who),
            (Form::Payment, _) => called("AMOUNT", Kind::Amount),
            (Form::Level, _) => called("THRESHOLD", Kind::Threshold),
            (Form::ShowOrder, _) => called("O", Kind::Order),
            (Form::NewOrder, 3..) => called("LINE", Kind::Line),
            _ => called("C", Kind::Customer),
        }
    }
}

fn called(name: &'static str, kind: Kind) -> Field {
    Field { name, kind }
}

impl Kind {
    /// From which number to which a word of this kind is, at this scale, where it is a number.
    pub(crate) fn limits(self, scale: &Scale) -> (u32, u32) {
        match self {
            Kind::Warehouse => (1, scale.warehouses()),
            Kind::District => (1, scale.districts()),
            Kind::Customer | Kind::Who => (1, scale.customers()),
            Kind::Item => (1, scale.items()),
            Kind::Order => (1, scale.orders()),
            Kind::Carrier => (1, MAX_CARRIER),
            Kind::Threshold => (MIN_THRESHOLD, MAX_THRESHOLD),
            Kind::Amount | Kind::Line => (0, u32::MAX),
        }
    }
}

/// What each of the three numbers of an order's line is called, and from 1 to which it is.
pub(crate) fn part(place: usize, scale: &Scale) -> (&'static str, u32) {
    match place {
        0 => ("ITEM", MAX_REQUESTED_ITEM),
        1 => ("SUPPLY", scale.warehouses()),
        _ => ("QUANTITY", MAX_QUANTITY),
    }
}
