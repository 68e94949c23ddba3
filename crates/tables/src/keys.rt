//! The primary keys of the tables that have one of several columns (TPC-C 1.3). The order of keys is that
//! of their columns as they stand here, and each prints as its numbers in that order, as `1 1 8 5`.

ghost use Rattle.std.specs.Prelude.{◌≡◌};
ghost use Rattle.tables.specs.Keys.{order_of, district_of_customer, district_of_order, customer_key, order_key};
ghost use Rattle.tables.specs.NewOrder.{line_key};

use std::fmt::{self, Display};

/// The key of DISTRICT: D_W_ID, D_ID.
#[derive(Clone, Copy, Debug, PartialEq, Eq, PartialOrd, Ord)]
pub struct DistrictKey {
    pub warehouse: u32,
    pub district: u32,
}

/// The key of CUSTOMER: C_W_ID, C_D_ID, C_ID.
#[derive(Clone, Copy, Debug, PartialEq, Eq, PartialOrd, Ord)]
pub struct CustomerKey {
    pub warehouse: u32,
    pub district: u32,
    pub customer: u32,
}

/// The key of ORDER (O_W_ID, O_D_ID, O_ID) and of NEW-ORDER (NO_W_ID, NO_D_ID, NO_O_ID).
#[derive(Clone, Copy, Debug, PartialEq, Eq, PartialOrd, Ord)]
pub struct OrderKey {
    pub warehouse: u32,
    pub district: u32,
    pub order: u32,
}

/// The key of ORDER-LINE: OL_W_ID, OL_D_ID, OL_O_ID, OL_NUMBER.
#[derive(Clone, Copy, Debug, PartialEq, Eq, PartialOrd, Ord)]
pub struct LineKey {
    pub warehouse: u32,
    pub district: u32,
    pub order: u32,
    pub line: u32,
}

impl DistrictKey {
    /// The key of a customer of the district.
    pub fn customer_key(&self, customer: u32) -> CustomerKey
        ensures { result ≡ customer_key self.now customer }
    {
        CustomerKey {
            warehouse: self.warehouse,
            district: self.district,
            customer,
        }
    }

    /// The key of an order of the district.
    pub fn order_key(&self, order: u32) -> OrderKey
        ensures { result ≡ order_key self.now order }
    {
        OrderKey {
            warehouse: self.warehouse,
            district: self.district,
            order,
        }
    }
}

impl CustomerKey {
    /// The key of the customer's district.
    pub fn district_key(&self) -> DistrictKey
        ensures { result ≡ district_of_customer self.now }
    {
        DistrictKey {
            warehouse: self.warehouse,
            district: self.district,
        }
    }
}

impl OrderKey {
    /// The key of the order's district.
    pub fn district_key(&self) -> DistrictKey
        ensures { result ≡ district_of_order self.now }
    {
        DistrictKey {
            warehouse: self.warehouse,
            district: self.district,
        }
    }

    /// The key of a line of the order.
    pub fn line_key(&self, line: u32) -> LineKey
        ensures { result ≡ line_key self.now line }
    {
        LineKey {
            warehouse: self.warehouse,
            district: self.district,
            order: self.order,
            line,
        }
    }
}

impl LineKey {
    /// The key of the order that has the line.
    pub fn order_key(&self) -> OrderKey
        ensures { result ≡ order_of self.now }
    {
        OrderKey {
            warehouse: self.warehouse,
            district: self.district,
            order: self.order,
        }
    }
}

/// The key of STOCK: S_W_ID, S_I_ID.
#[derive(Clone, Copy, Debug, PartialEq, Eq, PartialOrd, Ord)]
pub struct StockKey {
    pub warehouse: u32,
    pub item: u32,
}

impl Display for DistrictKey {
    ghost use Rattle.std.specs.Prelude.{Some};
    ghost use Rattle.tables.specs.KeyTexts.{district_text};

    ghost output = { λ key. Some (district_text key) };

    fn fmt<W: fmt::Write>(&self, f: &mut fmt::Formatter<W>) -> fmt::Result {
        write!(f, "{} {}", self.warehouse, self.district)
    }
}

impl Display for CustomerKey {
    ghost use Rattle.std.specs.Prelude.{Some};
    ghost use Rattle.tables.specs.KeyTexts.{customer_text};

    ghost output = { λ key. Some (customer_text key) };

    fn fmt<W: fmt::Write>(&self, f: &mut fmt::Formatter<W>) -> fmt::Result {
        write!(f, "{} {} {}", self.warehouse, self.district, self.customer)
    }
}

impl Display for OrderKey {
    ghost use Rattle.std.specs.Prelude.{Some};
    ghost use Rattle.tables.specs.KeyTexts.{order_text};

    ghost output = { λ key. Some (order_text key) };

    fn fmt<W: fmt::Write>(&self, f: &mut fmt::Formatter<W>) -> fmt::Result {
        write!(f, "{} {} {}", self.warehouse, self.district, self.order)
    }
}

impl Display for LineKey {
    ghost use Rattle.std.specs.Prelude.{Some};
    ghost use Rattle.tables.specs.KeyTexts.{line_text};

    ghost output = { λ key. Some (line_text key) };

    fn fmt<W: fmt::Write>(&self, f: &mut fmt::Formatter<W>) -> fmt::Result {
        write!(
            f,
            "{} {} {} {}",
            self.warehouse, self.district, self.order, self.line
        )
    }
}

impl Display for StockKey {
    ghost use Rattle.std.specs.Prelude.{Some};
    ghost use Rattle.tables.specs.KeyTexts.{stock_text};

    ghost output = { λ key. Some (stock_text key) };

    fn fmt<W: fmt::Write>(&self, f: &mut fmt::Formatter<W>) -> fmt::Result {
        write!(f, "{} {}", self.warehouse, self.item)
    }
}
