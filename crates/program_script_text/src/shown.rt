//! The rows that a script shows, each as a line.
ghost use Rattle.std.specs.Prelude.{◌≡◌, codes};

use customer_data::CustomerData;
use std::fmt::{self, Display};
use tables::{
    Customer, CustomerKey, District, DistrictKey, Order, OrderKey, Stock, StockKey, Warehouse,
};

/// A row with its key, as it is shown.
#[derive(Debug, Drop)]
pub enum ShownRow {
    /// A row of WAREHOUSE, as `warehouse 1 ytd 212.34`.
    Warehouse {
        warehouse: u32,
        row: Warehouse,
    },
    /// A row of DISTRICT, as `district 1 1 ytd 112.34 next 11`.
    District {
        key: DistrictKey,
        row: District,
    },
    /// A row of CUSTOMER, as `customer 1 1 3 balance -22.34 paid 22.34 payments 2 deliveries 0`.
    Customer {
        key: CustomerKey,
        row: Customer,
    },
    /// C_DATA of a customer, with its length, as `data 1 1 10 300 xxx`, and so on.
    CustomerData {
        key: CustomerKey,
        text: CustomerData,
    },
    /// A row of STOCK, as `stock 1 2 quantity 100 ytd 41 orders 5 remote 0`.
    Stock {
        key: StockKey,
        row: Stock,
    },
    /// A row of ORDER, as `order 1 1 7 customer 7 carrier 1 lines 5 local 1`, with `-` for the carrier of an order that
    /// isn't delivered; or that there is no such order, as `order 1 1 12 none`.
    Order {
        key: OrderKey,
        row: Option<Order>,
    },
}

impl Display for ShownRow {
    ghost use Rattle.std.specs.Prelude.{Some};
    ghost use Rattle.std.specs.List.{join_with_byte};
    ghost use Rattle.program_script_text.specs.Output.{row_words};

    ghost output = { λ shown. Some (join_with_byte 32 (row_words shown)) };

    fn fmt<W: fmt::Write>(&self, f: &mut fmt::Formatter<W>) -> fmt::Result {
        match self {
            ShownRow::Warehouse { warehouse, row } => {
                let year_to_date = row.year_to_date;
                write!(f, "warehouse {warehouse} ytd {year_to_date}")
            }
            ShownRow::District { key, row } => write!(
                f,
                "district {} {} ytd {} next {}",
                key.warehouse, key.district, row.year_to_date, row.next_order
            ),
            ShownRow::Customer { key, row } => CustomerLine {
                key: *key,
                row: *row,
            }
            .fmt(f),
            ShownRow::CustomerData { key, text } => write!(
                f,
                "data {} {} {} {} {}",
                key.warehouse,
                key.district,
                key.customer,
                text.len(),
                text
            ),
            ShownRow::Stock { key, row } => StockLine {
                key: *key,
                row: *row,
            }
            .fmt(f),
            ShownRow::Order { key, row } => ShownOrder {
                key: *key,
                row: *row,
            }
            .fmt(f),
        }
    }
}

/// A row of CUSTOMER.
#[derive(Clone, Copy)]
struct CustomerLine {
    key: CustomerKey,
    row: Customer,
}

impl Display for CustomerLine {
    ghost use Rattle.std.specs.Prelude.{Some};
    ghost use Rattle.std.specs.List.{join_with_byte};
    ghost use Rattle.program_script_text.specs.Output.{shown_customer_words};

    ghost output = { λ shown. Some (join_with_byte 32 (shown_customer_words shown.key shown.row)) };

    fn fmt<W: fmt::Write>(&self, f: &mut fmt::Formatter<W>) -> fmt::Result {
        let (key, row) = (&self.key, &self.row);
        write!(
            f,
            "customer {} {} {} balance {} paid {} payments {} deliveries {}",
            key.warehouse,
            key.district,
            key.customer,
            row.balance,
            row.paid,
            row.payments,
            row.deliveries
        )
    }
}

/// A row of STOCK.
#[derive(Clone, Copy)]
struct StockLine {
    key: StockKey,
    row: Stock,
}

impl Display for StockLine {
    ghost use Rattle.std.specs.Prelude.{Some};
    ghost use Rattle.std.specs.List.{join_with_byte};
    ghost use Rattle.program_script_text.specs.Output.{shown_stock_words};

    ghost output = { λ shown. Some (join_with_byte 32 (shown_stock_words shown.key shown.row)) };

    fn fmt<W: fmt::Write>(&self, f: &mut fmt::Formatter<W>) -> fmt::Result {
        let (key, row) = (&self.key, &self.row);
        write!(
            f,
            "stock {} {} quantity {} ytd {} orders {} remote {}",
            key.warehouse, key.item, row.quantity, row.year_to_date, row.orders, row.remote_orders
        )
    }
}

/// A row of ORDER, or that there is none.
#[derive(Clone, Copy)]
struct ShownOrder {
    key: OrderKey,
    row: Option<Order>,
}

impl Display for ShownOrder {
    ghost use Rattle.std.specs.Prelude.{Some};
    ghost use Rattle.std.specs.List.{join_with_byte};
    ghost use Rattle.program_script_text.specs.Output.{shown_order_words};

    ghost output = { λ shown. Some (join_with_byte 32 (shown_order_words shown.key shown.row)) };

    fn fmt<W: fmt::Write>(&self, f: &mut fmt::Formatter<W>) -> fmt::Result {
        let key = &self.key;
        match &self.row {
            Some(row) => write!(
                f,
                "order {} {} {} customer {} carrier {} lines {} local {}",
                key.warehouse,
                key.district,
                key.order,
                row.customer,
                Nullable(row.carrier),
                row.line_count,
                u32::from(row.all_local)
            ),
            None => write!(
                f,
                "order {} {} {} none",
                key.warehouse, key.district, key.order
            ),
        }
    }
}

/// A column that may be null.
#[derive(Clone, Copy)]
pub(crate) struct Nullable(pub(crate) Option<u32>);

impl Display for Nullable {
    ghost use Rattle.std.specs.Prelude.{Some};
    ghost use Rattle.program_script_text.specs.Output.{nullable_word};

    ghost output = { λ column. Some (nullable_word column.0) };

    fn fmt<W: fmt::Write>(&self, f: &mut fmt::Formatter<W>) -> fmt::Result {
        match self.0 {
            Some(number) => write!(f, "{number}"),
            None => write!(f, "-"),
        }
    }
}
