//! What the rows of all tables have in common.

ghost use Rattle.std.specs.Prelude.{◌≡◌, ℕ, Option, Some, IsSome, List};
ghost use Rattle.std.specs.Option.{option_map};
ghost use Rattle.std.specs.FinMap.{get};
ghost use Rattle.tables.specs.Sizes.{Sizes};
ghost use Rattle.tables.specs.Database.{Database};
ghost use Rattle.tables.specs.Records.{IsRecordKey};
ghost use Rattle.tables.specs.Rows.{row_at, order_words, line_words, stock_words};
ghost use Rattle.tables.specs.WellFormed.{IsWellFormed, IsLineRow, IsStockRow};
ghost use Rattle.tables.specs.declared.records.RecordKey.{RecordKey as AnyKey};
ghost use Rattle.tables.specs.declared.records.RecordKey.TheVariants as any_key;
ghost use Rattle.rows.specs.Reading.{IsReading};
ghost use Rattle.rows.specs.Columns.{warehouse_columns, warehouse_columns_words, AreWarehouseColumns};
ghost use Rattle.rows.specs.Columns.{district_columns, district_columns_words, AreDistrictColumns};
ghost use Rattle.rows.specs.Columns.{customer_columns, customer_columns_words, AreCustomerColumns};
ghost use Rattle.rows.specs.Columns.{IsOrderOfScale, oldest_at, words_of_oldest, IsOldestOfScale};
ghost use Rattle.rows.specs.Columns.{last_at, words_of_last, IsLastOfScale};
ghost use Rattle.rows.specs.Laws.{warehouse_held, district_held, customer_held};
ghost use Rattle.rows.specs.Laws.{warehouse_within, district_within, customer_within, order_within};
ghost use Rattle.rows.specs.Laws.{line_within, stock_within, oldest_within, last_within};
ghost use Rattle.rows.specs.Laws.{warehouse_there, district_there, customer_there, stock_there};
ghost use Rattle.rows.specs.Laws.{oldest_there, last_there};
ghost use Rattle.rows.specs.Determined.{warehouse_determined, district_determined, customer_determined};
ghost use Rattle.rows.specs.Determined.{order_determined, line_determined, stock_determined};
ghost use Rattle.rows.specs.Determined.{oldest_determined, last_determined};

use crate::columns::{CustomerColumns, DistrictColumns, WarehouseColumns};
use crate::index::{Last, Oldest};
use crate::order::order_of_words;
use crate::order_line::line_of_words;
use crate::stock::stock_of_words;
use money::Payload;
use tables::{
    CustomerKey, DistrictKey, LineKey, Order, OrderKey, OrderLine, RecordKey, Scale, Stock,
    StockKey,
};

/// The rows of a table, as its records hold them, each by its key.
///
/// Its laws: a record holds the words of its key's row, or nothing where there is none; rows of well-formed tables are
/// within their ranges; and those that are and have the same words are the same.
pub trait Keyed {
    type Key: Copy;

    /// The record of a key.
    ghost record_of: { Self.Key → AnyKey };

    /// The words of a row.
    ghost words_of: { Self → List ℕ };

    /// A row within its ranges.
    ghost are: { Sizes → Self → Type 0 };

    /// The row that tables have at a key.
    ghost at: { Database → Self.Key → Option Self };

    /// The record of a key.
    fn key(key: Self::Key) -> RecordKey
        ensures { result ≡ record_of key };

    ghost record_holds_row: { (t : Database) (k : Self.Key)
        → row_at t (record_of k) ≡ option_map words_of (at t k) };

    ghost within: { (t : Database) (k : Self.Key) (r : Self) → IsWellFormed t
        → IsRecordKey t.scale (record_of k) → at t k ≡ Some r → are t.scale r };

    ghost determined: { (s : Sizes) (a b : Self) → are s a → are s b → words_of a ≡ words_of b → a ≡ b };
}

/// Rows that a record of seven words holds.
pub trait Row: Keyed + Copy {
    /// The row of these words. None exactly where they are no row's of this scale. Tests each column.
    fn read(scale: &Scale, words: &Payload) -> Option<Self>
        ensures { IsReading (Self.are scale.now) Self.words_of words.now result };

    /// Its words, of which the last are 0.
    fn words(&self) -> Payload
        ensures { result ≡ Self.words_of self.now };
}

/// Rows that well-formed tables have at each key of the scale.
pub trait Present: Row {
    ghost there: { (t : Database) (k : Self.Key) → IsWellFormed t → IsRecordKey t.scale (Self.record_of k)
        → IsSome (Self.at t k) };
}

impl Keyed for WarehouseColumns {
    type Key = u32;

    ghost record_of = { λ k. any_key.Warehouse k };

    ghost words_of = { warehouse_columns_words };

    ghost are = { λ s c. AreWarehouseColumns c };

    ghost at = { λ t k. option_map warehouse_columns (get t.warehouses k) };

    ghost record_holds_row = { warehouse_held };

    ghost within = { warehouse_within };

    ghost determined = { λ s. warehouse_determined };

    fn key(key: u32) -> RecordKey {
        RecordKey::Warehouse(key)
    }
}

impl Row for WarehouseColumns {
    fn read(_scale: &Scale, words: &Payload) -> Option<WarehouseColumns> {
        WarehouseColumns::of_words(words)
    }

    fn words(&self) -> Payload {
        self.to_words()
    }
}

impl Present for WarehouseColumns {
    ghost there = { warehouse_there };
}

impl Keyed for DistrictColumns {
    type Key = DistrictKey;

    ghost record_of = { λ k. any_key.District k };

    ghost words_of = { district_columns_words };

    ghost are = { AreDistrictColumns };

    ghost at = { λ t k. option_map district_columns (get t.districts k) };

    ghost record_holds_row = { district_held };

    ghost within = { district_within };

    ghost determined = { district_determined };

    fn key(key: DistrictKey) -> RecordKey {
        RecordKey::District(key)
    }
}

impl Row for DistrictColumns {
    fn read(scale: &Scale, words: &Payload) -> Option<DistrictColumns> {
        DistrictColumns::of_words(scale, words)
    }

    fn words(&self) -> Payload {
        self.to_words()
    }
}

impl Present for DistrictColumns {
    ghost there = { district_there };
}

impl Keyed for CustomerColumns {
    type Key = CustomerKey;

    ghost record_of = { λ k. any_key.Customer k };

    ghost words_of = { customer_columns_words };

    ghost are = { λ s c. AreCustomerColumns c };

    ghost at = { λ t k. option_map customer_columns (get t.customers k) };

    ghost record_holds_row = { customer_held };

    ghost within = { customer_within };

    ghost determined = { λ s. customer_determined };

    fn key(key: CustomerKey) -> RecordKey {
        RecordKey::Customer(key)
    }
}

impl Row for CustomerColumns {
    fn read(_scale: &Scale, words: &Payload) -> Option<CustomerColumns> {
        CustomerColumns::of_words(words)
    }

    fn words(&self) -> Payload {
        self.to_words()
    }
}

impl Present for CustomerColumns {
    ghost there = { customer_there };
}

impl Keyed for Order {
    type Key = OrderKey;

    ghost use Rattle.std.specs.Prelude.{refl};

    ghost record_of = { λ k. any_key.Order k };

    ghost words_of = { order_words };

    ghost are = { IsOrderOfScale };

    ghost at = { λ t k. get t.orders k };

    ghost record_holds_row = { λ t k. refl };

    ghost within = { order_within };

    ghost determined = { order_determined };

    fn key(key: OrderKey) -> RecordKey {
        RecordKey::Order(key)
    }
}

impl Row for Order {
    fn read(scale: &Scale, words: &Payload) -> Option<Order> {
        order_of_words(scale, words)
    }

    fn words(&self) -> Payload {
        (*self).words()
    }
}

impl Keyed for OrderLine {
    type Key = LineKey;

    ghost use Rattle.std.specs.Prelude.{refl};

    ghost record_of = { λ k. any_key.OrderLine k };

    ghost words_of = { line_words };

    ghost are = { IsLineRow };

    ghost at = { λ t k. get t.lines k };

    ghost record_holds_row = { λ t k. refl };

    ghost within = { line_within };

    ghost determined = { line_determined };

    fn key(key: LineKey) -> RecordKey {
        RecordKey::OrderLine(key)
    }
}

impl Row for OrderLine {
    fn read(scale: &Scale, words: &Payload) -> Option<OrderLine> {
        line_of_words(scale, words)
    }

    fn words(&self) -> Payload {
        (*self).words()
    }
}

impl Keyed for Stock {
    type Key = StockKey;

    ghost use Rattle.std.specs.Prelude.{refl};

    ghost record_of = { λ k. any_key.Stock k };

    ghost words_of = { stock_words };

    ghost are = { λ s r. IsStockRow r };

    ghost at = { λ t k. get t.stock k };

    ghost record_holds_row = { λ t k. refl };

    ghost within = { stock_within };

    ghost determined = { λ s a b in_a in_b. stock_determined a b };

    fn key(key: StockKey) -> RecordKey {
        RecordKey::Stock(key)
    }
}

impl Row for Stock {
    fn read(_scale: &Scale, words: &Payload) -> Option<Stock> {
        stock_of_words(words)
    }

    fn words(&self) -> Payload {
        (*self).words()
    }
}

impl Present for Stock {
    ghost there = { stock_there };
}

impl Keyed for Oldest {
    type Key = DistrictKey;

    ghost use Rattle.std.specs.Prelude.{refl};

    ghost record_of = { λ k. any_key.Oldest k };

    ghost words_of = { words_of_oldest };

    ghost are = { IsOldestOfScale };

    ghost at = { oldest_at };

    ghost record_holds_row = { λ t k. refl };

    ghost within = { oldest_within };

    ghost determined = { λ s a b in_a in_b. oldest_determined a b };

    fn key(key: DistrictKey) -> RecordKey {
        RecordKey::Oldest(key)
    }
}

impl Row for Oldest {
    fn read(scale: &Scale, words: &Payload) -> Option<Oldest> {
        Oldest::of_words(scale, words)
    }

    fn words(&self) -> Payload {
        self.to_words()
    }
}

impl Present for Oldest {
    ghost there = { oldest_there };
}

impl Keyed for Last {
    type Key = CustomerKey;

    ghost use Rattle.std.specs.Prelude.{refl};

    ghost record_of = { λ k. any_key.Last k };

    ghost words_of = { words_of_last };

    ghost are = { IsLastOfScale };

    ghost at = { last_at };

    ghost record_holds_row = { λ t k. refl };

    ghost within = { last_within };

    ghost determined = { λ s a b in_a in_b. last_determined a b };

    fn key(key: CustomerKey) -> RecordKey {
        RecordKey::Last(key)
    }
}

impl Row for Last {
    fn read(scale: &Scale, words: &Payload) -> Option<Last> {
        Last::of_words(scale, words)
    }

    fn words(&self) -> Payload {
        self.to_words()
    }
}

impl Present for Last {
    ghost there = { last_there };
}
