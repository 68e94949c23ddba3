//! The first words of records, by the rows that give them.

ghost use Rattle.std.specs.Prelude.{◌≡◌, max, min, slice_index};
ghost use Rattle.tables.specs.Rows.{warehouse_words, district_words, customer_words, new_order_words, order_words};
ghost use Rattle.tables.specs.Rows.{line_words, stock_words, number_words};
ghost use Rattle.tables.specs.declared.records.RecordKey.TheVariants as record_key;
ghost use Rattle.tables.specs.WellFormed.{orderer};
ghost use Rattle.tables.specs.Keys.{district_of_order};

use crate::first::Begins;
use money::{NO_PAYLOAD, Payload};
use tables::{
    Customer, CustomerKey, District, DistrictKey, LineKey, NewOrder, Order, OrderKey, OrderLine,
    RecordKey, Stock, StockKey, Warehouse,
};

/// A row of WAREHOUSE.
pub struct Warehouses;

impl Begins<u32, Warehouse> for Warehouses {
    ghost record_of = { λ k r. record_key.Warehouse k };

    ghost words_of = { λ words k r. warehouse_words r };

    fn record(key: &u32, _row: &Warehouse) -> RecordKey {
        RecordKey::Warehouse(*key)
    }

    fn words(_before: Payload, _key: &u32, row: &Warehouse) -> Payload {
        row.words()
    }
}

/// A row of DISTRICT.
pub struct Districts;

impl Begins<DistrictKey, District> for Districts {
    ghost record_of = { λ k r. record_key.District k };

    ghost words_of = { λ words k r. district_words r };

    fn record(key: &DistrictKey, _row: &District) -> RecordKey {
        RecordKey::District(*key)
    }

    fn words(_before: Payload, _key: &DistrictKey, row: &District) -> Payload {
        row.words()
    }
}

/// A row of CUSTOMER.
pub struct Customers;

impl Begins<CustomerKey, Customer> for Customers {
    ghost record_of = { λ k r. record_key.Customer k };

    ghost words_of = { λ words k r. customer_words r };

    fn record(key: &CustomerKey, _row: &Customer) -> RecordKey {
        RecordKey::Customer(*key)
    }

    fn words(_before: Payload, _key: &CustomerKey, row: &Customer) -> Payload {
        row.words()
    }
}

/// A row of NEW-ORDER.
pub struct NewOrders;

impl Begins<OrderKey, NewOrder> for NewOrders {
    ghost record_of = { λ k r. record_key.NewOrder k };

    ghost words_of = { λ words k r. new_order_words r };

    fn record(key: &OrderKey, _row: &NewOrder) -> RecordKey {
        RecordKey::NewOrder(*key)
    }

    fn words(_before: Payload, _key: &OrderKey, row: &NewOrder) -> Payload {
        row.words()
    }
}

/// A row of ORDER.
pub struct Orders;

impl Begins<OrderKey, Order> for Orders {
    ghost record_of = { λ k r. record_key.Order k };

    ghost words_of = { λ words k r. order_words r };

    fn record(key: &OrderKey, _row: &Order) -> RecordKey {
        RecordKey::Order(*key)
    }

    fn words(_before: Payload, _key: &OrderKey, row: &Order) -> Payload {
        row.words()
    }
}

/// A row of ORDER-LINE.
pub struct OrderLines;

impl Begins<LineKey, OrderLine> for OrderLines {
    ghost record_of = { λ k r. record_key.OrderLine k };

    ghost words_of = { λ words k r. line_words r };

    fn record(key: &LineKey, _row: &OrderLine) -> RecordKey {
        RecordKey::OrderLine(*key)
    }

    fn words(_before: Payload, _key: &LineKey, row: &OrderLine) -> Payload {
        row.words()
    }
}

/// A row of STOCK.
pub struct Stocks;

impl Begins<StockKey, Stock> for Stocks {
    ghost record_of = { λ k r. record_key.Stock k };

    ghost words_of = { λ words k r. stock_words r };

    fn record(key: &StockKey, _row: &Stock) -> RecordKey {
        RecordKey::Stock(*key)
    }

    fn words(_before: Payload, _key: &StockKey, row: &Stock) -> Payload {
        row.words()
    }
}

/// OLDEST where no order waits: D_NEXT_O_ID.
pub struct NextOrder;

impl Begins<DistrictKey, District> for NextOrder {
    ghost record_of = { λ k r. record_key.Oldest k };

    ghost words_of = { λ words k r. number_words r.next_order };

    fn record(key: &DistrictKey, _row: &District) -> RecordKey {
        RecordKey::Oldest(*key)
    }

    fn words(_before: Payload, _key: &DistrictKey, row: &District) -> Payload {
        [u64::from(row.next_order), 0, 0, 0, 0, 0, 0]
    }
}

/// OLDEST with one more order that waits.
pub struct OldestOrder;

impl Begins<OrderKey, NewOrder> for OldestOrder {
    ghost record_of = { λ k r. record_key.Oldest (district_of_order k) };

    ghost words_of = { λ words k r. number_words (min (slice_index words 0) k.order) };

    fn record(key: &OrderKey, _row: &NewOrder) -> RecordKey {
        RecordKey::Oldest(DistrictKey {
            warehouse: key.warehouse,
            district: key.district,
        })
    }

    fn words(before: Payload, key: &OrderKey, _row: &NewOrder) -> Payload {
        [before[0].min(u64::from(key.order)), 0, 0, 0, 0, 0, 0]
    }
}

/// LAST of a customer without orders: 0.
pub struct NoOrder;

impl Begins<CustomerKey, Customer> for NoOrder {
    ghost record_of = { λ k r. record_key.Last k };

    ghost words_of = { λ words k r. number_words 0 };

    fn record(key: &CustomerKey, _row: &Customer) -> RecordKey {
        RecordKey::Last(*key)
    }

    fn words(_before: Payload, _key: &CustomerKey, _row: &Customer) -> Payload {
        NO_PAYLOAD
    }
}

/// LAST with one more order.
pub struct LastOrder;

impl Begins<OrderKey, Order> for LastOrder {
    ghost record_of = { λ k r. record_key.Last (orderer k r) };

    ghost words_of = { λ words k r. number_words (max (slice_index words 0) k.order) };

    fn record(key: &OrderKey, row: &Order) -> RecordKey {
        RecordKey::Last(CustomerKey {
            warehouse: key.warehouse,
            district: key.district,
            customer: row.customer,
        })
    }

    fn words(before: Payload, key: &OrderKey, _row: &Order) -> Payload {
        [before[0].max(u64::from(key.order)), 0, 0, 0, 0, 0, 0]
    }
}
