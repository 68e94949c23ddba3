//! Which numbers make a scale, which fields a Payment's input, and how records are numbered and kept.

use money::{Cents, Rate, Refusal};
use std::test::Fail;
use tables::{
    Credit, Customer, CustomerKey, District, DistrictKey, Input, LineKey, Order, OrderKey,
    OrderLine, PaymentInput, RecordKey, Scale, Stock, StockKey, Table, Tables, Warehouse, Who,
    key_of, money_from_word, money_to_word, narrow_count, number_of_key, rec, record_count,
};

fn small() -> Result<Scale, Fail> {
    Ok(Scale::new(1, 2, 10, 20, 30, 1_000)?)
}

#[test]
fn scales(rt: HostRuntime) -> Result<(), Fail> {
    let scale = small()?;
    assert_eq!(rt; (scale.warehouses(), scale.districts()), (1, 2));
    assert_eq!(rt; (scale.customers(), scale.items()), (10, 20));
    assert_eq!(rt; (scale.orders(), scale.commits()), (30, 1_000));
    Ok(())
}

/// A payment in the small scale's only warehouse, of a customer of district 2.
fn payment(date: u32, district: u32, customer: u32, amount: i64) -> PaymentInput {
    PaymentInput {
        date,
        warehouse: 1,
        district,
        customer_warehouse: 1,
        customer_district: 2,
        who: Who::Id(customer),
        amount: Cents::new(amount),
    }
}

#[test]
fn payments(rt: HostRuntime) -> Result<(), Fail> {
    let scale = small()?;
    let lawful = Input::payment(&scale, payment(1, 1, 3, 1_234));
    assert_eq!(rt; lawful, Ok(Input::Payment(payment(1, 1, 3, 1_234))));
    let beyond = [
        (0, 1, 3, 1_234),
        (1, 3, 3, 1_234),
        (1, 1, 11, 1_234),
        (1, 1, 3, 99),
        (1, 1, 3, 500_001),
    ];
    for (date, district, customer, amount) in beyond {
        let asked = Input::payment(&scale, payment(date, district, customer, amount));
        assert_eq!(rt;
            asked,
            Err(Refusal::BadInput),
            "{date} {district} {customer} {amount}"
        );
    }
    Ok(())
}

#[test]
fn no_rows_at_first(rt: HostRuntime) -> Result<(), Fail> {
    let tables = Tables::new(rt.alloc(), small()?);
    assert_eq!(rt; tables.scale, small()?);
    assert!(rt; tables.warehouses.is_empty() && tables.history.is_empty());
    assert!(rt; tables.texts.is_empty());
    Ok(())
}

#[test]
fn record_numbers(rt: HostRuntime) -> Result<(), Fail> {
    let scale = Scale::new(1, 2, 10, 20, 30, 1_000)?;
    let firsts = [
        (Table::Warehouse, 1, 0),
        (Table::District, 2, 1),
        (Table::Customer, 20, 3),
        (Table::NewOrder, 60, 23),
        (Table::Order, 60, 83),
        (Table::OrderLine, 900, 143),
        (Table::Stock, 20, 1_043),
        (Table::Oldest, 2, 1_063),
        (Table::Last, 20, 1_065),
        (Table::CustomerData, 20, 1_085),
    ];
    for (table, size, first) in firsts {
        assert_eq!(rt; table.size(&scale), size, "{table:?}");
        if table.size(&scale) > 0 {
            assert_eq!(rt; rec(&scale, table, 0), first, "{table:?}");
        }
    }
    assert_eq!(rt; Table::History.size(&scale), 0);
    assert_eq!(rt; Table::Item.size(&scale), 0);
    assert_eq!(rt;
        (narrow_count(&scale), record_count(&scale)),
        (1_085, 1_105)
    );
    let customer = CustomerKey {
        warehouse: 1,
        district: 2,
        customer: 3,
    };
    assert_eq!(rt; number_of_key(&scale, RecordKey::Customer(customer)), 15);
    assert_eq!(rt; number_of_key(&scale, RecordKey::Last(customer)), 1_077);
    assert_eq!(rt;
        number_of_key(&scale, RecordKey::CustomerData(customer)),
        1_097
    );
    Ok(())
}

#[test]
fn words_of_rows(rt: HostRuntime) -> Result<(), Fail> {
    assert_eq!(rt; money_to_word(Cents::new(-2_234)), 0xffff_ffff_ffff_f746);
    assert_eq!(rt; money_from_word(0xffff_ffff_ffff_f746), Cents::new(-2_234));
    let warehouse = Warehouse {
        tax: Rate::new(1_000).ok_or(Refusal::BadInput)?,
        year_to_date: Cents::new(21_234),
    };
    assert_eq!(rt; warehouse.words(), [0x52f2, 0, 0, 0, 0, 0, 0]);
    let district = District {
        tax: Rate::new(500).ok_or(Refusal::BadInput)?,
        year_to_date: Cents::new(11_234),
        next_order: 11,
    };
    assert_eq!(rt; district.words(), [0x2be2, 11, 0, 0, 0, 0, 0]);
    let customer = Customer {
        first_name: 9_996,
        last_name: 2,
        credit: Credit::Good,
        discount: Rate::new(1_000).ok_or(Refusal::BadInput)?,
        balance: Cents::new(-2_234),
        paid: Cents::new(2_234),
        payments: 2,
        deliveries: 0,
    };
    assert_eq!(rt;
        customer.words(),
        [0xffff_ffff_ffff_f746, 0x8ba, 2, 0, 0, 0, 0]
    );
    Ok(())
}

#[test]
fn keys_of_numbers(rt: HostRuntime) -> Result<(), Fail> {
    let scale = Scale::new(1, 2, 10, 20, 30, 1_000)?;
    let customer = CustomerKey {
        warehouse: 1,
        district: 2,
        customer: 3,
    };
    let line = LineKey {
        warehouse: 1,
        district: 2,
        order: 1,
        line: 15,
    };
    assert_eq!(rt; key_of(&scale, 0), RecordKey::Warehouse(1));
    assert_eq!(rt; key_of(&scale, 15), RecordKey::Customer(customer));
    assert_eq!(rt; key_of(&scale, 607), RecordKey::OrderLine(line));
    assert_eq!(rt; key_of(&scale, 1_077), RecordKey::Last(customer));
    assert_eq!(rt; key_of(&scale, 1_097), RecordKey::CustomerData(customer));
    Ok(())
}

#[test]
fn words_of_orders(rt: HostRuntime) -> Result<(), Fail> {
    let order = Order {
        customer: 3,
        entry_date: 4,
        carrier: Some(5),
        line_count: 6,
        all_local: true,
    };
    assert_eq!(rt; order.words(), [3, 4, 5, 6, 1, 0, 0]);
    let line = OrderLine {
        item: 7,
        supply_warehouse: 1,
        delivery_date: None,
        quantity: 5,
        amount: Cents::new(9),
    };
    assert_eq!(rt; line.words(), [7, 1, 0, 5, 9, 0, 0]);
    let stock = Stock {
        quantity: 40,
        year_to_date: 3,
        orders: 2,
        remote_orders: 1,
    };
    assert_eq!(rt; stock.words(), [40, 3, 2, 1, 0, 0, 0]);
    Ok(())
}

#[test]
fn words_of_records(rt: HostRuntime) -> Result<(), Fail> {
    let mut tables = Tables::new(rt.alloc(), small()?);
    let warehouse = Warehouse {
        tax: Rate::new(1_000).ok_or(Refusal::BadInput)?,
        year_to_date: Cents::new(21_234),
    };
    tables.warehouses.insert(1, warehouse)?;
    assert_eq!(rt;
        tables.words(RecordKey::Warehouse(1)),
        Some([21_234, 0, 0, 0, 0, 0, 0])
    );
    assert_eq!(rt; tables.words(RecordKey::Warehouse(2)), None);
    Ok(())
}

#[test]
fn keys_are_printed(rt: HostRuntime) -> Result<(), Fail> {
    let district = DistrictKey {
        warehouse: 1,
        district: 2,
    };
    let customer = CustomerKey {
        warehouse: 1,
        district: 2,
        customer: 3,
    };
    let text = format!(in rt.alloc(); "{district}, {customer}")?;
    assert_eq!(rt; text.as_str(), "1 2, 1 2 3");
    let order = OrderKey {
        warehouse: 1,
        district: 1,
        order: 8,
    };
    let line = LineKey {
        warehouse: 1,
        district: 1,
        order: 8,
        line: 5,
    };
    let stock = StockKey {
        warehouse: 1,
        item: 20,
    };
    let text = format!(in rt.alloc(); "{order}, {line}, {stock}")?;
    assert_eq!(rt; text.as_str(), "1 1 8, 1 1 8 5, 1 20");
    Ok(())
}
