//! The limits, by their numbers: definitions and code have them from one place, so a proof sees no other number there.

use money::{Cents, Refusal};
use population::Population;
use std::alloc::{AllocError, Global};
use std::test::Fail;
use tables::limits::{
    LAST_EPOCH, LAST_NAMES, MAX_COUNT, MAX_COUNT_STEP, MAX_FIRST_COUNT, MAX_FIRST_MONEY,
    MAX_LINE_AMOUNT, MAX_LOGGERS, MAX_MARK, MAX_MONEY_STEP, MAX_PRICE, MAX_STOCK, MAX_TERMINALS,
    MIN_STOCK, RESTOCK,
};
use tables::{
    DeliveryInput, Input, Lines, NewOrderInput, OrderStatusInput, PaymentInput, RequestedLine,
    Scale, StockLevelInput, Who,
};

/// The numbers of a scale, as `Scale::new` takes them.
type Sizes = (u32, u32, u32, u32, u32, u32);

fn scale_of(
    (warehouses, districts, customers, items, orders, commits): Sizes,
) -> Result<Scale, Refusal> {
    Scale::new(warehouses, districts, customers, items, orders, commits)
}

#[test]
fn scales_at_their_limits(rt: HostRuntime) {
    let lawful = [
        (1, 1, 10, 20, 10, 1),
        (8, 10, 3_000, 100_000, 100_000, 600_000),
        (8, 10, 3_000, 100_000, 3_000, 600_000),
    ];
    for sizes in lawful {
        assert_eq!(rt; scale_of(sizes).is_ok(), true, "at {sizes:?}");
    }
}

#[test]
fn scales_beyond_one_limit(rt: HostRuntime) {
    let unlawful = [
        (0, 1, 10, 20, 10, 1),
        (9, 1, 10, 20, 10, 1),
        (1, 0, 10, 20, 10, 1),
        (1, 11, 10, 20, 10, 1),
        (1, 1, 9, 20, 10, 1),
        (1, 1, 3_001, 20, 3_001, 1),
        (1, 1, 10, 19, 10, 1),
        (1, 1, 10, 100_001, 10, 1),
        (1, 1, 10, 20, 9, 1),
        (1, 1, 3_000, 20, 2_999, 1),
        (1, 1, 10, 20, 100_001, 1),
        (1, 1, 10, 20, 10, 0),
        (1, 1, 10, 20, 10, 600_001),
    ];
    for sizes in unlawful {
        assert_eq!(rt; scale_of(sizes), Err(Refusal::BadScale), "at {sizes:?}");
    }
}

/// The scale of the inputs here.
fn small() -> Result<Scale, Refusal> {
    Scale::new(1, 2, 10, 20, 30, 1_000)
}

/// A Payment of so many cents.
fn payment(date: u32, amount: i64) -> PaymentInput {
    PaymentInput {
        date,
        warehouse: 1,
        district: 1,
        customer_warehouse: 1,
        customer_district: 1,
        who: Who::Id(1),
        amount: Cents::new(amount),
    }
}

/// A New-Order of five lines.
fn order(alloc: Global, date: u32) -> Result<NewOrderInput, AllocError> {
    let line = RequestedLine {
        item: 1,
        supply_warehouse: 1,
        quantity: 1,
    };
    Ok(NewOrderInput {
        date,
        warehouse: 1,
        district: 1,
        customer: 1,
        lines: Lines::new(Vec::from_slice(alloc, &[line; 5])?),
    })
}

/// An input of each kind at a date: which of the five were made.
fn made_at(alloc: Global, scale: &Scale, date: u32) -> Result<[bool; 5], AllocError> {
    let delivery = DeliveryInput {
        date,
        warehouse: 1,
        carrier: 1,
    };
    let status = OrderStatusInput {
        date,
        warehouse: 1,
        district: 1,
        who: Who::Id(1),
    };
    let level = StockLevelInput {
        date,
        warehouse: 1,
        district: 1,
        threshold: 10,
    };
    let order = order(alloc, date)?;
    Ok([
        Input::payment(scale, payment(date, 100)).is_ok(),
        Input::new_order(scale, order).is_ok(),
        Input::delivery(scale, delivery).is_ok(),
        Input::order_status(scale, status).is_ok(),
        Input::stock_level(scale, level).is_ok(),
    ])
}

#[test]
fn the_first_and_the_last_date(rt: HostRuntime) -> Result<(), Fail> {
    let dates = [
        (0, false),
        (1, true),
        (4_000_000_000, true),
        (4_000_000_001, false),
    ];
    for (date, is_made) in dates {
        let made = made_at(rt.alloc(), &small()?, date)?;
        assert_eq!(rt; made, [is_made; 5], "at date {date}");
    }
    Ok(())
}

#[test]
fn amounts_of_a_payment(rt: HostRuntime) -> Result<(), Fail> {
    for (amount, is_made) in [(99, false), (100, true), (500_000, true), (500_001, false)] {
        let made = Input::payment(&small()?, payment(1, amount)).is_ok();
        assert_eq!(rt; made, is_made, "at {amount} cents");
    }
    Ok(())
}

#[test]
fn carriers_and_thresholds(rt: HostRuntime) -> Result<(), Fail> {
    for (carrier, is_made) in [(0, false), (1, true), (10, true), (11, false)] {
        let delivery = DeliveryInput {
            date: 1,
            warehouse: 1,
            carrier,
        };
        assert_eq!(rt;
            Input::delivery(&small()?, delivery).is_ok(),
            is_made,
            "at carrier {carrier}"
        );
    }
    for (threshold, is_made) in [(9, false), (10, true), (20, true), (21, false)] {
        let level = StockLevelInput {
            date: 1,
            warehouse: 1,
            district: 1,
            threshold,
        };
        let made = Input::stock_level(&small()?, level).is_ok();
        assert_eq!(rt; made, is_made, "at threshold {threshold}");
    }
    Ok(())
}

/// The dearest item of a plain population, at a scale that has it.
#[test]
fn the_dearest_item(rt: HostRuntime) -> Result<(), Fail> {
    let scale = Scale::new(1, 1, 10, 200, 10, 1)?;
    let tables = Population::plain(rt.alloc(), scale)?.into_tables();
    let dearest = tables.items.values().map(|item| item.price).max();
    assert_eq!(rt; dearest, Some(Cents::new(10_000)));
    Ok(())
}

/// What tables are held to, which no call tests.
#[test]
fn limits_of_columns(rt: HostRuntime) {
    assert_eq!(rt; [MAX_PRICE, MAX_LINE_AMOUNT], [10_000, 999_999]);
    assert_eq!(rt; [MAX_COUNT, LAST_NAMES], [1_000_000_000, 1_000]);
    assert_eq!(rt; [MIN_STOCK, MAX_STOCK, RESTOCK], [10, 100, 91]);
    assert_eq!(rt; [MAX_MONEY_STEP, MAX_COUNT_STEP], [15_000_000, 150]);
    assert_eq!(rt; [MAX_FIRST_MONEY, MAX_FIRST_COUNT], [30_000_000, 1]);
}

/// What an engine and its log files are held to.
#[test]
fn limits_of_engines(rt: HostRuntime) {
    assert_eq!(rt; [MAX_TERMINALS, MAX_LOGGERS], [16, 8]);
    assert_eq!(rt; [LAST_EPOCH, MAX_MARK], [4_294_967_295, 4_294_967_294]);
}
