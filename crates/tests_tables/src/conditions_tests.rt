//! Reports on the plain tables of a small scale with one change.

use conditions::{Report, check};
use money::Cents;
use population::Population;
use std::alloc::Global;
use std::test::Fail;
use tables::{CustomerKey, DistrictKey, LineKey, OrderKey, OrderLine, Scale, Tables};

fn scale() -> Result<Scale, Fail> {
    Ok(Scale::new(1, 2, 10, 20, 30, 1_000)?)
}

fn plain(alloc: Global) -> Result<Tables, Fail> {
    let population = Population::plain(alloc, scale()?)?;
    Ok(population.into_tables())
}

fn district(number: u32) -> DistrictKey {
    DistrictKey {
        warehouse: 1,
        district: number,
    }
}

fn order(number: u32) -> OrderKey {
    OrderKey {
        warehouse: 1,
        district: 1,
        order: number,
    }
}

#[test]
fn plain_tables_are_consistent(rt: HostRuntime) -> Result<(), Fail> {
    let report = check(rt.alloc(), &plain(rt.alloc())?)?;
    assert_eq!(rt; report, Report::default());
    assert!(rt; report.is_good());
    Ok(())
}

// An order number of none is 0, and so is D_NEXT_O_ID of no row, which would have to be 1.
#[test]
fn tables_without_rows(rt: HostRuntime) -> Result<(), Fail> {
    let tables = Tables::new(rt.alloc(), scale()?);
    let report = check(rt.alloc(), &tables)?;
    let expected = Report {
        condition_2: Some(district(1)),
        ..Report::default()
    };
    assert_eq!(rt; report, expected);
    assert!(rt; !report.is_good());
    Ok(())
}

// The sum of the two districts' D_YTD, and of H_AMOUNT, is 200.00.
#[test]
fn a_warehouse_with_a_cent_too_much(rt: HostRuntime) -> Result<(), Fail> {
    let mut tables = plain(rt.alloc())?;
    if let Some(row) = tables.warehouses.get_mut(&1) {
        row.year_to_date = Cents::new(20_001);
    }
    let expected = Report {
        condition_1: Some(1),
        condition_8: Some(1),
        ..Report::default()
    };
    assert_eq!(rt; check(rt.alloc(), &tables)?, expected);
    Ok(())
}

#[test]
fn a_district_that_skips_an_order_number(rt: HostRuntime) -> Result<(), Fail> {
    let mut tables = plain(rt.alloc())?;
    if let Some(row) = tables.districts.get_mut(&district(2)) {
        row.next_order = 12;
    }
    let expected = Report {
        condition_2: Some(district(2)),
        ..Report::default()
    };
    assert_eq!(rt; check(rt.alloc(), &tables)?, expected);
    Ok(())
}

// Of the new orders 8, 9 and 10.
#[test]
fn a_new_order_taken_out(rt: HostRuntime) -> Result<(), Fail> {
    let mut tables = plain(rt.alloc())?;
    tables.new_orders.remove(&order(9));
    let expected = Report {
        condition_3: Some(district(1)),
        condition_5: Some(order(9)),
        ..Report::default()
    };
    assert_eq!(rt; check(rt.alloc(), &tables)?, expected);
    Ok(())
}

// Its order is missing, so no condition of an order's row sees it.
#[test]
fn a_line_of_no_order(rt: HostRuntime) -> Result<(), Fail> {
    let mut tables = plain(rt.alloc())?;
    let key = LineKey {
        warehouse: 1,
        district: 2,
        order: 11,
        line: 1,
    };
    let line = OrderLine {
        item: 1,
        supply_warehouse: 1,
        delivery_date: None,
        quantity: 5,
        amount: Cents::new(100),
    };
    tables.lines.insert(key, line)?;
    let expected = Report {
        condition_4: Some(district(2)),
        ..Report::default()
    };
    assert_eq!(rt; check(rt.alloc(), &tables)?, expected);
    Ok(())
}

// Each order of the plain tables has five lines.
#[test]
fn an_order_that_counts_six_lines(rt: HostRuntime) -> Result<(), Fail> {
    let mut tables = plain(rt.alloc())?;
    if let Some(row) = tables.orders.get_mut(&order(3)) {
        row.line_count = 6;
    }
    let expected = Report {
        condition_4: Some(district(1)),
        condition_6: Some(order(3)),
        ..Report::default()
    };
    assert_eq!(rt; check(rt.alloc(), &tables)?, expected);
    Ok(())
}

// Order 8 isn't delivered, and customer 8 gave it; the line costs 5.00.
#[test]
fn a_delivered_line_of_a_new_order(rt: HostRuntime) -> Result<(), Fail> {
    let mut tables = plain(rt.alloc())?;
    let key = LineKey {
        warehouse: 1,
        district: 1,
        order: 8,
        line: 5,
    };
    if let Some(row) = tables.lines.get_mut(&key) {
        row.delivery_date = Some(1);
    }
    let customer = CustomerKey {
        warehouse: 1,
        district: 1,
        customer: 8,
    };
    let expected = Report {
        condition_7: Some(key),
        condition_10: Some(customer),
        condition_12: Some(customer),
        ..Report::default()
    };
    assert_eq!(rt; check(rt.alloc(), &tables)?, expected);
    Ok(())
}
