//! Totals, and the texts of amounts and refusals.

ghost use Rattle.std.specs.Prelude.{◌≤◌, ◌≤ℤ◌, pos};

use money::{Cents, Rate, Refusal, one_text_one_value, total};
use std::alloc::{AllocError, Global};
use std::test::Fail;

fn rate(ten_thousandths: u16) -> Rate
    requires { ten_thousandths ≤ 10000 }
{
    Rate::new(ten_thousandths).unwrap()
}

fn total_of(lines: i64) -> i64
    requires low { pos 0 ≤ℤ lines }
    requires high { lines ≤ℤ pos 1500000 }
{
    total(Cents::new(lines), rate(1000), rate(1000), rate(500)).amount()
}

#[test]
fn totals_of_orders(rt: HostRuntime) -> Result<(), Fail> {
    assert_eq!(rt; total_of(15_000), 15_525);
    assert_eq!(rt; total_of(500), 517);
    assert_eq!(rt; total_of(12_200), 12_627);
    assert_eq!(rt; total_of(1_500), 1_552);
    assert_eq!(rt; total_of(4_300), 4_450);
    assert_eq!(rt; total_of(6_500), 6_727);
    assert_eq!(rt; total_of(0), 0);
    Ok(())
}

#[test]
fn sums_and_order(rt: HostRuntime) -> Result<(), Fail> {
    let (five, seven) = (Cents::new(5), Cents::new(7));
    assert_eq!(rt; five + seven, Cents::new(12));
    assert_eq!(rt; five - seven, Cents::new(-2));
    assert!(rt; five < seven && Cents::new(-1) < Cents::new(0));
    Ok(())
}

#[test]
fn rates_end_at_one(rt: HostRuntime) -> Result<(), Fail> {
    assert_eq!(rt; rate(10_000).ten_thousandths(), 10_000);
    assert_eq!(rt; Rate::new(10_001), None);
    Ok(())
}

#[test]
fn reads_money(rt: HostRuntime) -> Result<(), Fail> {
    assert_eq!(rt; Cents::read("0.00"), Ok(Cents::new(0)));
    assert_eq!(rt; Cents::read("-0.01"), Ok(Cents::new(-1)));
    assert_eq!(rt; Cents::read("12.34"), Ok(Cents::new(1_234)));
    assert_eq!(rt; Cents::read("5000.00"), Ok(Cents::new(500_000)));
    let limit = 10_000_000_000_000;
    assert_eq!(rt; Cents::read("100000000000.00"), Ok(Cents::new(limit)));
    assert_eq!(rt; Cents::read("-100000000000.00"), Ok(Cents::new(-limit)));
    Ok(())
}

#[test]
fn refuses_what_is_no_money_text(rt: HostRuntime) -> Result<(), Fail> {
    let texts = [
        "",
        "-",
        ".",
        "1",
        "-1",
        ".10",
        "-.10",
        "00.10",
        "-0.00",
        "1.0",
        "1.000",
        "+1.00",
        " 1.00",
        "1.00 ",
        "1,00",
        "1.0x",
        "--1.00",
        "1-1.00",
        "100000000000.01",
        "-100000000000.01",
        "9223372036854775808.00",
        "99999999999999999999999.00",
    ];
    for text in texts {
        assert_eq!(rt; Cents::read(text), Err(Refusal::BadInput));
    }
    Ok(())
}

fn printed(alloc: Global, amount: i64) -> Result<String, Refusal> {
    let mut text = String::new(alloc);
    Cents::new(amount).print(&mut text)?;
    Ok(text)
}

#[test]
fn prints_money(rt: HostRuntime) -> Result<(), Fail> {
    assert_eq!(rt; printed(rt.alloc(), 0)?.as_str(), "0.00");
    assert_eq!(rt; printed(rt.alloc(), -1)?.as_str(), "-0.01");
    assert_eq!(rt; printed(rt.alloc(), 5)?.as_str(), "0.05");
    assert_eq!(rt; printed(rt.alloc(), -2_234)?.as_str(), "-22.34");
    assert_eq!(rt;
        printed(rt.alloc(), i64::MIN)?.as_str(),
        "-92233720368547758.08"
    );
    assert_eq!(rt;
        printed(rt.alloc(), i64::MAX)?.as_str(),
        "92233720368547758.07"
    );
    let price = Cents::new(1_050);
    assert_eq!(rt; format!(in rt.alloc(); "${price}")?.as_str(), "$10.50");
    one_text_one_value();
    Ok(())
}

#[test]
fn prints_refusals(rt: HostRuntime) -> Result<(), Fail> {
    let device = Refusal::Device;
    assert_eq!(rt; device.to_string(rt.alloc())?.as_str(), "9 Device");
    let item = Refusal::ItemNotValid { item: 100_001 };
    assert_eq!(rt; item.to_string(rt.alloc())?.as_str(), "5 ItemNotValid");
    assert_eq!(rt;
        (Refusal::BadLine.number(), Refusal::BadLine.name()),
        (14, "BadLine")
    );
    assert_eq!(rt; Refusal::from(AllocError), Refusal::OutOfMemory);
    Ok(())
}

/// Those that no script and no file comes to.
#[test]
fn refusals_of_a_terminal(rt: HostRuntime) {
    let told = [
        (Refusal::Stale, 3, "Stale"),
        (Refusal::Conflict, 4, "Conflict"),
        (Refusal::EpochFull, 8, "EpochFull"),
        (Refusal::GaveUp, 12, "GaveUp"),
    ];
    for (refusal, number, name) in told {
        assert_eq!(rt; (refusal.number(), refusal.name()), (number, name));
    }
}

fn pushed(alloc: Global) -> Result<Vec<u8>, Refusal> {
    let mut bytes = Vec::new(alloc);
    bytes.push(1)?;
    Ok(bytes)
}

#[test]
fn converts_failed_pushes(rt: HostRuntime) -> Result<(), Fail> {
    assert_eq!(rt; pushed(rt.alloc())?.len(), 1);
    Ok(())
}
