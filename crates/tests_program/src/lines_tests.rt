ghost use Rattle.std.specs.Prelude.{◌<◌};

use conditions::Report;
use money::{Cents, Rate, Refusal};
use program_script_text::{
    Answer, LineBuffer, Request, ShowKey, ShownRow, print_report, read_request,
};
use std::alloc::Global;
use std::process::Abort;
use std::test::Fail;
use tables::{
    Credit, Customer, CustomerKey, DeliveredOrder, DeliveryInput, DeliveryReply, District,
    DistrictKey, Input, LineKey, Lines, NewOrderInput, NewOrderReply, OrderKey, PaymentInput,
    PaymentReply, Reply, RequestedLine, StockKey, SuppliedLine, Warehouse, Who,
};

/// The date of the requests here.
const DATE: u32 = 7;

#[test]
fn requests_are_read(rt: HostRuntime) {
    let payment = Request::Transaction(Input::Payment(PaymentInput {
        date: DATE,
        warehouse: 1,
        district: 1,
        customer_warehouse: 1,
        customer_district: 1,
        who: Who::Id(3),
        amount: Cents::new(1234),
    }));
    let alloc = rt.alloc();
    assert_eq!(rt;
        read_request(alloc, b"payment 1 1 1 1 3 12.34", DATE),
        Ok(payment)
    );
    assert_shows(&rt, b"show warehouse 1", ShowKey::Warehouse(1));
    let district = DistrictKey {
        warehouse: 1,
        district: 1,
    };
    assert_shows(&rt, b"show district 1 1", ShowKey::District(district));
    let customer = CustomerKey {
        warehouse: 1,
        district: 1,
        customer: 3,
    };
    assert_shows(&rt, b"show customer 1 1 3", ShowKey::Customer(customer));
    assert_shows(&rt, b"show data 1 1 3", ShowKey::CustomerData(customer));
    let stock = StockKey {
        warehouse: 1,
        item: 4294967295,
    };
    assert_shows(&rt, b"show stock 1 4294967295", ShowKey::Stock(stock));
    let order = OrderKey {
        warehouse: 1,
        district: 2,
        order: 0,
    };
    assert_shows(&rt, b"show order 1 2 0", ShowKey::Order(order));
}

/// Tests that a line asks for the row at a key.
fn assert_shows(rt: &(impl Abort + AllocGlobal), line: &[u8], key: ShowKey) {
    assert_eq!(rt;
        read_request(rt.alloc(), line, DATE),
        Ok(Request::Show(key))
    );
}

fn requested(item: u32, supply_warehouse: u32, quantity: u32) -> RequestedLine {
    RequestedLine {
        item,
        supply_warehouse,
        quantity,
    }
}

/// An order of customer 3 of the first district.
fn order_of(alloc: Global, lines: &[RequestedLine]) -> Result<Request, Fail> {
    let lines = Vec::from_slice(alloc, lines)?;
    Ok(Request::Transaction(Input::NewOrder(NewOrderInput {
        date: DATE,
        warehouse: 1,
        district: 1,
        customer: 3,
        lines: Lines::new(lines),
    })))
}

#[test]
fn orders_are_read(rt: HostRuntime) -> Result<(), Fail> {
    let alloc = rt.alloc();
    let none = order_of(alloc, &[])?;
    assert_eq!(rt; read_request(alloc, b"neworder 1 1 3", DATE), Ok(none));
    let one = order_of(alloc, &[requested(21, 2, 10)])?;
    assert_eq!(rt;
        read_request(alloc, b"neworder 1 1 3 21:2:10", DATE),
        Ok(one)
    );
    let (zero, largest) = (
        requested(0, 0, 0),
        requested(4294967295, 4294967295, 4294967295),
    );
    let three = order_of(alloc, &[largest, zero, largest])?;
    let line =
        b"neworder 1 1 3 4294967295:4294967295:4294967295 0:0:0 4294967295:4294967295:4294967295";
    assert_eq!(rt; read_request(alloc, line, DATE), Ok(three));
    Ok(())
}

#[test]
fn an_order_of_sixteen_lines_is_read(rt: HostRuntime) -> Result<(), Fail> {
    let alloc = rt.alloc();
    let mut line = String::new(alloc);
    line.push_str("neworder 1 1 3")?;
    for _ in 0..16 {
        line.push_str(" 7:1:2")?;
    }
    let sixteen = order_of(alloc, &[requested(7, 1, 2); 16])?;
    assert_eq!(rt; read_request(alloc, line.as_bytes(), DATE), Ok(sixteen));
    Ok(())
}

#[test]
fn a_delivery_is_read(rt: HostRuntime) {
    let delivery = Request::Transaction(Input::Delivery(DeliveryInput {
        date: DATE,
        warehouse: 1,
        carrier: 4294967295,
    }));
    assert_eq!(rt;
        read_request(rt.alloc(), b"delivery 1 4294967295", DATE),
        Ok(delivery)
    );
}

fn is_bad_line(alloc: Global, line: &[u8]) -> bool {
    read_request(alloc, line, DATE) == Err(Refusal::BadLine)
}

#[test]
fn other_lines_are_bad(rt: HostRuntime) {
    let alloc = rt.alloc();
    assert!(rt; is_bad_line(alloc, b""));
    assert!(rt; is_bad_line(alloc, b"show"));
    assert!(rt; is_bad_line(alloc, b"show warehouse 01"));
    assert!(rt; is_bad_line(alloc, b"show warehouse +1"));
    assert!(rt; is_bad_line(alloc, b"show warehouse 4294967296"));
    assert!(rt; is_bad_line(alloc, b"show warehouse 1 "));
    assert!(rt; is_bad_line(alloc, b"show  warehouse 1"));
    assert!(rt; is_bad_line(alloc, b"show warehouse 1\r"));
    assert!(rt; is_bad_line(alloc, b"show warehouse \x00"));
    assert!(rt; is_bad_line(alloc, b"show warehouse \xff"));
    assert!(rt; is_bad_line(alloc, b"show data 1 1"));
    assert!(rt; is_bad_line(alloc, b"show data 1 1 1 1"));
    assert!(rt; is_bad_line(alloc, b"show date 1 1 1"));
    assert!(rt; is_bad_line(alloc, b"show stock 1"));
    assert!(rt; is_bad_line(alloc, b"show stock 1 1 1"));
    assert!(rt; is_bad_line(alloc, b"show stocks 1 1"));
    assert!(rt; is_bad_line(alloc, b"show order 1 1"));
    assert!(rt; is_bad_line(alloc, b"show order 1 1 1 1"));
    assert!(rt; is_bad_line(alloc, b"payment 1 1 1 1 3 -0.00"));
    assert!(rt; is_bad_line(alloc, b"payment 1 1 1 1 3 1.2"));
}

#[test]
fn other_orders_are_bad(rt: HostRuntime) {
    let alloc = rt.alloc();
    assert!(rt; is_bad_line(alloc, b"neworder"));
    assert!(rt; is_bad_line(alloc, b" neworder 1 1 3"));
    assert!(rt; is_bad_line(alloc, b"neworders 1 1 3"));
    assert!(rt; is_bad_line(alloc, b"neworder 1 1"));
    assert!(rt; is_bad_line(alloc, b"neworder 1 1 "));
    assert!(rt; is_bad_line(alloc, b"neworder 1 1 3 "));
    assert!(rt; is_bad_line(alloc, b"neworder 1 1 03"));
    assert!(rt; is_bad_line(alloc, b"neworder 1 1 4294967296 1:1:1"));
    assert!(rt; is_bad_line(alloc, b"neworder 1 1 1:1:1"));
    assert!(rt; is_bad_line(alloc, b"neworder 1 1 3 1:1:1 "));
    assert!(rt; is_bad_line(alloc, b"neworder 1 1 3 1:1:1  2:1:1"));
    assert!(rt; is_bad_line(alloc, b"neworder 1 1 3 1:1:1,2:1:1"));
    assert!(rt; is_bad_line(alloc, b"neworder 1 1 3 1:1:1 2"));
}

#[test]
fn other_lines_of_an_order_are_bad(rt: HostRuntime) {
    let alloc = rt.alloc();
    assert!(rt; is_bad_line(alloc, b"neworder 1 1 3 1"));
    assert!(rt; is_bad_line(alloc, b"neworder 1 1 3 1:1"));
    assert!(rt; is_bad_line(alloc, b"neworder 1 1 3 1:1:"));
    assert!(rt; is_bad_line(alloc, b"neworder 1 1 3 :1:1"));
    assert!(rt; is_bad_line(alloc, b"neworder 1 1 3 1::1"));
    assert!(rt; is_bad_line(alloc, b"neworder 1 1 3 1:1:1:1"));
    assert!(rt; is_bad_line(alloc, b"neworder 1 1 3 1:1:01"));
    assert!(rt; is_bad_line(alloc, b"neworder 1 1 3 1:+1:1"));
    assert!(rt; is_bad_line(alloc, b"neworder 1 1 3 4294967296:1:1"));
    assert!(rt; is_bad_line(alloc, b"neworder 1 1 3 1:4294967296:1"));
    assert!(rt; is_bad_line(alloc, b"neworder 1 1 3 1:1:4294967296"));
    assert!(rt; is_bad_line(alloc, b"neworder 1 1 3 1:1:1\r"));
    assert!(rt; is_bad_line(alloc, b"neworder 1 1 3 1:1:\xff"));
}

#[test]
fn other_deliveries_are_bad(rt: HostRuntime) {
    let alloc = rt.alloc();
    assert!(rt; is_bad_line(alloc, b"delivery"));
    assert!(rt; is_bad_line(alloc, b"deliveries 1 4"));
    assert!(rt; is_bad_line(alloc, b"delivery 1"));
    assert!(rt; is_bad_line(alloc, b"delivery 1 "));
    assert!(rt; is_bad_line(alloc, b"delivery 1 4 "));
    assert!(rt; is_bad_line(alloc, b"delivery 1 4 4"));
    assert!(rt; is_bad_line(alloc, b"delivery 1 04"));
    assert!(rt; is_bad_line(alloc, b"delivery 1 4294967296"));
}

#[test]
fn amounts_beyond_the_limit_are_bad_input(rt: HostRuntime) {
    let line = b"payment 1 1 1 1 3 99999999999999999999.00";
    assert_eq!(rt;
        read_request(rt.alloc(), line, DATE),
        Err(Refusal::BadInput)
    );
}

fn printed(rt: &(impl Abort + AllocGlobal), answer: Answer) -> String {
    let mut text = String::new(rt.alloc());
    answer.print(&mut text).expect(rt, "memory");
    text
}

#[test]
fn answers_are_printed(rt: HostRuntime) {
    let payment = Reply::Payment(PaymentReply {
        warehouse: 1,
        district: 1,
        customer_warehouse: 1,
        customer_district: 1,
        customer: 3,
        balance: Cents::new(-2234),
    });
    let text = printed(&rt, Answer::Reply(payment));
    assert_eq!(rt;
        text.as_str(),
        "payment 1 1 customer 1 1 3 balance -22.34\n"
    );
    let line = Answer::Refused {
        refusal: Refusal::BadLine,
        line: 1,
    };
    assert_eq!(rt; printed(&rt, line).as_str(), "14 line 1\n");
    let item = Answer::Refused {
        refusal: Refusal::ItemNotValid { item: 21 },
        line: 1,
    };
    assert_eq!(rt; printed(&rt, item).as_str(), "5 line 1 item 21\n");
}

/// A line that the second warehouse supplies.
fn supplied(item: u32, stock: u32) -> SuppliedLine {
    SuppliedLine {
        item,
        supply_warehouse: 2,
        stock,
        amount: Cents::new(1000),
    }
}

#[test]
fn an_order_is_printed(rt: HostRuntime) -> Result<(), Fail> {
    let lines = Vec::from_slice(rt.alloc(), &[supplied(1, 40), supplied(7, 91)])?;
    let order = Reply::NewOrder(NewOrderReply {
        warehouse: 1,
        district: 1,
        order: 11,
        customer: 3,
        amount: Cents::new(2000),
        total: Cents::new(2070),
        lines: Lines::new(lines),
    });
    let expected = "neworder 1 1 11 customer 3 lines 20.00 total 20.70 1:2:40:10.00 7:2:91:10.00\n";
    assert_eq!(rt; printed(&rt, Answer::Reply(order)).as_str(), expected);
    Ok(())
}

/// What was delivered in a district.
fn delivered(district: u32, order: Option<u32>) -> DeliveredOrder {
    DeliveredOrder { district, order }
}

#[test]
fn a_delivery_is_printed(rt: HostRuntime) -> Result<(), Fail> {
    let orders = [delivered(1, Some(8)), delivered(2, None)];
    let orders = Vec::from_slice(rt.alloc(), &orders)?;
    let delivery = Reply::Delivery(DeliveryReply {
        warehouse: 3,
        orders: Lines::new(orders),
    });
    assert_eq!(rt;
        printed(&rt, Answer::Reply(delivery)).as_str(),
        "delivery 3 1:8 2:-\n"
    );
    Ok(())
}

#[test]
fn rows_are_printed(rt: HostRuntime) {
    let tax = Rate::new(1000).expect(&rt, "a rate");
    let warehouse = ShownRow::Warehouse {
        warehouse: 1,
        row: Warehouse {
            tax,
            year_to_date: Cents::new(21234),
        },
    };
    assert_eq!(rt;
        printed(&rt, Answer::Row(warehouse)).as_str(),
        "warehouse 1 ytd 212.34\n"
    );
    let district = ShownRow::District {
        key: DistrictKey {
            warehouse: 1,
            district: 1,
        },
        row: District {
            tax,
            year_to_date: Cents::new(11234),
            next_order: 11,
        },
    };
    assert_eq!(rt;
        printed(&rt, Answer::Row(district)).as_str(),
        "district 1 1 ytd 112.34 next 11\n"
    );
    let customer = ShownRow::Customer {
        key: CustomerKey {
            warehouse: 1,
            district: 1,
            customer: 3,
        },
        row: Customer {
            first_name: 0,
            last_name: 2,
            credit: Credit::Good,
            discount: tax,
            balance: Cents::new(-2234),
            paid: Cents::new(2234),
            payments: 2,
            deliveries: 0,
        },
    };
    let text = "customer 1 1 3 balance -22.34 paid 22.34 payments 2 deliveries 0\n";
    assert_eq!(rt; printed(&rt, Answer::Row(customer)).as_str(), text);
}

#[test]
fn a_report_is_printed(rt: HostRuntime) {
    let customer = CustomerKey {
        warehouse: 1,
        district: 1,
        customer: 3,
    };
    let report = Report {
        condition_1: None,
        condition_2: None,
        condition_3: None,
        condition_4: None,
        condition_5: Some(OrderKey {
            warehouse: 1,
            district: 1,
            order: 9,
        }),
        condition_6: None,
        condition_7: Some(LineKey {
            warehouse: 1,
            district: 1,
            order: 8,
            line: 5,
        }),
        condition_8: Some(1),
        condition_9: Some(DistrictKey {
            warehouse: 1,
            district: 2,
        }),
        condition_10: Some(customer),
        condition_12: None,
    };
    let mut text = String::new(rt.alloc());
    print_report(1, &report, &mut text).expect(&rt, "memory");
    assert_eq!(rt;
        text.as_str(),
        "commits 1\nC1 ok\nC2 ok\nC3 ok\nC4 ok\nC5 broken 1 1 9\nC6 ok\nC7 broken 1 1 8 5\n\
            C8 broken 1\nC9 broken 1 2\nC10 broken 1 1 3\nC12 ok\n"
    );
}

// The lengths of the lines of a text that comes in pieces of this size; 9999 for one that is too long.
fn line_lengths(alloc: Global, text: &[u8], piece_size: usize) -> Result<Vec<usize>, Fail>
    requires { 0 < piece_size }
{
    let mut lengths = Vec::new(alloc);
    let mut buffer = LineBuffer::new(alloc)?;
    for piece in text.chunks(piece_size) {
        let mut rest = piece;
        for _ in 0..piece.len() {
            let Some(after) = buffer.take_line(rest) else {
                break;
            };
            lengths.push(buffer.line().map_or(9999, |line| line.len()))?;
            buffer.clear();
            rest = after;
        }
    }
    if !buffer.is_empty() {
        lengths.push(buffer.line().map_or(9999, |line| line.len()))?;
    }
    Ok(lengths)
}

#[test]
fn lines_are_cut(rt: HostRuntime) -> Result<(), Fail> {
    for piece_size in 1..4 {
        let two = line_lengths(rt.alloc(), b"a\nbc", piece_size)?;
        assert_eq!(rt; two.as_slice(), [1, 2].as_slice());
        let empty = line_lengths(rt.alloc(), b"\n\na\n", piece_size)?;
        assert_eq!(rt; empty.as_slice(), [0, 0, 1].as_slice());
    }
    let longest = vec![in rt.alloc(); b'a'; 1_024]?;
    let lengths = line_lengths(rt.alloc(), &longest, 100)?;
    assert_eq!(rt; lengths.as_slice(), [1_024].as_slice());
    let longer = vec![in rt.alloc(); b'a'; 1_025]?;
    let lengths = line_lengths(rt.alloc(), &longer, 100)?;
    assert_eq!(rt; lengths.as_slice(), [9999].as_slice());
    Ok(())
}
