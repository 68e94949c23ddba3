//! How a line is read as a request.
ghost use Rattle.std.specs.Prelude.{◌≡◌, ◌⊎◌, ◌∷◌, ℕ, codes, Err, IfOk, IfErr, MatchResult};
ghost use Rattle.tables.specs.Inputs.{IsInput};
ghost use Rattle.program_script_text.specs.declared.request.Request.{Request};
ghost use Rattle.program_script_text.specs.Words.{words};
ghost use Rattle.program_script_text.specs.Requests.{request_text, IsRequestAt, IsWithinReach, IsRefusedLine, IsInRange};
ghost use Rattle.program_script_text.specs.Requests.{Answers, AnswersOrNoMemory, AnswersKey, BeginsNewOrder};

use crate::amount::read_amount;
use crate::last_names::{last_who, take_who};
use crate::order_words::read_order;
use crate::words::{last_number, take_number, take_word};
use crate::{Request, ShowKey};
use money::Refusal;
use std::alloc::Global;
use tables::{
    CustomerKey, DeliveryInput, DistrictKey, Input, NewOrderInput, OrderKey, OrderStatusInput,
    PaymentInput, Scale, StockKey, StockLevelInput,
};

/// The request that a line, without its line feed, asks, with this date if it is a transaction: `BadInput` for a
/// payment of an amount further than 10,000,000,000,000 cents from zero, `BadLine` for a line that is no request's, and
/// `OutOfMemory` where there is none left for an order's lines, which alone take memory. [`in_range`] tests the other
/// ranges. Costs a pass over the line.
pub fn read_request(alloc: Global, line: &[u8], date: u32) -> Result<Request, Refusal>
    ensures request { IfOk result (λ request. line.now ≡ request_text request) }
    ensures numbers { IfOk result (IsRequestAt date) }
    ensures reach { IfOk result IsWithinReach }
    ensures refusal { IfErr result (λ refusal. (refusal ≡ Refusal.OutOfMemory) ⊎ IsRefusedLine date line.now refusal) }
    ensures memory { result ≡ Err Refusal.OutOfMemory → BeginsNewOrder line.now }
{
    let (verb, rest) = take_word(line)?;
    match verb {
        b"payment" => read_payment(rest, date),
        b"neworder" => read_new_order(alloc, rest, date),
        b"delivery" => read_delivery(rest, date),
        b"status" => read_status(rest, date),
        b"level" => read_level(rest, date),
        b"show" => Ok(Request::Show(read_show(rest)?)),
        _ => Err(Refusal::BadLine),
    }
}

/// No two requests of one date have the same line, so the request that is read from a line is the one that asks it.
pub fn one_line_one_request()
    ensures { (date : ℕ) (a b : Request) → IsRequestAt date a → IsRequestAt date b → request_text a ≡ request_text b
        → a ≡ b }
{}

/// A request, or `BadInput` exactly where one of its numbers is outside its range at this scale. Costs a look at each
/// line of an order.
pub fn in_range(scale: &Scale, request: Request) -> Result<Request, Refusal>
    ensures ranges { MatchResult result (λ same. (same ≡ request) × IsInRange scale.now request)
        (λ refusal. (refusal ≡ Refusal.BadInput) × ¬ IsInRange scale.now request) }
{
    match request {
        Request::Transaction(input) => Ok(Request::Transaction(input_in_range(scale, input)?)),
        Request::Show(key) if key.is_in_range(scale) => Ok(Request::Show(key)),
        Request::Show(_) => Err(Refusal::BadInput),
    }
}

fn input_in_range(scale: &Scale, input: Input) -> Result<Input, Refusal>
    ensures { MatchResult result (λ same. (same ≡ input) × IsInput scale.now input)
        (λ refusal. (refusal ≡ Refusal.BadInput) × ¬ IsInput scale.now input) }
{
    match input {
        Input::Payment(payment) => Input::payment(scale, payment),
        Input::NewOrder(new_order) => Input::new_order(scale, new_order),
        Input::Delivery(delivery) => Input::delivery(scale, delivery),
        Input::OrderStatus(query) => Input::order_status(scale, query),
        Input::StockLevel(query) => Input::stock_level(scale, query),
    }
}

/// A Payment (TPC-C 2.5): `payment W D CW CD WHO AMOUNT`.
fn read_payment(text: &[u8], date: u32) -> Result<Request, Refusal>
    ensures { Answers date (codes "payment" ∷ words text.now) result }
{
    let (warehouse, rest) = take_number(text)?;
    let (district, rest) = take_number(rest)?;
    let (customer_warehouse, rest) = take_number(rest)?;
    let (customer_district, rest) = take_number(rest)?;
    let (who, rest) = take_who(rest)?;
    let amount = read_amount(rest)?;
    Ok(Request::Transaction(Input::Payment(PaymentInput {
        date,
        warehouse,
        district,
        customer_warehouse,
        customer_district,
        who,
        amount,
    })))
}

/// A New-Order (TPC-C 2.4): `neworder W D C LINE LINE ..`, each LINE `ITEM:SUPPLY:QUANTITY`, in any number.
fn read_new_order(alloc: Global, text: &[u8], date: u32) -> Result<Request, Refusal>
    ensures { AnswersOrNoMemory date (codes "neworder" ∷ words text.now) result }
{
    let (warehouse, rest) = take_number(text)?;
    let (district, rest) = take_number(rest)?;
    let (customer, lines) = read_order(alloc, rest)?;
    Ok(Request::Transaction(Input::NewOrder(NewOrderInput {
        date,
        warehouse,
        district,
        customer,
        lines,
    })))
}

/// A Delivery (TPC-C 2.7): `delivery W CARRIER`.
fn read_delivery(text: &[u8], date: u32) -> Result<Request, Refusal>
    ensures { Answers date (codes "delivery" ∷ words text.now) result }
{
    let (warehouse, rest) = take_number(text)?;
    let carrier = last_number(rest)?;
    Ok(Request::Transaction(Input::Delivery(DeliveryInput {
        date,
        warehouse,
        carrier,
    })))
}

/// An Order-Status (TPC-C 2.6): `status W D WHO`.
fn read_status(text: &[u8], date: u32) -> Result<Request, Refusal>
    ensures { Answers date (codes "status" ∷ words text.now) result }
{
    let (warehouse, rest) = take_number(text)?;
    let (district, rest) = take_number(rest)?;
    let who = last_who(rest)?;
    Ok(Request::Transaction(Input::OrderStatus(OrderStatusInput {
        date,
        warehouse,
        district,
        who,
    })))
}

/// A Stock-Level (TPC-C 2.8): `level W D THRESHOLD`.
fn read_level(text: &[u8], date: u32) -> Result<Request, Refusal>
    ensures { Answers date (codes "level" ∷ words text.now) result }
{
    let (warehouse, rest) = take_number(text)?;
    let (district, rest) = take_number(rest)?;
    let threshold = last_number(rest)?;
    Ok(Request::Transaction(Input::StockLevel(StockLevelInput {
        date,
        warehouse,
        district,
        threshold,
    })))
}

/// The key of a row, behind `show`.
fn read_show(text: &[u8]) -> Result<ShowKey, Refusal>
    ensures { AnswersKey (words text.now) result }
{
    let (table, key) = take_word(text)?;
    match table {
        b"warehouse" => show_warehouse(key),
        b"district" => show_district(key),
        b"customer" => show_customer(key),
        b"data" => show_data(key),
        b"stock" => show_stock(key),
        b"order" => show_order(key),
        _ => Err(Refusal::BadLine),
    }
}

fn show_warehouse(key: &[u8]) -> Result<ShowKey, Refusal>
    ensures { AnswersKey (codes "warehouse" ∷ words key.now) result }
{
    let warehouse = last_number(key)?;
    Ok(ShowKey::Warehouse(warehouse))
}

fn show_district(key: &[u8]) -> Result<ShowKey, Refusal>
    ensures { AnswersKey (codes "district" ∷ words key.now) result }
{
    let (warehouse, key) = take_number(key)?;
    let district = last_number(key)?;
    Ok(ShowKey::District(DistrictKey {
        warehouse,
        district,
    }))
}

fn show_customer(key: &[u8]) -> Result<ShowKey, Refusal>
    ensures { AnswersKey (codes "customer" ∷ words key.now) result }
{
    let (warehouse, key) = take_number(key)?;
    let (district, key) = take_number(key)?;
    let customer = last_number(key)?;
    Ok(ShowKey::Customer(CustomerKey {
        warehouse,
        district,
        customer,
    }))
}

fn show_data(key: &[u8]) -> Result<ShowKey, Refusal>
    ensures { AnswersKey (codes "data" ∷ words key.now) result }
{
    let (warehouse, key) = take_number(key)?;
    let (district, key) = take_number(key)?;
    let customer = last_number(key)?;
    Ok(ShowKey::CustomerData(CustomerKey {
        warehouse,
        district,
        customer,
    }))
}

fn show_stock(key: &[u8]) -> Result<ShowKey, Refusal>
    ensures { AnswersKey (codes "stock" ∷ words key.now) result }
{
    let (warehouse, key) = take_number(key)?;
    let item = last_number(key)?;
    Ok(ShowKey::Stock(StockKey { warehouse, item }))
}

fn show_order(key: &[u8]) -> Result<ShowKey, Refusal>
    ensures { AnswersKey (codes "order" ∷ words key.now) result }
{
    let (warehouse, key) = take_number(key)?;
    let (district, key) = take_number(key)?;
    let order = last_number(key)?;
    Ok(ShowKey::Order(OrderKey {
        warehouse,
        district,
        order,
    }))
}
