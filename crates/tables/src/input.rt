//! What a terminal asks for (TPC-C 2.4 to 2.8), one module a transaction: here is only which there are.

ghost use Rattle.std.specs.Prelude.{◌≡◌, MatchResult};

use crate::delivery::DeliveryInput;
use crate::new_order::NewOrderInput;
use crate::order_status::OrderStatusInput;
use crate::payment::PaymentInput;
use crate::scale::Scale;
use crate::stock_level::StockLevelInput;
use money::Refusal;

/// The input of a transaction.
#[derive(Debug, Drop, PartialEq)]
pub enum Input {
    Payment(PaymentInput),
    NewOrder(NewOrderInput),
    Delivery(DeliveryInput),
    OrderStatus(OrderStatusInput),
    StockLevel(StockLevelInput),
}

impl Input {
    ghost use Rattle.tables.specs.Inputs.{IsInput};
    ghost use Rattle.money.specs.declared.refusal.Refusal.TheVariants.{BadInput};

    /// A Payment's input, or `BadInput` exactly where a field is outside its range: warehouses and districts
    /// within the scale, the customer within it or a last name below the number of customers and below 1,000, the date
    /// from 1 to 4,000,000,000, the amount from 1.00 to 5,000.00.
    pub fn payment(scale: &Scale, payment: PaymentInput) -> Result<Input, Refusal>
        ensures ranges { let asked = Input.Payment payment in
            MatchResult result (λ input. (input ≡ asked) × IsInput scale.now asked)
            (λ refusal. (refusal ≡ BadInput) × ¬ IsInput scale.now asked) }
    {
        if !payment.is_in_range(scale) {
            return Err(Refusal::BadInput);
        }
        Ok(Input::Payment(payment))
    }

    /// A New-Order's input, or `BadInput` exactly where a field is outside its range: the supplying warehouses, the
    /// order's own, its district and its customer within the scale, the date from 1 to 4,000,000,000, 5 to 15 lines,
    /// of an item from 1 to 100,001 at any scale, and a quantity from 1 to 10. Costs a look at each line.
    pub fn new_order(scale: &Scale, new_order: NewOrderInput) -> Result<Input, Refusal>
        ensures ranges { let asked = Input.NewOrder new_order in
            MatchResult result (λ input. (input ≡ asked) × IsInput scale.now asked)
            (λ refusal. (refusal ≡ BadInput) × ¬ IsInput scale.now asked) }
    {
        if !new_order.is_in_range(scale) {
            return Err(Refusal::BadInput);
        }
        Ok(Input::NewOrder(new_order))
    }

    /// A Delivery's input, or `BadInput` exactly where a field is outside its range: the warehouse within the scale,
    /// the date from 1 to 4,000,000,000, the carrier from 1 to 10.
    pub fn delivery(scale: &Scale, delivery: DeliveryInput) -> Result<Input, Refusal>
        ensures ranges { let asked = Input.Delivery delivery in
            MatchResult result (λ input. (input ≡ asked) × IsInput scale.now asked)
            (λ refusal. (refusal ≡ BadInput) × ¬ IsInput scale.now asked) }
    {
        if !delivery.is_in_range(scale) {
            return Err(Refusal::BadInput);
        }
        Ok(Input::Delivery(delivery))
    }

    /// An Order-Status's input, or `BadInput` exactly where a field is outside its range: the district within the
    /// scale, the customer within it or a last name below the number of customers and below 1,000, the date from 1 to
    /// 4,000,000,000.
    pub fn order_status(scale: &Scale, query: OrderStatusInput) -> Result<Input, Refusal>
        ensures ranges { let asked = Input.OrderStatus query in
            MatchResult result (λ input. (input ≡ asked) × IsInput scale.now asked)
            (λ refusal. (refusal ≡ BadInput) × ¬ IsInput scale.now asked) }
    {
        if !query.is_in_range(scale) {
            return Err(Refusal::BadInput);
        }
        Ok(Input::OrderStatus(query))
    }

    /// A Stock-Level's input, or `BadInput` exactly where a field is outside its range: the district within the scale,
    /// the date from 1 to 4,000,000,000, the threshold from 10 to 20.
    pub fn stock_level(scale: &Scale, query: StockLevelInput) -> Result<Input, Refusal>
        ensures ranges { let asked = Input.StockLevel query in
            MatchResult result (λ input. (input ≡ asked) × IsInput scale.now asked)
            (λ refusal. (refusal ≡ BadInput) × ¬ IsInput scale.now asked) }
    {
        if !query.is_in_range(scale) {
            return Err(Refusal::BadInput);
        }
        Ok(Input::StockLevel(query))
    }
}
