//! An input as a line.

use tables::{Input, NewOrderInput, OrderStatusInput, PaymentInput, Who};

/// Prints the line of an input.
pub(crate) fn print_input<R: Print + Alloc>(rt: &R, input: &Input) -> anyhow::Result<()> {
    match input {
        Input::NewOrder(order) => print_new_order(rt, order)?,
        Input::Payment(payment) => print_payment(rt, payment)?,
        Input::OrderStatus(query) => print_order_status(rt, query)?,
        Input::Delivery(asked) => {
            let (date, warehouse, carrier) = (asked.date, asked.warehouse, asked.carrier);
            println!(rt; "delivery {date} {warehouse} {carrier}")?;
        }
        Input::StockLevel(asked) => {
            let (date, warehouse) = (asked.date, asked.warehouse);
            let (district, threshold) = (asked.district, asked.threshold);
            println!(rt; "stock-level {date} {warehouse} {district} {threshold}")?;
        }
    }
    Ok(())
}

fn print_new_order<R: Print + Alloc>(rt: &R, order: &NewOrderInput) -> anyhow::Result<()> {
    let (date, warehouse) = (order.date, order.warehouse);
    let (district, customer) = (order.district, order.customer);
    print!(rt; "new-order {date} {warehouse} {district} {customer}")?;
    for line in order.lines.as_slice() {
        let (item, supply, quantity) = (line.item, line.supply_warehouse, line.quantity);
        print!(rt; " {item}:{supply}:{quantity}")?;
    }
    println!(rt)?;
    Ok(())
}

fn print_payment<R: Print + Alloc>(rt: &R, payment: &PaymentInput) -> anyhow::Result<()> {
    let (date, warehouse, district) = (payment.date, payment.warehouse, payment.district);
    let (customer_warehouse, customer_district) = (
        payment.customer_warehouse,
        payment.customer_district,
    );
    print!(rt; "payment {date} {warehouse} {district} ")?;
    print!(rt; "{customer_warehouse} {customer_district} ")?;
    print_who(rt, payment.who)?;
    let amount = payment.amount.amount();
    println!(rt; " {amount}")?;
    Ok(())
}

fn print_order_status<R: Print + Alloc>(rt: &R, query: &OrderStatusInput) -> anyhow::Result<()> {
    let (date, warehouse, district) = (query.date, query.warehouse, query.district);
    print!(rt; "order-status {date} {warehouse} {district} ")?;
    print_who(rt, query.who)?;
    println!(rt)?;
    Ok(())
}

fn print_who<R: Print + Alloc>(rt: &R, who: Who) -> anyhow::Result<()> {
    match who {
        Who::Id(customer) => print!(rt; "id {customer}")?,
        Who::Last(name) => print!(rt; "last {name}")?,
    }
    Ok(())
}
