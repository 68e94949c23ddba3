//! What the conditions that are asked of each customer look into.

ghost use Rattle.conditions.specs.CustomerWalks.{AreWalksOf};

use crate::sums::Sums;
use conditions_walks::Walk;
use tables::{Customer, CustomerKey, Tables};

/// A walk along CUSTOMER and along each sum by customer, for the customers in order.
#[derive(Drop)]
pub struct CustomerWalks<'a> {
    pub customers: Walk<'a, CustomerKey, Customer>,
    pub history: Walk<'a, CustomerKey, i128>,
    pub delivered: Walk<'a, CustomerKey, i128>,
}

impl<'a> CustomerWalks<'a> {
    /// From where each begins.
    pub fn new(tables: &'a Tables, sums: &'a Sums) -> CustomerWalks<'a>
        ensures { AreWalksOf tables.now sums.now result }
    {
        CustomerWalks {
            customers: Walk::new(&tables.customers),
            history: Walk::new(&sums.history.customers),
            delivered: Walk::new(&sums.lines.delivered),
        }
    }
}
