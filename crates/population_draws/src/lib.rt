//! Numbers drawn from a seed: what the terminals' inputs and the rows of a seeded population are made of.
#![tactic(auto)]

mod draws;
mod skewed;

pub use draws::Draws;
pub use skewed::{
    CUSTOMER_CONSTANT, CUSTOMER_SPREAD, ITEM_CONSTANT, ITEM_SPREAD, LAST_NAME_CONSTANT,
    LAST_NAME_SPREAD, nurand,
};
