//! Executing an input of any kind, which needs no lock: whoever has the cells and a reader may do it, and the book
//! commits what it comes to.
#![tactic(auto)]

mod executing;

pub use executing::execute;
