// Prices and runs of the program in any store, over scratch words that come back zero.
#![tactic(auto)]

pub mod cost;
pub mod fault;
mod form;
pub mod pricing;
pub mod running;
pub mod scratch;
pub mod walk;
