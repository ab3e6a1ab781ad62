// The linked store: a doubly linked order and threaded use lists, in memory that the caller lends.
#![tactic(auto)]

pub mod cells;
pub mod linked;
mod lookup;
mod order;
mod records;
mod threads;
mod uses;
