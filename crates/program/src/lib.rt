// One straight-line program: what it is, what a store of it does, and the laws of its commands and use lists.
#![tactic(auto)]

pub mod checks;
pub mod fault;
pub mod laws;
pub mod look;
pub mod reading;
pub mod state;
pub mod store;
