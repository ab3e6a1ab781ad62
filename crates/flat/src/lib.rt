// The flat store: one cell for each number, in memory that the caller lends.
#![tactic(auto)]

pub mod cells;
mod commands;
pub mod flat;
mod places;
mod uses;
