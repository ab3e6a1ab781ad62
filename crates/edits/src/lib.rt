// Edits of a program as values: each has an opposite that takes it back.
#![tactic(auto)]

pub mod command;
pub mod laws;
pub mod replacing;
