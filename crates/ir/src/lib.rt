// Instructions: operations, records that always keep their operation's shape, values, and how faults are reported.
#![tactic(auto)]

pub mod fault;
pub mod instruction;
pub mod maker;
pub mod operation;
pub mod value;
