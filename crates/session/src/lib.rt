// A session: edits of the program in a store under nested saves, with a journal of 512 records and no copies.
#![tactic(auto)]

pub mod call;
pub mod fault;
pub mod journal;
pub mod mark;
pub mod session;
pub mod token;
