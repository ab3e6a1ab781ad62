// What a rule does to the program at a number.
use ir::instruction::Record;

// The change that a rule makes; where the rule does not apply there is none.
#[derive(Clone, Copy, PartialEq, Eq)]
pub enum Change {
    // the number leaves the program
    Vanish,
    // another number takes its place at every use, and then it leaves the program
    DropFor(u32),
    // it gets another record
    Become(Record),
}
