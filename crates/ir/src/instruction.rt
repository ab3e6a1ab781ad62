// The record of an instruction: an operation, a literal and up to three operands, which are numbers of other instructions.
ghost use Rattle.ir.specs.Operations.{Shaped};

use crate::operation::Op;

// The literal lies in the operation's range, and an absent operand is 0: no record ever breaks this. A record is made from five
// numbers, so an absent operand is a number too; `operands` gives it as none.
#[derive(Clone, Copy, PartialEq, Eq)]
pub struct Record {
    pub op: Op,
    pub literal: u32,
    pub a: u32,
    pub b: u32,
    pub c: u32,
    ghost shaped: { Shaped op literal a b c },
}
