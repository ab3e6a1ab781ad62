// Records made from five numbers.
ghost use Rattle.std.specs.Prelude.{◌≡◌, nat_lt};
ghost use Rattle.ir.specs.Operations.{arity, limit, letter_of};
ghost use Rattle.ir.specs.Instructions.{plain, constant_of, slots};
ghost use Rattle.ir.specs.declared.maker.RecordFault.TheVariants.{Malformed};
ghost use Rattle.ir.specs.Making.{Decodes, Made, record_report};

use crate::fault::{Layer, Report};
use crate::instruction::Record;
use crate::operation::Op;
use std::fmt;

// Why five numbers are no record.
#[derive(Clone, Copy, PartialEq, Eq)]
pub enum RecordFault {
    // the place, as a report gives it: 0 for the code or the literal, else the position of the operand
    Malformed(u32),
}

impl From<RecordFault> for Report {
    ghost from_gives = { λ f r. r ≡ record_report f };

    fn from(fault: RecordFault) -> Report {
        match fault {
            RecordFault::Malformed(place) => Layer::Record.report(5, place as usize),
        }
    }
}

// No operation has this code. Errors of `TryFrom` say what was given; that of a rule's number is another crate's.
#[derive(Clone, Copy, PartialEq, Eq)]
pub struct UnknownCode {
    pub code: u32,
}

impl From<UnknownCode> for RecordFault {
    ghost from_gives = { λ e r. r ≡ Malformed 0 };

    fn from(_: UnknownCode) -> RecordFault {
        RecordFault::Malformed(0)
    }
}

// The operation of a code.
impl TryFrom<u32> for Op {
    type Error = UnknownCode;

    ghost try_from_gives = { Decodes };

    fn try_from(code: u32) -> Result<Op, UnknownCode> {
        match code {
            0 => Ok(Op::Constant),
            1 => Ok(Op::Input),
            2 => Ok(Op::Add),
            3 => Ok(Op::Subtract),
            4 => Ok(Op::Multiply),
            5 => Ok(Op::And),
            6 => Ok(Op::Or),
            7 => Ok(Op::Xor),
            8 => Ok(Op::Less),
            9 => Ok(Op::Equal),
            10 => Ok(Op::Pick),
            11 => Ok(Op::Shift),
            12 => Ok(Op::Out),
            _ => Err(UnknownCode { code }),
        }
    }
}

impl Op {
    // The letter that stands for the operation in a line. A method, since what it answers is promised; Display promises nothing.
    pub fn letter(self) -> char
        ensures { result ≡ letter_of self }
    {
        match self {
            Op::Constant => 'c',
            Op::Input => 'i',
            Op::Add => '+',
            Op::Subtract => '-',
            Op::Multiply => '*',
            Op::And => '&',
            Op::Or => '|',
            Op::Xor => '^',
            Op::Less => '<',
            Op::Equal => '=',
            Op::Pick => '?',
            Op::Shift => 'h',
            Op::Out => 'o',
        }
    }

    // How many operands the operation has.
    pub fn operands(self) -> u32
        ensures { result ≡ arity self }
    {
        match self {
            Op::Constant | Op::Input => 0,
            Op::Shift | Op::Out => 1,
            Op::Pick => 3,
            _ => 2,
        }
    }

    // Whether the literal is in the operation's range.
    pub fn allows(self, literal: u32) -> bool
        ensures { result ≡ nat_lt literal (limit self) }
    {
        match self {
            Op::Constant => true,
            Op::Input | Op::Out => literal < 16,
            Op::Shift => literal < 32,
            _ => literal < 1,
        }
    }
}

impl Record {
    // The record of these five numbers, or the place of the first that is wrong.
    pub fn new(code: u32, literal: u32, a: u32, b: u32, c: u32) -> Result<Record, RecordFault>
        ensures { Made code literal a b c result }
    {
        let op = Op::try_from(code)?;
        if !op.allows(literal) {
            return Err(RecordFault::Malformed(0));
        }
        let count = op.operands();
        if count < 1 && a != 0 {
            return Err(RecordFault::Malformed(1));
        }
        if count < 2 && b != 0 {
            return Err(RecordFault::Malformed(2));
        }
        if count < 3 && c != 0 {
            return Err(RecordFault::Malformed(3));
        }
        Ok(Record {
            op,
            literal,
            a,
            b,
            c,
        })
    }

    // The operand at each position that the operation has; behind the last there is none. Callers take the three apart:
    // what they do differs by position, and three lines are no longer than a loop.
    pub fn operands(self) -> [Option<u32>; 3]
        ensures { result ≡ slots (plain self) }
    {
        let count = self.op.operands();
        [
            (0 < count).then_some(self.a),
            (1 < count).then_some(self.b),
            (2 < count).then_some(self.c),
        ]
    }

    // The constant of a word.
    pub fn constant(literal: u32) -> Record
        ensures { plain result ≡ constant_of literal }
    {
        Record {
            op: Op::Constant,
            literal,
            a: 0,
            b: 0,
            c: 0,
        }
    }
}

// The letter, the literal if the operation has one, and the operands, parted by blanks.
impl fmt::Display for Record {
    fn fmt<W: fmt::Write>(&self, f: &mut fmt::Formatter<W>) -> fmt::Result {
        write!(f, "{}", self.op.letter())?;
        if self.op.allows(1) {
            write!(f, " {}", self.literal)?;
        }
        for x in self.operands().into_iter().flatten() {
            write!(f, " {x}")?;
        }
        Ok(())
    }
}
