// What an instruction computes.
ghost use Rattle.std.specs.Prelude.{◌≡◌, slice_index};
ghost use Rattle.ir.specs.Values.{value_of};

use crate::instruction::Record;
use crate::operation::Op;

// The word of a channel; 0 where there is none.
fn input_at(inputs: &[u32], channel: u32) -> u32
    ensures { result ≡ slice_index inputs.now channel }
{
    inputs.get(channel as usize).copied().unwrap_or(0)
}

impl Record {
    // The value of the instruction on the input words and on the values of its operands.
    pub fn value(self, inputs: &[u32], x: u32, y: u32, z: u32) -> u32
        ensures { result ≡ value_of self.op self.literal inputs.now x y z }
    {
        match self.op {
            Op::Constant => self.literal,
            Op::Input => input_at(inputs, self.literal),
            Op::Add => x.wrapping_add(y),
            Op::Subtract => x.wrapping_sub(y),
            Op::Multiply => x.wrapping_mul(y),
            Op::And => x & y,
            Op::Or => x | y,
            Op::Xor => x ^ y,
            Op::Less => u32::from(x < y),
            Op::Equal => u32::from(x == y),
            Op::Pick => if x != 0 { y } else { z },
            Op::Shift => x.wrapping_mul(1 << self.literal),
            Op::Out => x,
        }
    }
}
