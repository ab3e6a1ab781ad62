// Cost models: what an instruction costs, and how costs add up.
ghost use Rattle.std.specs.Prelude.{◌≡◌};
ghost use Rattle.runs.specs.Prices.{Costing, by_size, by_delay, bytes, delay};

use ir::operation::Op;

// Two fixed functions: an instruction's stamp, and the new total.
pub trait CostModel {
    ghost costing: { Costing };

    // The stamp from the operation, the literal and the operands' stamps, 0 for an absent one.
    fn stamp(op: Op, literal: u32, a: u32, b: u32, c: u32) -> u32
        ensures { result ≡ costing.stamp op literal a b c };

    // The total after one more stamp.
    fn total(total: u32, stamp: u32) -> u32
        ensures { result ≡ costing.total total stamp };
}

fn bytes_of(op: Op) -> u32
    ensures { result ≡ bytes op }
{
    match op {
        Op::Constant | Op::Input => 2,
        Op::Pick | Op::Shift => 4,
        _ => 3,
    }
}

fn delay_of(op: Op) -> u32
    ensures { result ≡ delay op }
{
    match op {
        Op::Constant => 0,
        Op::Multiply => 5,
        Op::Add | Op::Subtract | Op::Less | Op::Equal | Op::Pick => 2,
        _ => 1,
    }
}

// The memory that a program takes: the sum of its instructions' bytes.
#[derive(Clone, Copy)]
pub struct Size;

impl CostModel for Size {
    ghost costing = { by_size };

    fn stamp(op: Op, _literal: u32, _a: u32, _b: u32, _c: u32) -> u32 {
        bytes_of(op)
    }

    fn total(total: u32, stamp: u32) -> u32 {
        total.saturating_add(stamp)
    }
}

// The time until a program's last value is there.
#[derive(Clone, Copy)]
pub struct Delay;

impl CostModel for Delay {
    ghost costing = { by_delay };

    fn stamp(op: Op, _literal: u32, a: u32, b: u32, c: u32) -> u32 {
        a.max(b).max(c).saturating_add(delay_of(op))
    }

    fn total(total: u32, stamp: u32) -> u32 {
        total.max(stamp)
    }
}
