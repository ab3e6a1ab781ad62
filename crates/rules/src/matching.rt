// Rules 1, 3 and 4, over any store: which change each makes at a number, if any.
ghost use Rattle.std.specs.Prelude.{◌≡◌};
ghost use Rattle.ir.specs.Instructions.{plain};
ghost use Rattle.rules.specs.Rules.{is, by_op, dead as model_dead, zero_if, fixed_by, neutral as model_neutral, same_by};
ghost use Rattle.rules.specs.Changes.{change_of, constant_at};

use crate::change::Change;
use ir::instruction::Record;
use ir::operation::Op;
use program::reading::{first_use, record_at};
use program::store::Store;
use runs::running::is_out;

// Rule 1: what is no out and has no uses goes.
pub fn dead<S: Store>(store: &S, n: u32) -> Option<Change>
    ensures { change_of result ≡ model_dead (S.program store.now) n }
{
    if is_out(record_at(store, n)) {
        return None;
    }
    first_use(store, n).is_none().then_some(Change::Vanish)
}

// The word of a number that is a constant.
pub(crate) fn constant_at<S: Store>(store: &S, m: u32) -> Option<u32>
    ensures { result ≡ constant_at (S.program store.now) m }
{
    let what = record_at(store, m);
    (what.op == Op::Constant).then_some(what.literal)
}

// Whether a number is the constant x.
fn is_constant<S: Store>(store: &S, m: u32, x: u32) -> bool
    ensures { result ≡ is (S.program store.now) m x }
{
    constant_at(store, m) == Some(x)
}

// The other operand, where one of two is the constant x; b is looked at first.
fn neutral<S: Store>(store: &S, x: u32, a: u32, b: u32) -> Option<Change>
    ensures { change_of result ≡ model_neutral (S.program store.now) x a b }
{
    if is_constant(store, b, x) {
        return Some(Change::DropFor(a));
    }
    is_constant(store, a, x).then_some(Change::DropFor(b))
}

// The operand that a pick takes, where its test is a constant.
fn picked<S: Store>(store: &S, what: Record) -> Option<Change>
    ensures { change_of result ≡ same_by (S.program store.now) (plain what) Op.Pick }
{
    let test = constant_at(store, what.a)?;
    Some(Change::DropFor(if test == 0 { what.c } else { what.b }))
}

// Rule 3: what has the value of an operand gives way to it.
pub fn same<S: Store>(store: &S, n: u32) -> Option<Change>
    ensures { change_of result ≡ by_op same_by (S.program store.now) n }
{
    let what = record_at(store, n);
    match what.op {
        Op::Add | Op::Or | Op::Xor => neutral(store, 0, what.a, what.b),
        Op::Multiply => neutral(store, 1, what.a, what.b),
        Op::Subtract => is_constant(store, what.b, 0).then_some(Change::DropFor(what.a)),
        Op::Pick => picked(store, what),
        Op::Shift => (what.literal == 0).then_some(Change::DropFor(what.a)),
        _ => None,
    }
}

// Whether the operands show that the value of the instruction is always 0.
fn is_zero<S: Store>(store: &S, what: Record) -> bool
    ensures { zero_if result ≡ fixed_by (S.program store.now) (plain what) what.op }
{
    match what.op {
        Op::Subtract | Op::Xor => what.a == what.b,
        Op::Multiply | Op::And => is_constant(store, what.b, 0) || is_constant(store, what.a, 0),
        _ => false,
    }
}

// Rule 4: what is always 0 becomes the constant 0.
pub fn fixed<S: Store>(store: &S, n: u32) -> Option<Change>
    ensures { change_of result ≡ by_op fixed_by (S.program store.now) n }
{
    let what = record_at(store, n);
    is_zero(store, what).then_some(Change::Become(Record::constant(0)))
}
