// Rule 6, over any store: which change it makes at a number, if any.
ghost use Rattle.std.specs.Prelude.{◌≡◌, ◌<◌, IfSome};
ghost use Rattle.ir.specs.Instructions.{plain};
ghost use Rattle.rules.specs.Rules.{log_to, log as model_log, shift_of, shift_by, by_op, power_by};
ghost use Rattle.rules.specs.Changes.{change_of, unless_zero};

use crate::change::Change;
use crate::matching::constant_at;
use ir::instruction::Record;
use ir::operation::Op;
use program::reading::record_at;
use program::store::Store;

// The k from 1 to 31 with 2 ^ k equal to x.
#[tactic(auto, using(crate::proofs::Logs::log_small, crate::proofs::Logs::log_other, crate::proofs::Logs::log_power))]
fn log_of(x: u32) -> Option<u32>
    ensures answer { result ≡ unless_zero (log_to x 31) }
    ensures below { IfSome result (λ k. k < 32) }
{
    if x < 2 || !x.is_power_of_two() {
        return None;
    }
    Some(x.ilog2())
}

// The k from 1 to 31 where a number is the constant 2 ^ k.
fn log<S: Store>(store: &S, m: u32) -> Option<u32>
    ensures answer { result ≡ unless_zero (model_log (S.program store.now) m) }
    ensures below { IfSome result (λ k. k < 32) }
{
    log_of(constant_at(store, m)?)
}

// The shift of a by k.
fn shift(a: u32, k: u32) -> Record
    requires { k < 32 }
    ensures { plain result ≡ shift_of a k }
{
    Record {
        op: Op::Shift,
        literal: k,
        a,
        b: 0,
        c: 0,
    }
}

// A shift by the power that b is, else by the power that a is.
#[tactic(auto, using(crate::proofs::Logs::shift_none))]
fn shifted<S: Store>(store: &S, a: u32, b: u32) -> Option<Change>
    ensures { change_of result ≡ shift_by a b (model_log (S.program store.now) b) (model_log (S.program store.now) a) }
{
    if let Some(k) = log(store, b) {
        return Some(Change::Become(shift(a, k)));
    }
    let k = log(store, a)?;
    Some(Change::Become(shift(b, k)))
}

// Rule 6: a product with a power of 2 becomes a shift.
pub fn power<S: Store>(store: &S, n: u32) -> Option<Change>
    ensures { change_of result ≡ by_op power_by (S.program store.now) n }
{
    let what = record_at(store, n);
    if what.op != Op::Multiply {
        return None;
    }
    shifted(store, what.a, what.b)
}
