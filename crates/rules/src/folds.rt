// Rule 2, over any store: which change it makes at a number, if any.
ghost use Rattle.std.specs.Prelude.{◌≡◌};
ghost use Rattle.rules.specs.Rules.{fold as model_fold};
ghost use Rattle.rules.specs.Changes.{change_of, known_literal};

use crate::change::Change;
use crate::matching::constant_at;
use ir::instruction::Record;
use program::reading::record_at;
use program::store::Store;
use runs::running::is_out;

// The literal of an operand that is a constant, and 0 for an absent one.
fn known<S: Store>(store: &S, x: Option<u32>) -> Option<u32>
    ensures { result ≡ known_literal (S.program store.now) x }
{
    match x {
        Some(m) => constant_at(store, m),
        None => Some(0),
    }
}

// Rule 2: an operation on constants becomes the constant of its value. Each operand has its own part in the value.
pub fn fold<S: Store>(store: &S, n: u32) -> Option<Change>
    ensures { change_of result ≡ model_fold (S.program store.now) n }
{
    let what = record_at(store, n);
    let [a, b, c] = what.operands();
    if a.is_none() || is_out(what) {
        return None;
    }
    let x = known(store, a)?;
    let y = known(store, b)?;
    let z = known(store, c)?;
    Some(Change::Become(Record::constant(what.value(&[], x, y, z))))
}
