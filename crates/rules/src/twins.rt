// Rule 5, over any store: which change it makes at a number, if any.
ghost use Rattle.std.specs.Prelude.{◌≡◌};
ghost use Rattle.rules.specs.Rules.{twin as model_twin};
ghost use Rattle.rules.specs.Changes.{change_of};

use crate::change::Change;
use program::reading::record_at;
use program::store::Store;
use runs::running::is_out;
use runs::walk::Walk;

// Rule 5: what is no out gives way to the first instruction before it with an equal record.
pub fn twin<S: Store>(store: &S, n: u32) -> Option<Change>
    ensures { change_of result ≡ model_twin (S.program store.now) n }
{
    let what = record_at(store, n);
    if is_out(what) {
        return None;
    }
    for (m, other) in Walk::new(store) {
        if m == n {
            return None;
        }
        if other == what {
            return Some(Change::DropFor(m));
        }
    }
    None
}
