// A walk along the order of the program in a store.
ghost use Rattle.std.specs.Prelude.{◌≡◌, true, length};
ghost use Rattle.std.specs.Iterator.{at_most};
ghost use Rattle.runs.specs.Walks.{stands?, Moved, from};

use ir::instruction::Record;
use program::reading::{next_of, record_at};
use program::store::Store;

// The placed instructions with their numbers, in order.
#[derive(Drop)]
pub struct Walk<'a, S: Store> {
    store: &'a S,
    // the number that comes next; none at the end
    at: Option<u32>,
    ghost stands: { stands? at (S.program store.now).order ≡ true },
}

impl<'a, S: Store> Walk<'a, S> {
    // From the first instruction on.
    pub fn new(store: &'a S) -> Walk<'a, S>
        ensures store { result.store.now ≡ store.now }
        ensures whole { from result.at (S.program store.now).order ≡ (S.program store.now).order }
    {
        Walk {
            store,
            at: store.first(),
        }
    }
}

impl<S: Store> Iterator for Walk<'_, S> {
    type Item = (u32, Record);

    ghost next_gives = { λ s r t. (t.store.now ≡ s.store.now) × Moved (S.program s.store.now) s.at t.at r };

    ghost remaining = { λ s. at_most (length (from s.at (S.program s.store.now).order)) };

    fn next(&mut self) -> Option<(u32, Record)> {
        let n = self.at?;
        let what = record_at(self.store, n);
        self.at = next_of(self.store, n);
        Some((n, what))
    }
}
