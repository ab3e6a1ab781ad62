// A session over any store and any cost model.
mod editing;
mod readings;
mod running;
mod saves;

use crate::journal::Journal;

// The store with its program, the cost model, and the journal of what was done since the oldest save.
#[derive(Drop)]
pub struct Session<S, M> {
    store: S,
    cost: M,
    journal: Journal,
}
