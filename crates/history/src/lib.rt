// Whole lists of calls, entered in a new session, and the laws that hold after any of them.
#![tactic(auto)]

ghost use Rattle.std.specs.Prelude.{◌≤◌, length};
ghost use Rattle.history.specs.Entering.{Made, EnteredIn, Entered, EnteredBoth};

pub mod survivors;

use program::store::Store;
use session::call::{Call, Reply};
use session::session::Session;

// Makes the calls in order, refused ones too, and writes their replies to the front of the memory.
fn answer_all<S: Store, M>(session: &mut Session<S, M>, calls: &[Call], replies: &mut [Reply])
    requires { length calls.now ≤ length replies.old }
    ensures { Made S.program (length calls.now) calls.now session.old session.new replies.old replies.new }
{
    // A zip with iter_mut was tried, and its proof did not close: nothing is known of the slice's items after an adapter of iter_mut.
    for (i, call) in calls.iter().enumerate() {
        replies[i] = session.call(*call);
    }
}

// Opens a new session over the store and enters the calls, for whose replies there is room.
fn enter_all<S: Store, M>(store: S, cost: M, calls: &[Call], replies: &mut [Reply]) -> Session<S, M>
    requires { length calls.now ≤ length replies.old }
    ensures { EnteredIn S.program store calls.now replies.old replies.new result }
{
    let mut session = Session::new(store, cost);
    answer_all(&mut session, calls, replies);
    session
}

// Opens a new session over the store and enters the calls; their replies are written to the front of the memory. With too
// little memory for the replies, store and cost model are handed back and nothing is written.
pub fn enter<S: Store, M>(
    store: S,
    cost: M,
    calls: &[Call],
    replies: &mut [Reply],
) -> Result<Session<S, M>, (S, M)>
    ensures { Entered S.program store cost calls.now replies.old replies.new result }
{
    if replies.len() < calls.len() {
        return Err((store, cost));
    }
    Ok(enter_all(store, cost, calls, replies))
}

// Enters the calls over the first store and the others over the second. With too little memory for either's replies, stores and
// cost models are handed back and nothing is written.
pub fn enter_both<S: Store, T: Store, M, N>(
    first: (S, M),
    second: (T, N),
    calls: &[Call],
    replies: &mut [Reply],
    again: &[Call],
    got: &mut [Reply],
) -> Result<(Session<S, M>, Session<T, N>), ((S, M), (T, N))>
    ensures { EnteredBoth S.program T.program first second calls.now again.now (replies.old, replies.new) (got.old, got.new) result }
{
    if replies.len() < calls.len() || got.len() < again.len() {
        return Err((first, second));
    }
    let (store, cost) = first;
    let a = enter_all(store, cost, calls, replies);
    let (store, cost) = second;
    let b = enter_all(store, cost, again, got);
    Ok((a, b))
}
