// The surviving history of a list of calls: what is left once the refused ones, and every call inside a reverted save, are struck.
ghost use Rattle.std.specs.Prelude.{◌≡◌, ◌<◌, ◌≤◌, length};
ghost use Rattle.session.specs.Calls.{act_of};
ghost use Rattle.history.specs.Piles.{kind_of, Followed, Survived};

use session::call::{Call, Reply};

// There are fewer replies, or there is less memory, than calls; or more than 8 saves are open at once, which no session admits.
#[derive(Clone, Copy, PartialEq, Eq)]
pub enum HistoryFault {
    Short,
    TooDeep,
}

// What an accepted call does to the pile.
// It stays a type: these are the definition's four kinds, and the match in `follow` chooses among four; it is no step to hand in.
#[derive(Clone, Copy, PartialEq, Eq)]
enum Kind {
    Work,
    Begin,
    Accept,
    Revert,
}

// The bundles lie end to end in a list of calls, the lowest first: how many calls they have, and where each above the lowest begins.
// A fixed array with its length: the device has no heap.
#[derive(Clone, Copy, PartialEq, Eq)]
struct Pile {
    starts: [usize; 8],
    depth: usize,
    len: usize,
}

// The kind of a call.
fn kind_of(call: Call) -> Kind
    ensures { result ≡ kind_of (act_of call) }
{
    match call {
        Call::Save | Call::Hold => Kind::Begin,
        Call::Accept(_) | Call::AcceptHeld(_) => Kind::Accept,
        Call::Revert(_) | Call::RevertHeld(_) => Kind::Revert,
        Call::Make(_, _)
        | Call::Place(_, _)
        | Call::Detach(_)
        | Call::Erase(_)
        | Call::Rewrite(_, _)
        | Call::Replace(_, _) => Kind::Work,
    }
}

// Takes one call and its reply into the pile. A ninth start is refused, and nothing is done.
fn follow(pile: &mut Pile, kept: &mut [Call], call: Call, reply: Reply) -> Result<(), HistoryFault>
    requires { (pile.old.depth ≤ 8) × (pile.old.len < length kept.old) }
    ensures { Followed call reply kept.old kept.new pile.old pile.new result }
{
    if reply.is_err() {
        return Ok(());
    }
    match kind_of(call) {
        Kind::Work => {
            kept[pile.len] = call;
            pile.len += 1;
        }
        Kind::Begin => {
            if pile.depth == 8 {
                return Err(HistoryFault::TooDeep);
            }
            pile.starts[pile.depth] = pile.len;
            pile.depth += 1;
        }
        Kind::Accept => {
            pile.depth = pile.depth.saturating_sub(1);
        }
        Kind::Revert => {
            if pile.depth > 0 {
                pile.depth -= 1;
                pile.len = pile.starts[pile.depth];
            }
        }
    }
    Ok(())
}

// Writes the surviving history of the calls that got these replies to the front of the memory, and answers how many calls it has.
// A session's own replies are refused only as too short.
pub fn survivors(
    calls: &[Call],
    replies: &[Reply],
    kept: &mut [Call],
) -> Result<usize, HistoryFault>
    ensures { Survived calls.now replies.now kept.old kept.new result }
{
    if replies.len() < calls.len() || kept.len() < calls.len() {
        return Err(HistoryFault::Short);
    }
    let mut pile = Pile {
        starts: [0; 8],
        depth: 0,
        len: 0,
    };
    for (call, reply) in calls.iter().zip(replies) {
        follow(&mut pile, kept, *call, *reply)?;
    }
    Ok(pile.len)
}
