// A list of calls under nested saves: what they answer, what survives of them, and whether that builds the same program.
use crate::show;
use flat::cells::FlatCell;
use flat::flat::Flat;
use history::enter;
use history::survivors::survivors;
use ir::instruction::Record;
use ir::maker::RecordFault;
use linked::cells::BLANK;
use linked::linked::Linked;
use program::store::Store;
use runs::cost::Size;
use session::call::{Call, Reply};
use session::session::Session;
use std::io;

const CELLS: usize = 16;

const CALLS: usize = 28;

// A valve that stays open for the minutes asked for and five more; then some tries, of which one is kept.
fn calls() -> Result<[Call; CALLS], RecordFault> {
    let asked = Record::new(1, 0, 0, 0, 0)?;
    let sum = Record::new(2, 0, 1, 2, 0)?;
    let valve = Record::new(12, 1, 3, 0, 0)?;
    Ok([
        Call::Make(1, asked),
        Call::Place(1, None),
        Call::Make(2, Record::constant(5)),
        Call::Place(2, None),
        Call::Make(3, sum),
        Call::Place(3, None),
        Call::Make(4, valve),
        Call::Place(4, None),
        Call::Save,
        Call::Rewrite(2, Record::constant(7)),
        Call::Save,
        Call::Replace(3, 1),
        Call::Detach(3),
        Call::Erase(3),
        Call::Revert(2),
        Call::Accept(1),
        Call::Save,
        Call::Erase(1),
        Call::Detach(4),
        Call::Hold,
        Call::Revert(2),
        Call::RevertHeld(2),
        Call::Revert(1),
        Call::Hold,
        Call::Make(5, Record::constant(60)),
        Call::Place(5, Some(3)),
        Call::AcceptHeld(1),
        Call::Accept(1),
    ])
}

fn answers(rt: &impl Print, calls: &[Call], replies: &[Reply]) -> io::Result<()> {
    for (call, reply) in calls.iter().zip(replies) {
        show::call(rt, *call)?;
        show::reply(rt, *reply)?;
    }
    Ok(())
}

// Whether a number has the same record and the same place in both programs.
fn same_at<S: Store, T: Store, M>(
    one: &mut Session<S, M>,
    other: &mut Session<T, M>,
    n: u32,
) -> bool {
    one.next(n) == other.next(n) && one.read(n) == other.read(n)
}

fn same_program<S: Store, T: Store, M>(one: &mut Session<S, M>, other: &mut Session<T, M>) -> bool {
    let size = one.size();
    if size != other.size() || one.first() != other.first() {
        return false;
    }
    (0..size).all(|n| same_at(one, other, n))
}

// Enters what survives in a second session, and says whether it comes to the same program.
fn again<S: Store, T: Store + Drop>(
    rt: &impl Print,
    first: &mut Session<S, Size>,
    other: T,
    kept: &[Call],
) -> io::Result<()> {
    println!(rt;
        "\n7. The {} calls that survive, entered in a new session on the other kind of store, the linked one.",
        kept.len()
    )?;
    let mut replies: [Reply; CALLS] = [Ok(0); CALLS];
    let Ok(mut second) = enter(other, Size, kept, &mut replies) else {
        return println!(rt; "  no room for the replies");
    };
    answers(rt, kept, &replies)?;
    let same = same_program(first, &mut second);
    println!(rt;
        "  the program is {}",
        if same { "the same" } else { "another" }
    )
}

// Enters the list, shows every call with its answer, the program it leaves, and what survives.
fn entered<S: Store + Drop, T: Store + Drop>(
    rt: &impl Print,
    store: S,
    other: T,
    calls: &[Call],
) -> io::Result<()> {
    let mut replies: [Reply; CALLS] = [Ok(0); CALLS];
    let Ok(mut session) = enter(store, Size, calls, &mut replies) else {
        return println!(rt; "  no room for the replies");
    };
    answers(rt, calls, &replies)?;
    println!(rt; "  The program then:")?;
    show::listing(rt, session.first(), |n| {
        Some((session.read(n).ok()?, session.next(n).ok()?))
    })?;
    let mut kept = [Call::Save; CALLS];
    match survivors(calls, &replies, &mut kept) {
        Ok(count) if count <= CALLS => again(rt, &mut session, other, &kept[..count]),
        _ => println!(rt; "  no room for the history"),
    }
}

pub fn tour(rt: &impl Print) -> io::Result<()> {
    println!(rt; "\n6. A list of calls with saves in saves, kept or taken back, and held saves.")?;
    let mut cells = [FlatCell::Vacant; CELLS];
    let mut others = [BLANK; CELLS];
    match calls() {
        Ok(list) => entered(rt, Flat::new(&mut cells), Linked::new(&mut others), &list),
        Err(_) => println!(rt; "  a record of the list is out of shape"),
    }
}
