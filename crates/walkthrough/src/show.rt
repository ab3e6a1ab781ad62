// What is printed of records, faults, uses, prices and runs.
use crate::script::LineFault;
use ir::fault::Report;
use ir::instruction::Record;
use program::fault::StoreFault;
use program::store::Store;
use runs::fault::RunFault;
use session::call::{Call, Reply};
use std::io;

// A refusal on a line of its own.
pub fn refusal<F: Into<Report>>(rt: &impl Print, fault: F) -> io::Result<()> {
    let report: Report = fault.into();
    println!(rt; "refused: {report}")
}

// A line of the script and what came of it. Here and below what was accepted is said in words of its own.
pub fn step(
    rt: &impl Print,
    n: u32,
    note: &str,
    made: Result<Record, LineFault>,
) -> io::Result<()> {
    print!(rt; "  {n:>2}  ")?;
    print!(rt; "{note:<34} ")?;
    match made {
        Ok(what) => println!(rt; "{what}"),
        Err(fault) => refusal(rt, fault),
    }
}

// The answer of a command.
pub fn verdict(rt: &impl Print, what: &str, answer: Result<(), StoreFault>) -> io::Result<()> {
    print!(rt; "  {what}: ")?;
    match answer {
        Ok(()) => println!(rt; "accepted"),
        Err(fault) => refusal(rt, fault),
    }
}

// A loop is shown to end: no number has more uses than this, three by each of 1024 numbers.
const MOST_USES: usize = 3072;

// No program has more placed numbers than this.
const MOST_NUMBERS: usize = 1024;

// The use list, read from the least use up until there is none.
pub fn uses<S: Store>(rt: &impl Print, store: &S, n: u32) -> io::Result<()> {
    print!(rt; "  uses of {n}:")?;
    let mut after = None;
    for _ in 0..MOST_USES {
        let Ok(Some((user, position))) = store.next_use(n, after) else {
            break;
        };
        print!(rt; " by {user} at {position}")?;
        after = Some((user, position));
    }
    println!(rt; "")
}

// The listing of a program, from its first number on by what tells of each number its record and the next one.
pub(crate) fn listing<F>(rt: &impl Print, first: Option<u32>, mut tell: F) -> io::Result<()>
where
    F: FnMut(u32) -> Option<(Record, Option<u32>)>,
    requires { F.IsAlwaysCallable tell }
{
    let mut at = first;
    for _ in 0..MOST_NUMBERS {
        let Some(n) = at else {
            break;
        };
        let Some((what, next)) = tell(n) else {
            break;
        };
        println!(rt; "  {n:>2}  {what}")?;
        at = next;
    }
    Ok(())
}

// The answer of a price.
pub fn price(rt: &impl Print, title: &str, answer: Result<u32, RunFault>) -> io::Result<()> {
    print!(rt; "  {title}: ")?;
    match answer {
        Ok(price) => println!(rt; "{price}"),
        Err(fault) => refusal(rt, fault),
    }
}

// The answer of a run, and the channels and values that it wrote.
pub fn outputs(rt: &impl Print, answer: Result<u32, RunFault>, output: &[u32]) -> io::Result<()> {
    let count = match answer {
        Ok(count) => count as usize,
        Err(fault) => return refusal(rt, fault),
    };
    for pair in output.chunks_exact(2).take(count) {
        if let [channel, value] = pair {
            println!(rt; "  channel {channel} gets {value}")?;
        }
    }
    Ok(())
}

// A place in the order: before an anchor, or the end.
fn anchor(rt: &impl Print, before: Option<u32>) -> io::Result<()> {
    match before {
        Some(m) => print!(rt; "before {m}"),
        None => print!(rt; "at the end"),
    }
}

// A call, with no line end. In the program's own words: the library has no text for a call that is promised.
pub fn call(rt: &impl Print, call: Call) -> io::Result<()> {
    print!(rt; "  ")?;
    match call {
        Call::Make(n, what) => print!(rt; "make {n} as {what}"),
        Call::Rewrite(n, what) => print!(rt; "rewrite {n} as {what}"),
        Call::Place(n, before) => {
            print!(rt; "place {n} ")?;
            anchor(rt, before)
        }
        Call::Detach(n) => print!(rt; "detach {n}"),
        Call::Erase(n) => print!(rt; "erase {n}"),
        Call::Replace(n, m) => print!(rt; "replace {n} by {m}"),
        Call::Save => print!(rt; "save"),
        Call::Hold => print!(rt; "hold"),
        Call::Accept(depth) => print!(rt; "accept {depth}"),
        Call::Revert(depth) => print!(rt; "revert {depth}"),
        Call::AcceptHeld(depth) => print!(rt; "accept {depth} by token"),
        Call::RevertHeld(depth) => print!(rt; "revert {depth} by token"),
    }
}

// The depth is answered by a save or a hold alone.
pub fn reply(rt: &impl Print, reply: Reply) -> io::Result<()> {
    match reply {
        Ok(0) => println!(rt; ": accepted"),
        Ok(depth) => println!(rt; ": depth {depth}"),
        Err(fault) => {
            print!(rt; ": ")?;
            refusal(rt, fault)
        }
    }
}
