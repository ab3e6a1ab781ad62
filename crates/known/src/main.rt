// Results that anyone can work out by hand: some proved as one table, some shown by the program.
#![tactic(auto)]

ghost use Rattle.known.specs.Results.{KnownResults};

use flat::cells::FlatCell;
use flat::flat::Flat;
use ir::fault::Report;
use ir::instruction::Record;
use ir::maker::RecordFault;
use program::store::Store;
use runs::cost::{Delay, Size};
use runs::fault::RunFault;
use session::fault::SessionFault;
use session::session::Session;
use std::io;

const CELLS: usize = 16;

// Computes nothing: its contract is the table.
pub fn known_results()
    ensures { KnownResults }
{}

// A refusal on a line of its own. The walkthrough has the like: the two programs share no crate that prints.
fn refusal(rt: &impl Print, report: Report) -> io::Result<()> {
    println!(rt; "refused: {report}")
}

// A shift of 1 by so much, as a record.
fn shift(by: u32) -> Result<Record, RecordFault> {
    Record::new(11, by, 1, 0, 0)
}

fn shows_shift(rt: &impl Print, by: u32) -> io::Result<()> {
    print!(rt; "record, shift by {by}: ")?;
    match shift(by) {
        Ok(_) => println!(rt; "made"),
        Err(fault) => refusal(rt, fault.into()),
    }
}

// Input 3, the constant 8, a third instruction and an out of it, placed 1 to 4; what is refused is left out.
fn install<S: Store>(store: &mut S, third: Record) -> Result<(), RecordFault> {
    let records = [
        Record::new(1, 3, 0, 0, 0)?,
        Record::constant(8),
        third,
        Record::new(12, 5, 3, 0, 0)?,
    ];
    for (n, what) in (1..5).zip(records) {
        // Nothing is refused where the third record fits; where it does not, the price shows it.
        let _ = store.make(n, what);
        let _ = store.link(n, None);
    }
    Ok(())
}

fn amount(rt: &impl Print, title: &str, answer: Result<u32, RunFault>) -> io::Result<()> {
    match answer {
        Ok(price) => print!(rt; "{title} {price}"),
        Err(fault) => refusal(rt, fault.into()),
    }
}

fn prices(rt: &impl Print, title: &str, third: Option<Record>) -> io::Result<()> {
    let mut cells = [FlatCell::Vacant; CELLS];
    let mut store = Flat::new(&mut cells);
    if let Some(what) = third
        && let Err(fault) = install(&mut store, what)
    {
        return refusal(rt, fault.into());
    }
    let mut scratch = [0u32; CELLS];
    print!(rt; "price, {title}: ")?;
    amount(
        rt,
        "Size",
        runs::pricing::price::<_, Size>(&store, &mut scratch),
    )?;
    amount(
        rt,
        ", Delay",
        runs::pricing::price::<_, Delay>(&store, &mut scratch),
    )?;
    println!(rt; "")
}

// Edits in a save until one is refused, at most so many: then how many were accepted, and the fault.
fn edit_until_refused<S: Store, M>(
    session: &mut Session<S, M>,
    most: u32,
) -> Result<(), (u32, SessionFault)> {
    // The count is the edit's literal too, so that no two edits are alike.
    for i in 0..most {
        session
            .rewrite(1, Record::constant(i))
            .map_err(|fault| (i, fault))?;
    }
    Ok(())
}

// How many edits a save takes.
fn shows_edits<S: Store + Drop>(rt: &impl Print, store: S) -> io::Result<()> {
    let mut session = Session::new(store, Size);
    // Neither can be refused here: the number is free, and there is no save yet.
    let _ = session.make(1, Record::constant(0));
    let _ = session.save();
    match edit_until_refused(&mut session, 1000) {
        Ok(()) => println!(rt; "edits in a save: 1000 accepted"),
        Err((accepted, fault)) => {
            print!(rt; "edits in a save: {accepted} accepted, the next ")?;
            refusal(rt, fault.into())
        }
    }
}

fn main(rt: HostRuntime) -> io::Result<()> {
    known_results();
    prices(&rt, "nothing placed", None)?;
    if let Ok(product) = Record::new(4, 0, 1, 2, 0) {
        prices(&rt, "3 is the product of 1 and 2", Some(product))?;
    }
    if let Ok(what) = shift(3) {
        prices(&rt, "3 is 1 shifted by 3", Some(what))?;
    }
    shows_shift(&rt, 31)?;
    shows_shift(&rt, 32)?;
    let mut cells = [FlatCell::Vacant; CELLS];
    shows_edits(&rt, Flat::new(&mut cells))
}
