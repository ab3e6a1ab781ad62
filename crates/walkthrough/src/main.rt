// A walk through the bench: an irrigation script is made, placed, listed, priced and run, with one refusal on the way.
#![tactic(auto)]

mod saves;
mod script;
mod show;

use flat::cells::FlatCell;
use flat::flat::Flat;
use program::reading::{next_of, record_at};
use program::store::Store;
use runs::cost::{Delay, Size};
use std::io;

const CELLS: usize = 32;

// Enters the script line by line.
fn enter<S: Store>(rt: &impl Print, store: &mut S) -> io::Result<()> {
    for line in script::LINES {
        let made = script::install(store, line);
        show::step(rt, line.number, line.note, made)?;
    }
    Ok(())
}

fn prices<S: Store>(rt: &impl Print, store: &S) -> io::Result<()> {
    let mut scratch = [0u32; CELLS];
    show::price(
        rt,
        "Size (bytes)",
        runs::pricing::price::<S, Size>(store, &mut scratch),
    )?;
    show::price(
        rt,
        "Delay (ticks)",
        runs::pricing::price::<S, Delay>(store, &mut scratch),
    )
}

fn run<S: Store>(rt: &impl Print, store: &S, title: &str, inputs: &[u32]) -> io::Result<()> {
    println!(rt; "{title}")?;
    let mut scratch = [0u32; CELLS];
    let mut output = [0u32; 2 * CELLS];
    let answer = runs::running::run(store, inputs, &mut scratch, &mut output);
    show::outputs(rt, answer, &output)
}

fn main(rt: HostRuntime) -> io::Result<()> {
    let mut cells = [FlatCell::Vacant; CELLS];
    let mut store = Flat::new(&mut cells);
    println!(rt; "1. Each line of the script is made and placed at the end of the order.")?;
    enter(&rt, &mut store)?;
    println!(rt; "\n2. A number that others read cannot be erased: detach 7, then try.")?;
    show::verdict(&rt, "detach 7", store.unlink(7))?;
    show::verdict(&rt, "erase 7", store.unmake(7))?;
    show::uses(&rt, &store, 7)?;
    show::verdict(&rt, "place 7 before 8", store.link(7, Some(8)))?;
    println!(rt; "\n3. The listing, in order.")?;
    show::listing(&rt, store.first(), |n| {
        Some((record_at(&store, n), next_of(&store, n)))
    })?;
    println!(rt; "\n4. What it costs.")?;
    prices(&rt, &store)?;
    println!(rt;
        "\n5. Two runs. Inputs: 0 soil moisture in percent, 1 rain sensor, 2 minutes asked for."
    )?;
    run(&rt, &store, "Dry soil, no rain, 20 minutes:", &script::DRY)?;
    run(&rt, &store, "Dry soil, rain:", &script::RAIN)?;
    saves::tour(&rt)
}
