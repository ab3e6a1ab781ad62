// The journal: 512 records, each of which takes one edit back, and a mark in it for each of at most eight saves.
ghost use Rattle.std.specs.Prelude.{◌≡◌, ◌≤◌, true, length};
ghost use Rattle.session.specs.Stack.{stack};
ghost use Rattle.session.specs.Trail.{marked?};

mod methods;

use crate::mark::Mark;
use edits::command::Command;

// Fixed arrays with how much of each is in use: the device has no heap.
#[derive(Drop)]
pub struct Journal {
    entries: [Command; 512],
    len: usize,
    marks: [Mark; 8],
    depth: usize,
    ghost sized: { length entries ≡ 512 },
    ghost few: { len ≤ 512 },
    ghost wide: { length marks ≡ 8 },
    ghost shallow: { depth ≤ 8 },
    ghost marked: { marked? len (stack marks depth) ≡ true },
}
