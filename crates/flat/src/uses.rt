// Uses, found by a scan of all cells.
ghost use Rattle.std.specs.Prelude.{◌≡◌, ℕ, ◌≤◌, length};
ghost use Rattle.ir.specs.Instructions.{plain};
ghost use Rattle.program.specs.Programs.{operands};
ghost use Rattle.program.specs.Uses.{uses, uses_at, uses_by, beyond, least_beyond};
ghost use Rattle.flat.specs.FlatModel.{content, flat_program, one_use};

use crate::cells::FlatCell;
use crate::flat::Flat;
use ir::instruction::Record;

// Whether a use, by its user and then its position, is greater than a pair, where there is one.
fn is_beyond(after: Option<(u32, u8)>, found: (u32, u8)) -> bool
    ensures { result ≡ beyond after found }
{
    after.is_none_or(|pair| pair < found)
}

// The use at one position, if its operand is the number and it is beyond the pair.
fn use_at(x: Option<u32>, n: u32, after: Option<(u32, u8)>, found: (u32, u8)) -> Option<(u32, u8)>
    ensures { result ≡ least_beyond after (one_use x n found) }
{
    (x == Some(n) && is_beyond(after, found)).then_some(found)
}

// The least use by a record that is beyond the pair. Each operand has a position of its own.
fn use_of(what: Record, n: u32, after: Option<(u32, u8)>, user: u32) -> Option<(u32, u8)>
    ensures { result ≡ least_beyond after (uses_at n user 1 (operands (plain what))) }
{
    let [a, b, c] = what.operands();
    let a = use_at(a, n, after, (user, 1));
    let b = use_at(b, n, after, (user, 2));
    let c = use_at(c, n, after, (user, 3));
    a.or(b.or(c))
}

// The least use by a cell that is beyond the pair.
fn use_by(cell: FlatCell, n: u32, after: Option<(u32, u8)>, user: u32) -> Option<(u32, u8)>
    ensures { result ≡ least_beyond after (uses_by n user (content cell)) }
{
    use_of(cell.record()?, n, after, user)
}

// How many of a record's operands are the number. One after another: by `filter` and `count` the check found no proof.
fn count_of(what: Record, n: u32) -> u32
    ensures few { result ≤ 3 }
    ensures count { (u : ℕ) → result ≡ length (uses_at n u 1 (operands (plain what))) }
{
    let [a, b, c] = what.operands();
    u32::from(a == Some(n)) + u32::from(b == Some(n)) + u32::from(c == Some(n))
}

// How many uses a cell has of the number.
fn count_by(cell: FlatCell, n: u32) -> u32
    ensures few { result ≤ 3 }
    ensures count { (u : ℕ) → result ≡ length (uses_by n u (content cell)) }
{
    cell.record().map_or(0, |what| count_of(what, n))
}

impl Flat<'_> {
    // The least use that is greater than a pair, where there is one.
    pub(crate) fn least_use(&self, n: u32, after: Option<(u32, u8)>) -> Option<(u32, u8)>
        ensures { result ≡ least_beyond after (uses (flat_program self.now.cells.now) n) }
    {
        self.cells
            .iter()
            .enumerate()
            .find_map(|(i, cell)| use_by(*cell, n, after, i as u32))
    }

    // How many uses a number has.
    pub(crate) fn count_all(&self, n: u32) -> u32
        ensures { result ≡ length (uses (flat_program self.now.cells.now) n) }
    {
        self.cells.iter().map(|cell| count_by(*cell, n)).sum()
    }
}
