// Readings of any store that cannot be refused, for walks along the order.
ghost use Rattle.std.specs.Prelude.{◌≡◌, length, None};
ghost use Rattle.ir.specs.Instructions.{plain};
ghost use Rattle.program.specs.Programs.{at};
ghost use Rattle.program.specs.Uses.{uses, least_beyond};
ghost use Rattle.program.specs.Readings.{next_of};

use crate::store::Store;
use ir::instruction::Record;

// The record of a number; of a free one, the constant 0.
pub fn record_at<S: Store>(store: &S, n: u32) -> Record
    ensures { plain result ≡ at (S.program store.now) n }
{
    store.read(n).unwrap_or(Record::constant(0))
}

// The number behind a placed one; none behind a number that is not placed.
pub fn next_of<S: Store>(store: &S, n: u32) -> Option<u32>
    ensures { result ≡ next_of (S.program store.now) n }
{
    store.next(n).unwrap_or(None)
}

// The least use of a number; of a free one, none.
pub fn first_use<S: Store>(store: &S, n: u32) -> Option<(u32, u8)>
    ensures { result ≡ least_beyond None (uses (S.program store.now) n) }
{
    store.next_use(n, None).unwrap_or(None)
}

// How many uses a number has; a free one, none.
pub fn use_count<S: Store>(store: &S, n: u32) -> u32
    ensures { result ≡ length (uses (S.program store.now) n) }
{
    store.count_uses(n).unwrap_or(0)
}
