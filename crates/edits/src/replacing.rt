// What replace asks and does, use by use.
ghost use Rattle.std.specs.Prelude.{◌≡◌, ◌≤◌};
ghost use Rattle.ir.specs.Instructions.{plain};
ghost use Rattle.ir.specs.Operations.{arity};
ghost use Rattle.program.specs.Programs.{has, operands};
ghost use Rattle.program.specs.Commands.{verdict};
ghost use Rattle.edits.specs.Replace.{replace_fault, swap_at};

use ir::instruction::Record;
use program::checks::ensure;
use program::fault::StoreFault;
use program::reading::record_at;
use program::store::Store;

// Whether the record has the number as an operand.
pub fn reads(what: Record, n: u32) -> bool
    ensures { result ≡ has n (operands (plain what)) }
{
    what.operands().contains(&Some(n))
}

// Whether m may be put for n, or why not.
pub fn check_replace<S: Store>(store: &S, n: u32, m: u32) -> Result<(), StoreFault>
    ensures { result ≡ verdict (replace_fault (S.program store.now) n m) }
{
    let old = store.state(n)?;
    let new = store.state(m)?;
    ensure(!old.is_free(), StoreFault::WrongState(n))?;
    ensure(!new.is_free(), StoreFault::WrongState(m))?;
    let reads_n = reads(record_at(store, m), n);
    ensure(m != n && !reads_n, StoreFault::BadOperand(m))
}

// The record with m as the operand at a position that it has. The position comes as a number: by the project's rule a use is
// a pair of numbers.
pub fn swapped(mut what: Record, position: u8, m: u32) -> Record
    ensures { 1 ≤ position → position ≤ arity what.op → plain result ≡ swap_at position m (plain what) }
{
    let count = what.op.operands();
    match position {
        1 if count >= 1 => what.a = m,
        2 if count >= 2 => what.b = m,
        3 if count >= 3 => what.c = m,
        _ => {}
    }
    what
}
