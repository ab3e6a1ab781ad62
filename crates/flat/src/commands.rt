// What the five commands do to the cells, once the checks allow it, and the clearing of cells.
// A store's cells are written by functions over the lent slice alone, so what these need of the cells stands in their contracts.
ghost use Rattle.std.specs.Prelude.{◌≡◌, ◌≤◌, length, replicate, None};
ghost use Rattle.std.specs.List.{insert};
ghost use Rattle.ir.specs.Instructions.{plain};
ghost use Rattle.program.specs.Programs.{Busy, In, index_of};
ghost use Rattle.program.specs.Faults.{make_fault, placed_fault, unmake_fault, rewrite_fault};
ghost use Rattle.program.specs.Commands.{reorder, after_make, after_unlink, after_unmake, after_rewrite};
ghost use Rattle.flat.specs.declared.cells.FlatCell.TheVariants.{Vacant};
ghost use Rattle.flat.specs.FlatModel.{Sound, flat_program, order_of};

use crate::cells::{FlatCell, cell_at, rerank};
use ir::instruction::Record;

// Makes every number free, as the model says it: the library's `fill` with a name for what it fills in.
pub(crate) fn clear(cells: &mut [FlatCell])
    ensures { cells.new ≡ replicate (length cells.old) Vacant }
{
    cells.fill(FlatCell::Vacant);
}

// Gives a free number a record; it is then loose.
pub(crate) fn make(cells: &mut [FlatCell], n: u32, what: Record)
    requires sound { Sound cells.old }
    requires allowed { make_fault (flat_program cells.old) n (plain what) ≡ None }
    ensures after { flat_program cells.new ≡ after_make (flat_program cells.old) n (plain what) }
    ensures sound { Sound cells.new }
{
    cells[n as usize] = FlatCell::Idle(what);
}

// Puts a loose number at a place of the order, or at its end.
pub(crate) fn link(cells: &mut [FlatCell], n: u32, at: u32)
    requires sound { Sound cells.old }
    requires busy { Busy (flat_program cells.old) n }
    requires loose { In n (order_of cells.old) → ⊥ }
    requires place { at ≤ length (order_of cells.old) }
    ensures after { flat_program cells.new ≡ reorder (flat_program cells.old) (insert (order_of cells.old) at n) }
    ensures sound { Sound cells.new }
{
    let cell = cell_at(cells, n);
    rerank(cells, |k| if at <= k { k + 1 } else { k });
    cells[n as usize] = cell.ranked(at);
}

// Makes a placed number loose.
pub(crate) fn unlink(cells: &mut [FlatCell], n: u32, at: u32)
    requires sound { Sound cells.old }
    requires allowed { placed_fault (flat_program cells.old) n ≡ None }
    requires place { at ≡ index_of n (order_of cells.old) }
    ensures after { flat_program cells.new ≡ after_unlink (flat_program cells.old) n }
    ensures sound { Sound cells.new }
{
    let cell = cell_at(cells, n);
    rerank(cells, |k| if at < k { k - 1 } else { k });
    cells[n as usize] = cell.unranked();
}

// Makes a loose, unused number free.
pub(crate) fn unmake(cells: &mut [FlatCell], n: u32)
    requires sound { Sound cells.old }
    requires allowed { unmake_fault (flat_program cells.old) n ≡ None }
    ensures after { flat_program cells.new ≡ after_unmake (flat_program cells.old) n }
    ensures sound { Sound cells.new }
{
    cells[n as usize] = FlatCell::Vacant;
}

// Gives a number that is not free another record.
pub(crate) fn rewrite(cells: &mut [FlatCell], n: u32, what: Record)
    requires sound { Sound cells.old }
    requires allowed { rewrite_fault (flat_program cells.old) n (plain what) ≡ None }
    ensures after { flat_program cells.new ≡ after_rewrite (flat_program cells.old) n (plain what) }
    ensures sound { Sound cells.new }
{
    let cell = cell_at(cells, n);
    cells[n as usize] = cell.rewritten(what);
}
