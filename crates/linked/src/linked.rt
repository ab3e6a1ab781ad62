// The linked store: numbers know their neighbours in the order, and values their uses.
ghost use Rattle.std.specs.Prelude.{◌≡◌, ◌≤◌, min, length, replicate, slice_index_or};
ghost use Rattle.program.specs.Programs.{new_program};
ghost use Rattle.program.specs.Proper.{Tied};
ghost use Rattle.linked.specs.declared.cells.Body.TheVariants.{Vacant};
ghost use Rattle.linked.specs.LinkedModel.{bodies, linked_program};
ghost use Rattle.linked.specs.Facts.{Forward, Backward, Marked, Strung};
ghost use Rattle.linked.specs.Slots.{blank_cell};
ghost use Rattle.linked.specs.States.{proper_linked};

use crate::cells::{BLANK, Body, LinkedCell, Links, MOST_NUMBERS};
use crate::lookup::{body_at, number_of, state_at};
use crate::{order, records};
use ir::instruction::Record;
use program::checks;
use program::fault::StoreFault;
use program::look::Look;
use program::state::State;
use program::store::Store;

// The cell at each index is that of the number, and `ends` are the first number and the last. The ghost fields hold of
// every store: its cells are at most 1024, the links go along the order both ways, exactly the numbers of the order are
// placed, each value's thread goes along its uses, and no operand is free or the instruction itself.
#[derive(Drop)]
pub struct Linked<'a> {
    pub(crate) cells: &'a mut [LinkedCell],
    ends: Links,
    ghost few: { length cells.now ≤ 1024 },
    ghost forward: { Forward cells.now ends.next },
    ghost backward: { Backward cells.now ends.next ends.prev },
    ghost marked: { Marked cells.now ends.next },
    ghost strung: { Strung cells.now },
    ghost tied: { Tied (linked_program cells.now ends.next) },
}

// Makes each cell one of a new store, as the model says it: the library's `fill` with a name for what it fills in.
fn clear(cells: &mut [LinkedCell])
    ensures { cells.new ≡ replicate (length cells.old) blank_cell }
{
    cells.fill(BLANK);
}

impl<'a> Linked<'a> {
    // A store over the first 1024 cells, or all if there are fewer. Every number is free, whatever the cells held.
    pub fn new(cells: &'a mut [LinkedCell]) -> Linked<'a>
        ensures { linked_program result.cells.now result.ends.next ≡ new_program (min (length cells.old) 1024) }
    {
        let n = cells.len().min(MOST_NUMBERS as usize);
        let part = &mut cells[..n];
        clear(part);
        Linked {
            cells: part,
            ends: Links {
                next: n as u32,
                prev: n as u32,
            },
        }
    }

    // The body of a number; past the end, as if it were free.
    fn body(&self, n: u32) -> Body
        ensures { result ≡ slice_index_or (bodies self.now.cells.now) n Vacant }
    {
        body_at(self.cells, n)
    }
}

// What the checks ask of the store.
impl Look for Linked<'_> {
    ghost program = { λ s. linked_program s.cells.now s.ends.next };

    fn find(&self, n: u32) -> Option<State> {
        state_at(self.cells, n)
    }

    fn is_unused(&self, n: u32) -> bool {
        (n as usize) >= self.cells.len() || self.least_use(n, None).is_none()
    }
}

// The commands and the readings.
impl Store for Linked<'_> {
    ghost program = { λ s. linked_program s.cells.now s.ends.next };

    fn make(&mut self, n: u32, what: Record) -> Result<(), StoreFault> {
        checks::make(self, n, what)?;
        records::put(self.cells, n, Body::Idle(what));
        Ok(())
    }

    fn link(&mut self, n: u32, anchor: Option<u32>) -> Result<(), StoreFault> {
        checks::link(self, n, anchor)?;
        let t = anchor.unwrap_or(self.size());
        self.ends = order::link_at(self.cells, self.ends, n, t);
        Ok(())
    }

    fn unlink(&mut self, n: u32) -> Result<(), StoreFault> {
        checks::placed(self, n)?;
        self.ends = order::unlink_at(self.cells, self.ends, n);
        Ok(())
    }

    fn unmake(&mut self, n: u32) -> Result<(), StoreFault> {
        checks::unmake(self, n)?;
        records::put(self.cells, n, Body::Vacant);
        Ok(())
    }

    fn rewrite(&mut self, n: u32, what: Record) -> Result<(), StoreFault> {
        checks::rewrite(self, n, what)?;
        let body = self.body(n).rewritten(what);
        records::put(self.cells, n, body);
        Ok(())
    }

    fn size(&self) -> u32 {
        self.cells.len() as u32
    }

    fn state(&self, n: u32) -> Result<State, StoreFault> {
        checks::state(self, n)
    }

    fn read(&self, n: u32) -> Result<Record, StoreFault> {
        checks::range(self, n)?;
        self.body(n).record().ok_or(StoreFault::WrongState(n))
    }

    fn first(&self) -> Option<u32> {
        number_of(self.cells, self.ends.next)
    }

    fn last(&self) -> Option<u32> {
        number_of(self.cells, self.ends.prev)
    }

    fn next(&self, n: u32) -> Result<Option<u32>, StoreFault> {
        checks::placed(self, n)?;
        let links = order::links_at(self.cells, self.ends, n);
        Ok(number_of(self.cells, links.next))
    }

    fn previous(&self, n: u32) -> Result<Option<u32>, StoreFault> {
        checks::placed(self, n)?;
        let links = order::links_at(self.cells, self.ends, n);
        Ok(number_of(self.cells, links.prev))
    }

    fn count_uses(&self, n: u32) -> Result<u32, StoreFault> {
        checks::busy(self, n)?;
        Ok(self.count_all(n))
    }

    fn next_use(&self, n: u32, after: Option<(u32, u8)>) -> Result<Option<(u32, u8)>, StoreFault> {
        checks::busy(self, n)?;
        Ok(self.least_use(n, after))
    }

    ghost proper = { λ s. proper_linked s.cells.now s.ends.next s.ends.prev s.few s.forward s.backward s.marked s.tied };
}
