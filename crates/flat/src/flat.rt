// The flat store: each placed number has its rank, and uses are found by a scan.
// The store uses no heap: the caller lends the cells as a slice, and a number is an index into it.
ghost use Rattle.std.specs.Prelude.{◌≡◌, ◌≤◌, min, length};
ghost use Rattle.program.specs.Programs.{new_program};
ghost use Rattle.program.specs.Proper.{Tied};
ghost use Rattle.flat.specs.FlatModel.{Filled, Low, Apart, flat_program};
ghost use Rattle.flat.specs.Keeping.{proper_flat};

use crate::cells::{FlatCell, cell_at};
use crate::commands;
use ir::instruction::Record;
use program::checks;
use program::fault::StoreFault;
use program::look::Look;
use program::state::State;
use program::store::Store;

// The cell at each index is that of the number. The ghost fields hold of every store: its cells are at most 1024,
// its ranks are 0 to one below the count of placed numbers, each once, and no operand is free or the instruction itself.
#[derive(Drop)]
pub struct Flat<'a> {
    pub(crate) cells: &'a mut [FlatCell],
    ghost few: { length cells.now ≤ 1024 },
    ghost filled: { Filled cells.now },
    ghost low: { Low cells.now },
    ghost apart: { Apart cells.now },
    ghost tied: { Tied (flat_program cells.now) },
}

impl<'a> Flat<'a> {
    // A store over the first 1024 cells, or all if there are fewer. Every number is free, whatever the cells held.
    pub fn new(cells: &'a mut [FlatCell]) -> Flat<'a>
        ensures { flat_program result.cells.now ≡ new_program (min (length cells.old) 1024) }
    {
        let n = cells.len().min(1024);
        let part = &mut cells[..n];
        commands::clear(part);
        Flat { cells: part }
    }
}

// What the checks ask of the store.
impl Look for Flat<'_> {
    ghost program = { λ s. flat_program s.cells.now };

    fn find(&self, n: u32) -> Option<State> {
        self.cells.get(n as usize).map(|cell| cell.state())
    }

    fn is_unused(&self, n: u32) -> bool {
        self.least_use(n, None).is_none()
    }
}

impl Store for Flat<'_> {
    ghost program = { λ s. flat_program s.cells.now };

    fn make(&mut self, n: u32, what: Record) -> Result<(), StoreFault> {
        checks::make(self, n, what)?;
        commands::make(self.cells, n, what);
        Ok(())
    }

    fn link(&mut self, n: u32, anchor: Option<u32>) -> Result<(), StoreFault> {
        checks::link(self, n, anchor)?;
        let at = self.place_for(anchor);
        commands::link(self.cells, n, at);
        Ok(())
    }

    fn unlink(&mut self, n: u32) -> Result<(), StoreFault> {
        checks::placed(self, n)?;
        let at = self.place_of(n);
        commands::unlink(self.cells, n, at);
        Ok(())
    }

    fn unmake(&mut self, n: u32) -> Result<(), StoreFault> {
        checks::unmake(self, n)?;
        commands::unmake(self.cells, n);
        Ok(())
    }

    fn rewrite(&mut self, n: u32, what: Record) -> Result<(), StoreFault> {
        checks::rewrite(self, n, what)?;
        commands::rewrite(self.cells, n, what);
        Ok(())
    }

    fn size(&self) -> u32 {
        self.cells.len() as u32
    }

    fn state(&self, n: u32) -> Result<State, StoreFault> {
        checks::state(self, n)
    }

    fn read(&self, n: u32) -> Result<Record, StoreFault> {
        checks::range(self, n)?;
        cell_at(self.cells, n)
            .record()
            .ok_or(StoreFault::WrongState(n))
    }

    fn first(&self) -> Option<u32> {
        self.number_at(0)
    }

    fn last(&self) -> Option<u32> {
        self.number_before(self.count_placed())
    }

    fn next(&self, n: u32) -> Result<Option<u32>, StoreFault> {
        checks::placed(self, n)?;
        Ok(self.number_at(self.place_of(n) + 1))
    }

    fn previous(&self, n: u32) -> Result<Option<u32>, StoreFault> {
        checks::placed(self, n)?;
        Ok(self.number_before(self.place_of(n)))
    }

    fn count_uses(&self, n: u32) -> Result<u32, StoreFault> {
        checks::busy(self, n)?;
        Ok(self.count_all(n))
    }

    fn next_use(&self, n: u32, after: Option<(u32, u8)>) -> Result<Option<(u32, u8)>, StoreFault> {
        checks::busy(self, n)?;
        Ok(self.least_use(n, after))
    }

    ghost proper = { λ s. proper_flat s.cells.now s.few s.filled s.tied };
}
