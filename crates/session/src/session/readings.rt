// Readings of the session's program. None of them changes anything.
// By the project's rule a session's readings take the session for writing (`&mut self`) and promise that nothing changed.
ghost use Rattle.ir.specs.Instructions.{plain};
ghost use Rattle.std.specs.Result.{result_map_both};
ghost use Rattle.program.specs.Programs.{size};
ghost use Rattle.program.specs.Readings.{state_answer, read_answer, first_of, last_of, next_answer, previous_answer, count_answer, use_answer};
ghost use Rattle.session.specs.Meaning.{Read};

use super::Session;
use ir::instruction::Record;
use program::fault::StoreFault;
use program::state::State;
use program::store::Store;

impl<S: Store, M> Session<S, M> {
    // How many numbers there are, free ones too.
    pub fn size(&mut self) -> u32
        ensures { Read S.program size self.old self.new result }
    {
        self.store.size()
    }

    pub fn state(&mut self, n: u32) -> Result<State, StoreFault>
        ensures { Read S.program (λ p. state_answer p n) self.old self.new result }
    {
        self.store.state(n)
    }

    // The record of a number that is not free.
    pub fn read(&mut self, n: u32) -> Result<Record, StoreFault>
        ensures { Read S.program (λ p. read_answer p n) self.old self.new (result_map_both plain (λ f. f) result) }
    {
        self.store.read(n)
    }

    // The first and the last number of the order.
    pub fn first(&mut self) -> Option<u32>
        ensures { Read S.program first_of self.old self.new result }
    {
        self.store.first()
    }

    pub fn last(&mut self) -> Option<u32>
        ensures { Read S.program last_of self.old self.new result }
    {
        self.store.last()
    }

    // The neighbours of a placed number in the order.
    pub fn next(&mut self, n: u32) -> Result<Option<u32>, StoreFault>
        ensures { Read S.program (λ p. next_answer p n) self.old self.new result }
    {
        self.store.next(n)
    }

    pub fn previous(&mut self, n: u32) -> Result<Option<u32>, StoreFault>
        ensures { Read S.program (λ p. previous_answer p n) self.old self.new result }
    {
        self.store.previous(n)
    }

    // How many uses a number that is not free has.
    pub fn count_uses(&mut self, n: u32) -> Result<u32, StoreFault>
        ensures { Read S.program (λ p. count_answer p n) self.old self.new result }
    {
        self.store.count_uses(n)
    }

    // The least use that is greater than a given pair, or the least of all.
    pub fn next_use(
        &mut self,
        n: u32,
        after: Option<(u32, u8)>,
    ) -> Result<Option<(u32, u8)>, StoreFault>
        ensures { Read S.program (λ p. use_answer p n after) self.old self.new result }
    {
        self.store.next_use(n, after)
    }
}
