// What every store does, by the program that it means.
ghost use Rattle.std.specs.Prelude.{◌≡◌};
ghost use Rattle.std.specs.Result.{result_map_both};
ghost use Rattle.ir.specs.Instructions.{plain};
ghost use Rattle.program.specs.Programs.{Program, size};
ghost use Rattle.program.specs.Faults.{make_fault, link_fault, placed_fault, unmake_fault, rewrite_fault};
ghost use Rattle.program.specs.Commands.{verdict, after_make, after_link, after_unlink, after_unmake, after_rewrite};
ghost use Rattle.program.specs.Readings.{state_answer, read_answer, first_of, last_of, next_answer, previous_answer, count_answer, use_answer};
ghost use Rattle.program.specs.Proper.{Proper};

use crate::fault::StoreFault;
use crate::state::State;
use ir::instruction::Record;

// A store of one program. Commands answer, and leave the program, as the definitions say; readings leave it as it was.
pub trait Store {
    // The program that the store means.
    ghost program: { Self → Program };

    // Gives a free number a record; it is then loose.
    fn make(&mut self, n: u32, what: Record) -> Result<(), StoreFault>
        ensures answer { result ≡ verdict (make_fault (program self.old) n (plain what)) }
        ensures after { program self.new ≡ after_make (program self.old) n (plain what) };

    // Puts a loose number before a placed anchor, or at the end.
    fn link(&mut self, n: u32, anchor: Option<u32>) -> Result<(), StoreFault>
        ensures answer { result ≡ verdict (link_fault (program self.old) n anchor) }
        ensures after { program self.new ≡ after_link (program self.old) n anchor };

    // Makes a placed number loose.
    fn unlink(&mut self, n: u32) -> Result<(), StoreFault>
        ensures answer { result ≡ verdict (placed_fault (program self.old) n) }
        ensures after { program self.new ≡ after_unlink (program self.old) n };

    // Makes a loose, unused number free.
    fn unmake(&mut self, n: u32) -> Result<(), StoreFault>
        ensures answer { result ≡ verdict (unmake_fault (program self.old) n) }
        ensures after { program self.new ≡ after_unmake (program self.old) n };

    // Gives a number that is not free another record.
    fn rewrite(&mut self, n: u32, what: Record) -> Result<(), StoreFault>
        ensures answer { result ≡ verdict (rewrite_fault (program self.old) n (plain what)) }
        ensures after { program self.new ≡ after_rewrite (program self.old) n (plain what) };

    // How many numbers there are, free ones too.
    fn size(&self) -> u32
        ensures { result ≡ size (program self.now) };

    // Whether a number is free, loose or placed.
    fn state(&self, n: u32) -> Result<State, StoreFault>
        ensures { result ≡ state_answer (program self.now) n };

    // The record of a number that is not free.
    fn read(&self, n: u32) -> Result<Record, StoreFault>
        ensures { result_map_both plain (λ f. f) result ≡ read_answer (program self.now) n };

    // The first and the last number of the order.
    fn first(&self) -> Option<u32>
        ensures { result ≡ first_of (program self.now) };

    fn last(&self) -> Option<u32>
        ensures { result ≡ last_of (program self.now) };

    // The neighbours of a placed number in the order.
    fn next(&self, n: u32) -> Result<Option<u32>, StoreFault>
        ensures { result ≡ next_answer (program self.now) n };

    fn previous(&self, n: u32) -> Result<Option<u32>, StoreFault>
        ensures { result ≡ previous_answer (program self.now) n };

    // How many uses a number that is not free has.
    fn count_uses(&self, n: u32) -> Result<u32, StoreFault>
        ensures { result ≡ count_answer (program self.now) n };

    // The least use, by user and position, that is greater than a given pair, or the least of all.
    fn next_use(&self, n: u32, after: Option<(u32, u8)>) -> Result<Option<(u32, u8)>, StoreFault>
        ensures { result ≡ use_answer (program self.now) n after };

    // The program of every store is proper.
    ghost proper: { (s : Self) → Proper (program s) };
}
