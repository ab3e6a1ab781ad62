// The store's commands as values.
ghost use Rattle.std.specs.Prelude.{◌≡◌};
ghost use Rattle.program.specs.Commands.{verdict};
ghost use Rattle.edits.specs.Commands.{edit_of, fault_of, after as after_edit, opposite as opposite_of};

use ir::instruction::Record;
use program::fault::StoreFault;
use program::reading::{next_of, record_at};
use program::store::Store;

// A command with its numbers and, where it has one, its record.
#[derive(Clone, Copy, PartialEq, Eq)]
pub enum Command {
    Make(u32, Record),
    Link(u32, Option<u32>),
    Unlink(u32),
    Unmake(u32),
    Rewrite(u32, Record),
}

// Gives the command to a store.
pub fn apply<S: Store>(store: &mut S, command: Command) -> Result<(), StoreFault>
    ensures answer { result ≡ verdict (fault_of (S.program store.old) (edit_of command)) }
    ensures after { S.program store.new ≡ after_edit (S.program store.old) (edit_of command) }
{
    match command {
        Command::Make(n, what) => store.make(n, what),
        Command::Link(n, anchor) => store.link(n, anchor),
        Command::Unlink(n) => store.unlink(n),
        Command::Unmake(n) => store.unmake(n),
        Command::Rewrite(n, what) => store.rewrite(n, what),
    }
}

// What takes a command back, told from the store before it.
pub fn opposite<S: Store>(store: &S, command: Command) -> Command
    ensures { edit_of result ≡ opposite_of (S.program store.now) (edit_of command) }
{
    match command {
        Command::Make(n, _) => Command::Unmake(n),
        Command::Link(n, _) => Command::Unlink(n),
        Command::Unlink(n) => Command::Link(n, next_of(store, n)),
        Command::Unmake(n) => Command::Make(n, record_at(store, n)),
        Command::Rewrite(n, _) => Command::Rewrite(n, record_at(store, n)),
    }
}
