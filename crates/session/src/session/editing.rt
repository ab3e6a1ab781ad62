// Edits: each is the store's, and costs a record of the journal while a save is present.
ghost use Rattle.std.specs.Prelude.{◌≡◌};
ghost use Rattle.ir.specs.Instructions.{plain};
ghost use Rattle.edits.specs.Commands.{edit_of, make, link, unlink, unmake, rewrite};
ghost use Rattle.session.specs.Copying.{fresh, edit_step, replace_step};
ghost use Rattle.session.specs.Sweeping.{Ready, swept};
ghost use Rattle.session.specs.Meaning.{meaning, Stepped};

use super::Session;
use crate::fault::SessionFault;
use crate::journal::Journal;
use edits::command::{Command, apply, opposite};
use edits::replacing::{check_replace, swapped};
use ir::instruction::Record;
use program::reading::{first_use, record_at, use_count};
use program::store::Store;

impl<S: Store, M> Session<S, M> {
    // A session with no save, over a store and whatever program it has.
    pub fn new(store: S, cost: M) -> Session<S, M>
        ensures { meaning S.program result ≡ fresh (S.program store) }
    {
        Session {
            store,
            cost,
            journal: Journal::new(),
        }
    }

    // Gives the command to the store and notes what takes it back; with no record left, takes it back at once.
    pub(crate) fn edit(&mut self, command: Command) -> Result<(), SessionFault>
        ensures { Stepped S.program (edit_step (edit_of command)) self.old self.new result }
    {
        let back = opposite(&self.store, command);
        apply(&mut self.store, command)?;
        if let Err(fault) = self.journal.push(back) {
            // The store accepts it: it takes back what was just accepted.
            let _ = apply(&mut self.store, back);
            return Err(fault);
        }
        Ok(())
    }

    // Gives a free number a record; it is then loose.
    pub fn make(&mut self, n: u32, what: Record) -> Result<(), SessionFault>
        ensures { Stepped S.program (edit_step (make n (plain what))) self.old self.new result }
    {
        self.edit(Command::Make(n, what))
    }

    // Puts a loose number before a placed anchor, or at the end.
    pub fn place(&mut self, n: u32, anchor: Option<u32>) -> Result<(), SessionFault>
        ensures { Stepped S.program (edit_step (link n anchor)) self.old self.new result }
    {
        self.edit(Command::Link(n, anchor))
    }

    // Makes a placed number loose.
    pub fn detach(&mut self, n: u32) -> Result<(), SessionFault>
        ensures { Stepped S.program (edit_step (unlink n)) self.old self.new result }
    {
        self.edit(Command::Unlink(n))
    }

    // Makes a loose, unused number free.
    pub fn erase(&mut self, n: u32) -> Result<(), SessionFault>
        ensures { Stepped S.program (edit_step (unmake n)) self.old self.new result }
    {
        self.edit(Command::Unmake(n))
    }

    // Gives a number that is not free another record.
    pub fn rewrite(&mut self, n: u32, what: Record) -> Result<(), SessionFault>
        ensures { Stepped S.program (edit_step (rewrite n (plain what))) self.old self.new result }
    {
        self.edit(Command::Rewrite(n, what))
    }

    // Puts m for n at each use of n, the least first.
    fn swap_uses(&mut self, n: u32, m: u32)
        requires { Ready n m (meaning S.program self.old) }
        ensures { meaning S.program self.new ≡ swept n m (meaning S.program self.old) }
    {
        while let Some((user, position)) = first_use(&self.store, n) {
            let what = swapped(record_at(&self.store, user), position, m);
            // It is accepted: m may stand for n, and there is a record for each use.
            let _ = self.edit(Command::Rewrite(user, what));
        }
    }

    // Puts m for n at every use of n.
    pub fn replace(&mut self, n: u32, m: u32) -> Result<(), SessionFault>
        ensures { Stepped S.program (replace_step n m) self.old self.new result }
    {
        check_replace(&self.store, n, m)?;
        self.journal.check_room(use_count(&self.store, n))?;
        self.swap_uses(n, m);
        Ok(())
    }
}
