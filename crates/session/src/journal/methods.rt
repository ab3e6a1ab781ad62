// What a session does with its journal.
ghost use Rattle.std.specs.Prelude.{◌≡◌, [], ◌∷◌, length, if◌then◌else◌, is_ok};
ghost use Rattle.edits.specs.Commands.{edit_of};
ghost use Rattle.session.specs.Stack.{top, rest};
ghost use Rattle.session.specs.Trail.{granted, deepened, noted, closable, kept, Popped};
ghost use Rattle.session.specs.Meaning.{trail, marks};

use super::Journal;
use crate::fault::SessionFault;
use crate::mark::Mark;
use edits::command::Command;

impl Journal {
    pub(crate) fn new() -> Journal
        ensures records { trail result ≡ [] }
        ensures saves { marks result ≡ [] }
    {
        Journal {
            entries: [Command::Unlink(0); 512],
            len: 0,
            marks: [Mark { at: 0, held: false }; 8],
            depth: 0,
        }
    }

    // How many saves there are.
    fn depth(&self) -> u32
        ensures { result ≡ length (marks self.now) }
    {
        self.depth as u32
    }

    // Whether there are records for so many edits: without a save none are needed.
    pub(crate) fn check_room(&self, need: u32) -> Result<(), SessionFault>
        ensures { result ≡ granted (marks self.now) (trail self.now) need }
    {
        if self.depth > 0 && 512 - self.len < need as usize {
            return Err(SessionFault::TooFewRecords(need));
        }
        Ok(())
    }

    // Notes what takes an edit back while a save is present.
    pub(crate) fn push(&mut self, back: Command) -> Result<(), SessionFault>
        ensures room { result ≡ granted (marks self.old) (trail self.old) 1 }
        ensures records { trail self.new ≡ noted (marks self.old) (edit_of back) (trail self.old) }
        ensures saves { marks self.new ≡ marks self.old }
    {
        self.check_room(1)?;
        if self.depth == 0 {
            return Ok(());
        }
        self.entries[self.len] = back;
        self.len += 1;
        Ok(())
    }

    // The newest save's mark.
    fn newest(&self) -> Option<Mark>
        ensures { result ≡ top (marks self.now) }
    {
        self.marks[..self.depth].last().copied()
    }

    // Whether the newest save is at the depth and of the kind, two words as the calls have them.
    pub(crate) fn check_newest(&self, depth: u32, held: bool) -> Result<(), SessionFault>
        ensures { result ≡ closable (marks self.now) depth held }
    {
        let mark = self.newest().ok_or(SessionFault::NotNewest(depth))?;
        if depth != self.depth() {
            return Err(SessionFault::NotNewest(depth));
        }
        if mark.held != held {
            return Err(SessionFault::WrongKind(depth));
        }
        Ok(())
    }

    // A save more, marked at the journal's end; there are at most eight.
    pub(crate) fn open(&mut self, held: bool) -> Result<u32, SessionFault>
        ensures depth { result ≡ deepened (marks self.old) }
        ensures saves { marks self.new ≡ (if is_ok result then (record { at = length (trail self.old); held = held } ∷ marks self.old) else marks self.old) }
        ensures records { trail self.new ≡ trail self.old }
    {
        if self.depth >= 8 {
            return Err(SessionFault::TooDeep(self.depth()));
        }
        self.marks[self.depth] = Mark { at: self.len, held };
        self.depth += 1;
        Ok(self.depth())
    }

    // The newest record, taken off if it was noted since the newest save.
    pub(crate) fn pop(&mut self) -> Option<Command>
        ensures records { Popped (marks self.old) (trail self.old) (trail self.new) result }
        ensures saves { marks self.new ≡ marks self.old }
    {
        let mark = self.newest()?;
        if self.len <= mark.at {
            return None;
        }
        self.len -= 1;
        Some(self.entries[self.len])
    }

    // The newest save is gone; once none is left, so are all records.
    pub(crate) fn close(&mut self)
        ensures saves { marks self.new ≡ rest (marks self.old) }
        ensures records { trail self.new ≡ kept (rest (marks self.old)) (trail self.old) }
    {
        self.depth = self.depth.saturating_sub(1);
        if self.depth == 0 {
            self.len = 0;
        }
    }
}
