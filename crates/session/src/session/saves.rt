// Saves: opened, held, accepted and reverted.
ghost use Rattle.std.specs.Prelude.{true, false};
ghost use Rattle.session.specs.Copying.{open_step, accept_step, revert_step, answering};
ghost use Rattle.session.specs.Meaning.{Stepped, Rewound};
ghost use Rattle.session.specs.Tokens.{with_token, handed_back};

use super::Session;
use crate::fault::SessionFault;
use crate::token::Token;
use edits::command::apply;
use program::store::Store;

impl<S: Store, M> Session<S, M> {
    // Opens a save of the kind and answers the new depth.
    fn open(&mut self, held: bool) -> Result<u32, SessionFault>
        ensures { Stepped S.program (open_step held) self.old self.new result }
    {
        self.journal.open(held)
    }

    // Opens a save that a depth closes, and answers the new depth.
    pub fn save(&mut self) -> Result<u32, SessionFault>
        ensures { Stepped S.program (open_step false) self.old self.new result }
    {
        self.open(false)
    }

    // Takes back every edit since the newest save, the newest first.
    fn rewind(&mut self)
        ensures { Rewound S.program self.old self.new }
    {
        while let Some(record) = self.journal.pop() {
            // The store accepts it: it takes back the newest edit that still stands.
            let _ = apply(&mut self.store, record);
        }
    }

    // Removes the newest save, if it is at the depth and of the kind, which come as two words, as the calls have them.
    fn close_kept(&mut self, depth: u32, held: bool) -> Result<(), SessionFault>
        ensures { Stepped S.program (accept_step depth held) self.old self.new result }
    {
        self.journal.check_newest(depth, held)?;
        self.journal.close();
        Ok(())
    }

    // The same, and takes back what was done since.
    // It differs from close_kept by the rewind alone; one function for both would need a flag for it.
    fn close_undone(&mut self, depth: u32, held: bool) -> Result<(), SessionFault>
        ensures { Stepped S.program (revert_step depth held) self.old self.new result }
    {
        self.journal.check_newest(depth, held)?;
        self.rewind();
        self.journal.close();
        Ok(())
    }

    // Removes the newest save, which is open and at this depth.
    pub fn accept(&mut self, depth: u32) -> Result<(), SessionFault>
        ensures { Stepped S.program (accept_step depth false) self.old self.new result }
    {
        self.close_kept(depth, false)
    }

    // Removes the newest save, which is open and at this depth, and brings back what it keeps.
    pub fn revert(&mut self, depth: u32) -> Result<(), SessionFault>
        ensures { Stepped S.program (revert_step depth false) self.old self.new result }
    {
        self.close_undone(depth, false)
    }

    // Opens a held save and answers its token.
    pub fn hold(&mut self) -> Result<Token, SessionFault>
        ensures { Stepped S.program (answering with_token (open_step true)) self.old self.new result }
    {
        let depth = self.open(true)?;
        Ok(Token { depth })
    }

    // Removes the newest save, which is held and at the token's depth; a refusal hands the token back.
    pub fn accept_held(&mut self, token: Token) -> Result<(), (SessionFault, Token)>
        ensures { Stepped S.program (answering (handed_back token) (accept_step token.depth true)) self.old self.new result }
    {
        let Token { depth } = token;
        self.close_kept(depth, true)
            .map_err(|fault| (fault, Token { depth }))
    }

    // The same, and brings back what the save keeps.
    pub fn revert_held(&mut self, token: Token) -> Result<(), (SessionFault, Token)>
        ensures { Stepped S.program (answering (handed_back token) (revert_step token.depth true)) self.old self.new result }
    {
        let Token { depth } = token;
        self.close_undone(depth, true)
            .map_err(|fault| (fault, Token { depth }))
    }
}
