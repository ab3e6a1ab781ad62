// The calls of a session as values.
ghost use Rattle.std.specs.Prelude.{◌≡◌};
ghost use Rattle.session.specs.Calls.{act_of, act_step, zeroed};
ghost use Rattle.session.specs.Meaning.{Called};
ghost use Rattle.session.specs.Tokens.{borne, kept_by};

use crate::fault::SessionFault;
use crate::session::Session;
use crate::token::Token;
use ir::instruction::Record;
use program::store::Store;

// A token call is named by the depth that the token bears.
#[derive(Clone, Copy, PartialEq, Eq)]
pub enum Call {
    Make(u32, Record),
    Place(u32, Option<u32>),
    Detach(u32),
    Erase(u32),
    Rewrite(u32, Record),
    Replace(u32, u32),
    Save,
    Hold,
    Accept(u32),
    Revert(u32),
    AcceptHeld(u32),
    RevertHeld(u32),
}

// The depth of a save or a hold, 0 for any other accepted call; or why the call was refused.
// It is 0 and not an option, since a line of the bench answers 0 where there is no depth.
pub type Reply = Result<u32, SessionFault>;

fn done(answer: Result<(), SessionFault>) -> Reply
    ensures { result ≡ zeroed answer }
{
    answer.map(|()| 0)
}

// The token is taken apart: a list names it by its depth.
fn held(answer: Result<Token, SessionFault>) -> Reply
    ensures { result ≡ borne answer }
{
    answer.map(|Token { depth }| depth)
}

fn spent(answer: Result<(), (SessionFault, Token)>) -> Reply
    ensures { result ≡ zeroed (kept_by answer) }
{
    done(answer.map_err(|(fault, Token { depth: _ })| fault))
}

impl<S: Store, M> Session<S, M> {
    // Makes one call.
    pub fn call(&mut self, call: Call) -> Reply
        ensures { Called S.program (act_step (act_of call)) self.old self.new result }
    {
        match call {
            Call::Make(n, what) => done(self.make(n, what)),
            Call::Place(n, anchor) => done(self.place(n, anchor)),
            Call::Detach(n) => done(self.detach(n)),
            Call::Erase(n) => done(self.erase(n)),
            Call::Rewrite(n, what) => done(self.rewrite(n, what)),
            Call::Replace(n, m) => done(self.replace(n, m)),
            Call::Save => self.save(),
            Call::Hold => held(self.hold()),
            Call::Accept(depth) => done(self.accept(depth)),
            Call::Revert(depth) => done(self.revert(depth)),
            Call::AcceptHeld(depth) => spent(self.accept_held(Token { depth })),
            Call::RevertHeld(depth) => spent(self.revert_held(Token { depth })),
        }
    }
}
