// Two routines that work under held saves and give every token its due.
#![tactic(auto)]

ghost use Rattle.std.specs.Prelude.{◌≡◌};
ghost use Rattle.session.specs.Meaning.{meaning};
ghost use Rattle.routines.specs.Held.{Back, ForGood};
ghost use Rattle.routines.specs.declared.Stopped.TheVariants.{NotClosed};

use program::store::Store;
use session::fault::SessionFault;
use session::session::Session;
use session::token::Token;

// Why a routine stopped: it could not hold a save, or it could not close one and hands its token on.
pub enum Stopped {
    NotHeld(SessionFault),
    NotClosed(SessionFault, Token),
}

impl From<(SessionFault, Token)> for Stopped {
    ghost from_gives = { λ x r. r ≡ NotClosed x.0 x.1 };

    fn from((fault, token): (SessionFault, Token)) -> Stopped {
        Stopped::NotClosed(fault, token)
    }
}

// Whether a number could be detached; the session is as it was.
pub fn could_detach<S: Store, M>(session: &mut Session<S, M>, n: u32) -> Result<bool, Stopped>
    ensures { Back n (meaning S.program session.old) (meaning S.program session.new) result }
{
    let token = session.hold().map_err(Stopped::NotHeld)?;
    let could = session.detach(n).is_ok();
    session.revert_held(token)?;
    Ok(could)
}

// Detaches a number for good under a held save, then asks under a second one whether another number could be detached too.
pub fn detach_for_good<S: Store, M>(
    session: &mut Session<S, M>,
    n: u32,
    other: u32,
) -> Result<bool, Stopped>
    ensures { ForGood n other (meaning S.program session.old) (meaning S.program session.new) result }
{
    let token = session.hold().map_err(Stopped::NotHeld)?;
    // Whether it was refused shows in the session, of which the contract speaks.
    let _ = session.detach(n);
    session.accept_held(token)?;
    could_detach(session, other)
}
