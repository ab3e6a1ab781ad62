// Why a session refuses.
ghost use Rattle.std.specs.Prelude.{◌≡◌};
ghost use Rattle.session.specs.declared.fault.SessionFault.TheVariants.{Store};
ghost use Rattle.session.specs.Copying.{session_report};

use ir::fault::{Layer, Report};
use program::fault::StoreFault;

#[derive(Clone, Copy, PartialEq, Eq)]
pub enum SessionFault {
    Store(StoreFault),
    // as many saves as there may be: the session's depth
    TooDeep(u32),
    // the depth given, or the token's, is not the newest save's
    NotNewest(u32),
    // the newest save is held and met by depth, or open and met by token
    WrongKind(u32),
    // fewer records left than needed: the need
    TooFewRecords(u32),
}

impl From<StoreFault> for SessionFault {
    ghost from_gives = { λ f r. r ≡ Store f };

    fn from(fault: StoreFault) -> SessionFault {
        SessionFault::Store(fault)
    }
}

// The fault's number, its layer and its place; a store's fault as the store gave it.
impl From<SessionFault> for Report {
    ghost from_gives = { λ f r. r ≡ session_report f };

    fn from(fault: SessionFault) -> Report {
        match fault {
            SessionFault::Store(fault) => fault.into(),
            SessionFault::TooDeep(depth) => Layer::Saves.report(10, depth as usize),
            SessionFault::NotNewest(depth) => Layer::Saves.report(11, depth as usize),
            SessionFault::WrongKind(depth) => Layer::Saves.report(12, depth as usize),
            SessionFault::TooFewRecords(need) => Layer::Saves.report(13, need as usize),
        }
    }
}
