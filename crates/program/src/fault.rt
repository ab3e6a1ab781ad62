// Why a store refuses; each fault names the number that is wrong.
ghost use Rattle.std.specs.Prelude.{◌≡◌};
ghost use Rattle.program.specs.Faults.{store_report};

use ir::fault::{Layer, Report};

#[derive(Clone, Copy, PartialEq, Eq)]
pub enum StoreFault {
    OutOfRange(u32),
    WrongState(u32),
    BadOperand(u32),
    StillUsed(u32),
    BadAnchor(u32),
}

impl From<StoreFault> for Report {
    ghost from_gives = { λ f r. r ≡ store_report f };

    fn from(fault: StoreFault) -> Report {
        match fault {
            StoreFault::OutOfRange(n) => Layer::Store.report(4, n as usize),
            StoreFault::WrongState(n) => Layer::Store.report(6, n as usize),
            StoreFault::BadOperand(n) => Layer::Store.report(7, n as usize),
            StoreFault::StillUsed(n) => Layer::Store.report(8, n as usize),
            StoreFault::BadAnchor(n) => Layer::Store.report(9, n as usize),
        }
    }
}
