// Why a program is not priced or run.
ghost use Rattle.std.specs.Prelude.{◌≡◌};
ghost use Rattle.runs.specs.Answers.{run_report};

use ir::fault::{Layer, Report};

#[derive(Clone, Copy, PartialEq, Eq)]
pub enum RunFault {
    // the words needed
    ScratchTooShort(u32),
    // the first placed instruction with an operand that is not placed before it
    IllFormed(u32),
    // how many inputs there were
    InputCount(usize),
    // the words needed
    OutputTooShort(u32),
}

impl From<RunFault> for Report {
    ghost from_gives = { λ f r. r ≡ run_report f };

    fn from(fault: RunFault) -> Report {
        match fault {
            RunFault::ScratchTooShort(words) => Layer::Program.report(14, words as usize),
            RunFault::IllFormed(n) => Layer::Program.report(15, n as usize),
            RunFault::InputCount(count) => Layer::Program.report(16, count),
            RunFault::OutputTooShort(words) => Layer::Program.report(17, words as usize),
        }
    }
}
