// The script: water for so many minutes if the soil is dry and no rain falls.
use ir::fault::Report;
use ir::instruction::Record;
use ir::maker::RecordFault;
use program::fault::StoreFault;
use program::store::Store;

// One instruction to be: its number, the five numbers of its record, and what it is for.
#[derive(Clone, Copy)]
pub struct Line {
    pub number: u32,
    pub code: u32,
    pub literal: u32,
    pub a: u32,
    pub b: u32,
    pub c: u32,
    pub note: &'static str,
}

pub const LINES: [Line; 13] = [
    Line {
        number: 1,
        code: 1,
        literal: 0,
        a: 0,
        b: 0,
        c: 0,
        note: "soil moisture",
    },
    Line {
        number: 2,
        code: 0,
        literal: 40,
        a: 0,
        b: 0,
        c: 0,
        note: "dry is below this",
    },
    Line {
        number: 3,
        code: 8,
        literal: 0,
        a: 1,
        b: 2,
        c: 0,
        note: "dry",
    },
    Line {
        number: 4,
        code: 1,
        literal: 1,
        a: 0,
        b: 0,
        c: 0,
        note: "rain sensor",
    },
    Line {
        number: 5,
        code: 0,
        literal: 0,
        a: 0,
        b: 0,
        c: 0,
        note: "zero",
    },
    Line {
        number: 6,
        code: 9,
        literal: 0,
        a: 4,
        b: 5,
        c: 0,
        note: "no rain",
    },
    Line {
        number: 7,
        code: 5,
        literal: 0,
        a: 3,
        b: 6,
        c: 0,
        note: "dry and no rain",
    },
    Line {
        number: 8,
        code: 1,
        literal: 2,
        a: 0,
        b: 0,
        c: 0,
        note: "minutes asked for",
    },
    Line {
        number: 9,
        code: 10,
        literal: 0,
        a: 7,
        b: 8,
        c: 5,
        note: "minutes, or none",
    },
    Line {
        number: 10,
        code: 0,
        literal: 60,
        a: 0,
        b: 0,
        c: 0,
        note: "seconds in a minute",
    },
    Line {
        number: 11,
        code: 4,
        literal: 0,
        a: 9,
        b: 10,
        c: 0,
        note: "seconds",
    },
    Line {
        number: 12,
        code: 12,
        literal: 3,
        a: 11,
        b: 0,
        c: 0,
        note: "valve 3 opens for so many seconds",
    },
    Line {
        number: 13,
        code: 12,
        literal: 0,
        a: 7,
        b: 0,
        c: 0,
        note: "lamp 0 shows whether it waters",
    },
];

pub const DRY: [u32; 16] = [22, 0, 20, 0, 0, 0, 0, 0, 0, 0, 0, 0, 0, 0, 0, 0];

pub const RAIN: [u32; 16] = [22, 1, 20, 0, 0, 0, 0, 0, 0, 0, 0, 0, 0, 0, 0, 0];

// Why a line does not go in.
#[derive(Clone, Copy, PartialEq, Eq)]
pub enum LineFault {
    Record(RecordFault),
    Store(StoreFault),
}

impl From<LineFault> for Report {
    fn from(fault: LineFault) -> Report {
        match fault {
            LineFault::Record(fault) => fault.into(),
            LineFault::Store(fault) => fault.into(),
        }
    }
}

impl From<RecordFault> for LineFault {
    fn from(fault: RecordFault) -> LineFault {
        LineFault::Record(fault)
    }
}

impl From<StoreFault> for LineFault {
    fn from(fault: StoreFault) -> LineFault {
        LineFault::Store(fault)
    }
}

// Makes the instruction of a line, and places it at the end.
pub fn install<S: Store>(store: &mut S, line: Line) -> Result<Record, LineFault> {
    let what = Record::new(line.code, line.literal, line.a, line.b, line.c)?;
    store.make(line.number, what)?;
    store.link(line.number, None)?;
    Ok(what)
}
