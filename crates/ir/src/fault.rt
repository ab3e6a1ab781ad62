// How a fault is reported, whichever part of the bench found it.
ghost use Rattle.std.specs.Prelude.{◌≡◌};
ghost use Rattle.ir.specs.Reports.{letter_of_layer};

use std::fmt;

// Who refuses: the reader of a line, the maker of a record, the store, the keeper of saves, or a call that prices or runs the program.
#[derive(Clone, Copy, PartialEq, Eq)]
pub enum Layer {
    Line,
    Record,
    Store,
    Saves,
    Program,
}

impl Layer {
    // The letter by which a refusal names the layer. A method, since what it answers is promised; Display promises nothing.
    pub fn letter(self) -> char
        ensures { result ≡ letter_of_layer self }
    {
        match self {
            Layer::Line => 'L',
            Layer::Record => 'R',
            Layer::Store => 'S',
            Layer::Saves => 'T',
            Layer::Program => 'P',
        }
    }

    // The report of a fault that this layer found.
    pub fn report(self, number: u32, place: usize) -> Report
        ensures { result ≡ record { number = number; layer = self; place = place } }
    {
        Report {
            number,
            layer: self,
            place,
        }
    }
}

// A fault's number, who found it, and where. The numbers are the bench's: a refusal is written with them.
#[derive(Clone, Copy, PartialEq, Eq)]
pub struct Report {
    pub number: u32,
    pub layer: Layer,
    pub place: usize,
}

// The three parts of a refusal, as programs print them.
impl fmt::Display for Report {
    fn fmt<W: fmt::Write>(&self, f: &mut fmt::Formatter<W>) -> fmt::Result {
        write!(
            f,
            "fault {}, layer {}, place {}",
            self.number,
            self.layer.letter(),
            self.place
        )
    }
}
