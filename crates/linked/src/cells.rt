// A cell of the linked store.
ghost use Rattle.std.specs.Prelude.{◌≡◌, ◌*◌, nat_lt, if◌then◌else◌, Some, None};
ghost use Rattle.linked.specs.LinkedModel.{content, record_of, tag, place_body, loosen_body};
ghost use Rattle.linked.specs.Making.{body_with};
ghost use Rattle.linked.specs.Slots.{seat_of, place, slot_of, with_slot};
ghost use Rattle.linked.specs.Reading.{slots_of};

use ir::instruction::Record;
use program::state::State;

// A store has at most so many numbers.
pub const MOST_NUMBERS: u32 = 1024;

// A free number is Vacant, a loose one Idle. It is no type of the flat store's too: a cell there holds a rank, by which its
// model goes.
#[derive(Clone, Copy, PartialEq, Eq)]
pub enum Body {
    Vacant,
    Idle(Record),
    Placed(Record),
}

impl Body {
    // The state of the body's number.
    pub(crate) fn state(self) -> State
        ensures { result ≡ tag self }
    {
        match self {
            Body::Vacant => State::Free,
            Body::Idle(_) => State::Loose,
            Body::Placed(_) => State::Placed,
        }
    }

    // The record of a number that is not free.
    pub(crate) fn record(self) -> Option<Record>
        ensures { result ≡ record_of self }
    {
        match self {
            Body::Vacant => None,
            Body::Idle(what) | Body::Placed(what) => Some(what),
        }
    }

    // The operand at each position; a free number has none.
    pub(crate) fn operands(self) -> [Option<u32>; 3]
        ensures { result ≡ slots_of (content self) }
    {
        self.record().map_or([None; 3], Record::operands)
    }

    // The body with another record; a free number stays free.
    pub(crate) fn rewritten(self, what: Record) -> Body
        ensures { result ≡ body_with self what }
    {
        match self {
            Body::Vacant => Body::Vacant,
            Body::Idle(_) => Body::Idle(what),
            Body::Placed(_) => Body::Placed(what),
        }
    }

    // The body as a link leaves it.
    pub(crate) fn placed(self) -> Body
        ensures { result ≡ place_body self }
    {
        self.record().map_or(Body::Vacant, Body::Placed)
    }

    // The body as an unlink leaves it.
    pub(crate) fn loosened(self) -> Body
        ensures { result ≡ loosen_body self }
    {
        self.record().map_or(Body::Vacant, Body::Idle)
    }
}

// Where use lists pass through a cell: the head of its number's list, or one of its operands.
#[derive(Clone, Copy, PartialEq, Eq, PartialOrd, Ord)]
pub enum Seat {
    Head,
    A,
    B,
    C,
}

impl Seat {
    // 0 for the head, and the operand's position from 1.
    pub(crate) fn position(self) -> u8
        ensures { result ≡ seat_of self }
    {
        self as u8
    }
}

// A node of a use list. Lists ascend by number, then by seat.
#[derive(Clone, Copy, PartialEq, Eq, PartialOrd, Ord)]
pub struct Node {
    pub number: u32,
    pub seat: Seat,
}

impl Node {
    // The head of a number's list.
    pub(crate) fn head(number: u32) -> Node
        ensures { place result ≡ 4 * number }
    {
        Node {
            number,
            seat: Seat::Head,
        }
    }

    // The node, unless it is what follows the last use of a list.
    pub(crate) fn found(self) -> Option<Node>
        ensures { result ≡ if nat_lt self.number 1024 then Some self else None }
    {
        (self.number < MOST_NUMBERS).then_some(self)
    }
}

// What follows the last use of a list: it is greater than every node, so one comparison ends a walk.
pub const NO_USE: Node = Node {
    number: MOST_NUMBERS,
    seat: Seat::Head,
};

// The first use of the cell's number; and for each operand the use that follows this one among the uses of its value.
// Four fields by name and no array: a seat would have to be shown to be below four wherever one is read.
#[derive(Clone, Copy, PartialEq, Eq)]
pub struct Threads {
    pub head: Node,
    pub a: Node,
    pub b: Node,
    pub c: Node,
}

impl Threads {
    // What follows the node at a seat.
    pub(crate) fn at(self, seat: Seat) -> Node
        ensures { result ≡ slot_of self seat }
    {
        match seat {
            Seat::Head => self.head,
            Seat::A => self.a,
            Seat::B => self.b,
            Seat::C => self.c,
        }
    }

    // The threads with another node after the one at a seat.
    pub(crate) fn with(self, seat: Seat, to: Node) -> Threads
        ensures { result ≡ with_slot self seat to }
    {
        match seat {
            Seat::Head => Threads { head: to, ..self },
            Seat::A => Threads { a: to, ..self },
            Seat::B => Threads { b: to, ..self },
            Seat::C => Threads { c: to, ..self },
        }
    }
}

// The neighbours in the order: numbers, or the size of the store at either end. The order is a ring through the size,
// whose neighbours are the first number and the last, so neither end is a case of its own.
#[derive(Clone, Copy, PartialEq, Eq)]
pub struct Links {
    pub next: u32,
    pub prev: u32,
}

// `links` are those of a placed number.
// Neighbours and uses are numbers, indices of cells: the memory is lent and there is no heap, so nothing points to a cell.
#[derive(Clone, Copy, PartialEq, Eq)]
pub struct LinkedCell {
    pub body: Body,
    pub links: Links,
    pub threads: Threads,
}

// To fill memory with before it is lent; a new store overwrites it.
pub const BLANK: LinkedCell = LinkedCell {
    body: Body::Vacant,
    links: Links { next: 0, prev: 0 },
    threads: Threads {
        head: NO_USE,
        a: NO_USE,
        b: NO_USE,
        c: NO_USE,
    },
};
