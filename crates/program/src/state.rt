// Whether a number has an instruction, and whether that stands in the program's order.
ghost use Rattle.std.specs.Prelude.{◌≡◌};
ghost use Rattle.program.specs.Programs.{is_free, is_loose, is_placed};

#[derive(Clone, Copy, PartialEq, Eq)]
pub enum State {
    Free,
    Loose,
    Placed,
}

// By `matches!`: one state is asked for here, and a set of them reads the same.
impl State {
    pub fn is_free(self) -> bool
        ensures { result ≡ is_free self }
    {
        matches!(self, State::Free)
    }

    pub fn is_loose(self) -> bool
        ensures { result ≡ is_loose self }
    {
        matches!(self, State::Loose)
    }

    pub fn is_placed(self) -> bool
        ensures { result ≡ is_placed self }
    {
        matches!(self, State::Placed)
    }
}
