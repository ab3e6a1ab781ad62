// What the checks ask of a store.
ghost use Rattle.std.specs.Prelude.{◌≡◌};
ghost use Rattle.program.specs.Programs.{Program};
ghost use Rattle.program.specs.Uses.{uses, unused};
ghost use Rattle.program.specs.Readings.{found};

use crate::reading::first_use;
use crate::state::State;
use crate::store::Store;

// A store as its own checks see it. It is a trait apart from `Store`, since a store's commands make the checks, and what
// they call cannot ask for the finished `Store`.
pub trait Look {
    // The program that is looked at.
    ghost program: { Self → Program };

    // The state of a number; none where the store has no such number.
    fn find(&self, n: u32) -> Option<State>
        ensures { result ≡ found (program self.now) n };

    // Whether nothing reads a number.
    fn is_unused(&self, n: u32) -> bool
        ensures { result ≡ unused (uses (program self.now) n) };
}

// Any store as the checks see it, for who asks what a command would be refused for.
pub struct Seen<'a, S> {
    pub store: &'a S,
}

impl<'a, S: Store> Look for Seen<'a, S> {
    ghost program = { λ s. S.program s.store.now };

    fn find(&self, n: u32) -> Option<State> {
        self.store.state(n).ok()
    }

    fn is_unused(&self, n: u32) -> bool {
        first_use(self.store, n).is_none()
    }
}
