// What is kept of a save: how many records the journal had, and whether the save is held.
// The kind is a bool: there are two kinds, and whether a save is held is what every clause asks.
#[derive(Clone, Copy, PartialEq, Eq)]
pub struct Mark {
    pub at: usize,
    pub held: bool,
}
