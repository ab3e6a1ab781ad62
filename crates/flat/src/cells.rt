// The cells of the flat store.
ghost use Rattle.std.specs.Prelude.{◌≡◌, ℕ, ◌<◌, ◌^◌, true, map, Some, None, slice_index_or};
ghost use Rattle.std.specs.Option.{option_map};
ghost use Rattle.ir.specs.Instructions.{plain};
ghost use Rattle.program.specs.Programs.{busy};
ghost use Rattle.flat.specs.declared.cells.FlatCell.TheVariants.{Vacant};
ghost use Rattle.flat.specs.FlatModel.{Sound, content, rank_of, is_rank, tag, rerank};

use ir::instruction::Record;
use program::state::State;

// A free number is Vacant, a loose one Idle, and a placed one Ranked by its place in the order, from 0.
#[derive(Clone, Copy, PartialEq, Eq)]
pub enum FlatCell {
    Vacant,
    Idle(Record),
    Ranked(Record, u32),
}

impl FlatCell {
    // The state of the cell's number.
    pub(crate) fn state(self) -> State
        ensures { result ≡ tag self }
    {
        match self {
            FlatCell::Vacant => State::Free,
            FlatCell::Idle(_) => State::Loose,
            FlatCell::Ranked(_, _) => State::Placed,
        }
    }

    // The record, if the number is not free.
    pub(crate) fn record(self) -> Option<Record>
        ensures { option_map plain result ≡ content self }
    {
        match self {
            FlatCell::Vacant => None,
            FlatCell::Idle(what) | FlatCell::Ranked(what, _) => Some(what),
        }
    }

    // The rank, if the number is placed.
    pub(crate) fn rank(self) -> Option<u32>
        ensures { result ≡ rank_of self }
    {
        match self {
            FlatCell::Ranked(_, k) => Some(k),
            _ => None,
        }
    }

    // Whether the number is placed at this rank.
    pub(crate) fn has_rank(self, j: u32) -> bool
        ensures { result ≡ is_rank j (rank_of self) }
    {
        self.rank() == Some(j)
    }

    // The cell with its rank, if it has one, changed.
    pub(crate) fn reranked<F: Fn(u32) -> u32>(self, change: &F) -> FlatCell
        requires { (k : ℕ) → rank_of self ≡ Some k → F.pre change.now k }
        ensures { (h : ℕ → ℕ) → ((k r : ℕ) → k < 2 ^ 32 → F.post change.now k r → r ≡ h k) → result ≡ rerank h self }
    {
        match self {
            FlatCell::Ranked(what, k) => FlatCell::Ranked(what, change(k)),
            cell => cell,
        }
    }

    // The cell with its record, if it has one, at a rank.
    pub(crate) fn ranked(self, at: u32) -> FlatCell
        ensures content { content result ≡ content self }
        ensures rank { busy (content self) ≡ true → rank_of result ≡ Some at }
    {
        self.record()
            .map_or(FlatCell::Vacant, |what| FlatCell::Ranked(what, at))
    }

    // The cell with its record, if it has one, at no rank.
    pub(crate) fn unranked(self) -> FlatCell
        ensures content { content result ≡ content self }
        ensures rank { rank_of result ≡ None }
    {
        self.record().map_or(FlatCell::Vacant, FlatCell::Idle)
    }

    // The cell with another record, at the rank that it has.
    pub(crate) fn rewritten(self, what: Record) -> FlatCell
        ensures content { content result ≡ Some (plain what) }
        ensures rank { rank_of result ≡ rank_of self }
    {
        match self {
            FlatCell::Ranked(_, k) => FlatCell::Ranked(what, k),
            _ => FlatCell::Idle(what),
        }
    }
}

// The cell of a number; past the end, as if it were free.
pub(crate) fn cell_at(cells: &[FlatCell], n: u32) -> FlatCell
    ensures { result ≡ slice_index_or cells.now n Vacant }
{
    cells.get(n as usize).copied().unwrap_or(FlatCell::Vacant)
}

// Changes the rank of each placed number. A function over the lent slice, as all that writes cells, so it asks what they keep.
pub(crate) fn rerank<F: Fn(u32) -> u32>(cells: &mut [FlatCell], change: F)
    requires sound { Sound cells.old }
    requires callable { (k : ℕ) → k < 1024 → F.pre change k }
    ensures { (h : ℕ → ℕ) → ((k r : ℕ) → k < 2 ^ 32 → F.post change k r → r ≡ h k) → cells.new ≡ map (rerank h) cells.old }
{
    for cell in cells.iter_mut() {
        *cell = cell.reranked(&change);
    }
}
