// The order, read from the ranks.
ghost use Rattle.std.specs.Prelude.{◌≡◌, length};
ghost use Rattle.std.specs.List.{slice_get};
ghost use Rattle.program.specs.Programs.{index_of};
ghost use Rattle.program.specs.Commands.{anchor_place};
ghost use Rattle.program.specs.Readings.{prior};
ghost use Rattle.flat.specs.FlatModel.{flat_program, order_of};

use crate::cells::cell_at;
use crate::flat::Flat;

impl Flat<'_> {
    // How many numbers are placed.
    pub(crate) fn count_placed(&self) -> u32
        ensures { result ≡ length (order_of self.now.cells.now) }
    {
        self.cells
            .iter()
            .filter(|cell| cell.rank().is_some())
            .count() as u32
    }

    // The number at a place of the order, if there is one.
    pub(crate) fn number_at(&self, j: u32) -> Option<u32>
        ensures { result ≡ slice_get (order_of self.now.cells.now) j }
    {
        self.cells
            .iter()
            .position(|cell| cell.has_rank(j))
            .map(|i| i as u32)
    }

    // The number before a place of the order, if there is one.
    pub(crate) fn number_before(&self, j: u32) -> Option<u32>
        ensures { result ≡ prior (order_of self.now.cells.now) j }
    {
        self.number_at(j.checked_sub(1)?)
    }

    // The place of a number in the order; one that is not placed counts as past the end.
    pub(crate) fn place_of(&self, n: u32) -> u32
        ensures { result ≡ index_of n (order_of self.now.cells.now) }
    {
        match cell_at(self.cells, n).rank() {
            Some(k) => k,
            None => self.count_placed(),
        }
    }

    // Where a link puts a number: the anchor's place, or the end.
    pub(crate) fn place_for(&self, anchor: Option<u32>) -> u32
        ensures { result ≡ anchor_place (flat_program self.now.cells.now) anchor }
    {
        match anchor {
            Some(a) => self.place_of(a),
            None => self.count_placed(),
        }
    }
}
