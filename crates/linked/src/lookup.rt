// What the cells say of one number.
ghost use Rattle.std.specs.Prelude.{◌≡◌, length, Some, None, if◌then◌else◌, nat_lt, slice_index_or};
ghost use Rattle.linked.specs.declared.cells.Body.TheVariants.{Vacant};
ghost use Rattle.linked.specs.LinkedModel.{bodies, tag};
ghost use Rattle.linked.specs.Reading.{node_number};

use crate::cells::{Body, LinkedCell};
use program::state::State;

// The body of a number; past the end, as if it were free.
pub(crate) fn body_at(cells: &[LinkedCell], n: u32) -> Body
    ensures { result ≡ slice_index_or (bodies cells.now) n Vacant }
{
    cells.get(n as usize).map_or(Body::Vacant, |cell| cell.body)
}

// The state of a number, where there is one.
pub(crate) fn state_at(cells: &[LinkedCell], n: u32) -> Option<State>
    ensures { result ≡ if nat_lt n (length cells.now) then Some (tag (slice_index_or (bodies cells.now) n Vacant)) else None }
{
    cells.get(n as usize).map(|cell| cell.body.state())
}

// A node of the order as a number; none for the store's size, which stands for both ends.
pub(crate) fn number_of(cells: &[LinkedCell], node: u32) -> Option<u32>
    ensures { result ≡ node_number (length cells.now) node }
{
    ((node as usize) < cells.len()).then_some(node)
}
