// Readings of the use lists: methods of the store, since they rest on what holds of every store.
ghost use Rattle.std.specs.Prelude.{◌≡◌, ◌+◌, ◌*◌, ◌<◌, map, length, slice_index, slice_index_or};
ghost use Rattle.program.specs.Uses.{uses_from, least_beyond};
ghost use Rattle.linked.specs.LinkedModel.{content, bodies};
ghost use Rattle.linked.specs.Paths.{low};
ghost use Rattle.linked.specs.Uses.{spots};
ghost use Rattle.linked.specs.Slots.{seat_of, place, links, entry};
ghost use Rattle.linked.specs.Facts.{table_in};
ghost use Rattle.linked.specs.Reading.{decode, Cut};

use crate::cells::{LinkedCell, Node, Seat};
use crate::linked::Linked;
use crate::threads;

// The value read at a node.
fn read_at(cells: &[LinkedCell], node: Node) -> Option<u32>
    requires { node.number < length cells.now }
    ensures { entry result ≡ slice_index_or (table_in cells.now) (place node) 4096 }
{
    let [a, b, c] = cells[node.number as usize].body.operands();
    match node.seat {
        Seat::Head => None,
        Seat::A => a,
        Seat::B => b,
        Seat::C => c,
    }
}

// The use that follows a node.
fn use_after(cells: &[LinkedCell], node: Node) -> Option<(u32, u8)>
    requires { node.number < length cells.now }
    ensures { result ≡ decode (slice_index (links cells.now) (place node)) }
{
    threads::slot(cells, node)
        .found()
        .map(|next| (next.number, next.seat.position()))
}

// The node right behind x among all nodes, in any list.
fn behind(x: Node) -> Node
    requires { x.number < 1024 }
    ensures { place result ≡ place x + 1 }
{
    match x.seat {
        Seat::Head => Node { seat: Seat::A, ..x },
        Seat::A => Node { seat: Seat::B, ..x },
        Seat::B => Node { seat: Seat::C, ..x },
        Seat::C => Node::head(x.number + 1),
    }
}

// The seat of a position; the last for any beyond it.
// By the project's rule a use is a pair of numbers, user and position, so a position comes as a number.
fn seat_at(position: u8) -> Seat
    ensures { Cut position (seat_of result) }
{
    match position {
        0 => Seat::Head,
        1 => Seat::A,
        2 => Seat::B,
        _ => Seat::C,
    }
}

impl<'a> Linked<'a> {
    // The node of v's list that the uses beyond x follow.
    fn node_at(&self, v: u32, x: Node) -> Node
        requires v { v < length self.now.cells.now }
        requires x { x.number < length self.now.cells.now }
        ensures { place result ≡ low (place x + 1) (4 * v) (spots v 0 (table_in self.now.cells.now)) }
    {
        if read_at(self.cells, x) == Some(v) {
            return x;
        }
        threads::node_before(self.cells, v, behind(x))
    }

    // The least use of v beyond a pair, or the least of all. It takes one step where the pair is a use of v.
    pub(crate) fn least_use(&self, v: u32, after: Option<(u32, u8)>) -> Option<(u32, u8)>
        requires { v < length self.now.cells.now }
        ensures { result ≡ least_beyond after (uses_from v 0 (map content (bodies self.now.cells.now))) }
    {
        match after {
            None => use_after(self.cells, Node::head(v)),
            Some((user, position)) => {
                if (user as usize) >= self.cells.len() {
                    return None;
                }
                let seat = seat_at(position);
                let w = self.node_at(v, Node { number: user, seat });
                use_after(self.cells, w)
            }
        }
    }

    // How many uses v has, by a walk of its list: the one place that walks to its end, so the walk is no iterator of its own.
    pub(crate) fn count_all(&self, v: u32) -> u32
        requires { v < length self.now.cells.now }
        ensures { result ≡ length (uses_from v 0 (map content (bodies self.now.cells.now))) }
    {
        let mut count: u32 = 0;
        let mut node = Node::head(v);
        while let Some(next) = threads::slot(self.cells, node).found() {
            count += 1;
            node = next;
        }
        count
    }
}
