// The use lists, read and written node by node. A store's cells are written by functions over the lent slice alone, so what
// must hold of the lists stands in these contracts.
ghost use Rattle.std.specs.Prelude.{◌≡◌, ℕ, ◌+◌, ◌*◌, ◌<◌, ◌≤◌, List, length, slice_index, slice_set};
ghost use Rattle.linked.specs.Paths.{low};
ghost use Rattle.linked.specs.Uses.{spots};
ghost use Rattle.linked.specs.Slots.{seat_of, place, links, entry, Lists, Woven, Open, Held, Changing, OnlyThreads};

use crate::cells::{LinkedCell, Node, Seat};

// The node that follows a node in its list.
pub(crate) fn slot(cells: &[LinkedCell], node: Node) -> Node
    requires { node.number < length cells.now }
    ensures { place result ≡ slice_index (links cells.now) (place node) }
{
    cells[node.number as usize].threads.at(node.seat)
}

// Lets `to` follow a node.
fn set_slot(cells: &mut [LinkedCell], node: Node, to: Node)
    requires { node.number < length cells.old }
    ensures links { links cells.new ≡ slice_set (links cells.old) (place node) (place to) }
    ensures rest { OnlyThreads cells.old cells.new }
{
    let threads = cells[node.number as usize].threads;
    cells[node.number as usize].threads = threads.with(node.seat, to);
}

// The last node before x in v's list, or its head.
pub(crate) fn node_before(cells: &[LinkedCell], v: u32, x: Node) -> Node
    requires v { v < length cells.now }
    requires x { place x ≤ 4 * length cells.now }
    requires woven { Woven cells.now }
    ensures { (qs : List ℕ) → Lists cells.now qs → place result ≡ low (place x) (4 * v) (spots v 0 qs) }
{
    let mut w = Node::head(v);
    let mut next = slot(cells, w);
    while next < x {
        w = next;
        next = slot(cells, w);
    }
    w
}

// A use of v at the node x goes into v's list.
fn thread_in(cells: &mut [LinkedCell], v: u32, x: Node)
    requires { (qs : List ℕ) × Open cells.old qs v (place x) }
    ensures lists { (qs : List ℕ) → Open cells.old qs v (place x) → Lists cells.new (slice_set qs (place x) v) }
    ensures rest { OnlyThreads cells.old cells.new }
{
    let w = node_before(cells, v, x);
    let next = slot(cells, w);
    set_slot(cells, x, next);
    set_slot(cells, w, x);
}

// The use of v at the node x goes out of v's list.
fn thread_out(cells: &mut [LinkedCell], v: u32, x: Node)
    requires { (qs : List ℕ) × Held cells.old qs v (place x) }
    ensures lists { (qs : List ℕ) → Held cells.old qs v (place x) → Lists cells.new (slice_set qs (place x) 4096) }
    ensures rest { OnlyThreads cells.old cells.new }
{
    let w = node_before(cells, v, x);
    let next = slot(cells, x);
    set_slot(cells, w, next);
}

// The operand of n at a seat is no longer `old` but `new`.
pub(crate) fn rethread(
    cells: &mut [LinkedCell],
    n: u32,
    seat: Seat,
    old: Option<u32>,
    new: Option<u32>,
)
    requires { (qs : List ℕ) × Changing cells.old qs (4 * n + seat_of seat) old new }
    ensures lists { (qs : List ℕ) → Changing cells.old qs (4 * n + seat_of seat) old new → Lists cells.new (slice_set qs (4 * n + seat_of seat) (entry new)) }
    ensures rest { OnlyThreads cells.old cells.new }
{
    let x = Node { number: n, seat };
    if let Some(v) = old {
        thread_out(cells, v, x);
    }
    if let Some(v) = new {
        thread_in(cells, v, x);
    }
}
