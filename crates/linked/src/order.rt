// The order of the linked store, by functions over its cells.
// A store's cells are written by functions over the lent slice alone, so `ends` and what must hold come with the cells.
ghost use Rattle.std.specs.Prelude.{◌≡◌, ◌<◌, ◌≤◌, length, slice_index, slice_index_or, slice_set};
ghost use Rattle.std.specs.List.{insert, remove};
ghost use Rattle.program.specs.Programs.{index_of};
ghost use Rattle.program.specs.Commands.{reorder};
ghost use Rattle.program.specs.declared.state.State.TheVariants.{Loose, Placed as IsPlaced};
ghost use Rattle.linked.specs.declared.cells.Body.TheVariants.{Vacant};
ghost use Rattle.linked.specs.LinkedModel.{bodies, nexts, prevs, threads_of, tag, Linked, Anchor, SameOrder, OnlyLinks, next_in, prev_in, next_out, prev_out, linked_program};

use crate::cells::{Body, LinkedCell, Links};

// The neighbours of a node: those of a number are in its cell, and `ends` those of the store's size.
pub(crate) fn links_at(cells: &[LinkedCell], ends: Links, k: u32) -> Links
    requires { k ≤ length cells.now }
    ensures next { result.next ≡ slice_index (nexts cells.now ends.next) k }
    ensures prev { result.prev ≡ slice_index (prevs cells.now ends.prev) k }
{
    cells.get(k as usize).map_or(ends, |cell| cell.links)
}

// Gives a node other neighbours, and says which those of the store's size then are.
fn set_links(cells: &mut [LinkedCell], ends: Links, k: u32, links: Links) -> Links
    requires { k ≤ length cells.old }
    ensures nexts { nexts cells.new result.next ≡ slice_set (nexts cells.old ends.next) k links.next }
    ensures prevs { prevs cells.new result.prev ≡ slice_set (prevs cells.old ends.prev) k links.prev }
    ensures rest { OnlyLinks cells.old cells.new }
{
    if (k as usize) < cells.len() {
        cells[k as usize].links = links;
        ends
    } else {
        links
    }
}

// Lets b follow a.
fn join(cells: &mut [LinkedCell], ends: Links, a: u32, b: u32) -> Links
    requires a { a ≤ length cells.old }
    requires b { b ≤ length cells.old }
    ensures nexts { nexts cells.new result.next ≡ slice_set (nexts cells.old ends.next) a b }
    ensures prevs { prevs cells.new result.prev ≡ slice_set (prevs cells.old ends.prev) b a }
    ensures rest { OnlyLinks cells.old cells.new }
{
    let ahead = links_at(cells, ends, a);
    let ends = set_links(cells, ends, a, Links { next: b, ..ahead });
    let behind = links_at(cells, ends, b);
    set_links(cells, ends, b, Links { prev: a, ..behind })
}

// Puts n between t and the node before t.
fn splice_in(cells: &mut [LinkedCell], ends: Links, n: u32, t: u32) -> Links
    requires n { n ≤ length cells.old }
    requires t { t ≤ length cells.old }
    requires before { slice_index (prevs cells.old ends.prev) t ≤ length cells.old }
    ensures nexts { nexts cells.new result.next ≡ next_in (nexts cells.old ends.next) (prevs cells.old ends.prev) n t }
    ensures prevs { prevs cells.new result.prev ≡ prev_in (prevs cells.old ends.prev) n t }
    ensures rest { OnlyLinks cells.old cells.new }
{
    let m = links_at(cells, ends, t).prev;
    let ends = join(cells, ends, m, n);
    join(cells, ends, n, t)
}

// Takes n out from between the nodes beside it.
fn splice_out(cells: &mut [LinkedCell], ends: Links, n: u32) -> Links
    requires n { n ≤ length cells.old }
    requires before { slice_index (prevs cells.old ends.prev) n ≤ length cells.old }
    requires after { slice_index (nexts cells.old ends.next) n ≤ length cells.old }
    ensures nexts { nexts cells.new result.next ≡ next_out (nexts cells.old ends.next) (prevs cells.old ends.prev) n }
    ensures prevs { prevs cells.new result.prev ≡ prev_out (nexts cells.old ends.next) (prevs cells.old ends.prev) n }
    ensures rest { OnlyLinks cells.old cells.new }
{
    let Links { next, prev } = links_at(cells, ends, n);
    join(cells, ends, prev, next)
}

// Writes the body of n alone.
pub(crate) fn set_body(cells: &mut [LinkedCell], n: u32, body: Body)
    requires { n < length cells.old }
    ensures order { SameOrder cells.old cells.new }
    ensures bodies { bodies cells.new ≡ slice_set (bodies cells.old) n body }
    ensures threads { threads_of cells.new ≡ threads_of cells.old }
{
    cells[n as usize].body = body;
}

// Puts the loose n before the node t: a placed number, or the size for the end.
pub(crate) fn link_at(cells: &mut [LinkedCell], ends: Links, n: u32, t: u32) -> Links
    requires linked { Linked cells.old ends.next ends.prev }
    requires loose { tag (slice_index_or (bodies cells.old) n Vacant) ≡ Loose }
    requires anchor { Anchor cells.old t }
    ensures linked { Linked cells.new result.next result.prev }
    ensures after { linked_program cells.new result.next ≡ reorder (linked_program cells.old ends.next) (insert (linked_program cells.old ends.next).order (index_of t (linked_program cells.old ends.next).order) n) }
    ensures threads { threads_of cells.new ≡ threads_of cells.old }
{
    let body = cells[n as usize].body.placed();
    set_body(cells, n, body);
    splice_in(cells, ends, n, t)
}

// Takes the placed n out of the order.
pub(crate) fn unlink_at(cells: &mut [LinkedCell], ends: Links, n: u32) -> Links
    requires linked { Linked cells.old ends.next ends.prev }
    requires placed { tag (slice_index_or (bodies cells.old) n Vacant) ≡ IsPlaced }
    ensures linked { Linked cells.new result.next result.prev }
    ensures after { linked_program cells.new result.next ≡ reorder (linked_program cells.old ends.next) (remove (linked_program cells.old ends.next).order (index_of n (linked_program cells.old ends.next).order)) }
    ensures threads { threads_of cells.new ≡ threads_of cells.old }
{
    let body = cells[n as usize].body.loosened();
    set_body(cells, n, body);
    splice_out(cells, ends, n)
}
