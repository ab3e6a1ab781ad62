// Bodies of the linked store, with their operands in the use lists.
ghost use Rattle.std.specs.Prelude.{◌≡◌, ◌<◌, length, slice_set};
ghost use Rattle.linked.specs.LinkedModel.{content, bodies, SameOrder};
ghost use Rattle.linked.specs.Facts.{Listed, Ranged};
ghost use Rattle.linked.specs.Making.{Inside};

use crate::cells::{Body, LinkedCell, Seat};
use crate::lookup::body_at;
use crate::{order, threads};

// Gives n another body: the operands that n has had go out of the use lists, and the new ones go in, each at a seat of its
// own. A store's cells are written by functions over the lent slice alone, so what must hold of them stands here.
pub(crate) fn put(cells: &mut [LinkedCell], n: u32, body: Body)
    requires listed { Listed cells.old }
    requires ranged { Ranged cells.old }
    requires within { n < length cells.old }
    requires inside { Inside (length cells.old) (content body) }
    ensures listed { Listed cells.new }
    ensures order { SameOrder cells.old cells.new }
    ensures bodies { bodies cells.new ≡ slice_set (bodies cells.old) n body }
{
    let [a, b, c] = body_at(cells, n).operands();
    let [x, y, z] = body.operands();
    threads::rethread(cells, n, Seat::A, a, x);
    threads::rethread(cells, n, Seat::B, b, y);
    threads::rethread(cells, n, Seat::C, c, z);
    order::set_body(cells, n, body);
}
