//! The bound on cells.
ghost use Rattle.point_list.specs.Shown.{count_of, shown};
ghost use Rattle.test_shapes.specs.Chain.{IsWithinCharge, CellsAreBounded};
ghost use Rattle.test_shapes.specs.declared.Heap.{Heap};

use crate::breaks::Breaks;
use test_shapes::laws;

/// After `t` steps of one curve of a unit with L cost points, one kink and one window each, a shape
/// of breakpoints that began as a point has at most `1 + t * (2L + 3)` cells.
pub fn cells_are_bounded()
    ensures { CellsAreBounded (λ (_ : Heap) s. shown s) (IsWithinCharge count_of) count_of }
{
    laws::cells_are_bounded::<Breaks>();
}
