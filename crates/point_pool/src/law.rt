//! The bound on cells.
ghost use Rattle.std.specs.Prelude.{true};
ghost use Rattle.point_pool.specs.Seen.{shown};
ghost use Rattle.test_shapes.specs.Chain.{IsBalanced, CellsAreBounded};

use crate::pooled::Pooled;
use test_shapes::laws;

/// After `t` steps of one curve of a unit with L cost points, one kink and one window each, a shape
/// of breakpoints that began as a point has at most `1 + t * (2L + 3)` cells.
pub fn cells_are_bounded()
    ensures { CellsAreBounded shown (IsBalanced (λ s. s.count) true (λ pool. pool.spare))
        (λ s. s.count) }
{
    laws::counted_cells_are_bounded::<Pooled>();
}
