//! Laws of shapes: each is the contract of a function that does nothing.
ghost use Rattle.std.specs.Prelude.{◌≡◌, true};
ghost use Rattle.test_shapes.specs.Chain.{IsWithinCharge, IsBalanced, CellsAreCharged};
ghost use Rattle.test_shapes.specs.Chain.{CellsAreBounded};
ghost use Rattle.test_shapes.specs.Laws.{OthersStay, FramesJoin, EndedShapesLeaveNothing};

use crate::Shape;

/// A call on one shape leaves every shape that is apart from it with its function and its cells,
/// still in the home and still apart.
pub fn others_stay<S: Shape>()
    ensures { OthersStay S.Home.cell_list S.is_in S.numbers S.function }
{}

/// Two calls on one shape leave of the other shapes what one call does.
pub fn frames_join<S: Shape>()
    ensures { FramesJoin S.Home.cell_list S.is_in S.numbers S.function }
{}

/// Calls on shapes that came and went, and then a call on a shape that was there before, leave of
/// the other shapes what that call does.
pub fn ended_shapes_leave_nothing<S: Shape>()
    ensures { EndedShapesLeaveNothing S.Home.cell_list S.is_in S.numbers S.function }
{}

/// Calls on one shape in its home, one after another, take at most their charges. So a shape that
/// began as a point has at most `1 + t * (2L + 3)` cells after calls in any order of which at most
/// `t` add a curve of a unit with L cost points, `t` a kink and `t` take a window. Lines take none.
pub fn cells_are_bounded<S: Shape>()
    ensures charged { CellsAreCharged S.function (IsWithinCharge S.cells) S.cells }
    ensures bounded { CellsAreBounded S.function (IsWithinCharge S.cells) S.cells }
{}

/// In a home that counts, what each call says of its balance suffices for that.
pub fn counted_cells_are_bounded<S: Shape>()
    ensures charged { S.Home.counts ≡ true
        → CellsAreCharged S.function (IsBalanced S.cells S.Home.counts S.Home.sure) S.cells }
    ensures bounded { S.Home.counts ≡ true
        → CellsAreBounded S.function (IsBalanced S.cells S.Home.counts S.Home.sure) S.cells }
{}
