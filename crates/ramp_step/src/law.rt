//! Laws of breakpoints: each is the contract of a function that does nothing.
ghost use Rattle.ramp_step.specs.Breakpoints.{BreakpointsAreShapes, ShapesAreBreakpoints};
ghost use Rattle.ramp_step.specs.Laws.{WindowMovesParts, WindowMovesKnots, OneKnotIsPoint};
ghost use Rattle.ramp_step.specs.Laws.{SameKnotsAreSame, RunsStandBetween, TurnIsLeast};
ghost use Rattle.ramp_step.specs.Laws.{NearestIsLeast};

/// Of a convex function on a whole interval the window moves the falling part by `-down` and the
/// rising part by `up`, with the flat part between. So do knots that are moved in that way.
pub fn window_moves_parts()
    ensures function { WindowMovesParts }
    ensures knots { WindowMovesKnots }
{}

/// Knots stand for a convex function with whole values exactly where their powers rise, the slopes
/// between neighbours are whole, and no slope is below the one before it.
pub fn breakpoints_are_shapes()
    ensures shapes { BreakpointsAreShapes }
    ensures breakpoints { ShapesAreBreakpoints }
{}

/// One knot within the limits is a shape of one power. Lists that begin with the same knots stand
/// for the same function, and knots of a list one after another stand for it between their ends.
pub fn knots_decide()
    ensures point { OneKnotIsPoint }
    ensures same { SameKnotsAreSame }
    ensures runs { RunsStandBetween }
{}

/// The first height that the next one isn't below is the least value, at its least power; the least
/// value of the powers from `lo` to `hi` is at the one nearest to it.
pub fn turn_is_least()
    ensures least { TurnIsLeast }
    ensures nearest { NearestIsLeast }
{}
