//! Laws of convex functions: each is the contract of a function that does nothing.
ghost use Rattle.slope_list.specs.ShapeLaws.{PointIsConvex, CopyIsConvex, LineKeepsConvexity};
ghost use Rattle.slope_list.specs.ShapeLaws.{ReserveKeepsConvexity, CurveKeepsConvexity};
ghost use Rattle.slope_list.specs.ShapeLaws.{WindowKeepsConvexity, StepKeepsConvexity};
ghost use Rattle.slope_list.specs.ShapeLaws.{ConvexityDependsOnValuesAlone, PointIsExact, SumIsExact};
ghost use Rattle.slope_list.specs.ShapeLaws.{CurveSumIsExact, WindowIsExact, SumIsOfValues};
ghost use Rattle.slope_list.specs.ShapeLaws.{CurveSumIsOfValues, WindowIsOfValues};
ghost use Rattle.slope_list.specs.ShapeLaws.{CurvePowersAreWithinLimits};
ghost use Rattle.slope_list.specs.ShapeLaws.{CurveHasValueAtEachPower, PointIsWithinLimits};
ghost use Rattle.slope_list.specs.ShapeLaws.{CopyIsWithinLimits};
ghost use Rattle.slope_list.specs.ShapeLaws.{SumIsWithinLimits, CurveSumIsWithinLimits};
ghost use Rattle.slope_list.specs.ShapeLaws.{WindowIsWithinLimits};

/// Each call's effect keeps convexity, whatever the representation.
pub fn operations_keep_convexity()
    ensures point { PointIsConvex }
    ensures copy { CopyIsConvex }
    ensures line { LineKeepsConvexity }
    ensures reserve { ReserveKeepsConvexity }
    ensures curve { CurveKeepsConvexity }
    ensures window { WindowKeepsConvexity }
{}

/// A step keeps convexity.
pub fn steps_keep_convexity()
    ensures { StepKeepsConvexity }
{}

/// Convexity is said of the look-up alone: at three powers side by side the middle value is no
/// greater than half the sum of the others.
pub fn convexity_depends_on_values_alone()
    ensures { ConvexityDependsOnValuesAlone }
{}

/// Each call's effect fixes the new function at every power.
pub fn operations_fix_every_value()
    ensures point { PointIsExact }
    ensures sum { SumIsExact }
    ensures curve { CurveSumIsExact }
    ensures window { WindowIsExact }
{}

/// Each call's effect is said of the values alone: functions with the same values have it too.
pub fn operations_depend_on_values_alone()
    ensures sum { SumIsOfValues }
    ensures curve { CurveSumIsOfValues }
    ensures window { WindowIsOfValues }
{}

/// A curve within the limits has values at powers within them alone.
pub fn curve_powers_are_within_limits()
    ensures { CurvePowersAreWithinLimits }
{}

/// And it has a value at each power from its first to its last.
pub fn curve_has_value_at_each_power()
    ensures { CurveHasValueAtEachPower }
{}

/// Each call's effect keeps powers and values within the limits, under the call's conditions.
pub fn operations_keep_limits()
    ensures point { PointIsWithinLimits }
    ensures copy { CopyIsWithinLimits }
    ensures sum { SumIsWithinLimits }
    ensures curve { CurveSumIsWithinLimits }
    ensures window { WindowIsWithinLimits }
{}
