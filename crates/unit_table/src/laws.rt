//! Laws over the definitions: each is the contract of a function that does nothing.
ghost use Rattle.unit_table.specs.Laws.{CappedRowsAreRows, LimitsAreAboveTheAmount};
ghost use Rattle.unit_table.specs.Laws.{StartsAreWithinLimits, StopsAtOnceCostNothing};

/// What limits say: a row within its limit is kept as it is, no limit is below the amount, and a
/// spell that is within its limit starts after an end that is within its own.
pub fn rows_within_cost_limits_are_kept()
    ensures rows { CappedRowsAreRows }
    ensures amount { LimitsAreAboveTheAmount }
    ensures starts { StartsAreWithinLimits }
{}

/// A spell that goes on from before the horizon and ends there costs nothing where the unit may
/// stop at once, and isn't there otherwise.
pub fn stops_at_once_cost_nothing()
    ensures { StopsAtOnceCostNothing }
{}
