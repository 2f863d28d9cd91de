//! Laws over the definitions: each is the contract of a function that does nothing.
ghost use Rattle.test_units.specs.NoEnds.{NoEndIsNoSchedule};

/// Where a complete table has no last on period after which the unit may be off to the end, the
/// unit has no feasible schedule.
pub fn no_end_is_no_schedule()
    ensures { NoEndIsNoSchedule }
{}
