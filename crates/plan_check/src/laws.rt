//! A law of refusals: the contract of a function that does nothing.
ghost use Rattle.uc_model.specs.Laws.{FeasibleExactlyWithoutBrokenRule};

/// A plan with a schedule over the horizon for each unit, where only thermal units are off or give
/// reserve, is feasible exactly where nothing is refused.
pub fn feasible_exactly_without_broken_rule()
    ensures { FeasibleExactlyWithoutBrokenRule }
{}
