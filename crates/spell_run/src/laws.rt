//! Laws over the definitions: each is the contract of a function that does nothing.
ghost use Rattle.spell_run.specs.Joins.{RunsMeetingAtPowerContinueAlike, DispatchesMeetingAtPowerContinueAlike};
ghost use Rattle.spell_run.specs.Joins.{DispatchesAreRuns};
ghost use Rattle.spell_run.specs.Laws.{ReserveEarningsHaveAKink, MostReserveIsBest};

/// What the most reserve earns at given powers is a line in the power of the period and a kink in
/// the power before it.
pub fn reserve_earnings_have_a_kink()
    ensures { ReserveEarningsHaveAKink }
{}

/// At given powers the most reserve is best where reserve is paid for, and no other is; where it
/// isn't paid for, none is the least of the best.
pub fn most_reserve_is_best()
    ensures { MostReserveIsBest }
{}

/// A run that ends at the power where another one stands goes on as that one does, at the same
/// cost.
pub fn runs_meeting_at_power_continue_alike()
    ensures { RunsMeetingAtPowerContinueAlike }
{}

/// So does a dispatch, with the stop after it.
pub fn dispatches_meeting_at_power_continue_alike()
    ensures { DispatchesMeetingAtPowerContinueAlike }
{}

/// A dispatch keeps the rules of a run.
pub fn dispatches_are_runs()
    ensures { DispatchesAreRuns }
{}
