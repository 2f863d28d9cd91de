//! Laws over bounds: each is the contract of a function that does nothing of its own.
ghost use Rattle.law_parts.specs.BoundLaws.{BoundHolds, BoundReachesCentre};
ghost use Rattle.law_parts.specs.BoundLaws.{BestBoundHolds, BestBoundReachesCentre};
ghost use Rattle.law_parts.specs.BoundLaws.{RunBoundsHold, RunPricesAreWithin};
ghost use Rattle.law_parts.specs.BoundLaws.{AnsweredRowsAreWithin};
ghost use Rattle.law_parts.specs.MixtureLaws.{MixtureBoundHolds, MixtureBoundReachesCentre};
ghost use Rattle.law_parts.specs.MixtureLaws.{PaymentsReachLeast};

use uc_model::laws::{
    dual_is_at_most_cost, dual_values_are_within, outputs_are_within, payments_make_up_the_gap,
    power_and_reserve_totals_are_within, units_are_within,
};

/// No whole prices in the box have a dual value above the bound by rows, whatever the weights.
pub fn bound_holds()
    ensures { BoundHolds }
{}

/// The bound round a row is at least that row's value.
pub fn bound_reaches_centre()
    ensures { BoundReachesCentre }
{}

/// The bound of the best range holds.
pub fn best_bound_holds()
    ensures { BestBoundHolds }
{}

/// The bound of the best range is at least the centre's value.
pub fn best_bound_reaches_centre()
    ensures { BestBoundReachesCentre }
{}

/// In a run, the best bound round a row holds, and is at least that row's value.
pub fn run_bounds_hold()
    ensures { RunBoundsHold }
{}

/// In a run, each row's prices are over the horizon and within the limits of prices.
pub fn run_prices_are_within()
    ensures { RunPricesAreWithin }
{}

/// Answered rows are of the sizes that the calls of `gap_proof` ask for.
pub fn answered_rows_are_within()
    ensures { AnsweredRowsAreWithin }
{
    units_are_within();
    outputs_are_within();
    power_and_reserve_totals_are_within();
    dual_values_are_within();
}

/// No whole prices in the box have a dual value above the bound by a mixture, whatever the mixture.
pub fn mixture_bound_holds()
    ensures { MixtureBoundHolds }
{}

/// The bound by a mixture round some prices is at least their dual value.
pub fn mixture_bound_reaches_centre()
    ensures { MixtureBoundReachesCentre }
{}

/// At any prices in the box payments and surplus sum to at least the cost less the bound by a
/// mixture, and to at least 0.
pub fn payments_reach_least()
    ensures { PaymentsReachLeast }
{
    dual_is_at_most_cost();
    payments_make_up_the_gap();
}
