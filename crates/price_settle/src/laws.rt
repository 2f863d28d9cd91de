//! Laws of settlements: each is the contract of a function that does nothing of its own.
ghost use Rattle.price_settle.specs.Laws.{PlanHasAtMostOneSettlement, SettlementsAddUp};
ghost use Rattle.price_settle.specs.Laws.{SettlementsHaveEachUnit};

use uc_model::laws::{
    feasible_plans_have_shape, least_best_schedule_is_unique, payments_are_at_least_zero,
    payments_make_up_the_gap, unit_numbers_go_by_kind,
};

/// A plan has at most one settlement at given prices.
pub fn plan_has_at_most_one_settlement()
    ensures { PlanHasAtMostOneSettlement }
{
    least_best_schedule_is_unique();
}

/// Payments and surplus are the plan's cost less the dual value, and none of them is below 0.
pub fn payments_and_surplus_make_the_gap()
    ensures { SettlementsAddUp }
{
    payments_make_up_the_gap();
    payments_are_at_least_zero();
}

/// A settlement of a feasible plan has a response and each number for each unit.
pub fn settlements_have_each_unit()
    ensures { SettlementsHaveEachUnit }
{
    unit_numbers_go_by_kind();
    feasible_plans_have_shape();
}
