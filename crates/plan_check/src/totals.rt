//! Sums of powers and reserves over schedules.
ghost use Rattle.std.specs.Prelude.{◌≡◌, ◌≤◌, ◌<◌, ◌+◌, suc, pos, neg_ℤ, ◌+ℤ◌, length, map};
ghost use Rattle.std.specs.List.{All};
ghost use Rattle.uc_model.specs.declared.units.Response.{Response};
ghost use Rattle.uc_model.specs.Data.{units};
ghost use Rattle.uc_model.specs.Laws.{HasPlanShape};
ghost use Rattle.plain_lists.specs.Ranges.{IsFrom};
ghost use Rattle.uc_model.specs.Limits.{IsPower};
ghost use Rattle.uc_model.specs.PlainCases.{market_of, schedules_of};
ghost use Rattle.uc_model.specs.PlainUnits.{schedule_of};
ghost use Rattle.uc_model.specs.Refusals.{balance_broken, reserve_broken};
ghost use Rattle.uc_model.specs.Schedules.{power_in, reserve_in};
ghost use Rattle.plain_lists.specs.Sums.{int_at};
ghost use Rattle.uc_model.specs.Systems.{total_power, total_reserve};
ghost use Rattle.plan_check.specs.States.{sides_of};
ghost use Rattle.plan_check.specs.Totals.{powers_at, reserves_at};

use crate::rules;
use crate::states::Sides;
use uc_model::cases::{Case, Plan};
use uc_model::units::Response;

/// Sums over schedules in one period, in kilowatts.
#[derive(Clone, Copy)]
pub struct Totals {
    /// The sum of the powers, what bids buy counted below 0.
    pub power: i64,
    /// The sum of the reserves.
    pub reserve: i64,
}

// The sums with one more schedule.
fn totals_with_response(totals: Totals, response: &Response, index: usize) -> Totals
    requires index { index < length (schedule_of response.now).on }
    requires power { IsFrom (pos 0) (pos 1000000000000000) totals.power }
    requires reserve { IsFrom (pos 0) (pos 1000000000000000) totals.reserve }
    ensures power { result.power ≡ totals.power +ℤ power_in (schedule_of response.now) (suc index) }
    ensures reserve { result.reserve ≡ totals.reserve
        +ℤ reserve_in (schedule_of response.now) (suc index) }
    ensures power_limit { IsFrom (pos 0) (totals.power +ℤ pos 4294967296) result.power }
    ensures reserve_limit { IsFrom (pos 0) (totals.reserve +ℤ pos 4294967296) result.reserve }
{
    Totals {
        power: totals.power + response.power_at(index),
        reserve: totals.reserve + response.reserve_at(index),
    }
}

// The sums over schedules at an index.
fn totals_at(responses: &[Response], index: usize) -> Totals
    requires count { length responses.now ≤ 20000 }
    requires index { All (λ (r : Response). index < length (schedule_of r).on) responses.now }
    ensures power { result.power ≡ powers_at (map schedule_of responses.now) index }
    ensures reserve { result.reserve ≡ reserves_at (map schedule_of responses.now) index }
    ensures power_limit { IsFrom (pos 0) (pos 100000000000000) result.power }
    ensures reserve_limit { IsFrom (pos 0) (pos 100000000000000) result.reserve }
{
    let mut totals = Totals {
        power: 0,
        reserve: 0,
    };
    for response in responses {
        totals = totals_with_response(totals, response, index);
    }
    totals
}

/// The power at an index that the thermal and renewable units give, less what the bids buy, in
/// kilowatts.
pub fn net_power(case: &Case, plan: &Plan, index: usize) -> i64
    requires shape { HasPlanShape (market_of case.now) (schedules_of plan.now) }
    requires within { index < (market_of case.now).periods }
    ensures value { result ≡ total_power (units (market_of case.now)) (schedules_of plan.now)
        index }
    ensures limit { IsFrom (neg_ℤ (pos 100000000000000)) (pos 100000000000000) result }
{
    let producers = case.producer_count();
    let (producing, buying) = plan.responses.as_slice().split_at(producers);
    let given = totals_at(producing, index);
    let bought = totals_at(buying, index);
    given.power - bought.power
}

/// What keeps the powers from summing to demand at an index.
pub(crate) fn power_balance_violation(case: &Case, plan: &Plan, index: usize) -> Option<Sides>
    requires shape { HasPlanShape (market_of case.now) (schedules_of plan.now) }
    requires within { index < (market_of case.now).periods }
    ensures { sides_of result ≡ balance_broken (market_of case.now) (schedules_of plan.now) index }
{
    let total = net_power(case, plan, index);
    let demand = *case.demand.get(index);
    if total == demand {
        return None;
    }
    Some(Sides {
        left: total,
        right: demand,
    })
}

/// The required reserve of a period, and what the schedules of all units give, in kilowatts.
#[derive(Clone, Copy)]
pub struct Reserves {
    /// The required reserve.
    pub required: i64,
    /// The reserve of all units.
    pub given: i64,
}

/// The reserves of period `index + 1`.
pub fn required_and_given_reserve(case: &Case, plan: &Plan, index: usize) -> Reserves
    requires shape { HasPlanShape (market_of case.now) (schedules_of plan.now) }
    requires within { index < (market_of case.now).periods }
    ensures required { result.required ≡ int_at (market_of case.now).reserves index }
    ensures given { result.given ≡ total_reserve (units (market_of case.now))
        (schedules_of plan.now) index }
    ensures required_limit { IsPower result.required }
    ensures given_limit { IsFrom (pos 0) (pos 100000000000000) result.given }
{
    let totals = totals_at(plan.responses.as_slice(), index);
    Reserves {
        required: *case.reserves.get(index),
        given: totals.reserve,
    }
}

/// What the reserves lack at an index.
pub(crate) fn reserve_requirement_violation(case: &Case, plan: &Plan, index: usize) -> Option<Sides>
    requires shape { HasPlanShape (market_of case.now) (schedules_of plan.now) }
    requires within { index < (market_of case.now).periods }
    ensures { sides_of result ≡ reserve_broken (market_of case.now) (schedules_of plan.now) index }
{
    let reserves = required_and_given_reserve(case, plan, index);
    rules::violation_above_limit(reserves.required, reserves.given)
}
