//! What the schedules of a plan earn.
ghost use Rattle.std.specs.Prelude.{◌≡◌, ◌≤◌, ◌<◌, pos, neg_ℤ, length, Some, slice_get};
ghost use Rattle.std.specs.List.{All};
ghost use Rattle.uc_model.specs.declared.limits.TheConstants.{MOST_PERIODS};
ghost use Rattle.uc_model.specs.Data.{RenewableUnit, Thermal, Flat, Bid as BidOf, horizon_of};
ghost use Rattle.uc_model.specs.Earnings.{earnings};
ghost use Rattle.plain_lists.specs.Ranges.{IsFrom};
ghost use Rattle.uc_model.specs.Limits.{IsEarned, price_limit};
ghost use Rattle.uc_model.specs.PlainCases.{market_of, schedules_of, unit_of};
ghost use Rattle.uc_model.specs.PlainUnits.{thermal_of, bid_of, prices_of, schedule_of};
ghost use Rattle.uc_model.specs.Schedules.{IsThermalFeasible, IsFeasible};
ghost use Rattle.uc_model.specs.Systems.{IsFeasiblePlan};
ghost use Rattle.price_settle.specs.Earned.{paid_for, earned_in};

use plain_lists::lists::Numbers;
use plan_check::costs::{costs_of_starts, power_costs, worth_of_bid};
use uc_model::cases::{Case, Plan, UnitRef};
use uc_model::laws::{earnings_are_within, feasible_plans_have_shape, units_are_within};
use uc_model::money;
use uc_model::units::{Bid, Powers, Prices, Response, Unit};

// What the prices of all periods pay for the amounts of all periods.
fn paid_for_amounts(prices: &Numbers, amounts: &Powers) -> i128
    requires prices { All (IsFrom (neg_ℤ price_limit) price_limit) prices.now.items }
    requires lengths { length prices.now.items ≡ length amounts.now.items }
    requires horizon { length amounts.now.items ≤ MOST_PERIODS }
    ensures value { result ≡ paid_for prices.now.items amounts.now.items }
    ensures limit { IsFrom (neg_ℤ (pos 1000000000000000000000000)) (pos 1000000000000000000000000)
        result }
{
    let mut sum = 0;
    for index in 0..amounts.len() {
        let price = *prices.get(index);
        let amount = *amounts.get(index);
        sum += money::worth_at_price(price, i64::from(amount));
    }
    sum
}

// What the schedule of a thermal unit earns: what it is paid for power and reserve, less what it
// costs.
fn thermal_earnings(unit: &Unit, prices: &Prices, response: &Response) -> i128
    requires horizon { length (schedule_of response.now).on ≡ length (prices_of prices.now).energy }
    requires feasible { IsThermalFeasible (thermal_of unit.now)
        (length (schedule_of response.now).on) (schedule_of response.now) }
    ensures { result ≡ earnings (Thermal (thermal_of unit.now)) (prices_of prices.now)
        (schedule_of response.now) }
{
    let energy = paid_for_amounts(&prices.energy, &response.power);
    let reserve = paid_for_amounts(&prices.reserve, &response.reserve);
    let cost = power_costs(unit, response) + costs_of_starts(unit, response);
    energy + reserve - i128::from(cost)
}

// What the schedule of a renewable unit earns: what it is paid, at no cost.
fn earnings_of_renewable_schedule(prices: &Prices, response: &Response) -> i128
    requires { length (schedule_of response.now).on ≡ length (prices_of prices.now).energy }
    ensures { (r : RenewableUnit)
        → result ≡ earnings (Flat r) (prices_of prices.now) (schedule_of response.now) }
{
    paid_for_amounts(&prices.energy, &response.power)
        + paid_for_amounts(&prices.reserve, &response.reserve)
}

// What the schedule of a bid earns: what its power is worth to the buyer, less what the buyer pays
// for it.
fn bid_earnings(bid: &Bid, prices: &Prices, response: &Response) -> i128
    requires horizon { length (schedule_of response.now).on ≡ length (prices_of prices.now).energy }
    requires blocks { length (bid_of bid.now).blocks ≡ length (schedule_of response.now).on }
    ensures { result ≡ earnings (BidOf (bid_of bid.now)) (prices_of prices.now)
        (schedule_of response.now) }
{
    let energy = paid_for_amounts(&prices.energy, &response.power);
    let reserve = paid_for_amounts(&prices.reserve, &response.reserve);
    worth_of_bid(bid, response) + reserve - energy
}

// What the schedule of a unit of any kind earns.
fn unit_earnings(unit: UnitRef<'_>, prices: &Prices, response: &Response) -> i128
    requires horizon { length (schedule_of response.now).on ≡ length (prices_of prices.now).energy }
    requires own { horizon_of (unit_of unit) ≡ length (schedule_of response.now).on }
    requires feasible { IsFeasible (unit_of unit) (length (schedule_of response.now).on)
        (schedule_of response.now) }
    ensures { result ≡ earnings (unit_of unit.entry) (prices_of prices.now)
        (schedule_of response.now) }
{
    match unit {
        UnitRef::Thermal(unit) => thermal_earnings(unit, prices, response),
        UnitRef::Renewable(_) => earnings_of_renewable_schedule(prices, response),
        UnitRef::Bid(bid) => bid_earnings(bid, prices, response),
    }
}

// What the unit of a number earns in the plan, in a type that holds it without a look at the plan.
fn wide_earnings_of_unit_in_plan(case: &Case, plan: &Plan, prices: &Prices, number: usize) -> i128
    requires feasible { IsFeasiblePlan (market_of case.now) (schedules_of plan.now) }
    requires horizon { length (prices_of prices.now).energy ≡ (market_of case.now).periods }
    requires number { number < length (schedules_of plan.now) }
    ensures { slice_get (earned_in (market_of case.now) (schedules_of plan.now)
        (prices_of prices.now)) number ≡ Some result }
{
    feasible_plans_have_shape();
    let named = case.unit_at(number);
    unit_earnings(named.unit, prices, plan.responses.get(number))
}

/// What the unit of a number earns in a feasible plan at the prices, in money. Numbers count from
/// 0.
pub fn earnings_of_unit_in_plan(case: &Case, plan: &Plan, prices: &Prices, number: usize) -> i64
    requires feasible { IsFeasiblePlan (market_of case.now) (schedules_of plan.now) }
    requires horizon { length (prices_of prices.now).energy ≡ (market_of case.now).periods }
    requires number { number < length (schedules_of plan.now) }
    ensures value { slice_get (earned_in (market_of case.now) (schedules_of plan.now)
        (prices_of prices.now)) number ≡ Some result }
    ensures limit { IsEarned result }
{
    units_are_within();
    earnings_are_within();
    wide_earnings_of_unit_in_plan(case, plan, prices, number) as i64
}
