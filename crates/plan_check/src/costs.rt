//! What the schedules of a feasible plan cost.
ghost use Rattle.std.specs.Prelude.{◌≡◌, ◌≤◌, ◌<◌, ◌+◌, suc, pos, neg_ℤ, ◌+ℤ◌, ◌-ℤ◌, ◌*ℤ◌};
ghost use Rattle.std.specs.Prelude.{if◌then◌else◌, length, drop, slice_index_or, false};
ghost use Rattle.std.specs.Int.{int_min};
ghost use Rattle.uc_model.specs.declared.limits.TheConstants.{MOST_PERIODS};
ghost use Rattle.uc_model.specs.Earnings.{cost_of, production_cost, start_costs, bid_worth};
ghost use Rattle.uc_model.specs.Earnings.{worth_of};
ghost use Rattle.uc_model.specs.Laws.{HasPlanShape};
ghost use Rattle.plain_lists.specs.Ranges.{IsFrom};
ghost use Rattle.uc_model.specs.Limits.{IsBlock, IsBlockList, IsCost, IsStartCost};
ghost use Rattle.uc_model.specs.PlainCases.{market_of, schedules_of};
ghost use Rattle.uc_model.specs.PlainUnits.{thermal_of, bid_of, schedule_of};
ghost use Rattle.uc_model.specs.Schedules.{time_down, IsThermalFeasible};
ghost use Rattle.uc_model.specs.Systems.{plan_cost, IsFeasiblePlan};
ghost use Rattle.cost_curve.specs.EnvelopePieces.{IsNear};
ghost use Rattle.plan_check.specs.Costs.{sum_over, thermal_units, bid_units, production_at};
ghost use Rattle.plan_check.specs.Costs.{start_cost_at};

use crate::rules;
use cost_curve::costs::{EnvelopePiece, envelope_cost_with_cached_piece};
use uc_model::cases::{Case, Plan};
use uc_model::rules::start_cost;
use uc_model::units::{Bid, Block, Response, Unit};

// What the power at an index costs. `near` has the piece of the power before it.
fn power_cost(
    unit: &Unit,
    response: &Response,
    index: usize,
    near: &mut Option<EnvelopePiece>,
) -> i64
    requires near { IsNear (thermal_of unit.now).points near.old }
    requires within { index < length (schedule_of response.now).on }
    requires feasible { IsThermalFeasible (thermal_of unit.now)
        (length (schedule_of response.now).on) (schedule_of response.now) }
    ensures value { result ≡ production_at (thermal_of unit.now) (schedule_of response.now) index }
    ensures limit { IsCost result }
    ensures near { IsNear (thermal_of unit.now).points near.new }
{
    if !response.is_on(index) {
        return 0;
    }
    envelope_cost_with_cached_piece(unit.points.as_slice(), response.power_at(index), near)
}

/// What the powers of a schedule cost.
pub fn power_costs(unit: &Unit, response: &Response) -> i64
    requires horizon { length (schedule_of response.now).on ≤ MOST_PERIODS }
    requires feasible { IsThermalFeasible (thermal_of unit.now)
        (length (schedule_of response.now).on) (schedule_of response.now) }
    ensures value { result ≡ production_cost (thermal_of unit.now) (schedule_of response.now) }
    ensures limit { IsFrom (neg_ℤ (pos 2000000000000000)) (pos 2000000000000000) result }
{
    let mut near = None;
    let mut sum = 0;
    for index in 0..response.on.len() {
        sum += power_cost(unit, response, index, &mut near);
    }
    sum
}

// How many periods the unit has been off before period 1.
fn time_off_before_horizon(unit: &Unit) -> u64
    ensures { result ≡ (if unit.now.on0 then 0 else unit.now.down0) }
{
    if unit.on0 { 0 } else { u64::from(unit.down0) }
}

// How many periods it has been off after the period at an index.
fn time_off_after(response: &Response, index: usize, down: u64) -> u64
    requires within { index < length (schedule_of response.now).on }
    requires limit { down < 1000000000 }
    ensures { result ≡ (if slice_index_or (schedule_of response.now).on index false then 0 else suc
        down) }
{
    if response.is_on(index) {
        return 0;
    }
    down + 1
}

// What a start at an index costs, after so many periods down.
fn cost_of_start(unit: &Unit, response: &Response, index: usize, down: u64) -> i64
    requires within { index < length (schedule_of response.now).on }
    requires down { down ≡ time_down (thermal_of unit.now) (schedule_of response.now) index }
    ensures value { result ≡ start_cost_at (thermal_of unit.now) (schedule_of response.now) index }
    ensures limit { IsStartCost result }
{
    if rules::on_in_period(unit, response, index) {
        return 0;
    }
    if !response.is_on(index) {
        return 0;
    }
    start_cost(unit, down)
}

/// What the starts of a schedule cost.
pub fn costs_of_starts(unit: &Unit, response: &Response) -> i64
    requires { length (schedule_of response.now).on ≤ MOST_PERIODS }
    ensures value { result ≡ start_costs (thermal_of unit.now) (schedule_of response.now) }
    ensures limit { IsFrom (pos 0) (pos 2000000000000000) result }
{
    let mut down = time_off_before_horizon(unit);
    let mut sum = 0;
    for index in 0..response.on.len() {
        sum += cost_of_start(unit, response, index, down);
        down = time_off_after(response, index, down);
    }
    sum
}

// What is bought so far, and the kilowatts that are left.
#[derive(Clone, Copy)]
struct Bought {
    worth: i64,
    rest: i64,
}

// What is bought with one more block.
fn purchase_with_next_block(bought: Bought, block: &Block) -> Bought
    requires block { IsBlock block.now }
    requires worth { IsFrom (pos 0) (pos 900000000000000000) bought.worth }
    requires rest { IsFrom (pos 0) (pos 4294967296) bought.rest }
    ensures worth { result.worth ≡ bought.worth
        +ℤ (block.now.price *ℤ int_min bought.rest block.now.width) }
    ensures rest { result.rest ≡ bought.rest -ℤ int_min bought.rest block.now.width }
    ensures worth_limit { IsFrom (pos 0) (bought.worth +ℤ pos 10000000000000000) result.worth }
    ensures rest_limit { IsFrom (pos 0) (pos 4294967296) result.rest }
{
    let width = bought.rest.min(block.width);
    Bought {
        worth: bought.worth + block.price * width,
        rest: bought.rest - width,
    }
}

// What so many kilowatts are worth.
fn worth_of_bought_power(blocks: &[Block], power: i64) -> i64
    requires blocks { IsBlockList blocks.now }
    requires power { IsFrom (pos 0) (pos 4294967296) power }
    ensures value { result ≡ worth_of blocks.now power }
    ensures limit { IsFrom (pos 0) (pos 80000000000000000) result }
{
    let mut bought = Bought {
        worth: 0,
        rest: power,
    };
    for block in blocks {
        bought = purchase_with_next_block(bought, block);
    }
    bought.worth
}

/// What a bid's schedule is worth.
pub fn worth_of_bid(bid: &Bid, response: &Response) -> i128
    requires horizon { length (schedule_of response.now).on ≤ MOST_PERIODS }
    requires blocks { length (bid_of bid.now).blocks ≡ length (schedule_of response.now).on }
    ensures value { result ≡ bid_worth (bid_of bid.now) (schedule_of response.now) }
    ensures limit { IsFrom (pos 0) (pos 20000000000000000000) result }
{
    let mut sum = 0;
    for index in 0..response.on.len() {
        let blocks = bid.blocks.get(index).as_slice();
        sum += i128::from(worth_of_bought_power(blocks, response.power_at(index)));
    }
    sum
}

// What the schedules of the thermal units cost.
fn thermal_costs(case: &Case, plan: &Plan) -> i128
    requires shape { HasPlanShape (market_of case.now) (schedules_of plan.now) }
    requires feasible { IsFeasiblePlan (market_of case.now) (schedules_of plan.now) }
    ensures value { result ≡ sum_over cost_of (thermal_units (market_of case.now))
        (schedules_of plan.now) }
    ensures limit { IsFrom (neg_ℤ (pos 20000000000000000000)) (pos 20000000000000000000) result }
{
    let mut sum = 0;
    for index in 0..case.thermal.len() {
        let unit = &case.thermal.get(index).unit;
        let response = plan.responses.get(index);
        sum += i128::from(power_costs(unit, response) + costs_of_starts(unit, response));
    }
    sum
}

// What the schedules of the bids are worth.
fn worth_of_bids(case: &Case, plan: &Plan) -> i128
    requires { HasPlanShape (market_of case.now) (schedules_of plan.now) }
    ensures value { result
        ≡ neg_ℤ (sum_over cost_of (bid_units (market_of case.now))
        (drop (length (market_of case.now).thermal + length (market_of case.now).flat)
        (schedules_of plan.now))) }
    ensures limit { IsFrom (pos 0) (pos 100000000000000000000000) result }
{
    let first = case.producer_count();
    let mut sum = 0;
    for index in 0..case.bids.len() {
        let bid = &case.bids.get(index).bid;
        sum += worth_of_bid(bid, plan.responses.get(first + index));
    }
    sum
}

/// What a feasible plan costs: the costs of the thermal units less what the bids are worth.
pub fn cost_of_plan(case: &Case, plan: &Plan) -> i128
    requires shape { HasPlanShape (market_of case.now) (schedules_of plan.now) }
    requires feasible { IsFeasiblePlan (market_of case.now) (schedules_of plan.now) }
    ensures { result ≡ plan_cost (market_of case.now) (schedules_of plan.now) }
{
    thermal_costs(case, plan) - worth_of_bids(case, plan)
}
