//! The first rule that a plan breaks.
ghost use Rattle.std.specs.Prelude.{◌≡◌, ◌≤◌, ◌<◌, ◌+◌, length, drop, ◌↔◌, Some, IsOk};
ghost use Rattle.std.specs.Prelude.{IfOk, IfErr, slice_get};
ghost use Rattle.std.specs.List.{flat_map};
ghost use Rattle.uc_model.specs.Laws.{HasPlanShape};
ghost use Rattle.uc_model.specs.PlainCases.{market_of, schedules_of};
ghost use Rattle.uc_model.specs.PlainUnits.{thermal_of, renewable_of, bid_of, schedule_of};
ghost use Rattle.uc_model.specs.Refusals.{told, renewable_broken, bid_broken, balance_broken};
ghost use Rattle.uc_model.specs.Refusals.{reserve_broken, thermal_refusals, all_thermal};
ghost use Rattle.uc_model.specs.Refusals.{all_renewable, all_bids, refusals};
ghost use Rattle.uc_model.specs.Systems.{plan_cost, IsFeasiblePlan};
ghost use Rattle.uc_model.specs.declared.limits.TheConstants.{MOST_PERIODS};
ghost use Rattle.plan_check.specs.Checks.{refusal_of, Finds};
ghost use Rattle.plan_check.specs.States.{sides_of, thermal_broken, told_shift, rule_refusals};

use crate::states::Sides;
use crate::{RuleFault, costs, rules, totals};
use uc_model::cases::{Case, Plan};
use uc_model::kinds::{Kind, RuleCode};
use uc_model::money::total_block_width;
use uc_model::units::{Bid, Renewable, Response, Unit};

// The rules of a thermal unit in the order in which they are told.
const THERMAL_RULES: [RuleCode; 10] = [
    RuleCode::MustRun,
    RuleCode::Initial,
    RuleCode::MinUp,
    RuleCode::MinDown,
    RuleCode::Range,
    RuleCode::StartCap,
    RuleCode::StopCap,
    RuleCode::RampUp,
    RuleCode::RampDown,
    RuleCode::Window,
];

// A broken rule under its unit and period.
fn fault_of_rule(code: RuleCode, kind: Kind, unit: u32, period: u32, sides: Sides) -> RuleFault
    ensures { refusal_of result
        ≡ record {
          rule = code;
          kind = kind;
          unit = unit;
          period = period;
          left =
              sides.left;
          right = sides.right;
        } }
{
    RuleFault {
        code,
        kind,
        unit,
        period,
        left: i128::from(sides.left),
        right: i128::from(sides.right),
    }
}

// What breaks a thermal rule at an index.
fn thermal_violation(
    rule: RuleCode,
    unit: &Unit,
    response: &Response,
    index: usize,
) -> Option<Sides>
    requires within { index < length (schedule_of response.now).on }
    requires horizon { length (schedule_of response.now).on ≤ MOST_PERIODS }
    requires window { length (thermal_of unit.now).window ≡ length (schedule_of response.now).on }
    ensures { sides_of result ≡ thermal_broken rule (thermal_of unit.now) (schedule_of response.now)
        index }
{
    match rule {
        RuleCode::MustRun => rules::must_run_violation(unit, response, index),
        RuleCode::Initial => rules::initial_state_violation(unit, response, index),
        RuleCode::MinUp => rules::min_up_violation(unit, response, index),
        RuleCode::MinDown => rules::min_down_violation(unit, response, index),
        RuleCode::Range => rules::power_range_violation(unit, response, index),
        RuleCode::StartCap => rules::start_limit_violation(unit, response, index),
        RuleCode::StopCap => rules::stop_limit_violation(unit, response, index),
        RuleCode::RampUp => rules::ramp_up_violation(unit, response, index),
        RuleCode::RampDown => rules::ramp_down_violation(unit, response, index),
        RuleCode::Window => rules::commitment_window_violation(unit, response, index),
        RuleCode::RenewableRange | RuleCode::Balance | RuleCode::Reserve | RuleCode::BidRange => {
            None
        }
    }
}

// How far the period that is told lies from the place: a stop is told at the period before it.
fn reported_period_offset(rule: RuleCode) -> u32
    ensures value { result ≡ told_shift rule }
    ensures small { result ≤ 1 }
{
    match rule {
        RuleCode::StopCap => 0,
        _ => 1,
    }
}

// The first period in which a rule of a thermal unit is broken.
fn check_rule(
    rule: RuleCode,
    unit: &Unit,
    response: &Response,
    number: u32,
) -> Result<(), RuleFault>
    requires horizon { length (schedule_of response.now).on ≤ MOST_PERIODS }
    requires window { length (thermal_of unit.now).window ≡ length (schedule_of response.now).on }
    ensures { Finds (rule_refusals (length (schedule_of response.now).on) number
        (thermal_of unit.now) (schedule_of response.now) rule) result }
{
    for index in 0..response.on.len() {
        if let Some(sides) = thermal_violation(rule, unit, response, index) {
            let period = index as u32 + reported_period_offset(rule);
            return Err(fault_of_rule(rule, Kind::Thermal, number, period, sides));
        }
    }
    Ok(())
}

// The first of some rules that a thermal unit breaks.
fn check_rules(
    rules: &[RuleCode],
    unit: &Unit,
    response: &Response,
    number: u32,
) -> Result<(), RuleFault>
    requires horizon { length (schedule_of response.now).on ≤ MOST_PERIODS }
    requires window { length (thermal_of unit.now).window ≡ length (schedule_of response.now).on }
    ensures { Finds
        (flat_map (rule_refusals (length (schedule_of response.now).on) number (thermal_of unit.now)
        (schedule_of response.now)) rules.now) result }
{
    for rule in rules {
        check_rule(*rule, unit, response, number)?;
    }
    Ok(())
}

/// The first rule that a schedule of a thermal unit breaks, in the order of its rules and for each
/// over rising periods. `number` is the unit's position, from 1. Takes no memory.
pub fn check_thermal(unit: &Unit, response: &Response, number: u32) -> Result<(), RuleFault>
    requires horizon { length (schedule_of response.now).on ≤ MOST_PERIODS }
    requires window { length (thermal_of unit.now).window ≡ length (schedule_of response.now).on }
    ensures { Finds (thermal_refusals (length (schedule_of response.now).on) number
        (thermal_of unit.now) (schedule_of response.now)) result }
{
    check_rules(&THERMAL_RULES, unit, response, number)
}

// The first thermal unit that breaks a rule.
fn check_thermals(case: &Case, plan: &Plan) -> Result<(), RuleFault>
    requires { HasPlanShape (market_of case.now) (schedules_of plan.now) }
    ensures { Finds (all_thermal (market_of case.now).periods 1 (market_of case.now).thermal
        (schedules_of plan.now)) result }
{
    for index in 0..case.thermal.len() {
        let unit = case.thermal.get(index);
        let response = plan.responses.get(index);
        check_thermal(&unit.unit, response, index as u32 + 1)?;
    }
    Ok(())
}

// What breaks the range of a renewable unit at an index: first its least power, then its greatest.
fn renewable_range_violation(flat: &Renewable, response: &Response, index: usize) -> Option<Sides>
    requires schedule { index < length (schedule_of response.now).on }
    requires range { index < length (renewable_of flat.now).least }
    ensures { sides_of result ≡ renewable_broken (renewable_of flat.now) (schedule_of response.now)
        index }
{
    let power = response.power_at(index);
    let least = *flat.least.get(index);
    let most = *flat.most.get(index);
    rules::first_violation(
        rules::violation_above_limit(least, power),
        rules::violation_above_limit(power, most),
    )
}

// The first period in which a renewable unit is outside its range.
fn check_renewable(flat: &Renewable, response: &Response, number: u32) -> Result<(), RuleFault>
    requires horizon { length (schedule_of response.now).on ≤ MOST_PERIODS }
    requires range { length (renewable_of flat.now).least ≡ length (schedule_of response.now).on }
    ensures { Finds (told RuleCode.RenewableRange Kind.Renewable number
        (length (schedule_of response.now).on) 1
        (renewable_broken (renewable_of flat.now) (schedule_of response.now))) result }
{
    for index in 0..response.on.len() {
        if let Some(sides) = renewable_range_violation(flat, response, index) {
            let period = index as u32 + 1;
            return Err(fault_of_rule(
                RuleCode::RenewableRange,
                Kind::Renewable,
                number,
                period,
                sides,
            ));
        }
    }
    Ok(())
}

// The first renewable unit that is outside its range.
fn check_renewables(case: &Case, plan: &Plan) -> Result<(), RuleFault>
    requires { HasPlanShape (market_of case.now) (schedules_of plan.now) }
    ensures { Finds (all_renewable (market_of case.now).periods 1 (market_of case.now).flat
        (drop (length (market_of case.now).thermal) (schedules_of plan.now))) result }
{
    let first = case.thermal.len();
    for index in 0..case.flat.len() {
        let flat = case.flat.get(index);
        let response = plan.responses.get(first + index);
        check_renewable(&flat.flat, response, index as u32 + 1)?;
    }
    Ok(())
}

// What breaks the limit of a bid at an index.
fn bid_limit_violation(bid: &Bid, response: &Response, index: usize) -> Option<Sides>
    requires schedule { index < length (schedule_of response.now).on }
    requires blocks { index < length (bid_of bid.now).blocks }
    ensures { sides_of result ≡ bid_broken (bid_of bid.now) (schedule_of response.now) index }
{
    let power = response.power_at(index);
    let width = total_block_width(bid.blocks.get(index).as_slice());
    rules::violation_above_limit(power, width)
}

// The first period in which a bid buys more than its blocks.
fn check_bid(bid: &Bid, response: &Response, number: u32) -> Result<(), RuleFault>
    requires horizon { length (schedule_of response.now).on ≤ MOST_PERIODS }
    requires blocks { length (bid_of bid.now).blocks ≡ length (schedule_of response.now).on }
    ensures { Finds (told RuleCode.BidRange Kind.Bid number (length (schedule_of response.now).on) 1
        (bid_broken (bid_of bid.now) (schedule_of response.now))) result }
{
    for index in 0..response.on.len() {
        if let Some(sides) = bid_limit_violation(bid, response, index) {
            let period = index as u32 + 1;
            return Err(fault_of_rule(RuleCode::BidRange, Kind::Bid, number, period, sides));
        }
    }
    Ok(())
}

// The first bid that buys more than its blocks.
fn check_bids(case: &Case, plan: &Plan) -> Result<(), RuleFault>
    requires { HasPlanShape (market_of case.now) (schedules_of plan.now) }
    ensures { Finds (all_bids (market_of case.now).periods 1 (market_of case.now).bids
        (drop (length (market_of case.now).thermal + length (market_of case.now).flat)
        (schedules_of plan.now))) result }
{
    let first = case.producer_count();
    for index in 0..case.bids.len() {
        let bid = case.bids.get(index);
        let response = plan.responses.get(first + index);
        check_bid(&bid.bid, response, index as u32 + 1)?;
    }
    Ok(())
}

// The first period in which the powers don't sum to demand.
fn check_balance(case: &Case, plan: &Plan) -> Result<(), RuleFault>
    requires { HasPlanShape (market_of case.now) (schedules_of plan.now) }
    ensures { Finds (told RuleCode.Balance Kind.Case 0 (market_of case.now).periods 1
        (balance_broken (market_of case.now) (schedules_of plan.now))) result }
{
    for index in 0..case.periods {
        if let Some(sides) = totals::power_balance_violation(case, plan, index as usize) {
            return Err(fault_of_rule(RuleCode::Balance, Kind::Case, 0, index + 1, sides));
        }
    }
    Ok(())
}

// The first period in which the reserves sum to less than the requirement.
fn check_reserve(case: &Case, plan: &Plan) -> Result<(), RuleFault>
    requires { HasPlanShape (market_of case.now) (schedules_of plan.now) }
    ensures { Finds (told RuleCode.Reserve Kind.Case 0 (market_of case.now).periods 1
        (reserve_broken (market_of case.now) (schedules_of plan.now))) result }
{
    for index in 0..case.periods {
        if let Some(sides) = totals::reserve_requirement_violation(case, plan, index as usize) {
            return Err(fault_of_rule(RuleCode::Reserve, Kind::Case, 0, index + 1, sides));
        }
    }
    Ok(())
}

// The first rule that the plan breaks: the rules of the thermal units in order, then the ranges of
// the renewable units, then those of the bids, then the balance and then the reserve, each over
// rising periods.
fn check_all(case: &Case, plan: &Plan) -> Result<(), RuleFault>
    requires { HasPlanShape (market_of case.now) (schedules_of plan.now) }
    ensures { Finds (refusals (market_of case.now) (schedules_of plan.now)) result }
{
    check_thermals(case, plan)?;
    check_renewables(case, plan)?;
    check_bids(case, plan)?;
    check_balance(case, plan)?;
    check_reserve(case, plan)
}

/// The cost of the plan in money, where the plan is feasible; it may be below 0, since what bids
/// buy counts below 0. Otherwise the first rule that it breaks: thermal units in order and for each
/// its rules in order, then renewable units, then bids, then the balance, then the reserve, each
/// over rising periods. The plan has a response for each unit over the whole horizon, and those of
/// renewable units and bids are on in every period with reserve 0. Takes no memory.
pub fn check_plan(case: &Case, plan: &Plan) -> Result<i128, RuleFault>
    requires { HasPlanShape (market_of case.now) (schedules_of plan.now) }
    ensures cost { IfOk result (λ cost. cost ≡ plan_cost (market_of case.now)
        (schedules_of plan.now)) }
    ensures feasible { IsOk result ↔ IsFeasiblePlan (market_of case.now) (schedules_of plan.now) }
    ensures refused { IfErr result
        (λ f. slice_get (refusals (market_of case.now) (schedules_of plan.now)) 0
        ≡ Some (refusal_of f)) }
{
    check_all(case, plan)?;
    Ok(costs::cost_of_plan(case, plan))
}
