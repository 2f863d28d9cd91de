//! The rules of a thermal unit, each in one period.
ghost use Rattle.std.specs.Prelude.{◌≡◌, ◌≤◌, ◌<◌, ◌+◌, ◌-◌, ◌-ℤ◌, suc, length, if◌then◌else◌};
ghost use Rattle.std.specs.Prelude.{int_le, false};
ghost use Rattle.std.specs.Int.{int_min};
ghost use Rattle.uc_model.specs.Data.{Schedule};
ghost use Rattle.uc_model.specs.PlainUnits.{thermal_of, schedule_of};
ghost use Rattle.uc_model.specs.Schedules.{on_in, above_min, above_with_reserve};
ghost use Rattle.uc_model.specs.Schedules.{starts_in, stops_in};
ghost use Rattle.uc_model.specs.Refusals as refusals;
ghost use Rattle.uc_model.specs.Refusals.{changed_in, or_else, must_run_broken, initial_broken};
ghost use Rattle.uc_model.specs.Refusals.{min_up_broken, min_down_broken, range_broken};
ghost use Rattle.uc_model.specs.Refusals.{start_broken, stop_broken, ramp_up_broken};
ghost use Rattle.uc_model.specs.Refusals.{ramp_down_broken, window_broken};
ghost use Rattle.uc_model.specs.declared.limits.TheConstants.{MOST_PERIODS};
ghost use Rattle.plan_check.specs.States.{sides_of, run_broken, IsStateIn};

use crate::states::{Sides, State};
use uc_model::units::{Mark, Response, Unit};

/// The numbers where a test fails.
pub fn violation_unless_test_holds(holds: bool, left: i64, right: i64) -> Option<Sides>
    ensures { sides_of result ≡ refusals.unless holds left right }
{
    if holds {
        None
    } else {
        Some(Sides { left, right })
    }
}

/// The numbers where a value is above its limit.
pub fn violation_above_limit(value: i64, limit: i64) -> Option<Sides>
    ensures { sides_of result ≡ refusals.unless (int_le value limit) value limit }
{
    violation_unless_test_holds(value <= limit, value, limit)
}

/// Whether the unit is on in a period; period 0 is the state before the horizon.
pub fn on_in_period(unit: &Unit, response: &Response, period: usize) -> bool
    requires { period ≤ length (schedule_of response.now).on }
    ensures { result ≡ on_in (thermal_of unit.now) (schedule_of response.now) period }
{
    if period == 0 {
        return unit.on0;
    }
    response.is_on(period - 1)
}

// Whether the unit starts in the period at an index.
fn starts_at(unit: &Unit, response: &Response, index: usize) -> bool
    requires { index < length (schedule_of response.now).on }
    ensures { result ≡ starts_in (thermal_of unit.now) (schedule_of response.now) (suc index) }
{
    !on_in_period(unit, response, index) && response.is_on(index)
}

// Whether it stops in that period.
fn stops_at(unit: &Unit, response: &Response, index: usize) -> bool
    requires { index < length (schedule_of response.now).on }
    ensures { result ≡ stops_in (thermal_of unit.now) (schedule_of response.now) (suc index) }
{
    on_in_period(unit, response, index) && !response.is_on(index)
}

// What is seen in period 0.
fn state_before_horizon(unit: &Unit) -> State
    ensures { (s : Schedule) → IsStateIn (thermal_of unit.now) s 0 result }
{
    if unit.on0 {
        return State {
            on: true,
            above: unit.power0 - unit.min_power,
            reserve: 0,
            output: unit.power0,
        };
    }
    State {
        on: false,
        above: 0,
        reserve: 0,
        output: unit.power0,
    }
}

// What is seen in a period of the horizon, which is at an index.
fn state_at(unit: &Unit, response: &Response, index: usize) -> State
    requires { index < length (schedule_of response.now).on }
    ensures { IsStateIn (thermal_of unit.now) (schedule_of response.now) (suc index) result }
{
    let on = *response.on.get(index);
    let power = i64::from(*response.power.get(index));
    let reserve = i64::from(*response.reserve.get(index));
    State {
        on,
        above: if on { power - unit.min_power } else { 0 },
        reserve,
        output: power + reserve,
    }
}

// What is seen in a period; period 0 is the state before the horizon.
fn state_in_period(unit: &Unit, response: &Response, period: usize) -> State
    requires { period ≤ length (schedule_of response.now).on }
    ensures { IsStateIn (thermal_of unit.now) (schedule_of response.now) period result }
{
    if period == 0 {
        return state_before_horizon(unit);
    }
    state_at(unit, response, period - 1)
}

/// A must-run unit is on.
pub fn must_run_violation(unit: &Unit, response: &Response, index: usize) -> Option<Sides>
    requires { index < length (schedule_of response.now).on }
    ensures { sides_of result ≡ must_run_broken (thermal_of unit.now) (schedule_of response.now)
        index }
{
    let on = state_at(unit, response, index).on;
    violation_unless_test_holds(!(unit.must_run && !on), 0, 1)
}

// The periods from 1 on in which the unit stays as it was before.
fn periods_held_in_initial_state(unit: &Unit) -> u32
    ensures { result ≡ (if unit.now.on0 then unit.now.min_up - unit.now.up0 else unit.now.min_down
        - unit.now.down0) }
{
    if unit.on0 {
        unit.min_up.saturating_sub(unit.up0)
    } else {
        unit.min_down.saturating_sub(unit.down0)
    }
}

/// A unit stays as it was before the horizon until its minimum time is over.
pub fn initial_state_violation(unit: &Unit, response: &Response, index: usize) -> Option<Sides>
    requires { index < length (schedule_of response.now).on }
    ensures { sides_of result ≡ initial_broken (thermal_of unit.now) (schedule_of response.now)
        index }
{
    if periods_held_in_initial_state(unit) as usize <= index {
        return None;
    }
    let on = on_in_period(unit, response, index + 1);
    violation_unless_test_holds(unit.on0 == on, i64::from(on), i64::from(unit.on0))
}

// The start or stop since which the unit is as it is in a period, where one lies in the horizon.
fn last_change_before_period(unit: &Unit, response: &Response, period: usize) -> Option<usize>
    requires { period ≤ length (schedule_of response.now).on }
    ensures { result ≡ changed_in (thermal_of unit.now) (schedule_of response.now) period }
{
    let on = on_in_period(unit, response, period);
    let mut since = period;
    'back: while since > 0 {
        if on_in_period(unit, response, since - 1) != on {
            return Some(since);
        }
        since -= 1;
    }
    None
}

// A run that a change in the horizon began is as long as the minimum time.
fn minimum_run_violation(since: Option<usize>, end: usize, minimum: u32) -> Option<Sides>
    requires { end < 1000 }
    ensures { sides_of result ≡ run_broken since end minimum }
{
    match since {
        None => None,
        Some(start) => {
            let run = end.saturating_sub(start);
            violation_unless_test_holds(minimum as usize <= run, run as i64, i64::from(minimum))
        }
    }
}

/// A unit that started in the horizon stops only after its minimum time up.
pub fn min_up_violation(unit: &Unit, response: &Response, index: usize) -> Option<Sides>
    requires within { index < length (schedule_of response.now).on }
    requires horizon { length (schedule_of response.now).on ≤ MOST_PERIODS }
    ensures { sides_of result ≡ min_up_broken (thermal_of unit.now) (schedule_of response.now)
        index }
{
    if !stops_at(unit, response, index) {
        return None;
    }
    minimum_run_violation(
        last_change_before_period(unit, response, index),
        index + 1,
        unit.min_up,
    )
}

/// A unit that stopped in the horizon starts only after its minimum time down.
pub fn min_down_violation(unit: &Unit, response: &Response, index: usize) -> Option<Sides>
    requires within { index < length (schedule_of response.now).on }
    requires horizon { length (schedule_of response.now).on ≤ MOST_PERIODS }
    ensures { sides_of result ≡ min_down_broken (thermal_of unit.now) (schedule_of response.now)
        index }
{
    if !starts_at(unit, response, index) {
        return None;
    }
    minimum_run_violation(
        last_change_before_period(unit, response, index),
        index + 1,
        unit.min_down,
    )
}

/// The first of two broken rules.
pub fn first_violation(first: Option<Sides>, second: Option<Sides>) -> Option<Sides>
    ensures { sides_of result ≡ or_else (sides_of first) (sides_of second) }
{
    match first {
        Some(sides) => Some(sides),
        None => second,
    }
}

/// An on unit gives at least its least power, and with reserve at most its greatest; an off unit
/// gives nothing.
pub fn power_range_violation(unit: &Unit, response: &Response, index: usize) -> Option<Sides>
    requires { index < length (schedule_of response.now).on }
    ensures { sides_of result ≡ range_broken (thermal_of unit.now) (schedule_of response.now)
        index }
{
    let power = response.power_at(index);
    let now = state_at(unit, response, index);
    if now.on {
        return first_violation(
            violation_above_limit(unit.min_power, power),
            violation_above_limit(now.output, unit.max_power),
        );
    }
    first_violation(
        violation_above_limit(power, 0),
        violation_above_limit(now.reserve, 0),
    )
}

// A limit that isn't above the greatest power.
fn limit_within_capacity(unit: &Unit, limit: i64) -> i64
    ensures { result ≡ int_min limit unit.now.max_power }
{
    limit.min(unit.max_power)
}

/// In a start period the output is within the start limit.
pub fn start_limit_violation(unit: &Unit, response: &Response, index: usize) -> Option<Sides>
    requires { index < length (schedule_of response.now).on }
    ensures { sides_of result ≡ start_broken (thermal_of unit.now) (schedule_of response.now)
        index }
{
    if on_in_period(unit, response, index) {
        return None;
    }
    let now = state_at(unit, response, index);
    if !now.on {
        return None;
    }
    violation_above_limit(now.output, limit_within_capacity(unit, unit.start_limit))
}

/// In the last on period before a stop the output is within the stop limit.
pub fn stop_limit_violation(unit: &Unit, response: &Response, period: usize) -> Option<Sides>
    requires { period < length (schedule_of response.now).on }
    ensures { sides_of result ≡ stop_broken (thermal_of unit.now) (schedule_of response.now)
        period }
{
    let last = state_in_period(unit, response, period);
    if !last.on {
        return None;
    }
    if state_at(unit, response, period).on {
        return None;
    }
    violation_above_limit(last.output, limit_within_capacity(unit, unit.stop_limit))
}

// How far the power with reserve rises above the power of the period before.
fn power_rise_at(unit: &Unit, response: &Response, index: usize) -> i64
    requires { index < length (schedule_of response.now).on }
    ensures { result ≡ above_with_reserve (thermal_of unit.now) (schedule_of response.now)
        (suc index)
        -ℤ above_min (thermal_of unit.now) (schedule_of response.now) index }
{
    let before = state_in_period(unit, response, index);
    let now = state_at(unit, response, index);
    now.above + now.reserve - before.above
}

// How far the power falls below that of the period before.
fn power_fall_at(unit: &Unit, response: &Response, index: usize) -> i64
    requires { index < length (schedule_of response.now).on }
    ensures { result ≡ above_min (thermal_of unit.now) (schedule_of response.now) index
        -ℤ above_min (thermal_of unit.now) (schedule_of response.now) (suc index) }
{
    let before = state_in_period(unit, response, index);
    let now = state_at(unit, response, index);
    before.above - now.above
}

/// The power with reserve rises by at most the ramp.
pub fn ramp_up_violation(unit: &Unit, response: &Response, index: usize) -> Option<Sides>
    requires { index < length (schedule_of response.now).on }
    ensures { sides_of result ≡ ramp_up_broken (thermal_of unit.now) (schedule_of response.now)
        index }
{
    let rise = power_rise_at(unit, response, index);
    violation_above_limit(rise, unit.ramp_up)
}

/// The power falls by at most the ramp.
pub fn ramp_down_violation(unit: &Unit, response: &Response, index: usize) -> Option<Sides>
    requires { index < length (schedule_of response.now).on }
    ensures { sides_of result ≡ ramp_down_broken (thermal_of unit.now) (schedule_of response.now)
        index }
{
    let fall = power_fall_at(unit, response, index);
    violation_above_limit(fall, unit.ramp_down)
}

/// A unit is on where its window says so, and off where it says so.
pub fn commitment_window_violation(unit: &Unit, response: &Response, index: usize) -> Option<Sides>
    requires within { index < length (schedule_of response.now).on }
    requires window { length (thermal_of unit.now).window ≡ length (schedule_of response.now).on }
    ensures { sides_of result ≡ window_broken (thermal_of unit.now) (schedule_of response.now)
        index }
{
    let on = on_in_period(unit, response, index + 1);
    match *unit.window.get(index) {
        Mark::Free => None,
        Mark::MustOff => violation_unless_test_holds(!on, 1, 0),
        Mark::MustOn => violation_unless_test_holds(on, 0, 1),
    }
}
