//! The dispatch rules, each for the period at one place.
ghost use Rattle.std.specs.Prelude.{◌≡◌, ◌<◌, ◌≤◌, suc, pos, neg_ℤ, ◌-ℤ◌, ◌≤ℤ◌, true, false};
ghost use Rattle.std.specs.Prelude.{length, slice_index, slice_index_or, IsTrue, IsFalse, ◌↔◌};
ghost use Rattle.std.specs.Int.{int_min};
ghost use Rattle.test_tiny.specs.Rules.{KeepsDispatchAt, MayStopAtOnce};
ghost use Rattle.plain_lists.specs.Ranges.{IsFrom};
ghost use Rattle.uc_model.specs.PlainUnits.{thermal_of, schedule_of};
ghost use Rattle.uc_model.specs.Schedules.{on_in, starts_in, stops_in, above_min};
ghost use Rattle.uc_model.specs.Schedules.{above_with_reserve, cap_of, IsPeriod};

use crate::state::{above, above_all, above_before, is_on, starts, stops};
use uc_model::rules::cap;
use uc_model::units::{Response, Unit};

// Nothing is given in an off period.
fn off_holds(response: &Response, index: usize) -> bool
    requires { index < length response.now.on.items }
    ensures { IsTrue result ↔ (IsFalse (slice_index_or (schedule_of response.now).on index false)
        → (slice_index (schedule_of response.now).power index ≡ 0)
        × (slice_index (schedule_of response.now).reserve index ≡ 0)) }
{
    is_on(response, index) || (*response.power.get(index) == 0 && *response.reserve.get(index) == 0)
}

// The power is at least the least one.
fn least_holds(unit: &Unit, response: &Response, index: usize) -> bool
    requires { index < length response.now.on.items }
    ensures { IsTrue result
        ↔ (IsTrue (on_in (thermal_of unit.now) (schedule_of response.now) (suc index))
        → pos 0 ≤ℤ above_min (thermal_of unit.now) (schedule_of response.now) (suc index)) }
{
    !is_on(response, index) || above(unit, response, index) >= 0
}

// The power with the reserve is at most the greatest one.
fn greatest_holds(unit: &Unit, response: &Response, index: usize) -> bool
    requires { index < length response.now.on.items }
    ensures { IsTrue result
        ↔ (IsTrue (on_in (thermal_of unit.now) (schedule_of response.now) (suc index))
        → above_with_reserve (thermal_of unit.now) (schedule_of response.now) (suc index)
        ≤ℤ cap_of (thermal_of unit.now) false false) }
{
    !is_on(response, index) || above_all(unit, response, index) <= cap(unit, false, false)
}

// In a start period they are within the start limit.
fn start_holds(unit: &Unit, response: &Response, index: usize) -> bool
    requires { index < length response.now.on.items }
    ensures { IsTrue result
        ↔ (IsTrue (starts_in (thermal_of unit.now) (schedule_of response.now) (suc index))
        → above_with_reserve (thermal_of unit.now) (schedule_of response.now) (suc index)
        ≤ℤ cap_of (thermal_of unit.now) true false) }
{
    !starts(unit, response, index) || above_all(unit, response, index) <= cap(unit, true, false)
}

// Whether the unit stops in the period after a place.
fn stops_next(unit: &Unit, response: &Response, index: usize) -> bool
    requires index { index < length response.now.on.items }
    requires limit { length response.now.on.items ≤ 168 }
    ensures { IsTrue result ↔ (IsPeriod (schedule_of response.now) (suc (suc index))
        × IsTrue (stops_in (thermal_of unit.now) (schedule_of response.now) (suc (suc index)))) }
{
    index + 1 < response.on.len() && stops(unit, response, index + 1)
}

// In the last period before a stop they are within the stop limit.
fn stop_holds(unit: &Unit, response: &Response, index: usize) -> bool
    requires index { index < length response.now.on.items }
    requires limit { length response.now.on.items ≤ 168 }
    ensures { IsTrue result ↔ (IsPeriod (schedule_of response.now) (suc (suc index))
        → IsTrue (stops_in (thermal_of unit.now) (schedule_of response.now) (suc (suc index)))
        → above_with_reserve (thermal_of unit.now) (schedule_of response.now) (suc index)
        ≤ℤ cap_of (thermal_of unit.now) false true) }
{
    !stops_next(unit, response, index) || above_all(unit, response, index) <= cap(unit, false, true)
}

// Whether a power rises by at most so much from one period to the next.
fn rises_within(from: i64, to: i64, ramp: i64) -> bool
    requires from { IsFrom (neg_ℤ (pos 17179869184)) (pos 17179869184) from }
    requires to { IsFrom (neg_ℤ (pos 17179869184)) (pos 17179869184) to }
    ensures { IsTrue result ↔ ((to -ℤ from) ≤ℤ ramp) }
{
    to - from <= ramp
}

// The power with the reserve rises by at most the ramp.
fn ramp_up_holds(unit: &Unit, response: &Response, index: usize) -> bool
    requires { index < length response.now.on.items }
    ensures { IsTrue result
        ↔ ((above_with_reserve (thermal_of unit.now) (schedule_of response.now) (suc index)
        -ℤ above_min (thermal_of unit.now) (schedule_of response.now) index) ≤ℤ unit.now.ramp_up) }
{
    let before = above_before(unit, response, index);
    let now = above_all(unit, response, index);
    rises_within(before, now, unit.ramp_up)
}

// The power falls by at most the ramp.
fn ramp_down_holds(unit: &Unit, response: &Response, index: usize) -> bool
    requires { index < length response.now.on.items }
    ensures { IsTrue result
        ↔ ((above_min (thermal_of unit.now) (schedule_of response.now) index
        -ℤ above_min (thermal_of unit.now) (schedule_of response.now) (suc index))
        ≤ℤ unit.now.ramp_down) }
{
    let before = above_before(unit, response, index);
    let now = above(unit, response, index);
    rises_within(now, before, unit.ramp_down)
}

/// Whether the powers and reserves keep each dispatch rule in the period at an index.
pub fn keeps_dispatch(unit: &Unit, response: &Response, index: usize) -> bool
    requires index { index < length response.now.on.items }
    requires limit { length response.now.on.items ≤ 168 }
    ensures { IsTrue result ↔ KeepsDispatchAt (thermal_of unit.now) (schedule_of response.now)
        index }
{
    off_holds(response, index)
        && least_holds(unit, response, index)
        && greatest_holds(unit, response, index)
        && start_holds(unit, response, index)
        && stop_holds(unit, response, index)
        && ramp_up_holds(unit, response, index)
        && ramp_down_holds(unit, response, index)
}

// The greatest output before the horizon of a unit that stops in the first period.
fn output_limit(unit: &Unit) -> i64
    ensures { result ≡ int_min unit.now.stop_limit unit.now.max_power }
{
    unit.stop_limit.min(unit.max_power)
}

/// Whether a unit that stops in the first period may do so at its output before the horizon.
pub fn may_stop_at_once(unit: &Unit, response: &Response) -> bool
    ensures { IsTrue result ↔ MayStopAtOnce (thermal_of unit.now) (schedule_of response.now) }
{
    response.on.is_empty() || !stops(unit, response, 0) || unit.power0 <= output_limit(unit)
}
