//! What a unit does in a period: place `k` of the lists is period `k + 1`, and the period before
//! place 0 is the state before the horizon.
ghost use Rattle.std.specs.Prelude.{◌≡◌, ◌<◌, ◌≤◌, suc, pos, neg_ℤ, ◌-ℤ◌, if◌then◌else◌, length};
ghost use Rattle.std.specs.Prelude.{slice_index_or, false};
ghost use Rattle.plain_lists.specs.Ranges.{IsFrom};
ghost use Rattle.uc_model.specs.PlainUnits.{thermal_of, schedule_of};
ghost use Rattle.uc_model.specs.Schedules.{on_in, power_in, reserve_in, above_min};
ghost use Rattle.uc_model.specs.Schedules.{above_with_reserve, starts_in, stops_in};

use uc_model::units::{Response, Unit};

/// Whether the unit is on in the period at an index.
pub fn is_on(response: &Response, index: usize) -> bool
    requires { index < length response.now.on.items }
    ensures { result ≡ slice_index_or (schedule_of response.now).on index false }
{
    *response.on.get(index)
}

/// Whether the unit is on in the period before a place.
pub fn was_on(unit: &Unit, response: &Response, index: usize) -> bool
    requires { index ≤ length response.now.on.items }
    ensures { result ≡ on_in (thermal_of unit.now) (schedule_of response.now) index }
{
    if index == 0 {
        unit.on0
    } else {
        is_on(response, index - 1)
    }
}

/// The power of the period at an index, in kilowatts.
pub fn power(response: &Response, index: usize) -> i64
    requires { index < length response.now.on.items }
    ensures value { result ≡ power_in (schedule_of response.now) (suc index) }
    ensures bound { IsFrom (pos 0) (pos 4294967296) result }
{
    i64::from(*response.power.get(index))
}

/// The reserve of the period at an index, in kilowatts.
pub fn reserve(response: &Response, index: usize) -> i64
    requires { index < length response.now.on.items }
    ensures value { result ≡ reserve_in (schedule_of response.now) (suc index) }
    ensures bound { IsFrom (pos 0) (pos 4294967296) result }
{
    i64::from(*response.reserve.get(index))
}

/// The power above the least power in the period at an index, and 0 in an off period.
pub fn above(unit: &Unit, response: &Response, index: usize) -> i64
    requires { index < length response.now.on.items }
    ensures value { result ≡ above_min (thermal_of unit.now) (schedule_of response.now)
        (suc index) }
    ensures bound { IsFrom (neg_ℤ (pos 8589934592)) (pos 8589934592) result }
{
    if is_on(response, index) {
        power(response, index) - unit.min_power
    } else {
        0
    }
}

// The power above the least power in the state before the horizon, 0 where the unit is off.
fn above_at_first(unit: &Unit) -> i64
    ensures value { result ≡ (if unit.now.on0 then unit.now.power0
        -ℤ unit.now.min_power else pos 0) }
    ensures bound { IsFrom (neg_ℤ (pos 8589934592)) (pos 8589934592) result }
{
    if unit.on0 {
        unit.power0 - unit.min_power
    } else {
        0
    }
}

/// The power above the least power in the period before a place, 0 where the unit is off there; at
/// the first place, in the state before the horizon.
pub fn above_before(unit: &Unit, response: &Response, index: usize) -> i64
    requires { index ≤ length response.now.on.items }
    ensures value { result ≡ above_min (thermal_of unit.now) (schedule_of response.now) index }
    ensures bound { IsFrom (neg_ℤ (pos 8589934592)) (pos 8589934592) result }
{
    if index == 0 {
        above_at_first(unit)
    } else {
        above(unit, response, index - 1)
    }
}

/// The power above the least power with the reserve in the period at an index.
pub fn above_all(unit: &Unit, response: &Response, index: usize) -> i64
    requires { index < length response.now.on.items }
    ensures value { result ≡ above_with_reserve (thermal_of unit.now) (schedule_of response.now)
        (suc index) }
    ensures bound { IsFrom (neg_ℤ (pos 17179869184)) (pos 17179869184) result }
{
    above(unit, response, index) + reserve(response, index)
}

/// Whether the unit starts in the period at an index.
pub fn starts(unit: &Unit, response: &Response, index: usize) -> bool
    requires { index < length response.now.on.items }
    ensures { result ≡ starts_in (thermal_of unit.now) (schedule_of response.now) (suc index) }
{
    !was_on(unit, response, index) && is_on(response, index)
}

/// Whether the unit stops in the period at an index.
pub fn stops(unit: &Unit, response: &Response, index: usize) -> bool
    requires { index < length response.now.on.items }
    ensures { result ≡ stops_in (thermal_of unit.now) (schedule_of response.now) (suc index) }
{
    was_on(unit, response, index) && !is_on(response, index)
}
