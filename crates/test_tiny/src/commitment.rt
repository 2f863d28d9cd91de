//! The commitment rules, each for the period at one place.
ghost use Rattle.std.specs.Prelude.{◌≡◌, ◌≤◌, ◌<◌, ◌-◌, suc, length, IsTrue, IsFalse, ◌↔◌};
ghost use Rattle.test_tiny.specs.Rules.{StaysOnFrom, StaysOffFrom, KeepsCommitmentAt};
ghost use Rattle.uc_model.specs.PlainUnits.{thermal_of, schedule_of};
ghost use Rattle.uc_model.specs.Schedules.{on_in, starts_in, stops_in, mark_in};

use crate::state::{is_on, starts, stops, was_on};
use uc_model::units::{Mark, Response, Unit};

// A must-run unit is on.
fn must_run_holds(unit: &Unit, response: &Response, index: usize) -> bool
    requires { index < length response.now.on.items }
    ensures { IsTrue result ↔ (IsTrue unit.now.must_run
        → IsTrue (on_in (thermal_of unit.now) (schedule_of response.now) (suc index))) }
{
    !unit.must_run || is_on(response, index)
}

// A unit that is on before the horizon stays so until its minimum time up is over.
fn first_on_holds(unit: &Unit, response: &Response, index: usize) -> bool
    requires { index < length response.now.on.items }
    ensures { IsTrue result ↔ (IsTrue unit.now.on0 → suc index ≤ unit.now.min_up - unit.now.up0
        → IsTrue (on_in (thermal_of unit.now) (schedule_of response.now) (suc index))) }
{
    let over = index >= unit.min_up.saturating_sub(unit.up0) as usize;
    !unit.on0 || over || is_on(response, index)
}

// A unit that is off before the horizon stays so until its minimum time down is over.
fn first_off_holds(unit: &Unit, response: &Response, index: usize) -> bool
    requires { index < length response.now.on.items }
    ensures { IsTrue result ↔ (IsFalse unit.now.on0 → suc index ≤ unit.now.min_down - unit.now.down0
        → IsFalse (on_in (thermal_of unit.now) (schedule_of response.now) (suc index))) }
{
    let over = index >= unit.min_down.saturating_sub(unit.down0) as usize;
    unit.on0 || over || !is_on(response, index)
}

// Whether the unit is on from the period at an index for its minimum time up, as far as the horizon
// goes.
fn stays_on(unit: &Unit, response: &Response, index: usize) -> bool
    requires index { index < length response.now.on.items }
    requires lengths { length response.now.on.items ≡ length unit.now.window.items }
    ensures { IsTrue result ↔ StaysOnFrom (thermal_of unit.now) (schedule_of response.now) index }
{
    let end = unit.window.len().min(index + unit.min_up as usize);
    for later in index..end {
        if !is_on(response, later) {
            return false;
        }
    }
    true
}

// Whether the unit is off from the period at an index for its minimum time down, as far as the
// horizon goes.
fn stays_off(unit: &Unit, response: &Response, index: usize) -> bool
    requires index { index < length response.now.on.items }
    requires lengths { length response.now.on.items ≡ length unit.now.window.items }
    ensures { IsTrue result ↔ StaysOffFrom (thermal_of unit.now) (schedule_of response.now) index }
{
    let end = unit.window.len().min(index + unit.min_down as usize);
    for later in index..end {
        if is_on(response, later) {
            return false;
        }
    }
    true
}

// A start is followed by the minimum time up.
fn min_up_holds(unit: &Unit, response: &Response, index: usize) -> bool
    requires index { index < length response.now.on.items }
    requires lengths { length response.now.on.items ≡ length unit.now.window.items }
    ensures { IsTrue result
        ↔ (IsTrue (starts_in (thermal_of unit.now) (schedule_of response.now) (suc index))
        → StaysOnFrom (thermal_of unit.now) (schedule_of response.now) index) }
{
    !starts(unit, response, index) || stays_on(unit, response, index)
}

// A stop is followed by the minimum time down.
fn min_down_holds(unit: &Unit, response: &Response, index: usize) -> bool
    requires index { index < length response.now.on.items }
    requires lengths { length response.now.on.items ≡ length unit.now.window.items }
    ensures { IsTrue result
        ↔ (IsTrue (stops_in (thermal_of unit.now) (schedule_of response.now) (suc index))
        → StaysOffFrom (thermal_of unit.now) (schedule_of response.now) index) }
{
    !stops(unit, response, index) || stays_off(unit, response, index)
}

// What the window asks of the period at an index.
fn mark(unit: &Unit, index: usize) -> Mark
    requires { index < length unit.now.window.items }
    ensures { result ≡ mark_in (thermal_of unit.now).window (suc index) }
{
    *unit.window.get(index)
}

// The unit is on where its window asks for it.
fn must_on_holds(unit: &Unit, response: &Response, index: usize) -> bool
    requires index { index < length response.now.on.items }
    requires lengths { length response.now.on.items ≡ length unit.now.window.items }
    ensures { IsTrue result ↔ (mark_in (thermal_of unit.now).window (suc index) ≡ Mark.MustOn
        → IsTrue (on_in (thermal_of unit.now) (schedule_of response.now) (suc index))) }
{
    mark(unit, index) != Mark::MustOn || is_on(response, index)
}

// The unit is off where its window asks for it.
fn must_off_holds(unit: &Unit, response: &Response, index: usize) -> bool
    requires index { index < length response.now.on.items }
    requires lengths { length response.now.on.items ≡ length unit.now.window.items }
    ensures { IsTrue result ↔ (mark_in (thermal_of unit.now).window (suc index) ≡ Mark.MustOff
        → IsFalse (on_in (thermal_of unit.now) (schedule_of response.now) (suc index))) }
{
    mark(unit, index) != Mark::MustOff || !is_on(response, index)
}

/// Whether the on flags keep each commitment rule in the period at an index.
pub fn keeps_commitment(unit: &Unit, response: &Response, index: usize) -> bool
    requires index { index < length response.now.on.items }
    requires lengths { length response.now.on.items ≡ length unit.now.window.items }
    ensures { IsTrue result ↔ KeepsCommitmentAt (thermal_of unit.now) (schedule_of response.now)
        index }
{
    must_run_holds(unit, response, index)
        && first_on_holds(unit, response, index)
        && first_off_holds(unit, response, index)
        && min_up_holds(unit, response, index)
        && min_down_holds(unit, response, index)
        && must_on_holds(unit, response, index)
        && must_off_holds(unit, response, index)
}
