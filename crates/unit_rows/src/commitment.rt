//! Which spells and times off the commitment rules allow. Periods count from 1; 0 is the state
//! before the horizon.
ghost use Rattle.std.specs.Prelude.{◌≡◌, ℕ, ◌+◌, ◌<◌, ◌≤◌, ◌↔◌, ◌⊎◌, IsTrue, IsFalse, IfSome, Some};
ghost use Rattle.std.specs.Prelude.{length, suc};
ghost use Rattle.uc_model.specs.PlainUnits.{thermal_of};
ghost use Rattle.uc_model.specs.Schedules.{mark_in};
ghost use Rattle.uc_model.specs.declared.limits.TheConstants.{MOST_PERIODS};
ghost use Rattle.unit_rows.specs.Origins.{IsRipe};
ghost use Rattle.unit_rows.specs.Spells.{off_time, on_time, IsOffRun, StopsAtOnce};

use uc_model::units::{Mark, Unit};

// The last of the first `until` periods that is marked `MustOn`, and 0 where none is.
fn last_must_on(marks: &[Mark], until: u32) -> u32
    requires end { until ≤ length marks.now }
    ensures within { result ≤ until }
    ensures marked { 1 ≤ result → mark_in marks.now result ≡ Mark.MustOn }
    ensures last { (t : ℕ) → result < t → t ≤ until → mark_in marks.now t ≡ Mark.MustOn → ⊥ }
{
    let mut last = 0;
    for index in 0..until {
        if marks[index as usize] == Mark::MustOn {
            last = index + 1;
        }
    }
    last
}

/// The earliest on period from which on the unit may be off to the end of period `until`: after
/// that one and after each later one it may.
pub fn earliest_allowed_last_on_period(unit: &Unit, until: u32) -> u32
    requires { until ≤ length (thermal_of unit.now).window }
    ensures within { result ≤ until }
    ensures yes { (last : ℕ) → result ≤ last → last ≤ until
        → IsOffRun (thermal_of unit.now) last until }
    ensures no { (last : ℕ) → IsOffRun (thermal_of unit.now) last until → result ≤ last }
{
    if unit.must_run {
        return until;
    }
    last_must_on(unit.window.as_slice(), until)
}

/// Whether the period at an index is marked `MustOff`.
pub fn is_must_off(unit: &Unit, index: u32) -> bool
    requires { index < length (thermal_of unit.now).window }
    ensures yes { IsTrue result → mark_in (thermal_of unit.now).window (suc index) ≡ Mark.MustOff }
    ensures no { IsFalse result → mark_in (thermal_of unit.now).window (suc index) ≡ Mark.MustOff
        → ⊥ }
{
    unit.window.as_slice()[index as usize] == Mark::MustOff
}

/// Whether the unit must be on in the period at an index.
pub(crate) fn must_be_on(unit: &Unit, index: u32) -> bool
    requires { index < length (thermal_of unit.now).window }
    ensures yes { IsTrue result →
        IsTrue unit.now.must_run
        ⊎ (mark_in (thermal_of unit.now).window (suc index) ≡ Mark.MustOn) }
    ensures no { IsFalse result →
        IsFalse unit.now.must_run
        × (mark_in (thermal_of unit.now).window (suc index) ≡ Mark.MustOn → ⊥) }
{
    unit.must_run || unit.window.as_slice()[index as usize] == Mark::MustOn
}

/// The time off at the end of a period in periods, where `last` is the last on period.
pub fn periods_off(unit: &Unit, last: u32, period: u32) -> u64
    requires { last ≤ period }
    ensures { result ≡ off_time (thermal_of unit.now) last period }
{
    if last > 0 {
        u64::from(period - last)
    } else if unit.on0 {
        u64::from(period)
    } else {
        u64::from(unit.down0) + u64::from(period)
    }
}

/// The last on period since which the unit has been off for long enough at the end of a period, and
/// a period before it hadn't been.
pub(crate) fn stop_with_min_down_just_met(unit: &Unit, period: u32) -> Option<u32>
    requires { period ≤ MOST_PERIODS }
    ensures some { IfSome result (IsRipe (thermal_of unit.now) period) }
    ensures only { (last : ℕ) → IsRipe (thermal_of unit.now) period last → result ≡ Some last }
{
    if period > unit.min_down {
        return Some(period - unit.min_down);
    }
    let down = periods_off(unit, 0, period);
    if down < u64::from(unit.min_down) {
        return None;
    }
    if period > 0 && down > u64::from(unit.min_down) {
        return None;
    }
    Some(0)
}

// The time on at the end of a spell in periods.
fn periods_on(unit: &Unit, first: u32, last: u32) -> u64
    requires { first ≤ last }
    ensures { result ≡ on_time (thermal_of unit.now) first last }
{
    if first > 0 {
        u64::from(last - first) + 1
    } else {
        u64::from(unit.up0) + u64::from(last)
    }
}

/// Whether the unit has been on for long enough to stop after a spell.
pub fn is_min_up_met_by_spell(unit: &Unit, first: u32, last: u32) -> bool
    requires { first ≤ last }
    ensures { IsTrue result
        ↔ ((thermal_of unit.now).min_up ≤ on_time (thermal_of unit.now) first last) }
{
    u64::from(unit.min_up) <= periods_on(unit, first, last)
}

/// Whether the unit has been on for long enough to stop after a spell, or the horizon ends with it.
pub fn may_end_spell(unit: &Unit, periods: u32, first: u32, last: u32) -> bool
    requires { first ≤ last }
    ensures yes { IsTrue result → last < periods
        → (thermal_of unit.now).min_up ≤ on_time (thermal_of unit.now) first last }
    ensures no { IsFalse result → (last < periods)
        × (on_time (thermal_of unit.now) first last < (thermal_of unit.now).min_up) }
{
    last >= periods || periods_on(unit, first, last) >= u64::from(unit.min_up)
}

/// Whether a unit that is on before the horizon may stop in period 1, as far as its output goes.
pub fn may_stop_at_once(unit: &Unit) -> bool
    ensures yes { IsTrue result → StopsAtOnce (thermal_of unit.now) }
    ensures no { IsFalse result → StopsAtOnce (thermal_of unit.now) → ⊥ }
{
    if unit.power0 > unit.stop_limit.min(unit.max_power) {
        return false;
    }
    if unit.power0 > unit.min_power + unit.ramp_down {
        return false;
    }
    unit.min_power <= unit.power0 + unit.ramp_up
}
