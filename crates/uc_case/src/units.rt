//! The units of a case.
ghost use Rattle.std.specs.Prelude.{◌≡◌, ◌≤◌, IfOk, length};
ghost use Rattle.uc_model.specs.PlainUnits.{thermal_of, renewable_of};
ghost use Rattle.uc_model.specs.Limits.{IsThermalUnit, IsRenewableUnit};
ghost use Rattle.uc_model.specs.declared.limits.TheConstants.{MOST_PERIODS};
ghost use Rattle.uc_text.specs.View.{view, member_views};
ghost use Rattle.uc_text.specs.Given.{Gives};
ghost use Rattle.uc_case.specs.Kept.{IsRange, AreRamps, IsPast, AreUnitLists};
ghost use Rattle.uc_case.specs.Parts.{lists_of};
ghost use Rattle.uc_field.specs.Forms.{keys};
ghost use Rattle.uc_case.specs.Tables.{thermal_unit, renewable_unit, keyed_renewable};
ghost use Rattle.uc_case.specs.Tables.{first_crossed};
ghost use Rattle.uc_case.specs.Tables.{output, ramps, past, unit_lists, keyed_unit, joined_unit};
ghost use Rattle.uc_case.specs.Tables.{at_least_one};

use crate::parts::{Lists, Output, Past, Ramps};
use std::alloc::Global;
use uc_field::fault::{CaseCode, Field, Site};
use uc_field::forms::{FieldStop, members_of};
use uc_field::keys::Keys;
use uc_field::limits::{OUTPUT, POWER, TIME};
use uc_field::lists::{read_cost_curve_points, read_powers, read_startup_lags};
use uc_field::windows::read_commitment;
use uc_model::units::{Renewable, Unit};
use uc_text::Branch;

fn period_count_at_least_one(time: u32) -> u32
    ensures { result ≡ at_least_one time }
{
    if time == 0 { 1 } else { time }
}

#[tactic(auto, unfolding(crate::specs::Tables::output))]
fn read_must_run_and_power_limits(u: &Keys) -> Result<Output, FieldStop>
    ensures fits { IfOk result (λ o. IsRange o) }
    ensures value { Gives (λ o. o) result
        (output (keys u.now.at (member_views u.now.members.items))) }
{
    let must_run = u.flag(Field::MustRun)?;
    let least = u.power(Field::PowerOutputMinimum, POWER)?;
    let most = u.power(Field::PowerOutputMaximum, OUTPUT)?;
    if most < least {
        return Err(
            u.at.field(Field::PowerOutputMinimum)
                .stop(CaseCode::RangeOrder),
        );
    }
    Ok(Output {
        must_run,
        least,
        most,
    })
}

#[tactic(auto, unfolding(crate::specs::Tables::ramps))]
fn read_ramps(u: &Keys) -> Result<Ramps, FieldStop>
    ensures fits { IfOk result (λ r. AreRamps r) }
    ensures value { Gives (λ r. r) result
        (ramps (keys u.now.at (member_views u.now.members.items))) }
{
    let up = u.power(Field::RampUpLimit, POWER)?;
    let down = u.power(Field::RampDownLimit, POWER)?;
    let start = u.power(Field::RampStartupLimit, POWER)?;
    let stop = u.power(Field::RampShutdownLimit, POWER)?;
    Ok(Ramps {
        up,
        down,
        start,
        stop,
    })
}

#[tactic(auto, unfolding(crate::specs::Tables::past))]
fn read_minimum_times_and_initial_state(u: &Keys) -> Result<Past, FieldStop>
    ensures fits { IfOk result (λ p. IsPast p) }
    ensures value { Gives (λ p. p) result
        (past (keys u.now.at (member_views u.now.members.items))) }
{
    let min_up = period_count_at_least_one(u.time(Field::TimeUpMinimum, TIME)?);
    let min_down = period_count_at_least_one(u.time(Field::TimeDownMinimum, TIME)?);
    let power = u.power(Field::PowerOutputT0, OUTPUT)?;
    let on = u.flag(Field::UnitOnT0)?;
    let up = u.time(Field::TimeUpT0, TIME)?;
    let down = u.time(Field::TimeDownT0, TIME)?;
    Ok(Past {
        min_up,
        min_down,
        power,
        on,
        up,
        down,
    })
}

#[tactic(auto, unfolding(crate::specs::Tables::unit_lists))]
fn read_startup_curve_and_commitment(
    alloc: Global,
    u: &Keys,
    output: Output,
    periods: u32,
) -> Result<Lists, FieldStop>
    requires { periods ≤ MOST_PERIODS }
    ensures fits { IfOk result (λ l. AreUnitLists output periods (lists_of l)) }
    ensures value { Gives lists_of result
        (unit_lists periods output (keys u.now.at (member_views u.now.members.items))) }
{
    let lags = read_startup_lags(alloc, u)?;
    let points = read_cost_curve_points(alloc, u, output.least, output.most)?;
    let window = read_commitment(alloc, u, periods)?;
    Ok(Lists {
        lags,
        points,
        window,
    })
}

/// The thermal unit of these parts.
fn unit_of_parts(output: Output, ramps: Ramps, past: Past, lists: Lists, periods: u32) -> Unit
    requires some { 1 ≤ periods }
    requires horizon { periods ≤ MOST_PERIODS }
    requires range { IsRange output }
    requires ramps { AreRamps ramps }
    requires past { IsPast past }
    requires lists { AreUnitLists output periods (lists_of lists) }
    ensures fits { IsThermalUnit (thermal_of result) × (length result.window.items ≡ periods) }
    ensures value { thermal_of result ≡ joined_unit output ramps past (lists_of lists) }
{
    Unit {
        must_run: output.must_run,
        min_power: output.least,
        max_power: output.most,
        ramp_up: ramps.up,
        ramp_down: ramps.down,
        start_limit: ramps.start,
        stop_limit: ramps.stop,
        min_up: past.min_up,
        min_down: past.min_down,
        power0: past.power,
        on0: past.on,
        up0: past.up,
        down0: past.down,
        lags: lists.lags,
        points: lists.points,
        window: lists.window,
    }
}

#[tactic(auto, unfolding(crate::specs::Tables::keyed_unit))]
fn read_thermal_unit_from_fields(alloc: Global, u: &Keys, periods: u32) -> Result<Unit, FieldStop>
    requires some { 1 ≤ periods }
    requires horizon { periods ≤ MOST_PERIODS }
    ensures fits { IfOk result (λ u. IsThermalUnit (thermal_of u)
        × (length u.window.items ≡ periods)) }
    ensures value { Gives thermal_of result
        (keyed_unit periods (keys u.now.at (member_views u.now.members.items))) }
{
    let output = read_must_run_and_power_limits(u)?;
    let ramps = read_ramps(u)?;
    let past = read_minimum_times_and_initial_state(u)?;
    let lists = read_startup_curve_and_commitment(alloc, u, output, periods)?;
    Ok(unit_of_parts(output, ramps, past, lists, periods))
}

/// A thermal unit, or the first of its faults in the order of its fields.
#[tactic(auto, unfolding(crate::specs::Tables::thermal_unit))]
pub fn read_unit(
    alloc: Global,
    at: Site,
    branch: Branch<'_>,
    periods: u32,
) -> Result<Unit, FieldStop>
    requires some { 1 ≤ periods }
    requires horizon { periods ≤ MOST_PERIODS }
    ensures fits { IfOk result (λ u. IsThermalUnit (thermal_of u)
        × (length u.window.items ≡ periods)) }
    ensures value { Gives thermal_of result (thermal_unit periods at (view branch.entry)) }
{
    let u = Keys {
        at,
        members: members_of(alloc, at, branch)?,
    };
    read_thermal_unit_from_fields(alloc, &u, periods)
}

/// The position of the first least power above its greatest, or 0.
fn first_period_of_crossed_power_limits(least: &[i64], most: &[i64]) -> u32
    requires one { length least.now ≤ MOST_PERIODS }
    requires same { length most.now ≡ length least.now }
    ensures { result ≡ first_crossed 1 least.now most.now }
{
    let mut position = 0;
    for low in least {
        let high = most[position as usize];
        position += 1;
        if high < *low {
            return position;
        }
    }
    0
}

#[tactic(auto, unfolding(crate::specs::Tables::keyed_renewable))]
fn read_renewable_from_fields(alloc: Global, u: &Keys, periods: u32) -> Result<Renewable, FieldStop>
    requires some { 1 ≤ periods }
    requires horizon { periods ≤ MOST_PERIODS }
    ensures fits { IfOk result (λ r. IsRenewableUnit (renewable_of r)
        × (length r.least.items ≡ periods)) }
    ensures value { Gives renewable_of result
        (keyed_renewable periods (keys u.now.at (member_views u.now.members.items))) }
{
    let least = read_powers(alloc, u, Field::PowerOutputMinimum, periods)?;
    let most = read_powers(alloc, u, Field::PowerOutputMaximum, periods)?;
    let crossed = first_period_of_crossed_power_limits(least.as_slice(), most.as_slice());
    if crossed > 0 {
        return Err(
            u.at.field(Field::PowerOutputMinimum)
                .item(crossed)
                .stop(CaseCode::RangeOrder),
        );
    }
    Ok(Renewable { least, most })
}

/// A renewable unit, or the first of its faults in the order of its fields; then `RangeOrder` at
/// the first period whose least power is above its greatest.
#[tactic(auto, unfolding(crate::specs::Tables::renewable_unit))]
pub fn read_renewable(
    alloc: Global,
    at: Site,
    branch: Branch<'_>,
    periods: u32,
) -> Result<Renewable, FieldStop>
    requires some { 1 ≤ periods }
    requires horizon { periods ≤ MOST_PERIODS }
    ensures fits { IfOk result (λ r. IsRenewableUnit (renewable_of r)
        × (length r.least.items ≡ periods)) }
    ensures value { Gives renewable_of result (renewable_unit periods at (view branch.entry)) }
{
    let u = Keys {
        at,
        members: members_of(alloc, at, branch)?,
    };
    read_renewable_from_fields(alloc, &u, periods)
}
