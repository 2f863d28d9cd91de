//! The schedules of units and bids.
ghost use Rattle.std.specs.Prelude.{◌≡◌, ◌≤◌, IfOk, length, replicate, true};
ghost use Rattle.uc_model.specs.PlainUnits.{schedule_of};
ghost use Rattle.uc_model.specs.declared.limits.TheConstants.{MOST_PERIODS};
ghost use Rattle.uc_text.specs.View.{view};
ghost use Rattle.uc_text.specs.Given.{Gives};
ghost use Rattle.uc_plan.specs.Added.{HasLengths, IsFlat, IsShaped};
ghost use Rattle.uc_plan.specs.Plans.{listed_schedule, thermal_schedule, flat_schedule, schedule};
ghost use Rattle.uc_plan.specs.Views.{lists_of, AreFull};

use crate::fault::{ShapeCode, ShapeSite, ShapeStop};
use crate::numbers::read_schedule_items;
use crate::shapes::{ThermalLists, list_with_item_per_period, lists_of_thermal_schedule};
use plain_lists::lists::Flags;
use std::alloc::{AllocError, Global};
use uc_model::kinds::Kind;
use uc_model::units::{Powers, Response};
use uc_text::Branch;

/// The schedule of a thermal unit by its lists. `PlanNumber` at the first wrong item: of the flags,
/// then of the powers, and then of the reserves.
#[tactic(auto, unfolding(crate::specs::Plans::listed_schedule))]
pub fn read_thermal_schedule_lists(
    alloc: Global,
    at: ShapeSite,
    lists: ThermalLists<'_>,
    periods: u32,
) -> Result<Response, ShapeStop>
    requires horizon { periods ≤ MOST_PERIODS }
    requires full { AreFull periods (lists_of lists) }
    ensures lengths { IfOk result (λ r. HasLengths periods (schedule_of r)) }
    ensures value { Gives schedule_of result (listed_schedule at (lists_of lists.entry)) }
{
    let on = read_schedule_items::<bool>(alloc, at, lists.on)?;
    let power = read_schedule_items::<u32>(alloc, at, lists.power)?;
    let reserve = read_schedule_items::<u32>(alloc, at, lists.reserve)?;
    Ok(Response { on, power, reserve })
}

#[tactic(auto, unfolding(crate::specs::Plans::thermal_schedule))]
fn read_thermal(
    alloc: Global,
    at: ShapeSite,
    branch: Branch<'_>,
    periods: u32,
) -> Result<Response, ShapeStop>
    requires { periods ≤ MOST_PERIODS }
    ensures lengths { IfOk result (λ r. HasLengths periods (schedule_of r)) }
    ensures value { Gives schedule_of result (thermal_schedule periods at (view branch.entry)) }
{
    let Some(object) = branch.object() else {
        return Err(at.stop(0, ShapeCode::PlanShape));
    };
    let members = object.members(alloc)?;
    let Some(lists) = lists_of_thermal_schedule(&members, periods) else {
        return Err(at.stop(0, ShapeCode::PlanShape));
    };
    read_thermal_schedule_lists(alloc, at, lists, periods)
}

/// Powers over so many periods, on in each with reserve 0.
fn always_on_schedule_without_reserve(
    alloc: Global,
    power: Powers,
    periods: u32,
) -> Result<Response, AllocError>
    requires { length power.items ≡ periods }
    ensures lengths { IfOk result (λ r. HasLengths periods (schedule_of r)) }
    ensures flat { IfOk result (λ r. IsFlat (schedule_of r)) }
    ensures value { IfOk result (λ r. schedule_of r
        ≡ record {
          on = replicate periods true;
          power = power.items;
          reserve = replicate periods 0;
        }) }
{
    let on = Flags::filled(alloc, periods, true)?;
    let reserve = Powers::filled(alloc, periods, 0)?;
    Ok(Response { on, power, reserve })
}

#[tactic(auto, unfolding(crate::specs::Plans::flat_schedule))]
fn read_schedule_of_powers_alone(
    alloc: Global,
    at: ShapeSite,
    branch: Branch<'_>,
    periods: u32,
) -> Result<Response, ShapeStop>
    requires { periods ≤ MOST_PERIODS }
    ensures lengths { IfOk result (λ r. HasLengths periods (schedule_of r)) }
    ensures flat { IfOk result (λ r. IsFlat (schedule_of r)) }
    ensures value { Gives schedule_of result (flat_schedule periods at (view branch.entry)) }
{
    let Some(list) = list_with_item_per_period(branch, periods) else {
        return Err(at.stop(0, ShapeCode::PlanShape));
    };
    let power = read_schedule_items::<u32>(alloc, at, list)?;
    let response = always_on_schedule_without_reserve(alloc, power, periods)?;
    Ok(response)
}

/// The schedule of a unit or bid over so many periods, in kilowatts. `PlanShape` where the value
/// isn't the object or the list that is due, and then `PlanNumber` at its first wrong item.
#[tactic(auto, unfolding(crate::specs::Plans::schedule))]
pub(crate) fn read_schedule(
    alloc: Global,
    at: ShapeSite,
    branch: Branch<'_>,
    periods: u32,
) -> Result<Response, ShapeStop>
    requires { periods ≤ MOST_PERIODS }
    ensures shape { IfOk result (λ r. IsShaped at.kind periods (schedule_of r)) }
    ensures value { Gives schedule_of result (schedule periods at (view branch.entry)) }
{
    match at.kind {
        Kind::Thermal => read_thermal(alloc, at, branch, periods),
        Kind::Case => read_schedule_of_powers_alone(alloc, at, branch, periods),
        Kind::Renewable => read_schedule_of_powers_alone(alloc, at, branch, periods),
        Kind::Bid => read_schedule_of_powers_alone(alloc, at, branch, periods),
    }
}
