//! Schedules of generated thermal units: a unit stays as it is before the horizon, on or off.
ghost use Rattle.std.specs.Prelude.{◌≡◌, IfOk, map};
ghost use Rattle.std.specs.List.{range_with_len};
ghost use Rattle.uc_model.specs.PlainUnits.{schedule_of};
ghost use Rattle.case_make.specs.Drawn.{is_high, power_at, running, idle, unit_schedule};
ghost use Rattle.case_make.specs.Sizes.{AreDrawn};

use crate::draws::UnitDraws;
use crate::make::PERIODS;
use plain_lists::lists::Flags;
use std::alloc::{AllocError, Global};
use uc_model::units::{Answered, Powers, Response};

// Whether a period is one of high power; its place counts from 0.
#[tactic(auto, unfolding(crate::specs::Drawn::is_high))]
fn is_peak_hour(index: u32) -> bool
    ensures { result ≡ is_high index }
{
    let hour = index % 24;
    8 <= hour && hour <= 19
}

#[tactic(auto, unfolding(crate::specs::Drawn::power_at))]
fn power_of_hour(index: u32, level: u32, high: u32) -> u32
    ensures { result ≡ power_at level high index }
{
    if is_peak_hour(index) { high } else { level }
}

fn powers_with_peak_hours(alloc: Global, level: u32, high: u32) -> Result<Powers, AllocError>
    ensures { IfOk result (λ powers. powers.items
        ≡ map (power_at level high) (range_with_len 0 48)) }
{
    let mut powers = Powers::make(alloc, PERIODS)?;
    for index in 0..PERIODS {
        powers.push(power_of_hour(index, level, high));
    }
    Ok(powers)
}

#[tactic(auto, unfolding(crate::specs::Drawn::running))]
fn schedule_of_running_unit(
    alloc: Global,
    level: u32,
    high: u32,
    reserve: u32,
) -> Result<Response, AllocError>
    ensures { IfOk result (λ r. schedule_of r ≡ running level high reserve) }
{
    let on = Flags::filled(alloc, PERIODS, true)?;
    let power = powers_with_peak_hours(alloc, level, high)?;
    let reserve = Powers::filled(alloc, PERIODS, reserve)?;
    Ok(Response { on, power, reserve })
}

#[tactic(auto, unfolding(crate::specs::Drawn::idle))]
fn schedule_of_idle_unit(alloc: Global) -> Result<Response, AllocError>
    ensures { IfOk result (λ r. schedule_of r ≡ idle) }
{
    let answered = Answered::make(alloc, PERIODS)?;
    Ok(answered.response)
}

/// The schedule of a thermal unit: where it is on, it gives its level, and in the hours of high
/// power as much more as half its ramp allows.
#[tactic(auto, unfolding(crate::specs::Drawn::unit_schedule))]
pub fn unit_schedule(alloc: Global, draws: &UnitDraws) -> Result<Response, AllocError>
    requires { AreDrawn draws.now }
    ensures { IfOk result (λ r. schedule_of r ≡ unit_schedule draws.now) }
{
    if !draws.is_on() {
        return schedule_of_idle_unit(alloc);
    }
    schedule_of_running_unit(alloc, draws.level(), draws.high(), draws.reserve())
}
