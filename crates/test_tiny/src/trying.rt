//! The least of the best schedules, by trying all of them in the order for ties.
ghost use Rattle.std.specs.Prelude.{◌≡◌, ◌<◌, suc, pos, false, length, replicate};
ghost use Rattle.std.specs.Prelude.{IfOk, IfSome, IfNone};
ghost use Rattle.test_tiny.specs.Counts.{schedules_after, IsWithin};
ghost use Rattle.test_tiny.specs.Tries.{IsKept};
ghost use Rattle.uc_model.specs.Data.{Thermal, Schedule};
ghost use Rattle.uc_model.specs.Earnings.{earnings};
ghost use Rattle.uc_model.specs.PlainUnits.{thermal_of, schedule_of, prices_of};
ghost use Rattle.uc_model.specs.Schedules.{IsThermalFeasible};
ghost use Rattle.uc_model.specs.Ties.{IsLeast};

use crate::earnings::feasible_earnings;
use crate::feasible::is_feasible;
use crate::order::next_schedule;
use plain_lists::lists::{Flags, copy_list};
use std::alloc::{AllocError, Global};
use uc_model::units::{Answered, Powers, Prices, Response, Unit};

// Leaves a response in another of the same length.
fn copy_response(from: &Response, into: &mut Response)
    requires { length from.now.on.items ≡ length into.old.on.items }
    ensures { schedule_of into.new ≡ schedule_of from.now }
{
    copy_list(&from.on, &mut into.on);
    copy_list(&from.power, &mut into.power);
    copy_list(&from.reserve, &mut into.reserve);
}

// Keeps a schedule that is feasible and earns more than the one that is kept, if one is.
fn consider(
    unit: &Unit,
    prices: &Prices,
    most: u32,
    candidate: &Response,
    found: bool,
    kept: &mut Answered,
) -> bool
    requires horizon { length unit.now.window.items ≡ length prices.now.energy.items }
    requires length { length candidate.now.on.items ≡ length prices.now.energy.items }
    requires room { length kept.old.response.on.items ≡ length prices.now.energy.items }
    requires most { pos most ≡ unit.now.max_power }
    requires within { IsWithin most (schedule_of candidate.now) }
    requires kept { IsKept (thermal_of unit.now) (prices_of prices.now) most
        (suc (schedules_after most (schedule_of candidate.now))) found
        (schedule_of kept.old.response) kept.old.earned }
    ensures kept { IsKept (thermal_of unit.now) (prices_of prices.now) most
        (schedules_after most (schedule_of candidate.now)) result (schedule_of kept.new.response)
        kept.new.earned }
    ensures room { length kept.new.response.on.items ≡ length prices.now.energy.items }
{
    if !is_feasible(unit, candidate) {
        return found;
    }
    let earned = feasible_earnings(unit, prices, candidate);
    if found && earned <= kept.earned {
        return true;
    }
    copy_response(candidate, &mut kept.response);
    kept.earned = earned;
    true
}

// Tries the candidate and all schedules that come after it.
fn try_from(
    unit: &Unit,
    prices: &Prices,
    most: u32,
    candidate: &mut Response,
    kept: &mut Answered,
) -> bool
    requires horizon { length unit.now.window.items ≡ length prices.now.energy.items }
    requires length { length candidate.old.on.items ≡ length prices.now.energy.items }
    requires room { length kept.old.response.on.items ≡ length prices.now.energy.items }
    requires most { pos most ≡ unit.now.max_power }
    requires within { IsWithin most (schedule_of candidate.old) }
    requires kept { IsKept (thermal_of unit.now) (prices_of prices.now) most
        (suc (schedules_after most (schedule_of candidate.old))) false
        (schedule_of kept.old.response) kept.old.earned }
    ensures { IsKept (thermal_of unit.now) (prices_of prices.now) most 0 result
        (schedule_of kept.new.response) kept.new.earned }
{
    let mut found = false;
    'tries: loop {
        found = consider(unit, prices, most, candidate, found, kept);
        if !next_schedule(candidate, most) {
            return found;
        }
    }
}

// Off in every period.
fn all_off(alloc: Global, periods: u32) -> Result<Response, AllocError>
    ensures on { IfOk result (λ r. (schedule_of r).on ≡ replicate periods false) }
    ensures power { IfOk result (λ r. (schedule_of r).power ≡ replicate periods 0) }
    ensures reserve { IfOk result (λ r. (schedule_of r).reserve ≡ replicate periods 0) }
{
    let on = Flags::filled(alloc, periods, false)?;
    let power = Powers::filled(alloc, periods, 0)?;
    let reserve = Powers::filled(alloc, periods, 0)?;
    Ok(Response { on, power, reserve })
}

/// The least of the best responses of a unit at prices over its horizon, and what it earns in
/// money; None exactly where no schedule of the unit is feasible. All on flags, powers and reserves
/// up to the greatest power are tried: 2, p + 1 and p + 1 choices in each period for a unit of p
/// kilowatts. So this is for one to three periods and a few kilowatts.
pub fn least_by_trying(
    alloc: Global,
    unit: &Unit,
    prices: &Prices,
) -> Result<Option<Answered>, AllocError>
    requires { length (thermal_of unit.now).window ≡ length (prices_of prices.now).energy }
    ensures least { IfOk result
        (λ o. IfSome o (λ a. IsLeast (Thermal (thermal_of unit.now)) (prices_of prices.now)
        (schedule_of a.response))) }
    ensures earned { IfOk result
        (λ o. IfSome o (λ a. a.earned ≡ earnings (Thermal (thermal_of unit.now))
        (prices_of prices.now) (schedule_of a.response))) }
    ensures none { IfOk result (λ o. IfNone o ((s : Schedule)
        → IsThermalFeasible (thermal_of unit.now) (length (thermal_of unit.now).window) s → ⊥)) }
{
    let periods = unit.window.len() as u32;
    let most = unit.max_power as u32;
    let mut candidate = all_off(alloc, periods)?;
    let mut kept = Answered::make(alloc, periods)?;
    if try_from(unit, prices, most, &mut candidate, &mut kept) {
        Ok(Some(kept))
    } else {
        Ok(None)
    }
}
