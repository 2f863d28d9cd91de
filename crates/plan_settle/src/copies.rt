//! Copies of what a case has, in memory of their own.
ghost use Rattle.std.specs.Prelude.{◌≡◌, ◌<◌, ◌≤◌, length, map, IfOk};
ghost use Rattle.uc_model.specs.PlainUnits.{renewable_of, bid_of, thermal_of, schedule_of};
ghost use Rattle.plain_lists.specs.declared.limits.TheConstants.{MOST_UNITS};
ghost use Rattle.uc_model.specs.declared.limits.TheConstants.{MOST_PERIODS};
ghost use Rattle.plan_settle.specs.FixedCase.{held_mark, held_unit};

use plain_lists::lists::{Flags, ReservedList, copy_list};
use std::alloc::{AllocError, Global};
use uc_model::units::{Bid, BlockLists, Mark, Marks, Renewable, Response, Unit};

/// A list of the same items.
pub fn copied_list<T: Copy + Drop>(
    alloc: Global,
    from: &ReservedList<T>,
) -> Result<ReservedList<T>, AllocError>
    requires { length from.now.items ≤ MOST_UNITS }
    ensures { IfOk result (λ list. list.items ≡ from.now.items) }
{
    let mut into = ReservedList::make(alloc, from.len() as u32)?;
    copy_list(from, &mut into);
    Ok(into)
}

/// The same renewable unit.
pub fn copied_renewable(alloc: Global, flat: &Renewable) -> Result<Renewable, AllocError>
    ensures { IfOk result (λ r. renewable_of r ≡ renewable_of flat.now) }
{
    let least = copied_list(alloc, &flat.least)?;
    let most = copied_list(alloc, &flat.most)?;
    Ok(Renewable { least, most })
}

/// The same bid.
pub fn copied_bid(alloc: Global, bid: &Bid) -> Result<Bid, AllocError>
    ensures { IfOk result (λ b. bid_of b ≡ bid_of bid.now) }
{
    let mut blocks = BlockLists::make(alloc, bid.blocks.len() as u32)?;
    for index in 0..bid.blocks.len() {
        blocks.push(copied_list(alloc, bid.blocks.get(index))?);
    }
    Ok(Bid { blocks })
}

// On where the schedule is on, and off elsewhere.
fn mark_of_fixed_commitment(on: bool) -> Mark
    ensures { result ≡ held_mark on }
{
    if on { Mark::MustOn } else { Mark::MustOff }
}

// The window that holds these flags.
fn window_of_fixed_commitment(alloc: Global, on: &Flags) -> Result<Marks, AllocError>
    requires { length on.now.items ≤ MOST_PERIODS }
    ensures { IfOk result (λ window. window.items ≡ map held_mark on.now.items) }
{
    let mut window = Marks::make(alloc, on.len() as u32)?;
    for index in 0..on.len() {
        window.push(mark_of_fixed_commitment(*on.get(index)));
    }
    Ok(window)
}

/// The thermal unit, held to the response's commitment.
pub fn copy_unit_with_fixed_commitment(
    alloc: Global,
    unit: &Unit,
    response: &Response,
) -> Result<Unit, AllocError>
    requires { length (schedule_of response.now).on ≡ length (thermal_of unit.now).window }
    ensures { IfOk result (λ u. thermal_of u
        ≡ held_unit (thermal_of unit.now) (schedule_of response.now)) }
{
    let lags = copied_list(alloc, &unit.lags)?;
    let points = copied_list(alloc, &unit.points)?;
    let window = window_of_fixed_commitment(alloc, &response.on)?;
    Ok(Unit {
        must_run: unit.must_run,
        min_power: unit.min_power,
        max_power: unit.max_power,
        ramp_up: unit.ramp_up,
        ramp_down: unit.ramp_down,
        start_limit: unit.start_limit,
        stop_limit: unit.stop_limit,
        min_up: unit.min_up,
        min_down: unit.min_down,
        power0: unit.power0,
        on0: unit.on0,
        up0: unit.up0,
        down0: unit.down0,
        lags,
        points,
        window,
    })
}
