//! The step of a spell over one period, on the function of least costs by the power at its end.
ghost use Rattle.std.specs.Prelude.{◌≡◌, suc, ◌==◌, ◌^◌, ◌<◌, ◌⊎◌, pos, ◌+ℤ◌, if◌then◌else◌};
ghost use Rattle.std.specs.Prelude.{length};
ghost use Rattle.std.specs.Bool.{OnTrue};
ghost use Rattle.std.specs.Int.{int_min};
ghost use Rattle.spell_run.specs.Steps.{cap_at, step_at, IsFairStep};
ghost use Rattle.uc_model.specs.PlainUnits.{thermal_of, prices_of};

pub use slope_list::step_terms::Step;
use uc_model::rules::cap;
use uc_model::units::{Prices, Unit};

/// Whether a spell starts in the period at an index; `first` 0 stands for one that goes on from
/// before period 1.
pub(crate) fn starts_in_period(first: u32, index: usize) -> bool
    requires { suc index < 2 ^ 32 }
    ensures { result ≡ (first == suc index) }
{
    first as usize == index + 1
}

/// The greatest power with reserve in a period where the unit starts, or stops after it.
fn power_and_reserve_cap_in_period(unit: &Unit, starts: bool, stops: bool) -> i64
    ensures { result ≡ cap_at (thermal_of unit.now) starts stops }
{
    cap(unit, starts, stops) + unit.min_power
}

/// The greatest power under a cap: before a stop it is within a fall of the least power.
fn greatest_power_in_period(unit: &Unit, cap: i64, stops: bool) -> i64
    ensures { result ≡ (if stops then int_min cap (unit.now.min_power +ℤ unit.now.ramp_down) else
        cap) }
{
    if stops {
        cap.min(unit.min_power + unit.ramp_down)
    } else {
        cap
    }
}

/// The step over the period at an index of the horizon, where the unit starts in it, or stops after
/// it.
pub fn step_terms_of_period(
    unit: &Unit,
    prices: &Prices,
    index: usize,
    starts: bool,
    stops: bool,
) -> Step
    requires { index < length (prices_of prices.now).energy }
    ensures step { result ≡ step_at (thermal_of unit.now) (prices_of prices.now) index starts
        stops }
    ensures fair { IsFairStep result }
{
    let cap = power_and_reserve_cap_in_period(unit, starts, stops);
    let energy_price = *prices.energy.get(index);
    let reserve_price = *prices.reserve.get(index);
    Step {
        least: unit.min_power,
        most: greatest_power_in_period(unit, cap, stops),
        cap,
        ramp_up: unit.ramp_up,
        ramp_down: unit.ramp_down,
        reserve_price,
        slope: reserve_price - energy_price,
    }
}

/// Whether a step before a stop differs from one without in the range of the power alone: reserve
/// isn't paid for, or the cap is the same.
pub fn are_steps_same_but_for_power_range(on: Step, last: Step) -> bool
    ensures { OnTrue result ((on.reserve_price ≡ pos 0) ⊎ (last.cap ≡ on.cap)) }
{
    on.reserve_price == 0 || last.cap == on.cap
}
