//! Generated thermal units.
ghost use Rattle.std.specs.Prelude.{◌≡◌, ◌+◌, ◌*◌, ◌<◌, ◌≤◌, ◌^◌, IfOk, pos, map, if◌then◌else◌};
ghost use Rattle.std.specs.List.{range_with_len};
ghost use Rattle.uc_model.specs.PlainUnits.{thermal_of};
ghost use Rattle.case_make.specs.Drawn.{is_on, level_of, lags_of, cost_of, point_of};
ghost use Rattle.case_make.specs.Drawn.{unit_of};
ghost use Rattle.case_make.specs.Sizes.{AreDrawn};

use crate::draws::UnitDraws;
use crate::make::PERIODS;
use std::alloc::{AllocError, Global};
use uc_model::units::{Lag, Lags, Mark, Marks, Point, Points, Unit};

// Money from 0 to 10^13.
fn money_of_amount(amount: u64) -> i64
    requires { amount ≤ 10000000000000 }
    ensures { result ≡ pos amount }
{
    amount as i64
}

// A start costs more after a longer time down.
#[tactic(auto, unfolding(crate::specs::Drawn::lags_of))]
fn startup_lags_of_draws(alloc: Global, draws: &UnitDraws) -> Result<Lags, AllocError>
    requires { AreDrawn draws.now }
    ensures { IfOk result (λ lags. lags.items ≡ lags_of draws.now) }
{
    let cost = 100_000_000 * u64::from(draws.start_hundreds);
    let first = draws.min_down;
    let mut lags = Lags::make(alloc, 3)?;
    lags.push(Lag {
        lag: first,
        cost: money_of_amount(cost),
    });
    lags.push(Lag {
        lag: first + 4,
        cost: money_of_amount(2 * cost),
    });
    lags.push(Lag {
        lag: first + 12,
        cost: money_of_amount(3 * cost),
    });
    Ok(lags)
}

// What the least power costs in a period.
#[tactic(auto, unfolding(crate::specs::Drawn::cost_of))]
fn cost_at_least_power(draws: &UnitDraws) -> u64
    requires { AreDrawn draws.now }
    ensures { result ≡ cost_of draws.now 0 }
{
    1000 * u64::from(draws.energy_cost) * u64::from(draws.min_power())
}

// What the power of the point after a place costs in a period, where that of the place's point
// costs so much.
#[tactic(auto, unfolding(crate::specs::Drawn::cost_of))]
fn cost_at_next_curve_point(draws: &UnitDraws, cost: u64, index: u32) -> u64
    requires draws { AreDrawn draws.now }
    requires index { index < 3 }
    requires cost { cost ≡ cost_of draws.now index }
    ensures { result ≡ cost_of draws.now (index + 1) }
{
    let width = draws.point_power(index + 1) - draws.point_power(index);
    let price = 100 * draws.energy_cost * (11 + index);
    cost + u64::from(price) * u64::from(width)
}

fn cost_point(draws: &UnitDraws, cost: u64, index: u32) -> Point
    requires draws { AreDrawn draws.now }
    requires index { index ≤ 3 }
    requires cost { cost ≡ cost_of draws.now index }
    ensures { result ≡ point_of draws.now index }
{
    Point {
        at: i64::from(draws.point_power(index)),
        cost: money_of_amount(cost),
    }
}

// Four points that cut the range of power in thirds; a kilowatt costs more in each.
fn cost_points(alloc: Global, draws: &UnitDraws) -> Result<Points, AllocError>
    requires { AreDrawn draws.now }
    ensures { IfOk result (λ points. points.items ≡ map (point_of draws.now) (range_with_len 0 4)) }
{
    let mut points = Points::make(alloc, 4)?;
    let mut cost = cost_at_least_power(draws);
    points.push(cost_point(draws, cost, 0));
    for index in 0..3 {
        cost = cost_at_next_curve_point(draws, cost, index);
        points.push(cost_point(draws, cost, index + 1));
    }
    Ok(points)
}

// The power of the unit before the horizon, in kilowatts.
fn initial_power(draws: &UnitDraws) -> u32
    requires { AreDrawn draws.now }
    ensures { result ≡ (if is_on draws.now then level_of draws.now else 0) }
{
    if draws.is_on() { draws.level() } else { 0 }
}

// Periods on before the horizon.
fn initial_periods_on(draws: &UnitDraws) -> u32
    ensures { result ≡ (if is_on draws.now then 24 else 0) }
{
    if draws.is_on() { 24 } else { 0 }
}

// Periods off before the horizon.
fn initial_periods_off(draws: &UnitDraws) -> u32
    ensures { result ≡ (if is_on draws.now then 0 else 24) }
{
    if draws.is_on() { 0 } else { 24 }
}

/// The thermal unit of its draws.
pub fn thermal_unit_of_draws(alloc: Global, draws: &UnitDraws) -> Result<Unit, AllocError>
    requires { AreDrawn draws.now }
    ensures { IfOk result (λ u. thermal_of u ≡ unit_of draws.now) }
{
    let lags = startup_lags_of_draws(alloc, draws)?;
    let points = cost_points(alloc, draws)?;
    let window = Marks::filled(alloc, PERIODS, Mark::Free)?;
    let limit = draws.min_power() + draws.ramp();
    Ok(Unit {
        must_run: false,
        min_power: i64::from(draws.min_power()),
        max_power: i64::from(draws.max_power()),
        ramp_up: i64::from(draws.ramp()),
        ramp_down: i64::from(draws.ramp()),
        start_limit: i64::from(limit),
        stop_limit: i64::from(limit),
        min_up: draws.min_up,
        min_down: draws.min_down,
        power0: i64::from(initial_power(draws)),
        on0: draws.is_on(),
        up0: initial_periods_on(draws),
        down0: initial_periods_off(draws),
        lags,
        points,
        window,
    })
}
