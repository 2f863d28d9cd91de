//! What a schedule earns at prices.
ghost use Rattle.std.specs.Prelude.{◌≡◌, ◌+◌, ◌<◌, ◌≤◌, ℤ, pos, neg_ℤ, ◌+ℤ◌, ◌-ℤ◌, ◌*ℤ◌, length};
ghost use Rattle.test_tiny.specs.Money.{revenue_in, production_in, start_in, net_in};
ghost use Rattle.uc_model.specs.Data.{Thermal};
ghost use Rattle.uc_model.specs.Earnings.{earnings};
ghost use Rattle.plain_lists.specs.Ranges.{IsFrom};
ghost use Rattle.uc_model.specs.Limits.{price_limit};
ghost use Rattle.uc_model.specs.PlainUnits.{thermal_of, schedule_of, prices_of};
ghost use Rattle.uc_model.specs.Schedules.{IsThermalFeasible, time_down};
ghost use Rattle.plain_lists.specs.Sums.{int_at};

use crate::envelope::cost_of_power;
use crate::state::{is_on, power, reserve, starts};
use uc_model::laws::earnings_are_within;
use uc_model::rules::start_cost;
use uc_model::units::{Prices, Response, Unit};

// The sum of two amounts of money.
fn plus(a: i128, b: i128) -> i128
    requires a { IsFrom (neg_ℤ (pos 4951760157141521099596496896))
        (pos 4951760157141521099596496896) a }
    requires b { IsFrom (neg_ℤ (pos 4951760157141521099596496896))
        (pos 4951760157141521099596496896) b }
    ensures { result ≡ a +ℤ b }
{
    a + b
}

// What one amount is above another.
fn minus(a: i128, b: i128) -> i128
    requires a { IsFrom (neg_ℤ (pos 4951760157141521099596496896))
        (pos 4951760157141521099596496896) a }
    requires b { IsFrom (neg_ℤ (pos 4951760157141521099596496896))
        (pos 4951760157141521099596496896) b }
    ensures { result ≡ a -ℤ b }
{
    a - b
}

// So many kilowatts at a price.
fn worth(price: i64, kilowatts: i64) -> i128
    requires price { IsFrom (neg_ℤ price_limit) price_limit price }
    requires kilowatts { IsFrom (pos 0) (pos 4294967296) kilowatts }
    ensures value { result ≡ price *ℤ kilowatts }
    ensures bound { IsFrom (neg_ℤ (pos 42949672960000000)) (pos 42949672960000000) result }
{
    i128::from(price) * i128::from(kilowatts)
}

fn energy_price(prices: &Prices, index: usize) -> i64
    requires { index < length prices.now.energy.items }
    ensures value { result ≡ int_at (prices_of prices.now).energy index }
    ensures bound { IsFrom (neg_ℤ price_limit) price_limit result }
{
    *prices.energy.get(index)
}

fn reserve_price(prices: &Prices, index: usize) -> i64
    requires { index < length prices.now.energy.items }
    ensures value { result ≡ int_at (prices_of prices.now).reserve index }
    ensures bound { IsFrom (neg_ℤ price_limit) price_limit result }
{
    *prices.reserve.get(index)
}

// What the prices pay in the period at an index.
fn revenue(prices: &Prices, response: &Response, index: usize) -> i128
    requires index { index < length response.now.on.items }
    requires horizon { length response.now.on.items ≡ length prices.now.energy.items }
    ensures value { result ≡ revenue_in (prices_of prices.now) (schedule_of response.now) index }
    ensures bound { IsFrom (neg_ℤ (pos 1208925819614629174706176)) (pos 1208925819614629174706176)
        result }
{
    let energy = worth(energy_price(prices, index), power(response, index));
    let reserve = worth(reserve_price(prices, index), reserve(response, index));
    plus(energy, reserve)
}

// What the power of the period at an index costs.
fn production(unit: &Unit, response: &Response, index: usize) -> i128
    requires { index < length response.now.on.items }
    ensures value { result ≡ production_in (thermal_of unit.now) (schedule_of response.now) index }
    ensures bound { IsFrom (neg_ℤ (pos 2417851639229258349412352)) (pos 2417851639229258349412352)
        result }
{
    if is_on(response, index) {
        cost_of_power(unit.points.as_slice(), *response.power.get(index))
    } else {
        0
    }
}

// For how many periods the unit has been off before the period at an index.
fn periods_down(unit: &Unit, response: &Response, index: usize) -> u64
    requires index { index ≤ length response.now.on.items }
    requires limit { length response.now.on.items ≤ 168 }
    ensures { result ≡ time_down (thermal_of unit.now) (schedule_of response.now) index }
{
    let mut down = if unit.on0 { 0 } else { u64::from(unit.down0) };
    for earlier in 0..index {
        down = if is_on(response, earlier) {
            0
        } else {
            down + 1
        };
    }
    down
}

// What a start in the period at an index costs.
fn start(unit: &Unit, response: &Response, index: usize) -> i128
    requires index { index < length response.now.on.items }
    requires limit { length response.now.on.items ≤ 168 }
    ensures value { result ≡ start_in (thermal_of unit.now) (schedule_of response.now) index }
    ensures bound { IsFrom (neg_ℤ (pos 1208925819614629174706176)) (pos 1208925819614629174706176)
        result }
{
    if starts(unit, response, index) {
        i128::from(start_cost(unit, periods_down(unit, response, index)))
    } else {
        0
    }
}

// What is earned in the period at an index.
fn net(unit: &Unit, prices: &Prices, response: &Response, index: usize) -> i128
    requires index { index < length response.now.on.items }
    requires horizon { length response.now.on.items ≡ length prices.now.energy.items }
    ensures value { result ≡ net_in (thermal_of unit.now) (prices_of prices.now)
        (schedule_of response.now) index }
    ensures bound { IsFrom (neg_ℤ (pos 4835703278458516698824704)) (pos 4835703278458516698824704)
        result }
{
    let _limits = prices.energy.len();
    let costs = plus(
        production(unit, response, index),
        start(unit, response, index),
    );
    minus(revenue(prices, response, index), costs)
}

/// What a response over the horizon of the prices earns, in money: what the prices pay for its
/// powers and reserves, less the cost of its powers and of its starts.
pub fn earnings_of(unit: &Unit, prices: &Prices, response: &Response) -> i128
    requires { length (schedule_of response.now).on ≡ length (prices_of prices.now).energy }
    ensures { result ≡ earnings (Thermal (thermal_of unit.now)) (prices_of prices.now)
        (schedule_of response.now) }
{
    let mut earned = 0;
    for index in 0..prices.energy.len() {
        earned = plus(earned, net(unit, prices, response, index));
    }
    earned
}

/// What a feasible response earns, in money.
pub fn feasible_earnings(unit: &Unit, prices: &Prices, response: &Response) -> i64
    requires horizon { length (schedule_of response.now).on ≡ length (prices_of prices.now).energy }
    requires feasible { IsThermalFeasible (thermal_of unit.now)
        (length (prices_of prices.now).energy) (schedule_of response.now) }
    ensures { result ≡ earnings (Thermal (thermal_of unit.now)) (prices_of prices.now)
        (schedule_of response.now) }
{
    earnings_are_within();
    earnings_of(unit, prices, response) as i64
}
