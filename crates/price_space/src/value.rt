//! The dual value of prices, given what the best schedules earn, and the sum of that.
ghost use Rattle.std.specs.Prelude.{◌≡◌, ◌<◌, ◌≤◌, ◌+ℤ◌, ◌-ℤ◌, length, Some, slice_get};
ghost use Rattle.std.specs.List.{All};
ghost use Rattle.plain_lists.specs.Sums.{total};
ghost use Rattle.plain_lists.specs.declared.limits.TheConstants.{MOST_UNITS};
ghost use Rattle.uc_model.specs.Limits.{IsEarned, IsSum};
ghost use Rattle.uc_model.specs.PlainCases.{market_of};
ghost use Rattle.uc_model.specs.PlainUnits.{prices_of};
ghost use Rattle.uc_model.specs.Systems.{worth_of_demand};

use uc_model::cases::Case;
use uc_model::money::worth_at_price;
use uc_model::units::Prices;

/// The dual value of `prices` in money: the sum over the periods of the energy price times the
/// demand and the reserve price times the required reserve, less `earned`, what the best schedules
/// of all units and bids earn at these prices. The prices are over the periods of the case, and
/// `earned` is at most 10^23 in magnitude.
pub fn dual_value(case: &Case, prices: &Prices, earned: i128) -> i128
    requires horizon { length (prices_of prices.now).energy ≡ (market_of case.now).periods }
    requires earned { IsSum earned }
    ensures { result ≡ worth_of_demand (market_of case.now) (prices_of prices.now) -ℤ earned }
{
    let mut total: i128 = 0;
    for k in 0..case.periods as usize {
        let energy = worth_at_price(*prices.energy.get(k), *case.demand.get(k));
        let reserve = worth_at_price(*prices.reserve.get(k), *case.reserves.get(k));
        total += energy + reserve;
    }
    total - earned
}

// What the unit of a number earns.
fn earnings_of_unit_number(earned: &[i64], number: usize) -> i64
    requires { number < length earned.now }
    ensures { slice_get earned.now number ≡ Some result }
{
    earned[number]
}

// The sum with one more unit in it.
fn sum_with_earnings(sum: i128, earned: i64) -> i128
    requires { IsSum sum }
    ensures { result ≡ sum +ℤ earned }
{
    sum + i128::from(earned)
}

/// The sum of what units earn, in money.
pub fn earned_sum(earned: &[i64]) -> i128
    requires count { length earned.now ≤ MOST_UNITS }
    requires bound { All IsEarned earned.now }
    ensures { result ≡ total earned.now }
{
    let mut sum = 0;
    for number in 0..earned.len() {
        sum = sum_with_earnings(sum, earnings_of_unit_number(earned, number));
    }
    sum
}
