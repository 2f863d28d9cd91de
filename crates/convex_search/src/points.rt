//! Points in the space of prices, in the currency for a megawatt and period: the energy prices of
//! all periods, and then their reserve prices.
ghost use Rattle.std.specs.Prelude.{◌≡◌, ◌*◌, ◌≤◌, neg_ℤ, length};
ghost use Rattle.std.specs.List.{All};
ghost use Rattle.plain_lists.specs.Ranges.{IsFrom};
ghost use Rattle.uc_model.specs.Limits.{price_limit};
ghost use Rattle.uc_model.specs.PlainUnits.{prices_of};

use bundle_master::numbers::floor_within;
use plain_lists::lists::Numbers;
use std::num::nearest_i64_to_f64;
use uc_model::limits::PRICE_LIMIT;
use uc_model::units::Prices;

/// The greatest price.
pub const HIGHEST: f64 = 10_000.0;

// Rounds prices to whole ones, none below a least one.
fn round_prices_of_list(from: &[f64], low: i64, into: &mut Numbers)
    requires rows { length into.old.items ≤ length from.now }
    requires low { IsFrom (neg_ℤ price_limit) price_limit low }
    requires limits { All (IsFrom low price_limit) into.old.items }
    ensures limits { All (IsFrom low price_limit) into.new.items }
    ensures count { length into.new.items ≡ length into.old.items }
{
    for k in 0..into.len() {
        into.set(k, floor_within(1e3 * from[k] + 0.5, low, PRICE_LIMIT));
    }
}

/// Leaves the whole prices that are nearest to a point, within their limits.
pub fn round_prices(point: &[f64], into: &mut Prices)
    requires { length point.now ≡ 2 * length (prices_of into.old).energy }
    ensures { length (prices_of into.new).energy ≡ length (prices_of into.old).energy }
{
    let periods = into.energy.len();
    round_prices_of_list(&point[..periods], -PRICE_LIMIT, &mut into.energy);
    round_prices_of_list(&point[periods..], 0, &mut into.reserve);
}

/// Leaves prices as a point.
pub fn write_prices_as_point(prices: &Prices, into: &mut [f64])
    requires { length into.old ≡ 2 * length (prices_of prices.now).energy }
{
    let periods = prices.energy.len();
    for k in 0..periods {
        into[k] = nearest_i64_to_f64(*prices.energy.get(k)) / 1e3;
        into[periods + k] = nearest_i64_to_f64(*prices.reserve.get(k)) / 1e3;
    }
}

/// The least price of a row.
pub fn least_price_of_row(row: usize, periods: usize) -> f64 {
    if row < periods { -HIGHEST } else { 0.0 }
}

/// Leaves the point that is so far from one point through another, within the limits.
pub fn extrapolate_point(from: &[f64], through: &[f64], far: f64, into: &mut [f64])
    requires through { length through.now ≡ length from.now }
    requires into { length into.old ≡ length from.now }
{
    let periods = from.len() / 2;
    for row in 0..from.len() {
        let price = from[row] + far * (through[row] - from[row]);
        into[row] = price.max(least_price_of_row(row, periods)).min(HIGHEST);
    }
}
