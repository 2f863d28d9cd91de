//! The plane of a row: what its totals lack, and where the plane stands at prices of 0.
ghost use Rattle.std.specs.Prelude.{◌≡◌, ℕ, ◌<◌, ◌*◌, neg_ℤ, ◌+ℤ◌, ◌*ℤ◌, length};
ghost use Rattle.std.specs.List.{All};
ghost use Rattle.plain_lists.specs.Ranges.{IsFrom};
ghost use Rattle.uc_model.specs.Limits.{price_limit};
ghost use Rattle.uc_model.specs.PlainCases.{market_of, proposal_of};
ghost use Rattle.uc_model.specs.PlainUnits.{prices_of};
ghost use Rattle.plain_lists.specs.Sums.{int_at};
ghost use Rattle.price_space.specs.Sizes.{IsEntry, IsRowOver};
ghost use Rattle.gap_proof.specs.CertifiedBound.{price_at, slope_at, height_of};
ghost use Rattle.gap_proof.specs.PlaneSums.{IsRowWithin, IsUpTo, IsWeight, IsHeight, IsSlopeSum};

use crate::wide::wide_product;
use plain_lists::lists::Amounts;
use price_space::shortfall_of_total;
use uc_model::cases::{Case, Row};
use uc_model::units::Prices;

// What the row's totals lack at a price index.
fn slope_of_row(case: &Case, row: &Row, index: usize) -> i64
    requires row { IsRowOver (market_of case.now) (proposal_of row.now) }
    requires index { index < 2 * (market_of case.now).periods }
    ensures value { result ≡ slope_at (market_of case.now) (proposal_of row.now) index }
    ensures bound { IsEntry result }
{
    let periods = case.periods as usize;
    if index < periods {
        return shortfall_of_total(*case.demand.get(index), *row.supply.get(index));
    }
    let k = index - periods;
    shortfall_of_total(*case.reserves.get(k), *row.reserve.get(k))
}

/// The price at an index.
pub fn price_at_place(case: &Case, prices: &Prices, index: usize) -> i64
    requires horizon { length (prices_of prices.now).energy ≡ (market_of case.now).periods }
    requires index { index < 2 * (market_of case.now).periods }
    ensures value { result ≡ price_at (market_of case.now) (prices_of prices.now) index }
    ensures limits { IsFrom (neg_ℤ price_limit) price_limit result }
{
    let periods = case.periods as usize;
    if index < periods {
        return *prices.energy.get(index);
    }
    *prices.reserve.get(index - periods)
}

// What a slope adds at a price.
fn slope_times_price(slope: i64, price: i64) -> i128
    requires slope { IsEntry slope }
    requires price { IsFrom (neg_ℤ price_limit) price_limit price }
    ensures value { result ≡ slope *ℤ price }
    ensures bound { IsUpTo 200000000000000000000 result }
{
    i128::from(slope) * i128::from(price)
}

/// Where the row's plane stands at prices of 0.
pub fn plane_height_at_zero_prices(case: &Case, row: &Row) -> i128
    requires { IsRowWithin (market_of case.now) (proposal_of row.now) }
    ensures value { result ≡ height_of (market_of case.now) (proposal_of row.now) }
    ensures bound { IsHeight result }
{
    let mut at_prices: i128 = 0;
    for index in 0..2 * case.periods as usize {
        at_prices += slope_times_price(
            slope_of_row(case, row, index),
            price_at_place(case, &row.prices, index),
        );
    }
    row.value - at_prices
}

// A sum of slopes with one more in it, so many times.
fn slope_sum_with_row(sum: i128, weight: i64, slope: i64) -> i128
    requires sum { IsSlopeSum sum }
    requires weight { IsWeight weight }
    requires slope { IsEntry slope }
    ensures { result ≡ sum +ℤ (weight *ℤ slope) }
{
    sum + wide_product(weight, slope)
}

/// Adds the row's slopes to the sums at each price index, so many times.
pub fn add_weighted_slopes_of_row(case: &Case, row: &Row, weight: i64, slopes: &mut Amounts)
    requires row { IsRowOver (market_of case.now) (proposal_of row.now) }
    requires weight { IsWeight weight }
    requires length { length slopes.old.items ≡ 2 * (market_of case.now).periods }
    requires sums { All IsSlopeSum slopes.old.items }
    ensures length { length slopes.new.items ≡ length slopes.old.items }
    ensures added { (j : ℕ) → j < 2 * (market_of case.now).periods →
        int_at slopes.new.items j ≡ int_at slopes.old.items j
        +ℤ (weight *ℤ slope_at (market_of case.now) (proposal_of row.now) j) }
    ensures spare { slopes.new.spare ≡ slopes.old.spare }
{
    for index in 0..2 * case.periods as usize {
        slopes.set(
            index,
            slope_sum_with_row(*slopes.get(index), weight, slope_of_row(case, row, index)),
        );
    }
}
