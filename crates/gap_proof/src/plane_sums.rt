//! Weighted sums of planes, and their greatest height over a box of prices.
ghost use Rattle.std.specs.Prelude.{◌≡◌, ℕ, ◌<◌, ◌*◌, pos, neg_ℤ, ◌+ℤ◌, ◌*ℤ◌, length};
ghost use Rattle.std.specs.Prelude.{unsigned_abs};
ghost use Rattle.std.specs.Int.{int_max};
ghost use Rattle.std.specs.List.{All};
ghost use Rattle.plain_lists.specs.Ranges.{IsFrom};
ghost use Rattle.uc_model.specs.Limits.{price_limit};
ghost use Rattle.uc_model.specs.PlainCases.{market_of, proposal_of};
ghost use Rattle.uc_model.specs.PlainUnits.{prices_of};
ghost use Rattle.plain_lists.specs.Sums.{int_at, floor_div};
ghost use Rattle.gap_proof.specs.CertifiedBound.{slope_at, height_of, lowest_price};
ghost use Rattle.gap_proof.specs.CertifiedBound.{low_end, high_end, most_over};
ghost use Rattle.gap_proof.specs.PlaneSums.{IsRowWithin, IsWeight, IsRadius, IsHeight};
ghost use Rattle.gap_proof.specs.PlaneSums.{IsHeightStep, IsHeightSum, IsSlopeSum, IsRise};
ghost use Rattle.gap_proof.specs.PlaneSums.{IsRiseSum};
ghost use Rattle.gap_proof.specs.PlaneSums.{least_bound, most_bound};

use crate::planes::{add_weighted_slopes_of_row, plane_height_at_zero_prices, price_at_place};
use crate::wide::floor_quotient;
use plain_lists::lists::Amounts;
use uc_model::cases::{Case, Row};
use uc_model::limits::PRICE_LIMIT;
use uc_model::units::Prices;

/// What weighted rows sum to, beside their slopes.
#[derive(Clone, Copy)]
pub struct Sums {
    /// The sum of the heights of their planes.
    pub height: i128,
    /// The sum of the weights.
    pub weight: i64,
}

/// Makes all sums of slopes 0.
pub fn clear_slopes(slopes: &mut Amounts)
    ensures length { length slopes.new.items ≡ length slopes.old.items }
    ensures zeros { (j : ℕ) → j < length slopes.old.items → int_at slopes.new.items j ≡ pos 0 }
    ensures spare { slopes.new.spare ≡ slopes.old.spare }
{
    for index in 0..slopes.len() {
        slopes.set(index, 0);
    }
}

// So many times a height.
fn weighted_plane_height(weight: i64, height: i128) -> i128
    requires weight { IsWeight weight }
    requires height { IsHeight height }
    ensures value { result ≡ weight *ℤ height }
    ensures bound { IsHeightStep result }
{
    i128::from(weight) * height
}

/// The sums with one more row of that weight; its slopes are added to `slopes`.
pub fn add_weighted_plane_of_row(
    case: &Case,
    row: &Row,
    weight: i64,
    sums: Sums,
    slopes: &mut Amounts,
) -> Sums
    requires row { IsRowWithin (market_of case.now) (proposal_of row.now) }
    requires weight { IsWeight weight }
    requires heights { IsHeightSum sums.height }
    requires weights { IsFrom (pos 0) (pos 10000000000) sums.weight }
    requires length { length slopes.old.items ≡ 2 * (market_of case.now).periods }
    requires slopes { All IsSlopeSum slopes.old.items }
    ensures height { result.height ≡ sums.height
        +ℤ (weight *ℤ height_of (market_of case.now) (proposal_of row.now)) }
    ensures step { IsHeightStep (weight *ℤ height_of (market_of case.now) (proposal_of row.now)) }
    ensures weight { result.weight ≡ sums.weight +ℤ weight }
    ensures length { length slopes.new.items ≡ length slopes.old.items }
    ensures slopes { (j : ℕ) → j < 2 * (market_of case.now).periods →
        int_at slopes.new.items j ≡ int_at slopes.old.items j
        +ℤ (weight *ℤ slope_at (market_of case.now) (proposal_of row.now) j) }
    ensures spare { slopes.new.spare ≡ slopes.old.spare }
{
    add_weighted_slopes_of_row(case, row, weight, slopes);
    Sums {
        height: sums.height + weighted_plane_height(weight, plane_height_at_zero_prices(case, row)),
        weight: sums.weight + weight,
    }
}

// The lowest that the price at an index may be.
fn least_price_at(case: &Case, index: usize) -> i64
    ensures value { result ≡ lowest_price (market_of case.now) index }
    ensures limits { IsFrom (neg_ℤ price_limit) (pos 0) result }
{
    if index < case.periods as usize {
        return -PRICE_LIMIT;
    }
    0
}

/// The lower end of a price's interval: within the radius of the centre's price, and within the
/// limits. Places count the energy prices and then the reserve prices, from 0.
pub fn low_end_of_price(case: &Case, centre: &Prices, radius: i64, index: usize) -> i64
    requires horizon { length (prices_of centre.now).energy ≡ (market_of case.now).periods }
    requires radius { IsRadius radius }
    requires index { index < 2 * (market_of case.now).periods }
    ensures value { result ≡ low_end (market_of case.now) (prices_of centre.now) radius index }
    ensures limits { IsFrom (neg_ℤ price_limit) price_limit result }
{
    least_price_at(case, index).max(price_at_place(case, centre, index) - radius)
}

/// The upper end of a price's interval.
pub fn high_end_of_price(case: &Case, centre: &Prices, radius: i64, index: usize) -> i64
    requires horizon { length (prices_of centre.now).energy ≡ (market_of case.now).periods }
    requires radius { IsRadius radius }
    requires index { index < 2 * (market_of case.now).periods }
    ensures value { result ≡ high_end (market_of case.now) (prices_of centre.now) radius index }
    ensures limits { IsFrom (neg_ℤ price_limit) price_limit result }
{
    PRICE_LIMIT.min(price_at_place(case, centre, index) + radius)
}

// What a sum of slopes adds at a price.
fn slope_sum_times_price(slope: i128, price: i64) -> i128
    requires slope { IsSlopeSum slope }
    requires price { IsFrom (neg_ℤ price_limit) price_limit price }
    ensures value { result ≡ slope *ℤ price }
    ensures bound { IsRise result }
{
    slope * i128::from(price)
}

// The most that a sum of slopes adds at a price of an interval, which is at one of its ends.
fn greatest_slope_term_in_interval(slope: i128, low: i64, high: i64) -> i128
    requires slope { IsSlopeSum slope }
    requires low { IsFrom (neg_ℤ price_limit) price_limit low }
    requires high { IsFrom (neg_ℤ price_limit) price_limit high }
    ensures value { result ≡ int_max (slope *ℤ low) (slope *ℤ high) }
    ensures bound { IsRise result }
{
    slope_sum_times_price(slope, low).max(slope_sum_times_price(slope, high))
}

// The most that sums of slopes add at prices of the box.
fn sum_of_greatest_slope_terms(case: &Case, centre: &Prices, radius: i64, slopes: &Amounts) -> i128
    requires horizon { length (prices_of centre.now).energy ≡ (market_of case.now).periods }
    requires radius { IsRadius radius }
    requires length { length slopes.now.items ≡ 2 * (market_of case.now).periods }
    requires slopes { All IsSlopeSum slopes.now.items }
    ensures value { result ≡ most_over (market_of case.now) (prices_of centre.now) radius
        (int_at slopes.now.items) }
    ensures bound { IsRiseSum result }
{
    let mut total: i128 = 0;
    for index in 0..2 * case.periods as usize {
        let low = low_end_of_price(case, centre, radius, index);
        let high = high_end_of_price(case, centre, radius, index);
        total += greatest_slope_term_in_interval(*slopes.get(index), low, high);
    }
    total
}

/// The greatest height over the box of the mean of the planes that are summed.
pub fn greatest_mean_plane_height(
    case: &Case,
    centre: &Prices,
    radius: i64,
    sums: Sums,
    slopes: &Amounts,
) -> i128
    requires horizon { length (prices_of centre.now).energy ≡ (market_of case.now).periods }
    requires radius { IsRadius radius }
    requires heights { IsHeightSum sums.height }
    requires weights { IsFrom (pos 1) (pos 10000000000) sums.weight }
    requires length { length slopes.now.items ≡ 2 * (market_of case.now).periods }
    requires slopes { All IsSlopeSum slopes.now.items }
    ensures value { result ≡ floor_div
        (sums.height +ℤ most_over (market_of case.now) (prices_of centre.now) radius
        (int_at slopes.now.items))
        (unsigned_abs sums.weight) }
    ensures limits { IsFrom least_bound most_bound result }
{
    floor_quotient(
        sums.height + sum_of_greatest_slope_terms(case, centre, radius, slopes),
        sums.weight,
    )
}
