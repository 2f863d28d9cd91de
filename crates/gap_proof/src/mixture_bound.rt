//! The bound by a mixture.
ghost use Rattle.std.specs.Prelude.{◌≡◌, ◌<◌, ◌*◌, neg_ℤ, ◌+ℤ◌, ◌≤ℤ◌, length};
ghost use Rattle.gap_proof.specs.CertifiedBound.{low_end, high_end};
ghost use Rattle.gap_proof.specs.PlaneSums.{IsRadius};
ghost use Rattle.plain_lists.specs.Ranges.{IsFrom};
ghost use Rattle.uc_model.specs.Limits.{price_limit};
ghost use Rattle.uc_model.specs.PlainCases.{market_of};
ghost use Rattle.uc_model.specs.PlainUnits.{prices_of};
ghost use Rattle.gap_proof.specs.Mixtures.{mixture_of, IsMixture, HasMixtureShape};
ghost use Rattle.gap_proof.specs.MixtureBound.{most_energy as most_energy_of};
ghost use Rattle.gap_proof.specs.MixtureBound.{most_reserve as most_reserve_of};
ghost use Rattle.gap_proof.specs.MixtureBound.{mixture_bound};
ghost use Rattle.gap_proof.specs.PlaneSums.{IsUpTo};
ghost use Rattle.gap_proof.specs.MixtureSizes.{IsBound};

use crate::mixture_sums::{cost_of_mixture, shortfalls_of_mixture_at};
use crate::mixtures::Mixture;
use crate::plane_sums::{high_end_of_price, low_end_of_price};
use crate::wide::floor_quotient;
use crate::worst::{Interval, Lack, greatest_energy_bound_term, greatest_reserve_bound_term};
use uc_model::cases::Case;
use uc_model::units::Prices;

// The interval of a price of the box.
fn price_interval(case: &Case, centre: &Prices, radius: i64, index: usize) -> Interval
    requires horizon { length (prices_of centre.now).energy ≡ (market_of case.now).periods }
    requires radius { IsRadius radius }
    requires index { index < 2 * (market_of case.now).periods }
    ensures low { result.low ≡ low_end (market_of case.now) (prices_of centre.now) radius index }
    ensures high { result.high ≡ high_end (market_of case.now) (prices_of centre.now) radius index }
    ensures low_limit { IsFrom (neg_ℤ price_limit) price_limit result.low }
    ensures high_limit { IsFrom (neg_ℤ price_limit) price_limit result.high }
    ensures ordered { result.low ≤ℤ result.high }
{
    Interval {
        low: low_end_of_price(case, centre, radius, index),
        high: high_end_of_price(case, centre, radius, index),
    }
}

// The most that the prices of the period at an index add.
fn greatest_bound_term_of_period(
    case: &Case,
    mixture: &Mixture,
    centre: &Prices,
    radius: i64,
    index: usize,
) -> i128
    requires shape { HasMixtureShape (market_of case.now) (mixture_of mixture.now) }
    requires horizon { length (prices_of centre.now).energy ≡ (market_of case.now).periods }
    requires radius { IsRadius radius }
    requires index { index < (market_of case.now).periods }
    ensures value { result ≡ most_energy_of (market_of case.now) (mixture_of mixture.now)
        (prices_of centre.now) radius index
        +ℤ most_reserve_of (market_of case.now) (mixture_of mixture.now) (prices_of centre.now)
        radius index }
    ensures limit { IsUpTo 500000000000000000000000000000000 result }
{
    let lacks = shortfalls_of_mixture_at(case, mixture, index);
    let lack = Lack {
        index,
        weight: mixture.weight,
        power: lacks.power,
    };
    let energy = price_interval(case, centre, radius, index);
    let reserve = price_interval(case, centre, radius, case.periods as usize + index);
    greatest_energy_bound_term(case, lack, energy)
        + greatest_reserve_bound_term(lacks.reserve, reserve)
}

/// The bound on the dual value of all prices in a box, by a mixture: no whole prices within the
/// limits, each within `radius` of that of `centre`, have a dual value above it,
/// `law_parts::bounds::mixture_bound_holds`. Mixture and prices are over the case's units and
/// periods, and the mixture keeps the rules of `check_mixture`. The radius is from 0 to 20,000,000,
/// in money for a kilowatt and period; the bound is in money, and within 10^35. Takes no memory.
pub fn bound_of_mixture(case: &Case, mixture: &Mixture, centre: &Prices, radius: i64) -> i128
    requires shape { HasMixtureShape (market_of case.now) (mixture_of mixture.now) }
    requires feasible { IsMixture (market_of case.now) (mixture_of mixture.now) }
    requires horizon { length (prices_of centre.now).energy ≡ (market_of case.now).periods }
    requires radius { IsRadius radius }
    ensures bound { result ≡ mixture_bound (market_of case.now) (mixture_of mixture.now)
        (prices_of centre.now) radius }
    ensures limit { IsBound result }
{
    let mut sum = cost_of_mixture(case, mixture);
    for index in 0..case.periods as usize {
        sum += greatest_bound_term_of_period(case, mixture, centre, radius, index);
    }
    floor_quotient(sum, mixture.weight)
}
