//! The most that the prices of an interval add in one period.
//!
//! What an energy price adds is concave: each price more adds at most as much as the one before it
//! did. So the greatest over all whole prices of an interval is found by halving: where the next
//! price adds more, no price up to here adds as much as that one does; and where it doesn't, no
//! price behind here adds more than this one.
ghost use Rattle.std.specs.Prelude.{◌≡◌, ◌<◌, ◌≤◌, ◌+◌, pos, neg_ℤ, ◌+ℤ◌, ◌-ℤ◌, ◌*ℤ◌, ◌<ℤ◌, ◌≤ℤ◌};
ghost use Rattle.std.specs.Prelude.{IsTrue, ◌↔◌, unsigned_abs};
ghost use Rattle.std.specs.Int.{int_max};
ghost use Rattle.plain_lists.specs.Ranges.{IsFrom};
ghost use Rattle.uc_model.specs.Limits.{price_limit};
ghost use Rattle.uc_model.specs.PlainCases.{market_of};
ghost use Rattle.gap_proof.specs.Mixtures.{most_whole};
ghost use Rattle.gap_proof.specs.MixtureBound.{greatest, added};
ghost use Rattle.gap_proof.specs.MixtureSizes.{IsLack, IsAdded, IsReserveAdded};

use crate::flat::best_earnings_of_renewables_and_bids;
use uc_model::cases::Case;

/// The lowest and the highest price of an interval.
#[derive(Clone, Copy)]
pub struct Interval {
    /// The lowest price, in money for a kilowatt.
    pub low: i64,
    /// The highest price, in money for a kilowatt.
    pub high: i64,
}

/// What is lacking of demand in the period at an index, for so many times the case.
#[derive(Clone, Copy)]
pub struct Lack {
    /// The index of the period, from 0.
    pub index: usize,
    /// How many times the case.
    pub weight: i64,
    /// What is lacking, in kilowatts.
    pub power: i128,
}

// What an energy price adds.
fn energy_bound_term_at(case: &Case, lack: Lack, price: i64) -> i128
    requires index { lack.index < (market_of case.now).periods }
    requires weight { IsFrom (pos 0) most_whole lack.weight }
    requires power { IsLack lack.power }
    requires price { IsFrom (neg_ℤ price_limit) price_limit price }
    ensures value { result ≡ added (market_of case.now) lack.weight lack.power lack.index price }
    ensures limit { IsAdded result }
{
    let lacking = i128::from(price) * lack.power;
    let flat = i128::from(lack.weight)
        * best_earnings_of_renewables_and_bids(case, lack.index, price);
    lacking - flat
}

// Whether the next price adds more than this one.
fn is_energy_bound_term_rising(case: &Case, lack: Lack, price: i64) -> bool
    requires index { lack.index < (market_of case.now).periods }
    requires weight { IsFrom (pos 0) most_whole lack.weight }
    requires power { IsLack lack.power }
    requires low { neg_ℤ price_limit ≤ℤ price }
    requires high { price <ℤ price_limit }
    ensures { IsTrue result
        ↔ (added (market_of case.now) lack.weight lack.power lack.index price
        <ℤ added (market_of case.now) lack.weight lack.power lack.index (price +ℤ pos 1)) }
{
    energy_bound_term_at(case, lack, price) < energy_bound_term_at(case, lack, price + 1)
}

// The price so far above the lowest.
fn price_above_interval_start(prices: Interval, more: u64) -> i64
    requires low { IsFrom (neg_ℤ price_limit) price_limit prices.low }
    requires more { (prices.low +ℤ pos more) ≤ℤ price_limit }
    ensures { result ≡ prices.low +ℤ pos more }
{
    prices.low + more as i64
}

/// The most that any whole energy price of the interval adds.
pub fn greatest_energy_bound_term(case: &Case, lack: Lack, prices: Interval) -> i128
    requires index { lack.index < (market_of case.now).periods }
    requires weight { IsFrom (pos 0) most_whole lack.weight }
    requires power { IsLack lack.power }
    requires low { neg_ℤ price_limit ≤ℤ prices.low }
    requires ordered { prices.low ≤ℤ prices.high }
    requires high { prices.high ≤ℤ price_limit }
    ensures value { result ≡ greatest (unsigned_abs (prices.high -ℤ prices.low))
        (λ i. added (market_of case.now) lack.weight lack.power lack.index
        (prices.low +ℤ pos i)) }
    ensures limit { IsAdded result }
{
    let mut first = 0;
    let mut last = prices.high.abs_diff(prices.low);
    while first < last {
        let middle = first + (last - first) / 2;
        if is_energy_bound_term_rising(case, lack, price_above_interval_start(prices, middle)) {
            first = middle + 1;
        } else {
            last = middle;
        }
    }
    energy_bound_term_at(case, lack, price_above_interval_start(prices, first))
}

// What so much reserve that is lacking adds at a price.
fn reserve_bound_term_at(lacking: i128, price: i64) -> i128
    requires lacking { IsLack lacking }
    requires price { IsFrom (neg_ℤ price_limit) price_limit price }
    ensures value { result ≡ lacking *ℤ price }
    ensures limit { IsReserveAdded result }
{
    lacking * i128::from(price)
}

/// The most that a reserve price of the interval adds, which is at one of its ends.
pub fn greatest_reserve_bound_term(lacking: i128, prices: Interval) -> i128
    requires lacking { IsLack lacking }
    requires low { IsFrom (neg_ℤ price_limit) price_limit prices.low }
    requires high { IsFrom (neg_ℤ price_limit) price_limit prices.high }
    ensures value { result ≡ int_max (lacking *ℤ prices.low) (lacking *ℤ prices.high) }
    ensures limit { IsReserveAdded result }
{
    reserve_bound_term_at(lacking, prices.low).max(reserve_bound_term_at(lacking, prices.high))
}
