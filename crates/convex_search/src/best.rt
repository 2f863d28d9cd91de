//! The best prices so far, and the mixture with the least bound.
ghost use Rattle.std.specs.Prelude.{◌*◌, pos, ◌-ℤ◌, ◌*ℤ◌, ◌≤ℤ◌, unsigned_abs, IsTrue};
ghost use Rattle.uc_model.specs.Limits.{IsWorth};
ghost use Rattle.gap_proof.specs.MixtureSizes.{IsBound};
ghost use Rattle.convex_search.specs.FoundPrices.{IsNear};

use gap_proof::Mixture;
use uc_model::units::Prices;

/// The best prices so far with their dual value, and the mixture with the least bound.
#[derive(Drop)]
pub struct Best {
    /// The prices.
    pub prices: Prices,
    /// Their dual value, in money.
    pub value: i128,
    /// The mixture.
    pub mixture: Mixture,
    /// The bound that it gives on the dual value of all prices, in money.
    pub bound: i128,
}

/// Whether the bound is at most so much above the value.
pub fn is_bound_within(bound: i128, value: i128, within: i64) -> bool
    requires bound { IsBound bound }
    requires value { IsWorth value }
    ensures { IsTrue result → (bound -ℤ value) ≤ℤ within }
{
    bound - value <= i128::from(within)
}

/// Whether the bound is at most a millionth of the value's magnitude above it.
pub fn is_bound_near_value(bound: i128, value: i128) -> bool
    requires bound { IsBound bound }
    requires value { IsWorth value }
    ensures { IsTrue result → (pos 1000000 *ℤ (bound -ℤ value)) ≤ℤ pos (unsigned_abs value) }
{
    bound - value <= value.abs() / 1_000_000
}

/// Whether one of the two holds.
pub fn is_bound_within_or_near(bound: i128, value: i128, within: i64) -> bool
    requires bound { IsBound bound }
    requires value { IsWorth value }
    ensures { IsTrue result → IsNear within bound value }
{
    if is_bound_within(bound, value, within) {
        return true;
    }
    is_bound_near_value(bound, value)
}
