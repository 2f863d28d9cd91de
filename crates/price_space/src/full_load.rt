//! What a kilowatt costs at a unit's greatest power.
ghost use Rattle.std.specs.Prelude.{◌≡◌, pos, unsigned_abs};
ghost use Rattle.plain_lists.specs.Ranges.{IsFrom};
ghost use Rattle.uc_model.specs.Limits.{IsCost};
ghost use Rattle.uc_model.specs.PlainUnits.{thermal_of};
ghost use Rattle.uc_model.specs.PriceRule.{full_load_price as full_load_price_of};
ghost use Rattle.plain_lists.specs.Sums.{ceil_div};
ghost use Rattle.uc_model.specs.declared.limits.TheConstants.{OUTPUT_LIMIT};

use cost_curve::costs::envelope_at;
use uc_model::units::Unit;

// A cost for each kilowatt, rounded up.
fn cost_per_kilowatt(cost: i64, power: i64) -> i64
    requires cost { IsCost cost }
    requires power { IsFrom (pos 1) OUTPUT_LIMIT power }
    ensures { result ≡ ceil_div cost (unsigned_abs power) }
{
    -(-cost).div_euclid(power)
}

/// The cost for each kilowatt at the unit's greatest power, rounded up, and 0 where that power is
/// 0.
pub fn full_load_price(unit: &Unit) -> i64
    ensures { result ≡ full_load_price_of (thermal_of unit.now) }
{
    if unit.max_power == 0 {
        return 0;
    }
    cost_per_kilowatt(
        envelope_at(unit.points.as_slice(), unit.max_power),
        unit.max_power,
    )
}
