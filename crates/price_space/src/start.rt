//! The start price of each period.
ghost use Rattle.std.specs.Prelude.{◌≡◌, ◌≤◌, ◌<◌, ℤ, pos, ◌-ℤ◌, ◌-◌, IfOk, length};
ghost use Rattle.std.specs.Prelude.{map, slice_get};
ghost use Rattle.std.specs.List.{All};
ghost use Rattle.std.specs.Option.{option_map_or};
ghost use Rattle.uc_model.specs.Limits.{IsOutput};
ghost use Rattle.uc_model.specs.PlainCases.{market_of};
ghost use Rattle.uc_model.specs.PlainUnits.{thermal_of, named_renewable_of};
ghost use Rattle.uc_model.specs.PriceRule.{start_price as start_price_of_market};
ghost use Rattle.uc_model.specs.PriceRule.{start_prices as start_prices_of};
ghost use Rattle.plain_lists.specs.Sums.{int_at};
ghost use Rattle.uc_model.specs.declared.limits.TheConstants.{MOST_OF_A_KIND};
ghost use Rattle.price_space.specs.Starts.{priced_of, renewable_power_of, AreRisingUnits, IsRising};
ghost use Rattle.price_space.specs.Starts.{IsStartPrice};

use crate::full_load::full_load_price;
use plain_lists::lists::Numbers;
use std::alloc::{AllocError, Global};
use uc_model::cases::Case;
use uc_model::units::{NamedFlat, Unit};

/// A unit's full-load price, and its greatest power in kilowatts.
#[derive(Clone, Copy, PartialEq, Eq, PartialOrd, Ord)]
pub struct Priced {
    /// The full-load price, in money for a kilowatt.
    pub price: i64,
    /// The greatest power.
    pub power: i64,
}

fn unit_with_full_load_price(unit: &Unit) -> Priced
    ensures { result ≡ priced_of (thermal_of unit.now) }
{
    Priced {
        price: full_load_price(unit),
        power: unit.max_power,
    }
}

fn units_with_full_load_prices(alloc: Global, case: &Case) -> Result<Vec<Priced>, AllocError>
    ensures { IfOk result (λ v. v.items ≡ map (λ n. priced_of (thermal_of n.unit))
        case.now.thermal.items) }
{
    case.thermal
        .as_slice()
        .iter()
        .map(|named| unit_with_full_load_price(&named.unit))
        .collect(alloc)
}

// The units from the cheapest at full load to the dearest.
fn units_by_rising_full_load_price(alloc: Global, case: &Case) -> Result<Vec<Priced>, AllocError>
    ensures { IfOk result (λ v. AreRisingUnits (market_of case.now) v.items) }
{
    let mut units = units_with_full_load_prices(alloc, case)?;
    units.sort_unstable();
    Ok(units)
}

// The price of the last unit, and 0 where there is none.
fn price_of_last_unit(units: &[Priced]) -> i64
    ensures { result ≡ option_map_or (λ u. u.price) (slice_get units.now (length units.now - 1))
        (pos 0) }
{
    match units.last() {
        Some(unit) => unit.price,
        None => 0,
    }
}

// The first price up to which the units give what is short, or else the last price, or else 0.
fn full_load_price_covering_demand(units: &[Priced], short: i64) -> i64
    requires rising { IsRising units.now }
    requires powers { All (λ u. IsOutput u.power) units.now }
    requires count { length units.now ≤ MOST_OF_A_KIND }
    ensures { IsStartPrice units.now short result }
{
    let mut power: u64 = 0;
    for unit in units {
        power += unit.power as u64;
        if short <= power as i64 {
            return unit.price;
        }
    }
    price_of_last_unit(units)
}

// A renewable unit's greatest power in a period, whose place counts from 0.
fn greatest_power_of_renewable(named: &NamedFlat, k: usize) -> u64
    requires { k < length (named_renewable_of named.now).unit.most }
    ensures power { pos result ≡ int_at (named_renewable_of named.now).unit.most k }
    ensures bound { result ≤ 1000000000 }
{
    *named.flat.most.get(k) as u64
}

// The greatest power of all renewable units in a period.
fn greatest_power_of_all_renewables(case: &Case, k: usize) -> u64
    requires { k < (market_of case.now).periods }
    ensures power { pos result ≡ renewable_power_of (market_of case.now) k }
    ensures bound { result ≤ 4096000000000 }
{
    let mut power: u64 = 0;
    for named in case.flat.as_slice() {
        power += greatest_power_of_renewable(named, k);
    }
    power
}

// What a period's demand lacks of the renewable units' greatest power; it may be below 0.
fn residual_demand(case: &Case, k: usize) -> i64
    requires { k < (market_of case.now).periods }
    ensures { result ≡ int_at (market_of case.now).demand k
        -ℤ renewable_power_of (market_of case.now) k }
{
    *case.demand.get(k) - greatest_power_of_all_renewables(case, k) as i64
}

fn start_price_of_period(case: &Case, units: &[Priced], k: usize) -> i64
    requires units { AreRisingUnits (market_of case.now) units.now }
    requires place { k < (market_of case.now).periods }
    ensures { result ≡ start_price_of_market (market_of case.now) k }
{
    full_load_price_covering_demand(units, residual_demand(case, k))
}

/// The start price of each period, in money for a kilowatt: the least full-load price up to which
/// the thermal units' greatest powers and those of all renewable units reach demand, or else the
/// greatest full-load price, or 0 where there is no thermal unit. Commitment windows and bids
/// aren't looked at.
pub fn start_prices(alloc: Global, case: &Case) -> Result<Numbers, AllocError>
    ensures { IfOk result (λ prices. prices.items ≡ start_prices_of (market_of case.now)) }
{
    let units = units_by_rising_full_load_price(alloc, case)?;
    let mut prices = Numbers::make(alloc, case.periods)?;
    for k in 0..case.periods as usize {
        prices.push(start_price_of_period(case, units.as_slice(), k));
    }
    Ok(prices)
}
