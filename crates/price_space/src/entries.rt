//! The direction in which the dual value of a row's prices rises.
ghost use Rattle.std.specs.Prelude.{◌≡◌, ◌<◌, ◌*◌, ◌-ℤ◌};
ghost use Rattle.uc_model.specs.Limits.{IsPower, IsTotal};
ghost use Rattle.uc_model.specs.PlainCases.{market_of, proposal_of};
ghost use Rattle.uc_model.specs.PriceRule.{projected, direction_at, energy_direction};
ghost use Rattle.uc_model.specs.PriceRule.{reserve_direction};
ghost use Rattle.price_space.specs.Moves.{direction_on};
ghost use Rattle.price_space.specs.Sizes.{IsEntry, IsRowOver};

use uc_model::cases::{Case, Row};
use uc_model::limits::PRICE_LIMIT;

/// Energy prices may be negative, and reserve prices not.
#[derive(Clone, Copy)]
pub enum Product {
    Energy,
    Reserve,
}

// The entry, and 0 where it would lead past the limit at which the price stands.
fn projected_direction_entry(low: i64, high: i64, price: i64, entry: i64) -> i64
    requires { IsEntry entry }
    ensures value { result ≡ projected low high price entry }
    ensures bound { IsEntry result }
{
    if (price >= high && entry > 0) || (price <= low && entry < 0) {
        0
    } else {
        entry
    }
}

/// What a total lacks of the power that is required, in kilowatts: at most 2 * 10^13 in magnitude.
pub fn shortfall_of_total(required: i64, total: i128) -> i64
    requires required { IsPower required }
    requires total { IsTotal total }
    ensures value { result ≡ required -ℤ total }
    ensures bound { IsEntry result }
{
    (i128::from(required) - total) as i64
}

// The entry of an energy price, whose place counts from 0.
fn direction_entry_of_energy(case: &Case, row: &Row, k: usize) -> i64
    requires row { IsRowOver (market_of case.now) (proposal_of row.now) }
    requires place { k < (market_of case.now).periods }
    ensures value { result ≡ energy_direction (market_of case.now) (proposal_of row.now) k }
    ensures bound { IsEntry result }
{
    let entry = shortfall_of_total(*case.demand.get(k), *row.supply.get(k));
    projected_direction_entry(-PRICE_LIMIT, PRICE_LIMIT, *row.prices.energy.get(k), entry)
}

// The entry of a reserve price, whose place counts from 0.
fn direction_entry_of_reserve(case: &Case, row: &Row, k: usize) -> i64
    requires row { IsRowOver (market_of case.now) (proposal_of row.now) }
    requires place { k < (market_of case.now).periods }
    ensures value { result ≡ reserve_direction (market_of case.now) (proposal_of row.now) k }
    ensures bound { IsEntry result }
{
    let entry = shortfall_of_total(*case.reserves.get(k), *row.reserve.get(k));
    projected_direction_entry(0, PRICE_LIMIT, *row.prices.reserve.get(k), entry)
}

/// The entry of a product's price, whose place counts from 0.
pub fn direction_entry(case: &Case, row: &Row, product: Product, k: usize) -> i64
    requires row { IsRowOver (market_of case.now) (proposal_of row.now) }
    requires place { k < (market_of case.now).periods }
    ensures value { result ≡ direction_on (market_of case.now) (proposal_of row.now) product k }
    ensures bound { IsEntry result }
{
    match product {
        Product::Energy => direction_entry_of_energy(case, row, k),
        Product::Reserve => direction_entry_of_reserve(case, row, k),
    }
}

/// The entry of the direction at a price place, in kilowatts: what the row's totals lack of demand,
/// at the energy prices' places 0 to T - 1, and of the required reserve, at the reserve prices'
/// places T to 2T - 1. It is 0 where it would lead past the limit at which the price stands. The
/// row is over the periods of the case, with totals of at most 10^13 in magnitude.
pub fn direction(case: &Case, row: &Row, place: u32) -> i64
    requires row { IsRowOver (market_of case.now) (proposal_of row.now) }
    requires place { place < 2 * (market_of case.now).periods }
    ensures value { result ≡ direction_at (market_of case.now) (proposal_of row.now) place }
    ensures bound { IsEntry result }
{
    if place < case.periods {
        return direction_entry_of_energy(case, row, place as usize);
    }
    direction_entry_of_reserve(case, row, (place - case.periods) as usize)
}
