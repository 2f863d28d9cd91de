//! Cases, prices, rows and schedules over one period, from which the tests of several crates begin.
ghost use Rattle.std.specs.Prelude.{◌≡◌, ◌≤ℤ◌, ◌∷◌, [], pos, neg_ℤ, true, length, map, IfOk};
ghost use Rattle.std.specs.List.{All};
ghost use Rattle.uc_model.specs.Data.{NamedRenewableUnit};
ghost use Rattle.plain_lists.specs.Ranges.{IsFrom};
ghost use Rattle.uc_model.specs.Limits.{IsPower, IsRenewableUnit, IsTotal, price_limit};
ghost use Rattle.uc_model.specs.PlainCases.{market_of, proposal_of};
ghost use Rattle.uc_model.specs.PlainUnits.{named_renewable_of, prices_of, renewable_of};
ghost use Rattle.uc_model.specs.PlainUnits.{schedule_of};

use plain_lists::lists::{Amounts, Flags, Name, Numbers};
use std::alloc::{AllocError, Global};
use uc_model::cases::{Case, Row};
use uc_model::units::{
    BidList, FlatList, NamedFlat, Powers, Prices, Renewable, Response, ThermalList,
};

/// A renewable unit.
pub fn one_range(alloc: Global, least: i64, most: i64) -> Result<Renewable, AllocError>
    requires least { IsPower least }
    requires most { IsPower most }
    requires range { least ≤ℤ most }
    ensures { IfOk result (λ r. length (renewable_of r).least ≡ 1) }
{
    let least = Numbers::filled(alloc, 1, least)?;
    let most = Numbers::filled(alloc, 1, most)?;
    Ok(Renewable { least, most })
}

// A renewable unit of 0 to `most`.
fn one_flat(alloc: Global, most: i64) -> Result<FlatList, AllocError>
    requires most { IsPower most }
    ensures count { IfOk result (λ list. length (map named_renewable_of list.items) ≡ 1) }
    ensures units { IfOk result (λ list.
        All (λ (n : NamedRenewableUnit). IsRenewableUnit n.unit × (length n.unit.least ≡ 1))
        (map named_renewable_of list.items)) }
{
    let mut list = FlatList::make(alloc, 1)?;
    let name = Name::make(alloc, 0)?;
    let flat = one_range(alloc, 0, most)?;
    list.push(NamedFlat { name, flat });
    Ok(list)
}

/// One period with that demand, that required reserve and a renewable unit of 0 to `most`.
pub fn one_period(alloc: Global, demand: i64, reserve: i64, most: i64) -> Result<Case, AllocError>
    requires demand { IsPower demand }
    requires reserve { IsPower reserve }
    requires most { IsPower most }
    ensures periods { IfOk result (λ case. (market_of case).periods ≡ 1) }
    ensures thermal { IfOk result (λ case. length (market_of case).thermal ≡ 0) }
    ensures flat { IfOk result (λ case. length (market_of case).flat ≡ 1) }
    ensures bids { IfOk result (λ case. length (market_of case).bids ≡ 0) }
{
    let thermal = ThermalList::make(alloc, 0)?;
    let bids = BidList::make(alloc, 0)?;
    let demand = Numbers::filled(alloc, 1, demand)?;
    let reserves = Numbers::filled(alloc, 1, reserve)?;
    let flat = one_flat(alloc, most)?;
    Ok(Case {
        periods: 1,
        demand,
        reserves,
        thermal,
        flat,
        bids,
    })
}

/// Prices of one period, in money for a kilowatt.
pub fn one_price(alloc: Global, energy: i64, reserve: i64) -> Result<Prices, AllocError>
    requires energy { IsFrom (neg_ℤ price_limit) price_limit energy }
    requires reserve { IsFrom (pos 0) price_limit reserve }
    ensures { IfOk result (λ p. length (prices_of p).energy ≡ 1) }
{
    let energy = Numbers::filled(alloc, 1, energy)?;
    let reserve = Numbers::filled(alloc, 1, reserve)?;
    Ok(Prices { energy, reserve })
}

/// A row with no reserve, at a reserve price of 0.
pub fn one_row(alloc: Global, energy: i64, value: i128, supply: i128) -> Result<Row, AllocError>
    requires energy { IsFrom (neg_ℤ price_limit) price_limit energy }
    requires supply { IsTotal supply }
    ensures horizon { IfOk result (λ row. length (proposal_of row).prices.energy ≡ 1) }
    ensures supply { IfOk result (λ row. All IsTotal (proposal_of row).supply) }
    ensures reserve { IfOk result (λ row. All IsTotal (proposal_of row).reserve) }
    ensures value { IfOk result (λ row. (proposal_of row).value ≡ value) }
{
    let prices = one_price(alloc, energy, 0)?;
    let supply = Amounts::filled(alloc, 1, supply)?;
    let reserve = Amounts::filled(alloc, 1, 0)?;
    Ok(Row {
        prices,
        value,
        supply,
        reserve,
    })
}

/// The schedule of a unit that is on.
pub fn one_response(alloc: Global, power: u32, reserve: u32) -> Result<Response, AllocError>
    ensures horizon { IfOk result (λ r. length (schedule_of r).on ≡ 1) }
    ensures schedule { IfOk result (λ r. schedule_of r ≡ record {
      on = true ∷ [];
      power = power ∷ [];
      reserve = reserve ∷ [];
    }) }
{
    let on = Flags::filled(alloc, 1, true)?;
    let power = Powers::filled(alloc, 1, power)?;
    let reserve = Powers::filled(alloc, 1, reserve)?;
    Ok(Response { on, power, reserve })
}
