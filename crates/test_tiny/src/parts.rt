//! Values of the types of a case from their parts, for tests: each part is within the limits of its
//! type, and the contract says what the value is in plain records and lists.
ghost use Rattle.std.specs.Prelude.{◌≡◌, ◌≤◌, ◌<◌, pos, length, map, IfOk, EachIndex};
ghost use Rattle.std.specs.Prelude.{slice_index, slice_set, [], ◌∷◌, ◌+◌};
ghost use Rattle.test_tiny.specs.Small.{small_unit_of};
ghost use Rattle.uc_model.specs.Limits.{IsMarket, IsRenewableUnit, IsBidUnit, ArePrices};
ghost use Rattle.uc_model.specs.Limits.{AreOneLength};
ghost use Rattle.uc_model.specs.PlainCases.{market_of, schedules_of, proposal_of, task_unit};
ghost use Rattle.uc_model.specs.PlainCases.{chosen_unit};
ghost use Rattle.uc_model.specs.PlainUnits.{thermal_of, renewable_of, bid_of, named_thermal_of};
ghost use Rattle.uc_model.specs.PlainUnits.{named_renewable_of, named_bid_of, prices_of};
ghost use Rattle.uc_model.specs.PlainUnits.{schedule_of};
ghost use Rattle.plain_lists.specs.Reserved.{items_in};
ghost use Rattle.plain_lists.specs.Sums.{int_at};

use crate::small::SmallUnit;
use plain_lists::lists::{Amounts, Flags, Name, Numbers, ReservedList};
use std::alloc::{AllocError, Global};
use uc_model::cases::{Case, Plan, Row, Task};
use uc_model::units::{
    Bid, BidList, Block, BlockLists, FlatList, Lag, Mark, NamedBid, NamedFlat, NamedUnit, Point,
    Powers, Prices, Renewable, Response, ResponseList, ThermalList, Unit, UnitKind,
};

/// A list of these items, with no further room.
pub fn list_of<T: Copy + Drop>(alloc: Global, items: &[T]) -> Result<ReservedList<T>, AllocError>
    requires { length items.now ≤ 168 }
    ensures { IfOk result (λ list. list.items ≡ items.now) }
{
    let mut list = ReservedList::make(alloc, items.len() as u32)?;
    for item in items {
        list.push(*item);
    }
    Ok(list)
}

/// A small unit with this window over one to 168 periods.
pub fn unit(alloc: Global, numbers: &SmallUnit, window: &[Mark]) -> Result<Unit, AllocError>
    requires some { 1 ≤ length window.now }
    requires limit { length window.now ≤ 168 }
    ensures { IfOk result (λ u. thermal_of u ≡ small_unit_of numbers.now window.now) }
{
    let first = Lag {
        lag: u32::from(numbers.first_lag),
        cost: i64::from(numbers.first_cost),
    };
    let second = Lag {
        lag: u32::from(numbers.first_lag) + u32::from(numbers.lag_gap),
        cost: i64::from(numbers.second_cost),
    };
    let least = Point {
        at: i64::from(numbers.min_power),
        cost: i64::from(numbers.least_cost),
    };
    let greatest = Point {
        at: i64::from(numbers.min_power) + i64::from(numbers.range),
        cost: i64::from(numbers.greatest_cost),
    };
    let lags = list_of(alloc, &[first, second])?;
    let points = list_of(alloc, &[least, greatest])?;
    let window = list_of(alloc, window)?;
    Ok(Unit {
        must_run: numbers.must_run,
        min_power: i64::from(numbers.min_power),
        max_power: i64::from(numbers.min_power) + i64::from(numbers.range),
        ramp_up: i64::from(numbers.ramp_up),
        ramp_down: i64::from(numbers.ramp_down),
        start_limit: i64::from(numbers.start_limit),
        stop_limit: i64::from(numbers.stop_limit),
        min_up: 1 + u32::from(numbers.more_up),
        min_down: 1 + u32::from(numbers.more_down),
        power0: i64::from(numbers.power0),
        on0: numbers.on0,
        up0: u32::from(numbers.up0),
        down0: u32::from(numbers.down0),
        lags,
        points,
        window,
    })
}

/// A renewable unit of these powers.
pub fn renewable(least: Numbers, most: Numbers) -> Renewable
    requires { IsRenewableUnit (record { least = least.items; most = most.items }) }
    ensures { renewable_of result ≡ record { least = least.items; most = most.items } }
{
    Renewable { least, most }
}

/// A bid of these blocks.
pub fn bid(blocks: BlockLists) -> Bid
    requires { IsBidUnit (record { blocks = map items_in blocks.items }) }
    ensures { bid_of result ≡ record { blocks = map items_in blocks.items } }
{
    Bid { blocks }
}

/// A thermal unit under a name.
pub fn named_unit(name: Name, unit: Unit) -> NamedUnit
    ensures { named_thermal_of result ≡ record { name = name.items; unit = thermal_of unit } }
{
    NamedUnit { name, unit }
}

/// A renewable unit under a name.
pub fn named_renewable(name: Name, flat: Renewable) -> NamedFlat
    ensures { named_renewable_of result ≡ record { name = name.items; unit = renewable_of flat } }
{
    NamedFlat { name, flat }
}

/// A bid under a name.
pub fn named_bid(name: Name, bid: Bid) -> NamedBid
    ensures { named_bid_of result ≡ record { name = name.items; unit = bid_of bid } }
{
    NamedBid { name, bid }
}

/// A case of these units.
pub fn case(
    periods: u32,
    demand: Numbers,
    reserves: Numbers,
    thermal: ThermalList,
    flat: FlatList,
    bids: BidList,
) -> Case
    requires { IsMarket (record {
      periods = periods;
      demand = demand.items;
      reserves =
          reserves.items;
      thermal = map named_thermal_of thermal.items;
      flat =
          map named_renewable_of flat.items;
      bids = map named_bid_of bids.items;
    }) }
    ensures { market_of result ≡ record {
      periods = periods;
      demand = demand.items;
      reserves =
          reserves.items;
      thermal = map named_thermal_of thermal.items;
      flat =
          map named_renewable_of flat.items;
      bids = map named_bid_of bids.items;
    } }
{
    Case {
        periods,
        demand,
        reserves,
        thermal,
        flat,
        bids,
    }
}

/// A response of these lists.
pub fn response(on: Flags, power: Powers, reserve: Powers) -> Response
    requires { AreOneLength (record {
      on = on.items;
      power = power.items;
      reserve =
          reserve.items;
    }) }
    ensures { schedule_of result ≡ record {
      on = on.items;
      power = power.items;
      reserve =
          reserve.items;
    } }
{
    Response { on, power, reserve }
}

/// A plan of these responses.
pub fn plan(responses: ResponseList) -> Plan
    ensures { schedules_of result ≡ map schedule_of responses.items }
{
    Plan { responses }
}

/// Prices of these lists.
pub fn prices(energy: Numbers, reserve: Numbers) -> Prices
    requires { ArePrices (record { energy = energy.items; reserve = reserve.items }) }
    ensures { prices_of result ≡ record { energy = energy.items; reserve = reserve.items } }
{
    Prices { energy, reserve }
}

/// A row of these prices and totals.
pub fn row(prices: Prices, value: i128, supply: Amounts, reserve: Amounts) -> Row
    requires supply { length supply.items ≡ length prices.energy.items }
    requires reserve { length reserve.items ≡ length prices.energy.items }
    ensures { proposal_of result ≡ record {
      prices = prices_of prices;
      value = value;
      supply =
          supply.items;
      reserve = reserve.items;
    } }
{
    Row {
        prices,
        value,
        supply,
        reserve,
    }
}

/// A task of proposal 1 for unit 0, the one of the given kind.
pub fn task(prices: Prices, kind: UnitKind, thermal: Unit, flat: Renewable, bid: Bid) -> Task
    requires thermal { length thermal.window.items ≡ length prices.energy.items }
    requires flat { length flat.least.items ≡ length prices.energy.items }
    requires bid { length bid.blocks.items ≡ length prices.energy.items }
    ensures proposal { result.proposal ≡ 1 }
    ensures number { result.unit ≡ 0 }
    ensures prices { prices_of result.prices ≡ prices_of prices }
    ensures unit { task_unit result ≡ chosen_unit kind thermal flat bid }
    ensures thermal { thermal_of result.thermal ≡ thermal_of thermal }
    ensures flat { renewable_of result.flat ≡ renewable_of flat }
    ensures bid { bid_of result.bid ≡ bid_of bid }
{
    Task {
        proposal: 1,
        unit: 0,
        prices,
        kind,
        thermal,
        flat,
        bid,
    }
}

/// Small prices over the periods of both lists: any energy prices, and reserve prices that aren't
/// negative.
pub fn small_prices(alloc: Global, energy: &[i16], reserve: &[u16]) -> Result<Prices, AllocError>
    requires some { 1 ≤ length energy.now }
    requires limit { length energy.now ≤ 168 }
    requires same { length reserve.now ≡ length energy.now }
    ensures length { IfOk result (λ p. length (prices_of p).energy ≡ length energy.now) }
    ensures energy { IfOk result (λ p. EachIndex energy.now
        (λ k. int_at (prices_of p).energy k ≡ int_at energy.now k)) }
    ensures reserve { IfOk result
        (λ p. EachIndex reserve.now (λ k. int_at (prices_of p).reserve k
        ≡ pos (slice_index reserve.now k))) }
{
    let mut small = Prices::make(alloc, energy.len() as u32)?;
    for index in 0..energy.len() {
        set_price(&mut small, index, energy[index], reserve[index]);
    }
    Ok(small)
}

// Writes the prices of the period at an index.
fn set_price(prices: &mut Prices, index: usize, energy: i16, reserve: u16)
    requires { index < length prices.old.energy.items }
    ensures energy { prices.new.energy.items ≡ slice_set prices.old.energy.items index energy }
    ensures reserve { prices.new.reserve.items ≡ slice_set prices.old.reserve.items index
        (pos reserve) }
{
    prices.energy.set(index, i64::from(energy));
    prices.reserve.set(index, i64::from(reserve));
}

/// A renewable unit over one period.
pub fn small_renewable(alloc: Global, least: u8, range: u8) -> Result<Renewable, AllocError>
    ensures { IfOk result (λ r. renewable_of r ≡ record {
      least = pos least ∷ [];
      most =
          pos (least + range) ∷ [];
    }) }
{
    let most = list_of(alloc, &[i64::from(least) + i64::from(range)])?;
    let least = list_of(alloc, &[i64::from(least)])?;
    Ok(Renewable { least, most })
}

/// A bid of one block over one period.
pub fn small_bid(alloc: Global, width: u8, price: u16) -> Result<Bid, AllocError>
    ensures { IfOk result (λ b. bid_of b ≡ record {
      blocks =
          (record { width = pos width; price = pos price } ∷ []) ∷ [];
    }) }
{
    let block = Block {
        width: i64::from(width),
        price: i64::from(price),
    };
    let blocks = list_of(alloc, &[block])?;
    let mut lists = BlockLists::make(alloc, 1)?;
    lists.push(blocks);
    Ok(bid(lists))
}
