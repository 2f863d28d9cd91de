ghost use Rattle.std.specs.Prelude.{◌≡◌, ◌≤◌, ◌≤ℤ◌, pos, neg_ℤ, length, map, IfOk};
ghost use Rattle.std.specs.List.{All};
ghost use Rattle.plain_lists.specs.Ranges.{IsFrom};
ghost use Rattle.uc_model.specs.Data.{NamedThermalUnit};
ghost use Rattle.uc_model.specs.Limits.{IsSum, IsThermalUnit, IsTotal, IsWorth, price_limit};
ghost use Rattle.uc_model.specs.PlainCases.{market_of, proposal_of};
ghost use Rattle.uc_model.specs.PlainUnits.{named_thermal_of, thermal_of};
ghost use Rattle.price_space.specs.Sizes.{IsRowBelow, IsRowOver};

use crate::same::same;
use crate::small_cases::{one_period, one_price, one_response, one_row};
use plain_lists::lists::{Name, Numbers};
use price_space::{
    Moved, add_response, direction, dual_value, next_prices, opening_prices, start_prices, take_bid,
};
use std::alloc::{AllocError, Global};
use std::process::Abort;
use std::test::Fail;
use uc_model::cases::{Case, Row};
use uc_model::money::clamp_to_price_limit;
use uc_model::units::{
    BidList, FlatList, Lags, Mark, Marks, NamedUnit, Point, Points, Prices, ThermalList, Unit,
};

// A unit of exactly 100 kW for 3,000, over one period.
fn fixed_unit(alloc: Global) -> Result<Unit, AllocError>
    ensures { IfOk result (λ u. length (thermal_of u).window ≡ 1) }
{
    let lags = Lags::make(alloc, 0)?;
    let mut points = Points::make(alloc, 1)?;
    points.push(Point {
        at: 100,
        cost: 3_000,
    });
    let window = Marks::filled(alloc, 1, Mark::Free)?;
    Ok(Unit {
        must_run: false,
        min_power: 100,
        max_power: 100,
        ramp_up: 1_000,
        ramp_down: 1_000,
        start_limit: 1_000,
        stop_limit: 1_000,
        min_up: 1,
        min_down: 1,
        power0: 0,
        on0: false,
        up0: 0,
        down0: 1,
        lags,
        points,
        window,
    })
}

fn one_thermal(alloc: Global) -> Result<ThermalList, AllocError>
    ensures count { IfOk result (λ list. length (map named_thermal_of list.items) ≡ 1) }
    ensures units { IfOk result (λ list.
        All (λ (n : NamedThermalUnit). IsThermalUnit n.unit × (length n.unit.window ≡ 1))
        (map named_thermal_of list.items)) }
{
    let mut list = ThermalList::make(alloc, 1)?;
    let name = Name::make(alloc, 0)?;
    let unit = fixed_unit(alloc)?;
    list.push(NamedUnit { name, unit });
    Ok(list)
}

// One period with a demand of 150 kW, and that unit.
fn thermal_case(alloc: Global) -> Result<Case, AllocError> {
    let flat = FlatList::make(alloc, 0)?;
    let bids = BidList::make(alloc, 0)?;
    let demand = Numbers::filled(alloc, 1, 150)?;
    let reserves = Numbers::filled(alloc, 1, 0)?;
    let thermal = one_thermal(alloc)?;
    Ok(Case {
        periods: 1,
        demand,
        reserves,
        thermal,
        flat,
        bids,
    })
}

fn start_of_a_unit(alloc: Global) -> Result<Numbers, AllocError> {
    let case = thermal_case(alloc)?;
    start_prices(alloc, &case)
}

#[test]
fn full_load_price_of_a_unit(rt: HostRuntime) -> Result<(), Fail> {
    let prices = start_of_a_unit(rt.alloc())?;
    same(&rt, prices.as_slice(), [30].as_slice());
    Ok(())
}

fn start_of_no_thermal_unit(alloc: Global) -> Result<Numbers, AllocError> {
    let case = one_period(alloc, 150, 0, 40)?;
    start_prices(alloc, &case)
}

#[test]
fn start_price_without_thermal_units(rt: HostRuntime) -> Result<(), Fail> {
    let prices = start_of_no_thermal_unit(rt.alloc())?;
    same(&rt, prices.as_slice(), [0].as_slice());
    Ok(())
}

#[test]
fn opening_proposals(rt: HostRuntime) -> Result<(), Fail> {
    let start = Numbers::filled(rt.alloc(), 1, 30)?;
    let mut prices = Prices::make(rt.alloc(), 1)?;
    opening_prices(&start, 1, &mut prices);
    same(&rt, prices.energy.as_slice(), [30].as_slice());
    same(&rt, prices.reserve.as_slice(), [0].as_slice());
    opening_prices(&start, 2, &mut prices);
    same(&rt, prices.energy.as_slice(), [33].as_slice());
    Ok(())
}

fn second_below_0(alloc: Global) -> Result<Prices, AllocError> {
    let start = Numbers::filled(alloc, 1, -30)?;
    let mut prices = Prices::make(alloc, 1)?;
    opening_prices(&start, 2, &mut prices);
    Ok(prices)
}

#[test]
fn opening_proposals_below_0(rt: HostRuntime) -> Result<(), Fail> {
    let prices = second_below_0(rt.alloc())?;
    same(&rt, prices.energy.as_slice(), [-34].as_slice());
    Ok(())
}

// The dual value at those prices of a case with a demand of 10,000 kW, a required reserve of 2,000
// kW and a renewable unit of up to 3,000 kW.
fn value_at(alloc: Global, energy: i64, reserve: i64, earned: i128) -> Result<i128, AllocError>
    requires energy { IsFrom (neg_ℤ price_limit) price_limit energy }
    requires reserve { IsFrom (pos 0) price_limit reserve }
    requires earned { IsSum earned }
{
    let prices = one_price(alloc, energy, reserve)?;
    let case = one_period(alloc, 10_000, 2_000, 3_000)?;
    Ok(dual_value(&case, &prices, earned))
}

#[test]
fn values_of_a_usual_case(rt: HostRuntime) -> Result<(), Fail> {
    let alloc = rt.alloc();
    same(&rt, value_at(alloc, 98_000, 0, 294_000_000)?, 686_000_000);
    same(
        &rt,
        value_at(alloc, 119_660, 6_188, 383_200_000 + 358_980_000)?,
        466_796_000,
    );
    Ok(())
}

fn totals_are(rt: &impl Abort, row: Row, supply: i128, reserve: i128) {
    let (supply, reserve) = ([supply], [reserve]);
    let due = (supply.as_slice(), reserve.as_slice());
    same(rt, (row.supply.as_slice(), row.reserve.as_slice()), due);
}

fn row_with_unit(alloc: Global) -> Result<Row, AllocError> {
    let response = one_response(alloc, 100, 7)?;
    let mut row = one_row(alloc, 30, 2_000, 0)?;
    add_response(&mut row, &response);
    Ok(row)
}

#[test]
fn unit_adds(rt: HostRuntime) -> Result<(), Fail> {
    totals_are(&rt, row_with_unit(rt.alloc())?, 100, 7);
    Ok(())
}

fn row_with_bid(alloc: Global) -> Result<Row, AllocError> {
    let response = one_response(alloc, 50, 0)?;
    let mut row = one_row(alloc, 30, 2_000, 0)?;
    take_bid(&mut row, &response);
    Ok(row)
}

#[test]
fn bid_takes(rt: HostRuntime) -> Result<(), Fail> {
    totals_are(&rt, row_with_bid(rt.alloc())?, -50, 0);
    Ok(())
}

// Whether prices follow one row, and the prices after that.
fn after_one(
    alloc: Global,
    case: &Case,
    row: Row,
    cost: i128,
) -> Result<(Moved, Prices), AllocError>
    requires case { (market_of case.now).periods ≡ 1 }
    requires row { IsRowOver (market_of case.now) (proposal_of row) }
    requires value { IsWorth (proposal_of row).value }
    requires cost { IsWorth cost }
    requires at_most { (proposal_of row).value ≤ℤ cost }
{
    let mut into = one_price(alloc, 7, 0)?;
    let moved = next_prices(case, &[row], 1, cost, &mut into);
    Ok((moved, into))
}

fn energy_is(rt: &impl Abort, prices: Prices, energy: i64) {
    same(rt, prices.energy.as_slice(), [energy].as_slice());
}

fn prices_are(rt: &impl Abort, prices: Prices, energy: i64, reserve: i64) {
    let (energy, reserve) = ([energy], [reserve]);
    let due = (energy.as_slice(), reserve.as_slice());
    same(
        rt,
        (prices.energy.as_slice(), prices.reserve.as_slice()),
        due,
    );
}

fn after_a_usual_row(alloc: Global) -> Result<(Moved, Prices), AllocError> {
    let case = one_period(alloc, 10_000, 2_000, 0)?;
    let row = one_row(alloc, 98_000, 686_000_000, 3_000)?;
    after_one(alloc, &case, row, 850_000_000)
}

#[test]
fn prices_follow_a_usual_row(rt: HostRuntime) -> Result<(), Fail> {
    let (moved, into) = after_a_usual_row(rt.alloc())?;
    same(&rt, moved, Moved::Made);
    prices_are(&rt, into, 119_660, 6_188);
    Ok(())
}

fn after_a_settled_row(alloc: Global) -> Result<(Moved, Prices), AllocError> {
    let case = one_period(alloc, 150, 0, 0)?;
    let row = one_row(alloc, 30, 2_000, 50)?;
    after_one(alloc, &case, row, 2_000)
}

#[test]
fn no_prices_follow_a_settled_row(rt: HostRuntime) -> Result<(), Fail> {
    let (moved, into) = after_a_settled_row(rt.alloc())?;
    same(&rt, moved, Moved::Settled);
    energy_is(&rt, into, 7);
    Ok(())
}

// The directions of energy and reserve at a price for energy.
fn directions_at(alloc: Global, energy: i64) -> Result<(i64, i64), AllocError>
    requires { IsFrom (neg_ℤ price_limit) price_limit energy }
{
    let case = one_period(alloc, 10_000, 2_000, 0)?;
    let row = one_row(alloc, energy, 0, 3_000)?;
    Ok((direction(&case, &row, 0), direction(&case, &row, 1)))
}

#[test]
fn directions(rt: HostRuntime) -> Result<(), Fail> {
    same(&rt, directions_at(rt.alloc(), 98_000)?, (7_000, 2_000));
    let (energy, _) = directions_at(rt.alloc(), 10_000_000)?;
    same(&rt, energy, 0);
    Ok(())
}

// Rows with a value of 0 at a price of 0, all alike.
fn rows_alike(alloc: Global, case: &Case, supply: i128, count: u32) -> Result<Vec<Row>, AllocError>
    requires case { (market_of case.now).periods ≡ 1 }
    requires supply { IsTotal supply }
    ensures count { IfOk result (λ rows. length rows.items ≡ count) }
    ensures rows { IfOk result (λ rows.
        All (λ row. IsRowBelow (market_of case.now) (pos 0) (proposal_of row)) rows.items) }
{
    let mut rows = Vec::new(alloc);
    for _ in 0..count {
        let row = one_row(alloc, 0, 0, supply)?;
        rows.push(row)?;
    }
    Ok(rows)
}

// The prices that follow so many rows, all alike, whose value lacks `gap` of the cost.
fn after_rows_alike(
    alloc: Global,
    case: &Case,
    supply: i128,
    gap: i128,
    count: u32,
) -> Result<Prices, AllocError>
    requires case { (market_of case.now).periods ≡ 1 }
    requires supply { IsTotal supply }
    requires gap { IsFrom (pos 0) (pos 1000) gap }
    requires some { 1 ≤ count }
    requires few { count ≤ 100 }
{
    let rows = rows_alike(alloc, case, supply, count)?;
    let mut into = one_price(alloc, 7, 0)?;
    next_prices(case, rows.as_slice(), 1, gap, &mut into);
    Ok(into)
}

// The prices that follow so many rows, at a demand of 50 and a gap of 1,000.
fn after_rows(alloc: Global, supply: i128, count: u32) -> Result<Prices, AllocError>
    requires supply { IsTotal supply }
    requires some { 1 ≤ count }
    requires few { count ≤ 100 }
{
    let case = one_period(alloc, 50, 0, 0)?;
    after_rows_alike(alloc, &case, supply, 1_000, count)
}

// The prices that follow a row that lacks reserve, at a gap of 7.
fn after_a_lack(alloc: Global) -> Result<Prices, AllocError> {
    let case = one_period(alloc, 0, 1, 0)?;
    after_rows_alike(alloc, &case, 1, 7, 1)
}

// The gap is 1,000 or 7. The direction is 50, -50, or -1 beside 1 for the reserve, and so the sum
// of its squares 2,500 or 2. The last row comes 10, 25 and 0 rows after the first of the greatest
// value, which halves a move once, twice and never.
#[test]
fn moves(rt: HostRuntime) -> Result<(), Fail> {
    let alloc = rt.alloc();
    energy_is(&rt, after_rows(alloc, 0, 11)?, 10);
    energy_is(&rt, after_rows(alloc, 100, 26)?, -5);
    energy_is(&rt, after_a_lack(alloc)?, -3);
    same(
        &rt,
        clamp_to_price_limit(-10_000_000, 9_999_990 + 20),
        10_000_000,
    );
    Ok(())
}
