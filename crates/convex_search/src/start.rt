//! How a search opens: all memory is taken, the start prices are asked at, and the plan is the
//! first mixture.
ghost use Rattle.std.specs.Prelude.{◌≡◌, ◌^◌, ◌*◌, ◌<◌, ◌≤◌, length, IfOk};
ghost use Rattle.uc_model.specs.PlainCases.{market_of, schedules_of};
ghost use Rattle.uc_model.specs.Systems.{IsFeasiblePlan};
ghost use Rattle.bundle_columns.specs.Pools.{IsPool, places_in};
ghost use Rattle.convex_search.specs.Searching.{IsOracle, IsSearch, IsBestOf};
ghost use Rattle.convex_search.specs.Starting.{IsProblem};

use crate::best::Best;
use crate::bounds::EVERYWHERE;
use crate::opening::first_prices;
use crate::oracle::{Oracle, add_best_responses_as_columns};
use crate::points::write_prices_as_point;
use crate::search::{Search, value_at};
use bundle_columns::plans::mixture_of_plan;
use bundle_columns::pool::{Pool, add_column_if_new};
use bundle_master::master::{Master, Sizes, make_master};
use bundle_master::numbers::in_megawatts;
use gap_proof::bound_of_mixture;
use plain_lists::lists::Numbers;
use std::alloc::{AllocError, Global};
use uc_model::cases::{Case, Plan};
use uc_model::units::{Answered, Block};
use unit_program::{LastAnswers, make_bench_for_case};

/// Places for columns of all thermal units, for each period at least so many, and of one unit.
const ALL_PLACES: usize = 3600;

const PLACES_OF_PERIOD: usize = 24;

const FEWEST_PLACES: usize = 12;

/// Variables of one row that a master problem may have.
const MOST_SINGLES: usize = 4_000_000_000;

// How many columns each thermal unit has room for.
fn column_capacity_of_unit(case: &Case) -> usize
    ensures some { 1 ≤ result }
    ensures most { result ≤ 1000 }
{
    let periods = case.periods as usize;
    let all = ALL_PLACES.max(PLACES_OF_PERIOD * periods);
    let each = all / case.thermal.len().max(1);
    each.max(FEWEST_PLACES).min(2 * periods + 8)
}

// How many variables of one row there may be: one for each period, and one for each block.
fn single_row_variable_count(case: &Case) -> usize
    ensures { result < 2 ^ 32 }
{
    let mut count = case.periods as usize;
    for named in case.bids.as_slice() {
        for blocks in named.bid.blocks.as_slice() {
            count = count.saturating_add(blocks.len());
        }
    }
    count.min(MOST_SINGLES)
}

/// What renewable units give in a period, in megawatts.
#[derive(Clone, Copy)]
struct Range {
    least: f64,
    most: f64,
}

// What the renewable unit of a number gives.
fn renewable_range(case: &Case, number: usize, k: usize) -> Range
    requires number { number < length (market_of case.now).flat }
    requires index { k < (market_of case.now).periods }
{
    let flat = &case.flat.get(number).flat;
    Range {
        least: in_megawatts(*flat.least.get(k)),
        most: in_megawatts(*flat.most.get(k)),
    }
}

// What all of them give.
fn renewable_range_in_period(case: &Case, k: usize) -> Range
    requires { k < (market_of case.now).periods }
{
    let mut least = 0.0;
    let mut most = 0.0;
    for number in 0..case.flat.len() {
        let range = renewable_range(case, number, k);
        least += range.least;
        most += range.most;
    }
    Range { least, most }
}

// The blocks of the bid of a number in a period.
fn bid_blocks_in_period(case: &Case, number: usize, k: usize) -> &[Block]
    requires number { number < length (market_of case.now).bids }
    requires index { k < (market_of case.now).periods }
{
    case.bids.get(number).bid.blocks.get(k).as_slice()
}

// Writes what is due in each row.
fn write_demand_and_reserve_rows(master: &mut Master, case: &Case)
    requires { master.old.periods ≡ (market_of case.now).periods }
    ensures { master.new ≡ master.old }
{
    let periods = case.periods as usize;
    for k in 0..periods {
        master.set_requirement_of_row(
            k,
            in_megawatts(*case.demand.get(k)) - renewable_range_in_period(case, k).least,
        );
        master.set_requirement_of_row(periods + k, in_megawatts(*case.reserves.get(k)));
    }
}

// Adds what renewable units may give in each period. Tells how much room is left.
fn add_renewable_variables(master: &mut Master, case: &Case, room: usize) -> usize
    requires problem { IsProblem (market_of case.now) master.old.places master.old }
    requires room { room ≤ master.old.room }
    ensures room { result ≤ master.new.room }
    ensures problem { IsProblem (market_of case.now) master.old.places master.new }
{
    let mut left = room;
    for k in 0..case.periods as usize {
        let range = renewable_range_in_period(case, k);
        let amount = range.most - range.least;
        if amount > 0.0 && left > 0 {
            master.add_row_variable(k, amount, 0.0);
            left -= 1;
        }
    }
    left
}

// Adds what blocks may take in a period. Tells how much room is left.
fn add_block_variables_in_period(
    master: &mut Master,
    case: &Case,
    blocks: &[Block],
    k: usize,
    room: usize,
) -> usize
    requires problem { IsProblem (market_of case.now) master.old.places master.old }
    requires index { k < (market_of case.now).periods }
    requires room { room ≤ master.old.room }
    ensures room { result ≤ master.new.room }
    ensures problem { IsProblem (market_of case.now) master.old.places master.new }
{
    let mut left = room;
    for block in blocks {
        if block.width > 0 && left > 0 {
            let amount = in_megawatts(block.width);
            master.add_row_variable(k, -amount, -amount * in_megawatts(block.price));
            left -= 1;
        }
    }
    left
}

// Adds what the blocks of a bid may take. Tells how much room is left.
fn add_block_variables_of_bid(master: &mut Master, case: &Case, number: usize, room: usize) -> usize
    requires problem { IsProblem (market_of case.now) master.old.places master.old }
    requires number { number < length (market_of case.now).bids }
    requires room { room ≤ master.old.room }
    ensures room { result ≤ master.new.room }
    ensures problem { IsProblem (market_of case.now) master.old.places master.new }
{
    let mut left = room;
    for k in 0..case.periods as usize {
        left = add_block_variables_in_period(
            master,
            case,
            bid_blocks_in_period(case, number, k),
            k,
            left,
        );
    }
    left
}

// Adds what the blocks of all bids may take.
fn add_block_variables(master: &mut Master, case: &Case, room: usize)
    requires problem { IsProblem (market_of case.now) master.old.places master.old }
    requires room { room ≤ master.old.room }
    ensures { IsProblem (market_of case.now) master.old.places master.new }
{
    let mut left = room;
    for number in 0..case.bids.len() {
        left = add_block_variables_of_bid(master, case, number, left);
    }
}

fn make_problem(alloc: Global, case: &Case, places: usize) -> Result<Master, AllocError>
    requires some { 1 ≤ places }
    requires most { places ≤ 1000 }
    ensures { IfOk result (λ master. IsProblem (market_of case.now) places master) }
{
    let singles = single_row_variable_count(case);
    let sizes = Sizes {
        periods: case.periods as usize,
        thermal: case.thermal.len(),
        places,
        singles,
    };
    let mut master = make_master(alloc, sizes)?;
    write_demand_and_reserve_rows(&mut master, case);
    let left = add_renewable_variables(&mut master, case, singles);
    add_block_variables(&mut master, case, left);
    Ok(master)
}

fn make_pool(alloc: Global, case: &Case, plan: &Plan, places: usize) -> Result<Pool, AllocError>
    requires feasible { IsFeasiblePlan (market_of case.now) (schedules_of plan.now) }
    requires some { 1 ≤ places }
    requires most { places ≤ 1000 }
    ensures { IfOk result (λ pool. IsPool (market_of case.now) places pool) }
{
    let columns = mixture_of_plan(alloc, case, plan, places as u32)?;
    let wanted = Numbers::filled(alloc, places as u32, 0)?;
    let power = Numbers::filled(alloc, case.periods, 0)?;
    let reserve = Numbers::filled(alloc, case.periods, 0)?;
    let master = make_problem(alloc, case, places)?;
    Ok(Pool {
        columns,
        master,
        wanted,
        power,
        reserve,
    })
}

fn make_oracle(alloc: Global, case: &Case) -> Result<Oracle, AllocError>
    ensures { IfOk result (IsOracle (market_of case.now)) }
{
    let answer = Answered::make(alloc, case.periods)?;
    let earned = Numbers::make(alloc, case.unit_count())?;
    let given = vec![in alloc; 0.0; 2 * case.periods as usize]?;
    let last = LastAnswers::make(alloc, case.thermal.len() as u32, case.periods)?;
    let bench = make_bench_for_case(alloc, case)?;
    Ok(Oracle {
        bench,
        last,
        answer,
        earned,
        given,
    })
}

// Keeps the plan's schedules as columns.
fn add_plan_columns(pool: &mut Pool, case: &Case, plan: &Plan)
    requires feasible { IsFeasiblePlan (market_of case.now) (schedules_of plan.now) }
    requires pool { IsPool (market_of case.now) (places_in pool.old) pool.old }
    ensures { IsPool (market_of case.now) (places_in pool.old) pool.new }
{
    for number in 0..case.thermal.len() {
        let _ = add_column_if_new(pool, case, number, plan.responses.get(number));
    }
}

// The start prices with their value, and the plan as a mixture with its bound.
fn best_at_start_of_search(
    alloc: Global,
    case: &Case,
    plan: &Plan,
    oracle: &mut Oracle,
    pool: &mut Pool,
) -> Result<Best, AllocError>
    requires feasible { IsFeasiblePlan (market_of case.now) (schedules_of plan.now) }
    requires oracle { IsOracle (market_of case.now) oracle.old }
    requires pool { IsPool (market_of case.now) (places_in pool.old) pool.old }
    ensures best { IfOk result (λ best. IsBestOf (market_of case.now) (places_in pool.old) best) }
    ensures oracle { IfOk result (λ best. IsOracle (market_of case.now) oracle.new) }
    ensures pool { IfOk result (λ best. IsPool (market_of case.now) (places_in pool.old) pool.new) }
{
    let mixture = mixture_of_plan(alloc, case, plan, pool.wanted.len() as u32)?;
    let prices = first_prices(alloc, case)?;
    let bound = bound_of_mixture(case, &mixture, &prices, EVERYWHERE);
    let _ = add_best_responses_as_columns(oracle, case, &prices, pool);
    let value = value_at(case, &prices, oracle.earned.as_slice());
    Ok(Best {
        prices,
        value,
        mixture,
        bound,
    })
}

/// Opens a search: the start prices have been asked at.
pub fn open_search(alloc: Global, case: &Case, plan: &Plan) -> Result<Search, AllocError>
    requires { IsFeasiblePlan (market_of case.now) (schedules_of plan.now) }
    ensures { IfOk result (λ s. IsSearch (market_of case.now) (places_in s.pool) s) }
{
    let mut pool = make_pool(alloc, case, plan, column_capacity_of_unit(case))?;
    add_plan_columns(&mut pool, case, plan);
    let mut oracle = make_oracle(alloc, case)?;
    let best = best_at_start_of_search(alloc, case, plan, &mut oracle, &mut pool)?;
    let asked = first_prices(alloc, case)?;
    let rows = 2 * case.periods as usize;
    let mut centre = vec![in alloc; 0.0; rows]?;
    let point = vec![in alloc; 0.0; rows]?;
    let trial = vec![in alloc; 0.0; rows]?;
    write_prices_as_point(&asked, &mut centre);
    Ok(Search {
        oracle,
        pool,
        best,
        asked,
        centre,
        point,
        trial,
    })
}
