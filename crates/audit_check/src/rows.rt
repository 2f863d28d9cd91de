//! The rows of a run.
ghost use Rattle.std.specs.Prelude.{◌≡◌, ◌<◌, ◌≤◌, true, not, IsTrue, IsFalse};
ghost use Rattle.std.specs.Prelude.{length, IfOk, map, take};
ghost use Rattle.std.specs.List.{All};
ghost use Rattle.price_space.specs.Moves.{is_last_settled};
ghost use Rattle.price_space.specs.Sizes.{IsRowBelow};
ghost use Rattle.task_deal.specs.declared.deal.TheConstants.{MOST_JOBS};
ghost use Rattle.plain_lists.specs.declared.limits.TheConstants.{MOST_PROPOSALS, MOST_AHEAD};
ghost use Rattle.uc_model.specs.Limits.{IsWorth};
ghost use Rattle.uc_model.specs.PlainCases.{market_of, proposal_of};
ghost use Rattle.uc_model.specs.PlainUnits.{prices_of};
ghost use Rattle.uc_model.specs.PriceRule.{start_prices as start_prices_of};
ghost use Rattle.uc_model.specs.PriceRule.{next_prices as prices_after};
ghost use Rattle.uc_model.specs.Runs.{IsRun, Fits};
ghost use Rattle.audit_check.specs.Jobs.{AreFor};
ghost use Rattle.audit_check.specs.Rows.{IsCostOfPlan, IsNextProposal, IsLast};

use crate::answerer::Answerer;
use crate::row::proposal_row_at_prices;
use plain_lists::lists::{Numbers, ReservedList};
use price_space::{Moved, next_prices, opening_prices, start_prices};
use std::alloc::{AllocError, Global};
use std::sync::Wait;
use std::thread::Threads;
use uc_model::cases::{Case, Row};
use uc_model::laws::{
    dual_is_at_most_cost, dual_values_are_within, outputs_are_within, plan_costs_are_within,
    power_and_reserve_totals_are_within, units_are_within,
};
use uc_model::units::Prices;

// The first so many rows.
fn first_rows(rows: &[Row], count: usize) -> &[Row]
    requires { count ≤ length rows.now }
    ensures { map proposal_of result.now ≡ take count (map proposal_of rows.now) }
{
    &rows[..count]
}

// Whether prices follow these rows; then they are left in `into`.
fn propose_prices(case: &Case, rows: &[Row], ahead: u32, cost: i128, into: &mut Prices) -> bool
    requires some { 1 ≤ length rows.now }
    requires count { length rows.now ≤ MOST_PROPOSALS }
    requires rows { All (IsRowBelow (market_of case.now) cost) (map proposal_of rows.now) }
    requires cost { IsWorth cost }
    requires horizon { length (prices_of into.old).energy ≡ (market_of case.now).periods }
    ensures settled { result
        ≡ not (is_last_settled (market_of case.now) cost (map proposal_of rows.now)) }
    ensures prices { result ≡ true → prices_of into.new
        ≡ prices_after (market_of case.now) cost (map proposal_of rows.now) }
    ensures horizon { length (prices_of into.new).energy ≡ (market_of case.now).periods }
{
    let moved = next_prices(case, rows, ahead, cost, into);
    moved == Moved::Made
}

// Leaves the prices of the proposal that follows the rows, where one follows.
fn write_next_prices(
    case: &Case,
    start: &Numbers,
    rows: &[Row],
    ahead: u32,
    cost: i128,
    into: &mut Prices,
) -> bool
    requires start { start.now.items ≡ start_prices_of (market_of case.now) }
    requires some { 1 ≤ ahead }
    requires most { ahead ≤ MOST_AHEAD }
    requires count { length rows.now < MOST_PROPOSALS }
    requires rows { All (IsRowBelow (market_of case.now) cost) (map proposal_of rows.now) }
    requires cost { IsWorth cost }
    requires horizon { length (prices_of into.old).energy ≡ (market_of case.now).periods }
    ensures next { IsTrue result → IsNextProposal (market_of case.now) cost ahead
        (map proposal_of rows.now) (prices_of into.new) }
    ensures last { IsFalse result
        → IsLast (market_of case.now) cost ahead (map proposal_of rows.now) }
    ensures horizon { length (prices_of into.new).energy ≡ (market_of case.now).periods }
{
    let number = rows.len() as u32 + 1;
    if number <= ahead {
        opening_prices(start, number, into);
        return true;
    }
    let past = first_rows(rows, (number - ahead) as usize);
    propose_prices(case, past, ahead, cost, into)
}

/// The rows of the run of a case with that budget of proposals, of which `ahead` are opened ahead
/// of the answered ones: all the proposals that the budget and the price rule call for, each with
/// its prices, its dual value in money, and the totals of the least best responses in kilowatts.
///
/// `cost` is that of a feasible plan, in money. The units of each proposal are dealt to the jobs,
/// which are for this case and stay so. There are 1 to `MOST_JOBS` jobs, the budget is from 1 to
/// `MOST_PROPOSALS` and `ahead` from 1 to 16.
///
/// Waits for the jobs' threads.
///
/// # Errors
///
/// `AllocError` if memory runs out.
pub fn recomputed_rows_of_run<R: Threads + Wait + Sync>(
    rt: &R,
    alloc: Global,
    case: &Case,
    cost: i128,
    budget: u32,
    ahead: u32,
    jobs: &mut Vec<Answerer>,
) -> Result<ReservedList<Row>, AllocError>
    requires cost { IsCostOfPlan (market_of case.now) cost }
    requires budget { (1 ≤ budget) × (budget ≤ MOST_PROPOSALS) }
    requires ahead { (1 ≤ ahead) × (ahead ≤ MOST_AHEAD) }
    requires count { (1 ≤ length jobs.old.items) × (length jobs.old.items ≤ MOST_JOBS) }
    requires jobs { AreFor (market_of case.now) jobs.old.items }
    ensures run { IfOk result (λ rows. IsRun Fits (market_of case.now) cost budget ahead
        (map proposal_of rows.items)) }
    ensures count { length jobs.new.items ≡ length jobs.old.items }
    ensures jobs { AreFor (market_of case.now) jobs.new.items }
{
    units_are_within();
    outputs_are_within();
    power_and_reserve_totals_are_within();
    plan_costs_are_within();
    dual_values_are_within();
    dual_is_at_most_cost();
    let start = start_prices(alloc, case)?;
    let mut rows = ReservedList::make(alloc, budget)?;
    for _ in 0..budget {
        let mut prices = Prices::make(alloc, case.periods)?;
        if !write_next_prices(case, &start, rows.as_slice(), ahead, cost, &mut prices) {
            return Ok(rows);
        }
        let row = proposal_row_at_prices(rt, alloc, case, prices, jobs)?;
        rows.push(row);
    }
    Ok(rows)
}
