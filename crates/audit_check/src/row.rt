//! The row of one proposal.
ghost use Rattle.std.specs.Prelude.{◌≡◌, ◌<◌, ◌≤◌, length, IfOk};
ghost use Rattle.std.specs.List.{All};
ghost use Rattle.task_deal.specs.declared.deal.TheConstants.{MOST_JOBS};
ghost use Rattle.plain_lists.specs.declared.limits.TheConstants.{MOST_UNITS};
ghost use Rattle.uc_model.specs.Data.{unit_count};
ghost use Rattle.uc_model.specs.PlainCases.{market_of, proposal_of};
ghost use Rattle.uc_model.specs.PlainUnits.{prices_of};
ghost use Rattle.audit_check.specs.Jobs.{AreFor, HaveBegun};
ghost use Rattle.audit_check.specs.Rows.{IsRowAt};
ghost use Rattle.audit_check.specs.Sums.{AreWithin, AreAdded, AreSumsOfAll};

use crate::answerer::Answerer;
use crate::sums::Sums;
use price_space::dual_value;
use std::alloc::{AllocError, Global};
use std::sync::Wait;
use std::thread::Threads;
use task_deal::deal_all;
use task_deal::law::{jobs_ran_exactly_the_tasks, sums_over_jobs_equal_sum_over_tasks};
use uc_model::cases::{Case, Row};
use uc_model::laws::{
    earned_sums_are_within, earnings_are_within, least_best_schedule_is_unique,
    unit_numbers_go_by_kind, units_are_within,
};
use uc_model::units::Prices;

// Begins a proposal on each job.
fn begin_proposal_on_jobs(case: &Case, jobs: &mut [Answerer], prices: &Prices)
    requires jobs { AreFor (market_of case.now) jobs.old }
    requires horizon { length (prices_of prices.now).energy ≡ (market_of case.now).periods }
    ensures count { length jobs.new ≡ length jobs.old }
    ensures begun { HaveBegun (market_of case.now) (prices_of prices.now) jobs.new }
{
    for job in jobs.iter_mut() {
        job.begin(prices);
    }
}

// Begins all jobs of a list.
fn begin_proposal_on_job_list(case: &Case, jobs: &mut Vec<Answerer>, prices: &Prices)
    requires jobs { AreFor (market_of case.now) jobs.old.items }
    requires horizon { length (prices_of prices.now).energy ≡ (market_of case.now).periods }
    ensures count { length jobs.new.items ≡ length jobs.old.items }
    ensures begun { HaveBegun (market_of case.now) (prices_of prices.now) jobs.new.items }
{
    begin_proposal_on_jobs(case, jobs.as_mut_slice(), prices);
}

// Adds the sums of all jobs to sums of nothing.
fn add_sums_of_jobs(jobs: &[Answerer], sums: &mut Sums)
    requires count { length jobs.now ≤ MOST_JOBS }
    requires jobs { All (λ job. AreWithin (length sums.old.supply.items) MOST_UNITS job.sums)
        jobs.now }
    requires none { AreWithin (length sums.old.supply.items) 0 sums.old }
    ensures added { AreAdded (λ job. job.sums) jobs.now sums.old sums.new }
    ensures supply_length { length sums.new.supply.items ≡ length sums.old.supply.items }
    ensures reserve_length { length sums.new.reserve.items ≡ length sums.old.reserve.items }
{
    for job in jobs {
        sums.add(&job.sums);
    }
}

// The sums of the answers of all units at these prices.
fn sums_of_answers<R: Threads + Wait + Sync>(
    rt: &R,
    alloc: Global,
    case: &Case,
    prices: &Prices,
    jobs: &mut Vec<Answerer>,
) -> Result<Sums, AllocError>
    requires some { 1 ≤ length jobs.old.items }
    requires most { length jobs.old.items ≤ MOST_JOBS }
    requires jobs { AreFor (market_of case.now) jobs.old.items }
    requires horizon { length (prices_of prices.now).energy ≡ (market_of case.now).periods }
    ensures sums { IfOk result
        (λ sums. AreSumsOfAll (market_of case.now) (prices_of prices.now) sums) }
    ensures count { length jobs.new.items ≡ length jobs.old.items }
    ensures jobs { AreFor (market_of case.now) jobs.new.items }
{
    unit_numbers_go_by_kind();
    least_best_schedule_is_unique();
    sums_over_jobs_equal_sum_over_tasks();
    jobs_ran_exactly_the_tasks();
    begin_proposal_on_job_list(case, jobs, prices);
    let mut sums = Sums::make(alloc, case.periods)?;
    let units = case.unit_count();
    deal_all(rt, alloc, units, jobs)?;
    add_sums_of_jobs(jobs.as_slice(), &mut sums);
    Ok(sums)
}

/// The row of a proposal at these prices, which are over the periods of the case. Each unit
/// answers once, on one of the jobs, which are for the case and stay so.
///
/// # Errors
///
/// `AllocError` if memory runs out.
pub fn proposal_row_at_prices<R: Threads + Wait + Sync>(
    rt: &R,
    alloc: Global,
    case: &Case,
    prices: Prices,
    jobs: &mut Vec<Answerer>,
) -> Result<Row, AllocError>
    requires some { 1 ≤ length jobs.old.items }
    requires most { length jobs.old.items ≤ MOST_JOBS }
    requires jobs { AreFor (market_of case.now) jobs.old.items }
    requires horizon { length (prices_of prices).energy ≡ (market_of case.now).periods }
    ensures row { IfOk result
        (λ row. IsRowAt (market_of case.now) (prices_of prices) (proposal_of row)) }
    ensures count { length jobs.new.items ≡ length jobs.old.items }
    ensures jobs { AreFor (market_of case.now) jobs.new.items }
{
    units_are_within();
    earnings_are_within();
    earned_sums_are_within();
    let sums = sums_of_answers(rt, alloc, case, &prices, jobs)?;
    let value = dual_value(case, &prices, sums.earned);
    Ok(Row {
        prices,
        value,
        supply: sums.supply,
        reserve: sums.reserve,
    })
}
