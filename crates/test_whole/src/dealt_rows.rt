//! The rows of a run without a board, on two units over one period with a demand of 150 kW: A gives
//! up to 100 kW at 10 for each, and B gives exactly 100 kW for 3,000. The numbers expected are
//! worked by hand.

ghost use Rattle.std.specs.Prelude.{◌≡◌, ◌≤◌, length, IfOk};
ghost use Rattle.uc_model.specs.PlainCases.{market_of};
ghost use Rattle.unit_program.specs.Tops.{HasSchedules};
ghost use Rattle.audit_check.specs.Jobs.{AreFor};

use crate::boards::{CASE, PLAN, planned, same_row};
use crate::same::same;
use audit_check::{Answerer, recomputed_rows_of_run};
use plain_lists::lists::ReservedList;
use std::alloc::Global;
use std::sync::{Arc, Wait};
use std::test::Fail;
use std::thread::Threads;
use uc_model::cases::{Case, Row};
use uc_model::limits::MOST_POINTS;
use unit_program::case_laws::case_bench_suffices_for_each_unit;
use unit_program::{Bench, LastAnswers};

// A job with a bench for any unit.
fn job_for<'a>(
    alloc: Global,
    case: &'a Case,
    last: Arc<LastAnswers, Global>,
) -> Result<Answerer<'a>, Fail>
    requires { HasSchedules (market_of case.now) }
    ensures { IfOk result (λ job. job.case.now ≡ case.now) }
{
    case_bench_suffices_for_each_unit();
    let bench = Bench::make(alloc, case.periods, MOST_POINTS)?;
    Ok(Answerer::make(alloc, case, bench, last)?)
}

fn jobs_for<'a>(alloc: Global, case: &'a Case, count: u32) -> Result<Vec<Answerer<'a>>, Fail>
    requires { HasSchedules (market_of case.now) }
    ensures count { IfOk result (λ jobs. length jobs.items ≡ count) }
    ensures jobs { IfOk result (λ jobs. AreFor (market_of case.now) jobs.items) }
{
    let last = LastAnswers::make(alloc, case.thermal.len() as u32, case.periods)?;
    let last = Arc::new(alloc, last)?;
    let mut jobs = Vec::new(alloc);
    for _ in 0..count {
        let job = job_for(alloc, case, Arc::try_clone(&last)?)?;
        jobs.push(job)?;
    }
    Ok(jobs)
}

// The rows of two proposals, each dealt to so many jobs.
fn two_rows<R: Threads + Wait + Sync>(
    rt: &R,
    alloc: Global,
    count: u32,
) -> Result<ReservedList<Row>, Fail>
    requires some { 1 ≤ count }
    requires most { count ≤ 32 }
{
    let (case, plan, cost) = planned(alloc, CASE, PLAN)?;
    let mut jobs = jobs_for(alloc, &case, count)?;
    Ok(recomputed_rows_of_run(rt, alloc, &case, cost, 2, 1, &mut jobs)?)
}

#[test]
fn rows_of_two_units(rt: HostRuntime) -> Result<(), Fail> {
    for count in [1, 4, 32] {
        let rows = two_rows(&rt, rt.alloc(), count)?;
        same(&rt, rows.len(), 2);
        if rows.len() != 2 {
            return Err(Fail::new("there aren't two rows"));
        }
        same_row(&rt, rows.get(0), 30, 2_500, 100);
        same_row(&rt, rows.get(1), 50, 1_500, 200);
        same(&rt, rows.get(1).reserve.as_slice(), [0].as_slice());
    }
    Ok(())
}
