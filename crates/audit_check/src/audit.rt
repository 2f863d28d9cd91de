//! The audit of a report, from its case and plan alone.
ghost use Rattle.std.specs.Prelude.{◌≡◌, ◌+◌, ◌≤◌, ◌↔◌, min, length, map, IfOk};
ghost use Rattle.std.specs.List.{All};
ghost use Rattle.task_deal.specs.declared.deal.TheConstants.{MOST_JOBS};
ghost use Rattle.uc_model.specs.Data.{Market};
ghost use Rattle.uc_model.specs.PlainCases.{market_of, schedules_of};
ghost use Rattle.uc_model.specs.Systems.{IsFeasiblePlan, plan_cost};
ghost use Rattle.audit_check.specs.Jobs.{AreFor};
ghost use Rattle.unit_program.specs.Tops.{HasSchedules, IsBenchOver};
ghost use Rattle.right_report.specs.RightReport.{IsRightReport};
ghost use Rattle.report_read.specs.Bounds.{IsReport, AreInOrder};
ghost use Rattle.report_read.specs.Plain.{report_of, told_of};
ghost use Rattle.report_compare.specs.Audits.{IfWrong, IsRight, HasRightOpening, IsWrongAt};
ghost use Rattle.report_compare.specs.Right.{DiffersFromRight};
ghost use Rattle.report_compare.specs.declared.verdict.Audit.TheVariants.{Right};

use crate::answerer::Answerer;
use crate::count::AnswerRoom;
use crate::rows::recomputed_rows_of_run;
use report_compare::{
    Audit, Audited, CompareRoom, audit_result_of_right_rows, check_opening_lines,
};
use report_read::Report;
use std::alloc::{AllocError, Global};
use std::sync::{Arc, Wait};
use std::thread::Threads;
use uc_model::cases::{Case, Plan};
use unit_program::{Bench, LastAnswers};

// A job on each bench, all with the same last answers.
fn make_audit_jobs<'a>(
    alloc: Global,
    case: &'a Case,
    mut benches: Vec<Bench>,
    last: &Arc<LastAnswers, Global>,
) -> Result<Vec<Answerer<'a>>, AllocError>
    requires schedules { HasSchedules (market_of case.now) }
    requires benches { All (IsBenchOver (market_of case.now)) benches.items }
    ensures count { IfOk result (λ jobs. length jobs.items ≡ length benches.items) }
    ensures jobs { IfOk result (λ jobs. AreFor (market_of case.now) jobs.items) }
{
    let mut jobs = Vec::new(alloc);
    while let Some(bench) = benches.pop() {
        let job = Answerer::make(alloc, case, bench, Arc::try_clone(last)?)?;
        jobs.push(job)?;
    }
    Ok(jobs)
}

// The bench of the last job.
fn workspace_of_last_job(mut jobs: Vec<Answerer>) -> Bench
    requires { 1 ≤ length jobs.items }
    ensures { (m : Market) → AreFor m jobs.entry.items → IsBenchOver m result }
{
    let Some(job) = jobs.pop() else {
        unreachable!()
    };
    let Answerer {
        case: _,
        means,
        prices: _,
        numbers: _,
        left: _,
        sums: _,
    } = job;
    let AnswerRoom {
        bench,
        last: _,
        answer: _,
    } = means;
    bench
}

// As many proposals as tell whether the report has all of them and no other: one more than it has,
// within its budget.
fn row_count_to_audit(report: &Report) -> u32
    ensures { result ≡ min report.now.budget (length report.now.rows.items + 1) }
{
    let count = report.rows.len();
    if count < report.budget as usize {
        count as u32 + 1
    } else {
        report.budget
    }
}

// The audit of a report whose first six lines are right.
fn audit_by_recomputed_rows<R: Threads + Wait + Sync>(
    rt: &R,
    alloc: Global,
    audited: &Audited<'_>,
    benches: Vec<Bench>,
) -> Result<Audit, AllocError>
    requires opening { HasRightOpening audited.now }
    requires count { (1 ≤ length benches.items) × (length benches.items ≤ MOST_JOBS) }
    requires benches { All (IsBenchOver (market_of audited.now.case.now)) benches.items }
    ensures right { IfOk result (λ audit. (audit ≡ Right) ↔ IsRight audited.now) }
    ensures wrong { IfOk result (λ audit. IfWrong audit (IsWrongAt audited.now)) }
{
    let case = audited.case;
    let last = LastAnswers::make(alloc, case.thermal.len() as u32, case.periods)?;
    let last = Arc::new(alloc, last)?;
    let mut jobs = make_audit_jobs(alloc, case, benches, &last)?;
    let most = row_count_to_audit(audited.report);
    let ahead = audited.report.ahead;
    let rows = recomputed_rows_of_run(rt, alloc, case, audited.cost, most, ahead, &mut jobs)?;
    let mut compare_room = CompareRoom::make(alloc, case, workspace_of_last_job(jobs), last)?;
    let audit = audit_result_of_right_rows(audited, rows.as_slice(), &mut compare_room);
    Ok(audit)
}

/// Whether a report within the bounds of `read_report` is the right one for its own budget and
/// number of proposals ahead, and else where it first differs from that one. The report may be of
/// another case.
///
/// The plan is feasible, and `cost` is what it costs, in money. There are 1 to `MOST_JOBS` benches,
/// each of which suffices for each thermal unit: the units of a proposal are dealt to as many jobs,
/// and each job has a bench of its own. Whatever the answer, the benches are dropped.
///
/// Works out no more than it needs: nothing where one of the first six lines is wrong, and one
/// proposal more than the report has at most. Waits for the jobs' threads.
///
/// # Errors
///
/// `AllocError` if memory runs out.
pub fn check_report<R: Threads + Wait + Sync>(
    rt: &R,
    alloc: Global,
    case: &Case,
    plan: &Plan,
    cost: i128,
    report: &Report,
    benches: Vec<Bench>,
) -> Result<Audit, AllocError>
    requires feasible { IsFeasiblePlan (market_of case.now) (schedules_of plan.now) }
    requires cost { cost ≡ plan_cost (market_of case.now) (schedules_of plan.now) }
    requires bounds { IsReport (report_of report.now) }
    requires order { AreInOrder 0 (map told_of report.now.lines.items) }
    requires count { (1 ≤ length benches.items) × (length benches.items ≤ MOST_JOBS) }
    requires benches { All (IsBenchOver (market_of case.now)) benches.items }
    ensures right { IfOk result (λ audit. (audit ≡ Right)
        ↔ IsRightReport (market_of case.now) (schedules_of plan.now)
        (report_of report.now).budget (report_of report.now).ahead (report_of report.now)) }
    ensures wrong { IfOk result (λ audit. IfWrong audit (λ line.
        DiffersFromRight (market_of case.now) (schedules_of plan.now)
        (report_of report.now) line)) }
{
    let audited = Audited {
        case,
        plan,
        cost,
        report,
    };
    match check_opening_lines(&audited) {
        Ok(()) => audit_by_recomputed_rows(rt, alloc, &audited, benches),
        Err(wrong) => Ok(Audit::Wrong { line: wrong.line }),
    }
}
