//! Whether a report is the right one of a case and its schedule.
ghost use Rattle.std.specs.Prelude.{◌≡◌, ℕ, ◌≤◌, length, map, IfOk};
ghost use Rattle.std.specs.List.{All};
ghost use Rattle.uc_model.specs.PlainCases.{market_of};
ghost use Rattle.unit_program.specs.Tops.{IsBenchOver};
ghost use Rattle.report_read.specs.Bounds.{IsReport, AreInOrder};
ghost use Rattle.report_read.specs.Plain.{report_of, told_of};
ghost use Rattle.hull_input.specs.Answers.{IsAnswer};
ghost use Rattle.board_core.specs.Setups.{IsSetup, setup_of};
ghost use Rattle.hull_input.specs.Planned.{planned_run};
ghost use Rattle.hull_input.specs.Sizes.{IsWorkers};
ghost use Rattle.hull_command.specs.FurtherSteps.{IsJudged};

use audit_check::check_report;
use board_core::Terms;
use hull_fault::{ReportCode, TopFault};
use report_compare::Audit;
use report_read::Report;
use std::alloc::{AllocError, Global};
use std::sync::Wait;
use std::thread::Threads;
use uc_model::cases::Case;
use unit_program::{Bench, make_bench_for_case};

/// The units and periods of a proposal, multiplied, that are worth a job: to start a thread takes
/// about as long.
const WORTH_A_JOB: u32 = 512;

/// To how many jobs an audit is dealt: one for each worker, but no more than a proposal has work
/// for.
fn audit_job_count(case: &Case, workers: u32) -> u32
    requires { 1 ≤ workers }
    ensures some { 1 ≤ result }
    ensures most { result ≤ workers }
{
    workers.min(1 + case.unit_count() * case.periods / WORTH_A_JOB)
}

/// So many benches, each of which suffices for every thermal unit of the case.
fn workspaces_for_audit_jobs(
    alloc: Global,
    case: &Case,
    count: u32,
) -> Result<Vec<Bench>, AllocError>
    ensures count { IfOk result (λ benches. length benches.items ≡ count) }
    ensures benches { IfOk result (λ benches.
        All (IsBenchOver (market_of case.now)) benches.items) }
{
    let mut benches = Vec::new(alloc);
    for _ in 0..count {
        benches.push(make_bench_for_case(alloc, case)?)?;
    }
    Ok(benches)
}

/// How many proposals a report has that is right for the terms, or its first wrong line. The audit
/// is dealt to as many jobs as there are workers, or to fewer where a proposal is small.
pub fn proposal_count_of_right_report<R: Threads + Wait + Sync>(
    rt: &R,
    alloc: Global,
    terms: &Terms,
    report: &Report,
) -> Result<u32, TopFault>
    requires setup { IsSetup (setup_of terms.now) }
    requires workers { IsWorkers terms.now.callers }
    requires bounds { IsReport (report_of report.now) }
    requires order { AreInOrder 0 (map told_of report.now.lines.items) }
    ensures answers { IsAnswer (IsJudged (report_of report.now) (planned_run terms.now))
        (λ (n : ℕ). planned_run terms.now) result }
    ensures count { IfOk result (λ n. n ≡ length (report_of report.now).rows) }
{
    let case = &terms.case;
    let jobs = audit_job_count(case, terms.callers);
    let Ok(benches) = workspaces_for_audit_jobs(alloc, case, jobs) else {
        return Err(TopFault::Memory);
    };
    match check_report(rt, alloc, case, &terms.plan, terms.cost, report, benches) {
        Ok(Audit::Right) => Ok(report.rows.len() as u32),
        Ok(Audit::Wrong { line }) => {
            let code = ReportCode::Wrong;
            Err(TopFault::Report { code, line })
        }
        Err(AllocError) => Err(TopFault::Memory),
    }
}
