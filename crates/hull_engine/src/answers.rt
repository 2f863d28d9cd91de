//! What a run leaves to be printed.
ghost use Rattle.std.specs.Prelude.{IfOk};
ghost use Rattle.gap_proof.specs.PlaneSums.{IsRadius};
ghost use Rattle.board_core.specs.Setups.{IsSetup, setup_of};
ghost use Rattle.hull_input.specs.Planned.{planned_run};
ghost use Rattle.hull_input.specs.Sizes.{IsWorkers};
ghost use Rattle.hull_command.specs.Answers.{IsAnswered, IsCommandAnswer};
ghost use Rattle.hull_command.specs.Rest.{rest_with, nothing_read};
ghost use Rattle.hull_input.specs.Answers.{IsFitReport};
ghost use Rattle.hull_command.specs.declared.ready.Purpose.TheVariants as purposes;

use crate::audit::proposal_count_of_right_report;
use answer_workers::Gate;
use board_core::Terms;
use board_run::{open_run, run_and_bound, run_board, run_with_free_and_fixed_commitments};
use hull_command::Answer;
use hull_fault::TopFault;
use report_read::Report;
use std::alloc::Global;
use std::sync::Wait;
use std::thread::Threads;

/// What `hull price` answers by its run.
pub fn answer_price<R: Threads + Wait + Sync, G: Gate>(
    rt: &R,
    alloc: Global,
    terms: Terms,
    gate: &G,
) -> Result<Answer, TopFault>
    requires { IsSetup (setup_of terms) }
    ensures answers { IsCommandAnswer (rest_with purposes.Price (planned_run terms)
        terms.budget terms.ahead) nothing_read result }
    ensures answered { IfOk result (λ answer. IsAnswered answer) }
{
    let opened = open_run(alloc, terms)?;
    Ok(Answer::Price(run_board(rt, opened, gate)))
}

/// What `hull try` answers by its run.
pub fn answer_try<R: Threads + Wait + Sync, G: Gate>(
    rt: &R,
    alloc: Global,
    terms: Terms,
    number: u64,
    gate: &G,
) -> Result<Answer, TopFault>
    requires { IsSetup (setup_of terms) }
    ensures answers { IsCommandAnswer (rest_with (purposes.Try number) (planned_run terms)
        terms.budget terms.ahead) nothing_read result }
    ensures answered { IfOk result (λ answer. IsAnswered answer) }
{
    let opened = open_run(alloc, terms)?;
    Ok(Answer::Try(number, run_board(rt, opened, gate)))
}

/// What `hull bound` answers by its run.
pub fn answer_bound<R: Threads + Wait + Sync, G: Gate>(
    rt: &R,
    alloc: Global,
    terms: Terms,
    radius: i64,
    gate: &G,
) -> Result<Answer, TopFault>
    requires setup { IsSetup (setup_of terms) }
    requires radius { IsRadius radius }
    ensures answers { IsCommandAnswer (rest_with (purposes.Bound radius) (planned_run terms)
        terms.budget terms.ahead) nothing_read result }
    ensures answered { IfOk result (λ answer. IsAnswered answer) }
{
    Ok(Answer::Bound(run_and_bound(rt, alloc, terms, radius, gate)?))
}

/// What `hull fixed` answers by its runs.
pub fn answer_fixed<R: Threads + Wait + Sync, G: Gate>(
    rt: &R,
    alloc: Global,
    terms: Terms,
    gate: &G,
) -> Result<Answer, TopFault>
    requires { IsSetup (setup_of terms) }
    ensures answers { IsCommandAnswer (rest_with purposes.Fixed (planned_run terms)
        terms.budget terms.ahead) nothing_read result }
    ensures answered { IfOk result (λ answer. IsAnswered answer) }
{
    Ok(Answer::Fixed(run_with_free_and_fixed_commitments(rt, alloc, terms, gate)?))
}

/// What `hull audit` answers, after its run, of a report.
pub fn answer_audit<R: Threads + Wait + Sync>(
    rt: &R,
    alloc: Global,
    terms: Terms,
    report: Report,
) -> Result<Answer, TopFault>
    requires setup { IsSetup (setup_of terms) }
    requires workers { IsWorkers terms.callers }
    requires report { IsFitReport report }
    ensures answers { IsCommandAnswer (rest_with (purposes.Audit report) (planned_run terms)
        terms.budget terms.ahead) nothing_read result }
    ensures answered { IfOk result (λ answer. IsAnswered answer) }
{
    Ok(Answer::Audit(proposal_count_of_right_report(rt, alloc, &terms, &report)?))
}
