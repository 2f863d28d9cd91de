//! The end of a command that calls for a run: the run, and the text that is due of it.
ghost use Rattle.std.specs.Prelude.{◌≡◌, ◌≤◌};
ghost use Rattle.hull_io.specs.Edge.{Gains, FallsShort};
ghost use Rattle.report_form.specs.ReportText.{report_text};
ghost use Rattle.right_report.specs.RecordReport.{report_of, IsSettledRecord};
ghost use Rattle.uc_model.specs.PriceRule.{Proposal};
ghost use Rattle.price_settle.specs.declared.settlement.Settlement.{Settlement};
ghost use Rattle.hull_command.specs.Answers.{HasStatus};
ghost use Rattle.hull_command.specs.Outcome.{Ends};
ghost use Rattle.hull_command.specs.Rest.{rest_of, nothing_read, IsReady};
ghost use Rattle.hull_engine.specs.Workers.{IsUseful};

use crate::answers::{answer_audit, answer_bound, answer_fixed, answer_price, answer_try};
use crate::workers::terms_for_workers;
use answer_workers::Gate;
use board_core::Closed;
use board_run::{Run, run_board};
use hull_command::{End, Purpose, Ready, finish, write_price_report};
use hull_io::Sink;
use plan_settle::Done;
use std::alloc::Global;
use std::sync::Wait;
use std::thread::Threads;

/// Runs the board of a run and writes its report. Gives 0, or 6 where the sink failed within the
/// text, and the board's record. The gate is told of each task. Takes no memory.
pub fn finish_run<R: Threads + Wait + Sync, S: Sink, G: Gate>(
    rt: &R,
    run: Run,
    out: &mut S,
    gate: &G,
) -> (u8, Closed)
    ensures setup { result.1.setup ≡ run }
    ensures report { (s : Settlement) × (row : Proposal) × IsSettledRecord result.1 s row
        × HasStatus result.0
        (Gains S.held S.faults out.old out.new (report_text (report_of result.1 s)))
        (FallsShort S.held S.faults S.last out.old out.new (report_text (report_of result.1 s))) }
{
    let mut done = run_board(rt, run, gate);
    let end = End::end_of_written_text(write_price_report(&mut done, out));
    let Done {
        closed,
        settlement: _,
        buffer: _,
        bench: _,
    } = done;
    (end.status(), closed)
}

/// Does what is left of a command with so many workers, which are those of the words that are
/// useful, and writes its text or the line of its fault. An audit takes memory as it goes; each
/// other run when it opens.
pub fn run_prepared_command<R: Threads + Wait + Sync, S: Sink, G: Gate>(
    rt: &R,
    alloc: Global,
    ready: Ready,
    workers: u32,
    out: &mut S,
    gate: &G,
) -> End
    requires ready { IsReady ready }
    requires workers { IsUseful ready.terms.callers workers }
    ensures ends { Ends (rest_of ready) nothing_read (Gains S.held S.faults out.old out.new)
        (FallsShort S.held S.faults S.last out.old out.new) result }
    ensures sink { S.faults out.old ≤ S.faults out.new }
{
    let Ready { purpose, terms } = ready;
    let terms = terms_for_workers(terms, workers);
    match purpose {
        Purpose::Price => finish(answer_price(rt, alloc, terms, gate), out),
        Purpose::Try(number) => finish(answer_try(rt, alloc, terms, number, gate), out),
        Purpose::Bound(radius) => finish(answer_bound(rt, alloc, terms, radius, gate), out),
        Purpose::Fixed => finish(answer_fixed(rt, alloc, terms, gate), out),
        Purpose::Audit(report) => finish(answer_audit(rt, alloc, terms, report), out),
    }
}
