//! The end of a command: the text of its answer, or the line of a fault.
ghost use Rattle.std.specs.Prelude.{◌≡◌, ◌≤◌, ℕ, List, length, IfOk, OnOk, OnErr};
ghost use Rattle.uc_model.specs.PlainUnits.{schedule_of};
ghost use Rattle.hull_io.specs.Edge.{Writes, Gains, FallsShort};
ghost use Rattle.report_form.specs.ReportText.{report_text};
ghost use Rattle.right_report.specs.RecordReport.{report_of};
ghost use Rattle.plan_settle.specs.Ended.{IsEnded};
ghost use Rattle.hull_input.specs.Planned.{PlannedCase};
ghost use Rattle.hull_command.specs.Answers.{IsTextOf, IsAnswered, IsCommandAnswer, IsEndOf};
ghost use Rattle.hull_command.specs.Answers.{HasFound, found_text};
ghost use Rattle.hull_command.specs.Outcome.{Ends, status_at};
ghost use Rattle.hull_command.specs.Rest.{rest_with, nothing_read, IsReady, IsHandedOn, IsUntouched};
ghost use Rattle.hull_command.specs.declared.end.End.TheVariants as ends;
ghost use Rattle.hull_command.specs.declared.ready.Purpose.{Purpose};

use crate::answer::{Answer, FoundInput, SettledInput};
use crate::ready::{Before, Ready};
use hull_fault::{TopFault, write_fault};
use hull_io::{Sink, WriteFailed};
use hull_report::{
    SearchNumbers, write_audit, write_bound, write_certificate, write_check, write_convex,
    write_fixed, write_report, write_settlement, write_try,
};
use plan_settle::Done;
use right_report::laws::{report_of_finished_board_is_right, settlement_has_entry_for_each_unit};

/// How a command ended.
#[derive(Clone, Copy)]
pub enum End {
    /// The text was written whole.
    Done,
    /// The sink failed within the text.
    Cut,
    /// The line of this fault was written, as far as the sink took it.
    Refused(TopFault),
}

impl End {
    /// How a command ended whose text was written so.
    pub fn end_of_written_text(written: Result<(), WriteFailed>) -> End
        ensures whole { OnOk written (result ≡ ends.Done) }
        ensures cut { OnErr written (result ≡ ends.Cut) }
    {
        match written {
            Ok(()) => End::Done,
            Err(WriteFailed) => End::Cut,
        }
    }

    /// Its status.
    pub fn status(&self) -> u8
        ensures { result ≡ status_at self.now }
    {
        match self {
            End::Done => 0,
            End::Cut => 6,
            End::Refused(fault) => fault.status(),
        }
    }
}

/// Writes the report of a run that has ended, which is left as it was but for its room for an
/// answer. It takes no memory, and fails only where the sink does.
pub fn write_price_report<S: Sink>(done: &mut Done, out: &mut S) -> Result<(), WriteFailed>
    requires { IsEnded done.old.closed.setup done.old }
    ensures text { Writes S.held S.faults S.last out.old out.new result
        (report_text (report_of done.old.closed done.old.settlement)) }
    ensures closed { done.new.closed ≡ done.old.closed }
    ensures settlement { done.new.settlement ≡ done.old.settlement }
    ensures horizon { length (schedule_of done.new.buffer.response).on
        ≡ done.old.closed.setup.market.periods }
{
    settlement_has_entry_for_each_unit();
    write_report(&done.closed, &done.settlement, &mut done.buffer, out)
}

/// Writes the text of what a search found.
fn write_convex_search_text<S: Sink>(searched: &FoundInput, out: &mut S) -> Result<(), WriteFailed>
    requires { HasFound searched.now }
    ensures { Writes S.held S.faults S.last out.old out.new result
        (found_text searched.now) }
{
    let FoundInput {
        settled,
        goal,
        mixture,
        bound,
        made,
    } = searched;
    let numbers = SearchNumbers {
        within: goal.within,
        rounds: goal.rounds,
        made: *made,
        bound: *bound,
    };
    let SettledInput { input, settled } = settled;
    write_convex(&input.case, input.cost, settled, mixture, numbers, out)
}

/// Writes the text of the answer, which is left as it was but for a run's room for an answer.
fn write_answer<S: Sink>(answer: &mut Answer, out: &mut S) -> Result<(), WriteFailed>
    requires { IsAnswered answer.old }
    ensures { (text : List ℕ) × IsTextOf answer.old text
        × Writes S.held S.faults S.last out.old out.new result text }
{
    report_of_finished_board_is_right();
    match answer {
        Answer::Price(done) => write_price_report(done, out),
        Answer::Check(input) => write_check(&input.case, input.cost, out),
        Answer::Settle(settled) => {
            let input = &settled.input;
            write_settlement(&input.case, input.cost, &settled.settled, out)
        }
        Answer::Certify(certified) => {
            let SettledInput { input, settled } = &certified.settled;
            write_certificate(&input.case, input.cost, settled, certified.within, out)
        }
        Answer::Convex(found) => write_convex_search_text(found, out),
        Answer::Try(number, done) => write_try(*number, &done.closed, &done.settlement, out),
        Answer::Bound(bounded) => {
            write_bound(
                &bounded.done.closed,
                bounded.radius,
                &bounded.certified,
                out,
            )
        }
        Answer::Fixed(sides) => {
            write_fixed(&sides.case, sides.cost, &sides.hull, &sides.fixed, out)
        }
        Answer::Audit(proposals) => write_audit(*proposals, out),
    }
}

/// Writes the text of the answer, or the line of the fault. So ends the rest of each command that this
/// answers.
pub fn finish<S: Sink>(answer: Result<Answer, TopFault>, out: &mut S) -> End
    requires { IfOk answer (λ answer. IsAnswered answer) }
    ensures end { IsEndOf (Gains S.held S.faults out.old out.new)
        (FallsShort S.held S.faults S.last out.old out.new) answer result }
    ensures ends { (purpose : Purpose) (c : PlannedCase) (budget ahead : ℕ)
        → IsCommandAnswer (rest_with purpose c budget ahead) nothing_read answer
        → Ends (rest_with purpose c budget ahead) nothing_read
        (Gains S.held S.faults out.old out.new)
        (FallsShort S.held S.faults S.last out.old out.new) result }
    ensures sink { S.faults out.old ≤ S.faults out.new }
{
    match answer {
        Ok(mut answer) => End::end_of_written_text(write_answer(&mut answer, out)),
        Err(fault) => {
            let _ = write_fault(&fault, out);
            End::Refused(fault)
        }
    }
}

/// Hands on what is ready for its run, with nothing written, or writes the line of what refused it.
pub fn pass_on_run_or_write_fault<S: Sink>(ready: Result<Ready, TopFault>, out: &mut S) -> Before
    requires { IfOk ready IsReady }
    ensures before { IsHandedOn (Gains S.held S.faults out.old out.new)
        (FallsShort S.held S.faults S.last out.old out.new) ready result }
    ensures sink { S.faults out.old ≤ S.faults out.new }
    ensures unwritten { IsUntouched result (out.new ≡ out.old) }
{
    match ready {
        Ok(ready) => Before::Ready(ready),
        Err(fault) => Before::Ended(finish(Err(fault), out)),
    }
}
