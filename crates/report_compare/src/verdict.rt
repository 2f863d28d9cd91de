//! Whether a report is the right one of its case and plan, in two parts: the lines that tell nothing of
//! proposals, and all lines, beside the rows that are due.
ghost use Rattle.std.specs.Prelude.{◌≡◌, ◌+◌, ◌↔◌, min, length, map, IfOk, IfErr};
ghost use Rattle.uc_model.specs.PlainCases.{market_of, proposal_of};
ghost use Rattle.uc_model.specs.Runs.{IsRun, Fits};
ghost use Rattle.report_read.specs.Plain.{report_of};
ghost use Rattle.report_compare.specs.Audits.{IfWrong, IsRight, HasRightOpening, IsWrongAt};
ghost use Rattle.report_compare.specs.Desks.{IsDeskFor};
ghost use Rattle.report_compare.specs.declared.verdict.Audit.TheVariants.{Right};

use crate::audited::Audited;
use crate::compare_room::CompareRoom;
use crate::parts::compare_first_six_lines;
use crate::report::first_difference;
use crate::wrong::WrongLine;
use report_form::laws::text_determines_the_report;
use right_report::laws::{one_report_is_right, right_reports_exist, rows_of_run_are_unique};
use uc_model::cases::Row;

/// The line that says how many proposals there are.
const NUMBER_LINE: u32 = 7;

/// What an audit comes to.
#[derive(Clone, Copy, Drop)]
pub enum Audit {
    /// The report is the right one.
    Right,
    /// It isn't: this is the first line, from 1, at which its text differs from the right one's.
    Wrong { line: u32 },
}

/// Looks at the lines before the number of proposals; the first that isn't right is the error.
pub fn check_opening_lines(audited: &Audited<'_>) -> Result<(), WrongLine>
    ensures right { IfOk result (λ done. HasRightOpening audited.now) }
    ensures wrong { IfErr result (λ wrong. IsWrongAt audited.now wrong.line
        × (IsRight audited.now → ⊥)) }
{
    text_determines_the_report();
    one_report_is_right();
    right_reports_exist();
    compare_first_six_lines(audited.case, audited.cost, audited.report)?;
    Ok(())
}

/// What the rows tell of a report whose first six lines are right. They are the run, up to one row
/// more than the report has. The compare_room suffices for the case. Takes no memory.
pub fn audit_result_of_right_rows(
    audited: &Audited<'_>,
    rows: &[Row],
    compare_room: &mut CompareRoom,
) -> Audit
    requires opening { HasRightOpening audited.now }
    requires run { let r = report_of audited.now.report.now in
        IsRun Fits (market_of audited.now.case.now) audited.now.cost
        (min r.budget (length r.rows + 1)) r.ahead (map proposal_of rows.now) }
    requires compare_room { IsDeskFor (market_of audited.now.case.now) compare_room.old }
    ensures right { (result ≡ Right) ↔ IsRight audited.now }
    ensures wrong { IfWrong result (IsWrongAt audited.now) }
{
    text_determines_the_report();
    one_report_is_right();
    rows_of_run_are_unique();
    right_reports_exist();
    let right = rows.len();
    let told = audited.report.rows.len();
    if right != told {
        return Audit::Wrong { line: NUMBER_LINE };
    }
    match first_difference(audited, rows, compare_room) {
        None => Audit::Right,
        Some(line) => Audit::Wrong { line },
    }
}
