//! The lines before and behind the proposals and units.
ghost use Rattle.std.specs.Prelude.{◌≡◌, ◌+◌, ◌<◌, ◌^◌};
ghost use Rattle.std.specs.Prelude.{[], ◌∷◌, length, IfOk};
ghost use Rattle.std.specs.Bool.{Decides};
ghost use Rattle.uc_model.specs.Data.{unit_count};
ghost use Rattle.uc_model.specs.PlainCases.{market_of};
ghost use Rattle.report_form.specs.ReportText.{chosen_text};
ghost use Rattle.report_read.specs.Plain.{report_of};
ghost use Rattle.report_compare.specs.Compared.{Compares};
ghost use Rattle.report_compare.specs.ReportLines.{opening_lines, number_line, head_lines};
ghost use Rattle.report_compare.specs.ReportLines.{foot_lines};
ghost use Rattle.report_compare.specs.Heads.{right_opening, right_head};

use crate::lines::{same_amount, same_count};
use crate::wrong::{WrongLine, first_wrong_line};
use price_settle::Settlement;
use report_read::Report;
use uc_model::cases::Case;

// Whether there are so many proposals.
fn same_proposal_count(report: &Report, proposals: usize) -> bool
    ensures { Decides result (length report.now.rows.items ≡ proposals) }
{
    report.rows.len() == proposals
}

// Whether number and value of the chosen proposal are these.
fn same_chosen_proposal(report: &Report, chosen: usize, value: i128) -> bool
    ensures { Decides result ((report.now.chosen ≡ chosen) × (report.now.chosen_value ≡ value)) }
{
    report.chosen as usize == chosen && report.chosen_value == value
}

/// The first six lines. Budget and number of proposals ahead are the report's own.
pub fn compare_first_six_lines(case: &Case, cost: i128, report: &Report) -> Result<u32, WrongLine>
    ensures lines { Compares 1 result (opening_lines (report_of report.now))
        (right_opening (market_of case.now) cost (report_of report.now)) }
    ensures units { IfOk result (λ next. report.now.units ≡ unit_count (market_of case.now)) }
    ensures next { IfOk result (λ next. next ≡ 7) }
{
    let same = [
        true,
        same_count(report.periods, case.periods),
        same_count(report.units, case.unit_count()),
        true,
        true,
        same_amount(&report.cost, &cost),
    ];
    first_wrong_line(1, &same)
}

/// The line that says how many proposals there are.
fn compare_proposal_count_line(
    first: u32,
    proposals: usize,
    report: &Report,
) -> Result<u32, WrongLine>
    requires { first + 1 < 2 ^ 32 }
    ensures lines { Compares first result
        (number_line (length (report_of report.now).rows) ∷ []) (number_line proposals ∷ []) }
    ensures proposals { IfOk result (λ next. length report.now.rows.items ≡ proposals) }
    ensures next { IfOk result (λ next. next ≡ first + 1) }
{
    first_wrong_line(first, &[same_proposal_count(report, proposals)])
}

/// The first seven lines.
pub fn compare_head(
    case: &Case,
    cost: i128,
    proposals: usize,
    report: &Report,
) -> Result<u32, WrongLine>
    ensures lines { Compares 1 result (head_lines (report_of report.now))
        (right_head (market_of case.now) cost proposals (report_of report.now)) }
    ensures units { IfOk result (λ next. report.now.units ≡ unit_count (market_of case.now)) }
    ensures proposals { IfOk result (λ next. length report.now.rows.items ≡ proposals) }
    ensures next { IfOk result (λ next. next ≡ 8) }
{
    let line = compare_first_six_lines(case, cost, report)?;
    compare_proposal_count_line(line, proposals, report)
}

/// The line of the chosen proposal.
pub fn compare_chosen(
    first: u32,
    chosen: usize,
    value: i128,
    report: &Report,
) -> Result<u32, WrongLine>
    requires { first + 1 < 2 ^ 32 }
    ensures lines { Compares first result
        (chosen_text (report_of report.now).chosen (report_of report.now).value ∷ [])
        (chosen_text chosen value ∷ []) }
    ensures next { IfOk result (λ next. next ≡ first + 1) }
{
    first_wrong_line(first, &[same_chosen_proposal(report, chosen, value)])
}

/// The last four lines.
pub fn compare_foot(
    first: u32,
    settlement: &Settlement,
    gap: i128,
    report: &Report,
) -> Result<u32, WrongLine>
    requires { first + 4 < 2 ^ 32 }
    ensures { Compares first result
        (foot_lines (report_of report.now).surplus (report_of report.now).payments
        (report_of report.now).gap)
        (foot_lines settlement.now.surplus settlement.now.total gap) }
{
    let same = [
        same_amount(&report.surplus, &settlement.surplus),
        same_amount(&report.payments, &settlement.total),
        same_amount(&report.gap, &gap),
        true,
    ];
    first_wrong_line(first, &same)
}
