//! The first line at which a report differs from the right one.
ghost use Rattle.std.specs.Prelude.{◌≡◌, ◌+◌, ◌<◌, ◌≤◌, ◌↔◌, None};
ghost use Rattle.std.specs.Prelude.{Some, List, length, map, IfSome};
ghost use Rattle.std.specs.List.{AllZip, flat_map};
ghost use Rattle.uc_model.specs.Data.{Schedule, units, unit_count};
ghost use Rattle.uc_model.specs.Limits.{IsWorth};
ghost use Rattle.uc_model.specs.PlainCases.{market_of, proposal_of};
ghost use Rattle.uc_model.specs.PlainUnits.{prices_of};
ghost use Rattle.uc_model.specs.Runs.{IsRun, Fits};
ghost use Rattle.plain_lists.specs.declared.limits.TheConstants.{MOST_PROPOSALS};
ghost use Rattle.report_read.specs.Plain.{report_of, told_of};
ghost use Rattle.report_compare.specs.Audits.{IsRight, IsWrongAt};
ghost use Rattle.report_compare.specs.Compared.{Compares};
ghost use Rattle.report_compare.specs.Desks.{IsDeskFor};
ghost use Rattle.report_compare.specs.ReportLines.{told_lines};
ghost use Rattle.report_compare.specs.RightLines.{answers_of, titles, told_from};
ghost use Rattle.report_compare.specs.RightLines.{right_of, whole_lines};

use crate::audited::Audited;
use crate::compare_room::CompareRoom;
use crate::parts::{compare_chosen, compare_foot, compare_head};
use crate::rows::compare_rows;
use crate::units::compare_units;
use crate::wrong::WrongLine;
use price_settle::settle;
use price_space::row_of_greatest_dual_value;
use report_form::laws::text_determines_the_report;
use right_report::laws::{
    one_report_is_right, right_report_has_form, settlement_has_entry_for_each_unit,
};
use uc_model::cases::Row;
use uc_model::laws::{dual_values_are_within, plan_costs_are_within};
use unit_program::earn_all;

// The chosen row, and its place among all rows.
#[derive(Clone, Copy)]
struct Choice<'a> {
    index: usize,
    row: &'a Row,
}

// All lines, one part after another, where the compare_room has the money at the prices of the chosen row.
fn compare_report(
    audited: &Audited<'_>,
    rows: &[Row],
    choice: &Choice<'_>,
    compare_room: &mut CompareRoom,
) -> Result<u32, WrongLine>
    requires compare_room { IsDeskFor (market_of audited.now.case.now) compare_room.old }
    requires earned { length compare_room.old.earned.items ≡ unit_count (market_of audited.now.case.now) }
    requires rows { length rows.now ≤ MOST_PROPOSALS }
    requires chosen { choice.now.index ≤ MOST_PROPOSALS }
    requires horizon { length (prices_of choice.now.row.now.prices).energy
        ≡ (market_of audited.now.case.now).periods }
    requires value { IsWorth choice.now.row.now.value }
    ensures { (responses : List Schedule)
        → AllZip (λ u s. Fits u (prices_of choice.now.row.now.prices) s)
        (units (market_of audited.now.case.now)) responses
        → Compares 1 result
        (whole_lines (report_of audited.now.report.now)
        (flat_map told_lines (map told_of audited.now.report.now.lines.items)))
        (whole_lines (right_of (market_of audited.now.case.now)
        (answers_of compare_room.old.earned.items compare_room.old.settlement responses)
        (report_of audited.now.report.now).budget (report_of audited.now.report.now).ahead audited.now.cost
        (map proposal_of rows.now) (choice.now.index + 1) choice.now.row.now.value
        compare_room.old.settlement.surplus compare_room.old.settlement.total)
        (flat_map told_lines (told_from
        (answers_of compare_room.old.earned.items compare_room.old.settlement responses)
        0 (titles (market_of audited.now.case.now))))) }
{
    plan_costs_are_within();
    let report = audited.report;
    let line = compare_head(audited.case, audited.cost, rows.len(), report)?;
    let line = compare_rows(line, report.rows.as_slice(), rows)?;
    let line = compare_chosen(line, choice.index + 1, choice.row.value, report)?;
    let line = compare_units(
        line,
        audited.case,
        &choice.row.prices,
        report.lines.as_slice(),
        compare_room,
    )?;
    compare_foot(
        line,
        &compare_room.settlement,
        audited.cost - choice.row.value,
        report,
    )
}

/// The first line, from 1, at which the text of the report differs from that of the right one for its
/// own budget and number of proposals ahead; none exactly where the report is right. The rows are the
/// run. The compare_room suffices for the case. Takes no memory.
pub fn first_difference(
    audited: &Audited<'_>,
    rows: &[Row],
    compare_room: &mut CompareRoom,
) -> Option<u32>
    requires run { let r = report_of audited.now.report.now in
        IsRun Fits (market_of audited.now.case.now) audited.now.cost r.budget r.ahead
        (map proposal_of rows.now) }
    requires compare_room { IsDeskFor (market_of audited.now.case.now) compare_room.old }
    ensures right { (result ≡ None) ↔ IsRight audited.now }
    ensures wrong { IfSome result (IsWrongAt audited.now) }
{
    text_determines_the_report();
    right_report_has_form();
    one_report_is_right();
    settlement_has_entry_for_each_unit();
    dual_values_are_within();
    let chosen = row_of_greatest_dual_value(rows);
    let row = &rows[chosen];
    earn_all(
        &mut compare_room.bench,
        &compare_room.last,
        audited.case,
        &row.prices,
        &mut compare_room.answer,
        &mut compare_room.earned,
    );
    settle(
        audited.case,
        audited.plan,
        &row.prices,
        compare_room.earned.as_slice(),
        &mut compare_room.settlement,
    );
    let choice = Choice { index: chosen, row };
    match compare_report(audited, rows, &choice, compare_room) {
        Ok(_) => None,
        Err(wrong) => Some(wrong.line),
    }
}
