//! A report of its text, or the first line in fault.
ghost use Rattle.std.specs.Prelude.{◌≡◌, ◌≤◌, ◌-◌, suc, length, map, take, IfOk};
ghost use Rattle.plain_lists.specs.declared.limits.TheConstants.{MOST_BYTES};
ghost use Rattle.report_form.specs.ReportText.{Report as PlainReport, report_text};
ghost use Rattle.report_read.specs.Plain.{report_of, told_of};
ghost use Rattle.report_read.specs.Bounds.{IsReport, AreInOrder};
ghost use Rattle.report_read.specs.Faults.{IsFault, IfFault, line_feeds, Gives as GivesReport};
ghost use Rattle.report_read.specs.Lines.{Gives, report_at, all_of};

use crate::head::{read_foot, read_head};
use crate::lines::{Reader, read_proposal_value_line};
use crate::report::{Report, ReportError};
use crate::rows::read_proposal_rows;
use crate::stop::Stop;
use crate::units::read_units;
use std::alloc::Global;

/// A report at the front of what is left.
#[tactic(auto, unfolding(crate::specs::Lines::report_at, crate::specs::Plain::report_of))]
fn read_report_parts(alloc: Global, reader: &mut Reader<'_>) -> Result<Report, Stop>
    requires { length reader.old.rest.now ≤ MOST_BYTES }
    ensures exact { Gives (λ x. (report_of x, reader.new.rest.now)) result
        (report_at reader.old.rest.now) }
    ensures order { IfOk result (λ x. AreInOrder 0 (map told_of x.lines.items)) }
{
    let head = read_head(reader)?;
    let rows = read_proposal_rows(alloc, reader, head.periods, head.proposals)?;
    let chosen = read_proposal_value_line(reader, b"chosen ", 0, u32::MAX)?;
    let lines = read_units(alloc, reader, head.periods, head.units)?;
    let foot = read_foot(reader)?;
    Ok(Report {
        periods: head.periods,
        units: head.units,
        budget: head.budget,
        ahead: head.ahead,
        cost: head.cost,
        rows,
        chosen: chosen.0,
        chosen_value: chosen.1,
        lines,
        surplus: foot.surplus,
        payments: foot.payments,
        gap: foot.gap,
    })
}

#[tactic(auto, unfolding(crate::specs::Lines::all_of))]
fn read_whole_report(alloc: Global, bytes: &[u8]) -> Result<Report, Stop>
    requires { length bytes.now ≤ MOST_BYTES }
    ensures exact { Gives report_of result (all_of bytes.now) }
    ensures order { IfOk result (λ r. AreInOrder 0 (map told_of r.lines.items)) }
{
    let mut reader = Reader { rest: bytes };
    let report = read_report_parts(alloc, &mut reader)?;
    if !reader.rest.is_empty() {
        return Err(Stop::Fault {
            left: reader.rest.len(),
        });
    }
    Ok(report)
}

/// The number from 1 of the line that begins where so many bytes are left.
fn line_number_with_bytes_left(bytes: &[u8], left: usize) -> u32
    requires few { length bytes.now ≤ MOST_BYTES }
    requires within { left ≤ length bytes.now }
    ensures { result ≡ suc (line_feeds (take (length bytes.now - left) bytes.now)) }
{
    let mut line = 1;
    for byte in &bytes[..bytes.len() - left] {
        if *byte == b'\n' {
            line += 1;
        }
    }
    line
}

/// The report of which the bytes are the text, or the first line in fault.
///
/// A report is read within these bounds: 1 to 168 periods, 1 to 12,288 units, a budget of 1 to
/// 10,000 proposals, 1 to 16 proposals ahead, at least one proposal, as many lines of units as it
/// says, all numbers within their types, prices within their limits, and lists over its periods.
/// Otherwise the fault is the first line that no such report goes on with, where a line that the
/// text ends in is one too. Takes at most some eight times the memory of the bytes.
pub fn read_report(alloc: Global, bytes: &[u8]) -> Result<Report, ReportError>
    requires { length bytes.now ≤ MOST_BYTES }
    // What is read is within the bounds, and its text is the bytes.
    ensures bounds { IfOk result (λ r. IsReport (report_of r)) }
    ensures found { IfOk result (λ r. bytes.now ≡ report_text (report_of r)) }
    // The units stand in the order of the text.
    ensures order { IfOk result (λ r. AreInOrder 0 (map told_of r.lines.items)) }
    // A fault is the first line that no report goes on with.
    ensures fault { IfFault result (λ line. IsFault bytes.now line) }
    // The text of a report within the bounds is read.
    ensures only { (r : PlainReport) → IsReport r → bytes.now ≡ report_text r
        → GivesReport result r }
{
    match read_whole_report(alloc, bytes) {
        Ok(report) => Ok(report),
        Err(Stop::Fault { left }) => Err(ReportError::Fault {
            line: line_number_with_bytes_left(bytes, left),
        }),
        Err(Stop::Memory) => Err(ReportError::Memory),
    }
}
