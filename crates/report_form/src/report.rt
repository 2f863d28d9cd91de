//! The blocks of the text of `hull price`, in the order in which they stand.
ghost use Rattle.std.specs.Prelude.{◌≤◌, length, map};
ghost use Rattle.hull_io.specs.Edge.{Writes};
ghost use Rattle.uc_model.specs.PlainUnits.{schedule_of};
ghost use Rattle.uc_model.specs.PlainCases.{proposal_of, unit_of};
ghost use Rattle.plain_lists.specs.declared.limits.TheConstants.{MOST_PROPOSALS};
ghost use Rattle.report_form.specs.ReportText.{head_text, row_text, rows_text, chosen_text};
ghost use Rattle.report_form.specs.ReportText.{thermal_text, flat_text, unit_text, owed_line};
ghost use Rattle.report_form.specs.ReportText.{foot_text};

use crate::form::write_form_filled_with_parts;
use crate::parts::Part;
use hull_io::{Sink, WriteFailed};
use uc_model::cases::{NamedRef, Row, UnitRef};
use uc_model::units::Response;

/// What a report begins with: the number of periods and of units with bids, the budget and the
/// number ahead, the cost of the plan in money, and the number of proposals.
#[derive(Clone, Copy)]
pub struct Head {
    /// How many periods the case has.
    pub periods: u32,
    /// How many units and bids it has.
    pub units: u32,
    /// The most proposals of the run.
    pub budget: u32,
    /// How many proposals may be open ahead of the last answered one.
    pub ahead: u32,
    /// The cost of the plan.
    pub cost: i128,
    /// How many proposals the run has.
    pub proposals: u32,
}

/// What a unit or a bid earns at best and in the plan, and what it is owed, in money.
#[derive(Clone, Copy)]
pub struct Owed {
    /// What it earns at best.
    pub earned: i64,
    /// What it earns in the plan.
    pub scheduled: i64,
    /// What it is owed: the former less the latter.
    pub payment: i64,
}

/// Writes the lines before the proposals.
#[tactic(auto, unfolding(crate::specs::ReportText::head_text))]
pub fn write_report_head<S: Sink>(head: &Head, out: &mut S) -> Result<(), WriteFailed>
    ensures { Writes S.held S.faults S.last out.old out.new result
        (head_text head.now.periods head.now.units head.now.budget head.now.ahead head.now.cost
        head.now.proposals) }
{
    write_form_filled_with_parts(
        out,
        b"hull-report 1\nperiods %\nunits %\nbudget %\nahead %\ncost %\nproposals %\n",
        &[
            Part::Count(head.periods as u64),
            Part::Count(head.units as u64),
            Part::Count(head.budget as u64),
            Part::Count(head.ahead as u64),
            Part::Amount(head.cost),
            Part::Count(head.proposals as u64),
        ],
    )
}

/// Writes a proposal: its prices, its dual value, and the totals of the best responses to it.
#[tactic(auto, unfolding(crate::specs::ReportText::row_text))]
pub(crate) fn write_proposal_lines<S: Sink>(
    number: u32,
    row: &Row,
    out: &mut S,
) -> Result<(), WriteFailed>
    ensures { Writes S.held S.faults S.last out.old out.new result
        (row_text number (proposal_of row.now)) }
{
    let energy = row.prices.energy.as_slice();
    let reserve = row.prices.reserve.as_slice();
    let supplied = row.supply.as_slice();
    let reserved = row.reserve.as_slice();
    write_form_filled_with_parts(
        out,
        b"proposal % value %\nenergy%\nreserve%\nsupplied%\nreserved%\n",
        &[
            Part::Count(number as u64),
            Part::Amount(row.value),
            Part::Numbers(energy),
            Part::Numbers(reserve),
            Part::Amounts(supplied),
            Part::Amounts(reserved),
        ],
    )
}

/// Writes the proposals, numbered from 1.
pub fn write_all_proposals<S: Sink>(rows: &[Row], out: &mut S) -> Result<(), WriteFailed>
    requires { length rows.now ≤ MOST_PROPOSALS }
    ensures { Writes S.held S.faults S.last out.old out.new result
        (rows_text 1 (map proposal_of rows.now)) }
{
    for (index, row) in rows.iter().enumerate() {
        write_proposal_lines(1 + index as u32, row, out)?;
    }
    Ok(())
}

/// Writes which proposal is chosen, and its dual value.
#[tactic(auto, unfolding(crate::specs::ReportText::chosen_text))]
pub fn write_chosen<S: Sink>(number: u32, value: i128, out: &mut S) -> Result<(), WriteFailed>
    ensures { Writes S.held S.faults S.last out.old out.new result (chosen_text number value) }
{
    write_form_filled_with_parts(
        out,
        b"chosen % value %\n",
        &[Part::Count(number as u64), Part::Amount(value)],
    )
}

// Writes the lines of a thermal unit.
#[tactic(auto, unfolding(crate::specs::ReportText::thermal_text))]
fn write_thermal<'a, S: Sink>(
    name: &'a str,
    owed: &Owed,
    response: &'a Response,
    out: &mut S,
) -> Result<(), WriteFailed>
    ensures { Writes S.held S.faults S.last out.old out.new result
        (thermal_text (owed_line name.now owed.now (schedule_of response.now))) }
{
    let bytes = name.as_bytes();
    let on = response.on.as_slice();
    let power = response.power.as_slice();
    let reserve = response.reserve.as_slice();
    write_form_filled_with_parts(
        out,
        b"unit thermal % earned % scheduled % payment %\non%\npower%\nreserve%\n",
        &[
            Part::Name(bytes),
            Part::Amount(owed.earned as i128),
            Part::Amount(owed.scheduled as i128),
            Part::Amount(owed.payment as i128),
            Part::Flags(on),
            Part::Counts(power),
            Part::Counts(reserve),
        ],
    )
}

// Writes the lines of a unit that is always on and gives no reserve. `kind` is what they begin
// with.
#[tactic(auto, unfolding(crate::specs::ReportText::flat_text))]
fn write_always_on_unit_lines<'a, S: Sink>(
    kind: &'a [u8],
    name: &'a str,
    owed: &Owed,
    response: &'a Response,
    out: &mut S,
) -> Result<(), WriteFailed>
    ensures { Writes S.held S.faults S.last out.old out.new result
        (flat_text kind.now (owed_line name.now owed.now (schedule_of response.now))) }
{
    let bytes = name.as_bytes();
    let power = response.power.as_slice();
    write_form_filled_with_parts(
        out,
        b"%% earned % scheduled % payment %\npower%\n",
        &[
            Part::Text(kind),
            Part::Name(bytes),
            Part::Amount(owed.earned as i128),
            Part::Amount(owed.scheduled as i128),
            Part::Amount(owed.payment as i128),
            Part::Counts(power),
        ],
    )
}

/// Writes the lines of a unit or bid under its name.
pub fn write_unit<S: Sink>(
    named: NamedRef<'_>,
    owed: &Owed,
    response: &Response,
    out: &mut S,
) -> Result<(), WriteFailed>
    ensures { Writes S.held S.faults S.last out.old out.new result
        (unit_text (unit_of named.entry.unit)
        (owed_line named.entry.name.now owed.now (schedule_of response.now))) }
{
    match named.unit {
        UnitRef::Thermal(_) => write_thermal(named.name, owed, response, out),
        UnitRef::Renewable(_) => {
            write_always_on_unit_lines(b"unit renewable ", named.name, owed, response, out)
        }
        UnitRef::Bid(_) => write_always_on_unit_lines(
            b"unit bid ",
            named.name,
            owed,
            response,
            out,
        ),
    }
}

/// Writes the lines behind the units: what the surplus reserve of the plan is worth, the sum of the
/// payments, and the cost of the plan less the chosen value, in money.
#[tactic(auto, unfolding(crate::specs::ReportText::foot_text))]
pub fn write_report_foot<S: Sink>(
    surplus: i128,
    payments: i128,
    gap: i128,
    out: &mut S,
) -> Result<(), WriteFailed>
    ensures { Writes S.held S.faults S.last out.old out.new result
        (foot_text surplus payments gap) }
{
    write_form_filled_with_parts(
        out,
        b"surplus %\npayments %\ngap %\nend\n",
        &[
            Part::Amount(surplus),
            Part::Amount(payments),
            Part::Amount(gap),
        ],
    )
}
