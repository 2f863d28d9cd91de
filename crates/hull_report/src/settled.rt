//! The text of `hull settle`.
ghost use Rattle.std.specs.Prelude.{◌≡◌, ℕ, ◌+◌, ◌<◌, ◌++◌, List, length};
ghost use Rattle.std.specs.List.{flat_map};
ghost use Rattle.hull_io.specs.Edge.{Writes};
ghost use Rattle.uc_model.specs.Data.{unit_count, thermal_names, renewable_names, bid_names};
ghost use Rattle.uc_model.specs.Limits.{IsSum, IsWorth};
ghost use Rattle.uc_model.specs.PlainCases.{market_of};
ghost use Rattle.uc_model.specs.PlainUnits.{schedule_of};
ghost use Rattle.price_settle.specs.Settled.{HasEachUnit};
ghost use Rattle.price_settle.specs.Settled.{settled_of};
ghost use Rattle.report_form.specs.ReportText.{thermal_text, renewable_text, bid_text, owed_line};
ghost use Rattle.report_form.specs.SettlementText.{settlement_text};
ghost use Rattle.right_report.specs.RecordReport.{lines_from};
ghost use Rattle.hull_report.specs.SettledText.{settled_line, settlement_of};

use hull_io::{Sink, WriteFailed};
use price_settle::Settled;
use report_form::laws::texts_written_in_turn_add_up;
use report_form::report::{Owed, write_report_foot, write_unit};
use report_form::settlement::write_settlement_before_units;
use uc_model::cases::Case;
use uc_model::units::Response;

// What a unit or a bid is owed, and its response.
#[derive(Clone, Copy)]
struct Line<'a> {
    owed: Owed,
    response: &'a Response,
}

// What is told of the unit of a number.
fn settled_line_of_unit(settled: &Settled, number: usize) -> Line<'_>
    requires responses { number < length (settled_of settled.now).responses }
    requires earned { number < length (settled_of settled.now).earned }
    requires scheduled { number < length (settled_of settled.now).scheduled }
    requires payments { number < length (settled_of settled.now).payments }
    ensures { (name : List ℕ) → owed_line name result.owed (schedule_of result.response.now)
        ≡ settled_line (settled_of settled.now) number name }
{
    let owed = Owed {
        earned: *settled.earned.get(number),
        scheduled: *settled.settlement.scheduled.get(number),
        payment: *settled.settlement.payments.get(number),
    };
    let response = settled.responses.responses.get(number);
    Line { owed, response }
}

// Writes the lines of all units and bids, in the order of their numbers.
pub(crate) fn write_settled_units<S: Sink>(
    case: &Case,
    settled: &Settled,
    out: &mut S,
) -> Result<(), WriteFailed>
    requires { HasEachUnit (market_of case.now) (settled_of settled.now) }
    ensures { Writes S.held S.faults S.last out.old out.new result (
        flat_map thermal_text (lines_from (settled_line (settled_of settled.now)) 0
        (thermal_names (market_of case.now)))
        ++ flat_map renewable_text (lines_from (settled_line (settled_of settled.now))
        (length (market_of case.now).thermal) (renewable_names (market_of case.now)))
        ++ flat_map bid_text (lines_from (settled_line (settled_of settled.now))
        (length (market_of case.now).thermal + length (market_of case.now).flat)
        (bid_names (market_of case.now)))
        ) }
{
    texts_written_in_turn_add_up::<S>();
    for number in 0..case.unit_count() as usize {
        let line = settled_line_of_unit(settled, number);
        write_unit(case.unit_at(number), &line.owed, line.response, out)?;
    }
    Ok(())
}

/// Writes the lines of `hull settle` for a settlement of a plan that costs so much money: the
/// prices with their dual value and the totals of the responses, and for each unit and bid its
/// response, what that earns, what its schedule in the plan earns, and its payment. The settlement
/// has one of each for each unit and bid. Takes no memory. Refused only where the sink's count of
/// faults rose, and then the sink gained a front of the text.
pub fn write_settlement<S: Sink>(
    case: &Case,
    cost: i128,
    settled: &Settled,
    out: &mut S,
) -> Result<(), WriteFailed>
    requires cost { IsSum cost }
    requires value { IsWorth (settled_of settled.now).row.value }
    requires each { HasEachUnit (market_of case.now) (settled_of settled.now) }
    ensures { Writes S.held S.faults S.last out.old out.new result
        (settlement_text (settlement_of (market_of case.now) cost (settled_of settled.now))) }
{
    texts_written_in_turn_add_up::<S>();
    let gap = cost - settled.row.value;
    let settlement = &settled.settlement;
    write_settlement_before_units(case.periods, case.unit_count(), cost, &settled.row, out)?;
    write_settled_units(case, settled, out)?;
    write_report_foot(settlement.surplus, settlement.total, gap, out)
}
