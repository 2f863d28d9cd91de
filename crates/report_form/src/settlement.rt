//! The first blocks of the text of `hull settle`; the others are blocks of a report.
ghost use Rattle.hull_io.specs.Edge.{Writes};
ghost use Rattle.uc_model.specs.PlainCases.{proposal_of};
ghost use Rattle.report_form.specs.SettlementText.{levels_text, opening_text, priced_text};

use crate::form::write_form_filled_with_parts;
use crate::laws::texts_written_in_turn_add_up;
use crate::parts::Part;
use hull_io::{Sink, WriteFailed};
use uc_model::cases::Row;

// Writes the lines before the prices.
#[tactic(auto, unfolding(crate::specs::SettlementText::opening_text))]
fn write_settlement_opening<S: Sink>(
    periods: u32,
    units: u32,
    cost: i128,
    out: &mut S,
) -> Result<(), WriteFailed>
    ensures { Writes S.held S.faults S.last out.old out.new result
        (opening_text periods units cost) }
{
    write_form_filled_with_parts(
        out,
        b"hull-settlement 1\nperiods %\nunits %\ncost %\n",
        &[
            Part::Count(periods as u64),
            Part::Count(units as u64),
            Part::Amount(cost),
        ],
    )
}

/// Writes prices with their dual value and the totals of the best responses.
#[tactic(auto, unfolding(crate::specs::SettlementText::levels_text))]
pub(crate) fn write_prices_and_totals<S: Sink>(row: &Row, out: &mut S) -> Result<(), WriteFailed>
    ensures { Writes S.held S.faults S.last out.old out.new result
        (levels_text (proposal_of row.now)) }
{
    let energy = row.prices.energy.as_slice();
    let reserve = row.prices.reserve.as_slice();
    let supplied = row.supply.as_slice();
    let reserved = row.reserve.as_slice();
    write_form_filled_with_parts(
        out,
        b"value %\nenergy%\nreserve%\nsupplied%\nreserved%\n",
        &[
            Part::Amount(row.value),
            Part::Numbers(energy),
            Part::Numbers(reserve),
            Part::Amounts(supplied),
            Part::Amounts(reserved),
        ],
    )
}

/// Writes the lines before the units: the number of periods and of units with bids, the cost of the
/// plan in money, and the prices with their dual value and the totals of the best responses.
#[tactic(auto, unfolding(crate::specs::SettlementText::priced_text))]
pub fn write_settlement_before_units<S: Sink>(
    periods: u32,
    units: u32,
    cost: i128,
    row: &Row,
    out: &mut S,
) -> Result<(), WriteFailed>
    ensures { Writes S.held S.faults S.last out.old out.new result
        (priced_text periods units cost (proposal_of row.now)) }
{
    texts_written_in_turn_add_up::<S>();
    write_settlement_opening(periods, units, cost, out)?;
    write_prices_and_totals(row, out)
}
