//! The texts of a record: the report that `hull price` prints, and the lines of `hull try`.
ghost use Rattle.std.specs.Prelude.{◌≡◌, ℕ, ◌+◌, ◌<◌, ◌≤◌, ◌++◌, true, List, length};
ghost use Rattle.std.specs.List.{flat_map};
ghost use Rattle.board_store.specs.Calls.{own_rows, has_finished};
ghost use Rattle.hull_io.specs.Edge.{Writes};
ghost use Rattle.uc_model.specs.Data.{unit_count, thermal_names, renewable_names, bid_names};
ghost use Rattle.uc_model.specs.PlainUnits.{schedule_of};
ghost use Rattle.plain_lists.specs.declared.limits.TheConstants.{MOST_PROPOSALS};
ghost use Rattle.report_form.specs.ReportText.{rows_text, head_text, chosen_text, thermal_text};
ghost use Rattle.report_form.specs.ReportText.{renewable_text, bid_text, report_text, owed_line};
ghost use Rattle.right_report.specs.RecordReport.{line_of, lines_from, report_of};
ghost use Rattle.hull_report.specs.RecordText.{HasNumbers};
ghost use Rattle.hull_report.specs.TryText.{try_text};

use board_core::Closed;
use hull_io::{Sink, WriteFailed};
use price_settle::Settlement;
use report_form::laws::texts_written_in_turn_add_up;
use report_form::report::{
    Head, Owed, write_all_proposals, write_chosen, write_report_foot, write_report_head, write_unit,
};
use report_form::{Part, write_form_filled_with_parts};
use right_report::{Choice, chosen_proposal_of_finished_board};
use uc_model::units::Answered;

// The numbers of the first lines.
fn report_head_of(closed: &Closed, proposals: u32) -> Head
    ensures periods { result.periods ≡ closed.now.setup.market.periods }
    ensures units { result.units ≡ unit_count closed.now.setup.market }
    ensures budget { result.budget ≡ closed.now.setup.budget }
    ensures ahead { result.ahead ≡ closed.now.setup.ahead }
    ensures cost { result.cost ≡ closed.now.setup.cost }
    ensures proposals { result.proposals ≡ proposals }
{
    let case = closed.case();
    Head {
        periods: case.periods,
        units: case.unit_count(),
        budget: closed.budget(),
        ahead: closed.ahead(),
        cost: closed.cost(),
        proposals,
    }
}

// Writes the lines up to the chosen value.
fn write_head_and_proposals<S: Sink>(
    closed: &Closed,
    choice: Choice,
    out: &mut S,
) -> Result<(), WriteFailed>
    requires proposals { choice.proposals ≡ length (own_rows closed.now) }
    requires most { choice.proposals ≤ MOST_PROPOSALS }
    ensures { Writes S.held S.faults S.last out.old out.new result (
        head_text closed.now.setup.market.periods (unit_count closed.now.setup.market)
        closed.now.setup.budget closed.now.setup.ahead closed.now.setup.cost choice.proposals
        ++ rows_text 1 (own_rows closed.now)
        ++ chosen_text choice.chosen choice.value
        ) }
{
    texts_written_in_turn_add_up::<S>();
    let head = report_head_of(closed, choice.proposals);
    write_report_head(&head, out)?;
    write_all_proposals(closed.rows(), out)?;
    write_chosen(choice.chosen, choice.value, out)
}

// Leaves a unit's response to a proposal in the buffer, and gives what it is owed.
fn fetch_unit_response_and_payment(
    closed: &Closed,
    settlement: &Settlement,
    proposal: u32,
    number: u32,
    buffer: &mut Answered,
) -> Owed
    requires numbers { HasNumbers closed.now settlement.now proposal }
    requires number { number < unit_count closed.now.setup.market }
    requires horizon { length (schedule_of buffer.old.response).on
        ≡ closed.now.setup.market.periods }
    ensures line { (name : List ℕ) → owed_line name result (schedule_of buffer.new.response)
        ≡ line_of closed.now settlement.now proposal number name }
    ensures horizon { length (schedule_of buffer.new.response).on
        ≡ closed.now.setup.market.periods }
{
    closed.copy_answer_out(proposal, number, buffer);
    Owed {
        earned: buffer.earned,
        scheduled: *settlement.scheduled.get(number as usize),
        payment: *settlement.payments.get(number as usize),
    }
}

// Writes the lines of all units and bids, in the order of their numbers.
fn write_unit_lines<S: Sink>(
    closed: &Closed,
    settlement: &Settlement,
    proposal: u32,
    buffer: &mut Answered,
    out: &mut S,
) -> Result<(), WriteFailed>
    requires numbers { HasNumbers closed.now settlement.now proposal }
    requires horizon { length (schedule_of buffer.old.response).on
        ≡ closed.now.setup.market.periods }
    ensures text { Writes S.held S.faults S.last out.old out.new result (
        flat_map thermal_text (lines_from (line_of closed.now settlement.now proposal)
        0 (thermal_names closed.now.setup.market))
        ++ flat_map renewable_text (lines_from (line_of closed.now settlement.now proposal)
        (length closed.now.setup.market.thermal) (renewable_names closed.now.setup.market))
        ++ flat_map bid_text (lines_from (line_of closed.now settlement.now proposal)
        (length closed.now.setup.market.thermal + length closed.now.setup.market.flat)
        (bid_names closed.now.setup.market))
        ) }
    ensures horizon { length (schedule_of buffer.new.response).on
        ≡ closed.now.setup.market.periods }
{
    texts_written_in_turn_add_up::<S>();
    let case = closed.case();
    for number in 0..case.unit_count() {
        let owed = fetch_unit_response_and_payment(closed, settlement, proposal, number, buffer);
        write_unit(case.unit_at(number as usize), &owed, &buffer.response, out)?;
    }
    Ok(())
}

/// Writes the report of a finished record with its settlement: every proposal, the chosen one, and
/// for each unit and bid its response at the chosen prices, what that earns, what its schedule in
/// the plan earns, and its payment. The lists of the settlement have one number for each unit and
/// bid; the buffer is over the periods of the case, and holds the last response at the end. Refused
/// only where the sink's count of faults rose, and then the sink gained a front of the text.
pub fn write_report<S: Sink>(
    closed: &Closed,
    settlement: &Settlement,
    buffer: &mut Answered,
    out: &mut S,
) -> Result<(), WriteFailed>
    requires finished { has_finished closed.now ≡ true }
    requires scheduled { length settlement.now.scheduled.items
        ≡ unit_count closed.now.setup.market }
    requires payments { length settlement.now.payments.items ≡ unit_count closed.now.setup.market }
    requires horizon { length (schedule_of buffer.old.response).on
        ≡ closed.now.setup.market.periods }
    ensures text { Writes S.held S.faults S.last out.old out.new result
        (report_text (report_of closed.now settlement.now)) }
    ensures horizon { length (schedule_of buffer.new.response).on
        ≡ closed.now.setup.market.periods }
{
    texts_written_in_turn_add_up::<S>();
    let choice = chosen_proposal_of_finished_board(closed);
    write_head_and_proposals(closed, choice, out)?;
    write_unit_lines(closed, settlement, choice.chosen, buffer, out)?;
    write_report_foot(settlement.surplus, settlement.total, choice.gap, out)
}

/// Writes the lines of `hull try` for the case that `number` generates: what the report of its
/// finished record tells beside rows and units. Refused only where the sink's count of faults rose,
/// and then the sink gained a front of the text.
pub fn write_try<S: Sink>(
    number: u64,
    closed: &Closed,
    settlement: &Settlement,
    out: &mut S,
) -> Result<(), WriteFailed>
    requires finished { has_finished closed.now ≡ true }
    ensures { Writes S.held S.faults S.last out.old out.new result
        (try_text number (report_of closed.now settlement.now)) }
{
    let case = closed.case();
    let thermal = case.thermal.len();
    let flat = case.flat.len();
    let cost = closed.cost();
    let choice = chosen_proposal_of_finished_board(closed);
    write_form_filled_with_parts(
        out,
        b"hull-try 1\nnumber %\nperiods % thermal % renewable %\nproposals %\nchosen % value %\n\
          cost %\npayments %\nsurplus %\ngap %\n",
        &[
            Part::Count(number),
            Part::Count(case.periods as u64),
            Part::Count(thermal as u64),
            Part::Count(flat as u64),
            Part::Count(choice.proposals as u64),
            Part::Count(choice.chosen as u64),
            Part::Amount(choice.value),
            Part::Amount(cost),
            Part::Amount(settlement.total),
            Part::Amount(settlement.surplus),
            Part::Amount(choice.gap),
        ],
    )
}
