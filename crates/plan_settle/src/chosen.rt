//! The settlement at the prices that a run chose.
ghost use Rattle.std.specs.Prelude.{◌≡◌, ◌+◌, ◌<◌, ◌≤◌, ℕ, true, length, IfOk};
ghost use Rattle.board_store.specs.Calls.{own_rows, has_finished};
ghost use Rattle.board_core.specs.Boards.{kept_answer};
ghost use Rattle.uc_model.specs.Data.{unit_count as units_in};
ghost use Rattle.uc_model.specs.PlainCases.{market_of};
ghost use Rattle.uc_model.specs.PlainUnits.{schedule_of};
ghost use Rattle.uc_model.specs.PriceRule.{Proposal};
ghost use Rattle.plain_lists.specs.Sums.{int_at};
ghost use Rattle.right_report.specs.RecordReport.{IsSettledRecord};

use board_core::Closed;
use board_store::laws::{finished_has_row, rows_of_history_are_within_limits};
use plain_lists::lists::Numbers;
use price_settle::{Settlement, settle};
use right_report::laws::{answers_to_row_earn_the_most, one_row_is_chosen};
use std::alloc::{AllocError, Global};
use uc_model::cases::Case;
use uc_model::units::Answered;

/// Room for an answer over the horizon of a case, for a settlement of its units, and for what each
/// of them earns.
pub fn make_settlement_buffers_of_run(
    alloc: Global,
    case: &Case,
) -> Result<(Answered, Settlement, Numbers), AllocError>
    ensures horizon { IfOk result (λ r. length (schedule_of r.0.response).on
        ≡ (market_of case.now).periods) }
    ensures scheduled { IfOk result (λ r. length r.1.scheduled.items
        ≡ units_in (market_of case.now)) }
    ensures payments { IfOk result (λ r. length r.1.payments.items
        ≡ units_in (market_of case.now)) }
    ensures numbers { IfOk result (λ r. units_in (market_of case.now)
        ≤ length r.2.items + r.2.spare) }
{
    let units = case.unit_count();
    let buffer = Answered::make(alloc, case.periods)?;
    let settlement = Settlement::make(alloc, units)?;
    let earned = Numbers::make(alloc, units)?;
    Ok((buffer, settlement, earned))
}

/// Leaves what each unit earns at best at the prices of a row, in money and in the order of the
/// units' numbers.
fn collect_unit_earnings_at_row(closed: &Closed, row: u32, earned: &mut Numbers)
    requires first { 1 ≤ row }
    requires last { row ≤ length (own_rows closed.now) }
    requires room { units_in closed.now.setup.market ≤ length earned.old.items + earned.old.spare }
    ensures count { length earned.new.items ≡ units_in closed.now.setup.market }
    ensures each { (u : ℕ) → u < units_in closed.now.setup.market
        → int_at earned.new.items u ≡ (kept_answer closed.now row u).earned }
{
    earned.clear();
    for unit in 0..closed.case().unit_count() {
        earned.push(closed.earned(row, unit));
    }
}

/// Settles the schedule at the prices of the chosen row of a finished record. There is room for what each
/// unit earns. Takes no memory.
pub fn settle_at_chosen_prices(closed: &Closed, earned: &mut Numbers, settlement: &mut Settlement)
    requires finished { has_finished closed.now ≡ true }
    requires room { units_in closed.now.setup.market ≤ length earned.old.items + earned.old.spare }
    requires scheduled { length settlement.old.scheduled.items ≡ units_in closed.now.setup.market }
    requires payments { length settlement.old.payments.items ≡ units_in closed.now.setup.market }
    ensures { (row : Proposal) × IsSettledRecord closed.now settlement.new row }
{
    finished_has_row();
    rows_of_history_are_within_limits();
    one_row_is_chosen();
    answers_to_row_earn_the_most();
    let rows = closed.rows();
    let chosen = closed.chosen();
    collect_unit_earnings_at_row(closed, chosen, earned);
    let row = &rows[chosen as usize - 1];
    settle(
        closed.case(),
        closed.plan(),
        &row.prices,
        earned.as_slice(),
        settlement,
    );
}
