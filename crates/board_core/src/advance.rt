//! Rows of closed proposals and the prices of those that open, one after another.
ghost use Rattle.std.specs.Prelude.{◌≡◌, ℕ, suc, ◌+◌, ◌<◌, ◌≤◌, true, false, not, length, map};
ghost use Rattle.std.specs.List.{All};
ghost use Rattle.board_store.specs.Board.{rules_of};
ghost use Rattle.board_store.specs.Bounds.{IsSum};
ghost use Rattle.board_store.specs.Rounds.{rows_by};
ghost use Rattle.price_space.specs.Firsts.{IsFirstUpTo};
ghost use Rattle.price_space.specs.Moves.{is_last_settled, values_of};
ghost use Rattle.price_space.specs.Sizes.{IsRowBelow};
ghost use Rattle.uc_model.specs.Data.{unit_count};
ghost use Rattle.uc_model.specs.PlainCases.{proposal_of};
ghost use Rattle.uc_model.specs.PlainUnits.{prices_of};
ghost use Rattle.uc_model.specs.PriceRule.{next_prices as prices_after};
ghost use Rattle.plain_lists.specs.Sums.{int_at};
ghost use Rattle.plain_lists.specs.declared.limits.TheConstants.{MOST_PROPOSALS};
ghost use Rattle.board_core.specs.Parts.{IsLedger, sums_of, fronts_of};
ghost use Rattle.board_core.specs.Rounds.{IsRound, row_in, is_full, with_row, with_opened};
ghost use Rattle.board_core.specs.Rounds.{is_due as is_due_at};
ghost use Rattle.board_core.specs.Setups.{IsSetup, setup_of};

use crate::ledger::Ledger;
use crate::terms::Terms;
use board_store::laws::board_laws;
use price_space::{Moved, dual_value, next_prices_from_best_row};
use uc_model::cases::Row;
use uc_model::laws::plan_costs_are_within;
use uc_model::units::Prices;

// Whether prices follow these rows, of which the first with the greatest value is at `best`; then
// they are left in `into`.
fn propose_prices(terms: &Terms, rows: &[Row], best: usize, into: &mut Prices) -> bool
    requires setup { IsSetup (setup_of terms.now) }
    requires best { IsFirstUpTo (values_of (map proposal_of rows.now)) (length rows.now) best }
    requires count { length rows.now ≤ MOST_PROPOSALS }
    requires rows { All (IsRowBelow (setup_of terms.now).market (setup_of terms.now).cost)
        (map proposal_of rows.now) }
    requires horizon { length (prices_of into.old).energy ≡ (setup_of terms.now).market.periods }
    ensures settled { result
        ≡ not (is_last_settled (setup_of terms.now).market (setup_of terms.now).cost
        (map proposal_of rows.now)) }
    ensures prices { result ≡ true → prices_of into.new
        ≡ prices_after (setup_of terms.now).market (setup_of terms.now).cost
        (map proposal_of rows.now) }
    ensures horizon { length (prices_of into.new).energy ≡ (setup_of terms.now).market.periods }
{
    plan_costs_are_within();
    let moved = next_prices_from_best_row(&terms.case, rows, best, terms.cost, into);
    moved == Moved::Made
}

// Whether one more proposal is to be opened with the last row, if that isn't settled.
fn is_proposal_due(terms: &Terms, ledger: &Ledger) -> bool
    requires setup { IsSetup (setup_of terms.now) }
    requires opened { ledger.now.opened ≤ MOST_PROPOSALS }
    requires closed { ledger.now.closed ≤ MOST_PROPOSALS }
    ensures { result ≡ is_due_at (setup_of terms.now) ledger.now.closed ledger.now.opened }
{
    ledger.opened() + 1 == ledger.closed() + terms.ahead as usize
        && ledger.opened() < terms.budget as usize
}

// Opens one more proposal where the rows call for it.
fn open_next_proposal(terms: &Terms, ledger: &mut Ledger, next: &mut Prices)
    requires setup { IsSetup (setup_of terms.now) }
    requires ledger { IsLedger (setup_of terms.now) ledger.old }
    requires some { 1 ≤ ledger.old.closed }
    requires rows { All (IsRowBelow (setup_of terms.now).market (setup_of terms.now).cost)
        (fronts_of ledger.old).rows }
    requires horizon { length (prices_of next.old).energy ≡ (setup_of terms.now).market.periods }
    ensures fronts { fronts_of ledger.new ≡ with_opened (setup_of terms.now)
        (fronts_of ledger.old) }
    ensures sums { sums_of ledger.new ≡ sums_of ledger.old }
    ensures ledger { IsLedger (setup_of terms.now) ledger.new }
    ensures closed { ledger.new.closed ≡ ledger.old.closed }
    ensures opened { ledger.old.opened ≤ ledger.new.opened }
    ensures horizon { length (prices_of next.new).energy ≡ (setup_of terms.now).market.periods }
{
    if !is_proposal_due(terms, ledger) {
        return;
    }
    if !propose_prices(terms, ledger.rows(), ledger.best(), next) {
        return;
    }
    ledger.open(next);
}

// Closes the next proposal with its value.
fn close_next_proposal(terms: &Terms, ledger: &mut Ledger)
    requires setup { IsSetup (setup_of terms.now) }
    requires ledger { IsLedger (setup_of terms.now) ledger.old }
    requires earned_count { length (sums_of ledger.old).earned ≡ (setup_of terms.now).budget }
    requires more { ledger.old.closed < ledger.old.opened }
    requires earned { IsSum (int_at (sums_of ledger.old).earned ledger.old.closed) }
    ensures fronts { fronts_of ledger.new ≡ record {
      rows =
          with_row (setup_of terms.now).market (sums_of ledger.old) (fronts_of ledger.old);
      prices =
          (fronts_of ledger.old).prices;
    } }
    ensures sums { sums_of ledger.new ≡ sums_of ledger.old }
    ensures ledger { IsLedger (setup_of terms.now) ledger.new }
    ensures closed { ledger.new.closed ≡ ledger.old.closed + 1 }
    ensures opened { ledger.new.opened ≡ ledger.old.opened }
{
    let place = ledger.closed();
    let value = dual_value(&terms.case, ledger.prices(place), ledger.earned(place));
    ledger.close(value);
}

/// Closes all proposals from the first on whose units all have answers, and opens those that the
/// rows then call for.
pub fn advance_proposals(terms: &Terms, counts: &[u32], ledger: &mut Ledger, next: &mut Prices)
    requires setup { IsSetup (setup_of terms.now) }
    requires counts { length counts.now ≡ (setup_of terms.now).budget }
    requires ledger { IsLedger (setup_of terms.now) ledger.old }
    requires earned_count { length (sums_of ledger.old).earned ≡ (setup_of terms.now).budget }
    requires round { IsRound (setup_of terms.now) (unit_count (setup_of terms.now).market)
        counts.now (sums_of ledger.old) (fronts_of ledger.old) }
    requires opened { (k : ℕ) → k < (setup_of terms.now).budget
        → is_full (unit_count (setup_of terms.now).market) counts.now (suc k) ≡ true
        → k < ledger.old.opened }
    requires earned { (k : ℕ) → k < (setup_of terms.now).budget
        → IsSum (int_at (sums_of ledger.old).earned k) }
    requires rows { (n : ℕ) → n ≤ (setup_of terms.now).budget
        → ((k : ℕ) → k < n → is_full (unit_count (setup_of terms.now).market) counts.now (suc k)
        ≡ true) → All (IsRowBelow (setup_of terms.now).market (setup_of terms.now).cost)
        (rows_by (rules_of (setup_of terms.now))
        (row_in (setup_of terms.now).market (sums_of ledger.old)) n) }
    requires horizon { length (prices_of next.old).energy ≡ (setup_of terms.now).market.periods }
    ensures round { IsRound (setup_of terms.now) (unit_count (setup_of terms.now).market) counts.now
        (sums_of ledger.new) (fronts_of ledger.new) }
    ensures done { ledger.new.closed < (setup_of terms.now).budget
        → is_full (unit_count (setup_of terms.now).market) counts.now (suc ledger.new.closed)
        ≡ false }
    ensures sums { sums_of ledger.new ≡ sums_of ledger.old }
    ensures ledger { IsLedger (setup_of terms.now) ledger.new }
    ensures horizon { length (prices_of next.new).energy ≡ (setup_of terms.now).market.periods }
{
    board_laws();
    let units = terms.case.unit_count();
    while ledger.closed() < terms.budget as usize && counts[ledger.closed()] == units {
        close_next_proposal(terms, ledger);
        open_next_proposal(terms, ledger, next);
    }
}
