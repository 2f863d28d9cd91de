//! Laws on the histories of a board: each is the contract of a function that does nothing.
ghost use Rattle.uc_model.specs.Runs.{Fits};
ghost use Rattle.board_store.specs.Bounds.{RowsOfHistoryAreWithinLimits};
ghost use Rattle.board_store.specs.BoardLaws.{BoardLaws, ListsDifferAtFirstUnequalNumber};
ghost use Rattle.board_store.specs.Laws.{ClaimAnswersTellBoardState, EachRowHasAnswerOfEachUnit};
ghost use Rattle.board_store.specs.Laws.{AnswersOfHistoryFitTheirTasks};
ghost use Rattle.board_store.specs.Laws.{FinishedHistoryIsWholeRun, FinishedHasRow, FinishedStays};

use uc_model::laws as model;
use uc_model::laws::{
    demand_worth_is_within, dual_is_at_most_cost, earnings_are_within, outputs_are_within,
    units_are_within,
};

/// What each answer of a claim says: that the board has finished; else that a caller has halted;
/// else that the task is the lowest open proposal's lowest unclaimed unit; else that every task of
/// the open proposals is claimed.
pub fn claim_answers_tell_board_state()
    ensures { ClaimAnswersTellBoardState }
{}

/// Each row of a history is made of an answer for each unit, at the prices of its proposal.
pub fn each_row_has_answer_of_each_unit()
    ensures { EachRowHasAnswerOfEachUnit }
{}

/// Where a legal history is finished, its rows are a whole run.
pub fn finished_history_is_whole_run()
    ensures { FinishedHistoryIsWholeRun Fits }
{}

/// A finished history has a row.
pub fn finished_has_row()
    ensures { FinishedHasRow }
{}

/// The first answer that a legal history has for a task is for a unit of the case and an open
/// proposal, fits that unit at the proposal's prices, and comes with what it earns.
pub fn answers_of_history_fit_their_tasks()
    ensures { AnswersOfHistoryFitTheirTasks }
{}

/// A finished history stays finished in every legal history that goes on from it.
pub fn finished_stays_finished()
    ensures { FinishedStays Fits }
{}

/// Each row is over the horizon, with prices within their limits, totals of at most 10^13 in
/// magnitude and a value of at most 10^24.
pub fn rows_of_history_are_within_limits()
    ensures { RowsOfHistoryAreWithinLimits }
{
    outputs_are_within();
    earnings_are_within();
    units_are_within();
    model::power_and_reserve_totals_are_within();
    demand_worth_is_within();
}

/// What a crate goes by that keeps a board in lists of its own: rows go on one after another and
/// open proposals; what is closed stays so; one more event changes one post or one holder, and
/// keeps a history legal if it may come next; a post that is taken is for the board's own task,
/// with a right answer; and what claims, answers and rows are by the laws above. The totals of a
/// proposal's answers are at most 10^13 kilowatts in magnitude, and what they earn together 10^23,
/// also while answers are missing. No row's value is above the cost of a feasible plan.
pub fn board_laws()
    ensures { BoardLaws }
{
    outputs_are_within();
    earnings_are_within();
    units_are_within();
    model::power_and_reserve_totals_are_within();
    demand_worth_is_within();
    dual_is_at_most_cost();
}

/// Two lists differ at the first place that both have and where their numbers aren't the same.
pub fn lists_differ_at_first_unequal_number()
    ensures { ListsDifferAtFirstUnequalNumber }
{}
