//! What a run chooses.
ghost use Rattle.std.specs.Prelude.{◌≡◌, ◌≤◌, ◌-ℤ◌, true, length};
ghost use Rattle.board_store.specs.Calls.{own_rows, has_finished};
ghost use Rattle.plain_lists.specs.declared.limits.TheConstants.{MOST_PROPOSALS};
ghost use Rattle.right_report.specs.RecordReport.{chosen_of, value_of};
ghost use Rattle.right_report.specs.Told.{IsTold};

use board_core::Closed;
use board_store::laws::{
    finished_has_row, finished_history_is_whole_run, rows_of_history_are_within_limits,
};
use uc_model::laws::plan_costs_are_within;

/// How many proposals a run has, the number from 1 of the chosen one, its dual value in money, and
/// what the schedule costs above that value.
#[derive(Clone, Copy)]
pub struct Choice {
    /// How many proposals the run has.
    pub proposals: u32,
    /// The chosen one.
    pub chosen: u32,
    /// Its dual value.
    pub value: i128,
    /// The cost of the schedule less that value.
    pub gap: i128,
}

/// What the record of a finished board chooses: the first proposal with the greatest dual value,
/// which is at most 10^35 in magnitude. Takes no memory.
pub fn chosen_proposal_of_finished_board(closed: &Closed) -> Choice
    requires { has_finished closed.now ≡ true }
    ensures proposals { result.proposals ≡ length (own_rows closed.now) }
    ensures most { result.proposals ≤ MOST_PROPOSALS }
    ensures chosen { result.chosen ≡ chosen_of closed.now }
    ensures first { 1 ≤ result.chosen }
    ensures last { result.chosen ≤ length (own_rows closed.now) }
    ensures value { result.value ≡ value_of closed.now }
    ensures told { IsTold result.value }
    ensures gap { result.gap ≡ closed.now.setup.cost -ℤ value_of closed.now }
{
    finished_has_row();
    finished_history_is_whole_run();
    rows_of_history_are_within_limits();
    plan_costs_are_within();
    let rows = closed.rows();
    let chosen = closed.chosen();
    let value = rows[chosen as usize - 1].value;
    Choice {
        proposals: rows.len() as u32,
        chosen,
        value,
        gap: closed.cost() - value,
    }
}
