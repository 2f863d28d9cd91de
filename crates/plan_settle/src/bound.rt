//! The best bound round the prices that a run chose.
ghost use Rattle.std.specs.Prelude.{◌≡◌, ◌*◌, true, length};
ghost use Rattle.board_store.specs.Calls.{own_rows, has_finished};
ghost use Rattle.gap_proof.specs.Candidates.{IsFirstLeast};
ghost use Rattle.gap_proof.specs.PlaneSums.{IsRadius};
ghost use Rattle.right_report.specs.Told.{IsTold};
ghost use Rattle.right_report.specs.RecordReport.{chosen_of};

use crate::done::Done;
use board_core::Closed;
use board_store::laws::{
    finished_has_row, finished_history_is_whole_run, rows_of_history_are_within_limits,
};
use gap_proof::{Certified, best_range};
use plain_lists::lists::Amounts;
use right_report::laws::one_row_is_chosen;

/// A run that has ended, and the best bound round its chosen prices.
#[derive(Drop)]
pub struct Bounded {
    /// The run.
    pub done: Done,
    /// How far each price may be from the chosen one, in money for a kilowatt and period.
    pub radius: i64,
    /// The best bound on the dual values of all such prices, with the rows that it is of.
    pub certified: Certified,
}

/// The best bound round the chosen row of a finished record. `work` has two numbers for each
/// period, and is left with any numbers. Takes no memory.
pub fn best_bound_around_chosen_prices(
    closed: &Closed,
    radius: i64,
    work: &mut Amounts,
) -> Certified
    requires finished { has_finished closed.now ≡ true }
    requires radius { IsRadius radius }
    requires work { length work.old.items ≡ 2 * closed.now.setup.market.periods }
    ensures best { IsFirstLeast closed.now.setup.market (own_rows closed.now) (chosen_of closed.now)
        radius (record { first = result.first; last = result.last }) result.bound }
    ensures told { IsTold result.bound }
{
    finished_has_row();
    finished_history_is_whole_run();
    rows_of_history_are_within_limits();
    one_row_is_chosen();
    best_range(closed.case(), closed.rows(), closed.chosen(), radius, work)
}
