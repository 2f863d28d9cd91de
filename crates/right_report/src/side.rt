//! What is told of one run of `hull fixed`.
ghost use Rattle.std.specs.Prelude.{◌≡◌, true, length};
ghost use Rattle.board_store.specs.Calls.{has_finished};
ghost use Rattle.uc_model.specs.PlainUnits.{prices_of};
ghost use Rattle.right_report.specs.RightSide.{TellsChoice};

use crate::choice::chosen_proposal_of_finished_board;
use board_core::Closed;
use board_store::laws::rows_of_history_are_within_limits;
use plain_lists::lists::copy_list;
use price_settle::Settlement;
use uc_model::units::Prices;

/// What is told of one run: how many proposals it has, the number from 1 of the chosen one, its
/// dual value in money and its prices in money for a kilowatt and period, and the settlement of the
/// schedule at these prices.
pub struct Side {
    /// How many proposals the run has.
    pub proposals: u32,
    /// The chosen one.
    pub chosen: u32,
    /// Its dual value.
    pub value: i128,
    /// Its prices.
    pub prices: Prices,
    /// What each unit earns and is owed at them.
    pub settlement: Settlement,
}

// By hand, so that dropping it is one call.
impl Drop for Side {
    fn drop(self) {
        let Side {
            proposals: _,
            chosen: _,
            value: _,
            prices: _,
            settlement: _,
        } = self;
    }
}

// Leaves prices in others over as many periods.
fn copy_prices(from: &Prices, into: &mut Prices)
    requires { length (prices_of from.now).energy ≡ length (prices_of into.old).energy }
    ensures { prices_of into.new ≡ prices_of from.now }
{
    copy_list(&from.energy, &mut into.energy);
    copy_list(&from.reserve, &mut into.reserve);
}

/// The side of a finished record: what it chose, with the chosen prices in `room`, which is over
/// the record's periods, and the settlement as it is given. Takes no memory.
pub fn fixed_report_side_of_finished_board(
    closed: &Closed,
    room: Prices,
    settlement: Settlement,
) -> Side
    requires finished { has_finished closed.now ≡ true }
    requires horizon { length (prices_of room).energy ≡ closed.now.setup.market.periods }
    ensures choice { TellsChoice closed.now result }
    ensures horizon { length (prices_of result.prices).energy ≡ closed.now.setup.market.periods }
    ensures settlement { result.settlement ≡ settlement }
{
    rows_of_history_are_within_limits();
    let choice = chosen_proposal_of_finished_board(closed);
    let row = &closed.rows()[choice.chosen as usize - 1];
    let mut prices = room;
    copy_prices(&row.prices, &mut prices);
    Side {
        proposals: choice.proposals,
        chosen: choice.chosen,
        value: choice.value,
        prices,
        settlement,
    }
}
