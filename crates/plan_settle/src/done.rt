//! What a run leaves when it has ended.

use board_core::Closed;
use price_settle::Settlement;
use uc_model::units::Answered;
use unit_program::Bench;

/// A run that has ended.
#[derive(Drop)]
pub struct Done {
    /// The record of its board.
    pub closed: Closed,
    /// The settlement of the schedule at the chosen prices.
    pub settlement: Settlement,
    /// Room for an answer over the horizon of the case.
    pub buffer: Answered,
    /// Room for the work on an answer of any of its units.
    pub bench: Bench,
}
