//! What a search found.

use gap_proof::Mixture;
use uc_model::units::Prices;

/// What a search found.
#[derive(Drop)]
pub struct Found {
    /// The prices.
    pub prices: Prices,
    /// Feasible schedules of each thermal unit, and how often each counts.
    pub mixture: Mixture,
    /// The bound that the mixture gives on the dual value of all prices, in money.
    pub bound: i128,
    /// How many rounds were made.
    pub made: u32,
}
