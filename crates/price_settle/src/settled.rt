//! What a plan is settled at, at any prices.

use crate::settlement::Settlement;
use plain_lists::lists::Numbers;
use uc_model::cases::{Plan, Row};

/// What a plan is settled at, at its prices: the row of the prices, with their dual value in money
/// and the totals of the responses in kilowatts; for each unit and bid, in the order of the units'
/// numbers, the least of its best responses and what that earns in money; and what the plan earns
/// and is paid.
pub struct Settled {
    pub row: Row,
    pub responses: Plan,
    pub earned: Numbers,
    pub settlement: Settlement,
}

// By hand, so that dropping it is one call.
impl Drop for Settled {
    fn drop(self) {
        let Settled {
            row: _,
            responses: _,
            earned: _,
            settlement: _,
        } = self;
    }
}
