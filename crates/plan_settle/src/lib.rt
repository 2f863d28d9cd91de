//! Settles a plan: at given prices, where it asks each unit what it would do; at the prices that a run
//! chose; and at those of a run with the plan's commitments held. No thread is started, and nothing
//! is waited for.
//!
//! What is made of a run that has ended is read off the record of its board: the settlement at the
//! chosen prices, the best bound round them, and its side of `hull fixed`.
//!
//! `fix_case` gives the case with each thermal unit held to its commitment in a schedule. The dual
//! value of the held case tells the prices for the commitments that were chosen, where that of the
//! case as given is for all that could be (Gribik, Hogan and Pope, "Market-Clearing Electricity
//! Prices and Energy Uplift", 2007, compare such prices).
#![tactic(auto)]

mod answers;
mod bound;
mod chosen;
mod copies;
mod done;
mod fix;
pub mod held_laws;
mod room;
mod settle;
mod sides;

pub use bound::{Bounded, best_bound_around_chosen_prices};
pub use chosen::{make_settlement_buffers_of_run, settle_at_chosen_prices};
pub use done::Done;
pub use fix::fix_case;
pub use settle::settle_at;
pub use sides::{
    Sides, fix_commitments_of_run, fixed_report_side_of_fixed_run, fixed_report_side_of_free_run,
    make_side_buffers,
};
