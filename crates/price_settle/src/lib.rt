//! What a plan is settled at, at any prices, where it is known what each unit earns at best there: what
//! its schedules earn, what each unit is paid beside the prices, and what surplus reserve is worth.
//!
//! A unit's payment is what its best schedules earn at the prices less what its schedule in the plan
//! earns (Gribik, Hogan and Pope, "Market-Clearing Electricity Prices and Energy Uplift", 2007).
//! The uplift of a plan is its payments and the worth of its surplus reserve: together they make up
//! the gap between the plan's cost and the dual value,
//! `uc_model::laws::payments_make_up_the_gap`.
#![tactic(auto)]

mod earned;
pub mod laws;
mod settled;
mod settlement;
mod totals;

pub use settled::Settled;
pub use settlement::{Settlement, settle};
pub use totals::write_totals_of_responses;
