//! The answers of renewable units and demand bids to prices.
//!
//! Both are on in every period, give no reserve, and earn in each period by the power of that
//! period alone. So a best schedule is one with a best power in each period, and the first of them
//! in the order for ties is the one with the least best power in each.
#![tactic(auto)]

mod bids;
mod choice;
mod renewables;

pub use bids::best_bid;
pub use renewables::best_flat;
