//! The mixture of a file: schedules of each thermal unit of a case under whole weights, or the
//! first fault in a fixed order.
#![tactic(auto)]

mod entries;
pub mod fault;
pub mod laws;
mod mixtures;
mod read;
mod units;
mod weights;

pub use read::read_mixture;
