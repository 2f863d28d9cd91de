//! The case of a file: a case of unit commitment as pglib-uc has it, with demand bids, or the first
//! fault in a fixed order.
#![tactic(auto)]

mod bids;
mod cases;
pub mod fault;
pub mod laws;
mod listed;
mod parts;
mod read;
mod units;

pub use read::read_case;
