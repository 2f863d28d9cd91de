//! The prices of a file: an energy price and a reserve price for each period of a case, or the
//! first fault in a fixed order.
#![tactic(auto)]

mod entries;
pub mod fault;
pub mod laws;
mod lists;
mod read;

pub use read::read_prices;
