//! The schedule of a file: a plan for a case, or the first fault in a fixed order.
#![tactic(auto)]

pub mod fault;
pub mod laws;
pub mod lookup;
mod named;
mod numbers;
pub mod plans;
mod read;
pub mod shapes;
pub mod units;

pub use read::read_plan;
