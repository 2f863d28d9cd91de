//! A report of `hull price`, read back from its text.
#![tactic(auto)]

mod head;
mod items;
pub mod laws;
mod lines;
mod names;
mod numbers;
mod read;
mod report;
mod rows;
mod stop;
mod units;
mod values;
mod words;

pub use read::read_report;
pub use report::{Report, ReportError, UnitLine};
