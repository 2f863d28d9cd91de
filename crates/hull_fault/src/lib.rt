//! What can go wrong in a command: each fault with its status, and the line that tells it.
#![tactic(auto)]

mod fault;
mod line;
mod sources;

pub use fault::{FileKind, ReportCode, TopFault};
pub use line::write_fault;
