//! A report beside the right one of its case and plan, line by line: where it first differs, and
//! whether it does. The right one is never written out.
#![tactic(auto)]

mod audited;
mod compare_room;
mod due;
pub mod laws;
mod lines;
mod parts;
mod report;
mod rows;
mod units;
mod verdict;
mod wrong;

pub use audited::Audited;
pub use compare_room::CompareRoom;
pub use report::first_difference;
pub use verdict::{Audit, audit_result_of_right_rows, check_opening_lines};
pub use wrong::WrongLine;
