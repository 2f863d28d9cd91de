//! The audit of a report: its right rows are worked out by jobs on many threads, and it is compared
//! with what is then due.
//!
//! There is no board. The units of each proposal are dealt to jobs, and what the jobs add up makes
//! the row. A job answers each unit that it gets on its own bench, begun with the unit's last
//! answer, whichever job found it, and keeps the sums of what the units earn, give and reserve.
//! Whoever answered which unit, the jobs' sums together are those of one least best response of
//! each unit, since each number is dealt once.
#![tactic(auto)]

mod answerer;
mod audit;
mod count;
mod row;
mod rows;
mod sums;

pub use answerer::Answerer;
pub use audit::check_report;
pub use rows::recomputed_rows_of_run;
