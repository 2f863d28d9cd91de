//! Runs on a shared board whose tasks workers answer: of a case with a feasible schedule, with the
//! best bound round the prices that a run chose, and with the schedule's commitments held.
//!
//! No report is read here and nothing is written: a run ends with the record of its board and the
//! settlement at its chosen prices.
#![tactic(auto)]

mod bound;
mod crew;
mod fixed;
mod run;

pub use bound::run_and_bound;
pub use fixed::run_with_free_and_fixed_commitments;
pub use run::{Run, open_run, run_board};
