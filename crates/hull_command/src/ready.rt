//! A command whose words and files are accepted, and what is left to be done of it.

use crate::end::End;
use board_core::Terms;
use report_read::Report;

/// What is done with the run of an input.
#[derive(Drop)]
pub enum Purpose {
    /// Reports it.
    Price,
    /// Tells the sums of the run on the case that a number stands for.
    Try(u64),
    /// Bounds the dual values of all prices within this radius of the chosen ones, in money for a
    /// kilowatt and period.
    Bound(i64),
    /// Runs once more with the schedule's commitments held.
    Fixed,
    /// Says whether a report is right.
    Audit(Report),
}

/// A command that is ready for its run.
#[derive(Drop)]
pub struct Ready {
    /// What is done with the run.
    pub purpose: Purpose,
    /// What the run is for, with as many callers as the words ask for workers.
    pub terms: Terms,
}

/// What a command comes to before any run.
#[derive(Drop)]
pub enum Before {
    /// It has ended so.
    Ended(End),
    /// A run is called for.
    Ready(Ready),
}
