//! What is to be printed.

use convex_search::Goal;
use gap_proof::Mixture;
use hull_input::Input;
use hull_report::MixtureBound;
use plan_settle::{Bounded, Done, Sides};
use price_settle::Settled;

/// A case with its schedule, and what that is settled at.
pub struct SettledInput {
    /// The case with its schedule.
    pub input: Input,
    /// What the schedule is settled at.
    pub settled: Settled,
}

// By hand, so that each drop is one call.
impl Drop for SettledInput {
    fn drop(self) {
        let SettledInput {
            input: _,
            settled: _,
        } = self;
    }
}

/// What a schedule is settled at, and a bound round the prices.
pub struct CertifiedInput {
    pub settled: SettledInput,
    pub within: MixtureBound,
}

// By hand, so that each drop is one call.
impl Drop for CertifiedInput {
    fn drop(self) {
        let CertifiedInput {
            settled: _,
            within: _,
        } = self;
    }
}

/// A case with its schedule, and what a search for prices of it found.
pub struct FoundInput {
    /// The case with its schedule, and what that is settled at, at the prices that were found.
    pub settled: SettledInput,
    /// What the search was told.
    pub goal: Goal,
    /// Feasible schedules of each thermal unit, and how often each counts.
    pub mixture: Mixture,
    /// The bound that the mixture gives on the dual value of all prices, in money.
    pub bound: i128,
    /// How many rounds were made.
    pub made: u32,
}

// By hand, so that each drop is one call.
impl Drop for FoundInput {
    fn drop(self) {
        let FoundInput {
            settled: _,
            goal: _,
            mixture: _,
            bound: _,
            made: _,
        } = self;
    }
}

/// What a command is to print.
pub enum Answer {
    /// The report of a run.
    Price(Done),
    /// That a schedule is feasible, and what it costs.
    Check(Input),
    /// What a schedule is settled at, at given prices.
    Settle(SettledInput),
    /// The same, with a bound on the dual value of all prices round them.
    Certify(CertifiedInput),
    /// What a search found: prices, what the schedule is settled at there, and a mixture with its bound.
    Convex(FoundInput),
    /// The sums of a run on the case that a number stands for.
    Try(u64, Done),
    /// The best bound round the prices that a run chose.
    Bound(Bounded),
    /// What the runs with and without the schedule's commitments held chose, and pay.
    Fixed(Sides),
    /// That a report of so many proposals is right.
    Audit(u32),
}

// By hand, so that each drop is one call.
impl Drop for Answer {
    fn drop(self) {
        match self {
            Answer::Price(_done) => {}
            Answer::Check(_input) => {}
            Answer::Settle(_settled) => {}
            Answer::Certify(_certified) => {}
            Answer::Convex(_found) => {}
            Answer::Try(_number, _done) => {}
            Answer::Bound(_bounded) => {}
            Answer::Fixed(_sides) => {}
            Answer::Audit(_proposals) => {}
        }
    }
}
