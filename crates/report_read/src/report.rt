//! What a report tells, and why one isn't read.

use plain_lists::lists::{Name, ReservedList};
use std::alloc::Global;
use std::fmt;
use thiserror::Error;
use uc_model::cases::Row;
use uc_model::kinds::Kind;
use uc_model::units::Response;

/// The rows of a report, in the order of their proposals.
pub type RowList = ReservedList<Row>;

/// What a report tells of each unit and bid, in unit order.
pub type UnitLines = ReservedList<UnitLine>;

/// A unit or a bid at the chosen prices: what it earns at best and in the plan, what it is owed, in
/// money, and its response. A renewable unit or a bid is on in every period, with reserve 0.
pub struct UnitLine {
    /// Whether it is thermal, renewable or a bid.
    pub kind: Kind,
    /// Its name in the case.
    pub name: Name,
    /// What it earns at best.
    pub earned: i64,
    /// What it earns in the plan.
    pub scheduled: i64,
    /// What it is owed.
    pub payment: i64,
    /// Its best response, in kilowatts over the periods.
    pub response: Response,
}

// By hand, so that dropping it is one call.
impl Drop for UnitLine {
    fn drop(self) {
        let UnitLine {
            kind: _,
            name: _,
            earned: _,
            scheduled: _,
            payment: _,
            response: _,
        } = self;
    }
}

/// What a report tells. Proposals count from 1; `chosen` is the number of one of them and
/// `chosen_value` its dual value. The units stand in the order thermal, renewable, bids. Values,
/// costs and payments are in money.
pub struct Report {
    /// How many periods the case has.
    pub periods: u32,
    /// How many units and bids it has.
    pub units: u32,
    /// The most proposals of the run.
    pub budget: u32,
    /// How many proposals may be open ahead of the last answered one.
    pub ahead: u32,
    /// The cost of the plan.
    pub cost: i128,
    /// The rows, one for each proposal.
    pub rows: RowList,
    /// The number of the chosen proposal.
    pub chosen: u32,
    /// The dual value of the chosen proposal.
    pub chosen_value: i128,
    /// A line for each unit and bid.
    pub lines: UnitLines,
    /// What reserve beyond the requirement is worth.
    pub surplus: i128,
    /// The sum of the payments.
    pub payments: i128,
    /// The cost of the plan less the chosen dual value.
    pub gap: i128,
}

// By hand, so that dropping it is one call.
impl Drop for Report {
    fn drop(self) {
        let Report {
            periods: _,
            units: _,
            budget: _,
            ahead: _,
            cost: _,
            rows: _,
            chosen: _,
            chosen_value: _,
            lines: _,
            surplus: _,
            payments: _,
            gap: _,
        } = self;
    }
}

/// Why a report wasn't read.
#[derive(Drop, Error)]
pub enum ReportError {
    /// The first line that isn't in form or has a number out of bounds, from 1; the number of whole
    /// lines and one more where the text ends too early.
    #[error("line {line} isn't in form")]
    Fault { line: u32 },
    #[error("out of memory")]
    Memory,
}

// Written out, since a derived one is dear to prove.
impl fmt::Debug for ReportError {
    fn fmt<W: fmt::Write>(&self, f: &mut fmt::Formatter<W>) -> fmt::Result {
        fmt::Display::fmt(self, f)
    }
}
