//! Whether a schedule of all units keeps the rules, and what it costs.
#![tactic(auto)]

mod check;
pub mod costs;
pub mod laws;
mod rules;
mod states;
pub mod totals;

pub use check::{check_plan, check_thermal};
use uc_model::kinds::{Kind, RuleCode};

/// Why a schedule isn't feasible: the first rule that it breaks.
#[derive(Clone, Copy, PartialEq, Eq)]
pub struct RuleFault {
    /// The rule.
    pub code: RuleCode,
    /// The kind of the unit, or `Case`.
    pub kind: Kind,
    /// The unit's position within its kind, from 1, and 0 for the case.
    pub unit: u32,
    /// Periods count from 1; before a stop in period 1 stands period 0.
    pub period: u32,
    /// The first of the two numbers that the rule compares.
    pub left: i128,
    /// The second of them.
    pub right: i128,
}
