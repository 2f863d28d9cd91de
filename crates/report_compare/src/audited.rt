//! What an audit is of.
ghost use Rattle.std.specs.Prelude.{◌≡◌, map};
ghost use Rattle.std.proofs.Props.{props};
ghost use Rattle.uc_model.specs.PlainCases.{market_of, schedules_of};
ghost use Rattle.uc_model.specs.Systems.{IsFeasiblePlan, plan_cost};
ghost use Rattle.report_read.specs.Bounds.{IsReport, AreInOrder};
ghost use Rattle.report_read.specs.Plain.{report_of, told_of};
ghost use Rattle.report_compare.specs.OneProof.{feasible_plan-prop, in_order-prop};

use report_read::Report;
use uc_model::cases::{Case, Plan};

/// A report, and the case and schedule that it is held against. The report is within the bounds of
/// `read_report`, and may be of another case.
#[derive(Clone, Copy)]
pub struct Audited<'a> {
    /// The case.
    pub case: &'a Case,
    /// A feasible schedule of it.
    pub plan: &'a Plan,
    /// What the schedule costs, in money.
    pub cost: i128,
    /// The report.
    pub report: &'a Report,
    ghost feasible: { IsFeasiblePlan (market_of case.now) (schedules_of plan.now) } by { feasible_plan-prop _ _ },
    ghost cost_is: { cost ≡ plan_cost (market_of case.now) (schedules_of plan.now) },
    ghost bounds: { IsReport (report_of report.now) } by { Prim.hlevel props },
    ghost order: { AreInOrder 0 (map told_of report.now.lines.items) } by { in_order-prop 0 _ },
}
