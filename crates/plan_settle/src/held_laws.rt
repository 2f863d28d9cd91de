//! Laws of held commitments: each is the contract of a function that does nothing of its own.
ghost use Rattle.plan_settle.specs.HeldLaws.{SchedulesOfFixedUnitKeepItsCommitment};
ghost use Rattle.plan_settle.specs.HeldLaws.{PlanStaysFeasibleWithFixedCommitments};

use uc_model::laws::dual_is_at_most_cost;

/// A held unit's feasible schedules are those of the unit as given with the commitment that is
/// held.
pub fn schedules_of_fixed_unit_keep_its_commitment()
    ensures { SchedulesOfFixedUnitKeepItsCommitment }
{}

/// The plan stays feasible at its cost, and the dual value doesn't fall and stays at most that
/// cost.
pub fn plan_stays_feasible_with_fixed_commitments()
    ensures { PlanStaysFeasibleWithFixedCommitments }
{
    dual_is_at_most_cost();
}
