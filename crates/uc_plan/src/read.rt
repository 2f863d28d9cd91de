//! The schedule of a file.
ghost use Rattle.std.specs.Prelude.{◌≡◌, ◌≤◌, List, Result, IfOk, length};
ghost use Rattle.uc_model.specs.Data.{Schedule};
ghost use Rattle.uc_model.specs.Laws.{HasPlanShape};
ghost use Rattle.uc_model.specs.PlainCases.{market_of, schedules_of};
ghost use Rattle.plain_lists.specs.declared.limits.TheConstants.{MOST_BYTES};
ghost use Rattle.uc_text.specs.Files.{FileFault};
ghost use Rattle.uc_plan.specs.PlanFiles.{IsPlanOf, IfRead};
ghost use Rattle.uc_plan.specs.declared.fault.ShapeFault.{ShapeFault as PlainFault};

use crate::fault::PlanFault;
use crate::laws::schedule_file_has_one_value_or_one_fault;
use crate::plans::plan_of_json_tree;
use std::alloc::Global;
use uc_model::cases::{Case, Plan};
use uc_text::stop::Stop;
use uc_text::{TextError, read_tree};

/// The schedule of a file for a case: on flags, and powers and reserves in whole kilowatts, of each
/// unit and bid by its name, in any order.
///
/// Refuses a file that isn't a JSON text with the first fault of the text. Else refuses with the
/// first test that fails: the outer objects, names that aren't in the case, and then each unit and
/// bid in the order of the case.
pub fn read_plan(alloc: Global, case: &Case, bytes: &[u8]) -> Result<Plan, PlanFault>
    requires { length bytes.now ≤ MOST_BYTES }
    // A plan has a schedule over the horizon for each unit, and a renewable unit's and a bid's is
    // on with reserve 0.
    ensures shape { IfOk result (λ p. HasPlanShape (market_of case.now) (schedules_of p)) }
    // The answer is what the file is.
    ensures answer { IfRead schedules_of result (λ r. IsPlanOf (market_of case.now) bytes.now r) }
    // What the file is, is answered.
    ensures only { (r : Result (List Schedule) (FileFault PlainFault))
        → IsPlanOf (market_of case.now) bytes.now r → IfRead schedules_of result (λ s. s ≡ r) }
{
    schedule_file_has_one_value_or_one_fault();
    plan_of_bytes(alloc, case, bytes)
}

fn plan_of_bytes(alloc: Global, case: &Case, bytes: &[u8]) -> Result<Plan, PlanFault>
    requires { length bytes.now ≤ MOST_BYTES }
    ensures shape { IfOk result (λ p. HasPlanShape (market_of case.now) (schedules_of p)) }
    ensures answer { IfRead schedules_of result (λ r. IsPlanOf (market_of case.now) bytes.now r) }
{
    let tree = match read_tree(alloc, bytes) {
        Ok(tree) => tree,
        Err(TextError::Fault(fault)) => return Err(PlanFault::Text(fault)),
        Err(TextError::Memory) => return Err(PlanFault::Memory),
    };
    match plan_of_json_tree(alloc, case, tree.root()) {
        Ok(plan) => Ok(plan),
        Err(Stop::Fault(fault)) => Err(PlanFault::Shape(fault)),
        Err(Stop::Memory) => Err(PlanFault::Memory),
    }
}
