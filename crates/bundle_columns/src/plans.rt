//! The plan as a mixture.
ghost use Rattle.std.specs.Prelude.{◌≤◌, length, IfOk};
ghost use Rattle.gap_proof.specs.Mixtures.{entries_of, mixture_of};
ghost use Rattle.uc_model.specs.PlainCases.{market_of, schedules_of};
ghost use Rattle.uc_model.specs.PlainUnits.{schedule_of};
ghost use Rattle.uc_model.specs.Systems.{IsFeasiblePlan};
ghost use Rattle.uc_model.specs.declared.limits.TheConstants.{MOST_PERIODS};
ghost use Rattle.bundle_columns.specs.Mixing.{AreOfOne, IsKept};

use crate::copies::copied_response;
use crate::weights::WHOLE;
use gap_proof::{Entries, Entry, EntryLists, Mixture};
use std::alloc::{AllocError, Global};
use uc_model::cases::{Case, Plan};
use uc_model::units::Response;

// So many entries of one response: the first has the whole weight, and the others have none.
fn entries_of_one_response(
    alloc: Global,
    from: &Response,
    places: u32,
) -> Result<Entries, AllocError>
    requires some { 1 ≤ places }
    requires periods { length (schedule_of from.now).on ≤ MOST_PERIODS }
    ensures { IfOk result (λ entries. AreOfOne places (schedule_of from.now)
        (entries_of entries)) }
{
    let mut entries = Entries::make(alloc, places)?;
    let response = copied_response(alloc, from)?;
    entries.push(Entry {
        weight: WHOLE,
        response,
    });
    for _ in 1..places {
        let response = copied_response(alloc, from)?;
        entries.push(Entry {
            weight: 0,
            response,
        });
    }
    Ok(entries)
}

/// The plan as a mixture with so many entries for each thermal unit.
pub fn mixture_of_plan(
    alloc: Global,
    case: &Case,
    plan: &Plan,
    places: u32,
) -> Result<Mixture, AllocError>
    requires feasible { IsFeasiblePlan (market_of case.now) (schedules_of plan.now) }
    requires some { 1 ≤ places }
    ensures { IfOk result (λ x. IsKept (market_of case.now) places (mixture_of x)) }
{
    let mut thermal = EntryLists::make(alloc, case.thermal.len() as u32)?;
    for number in 0..case.thermal.len() {
        thermal.push(entries_of_one_response(alloc, plan.responses.get(number), places)?);
    }
    Ok(Mixture {
        weight: WHOLE,
        thermal,
    })
}
