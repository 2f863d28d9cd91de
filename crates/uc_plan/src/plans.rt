//! The schedules of all units of a case.
ghost use Rattle.std.specs.Prelude.{◌≡◌, ◌≤◌, ◌+◌, ℕ, List, [], IfOk, OnOk, length, map};
ghost use Rattle.std.specs.Option.{option_map};
ghost use Rattle.indexmap.specs.IndexMap.{get_by_text};
ghost use Rattle.uc_model.specs.Laws.{HasPlanShape};
ghost use Rattle.uc_model.specs.PlainCases.{market_of, schedules_of};
ghost use Rattle.uc_model.specs.PlainUnits.{schedule_of};
ghost use Rattle.uc_model.specs.declared.limits.TheConstants.{MOST_OF_A_KIND, MOST_PERIODS};
ghost use Rattle.uc_text.specs.Pairs.{Pair};
ghost use Rattle.uc_text.specs.View.{view, members_in};
ghost use Rattle.uc_text.specs.Given.{Gives};
ghost use Rattle.uc_text.specs.Inside.{value_under};
ghost use Rattle.uc_plan.specs.Added.{Adds, IsShaped};
ghost use Rattle.uc_plan.specs.Plans.{named, schedules, all_known, all_named};
ghost use Rattle.uc_plan.specs.Plans.{all_schedules, plan_of};
ghost use Rattle.uc_plan.specs.Views.{groups_of};

use crate::fault::{ShapeCode, ShapeSite, ShapeStop};
use crate::lookup::{Values, first_unknown_member, values_of_object_by_key};
use crate::named::Named;
use crate::shapes::{Groups, read_schedule_objects_by_unit_kind};
use crate::units::read_schedule;
use std::alloc::Global;
use uc_model::cases::{Case, Plan};
use uc_model::kinds::Kind;
use uc_model::units::{Response, ResponseList};
use uc_text::stop::Stop;
use uc_text::{Branch, ObjectBranch};

/// Refuses the first member whose name isn't that of a unit, with `UnknownUnit` at its position
/// in the file.
#[tactic(auto, unfolding(crate::specs::Plans::all_known))]
pub fn check_names<N: Named>(
    alloc: Global,
    kind: Kind,
    object: ObjectBranch<'_>,
    units: &[N],
) -> Result<(), ShapeStop>
    ensures { Gives (λ _. tt) result
        (all_known kind (map N.name_of units.now) (members_in object.entry)) }
{
    let position = first_unknown_member(alloc, object, units)?;
    if position > 0 {
        // There is no room for an object of so many members.
        let Ok(unit) = u32::try_from(position) else {
            return Err(Stop::Memory);
        };
        return Err(ShapeSite { kind, unit }.stop(0, ShapeCode::UnknownUnit));
    }
    Ok(())
}

#[tactic(auto, unfolding(crate::specs::Plans::named))]
fn read_schedule_of_named_unit(
    alloc: Global,
    values: &Values<'_>,
    at: ShapeSite,
    name: &str,
    periods: u32,
) -> Result<Response, ShapeStop>
    requires { periods ≤ MOST_PERIODS }
    ensures shape { IfOk result (λ r. IsShaped at.kind periods (schedule_of r)) }
    ensures value { (ms : List Pair)
        → ((q : List ℕ) → option_map view (get_by_text values.now.by_key q) ≡ value_under q ms)
        → Gives schedule_of result (named periods ms at name.now) }
{
    match values.by_key.get(name) {
        Some(branch) => read_schedule(alloc, at, *branch, periods),
        None => Err(at.stop(0, ShapeCode::MissingUnit)),
    }
}

/// Adds the schedule of each unit to a plan that has room for them.
fn read_schedules<N: Named>(
    alloc: Global,
    kind: Kind,
    object: ObjectBranch<'_>,
    units: &[N],
    periods: u32,
    plan: &mut ResponseList,
) -> Result<(), ShapeStop>
    requires few { length units.now ≤ MOST_OF_A_KIND }
    requires horizon { periods ≤ MOST_PERIODS }
    requires room { length units.now ≤ plan.old.spare }
    ensures spare { OnOk result (plan.new.spare + length units.now ≡ plan.old.spare) }
    ensures value { Adds (λ s. IsShaped kind periods s) (length units.now)
        (map schedule_of plan.old.items) (map schedule_of plan.new.items) result
        (schedules periods kind (members_in object.entry) (map N.name_of units.now)) }
{
    let values = values_of_object_by_key(alloc, object)?;
    let mut unit = 0;
    for named in units {
        unit += 1;
        let response = read_schedule_of_named_unit(
            alloc,
            &values,
            ShapeSite { kind, unit },
            named.name(),
            periods,
        )?;
        plan.push(response);
    }
    Ok(())
}

/// Refuses the first member of any object whose name isn't that of a unit of its kind.
#[tactic(auto, unfolding(crate::specs::Plans::all_named))]
fn check_all_names(alloc: Global, case: &Case, groups: Groups<'_>) -> Result<(), ShapeStop>
    ensures { Gives (λ _. tt) result (all_named (market_of case.now) (groups_of groups.entry)) }
{
    let thermal = case.thermal.as_slice();
    let flat = case.flat.as_slice();
    let bids = case.bids.as_slice();
    check_names(alloc, Kind::Thermal, groups.thermal, thermal)?;
    check_names(alloc, Kind::Renewable, groups.renewable, flat)?;
    check_names(alloc, Kind::Bid, groups.bids, bids)
}

/// Adds the schedules of all units to an empty plan that has room for them.
fn read_all_schedules(
    alloc: Global,
    case: &Case,
    groups: Groups<'_>,
    plan: &mut ResponseList,
) -> Result<(), ShapeStop>
    requires empty { plan.old.items ≡ [] }
    requires room { length (market_of case.now).thermal + length (market_of case.now).flat
        + length (market_of case.now).bids ≤ plan.old.spare }
    ensures shape { IfOk result (λ _. HasPlanShape (market_of case.now)
        (map schedule_of plan.new.items)) }
    ensures value { Gives (λ _. map schedule_of plan.new.items) result
        (all_schedules (market_of case.now) (groups_of groups.entry)) }
{
    let thermal = case.thermal.as_slice();
    let flat = case.flat.as_slice();
    let bids = case.bids.as_slice();
    let periods = case.periods;
    read_schedules(alloc, Kind::Thermal, groups.thermal, thermal, periods, plan)?;
    read_schedules(
        alloc,
        Kind::Renewable,
        groups.renewable,
        flat,
        periods,
        plan,
    )?;
    read_schedules(alloc, Kind::Bid, groups.bids, bids, periods, plan)
}

/// The schedules of all units, in the order of the case.
fn read_schedules_in_case_order(
    alloc: Global,
    case: &Case,
    groups: Groups<'_>,
) -> Result<ResponseList, ShapeStop>
    ensures shape { IfOk result (λ list. HasPlanShape (market_of case.now)
        (map schedule_of list.items)) }
    ensures value { Gives (λ list. map schedule_of list.items) result
        (all_schedules (market_of case.now) (groups_of groups.entry)) }
{
    let mut responses = ResponseList::make(alloc, case.unit_count())?;
    read_all_schedules(alloc, case, groups, &mut responses)?;
    Ok(responses)
}

/// The plan of a tree's root, or the fault of the first test that fails.
#[tactic(auto, unfolding(crate::specs::Plans::plan_of))]
pub(crate) fn plan_of_json_tree(
    alloc: Global,
    case: &Case,
    root: Branch<'_>,
) -> Result<Plan, ShapeStop>
    ensures shape { IfOk result (λ p. HasPlanShape (market_of case.now) (schedules_of p)) }
    ensures value { Gives schedules_of result (plan_of (market_of case.now) (view root.entry)) }
{
    let groups = read_schedule_objects_by_unit_kind(alloc, root, case.bids.len())?;
    check_all_names(alloc, case, groups)?;
    let responses = read_schedules_in_case_order(alloc, case, groups)?;
    Ok(Plan { responses })
}
