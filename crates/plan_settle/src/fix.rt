//! The case with each thermal unit held to its commitment in a plan.
ghost use Rattle.std.specs.Prelude.{◌≡◌, ◌≤◌, length, map, IfOk};
ghost use Rattle.uc_model.specs.PlainCases.{market_of, schedules_of};
ghost use Rattle.uc_model.specs.PlainUnits.{named_thermal_of, named_renewable_of, named_bid_of};
ghost use Rattle.uc_model.specs.PlainUnits.{thermal_of, schedule_of};
ghost use Rattle.plain_lists.specs.Sums.{zip_with};
ghost use Rattle.uc_model.specs.Systems.{IsFeasiblePlan};
ghost use Rattle.uc_model.specs.declared.limits.TheConstants.{MOST_OF_A_KIND};
ghost use Rattle.plan_settle.specs.FixedCase.{held_named, fixed_market};

use crate::copies::{copied_bid, copied_list, copied_renewable, copy_unit_with_fixed_commitment};
use plain_lists::lists::Name;
use std::alloc::{AllocError, Global};
use uc_model::cases::{Case, Plan};
use uc_model::units::{BidList, FlatList, NamedBid, NamedFlat, NamedUnit, Response, ThermalList};

// The thermal unit under its name, held to the response's commitment.
fn copy_named_unit_with_fixed_commitment(
    alloc: Global,
    named: &NamedUnit,
    response: &Response,
) -> Result<NamedUnit, AllocError>
    requires { length (schedule_of response.now).on ≡ length (thermal_of named.now.unit).window }
    ensures { IfOk result (λ n. named_thermal_of n
        ≡ held_named (named_thermal_of named.now) (schedule_of response.now)) }
{
    let name = Name::copied(alloc, named.name.as_str())?;
    let unit = copy_unit_with_fixed_commitment(alloc, &named.unit, response)?;
    Ok(NamedUnit { name, unit })
}

// The thermal units, each held to its commitment in the plan.
fn copy_units_with_fixed_commitments(
    alloc: Global,
    case: &Case,
    plan: &Plan,
) -> Result<ThermalList, AllocError>
    requires { IsFeasiblePlan (market_of case.now) (schedules_of plan.now) }
    ensures { IfOk result (λ units. map named_thermal_of units.items
        ≡ zip_with held_named (market_of case.now).thermal (schedules_of plan.now)) }
{
    let mut units = ThermalList::make(alloc, case.thermal.len() as u32)?;
    for index in 0..case.thermal.len() {
        let unit = copy_named_unit_with_fixed_commitment(
            alloc,
            case.thermal.get(index),
            plan.responses.get(index),
        )?;
        units.push(unit);
    }
    Ok(units)
}

// The renewable unit under its name.
fn copied_named_renewable(alloc: Global, named: &NamedFlat) -> Result<NamedFlat, AllocError>
    ensures { IfOk result (λ n. named_renewable_of n ≡ named_renewable_of named.now) }
{
    let name = Name::copied(alloc, named.name.as_str())?;
    let flat = copied_renewable(alloc, &named.flat)?;
    Ok(NamedFlat { name, flat })
}

// The renewable units.
fn copied_renewables(alloc: Global, from: &FlatList) -> Result<FlatList, AllocError>
    requires { length from.now.items ≤ MOST_OF_A_KIND }
    ensures { IfOk result (λ list. map named_renewable_of list.items
        ≡ map named_renewable_of from.now.items) }
{
    let mut flats = FlatList::make(alloc, from.len() as u32)?;
    for index in 0..from.len() {
        flats.push(copied_named_renewable(alloc, from.get(index))?);
    }
    Ok(flats)
}

// The bid under its name.
fn copied_named_bid(alloc: Global, named: &NamedBid) -> Result<NamedBid, AllocError>
    ensures { IfOk result (λ n. named_bid_of n ≡ named_bid_of named.now) }
{
    let name = Name::copied(alloc, named.name.as_str())?;
    let bid = copied_bid(alloc, &named.bid)?;
    Ok(NamedBid { name, bid })
}

// The bids.
fn copied_bids(alloc: Global, from: &BidList) -> Result<BidList, AllocError>
    requires { length from.now.items ≤ MOST_OF_A_KIND }
    ensures { IfOk result (λ list. map named_bid_of list.items ≡ map named_bid_of from.now.items) }
{
    let mut bids = BidList::make(alloc, from.len() as u32)?;
    for index in 0..from.len() {
        bids.push(copied_named_bid(alloc, from.get(index))?);
    }
    Ok(bids)
}

/// The case in which each thermal unit may only have its commitment in a feasible plan: its window
/// says on where the plan has it on, and off elsewhere. All else is as in the case as given.
pub fn fix_case(alloc: Global, case: &Case, plan: &Plan) -> Result<Case, AllocError>
    requires { IsFeasiblePlan (market_of case.now) (schedules_of plan.now) }
    ensures { IfOk result (λ c. market_of c
        ≡ fixed_market (market_of case.now) (schedules_of plan.now)) }
{
    let demand = copied_list(alloc, &case.demand)?;
    let reserves = copied_list(alloc, &case.reserves)?;
    let thermal = copy_units_with_fixed_commitments(alloc, case, plan)?;
    let flat = copied_renewables(alloc, &case.flat)?;
    let bids = copied_bids(alloc, &case.bids)?;
    Ok(Case {
        periods: case.periods,
        demand,
        reserves,
        thermal,
        flat,
        bids,
    })
}
