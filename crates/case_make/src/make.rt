//! The whole case.
ghost use Rattle.std.specs.Prelude.{◌≡◌, ◌+◌, ◌*◌, ◌<◌, [], ◌∷◌, ◌++◌, IfOk, OnOk, map};
ghost use Rattle.uc_model.specs.Limits.{IsMarket};
ghost use Rattle.uc_model.specs.PlainCases.{market_of, schedules_of};
ghost use Rattle.uc_model.specs.PlainUnits.{named_thermal_of, named_renewable_of};
ghost use Rattle.uc_model.specs.Systems.{IsFeasiblePlan};
ghost use Rattle.case_make.specs.Drawn.{unit_draws, unit_of, unit_schedule, most_powers};
ghost use Rattle.case_make.specs.Drawn.{renewable_of, full};
ghost use Rattle.case_make.specs.Grown.{plan_of, IsSummed, IsSmall, HasRoom};
ghost use Rattle.case_make.specs.Made.{name_of, thermal_units, thermal_plan, renewable_units};
ghost use Rattle.case_make.specs.Made.{renewable_plans, plan_from, market_for, made};
ghost use Rattle.case_make.specs.Sizes.{AreDrawn, ArePowers};
ghost use Rattle.case_make.specs.Words.{moved_on};

use crate::draws::{UnitDraws, draw_unit};
use crate::growing::Growing;
use crate::names::name_of_number;
use crate::renewables::{draw_powers, full_output_schedule, renewable_of_powers};
use crate::schedules::unit_schedule;
use crate::units::thermal_unit_of_draws;
use rand_pcg::Pcg32;
use std::alloc::{AllocError, Global};
use uc_model::cases::{Case, Plan};
use uc_model::units::{BidList, FlatList, NamedFlat, NamedUnit, Powers, ThermalList};

/// Periods of a generated case.
pub const PERIODS: u32 = 48;

const THERMAL_UNITS: u32 = 73;

const RENEWABLE_UNITS: u32 = 81;

/// Units of a generated case.
pub const UNITS: u32 = THERMAL_UNITS + RENEWABLE_UNITS;

const STREAM: u64 = 54;

// The thermal unit of its draws, named.
fn named_thermal_unit_of_draws(
    alloc: Global,
    draws: &UnitDraws,
    number: u32,
) -> Result<NamedUnit, AllocError>
    requires draws { AreDrawn draws.now }
    requires number { number < 100 }
    ensures { IfOk result (λ n. named_thermal_of n
        ≡ record { name = name_of 84 number; unit = unit_of draws.now }) }
{
    let name = name_of_number(alloc, b'T', number)?;
    let unit = thermal_unit_of_draws(alloc, draws)?;
    Ok(NamedUnit { name, unit })
}

// Draws the next thermal unit, adds its schedule, and names it.
fn add_unit(
    alloc: Global,
    random: &mut Pcg32,
    plan: &mut Growing,
    number: u32,
) -> Result<NamedUnit, AllocError>
    requires number { number < 100 }
    requires room { HasRoom 1 plan.old }
    requires summed { IsSummed plan.old }
    requires small { IsSmall 100000000 (plan_of plan.old) }
    ensures unit { IfOk result (λ n. named_thermal_of n
        ≡ record { name = name_of 84 number; unit = unit_of (unit_draws random.old 0) }) }
    ensures moved { OnOk result (random.new ≡ moved_on 9 random.old) }
    ensures plan { OnOk result (plan_of plan.new ≡ plan_of plan.old
        ++ unit_schedule (unit_draws random.old 0) ∷ []) }
    ensures summed { OnOk result (IsSummed plan.new) }
    ensures room { OnOk result (plan.new.responses.spare + 1 ≡ plan.old.responses.spare) }
{
    let draws = draw_unit(random);
    plan.push(unit_schedule(alloc, &draws)?);
    named_thermal_unit_of_draws(alloc, &draws, number)
}

fn add_thermal(
    alloc: Global,
    random: &mut Pcg32,
    plan: &mut Growing,
) -> Result<ThermalList, AllocError>
    requires empty { plan_of plan.old ≡ [] }
    requires room { HasRoom 154 plan.old }
    requires summed { IsSummed plan.old }
    ensures units { IfOk result (λ list. map named_thermal_of list.items
        ≡ thermal_units random.old 73) }
    ensures moved { OnOk result (random.new ≡ moved_on (9 * 73) random.old) }
    ensures plan { OnOk result (plan_of plan.new ≡ thermal_plan random.old 73) }
    ensures summed { OnOk result (IsSummed plan.new) }
    ensures room { OnOk result (HasRoom 81 plan.new) }
{
    let mut units = ThermalList::make(alloc, THERMAL_UNITS)?;
    for i in 0..THERMAL_UNITS {
        let unit = add_unit(alloc, random, plan, i + 1)?;
        units.push(unit);
    }
    Ok(units)
}

// The renewable unit of its greatest powers, named.
fn named_renewable_of_powers(
    alloc: Global,
    powers: &Powers,
    number: u32,
) -> Result<NamedFlat, AllocError>
    requires powers { ArePowers powers.now.items }
    requires number { number < 100 }
    ensures { IfOk result (λ n. named_renewable_of n
        ≡ record { name = name_of 82 number; unit = renewable_of powers.now.items }) }
{
    let name = name_of_number(alloc, b'R', number)?;
    let flat = renewable_of_powers(alloc, powers)?;
    Ok(NamedFlat { name, flat })
}

// Draws the next renewable unit, names it, and adds its schedule.
fn add_renewable_unit(
    alloc: Global,
    random: &mut Pcg32,
    plan: &mut Growing,
    number: u32,
) -> Result<NamedFlat, AllocError>
    requires number { number < 100 }
    requires room { HasRoom 1 plan.old }
    requires summed { IsSummed plan.old }
    requires small { IsSmall 100000000 (plan_of plan.old) }
    ensures unit { IfOk result (λ n. named_renewable_of n
        ≡ record { name = name_of 82 number; unit = renewable_of (most_powers random.old 0) }) }
    ensures moved { OnOk result (random.new ≡ moved_on 49 random.old) }
    ensures plan { OnOk result (plan_of plan.new ≡ plan_of plan.old
        ++ full (most_powers random.old 0) ∷ []) }
    ensures summed { OnOk result (IsSummed plan.new) }
    ensures room { OnOk result (plan.new.responses.spare + 1 ≡ plan.old.responses.spare) }
{
    let powers = draw_powers(alloc, random)?;
    let unit = named_renewable_of_powers(alloc, &powers, number)?;
    plan.push(full_output_schedule(alloc, powers)?);
    Ok(unit)
}

fn add_renewables(
    alloc: Global,
    random: &mut Pcg32,
    plan: &mut Growing,
) -> Result<FlatList, AllocError>
    requires room { HasRoom 81 plan.old }
    requires summed { IsSummed plan.old }
    requires small { IsSmall 40000000 (plan_of plan.old) }
    ensures units { IfOk result (λ list. map named_renewable_of list.items
        ≡ renewable_units random.old 0 81) }
    ensures plan { OnOk result (plan_of plan.new ≡ plan_of plan.old
        ++ renewable_plans random.old 0 81) }
    ensures summed { OnOk result (IsSummed plan.new) }
{
    let mut units = FlatList::make(alloc, RENEWABLE_UNITS)?;
    for j in 0..RENEWABLE_UNITS {
        let unit = add_renewable_unit(alloc, random, plan, j + 1)?;
        units.push(unit);
    }
    Ok(units)
}

// Draws all units, and adds their schedules to an empty plan.
fn draw_units(
    alloc: Global,
    random: &mut Pcg32,
    plan: &mut Growing,
) -> Result<(ThermalList, FlatList), AllocError>
    requires empty { plan_of plan.old ≡ [] }
    requires room { HasRoom 154 plan.old }
    requires summed { IsSummed plan.old }
    ensures thermal { IfOk result (λ lists. map named_thermal_of lists.0.items
        ≡ thermal_units random.old 73) }
    ensures flat { IfOk result (λ lists. map named_renewable_of lists.1.items
        ≡ renewable_units random.old (9 * 73) 81) }
    ensures plan { OnOk result (plan_of plan.new ≡ plan_from random.old) }
    ensures summed { OnOk result (IsSummed plan.new) }
{
    let thermal = add_thermal(alloc, random, plan)?;
    let flat = add_renewables(alloc, random, plan)?;
    Ok((thermal, flat))
}

// The case of these units, where demand and required reserve follow from a plan, with that plan.
fn case_and_schedule_of_units(
    alloc: Global,
    plan: Growing,
    thermal: ThermalList,
    flat: FlatList,
) -> Result<(Case, Plan), AllocError>
    requires summed { IsSummed plan }
    requires small { IsSmall 100000000 (plan_of plan) }
    requires market { IsMarket (market_for (plan_of plan) (map named_thermal_of thermal.items)
        (map named_renewable_of flat.items)) }
    ensures case { IfOk result (λ pair. market_of pair.0
        ≡ market_for (plan_of plan) (map named_thermal_of thermal.items)
        (map named_renewable_of flat.items)) }
    ensures plan { IfOk result (λ pair. schedules_of pair.1 ≡ plan_of plan) }
{
    let reserves = plan.requirements(alloc)?;
    let bids = BidList::make(alloc, 0)?;
    let Growing {
        responses,
        power,
        ..
    } = plan;
    let case = Case {
        periods: PERIODS,
        demand: power,
        reserves,
        thermal,
        flat,
        bids,
    };
    Ok((case, Plan { responses }))
}

/// The case and the feasible schedule that a number stands for: 73 thermal units `T01` to `T73` and
/// 81 renewable units `R01` to `R81` over 48 periods, all marks free, no bid. Each unit that is on
/// before the horizon stays on, each other stays off, demand is the schedule's total power, and
/// nine tenths of its reserve are required. Powers are in kilowatts and costs in millionths of the
/// currency. `AllocError` if memory runs out.
pub fn make_case(alloc: Global, number: u64) -> Result<(Case, Plan), AllocError>
    ensures case { IfOk result (λ pair. market_of pair.0 ≡ (made number).market) }
    ensures plan { IfOk result (λ pair. schedules_of pair.1 ≡ (made number).plan) }
    ensures feasible { IfOk result
        (λ pair. IsFeasiblePlan (market_of pair.0) (schedules_of pair.1)) }
{
    let mut random = Pcg32::new(number, STREAM);
    let mut plan = Growing::make(alloc)?;
    let (thermal, flat) = draw_units(alloc, &mut random, &mut plan)?;
    case_and_schedule_of_units(alloc, plan, thermal, flat)
}
