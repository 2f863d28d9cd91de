//! The whole case.
ghost use Rattle.std.specs.Prelude.{◌≡◌, ◌≤◌, IfOk, false, length, map};
ghost use Rattle.std.specs.List.{All};
ghost use Rattle.uc_model.specs.PlainCases.{market_of};
ghost use Rattle.uc_model.specs.PlainUnits.{named_thermal_of, named_renewable_of, named_bid_of};
ghost use Rattle.uc_model.specs.declared.limits.TheConstants.{MOST_OF_A_KIND, MOST_PERIODS};
ghost use Rattle.uc_text.specs.View.{view, member_views};
ghost use Rattle.uc_text.specs.Given.{Gives};
ghost use Rattle.uc_case.specs.Kept.{IsThermalOf, IsRenewableOf, IsBidOf, AreNeeds, AreAllUnits};
ghost use Rattle.uc_case.specs.Parts.{needs_of, units_of};
ghost use Rattle.uc_field.specs.Forms.{keys, key, key_or_none};
ghost use Rattle.uc_case.specs.Cases.{thermal, renewable, units, bids, whole, horizon, needs};
ghost use Rattle.uc_case.specs.Cases.{all_units, no_unit, joined_case, keyed_case, case_of};

use crate::listed::{fault_site_of_unit, read_units};
use crate::parts::{Needs, Units};
use std::alloc::Global;
use uc_field::fault::{CaseCode, Field, Kind};
use uc_field::forms::{FieldStop, members_of};
use uc_field::keys::Keys;
use uc_field::limits::PERIODS;
use uc_field::lists::read_powers;
use uc_model::cases::Case;
use uc_model::units::{BidList, FlatList, NamedBid, NamedFlat, NamedUnit, ThermalList};
use uc_text::Branch;

/// The thermal units, in file order.
fn read_thermal_units(alloc: Global, c: &Keys, periods: u32) -> Result<ThermalList, FieldStop>
    requires some { 1 ≤ periods }
    requires horizon { periods ≤ MOST_PERIODS }
    ensures count { IfOk result (λ l. length l.items ≤ MOST_OF_A_KIND) }
    ensures fits { IfOk result (λ l. All (λ n. IsThermalOf periods n)
        (map named_thermal_of l.items)) }
    ensures value { Gives (λ l. map named_thermal_of l.items) result
        (key (keys c.now.at (member_views c.now.members.items)) Field.ThermalGenerators
        (units Field.ThermalGenerators Kind.Thermal (thermal periods))) }
{
    let branch = c.value(Field::ThermalGenerators)?;
    let at = c.at.field(Field::ThermalGenerators);
    read_units::<NamedUnit>(alloc, at, Kind::Thermal, branch, periods)
}

/// The renewable units, in file order.
fn read_renewable_units(alloc: Global, c: &Keys, periods: u32) -> Result<FlatList, FieldStop>
    requires some { 1 ≤ periods }
    requires horizon { periods ≤ MOST_PERIODS }
    ensures count { IfOk result (λ l. length l.items ≤ MOST_OF_A_KIND) }
    ensures fits { IfOk result (λ l. All (λ n. IsRenewableOf periods n)
        (map named_renewable_of l.items)) }
    ensures value { Gives (λ l. map named_renewable_of l.items) result
        (key (keys c.now.at (member_views c.now.members.items)) Field.RenewableGenerators
        (units Field.RenewableGenerators Kind.Renewable (renewable periods))) }
{
    let branch = c.value(Field::RenewableGenerators)?;
    let at = c.at.field(Field::RenewableGenerators);
    read_units::<NamedFlat>(alloc, at, Kind::Renewable, branch, periods)
}

#[tactic(auto, unfolding(crate::specs::Cases::bids))]
fn read_demand_bids(alloc: Global, c: &Keys, periods: u32) -> Result<BidList, FieldStop>
    requires some { 1 ≤ periods }
    requires horizon { periods ≤ MOST_PERIODS }
    ensures count { IfOk result (λ l. length l.items ≤ MOST_OF_A_KIND) }
    ensures fits { IfOk result (λ l. All (λ n. IsBidOf periods n) (map named_bid_of l.items)) }
    ensures value { Gives (λ l. map named_bid_of l.items) result
        (key_or_none (keys c.now.at (member_views c.now.members.items)) Field.DemandBids
        (bids periods)) }
{
    let Some(branch) = c.find(Field::DemandBids) else {
        return Ok(BidList::make(alloc, 0)?);
    };
    let at = c.at.field(Field::DemandBids);
    read_units::<NamedBid>(alloc, at, Kind::Bid, branch, periods)
}

#[tactic(auto, unfolding(crate::specs::Cases::all_units))]
fn read_all_units(alloc: Global, c: &Keys, periods: u32) -> Result<Units, FieldStop>
    requires some { 1 ≤ periods }
    requires horizon { periods ≤ MOST_PERIODS }
    ensures fits { IfOk result (λ us. AreAllUnits periods (units_of us)) }
    ensures value { Gives units_of result
        (all_units periods (keys c.now.at (member_views c.now.members.items))) }
{
    let thermal = read_thermal_units(alloc, c, periods)?;
    let flat = read_renewable_units(alloc, c, periods)?;
    let bids = read_demand_bids(alloc, c, periods)?;
    Ok(Units {
        thermal,
        flat,
        bids,
    })
}

/// The number of periods; `NoPeriods` where it is 0.
#[tactic(auto, unfolding(crate::specs::Cases::horizon))]
fn read_horizon(c: &Keys) -> Result<u32, FieldStop>
    requires { c.now.at ≡ whole }
    ensures some { IfOk result (λ n. 1 ≤ n) }
    ensures limit { IfOk result (λ n. n ≤ MOST_PERIODS) }
    ensures value { Gives (λ n. n) result
        (horizon (keys c.now.at (member_views c.now.members.items))) }
{
    let periods = c.time(Field::TimePeriods, PERIODS)?;
    if periods == 0 {
        return Err(c.at.field(Field::TimePeriods).stop(CaseCode::NoPeriods));
    }
    Ok(periods)
}

#[tactic(auto, unfolding(crate::specs::Cases::needs))]
fn read_demand_and_reserves(alloc: Global, c: &Keys, periods: u32) -> Result<Needs, FieldStop>
    requires { periods ≤ MOST_PERIODS }
    ensures fits { IfOk result (λ n. AreNeeds periods (needs_of n)) }
    ensures value { Gives needs_of result
        (needs periods (keys c.now.at (member_views c.now.members.items))) }
{
    let demand = read_powers(alloc, c, Field::Demand, periods)?;
    let reserves = read_powers(alloc, c, Field::Reserves, periods)?;
    Ok(Needs { demand, reserves })
}

/// Whether there is neither a thermal nor a renewable unit.
fn lacks_units(units: &Units) -> bool
    ensures { result ≡ no_unit (units_of units.now) }
{
    units.thermal.len() == 0 && units.flat.len() == 0
}

/// The case of these parts.
fn case_of_parts(periods: u32, needs: Needs, units: Units) -> Case
    requires some { 1 ≤ periods }
    requires horizon { periods ≤ MOST_PERIODS }
    requires needs { AreNeeds periods (needs_of needs) }
    requires units { AreAllUnits periods (units_of units) }
    requires some_unit { no_unit (units_of units) ≡ false }
    ensures { market_of result ≡ joined_case periods (needs_of needs) (units_of units) }
{
    Case {
        periods,
        demand: needs.demand,
        reserves: needs.reserves,
        thermal: units.thermal,
        flat: units.flat,
        bids: units.bids,
    }
}

#[tactic(auto, unfolding(crate::specs::Cases::keyed_case))]
fn read_case_from_fields(alloc: Global, c: &Keys) -> Result<Case, FieldStop>
    requires { c.now.at ≡ whole }
    ensures { Gives market_of result
        (keyed_case (keys c.now.at (member_views c.now.members.items))) }
{
    let periods = read_horizon(c)?;
    let needs = read_demand_and_reserves(alloc, c, periods)?;
    let units = read_all_units(alloc, c, periods)?;
    if lacks_units(&units) {
        return Err(
            c.at.field(Field::RenewableGenerators)
                .stop(CaseCode::NoUnits),
        );
    }
    Ok(case_of_parts(periods, needs, units))
}

/// The case of a tree's root, or the fault of the first test that fails.
#[tactic(auto, unfolding(crate::specs::Cases::case_of))]
pub fn case_of_json_tree(alloc: Global, root: Branch<'_>) -> Result<Case, FieldStop>
    ensures { Gives market_of result (case_of (view root.entry)) }
{
    let at = fault_site_of_unit(Field::Whole, Kind::Case, 0);
    let c = Keys {
        at,
        members: members_of(alloc, at, root)?,
    };
    read_case_from_fields(alloc, &c)
}
