//! The units or bids of a kind, which an object lists by name.
ghost use Rattle.std.specs.Prelude.{◌≡◌, ◌≤◌, ℕ, [], IfOk, length, map};
ghost use Rattle.std.specs.List.{All};
ghost use Rattle.uc_model.specs.Data.{NamedThermalUnit, NamedRenewableUnit, NamedBidUnit};
ghost use Rattle.uc_model.specs.PlainUnits.{named_thermal_of, named_renewable_of, named_bid_of};
ghost use Rattle.uc_model.specs.declared.limits.TheConstants.{MOST_OF_A_KIND, MOST_PERIODS};
ghost use Rattle.uc_text.specs.Pairs.{Pair};
ghost use Rattle.uc_text.specs.View.{view, member_view, member_views};
ghost use Rattle.uc_text.specs.Given.{Gives};
ghost use Rattle.uc_case.specs.Kept.{IsThermalOf, IsRenewableOf, IsBidOf};
ghost use Rattle.uc_field.specs.Forms.{Read};
ghost use Rattle.uc_field.specs.Sites.{site};
ghost use Rattle.uc_case.specs.Cases.{thermal, renewable, bid, each_member, units};
ghost use Rattle.uc_field.specs.declared.fault.Site.{Site as PlainSite};

use crate::bids::read_bid;
use crate::units::{read_renewable, read_unit};
use plain_lists::lists::{Name, ReservedList};
use std::alloc::{AllocError, Global};
use text_tokens::decode_quoted_string;
use uc_field::fault::{CaseCode, Field, Kind, Site};
use uc_field::forms::{FieldStop, object_of};
use uc_field::limits::UNITS;
use uc_model::units::{NamedBid, NamedFlat, NamedUnit};
use uc_text::{Branch, Member};

/// A unit or bid under its name.
pub trait Listed: Sized {
    // What a contract sees of it.
    ghost Plain: { Type 0 };

    ghost plain_of: { Self → Plain };

    // What the tests of a member give.
    ghost reading: { ℕ → PlainSite → Pair → Read Plain };

    // What it keeps, over so many periods.
    ghost Keeps: { ℕ → Plain → Type 0 };

    /// Reads a member, whose faults are at the site.
    fn read(alloc: Global, at: Site, member: &Member<'_>, periods: u32) -> Result<Self, FieldStop>
        requires some { 1 ≤ periods }
        requires horizon { periods ≤ MOST_PERIODS }
        ensures fits { IfOk result (λ n. Keeps periods (plain_of n)) }
        ensures value { Gives plain_of result (reading periods at (member_view member.now)) };
}

/// The site of a field of a unit or of the case, outside of its lists.
pub fn fault_site_of_unit(field: Field, kind: Kind, unit: u32) -> Site
    ensures { result ≡ site field kind unit }
{
    Site {
        field,
        kind,
        unit,
        item: 0,
    }
}

/// The key of a member as the name of a unit.
fn unit_name_of_member(alloc: Global, member: &Member<'_>) -> Result<Name, AllocError>
    ensures { IfOk result (λ name. name.items ≡ (member_view member.now).name) }
{
    let text = decode_quoted_string(alloc, member.name)?;
    Name::copied(alloc, text.as_str())
}

impl Listed for NamedUnit {
    ghost Plain = { NamedThermalUnit };

    ghost plain_of = { named_thermal_of };

    ghost reading = { thermal };

    ghost Keeps = { IsThermalOf };

    #[tactic(auto, unfolding(crate::specs::Cases::thermal))]
    fn read(
        alloc: Global,
        at: Site,
        member: &Member<'_>,
        periods: u32,
    ) -> Result<NamedUnit, FieldStop> {
        let unit = read_unit(alloc, at, member.value, periods)?;
        let name = unit_name_of_member(alloc, member)?;
        Ok(NamedUnit { name, unit })
    }
}

impl Listed for NamedFlat {
    ghost Plain = { NamedRenewableUnit };

    ghost plain_of = { named_renewable_of };

    ghost reading = { renewable };

    ghost Keeps = { IsRenewableOf };

    #[tactic(auto, unfolding(crate::specs::Cases::renewable))]
    fn read(
        alloc: Global,
        at: Site,
        member: &Member<'_>,
        periods: u32,
    ) -> Result<NamedFlat, FieldStop> {
        let flat = read_renewable(alloc, at, member.value, periods)?;
        let name = unit_name_of_member(alloc, member)?;
        Ok(NamedFlat { name, flat })
    }
}

impl Listed for NamedBid {
    ghost Plain = { NamedBidUnit };

    ghost plain_of = { named_bid_of };

    ghost reading = { bid };

    ghost Keeps = { IsBidOf };

    #[tactic(auto, unfolding(crate::specs::Cases::bid))]
    fn read(
        alloc: Global,
        at: Site,
        member: &Member<'_>,
        periods: u32,
    ) -> Result<NamedBid, FieldStop> {
        let bid = read_bid(alloc, at, member.value, periods)?;
        let name = unit_name_of_member(alloc, member)?;
        Ok(NamedBid { name, bid })
    }
}

/// Adds the units or bids of these members to a list that is empty and has room for them.
fn read_units_into<N: Listed + Drop>(
    alloc: Global,
    at: Site,
    members: &[Member<'_>],
    periods: u32,
    list: &mut ReservedList<N>,
) -> Result<(), FieldStop>
    requires few { length members.now ≤ MOST_OF_A_KIND }
    requires some { 1 ≤ periods }
    requires horizon { periods ≤ MOST_PERIODS }
    requires empty { list.old.items ≡ [] }
    requires room { length members.now ≤ list.old.spare }
    ensures count { IfOk result (λ _. length list.new.items ≡ length members.now) }
    ensures fits { IfOk result (λ _. All (λ n. N.Keeps periods n) (map N.plain_of list.new.items)) }
    ensures value { Gives (λ _. map N.plain_of list.new.items) result
        (each_member at.field at.kind (N.reading periods) (member_views members.now)) }
{
    for member in members {
        let site = fault_site_of_unit(at.field, at.kind, list.len() as u32 + 1);
        let unit = N::read(alloc, site, member, periods)?;
        list.push(unit);
    }
    Ok(())
}

fn read_members_as_units<N: Listed + Drop>(
    alloc: Global,
    at: Site,
    members: &[Member<'_>],
    periods: u32,
) -> Result<ReservedList<N>, FieldStop>
    requires few { length members.now ≤ MOST_OF_A_KIND }
    requires some { 1 ≤ periods }
    requires horizon { periods ≤ MOST_PERIODS }
    ensures count { IfOk result (λ l. length l.items ≡ length members.now) }
    ensures fits { IfOk result (λ l. All (λ n. N.Keeps periods n) (map N.plain_of l.items)) }
    ensures value { Gives (λ l. map N.plain_of l.items) result
        (each_member at.field at.kind (N.reading periods) (member_views members.now)) }
{
    let mut list: ReservedList<N> = ReservedList::make(alloc, members.len() as u32)?;
    read_units_into(alloc, at, members, periods, &mut list)?;
    Ok(list)
}

/// The units or bids of an object in file order. The faults of the object itself are at the site,
/// whose field is theirs too.
#[tactic(auto, unfolding(crate::specs::Cases::units))]
pub fn read_units<N: Listed + Drop>(
    alloc: Global,
    at: Site,
    kind: Kind,
    branch: Branch<'_>,
    periods: u32,
) -> Result<ReservedList<N>, FieldStop>
    requires some { 1 ≤ periods }
    requires horizon { periods ≤ MOST_PERIODS }
    ensures count { IfOk result (λ l. length l.items ≤ MOST_OF_A_KIND) }
    ensures fits { IfOk result (λ l. All (λ n. N.Keeps periods n) (map N.plain_of l.items)) }
    ensures value { Gives (λ l. map N.plain_of l.items) result
        (units at.field kind (N.reading periods) at (view branch.entry)) }
{
    let object = object_of(at, branch)?;
    if object.len() > UNITS {
        return Err(at.stop(CaseCode::TooLarge));
    }
    let members = object.members(alloc)?;
    read_members_as_units(alloc, Site { kind, ..at }, &members, periods)
}
