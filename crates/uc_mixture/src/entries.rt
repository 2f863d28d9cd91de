//! The entries of one unit.
ghost use Rattle.std.specs.Prelude.{◌≡◌, IfOk, IfSome};
ghost use Rattle.std.specs.List.{All};
ghost use Rattle.gap_proof.specs.Mixtures.{entry_of, entries_of, AreEntries};
ghost use Rattle.std.specs.Option.{option_map};
ghost use Rattle.uc_text.specs.View.{view, views, items_in, member_views};
ghost use Rattle.uc_text.specs.Given.{Gives};
ghost use Rattle.uc_plan.specs.Views.{lists_of, AreFull};
ghost use Rattle.uc_mixture.specs.Kept.{IsFrame, IsEntryIn};
ghost use Rattle.uc_mixture.specs.Tables.{entry_parts as entry_parts_spec, weighed, entry};
ghost use Rattle.uc_mixture.specs.Tables.{entries as entries_spec, unit_entries};
ghost use Rattle.uc_mixture.specs.Tables.{some_list as some_list_spec};

use crate::fault::{ShareCode, ShareSite, ShareStop};
use crate::weights::{do_weights_sum_to, weight_of_json_value};
use gap_proof::{Entries, Entry};
use std::alloc::Global;
use uc_plan::fault::ShapeCode;
use uc_plan::shapes::{ThermalLists, lists_of_thermal_schedule};
use uc_plan::units::read_thermal_schedule_lists;
use uc_text::inside::find_member;
use uc_text::stop::Stop;
use uc_text::{Branch, ListBranch, Member};

/// What all entries have in common: over how many periods they are, and the whole that the weights
/// of each unit sum to.
#[derive(Clone, Copy)]
pub struct Frame {
    /// How many items each list has.
    pub periods: u32,
    /// The whole, from 1 on.
    pub whole: i64,
}

/// The weight and the lists of an entry, where each is among its members, and each list has an item
/// for each period.
fn weight_and_lists_of_entry<'a>(
    members: &[Member<'a>],
    periods: u32,
) -> Option<(Branch<'a>, ThermalLists<'a>)>
    ensures full { IfSome result (λ p. AreFull periods (lists_of p.1)) }
    ensures value { option_map (λ p. (view p.0, lists_of p.1)) result
        ≡ entry_parts_spec periods (member_views members.now) }
{
    match (
        find_member(members, "weight"),
        lists_of_thermal_schedule(members, periods),
    ) {
        (Some(heavy), Some(lists)) => Some((heavy, lists)),
        _ => None,
    }
}

/// The entry of a weight and lists. `Weight` where the weight isn't a whole number from 0 to the
/// whole, and then `PlanNumber` at the first wrong item.
#[tactic(auto, unfolding(crate::specs::Tables::weighed))]
fn read_weighted_entry(
    alloc: Global,
    at: ShareSite,
    frame: Frame,
    heavy: Branch<'_>,
    lists: ThermalLists<'_>,
) -> Result<Entry, ShareStop>
    requires frame { IsFrame frame }
    requires full { AreFull frame.periods (lists_of lists) }
    ensures fits { IfOk result (λ e. IsEntryIn frame (entry_of e)) }
    ensures value { Gives entry_of result
        (weighed frame at (view heavy.entry) (lists_of lists.entry)) }
{
    let Some(weight) = weight_of_json_value(heavy, 0, frame.whole) else {
        return Err(at.stop(ShareCode::Weight));
    };
    match read_thermal_schedule_lists(
        alloc,
        at.schedule_fault_site_of_unit(),
        lists,
        frame.periods,
    ) {
        Ok(response) => Ok(Entry { weight, response }),
        Err(stop) => Err(at.within(stop)),
    }
}

/// An entry. `PlanShape` where it isn't an object with a weight and three lists of an item for each
/// period, then `Weight` where its weight isn't a whole number from 0 to the whole, and then
/// `PlanNumber` at the first wrong item.
#[tactic(auto, unfolding(crate::specs::Tables::entry))]
fn read_mixture_entry(
    alloc: Global,
    at: ShareSite,
    frame: Frame,
    branch: Branch<'_>,
) -> Result<Entry, ShareStop>
    requires { IsFrame frame }
    ensures fits { IfOk result (λ e. IsEntryIn frame (entry_of e)) }
    ensures value { Gives entry_of result (entry frame at (view branch.entry)) }
{
    let Some(object) = branch.object() else {
        return Err(at.stop(ShareCode::Shape(ShapeCode::PlanShape)));
    };
    let members = object.members(alloc)?;
    match weight_and_lists_of_entry(&members, frame.periods) {
        Some((heavy, lists)) => read_weighted_entry(alloc, at, frame, heavy, lists),
        None => Err(at.stop(ShareCode::Shape(ShapeCode::PlanShape))),
    }
}

fn read_entries(
    alloc: Global,
    at: ShareSite,
    frame: Frame,
    branches: &[Branch<'_>],
) -> Result<Entries, ShareStop>
    requires { IsFrame frame }
    ensures fits { IfOk result (λ l. All (λ e. IsEntryIn frame e) (entries_of l)) }
    ensures value { Gives entries_of result (entries_spec frame at (views branches.now)) }
{
    // There is no room for a list of more entries.
    let Ok(count) = u32::try_from(branches.len()) else {
        return Err(Stop::Memory);
    };
    let mut entries = Entries::make(alloc, count)?;
    for branch in branches {
        let site = at.entry(entries.len() as u32 + 1);
        let entry = read_mixture_entry(alloc, site, frame, *branch)?;
        entries.push(entry);
    }
    Ok(entries)
}

fn non_empty_list<'a>(branch: Branch<'a>) -> Option<ListBranch<'a>>
    ensures { option_map items_in result ≡ some_list_spec (view branch.entry) }
{
    let list = branch.list()?;
    if list.len() == 0 { None } else { Some(list) }
}

/// The entries of a unit. `PlanShape` where the value isn't a list or is an empty one, then the
/// fault of the first entry that has one, and then `Weight` where the weights don't sum to the
/// whole.
#[tactic(auto, unfolding(crate::specs::Tables::unit_entries))]
pub fn read_unit(
    alloc: Global,
    at: ShareSite,
    frame: Frame,
    branch: Branch<'_>,
) -> Result<Entries, ShareStop>
    requires { IsFrame frame }
    ensures fits { IfOk result (λ l. AreEntries frame.periods frame.whole (entries_of l)) }
    ensures value { Gives entries_of result (unit_entries frame at (view branch.entry)) }
{
    let Some(list) = non_empty_list(branch) else {
        return Err(at.stop(ShareCode::Shape(ShapeCode::PlanShape)));
    };
    let branches = list.items(alloc)?;
    let entries = read_entries(alloc, at, frame, &branches)?;
    if !do_weights_sum_to(entries.as_slice(), frame.whole) {
        return Err(at.stop(ShareCode::Weight));
    }
    Ok(entries)
}
