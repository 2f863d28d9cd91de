//! The objects and lists of a schedule.
ghost use Rattle.std.specs.Prelude.{◌≡◌, IfSome, [], length, codes};
ghost use Rattle.std.specs.Option.{option_map};
ghost use Rattle.uc_text.specs.View.{view, items_in, member_views, members_in};
ghost use Rattle.uc_text.specs.Given.{Gives};
ghost use Rattle.uc_text.specs.Inside.{value_under};
ghost use Rattle.uc_plan.specs.Plans.{full_list as full_list_spec, bids_in, groups_in, groups};
ghost use Rattle.uc_plan.specs.Plans.{list_under as list_under_spec};
ghost use Rattle.uc_plan.specs.Plans.{object_under as object_under_spec};
ghost use Rattle.uc_plan.specs.Plans.{thermal_lists as thermal_lists_spec};
ghost use Rattle.uc_plan.specs.Views.{groups_of, lists_of, AreFull};

use crate::fault::{ShapeCode, ShapeSite, ShapeStop};
use std::alloc::Global;
use uc_model::kinds::Kind;
use uc_text::inside::find_member;
use uc_text::{Branch, ListBranch, Member, ObjectBranch};

/// A list of an item for each period.
pub fn list_with_item_per_period<'a>(branch: Branch<'a>, periods: u32) -> Option<ListBranch<'a>>
    ensures count { IfSome result (λ l. length (items_in l) ≡ periods) }
    ensures value { option_map items_in result ≡ full_list_spec periods (view branch.entry) }
{
    let list = branch.list()?;
    if list.len() == periods as usize {
        Some(list)
    } else {
        None
    }
}

/// Such a list under a key.
fn list_under<'a>(members: &[Member<'a>], key: &str, periods: u32) -> Option<ListBranch<'a>>
    ensures count { IfSome result (λ l. length (items_in l) ≡ periods) }
    ensures value { option_map items_in result
        ≡ list_under_spec periods key.now (member_views members.now) }
{
    list_with_item_per_period(find_member(members, key)?, periods)
}

/// The lists of a thermal unit's schedule, each of an item for each period.
#[derive(Clone, Copy)]
pub struct ThermalLists<'a> {
    /// The on flags.
    pub on: ListBranch<'a>,
    /// The powers in kilowatts.
    pub power: ListBranch<'a>,
    /// The reserves in kilowatts.
    pub reserve: ListBranch<'a>,
}

/// The lists of a thermal unit's schedule, where each is among the members and has an item for each
/// period.
#[tactic(auto, unfolding(crate::specs::Plans::thermal_lists))]
pub fn lists_of_thermal_schedule<'a>(
    members: &[Member<'a>],
    periods: u32,
) -> Option<ThermalLists<'a>>
    ensures full { IfSome result (λ l. AreFull periods (lists_of l)) }
    ensures value { option_map lists_of result
        ≡ thermal_lists_spec periods (member_views members.now) }
{
    let on = list_under(members, "on", periods);
    let power = list_under(members, "power", periods);
    let reserve = list_under(members, "reserve", periods);
    match (on, power, reserve) {
        (Some(on), Some(power), Some(reserve)) => Some(ThermalLists { on, power, reserve }),
        _ => None,
    }
}

/// The object under a key, where it is there and is one.
pub fn object_under<'a>(members: &[Member<'a>], key: &str) -> Option<ObjectBranch<'a>>
    ensures { option_map members_in result
        ≡ object_under_spec key.now (member_views members.now) }
{
    find_member(members, key)?.object()
}

/// The objects of a schedule, by unit name.
#[derive(Clone, Copy)]
pub struct Groups<'a> {
    /// The schedules of the thermal units.
    pub thermal: ObjectBranch<'a>,
    /// The powers of the renewable units.
    pub renewable: ObjectBranch<'a>,
    /// What the bids buy.
    pub bids: ObjectBranch<'a>,
}

/// An object without members.
fn empty_json_object<'a>() -> ObjectBranch<'a>
    ensures { members_in result ≡ [] }
{
    ObjectBranch {
        bytes: &[],
        nodes: &[],
        count: 0,
    }
}

fn schedule_object_of_bids<'a>(members: &[Member<'a>], bids: usize) -> Option<ObjectBranch<'a>>
    ensures { option_map members_in result
        ≡ bids_in bids (value_under (codes "bids") (member_views members.now)) }
{
    match find_member(members, "bids") {
        Some(branch) => branch.object(),
        None => {
            if bids == 0 {
                Some(empty_json_object())
            } else {
                None
            }
        }
    }
}

/// The objects among the members of a schedule for a case with so many bids, where each is there.
#[tactic(auto, unfolding(crate::specs::Plans::groups_in))]
fn schedule_objects_by_unit_kind<'a>(members: &[Member<'a>], bids: usize) -> Option<Groups<'a>>
    ensures { option_map groups_of result ≡ groups_in bids (member_views members.now) }
{
    let thermal = object_under(members, "thermal");
    let renewable = object_under(members, "renewable");
    let bids = schedule_object_of_bids(members, bids);
    match (thermal, renewable, bids) {
        (Some(thermal), Some(renewable), Some(bids)) => Some(Groups {
            thermal,
            renewable,
            bids,
        }),
        _ => None,
    }
}

/// The objects of a schedule for a case with so many bids. `PlanShape`, at the file as a whole,
/// where it isn't an object that has them; without bids their object may be absent.
#[tactic(auto, unfolding(crate::specs::Plans::groups))]
pub(crate) fn read_schedule_objects_by_unit_kind<'a>(
    alloc: Global,
    root: Branch<'a>,
    bids: usize,
) -> Result<Groups<'a>, ShapeStop>
    ensures { Gives groups_of result (groups bids (view root.entry)) }
{
    let whole = ShapeSite {
        kind: Kind::Case,
        unit: 0,
    };
    let Some(object) = root.object() else {
        return Err(whole.stop(0, ShapeCode::PlanShape));
    };
    let members = object.members(alloc)?;
    match schedule_objects_by_unit_kind(&members, bids) {
        Some(groups) => Ok(groups),
        None => Err(whole.stop(0, ShapeCode::PlanShape)),
    }
}
