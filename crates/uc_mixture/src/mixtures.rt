//! The mixture of a tree.
ghost use Rattle.std.specs.Prelude.{◌≡◌, IfOk, pos};
ghost use Rattle.std.specs.Option.{option_map};
ghost use Rattle.gap_proof.specs.Mixtures.{mixture_of, HasMixtureShape, most_whole};
ghost use Rattle.plain_lists.specs.Ranges.{IsFrom};
ghost use Rattle.uc_text.specs.View.{view, member_views, members_in};
ghost use Rattle.uc_text.specs.Given.{Gives};
ghost use Rattle.uc_model.specs.PlainCases.{market_of};
ghost use Rattle.uc_model.specs.declared.kinds.Kind.TheVariants as kinds;
ghost use Rattle.uc_plan.specs.Plans.{all_known};
ghost use Rattle.uc_mixture.specs.Faults.{within};
ghost use Rattle.uc_mixture.specs.Tables.{head_parts as head_parts_spec, head, mixture_in};
ghost use Rattle.uc_mixture.specs.Views.{head_of, names_of};

use crate::entries::Frame;
use crate::fault::{ShareCode, ShareSite, ShareStop};
use crate::units::read_units;
use crate::weights::weight_of_json_value;
use gap_proof::Mixture;
use std::alloc::Global;
use uc_model::cases::Case;
use uc_model::kinds::Kind;
use uc_model::units::NamedUnit;
use uc_plan::fault::ShapeCode;
use uc_plan::plans::check_names;
use uc_plan::shapes::object_under;
use uc_text::inside::find_member;
use uc_text::{Branch, Member, ObjectBranch};

/// The greatest weight of a mixture.
const MOST_WHOLE: i64 = 1_000_000_000_000;

/// What a mixture's file has: its whole, and the entries of the units by name.
#[derive(Clone, Copy)]
struct Head<'a> {
    whole: i64,
    thermal: ObjectBranch<'a>,
}

/// The weight and the units of a mixture, where each is among its members.
fn weight_and_units_of_mixture<'a>(members: &[Member<'a>]) -> Option<(Branch<'a>, ObjectBranch<'a>)>
    ensures { option_map (λ p. (view p.0, members_in p.1)) result
        ≡ head_parts_spec (member_views members.now) }
{
    match (
        find_member(members, "weight"),
        object_under(members, "thermal"),
    ) {
        (Some(heavy), Some(thermal)) => Some((heavy, thermal)),
        _ => None,
    }
}

/// `PlanShape`, at the file as a whole, where the value isn't an object with a weight and an object
/// of units, and then `Weight` where the weight isn't a whole number from 1 to `MOST_WHOLE`.
#[tactic(auto, unfolding(crate::specs::Tables::head))]
fn read_weight_and_units_of_mixture<'a>(
    alloc: Global,
    root: Branch<'a>,
) -> Result<Head<'a>, ShareStop>
    ensures whole { IfOk result (λ h. IsFrom (pos 1) most_whole h.whole) }
    ensures value { Gives head_of result (head (view root.entry)) }
{
    let at = ShareSite::fault_site_of_file();
    let shape = ShareCode::Shape(ShapeCode::PlanShape);
    let Some(object) = root.object() else {
        return Err(at.stop(shape));
    };
    let members = object.members(alloc)?;
    let Some((heavy, thermal)) = weight_and_units_of_mixture(&members) else {
        return Err(at.stop(shape));
    };
    match weight_of_json_value(heavy, 1, MOST_WHOLE) {
        Some(whole) => Ok(Head { whole, thermal }),
        None => Err(at.stop(ShareCode::Weight)),
    }
}

/// Refuses the first member whose name isn't that of a thermal unit of the case.
fn check_unit_names_of_mixture(
    alloc: Global,
    object: ObjectBranch<'_>,
    units: &[NamedUnit],
) -> Result<(), ShareStop>
    ensures { Gives (λ _. tt) result (within 0 (all_known kinds.Thermal
        (names_of units.now) (members_in object.entry))) }
{
    match check_names(alloc, Kind::Thermal, object, units) {
        Ok(()) => Ok(()),
        Err(stop) => Err(ShareSite::fault_site_of_file().within(stop)),
    }
}

/// The mixture of a tree's root, or the fault of the first test that fails.
#[tactic(auto, unfolding(crate::specs::Tables::mixture_in))]
pub fn mixture_of_json_tree(
    alloc: Global,
    case: &Case,
    root: Branch<'_>,
) -> Result<Mixture, ShareStop>
    ensures shape { IfOk result (λ x. HasMixtureShape (market_of case.now) (mixture_of x)) }
    ensures value { Gives mixture_of result (mixture_in (market_of case.now) (view root.entry)) }
{
    let head = read_weight_and_units_of_mixture(alloc, root)?;
    let units = case.thermal.as_slice();
    check_unit_names_of_mixture(alloc, head.thermal, units)?;
    let frame = Frame {
        periods: case.periods,
        whole: head.whole,
    };
    let thermal = read_units(alloc, head.thermal, units, frame)?;
    Ok(Mixture {
        weight: head.whole,
        thermal,
    })
}
