//! The entries of all thermal units of a case.
ghost use Rattle.std.specs.Prelude.{◌≡◌, ◌≤◌, ℕ, List, IfOk, length, map};
ghost use Rattle.std.specs.List.{All};
ghost use Rattle.std.specs.Option.{option_map};
ghost use Rattle.indexmap.specs.IndexMap.{get_by_text};
ghost use Rattle.gap_proof.specs.Mixtures.{WeighedSchedule, entries_of, AreEntries};
ghost use Rattle.uc_text.specs.Pairs.{Pair};
ghost use Rattle.uc_text.specs.View.{view, members_in};
ghost use Rattle.uc_text.specs.Given.{Gives};
ghost use Rattle.uc_text.specs.Inside.{value_under};
ghost use Rattle.uc_model.specs.declared.limits.TheConstants.{MOST_OF_A_KIND};
ghost use Rattle.uc_mixture.specs.Kept.{IsFrame};
ghost use Rattle.uc_mixture.specs.Tables.{named, units as units_spec};
ghost use Rattle.uc_mixture.specs.Views.{names_of};

use crate::entries::{Frame, read_unit};
use crate::fault::{ShareCode, ShareSite, ShareStop};
use gap_proof::{Entries, EntryLists};
use std::alloc::Global;
use uc_model::units::NamedUnit;
use uc_plan::fault::ShapeCode;
use uc_plan::lookup::{Values, values_of_object_by_key};
use uc_text::{Branch, ObjectBranch};

#[tactic(auto, unfolding(crate::specs::Tables::named))]
fn read_mixture_of_named_unit(
    alloc: Global,
    values: &Values<'_>,
    at: ShareSite,
    name: &str,
    frame: Frame,
) -> Result<Entries, ShareStop>
    requires { IsFrame frame }
    ensures fits { IfOk result (λ l. AreEntries frame.periods frame.whole (entries_of l)) }
    ensures value { (ms : List Pair)
        → ((q : List ℕ) → option_map view (get_by_text values.now.by_key q) ≡ value_under q ms)
        → Gives entries_of result (named frame ms at name.now) }
{
    match values.by_key.get(name) {
        Some(branch) => read_unit(alloc, at, frame, *branch),
        None => Err(at.stop(ShareCode::Shape(ShapeCode::MissingUnit))),
    }
}

/// The entries of each unit, which stand in the object under its name; the fault is that of the
/// first unit that has one.
pub fn read_units(
    alloc: Global,
    object: ObjectBranch<'_>,
    units: &[NamedUnit],
    frame: Frame,
) -> Result<EntryLists, ShareStop>
    requires few { length units.now ≤ MOST_OF_A_KIND }
    requires frame { IsFrame frame }
    ensures count { IfOk result (λ l. length l.items ≡ length units.now) }
    ensures fits { IfOk result (λ l. All (λ (es : List WeighedSchedule).
        AreEntries frame.periods frame.whole es) (map entries_of l.items)) }
    ensures value { Gives (λ l. map entries_of l.items) result
        (units_spec frame (members_in object.entry)
        (names_of units.now)) }
{
    let values = values_of_object_by_key(alloc, object)?;
    let mut lists = EntryLists::make(alloc, units.len() as u32)?;
    for unit in units {
        let at = ShareSite::fault_site_of_thermal_unit(lists.len() as u32 + 1);
        let entries = read_mixture_of_named_unit(alloc, &values, at, unit.name.as_str(), frame)?;
        lists.push(entries);
    }
    Ok(lists)
}
