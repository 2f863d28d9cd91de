//! Look-ups by name, each in a map that is made once.
ghost use Rattle.std.specs.Prelude.{◌≡◌, ℕ, List, IfOk, OnOk, Some, None, map, bytes_eq};
ghost use Rattle.std.specs.Prelude.{if◌then◌else◌};
ghost use Rattle.std.specs.Option.{option_map};
ghost use Rattle.indexmap.specs.IndexMap.{get_by_text};
ghost use Rattle.indexmap.specs.IndexSet.{contains_by};
ghost use Rattle.uc_text.specs.View.{view, member_view, member_views, members_in};
ghost use Rattle.uc_text.specs.Inside.{value_under};
ghost use Rattle.uc_plan.specs.Plans.{is_among, first_unknown};

use crate::named::Named;
use indexmap::{IndexMap, IndexSet};
use std::alloc::{AllocError, Global};
use text_tokens::decode_quoted_string;
use uc_text::{Branch, Member, ObjectBranch};

/// The values of an object.
pub struct Values<'a> {
    /// Each under its key: of two with one key the first.
    pub by_key: IndexMap<String, Branch<'a>>,
}

// By hand, so that dropping it is one call.
impl Drop for Values<'_> {
    fn drop(self) {
        let Values { by_key: _ } = self;
    }
}

/// The names of units.
struct Names<'a> {
    set: IndexSet<&'a str>,
}

// By hand, so that dropping it is one call.
impl Drop for Names<'_> {
    fn drop(self) {
        let Names { set: _ } = self;
    }
}

impl<'a> Values<'a> {
    /// Puts a member in, over one with its key.
    fn put(&mut self, alloc: Global, member: Member<'a>) -> Result<(), AllocError>
        ensures { OnOk result ((q : List ℕ) → get_by_text self.new.by_key q
            ≡ (if bytes_eq (member_view member.entry).name q then Some member.entry.value
            else get_by_text self.old.by_key q)) }
    {
        let name = decode_quoted_string(alloc, member.name)?;
        self.by_key.insert(name, member.value)?;
        Ok(())
    }

    /// Puts members into an empty map, the last one first, so that the first of equal keys stays.
    fn fill(&mut self, alloc: Global, members: &[Member<'a>]) -> Result<(), AllocError>
        requires { (q : List ℕ) → get_by_text self.old.by_key q ≡ None }
        ensures { OnOk result ((q : List ℕ)
            → option_map view (get_by_text self.new.by_key q)
            ≡ value_under q (member_views members.now)) }
    {
        for done in 0..members.len() {
            let member = members[members.len() - 1 - done];
            self.put(alloc, member)?;
        }
        Ok(())
    }
}

/// The members of an object by their keys.
fn values_by_key<'a>(alloc: Global, members: &[Member<'a>]) -> Result<Values<'a>, AllocError>
    ensures { IfOk result (λ v. (q : List ℕ)
        → option_map view (get_by_text v.by_key q) ≡ value_under q (member_views members.now)) }
{
    let by_key = IndexMap::with_capacity(alloc, members.len())?;
    let mut values = Values { by_key };
    values.fill(alloc, members)?;
    Ok(values)
}

fn names_of<'a, N: Named>(alloc: Global, units: &'a [N]) -> Result<Names<'a>, AllocError>
    ensures { IfOk result (λ s. (q : List ℕ)
        → contains_by (λ k. bytes_eq q k.now) s.set ≡ is_among q (map N.name_of units.now)) }
{
    let set = IndexSet::with_capacity(alloc, units.len())?;
    let mut names = Names { set };
    for done in 0..units.len() {
        let unit = &units[units.len() - 1 - done];
        names.set.insert(unit.name())?;
    }
    Ok(names)
}

/// The position of the first member whose key isn't one of the names, or 0.
fn first_unknown_name(
    alloc: Global,
    names: &Names<'_>,
    known: &[Member<'_>],
) -> Result<usize, AllocError>
    ensures { IfOk result (λ k. (ns : List (List ℕ))
        → ((q : List ℕ) → contains_by (λ k. bytes_eq q k.now) names.now.set ≡ is_among q ns)
        → k ≡ first_unknown ns 1 (member_views known.now)) }
{
    let mut position = 0;
    for member in known {
        position += 1;
        let name = decode_quoted_string(alloc, member.name)?;
        if !names.set.contains(name.as_str()) {
            return Ok(position);
        }
    }
    Ok(0)
}

/// The position of the first member of an object whose key isn't the name of a unit, or 0.
pub(crate) fn first_unknown_member<N: Named>(
    alloc: Global,
    object: ObjectBranch<'_>,
    units: &[N],
) -> Result<usize, AllocError>
    ensures { IfOk result
        (λ k. k ≡ first_unknown (map N.name_of units.now) 1 (members_in object.entry)) }
{
    let names = names_of(alloc, units)?;
    let members = object.members(alloc)?;
    first_unknown_name(alloc, &names, &members)
}

/// The values of an object.
pub fn values_of_object_by_key<'a>(
    alloc: Global,
    object: ObjectBranch<'a>,
) -> Result<Values<'a>, AllocError>
    ensures { IfOk result (λ v. (q : List ℕ)
        → option_map view (get_by_text v.by_key q) ≡ value_under q (members_in object.entry)) }
{
    let members = object.members(alloc)?;
    values_by_key(alloc, &members)
}
