//! Lists whose items are read one behind the other.
ghost use Rattle.std.specs.Prelude.{◌≡◌, ◌≤◌, [], ◌∷◌, ◌++◌, List, IfOk, length};
ghost use Rattle.uc_model.specs.declared.limits.TheConstants.{MOST_OF_A_KIND};
ghost use Rattle.uc_text.specs.Values.{Value};
ghost use Rattle.uc_text.specs.View.{view, views, items_in};
ghost use Rattle.uc_text.specs.Given.{Gives};
ghost use Rattle.uc_text.specs.Words.{each};
ghost use Rattle.uc_field.specs.Forms.{Read, few};
ghost use Rattle.uc_field.specs.declared.fault.Site.{Site as PlainSite};

use crate::fault::{CaseCode, Site};
use crate::forms::FieldStop;
use plain_lists::lists::ReservedList;
use std::alloc::Global;
use uc_text::{Branch, ListBranch};

/// An item of a list, whose tests may look at the items before it.
pub trait Item: Sized {
    // What the tests of an item give, in a list at a site, behind other items.
    ghost reading: { PlainSite → List Self → Value → Read Self };

    // What the items of a list keep.
    ghost Keeps: { List Self → Type 0 };

    /// Reads an item of the list at a site, behind these items.
    fn read(alloc: Global, at: Site, before: &[Self], branch: Branch<'_>) -> Result<Self, FieldStop>
        requires { length before.now ≤ MOST_OF_A_KIND }
        ensures fits { Keeps before.now → IfOk result (λ x. Keeps (before.now ++ x ∷ [])) }
        ensures value { Gives (λ x. x) result (reading at before.now (view branch.entry)) };
}

/// Adds the items of a list to one that is empty and has room for them.
fn read_items_into<I: Item + Drop>(
    alloc: Global,
    at: Site,
    branches: &[Branch<'_>],
    list: &mut ReservedList<I>,
) -> Result<(), FieldStop>
    requires few { length branches.now ≤ MOST_OF_A_KIND }
    requires empty { list.old.items ≡ [] }
    requires room { length branches.now ≤ list.old.spare }
    requires none { I.Keeps [] }
    ensures count { IfOk result (λ _. length list.new.items ≡ length branches.now) }
    ensures fits { IfOk result (λ _. I.Keeps list.new.items) }
    ensures value { Gives (λ _. list.new.items) result
        (each (I.reading at) [] (views branches.now)) }
{
    for branch in branches {
        let item = I::read(alloc, at, list.as_slice(), *branch)?;
        list.push(item);
    }
    Ok(())
}

fn read_json_values_as_items<I: Item + Drop>(
    alloc: Global,
    at: Site,
    branches: &[Branch<'_>],
) -> Result<ReservedList<I>, FieldStop>
    requires few { length branches.now ≤ MOST_OF_A_KIND }
    requires none { I.Keeps [] }
    ensures count { IfOk result (λ l. length l.items ≡ length branches.now) }
    ensures fits { IfOk result (λ l. I.Keeps l.items) }
    ensures value { Gives (λ l. l.items) result (each (I.reading at) [] (views branches.now)) }
{
    let mut list = ReservedList::make(alloc, branches.len() as u32)?;
    read_items_into(alloc, at, branches, &mut list)?;
    Ok(list)
}

/// The items of a list, or the fault of the first item that has one.
pub fn read_items<I: Item + Drop>(
    alloc: Global,
    at: Site,
    list: ListBranch<'_>,
) -> Result<ReservedList<I>, FieldStop>
    requires few { length (items_in list) ≤ MOST_OF_A_KIND }
    requires none { I.Keeps [] }
    ensures count { IfOk result (λ l. length l.items ≡ length (items_in list.entry)) }
    ensures fits { IfOk result (λ l. I.Keeps l.items) }
    ensures value { Gives (λ l. l.items) result (each (I.reading at) [] (items_in list.entry)) }
{
    let branches = list.items(alloc)?;
    read_json_values_as_items(alloc, at, &branches)
}

/// The items of a list of at most so many; `TooLarge` where it has more.
#[tactic(auto, unfolding(crate::specs::Forms::few))]
pub fn read_items_up_to<I: Item + Drop>(
    alloc: Global,
    at: Site,
    branch: Branch<'_>,
    most: usize,
) -> Result<ReservedList<I>, FieldStop>
    requires few { most ≤ MOST_OF_A_KIND }
    requires none { I.Keeps [] }
    ensures count { IfOk result (λ l. length l.items ≤ most) }
    ensures fits { IfOk result (λ l. I.Keeps l.items) }
    ensures value { Gives (λ l. l.items) result (few I.reading most at (view branch.entry)) }
{
    let Some(list) = branch.list() else {
        return Err(at.stop(CaseCode::WrongKind));
    };
    if list.len() > most {
        return Err(at.stop(CaseCode::TooLarge));
    }
    read_items(alloc, at, list)
}
