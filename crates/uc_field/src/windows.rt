//! The commitment window of a unit.
ghost use Rattle.std.specs.Prelude.{◌≡◌, ◌≤◌, length, IfOk};
ghost use Rattle.uc_model.specs.declared.limits.TheConstants.{MOST_PERIODS};
ghost use Rattle.uc_text.specs.Values.{scalar, number as number_spec};
ghost use Rattle.uc_text.specs.View.{view, member_views};
ghost use Rattle.uc_text.specs.Given.{Gives};
ghost use Rattle.uc_field.specs.Forms.{keys, key_or_none, at_item};
ghost use Rattle.uc_field.specs.Lists.{mark, mark_in, window, commitment};

use crate::fault::{CaseCode, Field, Site};
use crate::forms::FieldStop;
use crate::items::{Item, read_items};
use crate::keys::Keys;
use std::alloc::Global;
use text_tokens::Decimal;
use uc_model::units::{Mark, Marks};
use uc_text::Branch;
use uc_text::inside::flag_of_number;

/// The mark of a period that the number 1 keeps on and the number 0 off.
fn commitment_mark_of_number(number: Decimal) -> Option<Mark>
    ensures { result ≡ mark_in (scalar (number_spec number)) }
{
    match flag_of_number(number) {
        Some(true) => Some(Mark::MustOn),
        Some(false) => Some(Mark::MustOff),
        None => None,
    }
}

fn commitment_mark_of_value(branch: Branch<'_>) -> Option<Mark>
    ensures { result ≡ mark_in (view branch.entry) }
{
    if branch.is_null() {
        return Some(Mark::Free);
    }
    commitment_mark_of_number(branch.number()?)
}

impl Item for Mark {
    ghost reading = { at_item mark };

    ghost Keeps = { λ _. Unit {0} };

    fn read(
        _alloc: Global,
        at: Site,
        before: &[Mark],
        branch: Branch<'_>,
    ) -> Result<Mark, FieldStop> {
        match commitment_mark_of_value(branch) {
            Some(mark) => Ok(mark),
            None => Err(at.item(before.len() as u32 + 1).stop(CaseCode::WindowShape)),
        }
    }
}

/// The marks of a window; `WindowShape` where the value is no list of an item for each period.
#[tactic(auto, unfolding(crate::specs::Lists::window, crate::specs::Lists::window_items))]
fn read_commitment_marks(
    alloc: Global,
    at: Site,
    branch: Branch<'_>,
    periods: u32,
) -> Result<Marks, FieldStop>
    requires { periods ≤ MOST_PERIODS }
    ensures count { IfOk result (λ ms. length ms.items ≡ periods) }
    ensures value { Gives (λ ms. ms.items) result (window periods at (view branch.entry)) }
{
    let Some(list) = branch.list() else {
        return Err(at.stop(CaseCode::WindowShape));
    };
    if list.len() != periods as usize {
        return Err(at.stop(CaseCode::WindowShape));
    }
    read_items::<Mark>(alloc, at, list)
}

/// The commitment window of a unit, a mark for each period, and all of them free where it has none.
/// `WindowShape` for anything but a list of null, 0 and 1 for the periods.
#[tactic(auto, unfolding(crate::specs::Lists::commitment))]
pub fn read_commitment(alloc: Global, u: &Keys, periods: u32) -> Result<Marks, FieldStop>
    requires { periods ≤ MOST_PERIODS }
    ensures count { IfOk result (λ ms. length ms.items ≡ periods) }
    ensures value { Gives (λ ms. ms.items) result
        (key_or_none (keys u.now.at (member_views u.now.members.items)) Field.Commitment
        (commitment periods)) }
{
    match u.find(Field::Commitment) {
        Some(branch) => read_commitment_marks(
            alloc,
            u.at.field(Field::Commitment),
            branch,
            periods,
        ),
        None => Ok(Marks::filled(alloc, periods, Mark::Free)?),
    }
}
