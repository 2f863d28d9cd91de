//! The numbers of a schedule.
ghost use Rattle.std.specs.Prelude.{◌≡◌, ◌≤◌, Option, IfOk, length};
ghost use Rattle.uc_model.specs.declared.limits.TheConstants.{MOST_PERIODS};
ghost use Rattle.uc_text.specs.Values.{Value};
ghost use Rattle.uc_text.specs.View.{view, views, items_in};
ghost use Rattle.uc_text.specs.Given.{Gives};
ghost use Rattle.uc_plan.specs.Plans.{kilowatts_of, kilowatts_in, flag_in, numbers};

use crate::fault::{ShapeCode, ShapeSite, ShapeStop};
use plain_lists::lists::ReservedList;
use std::alloc::Global;
use text_tokens::{Decimal, is_whole, whole};
use uc_model::limits::POWER_LIMIT;
use uc_text::inside::flag_of_number;
use uc_text::{Branch, ListBranch};

const MOST: u64 = POWER_LIMIT as u64;

/// A whole number from 0 to `POWER_LIMIT`.
fn whole_kilowatts(d: Decimal) -> Option<u32>
    ensures { result ≡ kilowatts_of d }
{
    if !is_whole(d) {
        return None;
    }
    let Ok(number) = whole(d, 0, MOST) else {
        return None;
    };
    if number < 0 {
        return None;
    }
    Some(number as u32)
}

/// An item of a list of a schedule.
pub trait Item: Sized {
    // What a value is, where it is such an item.
    ghost reading: { Value → Option Self };

    /// The item that a value is, if it is one.
    fn read(branch: Branch<'_>) -> Option<Self>
        ensures { result ≡ reading (view branch.entry) };
}

// Kilowatts.
impl Item for u32 {
    ghost reading = { kilowatts_in };

    fn read(branch: Branch<'_>) -> Option<u32> {
        match branch.number() {
            Some(d) => whole_kilowatts(d),
            None => None,
        }
    }
}

// A flag.
impl Item for bool {
    ghost reading = { flag_in };

    fn read(branch: Branch<'_>) -> Option<bool> {
        match branch.number() {
            Some(d) => flag_of_number(d),
            None => None,
        }
    }
}

/// What the branches are, item by item.
fn schedule_items_of_json_values<I: Item + Drop>(
    alloc: Global,
    at: ShapeSite,
    branches: &[Branch<'_>],
) -> Result<ReservedList<I>, ShapeStop>
    requires { length branches.now ≤ MOST_PERIODS }
    ensures count { IfOk result (λ ns. length ns.items ≡ length branches.now) }
    ensures value { Gives (λ ns. ns.items) result (numbers I.reading at (views branches.now)) }
{
    let mut list = ReservedList::make(alloc, branches.len() as u32)?;
    for branch in branches {
        let Some(item) = I::read(*branch) else {
            return Err(at.stop(list.len() as u32 + 1, ShapeCode::PlanNumber));
        };
        list.push(item);
    }
    Ok(list)
}

/// The items of a list. `PlanNumber` at the first that isn't one: kilowatts are a whole number from
/// 0 to `POWER_LIMIT`, and a flag is 0 or 1.
pub fn read_schedule_items<I: Item + Drop>(
    alloc: Global,
    at: ShapeSite,
    list: ListBranch<'_>,
) -> Result<ReservedList<I>, ShapeStop>
    requires { length (items_in list) ≤ MOST_PERIODS }
    ensures count { IfOk result (λ ns. length ns.items ≡ length (items_in list.entry)) }
    ensures value { Gives (λ ns. ns.items) result
        (numbers I.reading at (items_in list.entry)) }
{
    let branches = list.items(alloc)?;
    schedule_items_of_json_values(alloc, at, &branches)
}
