//! The forms of fields: each reads one value, and its faults are at the site. What kind a value is, and
//! whether a key is there, is tested where it is read: a number handed on by a call of its own would be
//! copied once more.
ghost use Rattle.std.specs.Prelude.{◌≡◌, ◌≤◌, ◌^◌, IfOk, length, pos};
ghost use Rattle.plain_lists.specs.Ranges.{IsFrom};
ghost use Rattle.uc_model.specs.Limits.{IsCost};
ghost use Rattle.uc_model.specs.declared.limits.TheConstants.{MOST_TIME};
ghost use Rattle.uc_text.specs.View.{view, items_in, members_in, member_views};
ghost use Rattle.uc_text.specs.Given.{Gives};
ghost use Rattle.uc_field.specs.Sites.{fault};
ghost use Rattle.uc_field.specs.Forms.{full, object, amount, power, cost};
ghost use Rattle.uc_field.specs.Forms.{time_within, flag, under, part};
ghost use Rattle.uc_text.specs.declared.stop.Stop.TheVariants as stops;

use crate::fault::{CaseCode, FieldFault, Site};
use crate::limits::COST;
use std::alloc::Global;
use text_tokens::{is_whole, whole};
use uc_text::inside::{find_member, flag_of_number};
use uc_text::stop::Stop;
use uc_text::{Branch, ListBranch, Member, ObjectBranch};

/// Why the reading of a case stops.
pub type FieldStop = Stop<FieldFault>;

impl Site {
    /// The stop at a test that failed here.
    pub fn stop(self, code: CaseCode) -> FieldStop
        ensures { result ≡ stops.Fault (fault self code) }
    {
        Stop::Fault(self.fault(code))
    }
}

/// The object that a value is; `WrongKind` where it is none. It takes no memory.
pub fn object_of(at: Site, branch: Branch<'_>) -> Result<ObjectBranch<'_>, FieldStop>
    ensures { Gives members_in result (object at (view branch.entry)) }
{
    match branch.object() {
        Some(object) => Ok(object),
        None => Err(at.stop(CaseCode::WrongKind)),
    }
}

/// The list of an item for each period that a value is; `WrongKind` where it is none, and
/// `WrongLength` where it has more items or fewer. It takes no memory.
#[tactic(auto, unfolding(crate::specs::Forms::full))]
pub fn list_with_item_per_period(
    at: Site,
    branch: Branch<'_>,
    periods: u32,
) -> Result<ListBranch<'_>, FieldStop>
    ensures count { IfOk result (λ l. length (items_in l) ≡ periods) }
    ensures value { Gives items_in result (full periods at (view branch.entry)) }
{
    let Some(list) = branch.list() else {
        return Err(at.stop(CaseCode::WrongKind));
    };
    if list.len() != periods as usize {
        return Err(at.stop(CaseCode::WrongLength));
    }
    Ok(list)
}

/// The members of an object, in file order; `WrongKind` where the value is none.
pub fn members_of<'a>(
    alloc: Global,
    at: Site,
    branch: Branch<'a>,
) -> Result<Vec<Member<'a>>, FieldStop>
    ensures { Gives (λ ms. member_views ms.items) result (object at (view branch.entry)) }
{
    match branch.object() {
        Some(object) => Ok(object.members(alloc)?),
        None => Err(at.stop(CaseCode::WrongKind)),
    }
}

/// A number at a scale, from 0 to the limit. It is tried in the order `WrongKind`, `TooLarge` in
/// magnitude, `Negative`.
#[tactic(auto, unfolding(crate::specs::Forms::amount), using(crate::proofs::Fits::not_above))]
pub(crate) fn read_amount(
    at: Site,
    branch: Branch<'_>,
    scale: u32,
    limit: u64,
) -> Result<i64, FieldStop>
    requires scale { scale ≤ 6 }
    requires limit { limit ≤ 10 ^ 18 }
    ensures bound { IfOk result (λ n. IsFrom (pos 0) (pos limit) n) }
    ensures value { Gives (λ n. n) result (amount scale limit at (view branch.entry)) }
{
    let Some(d) = branch.number() else {
        return Err(at.stop(CaseCode::WrongKind));
    };
    let Ok(amount) = whole(d, scale, limit) else {
        return Err(at.stop(CaseCode::TooLarge));
    };
    if amount < 0 {
        return Err(at.stop(CaseCode::Negative));
    }
    Ok(amount)
}

/// Kilowatts, from megawatts: from 0 to the limit, tried as `read_amount` does.
pub(crate) fn read_power(at: Site, branch: Branch<'_>, limit: u64) -> Result<i64, FieldStop>
    requires { limit ≤ 10 ^ 18 }
    ensures bound { IfOk result (λ n. IsFrom (pos 0) (pos limit) n) }
    ensures value { Gives (λ n. n) result (power limit at (view branch.entry)) }
{
    read_amount(at, branch, 3, limit)
}

/// Money of a point of a curve, in millionths of the currency, which may be below 0. It is tried in
/// the order `WrongKind`, `TooLarge`.
#[tactic(auto, unfolding(crate::specs::Forms::cost), using(crate::proofs::Fits::within))]
pub(crate) fn read_cost(at: Site, branch: Branch<'_>) -> Result<i64, FieldStop>
    ensures bound { IfOk result (λ n. IsCost n) }
    ensures value { Gives (λ n. n) result (cost at (view branch.entry)) }
{
    let Some(d) = branch.number() else {
        return Err(at.stop(CaseCode::WrongKind));
    };
    match whole(d, 6, COST) {
        Ok(cost) => Ok(cost),
        Err(_) => Err(at.stop(CaseCode::TooLarge)),
    }
}

/// A number of periods, from 0 to the limit. It is tried in the order `WrongKind`, `NotWhole`,
/// `TooLarge` in magnitude, `Negative`.
#[tactic(auto, unfolding(crate::specs::Forms::time_within))]
pub(crate) fn read_period_count(at: Site, branch: Branch<'_>, limit: u64) -> Result<u32, FieldStop>
    requires { limit ≤ MOST_TIME }
    ensures bound { IfOk result (λ n. n ≤ limit) }
    ensures value { Gives (λ n. n) result (time_within limit at (view branch.entry)) }
{
    let Some(d) = branch.number() else {
        return Err(at.stop(CaseCode::WrongKind));
    };
    if !is_whole(d) {
        return Err(at.stop(CaseCode::NotWhole));
    }
    let Ok(time) = whole(d, 0, limit) else {
        return Err(at.stop(CaseCode::TooLarge));
    };
    if time < 0 {
        return Err(at.stop(CaseCode::Negative));
    }
    Ok(time as u32)
}

/// A flag, 0 or 1. It is tried in the order `WrongKind`, `NotWhole`, `NotFlag`.
#[tactic(auto, unfolding(crate::specs::Forms::flag))]
pub(crate) fn read_flag(at: Site, branch: Branch<'_>) -> Result<bool, FieldStop>
    ensures { Gives (λ b. b) result (flag at (view branch.entry)) }
{
    let Some(d) = branch.number() else {
        return Err(at.stop(CaseCode::WrongKind));
    };
    if !is_whole(d) {
        return Err(at.stop(CaseCode::NotWhole));
    }
    match flag_of_number(d) {
        Some(flag) => Ok(flag),
        None => Err(at.stop(CaseCode::NotFlag)),
    }
}

/// The value under a key; `Missing` where it isn't there.
pub fn value_under<'a>(at: Site, members: &[Member<'a>], key: &str) -> Result<Branch<'a>, FieldStop>
    ensures { Gives view result (under at key.now (member_views members.now)) }
{
    match find_member(members, key) {
        Some(value) => Ok(value),
        None => Err(at.stop(CaseCode::Missing)),
    }
}

/// The number under a key, which must be there, read as `read_amount` does.
pub(crate) fn amount_under(
    at: Site,
    members: &[Member<'_>],
    key: &str,
    scale: u32,
    limit: u64,
) -> Result<i64, FieldStop>
    requires scale { scale ≤ 6 }
    requires limit { limit ≤ 10 ^ 18 }
    ensures bound { IfOk result (λ n. IsFrom (pos 0) (pos limit) n) }
    ensures value { Gives (λ n. n) result
        (part at key.now (amount scale limit) (member_views members.now)) }
{
    match find_member(members, key) {
        Some(value) => read_amount(at, value, scale, limit),
        None => Err(at.stop(CaseCode::Missing)),
    }
}

/// The periods under a key, which must be there, read as `read_period_count` does.
pub(crate) fn period_count_under(
    at: Site,
    members: &[Member<'_>],
    key: &str,
    limit: u64,
) -> Result<u32, FieldStop>
    requires { limit ≤ MOST_TIME }
    ensures bound { IfOk result (λ n. n ≤ limit) }
    ensures value { Gives (λ n. n) result
        (part at key.now (time_within limit) (member_views members.now)) }
{
    match find_member(members, key) {
        Some(value) => read_period_count(at, value, limit),
        None => Err(at.stop(CaseCode::Missing)),
    }
}

/// The money under a key, which must be there, read as `read_cost` does.
pub(crate) fn cost_under(at: Site, members: &[Member<'_>], key: &str) -> Result<i64, FieldStop>
    ensures bound { IfOk result (λ n. IsCost n) }
    ensures value { Gives (λ n. n) result (part at key.now cost (member_views members.now)) }
{
    match find_member(members, key) {
        Some(value) => read_cost(at, value),
        None => Err(at.stop(CaseCode::Missing)),
    }
}
