//! The lists of a prices file.
ghost use Rattle.std.specs.Prelude.{◌≡◌, ◌≤◌, IfOk, length, codes};
ghost use Rattle.std.specs.List.{All};
ghost use Rattle.uc_model.specs.PlainUnits.{prices_of};
ghost use Rattle.uc_model.specs.declared.limits.TheConstants.{MOST_PERIODS};
ghost use Rattle.uc_text.specs.View.{view, member_views};
ghost use Rattle.uc_text.specs.Given.{Gives};
ghost use Rattle.uc_text.specs.Inside.{value_under};
ghost use Rattle.uc_prices.specs.Kept.{IsPriceOf};
ghost use Rattle.uc_prices.specs.Tables.{list, energy, reserve, prices_in};

use crate::entries::read_entries;
use crate::fault::{PriceCode, PriceField, PriceSite, PriceStop};
use plain_lists::lists::Numbers;
use std::alloc::Global;
use uc_model::units::Prices;
use uc_text::inside::find_member;
use uc_text::{Branch, Member};

/// The prices of a list, one for each period. It is tried in the order `WrongKind`, `WrongLength`,
/// and then item by item.
#[tactic(auto, unfolding(crate::specs::Tables::list))]
fn read_price_list(
    alloc: Global,
    field: PriceField,
    branch: Branch<'_>,
    periods: u32,
) -> Result<Numbers, PriceStop>
    requires { periods ≤ MOST_PERIODS }
    ensures count { IfOk result (λ ns. length ns.items ≡ periods) }
    ensures fits { IfOk result (λ ns. All (IsPriceOf field) ns.items) }
    ensures value { Gives (λ ns. ns.items) result (list periods field (view branch.entry)) }
{
    let at = PriceSite { field, item: 0 };
    let Some(list) = branch.list() else {
        return Err(at.stop(PriceCode::WrongKind));
    };
    if list.len() != periods as usize {
        return Err(at.stop(PriceCode::WrongLength));
    }
    let branches = list.items(alloc)?;
    read_entries(alloc, at, &branches)
}

/// The energy prices, which must be there.
#[tactic(auto, unfolding(crate::specs::Tables::energy))]
fn read_energy(alloc: Global, members: &[Member<'_>], periods: u32) -> Result<Numbers, PriceStop>
    requires { periods ≤ MOST_PERIODS }
    ensures count { IfOk result (λ ns. length ns.items ≡ periods) }
    ensures fits { IfOk result (λ ns. All (IsPriceOf PriceField.Energy) ns.items) }
    ensures value { Gives (λ ns. ns.items) result
        (energy periods (value_under (codes "energy") (member_views members.now))) }
{
    let field = PriceField::Energy;
    match find_member(members, field.key()) {
        Some(branch) => read_price_list(alloc, field, branch, periods),
        None => Err(PriceSite { field, item: 0 }.stop(PriceCode::Missing)),
    }
}

/// The reserve prices: all 0 where they aren't there.
#[tactic(auto, unfolding(crate::specs::Tables::reserve))]
fn read_reserve(alloc: Global, members: &[Member<'_>], periods: u32) -> Result<Numbers, PriceStop>
    requires { periods ≤ MOST_PERIODS }
    ensures count { IfOk result (λ ns. length ns.items ≡ periods) }
    ensures fits { IfOk result (λ ns. All (IsPriceOf PriceField.Reserve) ns.items) }
    ensures value { Gives (λ ns. ns.items) result
        (reserve periods (value_under (codes "reserve") (member_views members.now))) }
{
    let field = PriceField::Reserve;
    match find_member(members, field.key()) {
        Some(branch) => read_price_list(alloc, field, branch, periods),
        None => Ok(Numbers::filled(alloc, periods, 0)?),
    }
}

/// The prices of a tree's root, or the fault of the first test that fails.
#[tactic(auto, unfolding(crate::specs::Tables::prices_in))]
pub fn prices_of_json_tree(
    alloc: Global,
    root: Branch<'_>,
    periods: u32,
) -> Result<Prices, PriceStop>
    requires some { 1 ≤ periods }
    requires horizon { periods ≤ MOST_PERIODS }
    ensures count { IfOk result (λ p. length (prices_of p).energy ≡ periods) }
    ensures value { Gives prices_of result (prices_in periods (view root.entry)) }
{
    let Some(object) = root.object() else {
        let whole = PriceSite {
            field: PriceField::Whole,
            item: 0,
        };
        return Err(whole.stop(PriceCode::WrongKind));
    };
    let members = object.members(alloc)?;
    let energy = read_energy(alloc, &members, periods)?;
    let reserve = read_reserve(alloc, &members, periods)?;
    Ok(Prices { energy, reserve })
}
