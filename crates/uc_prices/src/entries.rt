//! The prices of one list, item by item.
ghost use Rattle.std.specs.Prelude.{◌≡◌, ◌≤◌, IfOk, length};
ghost use Rattle.std.specs.List.{All};
ghost use Rattle.uc_model.specs.declared.limits.TheConstants.{MOST_PERIODS};
ghost use Rattle.uc_text.specs.View.{view, views};
ghost use Rattle.uc_text.specs.Given.{Gives};
ghost use Rattle.uc_prices.specs.Kept.{IsPriceOf};
ghost use Rattle.uc_prices.specs.Tables.{price, prices, is_reserve as is_reserve_spec};

use crate::fault::{PriceCode, PriceField, PriceSite, PriceStop};
use plain_lists::lists::Numbers;
use std::alloc::Global;
use text_tokens::whole;
use uc_model::limits::PRICE_LIMIT;
use uc_text::Branch;

const MOST: u64 = PRICE_LIMIT as u64;

fn is_reserve(field: PriceField) -> bool
    ensures { result ≡ is_reserve_spec field }
{
    match field {
        PriceField::Reserve => true,
        PriceField::Energy => false,
        PriceField::Whole => false,
    }
}

/// A price in money for a kilowatt and period, from currency for a megawatt and period. It is tried
/// in the order `WrongKind`, `TooLarge`, and of the reserve `Negative`.
#[tactic(auto, unfolding(crate::specs::Tables::price), using(crate::proofs::Fits::is_price))]
fn read_price(at: PriceSite, branch: Branch<'_>) -> Result<i64, PriceStop>
    ensures bound { IfOk result (λ n. IsPriceOf at.field n) }
    ensures value { Gives (λ n. n) result (price at (view branch.entry)) }
{
    let Some(d) = branch.number() else {
        return Err(at.stop(PriceCode::WrongKind));
    };
    let Ok(price) = whole(d, 3, MOST) else {
        return Err(at.stop(PriceCode::TooLarge));
    };
    if is_reserve(at.field) && price < 0 {
        return Err(at.stop(PriceCode::Negative));
    }
    Ok(price)
}

/// The prices of the items of a list, which is at this site; the fault is that of the first item
/// that has one.
pub fn read_entries(
    alloc: Global,
    at: PriceSite,
    branches: &[Branch<'_>],
) -> Result<Numbers, PriceStop>
    requires { length branches.now ≤ MOST_PERIODS }
    ensures count { IfOk result (λ ns. length ns.items ≡ length branches.now) }
    ensures fits { IfOk result (λ ns. All (IsPriceOf at.field) ns.items) }
    ensures value { Gives (λ ns. ns.items) result (prices at (views branches.now)) }
{
    let mut numbers = Numbers::make(alloc, branches.len() as u32)?;
    for branch in branches {
        let site = at.item(numbers.len() as u32 + 1);
        let number = read_price(site, *branch)?;
        numbers.push(number);
    }
    Ok(numbers)
}
