//! The answer of a renewable unit.
ghost use Rattle.std.specs.Prelude.{◌≡◌, ◌<◌, ◌≤ℤ◌, neg_ℤ, length};
ghost use Rattle.uc_model.specs.Data.{Flat};
ghost use Rattle.uc_model.specs.Earnings.{earnings};
ghost use Rattle.plain_lists.specs.Ranges.{IsFrom};
ghost use Rattle.uc_model.specs.Limits.{IsPower, price_limit};
ghost use Rattle.uc_model.specs.PlainUnits.{renewable_of, prices_of, schedule_of};
ghost use Rattle.plain_lists.specs.Sums.{int_at};
ghost use Rattle.uc_model.specs.Ties.{IsLeast};
ghost use Rattle.flat_answer.specs.Choices.{IsLeastChoice, IsBetween, sold_at};

use crate::choice::{PowerChoice, power_choice_at_price, write_choice};
use uc_model::units::{Answered, Prices, Renewable};

// The greatest power where it is paid for, and the least otherwise.
fn renewable_choice_at_price(least: i64, most: i64, price: i64) -> PowerChoice
    requires least { IsPower least }
    requires most { IsPower most }
    requires range { least ≤ℤ most }
    requires price { IsFrom (neg_ℤ price_limit) price_limit price }
    ensures { IsLeastChoice (IsBetween least most) (sold_at price) result.power result.earned }
{
    if price > 0 {
        return power_choice_at_price(price, most);
    }
    power_choice_at_price(price, least)
}

// The choice of a period, whose index counts from 0.
fn renewable_choice_in_period(flat: &Renewable, prices: &Prices, index: usize) -> PowerChoice
    requires prices { length (prices_of prices.now).energy ≡ length (renewable_of flat.now).least }
    requires index { index < length (renewable_of flat.now).least }
    ensures { IsLeastChoice
        (IsBetween (int_at (renewable_of flat.now).least index)
        (int_at (renewable_of flat.now).most index))
        (sold_at (int_at (prices_of prices.now).energy index)) result.power result.earned }
{
    let least = *flat.least.get(index);
    let most = *flat.most.get(index);
    renewable_choice_at_price(least, most, *prices.energy.get(index))
}

/// Leaves in `into` the least best schedule of a renewable unit at the prices, and what it earns:
/// in each period the greatest power where the energy price is above 0, and the least otherwise.
/// Unit, prices and `into` are over the same periods. Takes no memory.
pub fn best_flat(flat: &Renewable, prices: &Prices, into: &mut Answered)
    requires prices { length (prices_of prices.now).energy ≡ length (renewable_of flat.now).least }
    requires into { length (schedule_of into.old.response).on
        ≡ length (renewable_of flat.now).least }
    ensures least { IsLeast (Flat (renewable_of flat.now)) (prices_of prices.now)
        (schedule_of into.new.response) }
    ensures earned { into.new.earned ≡ earnings (Flat (renewable_of flat.now))
        (prices_of prices.now) (schedule_of into.new.response) }
{
    into.earned = 0;
    for k in 0..prices.energy.len() {
        let choice = renewable_choice_in_period(flat, prices, k);
        write_choice(into, k, choice);
    }
}
