//! The totals of a row, as they run while responses come in.
ghost use Rattle.std.specs.Prelude.{◌≡◌, suc, ◌+ℤ◌, neg_ℤ, length, slice_index};
ghost use Rattle.std.specs.List.{All};
ghost use Rattle.uc_model.specs.PlainCases.{proposal_of};
ghost use Rattle.uc_model.specs.PlainUnits.{schedule_of};
ghost use Rattle.uc_model.specs.Schedules.{power_in, reserve_in};
ghost use Rattle.uc_model.specs.Earnings.{amount_of};
ghost use Rattle.uc_model.specs.Limits.{IsTotal};
ghost use Rattle.price_space.specs.Totals.{TakesPower, IsRaised};

use plain_lists::lists::{Amounts, are_zero};
use uc_model::cases::Row;
use uc_model::units::{Flow, Powers, Response};

// A total with one more power in it.
fn total_with_power(total: i128, flow: Flow, power: u32) -> i128
    requires { TakesPower total }
    ensures { result ≡ total +ℤ amount_of flow power }
{
    match flow {
        Flow::Gives => total + i128::from(power),
        Flow::Takes => total - i128::from(power),
    }
}

fn add_powers_to_totals(totals: &mut Amounts, flow: Flow, powers: &[u32])
    requires lengths { length powers.now ≡ length totals.old.items }
    requires bound { All TakesPower totals.old.items }
    ensures raised { IsRaised totals.old.items totals.new.items
        (λ k. amount_of flow (slice_index powers.now k)) }
    ensures spare { totals.new.spare ≡ totals.old.spare }
{
    for k in 0..powers.len() {
        totals.set(k, total_with_power(*totals.get(k), flow, powers[k]));
    }
}

/// Counts the power of each period into the total of that period, in kilowatts. The lists are over
/// the same periods, and the totals before are at most 10^30 in magnitude. Takes no memory.
pub fn add_nonzero_powers_to_totals(totals: &mut Amounts, flow: Flow, powers: &Powers)
    requires lengths { length powers.now.items ≡ length totals.old.items }
    requires bound { All TakesPower totals.old.items }
    ensures raised { IsRaised totals.old.items totals.new.items
        (λ k. amount_of flow (slice_index powers.now.items k)) }
    ensures spare { totals.new.spare ≡ totals.old.spare }
{
    let powers = powers.as_slice();
    // Most responses hold no reserve.
    if !are_zero(powers) {
        add_powers_to_totals(totals, flow, powers);
    }
}

/// Adds the response of a thermal or renewable unit to the row's totals: its powers to `supply` and
/// its reserves to `reserve`, in kilowatts. The row and the response are over the same periods, and
/// the totals before are at most 10^13 in magnitude. Prices and value stay, and no memory is taken.
pub fn add_response(row: &mut Row, response: &Response)
    requires horizon { length (schedule_of response.now).on
        ≡ length (proposal_of row.old).prices.energy }
    requires supply_bound { All IsTotal (proposal_of row.old).supply }
    requires reserve_bound { All IsTotal (proposal_of row.old).reserve }
    ensures supply { IsRaised (proposal_of row.old).supply (proposal_of row.new).supply
        (λ k. power_in (schedule_of response.now) (suc k)) }
    ensures reserve { IsRaised (proposal_of row.old).reserve (proposal_of row.new).reserve
        (λ k. reserve_in (schedule_of response.now) (suc k)) }
    ensures prices { row.new.prices ≡ row.old.prices }
    ensures value { row.new.value ≡ row.old.value }
{
    add_nonzero_powers_to_totals(&mut row.supply, Flow::Gives, &response.power);
    add_nonzero_powers_to_totals(&mut row.reserve, Flow::Gives, &response.reserve);
}

/// Takes the response of a bid from the row's totals: what it buys lowers `supply`, in kilowatts.
/// The row and the response are over the same periods, and the totals before are at most 10^13 in
/// magnitude. All else of the row stays, and no memory is taken.
pub fn take_bid(row: &mut Row, response: &Response)
    requires horizon { length (schedule_of response.now).on
        ≡ length (proposal_of row.old).prices.energy }
    requires supply_bound { All IsTotal (proposal_of row.old).supply }
    ensures supply { IsRaised (proposal_of row.old).supply (proposal_of row.new).supply
        (λ k. neg_ℤ (power_in (schedule_of response.now) (suc k))) }
    ensures reserve { row.new.reserve ≡ row.old.reserve }
    ensures prices { row.new.prices ≡ row.old.prices }
    ensures value { row.new.value ≡ row.old.value }
{
    add_nonzero_powers_to_totals(&mut row.supply, Flow::Takes, &response.power);
}
