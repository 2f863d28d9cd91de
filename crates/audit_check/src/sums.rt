//! What answers earn and give, added up.
ghost use Rattle.std.specs.Prelude.{◌≡◌, suc, ◌*◌, pos, ◌+ℤ◌, length, IfOk, replicate, slice_index};
ghost use Rattle.std.specs.List.{All};
ghost use Rattle.price_space.specs.Totals.{IsRaised};
ghost use Rattle.task_deal.specs.declared.deal.TheConstants.{MOST_JOBS};
ghost use Rattle.plain_lists.specs.declared.limits.TheConstants.{MOST_UNITS};
ghost use Rattle.uc_model.specs.Earnings.{amount_of};
ghost use Rattle.uc_model.specs.PlainUnits.{schedule_of};
ghost use Rattle.uc_model.specs.Schedules.{reserve_in};
ghost use Rattle.plain_lists.specs.Sums.{int_at};
ghost use Rattle.audit_check.specs.Sums.{IsSmall, AreWithin};

use plain_lists::lists::Amounts;
use price_space::add_nonzero_powers_to_totals;
use std::alloc::{AllocError, Global};
use uc_model::units::{Answered, Flow};

/// What units earn in money, and in each period what they give to the system, less what bids take,
/// and have in reserve, in kilowatts.
#[derive(Drop)]
pub struct Sums {
    /// What they earn.
    pub earned: i128,
    /// What they give in each period, less what bids take.
    pub supply: Amounts,
    /// What they reserve in each period.
    pub reserve: Amounts,
}

// Two totals in one.
fn sum_of_totals(total: i128, amount: i128) -> i128
    requires total { IsSmall (MOST_JOBS * MOST_UNITS) total }
    requires amount { IsSmall MOST_UNITS amount }
    ensures { result ≡ total +ℤ amount }
{
    total + amount
}

// Adds an amount for each period to the total of that period.
fn add_amounts_by_period(totals: &mut Amounts, amounts: &Amounts)
    requires lengths { length amounts.now.items ≡ length totals.old.items }
    requires totals { All (IsSmall (MOST_JOBS * MOST_UNITS)) totals.old.items }
    requires amounts { All (IsSmall MOST_UNITS) amounts.now.items }
    ensures { IsRaised totals.old.items totals.new.items (int_at amounts.now.items) }
{
    for k in 0..totals.len() {
        totals.set(k, sum_of_totals(*totals.get(k), *amounts.get(k)));
    }
}

// Leaves 0 for each period.
fn write_zeros(totals: &mut Amounts)
    ensures { totals.new.items ≡ replicate (length totals.old.items) (pos 0) }
{
    for k in 0..totals.len() {
        totals.set(k, 0);
    }
}

impl Sums {
    /// Nothing, over so many periods.
    pub fn make(alloc: Global, periods: u32) -> Result<Sums, AllocError>
        ensures earned { IfOk result (λ s. s.earned ≡ pos 0) }
        ensures supply { IfOk result (λ s. s.supply.items ≡ replicate periods (pos 0)) }
        ensures reserve { IfOk result (λ s. s.reserve.items ≡ replicate periods (pos 0)) }
    {
        let supply = Amounts::filled(alloc, periods, 0)?;
        let reserve = Amounts::filled(alloc, periods, 0)?;
        Ok(Sums {
            earned: 0,
            supply,
            reserve,
        })
    }

    /// Goes back to nothing, over the same periods.
    pub fn clear(&mut self)
        ensures earned { self.new.earned ≡ pos 0 }
        ensures supply { self.new.supply.items ≡ replicate (length self.old.supply.items) (pos 0) }
        ensures reserve { self.new.reserve.items
            ≡ replicate (length self.old.reserve.items) (pos 0) }
    {
        self.earned = 0;
        write_zeros(&mut self.supply);
        write_zeros(&mut self.reserve);
    }

    /// Adds what an answer earns, gives or takes, and reserves.
    pub fn count(&mut self, flow: Flow, answer: &Answered)
        requires within { AreWithin (length (schedule_of answer.now.response).on) MOST_UNITS
            self.old }
        ensures earned { self.new.earned ≡ self.old.earned +ℤ answer.now.earned }
        ensures supply { IsRaised self.old.supply.items self.new.supply.items
            (λ k. amount_of flow (slice_index (schedule_of answer.now.response).power k)) }
        ensures reserve { IsRaised self.old.reserve.items self.new.reserve.items
            (λ k. reserve_in (schedule_of answer.now.response) (suc k)) }
    {
        self.earned += i128::from(answer.earned);
        add_nonzero_powers_to_totals(&mut self.supply, flow, &answer.response.power);
        add_nonzero_powers_to_totals(&mut self.reserve, Flow::Gives, &answer.response.reserve);
    }

    /// Adds other sums over the same periods.
    pub fn add(&mut self, other: &Sums)
        requires within { AreWithin (length other.now.supply.items)
            (MOST_JOBS * MOST_UNITS) self.old }
        requires other { AreWithin (length other.now.supply.items) MOST_UNITS other.now }
        ensures earned { self.new.earned ≡ self.old.earned +ℤ other.now.earned }
        ensures supply { IsRaised self.old.supply.items self.new.supply.items
            (int_at other.now.supply.items) }
        ensures reserve { IsRaised self.old.reserve.items self.new.reserve.items
            (int_at other.now.reserve.items) }
    {
        self.earned += other.earned;
        add_amounts_by_period(&mut self.supply, &other.supply);
        add_amounts_by_period(&mut self.reserve, &other.reserve);
    }
}
