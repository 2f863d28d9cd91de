//! A unit's last answer, kept as a guess of what the next one costs.
//!
//! An answer costs the same beside what prices pay, whatever they are. So at other prices it costs
//! about as much as the best one there, if these aren't far. Nothing rests on what is kept: it may
//! be any answer.
ghost use Rattle.std.specs.Prelude.{pos, neg_ℤ};
ghost use Rattle.plain_lists.specs.Ranges.{IsFrom};

use std::alloc::{AllocError, Global};
use uc_model::units::{Answered, Powers, Prices};

/// An amount that nothing costs.
pub const NO_BOUND: i64 = 4_000_000_000_000_000_000;

/// An answer of a unit, if it has one yet.
pub struct Kept {
    is_some: bool,
    // What it costs, without what the prices pay, in money.
    cost: i64,
    // Its power and reserve of each period, in kilowatts.
    power: Powers,
    reserve: Powers,
}

// By hand, so that dropping it is one call.
impl Drop for Kept {
    fn drop(self) {
        let Kept {
            is_some: _,
            cost: _,
            power: _,
            reserve: _,
        } = self;
    }
}

// What prices pay for a power and a reserve in the periods that all have.
fn market_revenue_of_power_and_reserve(prices: &Prices, power: &[u32], reserve: &[u32]) -> i64 {
    let both = power.len().min(reserve.len());
    let energy = prices.energy.as_slice();
    let held = prices.reserve.as_slice();
    let mut paid: i64 = 0;
    for index in 0..both.min(energy.len()).min(held.len()) {
        let for_power = energy[index].saturating_mul(i64::from(power[index]));
        let for_reserve = held[index].saturating_mul(i64::from(reserve[index]));
        paid = paid.saturating_add(for_power.saturating_add(for_reserve));
    }
    paid
}

// Copies powers to those places that both have.
fn copy_powers(from: &[u32], into: &mut Powers) {
    for index in 0..from.len().min(into.len()) {
        into.set(index, from[index]);
    }
}

impl Kept {
    /// Nothing yet, with room for so many periods.
    pub fn make(alloc: Global, periods: u32) -> Result<Kept, AllocError> {
        let power = Powers::filled(alloc, periods, 0)?;
        let reserve = Powers::filled(alloc, periods, 0)?;
        Ok(Kept {
            is_some: false,
            cost: 0,
            power,
            reserve,
        })
    }

    /// Keeps nothing any more.
    pub fn forget_kept_answer(&mut self) {
        self.is_some = false;
    }

    /// What it costs at prices, and an amount that nothing costs where nothing is kept.
    pub fn guess(&self, prices: &Prices) -> i64
        ensures { IsFrom (neg_ℤ (pos 4000000000000000000)) (pos 4000000000000000000) result }
    {
        if !self.is_some {
            return NO_BOUND;
        }
        let paid = market_revenue_of_power_and_reserve(
            prices,
            self.power.as_slice(),
            self.reserve.as_slice(),
        );
        self.cost.saturating_sub(paid).clamp(-NO_BOUND, NO_BOUND)
    }

    /// Keeps an answer to prices.
    pub fn keep(&mut self, prices: &Prices, answered: &Answered) {
        let response = &answered.response;
        copy_powers(response.power.as_slice(), &mut self.power);
        copy_powers(response.reserve.as_slice(), &mut self.reserve);
        let paid = market_revenue_of_power_and_reserve(
            prices,
            self.power.as_slice(),
            self.reserve.as_slice(),
        );
        self.cost = paid.saturating_sub(answered.earned);
        self.is_some = true;
    }
}
